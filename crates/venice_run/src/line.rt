//! Lines of words, names and numbers, with one space between, and those of refusals and faults.

ghost use Rattle.std.specs.Prelude.{◌≡◌, ◌∷◌, ◌++◌, [], map, IfOk, OnOk};
ghost use Rattle.venice_run.specs.Explain.{numbers_line};
ghost use Rattle.venice_run.specs.Line.{line_with as line_with_lem, refusal_parts, parse_parts, check_parts, array_parts, fit_parts, grant_parts, image_parts, assembler_parts, stop_parts, wrong_at, wrong_array, spaced, part_text, parts_text, Words, Number};
ghost use Rattle.venice_run.specs.Parts.{part_of};

use crate::refusal::{Kind, Refusal, Shortage};
use array_file::{ArrayFault, FitFault};
use array_syntax::ParseFault;
use image_loader::ImageFault;
use itoa::Buffer;
use shape_check::CheckFault;
use std::alloc::{AllocError, Global};
use ven_base::Name;
use venice_asm::AsmFault;
use venice_machine::{GrantFault, Stop};

/// A part of a line.
#[derive(Clone, Copy)]
pub(crate) enum Part<'a> {
    /// Words, or a name.
    Words(&'a [u8]),
    Number(u64),
}

/// `error:`, the parts, each behind a space, and a line end.
pub(crate) fn line_with(alloc: Global, parts: &[Part]) -> Result<Vec<u8>, AllocError>
    ensures { IfOk result (λ line. line.items ≡ line_with_lem (map part_of parts.now)) }
{
    let mut line = Vec::new(alloc);
    push_line(&mut line, b"error:", parts)?;
    Ok(line)
}

/// The line of a refusal.
pub(crate) fn refusal_line(alloc: Global, refusal: Refusal) -> Result<Vec<u8>, AllocError>
    ensures { IfOk result (λ line. line.items ≡ line_with_lem (refusal_parts refusal)) }
{
    match refusal {
        Refusal::Usage => line_with(alloc, &[Part::Words(b"usage")]),
        Refusal::FileMissing => line_with(alloc, &[Part::Words(b"file missing")]),
        Refusal::TooLong(kind) => {
            line_with(alloc, &[Part::Words(kind.word()), Part::Words(b"too long")])
        }
        Refusal::Parse(fault) => parse_line(alloc, fault),
        Refusal::Check(fault) => check_line(alloc, fault),
        Refusal::Scratchpad(shortage) => scratchpad_line(alloc, shortage),
        Refusal::Arrays(fault) => array_line(alloc, fault),
        Refusal::Fit(fault) => fit_line(alloc, fault),
        Refusal::Grants(fault) => grant_line(alloc, fault),
        Refusal::Image(fault) => image_line(alloc, fault),
        Refusal::Text(fault) => assembler_line(alloc, fault),
        Refusal::Machine(stop) => stop_line(alloc, stop),
    }
}

fn parse_line(alloc: Global, fault: ParseFault) -> Result<Vec<u8>, AllocError>
    ensures { IfOk result (λ line. line.items ≡ line_with_lem (parse_parts fault)) }
{
    let kind = Kind::Program;
    match fault {
        ParseFault::NotAscii { at } => line_at(alloc, kind, b"not ascii", at),
        ParseFault::Unexpected { at } => line_at(alloc, kind, b"unexpected", at),
        ParseFault::NameTooLong { at } => line_at(alloc, kind, b"name too long", at),
        ParseFault::NumberTooLarge { at } => line_at(alloc, kind, b"number too large", at),
        ParseFault::TooManyStatements { at } => line_at(alloc, kind, b"too many statements", at),
        ParseFault::TooManyNodes { at } => line_at(alloc, kind, b"too many nodes", at),
        ParseFault::TooDeep { at } => line_at(alloc, kind, b"too deep", at),
        ParseFault::Memory => line_with(alloc, &[Part::Words(b"memory")]),
    }
}

fn check_line(alloc: Global, fault: CheckFault) -> Result<Vec<u8>, AllocError>
    ensures { IfOk result (λ line. line.items ≡ line_with_lem (check_parts fault)) }
{
    let kind = Kind::Program;
    match fault {
        CheckFault::Twice { at } => line_at(alloc, kind, b"twice", at),
        CheckFault::Unknown { at } => line_at(alloc, kind, b"unknown", at),
        CheckFault::TypeMismatch { at } => line_at(alloc, kind, b"type mismatch", at),
        CheckFault::ShapeMismatch { at } => line_at(alloc, kind, b"shape mismatch", at),
        CheckFault::LiteralAlone { at } => line_at(alloc, kind, b"literal alone", at),
        CheckFault::LiteralRange { at } => line_at(alloc, kind, b"literal range", at),
        CheckFault::BadShape { at } => line_at(alloc, kind, b"bad shape", at),
        CheckFault::BadSection { at } => line_at(alloc, kind, b"bad section", at),
        CheckFault::BadStretch { at } => line_at(alloc, kind, b"bad stretch", at),
        CheckFault::NoOutput => line_with(alloc, &[Part::Words(b"program no output")]),
        CheckFault::TooMuchWork { need } => line_with(
            alloc,
            &[Part::Words(b"program too much work"), Part::Number(need)],
        ),
        CheckFault::Memory => line_with(alloc, &[Part::Words(b"memory")]),
    }
}

fn array_line(alloc: Global, fault: ArrayFault) -> Result<Vec<u8>, AllocError>
    ensures { IfOk result (λ line. line.items ≡ line_with_lem (array_parts fault)) }
{
    match &fault {
        ArrayFault::Unexpected { at } => line_at(alloc, Kind::Inputs, b"unexpected", *at),
        ArrayFault::OutOfType { at } => line_at(alloc, Kind::Inputs, b"out of type", *at),
        ArrayFault::CountWrong { name, need, have } => {
            count_line(alloc, name, u64::from(*need), u64::from(*have))
        },
        ArrayFault::Twice { name } => array_name_line(alloc, b"twice", name),
        ArrayFault::Memory => line_with(alloc, &[Part::Words(b"memory")]),
    }
}

fn count_line(alloc: Global, name: &Name, need: u64, have: u64) -> Result<Vec<u8>, AllocError>
    ensures { IfOk result
        (λ line. line.items ≡ line_with_lem (array_parts (ArrayFault.CountWrong name.now need have))) }
{
    let parts = [
        Part::Words(b"inputs count"),
        Part::Words(name.bytes()),
        Part::Words(b"need"),
        Part::Number(need),
        Part::Words(b"have"),
        Part::Number(have),
    ];
    line_with(alloc, &parts)
}

fn fit_line(alloc: Global, fault: FitFault) -> Result<Vec<u8>, AllocError>
    ensures { IfOk result (λ line. line.items ≡ line_with_lem (fit_parts fault)) }
{
    match &fault {
        FitFault::Missing { name } => array_name_line(alloc, b"missing", name),
        FitFault::TypeWrong { name } => array_name_line(alloc, b"type", name),
        FitFault::ShapeWrong { name } => array_name_line(alloc, b"shape", name),
        FitFault::Extra { name } => array_name_line(alloc, b"extra", name),
    }
}

fn grant_line(alloc: Global, fault: GrantFault) -> Result<Vec<u8>, AllocError>
    ensures { IfOk result (λ line. line.items ≡ line_with_lem (grant_parts fault)) }
{
    match fault {
        GrantFault::Bad { at } => line_at(alloc, Kind::Grants, b"bad", at),
        GrantFault::TooLong => line_with(alloc, &[Part::Words(b"grants too long")]),
        GrantFault::Memory => line_with(alloc, &[Part::Words(b"memory")]),
    }
}

fn image_line(alloc: Global, fault: ImageFault) -> Result<Vec<u8>, AllocError>
    ensures { IfOk result (λ line. line.items ≡ line_with_lem (image_parts fault)) }
{
    let kind = Kind::Image;
    match fault {
        ImageFault::Truncated { at } => line_at(alloc, kind, b"truncated", at),
        ImageFault::BadMagic => line_with(alloc, &[Part::Words(b"image magic")]),
        ImageFault::BadTable { at } => line_at(alloc, kind, b"table", at),
        ImageFault::BadInstr { at } => line_at(alloc, kind, b"instruction", at),
        ImageFault::BadTarget { at } => line_at(alloc, kind, b"target", at),
        ImageFault::NoHalt => line_with(alloc, &[Part::Words(b"image no halt")]),
        ImageFault::Trailing { at } => line_at(alloc, kind, b"trailing", at),
        ImageFault::Memory => line_with(alloc, &[Part::Words(b"memory")]),
    }
}

fn assembler_line(alloc: Global, fault: AsmFault) -> Result<Vec<u8>, AllocError>
    ensures { IfOk result (λ line. line.items ≡ line_with_lem (assembler_parts fault)) }
{
    let kind = Kind::Text;
    match fault {
        AsmFault::Unexpected { at } => line_at(alloc, kind, b"unexpected", at),
        AsmFault::FieldRange { at } => line_at(alloc, kind, b"range", at),
        AsmFault::LabelTwice { at } => line_at(alloc, kind, b"label twice", at),
        AsmFault::UnknownLabel { at } => line_at(alloc, kind, b"label unknown", at),
        AsmFault::Table { at } => line_at(alloc, kind, b"table", at),
        AsmFault::NoHalt => line_with(alloc, &[Part::Words(b"text no halt")]),
        AsmFault::Memory => line_with(alloc, &[Part::Words(b"memory")]),
    }
}

/// Why the machine stopped; `pc` is an instruction's number, from 0.
fn stop_line(alloc: Global, stop: Stop) -> Result<Vec<u8>, AllocError>
    ensures { IfOk result (λ line. line.items ≡ line_with_lem (stop_parts stop)) }
{
    match stop {
        Stop::Hazard { pc, cycle } => hazard_line(alloc, pc, cycle),
        Stop::OutOfRange { pc } => { number_line(alloc, b"machine out of range pc", u64::from(pc)) }
        Stop::BadCount { pc } => number_line(alloc, b"machine bad count pc", u64::from(pc)),
        Stop::Budget { steps } => number_line(alloc, b"machine budget", steps),
    }
}

fn hazard_line(alloc: Global, pc: u32, cycle: u64) -> Result<Vec<u8>, AllocError>
    ensures { IfOk result (λ line. line.items ≡ line_with_lem (stop_parts (Stop.Hazard pc cycle))) }
{
    let parts = [
        Part::Words(b"machine hazard pc"),
        Part::Number(u64::from(pc)),
        Part::Words(b"cycle"),
        Part::Number(cycle),
    ];
    line_with(alloc, &parts)
}

/// Words and a number.
fn number_line(alloc: Global, words: &[u8], number: u64) -> Result<Vec<u8>, AllocError>
    ensures { IfOk result (λ line. line.items ≡ line_with_lem (Words words.now ∷ Number number ∷ [])) }
{
    line_with(alloc, &[Part::Words(words), Part::Number(number)])
}

fn scratchpad_line(alloc: Global, shortage: Shortage) -> Result<Vec<u8>, AllocError>
    ensures { IfOk result (λ line. line.items ≡ line_with_lem (refusal_parts (Refusal.Scratchpad shortage))) }
{
    let parts = [
        Part::Words(b"scratchpad need"),
        Part::Number(shortage.need),
        Part::Words(b"have"),
        Part::Number(u64::from(shortage.have)),
    ];
    line_with(alloc, &parts)
}

/// What is wrong at a place of a text, which counts bytes from 0.
fn line_at(alloc: Global, kind: Kind, words: &[u8], at: u32) -> Result<Vec<u8>, AllocError>
    ensures { IfOk result (λ line. line.items ≡ line_with_lem (wrong_at kind words.now at)) }
{
    let parts = [
        Part::Words(kind.word()),
        Part::Words(words),
        Part::Words(b"at"),
        Part::Number(u64::from(at)),
    ];
    line_with(alloc, &parts)
}

/// What is wrong with an array of the inputs.
fn array_name_line<'a>(
    alloc: Global,
    words: &'a [u8],
    name: &'a Name,
) -> Result<Vec<u8>, AllocError>
    ensures { IfOk result (λ line. line.items ≡ line_with_lem (wrong_array words.now name.now)) }
{
    let parts = [
        Part::Words(b"inputs"),
        Part::Words(words),
        Part::Words(name.bytes()),
    ];
    line_with(alloc, &parts)
}

/// A line: its first word, the parts, each behind a space, and a line end.
pub(crate) fn push_line(text: &mut Vec<u8>, word: &[u8], parts: &[Part]) -> Result<(), AllocError>
    ensures { OnOk result (text.new.items ≡ text.old.items ++ spaced word.now (map part_of parts.now)) }
{
    text.extend_from_slice(word)?;
    push_parts(text, parts)?;
    text.push(b'\n')?;
    Ok(())
}

/// A line of a word and numbers.
pub(crate) fn push_numbers(
    text: &mut Vec<u8>,
    word: &[u8],
    numbers: &[u32],
) -> Result<(), AllocError>
    ensures { OnOk result (text.new.items ≡ text.old.items ++ numbers_line word.now numbers.now) }
{
    text.extend_from_slice(word)?;
    for number in numbers {
        push_part(text, Part::Number(u64::from(*number)))?;
    }
    text.push(b'\n')?;
    Ok(())
}

fn push_parts(line: &mut Vec<u8>, parts: &[Part]) -> Result<(), AllocError>
    ensures { OnOk result (line.new.items ≡ line.old.items ++ parts_text (map part_of parts.now)) }
{
    for part in parts {
        push_part(line, *part)?;
    }
    Ok(())
}

/// A space, and the part.
fn push_part(line: &mut Vec<u8>, part: Part) -> Result<(), AllocError>
    ensures { OnOk result (line.new.items ≡ line.old.items ++ 32 ∷ part_text (part_of part.entry)) }
{
    line.push(b' ')?;
    match part {
        Part::Words(words) => line.extend_from_slice(words),
        Part::Number(number) => line.extend_from_slice(Buffer::new().format(number).as_bytes()),
    }
}
