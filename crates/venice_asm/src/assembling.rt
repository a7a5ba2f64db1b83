//! From a text to an image (docs/FORMATS.md, "Assembler texts").

ghost use Rattle.std.specs.Prelude.{◌≡◌, ◌≤◌, ◌<◌, map, length, MatchResult};
ghost use Rattle.image_loader.specs.Image.{raw_entries};
ghost use Rattle.image_loader.specs.Table.{array_limit, file_limit, offset_of};
ghost use Rattle.venice_asm.specs.Faults.{DenotesImage, IsAnswered};
ghost use Rattle.venice_asm.specs.Meaning.{number_for};
ghost use Rattle.venice_asm.specs.Parts.{raw_array, target_operand};
ghost use Rattle.venice_asm.specs.Resolving.{AreResolved, LosesTarget};
ghost use Rattle.venice_asm.specs.Steps.{IsEntryOf, IsWrongEntry, IsGoodHeader, IsBadHeader, IsTableOf, IsBadTable};

use crate::fault::AsmFault;
use crate::label::Label;
use crate::labels::number_among;
use crate::phase::{ArrayLine, Reference, Target};
use crate::reading::Reading;
use crate::statement::with_target;
use image_loader::{ARRAY_LIMIT, EntryFields, EntryPart, Image, check_entry};
use indexmap::IndexMap;
use std::alloc::Global;
use ven_base::{CELL_LIMIT, Entry, MEMORY_LIMIT};
use venice_isa::{Code, Instr};

/// The number that a target names.
fn number_named(labels: &IndexMap<Label, u32>, target: &Target) -> Option<u32>
    ensures { result ≡ number_for labels.now.entries (target_operand target.now) }
{
    match target {
        Target::Number(n) => Some(*n),
        Target::Label(label) => number_among(labels, label),
    }
}

/// Gives each jump its target; at fault at the first that names no instruction.
fn resolve(
    labels: &IndexMap<Label, u32>,
    references: &[Reference],
    instrs: &mut [Instr],
) -> Result<(), AsmFault>
    ensures { MatchResult result (λ _. AreResolved labels.now.entries references.now instrs.old instrs.new)
        (LosesTarget labels.now.entries references.now instrs.old) }
{
    for reference in references {
        let to = match number_named(labels, &reference.target) {
            Some(n) if (n as usize) < instrs.len() => n,
            _ => return Err(AsmFault::UnknownLabel { at: reference.at }),
        };
        let place = reference.instr as usize;
        if place < instrs.len() {
            instrs[place] = with_target(instrs[place], to);
        }
    }
    Ok(())
}

/// What is wrong with the numbers of the image's header, if anything is.
fn check_header(spad: u32, memory: u32, array_count: u32) -> Result<(), AsmFault>
    ensures { MatchResult result (λ _. IsGoodHeader spad memory array_count) (IsBadHeader spad memory array_count) }
{
    if spad == 0 || spad > CELL_LIMIT {
        return Err(AsmFault::Table { at: 4 });
    }
    if memory > MEMORY_LIMIT {
        return Err(AsmFault::Table { at: 8 });
    }
    if array_count > ARRAY_LIMIT {
        return Err(AsmFault::Table { at: 12 });
    }
    Ok(())
}

/// Where a part of an entry begins, behind the entry's beginning, where the name has so many bytes.
fn offset_of(part: EntryPart, name_bytes: u32) -> u32
    requires { name_bytes ≤ 31 }
    ensures { result ≡ offset_of part name_bytes }
{
    match part {
        EntryPart::NameLength => 0,
        EntryPart::NameBytes => 1,
        EntryPart::Kind => 1 + name_bytes,
        EntryPart::ElementType => 2 + name_bytes,
        EntryPart::Rows => 3 + name_bytes,
        EntryPart::Columns => 7 + name_bytes,
        EntryPart::Place => 11 + name_bytes,
    }
}

/// The entry of an array, behind these, at this place of the image's bytes.
fn entry_of(
    array: &ArrayLine,
    memory: u32,
    earlier: &[Entry],
    place: u32,
) -> Result<Entry, AsmFault>
    requires { place < 12000 }
    ensures { MatchResult result (IsEntryOf memory (raw_entries earlier.now) array.now)
        (IsWrongEntry memory (raw_entries earlier.now) array.now place) }
{
    let fields = EntryFields {
        name: array.name.bytes(),
        kind: u8::from(array.output),
        elem: array.elem as u8,
        rows: array.rows,
        columns: array.columns,
        place: array.place,
    };
    match check_entry(&fields, memory, earlier) {
        Ok(entry) => Ok(entry),
        Err(part) => Err(AsmFault::Table {
            at: place + offset_of(part, array.name.bytes().len() as u32),
        }),
    }
}

/// The table of these arrays, at most 256; at fault at the first field that breaks a rule.
fn table_of(alloc: Global, arrays: &[ArrayLine], memory: u32) -> Result<Vec<Entry>, AsmFault>
    requires { length arrays.now ≤ array_limit }
    ensures { MatchResult result (λ entries. IsTableOf memory (map raw_array arrays.now) entries.items)
        (IsBadTable memory (map raw_array arrays.now)) }
{
    let mut entries = Vec::new(alloc);
    let mut place = 20;
    for array in arrays {
        let entry = match entry_of(array, memory, &entries, place) {
            Ok(entry) => entry,
            Err(fault) => return Err(fault),
        };
        if entries.push(entry).is_err() {
            return Err(AsmFault::Memory);
        }
        place += 15 + array.name.bytes().len() as u32;
    }
    Ok(entries)
}

/// The image that the text denotes, where it has no fault, or else its first fault (docs/FORMATS.md, "Assembler
/// texts"). Takes time linear in the text. Condition: the length is at most `FILE_LIMIT`.
///
/// `Unexpected`, `FieldRange` and `LabelTwice` come first, from left to right; then `UnknownLabel`, `Table` and
/// `NoHalt`, in this order.
pub fn assemble(alloc: Global, text: &[u8]) -> Result<Image, AsmFault>
    requires { length text.now ≤ file_limit }
    ensures { MatchResult result (λ image. DenotesImage text.now image) (λ fault. IsAnswered text.now fault) }
{
    let mut reading = Reading::new(alloc);
    loop {
        if !reading.turn(text)? {
            break;
        }
    }
    let Reading {
        version,
        spad,
        memory,
        arrays,
        array_count,
        labels,
        mut instrs,
        references,
        ..
    } = reading;
    match resolve(&labels, &references, &mut instrs) {
        Ok(()) => {}
        Err(unknown) => return Err(unknown),
    }
    match check_header(spad, memory, array_count) {
        Ok(()) => {}
        Err(fault) => return Err(fault),
    }
    let arrays = match table_of(alloc, &arrays, memory) {
        Ok(entries) => entries,
        Err(fault) => return Err(fault),
    };
    match Code::new(version, instrs) {
        Some(code) => Ok(Image {
            spad,
            memory,
            arrays,
            code,
        }),
        None => Err(AsmFault::NoHalt),
    }
}
