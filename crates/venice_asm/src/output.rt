//! The canonical text of an image (docs/FORMATS.md, "Assembler texts").

ghost use Rattle.std.specs.Prelude.{◌≡◌, ◌++◌, [], ◌∷◌, map, IfOk, OnOk, codes, decimal, All};
ghost use Rattle.venice_isa.specs.Instr.{HasRanges};
ghost use Rattle.venice_isa.specs.Encoding.{is_cast};
ghost use Rattle.venice_asm.specs.Canonical.{canonical, head_text, statements_text, operand_text, statement_text, mode_of, vector_operands, statement_of, array_statement, line_of};
ghost use Rattle.venice_asm.specs.Faults.{DenotesImage};
ghost use Rattle.venice_asm.specs.Writing.{HasWord};
ghost use Rattle.venice_asm.specs.declared.head.Head.TheVariants as heads;

use crate::head::Head;
use crate::label::Label;
use crate::operand::{Operand, direction_word, letter, parameter_word, transfer_word};
use crate::spelling::Keyword;
use image_loader::Image;
use itoa::Buffer;
use std::alloc::{AllocError, Global};
use ven_base::Entry;
use venice_isa::{Code, Instr, VecKind, VecOp, Version};

fn push_word(text: &mut Vec<u8>, word: &[u8]) -> Result<(), AllocError>
    ensures { OnOk result (text.new.items ≡ text.old.items ++ (codes " " ++ word.now)) }
{
    text.push(b' ')?;
    text.extend_from_slice(word)
}

fn push_number(text: &mut Vec<u8>, number: u32) -> Result<(), AllocError>
    ensures { OnOk result (text.new.items ≡ text.old.items ++ decimal number) }
{
    text.extend_from_slice(Buffer::new().format(number).as_bytes())
}

/// An operand, behind a space where it isn't one of a shape's.
fn push_operand(text: &mut Vec<u8>, operand: &Operand) -> Result<(), AllocError>
    requires { HasWord operand.now }
    ensures { OnOk result (text.new.items ≡ text.old.items ++ operand_text operand.now) }
{
    match operand {
        Operand::Name(name) => push_word(text, name.bytes()),
        Operand::Number(n) => {
            text.push(b' ')?;
            push_number(text, *n)
        }
        Operand::Output(output) => push_word(text, direction_word(*output)),
        Operand::Open => text.extend_from_slice(b"["),
        Operand::Rows(n) | Operand::Columns(n) => push_number(text, *n),
        Operand::Comma => text.extend_from_slice(b","),
        Operand::Close => text.extend_from_slice(b"]"),
        Operand::Register(number) => {
            text.extend_from_slice(b" r")?;
            push_number(text, u32::from(*number))
        }
        Operand::Parameter(number) => push_word(text, parameter_word(*number)),
        Operand::Write(write) => push_word(text, transfer_word(*write)),
        Operand::Operation(op) => push_word(text, op.word()),
        Operand::Elem(elem) => push_word(text, elem.word()),
        Operand::ModeA(a) => push_word(text, &[letter(*a)]),
        Operand::ModeAB(a, b) => push_word(text, &[letter(*a), letter(*b)]),
        Operand::Sum => push_word(text, b"acc"),
    }
}

/// A line: its first word, its operands, and a line end.
fn push_line(text: &mut Vec<u8>, head: Head, operands: &[Operand]) -> Result<(), AllocError>
    requires { All HasWord operands.now }
    ensures { OnOk result (text.new.items ≡ text.old.items ++ statement_text (line_of head operands.now)) }
{
    text.extend_from_slice(head.word())?;
    for operand in operands {
        push_operand(text, operand)?;
    }
    text.push(b'\n')?;
    Ok(())
}

fn push_array(text: &mut Vec<u8>, entry: &Entry) -> Result<(), AllocError>
    ensures { OnOk result (text.new.items ≡ text.old.items ++ statement_text (array_statement entry.now)) }
{
    let Some(name) = Label::from_bytes(entry.name.bytes()) else {
        return Ok(());
    };
    push_line(
        text,
        Head::Array,
        &[
            Operand::Name(name),
            Operand::Output(entry.output),
            Operand::Elem(entry.elem),
            Operand::Open,
            Operand::Rows(entry.shape.rows),
            Operand::Comma,
            Operand::Columns(entry.shape.cols),
            Operand::Close,
            Operand::Number(entry.place),
        ],
    )
}

/// The mode of a vector instruction: a letter for each operand that it uses.
fn mode_of(kind: VecKind) -> Operand
    ensures { result ≡ mode_of kind }
{
    if kind.op.uses_b() {
        Operand::ModeAB(kind.a_scalar, kind.b_scalar)
    } else {
        Operand::ModeA(kind.a_scalar)
    }
}

/// Whether the operation's operand has a type of its own.
fn is_cast(op: VecOp) -> bool
    ensures { result ≡ is_cast op }
{
    matches!(op, VecOp::Cast)
}

fn push_vector(text: &mut Vec<u8>, kind: VecKind) -> Result<(), AllocError>
    ensures { OnOk result (text.new.items
        ≡ text.old.items ++ statement_text (line_of heads.Vec (vector_operands kind))) }
{
    let (op, elem, from) = (
        Operand::Operation(kind.op),
        Operand::Elem(kind.elem),
        Operand::Elem(kind.from),
    );
    let mode = mode_of(kind);
    match (is_cast(kind.op), kind.acc) {
        (true, true) => push_line(text, Head::Vec, &[op, elem, from, mode, Operand::Sum]),
        (true, false) => push_line(text, Head::Vec, &[op, elem, from, mode]),
        (false, true) => push_line(text, Head::Vec, &[op, elem, mode, Operand::Sum]),
        (false, false) => push_line(text, Head::Vec, &[op, elem, mode]),
    }
}

/// The line of an instruction.
fn push_instr(text: &mut Vec<u8>, instr: Instr) -> Result<(), AllocError>
    requires { HasRanges instr }
    ensures { OnOk result (text.new.items ≡ text.old.items ++ statement_text (statement_of instr)) }
{
    use Operand::{Number, Parameter, Register, Write};
    match instr {
        Instr::Halt => push_line(text, Head::Halt, &[]),
        Instr::Li { d, n } => push_line(text, Head::Li, &[Register(d), Number(n)]),
        Instr::Addi { d, a, n } => push_line(
            text,
            Head::Addi,
            &[Register(d), Register(a), Number(n)],
        ),
        Instr::Add { d, a, b } => push_three(text, Head::Add, d, a, b),
        Instr::Sub { d, a, b } => push_three(text, Head::Sub, d, a, b),
        Instr::Mul { d, a, b } => push_three(text, Head::Mul, d, a, b),
        Instr::Div { d, a, b } => push_three(text, Head::Div, d, a, b),
        Instr::Bnz { a, to } => push_line(text, Head::Bnz, &[Register(a), Number(to)]),
        Instr::Blt { a, b, to } => push_line(
            text,
            Head::Blt,
            &[Register(a), Register(b), Number(to)],
        ),
        Instr::Jmp { to } => push_line(text, Head::Jmp, &[Number(to)]),
        Instr::Set { field, a } => push_line(text, Head::Set, &[Parameter(field), Register(a)]),
        Instr::Vec(kind) => push_vector(text, kind),
        Instr::Dma { write } => push_line(text, Head::Dma, &[Write(write)]),
        Instr::Rwait { a } => push_line(text, Head::Rwait, &[Register(a)]),
        Instr::Wwait { a } => push_line(text, Head::Wwait, &[Register(a)]),
        Instr::Vwait => push_line(text, Head::Vwait, &[]),
        Instr::Tag { a } => push_line(text, Head::Tag, &[Register(a)]),
        Instr::Twait { a } => push_line(text, Head::Twait, &[Register(a)]),
    }
}

fn push_three(text: &mut Vec<u8>, head: Head, d: u8, a: u8, b: u8) -> Result<(), AllocError>
    ensures { OnOk result (text.new.items ≡ text.old.items ++ statement_text (line_of head
        (Operand.Register d ∷ Operand.Register a ∷ Operand.Register b ∷ []))) }
{
    push_line(
        text,
        head,
        &[
            Operand::Register(d),
            Operand::Register(a),
            Operand::Register(b),
        ],
    )
}

/// The version where it is two, and the sizes of scratchpad and memory.
fn push_head(text: &mut Vec<u8>, code: &Code, spad: u32, memory: u32) -> Result<(), AllocError>
    ensures { OnOk result (text.new.items ≡ text.old.items ++ head_text code.now.version spad memory) }
{
    if code.version == Version::Two {
        push_line(text, Head::Version, &[Operand::Number(2)])?;
    }
    push_line(text, Head::Spad, &[Operand::Number(spad)])?;
    push_line(text, Head::Memory, &[Operand::Number(memory)])
}

fn push_arrays(text: &mut Vec<u8>, entries: &[Entry]) -> Result<(), AllocError>
    ensures { OnOk result (text.new.items ≡ text.old.items ++ statements_text (map array_statement entries.now)) }
{
    for entry in entries {
        push_array(text, entry)?;
    }
    Ok(())
}

fn push_code(text: &mut Vec<u8>, code: &Code) -> Result<(), AllocError>
    ensures { OnOk result (text.new.items ≡ text.old.items ++ statements_text (map statement_of code.now.instrs)) }
{
    for instr in &code.instrs {
        push_instr(text, *instr)?;
    }
    Ok(())
}

/// The image's canonical text (docs/FORMATS.md, "Assembler texts"): the lines in their order, with one space between
/// words, numbers in decimal, and no labels. It denotes the image. Each line ends with byte 10.
pub fn disassemble(alloc: Global, image: &Image) -> Result<Vec<u8>, AllocError>
    ensures text { IfOk result (λ text. text.items ≡ canonical image.now) }
    ensures denotes { IfOk result (λ text. DenotesImage text.items image.now) }
{
    let mut text = Vec::new(alloc);
    push_head(&mut text, &image.code, image.spad, image.memory)?;
    push_arrays(&mut text, &image.arrays)?;
    push_code(&mut text, &image.code)?;
    Ok(text)
}
