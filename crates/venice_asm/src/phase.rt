//! What has been read of a text's line, and of its lines.

use crate::head::Head;
use crate::label::Label;
use ven_base::Elem;

/// What may begin a line: the version or the scratchpad's size; that size; the memory's size; an array or code; code
/// alone.
#[derive(Clone, Copy)]
pub enum Section {
    Version,
    Spad,
    Memory,
    Arrays,
    Code,
}

/// A name at the start of a line of code, at this place in bytes: a label, if a `:` follows, and else an instruction's
/// word.
#[derive(Clone, Copy)]
pub struct Opening {
    pub name: Label,
    pub at: u32,
}

/// What has just been read of a line: nothing, a name, a label with its `:`, or its first word and some operands, of
/// which the last stands at this place in bytes.
#[derive(Clone, Copy)]
pub enum Phase {
    Start,
    AfterName(Opening),
    AfterLabel,
    Behind(Head, u32),
}

/// An array as its line says. `place` counts bytes of memory from 0.
#[derive(Clone, Copy)]
pub struct ArrayLine {
    pub name: Label,
    pub output: bool,
    pub elem: Elem,
    pub rows: u32,
    pub columns: u32,
    pub place: u32,
}

/// Where a jump goes: to a label, or to the instruction with this number.
#[derive(Clone, Copy)]
pub enum Target {
    Label(Label),
    Number(u32),
}

/// The target of a jump: that of instruction `instr`, in a token that begins at this place in bytes.
#[derive(Clone, Copy)]
pub struct Reference {
    pub at: u32,
    pub instr: u32,
    pub target: Target,
}
