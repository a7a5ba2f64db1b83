//! The words that begin a line, and what stands behind each.

ghost use Rattle.std.specs.Prelude.{◌≡◌};
ghost use Rattle.venice_asm.specs.Spelling.{head_word};
ghost use Rattle.venice_asm.specs.Lines.{head_kinds, operation_kinds, is_instr, has_head};

use crate::spelling::Keyword;
use venice_isa::{VecOp, Version};

/// The word that begins a line, behind its label: of the text's head, of an array, or an instruction's.
#[derive(Clone, Copy)]
pub enum Head {
    Version,
    Spad,
    Memory,
    Array,
    Halt,
    Li,
    Addi,
    Add,
    Sub,
    Mul,
    Div,
    Bnz,
    Blt,
    Jmp,
    Set,
    Vec,
    Dma,
    Rwait,
    Wwait,
    Vwait,
    Tag,
    Twait,
}

/// What may stand in a place of a line.
#[derive(Clone, Copy)]
pub enum Kind {
    /// The number of the version, 2.
    Version,
    Number,
    /// The name of an array.
    Array,
    /// `in` or `out`.
    Direction,
    Open,
    Rows,
    Comma,
    Columns,
    Close,
    Register,
    Parameter,
    /// A label, or the number of an instruction.
    Target,
    /// `read` or `write`.
    Transfer,
    Operation,
    Elem,
    /// A mode of one letter.
    ModeA,
    /// A mode of two letters.
    ModeAB,
    /// A mode of two letters of which the second is `v`.
    ModeFlags,
    /// `acc` or nothing.
    Sum,
    /// Nothing.
    NoSum,
}

/// The words that begin an instruction, in the order of their codes.
pub const INSTRUCTIONS: [Head; 18] = [
    Head::Halt,
    Head::Li,
    Head::Addi,
    Head::Add,
    Head::Sub,
    Head::Mul,
    Head::Div,
    Head::Bnz,
    Head::Blt,
    Head::Jmp,
    Head::Set,
    Head::Vec,
    Head::Dma,
    Head::Rwait,
    Head::Wwait,
    Head::Vwait,
    Head::Tag,
    Head::Twait,
];

impl Keyword for Head {
    ghost spelling = { head_word };

    fn word(self) -> &'static [u8] {
        match self {
            Head::Version => b"version",
            Head::Spad => b"spad",
            Head::Memory => b"memory",
            Head::Array => b"array",
            Head::Halt => b"halt",
            Head::Li => b"li",
            Head::Addi => b"addi",
            Head::Add => b"add",
            Head::Sub => b"sub",
            Head::Mul => b"mul",
            Head::Div => b"div",
            Head::Bnz => b"bnz",
            Head::Blt => b"blt",
            Head::Jmp => b"jmp",
            Head::Set => b"set",
            Head::Vec => b"vec",
            Head::Dma => b"dma",
            Head::Rwait => b"rwait",
            Head::Wwait => b"wwait",
            Head::Vwait => b"vwait",
            Head::Tag => b"tag",
            Head::Twait => b"twait",
        }
    }
}

impl Head {
    /// What stands behind the word; behind an operation stands more.
    pub fn kinds(self) -> &'static [Kind]
        ensures { result.now ≡ head_kinds self }
    {
        match self {
            Head::Version => &[Kind::Version],
            Head::Spad | Head::Memory => &[Kind::Number],
            Head::Array => &[
                Kind::Array,
                Kind::Direction,
                Kind::Elem,
                Kind::Open,
                Kind::Rows,
                Kind::Comma,
                Kind::Columns,
                Kind::Close,
                Kind::Number,
            ],
            Head::Halt | Head::Vwait => &[],
            Head::Li => &[Kind::Register, Kind::Number],
            Head::Addi => &[Kind::Register, Kind::Register, Kind::Number],
            Head::Add | Head::Sub | Head::Mul | Head::Div => {
                &[Kind::Register, Kind::Register, Kind::Register]
            }
            Head::Bnz => &[Kind::Register, Kind::Target],
            Head::Blt => &[Kind::Register, Kind::Register, Kind::Target],
            Head::Jmp => &[Kind::Target],
            Head::Set => &[Kind::Parameter, Kind::Register],
            Head::Vec => &[Kind::Operation],
            Head::Dma => &[Kind::Transfer],
            Head::Rwait | Head::Wwait | Head::Tag | Head::Twait => &[Kind::Register],
        }
    }

    /// Whether an instruction begins with the word.
    pub fn is_instr(self) -> bool
        ensures { result ≡ is_instr self }
    {
        !matches!(
            self,
            Head::Version | Head::Spad | Head::Memory | Head::Array
        )
    }

    /// Whether texts of the version have the word.
    pub fn is_in(self, version: Version) -> bool
        ensures { result ≡ has_head version self }
    {
        match self {
            Head::Tag | Head::Twait => version == Version::Two,
            _ => true,
        }
    }
}

/// What stands behind an operation.
pub fn operation_kinds(op: VecOp) -> &'static [Kind]
    ensures { result.now ≡ operation_kinds op }
{
    match op {
        VecOp::Mov | VecOp::Abs => &[Kind::Elem, Kind::ModeA, Kind::Sum],
        VecOp::Cast => &[Kind::Elem, Kind::Elem, Kind::ModeA, Kind::Sum],
        VecOp::Cmov => &[Kind::Elem, Kind::ModeFlags, Kind::NoSum],
        _ => &[Kind::Elem, Kind::ModeAB, Kind::Sum],
    }
}

impl Kind {
    ghost use Rattle.venice_asm.specs.Lines.{is_optional};

    /// Whether the line may end before it.
    pub fn is_optional(self) -> bool
        ensures { result ≡ is_optional self }
    {
        matches!(self, Kind::Sum | Kind::NoSum)
    }
}
