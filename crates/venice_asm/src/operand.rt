//! What stands behind the first word of a line.

ghost use Rattle.std.specs.Prelude.{◌≡◌, ◌<◌, List, ℕ, map};
ghost use Rattle.venice_asm.specs.Spelling.{parameter_words, parameter_word, direction_word, transfer_word, letter};

use crate::label::Label;
use ven_base::Elem;
use venice_isa::VecOp;

/// A word, or a sign, that stands behind the first word of a line: a name of an array or a label, a number, a
/// register's number, a parameter's number, whether an array is an output, whether a transfer is a write, whether A and
/// B are scalars.
#[derive(Clone, Copy)]
pub enum Operand {
    Name(Label),
    Number(u32),
    Output(bool),
    Open,
    Rows(u32),
    Comma,
    Columns(u32),
    Close,
    Register(u8),
    Parameter(u8),
    Write(bool),
    Operation(VecOp),
    Elem(Elem),
    ModeA(bool),
    ModeAB(bool, bool),
    Sum,
}

/// The parameters in the order of their numbers.
pub const PARAMETERS: [&[u8]; 14] = [
    b"vl", b"rows", b"dst", b"a", b"b", b"dstep", b"astep", b"bstep", b"mem", b"spad", b"mrows",
    b"mbytes", b"mstep", b"sstep",
];

/// The word of a parameter.
pub fn parameter_word(number: u8) -> &'static [u8]
    requires { number < 14 }
    ensures { result.now ≡ parameter_word number }
{
    PARAMETERS[number as usize]
}

/// The word of an array's direction: an input, or an output.
pub fn direction_word(output: bool) -> &'static [u8]
    ensures { result.now ≡ direction_word output }
{
    if output { b"out" } else { b"in" }
}

/// The word of a transfer's direction: a read, or a write.
pub fn transfer_word(write: bool) -> &'static [u8]
    ensures { result.now ≡ transfer_word write }
{
    if write { b"write" } else { b"read" }
}

/// The letter of an operand that is a scalar, or a vector.
pub fn letter(scalar: bool) -> u8
    ensures { result ≡ letter scalar }
{
    if scalar { b's' } else { b'v' }
}
