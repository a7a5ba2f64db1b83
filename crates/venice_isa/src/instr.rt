//! The host's instructions.
ghost use Rattle.std.specs.Prelude.{◌↔◌, IsTrue};
ghost use Rattle.venice_isa.specs.Instr.{IsRegister};

use crate::kind::VecKind;
use crate::op::VecOp;

/// How many registers the host has, each of 32 bits.
pub const REGISTER_COUNT: u8 = 32;

/// How many parameters the host has, each of 32 bits; the tag is none of them.
pub const PARAMETER_COUNT: u8 = 14;

/// Which of the two instruction sets code is written in. The second has all of the first, tagged transfers, and the vector
/// operations that saturate (docs/MACHINE.md, "Instructions").
#[derive(Clone, Copy, Debug, PartialEq, Eq)]
pub enum Version {
    One,
    Two,
}

/// An instruction of the host (docs/MACHINE.md, "Instructions"). `d`, `a` and `b` are the numbers of registers, and `field`
/// that of a parameter; `to` is a place in the code, which counts instructions from 0. Numbers wrap at 32 bits.
#[derive(Clone, Copy)]
pub enum Instr {
    /// Ends the run.
    Halt,
    /// d = n.
    Li { d: u8, n: u32 },
    /// d = a + n.
    Addi { d: u8, a: u8, n: u32 },
    /// d = a + b.
    Add { d: u8, a: u8, b: u8 },
    /// d = a - b.
    Sub { d: u8, a: u8, b: u8 },
    /// d = a · b.
    Mul { d: u8, a: u8, b: u8 },
    /// d = a / b without sign, rounded down; 4,294,967,295 where b is 0.
    Div { d: u8, a: u8, b: u8 },
    /// Goes to `to` where a isn't 0.
    Bnz { a: u8, to: u32 },
    /// Goes to `to` where a < b, without sign.
    Blt { a: u8, b: u8, to: u32 },
    /// Goes to `to`.
    Jmp { to: u32 },
    /// Gives the parameter a.
    Set { field: u8, a: u8 },
    /// Issues a vector instruction with the parameters as they are.
    Vec(VecKind),
    /// Issues a transfer with the parameters and the tag as they are: a write, or else a read.
    Dma { write: bool },
    /// Waits until at most a reads are unfinished.
    Rwait { a: u8 },
    /// Waits until at most a writes are unfinished.
    Wwait { a: u8 },
    /// Waits until no vector instruction is unfinished.
    Vwait,
    /// The tag takes a. In version two alone.
    Tag { a: u8 },
    /// Waits until no unfinished transfer has the tag in a. In version two alone.
    Twait { a: u8 },
}

impl VecOp {
    ghost use Rattle.std.specs.Prelude.{◌≡◌};
    ghost use Rattle.venice_isa.specs.Instr.{has_operation};

    /// Whether the version has the operation: those that saturate are in version two alone.
    pub fn is_in(self, version: Version) -> bool
        ensures { result ≡ has_operation version self }
    {
        match (version, self) {
            (Version::One, VecOp::Sadd | VecOp::Ssub) => false,
            _ => true,
        }
    }
}

impl Instr {
    ghost use Rattle.std.specs.Prelude.{◌≡◌, ◌↔◌, IsTrue};
    ghost use Rattle.venice_isa.specs.Instr.{has_instr, HasRanges, IsInstr, target_of};

    /// Where the instruction may go to, other than to the next one.
    pub fn target(self) -> Option<u32>
        ensures { result ≡ target_of self }
    {
        match self {
            Instr::Bnz { to, .. } | Instr::Blt { to, .. } | Instr::Jmp { to } => Some(to),
            _ => None,
        }
    }

    /// Whether the version has the instruction, with registers and a parameter that the host has.
    pub fn is_in(self, version: Version) -> bool
        ensures { IsTrue result ↔ IsInstr version self }
    {
        self.has_version(version) && self.has_ranges()
    }

    fn has_version(self, version: Version) -> bool
        ensures { result ≡ has_instr version self }
    {
        match self {
            Instr::Tag { .. } | Instr::Twait { .. } => version == Version::Two,
            Instr::Vec(kind) => kind.op.is_in(version),
            _ => true,
        }
    }

    fn has_ranges(self) -> bool
        ensures { IsTrue result ↔ HasRanges self }
    {
        match self {
            Instr::Halt | Instr::Jmp { .. } | Instr::Vec(_) | Instr::Dma { .. } | Instr::Vwait =>
                true,
            Instr::Li { d, .. } => is_register(d),
            Instr::Addi { d, a, .. } => is_register(d) && is_register(a),
            Instr::Add { d, a, b }
            | Instr::Sub { d, a, b }
            | Instr::Mul { d, a, b }
            | Instr::Div { d, a, b } => is_register(d) && is_register(a) && is_register(b),
            Instr::Blt { a, b, .. } => is_register(a) && is_register(b),
            Instr::Set { field, a } => field < PARAMETER_COUNT && is_register(a),
            Instr::Bnz { a, .. }
            | Instr::Rwait { a }
            | Instr::Wwait { a }
            | Instr::Tag { a }
            | Instr::Twait { a } => is_register(a),
        }
    }
}

fn is_register(number: u8) -> bool
    ensures { IsTrue result ↔ IsRegister number }
{
    number < REGISTER_COUNT
}
