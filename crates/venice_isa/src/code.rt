//! Code: instructions that the host can run.
ghost use Rattle.std.specs.Prelude.{◌≡◌, ◌↔◌, ◌<◌, IsSome, IfSome, IsTrue, All, Some, length, slice_get};
ghost use Rattle.venice_isa.specs.Code.{IsCode, EndsWithHalt, HasTargetBelow};
ghost use Rattle.venice_isa.specs.Instr.{IsInstr};

use crate::instr::{Instr, Version};
use std::marker::Model;

/// Instructions of one version, which the host runs from the first one on: at least one and fewer than 4,294,967,296, of which
/// the last is `Halt`, and none goes to a place outside. So the host's place never leaves them.
#[derive(Drop)]
pub struct Code {
    pub version: Version,
    pub instrs: Vec<Instr>,
}

impl Model for Code {
    ghost use Rattle.venice_isa.specs.Code.{Listing, IsCode};

    ghost Value = { Listing };

    ghost view = { λ c. record { version = c.version; instrs = c.instrs.items } };

    ghost invariant = { λ c. IsCode (record { version = c.version; instrs = c.instrs.items }) };
}

impl Code {
    /// The code of these instructions: `None` exactly where they break a rule of code (docs/MACHINE.md, "Code"). Then they are
    /// dropped. One pass over them.
    pub fn new(version: Version, instrs: Vec<Instr>) -> Option<Code>
        ensures found { IsSome result ↔ IsCode (record { version = version; instrs = instrs.items }) }
        ensures value { IfSome result (λ code. code ≡ record { version = version; instrs = instrs.items }) }
    {
        let Ok(count) = u32::try_from(instrs.len()) else {
            return None;
        };
        if !ends_with_halt(&instrs) || !are_instrs(version, count, &instrs) {
            return None;
        }
        Some(Code { version, instrs })
    }

    /// How many instructions there are: at least 1.
    pub fn len(&self) -> u32
        ensures value { result ≡ length self.now.instrs }
        ensures is_code { IsCode self.now }
    {
        self.instrs.len() as u32
    }

    /// The instruction at a place, which counts from 0 and is below `len`.
    pub fn instr(&self, place: u32) -> Instr
        requires { place < length self.now.instrs }
        ensures value { slice_get self.now.instrs place ≡ Some result }
        ensures is_instr { IsInstr self.now.version result }
        ensures is_code { IsCode self.now }
    {
        self.instrs[place as usize]
    }
}

fn ends_with_halt(instrs: &[Instr]) -> bool
    ensures { IsTrue result ↔ EndsWithHalt instrs.now }
{
    matches!(instrs.last(), Some(Instr::Halt))
}

/// Whether all of these are instructions of the version that go to no place from `end` on.
fn are_instrs(version: Version, end: u32, instrs: &[Instr]) -> bool
    ensures { IsTrue result ↔ (All (IsInstr version) instrs.now × All (HasTargetBelow end) instrs.now) }
{
    instrs.iter().all(|instr| instr.is_in(version) && has_target_below(*instr, end))
}

fn has_target_below(instr: Instr, end: u32) -> bool
    ensures { IsTrue result ↔ HasTargetBelow end instr }
{
    match instr.target() {
        Some(to) => to < end,
        None => true,
    }
}
