//! The host's state and its one step.
ghost use Rattle.std.specs.Prelude.{◌≡◌, ◌+◌, ◌<◌, ◌^◌, length, if◌then◌else◌};
ghost use Rattle.venice_isa.specs.Instr.{IsRegister, IsParameter, HasRanges};
ghost use Rattle.venice_isa.specs.Host.{quotient_of};

use crate::code::Code;
use crate::instr::Instr;
use crate::issue::Issue;
use crate::kind::VecKind;
use crate::work::{DmaWork, VecWork};

/// What an instruction of the host is to the rest of the machine (docs/MACHINE.md, "The host"). Whether the host may go on is
/// for the machine to say: an issue waits for a place in its queue, a wait for its condition, and a halt for all works' ends.
#[derive(Clone, Copy)]
pub enum Deed {
    /// It ends the run.
    Halts,
    /// It concerns the host alone.
    Moves,
    /// It passes on an issue or a wait.
    Passes(Issue),
}

impl Deed {
    ghost use Rattle.venice_isa.specs.Host.{is_halt};

    /// Whether it ends the run.
    pub fn is_halt(&self) -> bool
        ensures { result ≡ is_halt self.now }
    {
        matches!(self, Deed::Halts)
    }
}

/// The host's registers and parameters by their numbers, its tag, and its place in the code, which counts instructions from 0.
#[derive(Clone, Copy, Debug)]
pub struct HostState {
    pub registers: [u32; 32],
    pub parameters: [u32; 14],
    pub tag: u32,
    pub place: u32,
}

impl HostState {
    ghost use Rattle.venice_isa.specs.Host.{start, setting_register, setting_parameter, going_to, going_on, vector_work, transfer, deed_of, after_instr, deed, next};
    ghost use Rattle.venice_isa.specs.HostState.{host_of};

    /// The host before its first step: all numbers are 0.
    pub fn new() -> HostState
        ensures { host_of result ≡ start }
    {
        HostState {
            registers: [0; 32],
            parameters: [0; 14],
            tag: 0,
            place: 0,
        }
    }

    /// What the next instruction is to the rest of the machine. The place is in the code.
    pub fn deed(&self, code: &Code) -> Deed
        requires { self.now.place < length code.now.instrs }
        ensures { result ≡ deed code.now.instrs (host_of self.now) }
    {
        self.deed_of(code.instr(self.place))
    }

    /// Does the next instruction, as if nothing held it up. The place is in the code, and stays in it. At `Halt` nothing
    /// changes.
    pub fn advance(&mut self, code: &Code)
        requires { self.old.place < length code.now.instrs }
        ensures next { host_of self.new ≡ next code.now.instrs (host_of self.old) }
        ensures in_code { self.new.place < length code.now.instrs }
    {
        let instr = code.instr(self.place);
        self.advance_by(instr);
    }

    /// What this instruction is to the rest of the machine.
    pub(crate) fn deed_of(&self, instr: Instr) -> Deed
        requires { HasRanges instr }
        ensures { result ≡ deed_of instr (host_of self.now) }
    {
        match instr {
            Instr::Halt => Deed::Halts,
            Instr::Vec(kind) => Deed::Passes(Issue::Vector(self.vector_work(kind))),
            Instr::Dma { write: false } => Deed::Passes(Issue::Read(self.transfer())),
            Instr::Dma { write: true } => Deed::Passes(Issue::Write(self.transfer())),
            Instr::Rwait { a } => Deed::Passes(Issue::RWait(self.register(a))),
            Instr::Wwait { a } => Deed::Passes(Issue::WWait(self.register(a))),
            Instr::Vwait => Deed::Passes(Issue::VWait),
            Instr::Twait { a } => Deed::Passes(Issue::TWait(self.register(a))),
            _ => Deed::Moves,
        }
    }

    /// Does this instruction.
    pub(crate) fn advance_by(&mut self, instr: Instr)
        requires ranges { HasRanges instr }
        requires room { self.old.place + 1 < 2 ^ 32 }
        ensures { host_of self.new ≡ after_instr instr (host_of self.old) }
    {
        match instr {
            Instr::Halt => {}
            Instr::Li { d, n } => self.set_register(d, n),
            Instr::Addi { d, a, n } => self.set_register(d, self.register(a).wrapping_add(n)),
            Instr::Add { d, a, b } => {
                self.set_register(d, self.register(a).wrapping_add(self.register(b)));
            }
            Instr::Sub { d, a, b } => {
                self.set_register(d, self.register(a).wrapping_sub(self.register(b)));
            }
            Instr::Mul { d, a, b } => {
                self.set_register(d, self.register(a).wrapping_mul(self.register(b)));
            }
            Instr::Div { d, a, b } => {
                self.set_register(d, quotient(self.register(a), self.register(b)));
            }
            Instr::Bnz { a, to } => self.branch(self.register(a) != 0, to),
            Instr::Blt { a, b, to } => self.branch(self.register(a) < self.register(b), to),
            Instr::Jmp { to } => self.place = to,
            Instr::Set { field, a } => self.set_parameter(field, self.register(a)),
            Instr::Tag { a } => {
                self.tag = self.register(a);
                self.place += 1;
            }
            Instr::Vec(_)
            | Instr::Dma { .. }
            | Instr::Rwait { .. }
            | Instr::Wwait { .. }
            | Instr::Vwait
            | Instr::Twait { .. } => self.place += 1,
        }
    }

    /// A register, whose number is below 32.
    pub fn register(&self, number: u8) -> u32
        requires { IsRegister number }
        ensures { result ≡ (host_of self.now).register number }
    {
        self.registers[number as usize]
    }

    fn set_register(&mut self, number: u8, value: u32)
        requires register { IsRegister number }
        requires room { self.old.place + 1 < 2 ^ 32 }
        ensures { host_of self.new ≡ setting_register number value (host_of self.old) }
    {
        self.registers[number as usize] = value;
        self.place += 1;
    }

    fn set_parameter(&mut self, number: u8, value: u32)
        requires parameter { IsParameter number }
        requires room { self.old.place + 1 < 2 ^ 32 }
        ensures { host_of self.new ≡ setting_parameter number value (host_of self.old) }
    {
        self.parameters[number as usize] = value;
        self.place += 1;
    }

    /// Goes to `to` where the branch is taken, and else to the next instruction.
    fn branch(&mut self, is_taken: bool, to: u32)
        requires { self.old.place + 1 < 2 ^ 32 }
        ensures { host_of self.new
            ≡ (if is_taken then going_to to (host_of self.old) else going_on (host_of self.old)) }
    {
        if is_taken {
            self.place = to;
        } else {
            self.place += 1;
        }
    }

    fn vector_work(&self, kind: VecKind) -> VecWork
        ensures { result ≡ vector_work kind (host_of self.now) }
    {
        let [vl, rows, dst, a, b, dst_step, a_step, b_step, ..] = self.parameters;
        VecWork {
            kind,
            vl,
            rows,
            dst,
            a,
            b,
            dst_step,
            a_step,
            b_step,
        }
    }

    fn transfer(&self) -> DmaWork
        ensures { result ≡ transfer (host_of self.now) }
    {
        let [.., mem, spad, rows, bytes, mem_step, spad_step] = self.parameters;
        DmaWork {
            mem,
            spad,
            rows,
            bytes,
            mem_step,
            spad_step,
            tag: self.tag,
        }
    }
}

/// The quotient without sign, rounded down; the greatest number where the divisor is 0.
fn quotient(dividend: u32, divisor: u32) -> u32
    ensures { result ≡ quotient_of dividend divisor }
{
    dividend.checked_div(divisor).unwrap_or(u32::MAX)
}
