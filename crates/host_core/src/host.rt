//! The host.
ghost use Rattle.std.specs.Prelude.{◌≡◌, ◌<◌, length, not};
ghost use Rattle.venice_isa.specs.Instr.{IsRegister};
ghost use Rattle.venice_isa.specs.Host.{Host as HostLem, start, deed, deed_of, next};
ghost use Rattle.venice_isa.specs.HostState.{host_of};
ghost use Rattle.host_core.specs.Pass.{lets_go_on};
ghost use Rattle.host_core.specs.Step.{step_of, host_after, moves, wanted_by};

use crate::step::Step;
use crate::waiting::Waiting;
use std::marker::Model;
use venice_isa::{Code, HostState, Instr, TRANSFER_PLACES, VECTOR_PLACES};

/// The host: 32 registers, 14 parameters, the tag, and its place in the code (docs/MACHINE.md, "The host"). Contracts
/// see it as its state, which stands for a host of the definitions (`host_of`).
#[derive(Drop)]
pub struct Host {
    state: HostState,
}

impl Model for Host {
    ghost use Rattle.venice_isa.specs.declared.host.HostState.{HostState as State};

    ghost Value = { State };

    ghost view = { λ host. host.state };
}

impl Host {
    /// The host before its first step: all registers and parameters, the tag and the place in the code are 0.
    pub fn new() -> Host
        ensures { host_of result ≡ start }
    {
        Host {
            state: HostState::new(),
        }
    }

    /// The place in the code: the number of the next instruction, from 0.
    pub fn pc(&self) -> u32
        ensures { result ≡ self.now.place }
    {
        self.state.place
    }

    /// A register, whose number is below 32.
    pub fn register(&self, number: u8) -> u32
        requires { IsRegister number }
        ensures { result ≡ (host_of self.now).register number }
    {
        self.state.register(number)
    }

    /// What the next step would be, where so many works are unfinished. Nothing changes. `Issued` has the work that is
    /// to be offered to its unit. `Waits` exactly where the issue's queue is full, the wait's condition is false, or
    /// `halt` meets unfinished work. Condition: the place is in the code. Constant time.
    pub fn peek(&self, code: &Code, waiting: Waiting) -> Step
        requires { self.now.place < length code.now.instrs }
        ensures { result ≡ step_of waiting (deed code.now.instrs (host_of self.now)) }
    {
        let deed = self.state.deed(code);
        if waiting.lets_go_on(&deed) {
            Step::made_of(deed)
        } else {
            Step::Waits
        }
    }

    /// Makes the step that `peek` answers, and answers it. At `Waits` and `Halted` nothing changes. Condition: the
    /// place is in the code. It stays there. Constant time.
    pub fn step(&mut self, code: &Code, waiting: Waiting) -> Step
        requires { self.old.place < length code.now.instrs }
        ensures answer { result ≡ step_of waiting (deed code.now.instrs (host_of self.old)) }
        ensures host { host_of self.new ≡ host_after waiting code.now.instrs (host_of self.old) }
        ensures in_code { self.new.place < length code.now.instrs }
    {
        let deed = self.state.deed(code);
        if !waiting.lets_go_on(&deed) {
            return Step::Waits;
        }
        self.move_on(code);
        Step::made_of(deed)
    }

    /// Whether the next instruction can't be done now. Condition: the place is in the code.
    #[inline(always)]
    pub fn waits(&self, code: &Code, waiting: Waiting) -> bool
        requires { self.now.place < length code.now.instrs }
        ensures { result ≡ not (lets_go_on waiting (deed code.now.instrs (host_of self.now))) }
    {
        match code.instr(self.state.place) {
            Instr::Halt => !waiting.is_idle(),
            Instr::Vec(_) => VECTOR_PLACES <= waiting.vector,
            Instr::Dma { write: false } => TRANSFER_PLACES <= waiting.read,
            Instr::Dma { write: true } => TRANSFER_PLACES <= waiting.write,
            Instr::Rwait { a } => self.state.register(a) < waiting.read,
            Instr::Wwait { a } => self.state.register(a) < waiting.write,
            Instr::Vwait => waiting.vector != 0,
            Instr::Twait { .. } => waiting.tagged != 0,
            _ => false,
        }
    }

    /// Whether the next instruction concerns the host alone, so that it waits for nothing. Condition: the place is in the
    /// code.
    #[inline(always)]
    pub fn moves(&self, code: &Code) -> bool
        requires { self.now.place < length code.now.instrs }
        ensures { result ≡ moves (deed code.now.instrs (host_of self.now)) }
    {
        moves(code.instr(self.state.place))
    }

    /// Does the next instruction, as if nothing held it up. At `halt` nothing changes. Condition: the place is in the code.
    /// It stays there.
    #[inline(always)]
    pub fn move_on(&mut self, code: &Code)
        requires { self.old.place < length code.now.instrs }
        ensures host { host_of self.new ≡ next code.now.instrs (host_of self.old) }
        ensures in_code { self.new.place < length code.now.instrs }
    {
        self.state.advance(code);
    }

    /// The tag that a `twait` at the host's place waits for, and None exactly where another instruction stands there.
    /// Condition: the place is in the code.
    #[inline(always)]
    pub fn wanted(&self, code: &Code) -> Option<u32>
        requires { self.now.place < length code.now.instrs }
        ensures { result ≡ wanted_by (deed code.now.instrs (host_of self.now)) }
    {
        match code.instr(self.state.place) {
            Instr::Twait { a } => Some(self.state.register(a)),
            _ => None,
        }
    }
}

/// Whether an instruction concerns the host alone.
#[inline(always)]
fn moves(instr: Instr) -> bool
    ensures { (host : HostLem) → result ≡ moves (deed_of instr host) }
{
    match instr {
        Instr::Halt
        | Instr::Vec(_)
        | Instr::Dma { .. }
        | Instr::Rwait { .. }
        | Instr::Wwait { .. }
        | Instr::Vwait
        | Instr::Twait { .. } => false,
        _ => true,
    }
}
