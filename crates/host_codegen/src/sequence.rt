//! Programs by number, one after another (`specs/Sequence`).
ghost use Rattle.std.specs.Prelude.{◌≡◌, ◌+◌, ◌^◌, ◌<◌, ◌≤◌, IfOk};
ghost use Rattle.host_programs.specs.Shown.{program_of};
ghost use Rattle.host_codegen.specs.Sequence.{between};
ghost use Rattle.host_codegen.specs.Sequence as spec;

use host_programs::Program;
use std::alloc::{AllocError, Global};

/// Programs by number.
pub trait Numbered {
    ghost use Rattle.std.specs.Prelude.{ℕ, ◌<◌};
    ghost use Rattle.host_programs.specs.Program as list;

    ghost ready: { Self → Type 0 };

    ghost count: { Self → ℕ };

    ghost made: { Self → ℕ → list.Program };

    /// The program with this number, from 0.
    fn program(&self, alloc: Global, number: u32) -> Result<Program, AllocError>
        requires ready { ready self.now }
        requires within { number < count self.now }
        ensures { IfOk result (λ p. program_of p ≡ made self.now number) };
}

/// Those of `count` numbers from `first` on, in so many levels of halves.
fn between<N: Numbered>(
    alloc: Global,
    each: &N,
    levels: u32,
    first: u32,
    count: u32,
) -> Result<Program, AllocError>
    requires ready { N.ready each.now }
    requires within { first + count ≤ N.count each.now }
    requires few { first + count < 2 ^ 32 }
    ensures { IfOk result (λ p. program_of p ≡ between levels first count (N.made each.now)) }
{
    if count == 0 {
        return Ok(Program::Idle);
    }
    if count == 1 {
        return each.program(alloc, first);
    }
    if levels == 0 {
        return each.program(alloc, first);
    }
    let half = count / 2;
    let front = between(alloc, each, levels - 1, first, half)?;
    let back = between(alloc, each, levels - 1, first + half, count - half)?;
    Program::both(alloc, front, back)
}

/// Those of the first so many numbers. They nest no deeper than the count has binary digits.
pub fn each_of<N: Numbered>(alloc: Global, each: &N, count: u32) -> Result<Program, AllocError>
    requires ready { N.ready each.now }
    requires within { count ≤ N.count each.now }
    ensures { IfOk result (λ p. program_of p ≡ spec.each_of count (N.made each.now)) }
{
    between(alloc, each, count, 0, count)
}
