//! What is done with each run of an axis.
ghost use Rattle.std.specs.Prelude.{◌≡◌, ◌+◌, ◌≤◌, IfOk};
ghost use Rattle.host_programs.specs.Shown.{program_of};
ghost use Rattle.transfer_builder.specs.Shown.{run_of};

use crate::run_expr::{RunExpr, single_run};
use crate::sums::copy_of;
use host_programs::Program;
use std::alloc::{AllocError, Global};

/// What is done with each run of an axis: a program.
pub trait Body {
    ghost use Rattle.std.specs.Prelude.{ℕ};
    ghost use Rattle.host_programs.specs.Program as list;
    ghost use Rattle.transfer_programs.specs.Axis as axes;

    ghost ready: { Self → Type 0 };

    ghost names: { Self → ℕ };

    ghost made: { Self → ℕ → axes.RunExpr → list.Program };

    /// The program for a run, where the first `d` registers are in use.
    fn program(&self, alloc: Global, d: u8, run: RunExpr) -> Result<Program, AllocError>
        requires ready { ready self.now }
        requires low { d + names self.now ≤ 255 }
        ensures { IfOk result (λ p. program_of p ≡ made self.now d (run_of run)) };
}

/// The same with each place of each run.
#[derive(Drop)]
pub struct Singles<'a, B> {
    pub body: &'a B,
}

impl<B: Body> Body for Singles<'_, B> {
    ghost use Rattle.std.specs.Prelude.{◌+◌};
    ghost use Rattle.host_programs.specs.Expr as plain;
    ghost use Rattle.host_programs.specs.Program as list;
    ghost use Rattle.transfer_programs.specs.Axis as axes;

    ghost ready = { λ s. B.ready s.body.now };

    ghost names = { λ s. B.names s.body.now + 2 };

    ghost made = { λ s d run.
        list.For run.count (B.made s.body.now (d + 2) (axes.single_run run (plain.Variable (d + 1)))) };

    fn program(&self, alloc: Global, d: u8, run: RunExpr) -> Result<Program, AllocError> {
        let one = single_run(alloc, &run, d + 1)?;
        let turn = self.body.program(alloc, d + 2, one)?;
        Program::repeated(alloc, copy_of(alloc, &run.count)?, turn)
    }
}
