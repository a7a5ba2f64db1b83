//! Runs of rows times runs of columns, as patches (`specs/ReadProgram`).
ghost use Rattle.std.specs.Prelude.{◌≡◌, ◌+◌, ◌≤◌, IfOk};
ghost use Rattle.host_programs.specs.Shown.{program_of};
ghost use Rattle.transfer_builder.specs.Shown.{run_of, axis_of, IsKind, sides_of, patch_of, patch_by, patches_by};

use crate::axis::Axis;
use crate::body::Body;
use crate::patch_expr::{PatchExpr, Sides, cross_expr, line_expr, patch_program};
use crate::run_expr::RunExpr;
use host_programs::Program;
use std::alloc::{AllocError, Global};

/// Which patches two runs have.
#[derive(Clone, Copy)]
pub enum Way {
    /// The columns in each row.
    Lines,
    /// The columns in the first row, an element a row.
    Crosses,
}

/// The patch of two runs.
fn patch_expr(
    alloc: Global,
    way: Way,
    s: Sides,
    a: &RunExpr,
    b: &RunExpr,
) -> Result<PatchExpr, AllocError>
    ensures { IfOk result (λ p. patch_of p ≡ patch_by way (sides_of s) (run_of a.now) (run_of b.now)) }
{
    match way {
        Way::Lines => line_expr(alloc, s, a, b),
        Way::Crosses => cross_expr(alloc, s, a, b),
    }
}

/// Reads the patch of this run of rows and a run of columns.
#[derive(Drop)]
struct Patches {
    way: Way,
    sides: Sides,
    row: RunExpr,
}

impl Body for Patches {
    ghost use Rattle.std.specs.Prelude.{false};
    ghost use Rattle.transfer_programs.specs.ReadProgram as reads;
    ghost use Rattle.transfer_builder.specs.Shown.{run_of, sides_of, patch_by};

    ghost ready = { λ s. Unit {0} };

    ghost names = { λ s. 3 };

    ghost made = { λ s d run.
        reads.patch_program false (sides_of s.sides) (patch_by s.way (sides_of s.sides) (run_of s.row) run) d };

    fn program(&self, alloc: Global, d: u8, run: RunExpr) -> Result<Program, AllocError> {
        let patch = patch_expr(alloc, self.way, self.sides, &self.row, &run)?;
        patch_program(alloc, false, self.sides, &patch, d)
    }
}

/// Reads the patches of a run of rows and these columns.
#[derive(Clone, Copy)]
struct Columns {
    way: Way,
    sides: Sides,
    axis: Axis,
}

impl Body for Columns {
    ghost use Rattle.transfer_builder.specs.Shown.{sides_of, axis_of, columns_by, IsKind};

    ghost ready = { λ s. IsKind s.axis.kind };

    ghost names = { λ s. 10 };

    ghost made = { λ s d run. columns_by s.way (sides_of s.sides) (axis_of s.axis) d run };

    fn program(&self, alloc: Global, d: u8, run: RunExpr) -> Result<Program, AllocError> {
        let patches = Patches {
            way: self.way,
            sides: self.sides,
            row: run,
        };
        self.axis.program(alloc, d, &patches)
    }
}

/// Reads the patches of rows and columns, where the first `d` registers are in use.
pub fn patches_program(
    alloc: Global,
    way: Way,
    sides: Sides,
    rows: Axis,
    columns: Axis,
    d: u8,
) -> Result<Program, AllocError>
    requires rows { IsKind rows.kind }
    requires columns { IsKind columns.kind }
    requires low { d + 17 ≤ 255 }
    ensures { IfOk result (λ p. program_of p ≡ patches_by way (sides_of sides) (axis_of rows) (axis_of columns) d) }
{
    let body = Columns {
        way,
        sides,
        axis: columns,
    };
    rows.program(alloc, d, &body)
}
