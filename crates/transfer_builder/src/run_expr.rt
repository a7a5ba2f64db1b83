//! Runs of an axis by expressions (`specs/Axis`). All is counted in elements.
ghost use Rattle.std.specs.Prelude.{◌≡◌, IfOk};
ghost use Rattle.host_programs.specs.Expr as plain;
ghost use Rattle.host_programs.specs.Shown.{expr_of};
ghost use Rattle.transfer_programs.specs.Axis as axes;
ghost use Rattle.transfer_builder.specs.Shown.{small_of, run_of};

use crate::small_expr::SmallExpr;
use crate::sums::{copy_of, pick, plus, times};
use host_programs::Expr;
use std::alloc::{AllocError, Global};

/// Places of a piece's rows, or of its columns, that stand equally far apart, and whose sources do too.
#[derive(Drop)]
pub struct RunExpr {
    pub first: Expr,
    pub step: Expr,
    pub count: Expr,
    pub source: Expr,
    pub source_step: Expr,
}

/// So many steps behind the first: the number is in a register.
fn further(alloc: Global, first: &Expr, step: &Expr, r: u8) -> Result<Expr, AllocError>
    ensures { IfOk result (λ e. expr_of e
        ≡ axes.plus (expr_of first.now) (axes.times (expr_of step.now) (plain.Variable r))) }
{
    let way = times(alloc, copy_of(alloc, step)?, Expr::Variable(r))?;
    plus(alloc, copy_of(alloc, first)?, way)
}

/// The run's place whose number from 0 is in a register, as a run of its own.
pub fn single_run(alloc: Global, run: &RunExpr, r: u8) -> Result<RunExpr, AllocError>
    ensures { IfOk result (λ one. run_of one ≡ axes.single_run (run_of run.now) (plain.Variable r)) }
{
    let first = further(alloc, &run.first, &run.step, r)?;
    let source = further(alloc, &run.source, &run.source_step, r)?;
    Ok(RunExpr {
        first,
        step: Expr::Number(1),
        count: Expr::Number(1),
        source,
        source_step: Expr::Number(0),
    })
}

/// The first expression where the flag is 0, else the second; both are lent.
fn pick_copy(alloc: Global, flag: SmallExpr, x: &Expr, y: &Expr) -> Result<Expr, AllocError>
    ensures { IfOk result (λ r. expr_of r ≡ axes.pick (small_of flag) (expr_of x.now) (expr_of y.now)) }
{
    let x = copy_of(alloc, x)?;
    pick(alloc, flag, x, copy_of(alloc, y)?)
}

/// The first run where the flag is 0, else the second.
pub fn pick_run(
    alloc: Global,
    flag: SmallExpr,
    x: &RunExpr,
    y: &RunExpr,
) -> Result<RunExpr, AllocError>
    ensures { IfOk result (λ run. run_of run ≡ axes.pick_run (small_of flag) (run_of x.now) (run_of y.now)) }
{
    Ok(RunExpr {
        first: pick_copy(alloc, flag, &x.first, &y.first)?,
        step: pick_copy(alloc, flag, &x.step, &y.step)?,
        count: pick_copy(alloc, flag, &x.count, &y.count)?,
        source: pick_copy(alloc, flag, &x.source, &y.source)?,
        source_step: pick_copy(alloc, flag, &x.source_step, &y.source_step)?,
    })
}
