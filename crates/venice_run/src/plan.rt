//! The plan of a program.

ghost use Rattle.std.specs.Prelude.{IfOk, IsErrOf, All};
ghost use Rattle.ven_io.specs.Files.{OnlyLoads};
ghost use Rattle.expr_split.specs.Places.{IsSplitOf};
ghost use Rattle.pass_plan.specs.Need.{AreSmall};
ghost use Rattle.pass_plan.specs.Shown.{split_of, passes_of};
ghost use Rattle.pass_plan.specs.Sound.{Split as Denoted};
ghost use Rattle.shape_check.specs.Checked.{program_of, IsChecked};
ghost use Rattle.venice_run.specs.Plan.{splits, HasRoom, has_room, plan_of, plan_under, IsOrdered};
ghost use Rattle.venice_run.specs.Plans.{planned, IsReadyPlan};
ghost use Rattle.venice_run.specs.Stage.{as_stage};

use crate::ending::{Ending, Fault};
use crate::programs::read_program;
use crate::refusal::Shortage;
use expr_split::{size_laws, split};
use pass_plan::{Split, need};
use shape_check::{Checked, CheckedStmt};
use std::alloc::Global;
use ven_io::Files;

/// A checked program and its split.
#[derive(Drop)]
pub(crate) struct Plan {
    pub program: Checked,
    pub split: Split,
}

/// The program under the name with its split, where the scratchpad holds its need. Files are only read.
pub(crate) fn read_plan<F: Files>(
    alloc: Global,
    files: &mut F,
    program: &str,
    spad: u32,
) -> Result<Plan, Ending>
    ensures read { plan_under (F.behaviour (F.state files.old).content) program.now spad (as_stage planned result) }
    ensures only { OnlyLoads (F.state files.old) (F.state files.new) (IsErrOf result (Ending.Failed Fault.File)) }
    ensures ready { IfOk result (λ plan. IsReadyPlan plan spad) }
{
    let checked = read_program(alloc, files, program)?;
    plan_program(alloc, checked, spad)
}

/// The program with its split, where the scratchpad holds its need.
fn plan_program(alloc: Global, program: Checked, spad: u32) -> Result<Plan, Ending>
    ensures planned { plan_of (program_of program) spad (as_stage planned result) }
    ensures ready { IfOk result (λ plan. IsReadyPlan plan spad) }
{
    let split = split_program(alloc, &program)?;
    need_room(need(&split.passes), spad)?;
    Ok(Plan { program, split })
}

/// The passes of the program, with the places of all arrays.
pub(crate) fn split_program(alloc: Global, program: &Checked) -> Result<Split, Ending>
    ensures splits { splits (program_of program.now) (as_stage split_of result) }
    ensures small { IfOk result (λ split. AreSmall (passes_of split.passes.items)) }
    ensures normal { IfOk result (λ split. All IsOrdered (passes_of split.passes.items)) }
{
    passes_are_small(&program.stmts);
    Ok(split(alloc, program)?)
}

/// The passes of every split of checked statements are small.
fn passes_are_small(stmts: &[CheckedStmt])
    requires { IsChecked stmts.now }
    ensures { (split : Denoted) → IsSplitOf (program_of stmts.now) split → AreSmall split.passes }
{
    size_laws();
}

/// Whether the scratchpad holds so many bytes.
pub(crate) fn need_room(need: u64, spad: u32) -> Result<(), Ending>
    ensures { has_room need spad result }
{
    Ok(check_room(need, spad)?)
}

/// The same, with the shortage as it is.
pub(crate) fn check_room(need: u64, spad: u32) -> Result<(), Shortage>
    ensures { HasRoom need spad result }
{
    if u64::from(spad) < need {
        return Err(Shortage { need, have: spad });
    }
    Ok(())
}
