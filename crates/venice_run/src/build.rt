//! The command `build`.

ghost use Rattle.std.specs.Prelude.{IsErrOf};
ghost use Rattle.ven_base.specs.Limits.{cell_limit};
ghost use Rattle.ven_io.specs.Files.{OnlyLoads};
ghost use Rattle.venice_run.specs.Answer.{answer_of};
ghost use Rattle.venice_run.specs.Build.{saves_image, build as build_lem};
ghost use Rattle.venice_run.specs.Plans.{planned, IsReadyPlan};
ghost use Rattle.venice_run.specs.Stage.{as_stage};
ghost use Rattle.venice_run.specs.Words.{IsUpTo};

use crate::answer::Answer;
use crate::compiling::image_bytes;
use crate::ending::{Ending, Fault};
use crate::plan::{Plan, read_plan};
use std::alloc::Global;
use ven_io::Files;

/// It saves the image of PROGRAM for SPAD bytes under the name IMAGE and prints nothing, or comes to its first refusal.
/// Files are only read here; the save comes with the answer.
pub(crate) fn build<'a, F: Files>(
    alloc: Global,
    files: &mut F,
    program: &str,
    image: &'a str,
    spad: u32,
) -> Result<Answer<'a>, Ending>
    requires { IsUpTo cell_limit spad }
    ensures answer { build_lem (F.behaviour (F.state files.old).content) program.now image.now spad
        (as_stage answer_of result) }
    ensures only { OnlyLoads (F.state files.old) (F.state files.new) (IsErrOf result (Ending.Failed Fault.File)) }
{
    let plan = read_plan(alloc, files, program, spad)?;
    save_image(alloc, plan, image, spad)
}

/// It saves the image of the plan's program.
fn save_image<'a>(
    alloc: Global,
    plan: Plan,
    image: &'a str,
    spad: u32,
) -> Result<Answer<'a>, Ending>
    requires plan { IsReadyPlan plan spad }
    requires spad { IsUpTo cell_limit spad }
    ensures { saves_image image.now (planned plan) spad (as_stage answer_of result) }
{
    let bytes = image_bytes(alloc, plan.split, spad)?;
    Ok(Answer::saving(image, bytes, Vec::new(alloc)))
}
