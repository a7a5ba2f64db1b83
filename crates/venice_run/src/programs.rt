//! Programs that commands load.

ghost use Rattle.std.specs.Prelude.{◌<◌, ◌^◌, length, IsErrOf};
ghost use Rattle.ven_io.specs.Files.{OnlyLoads};
ghost use Rattle.shape_check.specs.Checked.{program_of};
ghost use Rattle.venice_run.specs.Programs.{program_in, program_under};
ghost use Rattle.venice_run.specs.Stage.{as_stage};

use crate::ending::{Ending, Fault};
use crate::reading::load_within;
use crate::refusal::Kind;
use array_syntax::parse;
use shape_check::{Checked, check};
use std::alloc::Global;
use ven_io::Files;

/// The checked program under the name.
pub(crate) fn read_program<F: Files>(
    alloc: Global,
    files: &mut F,
    name: &str,
) -> Result<Checked, Ending>
    ensures read { program_under (F.behaviour (F.state files.old).content) name.now (as_stage program_of result) }
    ensures only { OnlyLoads (F.state files.old) (F.state files.new) (IsErrOf result (Ending.Failed Fault.File)) }
{
    let text = load_within(alloc, files, name, Kind::Program)?;
    program_of_text(alloc, &text)
}

/// The checked program that the text is.
fn program_of_text(alloc: Global, text: &[u8]) -> Result<Checked, Ending>
    requires { length text.now < 2 ^ 31 }
    ensures { program_in text.now (as_stage program_of result) }
{
    let program = parse(alloc, text)?;
    let checked = check(alloc, program)?;
    Ok(checked)
}
