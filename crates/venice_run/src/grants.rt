//! Grants that commands load.

ghost use Rattle.std.specs.Prelude.{◌<◌, ◌^◌, length, IsErrOf};
ghost use Rattle.std.specs.Option.{option_map};
ghost use Rattle.ven_io.specs.Files.{OnlyLoads};
ghost use Rattle.venice_run.specs.Grants.{grants_in, grants_under};
ghost use Rattle.venice_run.specs.Stage.{as_stage};

use crate::ending::{Ending, Fault};
use crate::reading::load_within;
use crate::refusal::Kind;
use std::alloc::Global;
use ven_io::Files;
use venice_machine::{Grants, read_grants};

/// The grants under the name; none where no name is given.
pub(crate) fn load_grants<F: Files>(
    alloc: Global,
    files: &mut F,
    name: Option<&str>,
) -> Result<Grants, Ending>
    ensures read { grants_under (F.behaviour (F.state files.old).content) (option_map (λ n. n.now) name.entry)
        (as_stage (λ grants. grants) result) }
    ensures only { OnlyLoads (F.state files.old) (F.state files.new) (IsErrOf result (Ending.Failed Fault.File)) }
{
    match name {
        None => Ok(Grants::new(alloc)),
        Some(name) => {
            let text = load_within(alloc, files, name, Kind::Grants)?;
            grants_of_text(alloc, &text)
        }
    }
}

/// The grants of the text.
fn grants_of_text(alloc: Global, text: &[u8]) -> Result<Grants, Ending>
    requires { length text.now < 2 ^ 31 }
    ensures { grants_in text.now (as_stage (λ grants. grants) result) }
{
    Ok(read_grants(alloc, text)?)
}
