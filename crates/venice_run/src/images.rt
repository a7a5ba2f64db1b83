//! Images that commands load.

ghost use Rattle.std.specs.Prelude.{◌≤◌, length, IsErrOf};
ghost use Rattle.ven_io.specs.Files.{OnlyLoads};
ghost use Rattle.image_loader.specs.Table.{file_limit};
ghost use Rattle.venice_run.specs.Images.{image_in, image_under};
ghost use Rattle.venice_run.specs.Stage.{as_stage};

use crate::ending::{Ending, Fault};
use crate::reading::load_within;
use crate::refusal::Kind;
use image_loader::{Image, read_image};
use std::alloc::Global;
use ven_io::Files;

/// The image under the name.
pub(crate) fn load_image<F: Files>(
    alloc: Global,
    files: &mut F,
    name: &str,
) -> Result<Image, Ending>
    ensures read { image_under (F.behaviour (F.state files.old).content) name.now (as_stage (λ image. image) result) }
    ensures only { OnlyLoads (F.state files.old) (F.state files.new) (IsErrOf result (Ending.Failed Fault.File)) }
{
    let bytes = load_within(alloc, files, name, Kind::Image)?;
    image_of_bytes(alloc, &bytes)
}

/// The image that the bytes spell.
pub(crate) fn image_of_bytes(alloc: Global, bytes: &[u8]) -> Result<Image, Ending>
    requires { length bytes.now ≤ file_limit }
    ensures { image_in bytes.now (as_stage (λ image. image) result) }
{
    Ok(read_image(alloc, bytes)?)
}
