//! The command `asm`.

ghost use Rattle.std.specs.Prelude.{◌≤◌, [], length, IsErrOf};
ghost use Rattle.ven_io.specs.Files.{OnlyLoads};
ghost use Rattle.image_loader.specs.Table.{file_limit};
ghost use Rattle.image_loader.specs.Image.{spelling};
ghost use Rattle.venice_run.specs.Answer.{answer_of, saves_and_prints};
ghost use Rattle.venice_run.specs.Asm.{assembled, asm as asm_lem};
ghost use Rattle.venice_run.specs.Stage.{as_stage};

use crate::answer::Answer;
use crate::ending::{Ending, Fault};
use crate::reading::load_within;
use crate::refusal::Kind;
use image_loader::{Image, write_image};
use std::alloc::Global;
use ven_io::Files;
use venice_asm::assemble;

/// It saves the image that TEXT denotes under the name IMAGE and prints nothing, or comes to its first refusal. Files
/// are only read here; the save comes with the answer.
pub(crate) fn asm<'a, F: Files>(
    alloc: Global,
    files: &mut F,
    text: &str,
    image: &'a str,
) -> Result<Answer<'a>, Ending>
    ensures answer { asm_lem (F.behaviour (F.state files.old).content) text.now image.now (as_stage answer_of result) }
    ensures only { OnlyLoads (F.state files.old) (F.state files.new) (IsErrOf result (Ending.Failed Fault.File)) }
{
    let lines = load_within(alloc, files, text, Kind::Text)?;
    let denoted = image_of_text(alloc, &lines)?;
    save_image(alloc, image, &denoted)
}

/// The image that the text denotes.
fn image_of_text(alloc: Global, text: &[u8]) -> Result<Image, Ending>
    requires { length text.now ≤ file_limit }
    ensures { assembled text.now (as_stage (λ image. image) result) }
{
    Ok(assemble(alloc, text)?)
}

fn save_image<'a>(alloc: Global, name: &'a str, image: &Image) -> Result<Answer<'a>, Ending>
    ensures { saves_and_prints name.now (spelling image.now) [] (as_stage answer_of result) }
{
    let bytes = write_image(alloc, image)?;
    Ok(Answer::saving(name, bytes, Vec::new(alloc)))
}
