//! The command `disasm`.

ghost use Rattle.std.specs.Prelude.{IsErrOf};
ghost use Rattle.ven_io.specs.Files.{OnlyLoads};
ghost use Rattle.venice_asm.specs.Canonical.{canonical};
ghost use Rattle.venice_run.specs.Answer.{answer_of, prints};
ghost use Rattle.venice_run.specs.Disasm.{disasm as disasm_lem};
ghost use Rattle.venice_run.specs.Stage.{as_stage};

use crate::answer::Answer;
use crate::ending::{Ending, Fault};
use crate::images::load_image;
use image_loader::Image;
use std::alloc::Global;
use ven_io::Files;
use venice_asm::disassemble;

/// It prints the canonical assembler text of IMAGE, or comes to its first refusal. Files are only read.
pub(crate) fn disasm<'a, F: Files>(
    alloc: Global,
    files: &mut F,
    image: &str,
) -> Result<Answer<'a>, Ending>
    ensures answer { disasm_lem (F.behaviour (F.state files.old).content) image.now (as_stage answer_of result) }
    ensures only { OnlyLoads (F.state files.old) (F.state files.new) (IsErrOf result (Ending.Failed Fault.File)) }
{
    let loaded = load_image(alloc, files, image)?;
    print_image(alloc, &loaded)
}

fn print_image<'a>(alloc: Global, image: &Image) -> Result<Answer<'a>, Ending>
    ensures { prints (canonical image.now) (as_stage answer_of result) }
{
    let text = disassemble(alloc, image)?;
    Ok(Answer::printing(text))
}
