//! The command `eval`.

ghost use Rattle.std.specs.Prelude.{IsErrOf};
ghost use Rattle.ven_io.specs.Files.{OnlyLoads};
ghost use Rattle.array_file.specs.Output.{arrays_text};
ghost use Rattle.shape_check.specs.Checked.{program_of};
ghost use Rattle.shape_check.specs.Meaning.{meaning_of, FitInputs};
ghost use Rattle.venice_run.specs.Answer.{answer_of, prints};
ghost use Rattle.venice_run.specs.Eval.{eval as eval_lem};
ghost use Rattle.venice_run.specs.Stage.{as_stage};

use crate::answer::Answer;
use crate::ending::{Ending, Fault};
use crate::inputs::read_inputs;
use crate::programs::read_program;
use array_file::write_arrays;
use shape_check::Checked;
use std::alloc::Global;
use ven_base::Arrays;
use ven_io::Files;

/// It prints the outputs of PROGRAM on INPUTS, or comes to its first refusal. Files are only read.
pub(crate) fn eval<'a, F: Files>(
    alloc: Global,
    files: &mut F,
    program: &str,
    inputs: &str,
) -> Result<Answer<'a>, Ending>
    ensures answer { eval_lem (F.behaviour (F.state files.old).content) program.now inputs.now
        (as_stage answer_of result) }
    ensures only { OnlyLoads (F.state files.old) (F.state files.new) (IsErrOf result (Ending.Failed Fault.File)) }
{
    let checked = read_program(alloc, files, program)?;
    let arrays = read_inputs(alloc, files, inputs, &checked)?;
    print_meaning(alloc, &checked, &arrays)
}

fn print_meaning<'a>(
    alloc: Global,
    program: &Checked,
    inputs: &Arrays,
) -> Result<Answer<'a>, Ending>
    requires { FitInputs (program_of program.now) inputs.now }
    ensures { prints (arrays_text (meaning_of (program_of program.now) inputs.now)) (as_stage answer_of result) }
{
    let outputs = array_meaning::eval(alloc, program, inputs)?;
    let text = write_arrays(alloc, &outputs)?;
    Ok(Answer::printing(text))
}
