//! The command `exec`.

ghost use Rattle.std.specs.Prelude.{◌≡◌, ◌++◌, ◌<◌, ◌≤◌, ◌^◌, IfOk, OnOk, IsErrOf};
ghost use Rattle.std.specs.Option.{option_map};
ghost use Rattle.ven_io.specs.Files.{OnlyLoads};
ghost use Rattle.array_file.specs.Output.{arrays_text};
ghost use Rattle.venice_machine.specs.Answers.{counts_of};
ghost use Rattle.venice_machine.specs.Machine.{Shows};
ghost use Rattle.venice_machine.specs.Run.{run, step_limit};
ghost use Rattle.venice_machine.specs.Start.{setup_of, start_state};
ghost use Rattle.venice_machine.specs.State.{State};
ghost use Rattle.venice_run.specs.Answer.{answer_of};
ghost use Rattle.venice_run.specs.Exec.{counts_text, prints_run, run_text as run_text_lem, exec as exec_lem};
ghost use Rattle.venice_run.specs.Inputs.{fitting};
ghost use Rattle.venice_run.specs.Ready.{readies};
ghost use Rattle.venice_run.specs.Stage.{as_stage};
ghost use Rattle.venice_run.specs.Words.{AreInRange};

use crate::answer::Answer;
use crate::ending::{Ending, Fault};
use crate::grants::load_grants;
use crate::images::load_image;
use crate::inputs::load_arrays;
use crate::line::{Part, push_line};
use crate::plan::need_room;
use crate::refusal::Refusal;
use crate::request::Resources;
use array_file::write_arrays;
use image_loader::Image;
use std::alloc::{AllocError, Global};
use ven_base::Arrays;
use ven_io::Files;
use venice_machine::{Counts, Grants, Machine, MakeFault};

/// It runs IMAGE on INPUTS under GRANTS and prints the outputs and the counts, or comes to its first refusal. Files are
/// only read.
pub(crate) fn exec<'a, F: Files>(
    alloc: Global,
    files: &mut F,
    image: &str,
    inputs: &str,
    resources: Resources,
    grants: Option<&str>,
) -> Result<Answer<'a>, Ending>
    requires { AreInRange resources }
    ensures answer { exec_lem (F.behaviour (F.state files.old).content) image.now inputs.now resources
        (option_map (λ name. name.now) grants.entry) (as_stage answer_of result) }
    ensures only { OnlyLoads (F.state files.old) (F.state files.new) (IsErrOf result (Ending.Failed Fault.File)) }
{
    let mut machine = fed_machine(alloc, files, image, inputs, resources)?;
    let list = load_grants(alloc, files, grants)?;
    print_run(alloc, &mut machine, &list, resources.budget)
}

/// The machine of IMAGE with INPUTS in memory.
fn fed_machine<F: Files>(
    alloc: Global,
    files: &mut F,
    image: &str,
    inputs: &str,
    resources: Resources,
) -> Result<Machine, Ending>
    requires { AreInRange resources }
    ensures answer { readies (F.behaviour (F.state files.old).content) image.now inputs.now resources
        (as_stage (λ machine. machine) result) }
    ensures only { OnlyLoads (F.state files.old) (F.state files.new) (IsErrOf result (Ending.Failed Fault.File)) }
{
    let loaded = load_image(alloc, files, image)?;
    need_room(u64::from(loaded.spad), resources.spad)?;
    let arrays = load_arrays(alloc, files, inputs)?;
    make_machine(alloc, loaded, resources, &arrays)
}

/// The machine of the image with these arrays in memory, where they fit its inputs.
pub(crate) fn make_machine(
    alloc: Global,
    image: Image,
    resources: Resources,
    arrays: &Arrays,
) -> Result<Machine, Ending>
    requires range { AreInRange resources }
    requires room { image.spad ≤ resources.spad }
    ensures fits { fitting image.arrays arrays.now (as_stage (λ _. arrays.now) result) }
    ensures setup { IfOk result (λ machine. machine.setup ≡ setup_of image resources.lanes) }
    ensures start { IfOk result (λ machine. Shows machine (start_state image arrays.now resources.spad)) }
{
    match Machine::new(alloc, image, resources.lanes, resources.spad, arrays) {
        Ok(machine) => Ok(machine),
        Err(MakeFault::SpadTooSmall { .. }) => unreachable!(),
        Err(MakeFault::Fit(fault)) => Err(Ending::Refused(Refusal::Fit(fault))),
        Err(MakeFault::Memory) => Err(Ending::Failed(Fault::Memory)),
    }
}

/// Runs the machine, and prints what it comes to.
fn print_run<'a>(
    alloc: Global,
    machine: &mut Machine,
    grants: &Grants,
    budget: u64,
) -> Result<Answer<'a>, Ending>
    requires few_steps { budget ≤ step_limit }
    requires few_cycles { machine.old.cycles < 2 ^ 61 }
    ensures { (state : State) → Shows machine.old state →
        prints_run machine.old.setup.table (run machine.old.setup budget grants.now state)
        (as_stage answer_of result) }
{
    let counts = machine.run(grants, budget)?;
    let text = run_text(alloc, machine, counts)?;
    Ok(Answer::printing(text))
}

/// The outputs as the machine's memory holds them, and the counts.
pub(crate) fn run_text(
    alloc: Global,
    machine: &Machine,
    counts: Counts,
) -> Result<Vec<u8>, AllocError>
    ensures { (state : State) → Shows machine.now state → counts ≡ counts_of state →
        IfOk result (λ text. text.items ≡ run_text_lem machine.now.setup.table state) }
{
    let outputs = machine.outputs(alloc)?;
    let mut text = write_arrays(alloc, &outputs)?;
    push_counts(&mut text, counts)?;
    Ok(text)
}

fn push_counts(text: &mut Vec<u8>, counts: Counts) -> Result<(), AllocError>
    ensures { OnOk result (text.new.items ≡ text.old.items ++ counts_text counts) }
{
    push_line(text, b"steps", &[Part::Number(counts.steps)])?;
    push_line(text, b"cycles", &[Part::Number(counts.cycles)])
}
