//! The command `explain`.

ghost use Rattle.std.specs.Prelude.{◌≡◌, ◌++◌, [], ◌∷◌, codes, IfOk, OnOk, IsErrOf, All};
ghost use Rattle.ven_io.specs.Files.{OnlyLoads};
ghost use Rattle.eval_order.specs.Fault.{IsGreatest};
ghost use Rattle.pass_plan.specs.Need.{greatest};
ghost use Rattle.pass_plan.specs.Shown.{pass_of, passes_of};
ghost use Rattle.venice_run.specs.Answer.{answer_of, prints};
ghost use Rattle.venice_run.specs.Explain.{numbers_line, order_text, pass_lines, explain as explain_lem};
ghost use Rattle.venice_run.specs.Lines.{lines_from};
ghost use Rattle.venice_run.specs.Plan.{IsOrdered};
ghost use Rattle.venice_run.specs.Stage.{as_stage};

use crate::answer::Answer;
use crate::check::pass_word;
use crate::ending::{Ending, Fault};
use crate::line::{Part, push_line, push_numbers};
use crate::plan::split_program;
use crate::programs::read_program;
use eval_order::Explained;
use pass_plan::{Pass, label};
use std::alloc::{AllocError, Global};
use ven_io::Files;

/// It prints for each pass of PROGRAM an order of evaluation and what it holds, or comes to its first refusal. Files
/// are only read.
pub(crate) fn explain<'a, F: Files>(
    alloc: Global,
    files: &mut F,
    program: &str,
) -> Result<Answer<'a>, Ending>
    ensures answer { explain_lem (F.behaviour (F.state files.old).content) program.now (as_stage answer_of result) }
    ensures only { OnlyLoads (F.state files.old) (F.state files.new) (IsErrOf result (Ending.Failed Fault.File)) }
{
    let checked = read_program(alloc, files, program)?;
    let split = split_program(alloc, &checked)?;
    print_orders(alloc, &split.passes)
}

fn print_orders<'a>(alloc: Global, passes: &[Pass]) -> Result<Answer<'a>, Ending>
    requires { All IsOrdered (passes_of passes.now) }
    ensures { prints (lines_from pass_lines 1 (passes_of passes.now)) (as_stage answer_of result) }
{
    Ok(Answer::printing(orders_text(alloc, passes)?))
}

fn orders_text(alloc: Global, passes: &[Pass]) -> Result<Vec<u8>, AllocError>
    requires { All IsOrdered (passes_of passes.now) }
    ensures { IfOk result (λ text. text.items ≡ lines_from pass_lines 1 (passes_of passes.now)) }
{
    let mut text = Vec::new(alloc);
    let mut k = 0;
    for pass in passes {
        k += 1;
        push_pass(&mut text, k, pass, alloc)?;
    }
    Ok(text)
}

fn push_pass(text: &mut Vec<u8>, k: u64, pass: &Pass, alloc: Global) -> Result<(), AllocError>
    requires { IsOrdered (pass_of pass.now) }
    ensures { OnOk result (text.new.items ≡ text.old.items ++ pass_lines k (pass_of pass.now)) }
{
    let explained = eval_order::explain(alloc, &pass.tree)?;
    push_line(
        text,
        b"pass",
        &[Part::Number(k), Part::Words(pass_word(pass.kind))],
    )?;
    push_order(text, &explained, label(&pass.tree))?;
    Ok(())
}

fn push_order(text: &mut Vec<u8>, explained: &Explained, least: u32) -> Result<(), AllocError>
    requires { IsGreatest explained.now.most explained.now.held.items }
    ensures { OnOk result
        (text.new.items ≡ text.old.items ++ order_text explained.now.order.items explained.now.held.items least) }
{
    push_numbers(text, b"order", &explained.order)?;
    push_numbers(text, b"held", &explained.held)?;
    push_most(text, explained)?;
    push_line(text, b"least", &[Part::Number(u64::from(least))])?;
    Ok(())
}

fn push_most(text: &mut Vec<u8>, explained: &Explained) -> Result<(), AllocError>
    requires { IsGreatest explained.now.most explained.now.held.items }
    ensures { OnOk result
        (text.new.items ≡ text.old.items ++ numbers_line (codes "most") (greatest explained.now.held.items ∷ [])) }
{
    push_line(text, b"most", &[Part::Number(u64::from(explained.most))])
}
