//! The command `check`.

ghost use Rattle.std.specs.Prelude.{◌≡◌, ◌++◌, ◌≤◌, IfOk, OnOk, IsErrOf, All};
ghost use Rattle.ven_io.specs.Files.{OnlyLoads};
ghost use Rattle.pass_plan.specs.Need.{need_of, pass_need, IsSmall, AreSmall};
ghost use Rattle.pass_plan.specs.Shown.{pass_of, passes_of};
ghost use Rattle.shape_check.specs.Checked.{program_of, statement_of, IsWhole};
ghost use Rattle.venice_run.specs.Answer.{answer_of, prints};
ghost use Rattle.venice_run.specs.Check.{output_line, pass_word as pass_word_lem, pass_line, need_line, bound_line, plan_text as plan_text_lem, check as check_lem};
ghost use Rattle.venice_run.specs.Lines.{lines_from};
ghost use Rattle.venice_run.specs.Stage.{as_stage};

use crate::answer::Answer;
use crate::ending::{Ending, Fault};
use crate::line::{Part, push_line};
use crate::output::push_heading;
use crate::plan::read_plan;
use pass_plan::{Pass, PassKind, bound, need, need_laws, tile, tiles};
use shape_check::{CheckedStmt, StmtKind};
use std::alloc::{AllocError, Global};
use ven_base::Fold;
use ven_io::Files;

/// It prints the outputs' shapes of PROGRAM, its need, its passes with their tiles in SPAD bytes, and its bound, or
/// comes to its first refusal. Files are only read.
pub(crate) fn check<'a, F: Files>(
    alloc: Global,
    files: &mut F,
    program: &str,
    spad: u32,
) -> Result<Answer<'a>, Ending>
    ensures answer { check_lem (F.behaviour (F.state files.old).content) program.now spad (as_stage answer_of result) }
    ensures only { OnlyLoads (F.state files.old) (F.state files.new) (IsErrOf result (Ending.Failed Fault.File)) }
{
    let plan = read_plan(alloc, files, program, spad)?;
    print_plan(
        alloc,
        plan.program.stmts.as_slice(),
        &plan.split.passes,
        spad,
    )
}

fn print_plan<'a>(
    alloc: Global,
    stmts: &[CheckedStmt],
    passes: &[Pass],
    spad: u32,
) -> Result<Answer<'a>, Ending>
    requires whole { All IsWhole stmts.now }
    requires small { AreSmall (passes_of passes.now) }
    requires room { need_of (passes_of passes.now) ≤ spad }
    ensures { prints (plan_text_lem (program_of stmts.now) (passes_of passes.now) spad) (as_stage answer_of result) }
{
    Ok(Answer::printing(plan_text(alloc, stmts, passes, spad)?))
}

fn plan_text(
    alloc: Global,
    stmts: &[CheckedStmt],
    passes: &[Pass],
    spad: u32,
) -> Result<Vec<u8>, AllocError>
    requires whole { All IsWhole stmts.now }
    requires small { AreSmall (passes_of passes.now) }
    requires room { need_of (passes_of passes.now) ≤ spad }
    ensures { IfOk result (λ text. text.items ≡ plan_text_lem (program_of stmts.now) (passes_of passes.now) spad) }
{
    let mut text = Vec::new(alloc);
    push_outputs(&mut text, stmts)?;
    push_line(&mut text, b"need", &[Part::Number(need(passes))])?;
    push_passes(&mut text, passes, spad)?;
    push_line(&mut text, b"bound", &[Part::Number(bound(passes))])?;
    Ok(text)
}

fn push_outputs(text: &mut Vec<u8>, stmts: &[CheckedStmt]) -> Result<(), AllocError>
    requires { All IsWhole stmts.now }
    ensures { OnOk result (text.new.items ≡ text.old.items ++ lines_from (λ k. output_line) 0 (program_of stmts.now)) }
{
    for stmt in stmts {
        push_output(text, stmt)?;
    }
    Ok(())
}

fn push_output(text: &mut Vec<u8>, stmt: &CheckedStmt) -> Result<(), AllocError>
    requires { IsWhole stmt.now }
    ensures { OnOk result (text.new.items ≡ text.old.items ++ output_line (statement_of stmt.now)) }
{
    match stmt.kind {
        StmtKind::Output => push_heading(text, &stmt.name, stmt.elem, stmt.shape),
        StmtKind::Input | StmtKind::Let => Ok(()),
    }
}

fn push_passes(text: &mut Vec<u8>, passes: &[Pass], spad: u32) -> Result<(), AllocError>
    requires small { AreSmall (passes_of passes.now) }
    requires room { need_of (passes_of passes.now) ≤ spad }
    ensures { OnOk result (text.new.items ≡ text.old.items ++ lines_from (pass_line spad) 1 (passes_of passes.now)) }
{
    need_laws();
    let mut k = 0;
    for pass in passes {
        k += 1;
        push_pass(text, k, pass, spad)?;
    }
    Ok(())
}

fn push_pass(text: &mut Vec<u8>, k: u64, pass: &Pass, spad: u32) -> Result<(), AllocError>
    requires small { IsSmall (pass_of pass.now) }
    requires room { pass_need (pass_of pass.now) ≤ spad }
    ensures { OnOk result (text.new.items ≡ text.old.items ++ pass_line spad k (pass_of pass.now)) }
{
    let tile = tile(pass, spad);
    let parts = [
        Part::Number(k),
        Part::Words(pass_word(pass.kind)),
        Part::Number(u64::from(pass.domain.rows)),
        Part::Number(u64::from(pass.domain.cols)),
        Part::Words(b"tile"),
        Part::Number(u64::from(tile.h)),
        Part::Number(u64::from(tile.w)),
        Part::Words(b"tiles"),
        Part::Number(u64::from(tiles(pass, tile))),
    ];
    push_line(text, b"pass", &parts)
}

/// The word of a kind of pass.
pub(crate) fn pass_word(kind: PassKind) -> &'static [u8]
    ensures { result.now ≡ pass_word_lem kind }
{
    match kind {
        PassKind::Map => b"map",
        PassKind::Reduce(Fold::Sum) => b"sum",
        PassKind::Reduce(Fold::Min) => b"min",
        PassKind::Reduce(Fold::Max) => b"max",
    }
}
