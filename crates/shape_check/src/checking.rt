//! Checking a program (docs/LANGUAGE.md, "Checking").

ghost use Rattle.std.specs.Prelude.{◌≡◌, ◌≢◌, ◌≤◌, [], ◌∷◌, ◌++◌, length, IfOk, IfErr, OnOk, All};
ghost use Rattle.array_syntax.specs.Limits.{KeepsLimits, KeepsStatement, most_statements};
ghost use Rattle.shape_check.specs.declared.checked.StmtKind.TheVariants as kinds;
ghost use Rattle.shape_check.specs.Checked.{statement_of, program_of, IsWhole};
ghost use Rattle.shape_check.specs.Typed.{node_of};
ghost use Rattle.shape_check.specs.Typing.{IsProgramTyping};
ghost use Rattle.shape_check.specs.Faults.{IsAnswered};
ghost use Rattle.shape_check.specs.Judge.{Answers, judge_input, judge_new, judge_statement, judge_all, judge_end, stmt_name, stmt_place};
ghost use Rattle.shape_check.specs.Ending.{AreTypedStmts, valued};

use crate::expr::array;
use crate::names::Names;
use crate::rules::unsigned;
use crate::work::{WORK_LIMIT, has_output, work_of};
use crate::{ArrayType, CheckFault, Checked, CheckedStmt, StmtKind, Typed};
use array_syntax::{Program, Stmt};
use std::alloc::{AllocError, Global};
use ven_base::{Elem, Name, Shape};

/// The checked program: its statements and expressions, with a type and a shape at each node. A fault is the first in
/// the order of docs/LANGUAGE.md, "Checking", or `Memory`.
pub fn check(alloc: Global, program: Program) -> Result<Checked, CheckFault>
    requires { KeepsLimits program }
    ensures ok { IfOk result (λ checked. IsProgramTyping program.stmts (program_of checked)) }
    ensures fault { IfErr result (IsAnswered program.stmts) }
{
    let stmts = statements(alloc, program.stmts.as_slice())?;
    ending(stmts)
}

/// The checked statements, up to the first that breaks a rule.
fn statements(alloc: Global, stmts: &[Stmt]) -> Result<Vec<CheckedStmt>, CheckFault>
    requires each { All KeepsStatement stmts.now }
    requires room { length stmts.now ≤ most_statements }
    ensures verdict { Answers (λ v. program_of v.items) (judge_all [] stmts.now) result }
    ensures whole { IfOk result (λ v. All IsWhole v.items) }
{
    let mut names = Names::new(alloc);
    let mut checked = Vec::new(alloc);
    for stmt in stmts {
        let next = statement(alloc, &names, stmt)?;
        names.add(next.name, next.array_type())?;
        push(&mut checked, next)?;
    }
    Ok(checked)
}

/// The rules of the whole program, for statements that keep theirs: it has an output, and its work is within the limit.
fn ending(stmts: Vec<CheckedStmt>) -> Result<Checked, CheckFault>
    requires { AreTypedStmts stmts.items }
    ensures { Answers program_of (judge_end (program_of stmts.items)) result }
{
    if !has_output(&stmts) {
        return Err(CheckFault::NoOutput);
    }
    let need = work_of(&stmts);
    if need > WORK_LIMIT {
        return Err(CheckFault::TooMuchWork { need });
    }
    Ok(Checked { stmts })
}

/// A statement after those that declare the names.
fn statement(alloc: Global, names: &Names, stmt: &Stmt) -> Result<CheckedStmt, CheckFault>
    requires keeps { KeepsStatement stmt.now }
    requires room { length names.now ≤ most_statements }
    ensures verdict { Answers statement_of (judge_statement names.now stmt.now) result }
    ensures whole { IfOk result IsWhole }
{
    let name = name_of(stmt);
    if names.find(&name).is_some() {
        return Err(CheckFault::Twice { at: place_of(stmt) });
    }
    new_statement(alloc, names, stmt)
}

/// The name that a statement declares.
fn name_of(stmt: &Stmt) -> Name
    ensures { result ≡ stmt_name stmt.now }
{
    match stmt {
        Stmt::Input { name, .. } | Stmt::Let { name, .. } | Stmt::Output { name, .. } => *name,
    }
}

/// Where that name stands.
fn place_of(stmt: &Stmt) -> u32
    ensures { result ≡ stmt_place stmt.now }
{
    match stmt {
        Stmt::Input { at, .. } | Stmt::Let { at, .. } | Stmt::Output { at, .. } => *at,
    }
}

/// A statement whose name is new.
fn new_statement(alloc: Global, names: &Names, stmt: &Stmt) -> Result<CheckedStmt, CheckFault>
    requires keeps { KeepsStatement stmt.now }
    requires room { length names.now ≤ most_statements }
    ensures verdict { Answers statement_of (judge_new names.now stmt.now) result }
    ensures whole { IfOk result IsWhole }
{
    match stmt {
        Stmt::Input {
            name,
            elem,
            rows,
            cols,
            shape_at,
            ..
        } => input(*name, *elem, unsigned(*rows), unsigned(*cols), *shape_at),
        Stmt::Let { name, value, .. } => {
            let value = array(alloc, names, value)?;
            Ok(with_value(StmtKind::Let, *name, value))
        }
        Stmt::Output { name, value, .. } => {
            let value = array(alloc, names, value)?;
            Ok(with_value(StmtKind::Output, *name, value))
        }
    }
}

/// An input of so many rows and columns, which stand at `shape_at`.
fn input(
    name: Name,
    elem: Elem,
    rows: u32,
    cols: u32,
    shape_at: u32,
) -> Result<CheckedStmt, CheckFault>
    ensures verdict { Answers statement_of
        (judge_input name elem (record { rows = rows; cols = cols }) shape_at) result }
    ensures whole { IfOk result IsWhole }
{
    match Shape::new(rows, cols) {
        None => Err(CheckFault::BadShape { at: shape_at }),
        Some(shape) => Ok(CheckedStmt {
            kind: StmtKind::Input,
            name,
            elem,
            shape,
            value: None,
        }),
    }
}

/// A let or an output of this expression.
fn with_value(kind: StmtKind, name: Name, value: Typed) -> CheckedStmt
    requires { kind ≢ kinds.Input }
    ensures value { statement_of result ≡ valued kind name (node_of value) }
    ensures whole { IsWhole result }
{
    CheckedStmt {
        kind,
        name,
        elem: value.elem,
        shape: value.shape,
        value: Some(value),
    }
}

/// Appends a statement.
fn push(stmts: &mut Vec<CheckedStmt>, stmt: CheckedStmt) -> Result<(), AllocError>
    ensures { OnOk result (stmts.new.items ≡ stmts.old.items ++ stmt ∷ []) }
{
    stmts.push(stmt)?;
    Ok(())
}
