//! Where names occur (docs/COMPILER.md, "Cuts"). A name is the number of the statement that declares it.
ghost use Rattle.std.specs.Prelude.{◌≡◌, ◌++◌, ◌<◌, IfOk, OnOk, length};
ghost use Rattle.std.specs.Option.{option_map};
ghost use Rattle.shape_check.specs.Typed.{node_of};
ghost use Rattle.shape_check.specs.Occurrences.{names_in, names_under_maps, own_name, all_names as names_of_all, all_mapped as mapped_of_all};
ghost use Rattle.shape_check.specs.Checked.{statement_of, program_of};
ghost use Rattle.expr_split.specs.Tally.{value_in, names_of, mapped_of, bumped, IsTally};

use shape_check::{CheckedStmt, StmtKind, Typed, TypedKind};
use std::alloc::{AllocError, Global};

/// The expression of a statement, where it has one.
pub fn value_of(stmt: &CheckedStmt) -> Option<&Typed>
    ensures { option_map (λ r. node_of r.now) result ≡ value_in (statement_of stmt.now) }
{
    match stmt.kind {
        StmtKind::Input => None,
        StmtKind::Let => stmt.value.as_ref(),
        StmtKind::Output => stmt.value.as_ref(),
    }
}

/// Appends the names in an expression, from left to right, each as often as it occurs.
fn push_names(node: &Typed, names: &mut Vec<u32>) -> Result<(), AllocError>
    ensures { OnOk result (names.new.items ≡ names.old.items ++ names_in (node_of node.now)) }
{
    match &node.kind {
        TypedKind::Name(k) => names.push(*k)?,
        TypedKind::Literal(_) => {}
        TypedKind::One(_, a) => push_names(a, names)?,
        TypedKind::Cast(a) => push_names(a, names)?,
        TypedKind::Map(_, a) => push_names(a, names)?,
        TypedKind::RowFold(_, a) => push_names(a, names)?,
        TypedKind::Fold(_, a) => push_names(a, names)?,
        TypedKind::Two(_, a, b) => {
            push_names(a, names)?;
            push_names(b, names)?;
        }
        TypedKind::Select(c, x, y) => {
            push_names(c, names)?;
            push_names(x, names)?;
            push_names(y, names)?;
        }
    }
    Ok(())
}

/// Appends the name that an expression is.
fn push_own_name(node: &Typed, names: &mut Vec<u32>) -> Result<(), AllocError>
    ensures { OnOk result (names.new.items ≡ names.old.items ++ own_name (node_of node.now)) }
{
    match &node.kind {
        TypedKind::Name(k) => {
            names.push(*k)?;
            Ok(())
        }
        _ => Ok(()),
    }
}

/// Appends the names that stand themselves as the operand of a map.
fn push_mapped(node: &Typed, names: &mut Vec<u32>) -> Result<(), AllocError>
    ensures { OnOk result (names.new.items ≡ names.old.items ++ names_under_maps (node_of node.now)) }
{
    match &node.kind {
        TypedKind::Name(_) => {}
        TypedKind::Literal(_) => {}
        TypedKind::One(_, a) => push_mapped(a, names)?,
        TypedKind::Cast(a) => push_mapped(a, names)?,
        TypedKind::RowFold(_, a) => push_mapped(a, names)?,
        TypedKind::Fold(_, a) => push_mapped(a, names)?,
        TypedKind::Map(_, a) => {
            push_own_name(a, names)?;
            push_mapped(a, names)?;
        }
        TypedKind::Two(_, a, b) => {
            push_mapped(a, names)?;
            push_mapped(b, names)?;
        }
        TypedKind::Select(c, x, y) => {
            push_mapped(c, names)?;
            push_mapped(x, names)?;
            push_mapped(y, names)?;
        }
    }
    Ok(())
}

fn push_statement_names(stmt: &CheckedStmt, names: &mut Vec<u32>) -> Result<(), AllocError>
    ensures { OnOk result (names.new.items ≡ names.old.items ++ names_of (statement_of stmt.now)) }
{
    match value_of(stmt) {
        Some(value) => push_names(value, names),
        None => Ok(()),
    }
}

fn push_statement_mapped(stmt: &CheckedStmt, names: &mut Vec<u32>) -> Result<(), AllocError>
    ensures { OnOk result (names.new.items ≡ names.old.items ++ mapped_of (statement_of stmt.now)) }
{
    match value_of(stmt) {
        Some(value) => push_mapped(value, names),
        None => Ok(()),
    }
}

/// All occurrences of names in a program.
pub fn all_names(alloc: Global, stmts: &[CheckedStmt]) -> Result<Vec<u32>, AllocError>
    ensures { IfOk result (λ v. v.items ≡ names_of_all (program_of stmts.now)) }
{
    let mut names = Vec::new(alloc);
    for stmt in stmts {
        push_statement_names(stmt, &mut names)?;
    }
    Ok(names)
}

/// All occurrences of names that stand themselves as the operand of a map.
pub fn all_mapped(alloc: Global, stmts: &[CheckedStmt]) -> Result<Vec<u32>, AllocError>
    ensures { IfOk result (λ v. v.items ≡ mapped_of_all (program_of stmts.now)) }
{
    let mut names = Vec::new(alloc);
    for stmt in stmts {
        push_statement_mapped(stmt, &mut names)?;
    }
    Ok(names)
}

/// How often each of the first `count` names occurs, where more than once is 2.
pub fn tally(alloc: Global, names: &[u32], count: usize) -> Result<Vec<u8>, AllocError>
    ensures { IfOk result (λ v. IsTally v.items names.now count) }
{
    let mut uses = vec![in alloc; 0; count]?;
    for name in names {
        bump(&mut uses, *name);
    }
    Ok(uses)
}

/// One occurrence more.
fn bump(uses: &mut Vec<u8>, name: u32)
    ensures { uses.new.items ≡ bumped uses.old.items name }
{
    let k = name as usize;
    if k < uses.len() {
        uses[k] = uses[k].min(1) + 1;
    }
}
