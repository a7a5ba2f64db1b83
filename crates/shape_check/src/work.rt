//! The work of a program: the elements of its inputs and of all nodes that aren't literals (docs/LANGUAGE.md,
//! "Checking").

ghost use Rattle.std.specs.Prelude.{◌≡◌, ◌≤◌, ◌*◌, ◌+◌, length, All};
ghost use Rattle.std.specs.List.{list_any, sum_by};
ghost use Rattle.ven_base.specs.Extent.{element_limit};
ghost use Rattle.array_syntax.specs.Limits.{most_nodes, most_statements};
ghost use Rattle.shape_check.specs.Typed.{node_of};
ghost use Rattle.shape_check.specs.Statement.{is_output, in_value};
ghost use Rattle.shape_check.specs.Checked.{statement_of, program_of, IsWhole, nodes_of, node_work as node_work_of, statement_work as statement_work_of, work_of as work_of_all};

use crate::{CheckedStmt, StmtKind, Typed, TypedKind};

/// The most work of a program, in elements.
pub const WORK_LIMIT: u64 = 16_777_216;

/// Whether one of the statements is an output.
pub fn has_output(stmts: &[CheckedStmt]) -> bool
    requires { All IsWhole stmts.now }
    ensures { result ≡ list_any is_output (program_of stmts.now) }
{
    for stmt in stmts {
        if is_output(stmt) {
            return true;
        }
    }
    false
}

fn is_output(stmt: &CheckedStmt) -> bool
    requires { IsWhole stmt.now }
    ensures { result ≡ is_output (statement_of stmt.now) }
{
    match stmt.kind {
        StmtKind::Input | StmtKind::Let => false,
        StmtKind::Output => true,
    }
}

/// The work of statements, in elements.
pub fn work_of(stmts: &[CheckedStmt]) -> u64
    requires whole { All IsWhole stmts.now }
    requires few { length stmts.now ≤ most_statements }
    requires small { sum_by (in_value 0 nodes_of) (program_of stmts.now) ≤ most_nodes }
    ensures { result ≡ work_of_all (program_of stmts.now) }
{
    let mut work = 0;
    for stmt in stmts {
        work += statement_work(stmt);
    }
    work
}

fn statement_work(stmt: &CheckedStmt) -> u64
    requires whole { IsWhole stmt.now }
    requires small { in_value 0 nodes_of (statement_of stmt.now) ≤ most_nodes }
    ensures value { result ≡ statement_work_of (statement_of stmt.now) }
    ensures within { result ≤ (in_value 0 nodes_of (statement_of stmt.now) + 1) * element_limit }
{
    match &stmt.value {
        None => u64::from(stmt.shape.elements()),
        Some(value) => node_work(value),
    }
}

fn node_work(e: &Typed) -> u64
    requires { nodes_of (node_of e.now) ≤ most_nodes }
    ensures value { result ≡ node_work_of (node_of e.now) }
    ensures within { result ≤ nodes_of (node_of e.now) * element_limit }
{
    let elements = u64::from(e.shape.elements());
    match &e.kind {
        TypedKind::Name(_) => elements,
        TypedKind::Literal(_) => 0,
        TypedKind::One(_, a) => elements + node_work(a),
        TypedKind::Two(_, a, b) => elements + node_work(a) + node_work(b),
        TypedKind::Cast(a) => elements + node_work(a),
        TypedKind::Select(c, x, y) => elements + node_work(c) + node_work(x) + node_work(y),
        TypedKind::Map(_, a) => elements + node_work(a),
        TypedKind::RowFold(_, a) => elements + node_work(a),
        TypedKind::Fold(_, a) => elements + node_work(a),
    }
}
