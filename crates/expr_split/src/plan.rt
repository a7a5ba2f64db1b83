//! The passes of a program, before their leaves have numbers (docs/COMPILER.md, "Cuts" and "Passes").
ghost use Rattle.std.specs.Prelude.{◌≡◌, ◌+◌, ◌*◌, ◌<◌, ◌≤◌, ◌^◌, IfOk, map, length, nat_lt, get_or, ◌||◌};
ghost use Rattle.std.specs.List.{sum_by};
ghost use Rattle.shape_check.specs.Typed.{node_of};
ghost use Rattle.shape_check.specs.Checked.{nodes_of, statement_of, program_of};
ghost use Rattle.expr_split.specs.Cuts.{AtOutput, whole_leaf, inputs_in as inputs_of, seen_of};
ghost use Rattle.pass_plan.specs.Tree.{AtLeaf};
ghost use Rattle.expr_split.specs.Places.{input_types};
ghost use Rattle.expr_split.specs.Terms.{term_of, IsSeen};
ghost use Rattle.expr_split.specs.Asks.{AreAsks, asked_by as asks_by, let_asked, statement_asked, stmt_nodes, IsStatement, IsPlanOf};

use crate::drafts::{Plan, cut, is_reduction, root_of};
use crate::names::{all_mapped, all_names, tally};
use crate::term::{Term, is_higher};
use pass_plan::Leaf;
use shape_check::{CheckedStmt, StmtKind, Typed};
use std::alloc::{AllocError, Global};
use ven_base::{Elem, Mapping, Shape};

/// The greatest height of a tree that is put in the place of a name.
const HEIGHT_LIMIT: u32 = 64;

/// How often each name occurs, and how often as the operand of a map; more than once is 2. Both lists go by the
/// statements, from 0.
#[derive(Drop)]
pub struct Asks {
    pub uses: Vec<u8>,
    pub mapped: Vec<u8>,
}

/// The passes of a program and the trees of its names.
#[derive(Drop)]
pub struct Planned {
    pub names: Vec<Term>,
    pub plan: Plan,
}

fn asks_of(alloc: Global, stmts: &[CheckedStmt]) -> Result<Asks, AllocError>
    ensures { IfOk result (λ a. AreAsks (program_of stmts.now) a) }
{
    let names = all_names(alloc, stmts)?;
    let operands = all_mapped(alloc, stmts)?;
    let uses = tally(alloc, &names, stmts.len())?;
    let mapped = tally(alloc, &operands, stmts.len())?;
    Ok(Asks { uses, mapped })
}

/// Whether name `k`, which stands for this tree, is to have an array of its own.
fn asked(asks: &Asks, k: usize, term: &Term) -> bool
    ensures { result ≡ asks_by asks.now k (term_of term.now) }
{
    is_above(&asks.uses, k, 1) || is_above(&asks.mapped, k, 0) || is_higher(term, HEIGHT_LIMIT)
}

fn is_above(tally: &[u8], k: usize, limit: u8) -> bool
    ensures { result ≡ nat_lt limit (get_or tally.now k 0) }
{
    match tally.get(k) {
        Some(count) => *count > limit,
        None => false,
    }
}

/// The tree of an output's root: a leaf of its own array.
fn output_tree(
    alloc: Global,
    value: &Typed,
    names: &[Term],
    plan: &mut Plan,
) -> Result<Term, AllocError>
    requires { plan.old.next + 2 * nodes_of (node_of value.now) < 2 ^ 32 }
    ensures { IfOk result (λ t. IsSeen t plan.old plan.new (node_of value.now)
        (seen_of AtOutput (map term_of names.now) plan.old.next (node_of value.now))) }
{
    let own = root_of(alloc, value, names, plan)?;
    cut(alloc, own, value.elem, value.shape, plan)
}

fn is_one_of(first: bool, second: bool) -> bool
    ensures { result ≡ (first || second) }
{
    first || second
}

/// The tree of a let's root.
fn let_tree(
    alloc: Global,
    value: &Typed,
    asks: &Asks,
    names: &[Term],
    plan: &mut Plan,
) -> Result<Term, AllocError>
    requires { plan.old.next + 2 * nodes_of (node_of value.now) < 2 ^ 32 }
    ensures { IfOk result (λ t. IsSeen t plan.old plan.new (node_of value.now)
        (let_asked asks.now (length names.now) (map term_of names.now) plan.old.next (node_of value.now))) }
{
    let own = root_of(alloc, value, names, plan)?;
    let is_asked = asked(asks, names.len(), &own.term);
    let is_fold = is_reduction(value);
    if is_one_of(is_asked, is_fold) {
        cut(alloc, own, value.elem, value.shape, plan)
    } else {
        Ok(own.term)
    }
}

/// An array as it stands.
fn whole_array(array: u32, elem: Elem, shape: Shape) -> Term
    ensures { term_of result ≡ AtLeaf (whole_leaf array elem shape) }
{
    Term::Leaf(Leaf {
        array,
        elem,
        shape,
        map: Mapping::Identity,
    })
}

/// The tree of a statement; `taken` inputs came before it.
fn statement_tree(
    alloc: Global,
    stmt: &CheckedStmt,
    asks: &Asks,
    taken: u32,
    names: &[Term],
    plan: &mut Plan,
) -> Result<Term, AllocError>
    requires { plan.old.next + 2 * stmt_nodes (statement_of stmt.now) < 2 ^ 32 }
    ensures { IfOk result (λ t. IsStatement plan.old plan.new (statement_of stmt.now) t
        (statement_asked asks.now taken (map term_of names.now) plan.old.next (statement_of stmt.now))) }
{
    match stmt.kind {
        StmtKind::Input => Ok(whole_array(taken, stmt.elem, stmt.shape)),
        StmtKind::Let => match &stmt.value {
            Some(value) => let_tree(alloc, value, asks, names, plan),
            None => Ok(whole_array(taken, stmt.elem, stmt.shape)),
        },
        StmtKind::Output => match &stmt.value {
            Some(value) => output_tree(alloc, value, names, plan),
            None => Ok(whole_array(taken, stmt.elem, stmt.shape)),
        },
    }
}

/// Whether a statement is an input, 1 or 0.
fn inputs_in(stmt: &CheckedStmt) -> u32
    ensures { result ≡ inputs_of (statement_of stmt.now) }
{
    match stmt.kind {
        StmtKind::Input => 1,
        StmtKind::Let => match &stmt.value {
            Some(_) => 0,
            None => 1,
        },
        StmtKind::Output => match &stmt.value {
            Some(_) => 0,
            None => 1,
        },
    }
}

/// The passes and trees of a program with so many inputs.
pub fn plan_program(
    alloc: Global,
    stmts: &[CheckedStmt],
    inputs: u32,
) -> Result<Planned, AllocError>
    requires inputs_are { inputs ≡ length (input_types (program_of stmts.now)) }
    requires few { inputs + 2 * sum_by stmt_nodes (program_of stmts.now) ≤ 10000 }
    requires few_statements { length stmts.now ≤ 256 }
    ensures { IfOk result (λ p. IsPlanOf (program_of stmts.now) p.names.items p.plan) }
{
    let asks = asks_of(alloc, stmts)?;
    let mut names = Vec::new(alloc);
    let mut plan = Plan {
        next: inputs,
        drafts: Vec::new(alloc),
    };
    let mut taken = 0;
    for stmt in stmts {
        let term = statement_tree(alloc, stmt, &asks, taken, &names, &mut plan)?;
        names.push(term)?;
        taken += inputs_in(stmt);
    }
    Ok(Planned { names, plan })
}
