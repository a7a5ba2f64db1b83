//! Trees of passes, and what the calls on them ask for.
ghost use Rattle.std.specs.Prelude.{◌≡◌, ◌+◌, ◌≤◌, MatchOption, true, ⊤};
ghost use Rattle.pass_plan.specs.Tree.{nodes_of, is_computed};
ghost use Rattle.pass_plan.specs.Normal.{HasNormalSelects, IsNormal, is_comparison, is_select};
ghost use Rattle.pass_plan.specs.Pass.{node_limit};
ghost use Rattle.pass_plan.specs.Shown.{tree_of};

use pass_plan::Tree;
use std::alloc::{AllocError, Global};
use ven_base::{Elem, Op1, Op2};

pub(crate) fn one(alloc: Global, op: Op1, elem: Elem, a: Tree) -> Result<Tree, AllocError> {
    let a = Box::new(alloc, a)?;
    Ok(Tree::One { op, elem, a })
}

pub(crate) fn two(
    alloc: Global,
    op: Op2,
    elem: Elem,
    a: Tree,
    b: Tree,
) -> Result<Tree, AllocError> {
    let a = Box::new(alloc, a)?;
    let b = Box::new(alloc, b)?;
    Ok(Tree::Two { op, elem, a, b })
}

pub(crate) fn cast(alloc: Global, elem: Elem, from: Elem, a: Tree) -> Result<Tree, AllocError> {
    let a = Box::new(alloc, a)?;
    Ok(Tree::Cast { elem, from, a })
}

pub(crate) fn move_of(alloc: Global, elem: Elem, a: Tree) -> Result<Tree, AllocError> {
    let a = Box::new(alloc, a)?;
    Ok(Tree::Move { elem, a })
}

pub(crate) fn select(
    alloc: Global,
    elem: Elem,
    c: Tree,
    x: Tree,
    y: Tree,
) -> Result<Tree, AllocError> {
    let c = Box::new(alloc, c)?;
    let x = Box::new(alloc, x)?;
    let y = Box::new(alloc, y)?;
    Ok(Tree::Select { elem, c, x, y })
}

/// A sum of two leaves.
pub(crate) fn sum(alloc: Global) -> Result<Tree, AllocError> {
    two(alloc, Op2::Add, Elem::U8, Tree::Leaf(0), Tree::Leaf(1))
}

/// A full tree of additions, this high.
pub(crate) fn full(alloc: Global, height: u32) -> Result<Tree, AllocError> {
    if height <= 1 {
        return Ok(Tree::Leaf(height));
    }
    let a = full(alloc, height - 1)?;
    let b = full(alloc, height - 1)?;
    two(alloc, Op2::Add, Elem::U8, a, b)
}

/// A leaf, negated so often.
pub(crate) fn chain(alloc: Global, times: u32) -> Result<Tree, AllocError> {
    let mut chain = Tree::Leaf(0);
    for _ in 0..times {
        chain = one(alloc, Op1::Neg, Elem::U8, chain)?;
    }
    Ok(chain)
}

// ---- what the calls ask for

/// Whether a tree is normalised and has no more nodes than a pass's may have.
pub(crate) fn is_normal(tree: &Tree) -> bool
    ensures normal { result ≡ true → IsNormal (tree_of tree.now) }
    ensures nodes { result ≡ true → nodes_of (tree_of tree.now) ≤ node_limit }
{
    if nodes_within(tree, 8192).is_none() {
        return false;
    }
    has_normal_selects(tree) && works(tree) && !selects(tree)
}

fn has_normal_selects(tree: &Tree) -> bool
    ensures { result ≡ true → HasNormalSelects (tree_of tree.now) }
{
    match tree {
        Tree::Leaf(_) | Tree::Literal(_) => true,
        Tree::One { a, .. } => has_normal_selects(a),
        Tree::Cast { a, .. } => has_normal_selects(a),
        Tree::Move { a, .. } => has_normal_selects(a),
        Tree::Two { a, b, .. } => has_normal_selects(a) && has_normal_selects(b),
        Tree::Select { c, x, y, .. } => {
            compares(c)
                && works(y)
                && has_normal_selects(c)
                && has_normal_selects(x)
                && has_normal_selects(y)
        }
    }
}

fn compares(tree: &Tree) -> bool
    ensures { result ≡ is_comparison (tree_of tree.now) }
{
    match tree {
        Tree::Two { op, .. } => match op {
            Op2::Eq | Op2::Ne | Op2::Lt | Op2::Le | Op2::Gt | Op2::Ge => true,
            _ => false,
        },
        _ => false,
    }
}

fn works(tree: &Tree) -> bool
    ensures { result ≡ is_computed (tree_of tree.now) }
{
    match tree {
        Tree::Leaf(_) | Tree::Literal(_) => false,
        _ => true,
    }
}

fn selects(tree: &Tree) -> bool
    ensures { result ≡ is_select (tree_of tree.now) }
{
    match tree {
        Tree::Select { .. } => true,
        _ => false,
    }
}

/// The rest of a limit once a tree's nodes are taken off.
fn nodes_within(tree: &Tree, limit: u32) -> Option<u32>
    ensures { MatchOption result ⊤ (λ rest. rest + nodes_of (tree_of tree.now) ≡ limit) }
{
    let limit = limit.checked_sub(1)?;
    match tree {
        Tree::Leaf(_) | Tree::Literal(_) => Some(limit),
        Tree::One { a, .. } => nodes_within(a, limit),
        Tree::Cast { a, .. } => nodes_within(a, limit),
        Tree::Move { a, .. } => nodes_within(a, limit),
        Tree::Two { a, b, .. } => {
            let rest = nodes_within(a, limit)?;
            nodes_within(b, rest)
        }
        Tree::Select { c, x, y, .. } => {
            let rest = nodes_within(c, limit)?;
            let rest = nodes_within(x, rest)?;
            nodes_within(y, rest)
        }
    }
}
