//! What scratchpad passes need, and how many steps they take at most (docs/COMPILER.md, "Need" and "Bound").
ghost use Rattle.std.specs.Prelude.{◌≡◌, ◌≤◌, ◌<◌, ◌+◌, ◌*◌, ◌^◌};
ghost use Rattle.ven_base.specs.Extent.{element_limit};
ghost use Rattle.pass_plan.specs.Tree.{nodes_of, widest_of};
ghost use Rattle.pass_plan.specs.Label.{label_of, needed_together};
ghost use Rattle.pass_plan.specs.Pass.{node_limit};
ghost use Rattle.pass_plan.specs.Need.{widest_leaf, widest_in, pass_need, need_of, pass_work, bound_of, result_buffers, IsSmall, AreSmall};
ghost use Rattle.pass_plan.specs.Shown.{tree_of, pass_of, passes_of};

use crate::{Leaf, Pass, PassKind, Tree};

#[tactic(auto, using(crate::proofs::Labels::label_few))]
/// How many results are held at once where a tree is worked out with as few as possible: 0 for a leaf or a literal.
pub fn label(tree: &Tree) -> u32
    requires { nodes_of (tree_of tree.now) ≤ node_limit }
    ensures { result ≡ label_of (tree_of tree.now) }
{
    match tree {
        Tree::Leaf(_) => 0,
        Tree::Literal(_) => 0,
        Tree::One { a, .. } => together(label(a), 0, 0),
        Tree::Move { a, .. } => together(label(a), 0, 0),
        Tree::Two { a, b, .. } => together(label(a), label(b), 0),
        Tree::Select { c, x, y, .. } => together(label(c), label(x), label(y)),
        Tree::Cast { elem, from, a } => {
            let operand = label(a);
            if operand > 0 && elem.size() != from.size() {
                together(operand, 0, 0).max(2)
            } else {
                together(operand, 0, 0)
            }
        }
    }
}

/// How many results a node holds at once, by the labels of its operands, 0 where one isn't computed.
fn together(first: u32, second: u32, third: u32) -> u32
    requires first_small { first ≤ node_limit }
    requires second_small { second ≤ node_limit }
    requires third_small { third ≤ node_limit }
    ensures { result ≡ needed_together first second third }
{
    let most = first.max(second).max(third);
    let least = first.min(second).min(third);
    let middle = first + second + third - most - least;
    let mut held = most.max(1);
    if middle > 0 {
        held = held.max(middle + 1);
    }
    if least > 0 {
        held = held.max(least + 2);
    }
    held
}

/// The greatest size in bytes of the results of a tree's inner nodes, at most 4.
fn widest_node(tree: &Tree) -> u32
    ensures { result ≡ widest_of (tree_of tree.now) }
{
    match tree {
        Tree::Leaf(_) => 0,
        Tree::Literal(_) => 0,
        Tree::One { elem, a, .. } => elem.size().max(widest_node(a)),
        Tree::Move { elem, a } => elem.size().max(widest_node(a)),
        Tree::Cast { elem, a, .. } => elem.size().max(widest_node(a)),
        Tree::Two { elem, a, b, .. } => elem.size().max(widest_node(a).max(widest_node(b))),
        Tree::Select { elem, c, x, y } => {
            let choices = widest_node(x).max(widest_node(y));
            elem.size().max(widest_node(c).max(choices))
        }
    }
}

/// How many nodes a tree has, each occurrence of a leaf and each literal among them.
fn nodes(tree: &Tree) -> u32
    requires { nodes_of (tree_of tree.now) ≤ node_limit }
    ensures { result ≡ nodes_of (tree_of tree.now) }
{
    match tree {
        Tree::Leaf(_) => 1,
        Tree::Literal(_) => 1,
        Tree::One { a, .. } => 1 + nodes(a),
        Tree::Move { a, .. } => 1 + nodes(a),
        Tree::Cast { a, .. } => 1 + nodes(a),
        Tree::Two { a, b, .. } => 1 + nodes(a) + nodes(b),
        Tree::Select { c, x, y, .. } => 1 + nodes(c) + nodes(x) + nodes(y),
    }
}

/// The greatest size in bytes of the leaves' elements, 0 where there are none.
fn widest_of_leaves(leaves: &[Leaf]) -> u32
    ensures { result ≡ widest_leaf leaves.now }
{
    let mut widest = 0;
    for leaf in leaves {
        widest = widest.max(leaf.elem.size());
    }
    widest
}

#[tactic(auto, using(crate::proofs::Sums::widest_few))]
/// The greatest size in bytes of an element of the pass: 1, 2 or 4.
pub fn widest(pass: &Pass) -> u32
    ensures value { result ≡ widest_in (pass_of pass.now) }
    ensures few { result ≤ 4 }
{
    let leaves = widest_of_leaves(&pass.leaves);
    let nodes = widest_node(&pass.tree);
    pass.elem.size().max(leaves.max(nodes))
}

/// How many buffers hold the pass's results.
fn buffers_for_results(kind: PassKind) -> u64
    ensures { result ≡ result_buffers kind }
{
    match kind {
        PassKind::Map => 2,
        PassKind::Reduce(_) => 3,
    }
}

#[tactic(auto, using(crate::proofs::Sums::buffers_few))]
/// The bytes of scratchpad that one pass needs.
pub(crate) fn need_of_pass(pass: &Pass) -> u64
    requires nodes { nodes_of (tree_of pass.now.tree) ≤ node_limit }
    requires bytes { pass_need (pass_of pass.now) < 2 ^ 64 }
    ensures { result ≡ pass_need (pass_of pass.now) }
{
    let leaves = 2 * pass.leaves.len() as u64;
    let buffers = leaves + u64::from(label(&pass.tree)) + buffers_for_results(pass.kind);
    buffers * u64::from(widest(pass))
}

/// The least scratchpad in bytes in which the passes can be done, and 0 where there are none.
pub fn need(passes: &[Pass]) -> u64
    requires { AreSmall (passes_of passes.now) }
    ensures { result ≡ need_of (passes_of passes.now) }
{
    let mut need = 0;
    for pass in passes {
        need = need.max(need_of_pass(pass));
    }
    need
}

/// A pass's share of the bound.
fn work(pass: &Pass) -> u64
    requires { IsSmall (pass_of pass.now) }
    ensures value { result ≡ pass_work (pass_of pass.now) }
    ensures few { result ≤ element_limit * (node_limit + 8) }
{
    u64::from(pass.domain.elements()) * (u64::from(nodes(&pass.tree)) + 8)
}

/// How many steps the passes take at most.
pub fn bound(passes: &[Pass]) -> u64
    requires { AreSmall (passes_of passes.now) }
    ensures { result ≡ bound_of (passes_of passes.now) }
{
    let mut sum = 0;
    for pass in passes {
        sum += work(pass);
    }
    256 * (1 + sum)
}
