//! The inner nodes of a tree by number (docs/COMPILER.md, "Orders of evaluation").
ghost use Rattle.std.specs.Prelude.{◌≡◌, ◌+◌, ◌-◌, ◌≤◌, ◌<◌, ◌^◌, [], ◌∷◌, ◌++◌, IfOk, map, length, vec_len, slice_set};
ghost use Rattle.pass_plan.specs.Tree.{nodes_of, operands_of};
ghost use Rattle.pass_plan.specs.Label.{least_label};
ghost use Rattle.pass_plan.specs.Pass.{node_limit};
ghost use Rattle.pass_plan.specs.Shown.{tree_of};
ghost use Rattle.pass_plan.specs.Numbers.{inner_of, nodes_from};
ghost use Rattle.pass_plan.specs.NumberShown.{node_of};
ghost use Rattle.pass_plan.specs.NumberSize.{size_of, node_by, size_by, total_inner, held_by, no_node};

use crate::subtree::{arity, operand};
use crate::turn::{TreeSize, in_turn, label_with};
use crate::{NumberedNode, Tree};
use smallvec::SmallVec;
use std::alloc::{AllocError, Global};

/// The inner nodes of a tree in the order of their numbers.
pub fn numbered(alloc: Global, tree: &Tree) -> Result<Vec<NumberedNode>, AllocError>
    requires { nodes_of (tree_of tree.now) ≤ node_limit }
    ensures { IfOk result (λ nodes. map node_of nodes.items ≡ nodes_from (tree_of tree.now) 1) }
{
    let mut nodes = Vec::new(alloc);
    let _ = number(alloc, tree, &mut nodes)?;
    Ok(nodes)
}

/// A tree's nodes go behind the others, and have the next numbers.
fn number(alloc: Global, tree: &Tree, nodes: &mut Vec<NumberedNode>) -> Result<TreeSize, AllocError>
    requires { vec_len nodes.old + inner_of (tree_of tree.now) < 2 ^ 31 }
    ensures nodes { IfOk result (λ size. map node_of nodes.new.items
        ≡ map node_of nodes.old.items ++ nodes_from (tree_of tree.now) (vec_len nodes.old + 1)) }
    ensures size { IfOk result (λ size. size ≡ size_of (tree_of tree.now)) }
    ensures count { IfOk result (λ size. vec_len nodes.new ≡ vec_len nodes.old + inner_of (tree_of tree.now)) }
{
    let arity = arity(tree);
    if arity == 0 {
        return Ok(TreeSize { label: 0, inner: 0 });
    }
    let at = leave_place(alloc, nodes)?;
    let mut sizes: SmallVec<TreeSize, 3> = SmallVec::new(alloc);
    for place in 0..arity {
        let size = number(alloc, operand(tree, place), nodes)?;
        sizes.push(size)?;
    }
    let least = least_of(tree, sizes.as_slice());
    put(alloc, nodes, at, least, sizes.as_slice())
}

/// A place for a node that is known once its operands are.
fn leave_place(alloc: Global, nodes: &mut Vec<NumberedNode>) -> Result<usize, AllocError>
    ensures place { IfOk result (λ at. at ≡ vec_len nodes.old) }
    ensures nodes { IfOk result (λ at. map node_of nodes.new.items ≡ map node_of nodes.old.items ++ no_node ∷ []) }
    ensures count { IfOk result (λ at. vec_len nodes.new ≡ vec_len nodes.old + 1) }
{
    let at = nodes.len();
    nodes.push(NumberedNode {
        number: 0,
        label: 0,
        inner: 0,
        least: 0,
        turns: SmallVec::new(alloc),
    })?;
    Ok(at)
}

/// The node with operands of these sizes goes to its place; its tree's size.
fn put(
    alloc: Global,
    nodes: &mut Vec<NumberedNode>,
    at: usize,
    least: u32,
    sizes: &[TreeSize],
) -> Result<TreeSize, AllocError>
    requires place { at < vec_len nodes.old }
    requires numbers { at + total_inner sizes.now + 2 < 2 ^ 32 }
    requires labels { held_by sizes.now (at + 2) < 2 ^ 32 }
    requires few { length sizes.now < 2 ^ 32 - 1 }
    ensures nodes { IfOk result (λ size. map node_of nodes.new.items
        ≡ slice_set (map node_of nodes.old.items) at (node_by sizes.now (at + 1) least)) }
    ensures size { IfOk result (λ size. size ≡ size_by sizes.now (at + 1) least) }
    ensures count { vec_len nodes.new ≡ vec_len nodes.old }
{
    let number = at as u32 + 1;
    let turns = in_turn(alloc, sizes, 0, number + 1)?;
    let label = label_with(least, turns.as_slice());
    let inner = 1 + all_inner(sizes);
    nodes[at] = NumberedNode {
        number,
        label,
        inner,
        least,
        turns,
    };
    Ok(TreeSize { label, inner })
}

/// How many inner nodes trees of these sizes have together.
fn all_inner(sizes: &[TreeSize]) -> u32
    requires { total_inner sizes.now < 2 ^ 32 }
    ensures { result ≡ total_inner sizes.now }
{
    match sizes.split_first() {
        None => 0,
        Some((size, later)) => size.inner + all_inner(later),
    }
}

/// How many results the root of a tree holds while it is worked out, by the sizes of its operands.
fn least_of(tree: &Tree, sizes: &[TreeSize]) -> u32
    requires { sizes.now ≡ map size_of (operands_of (tree_of tree.now)) }
    ensures { result ≡ least_label (tree_of tree.now) }
{
    match tree {
        Tree::Cast { elem, from, .. } if sizes[0].inner > 0 && elem.size() != from.size() => 2,
        _ => 1,
    }
}
