//! The best order of a tree (docs/COMPILER.md, "Why a label is the least").
ghost use Rattle.std.specs.Prelude.{◌≡◌, ◌+◌, ◌-◌, ◌<◌, ◌≤◌, ◌++◌, true, IfOk, OnOk, map};
ghost use Rattle.pass_plan.specs.Tree.{nodes_of, is_computed};
ghost use Rattle.pass_plan.specs.Label.{label_of};
ghost use Rattle.pass_plan.specs.Normal.{IsNormal};
ghost use Rattle.pass_plan.specs.Pass.{node_limit};
ghost use Rattle.pass_plan.specs.Shown.{tree_of};
ghost use Rattle.pass_plan.specs.NumberShown.{IsSubtree};
ghost use Rattle.eval_order.specs.Held.{held_of};
ghost use Rattle.eval_order.specs.BestOrder.{best_order};
ghost use Rattle.eval_order.specs.Fault.{IsGreatest};

use crate::walk::held_or_place;
use pass_plan::{NumberedNode, Subtree, Tree, numbered};
use std::alloc::{AllocError, Global};

/// An order of a tree, how many results it holds at each of its places, and the most of these.
#[derive(Drop)]
pub struct Explained {
    /// The numbers of the inner nodes, from 1.
    pub order: Vec<u32>,
    pub held: Vec<u32>,
    pub most: u32,
}

/// The best order of a tree: a node's computed operands in falling order of label, the left one first where labels
/// are equal, each whole, and then the node. It holds at most as many results as the tree's label, and no order holds
/// fewer.
pub fn explain(alloc: Global, tree: &Tree) -> Result<Explained, AllocError>
    requires normal { IsNormal (tree_of tree.now) }
    requires nodes { nodes_of (tree_of tree.now) ≤ node_limit }
    ensures order { IfOk result (λ e. e.order.items ≡ best_order (tree_of tree.now)) }
    ensures held { IfOk result (λ e. e.held.items ≡ held_of (tree_of tree.now) (best_order (tree_of tree.now))) }
    ensures most { IfOk result (λ e. e.most ≡ label_of (tree_of tree.now)) }
    ensures greatest { IfOk result (λ e. IsGreatest e.most e.held.items) }
{
    let nodes = numbered(alloc, tree)?;
    let whole = Subtree {
        tree,
        nodes: nodes.as_slice(),
    };
    let most = whole.label();
    let order = best_numbers(alloc, &whole)?;
    let held = match held_or_place(alloc, tree, order.as_slice())? {
        Ok(held) => held,
        Err(_) => unreachable!(),
    };
    Ok(Explained { order, held, most })
}

/// The best order, made from its end: a node's number, and then the trees of its operands, the last of them first.
fn best_numbers(alloc: Global, whole: &Subtree<'_>) -> Result<Vec<u32>, AllocError>
    requires root { is_computed (tree_of whole.now.tree.now) ≡ true }
    requires nodes { IsSubtree whole.now 1 }
    ensures { IfOk result (λ order. order.items ≡ best_order (tree_of whole.now.tree.now)) }
{
    let mut waiting = Vec::new(alloc);
    waiting.push(1u32)?;
    let mut order = Vec::new(alloc);
    while let Some(number) = waiting.pop() {
        order.push(number)?;
        put_operands(&whole.nodes[number as usize - 1], &mut waiting)?;
    }
    order.reverse();
    Ok(order)
}

/// The numbers of a node's computed operands go behind the others, in turn.
fn put_operands(node: &NumberedNode, waiting: &mut Vec<u32>) -> Result<(), AllocError>
    ensures { OnOk result (waiting.new.items ≡ waiting.old.items ++ map (λ turn. turn.number) node.now.turns.items) }
{
    for turn in node.turns.as_slice() {
        waiting.push(turn.number)?;
    }
    Ok(())
}
