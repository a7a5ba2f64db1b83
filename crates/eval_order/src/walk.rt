//! What an order holds at each place (docs/COMPILER.md, "Why a label is the least").
ghost use Rattle.std.specs.Prelude.{◌≡◌, ℕ, ◌+◌, ◌≤◌, true, false, IfOk, OnOk, IfErr, MatchResult, map, length};
ghost use Rattle.pass_plan.specs.Tree.{nodes_of};
ghost use Rattle.pass_plan.specs.Label.{label_of};
ghost use Rattle.pass_plan.specs.Normal.{IsNormal};
ghost use Rattle.pass_plan.specs.Pass.{node_limit};
ghost use Rattle.pass_plan.specs.Shown.{tree_of};
ghost use Rattle.eval_order.specs.Order.{IsOrder, IsFault, AreDone};
ghost use Rattle.eval_order.specs.Held.{held_of};
ghost use Rattle.eval_order.specs.Fault.{IsHeldFault, SomeIsAtLeast};
ghost use Rattle.eval_order.specs.Walk.{in_list, IsReady};

use crate::HeldFault;
use pass_plan::{NumberedNode, Tree, Turn, numbered};
use std::alloc::{AllocError, Global};

/// How many results an order holds at each of its places; at one of them at least as many as the tree's label.
///
/// A result is held from its node's place to that of the node above it. At a cast that changes the size of a computed
/// operand both are held at once. `NotAnOrder` comes exactly where the list is no order.
pub fn held(alloc: Global, tree: &Tree, order: &[u32]) -> Result<Vec<u32>, HeldFault>
    requires normal { IsNormal (tree_of tree.now) }
    requires nodes { nodes_of (tree_of tree.now) ≤ node_limit }
    ensures ok { IfOk result (λ all. all.items ≡ held_of (tree_of tree.now) order.now) }
    ensures order { OnOk result (IsOrder (tree_of tree.now) order.now) }
    ensures least { IfOk result (λ all. SomeIsAtLeast (label_of (tree_of tree.now)) all.items) }
    ensures fault { IfErr result (λ fault. IsHeldFault (tree_of tree.now) order.now fault) }
{
    match held_or_place(alloc, tree, order) {
        Ok(Ok(all)) => Ok(all),
        Ok(Err(at)) => Err(HeldFault::NotAnOrder { at }),
        Err(_) => Err(HeldFault::Memory),
    }
}

/// The numbers of `held`, or the first place at which the list is no order.
pub fn held_or_place(
    alloc: Global,
    tree: &Tree,
    order: &[u32],
) -> Result<Result<Vec<u32>, u32>, AllocError>
    requires { nodes_of (tree_of tree.now) ≤ node_limit }
    ensures ok { IfOk result (λ answer. IfOk answer (λ all. all.items ≡ held_of (tree_of tree.now) order.now)) }
    ensures order { IfOk result (λ answer. OnOk answer (IsOrder (tree_of tree.now) order.now)) }
    ensures fault { IfOk result (λ answer. IfErr answer (λ at. IsFault (tree_of tree.now) order.now at)) }
{
    let nodes = numbered(alloc, tree)?;
    let mut came = vec![in alloc; false; nodes.len() + 1]?;
    let mut all = Vec::new(alloc);
    let mut resting: u32 = 0;
    for (at, number) in order.iter().enumerate() {
        if !may_come(nodes.as_slice(), came.as_slice(), *number) {
            return Ok(Err(at as u32));
        }
        let node = &nodes[*number as usize - 1];
        resting = resting + 1 - node.turns.len() as u32;
        came[*number as usize] = true;
        all.push(resting + node.least - 1)?;
    }
    if order.len() < nodes.len() {
        return Ok(Err(order.len() as u32));
    }
    Ok(Ok(all))
}

/// Whether the node with this number is new and its operands came.
fn may_come(nodes: &[NumberedNode], came: &[bool], number: u32) -> bool
    ensures yes { result ≡ true → IsReady nodes.now came.now number }
    ensures no { result ≡ false → IsReady nodes.now came.now number → ⊥ }
{
    if number == 0 || is_in(came, number) {
        return false;
    }
    match nodes.get(number as usize - 1) {
        Some(node) => all_in(came, node.turns.as_slice()),
        None => false,
    }
}

/// Whether all operands came.
fn all_in(came: &[bool], turns: &[Turn]) -> bool
    ensures yes { result ≡ true → AreDone (in_list came.now) turns.now }
    ensures no { result ≡ false → AreDone (in_list came.now) turns.now → ⊥ }
{
    match turns.split_first() {
        None => true,
        Some((turn, later)) => is_in(came, turn.number) && all_in(came, later),
    }
}

/// Whether the node came.
fn is_in(came: &[bool], number: u32) -> bool
    ensures { result ≡ in_list came.now number }
{
    match came.get(number as usize) {
        Some(came) => *came,
        None => false,
    }
}
