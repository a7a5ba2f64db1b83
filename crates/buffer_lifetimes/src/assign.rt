//! The order of a tree (docs/COMPILER.md, "Orders of evaluation").
ghost use Rattle.std.specs.Prelude.{◌≡◌, ℕ, ◌+◌, ◌≤◌, ◌<◌, [], ◌∷◌, ◌++◌, IfOk, OnOk, length, get_or, MatchOption, Some, None};
ghost use Rattle.std.specs.List.{range_with_len};
ghost use Rattle.pass_plan.specs.Tree.{nodes_of, operands_of, op_of, elem_of, from_of, is_computed};
ghost use Rattle.pass_plan.specs.Label.{label_of};
ghost use Rattle.pass_plan.specs.Normal.{IsNormal};
ghost use Rattle.pass_plan.specs.Pass.{node_limit};
ghost use Rattle.pass_plan.specs.Shown.{tree_of};
ghost use Rattle.pass_plan.specs.Numbers.{inner_of};
ghost use Rattle.pass_plan.specs.NumberShown.{IsSubtree};
ghost use Rattle.buffer_lifetimes.specs.Step.{step_of, steps_of};
ghost use Rattle.buffer_lifetimes.specs.Order.{IsOrder};
ghost use Rattle.buffer_lifetimes.specs.OrderOf as spec;

use crate::{Assigned, EvalStep, Operand};
use pass_plan::{Subtree, Tree, TreeOp, arity, numbered, operand};
use smallvec::SmallVec;
use std::alloc::{AllocError, Global};
use ven_base::Elem;

/// The order of a tree: one step for each inner node, on as many slots as the tree's label, the root's step last.
///
/// Computed operands are worked out in falling order of label, the left one first where labels are equal, each in the
/// slots that are still free. A node writes the slot of its first computed operand from the left, a select that of
/// its third; one without a computed operand, or a cast that changes the size, writes the free slot of least number.
pub fn order(alloc: Global, tree: &Tree) -> Result<Assigned, AllocError>
    requires normal { IsNormal (tree_of tree.now) }
    requires nodes { nodes_of (tree_of tree.now) ≤ node_limit }
    ensures steps { IfOk result (λ all. steps_of all.steps.items ≡ (spec.order_of (tree_of tree.now)).steps) }
    ensures lawful { IfOk result (λ all. IsOrder (tree_of tree.now) all.slots (steps_of all.steps.items) (spec.order_of (tree_of tree.now)).to) }
    ensures slots { IfOk result (λ all. all.slots ≡ label_of (tree_of tree.now)) }
    ensures count { IfOk result (λ all. length all.steps.items ≡ inner_of (tree_of tree.now)) }
{
    let nodes = numbered(alloc, tree)?;
    let whole = Subtree {
        tree,
        nodes: nodes.as_slice(),
    };
    let slots = whole.label();
    let free = all_slots(alloc, slots)?;
    let mut steps = Vec::new(alloc);
    let _ = evaluate(alloc, &whole, free.as_slice(), &mut steps)?;
    Ok(Assigned { steps, slots })
}

/// The steps of a subtree on these free slots go behind the others; the slot that holds it then.
fn evaluate(
    alloc: Global,
    subtree: &Subtree<'_>,
    free: &[u32],
    steps: &mut Vec<EvalStep>,
) -> Result<u32, AllocError>
    requires { (n : ℕ) × IsSubtree subtree.now n }
    ensures steps { IfOk result (λ to. steps_of steps.new.items ≡ steps_of steps.old.items ++ (spec.code_of (tree_of subtree.now.tree.now) free.now).steps) }
    ensures slot { IfOk result (λ to. to ≡ (spec.code_of (tree_of subtree.now.tree.now) free.now).to) }
{
    if !subtree.is_computed() {
        return Ok(0);
    }
    let mut slots = [0; 3];
    let mut left = copy_of(alloc, free)?;
    for turn in subtree.turns() {
        let to = evaluate(alloc, &subtree.operand(turn.place), left.as_slice(), steps)?;
        slots[turn.place] = to;
        left = without(alloc, left.as_slice(), to)?;
    }
    let args = args_for(alloc, subtree.tree, &slots)?;
    step(subtree.tree, args, left.as_slice(), steps)
}

/// This many slots, numbered from 0.
fn all_slots(alloc: Global, slots: u32) -> Result<Vec<u32>, AllocError>
    ensures { IfOk result (λ all. all.items ≡ range_with_len 0 slots) }
{
    let mut all = Vec::new(alloc);
    for slot in 0..slots {
        all.push(slot)?;
    }
    Ok(all)
}

/// The same slots.
fn copy_of(alloc: Global, free: &[u32]) -> Result<Vec<u32>, AllocError>
    ensures { IfOk result (λ copy. copy.items ≡ free.now) }
{
    free.iter().copied().collect(alloc)
}

/// The free slots but one.
fn without(alloc: Global, free: &[u32], slot: u32) -> Result<Vec<u32>, AllocError>
    ensures { IfOk result (λ left. left.items ≡ spec.remove_slot slot free.now) }
{
    free.iter().copied().filter(|s| *s != slot).collect(alloc)
}

/// What a node reads of an operand, which is at this slot if it is computed.
fn arg_for(tree: &Tree, slot: u32) -> Operand
    ensures { result ≡ spec.arg_for (tree_of tree.now) slot }
{
    match tree {
        Tree::Leaf(k) => Operand::Leaf(*k),
        Tree::Literal(n) => Operand::Literal(*n),
        _ => Operand::Slot(slot),
    }
}

/// The arguments of a node whose computed operands are at these slots.
fn args_for(
    alloc: Global,
    tree: &Tree,
    slots: &[u32; 3],
) -> Result<SmallVec<Operand, 3>, AllocError>
    ensures { IfOk result (λ args. args.items ≡ spec.args_for (operands_of (tree_of tree.now)) (λ k. get_or slots.now k 0) 0) }
{
    let mut args = SmallVec::new(alloc);
    for place in 0..arity(tree) {
        args.push(arg_for(operand(tree, place), slots[place]))?;
    }
    Ok(args)
}

/// The step of a node goes behind the others; the slot that it writes.
fn step(
    tree: &Tree,
    args: SmallVec<Operand, 3>,
    left: &[u32],
    steps: &mut Vec<EvalStep>,
) -> Result<u32, AllocError>
    requires { length args.items ≡ length (operands_of (tree_of tree.now)) }
    ensures steps { OnOk result (steps_of steps.new.items ≡ steps_of steps.old.items ++ spec.step_for (tree_of tree.now) args.items left.now ∷ []) }
    ensures slot { IfOk result (λ to. to ≡ spec.slot_written (tree_of tree.now) args.items left.now) }
{
    let to = slot_written(tree, args.as_slice(), left);
    let kind = node_kind(tree);
    steps.push(EvalStep {
        op: kind.op,
        elem: kind.elem,
        from: kind.from,
        args,
        to,
    })?;
    Ok(to)
}

/// The slot that a node writes: that of the operand whose place it keeps, or else the first of those that are left.
fn slot_written(tree: &Tree, args: &[Operand], left: &[u32]) -> u32
    requires { length args.now ≡ length (operands_of (tree_of tree.now)) }
    ensures { result ≡ spec.slot_written (tree_of tree.now) args.now left.now }
{
    match slot_kept(tree, args) {
        Some(slot) => slot,
        None => left.first().copied().unwrap_or(0),
    }
}

/// The slot of the operand whose place a node keeps.
fn slot_kept(tree: &Tree, args: &[Operand]) -> Option<u32>
    requires { length args.now ≡ length (operands_of (tree_of tree.now)) }
    ensures { result ≡ spec.slot_kept (op_of (tree_of tree.now)) (elem_of (tree_of tree.now)) (from_of (tree_of tree.now)) args.now }
{
    match tree {
        Tree::Select { .. } => first_slot(&args[2..]),
        Tree::Cast { elem, from, .. } if elem.size() != from.size() => None,
        _ => first_slot(args),
    }
}

/// The slot of the first argument that is in one.
fn first_slot(args: &[Operand]) -> Option<u32>
    ensures { result ≡ spec.first_slot args.now }
{
    match args.split_first() {
        None => None,
        Some((Operand::Slot(slot), _)) => Some(*slot),
        Some((_, later)) => first_slot(later),
    }
}

/// What an inner node does.
#[derive(Clone, Copy)]
struct NodeKind {
    op: TreeOp,
    elem: Elem,
    from: Elem,
}

/// What the root of a tree does.
fn node_kind(tree: &Tree) -> NodeKind
    ensures op { result.op ≡ op_of (tree_of tree.now) }
    ensures elem { result.elem ≡ elem_of (tree_of tree.now) }
    ensures from { result.from ≡ from_of (tree_of tree.now) }
{
    match tree {
        Tree::Leaf(_) | Tree::Literal(_) => of_one_type(TreeOp::Move, Elem::U8),
        Tree::One { op, elem, .. } => of_one_type(TreeOp::One(*op), *elem),
        Tree::Two { op, elem, .. } => of_one_type(TreeOp::Two(*op), *elem),
        Tree::Move { elem, .. } => of_one_type(TreeOp::Move, *elem),
        Tree::Select { elem, .. } => of_one_type(TreeOp::Select, *elem),
        Tree::Cast { elem, from, .. } => NodeKind {
            op: TreeOp::Cast,
            elem: *elem,
            from: *from,
        },
    }
}

/// A root whose operands have its own type.
fn of_one_type(op: TreeOp, elem: Elem) -> NodeKind
    ensures { result ≡ record { op = op; elem = elem; from = elem } }
{
    NodeKind {
        op,
        elem,
        from: elem,
    }
}
