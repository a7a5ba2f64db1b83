//! Orders with slots of trees by hand, of trees made by a counter, and of the largest trees.
use crate::trees::{cast, chain, full, is_normal, move_of, one, select, sum, two};
use buffer_lifetimes::{Assigned, EvalStep, Operand, order};
use pass_plan::{Tree, TreeOp};
use std::alloc::{AllocError, Global};
use std::test::Fail;
use ven_base::{Elem, Op1, Op2};

/// The order of a tree under a move of it, with that tree.
fn order_below_move(alloc: Global, tree: Tree) -> Result<(Tree, Assigned), Fail> {
    let tree = move_of(alloc, Elem::U8, tree)?;
    if !is_normal(&tree) {
        return Err(Fail::new("no normal tree"));
    }
    let assigned = order(alloc, &tree)?;
    Ok((tree, assigned))
}

// ---- a checker of any order: each tree has a mark of 64 bits, by its root and the marks of its operands

fn mix(mark: u64, n: u64) -> u64 {
    let mixed = (mark ^ n.wrapping_add(0x9e37_79b9_7f4a_7c15)).wrapping_mul(0xff51_afd7_ed55_8ccd);
    mixed ^ (mixed >> 29)
}

fn elem_number(elem: Elem) -> u64 {
    match elem {
        Elem::U8 => 1,
        Elem::I8 => 2,
        Elem::U16 => 3,
        Elem::I16 => 4,
        Elem::U32 => 5,
        Elem::I32 => 6,
    }
}

fn op_number(op: TreeOp) -> u64 {
    match op {
        TreeOp::One(Op1::Neg) => 1,
        TreeOp::One(_) => 2,
        TreeOp::Two(Op2::Add) => 3,
        TreeOp::Two(Op2::Xor) => 4,
        TreeOp::Two(Op2::Ge) => 5,
        TreeOp::Two(_) => 6,
        TreeOp::Cast => 7,
        TreeOp::Move => 8,
        TreeOp::Select => 9,
    }
}

fn root_mark(op: TreeOp, elem: Elem, from: Elem) -> u64 {
    mix(mix(op_number(op), elem_number(elem)), elem_number(from))
}

fn leaf_mark(k: u32) -> u64 {
    mix(100, u64::from(k))
}

fn literal_mark(n: i64) -> u64 {
    mix(200, n.unsigned_abs())
}

fn tree_mark(tree: &Tree) -> u64 {
    match tree {
        Tree::Leaf(k) => leaf_mark(*k),
        Tree::Literal(n) => literal_mark(*n),
        Tree::One { op, elem, a } => {
            mix(root_mark(TreeOp::One(*op), *elem, *elem), tree_mark(a))
        }
        Tree::Cast { elem, from, a } => mix(root_mark(TreeOp::Cast, *elem, *from), tree_mark(a)),
        Tree::Move { elem, a } => mix(root_mark(TreeOp::Move, *elem, *elem), tree_mark(a)),
        Tree::Two { op, elem, a, b } => {
            let first = mix(root_mark(TreeOp::Two(*op), *elem, *elem), tree_mark(a));
            mix(first, tree_mark(b))
        }
        Tree::Select { elem, c, x, y } => {
            let first = mix(root_mark(TreeOp::Select, *elem, *elem), tree_mark(c));
            let second = mix(first, tree_mark(x));
            mix(second, tree_mark(y))
        }
    }
}

/// The mark of an argument, taken out of its slot.
fn argument_mark(slots: &mut [Option<u64>], arg: Operand) -> Option<u64> {
    match arg {
        Operand::Leaf(k) => Some(leaf_mark(k)),
        Operand::Literal(n) => Some(literal_mark(n)),
        Operand::Slot(s) => match slots.get_mut(s as usize) {
            Some(slot) => slot.take(),
            None => None,
        },
    }
}

fn is_slot(arg: &Operand, slot: u32) -> bool {
    match arg {
        Operand::Slot(s) => *s == slot,
        _ => false,
    }
}

/// Whether the step may write its slot, as far as its operation and types say.
fn keeps_place(step: &EvalStep) -> bool {
    let in_place = step.args.as_slice().iter().any(|arg| is_slot(arg, step.to));
    if in_place && step.from.size() != step.elem.size() {
        return false;
    }
    match step.op {
        TreeOp::Select => match step.args.as_slice().get(2) {
            Some(third) => is_slot(third, step.to),
            None => false,
        },
        _ => true,
    }
}

/// Does a step on slots that hold marks; whether it may be done.
fn done(slots: &mut [Option<u64>], step: &EvalStep) -> bool {
    let mut mark = root_mark(step.op, step.elem, step.from);
    for arg in step.args.as_slice() {
        match argument_mark(slots, *arg) {
            Some(operand) => mark = mix(mark, operand),
            None => {
                return false;
            }
        }
    }
    match slots.get_mut(step.to as usize) {
        Some(slot) if slot.is_none() => {
            *slot = Some(mark);
            keeps_place(step)
        }
        _ => false,
    }
}

/// Whether the steps can be done, and leave this mark alone.
fn leave(slots: &mut [Option<u64>], steps: &[EvalStep], mark: u64) -> bool {
    for step in steps {
        if !done(slots, step) {
            return false;
        }
    }
    let left = slots.iter().filter(|slot| slot.is_some()).count();
    left == 1 && slots.iter().any(|slot| *slot == Some(mark))
}

/// Whether the steps go from empty slots to the tree alone, each reading what it needs.
fn is_order(alloc: Global, tree: &Tree, assigned: &Assigned) -> Result<bool, AllocError> {
    let mut slots: Vec<Option<u64>> = Vec::new(alloc);
    for _ in 0..assigned.slots {
        slots.push(None)?;
    }
    Ok(leave(&mut slots, assigned.steps.as_slice(), tree_mark(tree)))
}

/// How many slots the order of a tree has, where it is one.
fn slots_of(alloc: Global, tree: Tree) -> Result<Option<u32>, Fail> {
    let (tree, assigned) = order_below_move(alloc, tree)?;
    if is_order(alloc, &tree, &assigned)? {
        Ok(Some(assigned.slots))
    } else {
        Ok(None)
    }
}

// ---- steps as a text

fn op_word(op: TreeOp) -> &'static str {
    match op {
        TreeOp::One(Op1::Neg) => "neg",
        TreeOp::Two(Op2::Add) => "add",
        TreeOp::Two(Op2::Sub) => "sub",
        TreeOp::Two(Op2::Mul) => "mul",
        TreeOp::Two(Op2::Lt) => "lt",
        TreeOp::Cast => "cast",
        TreeOp::Move => "move",
        TreeOp::Select => "select",
        _ => "other",
    }
}

/// An argument behind a blank: a leaf as `a`, a slot as `s`.
fn push_argument(text: &mut String, alloc: Global, arg: Operand) -> Result<(), AllocError> {
    let word = match arg {
        Operand::Leaf(k) => format!(in alloc; " a{k}")?,
        Operand::Literal(n) => format!(in alloc; " {n}")?,
        Operand::Slot(s) => format!(in alloc; " s{s}")?,
    };
    text.push_str(word.as_str())
}

/// The operation, its arguments and, behind a sign, its slot.
fn push_step(text: &mut String, alloc: Global, step: &EvalStep) -> Result<(), AllocError> {
    text.push_str(op_word(step.op))?;
    for arg in step.args.as_slice() {
        push_argument(text, alloc, *arg)?;
    }
    let to = format!(in alloc; " > {}; ", step.to)?;
    text.push_str(to.as_str())
}

fn steps_text(alloc: Global, assigned: &Assigned) -> Result<String, AllocError> {
    let mut text = String::new(alloc);
    for step in assigned.steps.as_slice() {
        push_step(&mut text, alloc, step)?;
    }
    Ok(text)
}

/// Whether these are the steps of the order of a tree under a move of it.
fn has_steps(alloc: Global, tree: Tree, steps: &str) -> Result<bool, Fail> {
    let (_tree, assigned) = order_below_move(alloc, tree)?;
    let text = steps_text(alloc, &assigned)?;
    Ok(text.as_str() == steps)
}

// ---- trees

/// The product of a sum and a difference: three labels of 1 under one of 2.
fn product(alloc: Global) -> Result<Tree, AllocError> {
    let a = one(alloc, Op1::Neg, Elem::U8, sum(alloc)?)?;
    let b = two(alloc, Op2::Sub, Elem::U8, a, sum(alloc)?)?;
    two(alloc, Op2::Mul, Elem::U8, sum(alloc)?, b)
}

/// A comparison of a sum and a leaf.
fn comparison(alloc: Global) -> Result<Tree, AllocError> {
    let sum = sum(alloc)?;
    two(alloc, Op2::Lt, Elem::U8, sum, Tree::Leaf(2))
}

/// A select of three computed operands.
fn three_operands(alloc: Global) -> Result<Tree, AllocError> {
    let y = move_of(alloc, Elem::U8, Tree::Leaf(3))?;
    select(alloc, Elem::U8, comparison(alloc)?, sum(alloc)?, y)
}

fn wide_sum(alloc: Global) -> Result<Tree, AllocError> {
    cast(alloc, Elem::U16, Elem::U8, sum(alloc)?)
}

/// A tree made by a counter: every operation, leaves and literals in each place.
fn counter_tree(alloc: Global, seed: &mut u32, height: u32) -> Result<Tree, AllocError> {
    *seed = seed.wrapping_mul(1_664_525).wrapping_add(1_013_904_223);
    let pick = *seed / 65_536 % 9;
    if height == 0 || pick < 2 {
        return Ok(if pick % 2 == 0 {
            Tree::Leaf(pick)
        } else {
            Tree::Literal(7)
        });
    }
    let a = counter_tree(alloc, seed, height - 1)?;
    match pick {
        2 => one(alloc, Op1::Neg, Elem::I16, a),
        3 => cast(alloc, Elem::U16, Elem::U8, a),
        4 => cast(alloc, Elem::U8, Elem::I32, a),
        5 => cast(alloc, Elem::I16, Elem::U16, a),
        6 | 7 => {
            let b = counter_tree(alloc, seed, height - 1)?;
            two(alloc, Op2::Xor, Elem::U8, a, b)
        }
        _ => {
            let b = counter_tree(alloc, seed, height - 1)?;
            let c = two(alloc, Op2::Ge, Elem::U8, a, b)?;
            let x = counter_tree(alloc, seed, height - 1)?;
            let y = counter_tree(alloc, seed, height - 1)?;
            let y = move_of(alloc, Elem::U8, y)?;
            select(alloc, Elem::U8, c, x, y)
        }
    }
}

// ---- the tests

#[test]
fn steps_of_small_trees(rt: HostRuntime) -> Result<(), Fail> {
    let alloc = rt.alloc();
    let steps =
        "add a0 a1 > 0; neg s0 > 0; add a0 a1 > 1; sub s0 s1 > 0; add a0 a1 > 1; mul s1 s0 > 1; move s1 > 1; ";
    assert!(rt; has_steps(alloc, product(alloc)?, steps)?);
    let steps = "add a0 a1 > 0; cast s0 > 1; move s1 > 1; ";
    assert!(rt; has_steps(alloc, wide_sum(alloc)?, steps)?);
    let steps =
        "add a0 a1 > 0; lt s0 a2 > 0; add a0 a1 > 1; move a3 > 2; select s0 s1 s2 > 2; move s2 > 2; ";
    assert!(rt; has_steps(alloc, three_operands(alloc)?, steps)?);
    Ok(())
}

#[test]
fn orders_of_many_trees(rt: HostRuntime) -> Result<(), Fail> {
    let alloc = rt.alloc();
    for height in 1..7 {
        let slots = slots_of(alloc, full(alloc, height)?)?;
        assert!(rt; slots == Some(if height < 3 { 1 } else { height - 1 }));
    }
    let mut seed = 1;
    let mut most = 0;
    for _ in 0..300 {
        let slots = slots_of(alloc, counter_tree(alloc, &mut seed, 5)?)?;
        assert!(rt; slots.is_some());
        most = slots.unwrap_or(0).max(most);
    }
    assert!(rt; most == 5);
    Ok(())
}

/// How many slots and steps the order of a tree has.
fn sizes_of(alloc: Global, tree: Tree) -> Result<(u32, usize), Fail> {
    let (_tree, assigned) = order_below_move(alloc, tree)?;
    Ok((assigned.slots, assigned.steps.len()))
}

#[test]
fn orders_of_the_largest_trees(rt: HostRuntime) -> Result<(), Fail> {
    let alloc = rt.alloc();
    assert!(rt; sizes_of(alloc, full(alloc, 12)?)? == (11, 2_048));
    assert!(rt; sizes_of(alloc, chain(alloc, 8_190)?)? == (1, 8_191));
    Ok(())
}
