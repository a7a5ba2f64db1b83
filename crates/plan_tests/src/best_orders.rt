//! Best orders of small trees by hand, what every order of one tree holds, and the largest trees.
use crate::trees::{cast, chain, full, is_normal, move_of, one, select, sum, two};
use eval_order::{Explained, HeldFault, explain, held};
use pass_plan::Tree;
use std::alloc::{AllocError, Global};
use std::test::Fail;
use ven_base::{Elem, Op1, Op2};

fn best_of(alloc: Global, tree: &Tree) -> Result<Explained, Fail> {
    if !is_normal(tree) {
        return Err(Fail::new("no normal tree"));
    }
    Ok(explain(alloc, tree)?)
}

fn held_by(alloc: Global, tree: &Tree, order: &[u32]) -> Result<Vec<u32>, HeldFault> {
    if !is_normal(tree) {
        return Err(HeldFault::Memory);
    }
    held(alloc, tree, order)
}

/// The place at which a list is no order of a tree, where it is none.
fn fault_at(alloc: Global, tree: &Tree, order: &[u32]) -> Option<u32> {
    match held_by(alloc, tree, order) {
        Err(HeldFault::NotAnOrder { at }) => Some(at),
        _ => None,
    }
}

/// Whether a tree has this best order, which holds these numbers of results.
fn is_best(
    alloc: Global,
    tree: Tree,
    order: &[u32],
    held: &[u32],
    most: u32,
) -> Result<bool, Fail> {
    let best = best_of(alloc, &tree)?;
    Ok(best.order.as_slice() == order && best.held.as_slice() == held && best.most == most)
}

/// (a + b) * (a + b)
fn product(alloc: Global) -> Result<Tree, AllocError> {
    let a = sum(alloc)?;
    let b = sum(alloc)?;
    two(alloc, Op2::Mul, Elem::U8, a, b)
}

/// A move of select(a < 10, a, 0), the 0 as a move of it.
fn move_of_select(alloc: Global) -> Result<Tree, AllocError> {
    let c = two(alloc, Op2::Lt, Elem::U8, Tree::Leaf(0), Tree::Literal(10))?;
    let y = move_of(alloc, Elem::U8, Tree::Literal(0))?;
    let choice = select(alloc, Elem::U8, c, Tree::Leaf(0), y)?;
    move_of(alloc, Elem::U8, choice)
}

/// A sum, cast up and down so often.
fn casts(alloc: Global, times: u32) -> Result<Tree, AllocError> {
    let mut tree = sum(alloc)?;
    for _ in 0..times {
        let up = cast(alloc, Elem::U16, Elem::U8, tree)?;
        tree = cast(alloc, Elem::U8, Elem::U16, up)?;
    }
    Ok(tree)
}

#[test]
fn best_orders_of_small_trees(rt: HostRuntime) -> Result<(), Fail> {
    let alloc = rt.alloc();
    assert!(rt; is_best(alloc, product(alloc)?, &[2, 3, 1], &[1, 2, 1], 2)?);
    let up = cast(alloc, Elem::U16, Elem::U8, sum(alloc)?)?;
    assert!(rt; is_best(alloc, up, &[2, 1], &[1, 2], 2)?);
    let choice = move_of_select(alloc)?;
    assert!(rt; is_best(alloc, choice, &[3, 4, 2, 1], &[1, 2, 1, 1], 2)?);
    assert!(rt;
        is_best(
            alloc,
            casts(alloc, 2)?,
            &[5, 4, 3, 2, 1],
            &[1, 2, 2, 2, 2],
            2
        )?
    );
    assert!(rt; fault_at(alloc, &product(alloc)?, &[1, 2, 3]) == Some(0));
    Ok(())
}

// ---- every order of five nodes

/// (-a + b) * u8(-a): the product is node 1, the sum 2 over 3, and 4 a cast over 5 that changes the size.
fn five_nodes(alloc: Global) -> Result<Tree, AllocError> {
    let a = one(alloc, Op1::Neg, Elem::U8, Tree::Leaf(0))?;
    let a = two(alloc, Op2::Add, Elem::U8, a, Tree::Leaf(1))?;
    let b = one(alloc, Op1::Neg, Elem::U8, Tree::Leaf(0))?;
    let b = cast(alloc, Elem::U8, Elem::U16, b)?;
    two(alloc, Op2::Mul, Elem::U8, a, b)
}

/// The number of the node above each of `five_nodes`, 0 above the root.
const ABOVE: [u32; 5] = [0, 1, 2, 1, 4];

/// Whether the number stands among the first.
fn is_among(numbers: &[u32], number: u32) -> bool {
    numbers.iter().any(|k| *k == number)
}

/// The first place at which a list of five numbers is no order of `five_nodes`.
fn fault_of(order: &[u32; 5]) -> Option<u32> {
    for (at, number) in order.iter().enumerate() {
        let before = order.get(..at).unwrap_or(&[]);
        for (below, above) in (1..6u32).zip(ABOVE) {
            if above == *number && !is_among(before, below) {
                return u32::try_from(at).ok();
            }
        }
    }
    None
}

/// How many results are held once these numbers came: each whose node above didn't, and one more at the cast.
fn count_of(came: &[u32]) -> u32 {
    let mut count = match came.last() {
        Some(4) => 1u32,
        _ => 0,
    };
    for (number, above) in (1..6u32).zip(ABOVE) {
        if is_among(came, number) && !is_among(came, above) {
            count = count.saturating_add(1);
        }
    }
    count
}

/// Whether `held` answers the counts of an order, or its fault.
fn agrees(alloc: Global, tree: &Tree, order: &[u32; 5]) -> bool {
    let fault = fault_of(order);
    match held_by(alloc, tree, order) {
        Err(HeldFault::NotAnOrder { at }) => fault == Some(at),
        Err(HeldFault::Memory) => false,
        Ok(held) => {
            fault.is_none()
                && (1..6usize).zip(held.as_slice()).all(|(t, count)| *count
                    == count_of(order.get(..t).unwrap_or(&[])))
        }
    }
}

/// Whether no number comes twice.
fn are_apart(order: &[u32; 5]) -> bool {
    (1..6u32).all(|number| is_among(order, number))
}

/// The list of five numbers from 1 to 5 with this number among all such lists.
fn list_at(index: u32) -> [u32; 5] {
    [
        index % 5 + 1,
        index / 5 % 5 + 1,
        index / 25 % 5 + 1,
        index / 125 % 5 + 1,
        index / 625 % 5 + 1,
    ]
}

#[test]
fn every_order_of_five_nodes(rt: HostRuntime) -> Result<(), Fail> {
    let alloc = rt.alloc();
    let tree = five_nodes(alloc)?;
    let mut orders = 0u32;
    for index in 0..3125 {
        let order = list_at(index);
        if are_apart(&order) {
            assert!(rt; agrees(alloc, &tree, &order));
            orders = orders.saturating_add(1);
        }
    }
    assert!(rt; orders == 120);
    assert!(rt; fault_at(alloc, &tree, &[3, 2, 5, 4]) == Some(4));
    assert!(rt; fault_at(alloc, &tree, &[3, 3]) == Some(1));
    assert!(rt; fault_at(alloc, &tree, &[6]) == Some(0));
    Ok(())
}

#[test]
fn best_orders_of_the_largest_trees(rt: HostRuntime) -> Result<(), Fail> {
    let alloc = rt.alloc();
    let best = best_of(alloc, &full(alloc, 12)?)?;
    assert!(rt; best.most == 11 && best.held.len() == 2_047);
    let best = best_of(alloc, &chain(alloc, 8_191)?)?;
    assert!(rt; best.most == 1 && best.order.len() == 8_191);
    assert!(rt; best.order.get(0) == Some(&8_191));
    Ok(())
}
