//! Passes whose tiles are worked out by hand; the command `check` shows their needs, bounds and tiles.
ghost use Rattle.std.specs.Prelude.{◌≡◌, ◌≤◌, IfOk};
ghost use Rattle.ven_base.specs.declared.mapping.Mapping.TheVariants.{Identity};
ghost use Rattle.pass_plan.specs.Tree.{nodes_of};
ghost use Rattle.pass_plan.specs.Need.{pass_need};
ghost use Rattle.pass_plan.specs.Pass.{node_limit};
ghost use Rattle.pass_plan.specs.Shown.{tree_of, pass_of};
ghost use Rattle.plan_tests.specs.Examples as spec;

use crate::instructions::row_sums;
use pass_plan::{Leaf, Pass, PassKind, Tree, piece, tile, tiles, tiles_per_row, widest};
use std::alloc::{AllocError, Global};
use std::test::Fail;
use ven_base::{Elem, Mapping, Op2, Shape};

fn leaf(array: u32, elem: Elem, shape: Shape) -> Leaf
    ensures { result ≡ record { array = array; elem = elem; shape = shape; map = Identity } }
{
    Leaf {
        array,
        elem,
        shape,
        map: Mapping::Identity,
    }
}

/// The sum of two arrays.
fn addition(alloc: Global, shape: Shape) -> Result<Pass, AllocError>
    ensures { IfOk result (λ pass. pass_of pass ≡ spec.addition shape) }
{
    let elem = Elem::U8;
    let mut leaves = Vec::new(alloc);
    leaves.push(leaf(0, elem, shape))?;
    leaves.push(leaf(1, elem, shape))?;
    let a = Box::new(alloc, Tree::Leaf(0))?;
    let b = Box::new(alloc, Tree::Leaf(1))?;
    let op = Op2::Add;
    Ok(Pass {
        kind: PassKind::Map,
        domain: shape,
        leaves,
        tree: Tree::Two { op, elem, a, b },
        dest: 2,
        elem,
    })
}

/// The same, with its need.
fn small_addition(alloc: Global, shape: Shape) -> Result<Pass, AllocError>
    ensures small { IfOk result (λ pass. nodes_of (tree_of pass.tree) ≤ node_limit) }
    ensures need { IfOk result (λ pass. pass_need (pass_of pass) ≤ 7) }
{
    addition(alloc, shape)
}

/// The sums of two rows of nine, with their need.
fn small_sums(alloc: Global) -> Result<Pass, AllocError>
    ensures small { IfOk result (λ pass. nodes_of (tree_of pass.tree) ≤ node_limit) }
    ensures need { IfOk result (λ pass. pass_need (pass_of pass) ≤ 12) }
{
    row_sums(alloc)
}

/// Of a pass in a scratchpad: its widest element, the number of its tiles, those of a row of results, and the rows and
/// columns of the last of them.
fn measure(pass: &Pass, spad: u32) -> Option<(u32, u32, u32, [u32; 4])>
    requires small { nodes_of (tree_of pass.now.tree) ≤ node_limit }
    requires holds { pass_need (pass_of pass.now) ≤ spad }
{
    let size = tile(pass, spad);
    let count = tiles(pass, size);
    if count == 0 || size.w == 0 {
        return None;
    }
    let last = piece(pass, size, count - 1);
    let per_row = tiles_per_row(pass, size);
    Some((
        widest(pass),
        count,
        per_row,
        [last.r0, last.c0, last.h, last.w],
    ))
}

#[test]
fn last_tiles(rt: HostRuntime) -> Result<(), Fail> {
    let alloc = rt.alloc();
    let small = small_addition(alloc, Shape { rows: 1, cols: 4 })?;
    assert!(rt; measure(&small, 7) == Some((1, 4, 1, [0, 3, 1, 1])));
    let square = Shape {
        rows: 1024,
        cols: 1024,
    };
    let large = small_addition(alloc, square)?;
    assert!(rt; measure(&large, 65_536) == Some((1, 114, 1, [1017, 0, 7, 1024])));
    Ok(())
}

#[test]
fn tiles_of_cut_rows(rt: HostRuntime) -> Result<(), Fail> {
    let cut = small_sums(rt.alloc())?;
    assert!(rt; measure(&cut, 48) == Some((2, 6, 3, [1, 8, 1, 1])));
    Ok(())
}
