//! The instructions of small tiles, by the call.
ghost use Rattle.std.specs.Prelude.{◌≡◌, ◌<◌, IfOk};
ghost use Rattle.pass_plan.specs.Shown.{pass_of};
ghost use Rattle.vector_codegen.specs.Examples as spec;

use buffer_lifetimes::order;
use pass_plan::{Leaf, Pass, PassKind, Tree, tile};
use std::alloc::{AllocError, Global};
use std::test::Fail;
use vector_codegen::tile_ops;
use ven_base::{Elem, Fold, Mapping, Shape};
use venice_isa::{VecOp, VecWork};

/// The sums of two rows of nine.
pub(crate) fn row_sums(alloc: Global) -> Result<Pass, AllocError>
    ensures { IfOk result (λ pass. pass_of pass ≡ spec.row_sums) }
{
    let shape = Shape { rows: 2, cols: 9 };
    let mut leaves = Vec::new(alloc);
    leaves.push(Leaf {
        array: 0,
        elem: Elem::U16,
        shape,
        map: Mapping::Identity,
    })?;
    let a = Box::new(alloc, Tree::Leaf(0))?;
    let elem = Elem::U16;
    Ok(Pass {
        kind: PassKind::Reduce(Fold::Sum),
        domain: shape,
        leaves,
        tree: Tree::Move { elem, a },
        dest: 2,
        elem,
    })
}

/// The instructions of one of their tiles of one by four.
fn works_of_row_sums(alloc: Global, t: u32) -> Result<Vec<VecWork>, AllocError>
    requires { t < 6 }
{
    let pass = row_sums(alloc)?;
    let assigned = order(alloc, &pass.tree)?;
    let tile = tile(&pass, 48);
    tile_ops(alloc, &pass, &assigned, &[], tile, t)
}

/// Whether tile `t` has one sum of `vl` elements from the cell `a` on, in the cell `dst`, joined to the cell `joined`.
fn is_tile(
    alloc: Global,
    t: u32,
    wanted: (u32, u32, u32),
    joined: Option<u32>,
) -> Result<bool, AllocError>
    requires { t < 6 }
{
    let works = works_of_row_sums(alloc, t)?;
    let many = if joined.is_some() { 2 } else { 1 };
    let join = works.get(1).map(|join| join.dst);
    match works.first() {
        Some(sum) => Ok(works.len() == many && join == joined && is_sum(sum, wanted)),
        None => Ok(false),
    }
}

fn is_sum(sum: &VecWork, wanted: (u32, u32, u32)) -> bool {
    let moves = match sum.kind.op {
        VecOp::Mov => true,
        _ => false,
    };
    moves && sum.kind.acc && sum.rows == 1 && (sum.vl, sum.a, sum.dst) == wanted
}

#[test]
fn each_tile_of_a_cut_row_joins_its_sum(rt: HostRuntime) -> Result<(), Fail> {
    let alloc = rt.alloc();
    assert!(rt; is_tile(alloc, 0, (4, 0, 24), None)?);
    assert!(rt; is_tile(alloc, 1, (4, 8, 40), Some(24))?);
    assert!(rt; is_tile(alloc, 2, (1, 0, 40), Some(24))?);
    assert!(rt; is_tile(alloc, 3, (4, 8, 32), None)?);
    assert!(rt; is_tile(alloc, 4, (4, 0, 40), Some(32))?);
    assert!(rt; is_tile(alloc, 5, (1, 8, 40), Some(32))?);
    Ok(())
}
