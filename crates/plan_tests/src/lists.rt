//! The list of a small split, by the call.
ghost use Rattle.std.specs.Prelude.{◌≡◌, ◌≤◌, IfOk};
ghost use Rattle.pass_plan.specs.Shown.{pass_of, split_of};
ghost use Rattle.dma_schedule.specs.Examples as spec;

use dma_schedule::pipeline;
use pass_plan::{ArrayPlace, Leaf, Pass, PassKind, Split, Tree};
use std::alloc::{AllocError, Global};
use std::test::Fail;
use ven_base::{Elem, Fold, Mapping, Shape};
use venice_isa::Issue;

/// A pass that moves two rows of nine elements of an array under a map.
fn moving(
    alloc: Global,
    kind: PassKind,
    array: u32,
    map: Mapping,
    dest: u32,
) -> Result<Pass, AllocError>
    ensures { IfOk result (λ pass. pass_of pass ≡ spec.moving kind (spec.leaf_of_nines array map) dest) }
{
    let shape = Shape { rows: 2, cols: 9 };
    let elem = Elem::U16;
    let mut leaves = Vec::new(alloc);
    leaves.push(Leaf {
        array,
        elem,
        shape,
        map,
    })?;
    let a = Box::new(alloc, Tree::Leaf(0))?;
    Ok(Pass {
        kind,
        domain: shape,
        leaves,
        tree: Tree::Move { elem, a },
        dest,
        elem,
    })
}

/// Two rows of elements.
fn two_rows(cols: u32, place: u32) -> ArrayPlace
    requires some { 1 ≤ cols }
    requires few { cols ≤ 9 }
    ensures { result ≡ spec.array_at (spec.extent 2 cols) place }
{
    ArrayPlace {
        elem: Elem::U16,
        shape: Shape { rows: 2, cols },
        place,
    }
}

fn arrays(alloc: Global) -> Result<Vec<ArrayPlace>, AllocError>
    ensures { IfOk result (λ arrays. arrays.items ≡ spec.shifted_sums.arrays) }
{
    let mut arrays = Vec::new(alloc);
    arrays.push(two_rows(9, 0))?;
    arrays.push(two_rows(9, 36))?;
    arrays.push(two_rows(1, 72))?;
    Ok(arrays)
}

/// An array shifted by a column, and the sums of the result's rows.
fn shifted_sums(alloc: Global) -> Result<Split, AllocError>
    ensures { IfOk result (λ split. split_of split ≡ spec.shifted_sums) }
{
    let map = Mapping::Shift {
        dr: 0,
        dc: 1,
        fill: 1,
    };
    let shifted = moving(alloc, PassKind::Map, 0, map, 1)?;
    let sums = moving(alloc, PassKind::Reduce(Fold::Sum), 1, Mapping::Identity, 2)?;
    let arrays = arrays(alloc)?;
    let mut passes = Vec::new(alloc);
    passes.push(shifted)?;
    passes.push(sums)?;
    Ok(Split {
        passes,
        arrays,
        table: Vec::new(alloc),
        memory: 76,
    })
}

fn list_of(alloc: Global, spad: u32) -> Result<Vec<Issue>, AllocError>
    requires { 12 ≤ spad }
{
    let split = shifted_sums(alloc)?;
    pipeline(alloc, &split, spad)
}

fn mark(issue: &Issue) -> &'static str {
    match issue {
        Issue::Vector(_) => "v ",
        Issue::Read(work) => if work.tag == 0 { "r0 " } else { "r1 " },
        Issue::Write(work) => if work.tag == 2 { "w2 " } else { "w3 " },
        Issue::TWait(tag) => match *tag {
            0 => "t0 ",
            1 => "t1 ",
            2 => "t2 ",
            _ => "t3 ",
        },
        Issue::VWait => "vwait ",
        Issue::RWait(_) => "rwait ",
        Issue::WWait(_) => "wwait ",
    }
}

#[test]
fn tiles_of_cut_rows_with_one_at_the_edge(rt: HostRuntime) -> Result<(), Fail> {
    let alloc = rt.alloc();
    let mut text = String::new(alloc);
    for issue in &list_of(alloc, 48)? {
        text.push_str(mark(issue))?;
    }
    let shift = "r0 r1 t0 t2 v vwait w2 t1 t3 v vwait w3 r1 t0 t2 v v vwait w2 \
        r0 t1 t3 v vwait w3 t0 t2 v vwait w2 t1 t3 v v vwait w3 rwait wwait ";
    let sums = "r0 r1 t0 t2 v vwait r0 t1 t2 v v vwait r1 t0 t2 v v vwait w2 \
        r0 t1 t3 v vwait r1 t0 t3 v v vwait t1 t3 v v vwait w3 rwait wwait ";
    let rest = text.strip_prefix(shift);
    assert!(rt; rest == Some(sums));
    Ok(())
}

/// How many instructions, reads and writes a list has.
fn counts_of(list: &[Issue]) -> [usize; 3] {
    [
        list.iter()
            .filter(|issue| matches!(issue, Issue::Vector(_)))
            .count(),
        list.iter()
            .filter(|issue| matches!(issue, Issue::Read(_)))
            .count(),
        list.iter()
            .filter(|issue| matches!(issue, Issue::Write(_)))
            .count(),
    ]
}

#[test]
fn tiles_at_the_need_and_at_twice_the_need(rt: HostRuntime) -> Result<(), Fail> {
    let alloc = rt.alloc();
    assert!(rt; counts_of(&list_of(alloc, 12)?) == [54, 34, 20]);
    assert!(rt; counts_of(&list_of(alloc, 24)?) == [30, 18, 12]);
    Ok(())
}
