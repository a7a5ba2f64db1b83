//! transfer_builder: the reads of a piece whose place and size are numbers.
use crate::programs::issued;
use host_programs::Program;
use pass_plan::{ArrayPlace, Leaf};
use std::alloc::{AllocError, Global};
use std::test::Fail;
use transfer_builder::{PieceExpr, SmallExpr, Target, leaf_program};
use ven_base::{Elem, Mapping, Shape};
use venice_isa::{DmaWork, Issue};

/// The reads of all of two rows of three numbers of two bytes, which are turned by one row. The array stands at place
/// 100, the buffer at cell 64, and the tag is 5.
fn reads_of_turned_rows(alloc: Global) -> Result<Program, AllocError> {
    let shape = Shape { rows: 2, cols: 3 };
    let piece = PieceExpr {
        r0: SmallExpr::Number(0),
        c0: SmallExpr::Number(0),
        h: SmallExpr::Number(2),
        w: SmallExpr::Number(3),
    };
    let target = Target {
        buffer: SmallExpr::Number(64),
        tag: SmallExpr::Number(5),
    };
    let leaf = Leaf {
        array: 0,
        elem: Elem::I16,
        shape,
        map: Mapping::Rotate { dr: 1, dc: 0 },
    };
    let from = ArrayPlace {
        elem: Elem::I16,
        shape,
        place: 100,
    };
    leaf_program(alloc, &leaf, &from, piece, target, 0)
}

/// The read of a row.
fn row(mem: u32, spad: u32) -> Issue {
    Issue::Read(DmaWork {
        mem,
        spad,
        rows: 1,
        bytes: 6,
        mem_step: 0,
        spad_step: 0,
        tag: 5,
    })
}

#[test]
fn pieces_of_numbers(rt: HostRuntime) -> Result<(), Fail> {
    let alloc = rt.alloc();
    let list = issued(alloc, &reads_of_turned_rows(alloc)?)?;
    assert!(rt; list.as_slice() == [row(106, 64), row(100, 70)].as_slice());
    Ok(())
}
