//! Works, their places and the host's code: `venice_isa`.

use std::test::Fail;
use ven_base::Elem;
use venice_isa::{
    Code, DmaWork, Instr, Issue, IssueFault, Region, VecKind, VecOp, VecWork, Version, Walk,
    beats_are_the_copy, beats_are_the_whole, bytes_spell_their_number, decode, encode, issues,
    next_beat_keeps_to_footprint, numbers_have_one_spelling, read_copies_its_rows,
    rows_apart_keep_elements_apart, tests_decide, whole_is_determined, whole_reads_its_footprint,
    whole_writes_its_footprint, write_copies_its_rows,
};

#[test]
fn laws_are_called() {
    rows_apart_keep_elements_apart();
    whole_writes_its_footprint();
    whole_reads_its_footprint();
    whole_is_determined();
    read_copies_its_rows();
    write_copies_its_rows();
    bytes_spell_their_number();
    numbers_have_one_spelling();
    beats_are_the_whole();
    beats_are_the_copy();
    next_beat_keeps_to_footprint();
    tests_decide();
}

#[test]
fn an_instruction_is_a_small_value(rt: HostRuntime) {
    let bytes = encode(&Instr::Blt {
        a: 14,
        b: 15,
        to: 7,
    });
    assert_eq!(rt; bytes, [8, 0, 14, 15, 7, 0, 0, 0]);
    assert!(rt;
        matches!(
            decode(bytes),
            Ok(Instr::Blt {
                a: 14,
                b: 15,
                to: 7
            })
        )
    );
    assert!(rt; size_of::<Instr>() <= 16);
}

/// Two rows of five bytes: 10 bytes apart in memory, and 5 cells apart.
const TRANSFER: DmaWork = DmaWork {
    mem: 100,
    spad: 7,
    rows: 2,
    bytes: 5,
    mem_step: 10,
    spad_step: 5,
    tag: 0,
};

#[test]
fn transfers_in_range(rt: HostRuntime) {
    for issue in [Issue::Read(TRANSFER), Issue::Write(TRANSFER)] {
        assert!(rt; issue.is_in_range(17, 115));
        assert!(rt; !issue.is_in_range(16, 115));
        assert!(rt; !issue.is_in_range(17, 114));
    }
    let last = DmaWork {
        mem: u32::MAX,
        ..TRANSFER
    };
    assert!(rt; !Issue::Read(last).is_in_range(u32::MAX, u32::MAX));
    let empty = DmaWork { rows: 0, ..last };
    assert!(rt; Issue::Write(empty).is_in_range(0, 0));
}

#[test]
fn waits_are_in_range(rt: HostRuntime) {
    for wait in [
        Issue::RWait(9),
        Issue::WWait(9),
        Issue::VWait,
        Issue::TWait(9),
    ] {
        assert!(rt; wait.is_in_range(0, 0));
    }
}

#[test]
fn rows_of_a_transfer_take_beats_of_their_own(rt: HostRuntime) {
    let work = DmaWork {
        mem: 0,
        spad: 0,
        rows: 3,
        bytes: 17,
        mem_step: 17,
        spad_step: 17,
        tag: 0,
    };
    assert_eq!(rt; work.beats(), 6);
    assert!(rt; work.cells().lies_below(51));
    assert!(rt; !work.memory().lies_below(50));
}

#[test]
fn a_walk_goes_by_groups_and_rows(rt: HostRuntime) {
    let region = Region {
        place: 10,
        step: 100,
        size: 2,
        rows: 2,
        columns: 5,
    };
    let mut walk = Walk::begin(region, 2);
    assert_eq!(rt; (walk.row_place, walk.next_place), (10, 10));
    walk.go_on();
    walk.go_on();
    assert_eq!(rt; (walk.row_place, walk.next_place), (10, 18));
    walk.next_row();
    assert_eq!(rt; (walk.row_place, walk.next_place), (110, 110));
}

/// Whether the instructions are code of the version.
fn is_code(rt: &HostRuntime, version: Version, instrs: &[Instr]) -> Result<bool, Fail> {
    let instrs = Vec::from_slice(rt.alloc(), instrs)?;
    Ok(Code::new(version, instrs).is_some())
}

#[test]
fn instructions_that_are_code(rt: HostRuntime) -> Result<(), Fail> {
    let (jump, tag) = (Instr::Jmp { to: 1 }, Instr::Tag { a: 0 });
    assert!(rt; is_code(&rt, Version::One, &[Instr::Halt])?);
    assert!(rt; is_code(&rt, Version::One, &[jump, Instr::Halt])?);
    assert!(rt; is_code(&rt, Version::Two, &[tag, Instr::Halt])?);
    Ok(())
}

#[test]
fn instructions_that_are_no_code(rt: HostRuntime) -> Result<(), Fail> {
    let (jump, tag) = (Instr::Jmp { to: 2 }, Instr::Tag { a: 0 });
    assert!(rt; !is_code(&rt, Version::One, &[])?);
    assert!(rt; !is_code(&rt, Version::One, &[Instr::Halt, Instr::Vwait])?);
    assert!(rt; !is_code(&rt, Version::One, &[jump, Instr::Halt])?);
    assert!(rt; !is_code(&rt, Version::One, &[Instr::Li { d: 32, n: 0 }, Instr::Halt])?);
    assert!(rt; !is_code(&rt, Version::One, &[tag, Instr::Halt])?);
    Ok(())
}

const READ: DmaWork = DmaWork {
    mem: 0,
    spad: 0,
    rows: 1,
    bytes: 16,
    mem_step: 0,
    spad_step: 0,
    tag: 0,
};

fn code(rt: &HostRuntime, version: Version, instrs: &[Instr]) -> Result<Code, Fail> {
    let code = Code::new(version, Vec::from_slice(rt.alloc(), instrs)?);
    Ok(code.ok_or("the instructions are code")?)
}

/// Whether the code passes these issues in so many steps.
fn passes(rt: &HostRuntime, code: &Code, budget: u64, want: &[Issue]) -> bool {
    match issues(rt.alloc(), code, budget) {
        Ok(list) => list.as_slice() == want,
        Err(_) => false,
    }
}

/// Whether so many steps don't make the code's `halt`.
fn lacks_steps(rt: &HostRuntime, code: &Code, budget: u64) -> bool {
    matches!(issues(rt.alloc(), code, budget), Err(IssueFault::Budget))
}

#[test]
fn a_read_and_an_addition(rt: HostRuntime) -> Result<(), Fail> {
    let kind = VecKind::new(VecOp::Add, Elem::U8, Elem::U8, false, true, false);
    let kind = kind.ok_or("a mode of the operation")?;
    let instrs = [
        Instr::Li { d: 1, n: 16 },
        Instr::Li { d: 2, n: 1 },
        Instr::Set { field: 11, a: 1 },
        Instr::Set { field: 10, a: 2 },
        Instr::Set { field: 0, a: 1 },
        Instr::Set { field: 1, a: 2 },
        Instr::Set { field: 4, a: 2 },
        Instr::Dma { write: false },
        Instr::Vec(kind),
        Instr::Halt,
    ];
    let code = code(&rt, Version::One, &instrs)?;
    let addition = VecWork {
        kind,
        vl: 16,
        rows: 1,
        dst: 0,
        a: 0,
        b: 1,
        dst_step: 0,
        a_step: 0,
        b_step: 0,
    };
    assert!(rt;
        passes(
            &rt,
            &code,
            10,
            &[Issue::Read(READ), Issue::Vector(addition)]
        )
    );
    for budget in [0, 1, 9] {
        assert!(rt; lacks_steps(&rt, &code, budget));
    }
    Ok(())
}

#[test]
fn a_loop_counts_down(rt: HostRuntime) -> Result<(), Fail> {
    let instrs = [
        Instr::Li { d: 1, n: 2 },
        Instr::Li { d: 2, n: 7 },
        Instr::Div { d: 3, a: 2, b: 4 },
        Instr::Tag { a: 1 },
        Instr::Dma { write: true },
        Instr::Twait { a: 3 },
        Instr::Addi {
            d: 1,
            a: 1,
            n: u32::MAX,
        },
        Instr::Bnz { a: 1, to: 3 },
        Instr::Blt { a: 3, b: 2, to: 0 },
        Instr::Rwait { a: 2 },
        Instr::Wwait { a: 5 },
        Instr::Vwait,
        Instr::Jmp { to: 13 },
        Instr::Halt,
    ];
    let code = code(&rt, Version::Two, &instrs)?;
    let transfer = DmaWork {
        rows: 0,
        bytes: 0,
        ..READ
    };
    let want = [
        Issue::Write(DmaWork { tag: 2, ..transfer }),
        Issue::TWait(u32::MAX),
        Issue::Write(DmaWork { tag: 1, ..transfer }),
        Issue::TWait(u32::MAX),
        Issue::RWait(7),
        Issue::WWait(0),
        Issue::VWait,
    ];
    assert!(rt; passes(&rt, &code, 1_000, &want));
    Ok(())
}

#[test]
fn a_loop_without_end(rt: HostRuntime) -> Result<(), Fail> {
    let instrs = [
        Instr::Li { d: 1, n: 1 },
        Instr::Bnz { a: 1, to: 1 },
        Instr::Halt,
    ];
    let endless = code(&rt, Version::One, &instrs)?;
    assert!(rt; lacks_steps(&rt, &endless, 1_000));
    let halt = code(&rt, Version::One, &[Instr::Halt])?;
    assert!(rt; passes(&rt, &halt, 1, &[]));
    Ok(())
}
