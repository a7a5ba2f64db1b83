//! The lanes on a small scratchpad, `lane_machine`: A stands at cell 0, B at 16 and the destination at 32.
ghost use Rattle.std.specs.Prelude.{◌≡◌, ◌↔◌, ◌+◌, ◌<◌, ◌≤◌, [], ◌∷◌, ◌++◌, IsTrue, IfOk, IsErr, OnOk, All, length, slice_get};
ghost use Rattle.ven_base.specs.Store.{cells_alone, store_of, store_size, IsInRange};
ghost use Rattle.ven_base.specs.Job.{new_job, works_of};
ghost use Rattle.venice_isa.specs.Whole.{HasCounts};
ghost use Rattle.venice_isa.specs.Footprint.{HasFootprint};
ghost use Rattle.venice_isa.specs.declared.issue.Issue.TheVariants.{Vector};

use lane_machine::Lanes;
use spad_store::{MainMem, Spad, Unit};
use std::alloc::{AllocError, Global};
use std::test::Fail;
use ven_base::{Elem, number_of, wrap};
use venice_isa::{VecKind, VecOp, VecWork, result_of, sets_flag};

/// Four cells.
type Four = [(u8, bool); 4];

/// Four cells whose flags are clear.
fn plain(bytes: [u8; 4]) -> Four {
    [
        (bytes[0], false),
        (bytes[1], false),
        (bytes[2], false),
        (bytes[3], false),
    ]
}

fn put(spad: &mut Spad, at: u32, cells: Four)
    requires inside { at + 4 ≤ length spad.old }
    requires small { length spad.old < 100 }
    ensures { length spad.new ≡ length spad.old }
{
    spad.put(at, cells[0].0, cells[0].1);
    spad.put(at + 1, cells[1].0, cells[1].1);
    spad.put(at + 2, cells[2].0, cells[2].1);
    spad.put(at + 3, cells[3].0, cells[3].1);
}

fn four(spad: &Spad, at: u32) -> Four
    requires inside { at + 4 ≤ length spad.now }
    requires small { length spad.now < 100 }
{
    [
        (spad.byte(at), spad.flag(at)),
        (spad.byte(at + 1), spad.flag(at + 1)),
        (spad.byte(at + 2), spad.flag(at + 2)),
        (spad.byte(at + 3), spad.flag(at + 3)),
    ]
}

/// Whether every cell that the instruction reads or writes lies below the end.
fn lies_below(work: &VecWork, end: u32) -> bool
    ensures { IsTrue result → HasFootprint (cells_alone end) (Vector work.now) }
{
    work.is_in_range(end)
}

/// Does a work by beats, and gives their number.
fn run(alloc: Global, lanes: u32, work: VecWork, cells: &mut Spad) -> Result<u64, AllocError>
    requires some_lanes { 0 < lanes }
    requires few_lanes { lanes ≤ 4 }
    requires counts { HasCounts work }
    requires inside { HasFootprint (cells_alone (length cells.old)) (Vector work) }
    ensures { length cells.new ≡ length cells.old }
{
    let mut memory = MainMem::new(alloc, 0)?;
    let mut unit = Lanes::new(alloc, lanes)?;
    let _ = unit.offer(work);
    Ok(unit.finish(cells, &mut memory))
}

/// Offers a work to any unit.
fn offer_to<U: Unit>(unit: &mut U, work: U::Work) -> Result<(), U::Work>
    requires { U.has_counts work }
    ensures full { IsErr result ↔ (length (U.jobs unit.old) ≡ U.places) }
    ensures jobs { OnOk result
        (U.jobs unit.new ≡ U.jobs unit.old ++ new_job (U.course (U.setting unit.old)) work ∷ []) }
{
    unit.offer(work)
}

/// Beats any unit until its queue is empty, a thousand times at the most, and counts the beats.
fn count_beats<U: Unit>(unit: &mut U, cells: &mut Spad, memory: &mut MainMem) -> u32
    requires inside { All (λ job. IsInRange (U.reads job.work) (U.writes job.work)
        (store_size (store_of cells.old memory.old))) (U.jobs unit.old) }
{
    for turn in 0..1000 {
        if unit.unfinished() == 0 {
            return turn;
        }
        unit.beat(cells, memory);
    }
    1000
}

/// The beats of a work on so many lanes, counted.
fn beats_of(alloc: Global, lanes: u32, work: VecWork, cells: &mut Spad) -> Result<u32, AllocError>
    requires some_lanes { 0 < lanes }
    requires few_lanes { lanes ≤ 4 }
    requires counts { HasCounts work }
    requires inside { HasFootprint (cells_alone (length cells.old)) (Vector work) }
{
    let mut memory = MainMem::new(alloc, 0)?;
    let mut unit = Lanes::new(alloc, lanes)?;
    let _ = offer_to(&mut unit, work);
    Ok(count_beats(&mut unit, cells, &mut memory))
}

/// A vector instruction at the operands' cells, whose rows stand 8 cells apart. A scalar's number
/// takes the place of its cell.
fn instruction(kind: VecKind, vl: u32, rows: u32, a: u32, b: u32) -> VecWork
    ensures vl { result.vl ≡ vl }
    ensures rows { result.rows ≡ rows }
{
    VecWork {
        kind,
        vl,
        rows,
        dst: 32,
        a: if kind.a_scalar { a } else { 0 },
        b: if kind.b_scalar { b } else { 16 },
        dst_step: 8,
        a_step: 8,
        b_step: 8,
    }
}

/// A row of the table: the kind, the elements, A's and B's numbers where they are scalars, the
/// cells of A, of B and of the destination before, and those of the destination after.
struct Row {
    op: VecOp,
    elem: Elem,
    from: Elem,
    scalars: (bool, bool),
    acc: bool,
    vl: u32,
    numbers: (u32, u32),
    a: Four,
    b: Four,
    before: Four,
    after: Four,
}

const ZERO: Four = [(0, false), (0, false), (0, false), (0, false)];

const ROWS: [Row; 13] = [
    Row {
        op: VecOp::Shl,
        elem: Elem::U8,
        from: Elem::U8,
        scalars: (false, false),
        acc: false,
        vl: 2,
        numbers: (0, 0),
        a: [(129, false), (1, false), (0, false), (0, false)],
        b: [(9, false), (8, false), (0, false), (0, false)],
        before: ZERO,
        after: [(2, false), (1, false), (0, false), (0, false)],
    },
    Row {
        op: VecOp::Shr,
        elem: Elem::I8,
        from: Elem::I8,
        scalars: (false, true),
        acc: false,
        vl: 1,
        numbers: (0, 1),
        a: [(128, false), (0, false), (0, false), (0, false)],
        b: ZERO,
        before: ZERO,
        after: [(192, false), (0, false), (0, false), (0, false)],
    },
    Row {
        op: VecOp::Mul,
        elem: Elem::U16,
        from: Elem::U16,
        scalars: (false, true),
        acc: false,
        vl: 1,
        numbers: (0, 300),
        a: [(44, false), (1, false), (0, false), (0, false)],
        b: ZERO,
        before: ZERO,
        after: [(144, false), (95, false), (0, false), (0, false)],
    },
    // 200 and 100 add up to 300, which is 44 in a byte.
    Row {
        op: VecOp::Add,
        elem: Elem::U8,
        from: Elem::U8,
        scalars: (false, true),
        acc: true,
        vl: 2,
        numbers: (0, 0),
        a: [(200, false), (100, false), (0, false), (0, false)],
        b: ZERO,
        before: [(9, true), (9, true), (9, true), (9, true)],
        after: [(44, false), (9, true), (9, true), (9, true)],
    },
    // An add clears the flags that were set.
    Row {
        op: VecOp::Add,
        elem: Elem::U8,
        from: Elem::U8,
        scalars: (false, true),
        acc: false,
        vl: 3,
        numbers: (0, 1),
        a: [(1, true), (2, false), (255, true), (4, false)],
        b: ZERO,
        before: [(7, true), (7, true), (7, true), (7, true)],
        after: [(2, false), (3, false), (0, false), (7, true)],
    },
    // A comparison that answers 1 sets the flag of each byte of its element.
    Row {
        op: VecOp::Eq,
        elem: Elem::U16,
        from: Elem::U16,
        scalars: (false, true),
        acc: false,
        vl: 2,
        numbers: (0, 7),
        a: [(7, false), (0, false), (8, false), (0, false)],
        b: ZERO,
        before: ZERO,
        after: [(1, true), (0, true), (0, false), (0, false)],
    },
    // A conditional move looks at the flag of an element's first byte.
    Row {
        op: VecOp::Cmov,
        elem: Elem::U16,
        from: Elem::U16,
        scalars: (true, false),
        acc: false,
        vl: 2,
        numbers: (9, 0),
        a: ZERO,
        b: [(1, true), (0, true), (0, false), (0, false)],
        before: [(5, false), (0, false), (6, false), (0, false)],
        after: [(9, false), (0, false), (6, false), (0, false)],
    },
    Row {
        op: VecOp::Cmov,
        elem: Elem::U16,
        from: Elem::U16,
        scalars: (true, false),
        acc: false,
        vl: 2,
        numbers: (9, 0),
        a: ZERO,
        b: [(1, false), (0, true), (0, true), (0, false)],
        before: [(5, true), (0, true), (6, true), (0, true)],
        after: [(5, true), (0, true), (9, false), (0, false)],
    },
    Row {
        op: VecOp::Cast,
        elem: Elem::U16,
        from: Elem::I8,
        scalars: (false, false),
        acc: false,
        vl: 1,
        numbers: (0, 0),
        a: [(255, false), (0, false), (0, false), (0, false)],
        b: ZERO,
        before: ZERO,
        after: [(255, false), (255, false), (0, false), (0, false)],
    },
    // Saturation stops at the ends of the type's range: 250 + 10 and 4 - 5 of bytes, and of signed bytes 127 + 1
    // and -128 - 1.
    Row {
        op: VecOp::Sadd,
        elem: Elem::U8,
        from: Elem::U8,
        scalars: (false, true),
        acc: false,
        vl: 2,
        numbers: (0, 10),
        a: [(250, false), (4, false), (0, false), (0, false)],
        b: ZERO,
        before: [(7, true), (7, true), (7, true), (7, true)],
        after: [(255, false), (14, false), (7, true), (7, true)],
    },
    Row {
        op: VecOp::Ssub,
        elem: Elem::U8,
        from: Elem::U8,
        scalars: (false, true),
        acc: false,
        vl: 2,
        numbers: (0, 5),
        a: [(250, false), (4, false), (0, false), (0, false)],
        b: ZERO,
        before: [(7, true), (7, true), (7, true), (7, true)],
        after: [(245, false), (0, false), (7, true), (7, true)],
    },
    Row {
        op: VecOp::Sadd,
        elem: Elem::I8,
        from: Elem::I8,
        scalars: (false, true),
        acc: false,
        vl: 2,
        numbers: (0, 1),
        a: [(127, false), (128, false), (0, false), (0, false)],
        b: ZERO,
        before: [(7, true), (7, true), (7, true), (7, true)],
        after: [(127, false), (129, false), (7, true), (7, true)],
    },
    Row {
        op: VecOp::Ssub,
        elem: Elem::I8,
        from: Elem::I8,
        scalars: (false, true),
        acc: false,
        vl: 2,
        numbers: (0, 1),
        a: [(127, false), (128, false), (0, false), (0, false)],
        b: ZERO,
        before: [(7, true), (7, true), (7, true), (7, true)],
        after: [(126, false), (128, false), (7, true), (7, true)],
    },
];

/// The row's instruction, where the operation has the mode.
fn instruction_of(row: &Row) -> Option<VecWork> {
    let (a_scalar, b_scalar) = row.scalars;
    let kind = VecKind::new(row.op, row.elem, row.from, a_scalar, b_scalar, row.acc)?;
    Some(instruction(kind, row.vl, 1, row.numbers.0, row.numbers.1))
}

/// What the row's instruction leaves at the destination, on so many lanes.
fn left_by(alloc: Global, row: &Row, lanes: u32) -> Result<Option<Four>, AllocError>
    requires some_lanes { 0 < lanes }
    requires few_lanes { lanes ≤ 4 }
{
    let Some(work) = instruction_of(row) else {
        return Ok(None);
    };
    if work.vl == 0 || work.rows == 0 || !lies_below(&work, 48) {
        return Ok(None);
    }
    let mut spad = Spad::new(alloc, 48)?;
    put(&mut spad, 0, row.a);
    put(&mut spad, 16, row.b);
    put(&mut spad, 32, row.before);
    run(alloc, lanes, work, &mut spad)?;
    Ok(Some(four(&spad, 32)))
}

#[test]
fn instructions_leave_their_results_on_any_lanes(rt: HostRuntime) -> Result<(), Fail> {
    for row in &ROWS {
        for lanes in 1..5 {
            let left = left_by(rt.alloc(), row, lanes)?;
            assert!(rt; left == Some(row.after), "{:?} on {lanes} lanes", row.op);
        }
    }
    Ok(())
}

fn plain_kind(op: VecOp, elem: Elem, from: Elem) -> Option<VecKind> {
    VecKind::new(op, elem, from, false, op == VecOp::Add, false)
}

#[test]
fn a_row_takes_beats_of_its_own(rt: HostRuntime) -> Result<(), Fail> {
    let table = [
        (VecOp::Mov, Elem::U8, Elem::U8, 7, 2, 1, 4),
        (VecOp::Mov, Elem::U8, Elem::U8, 7, 2, 2, 2),
        (VecOp::Mov, Elem::U32, Elem::U32, 4, 1, 1, 4),
        (VecOp::Mov, Elem::U32, Elem::U32, 4, 1, 4, 1),
        (VecOp::Cast, Elem::U8, Elem::I16, 5, 2, 1, 6),
    ];
    for (op, elem, from, vl, rows, lanes, beats) in table {
        let kind = plain_kind(op, elem, from).expect(&rt, "each operation has its plain mode");
        let work = instruction(kind, vl, rows, 0, 0);
        assert!(rt; 0 < work.vl && 0 < work.rows && lies_below(&work, 48));
        assert!(rt; 0 < lanes && lanes <= 4);
        let mut spad = Spad::new(rt.alloc(), 48)?;
        assert_eq!(rt;
            beats_of(rt.alloc(), lanes, work, &mut spad)?,
            beats,
            "{op:?} {vl} {lanes}"
        );
    }
    Ok(())
}

// 200, 100, 3, 4 and 5 add up to 312, and 1, 2, 3, 4 and 250 to 260. On one lane a row takes two
// beats, and each row begins its sum anew.
#[test]
fn a_row_adds_up_over_its_beats(rt: HostRuntime) -> Result<(), Fail> {
    let kind = VecKind::new(VecOp::Add, Elem::U8, Elem::U8, false, true, true);
    let work = instruction(kind.expect(&rt, "an add that accumulates"), 5, 2, 0, 0);
    assert!(rt; 0 < work.vl && 0 < work.rows && lies_below(&work, 48));
    for lanes in 1..5 {
        let mut spad = Spad::new(rt.alloc(), 48)?;
        put(&mut spad, 0, plain([200, 100, 3, 4]));
        put(&mut spad, 4, plain([5, 0, 0, 0]));
        put(&mut spad, 8, plain([1, 2, 3, 4]));
        put(&mut spad, 12, plain([250, 0, 0, 0]));
        run(rt.alloc(), lanes, work, &mut spad)?;
        assert_eq!(rt; four(&spad, 32), plain([56, 0, 0, 0]));
        assert_eq!(rt; four(&spad, 40), plain([4, 0, 0, 0]));
    }
    Ok(())
}

// Three numbers get 1 more than the number before them, which a beat of one element has just
// written, and a beat of three has not.
#[test]
fn a_work_that_reads_what_it_writes_depends_on_the_lanes(rt: HostRuntime) -> Result<(), Fail> {
    let kind = plain_kind(VecOp::Add, Elem::U32, Elem::U32).expect(&rt, "an add of a scalar");
    let work = VecWork {
        dst: 4,
        ..instruction(kind, 3, 1, 0, 1)
    };
    assert!(rt; 0 < work.vl && 0 < work.rows && lies_below(&work, 16));
    for (lanes, numbers) in [(1, [5, 6, 7, 8]), (4, [5, 6, 1, 1])] {
        assert!(rt; 0 < lanes && lanes <= 4);
        let mut spad = Spad::new(rt.alloc(), 16)?;
        put(&mut spad, 0, plain([5, 0, 0, 0]));
        run(rt.alloc(), lanes, work, &mut spad)?;
        assert_eq!(rt; four(&spad, 0), plain([numbers[0], 0, 0, 0]));
        assert_eq!(rt; four(&spad, 4), plain([numbers[1], 0, 0, 0]));
        assert_eq!(rt; four(&spad, 8), plain([numbers[2], 0, 0, 0]));
        assert_eq!(rt; four(&spad, 12), plain([numbers[3], 0, 0, 0]));
    }
    Ok(())
}

/// A work of any unit's queue.
fn work_of<U: Unit>(unit: &U, k: u32) -> &U::Work
    requires { k < length (U.jobs unit.now) }
    ensures { slice_get (works_of (U.jobs unit.now)) k ≡ Some result.now }
{
    unit.work(k)
}

#[test]
fn the_queue_has_four_places(rt: HostRuntime) -> Result<(), Fail> {
    let kind = plain_kind(VecOp::Mov, Elem::U8, Elem::U8).expect(&rt, "a move");
    let mut unit = Lanes::new(rt.alloc(), 2)?;
    for vl in 1..5 {
        assert_eq!(rt; unit.offer(instruction(kind, vl, 1, 0, 0)), Ok(()));
    }
    let fifth = instruction(kind, 5, 1, 0, 0);
    assert_eq!(rt; unit.offer(fifth), Err(fifth));
    assert_eq!(rt; unit.unfinished(), 4);
    assert_eq!(rt; work_of(&unit, 3).vl, 4);
    Ok(())
}

#[test]
fn nothing_beats_in_an_empty_queue(rt: HostRuntime) -> Result<(), Fail> {
    let mut spad = Spad::new(rt.alloc(), 4)?;
    let mut memory = MainMem::new(rt.alloc(), 0)?;
    let mut unit = Lanes::new(rt.alloc(), 3)?;
    put(&mut spad, 0, plain([1, 2, 3, 4]));
    assert!(rt; !unit.beat(&mut spad, &mut memory));
    assert_eq!(rt; four(&spad, 0), plain([1, 2, 3, 4]));
    Ok(())
}

// ---- every operation and type, against the plain rule

const OPERATIONS: [VecOp; 20] = [
    VecOp::Mov,
    VecOp::Cast,
    VecOp::Add,
    VecOp::Sub,
    VecOp::Mul,
    VecOp::And,
    VecOp::Or,
    VecOp::Xor,
    VecOp::Shl,
    VecOp::Shr,
    VecOp::Min,
    VecOp::Max,
    VecOp::Abs,
    VecOp::Eq,
    VecOp::Ne,
    VecOp::Lt,
    VecOp::Le,
    VecOp::Cmov,
    VecOp::Sadd,
    VecOp::Ssub,
];

const TYPES: [Elem; 6] = [
    Elem::U8,
    Elem::I8,
    Elem::U16,
    Elem::I16,
    Elem::U32,
    Elem::I32,
];

/// A is a scalar, B is one, and the results are added.
const MODES: [(bool, bool, bool); 4] = [
    (false, false, false),
    (true, false, false),
    (false, true, false),
    (false, false, true),
];

/// Cells of a scratchpad of an odd size, which this number decides: A at 1, B at 201 and the destination at 401.
fn scattered(alloc: Global, seed: u32) -> Result<Spad, AllocError> {
    let mut spad = Spad::new(alloc, 601)?;
    let mut state = seed;
    for at in 0..601 {
        state = state.wrapping_mul(1_664_525).wrapping_add(1_013_904_223);
        scatter(&mut spad, at, state);
    }
    Ok(spad)
}

/// Puts the number's highest byte and one of its bits into a cell.
fn scatter(spad: &mut Spad, at: u32, number: u32) {
    if at < spad.len() {
        spad.put(at, (number >> 24) as u8, number & 0x1_0000 == 0);
    }
}

/// The number of the element at a place, or 0 where it doesn't lie in the cells.
fn number_at(spad: &Spad, elem: Elem, at: u32) -> i64 {
    if 601 <= spad.len() && at < 597 {
        let bytes = [
            spad.byte(at),
            spad.byte(at + 1),
            spad.byte(at + 2),
            spad.byte(at + 3),
        ];
        number_of(elem, u32::from_le_bytes(bytes))
    } else {
        0
    }
}

/// The flags of the element at a place.
fn flags_at(spad: &Spad, elem: Elem, at: u32) -> u64 {
    if 601 <= spad.len() && at < 597 {
        spad.get_flags(at, elem.size())
    } else {
        0
    }
}

/// Where an element of a row stands, from the place of the first one on.
fn place(first: u32, row: u32, column: u32, elem: Elem) -> u32 {
    first
        .wrapping_add(row.wrapping_mul(90))
        .wrapping_add(column.wrapping_mul(elem.size()))
}

/// The instruction's answer for an element, from the cells before it.
fn answer(before: &Spad, work: &VecWork, row: u32, column: u32) -> i64 {
    let kind = work.kind;
    let a = if kind.a_scalar {
        wrap(kind.from, i128::from(work.a))
    } else {
        number_at(before, kind.from, place(work.a, row, column, kind.from))
    };
    let b = if kind.b_scalar {
        wrap(kind.elem, i128::from(work.b))
    } else {
        number_at(before, kind.elem, place(work.b, row, column, kind.elem))
    };
    if kind.from.contains(a) && kind.elem.contains(b) {
        result_of(kind, a, b)
    } else {
        0
    }
}

/// Whether an element of the destination has what the instruction gives it.
fn is_answered(before: &Spad, after: &Spad, work: &VecWork, row: u32, column: u32) -> bool {
    let kind = work.kind;
    let elem = kind.elem;
    let at = place(work.dst, row, column, elem);
    let there = (number_at(after, elem, at), flags_at(after, elem, at));
    let b = place(work.b, row, column, elem);
    if kind.op.is_conditional() && flags_at(before, elem, b) % 2 == 0 {
        return there == (number_at(before, elem, at), flags_at(before, elem, at));
    }
    let n = answer(before, work, row, column);
    let all = flags_at(after, elem, at) | !0 << elem.size();
    if sets_flag(kind, n) {
        there.0 == n && all == u64::MAX
    } else {
        there == (n, 0)
    }
}

/// Two rows of 19 elements of this kind.
fn two_rows(kind: VecKind, seed: u32) -> VecWork
    ensures vl { result.vl ≡ 19 }
    ensures rows { result.rows ≡ 2 }
{
    VecWork {
        kind,
        vl: 19,
        rows: 2,
        dst: 401,
        a: if kind.a_scalar { seed } else { 1 },
        b: if kind.b_scalar { seed } else { 201 },
        dst_step: 90,
        a_step: 90,
        b_step: 90,
    }
}

/// Whether a row of the destination has what the instruction gives each element by itself.
fn is_row_answered(before: &Spad, after: &Spad, work: &VecWork, row: u32) -> bool {
    (0..19).all(|column| is_answered(before, after, work, row, column))
}

/// Whether a row's element has the sum of what the instruction gives each element.
fn is_row_added(before: &Spad, after: &Spad, work: &VecWork, row: u32) -> bool {
    let elem = work.kind.elem;
    let mut sum = 0i128;
    for column in 0..19 {
        sum = sum.wrapping_add(i128::from(answer(before, work, row, column)));
    }
    let at = place(work.dst, row, 0, elem);
    number_at(after, elem, at) == wrap(elem, sum) && flags_at(after, elem, at) == 0
}

/// Whether an instruction leaves on so many lanes what it gives each element by itself, or their sum.
fn is_right(alloc: Global, kind: VecKind, lanes: u32, seed: u32) -> Result<bool, AllocError>
    requires some_lanes { 0 < lanes }
    requires few_lanes { lanes ≤ 4 }
{
    let work = two_rows(kind, seed);
    let before = scattered(alloc, seed)?;
    let mut after = scattered(alloc, seed)?;
    if !lies_below(&work, after.len()) {
        return Ok(false);
    }
    run(alloc, lanes, work, &mut after)?;
    Ok((0..2).all(|row| {
        if kind.acc {
            is_row_added(&before, &after, &work, row)
        } else {
            is_row_answered(&before, &after, &work, row)
        }
    }))
}

fn is_right_on_any_lanes(alloc: Global, kind: VecKind) -> Result<bool, AllocError> {
    for lanes in 1..5 {
        if !is_right(alloc, kind, lanes, 7 + lanes)? {
            return Ok(false);
        }
    }
    Ok(true)
}

#[test]
fn every_operation_and_type_answers_as_one_element_by_itself(rt: HostRuntime) -> Result<(), Fail> {
    for op in OPERATIONS {
        for elem in TYPES {
            for from in TYPES {
                for (a_scalar, b_scalar, acc) in MODES {
                    let Some(kind) = VecKind::new(op, elem, from, a_scalar, b_scalar, acc) else {
                        continue;
                    };
                    let right = is_right_on_any_lanes(rt.alloc(), kind)?;
                    assert!(rt; right, "{op:?} {elem:?} {from:?}");
                }
            }
        }
    }
    Ok(())
}
