//! Works: their kinds, answers, beats and places.
use crate::words;
use std::alloc::Global;
use std::str::SplitWhitespace;
use ven_base::{Elem, wrap};
use venice_isa::{DmaWork, Issue, VecKind, VecOp, VecWork, conflict, result_of, sets_flag};

/// `kind OP ELEM FROM A_SCALAR B_SCALAR ACC`: whether there is such a kind.
pub fn kind(alloc: Global, rest: &str) -> Option<String> {
    let mut words = rest.split_whitespace();
    let op = words::op(&mut words)?;
    let (elem, from) = (words::elem(&mut words)?, words::elem(&mut words)?);
    let (a_scalar, b_scalar) = (words::bit(&mut words)?, words::bit(&mut words)?);
    let acc = words::bit(&mut words)?;
    let kind = VecKind::new(op, elem, from, a_scalar, b_scalar, acc);
    format!(in alloc; "{}", kind.is_some()).ok()
}

/// `answer OP ELEM FROM A B`: the result, and whether it sets flags.
pub fn answer(alloc: Global, rest: &str) -> Option<String> {
    let mut words = rest.split_whitespace();
    let op = words::op(&mut words)?;
    let (elem, from) = (words::elem(&mut words)?, words::elem(&mut words)?);
    let kind = VecKind::new(op, elem, from, false, false, false)?;
    let a = wrap(kind.from, words::number(&mut words)?);
    let b = wrap(kind.elem, words::number(&mut words)?);
    let result = result_of(kind, a, b);
    format!(in alloc; "{result} {}", sets_flag(kind, result)).ok()
}

/// `beats OP ELEM FROM VL ROWS LANES`: how many beats an instruction takes.
pub fn beats(alloc: Global, rest: &str) -> Option<String> {
    let mut words = rest.split_whitespace();
    let op = words::op(&mut words)?;
    let (elem, from) = (words::elem(&mut words)?, words::elem(&mut words)?);
    let (vl, rows) = (words::count(&mut words)?, words::count(&mut words)?);
    let lanes = words::count(&mut words)?;
    if lanes == 0 || lanes > 4 {
        return None;
    }
    let work = VecWork {
        vl,
        rows,
        ..plain(VecKind::new(op, elem, from, false, false, false)?)
    };
    format!(in alloc; "{}", work.beats(lanes)).ok()
}

/// An instruction of one row of four elements at the first cells.
fn plain(kind: VecKind) -> VecWork {
    VecWork {
        kind,
        vl: 4,
        rows: 1,
        dst: 0,
        a: 0,
        b: 0,
        dst_step: 0,
        a_step: 0,
        b_step: 0,
    }
}

/// `range OP A_SCALAR B_SCALAR A B CELLS`: whether so many cells suffice for two rows of three u16, 8 cells apart, whose
/// results go to cell 32.
pub fn range(alloc: Global, rest: &str) -> Option<String> {
    let mut words = rest.split_whitespace();
    let op = words::op(&mut words)?;
    let (a_scalar, b_scalar) = (words::bit(&mut words)?, words::bit(&mut words)?);
    let kind = VecKind::new(op, Elem::U16, Elem::U16, a_scalar, b_scalar, false)?;
    let work = VecWork {
        kind,
        vl: 3,
        rows: 2,
        dst: 32,
        a: words::count(&mut words)?,
        b: words::count(&mut words)?,
        dst_step: 8,
        a_step: 8,
        b_step: 8,
    };
    let cells = words::count(&mut words)?;
    format!(in alloc; "{}", Issue::Vector(work).is_in_range(cells, 0)).ok()
}

/// `meet PLACE STEP SIZE ROWS COLUMNS PLACE STEP SIZE ROWS COLUMNS`: whether two regions of cells share a byte, each way
/// round.
pub fn meet(alloc: Global, rest: &str) -> Option<String> {
    let mut words = rest.split_whitespace();
    let first = fill(&mut words)?;
    let second = fill(&mut words)?;
    both_ways(alloc, &first, &second)
}

/// The instruction that gives a number to a region.
fn fill(words: &mut SplitWhitespace<'_>) -> Option<Issue> {
    let (dst, dst_step) = (words::count(words)?, words::count(words)?);
    let elem = match words.next()? {
        "1" => Elem::U8,
        "2" => Elem::U16,
        _ => Elem::U32,
    };
    let (rows, vl) = (words::count(words)?, words::count(words)?);
    let kind = VecKind::new(VecOp::Mov, elem, elem, true, false, false)?;
    Some(Issue::Vector(VecWork {
        vl,
        rows,
        dst,
        dst_step,
        ..plain(kind)
    }))
}

fn both_ways(alloc: Global, first: &Issue, second: &Issue) -> Option<String> {
    format!(in alloc; "{} {}", conflict(first, second), conflict(second, first)).ok()
}

/// `conflict WORK WORK`: whether two works conflict, each way round. A work is `v OP A_SCALAR B_SCALAR DST A B` on four
/// u8, `r MEM SPAD` or `w MEM SPAD` of four bytes, or `rwait N`, `vwait`, `twait N`.
pub fn conflicts(alloc: Global, rest: &str) -> Option<String> {
    let mut words = rest.split_whitespace();
    let first = issue(&mut words)?;
    let second = issue(&mut words)?;
    both_ways(alloc, &first, &second)
}

fn issue(words: &mut SplitWhitespace<'_>) -> Option<Issue> {
    match words.next()? {
        "v" => vector(words),
        "r" => Some(Issue::Read(transfer(words)?)),
        "w" => Some(Issue::Write(transfer(words)?)),
        "rwait" => Some(Issue::RWait(words::count(words)?)),
        "vwait" => Some(Issue::VWait),
        "twait" => Some(Issue::TWait(words::count(words)?)),
        _ => None,
    }
}

fn vector(words: &mut SplitWhitespace<'_>) -> Option<Issue> {
    let op = words::op(words)?;
    let (a_scalar, b_scalar) = (words::bit(words)?, words::bit(words)?);
    let kind = VecKind::new(op, Elem::U8, Elem::U8, a_scalar, b_scalar, false)?;
    Some(Issue::Vector(VecWork {
        dst: words::count(words)?,
        a: words::count(words)?,
        b: words::count(words)?,
        ..plain(kind)
    }))
}

fn transfer(words: &mut SplitWhitespace<'_>) -> Option<DmaWork> {
    Some(DmaWork {
        mem: words::count(words)?,
        spad: words::count(words)?,
        rows: 1,
        bytes: 4,
        mem_step: 0,
        spad_step: 0,
        tag: 0,
    })
}
