//! Lists that race and lists that don't, in either version: `overlap_law`.

use overlap_law::disciplined;
use std::alloc::{AllocError, Global};
use std::test::Fail;
use ven_base::Elem;
use venice_isa::{DmaWork, Issue, VecKind, VecOp, VecWork, Version, conflict};

/// One row of so many bytes between memory, from `mem` on, and cells, from `spad` on.
fn transfer(mem: u32, spad: u32, bytes: u32, tag: u32) -> DmaWork {
    DmaWork {
        mem,
        spad,
        rows: 1,
        bytes,
        mem_step: 0,
        spad_step: 0,
        tag,
    }
}

/// Sixteen bytes of memory from place 0 on, to cells.
fn read(spad: u32, tag: u32) -> Issue {
    Issue::Read(transfer(0, spad, 16, tag))
}

/// Sixteen cells, to memory.
fn write(spad: u32, mem: u32, tag: u32) -> Issue {
    Issue::Write(transfer(mem, spad, 16, tag))
}

/// One row of `vl` elements: those from cell `a` on, each with the scalar 1 added, go to the cells from `dst` on.
fn add_one(elem: Elem, vl: u32, dst: u32, a: u32) -> Option<Issue> {
    let kind = VecKind::new(VecOp::Add, elem, elem, false, true, false)?;
    Some(Issue::Vector(VecWork {
        kind,
        vl,
        rows: 1,
        dst,
        a,
        b: 1,
        dst_step: 0,
        a_step: 0,
        b_step: 0,
    }))
}

/// Sixteen elements of a byte.
fn vector(dst: u32, a: u32) -> Result<Issue, Fail> {
    Ok(add_one(Elem::U8, 16, dst, a).ok_or("add allows bytes and a scalar")?)
}

/// The places of the first race of a list that isn't long.
fn found(version: Version, list: &[Issue]) -> Option<(u32, u32)> {
    if list.len() > 1_000_000 {
        return None;
    }
    match disciplined(version, list) {
        Ok(()) => None,
        Err(race) => Some((race.first, race.second)),
    }
}

/// The same in both versions, where they may differ.
type Both = [Option<(u32, u32)>; 2];

fn both(list: &[Issue]) -> Both {
    [found(Version::One, list), found(Version::Two, list)]
}

const NONE: Both = [None, None];

/// No race in version one.
fn second_alone(first: u32, second: u32) -> Both {
    [None, Some((first, second))]
}

/// No race in version two.
fn first_alone(first: u32, second: u32) -> Both {
    [Some((first, second)), None]
}

fn same(first: u32, second: u32) -> Both {
    [Some((first, second)), Some((first, second))]
}

#[test]
fn a_read_and_waits_for_it(rt: HostRuntime) -> Result<(), Fail> {
    use Issue::{RWait, TWait, VWait, WWait};
    let on_its_cells = vector(0, 0)?;
    let a = read(0, 1);
    let b = read(16, 2);
    // A read and an addition on its cells, with nothing between; with waits for other units; with waits for its own.
    assert_eq!(rt; both(&[a, on_its_cells]), same(0, 1));
    assert_eq!(rt; both(&[a, VWait, WWait(0), on_its_cells]), same(0, 3));
    assert_eq!(rt; both(&[a, RWait(0), on_its_cells]), NONE);
    assert_eq!(rt; both(&[a, RWait(1), on_its_cells]), same(0, 2));
    // As many later reads as the wait lets stay unfinished end it in version one alone; one fewer, in neither.
    assert_eq!(rt; both(&[a, b, RWait(1), on_its_cells]), second_alone(0, 3));
    assert_eq!(rt; both(&[a, b, RWait(2), on_its_cells]), same(0, 3));
    // A wait for its tag ends it in version two alone; one for another tag in neither.
    assert_eq!(rt; both(&[a, TWait(1), on_its_cells]), first_alone(0, 2));
    assert_eq!(rt; both(&[a, b, TWait(2), on_its_cells]), same(0, 3));
    Ok(())
}

#[test]
fn two_reads_and_works_that_are_waited_for(rt: HostRuntime) -> Result<(), Fail> {
    use Issue::{RWait, TWait, VWait};
    let add_words = add_one(Elem::U32, 3, 4, 0).ok_or("add allows words and a scalar")?;
    let a = read(0, 1);
    let long = Issue::Read(transfer(0, 0, 32, 0));
    assert_eq!(rt; both(&[a, a, RWait(0)]), second_alone(0, 1));
    assert_eq!(rt; both(&[long, long]), second_alone(0, 1));
    assert_eq!(rt; both(&[a, TWait(1), a]), NONE);
    // A read, an addition and a write, each waited for.
    let list = [a, RWait(0), add_words, VWait, write(0, 16, 0)];
    assert_eq!(rt; both(&list), NONE);
    assert_eq!(rt; both(&[]), NONE);
    Ok(())
}

#[test]
fn vector_instructions_and_writes(rt: HostRuntime) -> Result<(), Fail> {
    use Issue::{RWait, TWait, VWait, WWait};
    let v = vector(0, 0)?;
    let w = write(0, 64, 3);
    // Vector instructions keep their order; a write of their cells waits for them.
    assert_eq!(rt; both(&[v, v, VWait, w]), NONE);
    assert_eq!(rt; both(&[v, RWait(0), w]), same(0, 2));
    assert_eq!(rt; both(&[v, TWait(3), WWait(0), w]), same(0, 3));
    // Two writes to the same bytes, and to others.
    assert_eq!(rt; both(&[w, write(16, 64, 4)]), second_alone(0, 1));
    assert_eq!(rt; both(&[w, write(16, 80, 4)]), NONE);
    assert_eq!(rt; both(&[w, TWait(3), v]), first_alone(0, 2));
    assert_eq!(rt; both(&[w, WWait(0), v]), NONE);
    Ok(())
}

#[test]
fn writes_and_reads_of_their_bytes(rt: HostRuntime) -> Result<(), Fail> {
    let w = write(32, 0, 5);
    assert_eq!(rt; both(&[w, read(0, 5)]), same(0, 1));
    assert_eq!(rt; both(&[w, Issue::TWait(5), read(0, 5)]), first_alone(0, 2));
    Ok(())
}

// The first pair has the least second place, and then the least first: here `v` and `w` race with the read at 3.
#[test]
fn the_first_of_several_races(rt: HostRuntime) -> Result<(), Fail> {
    let v = vector(0, 0)?;
    let w = write(0, 64, 3);
    assert_eq!(rt; both(&[v, read(48, 0), w, read(0, 0), v]), same(0, 2));
    assert_eq!(rt; both(&[v, write(80, 96, 3), read(80, 0), w]), same(1, 2));
    Ok(())
}

/// The list `first`, so many times `between`, and `last`.
fn list_of(
    alloc: Global,
    first: Issue,
    times: u32,
    between: Issue,
    last: Issue,
) -> Result<Vec<Issue>, AllocError> {
    let mut list = Vec::new(alloc);
    list.push(first)?;
    for _ in 0..times {
        list.push(between)?;
    }
    list.push(last)?;
    Ok(list)
}

/// Whether the list with so many works between has these races.
fn races(
    alloc: Global,
    first: Issue,
    times: u32,
    between: Issue,
    last: Issue,
    wanted: Both,
) -> Result<bool, AllocError> {
    let list = list_of(alloc, first, times, between, last)?;
    Ok(both(&list) == wanted)
}

#[test]
fn as_many_later_vector_instructions_as_places(rt: HostRuntime) -> Result<(), Fail> {
    let alloc = rt.alloc();
    let v = vector(0, 0)?;
    let elsewhere = vector(32, 48)?;
    let w = write(0, 64, 0);
    assert!(rt; races(alloc, v, 3, elsewhere, w, same(0, 4))?);
    assert!(rt; races(alloc, v, 4, elsewhere, w, NONE)?);
    assert!(rt; races(alloc, v, 5, elsewhere, w, NONE)?);
    Ok(())
}

#[test]
fn as_many_later_transfers_as_places(rt: HostRuntime) -> Result<(), Fail> {
    let alloc = rt.alloc();
    let v = vector(0, 0)?;
    let nothing = transfer(0, 64, 0, 0);
    for (work, between) in [
        (read(0, 0), Issue::Read(nothing)),
        (write(0, 64, 0), Issue::Write(nothing)),
    ] {
        assert!(rt; races(alloc, work, 7, between, v, same(0, 8))?);
        assert!(rt; races(alloc, work, 8, between, v, second_alone(0, 9))?);
        assert!(rt; races(alloc, work, 9, between, v, second_alone(0, 10))?);
    }
    Ok(())
}

// ---- a count of all pairs

/// The number of the unit: 0 the lanes, 1 the read channel, 2 the write channel.
fn unit(issue: &Issue) -> Option<u32> {
    match issue {
        Issue::Vector(_) => Some(0),
        Issue::Read(_) => Some(1),
        Issue::Write(_) => Some(2),
        _ => None,
    }
}

/// The unit that a wait is for, and how many of its works it lets stay unfinished.
fn wait(issue: &Issue) -> Option<(u32, usize)> {
    match issue {
        Issue::VWait => Some((0, 0)),
        Issue::RWait(most) => Some((1, *most as usize)),
        Issue::WWait(most) => Some((2, *most as usize)),
        _ => None,
    }
}

fn tag(issue: &Issue) -> Option<u32> {
    match issue {
        Issue::Read(work) | Issue::Write(work) => Some(work.tag),
        _ => None,
    }
}

/// Whether the issue is a wait for the transfer's tag, or one for its channel that lets none stay unfinished.
fn waits_for_all(work: &Issue, issue: &Issue) -> bool {
    match (issue, wait(issue)) {
        (Issue::TWait(waited), _) => tag(work) == Some(*waited),
        (_, Some((waited, most))) => unit(work) == Some(waited) && most == 0,
        _ => false,
    }
}

/// Whether the issue is a wait for the work's unit that lets no more than so many of its works stay unfinished.
fn waits_for(work: &Issue, issue: &Issue, left: usize) -> bool {
    match wait(issue) {
        Some((waited, most)) => unit(work) == Some(waited) && most <= left,
        None => false,
    }
}

/// Whether the work is done where these stand between, by the words of the manual.
fn is_done(version: Version, work: &Issue, between: &[Issue]) -> bool {
    let overtakes = version == Version::Two && unit(work) != Some(0);
    let places = if unit(work) == Some(0) { 4 } else { 8 };
    let mut before = 0usize;
    for issue in between {
        if overtakes && waits_for_all(work, issue) {
            return true;
        }
        if !overtakes && waits_for(work, issue, before) {
            return true;
        }
        if unit(issue) == unit(work) {
            before = before.saturating_add(1);
        }
    }
    !overtakes && places <= before
}

/// Whether the works at the two places race.
fn is_race(version: Version, list: &[Issue], first: usize, second: usize) -> bool {
    match (
        list.get(first),
        list.get(second),
        list.get(first.saturating_add(1)..second),
    ) {
        (Some(work), Some(other), Some(between)) => {
            let free = unit(work) != unit(other)
                || (version == Version::Two && unit(work) != Some(0));
            unit(work).is_some()
                && free
                && conflict(work, other)
                && !is_done(version, work, between)
        }
        _ => false,
    }
}

/// The first race, found by trying all pairs in their order.
fn first_race(version: Version, list: &[Issue]) -> Option<(u32, u32)> {
    for second in 0..20 {
        for first in 0..second {
            if is_race(version, list, first, second) {
                return Some((first as u32, second as u32));
            }
        }
    }
    None
}

/// A list made by a counter.
fn counter_list(alloc: Global, seed: &mut u32, kinds: &[Issue]) -> Result<Vec<Issue>, AllocError> {
    let mut list = Vec::new(alloc);
    for _ in 0..14 {
        *seed = seed.wrapping_mul(1_664_525).wrapping_add(1_013_904_223);
        let pick = *seed / 65_536 % 19;
        if let Some(issue) = kinds.get(pick as usize) {
            list.push(*issue)?;
        }
    }
    Ok(list)
}

#[test]
fn a_count_of_all_pairs_finds_the_same(rt: HostRuntime) -> Result<(), Fail> {
    use Issue::{RWait, TWait, VWait, WWait};
    let kinds = [
        vector(0, 0)?,
        vector(32, 16)?,
        vector(48, 48)?,
        read(0, 1),
        read(16, 2),
        read(64, 3),
        write(0, 64, 1),
        write(32, 80, 2),
        write(80, 96, 3),
        RWait(0),
        RWait(1),
        RWait(2),
        WWait(0),
        WWait(1),
        VWait,
        VWait,
        TWait(1),
        TWait(2),
        TWait(3),
    ];
    let mut seed = 7;
    let mut races = 0u32;
    for _ in 0..400 {
        let list = counter_list(rt.alloc(), &mut seed, &kinds)?;
        for version in [Version::One, Version::Two] {
            let race = found(version, &list);
            assert!(rt; race == first_race(version, &list));
            if race.is_some() {
                races = races.saturating_add(1);
            }
        }
    }
    assert!(rt; 200 < races && races < 790, "{races}");
    Ok(())
}

/// So many turns, each a read, an addition and a write that are waited for.
fn turns(alloc: Global, count: u32) -> Result<Vec<Issue>, Fail> {
    let turn = [
        read(0, 1),
        Issue::TWait(1),
        Issue::RWait(0),
        vector(16, 0)?,
        Issue::VWait,
        write(16, 64, 2),
        Issue::TWait(2),
        Issue::WWait(0),
    ];
    let mut list = Vec::new(alloc);
    for _ in 0..count {
        for issue in turn {
            list.push(issue)?;
        }
    }
    Ok(list)
}

/// So many reads, each to other cells than the seven before it, and each after a wait for the one eight before it.
fn rolling_reads(alloc: Global, count: u32) -> Result<Vec<Issue>, Fail> {
    let mut list = Vec::new(alloc);
    for k in 0..count {
        let tag = k % 8;
        list.push(Issue::TWait(tag))?;
        list.push(read(16 * tag, tag))?;
    }
    Ok(list)
}

#[test]
fn many_issues_with_few_works_in_flight(rt: HostRuntime) -> Result<(), Fail> {
    let mut list = rolling_reads(rt.alloc(), 50_000)?;
    assert_eq!(rt; found(Version::Two, &list), None);
    list.pop();
    list.push(read(16, 0))?;
    assert_eq!(rt; found(Version::Two, &list), Some((99_987, 99_999)));
    Ok(())
}

#[test]
fn long_lists(rt: HostRuntime) -> Result<(), Fail> {
    let mut list = turns(rt.alloc(), 31_250)?;
    assert_eq!(rt; both(&list), NONE);
    list.push(read(0, 1))?;
    list.push(vector(16, 0)?)?;
    assert_eq!(rt; both(&list), same(250_000, 250_001));
    Ok(())
}
