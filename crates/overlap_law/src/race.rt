//! Whether a list of issues is disciplined, and its first race.
ghost use Rattle.std.specs.Prelude.{◌≡◌, ◌+◌, ◌<◌, ◌≤◌, ◌^◌, length, OnOk, IfErr};
ghost use Rattle.venice_isa.specs.Flight.{IsDisciplined};
ghost use Rattle.overlap_law.specs.Flights.{pair_of, IsFirstRace};
ghost use Rattle.overlap_law.specs.Search.{end_for, IsEarliest, IsFirstWith};

use crate::flight::{ends, is_work, keep_their_order, share_a_unit};
use venice_isa::{Issue, Version, conflict};

/// Two works of a list that race, by their places in it, which count from 0, waits among them.
#[derive(Clone, Copy)]
pub struct Race {
    pub first: u32,
    pub second: u32,
}

/// Whether no two works of the list race (docs/MACHINE.md, "Lists that meet no hazard"); else the pair that does so
/// with the least second place, and then the least first. Condition: the list has fewer than 4,294,967,296 places.
/// Takes no memory. Each work is compared with those at which it may be in flight, and which stand before the second of
/// the best pair so far: linear in the list where few are in flight.
pub fn disciplined(version: Version, list: &[Issue]) -> Result<(), Race>
    requires { length list.now < 2 ^ 32 }
    ensures ok { OnOk result (IsDisciplined version list.now) }
    ensures race { IfErr result (λ race. IsFirstRace version list.now (pair_of race)) }
{
    let mut earliest = None;
    for first in 0..list.len() as u32 {
        earliest = earlier(version, list, first, earliest);
    }
    match earliest {
        None => Ok(()),
        Some(race) => Err(race),
    }
}

/// The first race of a work at a place up to this one, where that of a work before it is known.
fn earlier(version: Version, list: &[Issue], first: u32, earliest: Option<Race>) -> Option<Race>
    requires few { length list.now < 2 ^ 32 }
    requires within { first < length list.now }
    requires so_far { IsEarliest version list.now first earliest }
    ensures { IsEarliest version list.now (first + 1) result }
{
    match race_with(version, list, first, end_for(list, earliest)) {
        Some(second) => Some(Race { first, second }),
        None => earliest,
    }
}

/// The places below which a second place would be less than that of the known race: where none is known, all.
fn end_for(list: &[Issue], earliest: Option<Race>) -> u32
    requires few { length list.now < 2 ^ 32 }
    ensures { result ≡ end_for list.now earliest }
{
    match earliest {
        Some(race) => race.second,
        None => list.len() as u32,
    }
}

/// The first place below `end` at which a work races with the one at `first`. It goes forward until that work is ended.
fn race_with(version: Version, list: &[Issue], first: u32, end: u32) -> Option<u32>
    requires few { length list.now < 2 ^ 32 }
    requires within { first < length list.now }
    requires in_list { end ≤ length list.now }
    ensures { IsFirstWith version list.now first end result }
{
    let work = &list[first as usize];
    if !is_work(work) {
        return None;
    }
    let mut works = 0;
    for place in first + 1..end {
        let issue = &list[place as usize];
        if !keep_their_order(version, work, issue) && conflict(work, issue) {
            return Some(place);
        }
        if ends(version, work, works, issue) {
            return None;
        }
        if share_a_unit(work, issue) {
            works += 1;
        }
    }
    None
}
