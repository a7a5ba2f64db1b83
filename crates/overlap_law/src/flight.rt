//! What ends a work that is in flight.
ghost use Rattle.std.specs.Prelude.{◌≡◌, ◌+◌, ◌<◌, ◌^◌, true};
ghost use Rattle.venice_isa.specs.Units.{Unit, is_of, is_work, places, share_a_unit, may_be_overtaken, keep_their_order};
ghost use Rattle.venice_isa.specs.Flight.{waits_for, waits_for_tag_of, ends};

use venice_isa::{Issue, TRANSFER_PLACES, VECTOR_PLACES, Version};

/// Whether the issue is a work, and no wait.
pub(crate) fn is_work(issue: &Issue) -> bool
    ensures { result ≡ is_work issue.now }
{
    matches!(issue, Issue::Vector(_) | Issue::Read(_) | Issue::Write(_))
}

/// Whether one unit does both.
pub(crate) fn share_a_unit(first: &Issue, second: &Issue) -> bool
    ensures { result ≡ share_a_unit first.now second.now }
{
    match (first, second) {
        (Issue::Vector(_), Issue::Vector(_)) => true,
        (Issue::Read(_), Issue::Read(_)) => true,
        (Issue::Write(_), Issue::Write(_)) => true,
        _ => false,
    }
}

/// Whether a later work of its unit may come before the work's end: in version 2 of a transfer's.
fn may_be_overtaken(version: Version, work: &Issue) -> bool
    ensures { result ≡ may_be_overtaken version work.now }
{
    match (version, work) {
        (Version::Two, Issue::Read(_)) => true,
        (Version::Two, Issue::Write(_)) => true,
        _ => false,
    }
}

/// Whether one unit does the two, and the second only after the end of the first, where they are issued in this order.
pub(crate) fn keep_their_order(version: Version, first: &Issue, second: &Issue) -> bool
    ensures { result ≡ keep_their_order version first.now second.now }
{
    share_a_unit(first, second) && !may_be_overtaken(version, first)
}

/// How many works the queue of the work's unit has places for.
fn places(work: &Issue) -> u32
    ensures { (unit : Unit) → is_of unit work.now ≡ true → result ≡ places unit }
{
    match work {
        Issue::Vector(_) => VECTOR_PLACES,
        _ => TRANSFER_PLACES,
    }
}

/// Whether the issue is a wait that lets no more than so many works of the work's unit stay unfinished.
fn waits_for(work: &Issue, issue: &Issue, left: u32) -> bool
    ensures { (unit : Unit) → is_of unit work.now ≡ true → result ≡ waits_for unit issue.now left }
{
    match (work, issue) {
        (Issue::Vector(_), Issue::VWait) => true,
        (Issue::Read(_), Issue::RWait(most)) => *most <= left,
        (Issue::Write(_), Issue::WWait(most)) => *most <= left,
        _ => false,
    }
}

/// Whether the issue is a wait for the transfer's tag.
fn waits_for_tag_of(work: &Issue, issue: &Issue) -> bool
    ensures { result ≡ waits_for_tag_of work.now issue.now }
{
    match (work, issue) {
        (Issue::Read(read), Issue::TWait(tag)) => read.tag == *tag,
        (Issue::Write(write), Issue::TWait(tag)) => write.tag == *tag,
        _ => false,
    }
}

/// Whether the work is done once the host has passed the issue or wait, where so many works of its unit stand between
/// (docs/MACHINE.md, "Lists that meet no hazard").
pub(crate) fn ends(version: Version, work: &Issue, between: u32, issue: &Issue) -> bool
    requires { between + 1 < 2 ^ 32 }
    ensures { (unit : Unit) → is_of unit work.now ≡ true → result ≡ ends version unit work.now between issue.now }
{
    if may_be_overtaken(version, work) {
        waits_for(work, issue, 0) || waits_for_tag_of(work, issue)
    } else {
        waits_for(work, issue, between)
            || (share_a_unit(work, issue) && places(work) <= between + 1)
    }
}
