//! The works that are unfinished, and the units that do them.
ghost use Rattle.std.specs.Prelude.{◌≡◌, ◌↔◌, ◌<◌, ◌≤◌, ◌&&◌, nat_lt, All, None, IfOk, IsTrue, IsFalse, length};
ghost use Rattle.ven_base.specs.Store.{store_of, store_size, IsInRange};
ghost use Rattle.ven_base.specs.Job.{jobs_beaten, store_beaten};
ghost use Rattle.ven_base.specs.Beats.{jobs_after_beats, store_after_beats, HasMore};
ghost use Rattle.spad_store.specs.Queue.{IsQueue};
ghost use Rattle.host_core.specs.Pass.{is_idle};
ghost use Rattle.venice_isa.specs.declared.issue.Issue.TheVariants.{Vector, Read, Write};
ghost use Rattle.venice_isa.specs.Tests.{has_counts, are_in_conflict};
ghost use Rattle.venice_isa.specs.Units.{ReadChannel, is_work, overtakes};
ghost use Rattle.venice_machine.specs.AtOnce.{all_on, busy_units, FirstsAgree, AllAgree, HaveMore};
ghost use Rattle.venice_machine.specs.Kept.{AllNumbered, AllLieIn, no_works, numbers_left, unit_course, works_after_beat, place_chosen, beat_of, queues_with, HasPlaceFor, waiting_in, number_in, conflicts_with, transfers_against_read, transfers_against_write, hazard_of};

use crate::beat::Beat;
use crate::numbers::{Numbers, settle};
use dma_engine::{ReadChannel, WriteChannel};
use host_core::Waiting;
use lane_machine::Lanes;
use spad_store::{MainMem, Overtaking, Spad, Unit};
use std::alloc::{AllocError, Global};
use std::marker::Model;
use venice_isa::{Issue, Version, conflict};

/// The units with the works of their queues, and the issue numbers of these.
#[derive(Drop)]
pub(crate) struct Works {
    lanes: Lanes,
    reads: ReadChannel,
    writes: WriteChannel,
    lane_numbers: Numbers,
    read_numbers: Numbers,
    write_numbers: Numbers,
}

impl Model for Works {
    ghost use Rattle.venice_machine.specs.Kept.{AllNumbered};
    ghost use Rattle.venice_machine.specs.Working.{UnitsInside, units_inside};

    ghost Value = { UnitsInside };

    ghost view = { units_inside };

    ghost invariant = { λ works. AllNumbered (units_inside works).queues };
}

/// Whether two works conflict.
fn are_in_conflict(first: &Issue, second: &Issue) -> bool
    ensures { result ≡ are_in_conflict first.now second.now }
{
    conflict(first, second)
}

/// Whether the channels overtake.
#[inline(always)]
pub(crate) fn overtakes(version: Version) -> bool
    ensures { result ≡ overtakes version ReadChannel }
{
    matches!(version, Version::Two)
}

/// Does the next beat of the first work, and settles the numbers; false where there is none.
#[inline(always)]
fn beat_first<U: Unit>(
    unit: &mut U,
    numbers: &mut Numbers,
    cells: &mut Spad,
    memory: &mut MainMem,
) -> bool
    requires inside { All (λ job. IsInRange (U.reads job.work) (U.writes job.work)
        (store_size (store_of cells.old memory.old))) (U.jobs unit.old) }
    requires numbered { length numbers.old.items ≡ length (U.jobs unit.old) }
    ensures beaten { IsTrue result ↔ (0 < length (U.jobs unit.old)) }
    ensures jobs { U.jobs unit.new
        ≡ jobs_beaten (U.course (U.setting unit.old)) 0 (U.jobs unit.old) (store_of cells.old memory.old) }
    ensures numbers { numbers.new.items ≡ numbers_left 0 (length (U.jobs unit.new)) numbers.old.items }
    ensures store { store_of cells.new memory.new
        ≡ store_beaten (U.course (U.setting unit.old)) 0 (U.jobs unit.old) (store_of cells.old memory.old) }
    ensures same_size { store_size (store_of cells.new memory.new) ≡ store_size (store_of cells.old memory.old) }
    ensures same_setting { U.setting unit.new ≡ U.setting unit.old }
{
    if unit.unfinished() == 0 {
        return false;
    }
    unit.beat(cells, memory);
    settle(numbers, 0, unit.unfinished());
    true
}

/// Does so many beats of the first work, which has more left.
#[inline(always)]
fn beat_many<U: Unit>(unit: &mut U, count: u64, cells: &mut Spad, memory: &mut MainMem)
    requires inside { All (λ job. IsInRange (U.reads job.work) (U.writes job.work)
        (store_size (store_of cells.old memory.old))) (U.jobs unit.old) }
    requires more { HasMore (U.course (U.setting unit.old)) count (U.jobs unit.old) }
    ensures jobs { U.jobs unit.new
        ≡ jobs_after_beats (U.course (U.setting unit.old)) count (U.jobs unit.old) (store_of cells.old memory.old) }
    ensures store { store_of cells.new memory.new
        ≡ store_after_beats (U.course (U.setting unit.old)) count (U.jobs unit.old) (store_of cells.old memory.old) }
    ensures same_length { length (U.jobs unit.new) ≡ length (U.jobs unit.old) }
    ensures same_size { store_size (store_of cells.new memory.new) ≡ store_size (store_of cells.old memory.old) }
    ensures same_setting { U.setting unit.new ≡ U.setting unit.old }
{
    // A unit's law holds of what it can be made with.
    let _ = unit.unfinished();
    unit.beats(count, cells, memory);
}

/// Whether a unit goes on with its second work: it is chosen and there.
#[inline(always)]
fn takes_second<U: Unit>(unit: &U, second: bool) -> bool
    ensures second { result ≡ (second && nat_lt 1 (length (U.jobs unit.now))) }
    ensures in_order { IsQueue (U.course (U.setting unit.now)) U.has_counts U.places (U.jobs unit.now) }
    ensures setting { U.can_have (U.setting unit.now) }
{
    let count = unit.unfinished();
    second && 1 < count
}

/// Does the next beat of the second work where it is chosen and there, and else of the first.
#[inline(always)]
fn beat_one<U: Overtaking>(
    unit: &mut U,
    numbers: &mut Numbers,
    second: bool,
    cells: &mut Spad,
    memory: &mut MainMem,
) -> Beat
    requires inside { All (λ job. IsInRange (U.reads job.work) (U.writes job.work)
        (store_size (store_of cells.old memory.old))) (U.jobs unit.old) }
    requires numbered { length numbers.old.items ≡ length (U.jobs unit.old) }
    ensures beat { result ≡ beat_of second (length (U.jobs unit.old)) }
    ensures jobs { U.jobs unit.new ≡ jobs_beaten (U.course (U.setting unit.old))
        (place_chosen second (length (U.jobs unit.old))) (U.jobs unit.old) (store_of cells.old memory.old) }
    ensures numbers { numbers.new.items ≡ numbers_left (place_chosen second (length (U.jobs unit.old)))
        (length (U.jobs unit.new)) numbers.old.items }
    ensures store { store_of cells.new memory.new ≡ store_beaten (U.course (U.setting unit.old))
        (place_chosen second (length (U.jobs unit.old))) (U.jobs unit.old) (store_of cells.old memory.old) }
    ensures same_size { store_size (store_of cells.new memory.new) ≡ store_size (store_of cells.old memory.old) }
    ensures same_setting { U.setting unit.new ≡ U.setting unit.old }
{
    if takes_second(unit, second) {
        unit.beat_second(cells, memory);
        settle(numbers, 1, unit.unfinished());
        Beat::Second
    } else if beat_first(unit, numbers, cells, memory) {
        Beat::First
    } else {
        Beat::Nothing
    }
}

impl Works {
    /// So many lanes, 1 to 4, and the channels, with nothing to do.
    pub fn new(alloc: Global, lanes: u32) -> Result<Works, AllocError>
        requires some { 0 < lanes }
        requires few { lanes ≤ 4 }
        ensures queues { IfOk result (λ works. works.queues ≡ no_works) }
        ensures lanes { IfOk result (λ works. works.lane_count ≡ lanes) }
    {
        Ok(Works {
            lanes: Lanes::new(alloc, lanes)?,
            reads: ReadChannel::new(alloc)?,
            writes: WriteChannel::new(alloc)?,
            lane_numbers: Numbers::new(),
            read_numbers: Numbers::new(),
            write_numbers: Numbers::new(),
        })
    }

    /// How many works are unfinished, and of the transfers those with the tag that is waited for, if one is.
    #[inline(always)]
    pub fn waiting(&self, wanted: Option<u32>) -> Waiting
        ensures { result ≡ waiting_in wanted self.now.queues }
    {
        let read = self.reads.unfinished();
        let write = self.writes.unfinished();
        let tagged = match wanted {
            Some(tag) => self.reads.tagged(tag) + self.writes.tagged(tag),
            None => 0,
        };
        Waiting {
            vector: self.lanes.unfinished(),
            read,
            write,
            tagged,
        }
    }

    /// Whether nothing is unfinished.
    #[inline(always)]
    pub fn is_idle(&self) -> bool
        ensures { result ≡ is_idle (waiting_in None self.now.queues) }
    {
        self.lanes.unfinished() == 0
            && self.reads.unfinished() == 0
            && self.writes.unfinished() == 0
    }

    /// The issue number of work `k` of a unit's queue: of the lanes 1, of the read channel 2, of the write channel 3.
    pub fn number(&self, unit: u8, k: usize) -> Option<u64>
        ensures { result ≡ number_in unit k self.now.queues }
    {
        match unit {
            1 => self.lane_numbers.get(k).copied(),
            2 => self.read_numbers.get(k).copied(),
            _ => self.write_numbers.get(k).copied(),
        }
    }

    // ---- issues

    /// Puts a work into its unit's queue, which has a place for it. A wait isn't one.
    pub fn issue(&mut self, issue: Issue, number: u64)
        requires place { HasPlaceFor issue self.old.queues }
        requires counts { IsTrue (has_counts issue) }
        ensures { self.new ≡ record self.old {
          queues = queues_with issue number self.old.queues;
        } }
    {
        match issue {
            Issue::Vector(work) => {
                let _ = self.lanes.offer(work);
                self.lane_numbers.push(number);
            }
            Issue::Read(work) => {
                let _ = self.reads.offer(work);
                self.read_numbers.push(number);
            }
            Issue::Write(work) => {
                let _ = self.writes.offer(work);
                self.write_numbers.push(number);
            }
            _ => {}
        }
    }

    /// Whether the work that is issued conflicts with one in flight that isn't sure to be done before it: with one of
    /// another unit, and in version two, where channels overtake, a transfer with one of its own.
    pub fn is_hazard(&self, version: Version, issue: &Issue) -> bool
        requires { IsTrue (is_work issue.now) }
        ensures { result ≡ hazard_of version issue.now self.now.queues }
    {
        match issue {
            Issue::Vector(_) => self.has_read_against(issue) || self.has_write_against(issue),
            Issue::Read(_) => {
                self.has_vector_against(issue) || self.has_transfer_against_read(version, issue)
            }
            Issue::Write(_) => {
                self.has_vector_against(issue) || self.has_transfer_against_write(version, issue)
            }
            _ => false,
        }
    }

    fn has_transfer_against_read(&self, version: Version, issue: &Issue) -> bool
        ensures { result ≡ transfers_against_read version issue.now self.now.queues }
    {
        if overtakes(version) && self.has_read_against(issue) {
            return true;
        }
        self.has_write_against(issue)
    }

    fn has_transfer_against_write(&self, version: Version, issue: &Issue) -> bool
        ensures { result ≡ transfers_against_write version issue.now self.now.queues }
    {
        if self.has_read_against(issue) {
            return true;
        }
        overtakes(version) && self.has_write_against(issue)
    }

    fn has_vector_against(&self, issue: &Issue) -> bool
        ensures { result ≡ conflicts_with Vector issue.now self.now.queues.lanes }
    {
        for k in 0..self.lanes.unfinished() {
            if are_in_conflict(&Issue::Vector(*self.lanes.work(k)), issue) {
                return true;
            }
        }
        false
    }

    fn has_read_against(&self, issue: &Issue) -> bool
        ensures { result ≡ conflicts_with Read issue.now self.now.queues.reads }
    {
        for k in 0..self.reads.unfinished() {
            if are_in_conflict(&Issue::Read(*self.reads.work(k)), issue) {
                return true;
            }
        }
        false
    }

    fn has_write_against(&self, issue: &Issue) -> bool
        ensures { result ≡ conflicts_with Write issue.now self.now.queues.writes }
    {
        for k in 0..self.writes.unfinished() {
            if are_in_conflict(&Issue::Write(*self.writes.work(k)), issue) {
                return true;
            }
        }
        false
    }

    // ---- beats

    /// The next beat of the lanes' first work; false where there is none.
    #[inline(always)]
    pub fn beat_lanes(&mut self, cells: &mut Spad, memory: &mut MainMem) -> bool
        requires inside { AllLieIn (store_size (store_of cells.old memory.old)) self.old.queues }
        ensures beaten { IsTrue result ↔ (0 < length self.old.queues.lanes.jobs) }
        ensures works { self.new ≡ record self.old {
          queues = record self.old.queues {
            lanes = works_after_beat (unit_course Vector self.old.lane_count) 0 self.old.queues.lanes
                (store_of cells.old memory.old);
          };
        } }
        ensures store { store_of cells.new memory.new ≡ store_beaten (unit_course Vector self.old.lane_count) 0
            self.old.queues.lanes.jobs (store_of cells.old memory.old) }
        ensures same_size { store_size (store_of cells.new memory.new) ≡ store_size (store_of cells.old memory.old) }
    {
        beat_first(&mut self.lanes, &mut self.lane_numbers, cells, memory)
    }

    /// The next beat of the read channel's second work where it is chosen and there, and else of the first.
    #[inline(always)]
    pub fn beat_reads(&mut self, second: bool, cells: &mut Spad, memory: &mut MainMem) -> Beat
        requires inside { AllLieIn (store_size (store_of cells.old memory.old)) self.old.queues }
        ensures beaten { result ≡ beat_of second (length self.old.queues.reads.jobs) }
        ensures works { self.new ≡ record self.old {
          queues = record self.old.queues {
            reads = works_after_beat (unit_course Read self.old.lane_count)
                (place_chosen second (length self.old.queues.reads.jobs)) self.old.queues.reads
                (store_of cells.old memory.old);
          };
        } }
        ensures store { store_of cells.new memory.new ≡ store_beaten (unit_course Read self.old.lane_count)
            (place_chosen second (length self.old.queues.reads.jobs)) self.old.queues.reads.jobs
            (store_of cells.old memory.old) }
        ensures same_size { store_size (store_of cells.new memory.new) ≡ store_size (store_of cells.old memory.old) }
    {
        beat_one(
            &mut self.reads,
            &mut self.read_numbers,
            second,
            cells,
            memory,
        )
    }

    /// The next beat of the write channel's second work where it is chosen and there, and else of the first.
    #[inline(always)]
    pub fn beat_writes(&mut self, second: bool, cells: &mut Spad, memory: &mut MainMem) -> Beat
        requires inside { AllLieIn (store_size (store_of cells.old memory.old)) self.old.queues }
        ensures beaten { result ≡ beat_of second (length self.old.queues.writes.jobs) }
        ensures works { self.new ≡ record self.old {
          queues = record self.old.queues {
            writes = works_after_beat (unit_course Write self.old.lane_count)
                (place_chosen second (length self.old.queues.writes.jobs)) self.old.queues.writes
                (store_of cells.old memory.old);
          };
        } }
        ensures store { store_of cells.new memory.new ≡ store_beaten (unit_course Write self.old.lane_count)
            (place_chosen second (length self.old.queues.writes.jobs)) self.old.queues.writes.jobs
            (store_of cells.old memory.old) }
        ensures same_size { store_size (store_of cells.new memory.new) ≡ store_size (store_of cells.old memory.old) }
    {
        beat_one(
            &mut self.writes,
            &mut self.write_numbers,
            second,
            cells,
            memory,
        )
    }

    // ---- many cycles at once

    /// How many units have a work.
    #[inline(always)]
    pub fn busy(&self) -> u64
        ensures busy { result ≡ busy_units self.now.queues }
        ensures few { result ≤ 3 }
    {
        let lanes = self.lanes.unfinished().min(1);
        let reads = self.reads.unfinished().min(1);
        let writes = self.writes.unfinished().min(1);
        u64::from(lanes + (reads + writes))
    }

    /// How many cycles may be made at once in which each unit goes on with its first work and none of these works ends.
    #[inline(always)]
    pub fn spare(&self) -> u64
        ensures some_lanes { 0 < self.now.lane_count }
        ensures more { HaveMore self.now.lane_count result self.now.queues }
    {
        // A unit's law holds of what it can be made with.
        let _ = self.lanes.unfinished();
        let lanes = self.lanes.spare();
        let reads = self.reads.spare();
        let writes = self.writes.spare();
        lanes.min(reads.min(writes))
    }

    /// Whether no two first works conflict.
    pub fn all_agree(&self) -> bool
        ensures { IsTrue result → AllAgree self.now.queues }
    {
        !self.lanes_meet_reads() && !self.lanes_meet_writes() && !self.reads_meet_writes()
    }

    fn lanes_meet_reads(&self) -> bool
        ensures { IsFalse result → FirstsAgree Vector Read self.now.queues.lanes.jobs self.now.queues.reads.jobs }
    {
        if self.lanes.unfinished() == 0 || self.reads.unfinished() == 0 {
            return false;
        }
        are_in_conflict(
            &Issue::Vector(*self.lanes.work(0)),
            &Issue::Read(*self.reads.work(0)),
        )
    }

    fn lanes_meet_writes(&self) -> bool
        ensures { IsFalse result → FirstsAgree Vector Write self.now.queues.lanes.jobs self.now.queues.writes.jobs }
    {
        if self.lanes.unfinished() == 0 || self.writes.unfinished() == 0 {
            return false;
        }
        are_in_conflict(
            &Issue::Vector(*self.lanes.work(0)),
            &Issue::Write(*self.writes.work(0)),
        )
    }

    fn reads_meet_writes(&self) -> bool
        ensures { IsFalse result → FirstsAgree Read Write self.now.queues.reads.jobs self.now.queues.writes.jobs }
    {
        if self.reads.unfinished() == 0 || self.writes.unfinished() == 0 {
            return false;
        }
        are_in_conflict(
            &Issue::Read(*self.reads.work(0)),
            &Issue::Write(*self.writes.work(0)),
        )
    }

    /// Does so many beats of each first work: all of the lanes, then all of the read channel, then all of the write
    /// channel.
    #[inline(always)]
    pub fn beat_all(&mut self, count: u64, cells: &mut Spad, memory: &mut MainMem)
        requires inside { AllLieIn (store_size (store_of cells.old memory.old)) self.old.queues }
        requires more { HaveMore self.old.lane_count count self.old.queues }
        ensures works { self.new ≡ record self.old {
          queues = (all_on self.old.lane_count count
              (record { queues = self.old.queues; store = store_of cells.old memory.old })).queues;
        } }
        ensures store { store_of cells.new memory.new ≡ (all_on self.old.lane_count count
            (record { queues = self.old.queues; store = store_of cells.old memory.old })).store }
        ensures same_size { store_size (store_of cells.new memory.new) ≡ store_size (store_of cells.old memory.old) }
        ensures inside { AllLieIn (store_size (store_of cells.new memory.new)) self.new.queues }
        ensures numbered { AllNumbered self.new.queues }
    {
        beat_many(&mut self.lanes, count, cells, memory);
        beat_many(&mut self.reads, count, cells, memory);
        beat_many(&mut self.writes, count, cells, memory);
    }
}
