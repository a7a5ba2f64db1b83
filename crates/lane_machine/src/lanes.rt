//! The unit of the vector instructions.
ghost use Rattle.std.specs.Prelude.{◌≡◌, ◌<◌, ◌≤◌, [], length, drop, All, IfSome, IfOk, slice_get};
ghost use Rattle.ven_base.specs.Store.{store_size, store_of};
ghost use Rattle.ven_base.specs.Job.{beats_left, finished};
ghost use Rattle.spad_store.specs.Queue.{IsQueue};
ghost use Rattle.venice_isa.specs.declared.issue.Issue.TheVariants.{Vector};
ghost use Rattle.venice_isa.specs.Limits.{vector_places};
ghost use Rattle.venice_isa.specs.Footprint.{HasFootprint};
ghost use Rattle.venice_isa.specs.Whole.{HasCounts, IsSimple, IsWhole};
ghost use Rattle.venice_isa.specs.Beat.{not_begun};
ghost use Rattle.lane_machine.specs.State.{lane_course};
ghost use Rattle.lane_machine.specs.Lanes.{IsFront, progress_in};

use crate::at_once::beats;
use crate::current::Current;
use crate::group::beat;
use circular_buffer::HeapCircularBuffer;
use spad_store::{MainMem, Spad, Unit};
use std::alloc::{AllocError, Global};
use std::marker::Model;
use venice_isa::{VECTOR_PLACES, VecWork};

/// The lanes, from 1 to 4: a queue of four vector instructions, of which the first is done beat by
/// beat ("Beats" of docs/MACHINE.md).
#[derive(Drop)]
pub struct Lanes {
    lanes: u32,
    queue: HeapCircularBuffer<VecWork>,
    current: Option<Current>,
}

impl Model for Lanes {
    ghost use Rattle.lane_machine.specs.State.{State};

    ghost Value = { State };

    ghost use Rattle.lane_machine.specs.Lanes.{state_of, IsLanes};

    ghost view = { state_of };

    ghost invariant = { IsLanes };
}

impl Lanes {
    /// So many lanes, from 1 to 4, with an empty queue. An `Err` says that there is no memory for
    /// its places; nothing else takes memory.
    pub fn new(alloc: Global, lanes: u32) -> Result<Lanes, AllocError>
        requires some { 0 < lanes }
        requires few { lanes ≤ 4 }
        ensures { IfOk result (λ unit. unit ≡ record { jobs = []; lanes = lanes }) }
    {
        let queue = HeapCircularBuffer::with_capacity(alloc, VECTOR_PLACES as usize)?;
        Ok(Lanes {
            lanes,
            queue,
            current: None,
        })
    }

    /// Does all beats that are left of the queue's first work, and gives their number. The work leaves the queue, whose
    /// works all lie in the cells. Of a work that has not begun and is simple they are the whole effect, for each
    /// number of lanes ("The whole effect" of docs/MACHINE.md).
    pub fn finish(&mut self, cells: &mut Spad, memory: &mut MainMem) -> u64
        requires some { 0 < length self.old.jobs }
        requires inside { All (λ job.
            HasFootprint (store_size (store_of cells.old memory.old)) (Vector job.work)) self.old.jobs }
        ensures count { IfSome (slice_get self.old.jobs 0) (λ job.
            result ≡ beats_left (lane_course self.old.lanes) job) }
        ensures store { IfSome (slice_get self.old.jobs 0) (λ job.
            store_of cells.new memory.new ≡ finished (lane_course self.old.lanes) job (store_of cells.old memory.old)) }
        ensures whole { IfSome (slice_get self.old.jobs 0) (λ job.
            job.progress ≡ not_begun → IsSimple job.work → IsWhole job.work cells.old cells.new) }
        ensures length { length cells.new ≡ length cells.old }
        ensures memory { memory.new ≡ memory.old }
        ensures jobs { self.new ≡ record self.old { jobs = drop 1 self.old.jobs } }
    {
        let beats = self.first_beats();
        for _k in 0..beats {
            self.beat(cells, memory);
        }
        beats
    }

    /// How many beats the queue's first work has left, or 0.
    fn first_beats(&self) -> u64
        ensures some_lanes { 0 < self.now.lanes }
        ensures first { IfSome (slice_get self.now.jobs 0) (λ job.
            result ≡ beats_left (lane_course self.now.lanes) job) }
        ensures queue { IsQueue (lane_course self.now.lanes) HasCounts vector_places self.now.jobs }
    {
        match (self.queue.front(), &self.current) {
            (Some(work), Some(current)) => work.beats(self.lanes) - current.done,
            _ => 0,
        }
    }
}

/// The queue's first work, where there is one, not begun.
fn begin_first(queue: &HeapCircularBuffer<VecWork>, lanes: u32) -> Option<Current>
    requires counts { All HasCounts queue.now.items }
    requires some_lanes { 0 < lanes }
    requires few_lanes { lanes ≤ 4 }
    ensures first { IsFront lanes queue.now.items result }
    ensures begins { progress_in result ≡ not_begun }
{
    queue.front().map(|work| Current::begin(work, lanes))
}

impl Unit for Lanes {
    type Work = VecWork;

    ghost use Rattle.std.specs.Prelude.{ℕ, ◌<◌, ◌≤◌};
    ghost use Rattle.venice_isa.specs.Limits.{vector_places};
    ghost use Rattle.venice_isa.specs.Footprint.{Reads, Writes};
    ghost use Rattle.venice_isa.specs.Whole.{HasCounts};
    ghost use Rattle.venice_isa.specs.Beat.{Progress as LaneProgress};
    ghost use Rattle.lane_machine.specs.State.{lane_course};
    ghost use Rattle.lane_machine.specs.Laws.{work_begins, work_has_an_end, beat_keeps_to_footprint};

    ghost Progress = { LaneProgress };

    ghost Setting = { ℕ };

    ghost can_have = { λ lanes. (0 < lanes) × (lanes ≤ 4) };

    ghost has_counts = { HasCounts };

    ghost reads = { λ work. Reads (Vector work) };

    ghost writes = { λ work. Writes (Vector work) };

    ghost course = { lane_course };

    ghost places = { vector_places };

    ghost jobs = { λ lanes. lanes.jobs };

    ghost setting = { λ lanes. lanes.lanes };

    ghost begins = { work_begins };

    ghost has_an_end = { work_has_an_end };

    ghost keeps_to_footprint = { beat_keeps_to_footprint };

    fn offer(&mut self, work: VecWork) -> Result<(), VecWork> {
        self.queue.try_push_back(work)?;
        if self.current.is_none() {
            self.current = Some(Current::begin(&work, self.lanes));
        }
        Ok(())
    }

    fn unfinished(&self) -> u32 {
        self.queue.len() as u32
    }

    fn work(&self, k: u32) -> &VecWork {
        self.queue.get(k as usize).unwrap()
    }

    fn beat(&mut self, cells: &mut Spad, _memory: &mut MainMem) -> bool {
        let Some(work) = self.queue.front() else {
            return false;
        };
        let Some(current) = &mut self.current else {
            return false;
        };
        // A place in the cells is a number of 32 bits.
        let _ = cells.len();
        let count = current.count(work);
        let sum = beat(cells, work, current, count);
        if !current.advance(work, count, sum) {
            self.queue.pop_front();
            self.current = begin_first(&self.queue, self.lanes);
        }
        true
    }

    fn spare(&self) -> u64 {
        let left = self.first_beats();
        if left == 0 { u64::MAX } else { left - 1 }
    }

    fn beats(&mut self, count: u64, cells: &mut Spad, _memory: &mut MainMem) {
        let Some(work) = self.queue.front() else {
            return;
        };
        let Some(current) = &mut self.current else {
            return;
        };
        // A place in the cells is a number of 32 bits.
        let _ = cells.len();
        beats(self.lanes, work, current, count, cells);
    }
}
