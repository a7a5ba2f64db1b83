//! The unit of the transfers of one direction.
ghost use Rattle.std.specs.Prelude.{◌≡◌, [], IfOk};

use crate::current::Current;
use crate::direction::{Directed, Reads, Writes};
use circular_buffer::HeapCircularBuffer;
use spad_store::{MainMem, Overtaking, Spad, Unit};
use std::alloc::{AllocError, Global};
use std::marker::{Model, PhantomData};
use venice_isa::{DmaWork, TRANSFER_PLACES};

/// How many transfers the queue has places for behind the first.
const PLACES_BEHIND: u32 = TRANSFER_PLACES - 1;

/// The channel that copies from memory to cells.
pub type ReadChannel = Channel<Reads>;

/// The channel that copies from cells to memory.
pub type WriteChannel = Channel<Writes>;

/// A channel: a queue of eight transfers in one direction, of which the first or the second is done beat by beat
/// ("Transfers" of docs/MACHINE.md). Contracts see it as the list of its jobs.
#[derive(Drop)]
pub struct Channel<D> {
    first: Option<Current>,
    others: HeapCircularBuffer<Current>,
    direction: PhantomData<D>,
}

impl<D> Model for Channel<D> {
    ghost use Rattle.std.specs.Prelude.{List};
    ghost use Rattle.ven_base.specs.Job.{Job};
    ghost use Rattle.venice_isa.specs.declared.work.DmaWork.{DmaWork as Transfer};
    ghost use Rattle.venice_isa.specs.Beat.{Progress};

    ghost Value = { List (Job Transfer Progress) };

    ghost use Rattle.dma_engine.specs.Channel.{jobs_of, IsChannel};

    ghost view = { λ channel. jobs_of channel.first channel.others.items };

    ghost invariant = { λ channel. IsChannel channel.first channel.others };
}

impl<D> Channel<D> {
    /// A channel with an empty queue. An `Err` says that there is no memory for its places; nothing else takes memory.
    pub fn new(alloc: Global) -> Result<Channel<D>, AllocError>
        ensures { IfOk result (λ channel. channel ≡ []) }
    {
        let others = HeapCircularBuffer::with_capacity(alloc, PLACES_BEHIND as usize)?;
        Ok(Channel {
            first: None,
            others,
            direction: PhantomData,
        })
    }
}

impl<D: Directed> Unit for Channel<D> {
    type Work = DmaWork;

    ghost use Rattle.std.specs.Prelude.{⊤};
    ghost use Rattle.venice_isa.specs.Limits.{transfer_places};
    ghost use Rattle.venice_isa.specs.Footprint.{Reads as ReadPlaces, Writes as WrittenPlaces};
    ghost use Rattle.venice_isa.specs.Beat.{Progress as TransferProgress};
    ghost use Rattle.dma_engine.specs.Direction.{HasBytes, issue_of, channel_course};
    ghost use Rattle.dma_engine.specs.Laws.{transfer_begins, transfer_has_an_end, beat_keeps_to_footprint};

    ghost Progress = { TransferProgress };

    ghost Setting = { ⊤ };

    ghost can_have = { λ _. ⊤ };

    ghost has_counts = { HasBytes };

    ghost reads = { λ work. ReadPlaces (issue_of D.DIRECTION work) };

    ghost writes = { λ work. WrittenPlaces (issue_of D.DIRECTION work) };

    ghost course = { λ _. channel_course D.DIRECTION };

    ghost places = { transfer_places };

    ghost jobs = { λ channel. channel };

    ghost setting = { λ _. tt };

    ghost begins = { λ made work can_have counts. transfer_begins D.DIRECTION work counts };

    ghost has_an_end = { λ work. transfer_has_an_end D.DIRECTION work };

    ghost keeps_to_footprint = { λ made job first second can_have.
        beat_keeps_to_footprint D.DIRECTION job first second };

    fn offer(&mut self, work: DmaWork) -> Result<(), DmaWork> {
        let current = Current::begin(work);
        if self.first.is_none() {
            self.first = Some(current);
            return Ok(());
        }
        match self.others.try_push_back(current) {
            Ok(()) => Ok(()),
            Err(_) => Err(work),
        }
    }

    fn unfinished(&self) -> u32 {
        let behind = self.others.len() as u32;
        if self.first.is_none() { 0 } else { behind + 1 }
    }

    fn work(&self, k: u32) -> &DmaWork {
        match &self.first {
            Some(first) if k == 0 => &first.work,
            _ => &self.others.get(k as usize - 1).unwrap().work,
        }
    }

    fn beat(&mut self, cells: &mut Spad, memory: &mut MainMem) -> bool {
        let Some(first) = &mut self.first else {
            return false;
        };
        if !first.beat::<D>(cells, memory) {
            self.first = self.others.pop_front();
        }
        true
    }

    fn spare(&self) -> u64 {
        match &self.first {
            Some(first) => first.spare(),
            None => u64::MAX,
        }
    }

    fn beats(&mut self, count: u64, cells: &mut Spad, memory: &mut MainMem) {
        let Some(first) = &mut self.first else {
            return;
        };
        first.beats::<D>(count, cells, memory);
    }
}

impl<D: Directed> Overtaking for Channel<D> {
    ghost tag_of = { λ work. work.tag };

    fn beat_second(&mut self, cells: &mut Spad, memory: &mut MainMem) -> bool {
        let Some(second) = self.others.get_mut(0) else {
            return false;
        };
        if !second.beat::<D>(cells, memory) {
            self.others.pop_front();
        }
        true
    }

    fn tagged(&self, tag: u32) -> u32 {
        let behind = self
            .others
            .iter()
            .filter(|current| current.work.tag == tag)
            .count() as u32;
        match &self.first {
            Some(first) if first.work.tag == tag => behind + 1,
            _ => behind,
        }
    }
}
