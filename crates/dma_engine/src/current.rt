//! How far a transfer has come.
ghost use Rattle.std.specs.Prelude.{◌≡◌, ◌+◌, ◌<◌, ◌≤◌, ◌^◌, [], ◌∷◌, IsTrue, if◌then◌else◌};
ghost use Rattle.ven_base.specs.Store.{store_of, store_size};
ghost use Rattle.ven_base.specs.Job.{new_job, next_store, what_is_left};
ghost use Rattle.venice_isa.specs.Region.{place_in};
ghost use Rattle.venice_isa.specs.Footprint.{HasFootprint, cells_of, memory_of};
ghost use Rattle.venice_isa.specs.Beat.{not_begun};
ghost use Rattle.dma_engine.specs.Direction.{HasBytes, issue_of, channel_course};

use crate::direction::{Directed, move_bytes};
use spad_store::{MainMem, Spad};
use venice_isa::DmaWork;

/// A transfer of the queue, and the byte of it that comes next: byte `column` of row `row`. A beat begins a multiple of
/// 16 bytes into its row, so that this place alone says how many beats are done.
#[derive(Clone, Copy)]
pub(crate) struct Current {
    pub(crate) work: DmaWork,
    pub(crate) row: u32,
    pub(crate) column: u32,
}

impl Current {
    ghost use Rattle.dma_engine.specs.Current.{IsUnderWay, job_of, beat_bytes_of, IsNext, HasAdvanced};

    /// A transfer that has not begun.
    pub(crate) fn begin(work: DmaWork) -> Current
        requires { HasBytes work }
        ensures under_way { IsUnderWay result }
        ensures begins { job_of result ≡ record { work = work; progress = not_begun } }
    {
        Current {
            work,
            row: 0,
            column: 0,
        }
    }

    /// How many bytes the next beat moves: 16, or the row's rest.
    fn beat_bytes(&self) -> u32
        requires { IsUnderWay self.now }
        ensures value { result ≡ beat_bytes_of self.now }
        ensures few { result ≤ 16 }
    {
        DmaWork::GROUP_BYTES.min(self.work.bytes - self.column)
    }

    /// The cell of the next byte.
    pub(crate) fn cell(&self) -> u32
        requires { place_in (cells_of self.now.work) self.now.row self.now.column < 2 ^ 32 }
        ensures { result ≡ place_in (cells_of self.now.work) self.now.row self.now.column }
    {
        self.work.cells().place_of(self.row, self.column) as u32
    }

    /// The place of the next byte in memory.
    pub(crate) fn place(&self) -> u32
        requires { place_in (memory_of self.now.work) self.now.row self.now.column < 2 ^ 32 }
        ensures { result ≡ place_in (memory_of self.now.work) self.now.row self.now.column }
    {
        self.work.memory().place_of(self.row, self.column) as u32
    }

    /// Goes on past a beat. False where that was the last one.
    fn advance(&mut self) -> bool
        requires { IsUnderWay self.old }
        ensures { HasAdvanced self.old result self.new }
    {
        let DmaWork { bytes, rows, .. } = self.work;
        if DmaWork::GROUP_BYTES < bytes - self.column {
            self.column += DmaWork::GROUP_BYTES;
            true
        } else if 1 < rows - self.row {
            self.row += 1;
            self.column = 0;
            true
        } else {
            false
        }
    }

    /// Does the next beat. False where that was the last one.
    pub(crate) fn beat<D: Directed>(&mut self, cells: &mut Spad, memory: &mut MainMem) -> bool
        requires under_way { IsUnderWay self.old }
        requires inside { HasFootprint (store_size (store_of cells.old memory.old))
            (issue_of D.DIRECTION self.old.work) }
        ensures store { store_of cells.new memory.new
            ≡ next_store (channel_course D.DIRECTION) (job_of self.old) (store_of cells.old memory.old) }
        ensures left { (if result then job_of self.new ∷ [] else [])
            ≡ what_is_left (channel_course D.DIRECTION) (job_of self.old) (store_of cells.old memory.old) }
        ensures under_way { IsTrue result → IsUnderWay self.new }
    {
        // Places in the stores are numbers of 32 bits.
        let _sizes = (cells.len(), memory.len());
        move_bytes(
            D::DIRECTION,
            cells,
            memory,
            self.cell(),
            self.place(),
            self.beat_bytes(),
        );
        self.advance()
    }
}
