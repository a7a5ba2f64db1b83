//! Several beats of a transfer at once.
ghost use Rattle.std.specs.Prelude.{◌≡◌, ◌+◌, ◌<◌, ◌≤◌};
ghost use Rattle.ven_base.specs.Store.{store_of, store_size};
ghost use Rattle.ven_base.specs.Job.{beats_on};
ghost use Rattle.venice_isa.specs.Footprint.{HasFootprint};
ghost use Rattle.venice_isa.specs.Beat.{transfer_beats};
ghost use Rattle.dma_engine.specs.Direction.{issue_of, channel_course};

use crate::current::Current;
use crate::direction::{Directed, move_block};
use spad_store::{MainMem, Spad};
use venice_isa::DmaWork;

impl Current {
    ghost use Rattle.dma_engine.specs.Current.{IsUnderWay, job_of, done_of};
    ghost use Rattle.dma_engine.specs.Rows.{row_left_of, bytes_of_beats, IsOn};

    /// How many beats are done.
    fn done(&self) -> u64
        ensures { result ≡ done_of self.now }
    {
        let column_beats = self.column / DmaWork::GROUP_BYTES;
        u64::from(self.row) * u64::from(self.work.row_beats()) + u64::from(column_beats)
    }

    /// How many beats are left but the last.
    pub(crate) fn spare(&self) -> u64
        requires { IsUnderWay self.now }
        ensures { done_of self.now + result < transfer_beats self.now.work }
    {
        self.work.beats() - self.done() - 1
    }

    /// How many beats the current row has left: one at least.
    fn row_left(&self) -> u32
        requires { IsUnderWay self.now }
        ensures value { result ≡ row_left_of self.now }
    {
        (self.work.bytes - self.column - 1) / DmaWork::GROUP_BYTES + 1
    }

    /// How many bytes so many beats of the current row move.
    fn bytes_of(&self, count: u32) -> u32
        requires under_way { IsUnderWay self.now }
        requires in_row { count ≤ row_left_of self.now }
        ensures { result ≡ bytes_of_beats count self.now }
    {
        let rest = self.work.bytes - self.column;
        if count < self.row_left() {
            count * DmaWork::GROUP_BYTES
        } else {
            rest
        }
    }

    /// Goes on past so many beats of the current row, which aren't the transfer's last.
    fn go_on(&mut self, count: u32)
        requires under_way { IsUnderWay self.old }
        requires in_row { count ≤ row_left_of self.old }
        requires more { done_of self.old + count < transfer_beats self.old.work }
        ensures { IsOn self.old count self.new }
    {
        if count < self.row_left() {
            self.column += count * DmaWork::GROUP_BYTES;
        } else {
            let row = self.row + 1;
            *self = Current {
                row,
                column: 0,
                ..*self
            };
        }
    }

    /// Does so many beats of the current row by one move, none of them the transfer's last.
    fn beats_in_row<D: Directed>(&mut self, count: u32, cells: &mut Spad, memory: &mut MainMem)
        requires under_way { IsUnderWay self.old }
        requires inside { HasFootprint (store_size (store_of cells.old memory.old))
            (issue_of D.DIRECTION self.old.work) }
        requires in_row { count ≤ row_left_of self.old }
        requires more { done_of self.old + count < transfer_beats self.old.work }
        ensures store { store_of cells.new memory.new
            ≡ beats_on (channel_course D.DIRECTION) count (job_of self.old) (store_of cells.old memory.old) }
        ensures same_size { store_size (store_of cells.new memory.new) ≡ store_size (store_of cells.old memory.old) }
        ensures on { IsOn self.old count self.new }
    {
        // Places in the stores are numbers of 32 bits.
        let _sizes = (cells.len(), memory.len());
        move_block(
            D::DIRECTION,
            cells,
            memory,
            self.cell(),
            self.place(),
            self.bytes_of(count),
        );
        self.go_on(count);
    }

    /// Does so many beats, row by row, none of them the transfer's last.
    pub(crate) fn beats<D: Directed>(&mut self, count: u64, cells: &mut Spad, memory: &mut MainMem)
        requires under_way { IsUnderWay self.old }
        requires inside { HasFootprint (store_size (store_of cells.old memory.old))
            (issue_of D.DIRECTION self.old.work) }
        requires more { done_of self.old + count < transfer_beats self.old.work }
        ensures store { store_of cells.new memory.new
            ≡ beats_on (channel_course D.DIRECTION) count (job_of self.old) (store_of cells.old memory.old) }
        ensures on { IsOn self.old count self.new }
    {
        let mut left = count;
        while left > 0 {
            let here = left.min(u64::from(self.row_left()));
            self.beats_in_row::<D>(here as u32, cells, memory);
            left -= here;
        }
    }
}
