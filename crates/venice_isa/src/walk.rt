//! Ways through the elements of a region, group by group and row by row.
ghost use Rattle.std.specs.Prelude.{◌≡◌, ◌+◌, ◌*◌, ◌<◌, ◌^◌};

use crate::region::Region;

/// A way through a region in groups of elements, row by row: the places at which the current row and its next group
/// begin, and how many bytes lie between two rows (`step`) and between two groups. It goes on by sums alone ("Beats" of
/// docs/MACHINE.md).
#[derive(Clone, Copy, Debug)]
pub struct Walk {
    pub row_place: u64,
    pub next_place: u64,
    pub step: u32,
    pub group_bytes: u32,
}

impl Walk {
    ghost use Rattle.venice_isa.specs.Walk.{IsWalk};

    /// The way from the region's first element on, in groups of so many elements. A group has less
    /// than 2^32 bytes.
    pub fn begin(region: Region, group_items: u32) -> Walk
        requires { group_items * region.size < 2 ^ 32 }
        ensures { IsWalk region group_items 0 0 result }
    {
        Walk {
            row_place: u64::from(region.place),
            next_place: u64::from(region.place),
            step: region.step,
            group_bytes: group_items * region.size,
        }
    }

    /// Goes on by a whole group. Condition: `next_place` is below 2^63.
    pub fn go_on(&mut self)
        requires { self.old.next_place < 2 ^ 63 }
        ensures { self.new ≡ record self.old { next_place = self.old.next_place + self.old.group_bytes } }
    {
        self.next_place += u64::from(self.group_bytes);
    }

    /// Goes on to the beginning of the next row. Condition: `row_place` is below 2^32.
    pub fn next_row(&mut self)
        requires { self.old.row_place < 2 ^ 32 }
        ensures { self.new ≡ record self.old {
          row_place = self.old.row_place + self.old.step;
          next_place = self.old.row_place + self.old.step;
        } }
    {
        self.row_place += u64::from(self.step);
        self.next_place = self.row_place;
    }
}
