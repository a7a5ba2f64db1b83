//! Vector instructions and transfers with their parameters.

use crate::kind::VecKind;
use crate::region::Region;

/// A vector instruction with its parameters (docs/MACHINE.md, "Vector instructions"). `vl` counts the elements of a
/// row, and `rows` the rows. `dst`, `a` and `b` are cells, in which row 0 begins; a scalar's number stands in `a` or
/// `b` itself. The steps count cells from one row's beginning to the next. Any numbers may stand here: a unit takes no
/// work with a count of 0, and `is_in_range` says whether the cells suffice.
#[derive(Clone, Copy, Debug, PartialEq, Eq)]
pub struct VecWork {
    pub kind: VecKind,
    pub vl: u32,
    pub rows: u32,
    pub dst: u32,
    pub a: u32,
    pub b: u32,
    pub dst_step: u32,
    pub a_step: u32,
    pub b_step: u32,
}

/// A transfer between memory and cells (docs/MACHINE.md, "Transfers"). `mem` is a place in memory and `spad` a cell, at
/// which row 0 begins; each of the `rows` rows has `bytes` bytes, and the steps count bytes from one row's beginning to
/// the next on either side. The tag is what a `TWait` may name; it has no say in what the transfer does. Any numbers
/// may stand here, as in a `VecWork`.
#[derive(Clone, Copy, Debug, PartialEq, Eq)]
pub struct DmaWork {
    pub mem: u32,
    pub spad: u32,
    pub rows: u32,
    pub bytes: u32,
    pub mem_step: u32,
    pub spad_step: u32,
    pub tag: u32,
}

impl VecWork {
    ghost use Rattle.std.specs.Prelude.{◌≡◌, ◌<◌, ◌≤◌, ◌↔◌, IsTrue, IsFalse};
    ghost use Rattle.venice_isa.specs.Mode.{uses_b};
    ghost use Rattle.ven_base.specs.Store.{cells_alone};
    ghost use Rattle.venice_isa.specs.declared.issue.Issue.TheVariants.{Vector};
    ghost use Rattle.venice_isa.specs.Region.{LiesBelow};
    ghost use Rattle.venice_isa.specs.Footprint.{source_a, source_b, destination, written_in_row, HasFootprint};
    ghost use Rattle.venice_isa.specs.Beat.{beats_of_row, lane_group_items, vector_beats};

    /// How many elements of a row are written: all `vl`, or with accumulate one, of an empty row none.
    pub fn written_in_row(&self) -> u32
        ensures { result ≡ written_in_row self.now }
    {
        if self.kind.acc {
            self.vl.min(1)
        } else {
            self.vl
        }
    }

    /// Where A's elements stand in cells, where A is no scalar; else a region of no meaning.
    pub fn source_a(&self) -> Region
        ensures { result ≡ source_a self.now }
    {
        Region {
            place: self.a,
            step: self.a_step,
            size: self.kind.from.size(),
            rows: self.rows,
            columns: self.vl,
        }
    }

    /// Where B's elements stand in cells, where B is used and is no scalar; else a region of no meaning.
    pub fn source_b(&self) -> Region
        ensures { result ≡ source_b self.now }
    {
        Region {
            place: self.b,
            step: self.b_step,
            size: self.kind.elem.size(),
            rows: self.rows,
            columns: self.vl,
        }
    }

    /// Where the results go in cells.
    pub fn destination(&self) -> Region
        ensures { result ≡ destination self.now }
    {
        Region {
            place: self.dst,
            step: self.dst_step,
            size: self.kind.elem.size(),
            rows: self.rows,
            columns: self.written_in_row(),
        }
    }

    /// Whether A's cells, where A is no scalar, lie below `cells`.
    fn has_a_below(&self, cells: u32) -> bool
        ensures { IsTrue result ↔ (IsFalse self.now.kind.a_scalar → LiesBelow (source_a self.now) cells) }
    {
        self.kind.a_scalar || self.source_a().lies_below(cells)
    }

    /// Whether B's elements stand in cells: whether B is used and is no scalar.
    pub(crate) fn has_b_in_cells(&self) -> bool
        ensures { IsTrue result ↔ (IsTrue (uses_b self.now.kind.op) × IsFalse self.now.kind.b_scalar) }
    {
        self.kind.op.uses_b() && !self.kind.b_scalar
    }

    /// Whether B's cells, where B is used and is no scalar, lie below `cells`.
    fn has_b_below(&self, cells: u32) -> bool
        ensures { IsTrue result ↔
            (IsTrue (uses_b self.now.kind.op) → IsFalse self.now.kind.b_scalar → LiesBelow (source_b self.now) cells) }
    {
        !self.has_b_in_cells() || self.source_b().lies_below(cells)
    }

    /// Whether the cells of both sources lie below `cells`.
    fn has_sources_below(&self, cells: u32) -> bool
        ensures { IsTrue result
            ↔ (IsFalse self.now.kind.a_scalar → LiesBelow (source_a self.now) cells)
            × (IsTrue (uses_b self.now.kind.op) → IsFalse self.now.kind.b_scalar
            → LiesBelow (source_b self.now) cells) }
    {
        self.has_a_below(cells) && self.has_b_below(cells)
    }

    /// Whether every cell that the instruction reads or writes is one of `cells` cells (docs/MACHINE.md, "Footprints").
    /// An instruction with a count of 0 touches none, and so is in range. It touches no memory. Constant time.
    pub fn is_in_range(&self, cells: u32) -> bool
        ensures { IsTrue result ↔ HasFootprint (cells_alone cells) (Vector self.now) }
    {
        self.has_sources_below(cells) && self.destination().lies_below(cells)
    }

    /// How many beats of so many lanes, 1 to 4, a row takes.
    pub fn row_beats(&self, lanes: u32) -> u32
        requires some_lanes { 0 < lanes }
        requires few_lanes { lanes ≤ 4 }
        ensures { result ≡ beats_of_row self.now.vl (lane_group_items self.now.kind lanes) }
    {
        self.vl.div_ceil(self.kind.group_items(lanes))
    }

    /// How many beats of so many lanes, 1 to 4, the instruction takes (docs/MACHINE.md, "Beats").
    pub fn beats(&self, lanes: u32) -> u64
        requires some_lanes { 0 < lanes }
        requires few_lanes { lanes ≤ 4 }
        ensures { result ≡ vector_beats self.now lanes }
    {
        u64::from(self.rows) * u64::from(self.row_beats(lanes))
    }
}

impl DmaWork {
    ghost use Rattle.std.specs.Prelude.{◌≡◌, ◌↔◌, IsTrue};
    ghost use Rattle.venice_isa.specs.declared.issue.Issue.TheVariants.{Read, Write};
    ghost use Rattle.venice_isa.specs.Footprint.{cells_of, memory_of, HasFootprint};
    ghost use Rattle.venice_isa.specs.Beat.{beats_of_row, channel_group_bytes, transfer_beats};

    /// How many bytes a beat of a channel moves at the most.
    pub const GROUP_BYTES: u32 = 16;

    /// The transfer's bytes in cells.
    pub fn cells(&self) -> Region
        ensures { result ≡ cells_of self.now }
    {
        Region {
            place: self.spad,
            step: self.spad_step,
            size: 1,
            rows: self.rows,
            columns: self.bytes,
        }
    }

    /// The transfer's bytes in memory.
    pub fn memory(&self) -> Region
        ensures { result ≡ memory_of self.now }
    {
        Region {
            place: self.mem,
            step: self.mem_step,
            size: 1,
            rows: self.rows,
            columns: self.bytes,
        }
    }

    /// Whether every byte of the transfer, whichever way it goes, lies in `cells` cells on the one side and in `memory`
    /// bytes of memory on the other (docs/MACHINE.md, "Footprints"). A transfer with a count of 0 has no bytes, and so
    /// is in range. Constant time.
    pub fn is_in_range(&self, cells: u32, memory: u32) -> bool
        ensures read { IsTrue result ↔ HasFootprint (record { cells = cells; memory = memory }) (Read self.now) }
        ensures write { IsTrue result ↔ HasFootprint (record { cells = cells; memory = memory }) (Write self.now) }
    {
        self.cells().lies_below(cells) && self.memory().lies_below(memory)
    }

    /// How many beats of a channel a row takes, 16 bytes in each but the last.
    pub fn row_beats(&self) -> u32
        ensures { result ≡ beats_of_row self.now.bytes channel_group_bytes }
    {
        self.bytes.div_ceil(Self::GROUP_BYTES)
    }

    /// How many beats of a channel the transfer takes (docs/MACHINE.md, "Transfers").
    pub fn beats(&self) -> u64
        ensures { result ≡ transfer_beats self.now }
    {
        u64::from(self.rows) * u64::from(self.row_beats())
    }
}
