//! What the host issues: work for the units, and waits for them.

use crate::work::{DmaWork, VecWork};

/// One place of an issue list (docs/MACHINE.md, "Issues").
#[derive(Clone, Copy, Debug, PartialEq, Eq)]
pub enum Issue {
    /// A work for the lanes.
    Vector(VecWork),
    /// A work for the read channel, which copies bytes of memory to cells and clears their flags.
    Read(DmaWork),
    /// A work for the write channel, which copies the bytes of cells to memory.
    Write(DmaWork),
    /// Waits until at most so many works of the read channel are unfinished.
    RWait(u32),
    /// Waits until at most so many works of the write channel are unfinished.
    WWait(u32),
    /// Waits until no vector instruction is unfinished.
    VWait,
    /// Waits until no unfinished work of either channel has this tag.
    TWait(u32),
}

impl Issue {
    ghost use Rattle.std.specs.Prelude.{◌↔◌, IsTrue};
    ghost use Rattle.venice_isa.specs.Footprint.{HasFootprint};

    /// Whether every byte that the issue reads or writes lies in `cells` cells and `memory` bytes of memory
    /// (docs/MACHINE.md, "Footprints"). A wait touches none, and so is in range. Constant time.
    pub fn is_in_range(&self, cells: u32, memory: u32) -> bool
        ensures { IsTrue result ↔ HasFootprint (record { cells = cells; memory = memory }) self.now }
    {
        match self {
            Issue::Vector(work) => work.is_in_range(cells),
            Issue::Read(work) | Issue::Write(work) => work.is_in_range(cells, memory),
            Issue::RWait(_) | Issue::WWait(_) | Issue::VWait | Issue::TWait(_) => true,
        }
    }
}
