//! What holds of the pipelined list (docs/COMPILER.md, "The pipelined list"), as a function without arguments whose
//! contract is the laws.
ghost use Rattle.dma_schedule.specs.Laws.{ListsArePipelined, ListsAreDisciplined, ListsKeepInside, ListsAreShort, ListsLeaveArrays};

/// The list of a sound split is pipelined. It meets no hazard, also where each channel may overtake its commands. No
/// count in it is 0, and it keeps below the scratchpad and the split's memory. Each tile's instructions are few, and so
/// are their beats. Done one issue after another, for any number of lanes, it leaves every array in memory, whatever
/// stood in cells.
pub fn list_laws()
    ensures pipelined { ListsArePipelined }
    ensures disciplined { ListsAreDisciplined }
    ensures inside { ListsKeepInside }
    ensures short { ListsAreShort }
    ensures arrays { ListsLeaveArrays }
{}
