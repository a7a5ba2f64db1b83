//! The law of the channels, as a function without arguments whose contract is the law (docs/MACHINE.md, "Transfers").

ghost use Rattle.dma_engine.specs.Transfers.{BeatsAreTheCopy};

/// The beats of a transfer in range, on either channel and from its first beat on, are together its copy.
pub fn beats_are_the_copy()
    ensures { BeatsAreTheCopy }
{}
