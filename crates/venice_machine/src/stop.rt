//! How cycles and runs end.

use array_file::FitFault;
use thiserror::Error;

/// Why a run stops before `halt` (docs/MACHINE.md, "Stops"). `pc` is the host's place in the code then, and `cycle` the
/// number of cycles counted so far.
#[derive(Clone, Copy, Debug, Error)]
pub enum Stop {
    /// The work that is to be issued conflicts with one in flight that isn't sure to be done before it.
    #[error("hazard pc {pc} cycle {cycle}")]
    Hazard { pc: u32, cycle: u64 },
    /// A byte that it reads or writes lies outside cells or memory.
    #[error("out of range pc {pc}")]
    OutOfRange { pc: u32 },
    /// One of its two counts is 0.
    #[error("bad count pc {pc}")]
    BadCount { pc: u32 },
    /// So many steps were made without `halt`, and no more may be.
    #[error("budget {steps}")]
    Budget { steps: u64 },
}

/// How a run has ended.
#[derive(Clone, Copy)]
pub enum End {
    /// At `halt`.
    Halted,
    /// Before, for this reason.
    Stopped(Stop),
}

/// What a cycle was. `units` has the bits of those that stepped in it: 0 the host, 1 the lanes, 2 the read channel and
/// 3 the write channel; and 4 or 5 where a channel went on with its second work.
#[derive(Clone, Copy)]
pub enum Cycle {
    /// The run goes on.
    Went { units: u8 },
    /// The run has ended at `halt`, in this cycle or before.
    Halted,
    /// The run has been stopped, in this cycle or before.
    Stopped { stop: Stop, units: u8 },
}

/// How many steps and cycles were made since the machine was.
#[derive(Clone, Copy)]
pub struct Counts {
    pub steps: u64,
    pub cycles: u64,
}

/// Why there is no machine.
#[derive(Clone, Copy)]
pub enum MakeFault {
    /// The image wants a scratchpad of more bytes.
    SpadTooSmall { need: u32, have: u32 },
    /// The inputs don't fit the image's table.
    Fit(FitFault),
    /// Memory ran out.
    Memory,
}
