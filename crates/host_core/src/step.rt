//! What a step of the host is.
ghost use Rattle.std.specs.Prelude.{◌≡◌};
ghost use Rattle.host_core.specs.Step.{step_made, issued};

use venice_isa::{Deed, Issue};

/// What a step of the host is to the rest of the machine (docs/MACHINE.md, "The host").
#[derive(Clone, Copy)]
pub enum Step {
    /// It issues this work, which its queue has a place for.
    Issued(Issue),
    /// It concerns the host alone, or is a wait whose condition holds.
    Moved,
    /// There is no step: the queue of its issue is full, its wait's condition is false, or it would end the run while
    /// work is unfinished.
    Waits,
    /// It ends the run.
    Halted,
}

impl Step {
    /// The step of an instruction that is this to the rest of the machine, where the host may go on.
    pub(crate) fn made_of(deed: Deed) -> Step
        ensures { result ≡ step_made deed }
    {
        match deed {
            Deed::Halts => Step::Halted,
            Deed::Moves => Step::Moved,
            Deed::Passes(issue) => Self::issued(issue),
        }
    }

    fn issued(issue: Issue) -> Step
        ensures { result ≡ issued issue }
    {
        match issue {
            Issue::Vector(_) | Issue::Read(_) | Issue::Write(_) => Step::Issued(issue),
            Issue::RWait(_) | Issue::WWait(_) | Issue::VWait | Issue::TWait(_) => Step::Moved,
        }
    }
}
