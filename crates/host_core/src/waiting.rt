//! What the host waits for.
ghost use Rattle.std.specs.Prelude.{◌≡◌};
ghost use Rattle.host_core.specs.Pass.{lets_go_on, may_pass, is_idle};

use venice_isa::{Deed, Issue, TRANSFER_PLACES, VECTOR_PLACES};

/// The numbers of unfinished works: vector instructions, reads, writes, and those transfers of both channels that have
/// the tag which a `twait` at the host's place names, where one stands there (`Host::wanted`), and else 0.
#[derive(Clone, Copy)]
pub struct Waiting {
    pub vector: u32,
    pub read: u32,
    pub write: u32,
    pub tagged: u32,
}

impl Waiting {
    /// Whether an instruction that is this to the rest of the machine may be done now (docs/MACHINE.md, "The host").
    pub fn lets_go_on(&self, deed: &Deed) -> bool
        ensures { result ≡ lets_go_on self.now deed.now }
    {
        match deed {
            Deed::Halts => self.is_idle(),
            Deed::Moves => true,
            Deed::Passes(issue) => self.lets_pass(issue),
        }
    }

    /// Whether nothing is unfinished.
    pub(crate) fn is_idle(&self) -> bool
        ensures { result ≡ is_idle self.now }
    {
        self.vector == 0 && self.read == 0 && self.write == 0
    }

    /// Whether the issue's queue has a place, or the wait's condition holds.
    fn lets_pass(&self, issue: &Issue) -> bool
        ensures { result ≡ may_pass self.now issue.now }
    {
        match issue {
            Issue::Vector(_) => self.vector < VECTOR_PLACES,
            Issue::Read(_) => self.read < TRANSFER_PLACES,
            Issue::Write(_) => self.write < TRANSFER_PLACES,
            Issue::RWait(most) => self.read <= *most,
            Issue::WWait(most) => self.write <= *most,
            Issue::VWait => self.vector == 0,
            Issue::TWait(_) => self.tagged == 0,
        }
    }
}
