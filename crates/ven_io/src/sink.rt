//! Where output goes: the trait over it, and why a save or a put is not done.

ghost use Rattle.std.specs.Prelude.{IsErrOf};
ghost use Rattle.ven_io.specs.Faults.{CountsFaults};
ghost use Rattle.ven_io.specs.Sink.{SinkState, Puts};

use thiserror::Error;

/// Why a save or a put wasn't done: a write failed, or memory ran out.
#[derive(Clone, Copy, Debug, Error)]
pub enum OutFault {
    /// A write failed, and is counted; a part may be written.
    #[error("failed")]
    Failed,
    /// Out of memory; nothing was written.
    #[error("memory")]
    Memory,
}

/// Where text and lines go, piece by piece, and how often a put has failed.
/// The count goes up by one in a put that answers Failed, and stays at the greatest u64.
pub trait Sink {
    /// Which pieces it may have taken so far, whether a put may fail, and its faults.
    ghost state: { Self → SinkState };

    /// Takes all the bytes, as one piece. Failed only where a put may fail, and then it is counted, and a prefix of the
    /// bytes was taken. After Memory nothing of them was taken.
    fn put(&mut self, bytes: &[u8]) -> Result<(), OutFault>
        ensures put { Puts (state self.old) (state self.new) bytes.now result }
        ensures counted { CountsFaults (state self.old).failed_puts (state self.new).failed_puts
            (IsErrOf result OutFault.Failed) };
}
