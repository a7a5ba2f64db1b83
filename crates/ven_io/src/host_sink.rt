//! The standard output.

ghost use Rattle.std.specs.Prelude.{◌≡◌, IsErrOf};
ghost use Rattle.ven_io.specs.Faults.{CountsFaults};
ghost use Rattle.ven_io.specs.Sink.{Puts};
ghost use Rattle.ven_io.specs.Host.{sink_state};

use crate::pieces::write_whole;
use crate::{OutFault, Sink};
use std::io::{self, Print};
use std::marker::Model;

/// The standard output, written piece by piece with nothing kept back. Nothing is known of what it has taken, and each
/// put in which a write or a flush fails, or a write takes nothing of what is left, is counted once.
#[derive(Drop)]
pub struct HostSink<R> {
    output: R,
    failed_puts: u64,
}

impl<R> Model for HostSink<R> {
    ghost use Rattle.std.specs.Prelude.{ℕ};

    ghost Value = { ℕ };

    ghost view = { λ s. s.failed_puts };
}

impl<R: Print> HostSink<R> {
    /// The standard output of the runtime that `main` is handed. Its count is 0.
    pub fn new(output: R) -> HostSink<R>
        ensures { result ≡ 0 }
    {
        HostSink {
            output,
            failed_puts: 0,
        }
    }
}

impl<R: Print> Sink for HostSink<R> {
    ghost state = { sink_state };

    /// It never answers Memory.
    fn put(&mut self, bytes: &[u8]) -> Result<(), OutFault>
        ensures put { Puts (sink_state self.old) (sink_state self.new) bytes.now result }
        ensures counted { CountsFaults self.old self.new (IsErrOf result OutFault.Failed) }
        ensures no_memory { IsErrOf result OutFault.Memory → ⊥ }
    {
        let put = write_whole(&mut io::writer(&self.output), bytes);
        if put.is_err() {
            self.failed_puts = self.failed_puts.saturating_add(1);
        }
        put
    }
}
