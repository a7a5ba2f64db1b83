//! A sink in memory.

ghost use Rattle.std.specs.Prelude.{◌≡◌, ◌/◌, ◌++◌, [], take, length, OnOk, IsErrOf};
ghost use Rattle.ven_io.specs.Sink.{Puts};
ghost use Rattle.ven_io.specs.MemSink.{sink_state};
ghost use Rattle.ven_io.specs.Numbers.{FailsNext, CountsCall};

use crate::{OutFault, Sink};
use std::alloc::Global;
use std::marker::Model;

/// A sink in memory, for tests. It tells what it has taken, and fails where a list of numbers says so.
/// Its puts are numbered from 1 to the greatest u64, where the number stays.
#[derive(Drop)]
pub struct MemSink {
    bytes: Vec<u8>,
    fails: Vec<u64>,
    puts: u64,
    failed_puts: u64,
}

impl Model for MemSink {
    ghost use Rattle.ven_io.specs.MemSink.{MemSinkState};

    ghost Value = { MemSinkState };

    ghost view = { λ s. record {
      bytes = s.bytes.items;
      numbers = record { fails = s.fails.items; last = s.puts };
      failed_puts = s.failed_puts;
    } };
}

impl MemSink {
    /// Nothing taken. The puts whose numbers are in `fails` fail.
    pub fn new(alloc: Global, fails: Vec<u64>) -> MemSink
        ensures { result ≡ record { bytes = []; numbers = record { fails = fails.items; last = 0 }; failed_puts = 0 } }
    {
        MemSink {
            bytes: Vec::new(alloc),
            fails,
            puts: 0,
            failed_puts: 0,
        }
    }

    /// All the bytes that it has taken.
    pub fn taken(&self) -> &[u8]
        ensures { result.now ≡ self.now.bytes }
    {
        &self.bytes
    }
}

impl Sink for MemSink {
    ghost state = { sink_state };

    /// Failed only where this put's number is one of those that fail; then the first half of the bytes,
    /// rounded down, was taken.
    fn put(&mut self, bytes: &[u8]) -> Result<(), OutFault>
        ensures put { Puts (sink_state self.old) (sink_state self.new) bytes.now result }
        ensures whole { OnOk result (self.new.bytes ≡ self.old.bytes ++ bytes.now) }
        ensures half { IsErrOf result OutFault.Failed
            → self.new.bytes ≡ self.old.bytes ++ take (length bytes.now / 2) bytes.now }
        ensures memory { IsErrOf result OutFault.Memory → self.new.bytes ≡ self.old.bytes }
        ensures fails { IsErrOf result OutFault.Failed → FailsNext self.old.numbers }
        ensures passes { OnOk result (¬ FailsNext self.old.numbers) }
        ensures call { CountsCall self.old.numbers self.new.numbers self.old.failed_puts self.new.failed_puts
            (IsErrOf result OutFault.Failed) }
    {
        self.puts = self.puts.saturating_add(1);
        let fails = self.fails.contains(&self.puts);
        let piece = if fails {
            &bytes[..bytes.len() / 2]
        } else {
            bytes
        };
        self.bytes
            .extend_from_slice(piece)
            .map_err(|_| OutFault::Memory)?;
        if fails {
            self.failed_puts = self.failed_puts.saturating_add(1);
            return Err(OutFault::Failed);
        }
        Ok(())
    }
}
