//! The real files.

ghost use Rattle.std.specs.Prelude.{◌≡◌, ◌≤◌, ◌+◌, IfOk, IsErrOf, length};
ghost use Rattle.ven_io.specs.Files.{Loads, Saves, OnlyLoads, OnlySaves};
ghost use Rattle.ven_io.specs.Host.{files_state, host_behaviour};

use crate::pieces::{read_first, write_whole};
use crate::{Files, LoadFault, OutFault};
use std::alloc::Global;
use std::marker::Model;
use std::{fs, rt};

/// The real files. Nothing is known of what they hold, and each load or save in which an open, a read, a write or a
/// flush fails, or a write takes nothing of what is left, is counted once.
#[derive(Drop)]
pub struct HostFiles<R> {
    files: R,
    failed_loads: u64,
    failed_saves: u64,
}

impl<R> Model for HostFiles<R> {
    ghost use Rattle.ven_io.specs.Host.{HostFilesState};

    ghost Value = { HostFilesState };

    ghost view = { λ s. record { failed_loads = s.failed_loads; failed_saves = s.failed_saves } };
}

impl<R: rt::Files> HostFiles<R> {
    /// The files of the runtime that `main` is handed. Its counts are 0.
    pub fn new(files: R) -> HostFiles<R>
        ensures { result ≡ record { failed_loads = 0; failed_saves = 0 } }
    {
        HostFiles {
            files,
            failed_loads: 0,
            failed_saves: 0,
        }
    }
}

impl<R: rt::Files> Files for HostFiles<R> {
    ghost Content = { Unit {0} };

    ghost behaviour = { λ _. host_behaviour };

    ghost state = { files_state };

    /// It never answers Missing: a file that isn't there is a read that failed.
    fn load(&mut self, alloc: Global, name: &str, most: u64) -> Result<Vec<u8>, LoadFault>
        ensures loaded { Loads host_behaviour name.now most result }
        ensures only { OnlyLoads (files_state self.old) (files_state self.new) (IsErrOf result LoadFault.Failed) }
        ensures short { IfOk result (λ bytes. length bytes.items ≤ most + 1) }
        ensures found { IsErrOf result LoadFault.Missing → ⊥ }
    {
        let limit = (most as usize).saturating_add(1);
        let loaded = match fs::open(&self.files, name) {
            Ok(mut file) => read_first(&mut file, alloc, limit),
            Err(_) => Err(LoadFault::Failed),
        };
        if let Err(LoadFault::Failed) = loaded {
            self.failed_loads = self.failed_loads.saturating_add(1);
        }
        loaded
    }

    /// It never answers Memory.
    fn save(&mut self, name: &str, bytes: &[u8]) -> Result<(), OutFault>
        ensures saved { Saves host_behaviour host_behaviour name.now bytes.now result }
        ensures memory { IsErrOf result OutFault.Memory → ⊥ }
        ensures only { OnlySaves (files_state self.old) (files_state self.new) (IsErrOf result OutFault.Failed) }
    {
        let saved = match fs::create(&self.files, name) {
            Ok(mut file) => write_whole(&mut file, bytes),
            Err(_) => Err(OutFault::Failed),
        };
        if saved.is_err() {
            self.failed_saves = self.failed_saves.saturating_add(1);
        }
        saved
    }
}
