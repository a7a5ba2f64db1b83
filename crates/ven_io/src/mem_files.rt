//! Files in memory.

ghost use Rattle.std.specs.Prelude.{◌≡◌, ◌+◌, ◌↔◌, [], take, None, IsSome, IfOk, OnOk, OnErr, IsErrOf};
ghost use Rattle.std.specs.Option.{option_map};
ghost use Rattle.std.specs.FinMap.{empty, get, insert};
ghost use Rattle.ven_io.specs.Files.{Loads, Saves, OnlyLoads, OnlySaves};
ghost use Rattle.ven_io.specs.MemFiles.{MemContent, behaviour_of, files_state, OtherFilesStay};
ghost use Rattle.ven_io.specs.Numbers.{FailsNext, CountsCall};

use crate::{Files, LoadFault, OutFault};
use std::alloc::{AllocError, Global};
use std::collections::BTreeMap;
use std::marker::Model;

/// Files in memory, for tests. They tell what they hold, and fail where a list of numbers says so.
/// Loads and saves are numbered together from 1 to the greatest u64, where the number stays.
#[derive(Drop)]
pub struct MemFiles {
    alloc: Global,
    files: BTreeMap<String, Vec<u8>>,
    fails: Vec<u64>,
    calls: u64,
    failed_loads: u64,
    failed_saves: u64,
}

impl Model for MemFiles {
    ghost use Rattle.ven_io.specs.MemFiles.{MemFilesState, mem_files_code, contents_of};

    ghost Value = { MemFilesState };

    ghost coded = { mem_files_code };

    ghost view = { λ s. record {
      holds = contents_of s.files;
      numbers = record { fails = s.fails.items; last = s.calls };
      failed_loads = s.failed_loads;
      failed_saves = s.failed_saves;
    } };
}

impl MemFiles {
    /// No files. The calls whose numbers are in `fails` fail, except a load that is Missing.
    pub fn new(alloc: Global, fails: Vec<u64>) -> MemFiles
        ensures { result ≡ record {
          holds = empty;
          numbers = record { fails = fails.items; last = 0 };
          failed_loads = 0;
          failed_saves = 0;
        } }
    {
        MemFiles {
            alloc,
            files: BTreeMap::new(alloc),
            fails,
            calls: 0,
            failed_loads: 0,
            failed_saves: 0,
        }
    }

    /// Sets a file's bytes. It is no call that is numbered. Err, with nothing changed, is want of memory.
    pub fn add(&mut self, name: &str, bytes: Vec<u8>) -> Result<(), AllocError>
        ensures ok { OnOk result (self.new ≡ record self.old { holds = insert self.old.holds name.now bytes.items }) }
        ensures err { OnErr result (self.new ≡ self.old) }
    {
        let name = String::from_str(self.alloc, name)?;
        self.files.insert(name, bytes)?;
        Ok(())
    }

    /// A file's bytes. None exactly where there is no file of that name.
    pub fn get(&self, name: &str) -> Option<&[u8]>
        ensures { option_map (λ bytes. bytes.now) result ≡ get self.now.holds name.now }
    {
        match self.files.get(name) {
            Some(bytes) => Some(bytes),
            None => None,
        }
    }
}

/// The first `most + 1` bytes, or all where there are fewer.
fn first_bytes(alloc: Global, bytes: &[u8], most: u64) -> Result<Vec<u8>, AllocError>
    ensures { IfOk result (λ first. first.items ≡ take (most + 1) bytes.now) }
{
    if most < bytes.len() as u64 {
        bytes[..most as usize + 1].to_vec(alloc)
    } else {
        bytes.to_vec(alloc)
    }
}

impl Files for MemFiles {
    ghost Content = { MemContent };

    ghost behaviour = { behaviour_of };

    ghost state = { files_state };

    /// Failed exactly where a file has that name and this call's number is one of those that fail.
    fn load(&mut self, alloc: Global, name: &str, most: u64) -> Result<Vec<u8>, LoadFault>
        ensures loaded { Loads (behaviour_of (files_state self.old).content) name.now most result }
        ensures only { OnlyLoads (files_state self.old) (files_state self.new) (IsErrOf result LoadFault.Failed) }
        ensures missing { IsErrOf result LoadFault.Missing ↔ (get self.old.holds name.now ≡ None) }
        ensures fails { IsErrOf result LoadFault.Failed
            ↔ (IsSome (get self.old.holds name.now) × FailsNext self.old.numbers) }
        ensures call { CountsCall self.old.numbers self.new.numbers self.old.failed_loads self.new.failed_loads
            (IsErrOf result LoadFault.Failed) }
    {
        self.calls = self.calls.saturating_add(1);
        let Some(bytes) = self.get(name) else {
            return Err(LoadFault::Missing);
        };
        if self.fails.contains(&self.calls) {
            self.failed_loads = self.failed_loads.saturating_add(1);
            return Err(LoadFault::Failed);
        }
        first_bytes(alloc, bytes, most).map_err(|_| LoadFault::Memory)
    }

    /// Failed only where this call's number is one of those that fail, and then that file is empty.
    fn save(&mut self, name: &str, bytes: &[u8]) -> Result<(), OutFault>
        ensures saved { Saves (behaviour_of (files_state self.old).content)
            (behaviour_of (files_state self.new).content)
            name.now bytes.now result }
        ensures memory { IsErrOf result OutFault.Memory
            → (files_state self.new).content ≡ (files_state self.old).content }
        ensures only { OnlySaves (files_state self.old) (files_state self.new) (IsErrOf result OutFault.Failed) }
        ensures set { OnOk result (self.new.holds ≡ insert self.old.holds name.now bytes.now) }
        ensures emptied { IsErrOf result OutFault.Failed → self.new.holds ≡ insert self.old.holds name.now [] }
        ensures fails { IsErrOf result OutFault.Failed → FailsNext self.old.numbers }
        ensures passes { OnOk result (¬ FailsNext self.old.numbers) }
        ensures call { CountsCall self.old.numbers self.new.numbers self.old.failed_saves self.new.failed_saves
            (IsErrOf result OutFault.Failed) }
    {
        self.calls = self.calls.saturating_add(1);
        let fails = self.fails.contains(&self.calls);
        let content = if fails { &[] } else { bytes };
        let content = content.to_vec(self.alloc).map_err(|_| OutFault::Memory)?;
        self.add(name, content).map_err(|_| OutFault::Memory)?;
        if fails {
            self.failed_saves = self.failed_saves.saturating_add(1);
            return Err(OutFault::Failed);
        }
        Ok(())
    }
}
