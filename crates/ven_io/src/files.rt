//! Files by name: the trait over them, and why a load gives nothing.

ghost use Rattle.std.specs.Prelude.{◌≡◌, IsErrOf};
ghost use Rattle.ven_io.specs.Files.{Behaviour, FilesState, OnlyLoads, OnlySaves, Loads, Saves};

use crate::OutFault;
use std::alloc::Global;
use thiserror::Error;

/// Why a load gave nothing: the files tell that the name isn't there, a read failed, or memory ran out.
#[derive(Clone, Copy, Debug, Error)]
pub enum LoadFault {
    /// The files tell that they hold no file of that name.
    #[error("missing")]
    Missing,
    /// A read failed, and is counted.
    #[error("failed")]
    Failed,
    /// Out of memory.
    #[error("memory")]
    Memory,
}

/// Files by name, as a program sees them, and how often a load or a save of theirs has failed.
/// A count goes up by one in a call of its kind that answers Failed, and stays at the greatest u64.
///
/// What a load may show and where a call may fail is said by the content, which only a save changes. So a program that
/// is handed any files has bytes of a name, or a fault of it, only from a call with that very name.
pub trait Files {
    /// What the files hold, as far as it is known.
    ghost Content: { Type 0 };

    /// What may come of a load and of a save, by what the files hold.
    ghost behaviour: { Content → Behaviour };

    /// What they hold now, and their faults.
    ghost state: { Self → FilesState Content };

    /// The first `most + 1` bytes of the file, or all where there are fewer. No file is changed.
    /// Missing only where the content says that no file has that name; Failed only where it says that a load of the
    /// name may fail, and then it is counted; Memory where memory ran out.
    fn load(&mut self, alloc: Global, name: &str, most: u64) -> Result<Vec<u8>, LoadFault>
        ensures loaded { Loads (behaviour (state self.old).content) name.now most result }
        ensures only { OnlyLoads (state self.old) (state self.new) (IsErrOf result LoadFault.Failed) };

    /// Sets the file's bytes, and leaves every other file. Failed only where a save of the name may fail, and then it
    /// is counted, that name may have anything, and every other file stays. After Memory no file has changed.
    fn save(&mut self, name: &str, bytes: &[u8]) -> Result<(), OutFault>
        ensures saved { Saves (behaviour (state self.old).content) (behaviour (state self.new).content)
            name.now bytes.now result }
        ensures memory { IsErrOf result OutFault.Memory → (state self.new).content ≡ (state self.old).content }
        ensures only { OnlySaves (state self.old) (state self.new) (IsErrOf result OutFault.Failed) };
}
