//! What the commands load.

ghost use Rattle.std.specs.Prelude.{◌≡◌, ◌≤◌, length, IfOk, IsErrOf};
ghost use Rattle.std.specs.Option.{option_map};
ghost use Rattle.ven_io.specs.Files.{OnlyLoads};
ghost use Rattle.venice_run.specs.Reading.{text_under, loads, limit_of};
ghost use Rattle.venice_run.specs.Stage.{as_stage};

use crate::ending::{Ending, Fault};
use crate::refusal::{Kind, Refusal};
use image_loader::FILE_LIMIT;
use std::alloc::Global;
use ven_io::{Files, LoadFault};

/// The greatest length of a program's text, in bytes. Every other text may be as long as an image.
const PROGRAM_LIMIT: u32 = 65_536;

impl Kind {
    /// The greatest length of such a text, in bytes.
    fn limit(self) -> u32
        ensures { result ≡ limit_of self }
    {
        match self {
            Kind::Program => PROGRAM_LIMIT,
            _ => FILE_LIMIT,
        }
    }
}

/// The whole text under the name, or `None` where it has more bytes than the limit. Its bytes aren't looked at.
#[tactic(auto, unfolding(crate::specs::Reading::text_under))]
pub(crate) fn load_text<F: Files>(
    alloc: Global,
    files: &mut F,
    name: &str,
    limit: u32,
) -> Result<Option<Vec<u8>>, Ending>
    ensures read { text_under (F.behaviour (F.state files.old).content) name.now limit
        (as_stage (option_map (λ text. text.items)) result) }
    ensures only { OnlyLoads (F.state files.old) (F.state files.new) (IsErrOf result (Ending.Failed Fault.File)) }
{
    match files.load(alloc, name, u64::from(limit)) {
        Ok(text) if text.len() > limit as usize => Ok(None),
        Ok(text) => Ok(Some(text)),
        Err(LoadFault::Missing) => Err(Ending::Refused(Refusal::FileMissing)),
        Err(LoadFault::Failed) => Err(Ending::Failed(Fault::File)),
        Err(LoadFault::Memory) => Err(Ending::Failed(Fault::Memory)),
    }
}

/// The whole text of the kind under the name: `TooLong` where it is longer than its kind may be.
pub(crate) fn load_within<F: Files>(
    alloc: Global,
    files: &mut F,
    name: &str,
    kind: Kind,
) -> Result<Vec<u8>, Ending>
    ensures read { loads (F.behaviour (F.state files.old).content) name.now kind
        (as_stage (λ text. text.items) result) }
    ensures only { OnlyLoads (F.state files.old) (F.state files.new) (IsErrOf result (Ending.Failed Fault.File)) }
    ensures short { IfOk result (λ text. length text.items ≤ limit_of kind) }
{
    match load_text(alloc, files, name, kind.limit())? {
        Some(text) => Ok(text),
        None => Err(Ending::Refused(Refusal::TooLong(kind))),
    }
}
