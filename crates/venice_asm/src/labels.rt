//! The labels of a text, each with the number of the instruction that it stands for.

ghost use Rattle.std.specs.Prelude.{◌≡◌, ◌++◌, ◌∷◌, [], None, MatchResult};
ghost use Rattle.venice_asm.specs.Meaning.{number_among};
ghost use Rattle.venice_asm.specs.Memory.{IsMemory};

use crate::fault::AsmFault;
use crate::label::Label;
use indexmap::IndexMap;

/// The number that a label stands for.
pub fn number_among(labels: &IndexMap<Label, u32>, name: &Label) -> Option<u32>
    ensures { result ≡ number_among labels.now.entries name.now }
{
    match labels.get(name) {
        Some(number) => Some(*number),
        None => None,
    }
}

/// Adds a label that isn't there yet.
pub fn add_label(
    labels: &mut IndexMap<Label, u32>,
    name: Label,
    number: u32,
) -> Result<(), AsmFault>
    requires { number_among labels.old.entries name ≡ None }
    ensures { MatchResult result (λ _. labels.new.entries ≡ labels.old.entries ++ (name, number) ∷ []) IsMemory }
{
    match labels.insert(name, number) {
        Ok(_replaced) => Ok(()),
        Err(_refused) => Err(AsmFault::Memory),
    }
}
