//! The split of a checked program into passes (docs/COMPILER.md, "Cuts" and "Trees").
//!
//! `split` takes a checked program and gives its passes in order, with the places of all arrays and the table of inputs
//! and outputs: the split that `IsSplitOf` in `specs/Places` says, which is sound. `specs/Cuts` has where a program is
//! cut, and `laws` what holds of every split, first of all that the passes leave the program's meaning.
#![tactic(auto)]

mod drafts;
mod laws;
mod names;
mod numbers;
mod plan;
mod splitting;
mod term;

pub use laws::{meaning_law, size_laws, split_laws, table_laws};
pub use splitting::split;
