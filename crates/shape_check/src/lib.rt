//! The checker of the array language (docs/LANGUAGE.md, "Checking" and "What a program means").
//!
//! `check` takes a program that was read and gives the checked program, in which each node has its type and shape, or
//! the first rule that the program breaks. A `Checked` keeps the language's limits and all rules: `IsChecked` in
//! `specs/Checked`. Contracts see it as the list of its statements; `program_of` and `node_of` give the plain trees
//! that definitions go over. `specs/Meaning` has what a checked program means, and `laws` what holds of it.
#![tactic(auto)]

mod build;
mod checked;
mod checking;
mod expr;
mod fault;
mod laws;
mod names;
mod operand;
mod rules;
mod typed;
mod work;

pub use checked::{Checked, CheckedStmt, StmtKind};
pub use checking::check;
pub use fault::CheckFault;
pub use laws::{check_laws, meaning_laws, name_laws};
pub use typed::{ArrayType, Typed, TypedKind};
pub use work::WORK_LIMIT;
