//! The overlap law: a run that meets no hazard leaves what its issues leave one after another, whatever the moments at
//! which the units step, and code whose list of issues is disciplined meets none (docs/PROOFS.md, "Overlap").
//!
//! `disciplined` says of a list whether any two of its works may race, and which do first (docs/MACHINE.md, "Lists that
//! meet no hazard"). The functions of `laws` state what holds of every run of every image, over the definitions that
//! `venice_machine::Machine` meets: `Runs` names the moments of a run, `Kept` says what each of them keeps, `Ends` what
//! HALT leaves, and `Laws` the laws.
//!
//! ```text
//! let list = issues(alloc, &code, budget)?;
//! match disciplined(code.version, &list) {
//!     Ok(()) => {}                                // no grant list meets a hazard
//!     Err(race) => { .. }                         // list[race.first] may be in flight at list[race.second]
//! }
//! ```
#![tactic(auto)]

mod flight;
pub mod laws;
mod race;

pub use race::{Race, disciplined};
