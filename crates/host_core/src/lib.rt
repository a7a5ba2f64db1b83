//! The host of the vector machine: one instruction after another, and whether it may go on.
//!
//! A step of `Host` does the instruction at its place, or nothing where it waits. Whether it waits is said by the
//! numbers of unfinished works (`Waiting`): an issue needs a place in its queue, a wait its condition, and `halt` that
//! nothing is unfinished. What the instructions do is the definition of `venice_isa`. docs/MACHINE.md says it in plain
//! words.
#![tactic(auto)]

mod host;
mod step;
mod waiting;

pub use host::Host;
pub use step::Step;
pub use waiting::Waiting;
