//! The lanes of the vector machine: vector instructions, done beat by beat on the scratchpad.
//!
//! `Lanes` is a `Unit` with a queue of four vector instructions. A beat takes the next elements of
//! the current row, 4 bytes a lane by the greater size of a cast, or the row's rest. It reads all
//! sources of these elements before it writes one of them. What a beat does is the definition of
//! `venice_isa`; for a simple instruction the beats together are its whole effect, whatever the
//! number of lanes. docs/MACHINE.md says it in plain words.
#![tactic(auto)]

mod at_once;
mod current;
mod element;
mod flags;
mod group;
mod kernel;
mod lanes;
mod operand;

pub use lanes::Lanes;
