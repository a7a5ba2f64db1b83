//! The channels of the vector machine: transfers between memory and the scratchpad, done beat by beat.
//!
//! `ReadChannel` and `WriteChannel` are `Unit`s with a queue of eight transfers each, and one thing in two
//! directions: a `Channel`. A beat moves the next 16 bytes of the current row, or the row's rest; many beats at once are
//! moves of rows and parts of rows. Both are `Overtaking` too: the second transfer may go on before the first. What a
//! beat does is the definition of `venice_isa`; all beats of a transfer together are its copy. docs/MACHINE.md says it
//! in plain words.
#![tactic(auto)]

mod at_once;
mod channel;
mod current;
mod direction;
mod laws;

pub use channel::{Channel, ReadChannel, WriteChannel};
pub use direction::{Directed, Direction, Reads, Writes};
pub use laws::beats_are_the_copy;
