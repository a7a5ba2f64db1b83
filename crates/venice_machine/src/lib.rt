//! The clocked machine: an image with its inputs, run cycle by cycle under any grants.
//!
//! A `Machine` is made of an image, the inputs' arrays, a number of lanes and a scratchpad. In a cycle the host, the
//! lanes and the two channels step in this order, each at most once, where its bit of the grant is set and it can step.
//! `run` does the cycles of a grant list and then those in which all may step, until `halt` or a stop. `read_grants`
//! reads a grant list's text. The definitions in `specs/` are the manual: `State`, `Start`, `Step`, `Run`.
//! docs/MACHINE.md says it in plain words.
//!
//! ```text
//! let grants = read_grants(alloc, text)?;
//! let mut machine = Machine::new(alloc, image, 4, 65_536, &inputs)?;
//! let counts = machine.run(&grants, 1_000_000)?;      // steps and cycles, or why the run stopped
//! let arrays = machine.outputs(alloc)?;
//! ```
#![tactic(auto)]

mod arrays;
mod beat;
mod grants;
mod laws;
mod machine;
mod numbers;
mod stop;
mod works;

pub use grants::{GRANT_LIMIT, GrantFault, Grants, read_grants};
pub use laws::cycles_at_once;
pub use machine::Machine;
pub use stop::{Counts, Cycle, MakeFault, Stop};
