//! The host code of a split: `code` makes the split's program and answers its instructions.
//!
//! A split's program (`specs/SplitProgram`) issues the split's pipelined list. It is made of its passes'
//! (`specs/PassProgram`): one turn for each tile and one more, in which a tile is read (`specs/TileProgram`) while the one
//! before it is computed (`specs/StepProgram`, `specs/RootProgram`). `specs/Geometry` says where a tile's numbers stand,
//! `specs/CodeRoom` how many instructions the code has at most, and `specs/CodeOf` what holds of the code.
//!
//! The laws say that the program issues that list, fits the host's numbers and registers, and keeps to its room and to
//! the bound of the passes. The modules build the parts of a program as values, each equal to the definition of its
//! name: `geometry` the numbers of a tile, `steps` and `roots` its vector instructions, `tiles` its reads, fills and
//! write, `passes` the loop over tiles and all passes. docs/COMPILER.md, "The code of a split", says it in words.
//!
//! A caller has the code of a split, in a scratchpad that holds its need:
//!
//! ```text
//! if need(&split.passes) <= u64::from(spad) {
//!     let code = code(alloc, &split, spad)?;
//! }
//! ```
#![tactic(auto)]

mod coded;
mod geometry;
mod laws;
mod passes;
mod roots;
mod sequence;
mod steps;
mod tiled;
mod tiles;

pub use coded::code;
pub use laws::{cost_laws, fit_laws, program_laws, room_laws, worked_rows};
