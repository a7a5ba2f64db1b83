//! The programs that bring pieces of leaves into their buffers, fill what has no source, and take pieces of results to
//! their arrays.
//!
//! A program (host_programs) is written once for all pieces of a pass: a piece's place and size are expressions
//! (`specs/ReadProgram`, `specs/FillProgram`). The crate has laws alone: a program's list is that of the piece's commands
//! and fills (dma_segments), whatever the map; it names few registers, fits the host's numbers, and takes so many
//! instructions and steps. transfer_builder makes them. docs/COMPILER.md, "Programs of transfers", says it in words.
//!
//! A caller that has made such a program has its list by the laws:
//!
//! ```text
//! transfer_laws();
//! fill_laws();
//! fit_laws();
//! cost_laws();
//! ```
#![tactic(auto)]

mod laws;

pub use laws::{cost_laws, fill_laws, fit_laws, transfer_laws, worked_rows};
