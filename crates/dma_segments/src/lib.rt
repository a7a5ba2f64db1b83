//! Transfers of a tile: the commands that bring a piece of an array under an index map into its buffer in the
//! scratchpad, with the fills of what has no source, and the command that takes a piece to its array.
//!
//! `reads` works axis by axis. A map takes rows to rows and columns to columns (the transpose exchanges them), so
//! each axis of a piece falls into a few runs (`specs/Run`), places whose sources stand equally far apart. Runs of
//! rows times runs of columns are patches (`specs/Patch`), and each patch is one command or one fill
//! (`specs/ReadList`). Rows that are adjacent are one row. `specs/Put` says what the commands and fills do,
//! `specs/Moves` how few they are, and `laws` what stands in cells and memory after them. docs/COMPILER.md,
//! "Transfers of a tile", says it in words.
//!
//! A caller reads a leaf's piece into its half of the buffers, and takes a Map pass's result to its array:
//!
//! ```text
//! let piece = piece(&pass, tile, t);
//! let read = reads(alloc, &leaf, &arrays[leaf.array], piece, buffer)?;
//! let write = writes(alloc, &arrays[pass.dest], piece, output)?;
//! ```
#![tactic(auto)]

mod commands;
mod fill_works;
mod laws;
mod lines;
mod patches;
mod reading;
mod runs;
mod segments;
mod writing;

pub use fill_works::{fill_work, move_kind, word_of};
pub use laws::{pass_laws, read_laws, worked_rows, write_laws};
pub use reading::reads;
pub use segments::{Fill, Segments};
pub use writing::writes;
