//! Builds the programs of transfers: those that bring the pieces of a leaf into its buffer, fill what has no source, and
//! take pieces of results to their arrays.
//!
//! `leaf_program`, `fill_program` and `write_program` answer the programs that transfer_programs defines, for a leaf and
//! its array, where a piece's numbers are expressions (`SmallExpr`). The laws there say what these programs issue, and
//! that they take few registers, instructions and steps; docs/COMPILER.md, "Programs of transfers", says it in words.
//!
//! A caller names a piece's numbers, and has the programs of a leaf; here in registers 0 to 3, with the buffer's first
//! cell in register 4 and the tag in register 5:
//!
//! ```text
//! let name = SmallExpr::Variable;
//! let piece = PieceExpr { r0: name(0), c0: name(1), h: name(2), w: name(3) };
//! let target = Target { buffer: name(4), tag: name(5) };
//! let reads = leaf_program(alloc, &leaf, &arrays[leaf.array], piece, target, 6)?;
//! let fills = fill_program(alloc, &leaf, piece, target.buffer, 6)?;
//! ```
#![tactic(auto)]

mod axis;
mod body;
mod cuts;
mod filling;
mod grid;
mod patch_expr;
mod reading;
mod repeats;
mod rounds;
mod run_expr;
mod shifts;
mod small_expr;
mod sums;
mod writing;

pub use filling::fill_program;
pub use reading::leaf_program;
pub use small_expr::{PieceExpr, SmallExpr, Target};
pub use sums::{lesser, scaled};
pub use writing::write_program;
