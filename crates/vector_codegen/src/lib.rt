//! The vector instructions of a tile: the fills of its leaves' pieces, one instruction for each step of the order of
//! its pass's tree, and those of the root, which leave the tile's values or its rows' results so far in the output
//! half.
//!
//! `tile_ops` answers the list that `specs/TileList` defines. Each step becomes one instruction over all elements of
//! the tile as one row (`specs/Work`, over buffers by number); the root's is of the kind of the pass (`specs/Root`): a
//! value goes to the output half at once, a row's sum is accumulated there, or into the partial result and added where
//! a row's first tile is behind it, and a least or greatest value is found by halving the rows in a slot.
//! `specs/Effect` says what the instructions are given and what they leave, and `laws` that they do, that they keep to
//! the tile's buffers and that they are few. docs/COMPILER.md, "Instructions of a tile", says it in words.
//!
//! A caller brings the leaves' pieces, computes, and takes what is in the output half:
//!
//! ```text
//! let assigned = order(alloc, &pass.tree)?;
//! let tile = tile(&pass, spad);
//! let works = tile_ops(alloc, &pass, &assigned, &fills, tile, t)?;
//! ```
#![tactic(auto)]

mod buffers;
mod laws;
mod reductions;
mod step_works;
mod tile_list;
mod vector_kind;

pub use dma_segments::{move_kind, word_of};
pub use laws::{fill_laws, tile_laws, worked_rows};
pub use tile_list::tile_ops;
pub use vector_kind::{abs_kind, cast_kind, conditional_kind, is_turned, two_kind};
