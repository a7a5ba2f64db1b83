//! Passes over whole arrays, and what scratchpad they need.
//!
//! A `Pass` evaluates one tree at each index of its domain, over arrays under index maps, its leaves, and makes one array of the
//! values or of each row's reduction. A `Split` is a program as passes in order, with the places of all arrays. `need` and
//! `bound` say which scratchpad and how many steps the passes take; `tile`, `tiles` and `piece` cut a pass's domain for a
//! scratchpad. docs/COMPILER.md has the rules.
//!
//! The inner nodes of a tree are numbered from 1, a node before its operands, operands from left to right. `numbered` answers them
//! all in one walk, each with its label and the turn in which its operands come; a `Subtree` goes down the tree with the nodes of
//! each part beside it, so that no label is worked out twice.
#![tactic(auto)]

mod laws;
mod leaf;
mod needs;
mod node;
mod number;
pub mod parts;
mod pass;
mod split;
mod subtree;
mod tiling;
mod tree;
mod turn;

pub use laws::{need_laws, tile_laws, value_laws};
pub use leaf::Leaf;
pub use needs::{bound, label, need, widest};
pub use node::NumberedNode;
pub use number::numbered;
pub use pass::{Pass, PassKind};
pub use split::{ArrayPlace, Split};
pub use subtree::{Subtree, arity, operand};
pub use tiling::{piece, tile, tiles, tiles_per_row};
pub use tree::{Tree, TreeOp};
pub use turn::Turn;
