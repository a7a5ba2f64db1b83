//! Orders of evaluation of a tree, what each holds, and that none holds fewer than the best.
//!
//! The inner nodes of a tree have numbers, and an order is a list of them in which each comes once, after its
//! operands. `held` answers how many results an order holds at each of its places, which is at least the tree's label
//! at one of them, whatever the order; `explain` answers an order that never holds more. `specs/Order`, `specs/Held`
//! and `specs/BestOrder` have the definitions; docs/COMPILER.md, "Why a label is the least", tells them on one tree.
#![tactic(auto)]

mod best;
mod fault;
mod laws;
mod walk;

pub use best::{Explained, explain};
pub use fault::HeldFault;
pub use laws::{best_laws, least_laws};
pub use walk::held;
