//! Tests of the plan's crates below the host's code: tiles, orders of evaluation and their slots, a piece's transfers, a
//! tile's instructions, and the pipelined list. Each module has the tests of one crate; `trees` makes the trees of two
//! of them, and `laws` calls each function of laws. The crate offers nothing.
#![tactic(auto)]

#[cfg(test)]
mod best_orders;
#[cfg(test)]
mod instructions;
#[cfg(test)]
mod laws;
#[cfg(test)]
mod lists;
#[cfg(test)]
mod orders;
#[cfg(test)]
mod pieces;
#[cfg(test)]
mod tiles;
#[cfg(test)]
mod trees;
