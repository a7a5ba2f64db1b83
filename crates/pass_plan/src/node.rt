//! An inner node of a tree (docs/COMPILER.md, "Orders of evaluation").
use crate::Turn;
use smallvec::SmallVec;

/// An inner node of a tree, by its number.
#[derive(Drop)]
pub struct NumberedNode {
    /// From 1.
    pub number: u32,
    /// The label of the tree below it.
    pub label: u32,
    /// How many inner nodes that tree has, this node among them.
    pub inner: u32,
    /// How many results are held while it is worked out: 2 at a cast that changes the size of a computed operand, else 1.
    pub least: u32,
    /// Its computed operands in turn.
    pub turns: SmallVec<Turn, 3>,
}
