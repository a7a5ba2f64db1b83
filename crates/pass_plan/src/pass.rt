//! Passes (docs/COMPILER.md, "Passes").
use crate::{Leaf, Tree};
use ven_base::{Elem, Fold, Shape};

/// What a pass makes of the values of its tree.
#[derive(Clone, Copy)]
pub enum PassKind {
    /// An array of them, in the shape of the domain.
    Map,
    /// A column, of the reduction of each row of the domain.
    Reduce(Fold),
}

/// A pass: its tree, worked out at each index of the domain, makes the array with the number `dest`, of the type `elem`.
#[derive(Drop)]
pub struct Pass {
    pub kind: PassKind,
    pub domain: Shape,
    /// The tree's leaves, no two the same, in the order in which they first occur in it from left to right.
    pub leaves: Vec<Leaf>,
    pub tree: Tree,
    pub dest: u32,
    pub elem: Elem,
}
