//! Programs as passes (docs/COMPILER.md, "Passes").
use crate::Pass;
use ven_base::{Elem, Entry, Shape};

/// An array of main memory: its type and shape, and the place of its first byte.
#[derive(Clone, Copy)]
pub struct ArrayPlace {
    pub elem: Elem,
    pub shape: Shape,
    pub place: u32,
}

/// A program as passes in order. The arrays are the inputs, in the order of their statements, and then what the passes make,
/// in their order. The table has the inputs and the outputs alone, in the order of their statements. `memory` is the end of the last
/// array.
#[derive(Drop)]
pub struct Split {
    pub passes: Vec<Pass>,
    pub arrays: Vec<ArrayPlace>,
    pub table: Vec<Entry>,
    pub memory: u32,
}
