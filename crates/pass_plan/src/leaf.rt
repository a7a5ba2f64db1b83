//! Leaves of trees (docs/COMPILER.md, "Trees").
use ven_base::{Elem, Mapping, Shape};

/// An array under a map: its number among the split's arrays, from 0, its type, the shape as which it is read, and the map.
/// Two leaves are the same where array and map are.
#[derive(Clone, Copy, PartialEq, Eq, Hash)]
pub struct Leaf {
    pub array: u32,
    pub elem: Elem,
    /// The array's own shape, but [1,R] in the second pass of a whole reduction, which reads a column [R,1].
    pub shape: Shape,
    pub map: Mapping,
}
