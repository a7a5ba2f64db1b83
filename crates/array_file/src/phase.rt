//! What has just been read of an array.

use ven_base::{Elem, Name, Shape};

/// An array's name and type, and the place of its shape's `[`, in bytes from 0.
#[derive(Clone, Copy)]
pub struct Opening {
    pub name: Name,
    pub elem: Elem,
    pub at: u32,
}

/// An array's name, type and shape.
#[derive(Clone, Copy)]
pub struct Heading {
    pub name: Name,
    pub elem: Elem,
    pub shape: Shape,
}

/// What has just been read: a part of an array's heading, or its values so far. Numbers are rows and columns; the
/// place of a `-` is in bytes from 0.
#[derive(Clone, Copy)]
pub enum Phase {
    Begin,
    AfterName(Name),
    AfterType(Name, Elem),
    AfterOpen(Opening),
    AfterRows(Opening, u64),
    AfterComma(Opening, u64),
    AfterCols(Opening, u64, u64),
    Values(Heading),
    AfterMinus(Heading, u32),
}
