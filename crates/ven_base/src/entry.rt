//! An entry of an image's table of arrays.
use crate::{Elem, Name, Shape};

/// An array of an image's memory: its name, whether it is an output, its type and shape, and its first byte's place,
/// which counts bytes from 0.
#[derive(Clone, Copy)]
pub struct Entry {
    pub name: Name,
    pub output: bool,
    pub elem: Elem,
    pub shape: Shape,
    pub place: u32,
}
