//! Shapes of arrays (docs/LANGUAGE.md, "Arrays").
ghost use Rattle.std.specs.Prelude.{◌≡◌, ◌↔◌, IsSome, IfSome};
ghost use Rattle.ven_base.specs.Extent.{IsExtent, elements_of};

use std::marker::Model;

/// The most elements that an array may have.
pub const ELEMENT_LIMIT: u32 = 1_048_576;

/// The shape of an array: at least one row and one column, and at most 1,048,576 elements.
#[derive(Clone, Copy, Debug, PartialEq, Eq, Hash)]
pub struct Shape {
    pub rows: u32,
    pub cols: u32,
}

impl Model for Shape {
    ghost use Rattle.ven_base.specs.Extent.{Extent, IsExtent};

    ghost Value = { Extent };

    ghost view = { λ s. record { rows = s.rows; cols = s.cols } };

    ghost invariant = { λ s. IsExtent (record { rows = s.rows; cols = s.cols }) };

    ghost inverse = { λ e. record { rows = e.rows; cols = e.cols } };
}

impl Shape {
    /// The shape of this many rows and columns: `None` exactly where one of them is 0 or their product is above
    /// 1,048,576.
    pub fn new(rows: u32, cols: u32) -> Option<Shape>
        ensures found { IsSome result ↔ IsExtent (record { rows = rows; cols = cols }) }
        ensures value { IfSome result (λ shape. shape ≡ record { rows = rows; cols = cols }) }
    {
        if rows == 0 || cols == 0 {
            return None;
        }
        let elements = u64::from(rows) * u64::from(cols);
        if elements > u64::from(ELEMENT_LIMIT) {
            return None;
        }
        Some(Shape { rows, cols })
    }

    /// How many elements an array of this shape has: from 1 to 1,048,576.
    pub fn elements(self) -> u32
        ensures value { result ≡ elements_of self }
        ensures is_shape { IsExtent self }
    {
        self.rows * self.cols
    }
}
