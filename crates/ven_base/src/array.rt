//! An array of the language (docs/LANGUAGE.md, "Arrays"): a type, a shape and values.
ghost use Rattle.std.specs.Prelude.{◌≡◌, ◌↔◌, All, IsTrue, IsSome, IfSome};
ghost use Rattle.ven_base.specs.Elem.{IsElement};
ghost use Rattle.ven_base.specs.Extent.{IsIndex};
ghost use Rattle.ven_base.specs.Grid.{IsGrid, value_at};

use crate::{Elem, Shape};
use std::marker::Model;

/// An array: one value for each element of its shape, row by row from row 0 and column 0 on, each in the range of its
/// type.
#[derive(Drop)]
pub struct Array {
    pub elem: Elem,
    pub shape: Shape,
    pub values: Vec<i64>,
}

impl Model for Array {
    ghost use Rattle.ven_base.specs.Grid.{Grid, IsGrid};

    ghost Value = { Grid };

    ghost view = { λ a. record { elem = a.elem; shape = a.shape; values = a.values.items } };

    ghost invariant = { λ a. IsGrid (record { elem = a.elem; shape = a.shape; values = a.values.items }) };
}

impl Array {
    /// The array of these values, row by row: `None` exactly where they aren't as many as the shape has elements, or
    /// one of them isn't a number of the type. Then the values are dropped.
    pub fn new(elem: Elem, shape: Shape, values: Vec<i64>) -> Option<Array>
        ensures found { IsSome result ↔ IsGrid (record { elem = elem; shape = shape; values = values.items }) }
        ensures value { IfSome result (λ array. array ≡ record { elem = elem; shape = shape; values = values.items }) }
    {
        if values.len() != shape.elements() as usize || !are_elements(elem, &values) {
            return None;
        }
        Some(Array {
            elem,
            shape,
            values,
        })
    }

    /// The value in row `i` and column `j`, each counted from 0, which lie in the shape.
    pub fn value(&self, i: u32, j: u32) -> i64
        requires { IsIndex self.now.shape i j }
        ensures value { result ≡ value_at self.now i j }
        ensures in_range { IsElement self.now.elem result }
    {
        let shape = self.shape;
        self.values[(i * shape.cols + j) as usize]
    }
}

/// Whether all of these are numbers of the type.
fn are_elements(elem: Elem, values: &[i64]) -> bool
    ensures { IsTrue result ↔ All (IsElement elem) values.now }
{
    values.iter().all(|value| elem.contains(*value))
}
