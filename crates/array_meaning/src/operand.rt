//! What a node gives: the values of its array.

ghost use Rattle.std.specs.Prelude.{◌≡◌};
ghost use Rattle.array_meaning.specs.Operand.{number_in, Reaches, IsViewOf, IsSlice, list_of};
ghost use Rattle.array_meaning.specs.declared.operand.Values.TheVariants as kinds;

use ven_base::Shape;

/// The values of an array, row by row: those of an array that stands elsewhere, values of their own, or one number that
/// stands at each place.
#[derive(Drop)]
pub enum Values<'a> {
    Shared(&'a [i64]),
    Own(Vec<i64>),
    Same([i64; 1]),
}

/// The array of a node.
#[derive(Drop)]
pub struct Operand<'a> {
    pub shape: Shape,
    pub values: Values<'a>,
}

/// The values of an array where they stand: that at a place, counted row by row from 0, is number `place * step` of
/// them.
#[derive(Clone, Copy, Drop)]
pub struct View<'a> {
    pub values: &'a [i64],
    pub step: usize,
}

impl<'a> Operand<'a> {
    /// An array with values of its own.
    pub fn own(shape: Shape, values: Vec<i64>) -> Operand<'a>
        ensures { result ≡ record { shape = shape; values = kinds.Own values } }
    {
        Operand {
            shape,
            values: Values::Own(values),
        }
    }

    /// The values where they stand.
    pub fn view(&self) -> View
        ensures { IsViewOf self.now result }
    {
        match &self.values {
            Values::Shared(values) => View { values, step: 1 },
            Values::Own(values) => View {
                values: values.as_slice(),
                step: 1,
            },
            Values::Same(value) => View {
                values: value,
                step: 0,
            },
        }
    }

    /// All values, row by row, of an array that isn't one number.
    pub fn slice(&self) -> &[i64]
        requires { IsSlice self.now }
        ensures { result.now ≡ list_of self.now }
    {
        match &self.values {
            Values::Shared(values) => values,
            Values::Own(values) => values.as_slice(),
            Values::Same(_) => unreachable!(),
        }
    }
}

impl<'a> View<'a> {
    /// The value at a place.
    #[inline(always)]
    pub fn value(&self, place: usize) -> i64
        requires { Reaches self.now place }
        ensures { result ≡ number_in self.now place }
    {
        self.values[place * self.step]
    }
}
