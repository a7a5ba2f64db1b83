//! The arrays of statements.

ghost use Rattle.std.specs.Prelude.{◌≡◌};
ghost use Rattle.array_meaning.specs.Store.{grid_of};

use ven_base::Array;

/// The array of a statement: an input's, or one that was worked out.
#[derive(Drop)]
pub(crate) enum Stored<'a> {
    Input(&'a Array),
    Own(Array),
}

impl<'a> Stored<'a> {
    /// Its values, row by row.
    pub fn values(&self) -> &[i64]
        ensures { result.now ≡ (grid_of self.now).values }
    {
        match self {
            Stored::Input(array) => array.values.as_slice(),
            Stored::Own(array) => array.values.as_slice(),
        }
    }
}
