//! The names that a statement may use.

ghost use Rattle.std.specs.Prelude.{◌≡◌, ◌∷◌, [], ◌++◌, ◌<◌, ◌≤◌, length, None, OnOk};
ghost use Rattle.array_syntax.specs.Limits.{most_statements};
ghost use Rattle.shape_check.specs.Judge.{find};

use crate::ArrayType;
use indexmap::IndexMap;
use std::alloc::{AllocError, Global};
use std::marker::Model;
use ven_base::Name;

/// The names of the earlier statements in their order, each with the type and shape of its array.
#[derive(Drop)]
pub struct Names {
    entries: IndexMap<Name, ArrayType>,
}

impl Model for Names {
    ghost use Rattle.shape_check.specs.Scope.{Scope};

    ghost Value = { Scope };

    ghost view = { λ n. n.entries.entries };
}

impl Names {
    /// No names yet.
    pub fn new(alloc: Global) -> Names
        ensures { result ≡ [] }
    {
        Names {
            entries: IndexMap::new(alloc),
        }
    }

    /// The number of the statement that declares the name, and its array's type and shape. There are at most 256 names.
    pub fn find(&self, name: &Name) -> Option<(u32, ArrayType)>
        requires { length self.now ≤ most_statements }
        ensures { result ≡ find self.now name.now }
    {
        match self.entries.get_full(name) {
            Some((k, _, array_type)) => Some((k as u32, *array_type)),
            None => None,
        }
    }

    /// Declares a name that is new.
    pub fn add(&mut self, name: Name, array_type: ArrayType) -> Result<(), AllocError>
        requires { find self.old name ≡ None }
        ensures { OnOk result (self.new ≡ self.old ++ (name, array_type) ∷ []) }
    {
        self.entries.insert(name, array_type)?;
        Ok(())
    }
}
