//! Named arrays, in the order in which they were added (docs/LANGUAGE.md, "Arrays").
ghost use Rattle.std.specs.Prelude.{◌≡◌, ◌↔◌, ◌<◌, ◌^◌, [], ◌∷◌, ◌++◌, ◌-◌, false, length, slice_get, Some, IsSome, IfSome, IfOk, OnErr, Contains, IsTrue};
ghost use Rattle.std.specs.Option.{option_copied};
ghost use Rattle.ven_base.specs.Pairs.{ArePairs, names_of, arrays_of, array_named};

use crate::{Array, Name};
use indexmap::IndexMap;
use std::alloc::{AllocError, Global};
use std::marker::Model;

/// Arrays with their names, no two names alike, in the order in which they were added.
#[derive(Drop)]
pub struct Arrays {
    pairs: IndexMap<Name, Array>,
}

impl Model for Arrays {
    ghost use Rattle.std.specs.Prelude.{ℕ, List};
    ghost use Rattle.ven_base.specs.Grid.{Grid};
    ghost use Rattle.ven_base.specs.Pairs.{ArePairs};

    ghost Value = { List (List ℕ × Grid) };

    ghost view = { λ a. a.pairs.entries };

    ghost invariant = { λ a. ArePairs a.pairs.entries };
}

impl Arrays {
    /// No arrays yet.
    pub fn new(alloc: Global) -> Arrays
        ensures { result ≡ [] }
    {
        Arrays {
            pairs: IndexMap::new(alloc),
        }
    }

    /// Appends the pair and gives true. Gives false exactly where the name is there: then nothing is changed, and the
    /// array is dropped. `AllocError` where memory is wanting, with nothing changed. There are fewer than 4,294,967,295
    /// pairs before.
    pub fn add(&mut self, name: Name, array: Array) -> Result<bool, AllocError>
        requires { length self.old < 2 ^ 32 - 1 }
        ensures added { IfOk result (λ added. IsTrue added → self.new ≡ self.old ++ (name, array) ∷ []) }
        ensures new_name { IfOk result (λ added. IsTrue added → ¬ Contains (names_of self.old) name) }
        ensures there { IfOk result (λ added. added ≡ false →
            Contains (names_of self.old) name × (self.new ≡ self.old)) }
        ensures err { OnErr result (self.new ≡ self.old) }
    {
        // What is known of every name shows in its bytes.
        let _known = name.bytes();
        let there = self.pairs.contains_key(&name);
        if there {
            return Ok(false);
        }
        self.pairs.insert(name, array)?;
        Ok(true)
    }

    /// The array with this name: `None` exactly where no pair has the name.
    pub fn get(&self, name: &Name) -> Option<&Array>
        ensures found { IsSome result ↔ Contains (names_of self.now) name.now }
        ensures value { option_copied result ≡ array_named self.now name.now }
        ensures pair { IfSome result (λ array. Contains self.now (name.now, array.now)) }
    {
        self.pairs.get(name)
    }

    /// The number of pairs, below 4,294,967,296.
    pub fn len(&self) -> u32
        ensures value { result ≡ length self.now }
        ensures pairs { ArePairs self.now }
    {
        self.pairs.len() as u32
    }

    /// Whether there are none.
    pub fn is_empty(&self) -> bool
        ensures { IsTrue result ↔ (self.now ≡ []) }
    {
        self.pairs.is_empty()
    }

    /// The name of pair `k`, which counts from 0 and is below `len`.
    pub fn name(&self, k: u32) -> &Name
        requires { k < length self.now }
        ensures { slice_get (names_of self.now) k ≡ Some result.now }
    {
        self.pair(k).0
    }

    /// The array of pair `k`, which counts from 0 and is below `len`.
    pub fn array(&self, k: u32) -> &Array
        requires { k < length self.now }
        ensures { slice_get (arrays_of self.now) k ≡ Some result.now }
    {
        self.pair(k).1
    }

    fn pair(&self, k: u32) -> (&Name, &Array)
        requires { k < length self.now }
        ensures { slice_get self.now k ≡ Some (result.0.now, result.1.now) }
    {
        match self.pairs.get_index(k as usize) {
            Some(pair) => pair,
            None => unreachable!(),
        }
    }
}
