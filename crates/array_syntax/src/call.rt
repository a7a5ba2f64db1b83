//! What has been read of a call.

ghost use Rattle.std.specs.Prelude.{◌≡◌, ◌<◌};
ghost use Rattle.array_syntax.specs.Grammar.{count, followed};

use crate::node::Node;
use crate::word::Callee;
use sqlite_items::Items;

/// The operands of a call before the one that is read.
#[derive(Drop)]
pub enum Earlier {
    Nothing,
    One(Node),
    Two(Node, Node),
}

/// A number among a call's arguments, and where it or its sign begins, in bytes from 0.
#[derive(Clone, Copy)]
pub struct Number {
    pub at: u32,
    pub value: i64,
}

/// A call whose operand is whole, with its numbers so far. `at` is the place of its word, in bytes from 0.
#[derive(Drop)]
pub struct MapCall {
    pub at: u32,
    pub callee: Callee,
    pub of: Node,
    pub values: Items<Number>,
}

impl Earlier {
    /// How many operands these are.
    pub fn count(&self) -> usize
        ensures { result ≡ count self.now }
    {
        match self {
            Earlier::Nothing => 0,
            Earlier::One(_) => 1,
            Earlier::Two(_, _) => 2,
        }
    }

    /// These operands and one more, of which there are at most two together.
    pub fn followed_by(self, e: Node) -> Earlier
        ensures { result ≡ followed self e }
    {
        match self {
            Earlier::Nothing => Earlier::One(e),
            Earlier::One(a) => Earlier::Two(a, e),
            Earlier::Two(a, b) => Earlier::Two(a, b),
        }
    }
}
