//! Checked expressions (docs/LANGUAGE.md, "Checking"): each node with its type and its shape.
use ven_base::{Elem, Fold, Mapping, Op1, Op2, Shape};

/// The type and the shape of an array.
#[derive(Clone, Copy)]
pub struct ArrayType {
    pub elem: Elem,
    pub shape: Shape,
}

/// An expression of a checked program: what it is, and the type and shape of its array. A literal has those of its
/// neighbour.
#[derive(Drop)]
#[cycle(typed)]
pub struct Typed {
    pub kind: TypedKind,
    pub elem: Elem,
    pub shape: Shape,
}

/// What an expression is. Its operands stand from left to right.
#[derive(Drop)]
#[cycle(typed)]
pub enum TypedKind {
    /// The name that this statement declares; statements count from 0.
    Name(u32),
    /// A number of the type, which stands at each index.
    Literal(i64),
    /// An operation on one array.
    One(Op1, Box<Typed>),
    /// An operation on two arrays.
    Two(Op2, Box<Typed>, Box<Typed>),
    /// The numbers of the operand, wrapped into the type.
    Cast(Box<Typed>),
    /// The second operand where the first isn't 0, else the third.
    Select(Box<Typed>, Box<Typed>, Box<Typed>),
    /// An index map of the operand.
    Map(Mapping, Box<Typed>),
    /// A reduction of each row.
    RowFold(Fold, Box<Typed>),
    /// A reduction of the whole array.
    Fold(Fold, Box<Typed>),
}

impl Typed {
    ghost use Rattle.std.specs.Prelude.{◌≡◌};
    ghost use Rattle.shape_check.specs.Typed.{node_of};
    ghost use Rattle.shape_check.specs.Rules.{type_of};

    /// The type and the shape of its array.
    #[tactic(auto, using(crate::proofs::Plain::elem_with, crate::proofs::Plain::shape_with))]
    pub fn array_type(&self) -> ArrayType
        ensures { result ≡ type_of (node_of self.now) }
    {
        ArrayType {
            elem: self.elem,
            shape: self.shape,
        }
    }
}
