//! Operands: checked arrays, and literals that have no type yet.

ghost use Rattle.std.specs.Prelude.{◌≡◌};
ghost use Rattle.shape_check.specs.Judge.{Answers, operand_of, lone, with_type, has_elem, has_shape, agree, type_beside, is_in, same_elem, same_shape};
ghost use Rattle.shape_check.specs.Typed.{node_of};
ghost use Rattle.shape_check.specs.Both.{both_of};

use crate::{ArrayType, CheckFault, Typed, TypedKind};
use ven_base::{Elem, Shape};

/// An expression on its way: a checked array, or a literal with its place, which takes the type and shape of what
/// stands beside it.
#[derive(Drop)]
pub enum Operand {
    Array(Typed),
    Number { at: u32, value: i64 },
}

/// Two operands of one type and shape.
#[derive(Drop)]
pub struct Both {
    pub left: Typed,
    pub right: Typed,
}

impl Operand {
    /// The array: a literal here stands alone.
    pub fn lone(self) -> Result<Typed, CheckFault>
        ensures { Answers node_of (lone (operand_of self)) result }
    {
        match self {
            Operand::Array(typed) => Ok(typed),
            Operand::Number { at, .. } => Err(CheckFault::LiteralAlone { at }),
        }
    }

    /// Whether the operand may have this type: it has it, or is a literal.
    fn has_elem(&self, array_type: ArrayType) -> bool
        ensures { result ≡ has_elem array_type (operand_of self.now) }
    {
        match self {
            Operand::Array(typed) => same_elem(typed.elem, array_type.elem),
            Operand::Number { .. } => true,
        }
    }

    /// Whether the operand may have this shape: it has it, or is a literal.
    fn has_shape(&self, array_type: ArrayType) -> bool
        ensures { result ≡ has_shape array_type (operand_of self.now) }
    {
        match self {
            Operand::Array(typed) => same_shape(typed.shape, array_type.shape),
            Operand::Number { .. } => true,
        }
    }

    /// The operand with this type and shape, which an array has already.
    fn with_type(self, array_type: ArrayType) -> Result<Typed, CheckFault>
        ensures { Answers node_of (with_type array_type (operand_of self)) result }
    {
        match self {
            Operand::Array(typed) => Ok(typed),
            Operand::Number { at, value } => {
                let ArrayType { elem, shape } = array_type;
                if !is_in(elem, value) {
                    return Err(CheckFault::LiteralRange { at });
                }
                Ok(Typed {
                    kind: TypedKind::Literal(value),
                    elem,
                    shape,
                })
            }
        }
    }
}

/// Two operands of the node at `at`, beside something of this type and shape.
pub fn agree(
    at: u32,
    array_type: ArrayType,
    left: Operand,
    right: Operand,
) -> Result<Both, CheckFault>
    ensures { Answers both_of (agree at array_type (operand_of left) (operand_of right)) result }
{
    if !(left.has_elem(array_type) && right.has_elem(array_type)) {
        return Err(CheckFault::TypeMismatch { at });
    }
    if !(left.has_shape(array_type) && right.has_shape(array_type)) {
        return Err(CheckFault::ShapeMismatch { at });
    }
    let left = left.with_type(array_type)?;
    let right = right.with_type(array_type)?;
    Ok(Both { left, right })
}

/// The type and shape of the first that is an array: two literals stand alone.
pub fn type_beside(left: &Operand, right: &Operand) -> Result<ArrayType, CheckFault>
    ensures { Answers (λ t. t) (type_beside (operand_of left.now) (operand_of right.now)) result }
{
    match left {
        Operand::Array(typed) => Ok(typed.array_type()),
        Operand::Number { at, .. } => match right {
            Operand::Array(typed) => Ok(typed.array_type()),
            Operand::Number { .. } => Err(CheckFault::LiteralAlone { at: *at }),
        },
    }
}

/// Whether the number is one of the type.
pub fn is_in(elem: Elem, n: i64) -> bool
    ensures { result ≡ is_in elem n }
{
    elem.contains(n)
}

fn same_elem(a: Elem, b: Elem) -> bool
    ensures { result ≡ same_elem a b }
{
    a.size() == b.size() && a.least() == b.least()
}

fn same_shape(a: Shape, b: Shape) -> bool
    ensures { result ≡ same_shape a b }
{
    a.rows == b.rows && a.cols == b.cols
}
