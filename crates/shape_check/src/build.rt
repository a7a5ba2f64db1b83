//! Checked nodes, made of their operands.
#![tactic(auto, using(crate::proofs::Plain::elem_with, crate::proofs::Plain::shape_with))]

ghost use Rattle.std.specs.Prelude.{◌≡◌, IfOk};
ghost use Rattle.ven_base.specs.Mapping.{FitsShape};
ghost use Rattle.shape_check.specs.Typed.{node_of};
ghost use Rattle.shape_check.specs.Node.{shape_of};
ghost use Rattle.shape_check.specs.Judge.{one_of, cast_of, two_of, select_of, map_of, row_fold_of, fold_of};
ghost use Rattle.shape_check.specs.Both.{both_of};

use crate::operand::Both;
use crate::{ArrayType, Typed, TypedKind};
use std::alloc::{AllocError, Global};
use ven_base::{Elem, Fold, Mapping, Op1, Op2, Shape};

/// An operation on one array.
pub fn one(alloc: Global, op: Op1, a: Typed) -> Result<Typed, AllocError>
    ensures { IfOk result (λ t. node_of t ≡ one_of op (node_of a)) }
{
    let ArrayType { elem, shape } = a.array_type();
    Ok(Typed {
        kind: TypedKind::One(op, Box::new(alloc, a)?),
        elem,
        shape,
    })
}

/// An operation on two arrays of this type and shape.
pub fn two(alloc: Global, op: Op2, array_type: ArrayType, both: Both) -> Result<Typed, AllocError>
    ensures { IfOk result (λ t. node_of t ≡ two_of op array_type (both_of both)) }
{
    let ArrayType { elem, shape } = array_type;
    let Both { left, right } = both;
    Ok(Typed {
        kind: TypedKind::Two(op, Box::new(alloc, left)?, Box::new(alloc, right)?),
        elem,
        shape,
    })
}

/// A cast into the type.
pub fn cast(alloc: Global, elem: Elem, a: Typed) -> Result<Typed, AllocError>
    ensures { IfOk result (λ t. node_of t ≡ cast_of elem (node_of a)) }
{
    let shape = a.shape;
    Ok(Typed {
        kind: TypedKind::Cast(Box::new(alloc, a)?),
        elem,
        shape,
    })
}

/// A choice between two arrays.
pub fn select(alloc: Global, condition: Typed, both: Both) -> Result<Typed, AllocError>
    ensures { IfOk result (λ t. node_of t ≡ select_of (node_of condition) (both_of both)) }
{
    let ArrayType { elem, shape } = condition.array_type();
    let Both { left, right } = both;
    Ok(Typed {
        kind: TypedKind::Select(
            Box::new(alloc, condition)?,
            Box::new(alloc, left)?,
            Box::new(alloc, right)?,
        ),
        elem,
        shape,
    })
}

/// An index map that fits the operand.
pub fn map(alloc: Global, mapping: Mapping, a: Typed) -> Result<Typed, AllocError>
    requires { FitsShape mapping (shape_of (node_of a)) }
    ensures { IfOk result (λ t. node_of t ≡ map_of mapping (node_of a)) }
{
    let elem = a.elem;
    let shape = mapping.result(a.shape);
    Ok(Typed {
        kind: TypedKind::Map(mapping, Box::new(alloc, a)?),
        elem,
        shape,
    })
}

/// A reduction of each row.
pub fn row_fold(alloc: Global, fold: Fold, a: Typed) -> Result<Typed, AllocError>
    ensures { IfOk result (λ t. node_of t ≡ row_fold_of fold (node_of a)) }
{
    let elem = a.elem;
    let shape = column(a.shape);
    Ok(Typed {
        kind: TypedKind::RowFold(fold, Box::new(alloc, a)?),
        elem,
        shape,
    })
}

/// A reduction of the whole array.
pub fn fold(alloc: Global, fold: Fold, a: Typed) -> Result<Typed, AllocError>
    ensures { IfOk result (λ t. node_of t ≡ fold_of fold (node_of a)) }
{
    let elem = a.elem;
    let shape = Shape { rows: 1, cols: 1 };
    Ok(Typed {
        kind: TypedKind::Fold(fold, Box::new(alloc, a)?),
        elem,
        shape,
    })
}

/// One column of as many rows.
fn column(shape: Shape) -> Shape
    ensures { result ≡ record { rows = shape.rows; cols = 1 } }
{
    Shape {
        rows: shape.rows,
        cols: 1,
    }
}
