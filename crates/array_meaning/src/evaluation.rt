//! Expressions on whole arrays, node by node (docs/LANGUAGE.md, "What a program means").

ghost use Rattle.std.specs.Prelude.{IfOk};
ghost use Rattle.shape_check.specs.Typed.{node_of};
ghost use Rattle.array_meaning.specs.Operand.{IsValueOf, IsReady};
ghost use Rattle.array_meaning.specs.Store.{grids_of};

use crate::kernel;
use crate::operand::{Operand, Values};
use crate::store::Stored;
use crate::unary::{cast, map, one, rows, whole};
use shape_check::{Typed, TypedKind};
use std::alloc::{AllocError, Global};

/// The array of an expression, where these are those of the names.
pub(crate) fn value_of<'a>(
    alloc: Global,
    arrays: &'a [Stored<'a>],
    e: &Typed,
) -> Result<Operand<'a>, AllocError>
    requires { IsReady (grids_of arrays.now) (node_of e.now) }
    ensures { IfOk result (IsValueOf (grids_of arrays.now) (node_of e.now)) }
{
    let (elem, shape) = (e.elem, e.shape);
    let count = shape.elements() as usize;
    match &e.kind {
        TypedKind::Name(k) => Ok(Operand {
            shape,
            values: Values::Shared(arrays[*k as usize].values()),
        }),
        TypedKind::Literal(value) => Ok(Operand {
            shape,
            values: Values::Same([*value]),
        }),
        TypedKind::One(op, a) => one(alloc, *op, elem, shape, value_of(alloc, arrays, a)?),
        TypedKind::Two(op, a, b) => {
            let a = value_of(alloc, arrays, a)?;
            let b = value_of(alloc, arrays, b)?;
            let values = kernel::two(alloc, *op, elem, count, a.view(), b.view())?;
            Ok(Operand::own(shape, values))
        }
        TypedKind::Cast(a) => cast(alloc, elem, shape, value_of(alloc, arrays, a)?),
        TypedKind::Select(c, x, y) => {
            let c = value_of(alloc, arrays, c)?;
            let x = value_of(alloc, arrays, x)?;
            let y = value_of(alloc, arrays, y)?;
            let values = kernel::select(alloc, count, c.view(), x.view(), y.view())?;
            Ok(Operand::own(shape, values))
        }
        TypedKind::Map(mapping, a) => map(alloc, *mapping, shape, value_of(alloc, arrays, a)?),
        TypedKind::RowFold(fold, a) => rows(alloc, *fold, elem, shape, value_of(alloc, arrays, a)?),
        TypedKind::Fold(fold, a) => whole(alloc, *fold, elem, shape, value_of(alloc, arrays, a)?),
    }
}
