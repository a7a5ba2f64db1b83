//! The arrays of nodes with one operand, whose array is worked out (docs/LANGUAGE.md, "What a program means").

ghost use Rattle.ven_base.specs.declared.elem.Elem.{Elem};
ghost use Rattle.shape_check.specs.Node as nodes;
ghost use Rattle.array_meaning.specs.Operand.{IsReadyFor, Makes};

use crate::kernel;
use crate::maps::mapped;
use crate::operand::Operand;
use crate::reduce::{reduced, reduced_rows};
use std::alloc::{AllocError, Global};
use ven_base::{Elem, Fold, Mapping, Op1, Shape};

/// An operation on the operand.
pub(crate) fn one<'a>(
    alloc: Global,
    op: Op1,
    elem: Elem,
    shape: Shape,
    a: Operand,
) -> Result<Operand<'a>, AllocError>
    requires { IsReadyFor (nodes.One elem shape op) a }
    ensures { Makes (nodes.One elem shape op) a.entry result }
{
    let values = kernel::one(alloc, op, elem, shape.elements() as usize, a.view())?;
    Ok(Operand::own(shape, values))
}

/// Its numbers, wrapped into the type.
pub(crate) fn cast<'a>(
    alloc: Global,
    elem: Elem,
    shape: Shape,
    a: Operand,
) -> Result<Operand<'a>, AllocError>
    requires { IsReadyFor (nodes.Cast elem shape) a }
    ensures { Makes (nodes.Cast elem shape) a.entry result }
{
    let values = kernel::cast(alloc, elem, shape.elements() as usize, a.view())?;
    Ok(Operand::own(shape, values))
}

/// An index map of it.
pub(crate) fn map<'a>(
    alloc: Global,
    mapping: Mapping,
    shape: Shape,
    a: Operand,
) -> Result<Operand<'a>, AllocError>
    requires { (elem : Elem) × IsReadyFor (nodes.Map elem shape mapping) a }
    ensures { (elem : Elem) → Makes (nodes.Map elem shape mapping) a.entry result }
{
    let values = mapped(alloc, mapping, a.shape, a.slice())?;
    Ok(Operand::own(shape, values))
}

/// The reduction of each of its rows.
pub(crate) fn rows<'a>(
    alloc: Global,
    fold: Fold,
    elem: Elem,
    shape: Shape,
    a: Operand,
) -> Result<Operand<'a>, AllocError>
    requires { IsReadyFor (nodes.RowFold elem shape fold) a }
    ensures { Makes (nodes.RowFold elem shape fold) a.entry result }
{
    let values = reduced_rows(alloc, fold, elem, a.shape, a.slice())?;
    Ok(Operand::own(shape, values))
}

/// The reduction of all its values.
pub(crate) fn whole<'a>(
    alloc: Global,
    fold: Fold,
    elem: Elem,
    shape: Shape,
    a: Operand,
) -> Result<Operand<'a>, AllocError>
    requires { IsReadyFor (nodes.Fold elem shape fold) a }
    ensures { Makes (nodes.Fold elem shape fold) a.entry result }
{
    let value = reduced(fold, elem, a.slice());
    let values = Vec::from_slice(alloc, &[value])?;
    Ok(Operand::own(shape, values))
}
