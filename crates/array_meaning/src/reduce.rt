//! Reductions of lists of values.

ghost use Rattle.std.specs.Prelude.{◌≡◌, ◌<◌, ◌≤◌, length, All, IfOk};
ghost use Rattle.ven_base.specs.Elem.{IsElement};
ghost use Rattle.ven_base.specs.Extent.{element_limit, elements_of};
ghost use Rattle.ven_base.specs.Folding.{folded, total_of};
ghost use Rattle.ven_base.specs.Wrap.{wrapped};
ghost use Rattle.array_meaning.specs.Rows.{row_in, row_reductions};

use std::alloc::{AllocError, Global};
use ven_base::{Elem, Fold, Shape, wrap};

/// What the reduction makes of the values, of which there is at least one.
#[inline(always)]
pub(crate) fn reduced(fold: Fold, elem: Elem, values: &[i64]) -> i64
    requires some { 0 < length values.now }
    requires few { length values.now ≤ element_limit }
    requires in_type { All (IsElement elem) values.now }
    ensures { result ≡ folded fold elem values.now }
{
    match fold {
        Fold::Sum => total(elem, values),
        Fold::Min => least(elem, values),
        Fold::Max => greatest(elem, values),
    }
}

/// The sum, wrapped into the type.
#[inline(always)]
fn total(elem: Elem, values: &[i64]) -> i64
    requires few { length values.now ≤ element_limit }
    requires in_type { All (IsElement elem) values.now }
    ensures { result ≡ wrapped elem (total_of values.now) }
{
    let mut sum: i64 = 0;
    for value in values {
        sum += *value;
    }
    wrap(elem, i128::from(sum))
}

/// The least.
#[inline(always)]
fn least(elem: Elem, values: &[i64]) -> i64
    requires some { 0 < length values.now }
    requires in_type { All (IsElement elem) values.now }
    ensures { result ≡ folded Fold.Min elem values.now }
{
    let mut least = values[0];
    for value in values {
        least = least.min(*value);
    }
    least
}

/// The greatest.
#[inline(always)]
fn greatest(elem: Elem, values: &[i64]) -> i64
    requires some { 0 < length values.now }
    requires in_type { All (IsElement elem) values.now }
    ensures { result ≡ folded Fold.Max elem values.now }
{
    let mut greatest = values[0];
    for value in values {
        greatest = greatest.max(*value);
    }
    greatest
}

/// The reduction of each row.
pub(crate) fn reduced_rows(
    alloc: Global,
    fold: Fold,
    elem: Elem,
    shape: Shape,
    values: &[i64],
) -> Result<Vec<i64>, AllocError>
    requires full { length values.now ≡ elements_of shape }
    requires in_type { All (IsElement elem) values.now }
    ensures { IfOk result (λ v. v.items ≡ row_reductions fold elem shape values.now) }
{
    match fold {
        Fold::Sum => rows_by(alloc, Fold::Sum, elem, shape, values),
        Fold::Min => rows_by(alloc, Fold::Min, elem, shape, values),
        Fold::Max => rows_by(alloc, Fold::Max, elem, shape, values),
    }
}

#[inline(always)]
fn rows_by(
    alloc: Global,
    fold: Fold,
    elem: Elem,
    shape: Shape,
    values: &[i64],
) -> Result<Vec<i64>, AllocError>
    requires full { length values.now ≡ elements_of shape }
    requires in_type { All (IsElement elem) values.now }
    ensures { IfOk result (λ v. v.items ≡ row_reductions fold elem shape values.now) }
{
    let mut reductions = Vec::with_capacity(alloc, shape.rows as usize)?;
    for i in 0..shape.rows {
        let row = row(values, shape, i);
        reductions.push(reduced(fold, elem, row))?;
    }
    Ok(reductions)
}

/// The values of row `i`.
fn row(values: &[i64], shape: Shape, i: u32) -> &[i64]
    requires full { length values.now ≡ elements_of shape }
    requires inside { i < shape.rows }
    ensures value { result.now ≡ row_in values.now shape.cols i }
    ensures len { length result.now ≡ shape.cols }
{
    let first = (i * shape.cols) as usize;
    &values[first..first + shape.cols as usize]
}
