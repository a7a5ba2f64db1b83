//! Index maps of whole arrays.

ghost use Rattle.std.specs.Prelude.{◌≡◌, ◌+◌, ◌*◌, ◌<◌, ◌≤◌, pos, length, slice_index_or, IfOk};
ghost use Rattle.ven_base.specs.Extent.{IsIndex, elements_of, element_limit};
ghost use Rattle.ven_base.specs.Mapping.{result_shape, fill_of as fill_in, FitsShape};
ghost use Rattle.shape_check.specs.Meaning.{values_with};
ghost use Rattle.array_meaning.specs.Sources.{mapped_at};

use std::alloc::{AllocError, Global};
use ven_base::{Mapping, Shape};

/// The values of a map of an array of shape `of`, row by row. The kind of the map is written out in each arm, so that
/// its loop is compiled for it.
pub(crate) fn mapped(
    alloc: Global,
    mapping: Mapping,
    of: Shape,
    values: &[i64],
) -> Result<Vec<i64>, AllocError>
    requires full { length values.now ≡ elements_of of }
    requires fits { FitsShape mapping of }
    ensures { IfOk result (λ v. v.items ≡ values_with (result_shape mapping of) (mapped_at mapping of values.now)) }
{
    match mapping {
        Mapping::Identity => mapped_by(alloc, Mapping::Identity, of, values),
        Mapping::Shift { dr, dc, fill } => mapped_by(
            alloc,
            Mapping::Shift { dr, dc, fill },
            of,
            values,
        ),
        Mapping::Rotate { dr, dc } => mapped_by(alloc, Mapping::Rotate { dr, dc }, of, values),
        Mapping::Section {
            r0,
            nr,
            sr,
            c0,
            nc,
            sc,
        } => mapped_by(
            alloc,
            Mapping::Section {
                r0,
                nr,
                sr,
                c0,
                nc,
                sc,
            },
            of,
            values,
        ),
        Mapping::Stretch { kr, kc } => mapped_by(alloc, Mapping::Stretch { kr, kc }, of, values),
        Mapping::Transpose => mapped_by(alloc, Mapping::Transpose, of, values),
    }
}

#[inline(always)]
fn mapped_by(
    alloc: Global,
    mapping: Mapping,
    of: Shape,
    values: &[i64],
) -> Result<Vec<i64>, AllocError>
    requires full { length values.now ≡ elements_of of }
    requires fits { FitsShape mapping of }
    ensures { IfOk result (λ v. v.items ≡ values_with (result_shape mapping of) (mapped_at mapping of values.now)) }
{
    let to = mapping.result(of);
    let mut results = Vec::with_capacity(alloc, to.elements() as usize)?;
    for i in 0..to.rows {
        for j in 0..to.cols {
            results.push(value_from(mapping, of, values, i, j))?;
        }
    }
    Ok(results)
}

/// The value in row `i` and column `j` of a map.
#[inline(always)]
fn value_from(mapping: Mapping, of: Shape, values: &[i64], i: u32, j: u32) -> i64
    requires full { length values.now ≡ elements_of of }
    requires fits { FitsShape mapping of }
    requires inside { IsIndex (result_shape mapping of) i j }
    ensures { result ≡ mapped_at mapping of values.now i j }
{
    match mapping.source(of, i, j) {
        Some((row, col)) => number(values, of.cols, row, col),
        None => fill_of(mapping),
    }
}

/// The value in this row and column, where there are so many columns.
#[inline(always)]
fn number(values: &[i64], cols: u32, row: u32, col: u32) -> i64
    requires inside { row * cols + col < length values.now }
    requires few { length values.now ≤ element_limit }
    ensures { result ≡ slice_index_or values.now (row * cols + col) (pos 0) }
{
    values[(row * cols + col) as usize]
}

/// The number that stands where the map has no source.
#[inline(always)]
fn fill_of(mapping: Mapping) -> i64
    ensures { result ≡ fill_in mapping }
{
    match mapping {
        Mapping::Shift { fill, .. } => fill,
        _ => 0,
    }
}
