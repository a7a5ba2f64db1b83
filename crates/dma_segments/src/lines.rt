//! Runs of rows times runs of columns (`specs/Patch`).
ghost use Rattle.std.specs.Prelude.{◌≡◌, ◌++◌, ◌+◌, ◌-◌, ◌*◌, ◌≤◌, ◌<◌, ◌^◌, IfOk, OnOk, All, IfSome, map};
ghost use Rattle.dma_segments.specs.Rooms.{HasSmallCorner, HaveSmallCorners};
ghost use Rattle.dma_segments.specs.Patch.{source_of_both, line, cross, blank, row_lines, lines, crosses};

use crate::patches::{Layout, Patch, Run};
use std::alloc::{AllocError, Global};

fn source_of_both(layout: Layout, y: Option<u32>, x: Option<u32>) -> Option<u32>
    requires { IfSome (source_of_both layout y x) (λ s. s < 2 ^ 32) }
    ensures { result ≡ source_of_both layout y x }
{
    match y {
        Some(y) => match x {
            Some(x) => Some(y * layout.row_pitch + x * layout.column_pitch),
            None => None,
        },
        None => None,
    }
}

/// A run's columns in the rows of a run.
fn line(layout: Layout, a: Run, b: Run) -> Patch
    requires { HasSmallCorner layout a b }
    ensures { result ≡ line layout a b }
{
    Patch {
        rows: a.count,
        cols: b.count,
        to: a.first * layout.width + b.first,
        to_step: u64::from(a.step) * u64::from(layout.width),
        from: source_of_both(layout, a.source, b.source),
        from_step: u64::from(a.source_step) * u64::from(layout.row_pitch),
    }
}

/// Whole rows without a source.
fn blank(layout: Layout, a: Run) -> Patch
    requires { a.first * layout.width < 2 ^ 32 }
    ensures { result ≡ blank layout a }
{
    Patch {
        rows: a.count,
        cols: layout.width,
        to: a.first * layout.width,
        to_step: u64::from(a.step) * u64::from(layout.width),
        from: None,
        from_step: 0,
    }
}

fn push_columns(
    patches: &mut Vec<Patch>,
    layout: Layout,
    columns: &[Run],
    a: Run,
) -> Result<(), AllocError>
    requires { All (HasSmallCorner layout a) columns.now }
    ensures { OnOk result (patches.new.items ≡ patches.old.items ++ map (line layout a) columns.now) }
{
    for b in columns {
        patches.push(line(layout, a, *b))?;
    }
    Ok(())
}

fn push_row(
    patches: &mut Vec<Patch>,
    layout: Layout,
    columns: &[Run],
    a: Run,
) -> Result<(), AllocError>
    requires first { a.first * layout.width < 2 ^ 32 }
    requires columns { All (HasSmallCorner layout a) columns.now }
    ensures { OnOk result (patches.new.items ≡ patches.old.items ++ row_lines layout columns.now a) }
{
    match a.source {
        Some(_) => push_columns(patches, layout, columns, a),
        None => {
            patches.push(blank(layout, a))?;
            Ok(())
        }
    }
}

/// The patches of runs of rows and runs of columns.
pub fn lines(
    alloc: Global,
    layout: Layout,
    rows: &[Run],
    columns: &[Run],
) -> Result<Vec<Patch>, AllocError>
    requires { HaveSmallCorners layout rows.now columns.now }
    ensures { IfOk result (λ patches. patches.items ≡ lines layout rows.now columns.now) }
{
    let mut patches = Vec::new(alloc);
    for a in rows {
        push_row(&mut patches, layout, columns, *a)?;
    }
    Ok(patches)
}

/// A run's columns in the first row of a run, an element a row.
fn cross(layout: Layout, a: Run, b: Run) -> Patch
    requires { HasSmallCorner layout a b }
    ensures { result ≡ cross layout a b }
{
    Patch {
        rows: b.count,
        cols: 1,
        to: a.first * layout.width + b.first,
        to_step: u64::from(b.step),
        from: source_of_both(layout, a.source, b.source),
        from_step: u64::from(b.source_step) * u64::from(layout.column_pitch),
    }
}

fn push_crosses(
    patches: &mut Vec<Patch>,
    layout: Layout,
    columns: &[Run],
    a: Run,
) -> Result<(), AllocError>
    requires { All (HasSmallCorner layout a) columns.now }
    ensures { OnOk result (patches.new.items ≡ patches.old.items ++ map (cross layout a) columns.now) }
{
    for b in columns {
        patches.push(cross(layout, a, *b))?;
    }
    Ok(())
}

/// The patches of runs of one row and runs of columns, element by element.
pub fn crosses(
    alloc: Global,
    layout: Layout,
    rows: &[Run],
    columns: &[Run],
) -> Result<Vec<Patch>, AllocError>
    requires { All (λ a. All (HasSmallCorner layout a) columns.now) rows.now }
    ensures { IfOk result (λ patches. patches.items ≡ crosses layout rows.now columns.now) }
{
    let mut patches = Vec::new(alloc);
    for a in rows {
        push_crosses(&mut patches, layout, columns, *a)?;
    }
    Ok(patches)
}
