//! Bringing a piece of a leaf into its buffer (docs/COMPILER.md, "Transfers of a tile").
ghost use Rattle.std.specs.Prelude.{◌≡◌, ◌+◌, ◌≤◌, length, IfOk, All};
ghost use Rattle.ven_base.specs.Extent.{IsExtent};
ghost use Rattle.ven_base.specs.Mapping.{fill_of};
ghost use Rattle.dma_segments.specs.Rooms.{CanCombine};
ghost use Rattle.dma_segments.specs.Patch.{keeps_neighbours, layout_of, patches_of};
ghost use Rattle.dma_segments.specs.ReadList.{read_list};
ghost use Rattle.dma_segments.specs.Moves.{moves, command_limit, fill_limit};
ghost use Rattle.dma_segments.specs.Put.{CanRead, PutPiece, HasLongRows, HasLongFillRows};

use crate::commands::segments;
use crate::lines::{crosses, lines};
use crate::patches::{Layout, Patch, Run, Sides};
use crate::runs::{column_runs, row_runs, singles};
use crate::segments::Segments;
use pass_plan::parts::Piece;
use pass_plan::{ArrayPlace, Leaf};
use std::alloc::{AllocError, Global};
use ven_base::Mapping;

/// Whether neighbours in a row of the result come from neighbours, run by run.
fn keeps_neighbours(map: &Mapping) -> bool
    ensures { result ≡ keeps_neighbours map.now }
{
    match *map {
        Mapping::Identity | Mapping::Shift { .. } | Mapping::Rotate { .. } => true,
        Mapping::Section { sc, .. } => sc == 1,
        Mapping::Stretch { kc, .. } => kc == 1,
        Mapping::Transpose => false,
    }
}

/// The number that stands where there is no source.
fn fill_of(map: &Mapping) -> i64
    ensures { result ≡ fill_of map.now }
{
    match *map {
        Mapping::Shift { fill, .. } => fill,
        _ => 0,
    }
}

/// How wide the piece is, and how far apart the sources of neighbours stand.
fn layout_of(leaf: &Leaf, piece: Piece) -> Layout
    ensures layout { result ≡ layout_of leaf.now.map leaf.now.shape piece }
    ensures shaped { IsExtent leaf.now.shape }
{
    let columns = leaf.shape.cols;
    let (row_pitch, column_pitch) = match leaf.map {
        Mapping::Transpose => (1, columns),
        _ => (columns, 1),
    };
    Layout {
        width: piece.w,
        row_pitch,
        column_pitch,
    }
}

/// The patches of runs of rows and runs of columns: whole lines where neighbours stay neighbours, else element by
/// element along the rows or the columns, whichever are fewer.
fn patches_of(
    alloc: Global,
    keeps: bool,
    layout: Layout,
    height: u32,
    rows: &[Run],
    columns: &[Run],
) -> Result<Vec<Patch>, AllocError>
    requires { CanCombine layout rows.now columns.now }
    ensures { IfOk result (λ patches. patches.items ≡ patches_of keeps layout height rows.now columns.now) }
{
    if keeps {
        return lines(alloc, layout, rows, columns);
    }
    let by_rows = u64::from(height) * columns.len() as u64;
    let by_columns = rows.len() as u64 * u64::from(layout.width);
    if by_rows <= by_columns {
        let rows = singles(alloc, rows)?;
        crosses(alloc, layout, &rows, columns)
    } else {
        let columns = singles(alloc, columns)?;
        lines(alloc, layout, rows, &columns)
    }
}

/// The list of commands and fills.
fn listed(
    alloc: Global,
    leaf: &Leaf,
    from: &ArrayPlace,
    piece: Piece,
    buffer: u32,
) -> Result<Segments, AllocError>
    requires { CanRead leaf.now from.now piece buffer }
    ensures shaped { IsExtent leaf.now.shape }
    ensures commands { IfOk result (λ s. s.commands.items ≡ (read_list leaf.now from.now piece buffer).commands) }
    ensures fills { IfOk result (λ s. s.fills.items ≡ (read_list leaf.now from.now piece buffer).fills) }
{
    let layout = layout_of(leaf, piece);
    let sides = Sides {
        size: leaf.elem.size(),
        array: from.place,
        buffer,
    };
    let rows = row_runs(alloc, leaf, piece)?;
    let columns = column_runs(alloc, leaf, piece)?;
    let keeps = keeps_neighbours(&leaf.map);
    let patches = patches_of(alloc, keeps, layout, piece.h, &rows, &columns)?;
    segments(alloc, sides, leaf.elem, fill_of(&leaf.map), &patches)
}

/// The commands that bring a piece of a leaf from its array, which stands at `from`, into the cells from `buffer` on,
/// and the fills of the elements that have no source. The piece's rows follow one another there without gaps, each
/// byte is written once, and no other; the commands have the tag 0. The piece lies in the leaf's result, the array
/// has the leaf's type and number of elements, and its end and that of the buffer are below 2^32. The only error is
/// that memory runs out. The time is linear in the number of commands and fills.
pub fn reads(
    alloc: Global,
    leaf: &Leaf,
    from: &ArrayPlace,
    piece: Piece,
    buffer: u32,
) -> Result<Segments, AllocError>
    requires { CanRead leaf.now from.now piece buffer }
    ensures commands { IfOk result (λ s. s.commands.items ≡ (read_list leaf.now from.now piece buffer).commands) }
    ensures fills { IfOk result (λ s. s.fills.items ≡ (read_list leaf.now from.now piece buffer).fills) }
    ensures put { IfOk result (λ s. PutPiece leaf.now from.now piece buffer s.commands.items s.fills.items) }
    ensures moves { IfOk result (λ s. length s.commands.items + length s.fills.items ≤ moves leaf.now.map piece) }
    ensures few { IfOk result (λ s. length s.commands.items ≤ command_limit leaf.now.map piece) }
    ensures few_fills { IfOk result (λ s. length s.fills.items ≤ fill_limit leaf.now.map) }
    ensures large { IfOk result (λ s. All HasLongRows s.commands.items) }
    ensures large_fills { IfOk result (λ s. All HasLongFillRows s.fills.items) }
{
    listed(alloc, leaf, from, piece, buffer)
}
