//! Bringing a piece of a leaf into its buffer (docs/COMPILER.md, "Programs of transfers").
ghost use Rattle.std.specs.Prelude.{◌≡◌, ◌+◌, ◌≤◌, true, false, IfOk};
ghost use Rattle.ven_base.specs.Mapping.{FitsShape};
ghost use Rattle.dma_segments.specs.Patch.{keeps_neighbours};
ghost use Rattle.host_programs.specs.Expr as plain;
ghost use Rattle.host_programs.specs.Program as list;
ghost use Rattle.host_programs.specs.Shown.{expr_of, program_of};
ghost use Rattle.transfer_programs.specs.Axis as axes;
ghost use Rattle.transfer_programs.specs.ReadProgram as plan;
ghost use Rattle.transfer_builder.specs.declared.axis.Grain.TheVariants.{Runs};
ghost use Rattle.transfer_builder.specs.declared.grid.Way.TheVariants.{Lines, Crosses};
ghost use Rattle.transfer_builder.specs.Shown.{small_of, piece_of, target_of, axis_of, IsKind, sides_of, patches_by};

use crate::axis::{Axis, AxisKind, Grain, Span};
use crate::grid::{Way, patches_program};
use crate::patch_expr::Sides;
use crate::repeats::repeated_count;
use crate::small_expr::{PieceExpr, SmallExpr, Target};
use crate::sums::copy_of;
use host_programs::{Expr, Program};
use pass_plan::{ArrayPlace, Leaf};
use std::alloc::{AllocError, Global};
use ven_base::{Mapping, Shape};

/// Whether neighbours in a row of the result come from neighbours, run by run.
fn keeps_neighbours(map: Mapping) -> bool
    ensures { result ≡ keeps_neighbours map }
{
    match map {
        Mapping::Identity | Mapping::Shift { .. } | Mapping::Rotate { .. } => true,
        Mapping::Section { sc, .. } => sc == 1,
        Mapping::Stretch { kc, .. } => kc == 1,
        Mapping::Transpose => false,
    }
}

/// The axis of a piece's rows, run by run.
fn rows_axis(map: Mapping, shape: Shape, span: Span) -> Axis
    requires { FitsShape map shape }
    ensures axis { axis_of result ≡ plan.rows_axis map shape (small_of span.start) (small_of span.n) }
    ensures kind { IsKind result.kind }
    ensures grain { result.grain ≡ Runs }
{
    let kind = match map {
        Mapping::Identity | Mapping::Transpose => AxisKind::Plain,
        Mapping::Shift { dr, .. } => AxisKind::Shifted {
            size: shape.rows,
            by: dr,
        },
        Mapping::Rotate { dr, .. } => AxisKind::Round {
            size: shape.rows,
            by: dr,
        },
        Mapping::Section { r0, sr, .. } => AxisKind::Cut {
            first: r0,
            step: sr,
        },
        Mapping::Stretch { kr, .. } => AxisKind::Repeated { times: kr },
    };
    Axis {
        kind,
        span,
        grain: Grain::Runs,
    }
}

/// The axis of its columns.
fn columns_axis(map: Mapping, shape: Shape, span: Span) -> Axis
    requires { FitsShape map shape }
    ensures axis { axis_of result ≡ plan.columns_axis map shape (small_of span.start) (small_of span.n) }
    ensures kind { IsKind result.kind }
    ensures grain { result.grain ≡ Runs }
{
    let kind = match map {
        Mapping::Identity | Mapping::Transpose => AxisKind::Plain,
        Mapping::Shift { dc, .. } => AxisKind::Shifted {
            size: shape.cols,
            by: dc,
        },
        Mapping::Rotate { dc, .. } => AxisKind::Round {
            size: shape.cols,
            by: dc,
        },
        Mapping::Section { c0, sc, .. } => AxisKind::Cut {
            first: c0,
            step: sc,
        },
        Mapping::Stretch { kc, .. } => AxisKind::Repeated { times: kc },
    };
    Axis {
        kind,
        span,
        grain: Grain::Runs,
    }
}

/// How many runs the rows of a piece have, where the map doesn't keep neighbours.
fn row_count(alloc: Global, map: Mapping, span: Span) -> Result<Expr, AllocError>
    ensures { IfOk result (λ e. expr_of e ≡ plan.run_count map (small_of span.start) (small_of span.n) true) }
{
    match map {
        Mapping::Stretch { kr, .. } => repeated_count(alloc, kr, span),
        _ => Ok(Expr::Number(1)),
    }
}

/// How many its columns have.
fn column_count(alloc: Global, map: Mapping, span: Span) -> Result<Expr, AllocError>
    ensures { IfOk result (λ e. expr_of e ≡ plan.run_count map (small_of span.start) (small_of span.n) false) }
{
    match map {
        Mapping::Stretch { kc, .. } => repeated_count(alloc, kc, span),
        _ => Ok(Expr::Number(1)),
    }
}

/// How many commands a piece has, element by element along its rows, and along its columns.
#[derive(Drop)]
struct Counts {
    by_rows: Expr,
    by_columns: Expr,
}

/// Reads rows and columns element by element, in whichever way has fewer commands.
fn fewest_program(
    alloc: Global,
    counts: Counts,
    sides: Sides,
    rows: Axis,
    columns: Axis,
    d: u8,
) -> Result<Program, AllocError>
    requires rows { IsKind rows.kind × (rows.grain ≡ Runs) }
    requires columns { IsKind columns.kind × (columns.grain ≡ Runs) }
    requires low { d ≤ 32 }
    ensures { IfOk result (λ p. program_of p ≡ list.Both
        (list.UnlessLess (expr_of counts.by_columns) (expr_of counts.by_rows)
        (patches_by Crosses (sides_of sides) (axes.singles_of (axis_of rows)) (axis_of columns) d))
        (list.UnlessLess (expr_of counts.by_rows) (plain.Offset (expr_of counts.by_columns) 1)
        (patches_by Lines (sides_of sides) (axis_of rows) (axes.singles_of (axis_of columns)) d))) }
{
    let by_rows = copy_of(alloc, &counts.by_rows)?;
    let by_columns = copy_of(alloc, &counts.by_columns)?;
    let more = Expr::offset(alloc, by_columns, 1)?;
    let crosses = patches_program(alloc, Way::Crosses, sides, rows.by_places(), columns, d)?;
    let lines = patches_program(alloc, Way::Lines, sides, rows, columns.by_places(), d)?;
    let along_rows = Program::unless_less(alloc, counts.by_columns, by_rows, crosses)?;
    let along_columns = Program::unless_less(alloc, counts.by_rows, more, lines)?;
    Program::both(alloc, along_rows, along_columns)
}

/// How many commands a piece has, where the map doesn't keep neighbours.
fn counts_of(alloc: Global, map: Mapping, piece: PieceExpr) -> Result<Counts, AllocError>
    ensures rows { IfOk result (λ c. expr_of c.by_rows
        ≡ plain.Product (small_of piece.h) (plan.run_count map (small_of piece.c0) (small_of piece.w) false)) }
    ensures columns { IfOk result (λ c. expr_of c.by_columns
        ≡ plain.Product (plan.run_count map (small_of piece.r0) (small_of piece.h) true) (small_of piece.w)) }
{
    let columns = column_count(alloc, map, columns_of(piece))?;
    let rows = row_count(alloc, map, rows_of(piece))?;
    Ok(Counts {
        by_rows: Expr::product(alloc, piece.h.expr(alloc)?, columns)?,
        by_columns: Expr::product(alloc, rows, piece.w.expr(alloc)?)?,
    })
}

fn rows_of(piece: PieceExpr) -> Span
    ensures { result ≡ record { start = piece.r0; n = piece.h } }
{
    Span {
        start: piece.r0,
        n: piece.h,
    }
}

fn columns_of(piece: PieceExpr) -> Span
    ensures { result ≡ record { start = piece.c0; n = piece.w } }
{
    Span {
        start: piece.c0,
        n: piece.w,
    }
}

/// Reads a piece of a map's result.
fn read_program(
    alloc: Global,
    map: Mapping,
    shape: Shape,
    sides: Sides,
    piece: PieceExpr,
    d: u8,
) -> Result<Program, AllocError>
    requires fits { FitsShape map shape }
    requires low { d ≤ 32 }
    ensures { IfOk result (λ p. program_of p ≡ plan.read_program map shape (sides_of sides) (piece_of piece) d) }
{
    let rows = rows_axis(map, shape, rows_of(piece));
    let columns = columns_axis(map, shape, columns_of(piece));
    if keeps_neighbours(map) {
        return patches_program(alloc, Way::Lines, sides, rows, columns, d);
    }
    let counts = counts_of(alloc, map, piece)?;
    fewest_program(alloc, counts, sides, rows, columns, d)
}

/// The sides of a leaf's piece.
fn sides_of_leaf(leaf: &Leaf, from: &ArrayPlace, width: SmallExpr, target: Target) -> Sides
    ensures { sides_of result ≡ plan.sides_of_leaf leaf.now from.now (small_of target.buffer) (small_of width)
        (small_of target.tag) }
{
    let columns = leaf.shape.cols;
    let (row_pitch, column_pitch) = match leaf.map {
        Mapping::Transpose => (1, columns),
        _ => (columns, 1),
    };
    Sides {
        size: leaf.elem.size(),
        array: from.place,
        row_pitch,
        column_pitch,
        buffer: target.buffer,
        width,
        tag: target.tag,
    }
}

/// The program that brings a piece of a leaf from its array, which stands at `from`, where the first `d` registers are
/// in use, at most 32: its list is that of the piece's commands, with the target's tag. The leaf's map fits its shape.
/// The only error is that memory runs out.
pub fn leaf_program(
    alloc: Global,
    leaf: &Leaf,
    from: &ArrayPlace,
    piece: PieceExpr,
    target: Target,
    d: u8,
) -> Result<Program, AllocError>
    requires fits { FitsShape leaf.now.map leaf.now.shape }
    requires low { d ≤ 32 }
    ensures { IfOk result (λ p. program_of p
        ≡ plan.leaf_program leaf.now from.now (piece_of piece) (target_of target) d) }
{
    let sides = sides_of_leaf(leaf, from, piece.w, target);
    read_program(alloc, leaf.map, leaf.shape, sides, piece, d)
}
