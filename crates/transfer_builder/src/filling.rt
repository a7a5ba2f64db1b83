//! Filling what has no source in a piece of a leaf (docs/COMPILER.md, "Programs of transfers").
ghost use Rattle.std.specs.Prelude.{◌≡◌, ◌+◌, ◌≤◌, ◌<◌, ◌^◌, ◌-◌, true, false, IfOk};
ghost use Rattle.ven_base.specs.Extent.{IsExtent};
ghost use Rattle.ven_base.specs.Mapping.{FitsShape};
ghost use Rattle.ven_base.specs.Place.{IsMove};
ghost use Rattle.host_programs.specs.Expr as plain;
ghost use Rattle.host_programs.specs.Program as list;
ghost use Rattle.host_programs.specs.Shown.{expr_of, order_of, program_of};
ghost use Rattle.transfer_programs.specs.Axis as axes;
ghost use Rattle.transfer_programs.specs.FillProgram as plan;
ghost use Rattle.transfer_builder.specs.Shown.{small_of, piece_of, fill_sides_of, fill_of, columns_fill_of};

use crate::axis::Span;
use crate::small_expr::{PieceExpr, SmallExpr};
use crate::sums::{copy_of, lesser, plus, scaled, times};
use dma_segments::{move_kind, word_of};
use host_programs::{Expr, Order, Program, VectorOrder};
use pass_plan::Leaf;
use std::alloc::{AllocError, Global};
use ven_base::{Elem, Mapping, Shape};

/// The type of a piece's elements and the number that fills it; its first cell, and how wide it is.
#[derive(Clone, Copy)]
pub struct FillSides {
    pub elem: Elem,
    pub value: i64,
    pub buffer: SmallExpr,
    pub width: SmallExpr,
}

/// So many rows of so many elements from this cell on, each row so many bytes after the one before.
#[derive(Drop)]
pub struct FillExpr {
    pub at: Expr,
    pub rows: Expr,
    pub cols: Expr,
    pub step: Expr,
}

/// Columns of rows: the first row, how many rows there are, how many bytes stand before the columns in each, and how
/// many columns there are.
#[derive(Drop)]
struct ColumnsExpr {
    first: Expr,
    count: Expr,
    before: Expr,
    columns: SmallExpr,
}

// ---- one fill

/// A move of the number.
fn fill_order(s: FillSides, fill: FillExpr) -> Order
    ensures { order_of result ≡ plan.fill_order (fill_sides_of s) (fill_of fill) }
{
    Order::IssueVector(VectorOrder {
        kind: move_kind(s.elem, true, false),
        vl: fill.cols,
        rows: fill.rows,
        dst: fill.at,
        a: Expr::Number(word_of(s.value)),
        b: Expr::Number(0),
        dst_step: fill.step,
        a_step: Expr::Number(0),
        b_step: Expr::Number(0),
    })
}

/// How many bytes a row of the piece has.
fn row_bytes(alloc: Global, s: FillSides) -> Result<Expr, AllocError>
    ensures { IfOk result (λ e. expr_of e ≡ plan.row_bytes (fill_sides_of s)) }
{
    scaled(alloc, s.width.expr(alloc)?, s.elem.size())
}

/// The cell of a row's first byte.
fn row_cell(alloc: Global, s: FillSides, row: Expr) -> Result<Expr, AllocError>
    ensures { IfOk result (λ e. expr_of e
        ≡ axes.plus (axes.times (expr_of row) (plan.row_bytes (fill_sides_of s))) (small_of s.buffer)) }
{
    let way = times(alloc, row, row_bytes(alloc, s)?)?;
    plus(alloc, way, s.buffer.expr(alloc)?)
}

/// How many elements so many rows have.
fn elements_of(alloc: Global, s: FillSides, rows: SmallExpr) -> Result<Expr, AllocError>
    ensures { IfOk result (λ e. expr_of e ≡ plain.Product (small_of rows) (small_of s.width)) }
{
    let rows = rows.expr(alloc)?;
    Expr::product(alloc, rows, s.width.expr(alloc)?)
}

/// Fills whole rows, which are one row, where there are any.
fn rows_fill(
    alloc: Global,
    s: FillSides,
    first: Expr,
    count: SmallExpr,
) -> Result<Program, AllocError>
    ensures { IfOk result (λ p. program_of p ≡ plan.rows_fill (fill_sides_of s) (expr_of first) (small_of count)) }
{
    let at = row_cell(alloc, s, first)?;
    let cols = elements_of(alloc, s, count)?;
    let fill = FillExpr {
        at,
        rows: Expr::Number(1),
        cols,
        step: Expr::Number(0),
    };
    let command = Program::Emit(fill_order(s, fill));
    Program::unless_less(alloc, count.expr(alloc)?, Expr::Number(1), command)
}

/// The columns, or where they are as wide as the piece, so many times as many: the number is in a register.
fn joined_columns(
    alloc: Global,
    s: FillSides,
    columns: SmallExpr,
    rows: u8,
) -> Result<Expr, AllocError>
    ensures { IfOk result (λ e. expr_of e ≡ plain.IfLess (small_of columns) (small_of s.width) (small_of columns)
        (plain.Product (plain.Variable rows) (small_of columns))) }
{
    let all = Expr::product(alloc, Expr::Variable(rows), columns.expr(alloc)?)?;
    let (part, width) = (columns.expr(alloc)?, s.width.expr(alloc)?);
    Expr::if_less(alloc, columns.expr(alloc)?, width, part, all)
}

/// The cell of the columns' first byte in the first row.
fn columns_cell(alloc: Global, s: FillSides, part: &ColumnsExpr) -> Result<Expr, AllocError>
    ensures { IfOk result (λ e. expr_of e
        ≡ axes.plus (axes.times (expr_of part.now.first) (plan.row_bytes (fill_sides_of s)))
        (axes.plus (expr_of part.now.before) (small_of s.buffer))) }
{
    let before = copy_of(alloc, &part.before)?;
    let cell = plus(alloc, before, s.buffer.expr(alloc)?)?;
    let first = copy_of(alloc, &part.first)?;
    plus(alloc, times(alloc, first, row_bytes(alloc, s)?)?, cell)
}

/// How far the rows stand apart, whose number is in a register: 0 where they are fewer than two.
fn step_between(alloc: Global, s: FillSides, rows: u8) -> Result<Expr, AllocError>
    ensures { IfOk result (λ e. expr_of e ≡ plain.IfLess (plain.Variable rows) (plain.Number 2) (plain.Number 0)
        (plan.row_bytes (fill_sides_of s))) }
{
    let bytes = row_bytes(alloc, s)?;
    Expr::if_less(
        alloc,
        Expr::Variable(rows),
        Expr::Number(2),
        Expr::Number(0),
        bytes,
    )
}

/// The fill of the columns: register `d` has how many rows, and the next one how many are left.
fn columns_expr(
    alloc: Global,
    s: FillSides,
    part: &ColumnsExpr,
    d: u8,
) -> Result<FillExpr, AllocError>
    requires { d + 1 ≤ 255 }
    ensures { IfOk result (λ fill. fill_of fill ≡ columns_fill_of (fill_sides_of s) (expr_of part.now.first)
        (expr_of part.now.before) (small_of part.now.columns) d) }
{
    let at = columns_cell(alloc, s, part)?;
    let cols = joined_columns(alloc, s, part.columns, d)?;
    let step = step_between(alloc, s, d + 1)?;
    Ok(FillExpr {
        at,
        rows: Expr::Variable(d + 1),
        cols,
        step,
    })
}

/// How many rows are left where rows as wide as the piece are one: register `d` has how many there are.
fn rows_left(alloc: Global, s: FillSides, columns: SmallExpr, d: u8) -> Result<Expr, AllocError>
    ensures { IfOk result (λ e. expr_of e ≡ plain.IfLess (small_of columns) (small_of s.width) (plain.Variable d)
        (plain.Number 1)) }
{
    let columns = columns.expr(alloc)?;
    let width = s.width.expr(alloc)?;
    Expr::if_less(alloc, columns, width, Expr::Variable(d), Expr::Number(1))
}

/// So many columns of rows. Register `d` has how many rows, and the next one how many are left where rows as wide as
/// the piece are one.
fn columns_fill(
    alloc: Global,
    s: FillSides,
    part: &ColumnsExpr,
    d: u8,
) -> Result<Program, AllocError>
    requires { d + 1 ≤ 255 }
    ensures { IfOk result (λ p. program_of p ≡ plan.columns_fill (fill_sides_of s) (expr_of part.now.first)
        (expr_of part.now.count) (expr_of part.now.before) (small_of part.now.columns) d) }
{
    let command = Program::Emit(fill_order(s, columns_expr(alloc, s, part, d)?));
    let named = Program::with(alloc, rows_left(alloc, s, part.columns, d)?, command)?;
    let guarded = Program::unless_less(alloc, Expr::Variable(d), Expr::Number(1), named)?;
    let counted = Program::with(alloc, copy_of(alloc, &part.count)?, guarded)?;
    Program::unless_less(alloc, part.columns.expr(alloc)?, Expr::Number(1), counted)
}

// ---- the fills of a shift

/// The place `way` further on than the one behind an axis' last.
fn later_end(alloc: Global, way: u32, span: Span) -> Result<Expr, AllocError>
    ensures { IfOk result (λ e. expr_of e ≡ plain.Offset (plain.Sum (small_of span.start) (small_of span.n)) way) }
{
    let start = span.start.expr(alloc)?;
    let end = Expr::sum(alloc, start, span.n.expr(alloc)?)?;
    Expr::offset(alloc, end, way)
}

/// How many places of an axis of `size` places come from behind its end, where they come from places `way` further on.
fn outside_later(alloc: Global, size: u32, way: u32, span: Span) -> Result<Expr, AllocError>
    requires { size < 2 ^ 32 - 1 }
    ensures { IfOk result (λ e. expr_of e ≡ plain.IfLess
        (plain.Offset (plain.Sum (small_of span.start) (small_of span.n)) way) (plain.Number (size + 1)) (plain.Number 0)
        (axes.lesser (small_of span.n)
        (plain.Difference (plain.Offset (plain.Sum (small_of span.start) (small_of span.n)) way) (plain.Number size)))) }
{
    let over = Expr::difference(alloc, later_end(alloc, way, span)?, Expr::Number(size))?;
    let count = lesser(alloc, span.n.expr(alloc)?, over)?;
    let past = later_end(alloc, way, span)?;
    Expr::if_less(alloc, past, Expr::Number(size + 1), Expr::Number(0), count)
}

/// How many places of an axis come from before its first, where they come from places `way` further back.
fn outside_earlier(alloc: Global, way: u32, span: Span) -> Result<Expr, AllocError>
    requires { 1 ≤ way }
    ensures { IfOk result (λ e. expr_of e ≡ plain.IfLess (plain.Number (way - 1)) (small_of span.start)
        (plain.Number 0) (axes.lesser (small_of span.n) (plain.Difference (plain.Number way) (small_of span.start)))) }
{
    let left = Expr::difference(alloc, Expr::Number(way), span.start.expr(alloc)?)?;
    let count = lesser(alloc, span.n.expr(alloc)?, left)?;
    let start = span.start.expr(alloc)?;
    Expr::if_less(alloc, Expr::Number(way - 1), start, Expr::Number(0), count)
}

/// How many places of a shifted axis have no source: the last ones, or the first.
fn outside_expr(alloc: Global, size: u32, by: i64, span: Span) -> Result<Expr, AllocError>
    requires size { size < 2 ^ 32 - 1 }
    requires moves { IsMove by }
    ensures { IfOk result (λ e. expr_of e ≡ plan.outside_expr size by (small_of span.start) (small_of span.n)) }
{
    if by >= 0 {
        outside_later(alloc, size, (by as u32).min(size), span)
    } else {
        outside_earlier(alloc, -by as u32, span)
    }
}

/// How many bytes of a row stand before its columns without a source.
fn bytes_before(
    alloc: Global,
    s: FillSides,
    by: i64,
    columns: SmallExpr,
) -> Result<Expr, AllocError>
    ensures { IfOk result (λ e. expr_of e ≡ plan.bytes_before (fill_sides_of s) by (small_of columns)) }
{
    if by < 0 {
        return Ok(Expr::Number(0));
    }
    let way = Expr::difference(alloc, s.width.expr(alloc)?, columns.expr(alloc)?)?;
    scaled(alloc, way, s.elem.size())
}

/// Rows and columns without a source: register `d` has how many rows have none, and the next one how many columns.
#[derive(Clone, Copy)]
struct Outside {
    height: SmallExpr,
    rows: SmallExpr,
    columns: SmallExpr,
}

/// How many rows have a source.
fn sourced_rows(alloc: Global, outside: Outside) -> Result<Expr, AllocError>
    ensures { IfOk result (λ e. expr_of e ≡ plain.Difference (small_of outside.height) (small_of outside.rows)) }
{
    let (height, rows) = (outside.height.expr(alloc)?, outside.rows.expr(alloc)?);
    Expr::difference(alloc, height, rows)
}

/// Fills columns of the rows that have a source.
fn sourced_fills(
    alloc: Global,
    s: FillSides,
    outside: Outside,
    first: Expr,
    before: Expr,
    d: u8,
) -> Result<Program, AllocError>
    requires { d + 1 ≤ 255 }
    ensures { IfOk result (λ p. program_of p ≡ plan.columns_fill (fill_sides_of s) (expr_of first)
        (plain.Difference (small_of outside.height) (small_of outside.rows)) (expr_of before)
        (small_of outside.columns) d) }
{
    let part = ColumnsExpr {
        first,
        count: sourced_rows(alloc, outside)?,
        before,
        columns: outside.columns,
    };
    columns_fill(alloc, s, &part, d)
}

/// Fills columns of the other rows, and then the last rows.
fn later_fills(
    alloc: Global,
    s: FillSides,
    outside: Outside,
    before: Expr,
    d: u8,
) -> Result<Program, AllocError>
    requires { d + 1 ≤ 255 }
    ensures { IfOk result (λ p. program_of p ≡ list.Both
        (plan.columns_fill (fill_sides_of s) (plain.Number 0)
        (plain.Difference (small_of outside.height) (small_of outside.rows)) (expr_of before)
        (small_of outside.columns) d)
        (plan.rows_fill (fill_sides_of s) (plain.Difference (small_of outside.height) (small_of outside.rows))
        (small_of outside.rows))) }
{
    let columns = sourced_fills(alloc, s, outside, Expr::Number(0), before, d)?;
    let last = rows_fill(alloc, s, sourced_rows(alloc, outside)?, outside.rows)?;
    Program::both(alloc, columns, last)
}

/// Fills the first rows, and then columns of the other rows.
fn earlier_fills(
    alloc: Global,
    s: FillSides,
    outside: Outside,
    before: Expr,
    d: u8,
) -> Result<Program, AllocError>
    requires { d + 1 ≤ 255 }
    ensures { IfOk result (λ p. program_of p ≡ list.Both
        (plan.rows_fill (fill_sides_of s) (plain.Number 0) (small_of outside.rows))
        (plan.columns_fill (fill_sides_of s) (small_of outside.rows)
        (plain.Difference (small_of outside.height) (small_of outside.rows)) (expr_of before)
        (small_of outside.columns) d)) }
{
    let rows = outside.rows.expr(alloc)?;
    let columns = sourced_fills(alloc, s, outside, rows, before, d)?;
    let first = rows_fill(alloc, s, Expr::Number(0), outside.rows)?;
    Program::both(alloc, first, columns)
}

/// Fills rows and columns without a source, in the order of the piece's rows.
fn fills_in_order(
    alloc: Global,
    s: FillSides,
    by: i64,
    outside: Outside,
    before: Expr,
    d: u8,
) -> Result<Program, AllocError>
    requires { d + 1 ≤ 255 }
    ensures { IfOk result (λ p. program_of p ≡ plan.fills_in_order (fill_sides_of s) by (small_of outside.height)
        (small_of outside.rows) (expr_of before) (small_of outside.columns) d) }
{
    if by >= 0 {
        later_fills(alloc, s, outside, before, d)
    } else {
        earlier_fills(alloc, s, outside, before, d)
    }
}

/// How far a shift goes: rows down and columns right.
#[derive(Clone, Copy)]
struct Way {
    dr: i64,
    dc: i64,
}

/// Fills what has no source in a piece of a shift's result. Register `d` has how many rows have none, and the next one
/// how many columns.
fn shift_fills(
    alloc: Global,
    s: FillSides,
    shape: Shape,
    way: Way,
    piece: PieceExpr,
    d: u8,
) -> Result<Program, AllocError>
    requires rows { IsMove way.dr }
    requires columns { IsMove way.dc }
    requires low { d ≤ 32 }
    ensures { IfOk result (λ p. program_of p ≡ plan.shift_fills (fill_sides_of s) shape way.dr way.dc (piece_of piece) d) }
{
    let rows = Span {
        start: piece.r0,
        n: piece.h,
    };
    let columns = Span {
        start: piece.c0,
        n: piece.w,
    };
    let outside = Outside {
        height: piece.h,
        rows: SmallExpr::Variable(d),
        columns: SmallExpr::Variable(d + 1),
    };
    let before = bytes_before(alloc, s, way.dc, outside.columns)?;
    let fills = fills_in_order(alloc, s, way.dr, outside, before, d + 2)?;
    let outside_columns = outside_expr(alloc, shape.cols, way.dc, columns)?;
    let named = Program::with(alloc, outside_columns, fills)?;
    let outside_rows = outside_expr(alloc, shape.rows, way.dr, rows)?;
    Program::with(alloc, outside_rows, named)
}

// ---- the fills of a leaf's piece

/// The program that fills what has no source in a piece of a leaf, which only a shift leaves, where the first `d`
/// registers are in use, at most 32: its list is that of the moves of the piece's fills, from the cell `buffer` on. The
/// leaf's map fits its shape. The only error is that memory runs out.
pub fn fill_program(
    alloc: Global,
    leaf: &Leaf,
    piece: PieceExpr,
    buffer: SmallExpr,
    d: u8,
) -> Result<Program, AllocError>
    requires fits { FitsShape leaf.now.map leaf.now.shape }
    requires low { d ≤ 32 }
    ensures { IfOk result (λ p. program_of p ≡ plan.fill_program leaf.now (piece_of piece) (small_of buffer) d) }
{
    match leaf.map {
        Mapping::Shift { dr, dc, fill } => {
            let sides = FillSides {
                elem: leaf.elem,
                value: fill,
                buffer,
                width: piece.w,
            };
            shift_fills(alloc, sides, leaf.shape, Way { dr, dc }, piece, d)
        }
        _ => Ok(Program::Idle),
    }
}
