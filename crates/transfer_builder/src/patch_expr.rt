//! Patches of a piece by expressions, and their commands (`specs/ReadProgram`). All is counted in elements.
ghost use Rattle.std.specs.Prelude.{◌≡◌, ◌+◌, ◌≤◌, IfOk};
ghost use Rattle.host_programs.specs.Expr as plain;
ghost use Rattle.host_programs.specs.Program as list;
ghost use Rattle.host_programs.specs.Shown.{expr_of, transfer_of, program_of};
ghost use Rattle.transfer_programs.specs.Axis as axes;
ghost use Rattle.transfer_programs.specs.ReadProgram as reads;
ghost use Rattle.transfer_builder.specs.Shown.{small_of, run_of, sides_of, patch_of, patch_order};

use crate::run_expr::RunExpr;
use crate::small_expr::SmallExpr;
use crate::sums::{copy_of, plus, scaled, scaled_copy, times};
use host_programs::{Expr, Order, Program, TransferOrder};
use std::alloc::{AllocError, Global};

/// How many bytes an element has, the place of an array's first byte, how far apart the sources of neighbouring rows
/// and of neighbouring columns stand, the first cell of the piece's buffer, how wide the piece is, and the tag of its
/// commands.
#[derive(Clone, Copy)]
pub struct Sides {
    pub size: u32,
    pub array: u32,
    pub row_pitch: u32,
    pub column_pitch: u32,
    pub buffer: SmallExpr,
    pub width: SmallExpr,
    pub tag: SmallExpr,
}

/// Rows of adjacent elements of a piece, whose sources are adjacent too. `to` is an element of the piece, row by row,
/// and `from` one of the array.
#[derive(Drop)]
pub struct PatchExpr {
    pub rows: Expr,
    pub cols: Expr,
    pub to: Expr,
    pub to_step: Expr,
    pub from: Expr,
    pub from_step: Expr,
}

/// The element of the array from which the first of two runs comes.
fn source_expr(alloc: Global, s: Sides, a: &RunExpr, b: &RunExpr) -> Result<Expr, AllocError>
    ensures { IfOk result (λ e. expr_of e ≡ reads.source_expr (sides_of s) (run_of a.now) (run_of b.now)) }
{
    let row = scaled_copy(alloc, &a.source, s.row_pitch)?;
    let column = scaled_copy(alloc, &b.source, s.column_pitch)?;
    Expr::sum(alloc, row, column)
}

/// So many rows of the piece, in elements.
fn rows_expr(alloc: Global, s: Sides, rows: &Expr) -> Result<Expr, AllocError>
    ensures { IfOk result (λ e. expr_of e ≡ axes.times (expr_of rows.now) (small_of s.width)) }
{
    let rows = copy_of(alloc, rows)?;
    times(alloc, rows, s.width.expr(alloc)?)
}

/// The element of the piece in which the first of two runs stands.
fn place_expr(alloc: Global, s: Sides, a: &RunExpr, b: &RunExpr) -> Result<Expr, AllocError>
    ensures { IfOk result (λ e. expr_of e
        ≡ axes.plus (axes.times (expr_of a.now.first) (sides_of s).width) (expr_of b.now.first)) }
{
    let row = rows_expr(alloc, s, &a.first)?;
    plus(alloc, row, copy_of(alloc, &b.first)?)
}

/// A run's columns in the rows of a run.
pub fn line_expr(alloc: Global, s: Sides, a: &RunExpr, b: &RunExpr) -> Result<PatchExpr, AllocError>
    ensures { IfOk result (λ p. patch_of p ≡ reads.line_expr (sides_of s) (run_of a.now) (run_of b.now)) }
{
    Ok(PatchExpr {
        rows: copy_of(alloc, &a.count)?,
        cols: copy_of(alloc, &b.count)?,
        to: place_expr(alloc, s, a, b)?,
        to_step: rows_expr(alloc, s, &a.step)?,
        from: source_expr(alloc, s, a, b)?,
        from_step: scaled_copy(alloc, &a.source_step, s.row_pitch)?,
    })
}

/// A run's columns in the first row of a run, an element a row.
pub fn cross_expr(
    alloc: Global,
    s: Sides,
    a: &RunExpr,
    b: &RunExpr,
) -> Result<PatchExpr, AllocError>
    ensures { IfOk result (λ p. patch_of p ≡ reads.cross_expr (sides_of s) (run_of a.now) (run_of b.now)) }
{
    Ok(PatchExpr {
        rows: copy_of(alloc, &b.count)?,
        cols: Expr::Number(1),
        to: place_expr(alloc, s, a, b)?,
        to_step: copy_of(alloc, &b.step)?,
        from: source_expr(alloc, s, a, b)?,
        from_step: scaled_copy(alloc, &b.source_step, s.column_pitch)?,
    })
}

/// The expression, or 0 where the first is below the second.
fn unless_less(alloc: Global, a: &Expr, b: &Expr, e: Expr) -> Result<Expr, AllocError>
    ensures { IfOk result (λ r. expr_of r
        ≡ plain.IfLess (expr_of a.now) (expr_of b.now) (plain.Number 0) (expr_of e)) }
{
    let (a, b) = (copy_of(alloc, a)?, copy_of(alloc, b)?);
    Expr::if_less(alloc, a, b, Expr::Number(0), e)
}

/// 1 where there are rows that are adjacent on both sides, else 0.
fn is_joined(alloc: Global, p: &PatchExpr) -> Result<Expr, AllocError>
    ensures { IfOk result (λ e. expr_of e ≡ reads.is_joined (patch_of p.now)) }
{
    let dense = unless_less(alloc, &p.cols, &p.from_step, Expr::Number(1))?;
    let adjacent = unless_less(alloc, &p.from_step, &p.cols, dense)?;
    let packed = unless_less(alloc, &p.cols, &p.to_step, adjacent)?;
    let both = unless_less(alloc, &p.to_step, &p.cols, packed)?;
    unless_less(alloc, &p.rows, &Expr::Number(2), both)
}

/// A number of elements in bytes, or 0 where the rows, whose number is in a register, are fewer than two.
fn step_between(alloc: Global, rows: u8, step: &Expr, size: u32) -> Result<Expr, AllocError>
    ensures { IfOk result (λ e. expr_of e ≡ plain.IfLess (plain.Variable rows) (plain.Number 2) (plain.Number 0)
        (axes.scaled (expr_of step.now) size)) }
{
    let bytes = scaled_copy(alloc, step, size)?;
    let rows = Expr::Variable(rows);
    Expr::if_less(alloc, rows, Expr::Number(2), Expr::Number(0), bytes)
}

/// The first where the rows aren't one, else the second: a register has 1 where they are.
fn unless_joined(alloc: Global, flag: u8, x: Expr, y: Expr) -> Result<Expr, AllocError>
    ensures { IfOk result (λ e. expr_of e
        ≡ plain.IfLess (plain.Variable flag) (plain.Number 1) (expr_of x) (expr_of y)) }
{
    Expr::if_less(alloc, Expr::Variable(flag), Expr::Number(1), x, y)
}

/// The place of the patch's first byte in memory.
fn memory_place(alloc: Global, s: Sides, p: &PatchExpr) -> Result<Expr, AllocError>
    ensures { IfOk result (λ e. expr_of e ≡ plain.Offset (axes.scaled (expr_of p.now.from) s.size) s.array) }
{
    Expr::offset(alloc, scaled_copy(alloc, &p.from, s.size)?, s.array)
}

/// The cell of its first byte.
fn buffer_cell(alloc: Global, s: Sides, p: &PatchExpr) -> Result<Expr, AllocError>
    ensures { IfOk result (λ e. expr_of e ≡ plain.Sum (small_of s.buffer) (axes.scaled (expr_of p.now.to) s.size)) }
{
    let to = scaled_copy(alloc, &p.to, s.size)?;
    Expr::sum(alloc, s.buffer.expr(alloc)?, to)
}

/// What the patch's command moves: register `d + 1` has its rows, and the next one its columns.
fn patch_order(alloc: Global, s: Sides, p: &PatchExpr, d: u8) -> Result<TransferOrder, AllocError>
    requires { d + 2 ≤ 255 }
    ensures { IfOk result (λ work. transfer_of work ≡ patch_order (sides_of s) (patch_of p.now) d) }
{
    Ok(TransferOrder {
        mem: memory_place(alloc, s, p)?,
        spad: buffer_cell(alloc, s, p)?,
        rows: Expr::Variable(d + 1),
        bytes: scaled(alloc, Expr::Variable(d + 2), s.size)?,
        mem_step: step_between(alloc, d + 1, &p.from_step, s.size)?,
        spad_step: step_between(alloc, d + 1, &p.to_step, s.size)?,
        tag: s.tag.expr(alloc)?,
    })
}

/// The program where register `d + 1` has the rows of the patch's command: 1 where register `d` is 1.
fn with_rows(alloc: Global, p: &PatchExpr, d: u8, q: Program) -> Result<Program, AllocError>
    ensures { IfOk result (λ r. program_of r ≡ list.Let (plain.IfLess (plain.Variable d) (plain.Number 1)
        (expr_of p.now.rows) (plain.Number 1)) (program_of q)) }
{
    let rows = copy_of(alloc, &p.rows)?;
    Program::with(alloc, unless_joined(alloc, d, rows, Expr::Number(1))?, q)
}

/// The columns of the patch's command: those of all rows where register `d` is 1.
fn columns_expr(alloc: Global, p: &PatchExpr, d: u8) -> Result<Expr, AllocError>
    ensures { IfOk result (λ e. expr_of e ≡ plain.IfLess (plain.Variable d) (plain.Number 1) (expr_of p.now.cols)
        (plain.Product (expr_of p.now.rows) (expr_of p.now.cols))) }
{
    let rows = copy_of(alloc, &p.rows)?;
    let all = Expr::product(alloc, rows, copy_of(alloc, &p.cols)?)?;
    unless_joined(alloc, d, copy_of(alloc, &p.cols)?, all)
}

/// The patch's command: a write, or else a read. Register `d` says whether its rows are one, and the next two have its
/// rows and columns then.
pub fn patch_program(
    alloc: Global,
    write: bool,
    s: Sides,
    p: &PatchExpr,
    d: u8,
) -> Result<Program, AllocError>
    requires { d + 2 ≤ 255 }
    ensures { IfOk result (λ r. program_of r ≡ reads.patch_program write (sides_of s) (patch_of p.now) d) }
{
    let work = patch_order(alloc, s, p, d)?;
    let command = Program::Emit(Order::IssueTransfer { write, work });
    let wide = Program::with(alloc, columns_expr(alloc, p, d)?, command)?;
    let high = with_rows(alloc, p, d, wide)?;
    Program::with(alloc, is_joined(alloc, p)?, high)
}
