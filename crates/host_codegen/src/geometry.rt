//! Where a tile's numbers stand (`specs/Geometry`).
ghost use Rattle.std.specs.Prelude.{◌≡◌, ◌==◌, ◌+◌, ◌<◌, ◌≤◌, if◌then◌else◌, IfOk, length};
ghost use Rattle.pass_plan.specs.Label.{label_of};
ghost use Rattle.pass_plan.specs.Buffers as plan;
ghost use Rattle.pass_plan.specs.Shown.{pass_of, tree_of};
ghost use Rattle.dma_schedule.specs.Plan.{IsReady};
ghost use Rattle.host_programs.specs.Expr as plain;
ghost use Rattle.host_programs.specs.Program as list;
ghost use Rattle.host_programs.specs.Shown.{expr_of, program_of};
ghost use Rattle.transfer_builder.specs.Shown.{small_of, piece_of};
ghost use Rattle.host_codegen.specs.Geometry as spec;
ghost use Rattle.host_codegen.specs.Shown.{layout_at};
ghost use Rattle.host_codegen.specs.Fit.{IsFitting};

use host_programs::{Expr, Program};
use pass_plan::parts::Tile;
use pass_plan::{ArrayPlace, Pass, label, tiles_per_row, widest};
use std::alloc::{AllocError, Global};
use transfer_builder::{PieceExpr, SmallExpr, lesser, scaled};

/// The numbers of a pass that its code has as literals.
#[derive(Clone, Copy)]
pub struct Layout {
    /// The rows and columns of the domain.
    pub rows: u32,
    pub cols: u32,
    pub tile: Tile,
    /// How many tiles stand side by side.
    pub across: u32,
    /// How many tiles a row of results takes.
    pub per_row: u32,
    /// The bytes of a buffer.
    pub bytes: u32,
    pub leaves: u32,
    pub slots: u32,
}

// ---- the layout of a pass

/// The bytes of a buffer of the pass.
fn buffer_bytes(arrays: &[ArrayPlace], pass: &Pass, tile: Tile) -> u32
    requires { IsReady arrays.now (pass_of pass.now) tile }
    ensures { result ≡ plan.buffer_bytes (pass_of pass.now) tile }
{
    tile.h * tile.w * widest(pass)
}

/// How many leaves the pass has.
fn leaf_count(arrays: &[ArrayPlace], pass: &Pass, tile: Tile) -> u32
    requires { IsReady arrays.now (pass_of pass.now) tile }
    ensures { result ≡ length (pass_of pass.now).leaves }
{
    pass.leaves.len() as u32
}

/// How many slots its order takes.
fn slot_count(arrays: &[ArrayPlace], pass: &Pass, tile: Tile) -> u32
    requires { IsReady arrays.now (pass_of pass.now) tile }
    ensures { result ≡ label_of (pass_of pass.now).tree }
{
    label(&pass.tree)
}

/// The layout of a pass.
pub fn layout_of(arrays: &[ArrayPlace], pass: &Pass, tile: Tile) -> Layout
    requires { IsReady arrays.now (pass_of pass.now) tile }
    ensures { layout_at result ≡ spec.layout_of (pass_of pass.now) tile }
{
    Layout {
        rows: pass.domain.rows,
        cols: pass.domain.cols,
        tile,
        across: pass.domain.cols.div_ceil(tile.w),
        per_row: tiles_per_row(pass, tile),
        bytes: buffer_bytes(arrays, pass, tile),
        leaves: leaf_count(arrays, pass, tile),
        slots: slot_count(arrays, pass, tile),
    }
}

// ---- cells

impl Layout {
    #[tactic(auto, using(crate::proofs::Cells::count_few, crate::proofs::Cells::cell_few))]
    /// The first cell of a slot.
    pub fn slot_cell(self, slot: u32) -> u32
        requires fits { IsFitting self }
        requires within { slot < self.slots }
        ensures { result ≡ spec.slot_cell (layout_at self) slot }
    {
        (self.leaves * 2 + slot) * self.bytes
    }

    #[tactic(auto, using(crate::proofs::Cells::count_few, crate::proofs::Cells::cell_few))]
    /// The first cell of the first output half.
    fn first_output_cell(self) -> u32
        requires { IsFitting self }
        ensures { result ≡ spec.first_output_cell (layout_at self) }
    {
        (self.leaves * 2 + self.slots) * self.bytes
    }

    #[tactic(auto, using(crate::proofs::Cells::count_few, crate::proofs::Cells::cell_few))]
    /// The first cell of the partial result.
    pub fn partial_cell(self) -> u32
        requires { IsFitting self }
        ensures { result ≡ spec.partial_cell (layout_at self) }
    {
        (self.leaves * 2 + self.slots + 2) * self.bytes
    }

    #[tactic(auto, using(crate::proofs::Cells::count_few, crate::proofs::Cells::cell_few))]
    /// The first cell of a leaf's half, where a register has how far the half is from half 0.
    pub fn leaf_expr(self, half: u8, number: u32) -> SmallExpr
        requires fits { IsFitting self }
        requires number { number < self.leaves }
        ensures { small_of result ≡ spec.leaf_expr (layout_at self) half number }
    {
        let cell = number * 2 * self.bytes;
        if cell == 0 {
            SmallExpr::Variable(half)
        } else {
            SmallExpr::Offset(half, cell)
        }
    }
}

// ---- a tile's piece

/// How many rows of tiles there are above the tile whose number is in a register.
fn rows_above(alloc: Global, layout: Layout, number: u8) -> Result<Expr, AllocError>
    ensures { IfOk result (λ e. expr_of e ≡ (if layout.across == 1 then plain.Variable number
        else plain.Quotient (plain.Variable number) (plain.Number layout.across))) }
{
    if layout.across == 1 {
        return Ok(Expr::Variable(number));
    }
    Expr::quotient(alloc, Expr::Variable(number), Expr::Number(layout.across))
}

/// The first row of the tile whose number is in a register.
fn first_row_expr(alloc: Global, layout: Layout, number: u8) -> Result<Expr, AllocError>
    ensures { IfOk result (λ e. expr_of e ≡ spec.first_row_expr (layout_at layout) number) }
{
    scaled(alloc, rows_above(alloc, layout, number)?, layout.tile.h)
}

/// Its first column.
fn first_column_expr(alloc: Global, layout: Layout, number: u8) -> Result<Expr, AllocError>
    ensures { IfOk result (λ e. expr_of e ≡ spec.first_column_expr (layout_at layout) number) }
{
    if layout.across == 1 {
        return Ok(Expr::Number(0));
    }
    let before = Expr::remainder(alloc, Expr::Variable(number), Expr::Number(layout.across))?;
    scaled(alloc, before, layout.tile.w)
}

/// How many rows it has, whose first is in a register.
fn rows_expr(alloc: Global, layout: Layout, first: u8) -> Result<Expr, AllocError>
    ensures { IfOk result (λ e. expr_of e ≡ spec.rows_expr (layout_at layout) first) }
{
    let rows = Expr::Number(layout.rows);
    let left = Expr::difference(alloc, rows, Expr::Variable(first))?;
    lesser(alloc, Expr::Number(layout.tile.h), left)
}

/// How many columns it has, whose first is in a register.
fn columns_expr(alloc: Global, layout: Layout, first: u8) -> Result<Expr, AllocError>
    ensures { IfOk result (λ e. expr_of e ≡ spec.columns_expr (layout_at layout) first) }
{
    if layout.across == 1 {
        return Ok(Expr::Number(layout.cols));
    }
    let columns = Expr::Number(layout.cols);
    let left = Expr::difference(alloc, columns, Expr::Variable(first))?;
    lesser(alloc, Expr::Number(layout.tile.w), left)
}

/// The program with names for a tile's half and for how far the half's cells lie behind those of half 0: the tile's
/// number is in a register, and `d` will have its half.
fn with_half(
    alloc: Global,
    layout: Layout,
    number: u8,
    d: u8,
    p: Program,
) -> Result<Program, AllocError>
    ensures { IfOk result (λ r. program_of r ≡ list.Let (plain.Remainder (plain.Variable number) (plain.Number 2))
        (list.Let (plain.Product (plain.Variable d) (plain.Number layout.bytes)) (program_of p))) }
{
    let way = Expr::product(alloc, Expr::Variable(d), Expr::Number(layout.bytes))?;
    let named = Program::with(alloc, way, p)?;
    let half = Expr::remainder(alloc, Expr::Variable(number), Expr::Number(2))?;
    Program::with(alloc, half, named)
}

/// The program with names for how many rows and columns a tile has, whose first row and column are in registers `d` and
/// `d + 1`.
fn with_size(alloc: Global, layout: Layout, d: u8, p: Program) -> Result<Program, AllocError>
    requires low { d + 1 ≤ 255 }
    ensures { IfOk result (λ r. program_of r ≡ list.Let (spec.rows_expr (layout_at layout) d)
        (list.Let (spec.columns_expr (layout_at layout) (d + 1)) (program_of p))) }
{
    let columns = columns_expr(alloc, layout, d + 1)?;
    let wide = Program::with(alloc, columns, p)?;
    let rows = rows_expr(alloc, layout, d)?;
    Program::with(alloc, rows, wide)
}

/// The program with names for the tile whose number is in a register: register `d` and the next three have its piece,
/// then its half, and how far the half's cells lie behind those of half 0.
pub fn with_tile(
    alloc: Global,
    layout: Layout,
    number: u8,
    d: u8,
    p: Program,
) -> Result<Program, AllocError>
    requires low { d + 4 ≤ 255 }
    ensures { IfOk result (λ r. program_of r ≡ spec.with_tile (layout_at layout) number d (program_of p)) }
{
    let named = with_half(alloc, layout, number, d + 4, p)?;
    let sized = with_size(alloc, layout, d, named)?;
    let column = first_column_expr(alloc, layout, number)?;
    let placed = Program::with(alloc, column, sized)?;
    let row = first_row_expr(alloc, layout, number)?;
    Program::with(alloc, row, placed)
}

/// The piece that stands in register `d` and the next three.
pub fn piece_at(d: u8) -> PieceExpr
    requires low { d + 3 ≤ 255 }
    ensures { piece_of result ≡ spec.piece_at d }
{
    PieceExpr {
        r0: SmallExpr::Variable(d),
        c0: SmallExpr::Variable(d + 1),
        h: SmallExpr::Variable(d + 2),
        w: SmallExpr::Variable(d + 3),
    }
}

// ---- the tiles of a row of results

/// One program in a row's first tile, another in a later one; a register has the tile's first column.
pub fn first_or_later(
    alloc: Global,
    layout: Layout,
    column: u8,
    first: Program,
    later: Program,
) -> Result<Program, AllocError>
    ensures { IfOk result (λ r. program_of r
        ≡ spec.first_or_later (layout_at layout) column (program_of first) (program_of later)) }
{
    if layout.per_row == 1 {
        return Ok(first);
    }
    let first = Program::unless_less(alloc, Expr::Number(0), Expr::Variable(column), first)?;
    let later = Program::unless_less(alloc, Expr::Variable(column), Expr::Number(1), later)?;
    Program::both(alloc, first, later)
}

/// The program in a row's last tile alone; a register has the next tile's number.
pub fn if_last(alloc: Global, layout: Layout, next: u8, p: Program) -> Result<Program, AllocError>
    ensures { IfOk result (λ r. program_of r ≡ spec.if_last (layout_at layout) next (program_of p)) }
{
    if layout.per_row == 1 {
        return Ok(p);
    }
    let past = Expr::remainder(alloc, Expr::Variable(next), Expr::Number(layout.per_row))?;
    Program::unless_less(alloc, Expr::Number(0), past, p)
}

/// The output half of the tile whose number is in a register, where another has its half.
pub fn output_half_expr(
    alloc: Global,
    layout: Layout,
    number: u8,
    half: u8,
) -> Result<Expr, AllocError>
    ensures { IfOk result (λ e. expr_of e ≡ spec.output_half_expr (layout_at layout) number half) }
{
    if layout.per_row == 1 {
        return Ok(Expr::Variable(half));
    }
    let row = Expr::quotient(alloc, Expr::Variable(number), Expr::Number(layout.per_row))?;
    Expr::remainder(alloc, row, Expr::Number(2))
}

/// The first cell of that half, which a register has.
pub fn output_expr(alloc: Global, layout: Layout, half: u8) -> Result<Expr, AllocError>
    requires { IsFitting layout }
    ensures { IfOk result (λ e. expr_of e ≡ spec.output_expr (layout_at layout) half) }
{
    let way = Expr::product(alloc, Expr::Variable(half), Expr::Number(layout.bytes))?;
    Expr::offset(alloc, way, layout.first_output_cell())
}
