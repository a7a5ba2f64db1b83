//! The programs of a tile: its reads, its instructions and its write (`specs/TileProgram`).
ghost use Rattle.std.specs.Prelude.{◌≡◌, ◌<◌, ◌^◌, IfOk, length, get_or, All};
ghost use Rattle.pass_plan.specs.Shown.{pass_of, tree_of};
ghost use Rattle.buffer_lifetimes.specs.Step.{step_of, steps_of};
ghost use Rattle.buffer_lifetimes.specs.OrderOf.{order_of};
ghost use Rattle.dma_schedule.specs.PipeList as pipe;
ghost use Rattle.host_programs.specs.Program as list;
ghost use Rattle.host_programs.specs.Expr as plain;
ghost use Rattle.host_programs.specs.Shown.{program_of};
ghost use Rattle.transfer_builder.specs.Shown.{piece_of};
ghost use Rattle.host_codegen.specs.Geometry as geometry;
ghost use Rattle.host_codegen.specs.RootProgram as roots;
ghost use Rattle.host_codegen.specs.TileProgram as spec;
ghost use Rattle.host_codegen.specs.Fit.{IsTiled};

use crate::geometry::{if_last, output_expr, output_half_expr, piece_at, with_tile};
use crate::roots::works_program;
use crate::sequence::{Numbered, each_of};
use crate::tiled::TiledPass;
use buffer_lifetimes::order;
use host_programs::{Expr, Order, Program};
use pass_plan::{ArrayPlace, PassKind};
use std::alloc::{AllocError, Global};
use transfer_builder::{PieceExpr, SmallExpr, Target, fill_program, leaf_program, write_program};
use ven_base::Shape;

// ---- reads

/// The reads of each leaf's piece of the tile with the turn's number: registers 2 to 5 have the piece, 6 the tile's
/// half, and 7 the half's place.
#[derive(Clone, Copy)]
struct Reads<'a> {
    tiled: &'a TiledPass<'a>,
}

impl Numbered for Reads<'_> {
    ghost use Rattle.std.specs.Prelude.{length};
    ghost use Rattle.pass_plan.specs.Shown.{pass_of};
    ghost use Rattle.host_codegen.specs.TileProgram as spec;
    ghost use Rattle.host_codegen.specs.Fit.{IsTiled};

    ghost ready = { λ s. IsTiled s.tiled.now };

    ghost count = { λ s. length (pass_of s.tiled.now.pass.now).leaves };

    ghost made = { λ s n.
        spec.leaf_reads_program s.tiled.now.arrays.now (pass_of s.tiled.now.pass.now) s.tiled.now.layout.tile n };

    fn program(&self, alloc: Global, number: u32) -> Result<Program, AllocError> {
        let leaf = &self.tiled.pass.leaves[number as usize];
        let from = &self.tiled.arrays[leaf.array as usize];
        let target = Target {
            buffer: SmallExpr::Variable(8),
            tag: SmallExpr::Variable(6),
        };
        let reads = leaf_program(alloc, leaf, from, piece_at(2), target, 9)?;
        let buffer = self.tiled.layout.leaf_expr(7, number).expr(alloc)?;
        Program::with(alloc, buffer, reads)
    }
}

/// The reads of the tile with the turn's number, leaf after leaf.
pub fn reads_program(alloc: Global, tiled: &TiledPass<'_>) -> Result<Program, AllocError>
    requires { IsTiled tiled.now }
    ensures { IfOk result (λ p. program_of p
        ≡ spec.reads_program tiled.now.arrays.now (pass_of tiled.now.pass.now) tiled.now.layout.tile) }
{
    let reads = each_of(alloc, &Reads { tiled }, tiled.layout.leaves)?;
    with_tile(alloc, tiled.layout, 1, 2, reads)
}

// ---- the rest

/// The fills of each leaf's piece of the tile before: registers 3 to 6 have the piece, and 8 the place of its half.
#[derive(Clone, Copy)]
struct Fills<'a> {
    tiled: &'a TiledPass<'a>,
}

impl Numbered for Fills<'_> {
    ghost use Rattle.std.specs.Prelude.{length};
    ghost use Rattle.pass_plan.specs.Shown.{pass_of};
    ghost use Rattle.host_codegen.specs.TileProgram as spec;
    ghost use Rattle.host_codegen.specs.Fit.{IsTiled};

    ghost ready = { λ s. IsTiled s.tiled.now };

    ghost count = { λ s. length (pass_of s.tiled.now.pass.now).leaves };

    ghost made = { λ s n.
        spec.leaf_fills_program s.tiled.now.arrays.now (pass_of s.tiled.now.pass.now) s.tiled.now.layout.tile n };

    fn program(&self, alloc: Global, number: u32) -> Result<Program, AllocError> {
        let leaf = &self.tiled.pass.leaves[number as usize];
        let buffer = self.tiled.layout.leaf_expr(8, number);
        fill_program(alloc, leaf, piece_at(3), buffer, 10)
    }
}

/// The piece of the results: in a reduction a column.
fn result_piece_at(tiled: &TiledPass<'_>) -> PieceExpr
    ensures { piece_of result ≡ spec.result_piece_at tiled.now.arrays.now (pass_of tiled.now.pass.now)
        tiled.now.layout.tile (pass_of tiled.now.pass.now).kind }
{
    match tiled.pass.kind {
        PassKind::Map => piece_at(3),
        PassKind::Reduce(_) => PieceExpr {
            r0: SmallExpr::Variable(3),
            c0: SmallExpr::Number(0),
            h: SmallExpr::Variable(5),
            w: SmallExpr::Number(1),
        },
    }
}

/// What the pass makes, at its place.
fn destination(tiled: &TiledPass<'_>) -> ArrayPlace
    requires { IsTiled tiled.now }
    ensures { result ≡ pipe.destination tiled.now.arrays.now (pass_of tiled.now.pass.now) tiled.now.layout.tile }
{
    let pass = tiled.pass;
    let shape = match pass.kind {
        PassKind::Map => pass.domain,
        PassKind::Reduce(_) => Shape {
            rows: pass.domain.rows,
            cols: 1,
        },
    };
    ArrayPlace {
        elem: pass.elem,
        shape,
        place: tiled.arrays[pass.dest as usize].place,
    }
}

/// The write of a tile that ends its row.
fn tile_write_program(alloc: Global, tiled: &TiledPass<'_>) -> Result<Program, AllocError>
    requires { IsTiled tiled.now }
    ensures { IfOk result (λ p. program_of p
        ≡ spec.tile_write_program tiled.now.arrays.now (pass_of tiled.now.pass.now) tiled.now.layout.tile) }
{
    let target = Target {
        buffer: SmallExpr::Variable(10),
        tag: SmallExpr::Offset(9, 2),
    };
    let piece = result_piece_at(tiled);
    let write = write_program(alloc, &destination(tiled), piece, target, 11)?;
    if_last(alloc, tiled.layout, 1, write)
}

/// The instructions of the tile's steps.
fn steps_program(alloc: Global, tiled: &TiledPass<'_>) -> Result<Program, AllocError>
    requires { IsTiled tiled.now }
    ensures { IfOk result (λ p. program_of p ≡ roots.works_program (pass_of tiled.now.pass.now).kind
        (geometry.layout_of (pass_of tiled.now.pass.now) tiled.now.layout.tile)
        (order_of (pass_of tiled.now.pass.now).tree).steps) }
{
    let assigned = order(alloc, &tiled.pass.tree)?;
    works_program(
        alloc,
        tiled.pass.kind,
        tiled.layout,
        assigned.steps.as_slice(),
    )
}

/// What is issued when the tile's output half has its place.
fn results_program(alloc: Global, tiled: &TiledPass<'_>) -> Result<Program, AllocError>
    requires { IsTiled tiled.now }
    ensures { IfOk result (λ p. program_of p
        ≡ spec.results_program tiled.now.arrays.now (pass_of tiled.now.pass.now) tiled.now.layout.tile) }
{
    let works = steps_program(alloc, tiled)?;
    let write = tile_write_program(alloc, tiled)?;
    let done = Program::both(alloc, Program::Emit(Order::AwaitLanes), write)?;
    Program::both(alloc, works, done)
}

/// The tile's fills, and then what is issued when its output half has its place.
fn computed_program(alloc: Global, tiled: &TiledPass<'_>) -> Result<Program, AllocError>
    requires { IsTiled tiled.now }
    ensures { IfOk result (λ p. program_of p ≡ spec.computed_program tiled.now.arrays.now
        (pass_of tiled.now.pass.now) tiled.now.layout.tile) }
{
    let results = results_program(alloc, tiled)?;
    let place = output_expr(alloc, tiled.layout, 9)?;
    let placed = Program::with(alloc, place, results)?;
    let fills = each_of(alloc, &Fills { tiled }, tiled.layout.leaves)?;
    Program::both(alloc, fills, placed)
}

/// A tile waits for its own reads, and for the writes from its output half.
fn waiting_program(alloc: Global, tiled: &TiledPass<'_>) -> Result<Program, AllocError>
    requires { IsTiled tiled.now }
    ensures { IfOk result (λ p. program_of p
        ≡ spec.waiting_program tiled.now.arrays.now (pass_of tiled.now.pass.now) tiled.now.layout.tile) }
{
    let computed = computed_program(alloc, tiled)?;
    let tag = Expr::offset(alloc, Expr::Variable(9), 2)?;
    let written = Program::Emit(Order::AwaitTag(tag));
    let read = Program::Emit(Order::AwaitTag(Expr::Variable(7)));
    Program::both(alloc, read, Program::both(alloc, written, computed)?)
}

/// The rest of the tile before the one with the turn's number.
pub fn rest_program(alloc: Global, tiled: &TiledPass<'_>) -> Result<Program, AllocError>
    requires { IsTiled tiled.now }
    ensures { IfOk result (λ p. program_of p
        ≡ spec.rest_program tiled.now.arrays.now (pass_of tiled.now.pass.now) tiled.now.layout.tile) }
{
    let waiting = waiting_program(alloc, tiled)?;
    let half = output_half_expr(alloc, tiled.layout, 2, 7)?;
    let named = Program::with(alloc, half, waiting)?;
    let at_tile = with_tile(alloc, tiled.layout, 2, 3, named)?;
    let before = Expr::difference(alloc, Expr::Variable(1), Expr::Number(1))?;
    Program::with(alloc, before, at_tile)
}
