//! The numbers of a pass's buffers and tiles (docs/COMPILER.md, "Need, tiles and bound").
ghost use Rattle.std.specs.Prelude.{◌≡◌, ◌<◌, ◌*◌, length};
ghost use Rattle.pass_plan.specs.Tile.{tile_of, tiles_of};
ghost use Rattle.pass_plan.specs.Buffers as plan;
ghost use Rattle.pass_plan.specs.Shown.{pass_of};
ghost use Rattle.dma_segments.specs.Laws.{leaf_cell, result_cell, result_piece};
ghost use Rattle.dma_schedule.specs.PipeList as spec;
ghost use Rattle.dma_schedule.specs.Plan.{IsReady};

use pass_plan::parts::{Piece, Tile};
use pass_plan::{ArrayPlace, Pass, PassKind, label, piece, tiles_per_row, widest};
use ven_base::Shape;

/// How many leaves the pass has.
pub fn leaf_count(arrays: &[ArrayPlace], pass: &Pass, tile: Tile) -> u32
    requires { IsReady arrays.now (pass_of pass.now) tile }
    ensures { result ≡ length (pass_of pass.now).leaves }
{
    pass.leaves.len() as u32
}

/// Whether tile `t` is the last of its row of results.
pub fn ends_row(arrays: &[ArrayPlace], pass: &Pass, tile: Tile, t: u32) -> bool
    requires ready { IsReady arrays.now (pass_of pass.now) tile }
    requires within { t < tiles_of pass.now.domain tile }
    ensures { result ≡ plan.ends_row (pass_of pass.now) tile t }
{
    (t + 1) % tiles_per_row(pass, tile) == 0
}

/// The output half of tile `t`: 0 or 1.
pub fn output_half(arrays: &[ArrayPlace], pass: &Pass, tile: Tile, t: u32) -> u32
    requires { IsReady arrays.now (pass_of pass.now) tile }
    ensures half { result ≡ plan.output_half (pass_of pass.now) tile t }
    ensures small { result < 2 }
{
    t / tiles_per_row(pass, tile) % 2
}

/// The bytes of a buffer.
pub fn buffer_bytes(arrays: &[ArrayPlace], pass: &Pass, tile: Tile) -> u32
    requires { IsReady arrays.now (pass_of pass.now) tile }
    ensures { result ≡ plan.buffer_bytes (pass_of pass.now) tile }
{
    tile.h * tile.w * widest(pass)
}

/// The first cell of a leaf's half for tile `t`.
pub fn leaf_cell(arrays: &[ArrayPlace], pass: &Pass, tile: Tile, number: u32, t: u32) -> u32
    requires ready { IsReady arrays.now (pass_of pass.now) tile }
    requires number { number < length (pass_of pass.now).leaves }
    ensures { result ≡ leaf_cell (pass_of pass.now) tile number t }
{
    (number * 2 + t % 2) * buffer_bytes(arrays, pass, tile)
}

/// The first cell of the output half of tile `t`.
pub fn result_cell(arrays: &[ArrayPlace], pass: &Pass, tile: Tile, t: u32) -> u32
    requires ready { IsReady arrays.now (pass_of pass.now) tile }
    ensures { result ≡ result_cell (pass_of pass.now) tile t }
{
    let half = output_half(arrays, pass, tile, t);
    let slots = leaf_count(arrays, pass, tile) * 2;
    (slots + label(&pass.tree) + half) * buffer_bytes(arrays, pass, tile)
}

/// The piece of what the pass makes that tile `t` has: in a reduction a column.
pub fn result_piece(arrays: &[ArrayPlace], pass: &Pass, tile: Tile, t: u32) -> Piece
    requires ready { IsReady arrays.now (pass_of pass.now) tile }
    requires within { t < tiles_of pass.now.domain tile }
    ensures { result ≡ result_piece (pass_of pass.now) tile t }
{
    let piece = piece(pass, tile, t);
    match pass.kind {
        PassKind::Map => piece,
        PassKind::Reduce(_) => Piece {
            c0: 0,
            w: 1,
            ..piece
        },
    }
}

/// What the pass makes, at its place.
pub fn destination(arrays: &[ArrayPlace], pass: &Pass, tile: Tile) -> ArrayPlace
    requires { IsReady arrays.now (pass_of pass.now) tile }
    ensures { result ≡ spec.destination arrays.now (pass_of pass.now) tile }
{
    let shape = match pass.kind {
        PassKind::Map => pass.domain,
        PassKind::Reduce(_) => Shape {
            rows: pass.domain.rows,
            cols: 1,
        },
    };
    ArrayPlace {
        elem: pass.elem,
        shape,
        place: arrays[pass.dest as usize].place,
    }
}
