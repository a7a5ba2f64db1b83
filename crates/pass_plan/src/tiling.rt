//! The tiles of a pass (docs/COMPILER.md, "Tiles").
ghost use Rattle.std.specs.Prelude.{◌≡◌, ◌≤◌, ◌<◌};
ghost use Rattle.pass_plan.specs.Tree.{nodes_of};
ghost use Rattle.pass_plan.specs.Pass.{node_limit};
ghost use Rattle.pass_plan.specs.Need.{pass_need};
ghost use Rattle.pass_plan.specs.Tile.{tile_of, tiles_of, piece_of, IsTileOf};
ghost use Rattle.pass_plan.specs.Buffers as plan;
ghost use Rattle.pass_plan.specs.Shown.{tree_of, pass_of};

use crate::needs::need_of_pass;
use crate::parts::{Piece, Tile};
use crate::{Pass, PassKind};

/// The tile of a pass in `spad` bytes of scratchpad: whole rows where one fits, else a part of one.
pub fn tile(pass: &Pass, spad: u32) -> Tile
    requires small { nodes_of (tree_of pass.now.tree) ≤ node_limit }
    requires holds { pass_need (pass_of pass.now) ≤ spad }
    ensures { result ≡ tile_of (pass_of pass.now) spad }
{
    let items = spad / need_of_pass(pass) as u32;
    let domain = pass.domain;
    let h = if domain.cols <= items {
        domain.rows.min(items / domain.cols)
    } else {
        1
    };
    Tile {
        h,
        w: domain.cols.min(items),
    }
}

/// How many tiles of this size the pass has, at most as many as its domain has elements. The tile is an answer of `tile` for the pass.
pub fn tiles(pass: &Pass, tile: Tile) -> u32
    requires { IsTileOf (pass_of pass.now) tile }
    ensures { result ≡ tiles_of pass.now.domain tile }
{
    pass.domain.cols.div_ceil(tile.w) * pass.domain.rows.div_ceil(tile.h)
}

/// The pass's tile number `t`, from 0: row by row, and in a row from left to right. A tile at an edge is narrower or lower. The tile is an
/// answer of `tile` for the pass.
pub fn piece(pass: &Pass, tile: Tile, t: u32) -> Piece
    requires tile_is { IsTileOf (pass_of pass.now) tile }
    requires within { t < tiles_of pass.now.domain tile }
    ensures { result ≡ piece_of pass.now.domain tile t }
{
    let across = pass.domain.cols.div_ceil(tile.w);
    let r0 = t / across * tile.h;
    let c0 = t % across * tile.w;
    Piece {
        r0,
        c0,
        h: tile.h.min(pass.domain.rows - r0),
        w: tile.w.min(pass.domain.cols - c0),
    }
}

/// How many tiles a row of results takes: in a reduction those side by side, else one.
pub fn tiles_per_row(pass: &Pass, tile: Tile) -> u32
    requires { 1 ≤ tile.w }
    ensures { result ≡ plan.tiles_per_row (pass_of pass.now) tile }
{
    match pass.kind {
        PassKind::Map => 1,
        PassKind::Reduce(_) => pass.domain.cols.div_ceil(tile.w),
    }
}
