//! Taking a piece from its buffer to its array (docs/COMPILER.md, "Transfers of a tile").
ghost use Rattle.std.specs.Prelude.{◌≡◌, ◌<◌, ◌^◌, IfOk};
ghost use Rattle.ven_base.specs.Extent.{IsExtent};
ghost use Rattle.pass_plan.specs.Tile.{IsPieceOf};
ghost use Rattle.pass_plan.specs.Sound.{end_of};
ghost use Rattle.dma_segments.specs.WriteList.{whole_patch, first_element, write_list};
ghost use Rattle.dma_segments.specs.Taken.{TakePiece};

use crate::commands::command;
use crate::patches::{Patch, Sides, with_rows_joined};
use pass_plan::ArrayPlace;
use pass_plan::parts::Piece;
use std::alloc::{AllocError, Global};
use venice_isa::DmaWork;

/// The number of a piece's first element in its array.
fn first_element(to: &ArrayPlace, piece: Piece) -> u32
    requires { IsPieceOf to.now.shape piece }
    ensures number { result ≡ first_element to.now.shape piece }
    ensures shaped { IsExtent to.now.shape }
{
    piece.r0 * to.shape.cols + piece.c0
}

/// The whole piece, row by row.
fn whole_patch(to: &ArrayPlace, piece: Piece, first: u32) -> Patch
    requires { first ≡ first_element to.now.shape piece }
    ensures { result ≡ whole_patch to.now.shape piece }
{
    Patch {
        rows: piece.h,
        cols: piece.w,
        to: 0,
        to_step: u64::from(piece.w),
        from: Some(first),
        from_step: u64::from(to.shape.cols),
    }
}

/// The command that takes a piece from the cells from `buffer` on to its place in an array, with the tag 0. The piece
/// lies in the array, whose end is below 2^32. The only error is that memory runs out.
pub fn writes(
    alloc: Global,
    to: &ArrayPlace,
    piece: Piece,
    buffer: u32,
) -> Result<Vec<DmaWork>, AllocError>
    requires inside { IsPieceOf to.now.shape piece }
    requires in_memory { end_of to.now < 2 ^ 32 }
    ensures commands { IfOk result (λ commands. commands.items ≡ write_list to.now piece buffer) }
    ensures takes { IfOk result (λ commands. TakePiece to.now piece buffer commands.items) }
{
    let sides = Sides {
        size: to.elem.size(),
        array: to.place,
        buffer,
    };
    let first = first_element(to, piece);
    let whole = whole_patch(to, piece, first);
    let patch = with_rows_joined(whole);
    let mut commands = Vec::new(alloc);
    commands.push(command(sides, patch, first))?;
    Ok(commands)
}
