//! Taking a piece from its buffer to its array (docs/COMPILER.md, "Programs of transfers").
ghost use Rattle.std.specs.Prelude.{◌≡◌, ◌≤◌, IfOk};
ghost use Rattle.host_programs.specs.Shown.{program_of};
ghost use Rattle.transfer_programs.specs.ReadProgram as plan;
ghost use Rattle.transfer_builder.specs.Shown.{small_of, piece_of, target_of, sides_of, patch_of};

use crate::patch_expr::{PatchExpr, Sides, patch_program};
use crate::small_expr::{PieceExpr, SmallExpr, Target};
use crate::sums::scaled;
use host_programs::{Expr, Program};
use pass_plan::ArrayPlace;
use std::alloc::{AllocError, Global};
use ven_base::Shape;

/// The whole piece, row by row.
fn whole_expr(alloc: Global, shape: Shape, piece: PieceExpr) -> Result<PatchExpr, AllocError>
    ensures { IfOk result (λ p. patch_of p ≡ plan.whole_expr shape (piece_of piece)) }
{
    let row = scaled(alloc, piece.r0.expr(alloc)?, shape.cols)?;
    Ok(PatchExpr {
        rows: piece.h.expr(alloc)?,
        cols: piece.w.expr(alloc)?,
        to: Expr::Number(0),
        to_step: piece.w.expr(alloc)?,
        from: Expr::sum(alloc, row, piece.c0.expr(alloc)?)?,
        from_step: Expr::Number(shape.cols),
    })
}

/// The sides of a piece of an array. A patch of its own array has no pitches.
fn sides_of_array(to: &ArrayPlace, width: SmallExpr, target: Target) -> Sides
    ensures { sides_of result
        ≡ plan.sides_of_array to.now (small_of target.buffer) (small_of width) (small_of target.tag) }
{
    Sides {
        size: to.elem.size(),
        array: to.place,
        row_pitch: 0,
        column_pitch: 0,
        buffer: target.buffer,
        width,
        tag: target.tag,
    }
}

/// The program that takes a piece from its buffer to its array, where the first `d` registers are in use, at most 32: its
/// list is the piece's command, with the target's tag. The only error is that memory runs out.
pub fn write_program(
    alloc: Global,
    to: &ArrayPlace,
    piece: PieceExpr,
    target: Target,
    d: u8,
) -> Result<Program, AllocError>
    requires { d ≤ 32 }
    ensures { IfOk result (λ p. program_of p ≡ plan.write_program to.now (piece_of piece) (target_of target) d) }
{
    let sides = sides_of_array(to, piece.w, target);
    let patch = whole_expr(alloc, to.shape, piece)?;
    patch_program(alloc, true, sides, &patch, d)
}
