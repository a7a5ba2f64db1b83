//! The vector instructions of a tile (docs/COMPILER.md, "Instructions of a tile").
ghost use Rattle.std.specs.Prelude.{◌≡◌, ℕ, ◌<◌, ◌≤◌, ◌*◌, ◌^◌, ◌++◌, false, not, map, length, IfOk, OnOk, All};
ghost use Rattle.ven_base.specs.Elem.{size_of};
ghost use Rattle.pass_plan.specs.Label.{label_of};
ghost use Rattle.pass_plan.specs.Buffers as plan;
ghost use Rattle.pass_plan.specs.Shown.{tree_of, pass_of};
ghost use Rattle.buffer_lifetimes.specs.Step.{step_of, steps_of};
ghost use Rattle.vector_codegen.specs.Work.{slot_buffer, step_work};
ghost use Rattle.vector_codegen.specs.TileList as spec;
ghost use Rattle.vector_codegen.specs.Effect.{IsSoundSomewhere, IsTileNumber, IsOrderOf, AreTileFills, LeaveResults, KeepsToTile, AreFew};
ghost use Rattle.vector_codegen.specs.Fit.{IsFitting, IsStepOf};

use crate::buffers::{Buffers, Shape};
use crate::reductions::push_root;
use crate::step_works::step_work;
use buffer_lifetimes::{Assigned, EvalStep};
use dma_segments::{Fill, fill_work};
use pass_plan::parts::Tile;
use pass_plan::{Pass, PassKind, piece, tiles_per_row, widest};
use std::alloc::{AllocError, Global};
use venice_isa::VecWork;

// ---- a list for any shape and buffers

/// The instructions of fills, in their order.
fn push_fills(fills: &[Fill], works: &mut Vec<VecWork>) -> Result<(), AllocError>
    ensures { OnOk result (works.new.items ≡ works.old.items ++ map spec.fill_work fills.now) }
{
    for fill in fills {
        works.push(fill_work(fill))?;
    }
    Ok(())
}

/// One instruction for each of these steps, with its results in its slot.
fn push_steps(
    shape: Shape,
    b: Buffers,
    steps: &[EvalStep],
    works: &mut Vec<VecWork>,
) -> Result<(), AllocError>
    requires fits { IsFitting shape b }
    requires steps { All (λ step. IsStepOf b (step_of step)) steps.now }
    ensures { OnOk result (works.new.items
        ≡ works.old.items ++ map (λ step. step_work shape b false step (slot_buffer b step.to)) (steps_of steps.now)) }
{
    for step in steps {
        works.push(step_work(shape, b, false, step, b.slot(step.to)))?;
    }
    Ok(())
}

/// The fills, one instruction for each step but the last, and those of the last.
fn works_in(
    alloc: Global,
    kind: PassKind,
    shape: Shape,
    b: Buffers,
    first: bool,
    fills: &[Fill],
    steps: &[EvalStep],
) -> Result<Vec<VecWork>, AllocError>
    requires fits { IsFitting shape b }
    requires partial { b.has_partial ≡ not (plan.is_map kind) }
    requires steps { All (λ step. IsStepOf b (step_of step)) steps.now }
    requires wide { All (λ step. shape.rows * shape.cols * size_of step.elem ≤ shape.room) steps.now }
    ensures { IfOk result (λ works. works.items ≡ spec.works_in kind shape b first fills.now (steps_of steps.now)) }
{
    let mut works = Vec::new(alloc);
    push_fills(fills, &mut works)?;
    match steps.split_last() {
        None => {}
        Some((last, before)) => {
            push_steps(shape.flat(), b, before, &mut works)?;
            push_root(kind, shape, b, first, last, &mut works)?;
        }
    }
    Ok(works)
}

// ---- the tile of a pass

/// The elements of tile `t` in its buffers.
fn tile_shape(pass: &Pass, tile: Tile, t: u32) -> Shape
    requires sound { IsSoundSomewhere (pass_of pass.now) }
    requires number { IsTileNumber (pass_of pass.now) tile t }
    ensures { result ≡ spec.tile_shape (pass_of pass.now) tile t }
{
    let piece = piece(pass, tile, t);
    Shape {
        room: tile.h * tile.w * widest(pass),
        rows: piece.h,
        cols: piece.w,
    }
}

/// The buffers of tile `t`.
fn tile_buffers(pass: &Pass, slots: u32, tile: Tile, t: u32) -> Buffers
    requires sound { IsSoundSomewhere (pass_of pass.now) }
    requires number { IsTileNumber (pass_of pass.now) tile t }
    requires slots { slots ≡ label_of (tree_of pass.now.tree) }
    ensures { result ≡ spec.tile_buffers (pass_of pass.now) tile t }
{
    Buffers {
        leaves: pass.leaves.len() as u32,
        slots,
        in_half: t % 2,
        out_half: t / tiles_per_row(pass, tile) % 2,
        has_partial: matches!(pass.kind, PassKind::Reduce(_)),
    }
}

/// The vector instructions of tile `t` of a pass, from 0, whose tile is an answer of `tile` for a scratchpad. The steps
/// are an order of its tree, and the fills those of the pieces of its leaves, as `reads` answers them.
///
/// Done one after another, for any number of lanes, on cells that hold the leaves' pieces, fills apart, in their halves
/// `t` mod 2, and in a later tile of a cut row the rows' results so far in the tile's output half, they leave the
/// tile's values, or the rows' results so far, in that half. Each is simple and reads and writes cells of the leaves'
/// halves, the slots, the output half and, in a reduction, the partial result alone. There is one for each fill and one
/// for each step; a later tile of a cut row has one more, which joins its sums to those before, and a least or greatest
/// has its halvings. The only error is that memory runs out.
pub fn tile_ops(
    alloc: Global,
    pass: &Pass,
    assigned: &Assigned,
    fills: &[Fill],
    tile: Tile,
    t: u32,
) -> Result<Vec<VecWork>, AllocError>
    requires sound { IsSoundSomewhere (pass_of pass.now) }
    requires number { IsTileNumber (pass_of pass.now) tile t }
    requires order { IsOrderOf (tree_of pass.now.tree) assigned.now.slots (steps_of assigned.now.steps.items) }
    requires fills { AreTileFills (pass_of pass.now) tile t fills.now }
    ensures list { IfOk result (λ works. works.items
        ≡ spec.tile_list (pass_of pass.now) tile t fills.now (steps_of assigned.now.steps.items)) }
    ensures leaves { IfOk result (λ works. LeaveResults (pass_of pass.now) tile t works.items) }
    ensures keep { IfOk result (λ works. All (KeepsToTile (pass_of pass.now) tile t) works.items) }
    ensures few { IfOk result (λ works. AreFew (pass_of pass.now) tile t works.items) }
{
    let shape = tile_shape(pass, tile, t);
    let b = tile_buffers(pass, assigned.slots, tile, t);
    let first = t % tiles_per_row(pass, tile) == 0;
    works_in(
        alloc,
        pass.kind,
        shape,
        b,
        first,
        fills,
        assigned.steps.as_slice(),
    )
}
