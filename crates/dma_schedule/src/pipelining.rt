//! The list of a split, pass by pass (`specs/Blocks`).
ghost use Rattle.std.specs.Prelude.{◌≡◌, ◌++◌, ◌<◌, ◌≤◌, length, IfOk, OnOk, All};
ghost use Rattle.venice_isa.specs.declared.instr.Version.TheVariants.{Two};
ghost use Rattle.venice_isa.specs.Flight.{IsDisciplined};
ghost use Rattle.pass_plan.specs.Need.{need_of};
ghost use Rattle.pass_plan.specs.Tile.{tile_of, tiles_of};
ghost use Rattle.pass_plan.specs.Sound.{IsSound};
ghost use Rattle.pass_plan.specs.Shown.{pass_of, tree_of, split_of};
ghost use Rattle.buffer_lifetimes.specs.Step.{steps_of};
ghost use Rattle.buffer_lifetimes.specs.OrderOf.{order_of};
ghost use Rattle.vector_codegen.specs.Effect.{IsOrderOf};
ghost use Rattle.dma_schedule.specs.Blocks as blocks;
ghost use Rattle.dma_schedule.specs.PipeList.{blocks_of, pipe_list};
ghost use Rattle.dma_schedule.specs.Pipelined.{IsPipelined};
ghost use Rattle.dma_schedule.specs.Laws.{KeepsInside, ComputesFew};
ghost use Rattle.dma_schedule.specs.Plan.{IsReady};

use crate::layout::output_half;
use crate::tile_blocks::{push_compute, push_tile_reads, push_writes};
use buffer_lifetimes::{Assigned, order};
use pass_plan::parts::Tile;
use pass_plan::{ArrayPlace, Pass, Split, tile, tiles};
use std::alloc::{AllocError, Global};
use venice_isa::Issue;

/// Adds the reads of the tile after tile `t`, where there is one.
fn push_next_reads(
    alloc: Global,
    arrays: &[ArrayPlace],
    pass: &Pass,
    tile: Tile,
    t: u32,
    list: &mut Vec<Issue>,
) -> Result<(), AllocError>
    requires ready { IsReady arrays.now (pass_of pass.now) tile }
    requires within { t < tiles_of pass.now.domain tile }
    ensures { OnOk result (list.new.items
        ≡ list.old.items ++ blocks.next_reads (blocks_of arrays.now (pass_of pass.now) tile) t) }
{
    if t + 1 < tiles(pass, tile) {
        push_tile_reads(alloc, arrays, pass, tile, t + 1, list)?;
    }
    Ok(())
}

/// Adds the step of tile `t`: the next tile's reads, the waits, and the tile's own instructions and write.
fn push_step(
    alloc: Global,
    arrays: &[ArrayPlace],
    pass: &Pass,
    tile: Tile,
    assigned: &Assigned,
    t: u32,
    list: &mut Vec<Issue>,
) -> Result<(), AllocError>
    requires ready { IsReady arrays.now (pass_of pass.now) tile }
    requires order { IsOrderOf (tree_of pass.now.tree) assigned.now.slots (steps_of assigned.now.steps.items) }
    requires steps { steps_of assigned.now.steps.items ≡ (order_of (tree_of pass.now.tree)).steps }
    requires within { t < tiles_of pass.now.domain tile }
    ensures { OnOk result (list.new.items
        ≡ list.old.items ++ blocks.tile_step (blocks_of arrays.now (pass_of pass.now) tile) t) }
{
    push_next_reads(alloc, arrays, pass, tile, t, list)?;
    list.push(Issue::TWait(t % 2))?;
    list.push(Issue::TWait(2 + output_half(arrays, pass, tile, t)))?;
    push_compute(alloc, arrays, pass, tile, assigned, t, list)?;
    list.push(Issue::VWait)?;
    push_writes(alloc, arrays, pass, tile, t, list)?;
    Ok(())
}

/// Adds the steps of all tiles.
fn push_steps(
    alloc: Global,
    arrays: &[ArrayPlace],
    pass: &Pass,
    tile: Tile,
    assigned: &Assigned,
    list: &mut Vec<Issue>,
) -> Result<(), AllocError>
    requires ready { IsReady arrays.now (pass_of pass.now) tile }
    requires order { IsOrderOf (tree_of pass.now.tree) assigned.now.slots (steps_of assigned.now.steps.items) }
    requires steps { steps_of assigned.now.steps.items ≡ (order_of (tree_of pass.now.tree)).steps }
    ensures { OnOk result (list.new.items ≡ list.old.items
        ++ blocks.tile_steps (blocks_of arrays.now (pass_of pass.now) tile) (tiles_of pass.now.domain tile)) }
{
    for t in 0..tiles(pass, tile) {
        push_step(alloc, arrays, pass, tile, assigned, t, list)?;
    }
    Ok(())
}

/// Adds the list of a pass, at whose end nothing is in flight.
fn push_pass(
    alloc: Global,
    arrays: &[ArrayPlace],
    pass: &Pass,
    tile: Tile,
    list: &mut Vec<Issue>,
) -> Result<(), AllocError>
    requires { IsReady arrays.now (pass_of pass.now) tile }
    ensures { OnOk result (list.new.items
        ≡ list.old.items ++ blocks.pass_list (blocks_of arrays.now (pass_of pass.now) tile)) }
{
    let assigned = order(alloc, &pass.tree)?;
    push_tile_reads(alloc, arrays, pass, tile, 0, list)?;
    push_steps(alloc, arrays, pass, tile, &assigned, list)?;
    list.push(Issue::RWait(0))?;
    list.push(Issue::WWait(0))?;
    Ok(())
}

/// The pipelined list of a split, pass after pass, in a scratchpad of `spad` bytes, at least the split's need.
///
/// For each tile the list has the next tile's reads, a wait for the tile's own, one for the write that used its output
/// half, its instructions, a wait for these, and its write (docs/COMPILER.md, "The pipelined list"). In version 2 of
/// the machine it meets no hazard. No count in it is 0, and each work keeps below `spad` in cells and below the split's
/// `memory` in memory. A tile of h rows and w columns has at most h·w·(nodes + 3) instructions and, for each number of
/// lanes, at most as many beats. Done one issue after another, the list leaves every pass's array (`list_laws`). The
/// only error is that memory runs out.
pub fn pipeline(alloc: Global, split: &Split, spad: u32) -> Result<Vec<Issue>, AllocError>
    requires sound { IsSound (split_of split.now) }
    requires holds { need_of (split_of split.now).passes ≤ spad }
    ensures list { IfOk result (λ list. list.items ≡ pipe_list (split_of split.now) spad) }
    ensures pipelined { IfOk result (λ list. IsPipelined (split_of split.now) spad list.items) }
    ensures disciplined { IfOk result (λ list. IsDisciplined Two list.items) }
    ensures inside { IfOk result (λ list. All (KeepsInside (split_of split.now) spad) list.items) }
    ensures few { IfOk result (λ list. All (ComputesFew (split_of split.now) spad) (split_of split.now).passes) }
{
    let mut list = Vec::new(alloc);
    for pass in &split.passes {
        push_pass(alloc, &split.arrays, pass, tile(pass, spad), &mut list)?;
    }
    Ok(list)
}
