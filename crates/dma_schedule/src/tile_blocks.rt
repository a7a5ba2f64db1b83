//! The blocks of a tile (`specs/PipeList`).
ghost use Rattle.std.specs.Prelude.{◌≡◌, ◌++◌, ◌<◌, map, length, IfOk, OnOk};
ghost use Rattle.pass_plan.specs.Tile.{tiles_of};
ghost use Rattle.pass_plan.specs.Shown.{pass_of, tree_of};
ghost use Rattle.buffer_lifetimes.specs.Step.{steps_of};
ghost use Rattle.buffer_lifetimes.specs.OrderOf.{order_of};
ghost use Rattle.venice_isa.specs.declared.issue.Issue.TheVariants as issue;
ghost use Rattle.vector_codegen.specs.Effect.{IsOrderOf};
ghost use Rattle.dma_segments.specs.Laws.{with_tag};
ghost use Rattle.dma_schedule.specs.PipeList as spec;
ghost use Rattle.dma_schedule.specs.Plan.{IsReady};

use crate::layout::{
    destination, ends_row, leaf_cell, leaf_count, output_half, result_cell, result_piece,
};
use buffer_lifetimes::Assigned;
use dma_segments::{Fill, Segments, reads, writes};
use pass_plan::parts::Tile;
use pass_plan::{ArrayPlace, Pass, piece};
use std::alloc::{AllocError, Global};
use vector_codegen::tile_ops;
use venice_isa::{DmaWork, Issue, VecWork};

// ---- reads

/// Adds read commands, with a tag.
fn push_reads(commands: &[DmaWork], tag: u32, list: &mut Vec<Issue>) -> Result<(), AllocError>
    ensures { OnOk result
        (list.new.items ≡ list.old.items ++ map (λ work. issue.Read (with_tag tag work)) commands.now) }
{
    for command in commands {
        list.push(Issue::Read(DmaWork { tag, ..*command }))?;
    }
    Ok(())
}

/// The commands and fills of a leaf's piece of tile `t`.
fn leaf_segments(
    alloc: Global,
    arrays: &[ArrayPlace],
    pass: &Pass,
    tile: Tile,
    number: u32,
    t: u32,
) -> Result<Segments, AllocError>
    requires ready { IsReady arrays.now (pass_of pass.now) tile }
    requires number { number < length (pass_of pass.now).leaves }
    requires within { t < tiles_of pass.now.domain tile }
    ensures commands { IfOk result (λ s. s.commands.items
        ≡ (spec.leaf_segments arrays.now (pass_of pass.now) tile number t).commands) }
    ensures fills { IfOk result (λ s. s.fills.items
        ≡ (spec.leaf_segments arrays.now (pass_of pass.now) tile number t).fills) }
{
    let leaf = &pass.leaves[number as usize];
    let from = &arrays[leaf.array as usize];
    let cell = leaf_cell(arrays, pass, tile, number, t);
    reads(alloc, leaf, from, piece(pass, tile, t), cell)
}

/// Adds the reads of tile `t`, leaf after leaf.
pub fn push_tile_reads(
    alloc: Global,
    arrays: &[ArrayPlace],
    pass: &Pass,
    tile: Tile,
    t: u32,
    list: &mut Vec<Issue>,
) -> Result<(), AllocError>
    requires ready { IsReady arrays.now (pass_of pass.now) tile }
    requires within { t < tiles_of pass.now.domain tile }
    ensures { OnOk result (list.new.items
        ≡ list.old.items ++ spec.tile_reads arrays.now (pass_of pass.now) tile (length (pass_of pass.now).leaves) t) }
{
    for number in 0..leaf_count(arrays, pass, tile) {
        let segments = leaf_segments(alloc, arrays, pass, tile, number, t)?;
        push_reads(&segments.commands, t % 2, list)?;
    }
    Ok(())
}

// ---- instructions

/// Adds fills.
fn push_fills(fills: &[Fill], list: &mut Vec<Fill>) -> Result<(), AllocError>
    ensures { OnOk result (list.new.items ≡ list.old.items ++ fills.now) }
{
    for fill in fills {
        list.push(*fill)?;
    }
    Ok(())
}

/// The fills of tile `t`, leaf after leaf.
fn tile_fills(
    alloc: Global,
    arrays: &[ArrayPlace],
    pass: &Pass,
    tile: Tile,
    t: u32,
) -> Result<Vec<Fill>, AllocError>
    requires ready { IsReady arrays.now (pass_of pass.now) tile }
    requires within { t < tiles_of pass.now.domain tile }
    ensures { IfOk result (λ fills. fills.items
        ≡ spec.tile_fills arrays.now (pass_of pass.now) tile (length (pass_of pass.now).leaves) t) }
{
    let mut fills = Vec::new(alloc);
    for number in 0..leaf_count(arrays, pass, tile) {
        let segments = leaf_segments(alloc, arrays, pass, tile, number, t)?;
        push_fills(&segments.fills, &mut fills)?;
    }
    Ok(fills)
}

/// Adds vector instructions.
fn push_works(works: &[VecWork], list: &mut Vec<Issue>) -> Result<(), AllocError>
    ensures { OnOk result (list.new.items ≡ list.old.items ++ map (λ work. issue.Vector work) works.now) }
{
    for work in works {
        list.push(Issue::Vector(*work))?;
    }
    Ok(())
}

/// Adds the instructions of tile `t`. The steps are those of the order of the pass's tree.
pub fn push_compute(
    alloc: Global,
    arrays: &[ArrayPlace],
    pass: &Pass,
    tile: Tile,
    assigned: &Assigned,
    t: u32,
    list: &mut Vec<Issue>,
) -> Result<(), AllocError>
    requires ready { IsReady arrays.now (pass_of pass.now) tile }
    requires order { IsOrderOf (tree_of pass.now.tree) assigned.now.slots (steps_of assigned.now.steps.items) }
    requires steps { steps_of assigned.now.steps.items ≡ (order_of (tree_of pass.now.tree)).steps }
    requires within { t < tiles_of pass.now.domain tile }
    ensures { OnOk result (list.new.items ≡ list.old.items
        ++ map (λ work. issue.Vector work) (spec.tile_works arrays.now (pass_of pass.now) tile t)) }
{
    let fills = tile_fills(alloc, arrays, pass, tile, t)?;
    let works = tile_ops(alloc, pass, assigned, &fills, tile, t)?;
    push_works(&works, list)?;
    Ok(())
}

// ---- writes

/// Adds write commands, with a tag.
fn push_write_commands(
    commands: &[DmaWork],
    tag: u32,
    list: &mut Vec<Issue>,
) -> Result<(), AllocError>
    ensures { OnOk result
        (list.new.items ≡ list.old.items ++ map (λ work. issue.Write (with_tag tag work)) commands.now) }
{
    for command in commands {
        list.push(Issue::Write(DmaWork { tag, ..*command }))?;
    }
    Ok(())
}

/// Adds the write of tile `t`, where it ends its row of results.
pub fn push_writes(
    alloc: Global,
    arrays: &[ArrayPlace],
    pass: &Pass,
    tile: Tile,
    t: u32,
    list: &mut Vec<Issue>,
) -> Result<(), AllocError>
    requires ready { IsReady arrays.now (pass_of pass.now) tile }
    requires within { t < tiles_of pass.now.domain tile }
    ensures { OnOk result (list.new.items
        ≡ list.old.items ++ spec.tile_writes arrays.now (pass_of pass.now) tile t) }
{
    if ends_row(arrays, pass, tile, t) {
        let to = destination(arrays, pass, tile);
        let cell = result_cell(arrays, pass, tile, t);
        let commands = writes(alloc, &to, result_piece(arrays, pass, tile, t), cell)?;
        push_write_commands(&commands, 2 + output_half(arrays, pass, tile, t), list)?;
    }
    Ok(())
}
