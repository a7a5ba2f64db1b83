//! Patches as commands and fills (`specs/ReadList`).
ghost use Rattle.std.specs.Prelude.{◌≡◌, ◌++◌, ◌*◌, ◌<◌, ◌^◌, IfOk, OnOk, All, Some, map};
ghost use Rattle.dma_segments.specs.Patch.{with_rows_joined};
ghost use Rattle.dma_segments.specs.ReadList.{step_between, command_at, fill_at, command_from, fill_from, commands_of, fills_of};
ghost use Rattle.dma_segments.specs.Rooms.{HasRoom};

use crate::patches::{Patch, Sides, with_rows_joined};
use crate::segments::{Fill, Segments};
use std::alloc::{AllocError, Global};
use ven_base::Elem;
use venice_isa::DmaWork;

/// The step between rows, in bytes: 0 where there is one row.
fn step_between(rows: u32, step: u64, size: u32) -> u32
    requires { 1 < rows → step * size < 2 ^ 32 }
    ensures { result ≡ step_between rows (step * size) }
{
    if rows < 2 {
        0
    } else {
        (step * u64::from(size)) as u32
    }
}

/// The command of a patch whose first element is this element of the array.
pub fn command(sides: Sides, patch: Patch, source: u32) -> DmaWork
    requires room { HasRoom sides patch }
    requires source { patch.from ≡ Some source }
    ensures { result ≡ command_at sides patch source }
{
    DmaWork {
        mem: sides.array + source * sides.size,
        spad: sides.buffer + patch.to * sides.size,
        rows: patch.rows,
        bytes: patch.cols * sides.size,
        mem_step: step_between(patch.rows, patch.from_step, sides.size),
        spad_step: step_between(patch.rows, patch.to_step, sides.size),
        tag: 0,
    }
}

/// The fill of a patch without a source.
fn fill(sides: Sides, elem: Elem, value: i64, patch: Patch) -> Fill
    requires { HasRoom sides patch }
    ensures { result ≡ fill_at sides elem value patch }
{
    Fill {
        at: sides.buffer + patch.to * sides.size,
        elem,
        rows: patch.rows,
        cols: patch.cols,
        step: step_between(patch.rows, patch.to_step, sides.size),
        value,
    }
}

/// Adds a patch's command, or its fill.
fn push_segment(
    found: &mut Segments,
    sides: Sides,
    elem: Elem,
    value: i64,
    patch: Patch,
) -> Result<(), AllocError>
    requires { HasRoom sides patch }
    ensures commands { OnOk result
        (found.new.commands.items ≡ found.old.commands.items ++ command_from patch.from sides patch) }
    ensures fills { OnOk result
        (found.new.fills.items ≡ found.old.fills.items ++ fill_from patch.from sides elem value patch) }
{
    match patch.from {
        Some(source) => found.commands.push(command(sides, patch, source))?,
        None => found.fills.push(fill(sides, elem, value, patch))?,
    }
    Ok(())
}

/// The commands and the fills of patches, with rows that are adjacent as one row.
pub fn segments(
    alloc: Global,
    sides: Sides,
    elem: Elem,
    value: i64,
    patches: &[Patch],
) -> Result<Segments, AllocError>
    requires { All (HasRoom sides) patches.now }
    ensures commands { IfOk result (λ s. s.commands.items ≡ commands_of sides (map with_rows_joined patches.now)) }
    ensures fills { IfOk result (λ s. s.fills.items ≡ fills_of sides elem value (map with_rows_joined patches.now)) }
{
    let mut found = Segments {
        commands: Vec::new(alloc),
        fills: Vec::new(alloc),
    };
    for patch in patches {
        let joined = with_rows_joined(*patch);
        push_segment(&mut found, sides, elem, value, joined)?;
    }
    Ok(found)
}
