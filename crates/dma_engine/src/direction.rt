//! The two directions of a transfer.
ghost use Rattle.std.specs.Prelude.{◌≡◌, ◌+◌, ◌≤◌, length};
ghost use Rattle.ven_base.specs.Store.{store_of, store_size};
ghost use Rattle.dma_engine.specs.Current.{moved};

use spad_store::{MainMem, Spad};
use venice_isa::DmaWork;

/// Which way bytes go.
#[derive(Clone, Copy)]
pub enum Direction {
    /// From memory to cells, whose flags are cleared.
    IntoCells,
    /// From cells to memory.
    IntoMemory,
}

/// A direction that is known where the code is compiled. `Reads` and `Writes` are all that there are.
pub trait Directed {
    ghost use Rattle.dma_engine.specs.declared.direction.Direction.{Direction as Way};

    ghost DIRECTION: { Way };

    const DIRECTION: Direction;
}

/// The direction of reads, into cells.
pub struct Reads;

impl Directed for Reads {
    ghost use Rattle.dma_engine.specs.declared.direction.Direction.TheVariants.{IntoCells};

    ghost DIRECTION = { IntoCells };

    const DIRECTION: Direction = Direction::IntoCells;
}

/// The direction of writes, into memory.
pub struct Writes;

impl Directed for Writes {
    ghost use Rattle.dma_engine.specs.declared.direction.Direction.TheVariants.{IntoMemory};

    ghost DIRECTION = { IntoMemory };

    const DIRECTION: Direction = Direction::IntoMemory;
}

/// Moves up to 16 bytes between the cells from `cell` on and memory from `place` on.
pub(crate) fn move_bytes(
    direction: Direction,
    cells: &mut Spad,
    memory: &mut MainMem,
    cell: u32,
    place: u32,
    count: u32,
)
    requires few { count ≤ 16 }
    requires in_cells { cell + count ≤ length cells.old }
    requires in_memory { place + count ≤ length memory.old }
    ensures { store_of cells.new memory.new ≡ moved direction cell place count (store_of cells.old memory.old) }
{
    let mut bytes = [0; DmaWork::GROUP_BYTES as usize];
    if count == DmaWork::GROUP_BYTES {
        pass(direction, cells, memory, cell, place, &mut bytes);
    } else {
        pass(
            direction,
            cells,
            memory,
            cell,
            place,
            &mut bytes[..count as usize],
        );
    }
}

/// Moves as many bytes as the buffer has, through it. A whole group is copied by moves of its size.
#[inline(always)]
fn pass(
    direction: Direction,
    cells: &mut Spad,
    memory: &mut MainMem,
    cell: u32,
    place: u32,
    bytes: &mut [u8],
)
    requires in_cells { cell + length bytes.old ≤ length cells.old }
    requires in_memory { place + length bytes.old ≤ length memory.old }
    ensures { store_of cells.new memory.new
        ≡ moved direction cell place (length bytes.old) (store_of cells.old memory.old) }
{
    match direction {
        Direction::IntoCells => {
            memory.get_bytes(place, bytes);
            cells.put_bytes(cell, bytes);
        }
        Direction::IntoMemory => {
            cells.get_bytes(cell, bytes);
            memory.put_bytes(place, bytes);
        }
    }
}

/// Moves so many bytes between the cells from `cell` on and memory from `place` on, by one move.
pub(crate) fn move_block(
    direction: Direction,
    cells: &mut Spad,
    memory: &mut MainMem,
    cell: u32,
    place: u32,
    count: u32,
)
    requires in_cells { cell + count ≤ length cells.old }
    requires in_memory { place + count ≤ length memory.old }
    ensures store { store_of cells.new memory.new ≡ moved direction cell place count (store_of cells.old memory.old) }
    ensures same_size { store_size (store_of cells.new memory.new) ≡ store_size (store_of cells.old memory.old) }
{
    match direction {
        Direction::IntoCells => cells.put_bytes(cell, memory.part(place, count)),
        Direction::IntoMemory => memory.put_bytes(place, cells.part(cell, count)),
    }
}
