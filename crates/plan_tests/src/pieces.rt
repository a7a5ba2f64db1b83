//! Pieces of small arrays, brought and taken byte by byte.
use dma_segments::{Fill, Segments, reads, writes};
use pass_plan::parts::Piece;
use pass_plan::{ArrayPlace, Leaf};
use std::alloc::{AllocError, Global};
use std::test::Fail;
use ven_base::{Elem, Mapping, Shape};
use venice_isa::{DmaWork, Region};

/// The cell at which the pieces' buffers begin, and how many cells there are.
const BUFFER: u32 = 5;

const CELLS: usize = 40;

/// What a cell has that nothing has written, and one that was written twice.
const UNTOUCHED: u16 = 256;

const TWICE: u16 = 257;

/// A byte of an array, of which each in its range is another.
fn byte_at(place: u128) -> u16 {
    if place < 140 {
        100 + place as u16
    } else {
        UNTOUCHED
    }
}

fn put(cells: &mut [u16], place: u128, byte: u16) {
    if place < 40 {
        if let Some(cell) = cells.get_mut(place as usize) {
            *cell = if *cell == UNTOUCHED { byte } else { TWICE };
        }
    }
}

fn copy(work: DmaWork, cells: &mut [u16]) {
    for r in 0..work.rows {
        for j in 0..work.bytes {
            put(
                cells,
                work.cells().place_of(r, j),
                byte_at(work.memory().place_of(r, j)),
            );
        }
    }
}

/// The bytes of a fill with a number below 100.
fn fill(fill: Fill, cells: &mut [u16]) {
    let region = Region {
        place: fill.at,
        step: fill.step,
        size: fill.elem.size(),
        rows: fill.rows,
        columns: fill.cols,
    };
    for r in 0..fill.rows {
        for k in 0..fill.cols {
            for b in 0..fill.elem.size() {
                let byte = if b == 0 && 0 <= fill.value && fill.value < 100 {
                    fill.value as u16
                } else {
                    0
                };
                put(cells, region.place_of(r, k) + u128::from(b), byte);
            }
        }
    }
}

/// The byte that belongs to byte `b` of an element that comes from row and column `source` of an array, or is filled.
fn wanted(source: Option<(u32, u32)>, columns: u32, size: u32, b: u32, value: u16) -> u16 {
    match source {
        Some((row, column)) => {
            let index = u128::from(row) * u128::from(columns) + u128::from(column);
            byte_at(index * u128::from(size) + u128::from(b))
        }
        None if b == 0 => value,
        None => 0,
    }
}

/// What the cells are to be after a piece of an array was brought.
fn wanted_cells(map: Mapping, elem: Elem, shape: Shape, piece: Piece) -> [u16; CELLS] {
    let mut cells = [UNTOUCHED; CELLS];
    for row in 0..piece.h.min(9) {
        for column in 0..piece.w.min(9) {
            let source = source_of(
                map,
                shape,
                u64::from(piece.r0) + u64::from(row),
                u64::from(piece.c0) + u64::from(column),
            );
            for b in 0..elem.size() {
                let element = u128::from(row) * u128::from(piece.w) + u128::from(column);
                let place = u128::from(BUFFER) + element * u128::from(elem.size()) + u128::from(b);
                put(
                    &mut cells,
                    place,
                    wanted(source, shape.cols, elem.size(), b, 7),
                );
            }
        }
    }
    cells
}

/// The source, where the map fits and the index lies in the result.
fn source_of(map: Mapping, shape: Shape, row: u64, column: u64) -> Option<(u32, u32)> {
    if !map.fits(shape) {
        return None;
    }
    let result = map.result(shape);
    if row < u64::from(result.rows) && column < u64::from(result.cols) {
        map.source(shape, row as u32, column as u32)
    } else {
        None
    }
}

/// The commands and fills of a piece of an array at place 0, where it lies in the map's result.
fn brought(
    alloc: Global,
    map: Mapping,
    elem: Elem,
    shape: Shape,
    piece: Piece,
) -> Result<Option<Segments>, AllocError> {
    if !map.fits(shape) {
        return Ok(None);
    }
    let result = map.result(shape);
    if piece.h == 0
        || piece.w == 0
        || piece.h > 9
        || piece.w > 9
        || shape.rows > 100
        || shape.cols > 100
    {
        return Ok(None);
    }
    if piece.r0 > result.rows
        || piece.c0 > result.cols
        || piece.h > result.rows - piece.r0
        || piece.w > result.cols - piece.c0
    {
        return Ok(None);
    }
    let leaf = Leaf {
        array: 0,
        elem,
        shape,
        map,
    };
    let from = ArrayPlace {
        elem,
        shape,
        place: 0,
    };
    Ok(Some(reads(alloc, &leaf, &from, piece, BUFFER)?))
}

/// What the cells are after the commands and fills of a piece that lies in the map's result, else `None`.
fn cells_after(
    alloc: Global,
    map: Mapping,
    elem: Elem,
    shape: Shape,
    piece: Piece,
) -> Result<Option<[u16; CELLS]>, AllocError> {
    let Some(found) = brought(alloc, map, elem, shape, piece)? else {
        return Ok(None);
    };
    let mut cells = [UNTOUCHED; CELLS];
    for work in &found.commands {
        copy(*work, &mut cells);
    }
    for one in &found.fills {
        fill(*one, &mut cells);
    }
    Ok(Some(cells))
}

/// Whether each tile of 2 by 3 of the map's result is brought as element by element.
fn brings_all(alloc: Global, map: Mapping, elem: Elem, shape: Shape) -> Result<bool, AllocError> {
    let result = if map.fits(shape) {
        map.result(shape)
    } else {
        shape
    };
    for r in 0..10 {
        for c in 0..10 {
            let (r0, c0) = (2 * r, 3 * c);
            if r0 < result.rows && c0 < result.cols {
                let piece = Piece {
                    r0,
                    c0,
                    h: 2.min(result.rows - r0),
                    w: 3.min(result.cols - c0),
                };
                if !brings(alloc, map, elem, shape, piece)? {
                    return Ok(false);
                }
            }
        }
    }
    Ok(true)
}

/// Whether a piece is brought as element by element.
fn brings(
    alloc: Global,
    map: Mapping,
    elem: Elem,
    shape: Shape,
    piece: Piece,
) -> Result<bool, AllocError> {
    match cells_after(alloc, map, elem, shape, piece)? {
        Some(cells) => Ok(cells == wanted_cells(map, elem, shape, piece)),
        None => Ok(false),
    }
}

/// Maps that fit an array of 5 by 7.
const MAPS: [Mapping; 12] = [
    Mapping::Identity,
    Mapping::Shift {
        dr: 1,
        dc: -2,
        fill: 7,
    },
    Mapping::Shift {
        dr: -3,
        dc: 4,
        fill: 7,
    },
    Mapping::Shift {
        dr: 0,
        dc: 9,
        fill: 7,
    },
    Mapping::Rotate { dr: 1, dc: -2 },
    Mapping::Rotate { dr: -12, dc: 6 },
    Mapping::Section {
        r0: 1,
        nr: 4,
        sr: 1,
        c0: 2,
        nc: 5,
        sc: 1,
    },
    Mapping::Section {
        r0: 0,
        nr: 3,
        sr: 2,
        c0: 0,
        nc: 3,
        sc: 3,
    },
    Mapping::Stretch { kr: 3, kc: 1 },
    Mapping::Stretch { kr: 1, kc: 4 },
    Mapping::Stretch { kr: 3, kc: 2 },
    Mapping::Transpose,
];

const ELEMS: [Elem; 6] = [
    Elem::U8,
    Elem::I8,
    Elem::U16,
    Elem::I16,
    Elem::U32,
    Elem::I32,
];

#[test]
fn every_map_of_every_type(rt: HostRuntime) -> Result<(), Fail> {
    let shape = Shape { rows: 5, cols: 7 };
    for map in MAPS {
        for elem in ELEMS {
            assert!(rt; brings_all(rt.alloc(), map, elem, shape)?);
        }
    }
    Ok(())
}

fn rows(mem: u32, spad: u32, rows: u32, bytes: u32, mem_step: u32, spad_step: u32) -> DmaWork {
    DmaWork {
        mem,
        spad,
        rows,
        bytes,
        mem_step,
        spad_step,
        tag: 0,
    }
}

/// A fill of one row of bytes with 7.
fn filled(at: u32, cols: u32) -> Fill {
    Fill {
        at,
        elem: Elem::U8,
        rows: 1,
        cols,
        step: 0,
        value: 7,
    }
}

/// Whether fills are these, all of one type.
fn are_fills(found: &[Fill], wanted: &[Fill]) -> bool {
    found.len() == wanted.len() && found.iter().zip(wanted).all(|(a, b)| is_fill(a, b))
}

fn is_fill(a: &Fill, b: &Fill) -> bool {
    (a.at, a.rows, a.cols, a.step, a.value) == (b.at, b.rows, b.cols, b.step, b.value)
        && a.elem == b.elem
}

/// Whether a piece of an array of bytes has these commands and fills.
fn is_read(
    alloc: Global,
    map: Mapping,
    shape: Shape,
    part: (u32, u32, u32, u32),
    commands: &[DmaWork],
    fills: &[Fill],
) -> Result<bool, AllocError> {
    let piece = Piece {
        r0: part.0,
        c0: part.1,
        h: part.2,
        w: part.3,
    };
    match brought(alloc, map, Elem::U8, shape, piece)? {
        Some(found) => Ok(found.commands.as_slice() == commands && are_fills(&found.fills, fills)),
        None => Ok(false),
    }
}

#[test]
fn few_commands_of_rows(rt: HostRuntime) -> Result<(), Fail> {
    let alloc = rt.alloc();
    let three = Shape { rows: 1, cols: 3 };
    let whole = (0, 0, 1, 3);
    let shifted = [rows(1, 5, 1, 2, 0, 0)];
    let shift = |dc| Mapping::Shift { dr: 0, dc, fill: 7 };
    assert!(rt; is_read(alloc, shift(1), three, whole, &shifted, &[filled(7, 1)])?);
    assert!(rt; is_read(alloc, shift(5), three, whole, &[], &[filled(5, 3)])?);
    let back = Mapping::Rotate { dr: 0, dc: -1 };
    let rotated = [rows(2, 5, 1, 1, 0, 0), rows(0, 6, 1, 2, 0, 0)];
    assert!(rt; is_read(alloc, back, three, whole, &rotated, &[])?);
    let twice = Mapping::Stretch { kr: 1, kc: 2 };
    let phases = [rows(0, 5, 2, 1, 1, 2), rows(1, 6, 2, 1, 1, 2)];
    assert!(rt; is_read(alloc, twice, three, (0, 1, 1, 4), &phases, &[])?);
    Ok(())
}

#[test]
fn few_commands_of_two_rows(rt: HostRuntime) -> Result<(), Fail> {
    let alloc = rt.alloc();
    let eight = Shape { rows: 2, cols: 4 };
    let part = [rows(1, 5, 2, 2, 4, 2)];
    assert!(rt; is_read(alloc, Mapping::Identity, eight, (0, 1, 2, 2), &part, &[])?);
    let whole = [rows(0, 5, 1, 8, 0, 0)];
    assert!(rt; is_read(alloc, Mapping::Identity, eight, (0, 0, 2, 4), &whole, &[])?);
    let turned = [rows(1, 5, 3, 1, 1, 2), rows(5, 6, 3, 1, 1, 2)];
    assert!(rt; is_read(alloc, Mapping::Transpose, eight, (1, 0, 3, 2), &turned, &[])?);
    Ok(())
}

#[test]
fn pieces_are_written(rt: HostRuntime) -> Result<(), Fail> {
    let eight = ArrayPlace {
        elem: Elem::U16,
        shape: Shape { rows: 2, cols: 4 },
        place: 100,
    };
    let part = Piece {
        r0: 0,
        c0: 1,
        h: 2,
        w: 2,
    };
    let found = writes(rt.alloc(), &eight, part, 9)?;
    assert!(rt; found.as_slice() == [rows(102, 9, 2, 4, 8, 4)].as_slice());
    let column = ArrayPlace {
        elem: Elem::I32,
        shape: Shape { rows: 9, cols: 1 },
        place: 40,
    };
    let part = Piece {
        r0: 3,
        c0: 0,
        h: 4,
        w: 1,
    };
    let found = writes(rt.alloc(), &column, part, 0)?;
    assert!(rt; found.as_slice() == [rows(52, 0, 1, 16, 0, 0)].as_slice());
    Ok(())
}
