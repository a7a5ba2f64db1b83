//! Runs of an axis, and patches of a piece. All is counted in elements.
ghost use Rattle.std.specs.Prelude.{◌≡◌, ◌*◌, ◌<◌, ◌^◌};
ghost use Rattle.dma_segments.specs.Patch.{has_adjacent_sources, with_rows_joined};

/// Places of a piece's rows, or of its columns, that stand equally far apart, and whose sources do too: all of them
/// have a source, or none has.
#[derive(Clone, Copy)]
pub struct Run {
    pub first: u32,
    pub step: u32,
    pub count: u32,
    pub source: Option<u32>,
    pub source_step: u32,
}

/// Rows of adjacent elements of a piece, whose sources are adjacent too, or which have none. `to` is an element of
/// the piece, row by row, and `from` one of the array.
#[derive(Clone, Copy)]
pub struct Patch {
    pub rows: u32,
    pub cols: u32,
    pub to: u32,
    pub to_step: u64,
    pub from: Option<u32>,
    pub from_step: u64,
}

/// How wide a piece is, and how far apart the sources of neighbouring rows and of neighbouring columns stand.
#[derive(Clone, Copy)]
pub struct Layout {
    pub width: u32,
    pub row_pitch: u32,
    pub column_pitch: u32,
}

/// How many bytes an element has, the place of an array's first byte in memory, and the first cell of a piece's
/// buffer.
#[derive(Clone, Copy)]
pub struct Sides {
    pub size: u32,
    pub array: u32,
    pub buffer: u32,
}

/// Whether the sources of rows so far apart are adjacent, or there are none.
fn has_adjacent_sources(from: Option<u32>, cols: u32, from_step: u64) -> bool
    ensures { result ≡ has_adjacent_sources from cols from_step }
{
    match from {
        Some(_) => from_step == u64::from(cols),
        None => true,
    }
}

/// The patch with rows that are adjacent on both sides as one row.
pub fn with_rows_joined(patch: Patch) -> Patch
    requires { patch.rows * patch.cols < 2 ^ 32 }
    ensures { result ≡ with_rows_joined patch }
{
    let is_adjacent = patch.to_step == u64::from(patch.cols);
    if is_adjacent && has_adjacent_sources(patch.from, patch.cols, patch.from_step) {
        Patch {
            rows: 1,
            cols: patch.rows * patch.cols,
            ..patch
        }
    } else {
        patch
    }
}
