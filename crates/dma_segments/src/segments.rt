//! Commands and fills (docs/COMPILER.md, "Transfers of a tile").
use ven_base::Elem;
use venice_isa::DmaWork;

/// Cells that take one number: `rows` rows of `cols` elements of the type `elem`, one directly after the other. Row 0
/// begins at the cell `at`, each other row `step` bytes after the one before; the step of one row is 0.
#[derive(Clone, Copy)]
pub struct Fill {
    pub at: u32,
    pub elem: Elem,
    pub rows: u32,
    pub cols: u32,
    pub step: u32,
    pub value: i64,
}

/// The read commands of a piece of a leaf, with the tag 0, and its fills.
#[derive(Drop)]
pub struct Segments {
    pub commands: Vec<DmaWork>,
    pub fills: Vec<Fill>,
}
