//! Where elements, or bytes of a transfer, stand.

/// Rows of elements, in cells or in memory (docs/MACHINE.md, "Cells and memory"). Row 0 begins at the byte `place`, and
/// each row `step` bytes after the one before. In a row `columns` elements of `size` bytes stand one directly after the
/// other. Any numbers may stand here: places don't wrap, rows may overlap, and with a count of 0 there are no bytes.
#[derive(Clone, Copy)]
pub struct Region {
    pub place: u32,
    pub step: u32,
    pub size: u32,
    pub rows: u32,
    pub columns: u32,
}

impl Region {
    ghost use Rattle.std.specs.Prelude.{◌≡◌, ◌↔◌, ◌<◌, IsTrue};
    ghost use Rattle.venice_isa.specs.Region.{place_in, LiesBelow};

    /// The byte at which element `column` of row `row` begins, both counted from 0. The sum is exact, also past the
    /// region's end.
    pub fn place_of(self, row: u32, column: u32) -> u128
        ensures { result ≡ place_in self row column }
    {
        u128::from(self.place)
            + u128::from(row) * u128::from(self.step)
            + u128::from(column) * u128::from(self.size)
    }

    /// Whether every byte of the region lies below `end`. A region without bytes does. Constant time.
    pub fn lies_below(self, end: u32) -> bool
        ensures { IsTrue result ↔ LiesBelow self end }
    {
        if self.rows == 0 || self.columns == 0 || self.size == 0 {
            return true;
        }
        self.place_of(self.rows - 1, self.columns) <= u128::from(end)
    }
}
