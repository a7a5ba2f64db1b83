//! The parts of a pass's domain (docs/COMPILER.md, "Tiles").

/// The size of a pass's tiles: rows and columns, at least 1 each.
#[derive(Clone, Copy)]
pub struct Tile {
    pub h: u32,
    pub w: u32,
}

/// A part of a domain: `h` rows from row `r0` on, and of these `w` columns from column `c0` on.
#[derive(Clone, Copy)]
pub struct Piece {
    pub r0: u32,
    pub c0: u32,
    pub h: u32,
    pub w: u32,
}
