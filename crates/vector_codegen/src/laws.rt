//! What holds of the instructions of a tile (docs/COMPILER.md, "Instructions of a tile"), as a function without
//! arguments whose contract is the laws.
ghost use Rattle.vector_codegen.specs.Examples.{WorkedRows};
ghost use Rattle.vector_codegen.specs.Laws.{TilesLeaveResults, TilesKeepToBuffers, TilesAreFew, TilesHaveOneEach, LeavesFillTiles};

/// The instructions of a tile, done one after another for any number of lanes on cells that hold its leaves' pieces,
/// leave the tile's results; each is simple and keeps to the tile's buffers; and they and their beats are few: one for
/// each fill and each inner node of the tree, but for the sum that joins and the halvings.
pub fn tile_laws()
    ensures leaves { TilesLeaveResults }
    ensures keep { TilesKeepToBuffers }
    ensures few { TilesAreFew }
    ensures one_each { TilesHaveOneEach }
{}

/// The fills that put the pieces of a tile's leaves, as `reads` answers them, one leaf after another, are the tile's.
pub fn fill_laws()
    ensures { LeavesFillTiles }
{}

/// The lists of a few small tiles.
pub fn worked_rows()
    ensures { WorkedRows }
{}
