//! What holds of transfers of a tile (docs/COMPILER.md, "Transfers of a tile"), each as a function without arguments
//! whose contract is the law.
ghost use Rattle.dma_segments.specs.Examples.{WorkedRows};
ghost use Rattle.dma_segments.specs.Laws.{TagsHaveNoSay, CommandCells, CommandPlaces, CommandsWriteOnce, ReadsBring, FillsFill, PutsHold, PieceHasValues, LeafCellsAreItsPlaces, ReadsShowLeaf, WriteCells, WriteTagsHaveNoSay, ResultCellsAreItsPlaces, TakenBytesAreItsPlaces, WritesTake, WritesShowPiece};

/// Commands and fills that put a piece of a leaf: the commands write the elements that have a source and read the
/// array alone; done one after another, and then the fills, they leave the piece in its buffer whatever stood there,
/// and change nothing else; and where memory has the array, each element is then the map's value.
pub fn read_laws()
    ensures cells { CommandCells }
    ensures places { CommandPlaces }
    ensures once { CommandsWriteOnce }
    ensures bring { ReadsBring }
    ensures fill { FillsFill }
    ensures hold { PutsHold }
    ensures values { PieceHasValues }
    ensures tags { TagsHaveNoSay }
{}

/// A command that takes a piece: it reads the buffer's piece alone, leaves its bytes in the piece's place in the
/// array, and changes nothing else.
pub fn write_laws()
    ensures cells { WriteCells }
    ensures take { WritesTake }
    ensures tags { WriteTagsHaveNoSay }
{}

/// The same in the words of a pass's buffers: the elements of a leaf's piece that have a source are its places, and
/// the commands bring their bytes; a piece of what the pass makes has a tile's places in cells and in the
/// destination, and its bytes are taken there.
pub fn pass_laws()
    ensures leaf_cells { LeafCellsAreItsPlaces }
    ensures leaf_bytes { ReadsShowLeaf }
    ensures result_cells { ResultCellsAreItsPlaces }
    ensures piece_places { TakenBytesAreItsPlaces }
    ensures piece_bytes { WritesShowPiece }
{}

/// The lists of a few small pieces.
pub fn worked_rows()
    ensures { WorkedRows }
{}
