//! Laws of passes, each the contract of a function that does nothing. A caller of the function may use them.
ghost use Rattle.pass_plan.specs.Laws.{TilesCover, TilesAreApart, TilesLieInside, TilesAreSome, NeedHoldsEach, BuffersLieInside, LabelsAreSome, LabelsAreFew, NormalisingKeeps, NumberingKeeps, PassesMakeArrays};

/// What holds of the tiles of a pass: they cover its domain, share no index, have rows and columns and lie inside.
pub fn tile_laws()
    ensures cover { TilesCover }
    ensures apart { TilesAreApart }
    ensures inside { TilesLieInside }
    ensures some { TilesAreSome }
{}

/// What holds of the need: it is at least that of each pass, and the buffers of a tile lie in a scratchpad that holds it; and
/// of labels: an inner node's is at least 1, and no tree's is above its number of nodes.
pub fn need_laws()
    ensures each { NeedHoldsEach }
    ensures buffers { BuffersLieInside }
    ensures some_label { LabelsAreSome }
    ensures few_labels { LabelsAreFew }
{}

/// What holds of values: normalising a tree and numbering its leaves keep them, and a sound pass makes an array of numbers of
/// its type.
pub fn value_laws()
    ensures normalising { NormalisingKeeps }
    ensures numbering { NumberingKeeps }
    ensures arrays { PassesMakeArrays }
{}
