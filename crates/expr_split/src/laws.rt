//! Laws of splits, each the contract of a function that does nothing. A caller of the function may use them.
ghost use Rattle.expr_split.specs.Laws.{KeepsMeaning, MakesArraysInOrder, SplitsAreOne, SplitsAreSound, BoundsAreLawful, NeedsAreSome, TreesAreFew, MapsAreFew, SplitsHaveFewNodes, SplitsAreSmall};
ghost use Rattle.expr_split.specs.TableLaws.{TablesAreDeclared, EntriesAreArrays, SourcesAreInputs, OutputsAreLeft};

/// Done in order on whole arrays, the passes of a program's split leave each output's meaning.
pub fn meaning_law()
    ensures { KeepsMeaning }
{}

/// A program has one split. That of every checked program is sound, and its passes make one array after another behind
/// the inputs.
pub fn split_laws()
    ensures one { SplitsAreOne }
    ensures sound { SplitsAreSound }
    ensures in_order { MakesArraysInOrder }
{}

/// The bound of every checked program is at most 1,099,511,627,776 steps, and its need at least 5 bytes; its trees have
/// together at most four times its nodes, so at most 16,384; its leaves under maps are no more than its map nodes, so at
/// most 4,096; and it has at most 8,192 passes, each with at most 8,192 leaves and as many nodes.
pub fn size_laws()
    ensures bounds { BoundsAreLawful }
    ensures needs { NeedsAreSome }
    ensures trees { TreesAreFew }
    ensures maps { MapsAreFew }
    ensures few { SplitsHaveFewNodes }
    ensures small { SplitsAreSmall }
{}

/// What holds of the table of every checked program's split: it has the program's inputs and outputs, each an array of
/// its own; an array that no pass makes is an input's; and the outputs' arrays are left as the program means them.
pub fn table_laws()
    ensures declared { TablesAreDeclared }
    ensures arrays { EntriesAreArrays }
    ensures sources { SourcesAreInputs }
    ensures outputs { OutputsAreLeft }
{}
