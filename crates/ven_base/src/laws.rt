//! Laws of the definitions, each the contract of a function that does nothing. A caller of the function may use them.
ghost use Rattle.ven_base.specs.Laws.{WrapsToOne, KeepsElements, WrapsOnce, WrapsSums, WrapsDifferences, WrapsProducts, ReducesAmounts, ReducesBits, RoundsDown, ReachesNearest, CutsSums, CutsSumsIntoParts, WrapsEachStep, ReachesBounds, HasOneReduction, JoinsReductions, ReducesInType, GoesRound, FindsPlaces, SourcesAreInside, ResultsAreShapes, CutsSections, FitsPieces, CutsStretches, FitsStretches, CutsShifts, CutsRotations, RepeatsBlocks, HasOneArray, HasOnePointwise1, HasOnePointwise2, HasOneMapped};

/// What holds of wrapping: it is a function, it keeps the type's numbers, and sums, differences and products may be
/// wrapped at each step or once.
pub fn wrapping_laws()
    ensures wraps_to_one { WrapsToOne }
    ensures keeps_elements { KeepsElements }
    ensures wraps_once { WrapsOnce }
    ensures sums { WrapsSums }
    ensures differences { WrapsDifferences }
    ensures products { WrapsProducts }
{}

/// What holds of operations: the amount of a shift is below the width and congruent to the operand modulo the width,
/// the bits of a number are below 2 to the width and congruent to it modulo that, `>>` rounds down, and no number of a
/// type is nearer than the one that saturation gives.
pub fn operation_laws()
    ensures amounts { ReducesAmounts }
    ensures bits { ReducesBits }
    ensures rounds_down { RoundsDown }
    ensures nearest { ReachesNearest }
{}

/// What holds of reductions: each list of at least one value has one, and no list has two; where the values are numbers
/// of the type, so is the reduction; the reductions of a list's parts make that of the whole; and a sum is the same for
/// any cut into parts, and wrapped at each step or once.
pub fn reduction_laws()
    ensures cuts_sums { CutsSums }
    ensures cuts_into_parts { CutsSumsIntoParts }
    ensures wraps_each_step { WrapsEachStep }
    ensures reaches_bounds { ReachesBounds }
    ensures has_one { HasOneReduction }
    ensures joins { JoinsReductions }
    ensures in_type { ReducesInType }
{}

/// What holds of places: going round n places gives the place below n that is congruent modulo n, and a number is one
/// of the n places exactly where it is from 0 on and below n.
pub fn place_laws()
    ensures goes_round { GoesRound }
    ensures finds { FindsPlaces }
{}

/// What holds of index maps: sources lie in the operand, results have a shape, a stretch repeats each element over a
/// block, and the sources of a piece of a section's, a stretch's, a shift's or a rotation's result are those of one
/// that begins further on, a stretch's at a whole block. Such a section or stretch fits.
pub fn mapping_laws()
    ensures inside { SourcesAreInside }
    ensures shapes { ResultsAreShapes }
    ensures sections { CutsSections }
    ensures pieces_fit { FitsPieces }
    ensures stretches { CutsStretches }
    ensures stretches_fit { FitsStretches }
    ensures shifts { CutsShifts }
    ensures rotations { CutsRotations }
    ensures blocks { RepeatsBlocks }
{}

/// What holds of arrays: one type, one shape and one value at each index make one array, so an operation at each index
/// gives one, and a mapping does.
pub fn array_laws()
    ensures one_array { HasOneArray }
    ensures one_pointwise1 { HasOnePointwise1 }
    ensures one_pointwise2 { HasOnePointwise2 }
    ensures one_mapped { HasOneMapped }
{}
