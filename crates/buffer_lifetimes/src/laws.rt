//! What holds of every lawful order (docs/COMPILER.md, "Orders of evaluation"), each as a function without arguments
//! whose contract is the law.
ghost use Rattle.buffer_lifetimes.specs.Laws.{HasOrder, CountsSteps, EndsWithRoot, WorksOutParts, PartsAreTyped, PartsAreNormal, GivesValues, OneSizeInPlace};

/// A normalised tree has an order on as many slots as its label, and each order has one step for each inner node,
/// works out only parts of the tree, and ends with its root. The parts of a tree keep its types and normal selects.
pub fn order_laws()
    ensures has { HasOrder }
    ensures counts { CountsSteps }
    ensures parts { WorksOutParts }
    ensures typed { PartsAreTyped }
    ensures normal { PartsAreNormal }
    ensures ends { EndsWithRoot }
    ensures sizes { OneSizeInPlace }
{}

/// The steps of an order, done one after another on slots, give the tree's values at all indices.
pub fn value_laws()
    ensures { GivesValues }
{}
