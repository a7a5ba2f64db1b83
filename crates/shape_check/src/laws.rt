//! Laws of checked programs, each the contract of a function that does nothing. A caller of the function may use them.
ghost use Rattle.shape_check.specs.Laws.{HasOneMeaning, HasValuesInType, ReducesRows, ReducesArrays, CountsUses, NamesAreEarlier, HasNoFault, HasOneTyping, HasOneFirstFault};

/// What holds of the meaning: a checked program and fitting inputs have exactly one; each value is a number of its
/// type; a sum is the wrapped sum of all values of the row or the array, a least or greatest one of them that no other
/// is below or above.
pub fn meaning_laws()
    ensures one_meaning { HasOneMeaning }
    ensures values_in_type { HasValuesInType }
    ensures rows { ReducesRows }
    ensures arrays { ReducesArrays }
{}

/// What holds of the names in a checked program: their numbers add up over statements, and each is an earlier
/// statement's.
pub fn name_laws()
    ensures counts { CountsUses }
    ensures earlier { NamesAreEarlier }
{}

/// What holds of checking: a program that has a checked program breaks no rule; it has at most one checked program, and
/// at most one first fault.
pub fn check_laws()
    ensures no_fault { HasNoFault }
    ensures one_typing { HasOneTyping }
    ensures one_first_fault { HasOneFirstFault }
{}
