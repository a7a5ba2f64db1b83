//! What the definitions of array files settle, whatever the code does.

ghost use Rattle.array_file.specs.Laws.{HasOneReading, DenotesNothingAtFaults, HasOneAnswer, HasNoLargeValue, HasNoLargeShape};

/// A text denotes one list of arrays, or has one answer, and never both.
pub fn one_reading()
    ensures one { HasOneReading }
    ensures at_faults { DenotesNothingAtFaults }
    ensures answer { HasOneAnswer }
{}

/// That numbers above the greatest count as one more than it changes nothing: no type and no shape has one of them.
pub fn large_numbers()
    ensures values { HasNoLargeValue }
    ensures shapes { HasNoLargeShape }
{}
