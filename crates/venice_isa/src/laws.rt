//! The laws of the machine's work (docs/MACHINE.md), each as a function without arguments whose contract is the law.

ghost use Rattle.venice_isa.specs.Laws.{RowsApartKeepElementsApart, WholeWritesItsFootprint, WholeReadsItsFootprint, WholeIsDetermined, ReadCopiesItsRows, WriteCopiesItsRows, BytesSpellTheirNumber, NumbersHaveOneSpelling, BeatsAreTheWhole, BeatsAreTheCopy, NextBeatKeepsToFootprint, TestsDecide};

/// Where no row of elements reaches into the next, every byte is in at most one element.
pub fn rows_apart_keep_elements_apart()
    ensures { RowsApartKeepElementsApart }
{}

/// A vector instruction changes only the cells of its write footprint.
pub fn whole_writes_its_footprint()
    ensures { WholeWritesItsFootprint }
{}

/// Of cells of one number, what a vector instruction writes depends only on those of its read footprint.
pub fn whole_reads_its_footprint()
    ensures { WholeReadsItsFootprint }
{}

/// The cells before a vector instruction determine the cells after it.
pub fn whole_is_determined()
    ensures { WholeIsDetermined }
{}

/// A read in range, no row of which reaches into the next in cells, copies its bytes of memory to their
/// cells with their flags cleared. A read in range changes no other cell.
pub fn read_copies_its_rows()
    ensures { ReadCopiesItsRows }
{}

/// A write in range, no row of which reaches into the next in memory, copies the bytes of its cells to
/// their places there. A write in range changes no other byte.
pub fn write_copies_its_rows()
    ensures { WriteCopiesItsRows }
{}

/// The bytes of a number of a type, the lowest first, spell that number.
pub fn bytes_spell_their_number()
    ensures { BytesSpellTheirNumber }
{}

/// A number of a type has one spelling.
pub fn numbers_have_one_spelling()
    ensures { NumbersHaveOneSpelling }
{}

/// Whatever the number of lanes, the beats of a simple vector instruction in range together are its
/// whole effect.
pub fn beats_are_the_whole()
    ensures { BeatsAreTheWhole }
{}

/// The beats of a transfer in range together are its copy.
pub fn beats_are_the_copy()
    ensures { BeatsAreTheCopy }
{}

/// The next beat of any work, whatever has been done of it, keeps to the work's footprint. It changes only what the
/// work writes. What it does, and how far it brings the work, depends only on what the work reads: it is the same in
/// any two stores that have the footprint and agree there. And it brings the work one beat nearer to its end.
pub fn next_beat_keeps_to_footprint()
    ensures { NextBeatKeepsToFootprint }
{}

/// The machine's tests of an issue, as truth values, answer true exactly where every place of its footprint is there,
/// and exactly where two issues conflict.
pub fn tests_decide()
    ensures { TestsDecide }
{}
