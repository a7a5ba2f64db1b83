//! Tests of the whole path from a program's text to its outputs in memory, and of the host's programs.
//!
//! Each small program is read, checked, split and made a list, in a scratchpad of its need and in larger ones. The host's
//! code of the split passes on that list. The units do the list one work after another, on 1 to 4 lanes. The outputs'
//! bytes are those of the program's meaning, and no pair of the list's works races. `splits` has the passes of programs
//! that were worked out by hand, `programs` and `transfers` the host's programs. The crate offers nothing.
#![tactic(auto)]

#[cfg(test)]
mod programs;
#[cfg(test)]
mod splits;
#[cfg(test)]
mod tests;
#[cfg(test)]
mod transfers;
