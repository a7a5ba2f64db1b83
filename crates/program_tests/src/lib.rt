//! Tests of the top call that no file can show: what it says where memory ran out, and that its laws can be called; and
//! of `compile`.
//!
//! What it does over files in memory stands in the program `program_values`, and what the program `venice` does over
//! real files in the transcripts in tests/cli. The crate offers nothing.
#![tactic(auto)]

#[cfg(test)]
mod images;
#[cfg(test)]
mod program;
