//! Tests of the language's crates, from their types to the meaning of a program.
//!
//! They show what no clause says: that calls succeed, named arrays in their order, files and sinks that fail, and the
//! outputs of a program. Values that come from outside stand in `language_values`. The crate offers nothing.
#![tactic(auto)]

#[cfg(test)]
mod base;
#[cfg(test)]
mod laws;
#[cfg(test)]
mod meaning;
#[cfg(test)]
mod outside;
