//! The evaluator of the array language: what a checked program means, worked out node by node on whole arrays
//! (docs/LANGUAGE.md, "What a program means").
//!
//! `eval` gives the outputs of a checked program: `meaning_of` in shape_check's `specs/Meaning`. The inputs hold an
//! array of each input's name, with its type and shape. Out of memory is the only other answer.
//!
//! Each statement is worked out once, and an array that stands somewhere is used where it stands. The type and the
//! operation of a node are chosen once, and its loop is compiled for them.
#![tactic(auto)]

mod evaluation;
mod fill;
mod kernel;
mod maps;
mod nodes;
mod operand;
mod outputs;
mod reduce;
mod store;
mod unary;

pub use outputs::eval;
