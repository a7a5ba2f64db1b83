//! Good images: what an image of a program has to be, and that the image which is made of a program's split and of code
//! for it is one.
//!
//! `Good` (specs/Good.antt) says it whatever made the image: it is an image of version 2 whose table is the program's
//! inputs and outputs; its list is pipelined for the program's split, and no two of its works race; and whatever inputs
//! fit, on 1 to 4 lanes, in a scratchpad of at least so many bytes, whatever the moments of the units' steps, a run
//! comes to HALT within the bound and leaves the program's meaning. Code comes into it by the record `IsCodeFor`, so
//! that any generator may be put there. The crate has laws alone, each the contract of a function without arguments.
#![tactic(auto)]

mod laws;

pub use laws::{good_laws, table_fits};
