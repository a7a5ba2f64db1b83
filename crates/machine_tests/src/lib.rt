//! Tests of the machine's crates: that their public calls answer what was worked out by hand, and that they succeed.
//!
//! One module a crate, which speaks of that crate's public calls alone. Tables of numbers are lines that the program
//! `machine_values` reads. The crate offers nothing.
#![tactic(auto)]

#[cfg(test)]
mod asm;
#[cfg(test)]
mod channels;
#[cfg(test)]
mod host;
#[cfg(test)]
mod isa;
#[cfg(test)]
mod lanes;
#[cfg(test)]
mod machine;
#[cfg(test)]
mod overlap;
#[cfg(test)]
mod stores;
