//! The stores of the vector machine, and what its units have in common.
//!
//! `Spad` is the scratchpad: cells by place, each a byte with a flag beside it. `MainMem` is the
//! memory: bytes by place. `Unit` is what the lanes and the two channels of transfers are: a queue
//! of works, of which the first is done beat by beat, or many beats at once. The laws of the trait say what every unit
//! keeps to, whatever its works are, and `exchange_laws` what two units with works apart do.
#![tactic(auto)]

mod flags;
mod laws;
mod memory;
mod overtaking;
mod spad;
mod unit;

pub use laws::exchange_laws;
pub use memory::MainMem;
pub use overtaking::Overtaking;
pub use spad::Spad;
pub use unit::Unit;
