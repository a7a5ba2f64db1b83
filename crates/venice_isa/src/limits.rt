//! The machine's limits.

/// How many vector instructions the lanes' queue has places for, the current one among them.
pub const VECTOR_PLACES: u32 = 4;

/// How many transfers a channel's queue has places for, the current one among them.
pub const TRANSFER_PLACES: u32 = 8;

/// How many instructions an image's code has at the most.
pub const INSTRUCTION_LIMIT: u32 = 8_000_000;
