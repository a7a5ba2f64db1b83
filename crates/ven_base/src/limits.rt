//! Limits that several crates speak of, each one number (docs/MACHINE.md).

/// The most cells that a scratchpad may have. A cell holds one byte.
pub const CELL_LIMIT: u32 = 1_048_576;

/// The most bytes that a machine's memory may have.
pub const MEMORY_LIMIT: u32 = 134_217_728;
