//! The limits on programs (docs/LANGUAGE.md, "Limits").

/// The most statements of a program.
pub const STATEMENT_LIMIT: usize = 256;

/// The most nodes of a program: of all its expressions together.
pub const NODE_LIMIT: u32 = 4_096;

/// The greatest height of an expression, and the most brackets and prefix signs that may be open at once.
pub const HEIGHT_LIMIT: u32 = 64;
