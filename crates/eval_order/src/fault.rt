//! Why a list of numbers has no answer.
use thiserror::Error;

/// Why `held` has no answer.
#[derive(Clone, Copy, Debug, Error)]
pub enum HeldFault {
    /// The number at place `at`, from 0, is no inner node's, came before, or has a computed operand that didn't come
    /// before; or `at` is the list's length and a node is missing. It is the first such place.
    #[error("no order at place {at}")]
    NotAnOrder { at: u32 },
    #[error("out of memory")]
    Memory,
}
