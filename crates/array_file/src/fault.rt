//! Why a text is no array file.

use ven_base::Name;

/// Why a text is no array file (docs/FORMATS.md, "The array file"). Places are in bytes, from 0, at which the token or
/// the byte at fault begins, or the text's end.
#[derive(Clone, Copy)]
pub enum ArrayFault {
    /// No array file goes on there: with this byte or token, with this shape, or with the text's end.
    Unexpected { at: u32 },
    /// The value that begins there isn't a number of its array's type.
    OutOfType { at: u32 },
    /// The array has `have` values, and its shape `need` elements.
    CountWrong { name: Name, need: u32, have: u32 },
    /// A second array has this name.
    Twice { name: Name },
    /// Out of memory.
    Memory,
}
