//! Why a text is no program.

/// Why a text is no program (docs/LANGUAGE.md, "Faults"). `at` is the place in bytes, from 0, at which the token or the
/// byte at fault begins, or the text's end.
#[derive(Clone, Copy)]
pub enum ParseFault {
    /// The byte is above 127; in a comment too.
    NotAscii { at: u32 },
    /// No program goes on there with this token, no program ends there, or the byte begins no token.
    Unexpected { at: u32 },
    /// The name has more than 31 bytes.
    NameTooLong { at: u32 },
    /// The number is above 4,294,967,295.
    NumberTooLarge { at: u32 },
    /// The token begins the 257th statement.
    TooManyStatements { at: u32 },
    /// The token is that of the 4,097th node.
    TooManyNodes { at: u32 },
    /// A node of height 65 ends before the token, or the token is the 65th open bracket or prefix sign.
    TooDeep { at: u32 },
    /// Out of memory.
    Memory,
}
