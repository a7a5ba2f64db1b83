//! Tokens, and why there is none.

use thiserror::Error;

/// What a token is (docs/LANGUAGE.md, "Tokens"). `End` is the text's end, which has no bytes.
#[derive(Clone, Copy, PartialEq)]
pub enum TokenKind {
    Name,
    Number,
    Sign,
    Line,
    End,
}

/// A token, as the bytes of the text from `start` up to `end`, places in bytes from 0.
#[derive(Clone, Copy)]
pub struct Token {
    pub kind: TokenKind,
    pub start: u32,
    pub end: u32,
}

/// Why no token is read at the place `at`, in bytes from 0.
#[derive(Clone, Copy, Debug, Error)]
pub enum TokenFault {
    /// The byte is above 127; in a comment too.
    #[error("byte {at} is not ASCII")]
    NotAscii { at: u32 },
    /// The byte begins no token.
    #[error("byte {at} begins no token")]
    Unexpected { at: u32 },
}
