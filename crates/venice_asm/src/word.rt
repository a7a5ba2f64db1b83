//! The words of an assembler text.

use crate::label::Label;

/// What a token says. A number above 4,294,967,295 counts as one more than that. The text's end is a line end too.
#[derive(Clone, Copy)]
pub enum Word {
    Name(Label),
    Number(u64),
    Colon,
    Open,
    Comma,
    Close,
    Line,
}
