//! The words of an array file.

use ven_base::{Elem, Name};

/// What a token says. A number above 4,294,967,295 counts as one more than that.
#[derive(Clone, Copy)]
pub enum Word {
    Name(Name),
    Elem(Elem),
    Number(u64),
    Minus,
    Open,
    Comma,
    Close,
}
