//! What the tokens of the array language say.

use ven_base::{Elem, Fold, Name, Op2};

/// A binary sign.
#[derive(Clone, Copy)]
pub enum Operator {
    Times,
    Plus,
    Minus,
    ShiftLeft,
    ShiftRight,
    And,
    Xor,
    Or,
    Equal,
    NotEqual,
    Less,
    LessOrEqual,
    Greater,
    GreaterOrEqual,
}

/// A function: a type, which casts, or a word that the language keeps for one.
#[derive(Clone, Copy)]
pub enum Callee {
    Cast(Elem),
    Abs,
    RowFold(Fold),
    Fold(Fold),
    Min,
    Max,
    SatAdd,
    SatSub,
    Select,
    Shift,
    Rotate,
    Section,
    Stretch,
    Transpose,
}

/// What a statement with an expression does with its name.
#[derive(Clone, Copy)]
pub enum Binding {
    Let,
    Output,
}

/// What a token says.
#[derive(Clone, Copy)]
pub enum Word {
    Name(Name),
    Number(u32),
    Operator(Operator),
    Tilde,
    Open,
    Close,
    OpenSquare,
    CloseSquare,
    Comma,
    Semicolon,
    Assign,
    Colon,
    Input,
    Bind(Binding),
    Call(Callee),
}

/// A token: what it says, and where it begins, in bytes from 0.
#[derive(Clone, Copy)]
pub struct Token {
    pub at: u32,
    pub word: Word,
}
