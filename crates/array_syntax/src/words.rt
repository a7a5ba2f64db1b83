//! What the bytes of a token say (docs/LANGUAGE.md, "Tokens" and "Names").

ghost use Rattle.std.specs.Prelude.{◌≡◌, ◌<◌, ◌^◌, length, map};
ghost use Rattle.ven_base.specs.Name.{IsNameToken};
ghost use Rattle.ven_io.specs.Token.{IsSpelling, IsNumberToken};
ghost use Rattle.array_syntax.specs.Words.{keywords, sign_words, look_up, name_word, word_of};

use crate::word::{Binding, Callee, Operator, Word};
use ven_base::{Elem, Fold, Name};
use ven_io::{TokenKind, number};

/// The words that the language keeps for itself.
const KEYWORDS: [(&[u8], Word); 26] = [
    (b"input", Word::Input),
    (b"let", Word::Bind(Binding::Let)),
    (b"output", Word::Bind(Binding::Output)),
    (b"u8", Word::Call(Callee::Cast(Elem::U8))),
    (b"i8", Word::Call(Callee::Cast(Elem::I8))),
    (b"u16", Word::Call(Callee::Cast(Elem::U16))),
    (b"i16", Word::Call(Callee::Cast(Elem::I16))),
    (b"u32", Word::Call(Callee::Cast(Elem::U32))),
    (b"i32", Word::Call(Callee::Cast(Elem::I32))),
    (b"abs", Word::Call(Callee::Abs)),
    (b"rowsum", Word::Call(Callee::RowFold(Fold::Sum))),
    (b"rowmin", Word::Call(Callee::RowFold(Fold::Min))),
    (b"rowmax", Word::Call(Callee::RowFold(Fold::Max))),
    (b"sum", Word::Call(Callee::Fold(Fold::Sum))),
    (b"minval", Word::Call(Callee::Fold(Fold::Min))),
    (b"maxval", Word::Call(Callee::Fold(Fold::Max))),
    (b"min", Word::Call(Callee::Min)),
    (b"max", Word::Call(Callee::Max)),
    (b"select", Word::Call(Callee::Select)),
    (b"shift", Word::Call(Callee::Shift)),
    (b"rotate", Word::Call(Callee::Rotate)),
    (b"section", Word::Call(Callee::Section)),
    (b"stretch", Word::Call(Callee::Stretch)),
    (b"transpose", Word::Call(Callee::Transpose)),
    (b"sadd", Word::Call(Callee::SatAdd)),
    (b"ssub", Word::Call(Callee::SatSub)),
];

/// The signs.
const SIGNS: [(&[u8], Word); 23] = [
    (b"<<", Word::Operator(Operator::ShiftLeft)),
    (b">>", Word::Operator(Operator::ShiftRight)),
    (b"==", Word::Operator(Operator::Equal)),
    (b"!=", Word::Operator(Operator::NotEqual)),
    (b"<=", Word::Operator(Operator::LessOrEqual)),
    (b">=", Word::Operator(Operator::GreaterOrEqual)),
    (b"+", Word::Operator(Operator::Plus)),
    (b"-", Word::Operator(Operator::Minus)),
    (b"*", Word::Operator(Operator::Times)),
    (b"&", Word::Operator(Operator::And)),
    (b"|", Word::Operator(Operator::Or)),
    (b"^", Word::Operator(Operator::Xor)),
    (b"~", Word::Tilde),
    (b"(", Word::Open),
    (b")", Word::Close),
    (b"[", Word::OpenSquare),
    (b"]", Word::CloseSquare),
    (b",", Word::Comma),
    (b";", Word::Semicolon),
    (b"=", Word::Assign),
    (b"<", Word::Operator(Operator::Less)),
    (b">", Word::Operator(Operator::Greater)),
    (b":", Word::Colon),
];

fn look_up(mut entries: &[(&[u8], Word)], bytes: &[u8]) -> Option<Word>
    ensures { result ≡ look_up (map (λ entry. (entry.0.now, entry.1)) entries.entry.now) bytes.now }
{
    while let [(spelling, word), rest @ ..] = entries {
        if bytes == *spelling {
            return Some(*word);
        }
        entries = rest;
    }
    None
}

/// A kept word, or a name; none where the name is too long.
fn name_word(bytes: &[u8]) -> Option<Word>
    requires { IsNameToken bytes.now }
    ensures { result ≡ name_word (look_up keywords bytes.now) bytes.now }
{
    match look_up(&KEYWORDS, bytes) {
        Some(word) => Some(word),
        None => match Name::from_bytes(bytes) {
            Some(name) => Some(Word::Name(name)),
            None => None,
        },
    }
}

/// A number; none where it is too large.
fn number_word(bytes: &[u8]) -> Option<Word>
    requires token { IsNumberToken bytes.now }
    requires short { length bytes.now < 2 ^ 31 }
    ensures { result ≡ word_of TokenKind.Number bytes.now }
{
    match number(bytes) {
        Ok(n) => Some(Word::Number(n as u32)),
        Err(_) => None,
    }
}

fn sign_word(bytes: &[u8]) -> Option<Word>
    ensures { result ≡ look_up sign_words bytes.now }
{
    look_up(&SIGNS, bytes)
}

/// What a token says; none where a name is too long or a number too large, and for line ends and the text's end.
pub fn word_of(kind: TokenKind, bytes: &[u8]) -> Option<Word>
    requires spelled { IsSpelling kind bytes.now }
    requires short { length bytes.now < 2 ^ 31 }
    ensures { result ≡ word_of kind bytes.now }
{
    match kind {
        TokenKind::Name => name_word(bytes),
        TokenKind::Number => number_word(bytes),
        TokenKind::Sign => sign_word(bytes),
        _ => None,
    }
}
