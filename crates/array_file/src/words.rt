//! What the bytes of a token say (docs/FORMATS.md, "The array file").

ghost use Rattle.std.specs.Prelude.{◌≡◌, ◌+◌, ◌<◌, ◌^◌, min, length};
ghost use Rattle.ven_base.specs.Name.{IsNameToken};
ghost use Rattle.ven_base.specs.ElemWord.{elem_named};
ghost use Rattle.ven_io.specs.Number.{value_of};
ghost use Rattle.ven_io.specs.Token.{IsSpelling, IsNumberToken};
ghost use Rattle.array_file.specs.Words.{name_word, sign_word, word_of, too_large};

use crate::word::Word;
use ven_base::{Elem, Name};
use ven_io::{TokenKind, number};

/// One more than the greatest number of a text.
const TOO_LARGE: u64 = 4_294_967_296;

/// A type or a name; none where the name is kept or too long.
fn name_word(bytes: &[u8]) -> Option<Word>
    requires { IsNameToken bytes.now }
    ensures { result ≡ name_word (elem_named bytes.now) bytes.now }
{
    match Elem::from_word(bytes) {
        Some(elem) => Some(Word::Elem(elem)),
        None => match Name::from_bytes(bytes) {
            Some(name) => Some(Word::Name(name)),
            None => None,
        },
    }
}

/// The value of a number token, at most one more than the greatest number.
pub fn capped_number(bytes: &[u8]) -> u64
    requires token { IsNumberToken bytes.now }
    requires short { length bytes.now < 2 ^ 31 }
    ensures { result ≡ min (value_of bytes.now) too_large }
{
    match number(bytes) {
        Ok(n) => n as u64,
        Err(_) => TOO_LARGE,
    }
}

fn sign_word(bytes: &[u8]) -> Option<Word>
    ensures { result ≡ sign_word bytes.now }
{
    if bytes == b"-".as_slice() {
        Some(Word::Minus)
    } else if bytes == b"[".as_slice() {
        Some(Word::Open)
    } else if bytes == b",".as_slice() {
        Some(Word::Comma)
    } else if bytes == b"]".as_slice() {
        Some(Word::Close)
    } else {
        None
    }
}

/// What a token says; none where an array file has no such word.
pub fn word_of(kind: TokenKind, bytes: &[u8]) -> Option<Word>
    requires spelled { IsSpelling kind bytes.now }
    requires short { length bytes.now < 2 ^ 31 }
    ensures { result ≡ word_of kind bytes.now }
{
    match kind {
        TokenKind::Name => name_word(bytes),
        TokenKind::Number => Some(Word::Number(capped_number(bytes))),
        TokenKind::Sign => sign_word(bytes),
        _ => None,
    }
}
