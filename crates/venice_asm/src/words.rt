//! What the bytes of a token say (docs/FORMATS.md, "Assembler texts").

ghost use Rattle.std.specs.Prelude.{◌≡◌, ◌<◌, ◌^◌, min, length};
ghost use Rattle.ven_base.specs.Name.{IsNameToken};
ghost use Rattle.ven_io.specs.Number.{value_of};
ghost use Rattle.ven_io.specs.Token.{IsSpelling, IsNumberToken};
ghost use Rattle.venice_asm.specs.Words.{name_word, sign_word, word_of, too_large};

use crate::label::Label;
use crate::word::Word;
use ven_io::{TokenKind, number};

/// One more than the greatest number of a text.
const TOO_LARGE: u64 = 4_294_967_296;

/// A name; none where it is too long.
fn name_word(bytes: &[u8]) -> Option<Word>
    requires { IsNameToken bytes.now }
    ensures { result ≡ name_word bytes.now }
{
    match Label::from_bytes(bytes) {
        Some(label) => Some(Word::Name(label)),
        None => None,
    }
}

/// The value of a number token, at most one more than the greatest number.
pub fn capped_number(bytes: &[u8]) -> u64
    requires token { IsNumberToken bytes.now }
    requires short { length bytes.now < 2 ^ 31 }
    ensures { result ≡ min (value_of bytes.now) too_large }
{
    match number(bytes) {
        Ok(n) => n as u64,
        Err(_) => TOO_LARGE,
    }
}

fn sign_word(bytes: &[u8]) -> Option<Word>
    ensures { result ≡ sign_word bytes.now }
{
    if bytes == b":".as_slice() {
        Some(Word::Colon)
    } else if bytes == b"[".as_slice() {
        Some(Word::Open)
    } else if bytes == b",".as_slice() {
        Some(Word::Comma)
    } else if bytes == b"]".as_slice() {
        Some(Word::Close)
    } else {
        None
    }
}

/// What a token says; none where an assembler text has no such word, and for the text's end.
pub fn word_of(kind: TokenKind, bytes: &[u8]) -> Option<Word>
    requires spelled { IsSpelling kind bytes.now }
    requires short { length bytes.now < 2 ^ 31 }
    ensures { result ≡ word_of kind bytes.now }
{
    match kind {
        TokenKind::Name => name_word(bytes),
        TokenKind::Number => Some(Word::Number(capped_number(bytes))),
        TokenKind::Sign => sign_word(bytes),
        TokenKind::Line => Some(Word::Line),
        TokenKind::End => None,
    }
}
