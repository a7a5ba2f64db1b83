//! Names of arrays, and the bytes and words that may be one (docs/LANGUAGE.md, "Tokens" and "Names").
ghost use Rattle.std.specs.Prelude.{◌≡◌, ◌↔◌, IsTrue, IfSome, IsSome, map};
ghost use Rattle.std.specs.List.{list_any, list_all};
ghost use Rattle.std.specs.Str.{bytes_eq};
ghost use Rattle.std.specs.Cmp.{partial_equiv_from_equiv};
ghost use Rattle.std.specs.Cmp.Lexicographic.{nat_list_eq_equiv};
ghost use Rattle.std.specs.Cmp.Rules.{hashing};
ghost use Rattle.std.specs.Hash as fed;
ghost use Rattle.std.proofs.Common.{rules};
ghost use Rattle.ven_base.specs.Name.{is_name_start as begins_name, is_digit as is_decimal_digit, is_name_byte as goes_on_in_name, IsNameToken, IsReserved, IsName};

use std::fmt;
use std::hash::{Hash, Hasher};
use std::marker::Model;

/// The most bytes that a name may have.
pub const NAME_LIMIT: usize = 31;

/// The words that the array language keeps for itself: statements, element types and functions.
const RESERVED: [&[u8]; 23] = [
    b"input", b"let", b"output", b"u8", b"i8", b"u16", b"i16", b"u32", b"i32", b"abs", b"rowsum",
    b"rowmin", b"rowmax", b"sum", b"minval", b"maxval", b"min", b"max", b"select", b"shift",
    b"rotate", b"section", b"stretch",
];

/// The name of an array: a name token of 1 to 31 bytes that is no reserved word. Names are compared byte by byte.
#[derive(Clone, Copy)]
pub struct Name {
    bytes: [u8; 31],
    len: u8,
}

impl Model for Name {
    ghost use Rattle.std.specs.Prelude.{◌≡◌, List, ℕ, ◌-◌, length};
    ghost use Rattle.ven_base.specs.Stored.{IsStored, stored_bytes, padded};

    ghost Value = { List ℕ };

    ghost view = { λ n. stored_bytes n.bytes n.len };

    ghost invariant = { λ n. IsStored n.bytes n.len };

    ghost inverse = { λ xs. record { bytes = padded xs; len = length xs } };

    ghost inverse_ok = { λ n h i. record {
      bytes = h.is_padded i;
      len = h.len_is i;
    } };
}

impl Name {
    /// The name with these bytes: `None` exactly where they are no name token, more than 31, or a reserved word.
    pub fn from_bytes(bytes: &[u8]) -> Option<Name>
        ensures found { IsSome result ↔ IsName bytes.now }
        ensures value { IfSome result (λ name. name ≡ bytes.now) }
    {
        if bytes.len() > NAME_LIMIT || !is_name_token(bytes) || is_reserved(bytes) {
            return None;
        }
        let mut stored = [0; 31];
        stored[..bytes.len()].copy_from_slice(bytes);
        Some(Name {
            bytes: stored,
            len: bytes.len() as u8,
        })
    }

    /// The name's bytes, from 1 to 31.
    pub fn bytes(&self) -> &[u8]
        ensures value { result.now ≡ self.now }
        ensures is_name { IsName self.now }
    {
        &self.bytes[..self.len as usize]
    }
}

/// Whether a name token may begin with this byte: an ASCII letter or `_`.
pub fn is_name_start(byte: u8) -> bool
    ensures { result ≡ begins_name byte }
{
    matches!(byte, b'A'..=b'Z' | b'a'..=b'z' | b'_')
}

/// Whether the byte is a decimal digit.
pub fn is_digit(byte: u8) -> bool
    ensures { result ≡ is_decimal_digit byte }
{
    matches!(byte, b'0'..=b'9')
}

/// Whether a name token may go on with this byte: an ASCII letter, a decimal digit or `_`.
pub fn is_name_byte(byte: u8) -> bool
    ensures { result ≡ goes_on_in_name byte }
{
    is_name_start(byte) || is_digit(byte)
}

/// Whether the bytes are a name token, reserved or not, of any length.
pub fn is_name_token(bytes: &[u8]) -> bool
    ensures { IsTrue result ↔ IsNameToken bytes.now }
{
    match bytes {
        [] => false,
        [first, rest @ ..] => is_name_start(*first) && are_name_bytes(rest),
    }
}

fn are_name_bytes(bytes: &[u8]) -> bool
    ensures { result ≡ list_all goes_on_in_name bytes.now }
{
    bytes.iter().all(|byte| is_name_byte(*byte))
}

/// Whether the bytes are a word that the array language keeps for itself: one of the 23 of statements, element types
/// and functions.
pub fn is_reserved(bytes: &[u8]) -> bool
    ensures { IsTrue result ↔ IsReserved bytes.now }
{
    is_among(&RESERVED, bytes)
}

fn is_among(mut words: &[&[u8]], bytes: &[u8]) -> bool
    ensures { result ≡ list_any (bytes_eq bytes.now) (map (λ word. word.now) words.entry.now) }
{
    while let [word, rest @ ..] = words {
        if bytes == *word {
            return true;
        }
        words = rest;
    }
    false
}

impl fmt::Debug for Name {
    fn fmt<W: fmt::Write>(&self, f: &mut fmt::Formatter<W>) -> fmt::Result {
        fmt::Debug::fmt(&self.bytes(), f)
    }
}

impl PartialEq for Name {
    ghost eq = { λ a b. bytes_eq a b };

    ghost laws = { partial_equiv_from_equiv nat_list_eq_equiv };

    fn eq(&self, other: &Name) -> bool {
        self.bytes() == other.bytes()
    }
}

impl Eq for Name {
    ghost laws = { nat_list_eq_equiv };
}

impl Hash for Name {
    ghost hash_input = { λ name. fed.slice fed.u8 name };

    ghost respects_eq = { Prim.search (hashing, rules) };

    fn hash<H: Hasher>(&self, state: &mut H) {
        self.bytes().hash(state);
    }
}
