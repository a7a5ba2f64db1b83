//! Grant lists, and their text.
ghost use Rattle.std.specs.Prelude.{◌≡◌, ◌↔◌, ◌+◌, ◌<◌, ◌≤◌, ◌^◌, [], length, slice_index, slice_get, MatchResult, OnOk, IfErr, IfSome, IsSome, IsTrue, IsFalse};
ghost use Rattle.ven_io.specs.Token.{is_hex_digit};
ghost use Rattle.ven_io.specs.Number.{digit_value};
ghost use Rattle.venice_machine.specs.Grants.{DenotesGrants, IsAnswered, is_space, grant_limit};
ghost use Rattle.venice_machine.specs.Reading.{HasRead, IsDigitOf};

use std::alloc::Global;
use std::marker::Model;
use thiserror::Error;

/// The most grants of a list.
pub const GRANT_LIMIT: u32 = 1_048_576;

/// A grant list: for each cycle, from the first on, a byte that says who may step in it, at most 1,048,576 of them
/// (docs/MACHINE.md, "Cycles"). It is seen as the list of the bytes.
#[derive(Drop)]
pub struct Grants {
    bytes: Vec<u8>,
}

impl Model for Grants {
    ghost use Rattle.std.specs.Prelude.{ℕ, List, length, ◌≤◌};
    ghost use Rattle.venice_machine.specs.Grants.{grant_limit};

    ghost Value = { List ℕ };

    ghost view = { λ grants. grants.bytes.items };

    ghost invariant = { λ grants. length grants.bytes.items ≤ grant_limit };
}

/// Why a text is no grant list (docs/FORMATS.md, "Grants"). `at` counts bytes from 0.
#[derive(Clone, Copy, Debug, Error)]
pub enum GrantFault {
    /// The byte there is no digit and no blank, or isn't the second digit that is wanted; or the text ends there after
    /// one digit.
    #[error("bad at {at}")]
    Bad { at: u32 },
    /// The pair 1,048,577 begins.
    #[error("too long")]
    TooLong,
    /// Memory ran out.
    #[error("memory")]
    Memory,
}

impl Grants {
    /// No grants.
    pub fn new(alloc: Global) -> Grants
        ensures { result ≡ [] }
    {
        Grants {
            bytes: Vec::new(alloc),
        }
    }

    /// The number of grants, at most 1,048,576.
    pub fn len(&self) -> u32
        ensures value { result ≡ length self.now }
        ensures few { result ≤ grant_limit }
    {
        self.bytes.len() as u32
    }

    /// Whether there are none.
    pub fn is_empty(&self) -> bool
        ensures { IsTrue result ↔ (length self.now ≡ 0) }
    {
        self.bytes.is_empty()
    }

    /// The grant of cycle `k`, which counts from 0 and is below `len`.
    pub fn at(&self, k: u32) -> u8
        requires { k < length self.now }
        ensures { result ≡ slice_index self.now k }
    {
        self.bytes[k as usize]
    }
}

/// The grant list of a text (docs/FORMATS.md, "Grants"), or the fault that comes first in it. Condition: the text has
/// fewer than 2,147,483,648 bytes.
pub fn read_grants(alloc: Global, text: &[u8]) -> Result<Grants, GrantFault>
    requires { length text.now < 2 ^ 31 }
    ensures { MatchResult result (λ grants. DenotesGrants text.now grants) (λ fault. IsAnswered text.now fault) }
{
    let mut grants = Grants::new(alloc);
    let mut at = 0;
    while at < text.len() {
        at = if is_space(text[at]) {
            at + 1
        } else {
            grants.push_pair(text, at)?;
            at + 2
        };
    }
    Ok(grants)
}

impl Grants {
    /// Appends the grant whose two digits are to stand at a place.
    fn push_pair(&mut self, text: &[u8], at: usize) -> Result<(), GrantFault>
        requires small { length text.now < 2 ^ 31 }
        requires more { at < length text.now }
        requires no_space { IsFalse (is_space (slice_index text.now at)) }
        requires read { HasRead text.now at self.old }
        ensures read { OnOk result (HasRead text.now (at + 2) self.new) }
        ensures fault { IfErr result (IsAnswered text.now) }
    {
        let Some(high) = digit_at(text, at) else {
            return Err(GrantFault::Bad { at: at as u32 });
        };
        if self.len() == GRANT_LIMIT {
            return Err(GrantFault::TooLong);
        }
        let Some(low) = digit_at(text, at + 1) else {
            return Err(GrantFault::Bad { at: at as u32 + 1 });
        };
        match self.bytes.push(16 * high + low) {
            Ok(()) => Ok(()),
            Err(_) => Err(GrantFault::Memory),
        }
    }
}

/// Whether the byte may stand between pairs.
fn is_space(byte: u8) -> bool
    ensures { result ≡ is_space byte }
{
    byte == b' ' || byte == b'\t' || byte == b'\r' || byte == b'\n'
}

/// The value of the digit at a place, if one stands there.
fn digit_at(text: &[u8], at: usize) -> Option<u8>
    ensures { IsDigitOf (slice_get text.now at) result }
{
    match text.get(at) {
        Some(byte) => digit_value(*byte),
        None => None,
    }
}

/// The value of a hexadecimal digit of either case.
fn digit_value(byte: u8) -> Option<u8>
    ensures found { IsSome result ↔ IsTrue (is_hex_digit byte) }
    ensures value { IfSome result (λ value. value ≡ digit_value byte) }
    ensures small { IfSome result (λ value. value < 16) }
{
    match byte {
        b'0'..=b'9' => Some(byte - b'0'),
        b'a'..=b'f' => Some(byte - b'a' + 10),
        b'A'..=b'F' => Some(byte - b'A' + 10),
        _ => None,
    }
}
