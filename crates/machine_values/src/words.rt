//! The words and bytes of a line.
ghost use Rattle.std.specs.Prelude.{◌≤◌, length};

use std::alloc::Global;
use std::str::SplitWhitespace;
use ven_base::Elem;
use venice_isa::{Instr, VecOp, Version, decode_in};

/// The type that the next word names.
pub fn elem(words: &mut SplitWhitespace<'_>) -> Option<Elem> {
    Elem::from_word(words.next()?.as_bytes())
}

/// The operation with the number that the next word is, in the order of docs/MACHINE.md.
pub fn op(words: &mut SplitWhitespace<'_>) -> Option<VecOp> {
    let number = byte(words)?;
    match decode_in(Version::Two, [11, number, 0, 0, 0, 0, 0, 0]) {
        Ok(Instr::Vec(kind)) => Some(kind.op),
        _ => None,
    }
}

/// The version whose number the next word is.
pub fn version(words: &mut SplitWhitespace<'_>) -> Option<Version> {
    match words.next()? {
        "1" => Some(Version::One),
        "2" => Some(Version::Two),
        _ => None,
    }
}

/// The next word as a byte.
pub fn byte(words: &mut SplitWhitespace<'_>) -> Option<u8> {
    words.next()?.parse::<u8>().ok()
}

/// Whether the next word is 1.
pub fn bit(words: &mut SplitWhitespace<'_>) -> Option<bool> {
    Some(words.next()? == "1")
}

/// The next word as a whole number.
pub fn number(words: &mut SplitWhitespace<'_>) -> Option<i128> {
    words.next()?.parse::<i128>().ok()
}

/// The next word as a number of 32 bits, from 0 on.
pub fn count(words: &mut SplitWhitespace<'_>) -> Option<u32> {
    words.next()?.parse::<u32>().ok()
}

/// The value of a digit to base 16.
fn digit(byte: u8) -> u8 {
    match byte {
        b'0'..=b'9' => byte - b'0',
        b'a'..=b'f' => byte - b'a' + 10,
        _ => 0,
    }
}

/// The byte that stands first, and what stands behind it.
fn first_byte(first: u8, behind: &[u8]) -> (u8, &[u8])
    ensures { length result.1.now ≤ length behind.now }
{
    match (first, behind) {
        (b'\\', [b'n', rest @ ..]) => (b'\n', rest),
        (b'\\', [b'x', high, low, rest @ ..]) => (
            digit(*high).wrapping_mul(16).wrapping_add(digit(*low)),
            rest,
        ),
        _ => (first, behind),
    }
}

/// The bytes of a text.
pub fn bytes(alloc: Global, text: &str) -> Option<Vec<u8>> {
    let mut bytes = Vec::new(alloc);
    let mut rest = text.as_bytes();
    while let [first, behind @ ..] = rest {
        let (byte, next) = first_byte(*first, behind);
        bytes.push(byte).ok()?;
        rest = next;
    }
    Some(bytes)
}
