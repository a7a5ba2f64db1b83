//! The value of a number's text.

ghost use Rattle.std.specs.Prelude.{◌≡◌, ◌<◌, ◌≤◌, ◌^◌, min, length, IsTrue};
ghost use Rattle.std.specs.List.{list_all};
ghost use Rattle.ven_io.specs.Token.{is_hex_digit};
ghost use Rattle.ven_io.specs.Number.{digit_value, digits_value, digits_start, base_of, NumberIs};
ghost use Rattle.ven_io.specs.Runs.{digits_run};

use crate::runs::{Run, run_end};
use thiserror::Error;

/// Why a text is no number (docs/LANGUAGE.md, "Numbers").
#[derive(Clone, Copy, Debug, Error)]
pub enum NumberFault {
    /// No byte stands in a digit's place: the text is empty, or `0x`.
    #[error("no digit")]
    Empty,
    /// The byte at `at`, a place in bytes from 0, is the first that isn't a digit of the base.
    #[error("byte {at} is no digit")]
    NotDigit { at: u32 },
    /// All are digits, and the value is above 4,294,967,295.
    #[error("the number is above 4294967295")]
    TooLarge,
}

/// One above the greatest number.
const TOO_LARGE: u64 = 4_294_967_296;

fn digit_value(byte: u8) -> u64
    requires { IsTrue (is_hex_digit byte) }
    ensures value { result ≡ digit_value byte }
    ensures small { result < 16 }
{
    let offset = match byte {
        b'0'..=b'9' => b'0',
        b'A'..=b'F' => b'A' - 10,
        _ => b'a' - 10,
    };
    (byte - offset) as u64
}

/// The value of the digits, or `TOO_LARGE` where it is that or more: so any number of digits is read.
fn capped_value(digits: &[u8], base: u64) -> u64
    requires least { 1 ≤ base }
    requires greatest { base ≤ 16 }
    requires digits { IsTrue (list_all is_hex_digit digits.now) }
    ensures { result ≡ min (digits_value base digits.now) (2 ^ 32) }
{
    let mut value = 0;
    for digit in digits {
        value = (value * base + digit_value(*digit)).min(TOO_LARGE);
    }
    value
}

/// The number whose digits stand from `start` on.
fn number_from(text: &[u8], start: usize, run: Run, base: u64) -> Result<i64, NumberFault>
    requires short { length text.now < 2 ^ 31 }
    requires in_text { start ≤ length text.now }
    requires start { start ≡ digits_start text.now }
    requires run { run ≡ digits_run text.now }
    requires base { base ≡ base_of text.now }
    ensures { NumberIs text.now result }
{
    let end = run_end(text, start, run);
    if end < text.len() {
        return Err(NumberFault::NotDigit { at: end as u32 });
    }
    if start == text.len() {
        return Err(NumberFault::Empty);
    }
    let value = capped_value(&text[start..], base);
    if value == TOO_LARGE {
        return Err(NumberFault::TooLarge);
    }
    Ok(value as i64)
}

/// The value of a number's text, 0 to 4,294,967,295: decimal, or hexadecimal after `0x`. Leading zeros count for
/// nothing (docs/LANGUAGE.md, "Numbers"). Condition: the length is below 2^31 bytes.
///
/// `Empty` exactly for the empty text and for `0x`, where no byte stands in a digit's place; `NotDigit` exactly at the
/// first byte there that isn't a digit of the base; `TooLarge` exactly where all are digits and the value is above
/// 4,294,967,295.
pub fn number(text: &[u8]) -> Result<i64, NumberFault>
    requires { length text.now < 2 ^ 31 }
    ensures { NumberIs text.now result }
{
    if text.starts_with(b"0x") {
        number_from(text, 2, Run::HexDigits, 16)
    } else {
        number_from(text, 0, Run::Digits, 10)
    }
}
