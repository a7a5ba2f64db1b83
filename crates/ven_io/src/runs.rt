//! Runs of bytes of one sort.

ghost use Rattle.std.specs.Prelude.{◌≡◌, ◌≤◌, length};
ghost use Rattle.ven_io.specs.Token.{is_blank, is_hex_digit};
ghost use Rattle.ven_io.specs.Runs.{is_in_run, IsRun};

use ven_base::{is_digit, is_name_byte};

/// A sort of bytes that the scan passes over together.
#[derive(Clone, Copy)]
pub(crate) enum Run {
    Blanks,
    Comment,
    NameBytes,
    Digits,
    HexDigits,
}

pub(crate) fn is_hex_digit(byte: u8) -> bool
    ensures { result ≡ is_hex_digit byte }
{
    is_digit(byte) || matches!(byte, b'a'..=b'f' | b'A'..=b'F')
}

fn is_blank(byte: u8) -> bool
    ensures { result ≡ is_blank byte }
{
    byte == b' ' || byte == b'\t' || byte == b'\r'
}

fn is_in(run: Run, byte: u8) -> bool
    ensures { result ≡ is_in_run run byte }
{
    match run {
        Run::Blanks => is_blank(byte),
        Run::Comment => byte < 128 && byte != b'\n',
        Run::NameBytes => is_name_byte(byte),
        Run::Digits => is_digit(byte),
        Run::HexDigits => is_hex_digit(byte),
    }
}

/// The end of the longest run from a place on.
pub(crate) fn run_end(text: &[u8], from: usize, run: Run) -> usize
    requires { from ≤ length text.now }
    ensures { IsRun (is_in_run run) text.now from result }
{
    let mut place = from;
    while place < text.len() && is_in(run, text[place]) {
        place += 1;
    }
    place
}
