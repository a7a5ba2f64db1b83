//! The next token of a text.

ghost use Rattle.std.specs.Prelude.{◌≡◌, ◌≢◌, ◌↔◌, ◌<◌, ◌≤◌, ◌^◌, length, slice_index, IsTrue, IfOk, MatchOption};
ghost use Rattle.ven_base.specs.Name.{is_name_start, is_digit};
ghost use Rattle.ven_io.specs.Token.{IsStop, StandsAt, NoneAt, NextIs};
ghost use Rattle.ven_io.specs.Runs.{IsHexadecimalAt, IsDoubleSignAt, NoSign};

use crate::runs::{Run, is_hex_digit, run_end};
use crate::signs::{is_double_sign, is_single_sign};
use crate::token::{Token, TokenFault, TokenKind};
use ven_base::{is_digit, is_name_start};

/// The next place to read: past blanks, and past a comment, which goes up to a line end.
fn stop_from(text: &[u8], from: usize) -> usize
    requires { from ≤ length text.now }
    ensures { IsStop text.now from result }
{
    let place = run_end(text, from, Run::Blanks);
    if place < text.len() && text[place] == b'#' {
        return run_end(text, place, Run::Comment);
    }
    place
}

fn name_end(text: &[u8], start: usize) -> usize
    requires in_text { start < length text.now }
    requires first { IsTrue (is_name_start (slice_index text.now start)) }
    ensures { StandsAt text.now (record { kind = TokenKind.Name; start = start; end = result }) }
{
    run_end(text, start + 1, Run::NameBytes)
}

/// Whether `0x` and a hexadecimal digit stand there.
fn is_hexadecimal_at(text: &[u8], start: usize) -> bool
    requires { start < length text.now }
    ensures { IsTrue result ↔ IsHexadecimalAt text.now start }
{
    start + 2 < text.len()
        && text[start] == b'0'
        && text[start + 1] == b'x'
        && is_hex_digit(text[start + 2])
}

fn number_end(text: &[u8], start: usize) -> usize
    requires in_text { start < length text.now }
    requires first { IsTrue (is_digit (slice_index text.now start)) }
    ensures { StandsAt text.now (record { kind = TokenKind.Number; start = start; end = result }) }
{
    if is_hexadecimal_at(text, start) {
        return run_end(text, start + 2, Run::HexDigits);
    }
    run_end(text, start, Run::Digits)
}

/// Whether a sign of two bytes stands there.
fn is_double_sign_at(text: &[u8], start: usize) -> bool
    requires { start < length text.now }
    ensures { IsTrue result ↔ IsDoubleSignAt text.now start }
{
    start + 1 < text.len() && is_double_sign(text[start], text[start + 1])
}

/// The end of the sign at a place, if one stands there: of two bytes before one.
fn sign_end(text: &[u8], start: usize) -> Option<usize>
    requires { start < length text.now }
    ensures { MatchOption result (NoSign text.now start)
        (λ end. StandsAt text.now (record { kind = TokenKind.Sign; start = start; end = end })) }
{
    if is_double_sign_at(text, start) {
        return Some(start + 2);
    }
    if is_single_sign(text[start]) {
        return Some(start + 1);
    }
    None
}

fn token_of(kind: TokenKind, start: usize, end: usize) -> Token
    requires start { start < 2 ^ 32 }
    requires end { end < 2 ^ 32 }
    ensures { result ≡ record { kind = kind; start = start; end = end } }
{
    Token {
        kind,
        start: start as u32,
        end: end as u32,
    }
}

/// The token at a place, if one stands there.
fn token_at(text: &[u8], start: usize) -> Option<Token>
    requires in_text { start < length text.now }
    requires short { length text.now < 2 ^ 31 }
    ensures { MatchOption result (NoneAt text.now start) (λ token. (token.start ≡ start) × StandsAt text.now token) }
{
    let first = text[start];
    if is_name_start(first) {
        return Some(token_of(TokenKind::Name, start, name_end(text, start)));
    }
    if is_digit(first) {
        return Some(token_of(TokenKind::Number, start, number_end(text, start)));
    }
    if first == b'\n' {
        return Some(token_of(TokenKind::Line, start, start + 1));
    }
    match sign_end(text, start) {
        Some(end) => Some(token_of(TokenKind::Sign, start, end)),
        None => None,
    }
}

/// The first token at or after `from`, a place in bytes, past blanks and comments, and the longest that begins there
/// (docs/LANGUAGE.md, "Tokens"). A comment goes from `#` up to its line end, which is a token itself; at the text's end
/// the token is `End`, with no bytes. Conditions: `from` is at most the length, and the length is below 2^31 bytes.
///
/// `NotAscii` exactly where the next byte to read is above 127, in a comment too; `Unexpected` exactly where it begins
/// no token.
pub fn next(text: &[u8], from: u32) -> Result<Token, TokenFault>
    requires place { from ≤ length text.now }
    requires short { length text.now < 2 ^ 31 }
    ensures next { NextIs text.now from result }

    // Where the token lies, and that a reader gets on.
    ensures after { IfOk result (λ token. from ≤ token.start) }
    ensures in_text { IfOk result (λ token. token.end ≤ length text.now) }
    ensures some { IfOk result (λ token. token.kind ≢ TokenKind.End → token.start < token.end) }
    ensures end { IfOk result (λ token. token.kind ≡ TokenKind.End
        → (token.start ≡ length text.now) × (token.end ≡ length text.now)) }
{
    let start = stop_from(text, from as usize);
    let at = start as u32;
    if start == text.len() {
        return Ok(Token {
            kind: TokenKind::End,
            start: at,
            end: at,
        });
    }
    if text[start] >= 128 {
        return Err(TokenFault::NotAscii { at });
    }
    token_at(text, start).ok_or(TokenFault::Unexpected { at })
}
