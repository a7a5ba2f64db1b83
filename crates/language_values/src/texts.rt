//! Names, tokens and programs.
use crate::words;
use array_syntax::{ParseFault, parse, print};
use shape_check::{CheckFault, check};
use std::alloc::Global;
use ven_base::Name;
use ven_io::{NumberFault, TokenFault, TokenKind, next};

/// The most bytes of a text here.
pub const MOST: usize = 100_000;

/// `name TEXT`: the name, or `none`.
pub fn name(alloc: Global, rest: &str) -> Option<String> {
    let bytes = words::bytes(alloc, rest)?;
    let word = match Name::from_bytes(&bytes) {
        Some(name) => {
            if name.bytes() == bytes.as_slice() {
                "a name"
            } else {
                "another name"
            }
        }
        None => "none",
    };
    String::from_str(alloc, word).ok()
}

/// `number TEXT`: its value, or why it is none.
pub fn number(alloc: Global, rest: &str) -> Option<String> {
    let bytes = words::bytes(alloc, rest)?;
    if bytes.len() > MOST {
        return None;
    }
    match ven_io::number(&bytes) {
        Ok(value) => format!(in alloc; "{value}").ok(),
        Err(NumberFault::Empty) => String::from_str(alloc, "empty").ok(),
        Err(NumberFault::NotDigit { at }) => format!(in alloc; "no digit {at}").ok(),
        Err(NumberFault::TooLarge) => String::from_str(alloc, "too large").ok(),
    }
}

fn kind_word(kind: TokenKind) -> &'static str {
    match kind {
        TokenKind::Name => "name",
        TokenKind::Number => "number",
        TokenKind::Sign => "sign",
        TokenKind::Line => "line",
        TokenKind::End => "end",
    }
}

/// `token PLACE TEXT`: the token at or behind the place, with where it begins and ends, or why there is none.
pub fn token(alloc: Global, rest: &str) -> Option<String> {
    let (place, text) = rest.split_once(' ')?;
    let from = place.parse::<u32>().ok()?;
    let bytes = words::bytes(alloc, text)?;
    if bytes.len() > MOST || from as usize > bytes.len() {
        return None;
    }
    match next(&bytes, from) {
        Ok(token) => {
            let kind = kind_word(token.kind);
            format!(in alloc; "{kind} {} {}", token.start, token.end).ok()
        }
        Err(TokenFault::NotAscii { at }) => format!(in alloc; "not ascii {at}").ok(),
        Err(TokenFault::Unexpected { at }) => format!(in alloc; "unexpected {at}").ok(),
    }
}

fn parse_line(alloc: Global, fault: ParseFault) -> Option<String> {
    match fault {
        ParseFault::NotAscii { at } => format!(in alloc; "not ascii {at}").ok(),
        ParseFault::Unexpected { at } => format!(in alloc; "unexpected {at}").ok(),
        ParseFault::NameTooLong { at } => format!(in alloc; "name too long {at}").ok(),
        ParseFault::NumberTooLarge { at } => format!(in alloc; "number too large {at}").ok(),
        ParseFault::TooManyStatements { at } => format!(in alloc; "too many statements {at}").ok(),
        ParseFault::TooManyNodes { at } => format!(in alloc; "too many nodes {at}").ok(),
        ParseFault::TooDeep { at } => format!(in alloc; "too deep {at}").ok(),
        ParseFault::Memory => None,
    }
}

/// How many statements the text has, or its fault.
fn statements(alloc: Global, text: &[u8]) -> Option<String> {
    if text.len() > MOST {
        return None;
    }
    match parse(alloc, text) {
        Ok(program) => format!(in alloc; "{} statements", program.stmts.len()).ok(),
        Err(fault) => parse_line(alloc, fault),
    }
}

/// `program TEXT`: how many statements it has, or its fault.
pub fn program(alloc: Global, rest: &str) -> Option<String> {
    let bytes = words::bytes(alloc, rest)?;
    statements(alloc, &bytes)
}

/// `times COUNT@TEXT@TEXT@TEXT`: the same of a text with the middle part so many times.
pub fn times(alloc: Global, rest: &str) -> Option<String> {
    let (count, rest) = rest.split_once('@')?;
    let (before, rest) = rest.split_once('@')?;
    let (part, behind) = rest.split_once('@')?;
    let mut text = words::bytes(alloc, before)?;
    repeat(
        &mut text,
        count.parse::<u32>().ok()?,
        &words::bytes(alloc, part)?,
    )?;
    text.extend_from_slice(&words::bytes(alloc, behind)?).ok()?;
    statements(alloc, &text)
}

fn repeat(text: &mut Vec<u8>, count: u32, part: &[u8]) -> Option<()> {
    for _ in 0..count {
        text.extend_from_slice(part).ok()?;
    }
    Some(())
}

/// `print TEXT`: the lines of its program.
pub fn printed(alloc: Global, rest: &str) -> Option<String> {
    let bytes = words::bytes(alloc, rest)?;
    if bytes.len() > MOST {
        return None;
    }
    match parse(alloc, &bytes) {
        Ok(program) => String::from_utf8(print(alloc, &program).ok()?).ok(),
        Err(fault) => parse_line(alloc, fault),
    }
}

fn check_line(alloc: Global, fault: CheckFault) -> Option<String> {
    match fault {
        CheckFault::Twice { at } => format!(in alloc; "twice {at}").ok(),
        CheckFault::Unknown { at } => format!(in alloc; "unknown {at}").ok(),
        CheckFault::TypeMismatch { at } => format!(in alloc; "type mismatch {at}").ok(),
        CheckFault::ShapeMismatch { at } => format!(in alloc; "shape mismatch {at}").ok(),
        CheckFault::LiteralAlone { at } => format!(in alloc; "literal alone {at}").ok(),
        CheckFault::LiteralRange { at } => format!(in alloc; "literal range {at}").ok(),
        CheckFault::BadShape { at } => format!(in alloc; "bad shape {at}").ok(),
        CheckFault::BadSection { at } => format!(in alloc; "bad section {at}").ok(),
        CheckFault::BadStretch { at } => format!(in alloc; "bad stretch {at}").ok(),
        CheckFault::NoOutput => String::from_str(alloc, "no output").ok(),
        CheckFault::TooMuchWork { need } => format!(in alloc; "too much work {need}").ok(),
        CheckFault::Memory => None,
    }
}

/// `check TEXT`: `right`, or the first rule that the program breaks.
pub fn checked(alloc: Global, rest: &str) -> Option<String> {
    let bytes = words::bytes(alloc, rest)?;
    if bytes.len() > MOST {
        return None;
    }
    match parse(alloc, &bytes) {
        Ok(program) => match check(alloc, program) {
            Ok(_) => String::from_str(alloc, "right").ok(),
            Err(fault) => check_line(alloc, fault),
        },
        Err(fault) => parse_line(alloc, fault),
    }
}
