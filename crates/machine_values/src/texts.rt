//! Assembler texts.
use crate::words;
use image_loader::{FILE_LIMIT, Image};
use std::alloc::Global;
use venice_asm::{AsmFault, assemble, disassemble};
use venice_isa::encode;

fn image_of(alloc: Global, text: &[u8]) -> Result<Image, AsmFault> {
    if text.len() > FILE_LIMIT as usize {
        return Err(AsmFault::Memory);
    }
    assemble(alloc, text)
}

/// A text with `\n` at its line ends.
fn shown(alloc: Global, text: &[u8]) -> Option<String> {
    let mut line = String::new(alloc);
    for byte in text {
        if *byte == b'\n' {
            line.push_str("\\n").ok()?;
        } else {
            line.push(char::from(*byte)).ok()?;
        }
    }
    Some(line)
}

/// `text TEXT`: the canonical text of the image that it denotes, or its first fault.
pub fn text(alloc: Global, rest: &str) -> Option<String> {
    let text = words::bytes(alloc, rest)?;
    match image_of(alloc, &text) {
        Ok(image) => shown(alloc, &disassemble(alloc, &image).ok()?),
        Err(fault) => format!(in alloc; "{fault}").ok(),
    }
}

/// `line LINE`: the bytes of the first instruction of a text with this line alone before its `halt`, and whether that is
/// a canonical text.
pub fn line(alloc: Global, rest: &str) -> Option<String> {
    let text = format!(in alloc; "version 2\nspad 1\nmemory 0\n{rest}\nhalt\n").ok()?;
    match image_of(alloc, text.as_bytes()) {
        Ok(image) => first_of(alloc, &image, text.as_bytes()),
        Err(_) => None,
    }
}

fn first_of(alloc: Global, image: &Image, text: &[u8]) -> Option<String> {
    let again = disassemble(alloc, image).ok()?;
    let same = again.as_slice() == text;
    let code = &image.code;
    let [b0, b1, b2, b3, b4, b5, b6, b7] = encode(code.instrs.first()?);
    format!(in alloc; "{b0} {b1} {b2} {b3} {b4} {b5} {b6} {b7} {same}").ok()
}

/// `many N LINES`: the number of arrays of a text with so many of one byte each before these lines, or its first fault.
pub fn many(alloc: Global, rest: &str) -> Option<String> {
    let (count, lines) = rest.split_once(' ')?;
    let count = count.parse::<u8>().ok()?;
    let mut text = String::from_str(alloc, "spad 1\nmemory 256\n").ok()?;
    for k in 0..count {
        let (tens, ones) = (char::from(b'a' + k / 16), char::from(b'a' + k % 16));
        text = format!(in alloc; "{text}array a{tens}{ones} in u8[1,1] {k}\n").ok()?;
    }
    let mut bytes = Vec::from_slice(alloc, text.as_bytes()).ok()?;
    bytes.extend_from_slice(&words::bytes(alloc, lines)?).ok()?;
    match image_of(alloc, &bytes) {
        Ok(image) => format!(in alloc; "{}", image.arrays.len()).ok(),
        Err(fault) => format!(in alloc; "{fault}").ok(),
    }
}
