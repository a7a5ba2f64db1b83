//! Instructions as bytes.
use crate::words;
use std::alloc::Global;
use std::str::SplitWhitespace;
use venice_isa::{InstrFault, Version, decode, decode_in, encode};

/// The next eight words as bytes.
fn eight(words: &mut SplitWhitespace<'_>) -> Option<[u8; 8]> {
    let mut bytes = [0; 8];
    for byte in &mut bytes {
        *byte = words::byte(words)?;
    }
    Some(bytes)
}

/// `decode VERSION B0 .. B7`: the instruction's bytes again, and whether version one has it; or the first byte that is
/// none of an instruction's.
pub fn decoded(alloc: Global, rest: &str) -> Option<String> {
    let mut words = rest.split_whitespace();
    let version = words::version(&mut words)?;
    let bytes = eight(&mut words)?;
    match decode_in(version, bytes) {
        Ok(instr) => format!(in alloc;
            "{} {}",
            encode(&instr) == bytes,
            decode(bytes).is_ok()
        ).ok(),
        Err(InstrFault::BadOpcode) => String::from_str(alloc, "opcode").ok(),
        Err(InstrFault::BadField { byte }) => format!(in alloc; "field {byte}").ok(),
    }
}
