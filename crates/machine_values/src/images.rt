//! Images as bytes.
use crate::words;
use image_loader::{FILE_LIMIT, Image, ImageFault, read_image, write_image};
use std::alloc::Global;
use venice_isa::Version;

/// A scratchpad of 16 bytes, no memory, no arrays, and `halt`.
const HALT: [u8; 28] = [
    0x56, 0x4e, 0x43, 0x31, 0x10, 0, 0, 0, 0, 0, 0, 0, 0, 0, 0, 0, 1, 0, 0, 0, 0, 0, 0, 0, 0, 0, 0,
    0,
];

/// The fault of bytes that are no image.
fn fault_of(alloc: Global, bytes: &[u8]) -> Option<ImageFault> {
    if bytes.len() > FILE_LIMIT as usize {
        return Some(ImageFault::Memory);
    }
    read_image(alloc, bytes).err()
}

/// A fault's name and its place, which is 0 where it has none.
fn parts(fault: Option<ImageFault>) -> (&'static str, u32) {
    match fault {
        None => ("image", 0),
        Some(ImageFault::Truncated { at }) => ("truncated", at),
        Some(ImageFault::BadMagic) => ("magic", 0),
        Some(ImageFault::BadTable { at }) => ("table", at),
        Some(ImageFault::BadInstr { at }) => ("instruction", at),
        Some(ImageFault::BadTarget { at }) => ("target", at),
        Some(ImageFault::NoHalt) => ("halt", 0),
        Some(ImageFault::Trailing { at }) => ("trailing", at),
        Some(ImageFault::Memory) => ("memory", 0),
    }
}

fn shown(alloc: Global, fault: Option<ImageFault>) -> Option<String> {
    let (name, at) = parts(fault);
    format!(in alloc; "{name} {at}").ok()
}

/// `image BYTES`: its version, its bytes of scratchpad and memory, how many arrays and instructions it has, and whether it
/// is written as it was read; or the fault.
pub fn image(alloc: Global, rest: &str) -> Option<String> {
    let bytes = words::bytes(alloc, rest)?;
    if bytes.len() > FILE_LIMIT as usize {
        return None;
    }
    match read_image(alloc, &bytes) {
        Ok(image) => parts_of(alloc, &image, &bytes),
        Err(fault) => shown(alloc, Some(fault)),
    }
}

fn parts_of(alloc: Global, image: &Image, bytes: &[u8]) -> Option<String> {
    let again = write_image(alloc, image).ok()?;
    let same = again.as_slice() == bytes;
    let code = &image.code;
    let version = match code.version {
        Version::One => 1,
        Version::Two => 2,
    };
    let (arrays, instrs) = (image.arrays.len(), code.len());
    let (spad, memory) = (image.spad, image.memory);
    format!(in alloc; "{version} {spad} {memory} {arrays} {instrs} {same}").ok()
}

/// `byte I FROM TO`: the one fault of the smallest image with byte I from FROM up to TO in place of its own; none where
/// they differ.
pub fn changed(alloc: Global, rest: &str) -> Option<String> {
    let mut words = rest.split_whitespace();
    let i = words::count(&mut words)?;
    let (from, to) = (words::byte(&mut words)?, words::byte(&mut words)?);
    let first = changed_to(alloc, i, from)?;
    for byte in from..=to {
        if changed_to(alloc, i, byte)? != first {
            return None;
        }
    }
    let (name, at) = first;
    format!(in alloc; "{name} {at}").ok()
}

fn changed_to(alloc: Global, i: u32, byte: u8) -> Option<(&'static str, u32)> {
    let mut bytes = HALT;
    *bytes.get_mut(i as usize)? = byte;
    Some(parts(fault_of(alloc, &bytes)))
}

fn put_number(bytes: &mut Vec<u8>, number: u32) -> Option<()> {
    bytes.extend_from_slice(&number.to_le_bytes()).ok()
}

/// An array's entry from `NAME KIND TYPE ROWS COLUMNS PLACE`, where the name `-` has no bytes.
fn put_entry(bytes: &mut Vec<u8>, line: &str) -> Option<()> {
    let mut words = line.split_whitespace();
    let name = words.next()?.as_bytes();
    let name = if name == b"-".as_slice() { &[] } else { name };
    bytes.push(u8::try_from(name.len()).ok()?).ok()?;
    bytes.extend_from_slice(name).ok()?;
    bytes.push(words::byte(&mut words)?).ok()?;
    bytes.push(words::byte(&mut words)?).ok()?;
    for _ in 0..3 {
        put_number(bytes, words::count(&mut words)?)?;
    }
    Some(())
}

/// The magic of version two and a header of one instruction.
fn put_header(bytes: &mut Vec<u8>, memory: u32, arrays: u32) -> Option<()> {
    bytes.extend_from_slice(b"VNC2").ok()?;
    put_number(bytes, 1_048_576)?;
    put_number(bytes, memory)?;
    put_number(bytes, arrays)?;
    put_number(bytes, 1)
}

/// `entry NAME KIND TYPE ROWS COLUMNS PLACE`: the fault where this is the second array in 100 bytes of memory, behind
/// two rows of five u8 at 10 with the name `a`.
pub fn entry(alloc: Global, rest: &str) -> Option<String> {
    let mut bytes = Vec::new(alloc);
    put_header(&mut bytes, 100, 2)?;
    put_entry(&mut bytes, "a 0 0 2 5 10")?;
    put_entry(&mut bytes, rest)?;
    bytes.extend_from_slice(&[0; 8]).ok()?;
    shown(alloc, fault_of(alloc, &bytes))
}

/// `entries N`: the fault with so many arrays of one byte each, whose names count to base 16.
pub fn entries(alloc: Global, rest: &str) -> Option<String> {
    let count = rest.parse::<u32>().ok()?;
    let mut bytes = Vec::new(alloc);
    put_header(&mut bytes, 134_217_728, count)?;
    for k in 0..count {
        let (tens, ones) = (b'a' + (k / 16 % 17) as u8, b'a' + (k % 16) as u8);
        bytes.extend_from_slice(&[2, tens, ones, 0, 0]).ok()?;
        put_number(&mut bytes, 1)?;
        put_number(&mut bytes, 1)?;
        put_number(&mut bytes, k)?;
    }
    bytes.extend_from_slice(&[0; 8]).ok()?;
    shown(alloc, fault_of(alloc, &bytes))
}
