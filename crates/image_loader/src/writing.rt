//! Writing images (docs/FORMATS.md, "Images").
ghost use Rattle.std.specs.Prelude.{◌≡◌, ◌<◌, ◌≤◌, ◌^◌, ◌++◌, ◌∷◌, IfOk, OnOk, length};
ghost use Rattle.venice_isa.specs.Encoding.{bit, type_number};
ghost use Rattle.image_loader.specs.Table.{file_limit};
ghost use Rattle.image_loader.specs.Image.{raw_entry, raw_entries, word, magic, header_bytes, entry_bytes, table_bytes, code_bytes, spelling};
ghost use Rattle.image_loader.specs.Clear.{numbers_of};

use crate::header::HeaderFields;
use crate::image::Image;
use std::alloc::{AllocError, Global};
use ven_base::{Elem, Entry, Name, Shape};
use venice_isa::{Code, Version, encode};

/// The most bytes of what stands before the instructions: the magic and the header, and 256 entries with names of 31
/// bytes.
const TABLE_ROOM: usize = 20 + 256 * 46;

/// The image's one spelling, which `read_image` takes: it has at most `FILE_LIMIT` bytes. One pass over the image.
pub fn write_image(alloc: Global, image: &Image) -> Result<Vec<u8>, AllocError>
    ensures spelled { IfOk result (λ bytes. bytes.items ≡ spelling image.now) }
    ensures few { IfOk result (λ bytes. length bytes.items ≤ file_limit) }
{
    let header = HeaderFields {
        spad: image.spad,
        memory: image.memory,
        array_count: array_count(image),
        instr_count: image.code.len(),
    };
    let mut bytes = Vec::with_capacity(alloc, TABLE_ROOM + 8 * header.instr_count as usize)?;
    put_header(&mut bytes, version_of(&image.code), header)?;
    put_table(&mut bytes, &image.arrays)?;
    put_code(&mut bytes, &image.code)?;
    Ok(bytes)
}

fn array_count(image: &Image) -> u32
    ensures { result ≡ length image.now.arrays }
{
    count_of(&image.arrays)
}

fn count_of(arrays: &[Entry]) -> u32
    requires { length arrays.now < 2 ^ 32 }
    ensures { result ≡ length arrays.now }
{
    arrays.len() as u32
}

fn version_of(code: &Code) -> Version
    ensures { result ≡ code.now.version }
{
    code.version
}

fn put_header(bytes: &mut Vec<u8>, version: Version, header: HeaderFields) -> Result<(), AllocError>
    ensures { OnOk result (bytes.new.items ≡ bytes.old.items ++ (magic version ++ header_bytes (numbers_of header))) }
{
    put_magic(bytes, version)?;
    put_number(bytes, header.spad)?;
    put_number(bytes, header.memory)?;
    put_number(bytes, header.array_count)?;
    put_number(bytes, header.instr_count)?;
    Ok(())
}

fn put_magic(bytes: &mut Vec<u8>, version: Version) -> Result<(), AllocError>
    ensures { OnOk result (bytes.new.items ≡ bytes.old.items ++ magic version) }
{
    match version {
        Version::One => bytes.extend_from_slice(b"VNC1"),
        Version::Two => bytes.extend_from_slice(b"VNC2"),
    }
}

fn put_number(bytes: &mut Vec<u8>, number: u32) -> Result<(), AllocError>
    ensures { OnOk result (bytes.new.items ≡ bytes.old.items ++ word number) }
{
    bytes.extend_from_slice(&number.to_le_bytes())
}

fn put_table(bytes: &mut Vec<u8>, arrays: &[Entry]) -> Result<(), AllocError>
    ensures { OnOk result (bytes.new.items ≡ bytes.old.items ++ table_bytes (raw_entries arrays.now)) }
{
    for entry in arrays {
        put_entry(bytes, entry)?;
    }
    Ok(())
}

fn put_entry(bytes: &mut Vec<u8>, entry: &Entry) -> Result<(), AllocError>
    ensures { OnOk result (bytes.new.items ≡ bytes.old.items ++ entry_bytes (raw_entry entry.now)) }
{
    put_name(bytes, &entry.name)?;
    bytes.extend_from_slice(&[kind_byte(entry.output), type_byte(entry.elem)])?;
    put_number(bytes, rows_of(entry.shape))?;
    put_number(bytes, columns_of(entry.shape))?;
    put_number(bytes, entry.place)?;
    Ok(())
}

fn put_name(bytes: &mut Vec<u8>, name: &Name) -> Result<(), AllocError>
    ensures { OnOk result (bytes.new.items ≡ bytes.old.items ++ (length name.now ∷ name.now)) }
{
    let name = name.bytes();
    bytes.push(name.len() as u8)?;
    bytes.extend_from_slice(name)?;
    Ok(())
}

fn kind_byte(output: bool) -> u8
    ensures { result ≡ bit output }
{
    u8::from(output)
}

fn type_byte(elem: Elem) -> u8
    ensures { result ≡ type_number elem }
{
    elem as u8
}

fn rows_of(shape: Shape) -> u32
    ensures { result ≡ shape.rows }
{
    shape.rows
}

fn columns_of(shape: Shape) -> u32
    ensures { result ≡ shape.cols }
{
    shape.cols
}

fn put_code(bytes: &mut Vec<u8>, code: &Code) -> Result<(), AllocError>
    ensures { OnOk result (bytes.new.items ≡ bytes.old.items ++ code_bytes code.now) }
{
    for instr in &code.instrs {
        bytes.extend_from_slice(&encode(instr))?;
    }
    Ok(())
}
