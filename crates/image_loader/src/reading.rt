//! Reading images (docs/FORMATS.md, "Images").
ghost use Rattle.std.specs.Prelude.{◌≡◌, ◌+◌, ◌*◌, ◌<◌, ◌≤◌, ◌^◌, ◌↔◌, ◌++◌, ◌∷◌, [], MatchResult, IfOk, IfErr, OnOk, IsTrue, length, slice_index};
ghost use Rattle.venice_isa.specs.Code.{EndsWithHalt, HasTargetBelow};
ghost use Rattle.image_loader.specs.Table.{LiesIn, file_limit, entry_size, offset_of, part_size};
ghost use Rattle.image_loader.specs.Image.{raw_entry, raw_entries};
ghost use Rattle.image_loader.specs.Reading.{number_at, version_in, header_in, entry_at, entries_in, code_place, image_end};
ghost use Rattle.image_loader.specs.Faults.{FitsMagic, IsAnswer};
ghost use Rattle.image_loader.specs.Loading.{IsLoading};
ghost use Rattle.image_loader.specs.EntryFields.{raw_fields};
ghost use Rattle.image_loader.specs.Clear.{numbers_of, IsReadTo, IsMagicRead, IsGoodNumber, IsBadNumber, IsHeaderRead, IsAtEntry, IsEntryRead, IsStop, IsTableRead, IsInstrRead, IsInstrStop, IsCodeRead};
ghost use Rattle.image_loader.specs.declared.fault.ImageFault.TheVariants.{Truncated, Memory};

use crate::fault::ImageFault;
use crate::header::HeaderFields;
use crate::image::Image;
use crate::table::{ARRAY_LIMIT, EntryFields, EntryPart, check_entry};
use std::alloc::Global;
use ven_base::{CELL_LIMIT, Entry, MEMORY_LIMIT};
use venice_isa::{Code, INSTRUCTION_LIMIT, Instr, Version, decode_in};

/// Where the first entry stands, behind the magic and the header.
const TABLE_PLACE: u32 = 20;

/// The bytes of an entry, but for its name.
const ENTRY_BYTES: u32 = 15;

/// The table's arrays, and where it ends.
#[derive(Drop)]
struct Table {
    arrays: Vec<Entry>,
    end: u32,
}

/// The image that the bytes spell: `Ok` exactly with it, and else the first fault from left to right, or `Memory` where
/// memory ran out. The bytes are at most `FILE_LIMIT`. One pass over them.
pub fn read_image(alloc: Global, bytes: &[u8]) -> Result<Image, ImageFault>
    requires { length bytes.now ≤ file_limit }
    ensures { IsLoading bytes.now result }
{
    let version = read_magic(bytes)?;
    let header = read_header(bytes)?;
    let table = read_table(alloc, bytes, header)?;
    let instrs = read_instrs(alloc, bytes, version, table.end, header.instr_count)?;
    check_end(bytes, table.end + 8 * header.instr_count, &instrs)?;
    Ok(Image {
        spad: header.spad,
        memory: header.memory,
        arrays: table.arrays,
        code: Code { version, instrs },
    })
}

/// Appends an item.
fn keep<T: Drop>(items: &mut Vec<T>, item: T) -> Result<(), ImageFault>
    ensures kept { OnOk result (items.new.items ≡ items.old.items ++ item ∷ []) }
    ensures memory { IfErr result (λ fault. fault ≡ Memory) }
{
    match items.push(item) {
        Ok(()) => Ok(()),
        Err(_) => Err(ImageFault::Memory),
    }
}

// ---- the magic and the header

fn read_magic(bytes: &[u8]) -> Result<Version, ImageFault>
    requires { length bytes.now ≤ file_limit }
    ensures { MatchResult result (IsMagicRead bytes.now) (IsAnswer bytes.now) }
{
    for i in 0..4 {
        if i >= bytes.len() {
            return Err(truncated(bytes));
        }
        if !fits_magic(i, bytes[i]) {
            return Err(ImageFault::BadMagic);
        }
    }
    match bytes[3] {
        b'2' => Ok(Version::Two),
        _ => Ok(Version::One),
    }
}

/// Whether byte `i` of the magic, below 4, is one of the two versions'.
fn fits_magic(i: usize, byte: u8) -> bool
    requires { i < 4 }
    ensures { IsTrue result ↔ FitsMagic i byte }
{
    byte == b"VNC1"[i] || byte == b"VNC2"[i]
}

fn read_header(bytes: &[u8]) -> Result<HeaderFields, ImageFault>
    requires few { length bytes.now ≤ file_limit }
    requires read { IsReadTo bytes.now 4 }
    ensures { MatchResult result (λ fields. IsHeaderRead bytes.now (numbers_of fields)) (IsAnswer bytes.now) }
{
    let spad = number_in(bytes, 4, 1, CELL_LIMIT)?;
    let memory = number_in(bytes, 8, 0, MEMORY_LIMIT)?;
    let array_count = number_in(bytes, 12, 0, ARRAY_LIMIT)?;
    let instr_count = number_in(bytes, 16, 0, INSTRUCTION_LIMIT)?;
    Ok(HeaderFields {
        spad,
        memory,
        array_count,
        instr_count,
    })
}

/// The number that stands at a place, from the least to the most.
fn number_in(bytes: &[u8], place: u32, least: u32, most: u32) -> Result<u32, ImageFault>
    requires few { length bytes.now ≤ file_limit }
    requires place { place ≤ 16 }
    ensures { MatchResult result (IsGoodNumber bytes.now place least most) (IsBadNumber bytes.now place least most) }
{
    if !is_whole(bytes, place + 4) {
        return Err(truncated(bytes));
    }
    let number = number_from(bytes, place);
    if number < least || most < number {
        return Err(ImageFault::BadTable { at: place });
    }
    Ok(number)
}

fn truncated(bytes: &[u8]) -> ImageFault
    requires { length bytes.now ≤ file_limit }
    ensures { result ≡ Truncated (length bytes.now) }
{
    ImageFault::Truncated {
        at: bytes.len() as u32,
    }
}

/// Whether all bytes before a place are there.
fn is_whole(bytes: &[u8], end: u32) -> bool
    ensures { IsTrue result ↔ (end ≤ length bytes.now) }
{
    end as usize <= bytes.len()
}

/// The byte at a place; 0 where there is none.
fn byte_from(bytes: &[u8], place: u32) -> u8
    ensures { result ≡ slice_index bytes.now place }
{
    let place = place as usize;
    if place < bytes.len() { bytes[place] } else { 0 }
}

/// The number that four bytes spell, of which those that aren't there are 0.
fn number_from(bytes: &[u8], place: u32) -> u32
    requires { place < 2 ^ 31 }
    ensures { result ≡ number_at bytes.now place }
{
    u32::from_le_bytes([
        byte_from(bytes, place),
        byte_from(bytes, place + 1),
        byte_from(bytes, place + 2),
        byte_from(bytes, place + 3),
    ])
}

// ---- the entries

fn read_table(alloc: Global, bytes: &[u8], header: HeaderFields) -> Result<Table, ImageFault>
    requires few { length bytes.now ≤ file_limit }
    requires read { IsHeaderRead bytes.now (numbers_of header) }
    ensures { MatchResult result (λ table. IsTableRead bytes.now table.arrays.items table.end) (IsAnswer bytes.now) }
{
    let mut arrays = Vec::new(alloc);
    let mut place = TABLE_PLACE;
    for _ in 0..header.array_count {
        let entry = read_entry(bytes, place, header.memory, &arrays)?;
        place += entry_bytes(&entry);
        keep(&mut arrays, entry)?;
    }
    Ok(Table { arrays, end: place })
}

/// The bytes of an entry.
fn entry_bytes(entry: &Entry) -> u32
    ensures size { result ≡ entry_size (raw_entry entry.now) }
    ensures few { result ≤ 46 }
{
    ENTRY_BYTES + entry.name.bytes().len() as u32
}

/// The entry that stands at a place, behind these.
fn read_entry(bytes: &[u8], place: u32, memory: u32, earlier: &[Entry]) -> Result<Entry, ImageFault>
    requires few { length bytes.now ≤ file_limit }
    requires at { IsAtEntry bytes.now place memory (raw_entries earlier.now) }
    ensures { MatchResult result
        (λ entry. IsEntryRead bytes.now place memory (raw_entries earlier.now) (raw_entry entry)) (IsAnswer bytes.now) }
{
    let name_length = u32::from(byte_from(bytes, place));
    if !is_name_length(name_length) {
        return Err(stop(bytes, place, 1));
    }
    if !is_whole(bytes, place + 1 + name_length) {
        return Err(truncated(bytes));
    }
    let fields = fields_at(bytes, place, name_length);
    match check_entry(&fields, memory, earlier) {
        Err(part) => Err(stop(
            bytes,
            place + offset(part, name_length),
            size(part, name_length),
        )),
        Ok(entry) => {
            if is_whole(bytes, place + ENTRY_BYTES + name_length) {
                Ok(entry)
            } else {
                Err(truncated(bytes))
            }
        }
    }
}

fn is_name_length(length: u32) -> bool
    ensures { IsTrue result ↔ LiesIn 1 31 length }
{
    1 <= length && length <= 31
}

/// The fields of the entry at a place, whose name is whole; bytes that aren't there are 0.
fn fields_at(bytes: &[u8], place: u32, name_length: u32) -> EntryFields<'_>
    requires few { length bytes.now ≤ file_limit }
    requires length { name_length ≡ slice_index bytes.now place }
    requires name { place + 1 + name_length ≤ length bytes.now }
    ensures { raw_fields result ≡ entry_at bytes.now place }
{
    let behind = place + 1 + name_length;
    EntryFields {
        name: &bytes[(place + 1) as usize..behind as usize],
        kind: byte_from(bytes, behind),
        elem: byte_from(bytes, behind + 1),
        rows: number_from(bytes, behind + 2),
        columns: number_from(bytes, behind + 6),
        place: number_from(bytes, behind + 10),
    }
}

/// The fault of a field that breaks its rule: it may not be whole.
fn stop(bytes: &[u8], place: u32, size: u32) -> ImageFault
    requires few { length bytes.now ≤ file_limit }
    requires sizes { place + size < 2 ^ 32 }
    ensures { IsStop bytes.now place size result }
{
    if is_whole(bytes, place + size) {
        ImageFault::BadTable { at: place }
    } else {
        truncated(bytes)
    }
}

/// Where a part of an entry stands, behind the entry's beginning, where its name has so many bytes.
fn offset(part: EntryPart, name_length: u32) -> u32
    requires { name_length ≤ 31 }
    ensures { result ≡ offset_of part name_length }
{
    match part {
        EntryPart::NameLength => 0,
        EntryPart::NameBytes => 1,
        EntryPart::Kind => 1 + name_length,
        EntryPart::ElementType => 2 + name_length,
        EntryPart::Rows => 3 + name_length,
        EntryPart::Columns => 7 + name_length,
        EntryPart::Place => 11 + name_length,
    }
}

/// The bytes of a part.
fn size(part: EntryPart, name_length: u32) -> u32
    ensures { result ≡ part_size part name_length }
{
    match part {
        EntryPart::NameLength | EntryPart::Kind | EntryPart::ElementType => 1,
        EntryPart::NameBytes => name_length,
        EntryPart::Rows | EntryPart::Columns | EntryPart::Place => 4,
    }
}

// ---- the instructions

fn read_instrs(
    alloc: Global,
    bytes: &[u8],
    version: Version,
    place: u32,
    count: u32,
) -> Result<Vec<Instr>, ImageFault>
    requires few { length bytes.now ≤ file_limit }
    requires read { IsReadTo bytes.now (code_place bytes.now) }
    requires version { version ≡ version_in bytes.now }
    requires place { place ≡ code_place bytes.now }
    requires count { count ≡ (header_in bytes.now).instr_count }
    requires room { place + 8 * count < 2 ^ 32 }
    ensures { MatchResult result (λ instrs. IsCodeRead bytes.now instrs.items (place + 8 * count))
        (IsAnswer bytes.now) }
{
    let mut instrs = Vec::new(alloc);
    for k in 0..count {
        let instr = read_instr(bytes, place + 8 * k, version, count)?;
        keep(&mut instrs, instr)?;
    }
    Ok(instrs)
}

/// The instruction that stands at a place, of so many.
fn read_instr(bytes: &[u8], place: u32, version: Version, count: u32) -> Result<Instr, ImageFault>
    requires few { length bytes.now ≤ file_limit }
    requires room { place + 8 < 2 ^ 32 }
    ensures { MatchResult result (IsInstrRead bytes.now place version count)
        (IsInstrStop bytes.now place version count) }
{
    if !is_whole(bytes, place + 8) {
        return Err(truncated(bytes));
    }
    let at = place as usize;
    let eight = [
        bytes[at],
        bytes[at + 1],
        bytes[at + 2],
        bytes[at + 3],
        bytes[at + 4],
        bytes[at + 5],
        bytes[at + 6],
        bytes[at + 7],
    ];
    match decode_in(version, eight) {
        Err(_) => Err(ImageFault::BadInstr { at: place }),
        Ok(instr) => {
            if has_target_below(instr, count) {
                Ok(instr)
            } else {
                Err(ImageFault::BadTarget { at: place })
            }
        }
    }
}

fn has_target_below(instr: Instr, end: u32) -> bool
    ensures { IsTrue result ↔ HasTargetBelow end instr }
{
    match instr.target() {
        Some(to) => to < end,
        None => true,
    }
}

/// What is left to see where all is read: that the last instruction halts, and that there are no more bytes.
fn check_end(bytes: &[u8], end: u32, instrs: &[Instr]) -> Result<(), ImageFault>
    requires few { length bytes.now ≤ file_limit }
    requires end { end ≡ image_end bytes.now }
    requires read { IsCodeRead bytes.now instrs.now end }
    ensures done { IfOk result (λ _. length bytes.now ≡ end) }
    ensures halts { IfOk result (λ _. EndsWithHalt instrs.now) }
    ensures fault { IfErr result (IsAnswer bytes.now) }
{
    if !ends_with_halt(instrs) {
        return Err(ImageFault::NoHalt);
    }
    if (end as usize) < bytes.len() {
        return Err(ImageFault::Trailing { at: end });
    }
    Ok(())
}

fn ends_with_halt(instrs: &[Instr]) -> bool
    ensures { IsTrue result ↔ EndsWithHalt instrs.now }
{
    matches!(instrs.last(), Some(Instr::Halt))
}
