//! The table of an image: its limits, and the rules of an array's entry (docs/FORMATS.md, "Images").
ghost use Rattle.std.specs.Prelude.{◌≡◌, ◌+◌, ◌*◌, ◌<◌, ◌≤◌, ◌↔◌, IfOk, IfErr, MatchResult, IsTrue, Contains};
ghost use Rattle.std.specs.List.{list_any};
ghost use Rattle.std.specs.Str.{bytes_eq};
ghost use Rattle.ven_base.specs.Extent.{IsExtent, element_limit};
ghost use Rattle.venice_isa.specs.Encoding.{bit, type_number};
ghost use Rattle.image_loader.specs.Image.{raw_entry, raw_entries};
ghost use Rattle.image_loader.specs.Table.{names_of, array_bytes, share_byte, BreaksFirst, IsRight};
ghost use Rattle.image_loader.specs.EntryFields.{raw_fields, IsGoodName, IsBadName, IsBadShape};
ghost use Rattle.image_loader.specs.declared.table.EntryPart.TheVariants.{Kind, ElementType};

use ven_base::{Elem, Entry, NAME_LIMIT, Name, Shape};

/// The most arrays of an image.
pub const ARRAY_LIMIT: u32 = 256;

/// The most bytes of a file that is read; no image has more.
pub const FILE_LIMIT: u32 = 67_108_864;

/// A part of an array's entry, in the order in which they stand.
#[derive(Clone, Copy)]
pub enum EntryPart {
    NameLength,
    NameBytes,
    Kind,
    ElementType,
    Rows,
    Columns,
    Place,
}

/// An array's entry as it stands in bytes, whatever its numbers are: `kind` is 0 for an input and 1 for an output,
/// `elem` the number of an element type. `place` counts bytes of memory from 0.
#[derive(Clone, Copy)]
pub struct EntryFields<'a> {
    pub name: &'a [u8],
    pub kind: u8,
    pub elem: u8,
    pub rows: u32,
    pub columns: u32,
    pub place: u32,
}

/// The entry of these fields, or the first part that breaks a rule, in so much memory and behind these entries.
pub fn check_entry(fields: &EntryFields, memory: u32, earlier: &[Entry]) -> Result<Entry, EntryPart>
    ensures entry { IfOk result (λ entry. raw_entry entry ≡ raw_fields fields.now) }
    ensures right { IfOk result (λ entry. IsRight memory (raw_entries earlier.now) (raw_fields fields.now)) }
    ensures wrong { IfErr result (λ part. BreaksFirst memory (raw_entries earlier.now) (raw_fields fields.now) part) }
{
    let name = check_name(fields.name, earlier)?;
    let output = check_kind(fields.kind)?;
    let elem = check_type(fields.elem)?;
    let shape = check_shape(fields.rows, fields.columns)?;
    let entry = Entry {
        name,
        output,
        elem,
        shape,
        place: fields.place,
    };
    if end_of(&entry) > u64::from(memory) || is_shared(&entry, earlier) {
        return Err(EntryPart::Place);
    }
    Ok(entry)
}

fn check_name(bytes: &[u8], earlier: &[Entry]) -> Result<Name, EntryPart>
    ensures { MatchResult result (IsGoodName (raw_entries earlier.now) bytes.now)
        (IsBadName (raw_entries earlier.now) bytes.now) }
{
    if bytes.is_empty() || bytes.len() > NAME_LIMIT {
        return Err(EntryPart::NameLength);
    }
    if is_taken(bytes, earlier) {
        return Err(EntryPart::NameBytes);
    }
    match Name::from_bytes(bytes) {
        Some(name) => Ok(name),
        None => Err(EntryPart::NameBytes),
    }
}

/// Whether an earlier entry has this name.
fn is_taken(bytes: &[u8], earlier: &[Entry]) -> bool
    ensures { IsTrue result ↔ Contains (names_of (raw_entries earlier.now)) bytes.now }
{
    has_name(bytes, earlier)
}

fn has_name(bytes: &[u8], entries: &[Entry]) -> bool
    ensures { result ≡ list_any (λ entry. bytes_eq bytes.now entry.name) entries.now }
{
    entries.iter().any(|entry| bytes == entry.name.bytes())
}

fn check_kind(kind: u8) -> Result<bool, EntryPart>
    ensures { MatchResult result (λ output. bit output ≡ kind) (λ part. (part ≡ Kind) × (1 < kind)) }
{
    match kind {
        0 => Ok(false),
        1 => Ok(true),
        _ => Err(EntryPart::Kind),
    }
}

fn check_type(number: u8) -> Result<Elem, EntryPart>
    ensures { MatchResult result (λ elem. type_number elem ≡ number) (λ part. (part ≡ ElementType) × (5 < number)) }
{
    match number {
        0 => Ok(Elem::U8),
        1 => Ok(Elem::I8),
        2 => Ok(Elem::U16),
        3 => Ok(Elem::I16),
        4 => Ok(Elem::U32),
        5 => Ok(Elem::I32),
        _ => Err(EntryPart::ElementType),
    }
}

fn check_shape(rows: u32, columns: u32) -> Result<Shape, EntryPart>
    ensures parts { MatchResult result (λ shape. shape ≡ record { rows = rows; cols = columns })
        (IsBadShape rows columns) }
    ensures shape { IfOk result (λ shape. IsExtent shape) }
{
    if rows == 0 {
        return Err(EntryPart::Rows);
    }
    match Shape::new(rows, columns) {
        Some(shape) => Ok(shape),
        None => Err(EntryPart::Columns),
    }
}

/// The bytes of an array: at most 4 times the most elements.
fn bytes_of(entry: &Entry) -> u64
    ensures value { result ≡ array_bytes (raw_entry entry.now) }
    ensures few { result ≤ 4 * element_limit }
{
    u64::from(entry.shape.elements()) * u64::from(entry.elem.size())
}

/// Where an array ends.
fn end_of(entry: &Entry) -> u64
    ensures { result ≡ entry.now.place + array_bytes (raw_entry entry.now) }
{
    u64::from(entry.place) + bytes_of(entry)
}

/// Whether the two share a byte.
fn share_byte(entry: &Entry, other: &Entry) -> bool
    ensures { result ≡ share_byte (raw_entry entry.now) (raw_entry other.now) }
{
    u64::from(other.place) < end_of(entry) && u64::from(entry.place) < end_of(other)
}

/// Whether the array shares a byte with an earlier one.
fn is_shared(entry: &Entry, earlier: &[Entry]) -> bool
    ensures { result ≡ list_any (λ other. share_byte (raw_entry entry.now) (raw_entry other)) earlier.now }
{
    earlier.iter().any(|other| share_byte(entry, other))
}
