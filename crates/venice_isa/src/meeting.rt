//! Whether two works conflict.
ghost use Rattle.std.specs.Prelude.{◌≡◌, ◌↔◌, ◌⊎◌, ℕ, ◌<◌, None, IfSome, IsTrue, IsFalse};
ghost use Rattle.ven_base.specs.Store.{in_cells, in_memory};
ghost use Rattle.venice_isa.specs.Region.{Covers};
ghost use Rattle.venice_isa.specs.declared.issue.Issue.TheVariants.{Vector, Read, Write};
ghost use Rattle.venice_isa.specs.Footprint.{Reads, Writes, ReadsA, ReadsB, Conflicts};
ghost use Rattle.venice_isa.specs.Meeting.{Meet, RowsMeet, AreRows, SomeMeet, StandFor, Spans, behind_current};

use crate::issue::Issue;
use crate::region::Region;
use crate::work::{DmaWork, VecWork};

/// Bytes that stand one after the other, from a place on; one byte at least. A number of bytes that doesn't fit is the
/// greatest, which reaches past every place at which a row begins.
#[derive(Clone, Copy)]
pub(crate) struct Row {
    pub place: u64,
    pub bytes: u64,
}

/// The rows of a region that are left, in the order of their places: the current one, how many with it, and how far it
/// is to the next. Rows that stand without gaps, or overlap, are one row.
#[derive(Clone, Copy)]
pub(crate) struct Rows {
    pub row: Row,
    pub left: u32,
    pub step: u32,
}

impl Row {
    /// Whether the two share a byte. Places are compared by differences, since a row's end may not fit.
    fn meets(self, other: Row) -> bool
        requires some { 0 < self.bytes }
        requires some_of_other { 0 < other.bytes }
        ensures { IsTrue result ↔ RowsMeet self other }
    {
        if self.place <= other.place {
            other.place - self.place < self.bytes
        } else {
            self.place - other.place < other.bytes
        }
    }
}

impl Rows {
    /// The rows of a region; none of one without bytes.
    fn of(region: Region) -> Option<Rows>
        ensures none { result ≡ None → (p : ℕ) → ¬ Covers region p }
        ensures rows { IfSome result AreRows }
        ensures stand { IfSome result (StandFor region) }
    {
        let bytes = u64::from(region.columns) * u64::from(region.size);
        if region.rows == 0 || bytes == 0 {
            return None;
        }
        let rows = Rows {
            row: Row {
                place: u64::from(region.place),
                bytes,
            },
            left: region.rows,
            step: region.step,
        };
        Some(if u64::from(region.step) <= bytes {
            rows.as_one()
        } else {
            rows
        })
    }

    /// One row from the first one's beginning to the last one's end.
    fn as_one(self) -> Rows
        requires { AreRows self }
        ensures rows { AreRows result }
        ensures one { result.left ≡ 1 }
        ensures spans { Spans self result.row }
    {
        Rows {
            row: self.span(),
            left: 1,
            step: self.step,
        }
    }

    /// From the first row's beginning to the last one's end.
    fn span(self) -> Row
        requires { AreRows self }
        ensures some { 0 < result.bytes }
        ensures spans { Spans self result }
    {
        let to_last = u64::from(self.left - 1) * u64::from(self.step);
        Row {
            place: self.row.place,
            bytes: to_last.saturating_add(self.row.bytes),
        }
    }

    /// Goes on to the next row; false, with nothing changed, where the current one is the last.
    fn go_on(&mut self) -> bool
        requires { AreRows self.old }
        ensures more { IsTrue result ↔ (1 < self.old.left) }
        ensures gone { IsTrue result → self.new ≡ behind_current self.old }
        ensures unchanged { IsFalse result → self.new ≡ self.old }
    {
        if self.left == 1 {
            return false;
        }
        self.left -= 1;
        self.row.place += u64::from(self.step);
        true
    }
}

/// Whether the two share a byte. Where what lies between their ends doesn't meet they don't, which is most often so.
/// Else one cursor for each goes through the rows, from place to place, and that which stands at the lower row goes on:
/// linear in the rows of both.
fn meet(first: Region, second: Region) -> bool
    ensures { IsTrue result ↔ Meet first second }
{
    let Some(first) = Rows::of(first) else {
        return false;
    };
    let Some(second) = Rows::of(second) else {
        return false;
    };
    first.span().meets(second.span()) && rows_meet(first, second)
}

/// Whether one of these rows shares a byte with one of those.
fn rows_meet(first: Rows, second: Rows) -> bool
    requires first { AreRows first }
    requires second { AreRows second }
    ensures { IsTrue result ↔ SomeMeet first second }
{
    let mut first = first;
    let mut second = second;
    loop {
        if first.row.meets(second.row) {
            return true;
        }
        let goes_on = if first.row.place < second.row.place {
            first.go_on()
        } else {
            second.go_on()
        };
        if !goes_on {
            return false;
        }
    }
}

/// Whether a vector instruction reads or writes a byte of the region.
fn touches(work: &VecWork, region: Region) -> bool
    ensures { IsTrue result ↔ ((p : ℕ) × Covers region p
        × (Reads (Vector work.now) (in_cells p) ⊎ Writes (Vector work.now) (in_cells p))) }
{
    meet(work.destination(), region) || reads_from(work, region)
}

/// Whether a source of the instruction that isn't a scalar has a byte of the region.
fn reads_from(work: &VecWork, region: Region) -> bool
    ensures { IsTrue result ↔ ((p : ℕ) × Covers region p × (ReadsA work.now p ⊎ ReadsB work.now p)) }
{
    (!work.kind.a_scalar && meet(work.source_a(), region))
        || (work.has_b_in_cells() && meet(work.source_b(), region))
}

/// Whether a vector instruction conflicts with another work.
fn conflicts_with_vector(vector: &VecWork, other: &Issue) -> bool
    ensures { IsTrue result ↔ Conflicts (Vector vector.now) other.now }
{
    match other {
        Issue::Vector(other) => vectors_conflict(vector, other),
        Issue::Read(read) => touches(vector, read.cells()),
        Issue::Write(write) => meet(vector.destination(), write.cells()),
        _ => false,
    }
}

/// Whether a read conflicts with another work.
fn conflicts_with_read(read: &DmaWork, other: &Issue) -> bool
    ensures { IsTrue result ↔ Conflicts (Read read.now) other.now }
{
    match other {
        Issue::Vector(vector) => touches(vector, read.cells()),
        Issue::Read(other) => meet(read.cells(), other.cells()),
        Issue::Write(write) => share_bytes(read, write),
        _ => false,
    }
}

/// Whether a write conflicts with another work.
fn conflicts_with_write(write: &DmaWork, other: &Issue) -> bool
    ensures { IsTrue result ↔ Conflicts (Write write.now) other.now }
{
    match other {
        Issue::Vector(vector) => meet(vector.destination(), write.cells()),
        Issue::Read(read) => share_bytes(read, write),
        Issue::Write(other) => meet(write.memory(), other.memory()),
        _ => false,
    }
}

/// Whether two vector instructions conflict.
fn vectors_conflict(first: &VecWork, second: &VecWork) -> bool
    ensures { IsTrue result ↔ Conflicts (Vector first.now) (Vector second.now) }
{
    touches(first, second.destination()) || reads_from(second, first.destination())
}

/// Whether a read and a write share a byte: in cells the one writes it, and in memory the other.
fn share_bytes(read: &DmaWork, write: &DmaWork) -> bool
    ensures { IsTrue result ↔ Conflicts (Read read.now) (Write write.now) }
{
    meet(read.cells(), write.cells()) || meet(read.memory(), write.memory())
}

/// Whether two works conflict: whether they share a byte, in cells or in memory, that one of them at least writes
/// (docs/MACHINE.md, "Footprints"). A wait conflicts with nothing. Takes no memory; the time is linear in the rows of
/// both, and constant where the bytes of the one lie behind all of the other.
pub fn conflict(first: &Issue, second: &Issue) -> bool
    ensures { IsTrue result ↔ Conflicts first.now second.now }
{
    match first {
        Issue::Vector(vector) => conflicts_with_vector(vector, second),
        Issue::Read(read) => conflicts_with_read(read, second),
        Issue::Write(write) => conflicts_with_write(write, second),
        _ => false,
    }
}
