//! Elements of a group: how their bytes spell numbers of their type.
ghost use Rattle.std.specs.Prelude.{◌≡◌, ◌+◌, ◌*◌, ◌<◌, ◌≤◌, ◌^◌, [], ◌∷◌, ◌%◌, ◌/◌, slice_index};
ghost use Rattle.ven_base.specs.Elem.{size_of, IsElement};
ghost use Rattle.venice_isa.specs.Cell.{overwritten};
ghost use Rattle.venice_isa.specs.Element.{little_endian, low_bytes};
ghost use Rattle.lane_machine.specs.Elements.{element_bytes, element_in};

use ven_base::{Elem, number_of};
use venice_isa::VecOp;

/// The most bytes that a beat takes: four lanes of 4 bytes.
pub(crate) const MOST_BYTES: usize = 16;

/// The bytes of a group of elements; those behind it say nothing.
pub(crate) type Bytes = [u8; MOST_BYTES];

/// The number of element `k` of a group.
#[inline(always)]
pub(crate) fn number(elem: Elem, bytes: &Bytes, k: u32) -> i64
    requires { (k + 1) * size_of elem ≤ 16 }
    ensures value { result ≡ element_in elem bytes.now k }
    ensures in_type { IsElement elem result }
{
    number_of(elem, bits(elem, bytes, k))
}

/// Puts the bits of element `k` of a group, and changes no other byte.
#[inline(always)]
pub(crate) fn put(elem: Elem, bytes: &mut Bytes, k: u32, bits: u32)
    requires { (k + 1) * size_of elem ≤ 16 }
    ensures { bytes.new ≡ overwritten bytes.old (k * size_of elem) (low_bytes (size_of elem) bits) }
{
    match elem {
        Elem::U8 | Elem::I8 => put_one(bytes, k as usize, bits),
        Elem::U16 | Elem::I16 => put_two(bytes, 2 * k as usize, bits),
        Elem::U32 | Elem::I32 => put_four(bytes, 4 * k as usize, bits),
    }
}

/// The same of an operation's answer. One of two bytes that is 0 or 1 is put as a word: the compiler
/// would make single stores of its bytes, for which the next load of the group has to wait.
#[inline(always)]
pub(crate) fn put_answer(op: VecOp, elem: Elem, bytes: &mut Bytes, k: u32, bits: u32)
    requires { (k + 1) * size_of elem ≤ 16 }
    ensures { bytes.new ≡ overwritten bytes.old (k * size_of elem) (low_bytes (size_of elem) bits) }
{
    if op.is_comparison() && elem.size() == 2 {
        put_word(bytes, 2 * k as usize, bits);
    } else {
        put(elem, bytes, k, bits);
    }
}

/// The bits of element `k`.
#[inline(always)]
fn bits(elem: Elem, bytes: &Bytes, k: u32) -> u32
    requires { (k + 1) * size_of elem ≤ 16 }
    ensures { result ≡ little_endian (element_bytes elem bytes.now k) }
{
    match elem {
        Elem::U8 | Elem::I8 => one_at(bytes, k as usize),
        Elem::U16 | Elem::I16 => two_at(bytes, 2 * k as usize),
        Elem::U32 | Elem::I32 => four_at(bytes, 4 * k as usize),
    }
}

#[inline(always)]
fn one_at(bytes: &Bytes, at: usize) -> u32
    requires { at + 1 ≤ 16 }
    ensures { result ≡ slice_index bytes.now at }
{
    u32::from(bytes[at])
}

#[inline(always)]
fn two_at(bytes: &Bytes, at: usize) -> u32
    requires { at + 2 ≤ 16 }
    ensures value { result ≡ slice_index bytes.now at + 256 * slice_index bytes.now (at + 1) }
    ensures within { result < 2 ^ 16 }
{
    u32::from(bytes[at]) + 256 * u32::from(bytes[at + 1])
}

#[inline(always)]
fn four_at(bytes: &Bytes, at: usize) -> u32
    requires { at + 4 ≤ 16 }
    ensures { result ≡ slice_index bytes.now at + 256 * (slice_index bytes.now (at + 1)
        + 256 * (slice_index bytes.now (at + 2) + 256 * slice_index bytes.now (at + 3))) }
{
    two_at(bytes, at) + 0x1_0000 * two_at(bytes, at + 2)
}

#[inline(always)]
fn put_one(bytes: &mut Bytes, at: usize, bits: u32)
    requires { at + 1 ≤ 16 }
    ensures { bytes.new ≡ overwritten bytes.old at (low_bytes 1 bits) }
{
    bytes[at] = (bits % 256) as u8;
}

#[inline(always)]
fn put_two(bytes: &mut Bytes, at: usize, bits: u32)
    requires { at + 2 ≤ 16 }
    ensures { bytes.new ≡ overwritten bytes.old at (low_bytes 2 bits) }
{
    bytes[at] = (bits % 256) as u8;
    bytes[at + 1] = (bits / 256 % 256) as u8;
}

#[inline(always)]
fn put_word(bytes: &mut Bytes, at: usize, bits: u32)
    requires { at + 2 ≤ 16 }
    ensures { bytes.new ≡ overwritten bytes.old at (low_bytes 2 bits) }
{
    let word = (bits % 0x1_0000) as u16;
    bytes[at..at + 2].copy_from_slice(&word.to_le_bytes());
}

#[inline(always)]
fn put_four(bytes: &mut Bytes, at: usize, bits: u32)
    requires { at + 4 ≤ 16 }
    ensures { bytes.new ≡ overwritten bytes.old at (low_bytes 4 bits) }
{
    bytes[at..at + 4].copy_from_slice(&bits.to_le_bytes());
}
