//! Where the numbers of A and of B come from.
ghost use Rattle.std.specs.Prelude.{◌≡◌, ◌+◌, ◌*◌, ◌/◌, ◌<◌, ◌≤◌, ◌^◌, ℕ, IsTrue, length, take};
ghost use Rattle.ven_base.specs.Elem.{size_of, IsElement};
ghost use Rattle.spad_store.specs.Cells.{bytes_from};
ghost use Rattle.spad_store.specs.Packed.{has_bit};
ghost use Rattle.lane_machine.specs.Elements.{HasNumbers, HasSpelled};

use crate::element::{Bytes, MOST_BYTES, put};
use spad_store::Spad;
use ven_base::{Elem, KnownElem, TypeI8, TypeI16, TypeI32, TypeU8, TypeU16, TypeU32, bits_of};
use venice_isa::Walk;

/// An operand: one number for all elements, of a scalar or where the operation takes no B, or the
/// elements on a way through cells.
#[derive(Clone, Copy)]
pub(crate) enum Operand {
    Number(i64),
    Elements(Walk),
}

impl Operand {
    ghost use Rattle.lane_machine.specs.Operand.{end_in, CanGoOn, CanTurn, number_in, flag_in, a_group_on, at_next_row};

    /// Loads the bytes of the next `count` elements, where they are asked for.
    #[inline(always)]
    pub(crate) fn load_if(
        &self,
        is_asked: bool,
        cells: &Spad,
        elem: Elem,
        count: u32,
        bytes: &mut Bytes,
    )
        requires few { count * size_of elem ≤ 16 }
        requires in_type { IsElement elem (number_in elem self.now cells.now 0) }
        requires inside { end_in elem self.now count ≤ length cells.now }
        requires small { length cells.now < 2 ^ 32 }
        ensures { IsTrue is_asked → HasNumbers elem count (number_in elem self.now cells.now) bytes.new }
    {
        if is_asked {
            self.load(cells, elem, count, bytes);
        }
    }

    /// Loads the bytes of the next `count` elements.
    #[inline(always)]
    pub(crate) fn load(&self, cells: &Spad, elem: Elem, count: u32, bytes: &mut Bytes)
        requires few { count * size_of elem ≤ 16 }
        requires in_type { IsElement elem (number_in elem self.now cells.now 0) }
        requires inside { end_in elem self.now count ≤ length cells.now }
        requires small { length cells.now < 2 ^ 32 }
        ensures { HasNumbers elem count (number_in elem self.now cells.now) bytes.new }
    {
        match self {
            Operand::Number(n) => repeat(elem, *n, bytes),
            Operand::Elements(walk) => {
                load_bytes(cells, walk.next_place as u32, count * elem.size(), bytes);
            }
        }
    }

    /// The flags of the first bytes of the next `count` elements as bits, at the places of these
    /// bytes. A number has no flag that is set.
    pub(crate) fn flags(&self, cells: &Spad, elem: Elem, count: u32) -> u64
        requires few { count * size_of elem ≤ 16 }
        requires inside { end_in elem self.now count ≤ length cells.now }
        requires small { length cells.now < 2 ^ 32 }
        ensures { (k : ℕ) → k < count → has_bit result (k * size_of elem) ≡ flag_in elem self.now cells.now k }
    {
        match self {
            Operand::Number(_) => 0,
            Operand::Elements(walk) => cells.get_flags(walk.next_place as u32, count * elem.size()),
        }
    }

    /// Goes on by a whole group.
    pub(crate) fn go_on(&mut self)
        requires { CanGoOn self.old }
        ensures { self.new ≡ a_group_on self.old }
    {
        if let Operand::Elements(walk) = self {
            walk.go_on();
        }
    }

    /// Goes on to the beginning of the next row.
    pub(crate) fn next_row(&mut self)
        requires { CanTurn self.old }
        ensures { self.new ≡ at_next_row self.old }
    {
        if let Operand::Elements(walk) = self {
            walk.next_row();
        }
    }
}

/// Loads the bytes of so many cells. A whole group is copied by a move of its size.
#[inline(always)]
pub(crate) fn load_bytes(cells: &Spad, place: u32, count: u32, bytes: &mut Bytes)
    requires few { count ≤ 16 }
    requires inside { place + count ≤ length cells.now }
    ensures long { length bytes.new ≡ 16 }
    ensures bytes { take count bytes.new ≡ bytes_from cells.now place count }
{
    if count as usize == MOST_BYTES {
        cells.get_bytes(place, bytes);
    } else if count == 4 {
        cells.get_bytes(place, &mut bytes[..4]);
    } else if count == 8 {
        cells.get_bytes(place, &mut bytes[..8]);
    } else {
        cells.get_bytes(place, &mut bytes[..count as usize]);
    }
}

/// Puts one number into all elements of a group.
#[inline(never)]
fn repeat(elem: Elem, n: i64, bytes: &mut Bytes)
    ensures { HasSpelled elem (16 / size_of elem) (λ _. n) bytes.new }
{
    match elem {
        Elem::U8 => repeat_as::<TypeU8>(n, bytes),
        Elem::I8 => repeat_as::<TypeI8>(n, bytes),
        Elem::U16 => repeat_as::<TypeU16>(n, bytes),
        Elem::I16 => repeat_as::<TypeI16>(n, bytes),
        Elem::U32 => repeat_as::<TypeU32>(n, bytes),
        Elem::I32 => repeat_as::<TypeI32>(n, bytes),
    }
}

/// The same of one type.
fn repeat_as<E: KnownElem>(n: i64, bytes: &mut Bytes)
    ensures { HasSpelled E.ELEM (16 / size_of E.ELEM) (λ _. n) bytes.new }
{
    let elem = E::ELEM;
    for k in 0..16 / elem.size() {
        put(elem, bytes, k, bits_of(elem, n));
    }
}
