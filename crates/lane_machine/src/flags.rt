//! The flags of a group's elements as bits, one for each of their bytes.
ghost use Rattle.std.specs.Prelude.{◌≡◌, ◌+◌, ◌*◌, ◌/◌, ◌≤◌, ℕ, Bool};
ghost use Rattle.ven_base.specs.Elem.{size_of};
ghost use Rattle.spad_store.specs.Packed.{has_bit};
ghost use Rattle.venice_isa.specs.Whole.{flag_for};
ghost use Rattle.lane_machine.specs.Elements.{element_in};
ghost use Rattle.lane_machine.specs.Flags.{HasFlags};

use crate::element::{Bytes, number};
use ven_base::{Elem, KnownElem, TypeI8, TypeI16, TypeI32, TypeU8, TypeU16, TypeU32};
use venice_isa::{VecKind, sets_flag};

/// The flags that an instruction's results set.
pub(crate) fn flags_for(kind: VecKind, results: &Bytes) -> u64
    ensures { HasFlags kind.elem (16 / size_of kind.elem)
        (λ k. flag_for kind (element_in kind.elem results.now k)) result }
{
    match kind.elem {
        Elem::U8 => flags_of::<TypeU8>(kind, results),
        Elem::I8 => flags_of::<TypeI8>(kind, results),
        Elem::U16 => flags_of::<TypeU16>(kind, results),
        Elem::I16 => flags_of::<TypeI16>(kind, results),
        Elem::U32 => flags_of::<TypeU32>(kind, results),
        Elem::I32 => flags_of::<TypeI32>(kind, results),
    }
}

/// The same of results of one type.
fn flags_of<E: KnownElem>(kind: VecKind, results: &Bytes) -> u64
    ensures { HasFlags E.ELEM (16 / size_of E.ELEM) (λ k. flag_for kind (element_in E.ELEM results.now k)) result }
{
    let elem = E::ELEM;
    let mut bits = 0;
    for k in 0..16 / elem.size() {
        let flag = sets_flag(kind, number(elem, results, k));
        bits = with_element(elem, bits, k, flag);
    }
    bits
}

/// The bits of all bytes of the elements whose first byte's bit is set.
pub(crate) fn whole_elements(elem: Elem, first: u64) -> u64
    ensures { HasFlags elem (16 / size_of elem) (λ k. has_bit first (k * size_of elem)) result }
{
    match elem {
        Elem::U8 | Elem::I8 => first & 0xffff,
        Elem::U16 | Elem::I16 => {
            let bits = first & 0x5555;
            bits | (bits << 1)
        }
        Elem::U32 | Elem::I32 => {
            let bits = first & 0x1111;
            let pairs = bits | (bits << 1);
            pairs | (pairs << 2)
        }
    }
}

/// The bits with those of one element more, which has this flag.
#[inline(always)]
fn with_element(elem: Elem, bits: u64, k: u32, flag: bool) -> u64
    requires { (k + 1) * size_of elem ≤ 16 }
    ensures { (flags : ℕ → Bool) → HasFlags elem k flags bits → flag ≡ flags k → HasFlags elem (k + 1) flags result }
{
    let size = elem.size();
    let ones = u64::MAX >> (64 - size);
    if flag {
        bits | (ones << (k * size))
    } else {
        bits
    }
}
