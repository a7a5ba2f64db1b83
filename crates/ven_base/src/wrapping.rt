//! Wrapping: how a whole number becomes one of an element type (docs/LANGUAGE.md, "Element types"), and its bits there.
ghost use Rattle.std.specs.Prelude.{◌≡◌, ◌<◌, ◌^◌, ◌%◌, pos};
ghost use Rattle.std.specs.Int.{w64, cast_unsigned};
ghost use Rattle.ven_base.specs.Elem.{modulus_of};
ghost use Rattle.ven_base.specs.Operation.{bits_of};
ghost use Rattle.ven_base.specs.Wrap.{IsWrapped, wrapped};

use crate::Elem;

/// The number of the type's range that equals `n` modulo 2 to the type's width in bits.
#[inline]
pub fn wrap(elem: Elem, n: i128) -> i64
    ensures is_wrapped { IsWrapped elem n result }
    ensures value { result ≡ wrapped elem n }
{
    number_of(elem, (n.cast_unsigned() % 0x1_0000_0000) as u32)
}

/// The same of a number of 64 bits.
#[inline]
pub(crate) fn wrap_word(elem: Elem, n: i64) -> i64
    ensures { result ≡ wrapped elem n }
{
    number_of(elem, low_bits(n))
}

/// The bits of `n`, as its two's complement of the type's width: the number from 0 on, below 2 to the width, that
/// equals `n` modulo 2 to the width. `n` may be any number.
#[inline]
pub fn bits_of(elem: Elem, n: i64) -> u32
    ensures value { result ≡ bits_of elem n }
    ensures within { result < modulus_of elem }
{
    let low = low_bits(n);
    match elem {
        Elem::U8 | Elem::I8 => low % 0x100,
        Elem::U16 | Elem::I16 => low % 0x1_0000,
        Elem::U32 | Elem::I32 => low,
    }
}

/// The lowest 32 bits of a number.
#[inline]
pub(crate) fn low_bits(n: i64) -> u32
    ensures { result ≡ cast_unsigned w64 n % 2 ^ 32 }
{
    (n.cast_unsigned() % 0x1_0000_0000) as u32
}

/// The number of the type that has the lowest of these bits, as many as the type is wide. `bits` may be any number.
#[inline]
pub fn number_of(elem: Elem, bits: u32) -> i64
    ensures { result ≡ wrapped elem (pos bits) }
{
    let n = i64::from(bits);
    match elem {
        Elem::U8 => n % 0x100,
        Elem::I8 => (n + 0x80) % 0x100 - 0x80,
        Elem::U16 => n % 0x1_0000,
        Elem::I16 => (n + 0x8000) % 0x1_0000 - 0x8000,
        Elem::U32 => n,
        Elem::I32 => (n + 0x8000_0000) % 0x1_0000_0000 - 0x8000_0000,
    }
}
