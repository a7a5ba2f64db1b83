//! The operations on numbers of a type: the result on whole numbers, wrapped into the type, or of a saturating
//! operation the nearest number of the type (docs/LANGUAGE.md, "Operations").
ghost use Rattle.std.specs.Prelude.{◌≡◌, ◌<◌};
ghost use Rattle.ven_base.specs.Elem.{IsElement};
ghost use Rattle.ven_base.specs.Operation.{applied1, applied2, amount_of};
ghost use Rattle.ven_base.specs.Saturation.{nearest};

use crate::wrapping::{low_bits, wrap_word};
use crate::{Elem, Op1, Op2};

/// The operation's result on `x`, a number of the type, wrapped into the type.
#[inline]
pub fn apply1(op: Op1, elem: Elem, x: i64) -> i64
    requires { IsElement elem x }
    ensures { result ≡ applied1 op elem x }
{
    let exact = match op {
        Op1::Neg => -x,
        Op1::Not => -1 - x,
        Op1::Abs => x.abs(),
    };
    wrap_word(elem, exact)
}

/// The operation's result on `x` and `y`, numbers of the type, wrapped into the type, or with `SatAdd` and `SatSub` the
/// nearest number of the type. The amount of a shift counts modulo the type's width in bits, and a comparison gives 1
/// or 0.
#[inline]
pub fn apply2(op: Op2, elem: Elem, x: i64, y: i64) -> i64
    requires left { IsElement elem x }
    requires right { IsElement elem y }
    ensures { result ≡ applied2 op elem x y }
{
    match op {
        Op2::Add => wrap_word(elem, x + y),
        Op2::Sub => wrap_word(elem, x - y),
        Op2::Mul => wrap_word(elem, x.wrapping_mul(y)),
        Op2::And => wrap_word(elem, x & y),
        Op2::Or => wrap_word(elem, x | y),
        Op2::Xor => wrap_word(elem, x ^ y),
        Op2::Shl => wrap_word(elem, x << amount(elem, y)),
        Op2::Shr => x >> amount(elem, y),
        Op2::Min => x.min(y),
        Op2::Max => x.max(y),
        Op2::Eq => i64::from(x == y),
        Op2::Ne => i64::from(x != y),
        Op2::Lt => i64::from(x < y),
        Op2::Le => i64::from(x <= y),
        Op2::Gt => i64::from(x > y),
        Op2::Ge => i64::from(x >= y),
        Op2::SatAdd => nearest(elem, x + y),
        Op2::SatSub => nearest(elem, x - y),
    }
}

/// The number of the type's range that is nearest to `n`.
#[inline]
fn nearest(elem: Elem, n: i64) -> i64
    ensures { result ≡ nearest elem n }
{
    n.max(elem.least()).min(elem.end() - 1)
}

/// The amount of a shift modulo the type's width, from 0 on for a negative amount too.
#[inline]
fn amount(elem: Elem, y: i64) -> u32
    ensures value { result ≡ amount_of elem y }
    ensures within { result < 32 }
{
    let low = low_bits(y);
    match elem {
        Elem::U8 | Elem::I8 => low % 8,
        Elem::U16 | Elem::I16 => low % 16,
        Elem::U32 | Elem::I32 => low % 32,
    }
}
