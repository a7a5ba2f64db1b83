//! Operations and casts on whole arrays, by a loop for each operation and type.

ghost use Rattle.std.specs.Prelude.{◌≡◌, IfOk};
ghost use Rattle.array_meaning.specs.Sources.{AreThere, AreElements, HaveElements, results1, results2, casts, choices};

use crate::fill::filled;
use crate::nodes::{Cast, One, Select, Two};
use crate::operand::View;
use std::alloc::{AllocError, Global};
use ven_base::{Elem, KnownElem, Op1, Op2, TypeI8, TypeI16, TypeI32, TypeU8, TypeU16, TypeU32};

/// The results of an operation on numbers of the type, at so many places.
pub(crate) fn one(
    alloc: Global,
    op: Op1,
    elem: Elem,
    count: usize,
    a: View,
) -> Result<Vec<i64>, AllocError>
    requires { AreElements elem count a }
    ensures { IfOk result (λ v. v.items ≡ results1 op elem count a.entry) }
{
    match elem {
        Elem::U8 => one_of::<TypeU8>(alloc, op, count, a),
        Elem::I8 => one_of::<TypeI8>(alloc, op, count, a),
        Elem::U16 => one_of::<TypeU16>(alloc, op, count, a),
        Elem::I16 => one_of::<TypeI16>(alloc, op, count, a),
        Elem::U32 => one_of::<TypeU32>(alloc, op, count, a),
        Elem::I32 => one_of::<TypeI32>(alloc, op, count, a),
    }
}

/// The same of one type. The operation is written out in each arm, so that its loop is compiled for it.
#[inline(never)]
fn one_of<E: KnownElem>(
    alloc: Global,
    op: Op1,
    count: usize,
    a: View,
) -> Result<Vec<i64>, AllocError>
    requires { AreElements E.ELEM count a }
    ensures { IfOk result (λ v. v.items ≡ results1 op E.ELEM count a.entry) }
{
    match op {
        Op1::Neg => one_by::<E>(alloc, Op1::Neg, count, a),
        Op1::Not => one_by::<E>(alloc, Op1::Not, count, a),
        Op1::Abs => one_by::<E>(alloc, Op1::Abs, count, a),
    }
}

#[inline(always)]
fn one_by<E: KnownElem>(
    alloc: Global,
    op: Op1,
    count: usize,
    a: View,
) -> Result<Vec<i64>, AllocError>
    requires { AreElements E.ELEM count a }
    ensures { IfOk result (λ v. v.items ≡ results1 op E.ELEM count a.entry) }
{
    filled(
        alloc,
        count,
        &One {
            op,
            elem: E::ELEM,
            a,
        },
    )
}

/// The results of an operation on two numbers of the type, at so many places.
pub(crate) fn two(
    alloc: Global,
    op: Op2,
    elem: Elem,
    count: usize,
    a: View,
    b: View,
) -> Result<Vec<i64>, AllocError>
    requires { HaveElements elem count a b }
    ensures { IfOk result (λ v. v.items ≡ results2 op elem count a.entry b.entry) }
{
    match elem {
        Elem::U8 => two_of::<TypeU8>(alloc, op, count, a, b),
        Elem::I8 => two_of::<TypeI8>(alloc, op, count, a, b),
        Elem::U16 => two_of::<TypeU16>(alloc, op, count, a, b),
        Elem::I16 => two_of::<TypeI16>(alloc, op, count, a, b),
        Elem::U32 => two_of::<TypeU32>(alloc, op, count, a, b),
        Elem::I32 => two_of::<TypeI32>(alloc, op, count, a, b),
    }
}

/// The same of one type.
#[inline(never)]
fn two_of<E: KnownElem>(
    alloc: Global,
    op: Op2,
    count: usize,
    a: View,
    b: View,
) -> Result<Vec<i64>, AllocError>
    requires { HaveElements E.ELEM count a b }
    ensures { IfOk result (λ v. v.items ≡ results2 op E.ELEM count a.entry b.entry) }
{
    match op {
        Op2::Add => two_by::<E>(alloc, Op2::Add, count, a, b),
        Op2::Sub => two_by::<E>(alloc, Op2::Sub, count, a, b),
        Op2::Mul => two_by::<E>(alloc, Op2::Mul, count, a, b),
        Op2::And => two_by::<E>(alloc, Op2::And, count, a, b),
        Op2::Or => two_by::<E>(alloc, Op2::Or, count, a, b),
        Op2::Xor => two_by::<E>(alloc, Op2::Xor, count, a, b),
        Op2::Shl => two_by::<E>(alloc, Op2::Shl, count, a, b),
        Op2::Shr => two_by::<E>(alloc, Op2::Shr, count, a, b),
        Op2::Min => two_by::<E>(alloc, Op2::Min, count, a, b),
        Op2::Max => two_by::<E>(alloc, Op2::Max, count, a, b),
        Op2::Eq => two_by::<E>(alloc, Op2::Eq, count, a, b),
        Op2::Ne => two_by::<E>(alloc, Op2::Ne, count, a, b),
        Op2::Lt => two_by::<E>(alloc, Op2::Lt, count, a, b),
        Op2::Le => two_by::<E>(alloc, Op2::Le, count, a, b),
        Op2::Gt => two_by::<E>(alloc, Op2::Gt, count, a, b),
        Op2::Ge => two_by::<E>(alloc, Op2::Ge, count, a, b),
        Op2::SatAdd => two_by::<E>(alloc, Op2::SatAdd, count, a, b),
        Op2::SatSub => two_by::<E>(alloc, Op2::SatSub, count, a, b),
    }
}

#[inline(always)]
fn two_by<E: KnownElem>(
    alloc: Global,
    op: Op2,
    count: usize,
    a: View,
    b: View,
) -> Result<Vec<i64>, AllocError>
    requires { HaveElements E.ELEM count a b }
    ensures { IfOk result (λ v. v.items ≡ results2 op E.ELEM count a.entry b.entry) }
{
    filled(
        alloc,
        count,
        &Two {
            op,
            elem: E::ELEM,
            a,
            b,
        },
    )
}

/// The numbers at so many places, wrapped into the type.
pub(crate) fn cast(alloc: Global, elem: Elem, count: usize, a: View) -> Result<Vec<i64>, AllocError>
    requires { AreThere count a }
    ensures { IfOk result (λ v. v.items ≡ casts elem count a.entry) }
{
    match elem {
        Elem::U8 => cast_to::<TypeU8>(alloc, count, a),
        Elem::I8 => cast_to::<TypeI8>(alloc, count, a),
        Elem::U16 => cast_to::<TypeU16>(alloc, count, a),
        Elem::I16 => cast_to::<TypeI16>(alloc, count, a),
        Elem::U32 => cast_to::<TypeU32>(alloc, count, a),
        Elem::I32 => cast_to::<TypeI32>(alloc, count, a),
    }
}

/// The same of one type.
fn cast_to<E: KnownElem>(alloc: Global, count: usize, a: View) -> Result<Vec<i64>, AllocError>
    requires { AreThere count a }
    ensures { IfOk result (λ v. v.items ≡ casts E.ELEM count a.entry) }
{
    filled(alloc, count, &Cast { elem: E::ELEM, a })
}

/// The number of `x` where that of the condition isn't 0, else that of `y`, at so many places.
pub(crate) fn select(
    alloc: Global,
    count: usize,
    condition: View,
    x: View,
    y: View,
) -> Result<Vec<i64>, AllocError>
    requires condition { AreThere count condition }
    requires x { AreThere count x }
    requires y { AreThere count y }
    ensures { IfOk result (λ v. v.items ≡ choices count condition.entry x.entry y.entry) }
{
    filled(alloc, count, &Select { condition, x, y })
}
