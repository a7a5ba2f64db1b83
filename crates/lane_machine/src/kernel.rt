//! The answers of an operation at the elements of a group, by a loop for each operation and type.
ghost use Rattle.std.specs.Prelude.{◌≡◌, ◌≢◌, ◌/◌};
ghost use Rattle.venice_isa.specs.Answer.{answer_of};
ghost use Rattle.venice_isa.specs.declared.op.VecOp.TheVariants.{Cast};
ghost use Rattle.lane_machine.specs.Elements.{element_in, wider, HasSpelled};

use crate::element::{Bytes, MOST_BYTES, number, put_answer};
use ven_base::{Elem, KnownElem, TypeI8, TypeI16, TypeI32, TypeU8, TypeU16, TypeU32, bits_of};
use venice_isa::{VecKind, VecOp, answer_of};

/// Works out the answers of an instruction at as many elements as 16 bytes have, of which A and B
/// are the bytes.
pub(crate) fn answers(kind: VecKind, a: &Bytes, b: &Bytes, results: &mut Bytes)
    ensures { HasSpelled kind.elem (16 / wider kind.elem kind.from)
        (λ k. answer_of kind.op kind.elem (element_in kind.from a.now k) (element_in kind.elem b.now k)) results.new }
{
    let VecKind { op, elem, from, .. } = kind;
    match elem {
        Elem::U8 => answers_of::<TypeU8>(op, from, a, b, results),
        Elem::I8 => answers_of::<TypeI8>(op, from, a, b, results),
        Elem::U16 => answers_of::<TypeU16>(op, from, a, b, results),
        Elem::I16 => answers_of::<TypeI16>(op, from, a, b, results),
        Elem::U32 => answers_of::<TypeU32>(op, from, a, b, results),
        Elem::I32 => answers_of::<TypeI32>(op, from, a, b, results),
    }
}

/// The same of results of one type. It is no part of its caller, where the compiler would work out
/// ahead what several operations have in common.
#[inline(never)]
fn answers_of<E: KnownElem>(op: VecOp, from: Elem, a: &Bytes, b: &Bytes, results: &mut Bytes)
    requires one_type { op ≢ Cast → from ≡ E.ELEM }
    ensures { HasSpelled E.ELEM (16 / wider E.ELEM from)
        (λ k. answer_of op E.ELEM (element_in from a.now k) (element_in E.ELEM b.now k)) results.new }
{
    if op == VecOp::Cast {
        casts_to::<E>(from, a, b, results);
    } else {
        by_operation::<E>(op, a, b, results);
    }
}

/// Casts from each type. `b` has no say.
fn casts_to<E: KnownElem>(from: Elem, a: &Bytes, b: &Bytes, results: &mut Bytes)
    ensures { HasSpelled E.ELEM (16 / wider E.ELEM from)
        (λ k. answer_of Cast E.ELEM (element_in from a.now k) (element_in E.ELEM b.now k)) results.new }
{
    match from {
        Elem::U8 => each::<TypeU8, E>(VecOp::Cast, a, b, results),
        Elem::I8 => each::<TypeI8, E>(VecOp::Cast, a, b, results),
        Elem::U16 => each::<TypeU16, E>(VecOp::Cast, a, b, results),
        Elem::I16 => each::<TypeI16, E>(VecOp::Cast, a, b, results),
        Elem::U32 => each::<TypeU32, E>(VecOp::Cast, a, b, results),
        Elem::I32 => each::<TypeI32, E>(VecOp::Cast, a, b, results),
    }
}

/// Each operation within one type. The operation is written out in each arm, so that its loop is
/// compiled for it.
fn by_operation<E: KnownElem>(op: VecOp, a: &Bytes, b: &Bytes, results: &mut Bytes)
    ensures { HasSpelled E.ELEM (16 / wider E.ELEM E.ELEM)
        (λ k. answer_of op E.ELEM (element_in E.ELEM a.now k) (element_in E.ELEM b.now k)) results.new }
{
    match op {
        VecOp::Mov => each::<E, E>(VecOp::Mov, a, b, results),
        VecOp::Cast => each::<E, E>(VecOp::Cast, a, b, results),
        VecOp::Add => each::<E, E>(VecOp::Add, a, b, results),
        VecOp::Sub => each::<E, E>(VecOp::Sub, a, b, results),
        VecOp::Mul => each::<E, E>(VecOp::Mul, a, b, results),
        VecOp::And => each::<E, E>(VecOp::And, a, b, results),
        VecOp::Or => each::<E, E>(VecOp::Or, a, b, results),
        VecOp::Xor => each::<E, E>(VecOp::Xor, a, b, results),
        VecOp::Shl => each::<E, E>(VecOp::Shl, a, b, results),
        VecOp::Shr => each::<E, E>(VecOp::Shr, a, b, results),
        VecOp::Min => each::<E, E>(VecOp::Min, a, b, results),
        VecOp::Max => each::<E, E>(VecOp::Max, a, b, results),
        VecOp::Abs => each::<E, E>(VecOp::Abs, a, b, results),
        VecOp::Eq => each::<E, E>(VecOp::Eq, a, b, results),
        VecOp::Ne => each::<E, E>(VecOp::Ne, a, b, results),
        VecOp::Lt => each::<E, E>(VecOp::Lt, a, b, results),
        VecOp::Le => each::<E, E>(VecOp::Le, a, b, results),
        VecOp::Cmov => each::<E, E>(VecOp::Cmov, a, b, results),
        VecOp::Sadd => each::<E, E>(VecOp::Sadd, a, b, results),
        VecOp::Ssub => each::<E, E>(VecOp::Ssub, a, b, results),
    }
}

/// One operation at each element, from numbers of one type to numbers of another or the same. The
/// answers are the caller's once all are there: nothing of A and B can change before, as far as the
/// compiler sees, and it takes several elements at once.
#[inline(always)]
fn each<F: KnownElem, E: KnownElem>(op: VecOp, a: &Bytes, b: &Bytes, results: &mut Bytes)
    requires one_type { op ≢ Cast → F.ELEM ≡ E.ELEM }
    ensures { HasSpelled E.ELEM (16 / wider E.ELEM F.ELEM)
        (λ k. answer_of op E.ELEM (element_in F.ELEM a.now k) (element_in E.ELEM b.now k)) results.new }
{
    let (elem, from) = (E::ELEM, F::ELEM);
    let mut answers = [0; MOST_BYTES];
    for k in 0..16 / elem.size().max(from.size()) {
        let n = answer_of(op, elem, number(from, a, k), number(elem, b, k));
        put_answer(op, elem, &mut answers, k, bits_of(elem, n));
    }
    *results = answers;
}
