//! The vector instructions that operations become (docs/COMPILER.md, "Instructions of a tile").
ghost use Rattle.std.specs.Prelude.{◌≡◌};
ghost use Rattle.vector_codegen.specs.Kind as spec;

use ven_base::{Elem, Op2};
use venice_isa::{VecKind, VecOp};

/// The instruction of an operation on two; that of `>` and `>=` takes its operands turned.
fn vec_of(op: Op2) -> VecOp
    ensures { result ≡ spec.vec_of op }
{
    match op {
        Op2::Add => VecOp::Add,
        Op2::Sub => VecOp::Sub,
        Op2::Mul => VecOp::Mul,
        Op2::And => VecOp::And,
        Op2::Or => VecOp::Or,
        Op2::Xor => VecOp::Xor,
        Op2::Shl => VecOp::Shl,
        Op2::Shr => VecOp::Shr,
        Op2::Min => VecOp::Min,
        Op2::Max => VecOp::Max,
        Op2::Eq => VecOp::Eq,
        Op2::Ne => VecOp::Ne,
        Op2::Lt | Op2::Gt => VecOp::Lt,
        Op2::Le | Op2::Ge => VecOp::Le,
        Op2::SatAdd => VecOp::Sadd,
        Op2::SatSub => VecOp::Ssub,
    }
}

/// Whether the operands are turned.
pub fn is_turned(op: Op2) -> bool
    ensures { result ≡ spec.is_turned op }
{
    matches!(op, Op2::Gt | Op2::Ge)
}

/// An operation on A and B.
pub fn two_kind(op: Op2, elem: Elem, a_scalar: bool, b_scalar: bool, acc: bool) -> VecKind
    ensures { result ≡ spec.two_kind op elem a_scalar b_scalar acc }
{
    VecKind {
        op: vec_of(op),
        elem,
        from: elem,
        a_scalar,
        b_scalar,
        acc,
    }
}

/// The magnitude of A.
pub fn abs_kind(elem: Elem, a_scalar: bool, acc: bool) -> VecKind
    ensures { result ≡ spec.abs_kind elem a_scalar acc }
{
    VecKind {
        op: VecOp::Abs,
        elem,
        from: elem,
        a_scalar,
        b_scalar: false,
        acc,
    }
}

/// A, which has the type `from`, wrapped into the type `elem`.
pub fn cast_kind(elem: Elem, from: Elem, a_scalar: bool, acc: bool) -> VecKind
    ensures { result ≡ spec.cast_kind elem from a_scalar acc }
{
    VecKind {
        op: VecOp::Cast,
        elem,
        from,
        a_scalar,
        b_scalar: false,
        acc,
    }
}

/// A move of A where the flags of B are set.
pub fn conditional_kind(elem: Elem, a_scalar: bool) -> VecKind
    ensures { result ≡ spec.conditional_kind elem a_scalar }
{
    VecKind {
        op: VecOp::Cmov,
        elem,
        from: elem,
        a_scalar,
        b_scalar: false,
        acc: false,
    }
}
