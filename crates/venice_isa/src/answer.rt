//! What the operations of the lanes answer on elements.
ghost use Rattle.std.specs.Prelude.{◌≡◌, ◌≢◌};
ghost use Rattle.ven_base.specs.Elem.{IsElement};
ghost use Rattle.venice_isa.specs.Answer.{answer_of, result_of};
ghost use Rattle.venice_isa.specs.Whole.{flag_for};
ghost use Rattle.venice_isa.specs.declared.op.VecOp.TheVariants.{Cast};

use crate::kind::VecKind;
use crate::op::VecOp;
use ven_base::{Elem, Op1, Op2, apply1, apply2, wrap};

/// The instruction's answer at `a`, a number of A's type, and `b`, a number of the results' type, by the rule of its
/// operation (docs/MACHINE.md, "Operations"): a number of the results' type. `b` has no say in `Mov`, `Cast`, `Abs` and
/// `Cmov`. A conditional move answers what it would write.
pub fn result_of(kind: VecKind, a: i64, b: i64) -> i64
    requires a_in_type { IsElement kind.from a }
    requires b_in_type { IsElement kind.elem b }
    ensures value { result ≡ result_of kind a b }
    ensures in_type { IsElement kind.elem result }
{
    answer_of(kind.op, kind.elem, a, b)
}

/// Whether the flags of an element are set with this result, without accumulate: those of a comparison that answers 1
/// (docs/MACHINE.md, "Flags").
#[inline]
pub fn sets_flag(kind: VecKind, result_value: i64) -> bool
    ensures { result ≡ flag_for kind result_value }
{
    kind.op.is_comparison() && result_value == 1
}

/// The operation's answer at `a` and `b`, two numbers of the type `elem`, which of a cast `a` need not be. Where the
/// operation and the type are known when it is compiled, nothing is left of the choice between them.
#[inline]
pub fn answer_of(op: VecOp, elem: Elem, a: i64, b: i64) -> i64
    requires a_in_type { op ≢ Cast → IsElement elem a }
    requires b_in_type { IsElement elem b }
    ensures { result ≡ answer_of op elem a b }
{
    match op {
        VecOp::Mov | VecOp::Cmov => a,
        VecOp::Cast => wrap(elem, i128::from(a)),
        VecOp::Abs => apply1(Op1::Abs, elem, a),
        VecOp::Add => apply2(Op2::Add, elem, a, b),
        VecOp::Sub => apply2(Op2::Sub, elem, a, b),
        VecOp::Mul => apply2(Op2::Mul, elem, a, b),
        VecOp::And => apply2(Op2::And, elem, a, b),
        VecOp::Or => apply2(Op2::Or, elem, a, b),
        VecOp::Xor => apply2(Op2::Xor, elem, a, b),
        VecOp::Shl => apply2(Op2::Shl, elem, a, b),
        VecOp::Shr => apply2(Op2::Shr, elem, a, b),
        VecOp::Min => apply2(Op2::Min, elem, a, b),
        VecOp::Max => apply2(Op2::Max, elem, a, b),
        VecOp::Eq => apply2(Op2::Eq, elem, a, b),
        VecOp::Ne => apply2(Op2::Ne, elem, a, b),
        VecOp::Lt => apply2(Op2::Lt, elem, a, b),
        VecOp::Le => apply2(Op2::Le, elem, a, b),
        VecOp::Sadd => apply2(Op2::SatAdd, elem, a, b),
        VecOp::Ssub => apply2(Op2::SatSub, elem, a, b),
    }
}
