//! The vector instruction of a step (docs/COMPILER.md, "Instructions of a tile").
ghost use Rattle.std.specs.Prelude.{◌≡◌, ◌<◌, ◌≤◌, ◌*◌, ◌^◌, [], ◌∷◌, length, slice_index_or, All};
ghost use Rattle.ven_base.specs.Extent.{element_limit};
ghost use Rattle.pass_plan.specs.declared.tree.TreeOp.TheVariants as tree_op;
ghost use Rattle.buffer_lifetimes.specs.Step.{step_of};
ghost use Rattle.buffer_lifetimes.specs.Order.{no_operand};
ghost use Rattle.vector_codegen.specs.Work as spec;
ghost use Rattle.vector_codegen.specs.Fit.{buffer_count, IsFitting, FitsSource, IsArgOf, IsStepOf};

use crate::buffers::{Buffers, Shape, Source};
use crate::vector_kind::{abs_kind, cast_kind, conditional_kind, is_turned, two_kind};
use buffer_lifetimes::{EvalStep, Operand};
use dma_segments::move_kind;
use pass_plan::TreeOp;
use ven_base::{Elem, Op1, Op2};
use venice_isa::{VecKind, VecWork};

/// In the place of a B that isn't used.
const NOTHING: Source = Source::Scalar(0);

/// An instruction over all elements of a shape.
pub fn work_of(shape: Shape, kind: VecKind, to: u32, a: Source, b: Source) -> VecWork
    requires few { shape.cols ≤ element_limit }
    requires to { to * shape.room < 2 ^ 32 }
    requires a { FitsSource shape.room a }
    requires b { FitsSource shape.room b }
    ensures { result ≡ spec.work_of shape kind to a b }
{
    let row = shape.cols * kind.elem.size();
    VecWork {
        kind,
        vl: shape.cols,
        rows: shape.rows,
        dst: to * shape.room,
        a: a.parameter(shape.room),
        b: b.parameter(shape.room),
        dst_step: if kind.acc { kind.elem.size() } else { row },
        a_step: shape.cols * kind.from.size(),
        b_step: row,
    }
}

/// An operation on A and B.
fn two_work(shape: Shape, acc: bool, op: Op2, elem: Elem, to: u32, a: Source, b: Source) -> VecWork
    requires few { shape.cols ≤ element_limit }
    requires to { to * shape.room < 2 ^ 32 }
    requires a { FitsSource shape.room a }
    requires b { FitsSource shape.room b }
    ensures { result ≡ spec.two_work shape acc op elem to a b }
{
    let kind = two_kind(op, elem, a.is_scalar(), b.is_scalar(), acc);
    work_of(shape, kind, to, a, b)
}

/// The instruction of an operation on two; for `>` and `>=` its operands are turned.
fn step_on_two(
    shape: Shape,
    acc: bool,
    op: Op2,
    elem: Elem,
    to: u32,
    a: Source,
    b: Source,
) -> VecWork
    requires few { shape.cols ≤ element_limit }
    requires to { to * shape.room < 2 ^ 32 }
    requires a { FitsSource shape.room a }
    requires b { FitsSource shape.room b }
    ensures { result ≡ spec.op_work shape acc (tree_op.Two op) elem elem (a ∷ b ∷ []) to }
{
    if is_turned(op) {
        two_work(shape, acc, op, elem, to, b, a)
    } else {
        two_work(shape, acc, op, elem, to, a, b)
    }
}

/// The instruction of an operation on one: negation is 0 less the operand, and the complement -1 less it.
fn step_on_one(shape: Shape, acc: bool, op: Op1, elem: Elem, to: u32, a: Source) -> VecWork
    requires few { shape.cols ≤ element_limit }
    requires to { to * shape.room < 2 ^ 32 }
    requires a { FitsSource shape.room a }
    ensures { result ≡ spec.op_work shape acc (tree_op.One op) elem elem (a ∷ []) to }
{
    match op {
        Op1::Neg => two_work(shape, acc, Op2::Sub, elem, to, Source::Scalar(0), a),
        Op1::Not => two_work(shape, acc, Op2::Sub, elem, to, Source::Scalar(-1), a),
        Op1::Abs => work_of(shape, abs_kind(elem, a.is_scalar(), acc), to, a, NOTHING),
    }
}

#[tactic(auto, using(crate::proofs::StepCode::source_fits))]
/// Where the values of the argument at a place are.
fn source_at(shape: Shape, b: Buffers, args: &[Operand], place: usize) -> Source
    requires fits { IsFitting shape b }
    requires args { All (IsArgOf b) args.now }
    requires within { place < length args.now }
    ensures value { result ≡ spec.source_of b (slice_index_or args.now place no_operand) }
    ensures fits { FitsSource shape.room result }
{
    b.source_of(args[place])
}

/// A step's instruction, with its results in the buffer `to`; with `acc` each row's results are added into one element.
pub fn step_work(shape: Shape, b: Buffers, acc: bool, step: &EvalStep, to: u32) -> VecWork
    requires fits { IsFitting shape b }
    requires step { IsStepOf b (step_of step.now) }
    requires to { to < buffer_count b }
    ensures { result ≡ spec.step_work shape b acc (step_of step.now) to }
{
    let args = step.args.as_slice();
    let elem = step.elem;
    match step.op {
        TreeOp::One(op) => {
            let a = source_at(shape, b, args, 0);
            step_on_one(shape, acc, op, elem, to, a)
        }
        TreeOp::Two(op) => {
            let left = source_at(shape, b, args, 0);
            let right = source_at(shape, b, args, 1);
            step_on_two(shape, acc, op, elem, to, left, right)
        }
        TreeOp::Cast => {
            let a = source_at(shape, b, args, 0);
            let kind = cast_kind(elem, step.from, a.is_scalar(), acc);
            work_of(shape, kind, to, a, NOTHING)
        }
        TreeOp::Move => {
            let a = source_at(shape, b, args, 0);
            work_of(shape, move_kind(elem, a.is_scalar(), acc), to, a, NOTHING)
        }
        TreeOp::Select => {
            let condition = source_at(shape, b, args, 0);
            let a = source_at(shape, b, args, 1);
            work_of(
                shape,
                conditional_kind(elem, a.is_scalar()),
                to,
                a,
                condition,
            )
        }
    }
}
