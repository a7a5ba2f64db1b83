//! The vector instruction of a step, by expressions (`specs/StepProgram`).
ghost use Rattle.std.specs.Prelude.{◌≡◌, ◌+◌, ◌/◌, ◌<◌, ◌≤◌, if◌then◌else◌, [], ◌∷◌, IfOk, length, slice_index_or, All};
ghost use Rattle.ven_base.specs.Elem.{size_of};
ghost use Rattle.pass_plan.specs.declared.tree.TreeOp.TheVariants as tree_op;
ghost use Rattle.buffer_lifetimes.specs.Step.{step_of};
ghost use Rattle.buffer_lifetimes.specs.Order.{no_operand};
ghost use Rattle.vector_codegen.specs.Work as works;
ghost use Rattle.host_programs.specs.Expr as plain;
ghost use Rattle.host_programs.specs.Shown.{expr_of, vector_of, program_of};
ghost use Rattle.transfer_builder.specs.Shown.{small_of};
ghost use Rattle.host_codegen.specs.StepProgram as spec;
ghost use Rattle.host_codegen.specs.Shown.{layout_at, rows_at, source_at, order_at};
ghost use Rattle.host_codegen.specs.Fit.{IsFitting, IsArgAt, IsStepAt};

use crate::geometry::Layout;
use buffer_lifetimes::{EvalStep, Operand};
use host_programs::{Expr, Program, VectorOrder};
use pass_plan::TreeOp;
use std::alloc::{AllocError, Global};
use transfer_builder::SmallExpr;
use vector_codegen::{
    abs_kind, cast_kind, conditional_kind, is_turned, move_kind, two_kind, word_of,
};
use ven_base::{Elem, Op1, Op2};
use venice_isa::VecKind;

/// Rows of so many elements: register `cols` has how many, and the next two twice and four times as many.
#[derive(Clone, Copy)]
pub struct RowsExpr {
    pub rows: SmallExpr,
    pub cols: u8,
}

/// Where an operand's values are.
#[derive(Clone, Copy)]
pub enum SourceExpr {
    /// In the buffer with this first cell.
    Buffer(SmallExpr),
    /// They are this number.
    Scalar(i64),
}

/// In the place of a B that isn't used.
const NOTHING: SourceExpr = SourceExpr::Scalar(0);

/// The program with names, from register `d` on, for how many elements a row has, and for two and four times as many.
pub fn with_row(alloc: Global, cols: Expr, d: u8, p: Program) -> Result<Program, AllocError>
    requires low { d + 1 ≤ 255 }
    ensures { IfOk result (λ r. program_of r ≡ spec.with_row (expr_of cols) d (program_of p)) }
{
    let next = d + 1;
    let four = Expr::sum(alloc, Expr::Variable(next), Expr::Variable(next))?;
    let two = Expr::sum(alloc, Expr::Variable(d), Expr::Variable(d))?;
    let named = Program::with(alloc, two, Program::with(alloc, four, p)?)?;
    Program::with(alloc, cols, named)
}

/// Half the size of an element, rounded down.
fn half_size(elem: Elem) -> u8
    ensures half { result ≡ size_of elem / 2 }
    ensures few { result ≤ 2 }
{
    match elem {
        Elem::U8 | Elem::I8 => 0,
        Elem::U16 | Elem::I16 => 1,
        Elem::U32 | Elem::I32 => 2,
    }
}

/// The bytes of a row.
pub fn row_bytes(shape: RowsExpr, elem: Elem) -> SmallExpr
    requires low { shape.cols + 2 ≤ 255 }
    ensures { small_of result ≡ spec.row_bytes (rows_at shape) elem }
{
    SmallExpr::Variable(shape.cols + half_size(elem))
}

impl SourceExpr {
    ghost use Rattle.std.specs.Prelude.{◌≡◌};
    ghost use Rattle.transfer_builder.specs.Shown.{small_of};
    ghost use Rattle.host_codegen.specs.StepProgram as spec;
    ghost use Rattle.host_codegen.specs.Shown.{source_at};

    /// Whether the values are one number.
    fn is_scalar(self) -> bool
        ensures { result ≡ spec.is_scalar (source_at self) }
    {
        matches!(self, SourceExpr::Scalar(_))
    }

    /// The parameter of an instruction that says where the values are.
    fn parameter(self) -> SmallExpr
        ensures { small_of result ≡ spec.parameter_expr (source_at self) }
    {
        match self {
            SourceExpr::Buffer(cell) => cell,
            SourceExpr::Scalar(n) => SmallExpr::Number(word_of(n)),
        }
    }
}

/// The step between the results of rows: with accumulate, each row has one.
fn result_step(shape: RowsExpr, kind: VecKind) -> SmallExpr
    requires low { shape.cols + 2 ≤ 255 }
    ensures { small_of result ≡ (if kind.acc then plain.Number (size_of kind.elem)
        else spec.row_bytes (rows_at shape) kind.elem) }
{
    if kind.acc {
        SmallExpr::Number(kind.elem.size())
    } else {
        row_bytes(shape, kind.elem)
    }
}

/// An instruction of which each number takes one register at most.
#[derive(Clone, Copy)]
pub struct SmallOrder {
    pub kind: VecKind,
    pub vl: SmallExpr,
    pub rows: SmallExpr,
    pub dst: SmallExpr,
    pub a: SmallExpr,
    pub b: SmallExpr,
    pub dst_step: SmallExpr,
    pub a_step: SmallExpr,
    pub b_step: SmallExpr,
}

/// A number for the results, one for A and one for B: their first cells, or how far their rows stand apart.
#[derive(Drop)]
pub struct Places {
    pub dst: Expr,
    pub a: Expr,
    pub b: Expr,
}

/// These three.
pub fn places_of(
    alloc: Global,
    dst: SmallExpr,
    a: SmallExpr,
    b: SmallExpr,
) -> Result<Places, AllocError>
    ensures dst { IfOk result (λ r. expr_of r.dst ≡ small_of dst) }
    ensures a { IfOk result (λ r. expr_of r.a ≡ small_of a) }
    ensures b { IfOk result (λ r. expr_of r.b ≡ small_of b) }
{
    let dst = dst.expr(alloc)?;
    let a = a.expr(alloc)?;
    let b = b.expr(alloc)?;
    Ok(Places { dst, a, b })
}

/// The instruction by expressions.
pub fn order_of(alloc: Global, small: SmallOrder) -> Result<VectorOrder, AllocError>
    ensures { IfOk result (λ o. vector_of o ≡ order_at small) }
{
    let cells = places_of(alloc, small.dst, small.a, small.b)?;
    let steps = places_of(alloc, small.dst_step, small.a_step, small.b_step)?;
    let vl = small.vl.expr(alloc)?;
    let rows = small.rows.expr(alloc)?;
    Ok(VectorOrder {
        kind: small.kind,
        vl,
        rows,
        dst: cells.dst,
        a: cells.a,
        b: cells.b,
        dst_step: steps.dst,
        a_step: steps.a,
        b_step: steps.b,
    })
}

/// An instruction over all elements of the rows.
pub fn order_with(
    alloc: Global,
    shape: RowsExpr,
    kind: VecKind,
    to: SmallExpr,
    a: SourceExpr,
    b: SourceExpr,
) -> Result<VectorOrder, AllocError>
    requires low { shape.cols + 2 ≤ 255 }
    ensures { IfOk result (λ o. vector_of o
        ≡ spec.order_with (rows_at shape) kind (small_of to) (source_at a) (source_at b)) }
{
    let small = SmallOrder {
        kind,
        vl: SmallExpr::Variable(shape.cols),
        rows: shape.rows,
        dst: to,
        a: a.parameter(),
        b: b.parameter(),
        dst_step: result_step(shape, kind),
        a_step: row_bytes(shape, kind.from),
        b_step: row_bytes(shape, kind.elem),
    };
    order_of(alloc, small)
}

/// An operation on A and B.
#[derive(Clone, Copy)]
struct Operation {
    op: Op2,
    elem: Elem,
    acc: bool,
}

/// Its instruction.
fn two_order(
    alloc: Global,
    shape: RowsExpr,
    what: Operation,
    to: SmallExpr,
    a: SourceExpr,
    b: SourceExpr,
) -> Result<VectorOrder, AllocError>
    requires low { shape.cols + 2 ≤ 255 }
    ensures { IfOk result (λ o. vector_of o
        ≡ spec.two_order (rows_at shape) what.acc what.op what.elem (small_of to) (source_at a) (source_at b)) }
{
    let kind = two_kind(what.op, what.elem, a.is_scalar(), b.is_scalar(), what.acc);
    order_with(alloc, shape, kind, to, a, b)
}

/// The instruction of an operation on two; for `>` and `>=` its operands are turned.
fn order_on_two(
    alloc: Global,
    shape: RowsExpr,
    what: Operation,
    to: SmallExpr,
    a: SourceExpr,
    b: SourceExpr,
) -> Result<VectorOrder, AllocError>
    requires low { shape.cols + 2 ≤ 255 }
    ensures { IfOk result (λ o. vector_of o ≡ spec.op_order (rows_at shape) what.acc (tree_op.Two what.op) what.elem
        what.elem (source_at a ∷ source_at b ∷ []) (small_of to)) }
{
    if is_turned(what.op) {
        two_order(alloc, shape, what, to, b, a)
    } else {
        two_order(alloc, shape, what, to, a, b)
    }
}

/// The instruction of an operation on one: negation is 0 less the operand, and the complement -1 less it.
fn order_on_one(
    alloc: Global,
    shape: RowsExpr,
    op: Op1,
    elem: Elem,
    acc: bool,
    to: SmallExpr,
    a: SourceExpr,
) -> Result<VectorOrder, AllocError>
    requires low { shape.cols + 2 ≤ 255 }
    ensures { IfOk result (λ o. vector_of o ≡ spec.op_order (rows_at shape) acc (tree_op.One op) elem elem
        (source_at a ∷ []) (small_of to)) }
{
    let less = Operation {
        op: Op2::Sub,
        elem,
        acc,
    };
    match op {
        Op1::Neg => two_order(alloc, shape, less, to, SourceExpr::Scalar(0), a),
        Op1::Not => two_order(alloc, shape, less, to, SourceExpr::Scalar(-1), a),
        Op1::Abs => {
            let kind = abs_kind(elem, a.is_scalar(), acc);
            order_with(alloc, shape, kind, to, a, NOTHING)
        }
    }
}

/// Where an argument's values are; register `half` has how far the leaves' half is from half 0.
fn source_expr(layout: Layout, half: u8, arg: Operand) -> SourceExpr
    requires fits { IsFitting layout }
    requires arg { IsArgAt layout arg }
    ensures { source_at result ≡ spec.source_expr (layout_at layout) half arg }
{
    match arg {
        Operand::Leaf(number) => SourceExpr::Buffer(layout.leaf_expr(half, number)),
        Operand::Literal(n) => SourceExpr::Scalar(n),
        Operand::Slot(slot) => SourceExpr::Buffer(SmallExpr::Number(layout.slot_cell(slot))),
    }
}

/// Where the values of the argument at a place are.
fn argument(layout: Layout, half: u8, args: &[Operand], place: usize) -> SourceExpr
    requires fits { IsFitting layout }
    requires args { All (IsArgAt layout) args.now }
    requires within { place < length args.now }
    ensures { source_at result ≡ spec.source_expr (layout_at layout) half (slice_index_or args.now place no_operand) }
{
    source_expr(layout, half, args[place])
}

/// A step's instruction, with its results from `to` on; with `acc` each row's results are added into one element.
pub fn step_order(
    alloc: Global,
    layout: Layout,
    half: u8,
    shape: RowsExpr,
    acc: bool,
    step: &EvalStep,
    to: SmallExpr,
) -> Result<VectorOrder, AllocError>
    requires fits { IsFitting layout }
    requires step { IsStepAt layout (step_of step.now) }
    requires low { shape.cols + 2 ≤ 255 }
    ensures { IfOk result (λ o. vector_of o
        ≡ spec.step_order (layout_at layout) half (rows_at shape) acc (step_of step.now) (small_of to)) }
{
    let args = step.args.as_slice();
    let elem = step.elem;
    match step.op {
        TreeOp::One(op) => {
            let a = argument(layout, half, args, 0);
            order_on_one(alloc, shape, op, elem, acc, to, a)
        }
        TreeOp::Two(op) => {
            let left = argument(layout, half, args, 0);
            let right = argument(layout, half, args, 1);
            order_on_two(alloc, shape, Operation { op, elem, acc }, to, left, right)
        }
        TreeOp::Cast => {
            let a = argument(layout, half, args, 0);
            let kind = cast_kind(elem, step.from, a.is_scalar(), acc);
            order_with(alloc, shape, kind, to, a, NOTHING)
        }
        TreeOp::Move => {
            let a = argument(layout, half, args, 0);
            order_with(
                alloc,
                shape,
                move_kind(elem, a.is_scalar(), acc),
                to,
                a,
                NOTHING,
            )
        }
        TreeOp::Select => {
            let condition = argument(layout, half, args, 0);
            let a = argument(layout, half, args, 1);
            order_with(
                alloc,
                shape,
                conditional_kind(elem, a.is_scalar()),
                to,
                a,
                condition,
            )
        }
    }
}
