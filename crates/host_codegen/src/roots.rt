//! The vector instructions of a tile's root, by the kind of its pass, and those of all steps (`specs/RootProgram`).
ghost use Rattle.std.specs.Prelude.{◌≡◌, ◌+◌, ◌-◌, ◌*◌, ◌<◌, ◌≤◌, ◌^◌, true, false, IfOk, length, get_or, All};
ghost use Rattle.ven_base.specs.Elem.{size_of};
ghost use Rattle.pass_plan.specs.declared.pass.PassKind.TheVariants.{Reduce};
ghost use Rattle.buffer_lifetimes.specs.Step.{step_of, steps_of};
ghost use Rattle.vector_codegen.specs.Root as works;
ghost use Rattle.host_programs.specs.Expr as plain;
ghost use Rattle.host_programs.specs.Program as list;
ghost use Rattle.host_programs.specs.Shown.{expr_of, vector_of, program_of};
ghost use Rattle.transfer_programs.specs.Axis as axes;
ghost use Rattle.transfer_builder.specs.Shown.{small_of};
ghost use Rattle.host_codegen.specs.RootProgram as spec;
ghost use Rattle.host_codegen.specs.Shown.{layout_at, rows_at};
ghost use Rattle.host_codegen.specs.Fit.{IsFitting, IsStepAt};

use crate::geometry::{Layout, first_or_later};
use crate::sequence::{Numbered, each_of};
use crate::steps::{
    RowsExpr, SmallOrder, SourceExpr, order_of, order_with, places_of, row_bytes, step_order,
    with_row,
};
use buffer_lifetimes::EvalStep;
use host_programs::{Expr, Order, Program, VectorOrder};
use pass_plan::PassKind;
use std::alloc::{AllocError, Global};
use transfer_builder::{SmallExpr, scaled};
use vector_codegen::two_kind;
use ven_base::{Elem, Fold, Op2};

// ---- the registers of a tile's instructions

/// The tile's first column.
const COLUMN: u8 = 4;

/// How many rows it has.
const ROWS: u8 = 5;

/// How many columns it has.
const COLUMNS: u8 = 6;

/// How far the half of the leaves' buffers is from half 0.
const HALF_CELLS: u8 = 8;

/// The first cell of the output half.
const OUTPUT: SmallExpr = SmallExpr::Variable(10);

/// All elements as one row.
const ALL_ELEMENTS: RowsExpr = RowsExpr {
    rows: SmallExpr::Number(1),
    cols: 11,
};

/// The rows as they are.
const ALL_ROWS: RowsExpr = RowsExpr {
    rows: SmallExpr::Variable(5),
    cols: 14,
};

/// One element of each row, as a row.
const ONE_COLUMN: RowsExpr = RowsExpr {
    rows: SmallExpr::Number(1),
    cols: 17,
};

/// How many elements of a row are left while it is halved.
const LEFT: u8 = 18;

/// Half of them, rounded down.
const LOW: u8 = 19;

fn emit(order: VectorOrder) -> Program
    ensures { program_of result ≡ spec.emit (vector_of order) }
{
    Program::Emit(Order::IssueVector(order))
}

/// A step's instruction over all elements.
fn flat_program(
    alloc: Global,
    layout: Layout,
    step: &EvalStep,
    to: SmallExpr,
) -> Result<Program, AllocError>
    requires fits { IsFitting layout }
    requires step { IsStepAt layout (step_of step.now) }
    ensures { IfOk result (λ p. program_of p
        ≡ spec.flat_program (layout_at layout) (step_of step.now) (small_of to)) }
{
    let order = step_order(alloc, layout, HALF_CELLS, ALL_ELEMENTS, false, step, to)?;
    Ok(emit(order))
}

// ---- sums

/// A step's instruction over rows, with their sums.
fn row_sums_program(
    alloc: Global,
    layout: Layout,
    step: &EvalStep,
    to: SmallExpr,
) -> Result<Program, AllocError>
    requires fits { IsFitting layout }
    requires step { IsStepAt layout (step_of step.now) }
    ensures { IfOk result (λ p. program_of p
        ≡ spec.row_sums_program (layout_at layout) (step_of step.now) (small_of to)) }
{
    let order = step_order(alloc, layout, HALF_CELLS, ALL_ROWS, true, step, to)?;
    Ok(emit(order))
}

/// The partial sums of a later tile join the results so far.
fn joining_order(alloc: Global, layout: Layout, elem: Elem) -> Result<VectorOrder, AllocError>
    requires { IsFitting layout }
    ensures { IfOk result (λ o. vector_of o ≡ spec.joining_order (layout_at layout) elem) }
{
    let kind = two_kind(Op2::Add, elem, false, false, false);
    let sums = SourceExpr::Buffer(OUTPUT);
    let more = SourceExpr::Buffer(SmallExpr::Number(layout.partial_cell()));
    order_with(alloc, ONE_COLUMN, kind, OUTPUT, sums, more)
}

/// A later tile adds its sums to those before.
fn joined_sums_program(
    alloc: Global,
    layout: Layout,
    step: &EvalStep,
) -> Result<Program, AllocError>
    requires fits { IsFitting layout }
    requires step { IsStepAt layout (step_of step.now) }
    ensures { IfOk result (λ p. program_of p ≡ spec.joined_sums_program (layout_at layout) (step_of step.now)) }
{
    let partial = SmallExpr::Number(layout.partial_cell());
    let sums = row_sums_program(alloc, layout, step, partial)?;
    let joining = emit(joining_order(alloc, layout, step.elem)?);
    let joined = with_row(alloc, Expr::Variable(ROWS), ONE_COLUMN.cols, joining)?;
    Program::both(alloc, sums, joined)
}

/// A row's first tile sets its sums, a later one adds its own to them.
fn sum_program(alloc: Global, layout: Layout, step: &EvalStep) -> Result<Program, AllocError>
    requires fits { IsFitting layout }
    requires step { IsStepAt layout (step_of step.now) }
    ensures { IfOk result (λ p. program_of p ≡ spec.sum_program (layout_at layout) (step_of step.now)) }
{
    let first = row_sums_program(alloc, layout, step, OUTPUT)?;
    let later = joined_sums_program(alloc, layout, step)?;
    first_or_later(alloc, layout, COLUMN, first, later)
}

// ---- least and greatest values

/// The operation that takes the least of two, or the greatest.
fn better_of(least: bool) -> Op2
    ensures { result ≡ works.better_of least }
{
    if least { Op2::Min } else { Op2::Max }
}

/// The first cell of a row's last elements, as many as register 19 says, of a buffer that begins at this cell.
fn high_cell(alloc: Global, elem: Elem, cell: u32) -> Result<Expr, AllocError>
    ensures { IfOk result (λ e. expr_of e ≡ plain.Offset (axes.scaled
        (plain.Difference (plain.Variable 18) (plain.Variable 19)) (size_of elem)) cell) }
{
    let high = Expr::difference(alloc, Expr::Variable(LEFT), Expr::Variable(LOW))?;
    Expr::offset(alloc, scaled(alloc, high, elem.size())?, cell)
}

/// The first elements of each row, as many as register 19 says, meet the last ones.
fn halving_order(
    alloc: Global,
    layout: Layout,
    least: bool,
    elem: Elem,
    slot: u32,
) -> Result<VectorOrder, AllocError>
    requires fits { IsFitting layout }
    requires within { slot < layout.slots }
    ensures { IfOk result (λ o. vector_of o
        ≡ spec.halving_order (layout_at layout) least elem slot (plain.Difference (plain.Variable 18) (plain.Variable 19))) }
{
    let kind = two_kind(better_of(least), elem, false, false, false);
    let cell = layout.slot_cell(slot);
    let row = row_bytes(ALL_ROWS, elem);
    let steps = places_of(alloc, row, row, row)?;
    let b = high_cell(alloc, elem, cell)?;
    Ok(VectorOrder {
        kind,
        vl: Expr::Variable(LOW),
        rows: Expr::Variable(ROWS),
        dst: Expr::Number(cell),
        a: Expr::Number(cell),
        b,
        dst_step: steps.dst,
        a_step: steps.a,
        b_step: steps.b,
    })
}

/// How many halvings leave one of so many, or of fewer.
fn halving_turns(n: u32) -> u32
    requires { 1 ≤ n }
    ensures { result ≡ spec.halving_turns n }
{
    32 - (n - 1).leading_zeros()
}

/// A turn: where more than `left` elements are left, the first ones meet the last ones.
fn halving_turn(
    alloc: Global,
    layout: Layout,
    least: bool,
    elem: Elem,
    slot: u32,
    left: u32,
) -> Result<Program, AllocError>
    requires fits { IsFitting layout }
    requires within { slot < layout.slots }
    requires few { left ≤ 2 }
    ensures { IfOk result (λ p. program_of p ≡ list.UnlessLess (plain.Variable 18) (plain.Number (left + 1))
        (list.Let (plain.Quotient (plain.Variable 18) (plain.Number 2)) (spec.emit (spec.halving_order
        (layout_at layout) least elem slot (plain.Difference (plain.Variable 18) (plain.Variable 19)))))) }
{
    let halving = emit(halving_order(alloc, layout, least, elem, slot)?);
    let low = Expr::quotient(alloc, Expr::Variable(LEFT), Expr::Number(2))?;
    let named = Program::with(alloc, low, halving)?;
    Program::unless_less(alloc, Expr::Variable(LEFT), Expr::Number(left + 1), named)
}

/// How many elements are left after a turn.
fn next_left(alloc: Global) -> Result<Expr, AllocError>
    ensures { IfOk result (λ e. expr_of e
        ≡ plain.Difference (plain.Variable 18) (plain.Quotient (plain.Variable 18) (plain.Number 2))) }
{
    let half = Expr::quotient(alloc, Expr::Variable(LEFT), Expr::Number(2))?;
    Expr::difference(alloc, Expr::Variable(LEFT), half)
}

/// Rows are halved until at most `left` elements are left, 1 or 2.
fn halvings_program(
    alloc: Global,
    layout: Layout,
    least: bool,
    elem: Elem,
    slot: u32,
    left: u32,
) -> Result<Program, AllocError>
    requires fits { IsFitting layout }
    requires within { slot < layout.slots }
    requires few { left ≤ 2 }
    ensures { IfOk result (λ p. program_of p ≡ spec.halvings_program (layout_at layout) least elem slot left) }
{
    let turn = halving_turn(alloc, layout, least, elem, slot, left)?;
    let next = next_left(alloc)?;
    let turns = Expr::Number(halving_turns(layout.tile.w));
    Program::carrying(alloc, turns, Expr::Variable(COLUMNS), next, turn)
}

/// Of each row the first element meets the second, and the result is set; or it meets the result so far.
fn last_order(
    alloc: Global,
    layout: Layout,
    least: bool,
    elem: Elem,
    first: bool,
    slot: u32,
) -> Result<VectorOrder, AllocError>
    requires fits { IsFitting layout }
    requires within { slot < layout.slots }
    requires narrow { size_of elem ≤ layout.bytes }
    ensures { IfOk result (λ o. vector_of o ≡ spec.last_order (layout_at layout) least elem first slot) }
{
    let kind = two_kind(better_of(least), elem, false, false, false);
    let cell = layout.slot_cell(slot);
    let row = row_bytes(ALL_ROWS, elem);
    let (a, a_step) = if first {
        (SmallExpr::Number(cell + elem.size()), row)
    } else {
        (OUTPUT, SmallExpr::Number(elem.size()))
    };
    let small = SmallOrder {
        kind,
        vl: SmallExpr::Number(1),
        rows: ALL_ROWS.rows,
        dst: OUTPUT,
        a,
        b: SmallExpr::Number(cell),
        dst_step: SmallExpr::Number(elem.size()),
        a_step,
        b_step: row,
    };
    order_of(alloc, small)
}

/// The rows' values in a slot are halved: to two in a row's first tile, else to one.
fn halved_program(
    alloc: Global,
    layout: Layout,
    least: bool,
    first: bool,
    step: &EvalStep,
) -> Result<Program, AllocError>
    requires fits { IsFitting layout }
    requires step { IsStepAt layout (step_of step.now) }
    ensures { IfOk result (λ p. program_of p
        ≡ spec.halved_program (layout_at layout) least first (step_of step.now)) }
{
    let left = if first { 2 } else { 1 };
    let cell = SmallExpr::Number(layout.slot_cell(step.to));
    let values = flat_program(alloc, layout, step, cell)?;
    let halvings = halvings_program(alloc, layout, least, step.elem, step.to, left)?;
    let last = emit(last_order(alloc, layout, least, step.elem, first, step.to)?);
    Program::both(alloc, values, Program::both(alloc, halvings, last)?)
}

/// Rows of one element in a row's first tile are their own results.
fn first_best_program(
    alloc: Global,
    layout: Layout,
    least: bool,
    step: &EvalStep,
) -> Result<Program, AllocError>
    requires fits { IsFitting layout }
    requires step { IsStepAt layout (step_of step.now) }
    ensures { IfOk result (λ p. program_of p
        ≡ spec.first_best_program (layout_at layout) least (step_of step.now)) }
{
    let alone = flat_program(alloc, layout, step, OUTPUT)?;
    let halved = halved_program(alloc, layout, least, true, step)?;
    let one = Program::unless_less(alloc, Expr::Number(1), Expr::Variable(COLUMNS), alone)?;
    let more = Program::unless_less(alloc, Expr::Variable(COLUMNS), Expr::Number(2), halved)?;
    Program::both(alloc, one, more)
}

/// The least or greatest values of the rows.
fn best_program(
    alloc: Global,
    layout: Layout,
    least: bool,
    step: &EvalStep,
) -> Result<Program, AllocError>
    requires fits { IsFitting layout }
    requires step { IsStepAt layout (step_of step.now) }
    ensures { IfOk result (λ p. program_of p ≡ spec.best_program (layout_at layout) least (step_of step.now)) }
{
    let first = first_best_program(alloc, layout, least, step)?;
    let later = halved_program(alloc, layout, least, false, step)?;
    first_or_later(alloc, layout, COLUMN, first, later)
}

// ---- any root

/// The instructions of a reduction's root.
fn reduction_program(
    alloc: Global,
    fold: Fold,
    layout: Layout,
    step: &EvalStep,
) -> Result<Program, AllocError>
    requires fits { IsFitting layout }
    requires step { IsStepAt layout (step_of step.now) }
    ensures { IfOk result (λ p. program_of p
        ≡ spec.root_program (Reduce fold) (layout_at layout) (step_of step.now)) }
{
    let root = match fold {
        Fold::Sum => sum_program(alloc, layout, step)?,
        Fold::Min => best_program(alloc, layout, true, step)?,
        Fold::Max => best_program(alloc, layout, false, step)?,
    };
    with_row(alloc, Expr::Variable(COLUMNS), ALL_ROWS.cols, root)
}

/// The instructions of the last step, by the kind of the pass.
fn root_program(
    alloc: Global,
    kind: PassKind,
    layout: Layout,
    step: &EvalStep,
) -> Result<Program, AllocError>
    requires fits { IsFitting layout }
    requires step { IsStepAt layout (step_of step.now) }
    ensures { IfOk result (λ p. program_of p
        ≡ spec.root_program kind (layout_at layout) (step_of step.now)) }
{
    match kind {
        PassKind::Map => flat_program(alloc, layout, step, OUTPUT),
        PassKind::Reduce(fold) => reduction_program(alloc, fold, layout, step),
    }
}

/// The steps of a pass's order: the last one is the root's.
#[derive(Clone, Copy)]
struct Steps<'a> {
    kind: PassKind,
    layout: Layout,
    steps: &'a [EvalStep],
}

impl Numbered for Steps<'_> {
    ghost use Rattle.std.specs.Prelude.{length, get_or, All};
    ghost use Rattle.buffer_lifetimes.specs.Step.{step_of, steps_of};
    ghost use Rattle.host_programs.specs.Program as list;
    ghost use Rattle.host_codegen.specs.RootProgram as spec;
    ghost use Rattle.host_codegen.specs.Shown.{layout_at};
    ghost use Rattle.host_codegen.specs.Fit.{IsFitting, IsStepAt};

    ghost ready = { λ s. IsFitting s.layout × All (λ step. IsStepAt s.layout (step_of step)) s.steps.now };

    ghost count = { λ s. length s.steps.now };

    ghost made = { λ s n. get_or (spec.steps_programs s.kind (layout_at s.layout) (steps_of s.steps.now)) n list.Idle };

    fn program(&self, alloc: Global, number: u32) -> Result<Program, AllocError> {
        let step = &self.steps[number as usize];
        if number as usize + 1 == self.steps.len() {
            return root_program(alloc, self.kind, self.layout, step);
        }
        let cell = SmallExpr::Number(self.layout.slot_cell(step.to));
        flat_program(alloc, self.layout, step, cell)
    }
}

/// How many steps there are.
fn step_count(steps: &[EvalStep]) -> u32
    requires { length steps.now < 2 ^ 32 }
    ensures { result ≡ length steps.now }
{
    steps.len() as u32
}

/// The instructions of a tile: one for each step before the last, and those of the root.
pub fn works_program(
    alloc: Global,
    kind: PassKind,
    layout: Layout,
    steps: &[EvalStep],
) -> Result<Program, AllocError>
    requires fits { IsFitting layout }
    requires steps { All (λ step. IsStepAt layout (step_of step)) steps.now }
    requires few { length steps.now < 2 ^ 32 }
    ensures { IfOk result (λ p. program_of p
        ≡ spec.works_program kind (layout_at layout) (steps_of steps.now)) }
{
    let count = step_count(steps);
    let all = each_of(
        alloc,
        &Steps {
            kind,
            layout,
            steps,
        },
        count,
    )?;
    let elements = Expr::product(alloc, Expr::Variable(ROWS), Expr::Variable(COLUMNS))?;
    with_row(alloc, elements, ALL_ELEMENTS.cols, all)
}
