//! The vector instructions of a tile's root (docs/COMPILER.md, "Instructions of a tile").
ghost use Rattle.std.specs.Prelude.{◌≡◌, ◌<◌, ◌≤◌, ◌+◌, ◌*◌, ◌^◌, [], ◌∷◌, ◌++◌, true, not, OnOk};
ghost use Rattle.ven_base.specs.Elem.{size_of};
ghost use Rattle.ven_base.specs.Extent.{element_limit};
ghost use Rattle.pass_plan.specs.Buffers.{is_map};
ghost use Rattle.buffer_lifetimes.specs.Step.{step_of};
ghost use Rattle.vector_codegen.specs.Root as spec;
ghost use Rattle.vector_codegen.specs.Fit.{buffer_count, IsFitting, IsStepOf, HasRowsFitting};

use crate::buffers::{Buffers, Shape, Source};
use crate::step_works::{step_work, work_of};
use crate::vector_kind::two_kind;
use buffer_lifetimes::EvalStep;
use pass_plan::PassKind;
use std::alloc::AllocError;
use ven_base::{Elem, Fold, Op2};
use venice_isa::VecWork;

// ---- sums

/// The partial sums of a later tile join the results so far.
fn joining_work(shape: Shape, b: Buffers, elem: Elem) -> VecWork
    requires fits { IsFitting shape b }
    requires partial { b.has_partial ≡ true }
    ensures { result ≡ spec.joining_work shape b elem }
{
    let kind = two_kind(Op2::Add, elem, false, false, false);
    let sums = Source::Buffer(b.output());
    let more = Source::Buffer(b.partial());
    work_of(shape.column(), kind, b.output(), sums, more)
}

/// A row's first tile sets its sums, a later one adds its own to them.
fn push_sum(
    shape: Shape,
    b: Buffers,
    first: bool,
    step: &EvalStep,
    works: &mut Vec<VecWork>,
) -> Result<(), AllocError>
    requires fits { IsFitting shape b }
    requires partial { b.has_partial ≡ true }
    requires step { IsStepOf b (step_of step.now) }
    ensures { OnOk result (works.new.items ≡ works.old.items ++ spec.sum_works shape b first (step_of step.now)) }
{
    if first {
        works.push(step_work(shape, b, true, step, b.output()))?;
    } else {
        works.push(step_work(shape, b, true, step, b.partial()))?;
        works.push(joining_work(shape, b, step.elem))?;
    }
    Ok(())
}

// ---- least and greatest values

/// The operation that takes the least of two, or the greatest.
fn better_of(least: bool) -> Op2
    ensures { result ≡ spec.better_of least }
{
    if least { Op2::Min } else { Op2::Max }
}

/// The first `low` elements of each row meet those from `high` on.
fn halving_work(shape: Shape, least: bool, elem: Elem, buffer: u32, low: u32, high: u32) -> VecWork
    requires fits { HasRowsFitting shape elem buffer }
    requires inside { high ≤ shape.cols }
    ensures { result ≡ spec.halving_work shape least elem buffer low high }
{
    let kind = two_kind(better_of(least), elem, false, false, false);
    let place = buffer * shape.room;
    let row = shape.cols * elem.size();
    VecWork {
        kind,
        vl: low,
        rows: shape.rows,
        dst: place,
        a: place,
        b: place + high * elem.size(),
        dst_step: row,
        a_step: row,
        b_step: row,
    }
}

/// Rows are halved until at most `left` elements, 1 or 2, are left of each.
fn push_halvings(
    shape: Shape,
    least: bool,
    elem: Elem,
    buffer: u32,
    left: u32,
    works: &mut Vec<VecWork>,
) -> Result<(), AllocError>
    requires fits { HasRowsFitting shape elem buffer }
    requires some { 1 ≤ left }
    ensures { OnOk result (works.new.items
        ≡ works.old.items ++ spec.halvings shape.cols shape least elem buffer left shape.cols) }
{
    let mut count = shape.cols;
    while count > left {
        let low = count / 2;
        let high = count - low;
        works.push(halving_work(shape, least, elem, buffer, low, high))?;
        count = high;
    }
    Ok(())
}

/// Of each row the first element meets the second, and the result is set; or it meets the result so far.
fn last_work(shape: Shape, least: bool, elem: Elem, first: bool, from: u32, to: u32) -> VecWork
    requires fits { HasRowsFitting shape elem from }
    requires to { to * shape.room < 2 ^ 32 }
    ensures { result ≡ spec.last_work shape least elem first from to }
{
    let kind = two_kind(better_of(least), elem, false, false, false);
    let row = shape.cols * elem.size();
    let place = from * shape.room;
    let results = to * shape.room;
    let (a, a_step) = if first {
        (place + elem.size(), row)
    } else {
        (results, elem.size())
    };
    VecWork {
        kind,
        vl: 1,
        rows: shape.rows,
        dst: results,
        a,
        b: place,
        dst_step: elem.size(),
        a_step,
        b_step: row,
    }
}

/// The rows' values go to a slot and are halved: to two in a row's first tile, else to one.
fn push_halved(
    shape: Shape,
    b: Buffers,
    least: bool,
    first: bool,
    step: &EvalStep,
    works: &mut Vec<VecWork>,
) -> Result<(), AllocError>
    requires fits { IsFitting shape b }
    requires step { IsStepOf b (step_of step.now) }
    requires wide { shape.rows * shape.cols * size_of step.now.elem ≤ shape.room }
    ensures { OnOk result (works.new.items
        ≡ works.old.items ++ spec.halved_works shape b least first (step_of step.now)) }
{
    let slot = b.slot(step.to);
    let left = if first { 2 } else { 1 };
    works.push(step_work(shape.flat(), b, false, step, slot))?;
    push_halvings(shape, least, step.elem, slot, left, works)?;
    works.push(last_work(shape, least, step.elem, first, slot, b.output()))?;
    Ok(())
}

/// The least or greatest values of the rows; rows of one element in a row's first tile are their own results.
fn push_best(
    shape: Shape,
    b: Buffers,
    least: bool,
    first: bool,
    step: &EvalStep,
    works: &mut Vec<VecWork>,
) -> Result<(), AllocError>
    requires fits { IsFitting shape b }
    requires step { IsStepOf b (step_of step.now) }
    requires wide { shape.rows * shape.cols * size_of step.now.elem ≤ shape.room }
    ensures { OnOk result (works.new.items
        ≡ works.old.items ++ spec.best_works shape b least first (step_of step.now)) }
{
    if first && shape.cols <= 1 {
        works.push(step_work(shape.flat(), b, false, step, b.output()))?;
        return Ok(());
    }
    push_halved(shape, b, least, first, step, works)
}

// ---- any root

/// The instructions of the last step, by the kind of the pass.
pub fn push_root(
    kind: PassKind,
    shape: Shape,
    b: Buffers,
    first: bool,
    step: &EvalStep,
    works: &mut Vec<VecWork>,
) -> Result<(), AllocError>
    requires fits { IsFitting shape b }
    requires partial { b.has_partial ≡ not (is_map kind) }
    requires step { IsStepOf b (step_of step.now) }
    requires wide { shape.rows * shape.cols * size_of step.now.elem ≤ shape.room }
    ensures { OnOk result (works.new.items
        ≡ works.old.items ++ spec.root_works kind shape b first (step_of step.now)) }
{
    match kind {
        PassKind::Map => {
            works.push(step_work(shape.flat(), b, false, step, b.output()))?;
            Ok(())
        }
        PassKind::Reduce(Fold::Sum) => push_sum(shape, b, first, step, works),
        PassKind::Reduce(Fold::Min) => push_best(shape, b, true, first, step, works),
        PassKind::Reduce(Fold::Max) => push_best(shape, b, false, first, step, works),
    }
}
