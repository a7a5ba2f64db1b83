//! Axes of which each place is repeated (`specs/ReadProgram`).
ghost use Rattle.std.specs.Prelude.{◌≡◌, ◌+◌, ◌≤◌, IfOk};
ghost use Rattle.host_programs.specs.Expr as plain;
ghost use Rattle.host_programs.specs.Program as list;
ghost use Rattle.host_programs.specs.Shown.{expr_of, program_of};
ghost use Rattle.transfer_programs.specs.Axis as axes;
ghost use Rattle.transfer_programs.specs.ReadProgram as reads;
ghost use Rattle.transfer_builder.specs.Shown.{small_of, run_of};

use crate::axis::Span;
use crate::body::Body;
use crate::run_expr::{RunExpr, pick_run};
use crate::small_expr::SmallExpr;
use crate::sums::{copy_of, lesser, pick};
use host_programs::{Expr, Program};
use std::alloc::{AllocError, Global};

/// How many places a phase has, whose number is in a register.
fn phase_length(alloc: Global, times: u32, span: Span, p: u8) -> Result<Expr, AllocError>
    ensures { IfOk result (λ e. expr_of e ≡ plain.Quotient (plain.Difference (plain.Offset
        (plain.Difference (small_of span.n) (plain.Variable p)) times) (plain.Number 1)) (plain.Number times)) }
{
    let left = Expr::difference(alloc, span.n.expr(alloc)?, Expr::Variable(p))?;
    let above = Expr::offset(alloc, left, times)?;
    let last = Expr::difference(alloc, above, Expr::Number(1))?;
    Expr::quotient(alloc, last, Expr::Number(times))
}

/// Where its first place comes from.
fn phase_source(alloc: Global, times: u32, span: Span, p: u8) -> Result<Expr, AllocError>
    ensures { IfOk result (λ e. expr_of e
        ≡ plain.Quotient (plain.Sum (small_of span.start) (plain.Variable p)) (plain.Number times)) }
{
    let place = Expr::sum(alloc, span.start.expr(alloc)?, Expr::Variable(p))?;
    Expr::quotient(alloc, place, Expr::Number(times))
}

/// The places of one phase, whose number is in a register.
fn phase(alloc: Global, times: u32, span: Span, p: u8) -> Result<RunExpr, AllocError>
    ensures { IfOk result (λ run. run_of run
        ≡ reads.phase_expr times (small_of span.start) (small_of span.n) (plain.Variable p)) }
{
    let count = phase_length(alloc, times, span, p)?;
    let source = phase_source(alloc, times, span, p)?;
    Ok(RunExpr {
        first: Expr::Variable(p),
        step: Expr::Number(times),
        count,
        source,
        source_step: Expr::Number(1),
    })
}

/// The first place of the whole result that comes from place `q`.
fn block_place(alloc: Global, times: u32, q: &Expr) -> Result<Expr, AllocError>
    ensures { IfOk result (λ e. expr_of e ≡ plain.Product (expr_of q.now) (plain.Number times)) }
{
    Expr::product(alloc, copy_of(alloc, q)?, Expr::Number(times))
}

/// How far behind the axis' first place that is.
fn block_way(alloc: Global, times: u32, span: Span, q: &Expr) -> Result<Expr, AllocError>
    ensures { IfOk result (λ e. expr_of e
        ≡ plain.Difference (plain.Product (expr_of q.now) (plain.Number times)) (small_of span.start)) }
{
    let place = block_place(alloc, times, q)?;
    Expr::difference(alloc, place, span.start.expr(alloc)?)
}

/// The first place of the axis that comes from place `q`.
fn block_first(alloc: Global, times: u32, span: Span, q: &Expr) -> Result<Expr, AllocError>
    ensures { IfOk result (λ e. expr_of e ≡ reads.block_first times (small_of span.start) (expr_of q.now)) }
{
    let way = block_way(alloc, times, span, q)?;
    let place = block_place(alloc, times, q)?;
    let start = span.start.expr(alloc)?;
    Expr::if_less(alloc, place, start, Expr::Number(0), way)
}

/// The place behind the last of the axis that comes from place `q`.
fn block_end(alloc: Global, times: u32, span: Span, q: &Expr) -> Result<Expr, AllocError>
    ensures { IfOk result (λ e. expr_of e ≡ axes.lesser (small_of span.n) (plain.Difference
        (plain.Offset (plain.Product (expr_of q.now) (plain.Number times)) times) (small_of span.start))) }
{
    let end = Expr::offset(alloc, block_place(alloc, times, q)?, times)?;
    let later = Expr::difference(alloc, end, span.start.expr(alloc)?)?;
    lesser(alloc, span.n.expr(alloc)?, later)
}

/// How many places come from place `q`.
fn block_length(alloc: Global, times: u32, span: Span, q: &Expr) -> Result<Expr, AllocError>
    ensures { IfOk result (λ e. expr_of e ≡ plain.Difference (axes.lesser (small_of span.n) (plain.Difference
        (plain.Offset (plain.Product (expr_of q.now) (plain.Number times)) times) (small_of span.start)))
        (reads.block_first times (small_of span.start) (expr_of q.now))) }
{
    let end = block_end(alloc, times, span, q)?;
    Expr::difference(alloc, end, block_first(alloc, times, span, q)?)
}

/// The places that come from place `q`.
fn block(alloc: Global, times: u32, span: Span, q: &Expr) -> Result<RunExpr, AllocError>
    ensures { IfOk result (λ run. run_of run
        ≡ reads.block_expr times (small_of span.start) (small_of span.n) (expr_of q.now)) }
{
    let first = block_first(alloc, times, span, q)?;
    let count = block_length(alloc, times, span, q)?;
    let source = copy_of(alloc, q)?;
    Ok(RunExpr {
        first,
        step: Expr::Number(1),
        count,
        source,
        source_step: Expr::Number(0),
    })
}

/// How many source places an axis has, of which `first` is the first.
fn block_count(alloc: Global, times: u32, span: Span, first: Expr) -> Result<Expr, AllocError>
    ensures { IfOk result (λ e. expr_of e ≡ plain.Difference (plain.Offset (plain.Quotient (plain.Difference
        (plain.Sum (small_of span.start) (small_of span.n)) (plain.Number 1)) (plain.Number times)) 1) (expr_of first)) }
{
    let end = Expr::sum(alloc, span.start.expr(alloc)?, span.n.expr(alloc)?)?;
    let last = Expr::difference(alloc, end, Expr::Number(1))?;
    let last_source = Expr::quotient(alloc, last, Expr::Number(times))?;
    Expr::difference(alloc, Expr::offset(alloc, last_source, 1)?, first)
}

/// How many phases an axis has.
fn phase_count(alloc: Global, times: u32, span: Span) -> Result<Expr, AllocError>
    ensures { IfOk result (λ e. expr_of e ≡ axes.lesser (plain.Number times) (small_of span.n)) }
{
    lesser(alloc, Expr::Number(times), span.n.expr(alloc)?)
}

/// How many runs an axis has: its phases or its source places, whichever are fewer.
pub fn repeated_count(alloc: Global, times: u32, span: Span) -> Result<Expr, AllocError>
    ensures { IfOk result (λ e. expr_of e ≡ reads.repeated_count times (small_of span.start) (small_of span.n)) }
{
    let first = Expr::quotient(alloc, span.start.expr(alloc)?, Expr::Number(times))?;
    let blocks = block_count(alloc, times, span, first)?;
    lesser(alloc, phase_count(alloc, times, span)?, blocks)
}

/// 1 where the source places, whose number is in a register, are fewer than the phases, else 0.
fn block_flag(alloc: Global, times: u32, span: Span, blocks: u8) -> Result<Expr, AllocError>
    ensures { IfOk result (λ e. expr_of e ≡ plain.IfLess (plain.Variable blocks)
        (axes.lesser (plain.Number times) (small_of span.n)) (plain.Number 1) (plain.Number 0)) }
{
    let phases = phase_count(alloc, times, span)?;
    let blocks = Expr::Variable(blocks);
    Expr::if_less(alloc, blocks, phases, Expr::Number(1), Expr::Number(0))
}

/// A phase where the flag in register `d + 2` is 0, else the places of a source: register `d` has the first source, and
/// register `d + 4` the turn's number.
fn turn_run(alloc: Global, times: u32, span: Span, d: u8) -> Result<RunExpr, AllocError>
    requires { d + 4 ≤ 255 }
    ensures { IfOk result (λ run. run_of run ≡ axes.pick_run (plain.Variable (d + 2))
        (reads.phase_expr times (small_of span.start) (small_of span.n) (plain.Variable (d + 4)))
        (reads.block_expr times (small_of span.start) (small_of span.n)
        (plain.Sum (plain.Variable d) (plain.Variable (d + 4))))) }
{
    let q = Expr::sum(alloc, Expr::Variable(d), Expr::Variable(d + 4))?;
    let y = block(alloc, times, span, &q)?;
    let x = phase(alloc, times, span, d + 4)?;
    pick_run(alloc, SmallExpr::Variable(d + 2), &x, &y)
}

/// How many turns there are: register `d + 1` has how many sources.
fn turn_count(alloc: Global, times: u32, span: Span, d: u8) -> Result<Expr, AllocError>
    requires { d + 2 ≤ 255 }
    ensures { IfOk result (λ e. expr_of e ≡ axes.pick (plain.Variable (d + 2))
        (axes.lesser (plain.Number times) (small_of span.n)) (plain.Variable (d + 1))) }
{
    let phases = phase_count(alloc, times, span)?;
    pick(
        alloc,
        SmallExpr::Variable(d + 2),
        phases,
        Expr::Variable(d + 1),
    )
}

/// Does something with each phase or with the places of each source, whichever are fewer. Registers `d` and `d + 1`
/// have the first source and how many there are, and register `d + 2` the flag that says which are fewer.
fn either_runs<B: Body>(
    alloc: Global,
    times: u32,
    span: Span,
    d: u8,
    body: &B,
) -> Result<Program, AllocError>
    requires ready { B.ready body.now }
    requires low { d + 5 + B.names body.now ≤ 255 }
    ensures { IfOk result (λ p. program_of p ≡ axes.either_runs (plain.Variable (d + 2))
        (axes.lesser (plain.Number times) (small_of span.n)) (plain.Variable (d + 1))
        (reads.phase_expr times (small_of span.start) (small_of span.n))
        (λ t. reads.block_expr times (small_of span.start) (small_of span.n) (plain.Sum (plain.Variable d) t))
        (d + 3) (B.made body.now)) }
{
    let run = turn_run(alloc, times, span, d)?;
    let turn = body.program(alloc, d + 5, run)?;
    Program::repeated(alloc, turn_count(alloc, times, span, d)?, turn)
}

/// Does something with each run of an axis of which each place is repeated.
pub fn repeated<B: Body>(
    alloc: Global,
    times: u32,
    span: Span,
    d: u8,
    body: &B,
) -> Result<Program, AllocError>
    requires ready { B.ready body.now }
    requires low { d + 5 + B.names body.now ≤ 255 }
    ensures { IfOk result (λ p. program_of p
        ≡ reads.repeated_axis times (small_of span.start) (small_of span.n) d (B.made body.now)) }
{
    let runs = either_runs(alloc, times, span, d, body)?;
    let flagged = Program::with(alloc, block_flag(alloc, times, span, d + 1)?, runs)?;
    let blocks = block_count(alloc, times, span, Expr::Variable(d))?;
    let counted = Program::with(alloc, blocks, flagged)?;
    let first = Expr::quotient(alloc, span.start.expr(alloc)?, Expr::Number(times))?;
    Program::with(alloc, first, counted)
}
