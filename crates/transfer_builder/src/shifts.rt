//! Axes that are shifted: the places that have a source (`specs/ReadProgram`).
ghost use Rattle.std.specs.Prelude.{◌≡◌, ◌+◌, ◌≤◌, IfOk};
ghost use Rattle.ven_base.specs.Place.{IsMove};
ghost use Rattle.host_programs.specs.Expr as plain;
ghost use Rattle.host_programs.specs.Shown.{expr_of, program_of};
ghost use Rattle.transfer_programs.specs.Axis as axes;
ghost use Rattle.transfer_programs.specs.ReadProgram as reads;
ghost use Rattle.transfer_builder.specs.Shown.{small_of};

use crate::axis::Span;
use crate::body::Body;
use crate::run_expr::RunExpr;
use crate::small_expr::SmallExpr;
use crate::sums::lesser;
use host_programs::{Expr, Program};
use std::alloc::{AllocError, Global};

/// Places from the first on, whose sources follow one another: register `d` has how many.
#[derive(Drop)]
pub struct Places {
    pub first: Expr,
    pub count: Expr,
    pub source: Expr,
}

/// Does something with these places, if there are any.
pub fn some_places<B: Body>(
    alloc: Global,
    places: Places,
    d: u8,
    body: &B,
) -> Result<Program, AllocError>
    requires ready { B.ready body.now }
    requires low { d + 1 + B.names body.now ≤ 255 }
    ensures { IfOk result (λ p. program_of p
        ≡ reads.neighbours_axis (expr_of places.first) (expr_of places.count) (expr_of places.source) d (B.made body.now)) }
{
    let run = RunExpr {
        first: places.first,
        step: Expr::Number(1),
        count: Expr::Variable(d),
        source: places.source,
        source_step: Expr::Number(1),
    };
    let some = body.program(alloc, d + 1, run)?;
    let guarded = Program::unless_less(alloc, Expr::Variable(d), Expr::Number(1), some)?;
    Program::with(alloc, places.count, guarded)
}

/// The place `way` further on than an axis' first.
fn later_place(alloc: Global, way: u32, span: Span) -> Result<Expr, AllocError>
    ensures { IfOk result (λ e. expr_of e ≡ plain.Offset (small_of span.start) way) }
{
    Expr::offset(alloc, span.start.expr(alloc)?, way)
}

/// How many places of an axis come from places `way` further on, of `size` places.
fn count_later(alloc: Global, size: u32, way: u32, span: Span) -> Result<Expr, AllocError>
    ensures { IfOk result (λ e. expr_of e ≡ plain.IfLess (plain.Offset (small_of span.start) way) (plain.Number size)
        (axes.lesser (small_of span.n) (plain.Difference (plain.Number size) (plain.Offset (small_of span.start) way)))
        (plain.Number 0)) }
{
    let from = later_place(alloc, way, span)?;
    let left = Expr::difference(alloc, Expr::Number(size), from)?;
    let count = lesser(alloc, span.n.expr(alloc)?, left)?;
    let past = later_place(alloc, way, span)?;
    Expr::if_less(alloc, past, Expr::Number(size), count, Expr::Number(0))
}

/// Does something with the places that come from places `way` further on.
fn later<B: Body>(
    alloc: Global,
    size: u32,
    way: u32,
    span: Span,
    d: u8,
    body: &B,
) -> Result<Program, AllocError>
    requires ready { B.ready body.now }
    requires low { d + 1 + B.names body.now ≤ 255 }
    ensures { IfOk result (λ p. program_of p
        ≡ reads.later_axis size way (small_of span.start) (small_of span.n) d (B.made body.now)) }
{
    let count = count_later(alloc, size, way, span)?;
    let source = later_place(alloc, way, span)?;
    let places = Places {
        first: Expr::Number(0),
        count,
        source,
    };
    some_places(alloc, places, d, body)
}

/// How many places of an axis would come from before its first, where they come from places `way` further back.
fn count_outside(alloc: Global, way: u32, span: Span) -> Result<Expr, AllocError>
    ensures { IfOk result (λ e. expr_of e ≡ axes.lesser (small_of span.n)
        (plain.IfLess (small_of span.start) (plain.Number way) (plain.Difference (plain.Number way) (small_of span.start))
        (plain.Number 0))) }
{
    let left = Expr::difference(alloc, Expr::Number(way), span.start.expr(alloc)?)?;
    let start = span.start.expr(alloc)?;
    let before = Expr::if_less(alloc, start, Expr::Number(way), left, Expr::Number(0))?;
    lesser(alloc, span.n.expr(alloc)?, before)
}

/// Does something with the places that come from places `way` further back.
fn earlier<B: Body>(
    alloc: Global,
    way: u32,
    span: Span,
    d: u8,
    body: &B,
) -> Result<Program, AllocError>
    requires ready { B.ready body.now }
    requires low { d + 2 + B.names body.now ≤ 255 }
    ensures { IfOk result (λ p. program_of p
        ≡ reads.earlier_axis way (small_of span.start) (small_of span.n) d (B.made body.now)) }
{
    let first = Expr::sum(alloc, span.start.expr(alloc)?, Expr::Variable(d))?;
    let places = Places {
        first: Expr::Variable(d),
        count: Expr::difference(alloc, span.n.expr(alloc)?, Expr::Variable(d))?,
        source: Expr::difference(alloc, first, Expr::Number(way))?,
    };
    let inside = some_places(alloc, places, d + 1, body)?;
    Program::with(alloc, count_outside(alloc, way, span)?, inside)
}

/// Does something with the places of a shifted axis that have a source.
pub fn shifted<B: Body>(
    alloc: Global,
    size: u32,
    by: i64,
    span: Span,
    d: u8,
    body: &B,
) -> Result<Program, AllocError>
    requires moves { IsMove by }
    requires ready { B.ready body.now }
    requires low { d + 2 + B.names body.now ≤ 255 }
    ensures { IfOk result (λ p. program_of p
        ≡ reads.shifted_axis size by (small_of span.start) (small_of span.n) d (B.made body.now)) }
{
    if by >= 0 {
        later(alloc, size, (by as u32).min(size), span, d, body)
    } else {
        earlier(alloc, -by as u32, span, d, body)
    }
}
