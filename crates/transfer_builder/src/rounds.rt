//! Axes that go round (`specs/ReadProgram`).
ghost use Rattle.std.specs.Prelude.{◌≡◌, ◌+◌, ◌≤◌, ◌<◌, IfOk};
ghost use Rattle.ven_base.specs.Place.{IsMove, place_round};
ghost use Rattle.host_programs.specs.Expr as plain;
ghost use Rattle.host_programs.specs.Program as list;
ghost use Rattle.host_programs.specs.Shown.{expr_of, program_of};
ghost use Rattle.transfer_programs.specs.Axis as axes;
ghost use Rattle.transfer_programs.specs.ReadProgram as reads;
ghost use Rattle.transfer_builder.specs.Shown.{small_of};

use crate::axis::Span;
use crate::body::Body;
use crate::shifts::{Places, some_places};
use crate::sums::lesser;
use host_programs::{Expr, Program};
use std::alloc::{AllocError, Global};

/// The place from which the axis' first comes.
fn first_source(alloc: Global, size: u32, by: i64, span: Span) -> Result<Expr, AllocError>
    requires some { 0 < size }
    requires moves { IsMove by }
    ensures { IfOk result (λ e. expr_of e
        ≡ plain.Remainder (plain.Offset (small_of span.start) (place_round size by)) (plain.Number size)) }
{
    let way = by.rem_euclid(i64::from(size)) as u32;
    let further = Expr::offset(alloc, span.start.expr(alloc)?, way)?;
    Expr::remainder(alloc, further, Expr::Number(size))
}

/// Does something with the places before the end, of which register `d` has the first's source, and register `d + 1`
/// how many they are.
fn before_end<B: Body>(alloc: Global, d: u8, body: &B) -> Result<Program, AllocError>
    requires ready { B.ready body.now }
    requires low { d + 3 + B.names body.now ≤ 255 }
    ensures { IfOk result (λ p. program_of p ≡ reads.neighbours_axis (plain.Number 0) (plain.Variable (d + 1))
        (plain.Variable d) (d + 2) (B.made body.now)) }
{
    let places = Places {
        first: Expr::Number(0),
        count: Expr::Variable(d + 1),
        source: Expr::Variable(d),
    };
    some_places(alloc, places, d + 2, body)
}

/// Does something with the places behind them, which come from the first place on.
fn behind_end<B: Body>(alloc: Global, span: Span, d: u8, body: &B) -> Result<Program, AllocError>
    requires ready { B.ready body.now }
    requires low { d + 3 + B.names body.now ≤ 255 }
    ensures { IfOk result (λ p. program_of p ≡ reads.neighbours_axis (plain.Variable (d + 1))
        (plain.Difference (small_of span.n) (plain.Variable (d + 1))) (plain.Number 0) (d + 2) (B.made body.now)) }
{
    let places = Places {
        first: Expr::Variable(d + 1),
        count: Expr::difference(alloc, span.n.expr(alloc)?, Expr::Variable(d + 1))?,
        source: Expr::Number(0),
    };
    some_places(alloc, places, d + 2, body)
}

/// How many places stand before the end: register `d` has the first's source.
fn count_before(alloc: Global, size: u32, span: Span, d: u8) -> Result<Expr, AllocError>
    ensures { IfOk result (λ e. expr_of e
        ≡ axes.lesser (small_of span.n) (plain.Difference (plain.Number size) (plain.Variable d))) }
{
    let left = Expr::difference(alloc, Expr::Number(size), Expr::Variable(d))?;
    lesser(alloc, span.n.expr(alloc)?, left)
}

/// Does something with the places before the end of an axis that goes round, and with those behind it.
pub fn round<B: Body>(
    alloc: Global,
    size: u32,
    by: i64,
    span: Span,
    d: u8,
    body: &B,
) -> Result<Program, AllocError>
    requires some { 0 < size }
    requires moves { IsMove by }
    requires ready { B.ready body.now }
    requires low { d + 3 + B.names body.now ≤ 255 }
    ensures { IfOk result (λ p. program_of p
        ≡ reads.round_axis size by (small_of span.start) (small_of span.n) d (B.made body.now)) }
{
    let front = before_end(alloc, d, body)?;
    let both = Program::both(alloc, front, behind_end(alloc, span, d, body)?)?;
    let split = Program::with(alloc, count_before(alloc, size, span, d)?, both)?;
    Program::with(alloc, first_source(alloc, size, by, span)?, split)
}
