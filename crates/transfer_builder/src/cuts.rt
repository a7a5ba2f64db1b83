//! Axes that are kept or cut: one run (`specs/ReadProgram`).
ghost use Rattle.std.specs.Prelude.{◌≡◌, ◌+◌, ◌≤◌, IfOk};
ghost use Rattle.host_programs.specs.Shown.{program_of};
ghost use Rattle.transfer_programs.specs.ReadProgram as reads;
ghost use Rattle.transfer_builder.specs.Shown.{small_of};

use crate::axis::Span;
use crate::body::Body;
use crate::run_expr::RunExpr;
use crate::sums::scaled;
use host_programs::{Expr, Program};
use std::alloc::{AllocError, Global};

/// Does something with the run of an axis that is kept.
pub fn plain<B: Body>(alloc: Global, span: Span, d: u8, body: &B) -> Result<Program, AllocError>
    requires ready { B.ready body.now }
    requires low { d + B.names body.now ≤ 255 }
    ensures { IfOk result (λ p. program_of p
        ≡ reads.plain_axis (small_of span.start) (small_of span.n) d (B.made body.now)) }
{
    let run = RunExpr {
        first: Expr::Number(0),
        step: Expr::Number(1),
        count: span.n.expr(alloc)?,
        source: span.start.expr(alloc)?,
        source_step: Expr::Number(1),
    };
    body.program(alloc, d, run)
}

/// Does something with the run of an axis of a section.
pub fn cut<B: Body>(
    alloc: Global,
    first: u32,
    step: u32,
    span: Span,
    d: u8,
    body: &B,
) -> Result<Program, AllocError>
    requires ready { B.ready body.now }
    requires low { d + B.names body.now ≤ 255 }
    ensures { IfOk result (λ p. program_of p
        ≡ reads.cut_axis first step (small_of span.start) (small_of span.n) d (B.made body.now)) }
{
    let way = scaled(alloc, span.start.expr(alloc)?, step)?;
    let run = RunExpr {
        first: Expr::Number(0),
        step: Expr::Number(1),
        count: span.n.expr(alloc)?,
        source: Expr::offset(alloc, way, first)?,
        source_step: Expr::Number(step),
    };
    body.program(alloc, d, run)
}
