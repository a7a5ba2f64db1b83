//! The axes of pieces (`specs/ReadProgram`).
ghost use Rattle.std.specs.Prelude.{◌≡◌, ◌+◌, ◌≤◌, IfOk};
ghost use Rattle.host_programs.specs.Shown.{program_of};
ghost use Rattle.transfer_programs.specs.Axis as axes;
ghost use Rattle.transfer_builder.specs.Shown.{axis_of, runs_of, IsKind};
ghost use Rattle.transfer_builder.specs.declared.axis.Grain.TheVariants.{Runs};

use crate::body::{Body, Singles};
use crate::cuts::{cut, plain};
use crate::repeats::repeated;
use crate::rounds::round;
use crate::shifts::shifted;
use crate::small_expr::SmallExpr;
use host_programs::Program;
use std::alloc::{AllocError, Global};

/// Where the places of an axis come from.
#[derive(Clone, Copy)]
pub enum AxisKind {
    /// Each from itself.
    Plain,
    /// Each from the place `by` further on, of `size` places, where there is one.
    Shifted { size: u32, by: i64 },
    /// Each from the place `by` further on, going round the `size` places.
    Round { size: u32, by: i64 },
    /// From place `first` on, in steps.
    Cut { first: u32, step: u32 },
    /// Each place so many times.
    Repeated { times: u32 },
}

/// What an axis is gone through by.
#[derive(Clone, Copy)]
pub enum Grain {
    Runs,
    Places,
}

/// The places of a result's axis from `start` on, `n` of them.
#[derive(Clone, Copy)]
pub struct Span {
    pub start: SmallExpr,
    pub n: SmallExpr,
}

/// An axis of a piece.
#[derive(Clone, Copy)]
pub struct Axis {
    pub kind: AxisKind,
    pub span: Span,
    pub grain: Grain,
}

impl Axis {
    /// The axis, place by place.
    pub fn by_places(self) -> Axis
        requires { self.grain ≡ Runs }
        ensures axis { axis_of result ≡ axes.singles_of (axis_of self) }
        ensures kind { result.kind ≡ self.kind }
    {
        Axis {
            grain: Grain::Places,
            ..self
        }
    }

    /// Does something with each run of the axis, where the first `d` registers are in use.
    fn runs<B: Body>(self, alloc: Global, d: u8, body: &B) -> Result<Program, AllocError>
        requires kind { IsKind self.kind }
        requires ready { B.ready body.now }
        requires low { d + 5 + B.names body.now ≤ 255 }
        ensures { IfOk result (λ p. program_of p ≡ runs_of self d (B.made body.now)) }
    {
        match self.kind {
            AxisKind::Plain => plain(alloc, self.span, d, body),
            AxisKind::Shifted { size, by } => shifted(alloc, size, by, self.span, d, body),
            AxisKind::Round { size, by } => round(alloc, size, by, self.span, d, body),
            AxisKind::Cut { first, step } => cut(alloc, first, step, self.span, d, body),
            AxisKind::Repeated { times } => repeated(alloc, times, self.span, d, body),
        }
    }

    /// Does something with each run of the axis, or with each place as a run of its own, where the first `d` registers
    /// are in use.
    pub fn program<B: Body>(self, alloc: Global, d: u8, body: &B) -> Result<Program, AllocError>
        requires kind { IsKind self.kind }
        requires ready { B.ready body.now }
        requires low { d + 7 + B.names body.now ≤ 255 }
        ensures { IfOk result (λ p. program_of p ≡ axis_of self d (B.made body.now)) }
    {
        match self.grain {
            Grain::Runs => self.runs(alloc, d, body),
            Grain::Places => self.runs(alloc, d, &Singles { body }),
        }
    }
}
