//! The programs of passes and splits (`specs/PassProgram`, `specs/SplitProgram`).
ghost use Rattle.std.specs.Prelude.{◌≡◌, ◌<◌, ◌≤◌, IfOk};
ghost use Rattle.pass_plan.specs.Need.{need_of};
ghost use Rattle.pass_plan.specs.Sound.{IsSound};
ghost use Rattle.pass_plan.specs.Shown.{pass_of, split_of};
ghost use Rattle.dma_schedule.specs.Plan.{IsReady};
ghost use Rattle.host_programs.specs.Shown.{program_of};
ghost use Rattle.host_codegen.specs.PassProgram as spec;
ghost use Rattle.host_codegen.specs.SplitProgram as splits;
ghost use Rattle.host_codegen.specs.Fit.{IsTiled};

use crate::geometry::layout_of;
use crate::sequence::{Numbered, each_of};
use crate::tiled::TiledPass;
use crate::tiles::{reads_program, rest_program};
use host_programs::{Expr, Order, Program};
use pass_plan::parts::Tile;
use pass_plan::{ArrayPlace, Pass, Split, tile, tiles};
use std::alloc::{AllocError, Global};

/// One turn: register 0 has how many turns are left, and register 1 the turn's number. The last one reads nothing, and
/// in the first one no tile was read before.
fn turn_program(alloc: Global, tiled: &TiledPass<'_>) -> Result<Program, AllocError>
    requires { IsTiled tiled.now }
    ensures { IfOk result (λ p. program_of p
        ≡ spec.turn_program tiled.now.arrays.now (pass_of tiled.now.pass.now) tiled.now.layout.tile) }
{
    let reads = reads_program(alloc, tiled)?;
    let rest = rest_program(alloc, tiled)?;
    let next = Program::unless_less(alloc, Expr::Variable(0), Expr::Number(2), reads)?;
    let before = Program::unless_less(alloc, Expr::Variable(1), Expr::Number(1), rest)?;
    Program::both(alloc, next, before)
}

/// The program of a pass: one turn for each tile and one more. At its end nothing is in flight.
fn pass_program(
    alloc: Global,
    arrays: &[ArrayPlace],
    pass: &Pass,
    tile: Tile,
) -> Result<Program, AllocError>
    requires { IsReady arrays.now (pass_of pass.now) tile }
    ensures { IfOk result (λ p. program_of p ≡ spec.pass_program arrays.now (pass_of pass.now) tile) }
{
    let layout = layout_of(arrays, pass, tile);
    let tiled = TiledPass {
        arrays,
        pass,
        layout,
    };
    let turn = turn_program(alloc, &tiled)?;
    let turns = Program::repeated(alloc, Expr::Number(tiles(pass, tile) + 1), turn)?;
    let read = Program::Emit(Order::AwaitReads(Expr::Number(0)));
    let written = Program::Emit(Order::AwaitWrites(Expr::Number(0)));
    Program::both(alloc, turns, Program::both(alloc, read, written)?)
}

/// The passes of a split, in a scratchpad of `spad` bytes.
#[derive(Clone, Copy)]
struct Passes<'a> {
    split: &'a Split,
    spad: u32,
}

impl Numbered for Passes<'_> {
    ghost use Rattle.std.specs.Prelude.{◌≤◌, length, get_or};
    ghost use Rattle.pass_plan.specs.Need.{need_of};
    ghost use Rattle.pass_plan.specs.Sound.{IsSound};
    ghost use Rattle.pass_plan.specs.Shown.{split_of};
    ghost use Rattle.host_programs.specs.Program as list;
    ghost use Rattle.host_codegen.specs.SplitProgram as splits;

    ghost ready = { λ s. IsSound (split_of s.split.now) × (need_of (split_of s.split.now).passes ≤ s.spad) };

    ghost count = { λ s. length (split_of s.split.now).passes };

    ghost made = { λ s n. get_or (splits.passes_programs (split_of s.split.now).arrays s.spad
        (split_of s.split.now).passes) n list.Idle };

    fn program(&self, alloc: Global, number: u32) -> Result<Program, AllocError> {
        let pass = &self.split.passes[number as usize];
        pass_program(alloc, &self.split.arrays, pass, tile(pass, self.spad))
    }
}

/// The program of a split, pass after pass.
pub fn split_program(alloc: Global, split: &Split, spad: u32) -> Result<Program, AllocError>
    requires sound { IsSound (split_of split.now) }
    requires holds { need_of (split_of split.now).passes ≤ spad }
    ensures { IfOk result (λ p. program_of p ≡ splits.split_program (split_of split.now) spad) }
{
    each_of(alloc, &Passes { split, spad }, split.passes.len() as u32)
}
