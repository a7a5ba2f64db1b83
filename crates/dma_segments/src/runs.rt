//! The runs of a piece's rows and columns, map by map (`specs/Run`). A piece's axis begins at place `start` of the
//! result and has `n` places.
ghost use Rattle.std.specs.Prelude.{◌≡◌, ◌++◌, ◌+◌, ◌-◌, ◌*◌, ◌≤◌, ◌<◌, ◌^◌, ◌/◌, ◌+ℤ◌, pos, IfOk, OnOk, Some, All, min, map};
ghost use Rattle.std.specs.List.{range_with_len};
ghost use Rattle.ven_base.specs.Place.{IsMove};
ghost use Rattle.ven_base.specs.Place.{place_round};
ghost use Rattle.ven_base.specs.Mapping.{FitsShape, result_shape};
ghost use Rattle.pass_plan.specs.Tile.{IsPieceOf};
ghost use Rattle.dma_segments.specs.Rooms.{HasSmallPlaces};
ghost use Rattle.dma_segments.specs.Run.{some_places, shifted_runs, later_runs, earlier_runs, plain_runs, cut_runs, runs_round, round_runs, phase, phases, block, block_count, blocks, repeated_runs, single, singles, row_runs, column_runs};

use crate::patches::Run;
use pass_plan::Leaf;
use pass_plan::parts::Piece;
use std::alloc::{AllocError, Global};
use ven_base::Mapping;

/// Adds the places from `first` on, where there are any.
fn push_places(
    runs: &mut Vec<Run>,
    first: u32,
    count: u32,
    source: Option<u32>,
) -> Result<(), AllocError>
    ensures { OnOk result (runs.new.items ≡ runs.old.items ++ some_places first count source) }
{
    if count > 0 {
        runs.push(Run {
            first,
            step: 1,
            count,
            source,
            source_step: 1,
        })?;
    }
    Ok(())
}

/// The runs of an axis that is shifted to sources further on.
fn push_later(
    runs: &mut Vec<Run>,
    size: u32,
    way: u32,
    start: u32,
    n: u32,
) -> Result<(), AllocError>
    ensures { OnOk result (runs.new.items ≡ runs.old.items ++ later_runs size way start n) }
{
    let from = u64::from(start) + u64::from(way);
    let inside = u64::from(size).saturating_sub(from).min(u64::from(n)) as u32;
    if inside > 0 {
        push_places(runs, 0, inside, Some(from as u32))?;
    }
    push_places(runs, inside, n - inside, None)
}

/// The runs of an axis that is shifted to sources further back.
fn push_earlier(runs: &mut Vec<Run>, way: u32, start: u32, n: u32) -> Result<(), AllocError>
    requires { start + n < 2 ^ 32 }
    ensures { OnOk result (runs.new.items ≡ runs.old.items ++ earlier_runs way start n) }
{
    let outside = way.saturating_sub(start).min(n);
    push_places(runs, 0, outside, None)?;
    push_places(
        runs,
        outside,
        n - outside,
        Some((start + outside).saturating_sub(way)),
    )
}

/// The runs of an axis of `size` places that is shifted by `d`, for a piece of `n` places from `start` on.
fn shifted_runs(
    alloc: Global,
    size: u32,
    d: i64,
    start: u32,
    n: u32,
) -> Result<Vec<Run>, AllocError>
    requires moves { IsMove d }
    requires inside { start + n ≤ size }
    ensures { IfOk result (λ runs. runs.items ≡ shifted_runs size d start n) }
{
    let mut runs = Vec::new(alloc);
    if d >= 0 {
        push_later(&mut runs, size, d as u32, start, n)?;
    } else {
        push_earlier(&mut runs, -d as u32, start, n)?;
    }
    Ok(runs)
}

/// The runs of an axis that is kept.
fn plain_runs(alloc: Global, start: u32, n: u32) -> Result<Vec<Run>, AllocError>
    ensures { IfOk result (λ runs. runs.items ≡ plain_runs start n) }
{
    let mut runs = Vec::new(alloc);
    runs.push(Run {
        first: 0,
        step: 1,
        count: n,
        source: Some(start),
        source_step: 1,
    })?;
    Ok(runs)
}

/// The runs of an axis of a section.
fn cut_runs(
    alloc: Global,
    first: u32,
    step: u32,
    start: u32,
    n: u32,
) -> Result<Vec<Run>, AllocError>
    requires { first + start * step < 2 ^ 32 }
    ensures { IfOk result (λ runs. runs.items ≡ cut_runs first step start n) }
{
    let mut runs = Vec::new(alloc);
    runs.push(Run {
        first: 0,
        step: 1,
        count: n,
        source: Some(first + start * step),
        source_step: step,
    })?;
    Ok(runs)
}

/// The runs of an axis of `size` places that goes round by `d`.
fn round_runs(alloc: Global, size: u32, d: i64, start: u32, n: u32) -> Result<Vec<Run>, AllocError>
    requires moves { IsMove d }
    requires some { 0 < size }
    ensures { IfOk result (λ runs. runs.items ≡ round_runs size d start n) }
{
    let first = (i64::from(start) + d).rem_euclid(i64::from(size)) as u32;
    let before = size.saturating_sub(first).min(n);
    let mut runs = Vec::new(alloc);
    push_places(&mut runs, 0, before, Some(first))?;
    push_places(&mut runs, before, n - before, Some(0))?;
    Ok(runs)
}

fn phase(times: u32, start: u32, n: u32, p: u32) -> Run
    requires some { 1 ≤ times }
    requires below { p < n }
    requires room { start + n < 2 ^ 32 }
    ensures { result ≡ phase times start n p }
{
    let rounds = (u64::from(n - p) + u64::from(times) - 1) / u64::from(times);
    Run {
        first: p,
        step: times,
        count: rounds as u32,
        source: Some((start + p) / times),
        source_step: 1,
    }
}

fn block(times: u32, start: u32, n: u32, q: u32) -> Run
    requires some { 1 ≤ times }
    requires near { q * times < start + n }
    requires after { start < q * times + times }
    requires room { start + n < 2 ^ 32 }
    ensures { result ≡ block times start n q }
{
    let first = (q * times).saturating_sub(start);
    let end = (u64::from(q * times) + u64::from(times) - u64::from(start)).min(u64::from(n)) as u32;
    Run {
        first,
        step: 1,
        count: end - first,
        source: Some(q),
        source_step: 0,
    }
}

fn phases(alloc: Global, times: u32, start: u32, n: u32) -> Result<Vec<Run>, AllocError>
    requires some { 1 ≤ times }
    requires room { start + n < 2 ^ 32 }
    ensures { IfOk result (λ runs. runs.items ≡ phases times start n) }
{
    let mut runs = Vec::new(alloc);
    for p in 0..times.min(n) {
        runs.push(phase(times, start, n, p))?;
    }
    Ok(runs)
}

fn blocks(alloc: Global, times: u32, start: u32, n: u32) -> Result<Vec<Run>, AllocError>
    requires some { 1 ≤ times }
    requires any { 1 ≤ n }
    requires room { start + n < 2 ^ 32 }
    ensures { IfOk result (λ runs. runs.items ≡ blocks times start n) }
{
    let first = start / times;
    let last = (start + n - 1) / times;
    let mut runs = Vec::new(alloc);
    for k in 0..last - first + 1 {
        runs.push(block(times, start, n, first + k))?;
    }
    Ok(runs)
}

/// The runs of an axis of which each place is repeated, by phase or by source, whichever are fewer.
fn repeated_runs(alloc: Global, times: u32, start: u32, n: u32) -> Result<Vec<Run>, AllocError>
    requires some { 1 ≤ times }
    requires any { 1 ≤ n }
    requires room { start + n < 2 ^ 32 }
    ensures { IfOk result (λ runs. runs.items ≡ repeated_runs times start n) }
{
    if times.min(n) <= (start + n - 1) / times + 1 - start / times {
        phases(alloc, times, start, n)
    } else {
        blocks(alloc, times, start, n)
    }
}

fn single(run: Run, r: u32) -> Run
    requires below { r < run.count }
    requires small { HasSmallPlaces run }
    ensures { result ≡ single run r }
{
    let source = match run.source {
        Some(source) => Some(source + r * run.source_step),
        None => None,
    };
    Run {
        first: run.first + r * run.step,
        step: 1,
        count: 1,
        source,
        source_step: 0,
    }
}

fn push_singles(runs: &mut Vec<Run>, run: Run) -> Result<(), AllocError>
    requires { HasSmallPlaces run }
    ensures { OnOk result (runs.new.items ≡ runs.old.items ++ map (single run) (range_with_len 0 run.count)) }
{
    for r in 0..run.count {
        runs.push(single(run, r))?;
    }
    Ok(())
}

/// The runs of a piece's rows.
pub fn row_runs(alloc: Global, leaf: &Leaf, piece: Piece) -> Result<Vec<Run>, AllocError>
    requires fits { FitsShape leaf.now.map leaf.now.shape }
    requires inside { IsPieceOf (result_shape leaf.now.map leaf.now.shape) piece }
    ensures { IfOk result (λ runs. runs.items ≡ row_runs leaf.now.map leaf.now.shape piece) }
{
    match leaf.map {
        Mapping::Identity | Mapping::Transpose => plain_runs(alloc, piece.r0, piece.h),
        Mapping::Shift { dr, .. } => shifted_runs(alloc, leaf.shape.rows, dr, piece.r0, piece.h),
        Mapping::Rotate { dr, .. } => round_runs(alloc, leaf.shape.rows, dr, piece.r0, piece.h),
        Mapping::Section { r0, sr, .. } => cut_runs(alloc, r0, sr, piece.r0, piece.h),
        Mapping::Stretch { kr, .. } => repeated_runs(alloc, kr, piece.r0, piece.h),
    }
}

/// The runs of its columns.
pub fn column_runs(alloc: Global, leaf: &Leaf, piece: Piece) -> Result<Vec<Run>, AllocError>
    requires fits { FitsShape leaf.now.map leaf.now.shape }
    requires inside { IsPieceOf (result_shape leaf.now.map leaf.now.shape) piece }
    ensures { IfOk result (λ runs. runs.items ≡ column_runs leaf.now.map leaf.now.shape piece) }
{
    match leaf.map {
        Mapping::Identity | Mapping::Transpose => plain_runs(alloc, piece.c0, piece.w),
        Mapping::Shift { dc, .. } => shifted_runs(alloc, leaf.shape.cols, dc, piece.c0, piece.w),
        Mapping::Rotate { dc, .. } => round_runs(alloc, leaf.shape.cols, dc, piece.c0, piece.w),
        Mapping::Section { c0, sc, .. } => cut_runs(alloc, c0, sc, piece.c0, piece.w),
        Mapping::Stretch { kc, .. } => repeated_runs(alloc, kc, piece.c0, piece.w),
    }
}

/// A run for each place of these runs.
pub fn singles(alloc: Global, runs: &[Run]) -> Result<Vec<Run>, AllocError>
    requires { All HasSmallPlaces runs.now }
    ensures { IfOk result (λ all. all.items ≡ singles runs.now) }
{
    let mut all = Vec::new(alloc);
    for run in runs {
        push_singles(&mut all, *run)?;
    }
    Ok(all)
}
