//! Index maps (docs/LANGUAGE.md, "Index maps"): which element of its operand an element of the result is.
ghost use Rattle.std.specs.Prelude.{◌≡◌, ◌↔◌, ◌<◌, ◌≤◌, ◌*◌, pos, ◌+ℤ◌, IsTrue};
ghost use Rattle.ven_base.specs.Extent.{element_limit};
ghost use Rattle.ven_base.specs.Place.{IsMove, IsCut, place_within as place_inside, place_round as place_around};

use crate::{ELEMENT_LIMIT, Shape};

/// A map of indices. The element at (i, j) of its result, row i and column j from 0 on, is an element of its operand,
/// or a fill.
#[derive(Clone, Copy, Debug, PartialEq, Eq, Hash)]
pub enum Mapping {
    /// The operand itself: element (i, j), in the operand's shape.
    Identity,
    /// The element `dr` rows down and `dc` columns right, (i + dr, j + dc), and `fill` where that leaves the operand.
    /// The result has the operand's shape.
    Shift {
        dr: i64,
        dc: i64,
        fill: i64,
    },
    /// The element `dr` rows down and `dc` columns right, going round at the ends: i + dr modulo the rows and j + dc
    /// modulo the columns, never negative. The result has the operand's shape.
    Rotate {
        dr: i64,
        dc: i64,
    },
    /// `nr` rows from row `r0` on in steps of `sr`, and of these `nc` columns from `c0` on in steps of `sc`: element
    /// (r0 + i·sr, c0 + j·sc), in `nr` rows and `nc` columns.
    Section {
        r0: u32,
        nr: u32,
        sr: u32,
        c0: u32,
        nc: u32,
        sc: u32,
    },
    /// Each row `kr` times, and each column `kc` times: element (i / kr, j / kc), in `kr` times the rows and `kc` times
    /// the columns.
    Stretch {
        kr: u32,
        kc: u32,
    },
    /// Rows and columns exchanged: element (j, i), in as many rows as the operand has columns, and as many columns as
    /// it has rows.
    Transpose,
}

impl Mapping {
    ghost use Rattle.std.specs.Prelude.{◌≡◌};
    ghost use Rattle.ven_base.specs.Extent.{IsIndex};
    ghost use Rattle.ven_base.specs.Mapping.{source_of, result_shape, FitsShape};

    /// Whether the mapping may be taken of an array of shape `of`: a section lies inside, with steps and counts that
    /// aren't 0, a stretch has no 0 and at most 1,048,576 elements, and shifts and rotations go at most 4,294,967,295
    /// far.
    pub fn fits(&self, of: Shape) -> bool
        ensures { IsTrue result ↔ FitsShape self.now of }
    {
        match *self {
            Mapping::Identity | Mapping::Transpose => true,
            Mapping::Shift { dr, dc, .. } => is_move(dr) && is_move(dc),
            Mapping::Rotate { dr, dc } => is_move(dr) && is_move(dc),
            Mapping::Section {
                r0,
                nr,
                sr,
                c0,
                nc,
                sc,
            } => { is_cut(of.rows, r0, nr, sr) && is_cut(of.cols, c0, nc, sc) }
            Mapping::Stretch { kr, kc } => kr >= 1 && kc >= 1 && is_stretch(of, kr, kc),
        }
    }

    /// The shape of the result, where the mapping fits.
    pub fn result(&self, of: Shape) -> Shape
        requires { FitsShape self.now of }
        ensures { result ≡ result_shape self.now of }
    {
        match *self {
            Mapping::Identity | Mapping::Shift { .. } | Mapping::Rotate { .. } => of,
            Mapping::Section { nr, nc, .. } => Shape { rows: nr, cols: nc },
            Mapping::Stretch { kr, kc } => Shape {
                rows: of.rows * kr,
                cols: of.cols * kc,
            },
            Mapping::Transpose => Shape {
                rows: of.cols,
                cols: of.rows,
            },
        }
    }

    /// The index of an operand of shape `of` that index (i, j) of the result stands for, each a row and a column from
    /// 0.
    /// `None` exactly where a shift leaves the shape.
    pub fn source(&self, of: Shape, i: u32, j: u32) -> Option<(u32, u32)>
        requires fits { FitsShape self.now of }
        requires inside { IsIndex (result_shape self.now of) i j }
        ensures { result ≡ source_of self.now of i j }
    {
        match *self {
            Mapping::Identity => Some((i, j)),
            Mapping::Shift { dr, dc, .. } => {
                let row = place_within(of.rows, moved(i, dr))?;
                let col = place_within(of.cols, moved(j, dc))?;
                Some((row, col))
            }
            Mapping::Rotate { dr, dc } => {
                let row = place_round(of.rows, moved(i, dr));
                let col = place_round(of.cols, moved(j, dc));
                Some((row, col))
            }
            Mapping::Section { r0, sr, c0, sc, .. } => Some((r0 + i * sr, c0 + j * sc)),
            Mapping::Stretch { kr, kc } => Some((i / kr, j / kc)),
            Mapping::Transpose => Some((j, i)),
        }
    }
}

/// The furthest that a shift or a rotation may go, to either side.
const MOVE_LIMIT: i64 = 4_294_967_295;

/// Whether a shift or a rotation may go this far.
fn is_move(d: i64) -> bool
    ensures { IsTrue result ↔ IsMove d }
{
    -MOVE_LIMIT <= d && d <= MOVE_LIMIT
}

/// Whether so many places, from the first on in these steps, lie among n places.
fn is_cut(n: u32, first: u32, count: u32, step: u32) -> bool
    ensures { IsTrue result ↔ IsCut n first count step }
{
    if count == 0 || step == 0 {
        return false;
    }
    let last = u128::from(first) + u128::from(count - 1) * u128::from(step);
    last < u128::from(n)
}

/// Whether the stretched shape has few enough elements.
fn is_stretch(of: Shape, kr: u32, kc: u32) -> bool
    ensures { IsTrue result ↔ ((of.rows * kr) * (of.cols * kc) ≤ element_limit) }
{
    let rows = u128::from(of.rows) * u128::from(kr);
    let cols = u128::from(of.cols) * u128::from(kc);
    rows * cols <= u128::from(ELEMENT_LIMIT)
}

/// The place d further.
fn moved(place: u32, d: i64) -> i64
    requires { IsMove d }
    ensures { result ≡ pos place +ℤ d }
{
    i64::from(place) + d
}

/// This place, where it is one of the n places from 0 on.
fn place_within(n: u32, k: i64) -> Option<u32>
    ensures { result ≡ place_inside n k }
{
    if k < 0 || k >= i64::from(n) {
        None
    } else {
        Some(k as u32)
    }
}

/// The place, going round the n places.
fn place_round(n: u32, k: i64) -> u32
    requires { 0 < n }
    ensures { result ≡ place_around n k }
{
    k.rem_euclid(i64::from(n)) as u32
}
