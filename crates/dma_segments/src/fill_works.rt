//! Fills as vector instructions (docs/COMPILER.md, "Instructions of a tile").
ghost use Rattle.std.specs.Prelude.{◌≡◌};
ghost use Rattle.dma_segments.specs.FillWork as spec;

use crate::segments::Fill;
use ven_base::Elem;
use venice_isa::{VecKind, VecOp, VecWork};

/// A number's low 32 bits.
pub fn word_of(n: i64) -> u32
    ensures { result ≡ spec.word_of n }
{
    n.rem_euclid(4_294_967_296) as u32
}

/// A move of A.
pub fn move_kind(elem: Elem, a_scalar: bool, acc: bool) -> VecKind
    ensures { result ≡ spec.move_kind elem a_scalar acc }
{
    VecKind {
        op: VecOp::Mov,
        elem,
        from: elem,
        a_scalar,
        b_scalar: false,
        acc,
    }
}

/// A fill is a move of its number.
pub fn fill_work(fill: &Fill) -> VecWork
    ensures { result ≡ spec.fill_work fill.now }
{
    VecWork {
        kind: move_kind(fill.elem, true, false),
        vl: fill.cols,
        rows: fill.rows,
        dst: fill.at,
        a: word_of(fill.value),
        b: 0,
        dst_step: fill.step,
        a_step: 0,
        b_step: 0,
    }
}
