//! The table of functions.

ghost use Rattle.std.specs.Prelude.{◌≡◌, IfOk};
ghost use Rattle.array_syntax.specs.Grammar.{expr};
ghost use Rattle.array_syntax.specs.Reading.{placed};
ghost use Rattle.array_syntax.specs.Table.{operands, numbers, takes_sign, call_of, map_of};

use crate::call::{Earlier, Number};
use crate::node::{Node, Steps};
use crate::word::Callee;
use sqlite_items::Items;
use std::alloc::{AllocError, Global};
use ven_base::{Op1, Op2};

/// How many expressions a function takes first.
pub fn operands(callee: Callee) -> usize
    ensures { result ≡ operands callee }
{
    match callee {
        Callee::Min | Callee::Max | Callee::SatAdd | Callee::SatSub => 2,
        Callee::Select => 3,
        _ => 1,
    }
}

/// How many numbers it takes behind them.
pub fn numbers(callee: Callee) -> usize
    ensures { result ≡ numbers callee }
{
    match callee {
        Callee::Shift => 3,
        Callee::Rotate | Callee::Stretch => 2,
        Callee::Section => 6,
        _ => 0,
    }
}

/// Whether these numbers may have a sign.
pub fn takes_sign(callee: Callee) -> bool
    ensures { result ≡ takes_sign callee }
{
    matches!(callee, Callee::Shift | Callee::Rotate)
}

/// The call of a function with one operand alone.
fn call_of_one(alloc: Global, at: u32, callee: Callee, a: Node) -> Result<Option<Node>, AllocError>
    ensures { IfOk result (λ node. node ≡ placed at (call_of callee Earlier.Nothing a)) }
{
    let node = match callee {
        Callee::Cast(elem) => Node::cast(alloc, at, elem, a)?,
        Callee::Abs => Node::one(alloc, at, Op1::Abs, a)?,
        Callee::RowFold(fold) => Node::row_fold(alloc, at, fold, a)?,
        Callee::Fold(fold) => Node::fold(alloc, at, fold, a)?,
        Callee::Transpose => Node::transpose(alloc, at, a)?,
        _ => return Ok(None),
    };
    Ok(Some(node))
}

/// The call of a function with two operands.
fn call_of_two(
    alloc: Global,
    at: u32,
    callee: Callee,
    a: Node,
    b: Node,
) -> Result<Option<Node>, AllocError>
    ensures { IfOk result (λ node. node ≡ placed at (call_of callee (Earlier.One a) b)) }
{
    let op = match callee {
        Callee::Min => Op2::Min,
        Callee::Max => Op2::Max,
        Callee::SatAdd => Op2::SatAdd,
        Callee::SatSub => Op2::SatSub,
        _ => return Ok(None),
    };
    Ok(Some(Node::two(alloc, at, op, a, b)?))
}

/// The call of a function with operands alone: those before the last, and the last.
pub fn call_of(
    alloc: Global,
    at: u32,
    callee: Callee,
    before: Earlier,
    e: Node,
) -> Result<Option<Node>, AllocError>
    ensures { IfOk result (λ node. node ≡ placed at (call_of callee before e)) }
{
    match before {
        Earlier::Nothing => call_of_one(alloc, at, callee, e),
        Earlier::One(a) => call_of_two(alloc, at, callee, a, e),
        Earlier::Two(c, a) => match callee {
            Callee::Select => Ok(Some(Node::select(alloc, at, c, a, e)?)),
            _ => Ok(None),
        },
    }
}

fn shift(alloc: Global, at: u32, of: Node, values: &[Number]) -> Result<Option<Node>, AllocError>
    ensures { IfOk result (λ node. node ≡ placed at (map_of Callee.Shift of values.now)) }
{
    match values {
        [dr, dc, fill] => Ok(Some(Node::shift(
            alloc, at, of, dr.value, dc.value, fill.value, fill.at,
        )?)),
        _ => Ok(None),
    }
}

fn rotate(alloc: Global, at: u32, of: Node, values: &[Number]) -> Result<Option<Node>, AllocError>
    ensures { IfOk result (λ node. node ≡ placed at (map_of Callee.Rotate of values.now)) }
{
    match values {
        [dr, dc] => Ok(Some(Node::rotate(alloc, at, of, dr.value, dc.value)?)),
        _ => Ok(None),
    }
}

fn section(alloc: Global, at: u32, of: Node, values: &[Number]) -> Result<Option<Node>, AllocError>
    ensures { IfOk result (λ node. node ≡ placed at (map_of Callee.Section of values.now)) }
{
    match values {
        [r0, nr, sr, c0, nc, sc] => {
            let rows = Steps {
                first: r0.value,
                count: nr.value,
                step: sr.value,
            };
            let cols = Steps {
                first: c0.value,
                count: nc.value,
                step: sc.value,
            };
            Ok(Some(Node::section(alloc, at, of, rows, cols)?))
        }
        _ => Ok(None),
    }
}

fn stretch(alloc: Global, at: u32, of: Node, values: &[Number]) -> Result<Option<Node>, AllocError>
    ensures { IfOk result (λ node. node ≡ placed at (map_of Callee.Stretch of values.now)) }
{
    match values {
        [kr, kc] => Ok(Some(Node::stretch(alloc, at, of, kr.value, kc.value)?)),
        _ => Ok(None),
    }
}

/// The call of a function with an operand and numbers.
pub fn map_of(
    alloc: Global,
    at: u32,
    callee: Callee,
    of: Node,
    values: &[Number],
) -> Result<Option<Node>, AllocError>
    ensures { IfOk result (λ node. node ≡ placed at (map_of callee of values.now)) }
{
    match callee {
        Callee::Shift => shift(alloc, at, of, values),
        Callee::Rotate => rotate(alloc, at, of, values),
        Callee::Section => section(alloc, at, of, values),
        Callee::Stretch => stretch(alloc, at, of, values),
        _ => Ok(None),
    }
}
