//! Checking an expression: its operands from left to right, and then the node's own rules (docs/LANGUAGE.md,
//! "Checking").

ghost use Rattle.std.specs.Prelude.{◌≡◌, ◌≤◌, length, IfOk};
ghost use Rattle.array_syntax.specs.Limits.{IsWritable, most_statements};
ghost use Rattle.array_syntax.specs.Tree.{tree_of};
ghost use Rattle.shape_check.specs.Typed.{node_of};
ghost use Rattle.shape_check.specs.Node.{Node};
ghost use Rattle.shape_check.specs.Judge.{Answers, operand_of, judge, lone, chain, array};

use crate::names::Names;
use crate::operand::Operand;
use crate::{CheckFault, Typed, build, rules};
use array_syntax::{Expr, ExprKind};
use std::alloc::{AllocError, Global};
use ven_base::Mapping;

/// The operand that an expression is.
#[cycle(operands)]
pub fn operand(alloc: Global, names: &Names, e: &Expr) -> Result<Operand, CheckFault>
    requires writable { IsWritable (tree_of e.now) }
    requires room { length names.now ≤ most_statements }
    ensures { Answers operand_of (judge names.now (tree_of e.now)) result }
{
    match &e.kind {
        ExprKind::Name(name) => rules::name(names, e.at, name),
        ExprKind::Literal(value) => {
            let (at, value) = (e.at, *value);
            Ok(Operand::Number { at, value })
        }
        ExprKind::One(op, a) => {
            let a = array(alloc, names, a.get())?;
            made(build::one(alloc, *op, a))
        }
        ExprKind::Two(op, a, b) => {
            let a = operand(alloc, names, a.get())?;
            let b = operand(alloc, names, b.get())?;
            rules::two(alloc, e.at, *op, a, b)
        }
        ExprKind::Cast(elem, a) => {
            let a = array(alloc, names, a.get())?;
            made(build::cast(alloc, *elem, a))
        }
        ExprKind::Select(c, x, y) => {
            let c = operand(alloc, names, c.get())?;
            let x = operand(alloc, names, x.get())?;
            let y = operand(alloc, names, y.get())?;
            rules::select(alloc, e.at, c, x, y)
        }
        ExprKind::Shift {
            of,
            dr,
            dc,
            fill,
            fill_at,
        } => {
            let of = array(alloc, names, of.get())?;
            rules::shift(alloc, of, *dr, *dc, *fill, *fill_at)
        }
        ExprKind::Rotate { of, dr, dc } => {
            let of = array(alloc, names, of.get())?;
            let (dr, dc) = (*dr, *dc);
            made(build::map(alloc, Mapping::Rotate { dr, dc }, of))
        }
        ExprKind::Section {
            of,
            r0,
            nr,
            sr,
            c0,
            nc,
            sc,
        } => {
            let of = array(alloc, names, of.get())?;
            let mapping = rules::section_of(*r0, *nr, *sr, *c0, *nc, *sc);
            rules::section(alloc, e.at, mapping, of)
        }
        ExprKind::Stretch { of, kr, kc } => {
            let of = array(alloc, names, of.get())?;
            rules::stretch(alloc, e.at, rules::stretch_of(*kr, *kc), of)
        }
        ExprKind::Transpose(of) => {
            let of = array(alloc, names, of.get())?;
            made(build::map(alloc, Mapping::Transpose, of))
        }
        ExprKind::RowFold(fold, a) => {
            let a = array(alloc, names, a.get())?;
            made(build::row_fold(alloc, *fold, a))
        }
        ExprKind::Fold(fold, a) => {
            let a = array(alloc, names, a.get())?;
            made(build::fold(alloc, *fold, a))
        }
    }
}

/// The array that an expression is: a literal here stands alone.
#[cycle(operands)]
pub fn array(alloc: Global, names: &Names, e: &Expr) -> Result<Typed, CheckFault>
    requires writable { IsWritable (tree_of e.now) }
    requires room { length names.now ≤ most_statements }
    ensures { Answers node_of (chain (judge names.now (tree_of e.now)) lone) result }
{
    operand(alloc, names, e)?.lone()
}

/// A node that was made, as an operand.
pub fn made(node: Result<Typed, AllocError>) -> Result<Operand, CheckFault>
    ensures { (e : Node) → IfOk node (λ t. node_of t ≡ e) → Answers operand_of (array e) result }
{
    Ok(Operand::Array(node?))
}
