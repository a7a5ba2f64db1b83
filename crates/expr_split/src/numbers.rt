//! The numbers of leaves (docs/COMPILER.md, "Trees").
ghost use Rattle.std.specs.Prelude.{◌<◌, ◌+◌, ◌^◌, IfOk, length};
ghost use Rattle.pass_plan.specs.Tree.{AtLeaf, nodes_of};
ghost use Rattle.pass_plan.specs.Shown.{tree_of};
ghost use Rattle.expr_split.specs.Terms.{term_of};
ghost use Rattle.expr_split.specs.Numbers.{NumbersOnto};

use crate::term::Term;
use indexmap::IndexSet;
use pass_plan::{Leaf, Tree};
use std::alloc::{AllocError, Global};

/// The number of a leaf, which goes last where it isn't there yet.
fn number_of(leaf: &Leaf, leaves: &mut IndexSet<Leaf>) -> Result<u32, AllocError>
    requires { length leaves.old.keys + 1 < 2 ^ 32 }
    ensures { IfOk result (λ k. NumbersOnto (AtLeaf leaf.now) leaves.old.keys leaves.new.keys (AtLeaf k)) }
{
    let (number, _) = leaves.insert_full(*leaf)?;
    Ok(number as u32)
}

/// The tree with its leaves by number; those that aren't there yet go last.
pub fn numbered(alloc: Global, term: &Term, leaves: &mut IndexSet<Leaf>) -> Result<Tree, AllocError>
    requires { length leaves.old.keys + nodes_of (term_of term.now) < 2 ^ 32 }
    ensures { IfOk result (λ t. NumbersOnto (term_of term.now) leaves.old.keys leaves.new.keys (tree_of t)) }
{
    match term {
        Term::Leaf(leaf) => {
            let number = number_of(leaf, leaves)?;
            Ok(Tree::Leaf(number))
        }
        Term::Literal(value) => Ok(Tree::Literal(*value)),
        Term::One { op, elem, a } => {
            let a = numbered(alloc, a, leaves)?;
            Ok(Tree::One {
                op: *op,
                elem: *elem,
                a: Box::new(alloc, a)?,
            })
        }
        Term::Two { op, elem, a, b } => {
            let a = numbered(alloc, a, leaves)?;
            let b = numbered(alloc, b, leaves)?;
            Ok(Tree::Two {
                op: *op,
                elem: *elem,
                a: Box::new(alloc, a)?,
                b: Box::new(alloc, b)?,
            })
        }
        Term::Cast { elem, from, a } => {
            let a = numbered(alloc, a, leaves)?;
            Ok(Tree::Cast {
                elem: *elem,
                from: *from,
                a: Box::new(alloc, a)?,
            })
        }
        Term::Move { elem, a } => {
            let a = numbered(alloc, a, leaves)?;
            Ok(Tree::Move {
                elem: *elem,
                a: Box::new(alloc, a)?,
            })
        }
        Term::Select { elem, c, x, y } => {
            let c = numbered(alloc, c, leaves)?;
            let x = numbered(alloc, x, leaves)?;
            let y = numbered(alloc, y, leaves)?;
            Ok(Tree::Select {
                elem: *elem,
                c: Box::new(alloc, c)?,
                x: Box::new(alloc, x)?,
                y: Box::new(alloc, y)?,
            })
        }
    }
}
