//! Trees over arrays under maps, before their leaves have numbers.
ghost use Rattle.std.specs.Prelude.{◌≡◌, ◌↔◌, ◌<◌, IfOk, IsTrue};
ghost use Rattle.pass_plan.specs.Tree as tree;
ghost use Rattle.pass_plan.specs.Tree.{height_of};
ghost use Rattle.pass_plan.specs.Normal.{compares as is_comparing, is_comparison as has_comparison, as_condition, as_computed, with_selects, as_root, normalised as in_normal_form};
ghost use Rattle.expr_split.specs.Terms.{term_of};

use pass_plan::Leaf;
use std::alloc::{AllocError, Global};
use ven_base::{Elem, Op1, Op2};

/// A tree as in a pass, but each leaf is an array under a map.
#[derive(Drop)]
pub enum Term {
    Leaf(Leaf),
    Literal(i64),
    One {
        op: Op1,
        elem: Elem,
        a: Box<Term>,
    },
    Two {
        op: Op2,
        elem: Elem,
        a: Box<Term>,
        b: Box<Term>,
    },
    Cast {
        elem: Elem,
        from: Elem,
        a: Box<Term>,
    },
    Move {
        elem: Elem,
        a: Box<Term>,
    },
    Select {
        elem: Elem,
        c: Box<Term>,
        x: Box<Term>,
        y: Box<Term>,
    },
}

/// An operation on one.
pub fn one(alloc: Global, op: Op1, elem: Elem, a: Term) -> Result<Term, AllocError>
    ensures { IfOk result (λ t. term_of t ≡ tree.One op elem (term_of a)) }
{
    let a = Box::new(alloc, a)?;
    Ok(Term::One { op, elem, a })
}

/// An operation on two.
pub fn two(alloc: Global, op: Op2, elem: Elem, a: Term, b: Term) -> Result<Term, AllocError>
    ensures { IfOk result (λ t. term_of t ≡ tree.Two op elem (term_of a) (term_of b)) }
{
    let a = Box::new(alloc, a)?;
    let b = Box::new(alloc, b)?;
    Ok(Term::Two { op, elem, a, b })
}

/// An operand of the type `from`, wrapped into the type `elem`.
pub fn cast(alloc: Global, elem: Elem, from: Elem, a: Term) -> Result<Term, AllocError>
    ensures { IfOk result (λ t. term_of t ≡ tree.Cast elem from (term_of a)) }
{
    let a = Box::new(alloc, a)?;
    Ok(Term::Cast { elem, from, a })
}

/// `x` where `c` isn't 0, else `y`.
pub fn select(alloc: Global, elem: Elem, c: Term, x: Term, y: Term) -> Result<Term, AllocError>
    ensures { IfOk result (λ t. term_of t ≡ tree.Select elem (term_of c) (term_of x) (term_of y)) }
{
    let c = Box::new(alloc, c)?;
    let x = Box::new(alloc, x)?;
    let y = Box::new(alloc, y)?;
    Ok(Term::Select { elem, c, x, y })
}

/// A copy of a tree.
pub fn copy(alloc: Global, term: &Term) -> Result<Term, AllocError>
    ensures { IfOk result (λ t. term_of t ≡ term_of term.now) }
{
    match term {
        Term::Leaf(leaf) => Ok(Term::Leaf(*leaf)),
        Term::Literal(value) => Ok(Term::Literal(*value)),
        Term::One { op, elem, a } => {
            let a = copy(alloc, a)?;
            one(alloc, *op, *elem, a)
        }
        Term::Two { op, elem, a, b } => {
            let a = copy(alloc, a)?;
            let b = copy(alloc, b)?;
            two(alloc, *op, *elem, a, b)
        }
        Term::Cast { elem, from, a } => {
            let a = copy(alloc, a)?;
            cast(alloc, *elem, *from, a)
        }
        Term::Move { elem, a } => {
            let a = Box::new(alloc, copy(alloc, a)?)?;
            Ok(Term::Move { elem: *elem, a })
        }
        Term::Select { elem, c, x, y } => {
            let c = copy(alloc, c)?;
            let x = copy(alloc, x)?;
            let y = copy(alloc, y)?;
            select(alloc, *elem, c, x, y)
        }
    }
}

/// Whether an operation answers 1 or 0.
fn compares(op: Op2) -> bool
    ensures { result ≡ is_comparing op }
{
    match op {
        Op2::Eq | Op2::Ne | Op2::Lt | Op2::Le | Op2::Gt | Op2::Ge => true,
        _ => false,
    }
}

fn is_comparison(term: &Term) -> bool
    ensures { result ≡ has_comparison (term_of term.now) }
{
    match term {
        Term::Two { op, .. } => compares(*op),
        _ => false,
    }
}

/// Whether a tree is higher than this.
pub fn is_higher(term: &Term, limit: u32) -> bool
    ensures { IsTrue result ↔ (limit < height_of (term_of term.now)) }
{
    if limit == 0 {
        return true;
    }
    match term {
        Term::Leaf(_) => false,
        Term::Literal(_) => false,
        Term::One { a, .. } => is_higher(a, limit - 1),
        Term::Cast { a, .. } => is_higher(a, limit - 1),
        Term::Move { a, .. } => is_higher(a, limit - 1),
        Term::Two { a, b, .. } => is_higher(a, limit - 1) || is_higher(b, limit - 1),
        Term::Select { c, x, y, .. } => {
            is_higher(c, limit - 1) || is_higher(x, limit - 1) || is_higher(y, limit - 1)
        }
    }
}

/// A condition that is no comparison is compared with 0.
fn condition(alloc: Global, elem: Elem, term: Term) -> Result<Term, AllocError>
    ensures { IfOk result (λ t. term_of t ≡ as_condition elem (term_of term)) }
{
    let compared = is_comparison(&term);
    if compared {
        return Ok(term);
    }
    let a = Box::new(alloc, term)?;
    let b = Box::new(alloc, Term::Literal(0))?;
    Ok(Term::Two {
        op: Op2::Ne,
        elem,
        a,
        b,
    })
}

/// A leaf or a literal becomes a move of it.
fn computed(alloc: Global, elem: Elem, term: Term) -> Result<Term, AllocError>
    ensures { IfOk result (λ t. term_of t ≡ as_computed elem (term_of term)) }
{
    match term {
        Term::Leaf(leaf) => {
            let a = Box::new(alloc, Term::Leaf(leaf))?;
            Ok(Term::Move { elem, a })
        }
        Term::Literal(value) => {
            let a = Box::new(alloc, Term::Literal(value))?;
            Ok(Term::Move { elem, a })
        }
        other => Ok(other),
    }
}

/// A root that is a leaf, a literal or a select becomes a move of it.
fn root(alloc: Global, elem: Elem, term: Term) -> Result<Term, AllocError>
    ensures { IfOk result (λ t. term_of t ≡ as_root elem (term_of term)) }
{
    match term {
        Term::Leaf(leaf) => {
            let a = Box::new(alloc, Term::Leaf(leaf))?;
            Ok(Term::Move { elem, a })
        }
        Term::Literal(value) => {
            let a = Box::new(alloc, Term::Literal(value))?;
            Ok(Term::Move { elem, a })
        }
        Term::Select { elem: of, c, x, y } => {
            let a = Box::new(alloc, Term::Select { elem: of, c, x, y })?;
            Ok(Term::Move { elem, a })
        }
        other => Ok(other),
    }
}

/// The tree with its selects normalised.
fn with_normal_selects(alloc: Global, term: Term) -> Result<Term, AllocError>
    ensures { IfOk result (λ t. term_of t ≡ with_selects (term_of term)) }
{
    match term {
        Term::Leaf(leaf) => Ok(Term::Leaf(leaf)),
        Term::Literal(value) => Ok(Term::Literal(value)),
        Term::One { op, elem, a } => {
            let a = with_normal_selects(alloc, Box::into_inner(a))?;
            one(alloc, op, elem, a)
        }
        Term::Two { op, elem, a, b } => {
            let a = with_normal_selects(alloc, Box::into_inner(a))?;
            let b = with_normal_selects(alloc, Box::into_inner(b))?;
            two(alloc, op, elem, a, b)
        }
        Term::Cast { elem, from, a } => {
            let a = with_normal_selects(alloc, Box::into_inner(a))?;
            cast(alloc, elem, from, a)
        }
        Term::Move { elem, a } => {
            let a = with_normal_selects(alloc, Box::into_inner(a))?;
            Ok(Term::Move {
                elem,
                a: Box::new(alloc, a)?,
            })
        }
        Term::Select { elem, c, x, y } => {
            let c = with_normal_selects(alloc, Box::into_inner(c))?;
            let c = condition(alloc, elem, c)?;
            let x = with_normal_selects(alloc, Box::into_inner(x))?;
            let y = with_normal_selects(alloc, Box::into_inner(y))?;
            let y = computed(alloc, elem, y)?;
            select(alloc, elem, c, x, y)
        }
    }
}

/// A tree of this type, normalised.
pub fn normalised(alloc: Global, elem: Elem, term: Term) -> Result<Term, AllocError>
    ensures { IfOk result (λ t. term_of t ≡ in_normal_form elem (term_of term)) }
{
    let term = with_normal_selects(alloc, term)?;
    root(alloc, elem, term)
}
