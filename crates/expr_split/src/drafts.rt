//! The passes of expressions, before their leaves have numbers (docs/COMPILER.md, "Cuts" and "Trees").
ghost use Rattle.std.specs.Prelude.{◌≡◌, ◌+◌, ◌*◌, ◌<◌, ◌^◌, IfOk, map, get_or};
ghost use Rattle.shape_check.specs.Checked.{nodes_of};
ghost use Rattle.shape_check.specs.Node.{elem_of as node_elem};
ghost use Rattle.shape_check.specs.Typed.{node_of};
ghost use Rattle.pass_plan.specs.Tree.{AtLeaf};
ghost use Rattle.pass_plan.specs.declared.pass.PassKind.TheVariants as kinds;
ghost use Rattle.expr_split.specs.Cuts.{UnderMap, Inside, is_reduction as has_reduction, is_name as has_name, under as under_map, no_tree, as_row as as_one_row, own_of, seen_of};
ghost use Rattle.expr_split.specs.Terms.{term_of, IsOwn, IsSeen, IsCutOf, IsColumnOf};

use crate::term::{Term, cast, copy, normalised, one, select, two};
use pass_plan::{Leaf, PassKind};
use shape_check::{Typed, TypedKind};
use std::alloc::{AllocError, Global};
use ven_base::{Elem, Fold, Mapping, Shape};

/// A pass whose leaves have no numbers yet; its tree is normalised.
#[derive(Drop)]
pub struct Draft {
    pub kind: PassKind,
    pub domain: Shape,
    pub elem: Elem,
    pub tree: Term,
}

/// What a node is as the root of a pass; its tree isn't normalised yet.
#[derive(Drop)]
pub struct Own {
    pub kind: PassKind,
    pub domain: Shape,
    pub elem: Elem,
    pub term: Term,
}

/// The passes so far, and the number of the array that the next one makes.
#[derive(Drop)]
pub struct Plan {
    pub next: u32,
    pub drafts: Vec<Draft>,
}

/// The type of a node's array.
fn elem_of(node: &Typed) -> Elem
    ensures { result ≡ node_elem (node_of node.now) }
{
    node.elem
}

/// Whether the node is a reduction, of each row or of the whole array.
pub fn is_reduction(node: &Typed) -> bool
    ensures { result ≡ has_reduction (node_of node.now) }
{
    match &node.kind {
        TypedKind::RowFold(_, _) => true,
        TypedKind::Fold(_, _) => true,
        _ => false,
    }
}

fn is_name(node: &Typed) -> bool
    ensures { result ≡ has_name (node_of node.now) }
{
    match &node.kind {
        TypedKind::Name(_) => true,
        _ => false,
    }
}

/// The pass of a cut goes last; the leaf of its array, which has this type and shape.
pub fn cut(
    alloc: Global,
    own: Own,
    elem: Elem,
    shape: Shape,
    plan: &mut Plan,
) -> Result<Term, AllocError>
    requires { plan.old.next + 1 < 2 ^ 32 }
    ensures { IfOk result (λ t. IsCutOf t elem shape own plan.old plan.new) }
{
    let tree = normalised(alloc, own.elem, own.term)?;
    let array = plan.next;
    plan.drafts.push(Draft {
        kind: own.kind,
        domain: own.domain,
        elem: own.elem,
        tree,
    })?;
    plan.next += 1;
    Ok(Term::Leaf(Leaf {
        array,
        elem,
        shape,
        map: Mapping::Identity,
    }))
}

/// The leaf under a map.
fn under(mapping: Mapping, term: Term) -> Term
    ensures { term_of result ≡ under_map mapping (term_of term) }
{
    match term {
        Term::Leaf(leaf) => Term::Leaf(Leaf {
            array: leaf.array,
            elem: leaf.elem,
            shape: leaf.shape,
            map: mapping,
        }),
        other => other,
    }
}

/// The tree of an operand; its passes go last.
#[cycle(nodes)]
fn seen(alloc: Global, node: &Typed, names: &[Term], plan: &mut Plan) -> Result<Term, AllocError>
    requires { plan.old.next + 2 * nodes_of (node_of node.now) < 2 ^ 32 }
    ensures { IfOk result (λ t. IsSeen t plan.old plan.new (node_of node.now)
        (seen_of Inside (map term_of names.now) plan.old.next (node_of node.now))) }
{
    let own = root_of(alloc, node, names, plan)?;
    if is_reduction(node) {
        cut(alloc, own, node.elem, node.shape, plan)
    } else {
        Ok(own.term)
    }
}

/// The tree of a map's operand; its passes go last.
#[cycle(nodes)]
fn seen_under_map(
    alloc: Global,
    node: &Typed,
    names: &[Term],
    plan: &mut Plan,
) -> Result<Term, AllocError>
    requires { plan.old.next + 2 * nodes_of (node_of node.now) < 2 ^ 32 }
    ensures { IfOk result (λ t. IsSeen t plan.old plan.new (node_of node.now)
        (seen_of UnderMap (map term_of names.now) plan.old.next (node_of node.now))) }
{
    let own = root_of(alloc, node, names, plan)?;
    if is_name(node) {
        Ok(own.term)
    } else {
        cut(alloc, own, node.elem, node.shape, plan)
    }
}

/// The tree that a name stands for.
fn named(alloc: Global, names: &[Term], k: u32) -> Result<Term, AllocError>
    ensures { IfOk result (λ t. term_of t ≡ get_or (map term_of names.now) k no_tree) }
{
    match names.get(k as usize) {
        Some(term) => copy(alloc, term),
        None => Ok(Term::Literal(0)),
    }
}

/// A tree as the root of a pass that makes its values.
fn map_of(domain: Shape, elem: Elem, term: Term) -> Own
    ensures { result ≡ record { kind = kinds.Map; domain = domain; elem = elem; term = term } }
{
    Own {
        kind: PassKind::Map,
        domain,
        elem,
        term,
    }
}

/// A node as the root of a pass; the passes of the cuts below it go last.
#[cycle(nodes)]
pub fn root_of(
    alloc: Global,
    node: &Typed,
    names: &[Term],
    plan: &mut Plan,
) -> Result<Own, AllocError>
    requires { plan.old.next + 2 * nodes_of (node_of node.now) < 2 ^ 32 }
    ensures { IfOk result (λ o. IsOwn o plan.old plan.new (node_of node.now)
        (own_of (map term_of names.now) plan.old.next (node_of node.now))) }
{
    let elem = node.elem;
    let domain = node.shape;
    match &node.kind {
        TypedKind::Name(k) => {
            let term = named(alloc, names, *k)?;
            Ok(map_of(domain, elem, term))
        }
        TypedKind::Literal(value) => Ok(map_of(domain, elem, Term::Literal(*value))),
        TypedKind::One(op, a) => {
            let a = seen(alloc, a, names, plan)?;
            let term = one(alloc, *op, elem, a)?;
            Ok(map_of(domain, elem, term))
        }
        TypedKind::Two(op, a, b) => {
            let a = seen(alloc, a, names, plan)?;
            let b = seen(alloc, b, names, plan)?;
            let term = two(alloc, *op, elem, a, b)?;
            Ok(map_of(domain, elem, term))
        }
        TypedKind::Cast(a) => {
            let from = elem_of(a);
            let a = seen(alloc, a, names, plan)?;
            let term = cast(alloc, elem, from, a)?;
            Ok(map_of(domain, elem, term))
        }
        TypedKind::Select(c, x, y) => {
            let c = seen(alloc, c, names, plan)?;
            let x = seen(alloc, x, names, plan)?;
            let y = seen(alloc, y, names, plan)?;
            let term = select(alloc, elem, c, x, y)?;
            Ok(map_of(domain, elem, term))
        }
        TypedKind::Map(mapping, a) => {
            let a = seen_under_map(alloc, a, names, plan)?;
            Ok(map_of(domain, elem, under(*mapping, a)))
        }
        TypedKind::RowFold(fold, a) => {
            let domain = a.shape;
            let term = seen(alloc, a, names, plan)?;
            Ok(reduction_of(*fold, domain, elem, term))
        }
        TypedKind::Fold(fold, a) => {
            let domain = a.shape;
            let term = seen(alloc, a, names, plan)?;
            column(alloc, reduction_of(*fold, domain, elem, term), plan)
        }
    }
}

/// A tree as the root of a pass that reduces its rows.
fn reduction_of(fold: Fold, domain: Shape, elem: Elem, term: Term) -> Own
    ensures { result ≡ record { kind = kinds.Reduce fold; domain = domain; elem = elem; term = term } }
{
    Own {
        kind: PassKind::Reduce(fold),
        domain,
        elem,
        term,
    }
}

/// The pass of these rows' reductions goes last; the root of the pass that reduces what it makes, as one row.
fn column(alloc: Global, rows: Own, plan: &mut Plan) -> Result<Own, AllocError>
    requires { plan.old.next + 1 < 2 ^ 32 }
    ensures { IfOk result (λ o. IsColumnOf o rows plan.old plan.new) }
{
    let (kind, elem) = (rows.kind, rows.elem);
    let domain = as_row(rows.domain);
    let term = cut(alloc, rows, elem, domain, plan)?;
    Ok(Own {
        kind,
        domain,
        elem,
        term,
    })
}

/// One row of as many columns as a shape has rows.
fn as_row(shape: Shape) -> Shape
    ensures { result ≡ as_one_row shape }
{
    Shape {
        rows: 1,
        cols: shape.rows,
    }
}
