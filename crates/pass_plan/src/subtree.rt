//! A subtree with its nodes.
ghost use Rattle.std.specs.Prelude.{◌≡◌, ℕ, ◌+◌, ◌<◌, ◌≤◌, length, get_or, take, drop, map};
ghost use Rattle.pass_plan.specs.Tree.{is_computed, operands_of};
ghost use Rattle.pass_plan.specs.Label.{label_of};
ghost use Rattle.pass_plan.specs.Shown.{tree_of};
ghost use Rattle.pass_plan.specs.Numbers.{inner_of, operand_number, places_of, turns_of};
ghost use Rattle.pass_plan.specs.NumberShown.{BeginsWith, IsSubtree, no_tree};

use crate::{NumberedNode, Tree, Turn};

/// A part of a tree, and its nodes in the order of their numbers, which are those of the whole tree.
#[derive(Clone, Copy)]
pub struct Subtree<'t> {
    pub tree: &'t Tree,
    pub nodes: &'t [NumberedNode],
}

/// How many operands the root of a tree has: none at a leaf or a literal.
pub fn arity(tree: &Tree) -> usize
    ensures { result ≡ length (operands_of (tree_of tree.now)) }
{
    match tree {
        Tree::Leaf(_) | Tree::Literal(_) => 0,
        Tree::One { .. } | Tree::Cast { .. } | Tree::Move { .. } => 1,
        Tree::Two { .. } => 2,
        Tree::Select { .. } => 3,
    }
}

/// The operand at a place, from 0.
pub fn operand(tree: &Tree, place: usize) -> &Tree
    requires { place < length (operands_of (tree_of tree.now)) }
    ensures { tree_of result.now ≡ get_or (operands_of (tree_of tree.now)) place no_tree }
{
    match tree {
        Tree::Leaf(_) | Tree::Literal(_) => tree,
        Tree::One { a, .. } | Tree::Cast { a, .. } | Tree::Move { a, .. } => a,
        Tree::Two { a, b, .. } => { if place == 0 { a } else { b } }
        Tree::Select { c, x, y, .. } => match place {
            0 => c,
            1 => x,
            _ => y,
        },
    }
}

/// How many inner nodes a tree has that these nodes begin with.
fn inner(tree: &Tree, nodes: &[NumberedNode]) -> usize
    requires { BeginsWith nodes.now (tree_of tree.now) }
    ensures inner { result ≡ inner_of (tree_of tree.now) }
    ensures within { result ≤ length nodes.now }
{
    if arity(tree) == 0 {
        0
    } else {
        nodes[0].inner as usize
    }
}

/// The tree with its nodes, which these nodes begin with.
fn first<'t>(tree: &'t Tree, nodes: &'t [NumberedNode]) -> Subtree<'t>
    requires { BeginsWith nodes.now (tree_of tree.now) }
    ensures tree { tree_of result.tree.now ≡ tree_of tree.now }
    ensures nodes { result.nodes.now ≡ take (inner_of (tree_of tree.now)) nodes.now }
{
    let count = inner(tree, nodes);
    let nodes = &nodes[..count];
    Subtree { tree, nodes }
}

/// The nodes behind those of the tree.
fn after<'t>(tree: &Tree, nodes: &'t [NumberedNode]) -> &'t [NumberedNode]
    requires { BeginsWith nodes.now (tree_of tree.now) }
    ensures { result.now ≡ drop (inner_of (tree_of tree.now)) nodes.now }
{
    let count = inner(tree, nodes);
    &nodes[count..]
}

impl<'t> Subtree<'t> {
    /// Whether it is neither a leaf nor a literal.
    pub fn is_computed(&self) -> bool
        ensures { result ≡ is_computed (tree_of self.now.tree.now) }
    {
        arity(self.tree) > 0
    }

    /// Its label.
    pub fn label(&self) -> u32
        requires { (n : ℕ) × IsSubtree self.now n }
        ensures { result ≡ label_of (tree_of self.now.tree.now) }
    {
        if self.is_computed() {
            self.nodes[0].label
        } else {
            0
        }
    }

    /// Its root's computed operands in turn: none at a leaf or a literal.
    pub fn turns(&self) -> &'t [Turn]
        requires { (n : ℕ) × IsSubtree self.now n }
        ensures turns { (n : ℕ) → IsSubtree self.now n
            → result.now ≡ turns_of (operands_of (tree_of self.now.tree.now)) 0 (n + 1) }
        ensures places { map (λ turn. turn.place) result.now ≡ places_of (tree_of self.now.tree.now) }
    {
        if self.is_computed() {
            self.nodes[0].turns.as_slice()
        } else {
            &[]
        }
    }

    /// The operand at a place, from 0, with its nodes.
    pub fn operand(&self, place: usize) -> Subtree<'t>
        requires place { place < length (operands_of (tree_of self.now.tree.now)) }
        requires nodes { (n : ℕ) × IsSubtree self.now n }
        ensures tree { tree_of result.tree.now ≡ get_or (operands_of (tree_of self.now.tree.now)) place no_tree }
        ensures nodes { (n : ℕ) → IsSubtree self.now n
            → IsSubtree result (operand_number (operands_of (tree_of self.now.tree.now)) place (n + 1)) }
    {
        let mut nodes = &self.nodes[1..];
        for k in 0..place {
            nodes = after(operand(self.tree, k), nodes);
        }
        first(operand(self.tree, place), nodes)
    }
}
