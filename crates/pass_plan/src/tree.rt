//! The trees of passes (docs/COMPILER.md, "Trees").
use ven_base::{Elem, Op1, Op2};

/// What an inner node of a tree does.
#[derive(Clone, Copy)]
pub enum TreeOp {
    One(Op1),
    Two(Op2),
    Cast,
    Move,
    Select,
}

/// What a pass works out at each index of its domain. `elem` is the type of a node's results; its operands are of that type
/// too, but that of a cast, which is of the type `from`.
#[derive(Drop)]
pub enum Tree {
    /// The leaf with this number among the pass's leaves, from 0.
    Leaf(u32),
    /// A number of the type that its node asks for.
    Literal(i64),
    One {
        op: Op1,
        elem: Elem,
        a: Box<Tree>,
    },
    Two {
        op: Op2,
        elem: Elem,
        a: Box<Tree>,
        b: Box<Tree>,
    },
    /// The operand, wrapped into the type.
    Cast {
        elem: Elem,
        from: Elem,
        a: Box<Tree>,
    },
    /// The operand itself.
    Move {
        elem: Elem,
        a: Box<Tree>,
    },
    /// `x` where `c` isn't 0, else `y`.
    Select {
        elem: Elem,
        c: Box<Tree>,
        x: Box<Tree>,
        y: Box<Tree>,
    },
}
