//! Steps of evaluation (docs/COMPILER.md, "Orders of evaluation").
use pass_plan::TreeOp;
use smallvec::SmallVec;
use ven_base::Elem;

/// What a step reads: a leaf by its number, a number of the type that the step asks for, or what a slot holds.
#[derive(Clone, Copy)]
pub enum Operand {
    Leaf(u32),
    Literal(i64),
    Slot(u32),
}

impl Default for Operand {
    fn default() -> Self {
        Operand::Literal(0)
    }
}

/// One inner node of a tree: its operation and types, its arguments from left to right, and the slot that it writes.
/// `from` is the type of what a cast reads; for each other operation it is `elem`.
#[derive(Drop)]
pub struct EvalStep {
    pub op: TreeOp,
    pub elem: Elem,
    pub from: Elem,
    pub args: SmallVec<Operand, 3>,
    pub to: u32,
}

/// The steps of a tree in order, and how many slots they use. The last step writes the tree's value.
#[derive(Drop)]
pub struct Assigned {
    pub steps: Vec<EvalStep>,
    pub slots: u32,
}
