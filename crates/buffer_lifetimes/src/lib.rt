//! The order in which a tree is evaluated, and the slots that its results take.
//!
//! `order` answers the steps of a tree, one for each inner node, on as many slots as the tree's label. A lawful order
//! (`specs/Order`) is a run of a machine whose slots hold trees: a step takes its arguments out of their slots and
//! puts its own tree into one that then holds nothing which is still to be read. `specs/OrderOf` has the rule of the
//! order that is answered, and `laws` what holds of every lawful order, its values among them. docs/COMPILER.md,
//! "Orders of evaluation", says it in words.
#![tactic(auto)]

mod assign;
mod laws;
mod step;

pub use assign::order;
pub use laws::{order_laws, value_laws};
pub use step::{Assigned, EvalStep, Operand};
