//! The array language's text, read and printed (docs/LANGUAGE.md, "Programs").
//!
//! `parse` gives the program that a text denotes, exactly where the text has no fault; else it answers the first fault,
//! by its place and then by its rank. What it gives keeps the language's limits. `print` gives a text that denotes a
//! program, apart from its places. `one_reading` is the law that tokens are one list of statements at most.
//!
//! The definitions in `specs/` say what a text is: `Table` has the binary signs with their levels and the functions
//! with their arguments, `Words` what tokens say, `Grammar` which tokens are which statements, `Limits` the limits,
//! `Faults` the faults with their order, and `Printed` the printed text. The others serve the code alone.
//!
//! A caller reads a program, and prints it:
//!
//! ```text
//! let program = parse(alloc, text)?;
//! let lines = print(alloc, &program)?;
//! ```
#![tactic(auto)]

mod call;
mod calls;
mod fault;
mod frames;
mod laws;
mod limits;
mod machine;
mod node;
mod operators;
mod parsing;
mod printing;
mod program;
mod tokens;
mod word;
mod words;

pub use fault::ParseFault;
pub use laws::one_reading;
pub use limits::{HEIGHT_LIMIT, NODE_LIMIT, STATEMENT_LIMIT};
pub use parsing::parse;
pub use printing::print;
pub use program::{Expr, ExprKind, Program, Stmt};
