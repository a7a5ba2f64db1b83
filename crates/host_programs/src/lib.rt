//! Host code: programs of issues, whose numbers are expressions over registers, and the instructions that pass on a
//! program's list.
//!
//! A program (`specs/Program`) has names, choices and loops, and its meaning is a list of issues. Its code is made of
//! blocks (`specs/Block`), which run on wherever they stand and whatever the host holds; `laws` says what is proved of
//! blocks, expressions, programs and whole codes. docs/COMPILER.md, "Host code", says it in words, with the number of
//! instructions that each takes.
//!
//! A caller writes a list once for all tiles, and has its code; here a read of 16 bytes a turn, for ten turns:
//!
//! ```text
//! let place = Expr::product(alloc, Expr::Variable(1), Expr::Number(16))?;
//! let read = Order::IssueTransfer { write: false, work: TransferOrder { mem: place, .. } };
//! let program = Program::repeated(alloc, Expr::Number(10), Program::Emit(read))?;
//! let code = code_of(alloc, &program)?;
//! ```
#![tactic(auto)]

mod codable;
mod coded;
mod emit;
mod emit_expr;
mod expr;
mod laws;
mod program;
mod size;

pub use coded::code_of;
pub use expr::Expr;
pub use laws::{block_laws, code_laws, expr_laws, program_laws};
pub use program::{Order, Program, TransferOrder, VectorOrder};
