//! Programs of issues.
ghost use Rattle.std.specs.Prelude.{◌≡◌, IfOk};
ghost use Rattle.host_programs.specs.Program as list;
ghost use Rattle.host_programs.specs.Shown.{expr_of, program_of};

use crate::expr::Expr;
use std::alloc::{AllocError, Global};
use venice_isa::VecKind;

/// A transfer, of which each number is an expression.
#[derive(Drop)]
pub struct TransferOrder {
    pub mem: Expr,
    pub spad: Expr,
    pub rows: Expr,
    pub bytes: Expr,
    pub mem_step: Expr,
    pub spad_step: Expr,
    pub tag: Expr,
}

/// A vector instruction, of which each number is an expression.
#[derive(Drop)]
pub struct VectorOrder {
    pub kind: VecKind,
    pub vl: Expr,
    pub rows: Expr,
    pub dst: Expr,
    pub a: Expr,
    pub b: Expr,
    pub dst_step: Expr,
    pub a_step: Expr,
    pub b_step: Expr,
}

/// An issue or a wait, of which each number is an expression.
#[derive(Drop)]
pub enum Order {
    /// A write, or else a read.
    IssueTransfer { write: bool, work: TransferOrder },
    IssueVector(VectorOrder),
    /// Waits until at most so many reads are unfinished.
    AwaitReads(Expr),
    /// Waits until at most so many writes are unfinished.
    AwaitWrites(Expr),
    AwaitLanes,
    /// Waits until no unfinished transfer has this tag.
    AwaitTag(Expr),
}

/// A list of issues, with names, choices and loops. A program begins with its first d registers in use, and names new
/// ones by their numbers, from d on.
#[derive(Drop)]
pub enum Program {
    Idle,
    Emit(Order),
    /// One after the other.
    Both(Box<Program>, Box<Program>),
    /// The program, unless the first is below the second.
    UnlessLess(Expr, Expr, Box<Program>),
    /// Register d has the expression's number in the program.
    Let(Expr, Box<Program>),
    /// The program as often as the expression says: register d has the number of turns that are left, and register d + 1
    /// the turn's number, from 0.
    For(Expr, Box<Program>),
    /// The program as often as the first says: register d has the number of turns that are left, and register d + 1
    /// first the second's number, and after each turn the third's.
    Carry(Expr, Expr, Expr, Box<Program>),
}

impl Program {
    /// One program after the other.
    pub fn both(alloc: Global, p: Program, q: Program) -> Result<Program, AllocError>
        ensures { IfOk result (λ r. program_of r ≡ list.Both (program_of p) (program_of q)) }
    {
        Ok(Program::Both(Box::new(alloc, p)?, Box::new(alloc, q)?))
    }

    /// The program, unless `a` is below `b`.
    pub fn unless_less(alloc: Global, a: Expr, b: Expr, p: Program) -> Result<Program, AllocError>
        ensures { IfOk result (λ r. program_of r ≡ list.UnlessLess (expr_of a) (expr_of b) (program_of p)) }
    {
        Ok(Program::UnlessLess(a, b, Box::new(alloc, p)?))
    }

    /// The program, where its first register has the expression's number.
    pub fn with(alloc: Global, e: Expr, p: Program) -> Result<Program, AllocError>
        ensures { IfOk result (λ r. program_of r ≡ list.Let (expr_of e) (program_of p)) }
    {
        Ok(Program::Let(e, Box::new(alloc, p)?))
    }

    /// The program as often as the expression says.
    pub fn repeated(alloc: Global, e: Expr, p: Program) -> Result<Program, AllocError>
        ensures { IfOk result (λ r. program_of r ≡ list.For (expr_of e) (program_of p)) }
    {
        Ok(Program::For(e, Box::new(alloc, p)?))
    }

    /// The program as often as `e` says, with a number that is carried from turn to turn.
    pub fn carrying(
        alloc: Global,
        e: Expr,
        first: Expr,
        next: Expr,
        p: Program,
    ) -> Result<Program, AllocError>
        ensures { IfOk result (λ r. program_of r
            ≡ list.Carry (expr_of e) (expr_of first) (expr_of next) (program_of p)) }
    {
        Ok(Program::Carry(e, first, next, Box::new(alloc, p)?))
    }
}
