//! Expressions over registers.
ghost use Rattle.std.specs.Prelude.{◌≡◌, IfOk};
ghost use Rattle.host_programs.specs.Expr as plain;
ghost use Rattle.host_programs.specs.Shown.{expr_of};

use std::alloc::{AllocError, Global};

/// A number that the host works out from its registers (docs/COMPILER.md, "Host code"). The host's numbers wrap at 32
/// bits.
#[derive(Drop)]
pub enum Expr {
    Number(u32),
    /// The number in a register.
    Variable(u8),
    /// So much more.
    Offset(Box<Expr>, u32),
    Sum(Box<Expr>, Box<Expr>),
    Difference(Box<Expr>, Box<Expr>),
    Product(Box<Expr>, Box<Expr>),
    /// Rounded down.
    Quotient(Box<Expr>, Box<Expr>),
    Remainder(Box<Expr>, Box<Expr>),
    /// The third where the first is below the second, else the fourth.
    IfLess(Box<Expr>, Box<Expr>, Box<Expr>, Box<Expr>),
}

impl Expr {
    /// So much more than the expression.
    pub fn offset(alloc: Global, a: Expr, n: u32) -> Result<Expr, AllocError>
        ensures { IfOk result (λ e. expr_of e ≡ plain.Offset (expr_of a) n) }
    {
        Ok(Expr::Offset(Box::new(alloc, a)?, n))
    }

    /// A sum.
    pub fn sum(alloc: Global, a: Expr, b: Expr) -> Result<Expr, AllocError>
        ensures { IfOk result (λ e. expr_of e ≡ plain.Sum (expr_of a) (expr_of b)) }
    {
        Ok(Expr::Sum(Box::new(alloc, a)?, Box::new(alloc, b)?))
    }

    /// A difference, which is exact where the second is at most the first.
    pub fn difference(alloc: Global, a: Expr, b: Expr) -> Result<Expr, AllocError>
        ensures { IfOk result (λ e. expr_of e ≡ plain.Difference (expr_of a) (expr_of b)) }
    {
        Ok(Expr::Difference(Box::new(alloc, a)?, Box::new(alloc, b)?))
    }

    /// A product.
    pub fn product(alloc: Global, a: Expr, b: Expr) -> Result<Expr, AllocError>
        ensures { IfOk result (λ e. expr_of e ≡ plain.Product (expr_of a) (expr_of b)) }
    {
        Ok(Expr::Product(Box::new(alloc, a)?, Box::new(alloc, b)?))
    }

    /// A quotient, rounded down, which is exact where the second isn't 0.
    pub fn quotient(alloc: Global, a: Expr, b: Expr) -> Result<Expr, AllocError>
        ensures { IfOk result (λ e. expr_of e ≡ plain.Quotient (expr_of a) (expr_of b)) }
    {
        Ok(Expr::Quotient(Box::new(alloc, a)?, Box::new(alloc, b)?))
    }

    /// A remainder, which is exact where the second isn't 0.
    pub fn remainder(alloc: Global, a: Expr, b: Expr) -> Result<Expr, AllocError>
        ensures { IfOk result (λ e. expr_of e ≡ plain.Remainder (expr_of a) (expr_of b)) }
    {
        Ok(Expr::Remainder(Box::new(alloc, a)?, Box::new(alloc, b)?))
    }

    /// `x` where `a` is below `b`, else `y`.
    pub fn if_less(alloc: Global, a: Expr, b: Expr, x: Expr, y: Expr) -> Result<Expr, AllocError>
        ensures { IfOk result (λ e. expr_of e ≡ plain.IfLess (expr_of a) (expr_of b) (expr_of x) (expr_of y)) }
    {
        Ok(Expr::IfLess(
            Box::new(alloc, a)?,
            Box::new(alloc, b)?,
            Box::new(alloc, x)?,
            Box::new(alloc, y)?,
        ))
    }
}
