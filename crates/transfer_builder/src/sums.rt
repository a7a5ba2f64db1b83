//! Products, sums and choices of expressions, without what adds nothing (`specs/Axis`).
ghost use Rattle.std.specs.Prelude.{◌≡◌, IfOk};
ghost use Rattle.host_programs.specs.Shown.{expr_of};
ghost use Rattle.transfer_programs.specs.Axis as axes;
ghost use Rattle.transfer_builder.specs.Shown.{small_of};

use crate::small_expr::SmallExpr;
use host_programs::Expr;
use std::alloc::{AllocError, Global};

/// The same expression once more.
pub fn copy_of(alloc: Global, e: &Expr) -> Result<Expr, AllocError>
    ensures { IfOk result (λ r. expr_of r ≡ expr_of e.now) }
{
    match e {
        Expr::Number(n) => Ok(Expr::Number(*n)),
        Expr::Variable(r) => Ok(Expr::Variable(*r)),
        Expr::Offset(a, n) => Expr::offset(alloc, copy_of(alloc, a)?, *n),
        Expr::Sum(a, b) => Expr::sum(alloc, copy_of(alloc, a)?, copy_of(alloc, b)?),
        Expr::Difference(a, b) => Expr::difference(alloc, copy_of(alloc, a)?, copy_of(alloc, b)?),
        Expr::Product(a, b) => Expr::product(alloc, copy_of(alloc, a)?, copy_of(alloc, b)?),
        Expr::Quotient(a, b) => Expr::quotient(alloc, copy_of(alloc, a)?, copy_of(alloc, b)?),
        Expr::Remainder(a, b) => Expr::remainder(alloc, copy_of(alloc, a)?, copy_of(alloc, b)?),
        Expr::IfLess(a, b, x, y) => {
            let (a, b) = (copy_of(alloc, a)?, copy_of(alloc, b)?);
            Expr::if_less(alloc, a, b, copy_of(alloc, x)?, copy_of(alloc, y)?)
        }
    }
}

/// So many times the expression, without a product where that is once. The only error is that memory runs out.
pub fn scaled(alloc: Global, e: Expr, n: u32) -> Result<Expr, AllocError>
    ensures { IfOk result (λ r. expr_of r ≡ axes.scaled (expr_of e) n) }
{
    if n == 1 {
        Ok(e)
    } else {
        Expr::product(alloc, e, Expr::Number(n))
    }
}

/// The product of two expressions.
pub fn times(alloc: Global, a: Expr, b: Expr) -> Result<Expr, AllocError>
    ensures { IfOk result (λ r. expr_of r ≡ axes.times (expr_of a) (expr_of b)) }
{
    match a {
        Expr::Number(0) => Ok(Expr::Number(0)),
        Expr::Number(n) => scaled(alloc, b, n),
        a => Expr::product(alloc, a, b),
    }
}

/// The sum of two expressions.
pub fn plus(alloc: Global, a: Expr, b: Expr) -> Result<Expr, AllocError>
    ensures { IfOk result (λ r. expr_of r ≡ axes.plus (expr_of a) (expr_of b)) }
{
    match a {
        Expr::Number(0) => Ok(b),
        Expr::Number(n) => Expr::offset(alloc, b, n),
        a => Expr::sum(alloc, a, b),
    }
}

/// The lesser of two expressions, each of which it has twice. The only error is that memory runs out.
pub fn lesser(alloc: Global, a: Expr, b: Expr) -> Result<Expr, AllocError>
    ensures { IfOk result (λ r. expr_of r ≡ axes.lesser (expr_of a) (expr_of b)) }
{
    let x = copy_of(alloc, &a)?;
    let y = copy_of(alloc, &b)?;
    Expr::if_less(alloc, a, b, x, y)
}

/// So many times the expression, which is lent.
pub fn scaled_copy(alloc: Global, e: &Expr, n: u32) -> Result<Expr, AllocError>
    ensures { IfOk result (λ r. expr_of r ≡ axes.scaled (expr_of e.now) n) }
{
    scaled(alloc, copy_of(alloc, e)?, n)
}

/// The first where the flag is 0, else the second.
pub fn pick(alloc: Global, flag: SmallExpr, x: Expr, y: Expr) -> Result<Expr, AllocError>
    ensures { IfOk result (λ r. expr_of r ≡ axes.pick (small_of flag) (expr_of x) (expr_of y)) }
{
    Expr::if_less(alloc, flag.expr(alloc)?, Expr::Number(1), x, y)
}
