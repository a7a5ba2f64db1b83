//! Expressions that are small enough to be copied, and what a transfer is of.
ghost use Rattle.std.specs.Prelude.{◌≡◌, IfOk};
ghost use Rattle.host_programs.specs.Shown.{expr_of};
ghost use Rattle.transfer_builder.specs.Shown.{small_of};

use host_programs::Expr;
use std::alloc::{AllocError, Global};

/// A number that takes one register at most: below 2^32, as the host's numbers are, and a sum wraps there.
#[derive(Clone, Copy)]
pub enum SmallExpr {
    Number(u32),
    /// The number in a register.
    Variable(u8),
    /// So much more than the number in a register.
    Offset(u8, u32),
}

/// A piece of an array or of a result: `h` rows from row `r0` on, and of these `w` columns from column `c0` on. All are
/// counted in elements.
#[derive(Clone, Copy)]
pub struct PieceExpr {
    pub r0: SmallExpr,
    pub c0: SmallExpr,
    pub h: SmallExpr,
    pub w: SmallExpr,
}

/// The cell of a piece's first byte, whose rows follow one another there without gaps, and the tag of its commands.
#[derive(Clone, Copy)]
pub struct Target {
    pub buffer: SmallExpr,
    pub tag: SmallExpr,
}

impl SmallExpr {
    /// The number as an expression. The only error is that memory runs out.
    pub fn expr(self, alloc: Global) -> Result<Expr, AllocError>
        ensures { IfOk result (λ e. expr_of e ≡ small_of self) }
    {
        match self {
            SmallExpr::Number(n) => Ok(Expr::Number(n)),
            SmallExpr::Variable(r) => Ok(Expr::Variable(r)),
            SmallExpr::Offset(r, n) => Expr::offset(alloc, Expr::Variable(r), n),
        }
    }
}
