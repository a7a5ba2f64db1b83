//! The operations and reductions of the array language (docs/LANGUAGE.md, "Operations").

/// An operation on one number. What it computes of a whole number wraps into the type.
#[derive(Clone, Copy, Debug, PartialEq, Eq)]
pub enum Op1 {
    /// `-x`: 0 less x.
    Neg,
    /// `~x`: -1 less x, which turns over each bit of x.
    Not,
    /// `abs(x)`: x without its sign. The least number of a signed type wraps to itself.
    Abs,
}

/// An operation on two numbers of one type. What it computes of whole numbers wraps into the type, but for the
/// saturating sum and difference, which give the number of the type's range that is nearest.
#[derive(Clone, Copy, Debug, PartialEq, Eq)]
pub enum Op2 {
    /// `x + y`.
    Add,
    /// `x - y`.
    Sub,
    /// `x * y`.
    Mul,
    /// `x & y`: the bits that both have.
    And,
    /// `x | y`: the bits that one of them has.
    Or,
    /// `x ^ y`: the bits that just one of them has.
    Xor,
    /// `x << y`: x times 2 to the amount, which is y modulo the type's width in bits, from 0 on for a negative y too.
    Shl,
    /// `x >> y`: x divided by 2 to that amount and rounded down, so it keeps the sign.
    Shr,
    /// `min(x, y)`: the lesser.
    Min,
    /// `max(x, y)`: the greater.
    Max,
    /// `x == y`: 1 where they are equal, else 0.
    Eq,
    /// `x != y`: 1 where they differ, else 0.
    Ne,
    /// `x < y`: 1 where x is below y, else 0.
    Lt,
    /// `x <= y`: 1 where x is at most y, else 0.
    Le,
    /// `x > y`: 1 where x is above y, else 0.
    Gt,
    /// `x >= y`: 1 where x is at least y, else 0.
    Ge,
    /// The sum, saturating: of x + y, the nearest number of the type's range.
    SatAdd,
    /// The difference, saturating: of x - y, the nearest number of the type's range.
    SatSub,
}

/// What a reduction makes of the values of a row or of a whole array, of which there is at least one.
#[derive(Clone, Copy, Debug, PartialEq, Eq)]
pub enum Fold {
    /// Their sum, wrapped into the type.
    Sum,
    /// The least of them.
    Min,
    /// The greatest of them.
    Max,
}
