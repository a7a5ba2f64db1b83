//! The operations of vector instructions.

/// An operation of the lanes, as docs/MACHINE.md ("Operations") says: what it answers at A and B. The answers are
/// whole numbers that wrap into the results' type, but for the two saturating operations. A comparison sets the flags
/// of an element where it answers 1; every other write clears them.
#[derive(Clone, Copy, Debug, PartialEq, Eq)]
pub enum VecOp {
    /// A.
    Mov,
    /// A, of its own type, wrapped into the results'.
    Cast,
    /// A + B.
    Add,
    /// A - B.
    Sub,
    /// A · B.
    Mul,
    /// The bits that both have.
    And,
    /// The bits that one of them has.
    Or,
    /// The bits that just one of them has.
    Xor,
    /// A · 2^k, where k is B modulo the type's width in bits.
    Shl,
    /// A divided by 2^k, rounded down, where k is B modulo the type's width in bits.
    Shr,
    /// The lesser of the two.
    Min,
    /// The greater of the two.
    Max,
    /// A without its sign; of a signed type's least number that number again.
    Abs,
    /// 1 where A = B, else 0. It sets flags.
    Eq,
    /// 1 where A and B differ, else 0. It sets flags.
    Ne,
    /// 1 where A < B, else 0. It sets flags.
    Lt,
    /// 1 where A ≤ B, else 0. It sets flags.
    Le,
    /// A, where the flag of the first byte of B's element is set; else the element is left alone.
    Cmov,
    /// Of A + B, the nearest number of the type's range.
    Sadd,
    /// Of A - B, the nearest number of the type's range.
    Ssub,
}

impl VecOp {
    ghost use Rattle.std.specs.Prelude.{◌≡◌};
    ghost use Rattle.venice_isa.specs.Mode.{uses_b, is_comparison, is_conditional, allows_mode};

    /// Whether the operation takes B; each takes A.
    pub fn uses_b(self) -> bool
        ensures { result ≡ uses_b self }
    {
        !matches!(self, VecOp::Mov | VecOp::Cast | VecOp::Abs)
    }

    /// Whether the operation answers 1 or 0 and sets flags.
    pub fn is_comparison(self) -> bool
        ensures { result ≡ is_comparison self }
    {
        matches!(self, VecOp::Eq | VecOp::Ne | VecOp::Lt | VecOp::Le)
    }

    /// Whether the operation writes only where a flag is set.
    pub fn is_conditional(self) -> bool
        ensures { result ≡ is_conditional self }
    {
        matches!(self, VecOp::Cmov)
    }

    /// Whether B may be a scalar, where `b_scalar` says so, and a row's results may be added, where
    /// `acc` does: an operation without B has no scalar B, and `Cmov` has neither.
    pub fn allows_mode(self, b_scalar: bool, acc: bool) -> bool
        ensures { result ≡ allows_mode self b_scalar acc }
    {
        match self {
            VecOp::Cmov => !b_scalar && !acc,
            _ => self.uses_b() || !b_scalar,
        }
    }
}
