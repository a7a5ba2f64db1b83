//! The table of binary signs.

ghost use Rattle.std.specs.Prelude.{◌≡◌};
ghost use Rattle.array_syntax.specs.Reading.{op_of, reach_of};
ghost use Rattle.array_syntax.specs.Table.{loosest, level, left_level, right_level, operation};

use crate::word::{Operator, Word};
use ven_base::Op2;

/// The loosest level: that of any expression.
pub const LOOSEST: u8 = 7;

/// The level of a binary sign: the tightest is 1.
pub fn level(op: Operator) -> u8
    ensures { result ≡ level op }
{
    match op {
        Operator::Times => 1,
        Operator::Plus | Operator::Minus => 2,
        Operator::ShiftLeft | Operator::ShiftRight => 3,
        Operator::And => 4,
        Operator::Xor => 5,
        Operator::Or => 6,
        _ => 7,
    }
}

/// The loosest level of its left operand. Comparisons don't chain.
fn left_level(op: Operator) -> u8
    ensures { result ≡ left_level op }
{
    level(op).min(6)
}

/// The loosest level of its right operand.
pub fn right_level(op: Operator) -> u8
    ensures { result ≡ right_level op }
{
    level(op) - 1
}

/// The operation of a binary sign.
pub fn operation(op: Operator) -> Op2
    ensures { result ≡ operation op }
{
    match op {
        Operator::Times => Op2::Mul,
        Operator::Plus => Op2::Add,
        Operator::Minus => Op2::Sub,
        Operator::ShiftLeft => Op2::Shl,
        Operator::ShiftRight => Op2::Shr,
        Operator::And => Op2::And,
        Operator::Xor => Op2::Xor,
        Operator::Or => Op2::Or,
        Operator::Equal => Op2::Eq,
        Operator::NotEqual => Op2::Ne,
        Operator::Less => Op2::Lt,
        Operator::LessOrEqual => Op2::Le,
        Operator::Greater => Op2::Gt,
        Operator::GreaterOrEqual => Op2::Ge,
    }
}

/// The binary sign that a word is, if it is one.
pub fn operator_of(word: Word) -> Option<Operator>
    ensures { result ≡ op_of word }
{
    match word {
        Word::Operator(op) => Some(op),
        _ => None,
    }
}

/// The level up to which nodes end before a word that could take the last of them as its operand.
pub fn reach(op: Option<Operator>) -> u8
    ensures { result ≡ reach_of op }
{
    match op {
        Some(op) => left_level(op),
        None => LOOSEST,
    }
}
