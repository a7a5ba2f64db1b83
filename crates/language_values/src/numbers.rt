//! Numbers of a type.
use crate::words;
use std::alloc::Global;
use ven_base::{Op1, Op2, apply1, apply2, bits_of, wrap};

/// The operations on two numbers in the order of their results.
const TWOS: [Op2; 18] = [
    Op2::Add,
    Op2::Sub,
    Op2::Mul,
    Op2::And,
    Op2::Or,
    Op2::Xor,
    Op2::Shl,
    Op2::Shr,
    Op2::Min,
    Op2::Max,
    Op2::Eq,
    Op2::Ne,
    Op2::Lt,
    Op2::Le,
    Op2::Gt,
    Op2::Ge,
    Op2::SatAdd,
    Op2::SatSub,
];

/// `wrap TYPE N`: the number of the type.
pub fn wrapped(alloc: Global, rest: &str) -> Option<String> {
    let mut words = rest.split_whitespace();
    let elem = words::elem(&mut words)?;
    let n = words.next()?.parse::<i128>().ok()?;
    format!(in alloc; "{}", wrap(elem, n)).ok()
}

/// `bits TYPE N`: its bits.
pub fn bits(alloc: Global, rest: &str) -> Option<String> {
    let mut words = rest.split_whitespace();
    let elem = words::elem(&mut words)?;
    let n = words::number(&mut words)?;
    format!(in alloc; "{}", bits_of(elem, n)).ok()
}

/// `one TYPE X`: what `-`, `~` and `abs` give.
pub fn one(alloc: Global, rest: &str) -> Option<String> {
    let mut words = rest.split_whitespace();
    let elem = words::elem(&mut words)?;
    let x = words::number(&mut words)?;
    if !elem.contains(x) {
        return None;
    }
    let neg = apply1(Op1::Neg, elem, x);
    let not = apply1(Op1::Not, elem, x);
    let abs = apply1(Op1::Abs, elem, x);
    format!(in alloc; "{neg} {not} {abs}").ok()
}

/// `two TYPE X Y`: what each operation on two numbers gives.
pub fn two(alloc: Global, rest: &str) -> Option<String> {
    let mut words = rest.split_whitespace();
    let elem = words::elem(&mut words)?;
    let x = words::number(&mut words)?;
    let y = words::number(&mut words)?;
    if !elem.contains(x) || !elem.contains(y) {
        return None;
    }
    let mut text = String::from_str(alloc, "two").ok()?;
    for op in &TWOS {
        let result = apply2(*op, elem, x, y);
        text = format!(in alloc; "{text} {result}").ok()?;
    }
    Some(text)
}

/// `shift TYPE X AMOUNT`: what `<<` and `>>` give.
pub fn shift(alloc: Global, rest: &str) -> Option<String> {
    let mut words = rest.split_whitespace();
    let elem = words::elem(&mut words)?;
    let x = words::number(&mut words)?;
    let amount = words::number(&mut words)?;
    if !elem.contains(x) || !elem.contains(amount) {
        return None;
    }
    let left = apply2(Op2::Shl, elem, x, amount);
    let right = apply2(Op2::Shr, elem, x, amount);
    format!(in alloc; "{left} {right}").ok()
}
