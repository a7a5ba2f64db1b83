//! The instructions of expressions.
ghost use Rattle.std.specs.Prelude.{◌≡◌, ◌+◌, ◌<◌, ◌≤◌, ◌^◌, [], ◌∷◌, ◌++◌, OnOk, IfOk};
ghost use Rattle.venice_isa.specs.declared.instr.Instr.TheVariants.{Div, Mul, Sub};
ghost use Rattle.host_programs.specs.Block.{size, instrs_at};
ghost use Rattle.host_programs.specs.Expr.{put, bring};
ghost use Rattle.host_programs.specs.Expr as plain;
ghost use Rattle.host_programs.specs.Room.{room};
ghost use Rattle.host_programs.specs.Shown.{expr_of};

use crate::expr::Expr;
use crate::size::size_of_expr;
use std::alloc::AllocError;
use venice_isa::Instr;

/// The register that has an operand's number, once it is brought.
pub fn register_of(e: &Expr, d: u8) -> u8
    ensures { result ≡ plain.register_of (expr_of e.now) d }
{
    match e {
        Expr::Variable(r) => *r,
        _ => d,
    }
}

/// Appends one instruction; answers the place behind it.
pub fn emit_one(code: &mut Vec<Instr>, place: u32, instr: Instr) -> Result<u32, AllocError>
    requires few { place + 1 < 2 ^ 32 }
    ensures instrs { OnOk result (code.new.items ≡ code.old.items ++ instr ∷ []) }
    ensures next { IfOk result (λ n. n ≡ place + 1) }
{
    code.push(instr)?;
    Ok(place + 1)
}

/// Appends the instructions that put an expression's number into register `d`, at `place`; answers the place behind
/// them.
#[cycle(emit_expr)]
pub fn emit_expr(code: &mut Vec<Instr>, place: u32, e: &Expr, d: u8) -> Result<u32, AllocError>
    requires low { d + room (expr_of e.now) ≤ 32 }
    requires few { place + size (put (expr_of e.now) d) < 2 ^ 32 }
    ensures instrs { OnOk result (code.new.items ≡ code.old.items ++ instrs_at (put (expr_of e.now) d) place) }
    ensures next { IfOk result (λ n. n ≡ place + size (put (expr_of e.now) d)) }
{
    match e {
        Expr::Number(n) => emit_one(code, place, Instr::Li { d, n: *n }),
        Expr::Variable(r) => emit_one(code, place, Instr::Addi { d, a: *r, n: 0 }),
        Expr::Offset(a, n) => {
            let last = emit_operand(code, place, a, d)?;
            let a = register_of(a, d);
            emit_one(code, last, Instr::Addi { d, a, n: *n })
        }
        Expr::Sum(a, b) => {
            let second = emit_operand(code, place, a, d)?;
            let last = emit_operand(code, second, b, d + 1)?;
            let (a, b) = (register_of(a, d), register_of(b, d + 1));
            emit_one(code, last, Instr::Add { d, a, b })
        }
        Expr::Difference(a, b) => {
            let second = emit_operand(code, place, a, d)?;
            let last = emit_operand(code, second, b, d + 1)?;
            let (a, b) = (register_of(a, d), register_of(b, d + 1));
            emit_one(code, last, Instr::Sub { d, a, b })
        }
        Expr::Product(a, b) => {
            let second = emit_operand(code, place, a, d)?;
            let last = emit_operand(code, second, b, d + 1)?;
            let (a, b) = (register_of(a, d), register_of(b, d + 1));
            emit_one(code, last, Instr::Mul { d, a, b })
        }
        Expr::Quotient(a, b) => {
            let second = emit_operand(code, place, a, d)?;
            let last = emit_operand(code, second, b, d + 1)?;
            let (a, b) = (register_of(a, d), register_of(b, d + 1));
            emit_one(code, last, Instr::Div { d, a, b })
        }
        Expr::Remainder(a, b) => {
            let second = emit_operand(code, place, a, d)?;
            let last = emit_operand(code, second, b, d + 1)?;
            emit_remainder(code, last, register_of(a, d), register_of(b, d + 1), d)
        }
        Expr::IfLess(a, b, x, y) => {
            let first = emit_expr(code, place, x, d)?;
            let second = emit_operand(code, first, a, d + 1)?;
            let test = emit_operand(code, second, b, d + 2)?;
            let (a, b) = (register_of(a, d + 1), register_of(b, d + 2));
            let to = test + 1 + size_of_expr(y, d);
            let other = emit_one(code, test, Instr::Blt { a, b, to })?;
            emit_expr(code, other, y, d)
        }
    }
}

/// Appends the instructions that bring an operand, for which register `d` is free; answers the place behind them.
#[cycle(emit_expr)]
pub fn emit_operand(code: &mut Vec<Instr>, place: u32, e: &Expr, d: u8) -> Result<u32, AllocError>
    requires low { d + room (expr_of e.now) ≤ 32 }
    requires few { place + size (bring (expr_of e.now) d) < 2 ^ 32 }
    ensures instrs { OnOk result (code.new.items ≡ code.old.items ++ instrs_at (bring (expr_of e.now) d) place) }
    ensures next { IfOk result (λ n. n ≡ place + size (bring (expr_of e.now) d)) }
{
    match e {
        Expr::Variable(_) => Ok(place),
        _ => emit_expr(code, place, e, d),
    }
}

/// Appends what puts the remainder of two registers' numbers into register `d`.
fn emit_remainder(code: &mut Vec<Instr>, place: u32, a: u8, b: u8, d: u8) -> Result<u32, AllocError>
    requires low { d + 3 ≤ 32 }
    requires few { place + 3 < 2 ^ 32 }
    ensures instrs { OnOk result (code.new.items ≡ code.old.items
        ++ (Div (d + 2) a b ∷ Mul (d + 2) (d + 2) b ∷ Sub d a (d + 2) ∷ [])) }
    ensures next { IfOk result (λ n. n ≡ place + 3) }
{
    let second = emit_one(code, place, Instr::Div { d: d + 2, a, b })?;
    let last = emit_one(
        code,
        second,
        Instr::Mul {
            d: d + 2,
            a: d + 2,
            b,
        },
    )?;
    emit_one(code, last, Instr::Sub { d, a, b: d + 2 })
}
