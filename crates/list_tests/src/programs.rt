//! host_programs: what the host works out, how often its loops go round, and what can't be coded.
use host_codegen::room_laws;
use host_programs::{
    Expr, Order, Program, block_laws, code_laws, code_of, expr_laws, program_laws,
};
use std::alloc::{AllocError, Global};
use std::test::Fail;
use venice_isa::{Issue, issues};

/// What the code of a program issues within 10,000 steps.
pub fn issued(alloc: Global, p: &Program) -> Result<Vec<Issue>, Fail> {
    if !p.is_codable() {
        return Err(Fail::new("the program can't be coded"));
    }
    let code = code_of(alloc, p)?;
    Ok(
        issues(alloc, &code, 10_000)
            .ok()
            .ok_or("10,000 steps make a halt")?,
    )
}

/// Whether the code of a program issues waits for these numbers of reads.
fn waits_for(alloc: Global, p: &Program, numbers: &[u32]) -> Result<bool, Fail> {
    let list = issued(alloc, p)?;
    if list.len() != numbers.len() {
        return Ok(false);
    }
    for (issue, n) in list.iter().zip(numbers) {
        if *issue != Issue::RWait(*n) {
            return Ok(false);
        }
    }
    Ok(true)
}

fn number(n: u32) -> Expr {
    Expr::Number(n)
}

fn variable(r: u8) -> Expr {
    Expr::Variable(r)
}

fn wait(e: Expr) -> Program {
    Program::Emit(Order::AwaitReads(e))
}

/// Whether the host works out this number for an expression, where register 0 has 17.
fn is_number(alloc: Global, e: Result<Expr, AllocError>, n: u32) -> Result<bool, Fail> {
    let p = Program::with(alloc, number(17), wait(e?))?;
    waits_for(alloc, &p, &[n])
}

/// ((r0 - 2) * (r0 + 1)) % (r0 / 2), where no operand is a number or a register.
fn nested(alloc: Global) -> Result<Expr, AllocError> {
    let low = Expr::difference(alloc, variable(0), number(2))?;
    let high = Expr::offset(alloc, variable(0), 1)?;
    let product = Expr::product(alloc, low, high)?;
    let half = Expr::quotient(alloc, variable(0), number(2))?;
    Expr::remainder(alloc, product, half)
}

#[test]
fn numbers_of_expressions(rt: HostRuntime) -> Result<(), Fail> {
    let g = rt.alloc();
    let r = variable;
    let n = number;
    assert!(rt; is_number(g, Ok(n(4_294_967_295)), 4_294_967_295)?);
    assert!(rt; is_number(g, Ok(r(0)), 17)?);
    assert!(rt; is_number(g, Expr::offset(g, r(0), 3), 20)?);
    assert!(rt; is_number(g, Expr::sum(g, r(0), r(0)), 34)?);
    assert!(rt; is_number(g, Expr::difference(g, r(0), n(5)), 12)?);
    assert!(rt; is_number(g, Expr::difference(g, n(5), r(0)), 4_294_967_284)?);
    assert!(rt; is_number(g, Expr::product(g, r(0), n(5)), 85)?);
    assert!(rt; is_number(g, Expr::quotient(g, r(0), n(5)), 3)?);
    assert!(rt; is_number(g, Expr::quotient(g, n(100), r(0)), 5)?);
    assert!(rt; is_number(g, Expr::quotient(g, r(0), n(0)), 4_294_967_295)?);
    assert!(rt; is_number(g, Expr::remainder(g, r(0), n(5)), 2)?);
    assert!(rt; is_number(g, nested(g), 6)?);
    assert!(rt; is_number(g, Expr::if_less(g, r(0), n(17), n(1), n(2)), 2)?);
    assert!(rt; is_number(g, Expr::if_less(g, r(0), n(18), n(1), n(2)), 1)?);
    Ok(())
}

/// A wait, unless 17 is below the bound.
fn guarded(alloc: Global, bound: u32) -> Result<Program, AllocError> {
    Program::unless_less(alloc, number(17), number(bound), wait(number(9)))
}

/// 10 * i + j for each i below `turns`, and each j up to i.
fn triangle(alloc: Global, turns: u32) -> Result<Program, AllocError> {
    let tens = Expr::product(alloc, variable(1), number(10))?;
    let inner = wait(Expr::sum(alloc, tens, variable(3))?);
    let row = Program::repeated(alloc, Expr::offset(alloc, variable(1), 1)?, inner)?;
    Program::repeated(alloc, number(turns), row)
}

/// 13 and its halves, rounded down, four numbers in all.
fn halves(alloc: Global) -> Result<Program, AllocError> {
    let half = Expr::quotient(alloc, variable(1), number(2))?;
    Program::carrying(alloc, number(4), number(13), half, wait(variable(1)))
}

#[test]
fn choices_and_loops(rt: HostRuntime) -> Result<(), Fail> {
    let g = rt.alloc();
    assert!(rt; waits_for(g, &guarded(g, 17)?, &[9])?);
    assert!(rt; waits_for(g, &guarded(g, 18)?, &[])?);
    assert!(rt; waits_for(g, &triangle(g, 0)?, &[])?);
    assert!(rt; waits_for(g, &triangle(g, 1)?, &[0])?);
    assert!(rt; waits_for(g, &triangle(g, 3)?, &[0, 10, 11, 20, 21, 22])?);
    assert!(rt; waits_for(g, &halves(g)?, &[13, 6, 3, 1])?);
    Ok(())
}

#[test]
fn programs_that_cannot_be_coded(rt: HostRuntime) -> Result<(), Fail> {
    let g = rt.alloc();
    assert!(rt; !wait(variable(0)).is_codable());
    let mut p = wait(number(1));
    for _ in 0..31 {
        p = Program::with(g, number(0), p)?;
        assert!(rt; p.is_codable());
    }
    assert!(rt; !Program::with(g, number(0), p)?.is_codable());
    Ok(())
}

#[test]
fn laws_of_code_are_called(rt: HostRuntime) {
    block_laws();
    expr_laws();
    program_laws();
    code_laws();
    room_laws();
    assert!(rt; true);
}
