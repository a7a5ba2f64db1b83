//! How many instructions expressions and programs take, 4,294,967,295 standing for any more. So a jump's target is
//! known before what it skips is emitted.
ghost use Rattle.std.specs.Prelude.{◌≡◌, ◌+◌, ◌-◌, ◌≤◌, ◌^◌, min};
ghost use Rattle.host_programs.specs.Block.{size};
ghost use Rattle.host_programs.specs.Expr.{put, bring};
ghost use Rattle.host_programs.specs.ProgramCode.{transfer_settings, vector_settings, settings_block, order_block, block_of};
ghost use Rattle.host_programs.specs.Room.{room, settings_room, order_room, program_room};
ghost use Rattle.host_programs.specs.Shown.{expr_of, transfer_of, vector_of, order_of, program_of};

use crate::expr::Expr;
use crate::program::{Order, Program, TransferOrder, VectorOrder};

/// How many instructions put an expression's number into register `d`.
#[cycle(size_expr)]
pub fn size_of_expr(e: &Expr, d: u8) -> u32
    requires low { d + room (expr_of e.now) ≤ 32 }
    ensures { result ≡ min (size (put (expr_of e.now) d)) (2 ^ 32 - 1) }
{
    match e {
        Expr::Number(_) => 1,
        Expr::Variable(_) => 1,
        Expr::Offset(a, _) => size_of_operand(a, d).saturating_add(1),
        Expr::Sum(a, b) => size_of_operand(a, d)
            .saturating_add(size_of_operand(b, d + 1))
            .saturating_add(1),
        Expr::Difference(a, b) => size_of_operand(a, d)
            .saturating_add(size_of_operand(b, d + 1))
            .saturating_add(1),
        Expr::Product(a, b) => size_of_operand(a, d)
            .saturating_add(size_of_operand(b, d + 1))
            .saturating_add(1),
        Expr::Quotient(a, b) => size_of_operand(a, d)
            .saturating_add(size_of_operand(b, d + 1))
            .saturating_add(1),
        Expr::Remainder(a, b) => size_of_operand(a, d)
            .saturating_add(size_of_operand(b, d + 1))
            .saturating_add(3),
        Expr::IfLess(a, b, x, y) => {
            let other = size_of_expr(y, d).saturating_add(1);
            let test = size_of_operand(a, d + 1).saturating_add(size_of_operand(b, d + 2));
            size_of_expr(x, d)
                .saturating_add(test)
                .saturating_add(other)
        }
    }
}

/// How many instructions bring an operand, for which register `d` is free: none for a variable.
#[cycle(size_expr)]
pub fn size_of_operand(e: &Expr, d: u8) -> u32
    requires low { d + room (expr_of e.now) ≤ 32 }
    ensures { result ≡ min (size (bring (expr_of e.now) d)) (2 ^ 32 - 1) }
{
    match e {
        Expr::Variable(_) => 0,
        _ => size_of_expr(e, d),
    }
}

/// How many instructions set a parameter.
fn size_of_setting(e: &Expr, d: u8) -> u32
    requires low { d + room (expr_of e.now) ≤ 32 }
    ensures { result ≡ min (size (bring (expr_of e.now) d) + 1) (2 ^ 32 - 1) }
{
    size_of_operand(e, d).saturating_add(1)
}

/// How many instructions set the parameters of a transfer.
fn size_of_transfer(work: &TransferOrder, d: u8) -> u32
    requires low { d + settings_room (transfer_settings (transfer_of work.now)) ≤ 32 }
    ensures { result ≡ min (size (settings_block (transfer_settings (transfer_of work.now)) d)) (2 ^ 32 - 1) }
{
    size_of_setting(&work.mem, d)
        .saturating_add(size_of_setting(&work.spad, d))
        .saturating_add(size_of_setting(&work.rows, d))
        .saturating_add(size_of_setting(&work.bytes, d))
        .saturating_add(size_of_setting(&work.mem_step, d))
        .saturating_add(size_of_setting(&work.spad_step, d))
}

/// How many instructions set the parameters of a vector instruction.
fn size_of_vector(work: &VectorOrder, d: u8) -> u32
    requires low { d + settings_room (vector_settings (vector_of work.now)) ≤ 32 }
    ensures { result ≡ min (size (settings_block (vector_settings (vector_of work.now)) d)) (2 ^ 32 - 1) }
{
    size_of_setting(&work.vl, d)
        .saturating_add(size_of_setting(&work.rows, d))
        .saturating_add(size_of_setting(&work.dst, d))
        .saturating_add(size_of_setting(&work.a, d))
        .saturating_add(size_of_setting(&work.b, d))
        .saturating_add(size_of_setting(&work.dst_step, d))
        .saturating_add(size_of_setting(&work.a_step, d))
        .saturating_add(size_of_setting(&work.b_step, d))
}

/// How many instructions an order takes.
fn size_of_order(order: &Order, d: u8) -> u32
    requires low { d + order_room (order_of order.now) ≤ 32 }
    ensures { result ≡ min (size (order_block (order_of order.now) d)) (2 ^ 32 - 1) }
{
    match order {
        Order::IssueTransfer { write: _, work } => size_of_transfer(work, d)
            .saturating_add(size_of_operand(&work.tag, d))
            .saturating_add(2),
        Order::IssueVector(work) => size_of_vector(work, d).saturating_add(1),
        Order::AwaitReads(most) => size_of_operand(most, d).saturating_add(1),
        Order::AwaitWrites(most) => size_of_operand(most, d).saturating_add(1),
        Order::AwaitLanes => 1,
        Order::AwaitTag(tag) => size_of_operand(tag, d).saturating_add(1),
    }
}

/// How many instructions a program takes, whose first `d` registers are in use.
pub fn size_of_program(p: &Program, d: u8) -> u32
    requires low { d + program_room (program_of p.now) ≤ 32 }
    ensures { result ≡ min (size (block_of (program_of p.now) d)) (2 ^ 32 - 1) }
{
    match p {
        Program::Idle => 0,
        Program::Emit(order) => size_of_order(order, d),
        Program::Both(p, q) => size_of_program(p, d).saturating_add(size_of_program(q, d)),
        Program::UnlessLess(a, b, p) => size_of_operand(a, d)
            .saturating_add(size_of_operand(b, d + 1))
            .saturating_add(size_of_program(p, d))
            .saturating_add(1),
        Program::Let(e, p) => size_of_expr(e, d).saturating_add(size_of_program(p, d + 1)),
        Program::For(e, p) => size_of_expr(e, d)
            .saturating_add(size_of_program(p, d + 2))
            .saturating_add(5),
        Program::Carry(e, first, next, p) => size_of_expr(e, d)
            .saturating_add(size_of_expr(first, d + 1))
            .saturating_add(size_of_program(p, d + 2))
            .saturating_add(size_of_operand(next, d + 2))
            .saturating_add(4),
    }
}
