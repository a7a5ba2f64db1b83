//! The instructions of programs.
ghost use Rattle.std.specs.Prelude.{◌≡◌, ◌+◌, ◌<◌, ◌≤◌, ◌^◌, [], ◌∷◌, ◌++◌, OnOk, IfOk};
ghost use Rattle.venice_isa.specs.declared.instr.Instr.TheVariants.{Set, Addi, Bnz};
ghost use Rattle.host_programs.specs.Block.{Do, Then, Turns, one_less, size, instrs_at};
ghost use Rattle.host_programs.specs.Expr.{bring};
ghost use Rattle.host_programs.specs.Expr as plain;
ghost use Rattle.host_programs.specs.Program as list;
ghost use Rattle.host_programs.specs.ProgramCode.{setting, transfer_settings, vector_front, vector_back, vector_settings, settings_block, order_block, block_of};
ghost use Rattle.host_programs.specs.Room.{room, settings_room, order_room, program_room};
ghost use Rattle.host_programs.specs.Shown.{expr_of, transfer_of, vector_of, order_of, program_of};

use crate::emit_expr::{emit_expr, emit_one, emit_operand, register_of};
use crate::expr::Expr;
use crate::program::{Order, Program, TransferOrder, VectorOrder};
use crate::size::{size_of_operand, size_of_program};
use std::alloc::AllocError;
use venice_isa::Instr;

/// Appends the instructions that set a parameter; answers the place behind them.
fn emit_setting(
    code: &mut Vec<Instr>,
    place: u32,
    field: u8,
    e: &Expr,
    d: u8,
) -> Result<u32, AllocError>
    requires low { d + room (expr_of e.now) ≤ 32 }
    requires few { place + size (bring (expr_of e.now) d) + 1 < 2 ^ 32 }
    ensures instrs { OnOk result (code.new.items ≡ code.old.items
        ++ (instrs_at (bring (expr_of e.now) d) place ++ Set field (plain.register_of (expr_of e.now) d) ∷ [])) }
    ensures next { IfOk result (λ n. n ≡ place + size (bring (expr_of e.now) d) + 1) }
{
    let last = emit_operand(code, place, e, d)?;
    let a = register_of(e, d);
    emit_one(code, last, Instr::Set { field, a })
}

/// Appends the instructions that set the parameters of a transfer.
fn emit_transfer(
    code: &mut Vec<Instr>,
    place: u32,
    work: &TransferOrder,
    d: u8,
) -> Result<u32, AllocError>
    requires low { d + settings_room (transfer_settings (transfer_of work.now)) ≤ 32 }
    requires few { place + size (settings_block (transfer_settings (transfer_of work.now)) d) < 2 ^ 32 }
    ensures instrs { OnOk result (code.new.items ≡ code.old.items
        ++ instrs_at (settings_block (transfer_settings (transfer_of work.now)) d) place) }
    ensures next { IfOk result (λ n. n ≡ place + size (settings_block (transfer_settings (transfer_of work.now)) d)) }
{
    let second = emit_setting(code, place, 8, &work.mem, d)?;
    let third = emit_setting(code, second, 9, &work.spad, d)?;
    let fourth = emit_setting(code, third, 10, &work.rows, d)?;
    let fifth = emit_setting(code, fourth, 11, &work.bytes, d)?;
    let last = emit_setting(code, fifth, 12, &work.mem_step, d)?;
    emit_setting(code, last, 13, &work.spad_step, d)
}

/// Appends the instructions that set the first half of a vector instruction's parameters.
fn emit_vector_front(
    code: &mut Vec<Instr>,
    place: u32,
    work: &VectorOrder,
    d: u8,
) -> Result<u32, AllocError>
    requires low { d + settings_room (vector_front (vector_of work.now)) ≤ 32 }
    requires few { place + size (settings_block (vector_front (vector_of work.now)) d) < 2 ^ 32 }
    ensures instrs { OnOk result (code.new.items ≡ code.old.items
        ++ instrs_at (settings_block (vector_front (vector_of work.now)) d) place) }
    ensures next { IfOk result (λ n. n ≡ place + size (settings_block (vector_front (vector_of work.now)) d)) }
{
    let second = emit_setting(code, place, 0, &work.vl, d)?;
    let third = emit_setting(code, second, 1, &work.rows, d)?;
    let last = emit_setting(code, third, 2, &work.dst, d)?;
    emit_setting(code, last, 3, &work.a, d)
}

/// Appends those that set the second half.
fn emit_vector_back(
    code: &mut Vec<Instr>,
    place: u32,
    work: &VectorOrder,
    d: u8,
) -> Result<u32, AllocError>
    requires low { d + settings_room (vector_back (vector_of work.now)) ≤ 32 }
    requires few { place + size (settings_block (vector_back (vector_of work.now)) d) < 2 ^ 32 }
    ensures instrs { OnOk result (code.new.items ≡ code.old.items
        ++ instrs_at (settings_block (vector_back (vector_of work.now)) d) place) }
    ensures next { IfOk result (λ n. n ≡ place + size (settings_block (vector_back (vector_of work.now)) d)) }
{
    let second = emit_setting(code, place, 4, &work.b, d)?;
    let third = emit_setting(code, second, 5, &work.dst_step, d)?;
    let last = emit_setting(code, third, 6, &work.a_step, d)?;
    emit_setting(code, last, 7, &work.b_step, d)
}

/// Appends the instructions that set the parameters of a vector instruction.
fn emit_vector(
    code: &mut Vec<Instr>,
    place: u32,
    work: &VectorOrder,
    d: u8,
) -> Result<u32, AllocError>
    requires low { d + settings_room (vector_settings (vector_of work.now)) ≤ 32 }
    requires few { place + size (settings_block (vector_settings (vector_of work.now)) d) < 2 ^ 32 }
    ensures instrs { OnOk result (code.new.items ≡ code.old.items
        ++ instrs_at (settings_block (vector_settings (vector_of work.now)) d) place) }
    ensures next { IfOk result (λ n. n ≡ place + size (settings_block (vector_settings (vector_of work.now)) d)) }
{
    let back = emit_vector_front(code, place, work, d)?;
    emit_vector_back(code, back, work, d)
}

/// Appends the instructions of a transfer: a write, or else a read.
fn emit_transfer_order(
    code: &mut Vec<Instr>,
    place: u32,
    write: bool,
    work: &TransferOrder,
    d: u8,
) -> Result<u32, AllocError>
    requires low { d + order_room (list.IssueTransfer write (transfer_of work.now)) ≤ 32 }
    requires few { place + size (order_block (list.IssueTransfer write (transfer_of work.now)) d) < 2 ^ 32 }
    ensures instrs { OnOk result (code.new.items ≡ code.old.items
        ++ instrs_at (order_block (list.IssueTransfer write (transfer_of work.now)) d) place) }
    ensures next { IfOk result (λ n. n
        ≡ place + size (order_block (list.IssueTransfer write (transfer_of work.now)) d)) }
{
    let a = register_of(&work.tag, d);
    let tag = emit_transfer(code, place, work, d)?;
    let second = emit_operand(code, tag, &work.tag, d)?;
    let last = emit_one(code, second, Instr::Tag { a })?;
    emit_one(code, last, Instr::Dma { write })
}

/// Appends the instructions of a vector instruction.
fn emit_vector_order(
    code: &mut Vec<Instr>,
    place: u32,
    work: &VectorOrder,
    d: u8,
) -> Result<u32, AllocError>
    requires low { d + order_room (list.IssueVector (vector_of work.now)) ≤ 32 }
    requires few { place + size (order_block (list.IssueVector (vector_of work.now)) d) < 2 ^ 32 }
    ensures instrs { OnOk result (code.new.items ≡ code.old.items
        ++ instrs_at (order_block (list.IssueVector (vector_of work.now)) d) place) }
    ensures next { IfOk result (λ n. n ≡ place + size (order_block (list.IssueVector (vector_of work.now)) d)) }
{
    let last = emit_vector(code, place, work, d)?;
    emit_one(code, last, Instr::Vec(work.kind))
}

/// Appends the instructions of an order.
pub fn emit_order(
    code: &mut Vec<Instr>,
    place: u32,
    order: &Order,
    d: u8,
) -> Result<u32, AllocError>
    requires low { d + order_room (order_of order.now) ≤ 32 }
    requires few { place + size (order_block (order_of order.now) d) < 2 ^ 32 }
    ensures instrs { OnOk result (code.new.items ≡ code.old.items
        ++ instrs_at (order_block (order_of order.now) d) place) }
    ensures next { IfOk result (λ n. n ≡ place + size (order_block (order_of order.now) d)) }
{
    match order {
        Order::IssueTransfer { write, work } => emit_transfer_order(code, place, *write, work, d),
        Order::IssueVector(work) => emit_vector_order(code, place, work, d),
        Order::AwaitReads(most) => {
            let last = emit_operand(code, place, most, d)?;
            let a = register_of(most, d);
            emit_one(code, last, Instr::Rwait { a })
        }
        Order::AwaitWrites(most) => {
            let last = emit_operand(code, place, most, d)?;
            let a = register_of(most, d);
            emit_one(code, last, Instr::Wwait { a })
        }
        Order::AwaitLanes => emit_one(code, place, Instr::Vwait),
        Order::AwaitTag(tag) => {
            let last = emit_operand(code, place, tag, d)?;
            let a = register_of(tag, d);
            emit_one(code, last, Instr::Twait { a })
        }
    }
}

/// Appends the instructions of a program, whose first `d` registers are in use, at `place`; answers the place behind
/// them.
#[cycle(emit_program)]
pub fn emit_program(
    code: &mut Vec<Instr>,
    place: u32,
    p: &Program,
    d: u8,
) -> Result<u32, AllocError>
    requires low { d + program_room (program_of p.now) ≤ 32 }
    requires few { place + size (block_of (program_of p.now) d) < 2 ^ 32 }
    ensures instrs { OnOk result (code.new.items ≡ code.old.items
        ++ instrs_at (block_of (program_of p.now) d) place) }
    ensures next { IfOk result (λ n. n ≡ place + size (block_of (program_of p.now) d)) }
{
    match p {
        Program::Idle => Ok(place),
        Program::Emit(order) => emit_order(code, place, order, d),
        Program::Both(p, q) => {
            let second = emit_program(code, place, p, d)?;
            emit_program(code, second, q, d)
        }
        Program::UnlessLess(a, b, p) => {
            let second = emit_operand(code, place, a, d)?;
            let test = emit_operand(code, second, b, d + 1)?;
            let (a, b) = (register_of(a, d), register_of(b, d + 1));
            let to = test + 1 + size_of_program(p, d);
            let body = emit_one(code, test, Instr::Blt { a, b, to })?;
            emit_program(code, body, p, d)
        }
        Program::Let(e, p) => {
            let body = emit_expr(code, place, e, d)?;
            emit_program(code, body, p, d + 1)
        }
        Program::For(e, p) => {
            let zero = emit_expr(code, place, e, d)?;
            let jump = emit_one(code, zero, Instr::Li { d: d + 1, n: 0 })?;
            emit_turns(code, jump, p, d)
        }
        Program::Carry(e, first, next, p) => {
            let second = emit_expr(code, place, e, d)?;
            let jump = emit_expr(code, second, first, d + 1)?;
            emit_carrying(code, jump, p, next, d)
        }
    }
}

/// Appends the end of a loop whose body begins at `body`: register `d` counts down, and its test leads back.
fn emit_test(code: &mut Vec<Instr>, place: u32, body: u32, d: u8) -> Result<u32, AllocError>
    requires few { place + 2 < 2 ^ 32 }
    ensures instrs { OnOk result (code.new.items ≡ code.old.items ++ (one_less d ∷ Bnz d body ∷ [])) }
    ensures next { IfOk result (λ n. n ≡ place + 2) }
{
    let n = u32::MAX;
    let test = emit_one(code, place, Instr::Addi { d, a: d, n })?;
    emit_one(code, test, Instr::Bnz { a: d, to: body })
}

/// Appends the turns of a loop, whose number stands in register `d`, and the number of the first in register `d + 1`.
#[cycle(emit_program)]
fn emit_turns(code: &mut Vec<Instr>, place: u32, p: &Program, d: u8) -> Result<u32, AllocError>
    requires low { d + 2 + program_room (program_of p.now) ≤ 32 }
    requires few { place + size (block_of (program_of p.now) (d + 2)) + 4 < 2 ^ 32 }
    ensures instrs { OnOk result (code.new.items ≡ code.old.items
        ++ instrs_at (Turns d (Then (block_of (program_of p.now) (d + 2)) (Do (Addi (d + 1) (d + 1) 1)))) place) }
    ensures next { IfOk result (λ n. n ≡ place + (size (block_of (program_of p.now) (d + 2)) + 1 + 3)) }
{
    let to = place + 1 + (size_of_program(p, d + 2) + 1) + 1;
    let body = emit_one(code, place, Instr::Jmp { to })?;
    let next = emit_program(code, body, p, d + 2)?;
    let turn = d + 1;
    let last = emit_one(
        code,
        next,
        Instr::Addi {
            d: turn,
            a: turn,
            n: 1,
        },
    )?;
    emit_test(code, last, body, d)
}

/// Appends the turns of a loop, whose number stands in register `d`, and the first carried number in register `d + 1`.
#[cycle(emit_program)]
fn emit_carrying(
    code: &mut Vec<Instr>,
    place: u32,
    p: &Program,
    next: &Expr,
    d: u8,
) -> Result<u32, AllocError>
    requires low { d + 2 + program_room (program_of p.now) ≤ 32 }
    requires low_next { d + 2 + room (expr_of next.now) ≤ 32 }
    requires few { place + size (block_of (program_of p.now) (d + 2))
        + size (bring (expr_of next.now) (d + 2)) + 4 < 2 ^ 32 }
    ensures instrs { OnOk result (code.new.items ≡ code.old.items
        ++ instrs_at (Turns d (Then (block_of (program_of p.now) (d + 2)) (Then (bring (expr_of next.now) (d + 2))
        (Do (Addi (d + 1) (plain.register_of (expr_of next.now) (d + 2)) 0))))) place) }
    ensures next { IfOk result (λ n. n ≡ place + (size (block_of (program_of p.now) (d + 2))
        + (size (bring (expr_of next.now) (d + 2)) + 1) + 3)) }
{
    let turn = size_of_program(p, d + 2) + (size_of_operand(next, d + 2) + 1);
    let to = place + 1 + turn + 1;
    let body = emit_one(code, place, Instr::Jmp { to })?;
    let behind = emit_program(code, body, p, d + 2)?;
    let carried = emit_operand(code, behind, next, d + 2)?;
    let a = register_of(next, d + 2);
    let last = emit_one(code, carried, Instr::Addi { d: d + 1, a, n: 0 })?;
    emit_test(code, last, body, d)
}
