//! Whether a program can be coded.
ghost use Rattle.std.specs.Prelude.{◌≡◌, ◌↔◌, ◌+◌, ◌≤◌, ◌-◌, ◌^◌, min, IsTrue};
ghost use Rattle.host_programs.specs.Coded.{IsCodable};
ghost use Rattle.host_programs.specs.Expr as plain;
ghost use Rattle.host_programs.specs.ProgramCode as code;
ghost use Rattle.host_programs.specs.Room as rooms;
ghost use Rattle.host_programs.specs.Shown.{expr_of, transfer_of, vector_of, order_of, program_of};

use crate::expr::Expr;
use crate::program::{Order, Program, TransferOrder, VectorOrder};
use crate::size::size_of_program;

impl Program {
    /// Whether the program reads no register that it hasn't named, and takes at most 32 registers and 4,294,967,294
    /// instructions.
    pub fn is_codable(&self) -> bool
        ensures { IsTrue result ↔ IsCodable (program_of self.now) }
    {
        program_room(self) <= 32 && is_closed(self, 0) && size_of_program(self, 0) < u32::MAX
    }
}

/// How many registers an expression takes, 255 standing for any more.
fn room(e: &Expr) -> u8
    ensures { result ≡ min (rooms.room (expr_of e.now)) 255 }
{
    match e {
        Expr::Number(_) => 1,
        Expr::Variable(_) => 1,
        Expr::Offset(a, _) => room(a),
        Expr::Sum(a, b) => room(a).max(room(b).saturating_add(1)),
        Expr::Difference(a, b) => room(a).max(room(b).saturating_add(1)),
        Expr::Product(a, b) => room(a).max(room(b).saturating_add(1)),
        Expr::Quotient(a, b) => room(a).max(room(b).saturating_add(1)),
        Expr::Remainder(a, b) => room(a).max(room(b).saturating_add(1)).max(3),
        Expr::IfLess(a, b, x, y) => {
            let test = room(a).saturating_add(1).max(room(b).saturating_add(2));
            room(x).max(room(y)).max(test)
        }
    }
}

fn transfer_room(work: &TransferOrder) -> u8
    ensures { result ≡ min (rooms.settings_room (code.transfer_settings (transfer_of work.now))) 255 }
{
    let steps = room(&work.mem_step).max(room(&work.spad_step).max(1));
    room(&work.mem).max(room(&work.spad).max(room(&work.rows).max(room(&work.bytes).max(steps))))
}

fn vector_room(work: &VectorOrder) -> u8
    ensures { result ≡ min (rooms.settings_room (code.vector_settings (vector_of work.now))) 255 }
{
    let steps = room(&work.dst_step).max(room(&work.a_step).max(room(&work.b_step).max(1)));
    let sources = room(&work.dst).max(room(&work.a).max(room(&work.b).max(steps)));
    room(&work.vl).max(room(&work.rows).max(sources))
}

fn order_room(order: &Order) -> u8
    ensures { result ≡ min (rooms.order_room (order_of order.now)) 255 }
{
    match order {
        Order::IssueTransfer { write: _, work } => transfer_room(work).max(room(&work.tag)),
        Order::IssueVector(work) => vector_room(work),
        Order::AwaitReads(most) => room(most),
        Order::AwaitWrites(most) => room(most),
        Order::AwaitLanes => 0,
        Order::AwaitTag(tag) => room(tag),
    }
}

/// How many registers a program takes, 255 standing for any more.
fn program_room(p: &Program) -> u8
    ensures { result ≡ min (rooms.program_room (program_of p.now)) 255 }
{
    match p {
        Program::Idle => 0,
        Program::Emit(order) => order_room(order),
        Program::Both(p, q) => program_room(p).max(program_room(q)),
        Program::UnlessLess(a, b, p) => room(a).max(room(b).saturating_add(1)).max(program_room(p)),
        Program::Let(e, p) => room(e).max(program_room(p).saturating_add(1)),
        Program::For(e, p) => room(e).max(program_room(p).saturating_add(2)),
        Program::Carry(e, first, next, p) => room(e)
            .max(room(first).saturating_add(1))
            .max(room(next).saturating_add(2))
            .max(program_room(p).saturating_add(2)),
    }
}

/// Whether an expression reads registers below `d` alone.
fn is_below(e: &Expr, d: u8) -> bool
    ensures { result ≡ plain.is_below (expr_of e.now) d }
{
    match e {
        Expr::Number(_) => true,
        Expr::Variable(r) => *r < d,
        Expr::Offset(a, _) => is_below(a, d),
        Expr::Sum(a, b) => is_below(a, d) && is_below(b, d),
        Expr::Difference(a, b) => is_below(a, d) && is_below(b, d),
        Expr::Product(a, b) => is_below(a, d) && is_below(b, d),
        Expr::Quotient(a, b) => is_below(a, d) && is_below(b, d),
        Expr::Remainder(a, b) => is_below(a, d) && is_below(b, d),
        Expr::IfLess(a, b, x, y) => {
            (is_below(a, d) && is_below(b, d)) && (is_below(x, d) && is_below(y, d))
        }
    }
}

fn is_transfer_closed(work: &TransferOrder, d: u8) -> bool
    ensures { result ≡ code.are_below (code.transfer_settings (transfer_of work.now)) d }
{
    is_below(&work.mem, d)
        && (is_below(&work.spad, d)
            && (is_below(&work.rows, d)
                && (is_below(&work.bytes, d)
                    && (is_below(&work.mem_step, d) && is_below(&work.spad_step, d)))))
}

fn is_vector_closed(work: &VectorOrder, d: u8) -> bool
    ensures { result ≡ code.are_below (code.vector_settings (vector_of work.now)) d }
{
    is_below(&work.vl, d)
        && (is_below(&work.rows, d)
            && (is_below(&work.dst, d)
                && (is_below(&work.a, d)
                    && (is_below(&work.b, d)
                        && (is_below(&work.dst_step, d)
                            && (is_below(&work.a_step, d) && is_below(&work.b_step, d)))))))
}

fn is_order_closed(order: &Order, d: u8) -> bool
    ensures { result ≡ code.is_order_closed (order_of order.now) d }
{
    match order {
        Order::IssueTransfer { write: _, work } => {
            is_transfer_closed(work, d) && is_below(&work.tag, d)
        }
        Order::IssueVector(work) => is_vector_closed(work, d),
        Order::AwaitReads(most) => is_below(most, d),
        Order::AwaitWrites(most) => is_below(most, d),
        Order::AwaitLanes => true,
        Order::AwaitTag(tag) => is_below(tag, d),
    }
}

/// Whether a program reads its first `d` registers and those alone that it names itself.
fn is_closed(p: &Program, d: u8) -> bool
    requires low { d + rooms.program_room (program_of p.now) ≤ 32 }
    ensures { result ≡ code.is_closed (program_of p.now) d }
{
    match p {
        Program::Idle => true,
        Program::Emit(order) => is_order_closed(order, d),
        Program::Both(p, q) => is_closed(p, d) && is_closed(q, d),
        Program::UnlessLess(a, b, p) => is_below(a, d) && (is_below(b, d) && is_closed(p, d)),
        Program::Let(e, p) => is_below(e, d) && is_closed(p, d + 1),
        Program::For(e, p) => is_below(e, d) && is_closed(p, d + 2),
        Program::Carry(e, first, next, p) => {
            is_below(e, d)
                && (is_below(first, d + 1) && (is_below(next, d + 2) && is_closed(p, d + 2)))
        }
    }
}
