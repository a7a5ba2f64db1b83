//! Instructions, arrays and numbers by the operands of their lines.

ghost use Rattle.std.specs.Prelude.{◌≡◌, ℕ};
ghost use Rattle.std.specs.Option.{option_map};
ghost use Rattle.venice_asm.specs.Meaning.{array_of};
ghost use Rattle.venice_asm.specs.Parts.{register_in, parameter_in, number_in, is_write_in, target_in, operation_in, elem_in, is_a_scalar_in, is_b_scalar_in, from_place, host_instr, jump_target, with_target, target_operand, raw_array, IsInstrOf, IsWholeVector, IsWholeInstr};
ghost use Rattle.venice_asm.specs.declared.head.Head.TheVariants as heads;

use crate::head::Head;
use crate::operand::Operand;
use crate::phase::{ArrayLine, Target};
use ven_base::Elem;
use venice_isa::{Instr, VecKind, VecOp};

/// The register that is operand k; 0 where there is none.
fn register(operands: &[Operand], k: usize) -> u8
    ensures { result ≡ register_in operands.now k }
{
    match operands.get(k) {
        Some(Operand::Register(number)) => *number,
        _ => 0,
    }
}

/// The parameter that is operand k; 0 where there is none.
fn parameter(operands: &[Operand], k: usize) -> u8
    ensures { result ≡ parameter_in operands.now k }
{
    match operands.get(k) {
        Some(Operand::Parameter(number)) => *number,
        _ => 0,
    }
}

/// The number that is operand k; 0 where there is none.
pub fn number(operands: &[Operand], k: usize) -> u32
    ensures { result ≡ number_in operands.now k }
{
    match operands.get(k) {
        Some(Operand::Number(n)) => *n,
        _ => 0,
    }
}

/// Whether operand k is a write.
fn is_write(operands: &[Operand], k: usize) -> bool
    ensures { result ≡ is_write_in operands.now k }
{
    match operands.get(k) {
        Some(Operand::Write(write)) => *write,
        _ => false,
    }
}

/// The array with these operands.
pub fn array_of(operands: &[Operand]) -> Option<ArrayLine>
    ensures { option_map raw_array result ≡ array_of heads.Array operands.now }
{
    match operands {
        [
            Operand::Name(name),
            Operand::Output(output),
            Operand::Elem(elem),
            Operand::Open,
            Operand::Rows(rows),
            Operand::Comma,
            Operand::Columns(columns),
            Operand::Close,
            Operand::Number(place),
        ] => Some(ArrayLine {
            name: *name,
            output: *output,
            elem: *elem,
            rows: *rows,
            columns: *columns,
            place: *place,
        }),
        _ => None,
    }
}

/// Where operand k says that a jump goes.
fn target(operands: &[Operand], k: usize) -> Option<Target>
    ensures { option_map target_operand result ≡ target_in operands.now k }
{
    match operands.get(k) {
        Some(Operand::Name(name)) => Some(Target::Label(*name)),
        Some(Operand::Number(n)) => Some(Target::Number(*n)),
        _ => None,
    }
}

/// Where a jump with these operands goes: the last of them says it.
pub fn target_of(head: Head, operands: &[Operand]) -> Option<Target>
    ensures { option_map target_operand result ≡ jump_target head operands.now }
{
    match head {
        Head::Bnz => target(operands, 1),
        Head::Blt => target(operands, 2),
        Head::Jmp => target(operands, 0),
        _ => None,
    }
}

/// The instruction on the host with these operands, its target aside.
fn host_instr(head: Head, operands: &[Operand]) -> Instr
    ensures { result ≡ host_instr head operands.now }
{
    match head {
        Head::Li => Instr::Li {
            d: register(operands, 0),
            n: number(operands, 1),
        },
        Head::Addi => Instr::Addi {
            d: register(operands, 0),
            a: register(operands, 1),
            n: number(operands, 2),
        },
        Head::Add => Instr::Add {
            d: register(operands, 0),
            a: register(operands, 1),
            b: register(operands, 2),
        },
        Head::Sub => Instr::Sub {
            d: register(operands, 0),
            a: register(operands, 1),
            b: register(operands, 2),
        },
        Head::Mul => Instr::Mul {
            d: register(operands, 0),
            a: register(operands, 1),
            b: register(operands, 2),
        },
        Head::Div => Instr::Div {
            d: register(operands, 0),
            a: register(operands, 1),
            b: register(operands, 2),
        },
        Head::Bnz => Instr::Bnz {
            a: register(operands, 0),
            to: 0,
        },
        Head::Blt => Instr::Blt {
            a: register(operands, 0),
            b: register(operands, 1),
            to: 0,
        },
        Head::Jmp => Instr::Jmp { to: 0 },
        Head::Set => Instr::Set {
            field: parameter(operands, 0),
            a: register(operands, 1),
        },
        Head::Dma => Instr::Dma {
            write: is_write(operands, 0),
        },
        Head::Rwait => Instr::Rwait {
            a: register(operands, 0),
        },
        Head::Wwait => Instr::Wwait {
            a: register(operands, 0),
        },
        Head::Vwait => Instr::Vwait,
        Head::Tag => Instr::Tag {
            a: register(operands, 0),
        },
        Head::Twait => Instr::Twait {
            a: register(operands, 0),
        },
        _ => Instr::Halt,
    }
}

/// The instruction with these operands, its target aside.
pub fn instr_of(head: Head, operands: &[Operand]) -> Instr
    requires { IsWholeInstr head operands.now }
    ensures { IsInstrOf head operands.now result }
{
    match head {
        Head::Vec => vector(operands),
        _ => host_instr(head, operands),
    }
}

/// The operation that is operand k.
pub fn operation(operands: &[Operand], k: usize) -> VecOp
    ensures { result ≡ operation_in operands.now k }
{
    match operands.get(k) {
        Some(Operand::Operation(op)) => *op,
        _ => VecOp::Mov,
    }
}

/// The element type that is operand k.
fn elem(operands: &[Operand], k: usize) -> Elem
    ensures { result ≡ elem_in operands.now k }
{
    match operands.get(k) {
        Some(Operand::Elem(elem)) => *elem,
        _ => Elem::U8,
    }
}

/// Whether A is a scalar by the mode that is operand k.
fn is_a_scalar(operands: &[Operand], k: usize) -> bool
    ensures { result ≡ is_a_scalar_in operands.now k }
{
    match operands.get(k) {
        Some(Operand::ModeA(a)) => *a,
        Some(Operand::ModeAB(a, _)) => *a,
        _ => false,
    }
}

/// Whether B is a scalar by the mode that is operand k.
fn is_b_scalar(operands: &[Operand], k: usize) -> bool
    ensures { result ≡ is_b_scalar_in operands.now k }
{
    match operands.get(k) {
        Some(Operand::ModeAB(_, b)) => *b,
        _ => false,
    }
}

/// Which operand is the type of A.
fn from_place(op: VecOp) -> usize
    ensures { result ≡ from_place op }
{
    match op {
        VecOp::Cast => 2,
        _ => 1,
    }
}

/// The vector instruction with these operands.
fn vector(operands: &[Operand]) -> Instr
    requires { IsWholeVector operands.now }
    ensures { IsInstrOf heads.Vec operands.now result }
{
    let op = operation(operands, 0);
    let from = from_place(op);
    match VecKind::new(
        op,
        elem(operands, 1),
        elem(operands, from),
        is_a_scalar(operands, from + 1),
        is_b_scalar(operands, from + 1),
        from + 2 < operands.len(),
    ) {
        Some(kind) => Instr::Vec(kind),
        None => Instr::Halt,
    }
}

/// A jump with another target.
pub fn with_target(instr: Instr, to: u32) -> Instr
    ensures { result ≡ with_target instr to }
{
    match instr {
        Instr::Bnz { a, .. } => Instr::Bnz { a, to },
        Instr::Blt { a, b, .. } => Instr::Blt { a, b, to },
        Instr::Jmp { .. } => Instr::Jmp { to },
        _ => instr,
    }
}
