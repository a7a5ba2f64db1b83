//! Printing: the text of a program.

ghost use Rattle.std.specs.Prelude.{◌≡◌, ◌++◌, ◌↔◌, IsTrue, IfOk, OnOk};
ghost use Rattle.std.specs.Fmt.{signed_decimal};
ghost use Rattle.array_syntax.specs.Limits.{IsWritable, KeepsStatement, KeepsLimits};
ghost use Rattle.array_syntax.specs.Printed.{row_fold_word, fold_word, opening, between, in_brackets, IsLiteral, one_text, numbers_text, two_text, select_text, call_text, text_of, bound_text, shape_text, input_text, line_of, lines_of, DenotesApart};
ghost use Rattle.array_syntax.specs.Tree.{tree_of};

use crate::program::{Expr, ExprKind, Program, Stmt};
use itoa::Buffer;
use std::alloc::{AllocError, Global};
use ven_base::{Elem, Fold, Name, Op1, Op2};

/// The function that reduces each row.
fn row_fold_word(fold: Fold) -> &'static [u8]
    ensures { result.now ≡ row_fold_word fold }
{
    match fold {
        Fold::Sum => b"rowsum",
        Fold::Min => b"rowmin",
        Fold::Max => b"rowmax",
    }
}

/// The function that reduces the whole array.
fn fold_word(fold: Fold) -> &'static [u8]
    ensures { result.now ≡ fold_word fold }
{
    match fold {
        Fold::Sum => b"sum",
        Fold::Min => b"minval",
        Fold::Max => b"maxval",
    }
}

/// What stands before the first of two operands.
fn opening(op: Op2) -> &'static [u8]
    ensures { result.now ≡ opening op }
{
    match op {
        Op2::Min => b"min(",
        Op2::Max => b"max(",
        Op2::SatAdd => b"sadd(",
        Op2::SatSub => b"ssub(",
        _ => b"(",
    }
}

/// What stands between two operands.
fn between(op: Op2) -> &'static [u8]
    ensures { result.now ≡ between op }
{
    match op {
        Op2::Mul => b" * ",
        Op2::Add => b" + ",
        Op2::Sub => b" - ",
        Op2::Shl => b" << ",
        Op2::Shr => b" >> ",
        Op2::And => b" & ",
        Op2::Xor => b" ^ ",
        Op2::Or => b" | ",
        Op2::Eq => b" == ",
        Op2::Ne => b" != ",
        Op2::Lt => b" < ",
        Op2::Le => b" <= ",
        Op2::Gt => b" > ",
        Op2::Ge => b" >= ",
        _ => b", ",
    }
}

fn print_number(text: &mut Vec<u8>, n: i64) -> Result<(), AllocError>
    ensures { OnOk result (text.new.items ≡ text.old.items ++ signed_decimal n) }
{
    let mut buffer = Buffer::new();
    text.extend_from_slice(buffer.format(n).as_bytes())
}

/// Numbers among a call's arguments, behind its operand.
fn print_numbers(text: &mut Vec<u8>, numbers: &[i64]) -> Result<(), AllocError>
    ensures { OnOk result (text.new.items ≡ text.old.items ++ numbers_text numbers.now) }
{
    for n in numbers {
        text.extend_from_slice(b", ")?;
        print_number(text, *n)?;
    }
    Ok(())
}

#[cycle(printing)]
fn print_expr(text: &mut Vec<u8>, e: &Expr) -> Result<(), AllocError>
    requires { IsWritable (tree_of e.now) }
    ensures { OnOk result (text.new.items ≡ text.old.items ++ text_of e.now) }
{
    match &e.kind {
        ExprKind::Name(name) => text.extend_from_slice(name.bytes()),
        ExprKind::Literal(n) => print_number(text, *n),
        ExprKind::One(op, a) => print_one(text, *op, a.get()),
        ExprKind::Two(op, a, b) => print_two(text, *op, a.get(), b.get()),
        ExprKind::Cast(elem, a) => print_call(text, elem.word(), a.get(), &[]),
        ExprKind::Select(c, a, b) => print_select(text, c.get(), a.get(), b.get()),
        ExprKind::Shift {
            of,
            dr,
            dc,
            fill,
            fill_at: _fill_at,
        } => print_call(text, b"shift", of.get(), &[*dr, *dc, *fill]),
        ExprKind::Rotate { of, dr, dc } => print_call(text, b"rotate", of.get(), &[*dr, *dc]),
        ExprKind::Section {
            of,
            r0,
            nr,
            sr,
            c0,
            nc,
            sc,
        } => print_call(text, b"section", of.get(), &[*r0, *nr, *sr, *c0, *nc, *sc]),
        ExprKind::Stretch { of, kr, kc } => print_call(text, b"stretch", of.get(), &[*kr, *kc]),
        ExprKind::Transpose(of) => print_call(text, b"transpose", of.get(), &[]),
        ExprKind::RowFold(fold, a) => print_call(text, row_fold_word(*fold), a.get(), &[]),
        ExprKind::Fold(fold, a) => print_call(text, fold_word(*fold), a.get(), &[]),
    }
}

/// A prefix sign or `abs`, and its operand.
#[cycle(printing)]
fn print_one(text: &mut Vec<u8>, op: Op1, a: &Expr) -> Result<(), AllocError>
    requires { IsWritable (tree_of a.now) }
    ensures { OnOk result (text.new.items ≡ text.old.items ++ one_text op (tree_of a.now) (text_of a.now)) }
{
    match op {
        Op1::Neg => {
            text.extend_from_slice(b"-")?;
            if is_literal(a) {
                return print_in_brackets(text, a);
            }
            print_expr(text, a)
        }
        Op1::Not => {
            text.extend_from_slice(b"~")?;
            print_expr(text, a)
        }
        Op1::Abs => {
            text.extend_from_slice(b"abs")?;
            print_in_brackets(text, a)
        }
    }
}

fn is_literal(e: &Expr) -> bool
    ensures { IsTrue result ↔ IsLiteral (tree_of e.now) }
{
    matches!(e.kind, ExprKind::Literal(_))
}

#[cycle(printing)]
fn print_in_brackets(text: &mut Vec<u8>, e: &Expr) -> Result<(), AllocError>
    requires { IsWritable (tree_of e.now) }
    ensures { OnOk result (text.new.items ≡ text.old.items ++ in_brackets (text_of e.now)) }
{
    text.extend_from_slice(b"(")?;
    print_expr(text, e)?;
    text.extend_from_slice(b")")
}

/// An operation on two operands.
#[cycle(printing)]
fn print_two(text: &mut Vec<u8>, op: Op2, a: &Expr, b: &Expr) -> Result<(), AllocError>
    requires { IsWritable (tree_of a.now) × IsWritable (tree_of b.now) }
    ensures { OnOk result (text.new.items ≡ text.old.items ++ two_text op (text_of a.now) (text_of b.now)) }
{
    text.extend_from_slice(opening(op))?;
    print_expr(text, a)?;
    text.extend_from_slice(between(op))?;
    print_expr(text, b)?;
    text.extend_from_slice(b")")
}

#[cycle(printing)]
fn print_select(text: &mut Vec<u8>, c: &Expr, a: &Expr, b: &Expr) -> Result<(), AllocError>
    requires { IsWritable (tree_of c.now) × IsWritable (tree_of a.now) × IsWritable (tree_of b.now) }
    ensures { OnOk result
        (text.new.items ≡ text.old.items ++ select_text (text_of c.now) (text_of a.now) (text_of b.now)) }
{
    text.extend_from_slice(b"select(")?;
    print_expr(text, c)?;
    text.extend_from_slice(b", ")?;
    print_expr(text, a)?;
    text.extend_from_slice(b", ")?;
    print_expr(text, b)?;
    text.extend_from_slice(b")")
}

/// A call with one operand and numbers.
#[cycle(printing)]
fn print_call(
    text: &mut Vec<u8>,
    function: &[u8],
    of: &Expr,
    numbers: &[i64],
) -> Result<(), AllocError>
    requires { IsWritable (tree_of of.now) }
    ensures { OnOk result (text.new.items ≡ text.old.items ++ call_text function.now (text_of of.now) numbers.now) }
{
    text.extend_from_slice(function)?;
    text.extend_from_slice(b"(")?;
    print_expr(text, of)?;
    print_numbers(text, numbers)?;
    text.extend_from_slice(b")")
}

/// The rest of a line that gives a name to an expression.
fn print_bound(text: &mut Vec<u8>, name: &Name, value: &Expr) -> Result<(), AllocError>
    requires { IsWritable (tree_of value.now) }
    ensures { OnOk result (text.new.items ≡ text.old.items ++ bound_text name.now (tree_of value.now)) }
{
    text.extend_from_slice(name.bytes())?;
    text.extend_from_slice(b" = ")?;
    print_expr(text, value)?;
    text.extend_from_slice(b";\n")
}

/// An input's shape, and the end of its line.
fn print_shape(text: &mut Vec<u8>, rows: i64, cols: i64) -> Result<(), AllocError>
    ensures { OnOk result (text.new.items ≡ text.old.items ++ shape_text rows cols) }
{
    text.extend_from_slice(b"[")?;
    print_number(text, rows)?;
    text.extend_from_slice(b",")?;
    print_number(text, cols)?;
    text.extend_from_slice(b"];\n")
}

/// The rest of an input's line.
fn print_input(
    text: &mut Vec<u8>,
    name: &Name,
    elem: Elem,
    rows: i64,
    cols: i64,
) -> Result<(), AllocError>
    ensures { OnOk result (text.new.items ≡ text.old.items ++ input_text name.now elem rows cols) }
{
    text.extend_from_slice(name.bytes())?;
    text.extend_from_slice(b" ")?;
    text.extend_from_slice(elem.word())?;
    print_shape(text, rows, cols)
}

fn print_line(text: &mut Vec<u8>, stmt: &Stmt) -> Result<(), AllocError>
    requires { KeepsStatement stmt.now }
    ensures { OnOk result (text.new.items ≡ text.old.items ++ line_of stmt.now) }
{
    match stmt {
        Stmt::Input {
            name,
            elem,
            rows,
            cols,
            ..
        } => {
            text.extend_from_slice(b"input ")?;
            print_input(text, name, *elem, *rows, *cols)
        }
        Stmt::Let { name, value, .. } => {
            text.extend_from_slice(b"let ")?;
            print_bound(text, name, value)
        }
        Stmt::Output { name, value, .. } => {
            text.extend_from_slice(b"output ")?;
            print_bound(text, name, value)
        }
    }
}

/// A text that denotes the program, apart from its places: a statement a line, and each binary expression in brackets
/// (docs/LANGUAGE.md, "Printing").
/// Condition: the program keeps the language's limits, as each one that `parse` answers does.
pub fn print(alloc: Global, program: &Program) -> Result<Vec<u8>, AllocError>
    requires { KeepsLimits program.now }
    ensures lines { IfOk result (λ text. text.items ≡ lines_of program.now.stmts) }
    ensures denotes { IfOk result (λ text. DenotesApart text.items program.now) }
{
    let mut text = Vec::new(alloc);
    for stmt in program.stmts.as_slice() {
        print_line(&mut text, stmt)?;
    }
    Ok(text)
}
