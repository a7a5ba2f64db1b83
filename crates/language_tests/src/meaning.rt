//! The outputs of a program that is built here.

ghost use Rattle.std.specs.Prelude.{◌≡◌, IfOk, IfSome};
ghost use Rattle.array_syntax.specs.Limits.{IsFreeName, KeepsLimits};
ghost use Rattle.ven_base.specs.Pairs.{Pairs};
ghost use Rattle.shape_check.specs.Checked.{program_of};
ghost use Rattle.shape_check.specs.Meaning.{FitInputs, HasInput};
ghost use Rattle.language_tests.specs.Samples.{OnlyInput};
ghost use Rattle.array_syntax.specs.Tree.{tree_of, Name as name_tree, One as one_tree, Two as two_tree};

use array_meaning::eval;
use array_syntax::{Expr, ExprKind, Program, Stmt};
use shape_check::{Checked, check};
use sqlite_items::{Boxed, Items};
use std::alloc::{AllocError, Global};
use ven_base::{Array, Arrays, Elem, Name, Op1, Op2, Shape};

/// A name of at most three bytes: the words that the language alone keeps have more.
fn short_name(bytes: &[u8]) -> Option<Name>
    ensures { IfSome result IsFreeName }
{
    if bytes.len() > 3 {
        return None;
    }
    Name::from_bytes(bytes)
}

/// A name as an expression.
#[tactic(auto, using(array_syntax::proofs::Trees::tree_rules))]
fn named(name: Name) -> Expr
    ensures { tree_of result ≡ name_tree 0 name }
{
    Expr {
        at: 0,
        kind: ExprKind::Name(name),
    }
}

/// An operation on a named array.
#[tactic(auto, using(array_syntax::proofs::Trees::tree_rules))]
fn one(alloc: Global, op: Op1, name: Name) -> Result<Expr, AllocError>
    ensures { IfOk result (λ e. tree_of e ≡ one_tree 0 op (name_tree 0 name)) }
{
    let a = Boxed::new(alloc, named(name))?;
    Ok(Expr {
        at: 0,
        kind: ExprKind::One(op, a),
    })
}

/// An operation on two named arrays.
#[tactic(auto, using(array_syntax::proofs::Trees::tree_rules))]
fn two(alloc: Global, op: Op2, left: Name, right: Name) -> Result<Expr, AllocError>
    ensures { IfOk result (λ e. tree_of e ≡ two_tree 0 op (name_tree 0 left) (name_tree 0 right)) }
{
    let a = Boxed::new(alloc, named(left))?;
    let b = Boxed::new(alloc, named(right))?;
    Ok(Expr {
        at: 0,
        kind: ExprKind::Two(op, a, b),
    })
}

/// `input a i8[1,3]; let b = -a; output y = max(a, b);`
fn program(alloc: Global, a: Name, b: Name, y: Name) -> Result<Program, AllocError>
    requires a { IsFreeName a }
    requires b { IsFreeName b }
    requires y { IsFreeName y }
    ensures keeps { IfOk result KeepsLimits }
    ensures input { IfOk result (λ p. OnlyInput a Elem.I8 (record { rows = 1; cols = 3 }) p.stmts) }
{
    let negative = one(alloc, Op1::Neg, a)?;
    let greatest = two(alloc, Op2::Max, a, b)?;
    let mut stmts = Items::new(alloc);
    stmts.push(Stmt::Input {
        name: a,
        at: 0,
        elem: Elem::I8,
        rows: 1,
        cols: 3,
        shape_at: 0,
    })?;
    stmts.push(Stmt::Let {
        name: b,
        at: 0,
        value: negative,
    })?;
    stmts.push(Stmt::Output {
        name: y,
        at: 0,
        value: greatest,
    })?;
    Ok(Program { stmts })
}

/// One array, of type `i8` and shape 1 by 3, with this name.
fn inputs(alloc: Global, name: Name) -> Option<Arrays>
    ensures { IfSome result (λ inputs. HasInput inputs name Elem.I8 (record { rows = 1; cols = 3 })) }
{
    let values = Vec::from_slice(alloc, &[-5, 7, -128]).ok()?;
    let array = Array::new(Elem::I8, Shape::new(1, 3)?, values)?;
    let mut inputs = Arrays::new(alloc);
    match inputs.add(name, array) {
        Ok(true) => Some(inputs),
        _ => None,
    }
}

/// The values of the output of a checked program.
fn output_of_checked(alloc: Global, checked: &Checked, inputs: &Arrays, y: Name) -> Option<Vec<i64>>
    requires { FitInputs (program_of checked.now) inputs.now }
{
    let outputs = eval(alloc, checked, inputs).ok()?;
    let array = outputs.get(&y)?;
    Vec::from_slice(alloc, array.values.as_slice()).ok()
}

/// The checked program.
fn checked_program(alloc: Global, a: Name, b: Name, y: Name) -> Option<Checked>
    requires a { IsFreeName a }
    requires b { IsFreeName b }
    requires y { IsFreeName y }
    ensures { IfSome result (λ checked. (inputs : Pairs) →
        HasInput inputs a Elem.I8 (record { rows = 1; cols = 3 }) → FitInputs (program_of checked) inputs) }
{
    let program = match program(alloc, a, b, y) {
        Ok(program) => program,
        Err(_) => {
            return None;
        }
    };
    match check(alloc, program) {
        Ok(checked) => Some(checked),
        Err(_) => None,
    }
}

/// The values of the output.
fn output(alloc: Global) -> Option<Vec<i64>> {
    let (a, b, y) = (short_name(b"a")?, short_name(b"b")?, short_name(b"y")?);
    let checked = checked_program(alloc, a, b, y)?;
    let inputs = inputs(alloc, a)?;
    output_of_checked(alloc, &checked, &inputs, y)
}

#[test]
fn each_statement_has_its_array(rt: HostRuntime) {
    let values = output(rt.alloc());
    assert!(rt; values.is_some_and(|values| values.as_slice() == [5, 7, -128].as_slice()));
}
