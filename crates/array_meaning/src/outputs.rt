//! A program on whole arrays: the array of each statement, once, and the outputs (docs/LANGUAGE.md, "What a program
//! means").

ghost use Rattle.std.specs.Prelude.{◌≡◌, ◌≤◌, ◌++◌, length, IfOk, OnOk, Contains};
ghost use Rattle.std.specs.List.{AllZip};
ghost use Rattle.ven_base.specs.Grid.{IsGrid};
ghost use Rattle.ven_base.specs.Pairs.{names_of};
ghost use Rattle.array_syntax.specs.Limits.{most_statements};
ghost use Rattle.shape_check.specs.Checked.{program_of, statement_of, IsWhole, IsChecked};
ghost use Rattle.shape_check.specs.Meaning.{meaning_of, outputs_of as outputs_among, FitInputs, FitsStatement};
ghost use Rattle.array_meaning.specs.Operand.{IsSlice, IsStatementReady, array_with};
ghost use Rattle.array_meaning.specs.Store.{grid_of, grids_of, HasOwn, IsArrayFor, output_with};

use crate::evaluation::value_of;
use crate::operand::{Operand, Values};
use crate::store::Stored;
use shape_check::{Checked, CheckedStmt, StmtKind};
use std::alloc::{AllocError, Global};
use ven_base::{Array, Arrays, Elem};

/// The outputs of a checked program, in the order of its statements, each with its array. The inputs hold an array of
/// each input's name, with its type and shape. Each statement is worked out once, and an input's array is used where it
/// stands: the time is linear in the program's work. `AllocError` where memory is wanting.
pub fn eval(alloc: Global, program: &Checked, inputs: &Arrays) -> Result<Arrays, AllocError>
    requires { FitInputs (program_of program.now) inputs.now }
    ensures { IfOk result (λ outputs. outputs ≡ meaning_of (program_of program.now) inputs.now) }
{
    let stmts = program.stmts.as_slice();
    let mut arrays = Vec::with_capacity(alloc, stmts.len())?;
    for stmt in stmts {
        let array = array_of(alloc, &arrays, inputs, stmt)?;
        arrays.push(array)?;
    }
    outputs_of(alloc, stmts, arrays)
}

/// The array of a statement, where these are those of the earlier ones.
fn array_of<'a>(
    alloc: Global,
    arrays: &[Stored<'a>],
    inputs: &'a Arrays,
    stmt: &CheckedStmt,
) -> Result<Stored<'a>, AllocError>
    requires whole { IsWhole stmt.now }
    requires fits { FitsStatement inputs.now (statement_of stmt.now) }
    requires ready { IsStatementReady (grids_of arrays.now) (statement_of stmt.now) }
    ensures { IfOk result (IsArrayFor inputs.now (grids_of arrays.now) stmt.now) }
{
    match &stmt.value {
        None => match inputs.get(&stmt.name) {
            Some(array) => Ok(Stored::Input(array)),
            None => unreachable!(),
        },
        Some(value) => {
            let operand = value_of(alloc, arrays, value)?;
            Ok(Stored::Own(array_from(alloc, stmt.elem, operand)?))
        }
    }
}

/// An array of its own. What is shared is copied.
fn array_from(alloc: Global, elem: Elem, operand: Operand) -> Result<Array, AllocError>
    requires slice { IsSlice operand }
    requires grid { IsGrid (array_with elem operand) }
    ensures { IfOk result (λ array. array ≡ array_with elem operand.entry) }
{
    let Operand { shape, values } = operand;
    let values = match values {
        Values::Own(values) => values,
        Values::Shared(values) => Vec::from_slice(alloc, values)?,
        Values::Same(_) => unreachable!(),
    };
    Ok(Array {
        elem,
        shape,
        values,
    })
}

/// The outputs among the statements, with their arrays.
fn outputs_of(
    alloc: Global,
    stmts: &[CheckedStmt],
    arrays: Vec<Stored>,
) -> Result<Arrays, AllocError>
    requires checked { IsChecked stmts.now }
    requires own { AllZip HasOwn stmts.now arrays.items }
    ensures { IfOk result (λ outputs. outputs ≡ outputs_among (program_of stmts.now) (grids_of arrays.entry.items)) }
{
    let mut outputs = Arrays::new(alloc);
    let mut rest = arrays.into_iter();
    for stmt in stmts {
        let Some(stored) = rest.next() else {
            unreachable!();
        };
        put_output(&mut outputs, stmt, stored)?;
    }
    Ok(outputs)
}

/// Adds the array of a statement to the outputs, where it is one.
fn put_output(outputs: &mut Arrays, stmt: &CheckedStmt, stored: Stored) -> Result<(), AllocError>
    requires whole { IsWhole stmt.now }
    requires own { HasOwn stmt.now stored }
    requires is_new { ¬ Contains (names_of outputs.old) stmt.now.name }
    requires few { length outputs.old ≤ most_statements }
    ensures { OnOk result (outputs.new ≡ outputs.old ++ output_with (statement_of stmt.now) (grid_of stored.entry)) }
{
    match stmt.kind {
        StmtKind::Input | StmtKind::Let => Ok(()),
        StmtKind::Output => match stored {
            Stored::Input(_) => unreachable!(),
            Stored::Own(array) => {
                outputs.add(stmt.name, array)?;
                Ok(())
            }
        },
    }
}
