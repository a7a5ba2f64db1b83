//! Inputs that commands load.

ghost use Rattle.std.specs.Prelude.{◌≡◌, ◌++◌, ◌<◌, ◌^◌, length, All, IfOk, OnOk, IsErrOf};
ghost use Rattle.ven_io.specs.Files.{OnlyLoads};
ghost use Rattle.ven_base.specs.Pairs.{ArePairs};
ghost use Rattle.array_file.specs.Fitting.{Fits};
ghost use Rattle.shape_check.specs.Checked.{program_of, statement_of, IsWhole};
ghost use Rattle.shape_check.specs.Meaning.{FitInputs};
ghost use Rattle.expr_split.specs.DeclaredTable.{input_entry, input_table as input_table_lem};
ghost use Rattle.venice_run.specs.Inputs.{fitting, arrays_in, arrays_under, inputs_under};
ghost use Rattle.venice_run.specs.Stage.{as_stage};

use crate::ending::{Ending, Fault};
use crate::reading::load_within;
use crate::refusal::{Kind, Refusal};
use array_file::{fit, read_arrays};
use good_images::table_fits;
use shape_check::{Checked, CheckedStmt, StmtKind};
use std::alloc::{AllocError, Global};
use ven_base::{Arrays, Entry};
use ven_io::Files;

/// The program's inputs under the name.
pub(crate) fn read_inputs<F: Files>(
    alloc: Global,
    files: &mut F,
    name: &str,
    program: &Checked,
) -> Result<Arrays, Ending>
    ensures read { inputs_under (F.behaviour (F.state files.old).content) name.now
        (input_table_lem (program_of program.now)) (as_stage (λ arrays. arrays) result) }
    ensures only { OnlyLoads (F.state files.old) (F.state files.new) (IsErrOf result (Ending.Failed Fault.File)) }
    ensures fits { IfOk result (λ arrays. Fits arrays (input_table_lem (program_of program.now))) }
    ensures pairs { IfOk result ArePairs }
    ensures inputs { IfOk result (FitInputs (program_of program.now)) }
{
    let arrays = load_arrays(alloc, files, name)?;
    fit_inputs(alloc, arrays, program)
}

/// The arrays of the file under the name.
pub(crate) fn load_arrays<F: Files>(
    alloc: Global,
    files: &mut F,
    name: &str,
) -> Result<Arrays, Ending>
    ensures read { arrays_under (F.behaviour (F.state files.old).content) name.now
        (as_stage (λ arrays. arrays) result) }
    ensures only { OnlyLoads (F.state files.old) (F.state files.new) (IsErrOf result (Ending.Failed Fault.File)) }
{
    let text = load_within(alloc, files, name, Kind::Inputs)?;
    arrays_of_text(alloc, &text)
}

/// The arrays of the text.
fn arrays_of_text(alloc: Global, text: &[u8]) -> Result<Arrays, Ending>
    requires { length text.now < 2 ^ 31 }
    ensures { arrays_in text.now (as_stage (λ arrays. arrays) result) }
{
    Ok(read_arrays(alloc, text)?)
}

/// These arrays, where they fit the program's inputs.
fn fit_inputs(alloc: Global, arrays: Arrays, program: &Checked) -> Result<Arrays, Ending>
    ensures fitted { fitting (input_table_lem (program_of program.now)) arrays (as_stage (λ fitted. fitted) result) }
    ensures fits { IfOk result (λ arrays. Fits arrays (input_table_lem (program_of program.now))) }
    ensures pairs { IfOk result ArePairs }
    ensures inputs { IfOk result (FitInputs (program_of program.now)) }
{
    table_fits();
    let table = input_table(alloc, program.stmts.as_slice())?;
    match fit(&arrays, &table) {
        Ok(()) => Ok(arrays),
        Err(fault) => Err(Ending::Refused(Refusal::Fit(fault))),
    }
}

/// The inputs among the statements, in their order.
fn input_table(alloc: Global, stmts: &[CheckedStmt]) -> Result<Vec<Entry>, AllocError>
    requires { All IsWhole stmts.now }
    ensures { IfOk result (λ table. table.items ≡ input_table_lem (program_of stmts.now)) }
{
    let mut table = Vec::new(alloc);
    for stmt in stmts {
        push_input(&mut table, stmt)?;
    }
    Ok(table)
}

fn push_input(table: &mut Vec<Entry>, stmt: &CheckedStmt) -> Result<(), AllocError>
    requires { IsWhole stmt.now }
    ensures { OnOk result (table.new.items ≡ table.old.items ++ input_entry (statement_of stmt.now)) }
{
    match stmt.kind {
        StmtKind::Input => {
            table.push(Entry {
                name: stmt.name,
                output: false,
                elem: stmt.elem,
                shape: stmt.shape,
                place: 0,
            })?;
            Ok(())
        }
        StmtKind::Let | StmtKind::Output => Ok(()),
    }
}
