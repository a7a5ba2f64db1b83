//! Whether arrays fit a table (docs/FORMATS.md, "Fitting").

ghost use Rattle.std.specs.Prelude.{◌↔◌, length, IsTrue, MatchResult};
ghost use Rattle.array_file.specs.Fitting.{Fits, IsUnfit, ListsInput};
ghost use Rattle.array_file.specs.Matching.{IsInputNamed, FitsEntry, Refuses, FitsUpTo};

use ven_base::{Arrays, Entry, Name};

/// Why arrays don't fit a table (docs/FORMATS.md, "Fitting").
#[derive(Clone, Copy)]
pub enum FitFault {
    /// No array has this input's name.
    Missing { name: Name },
    /// The array has another type than the input.
    TypeWrong { name: Name },
    /// The array has another shape than the input.
    ShapeWrong { name: Name },
    /// The array is no input of the table.
    Extra { name: Name },
}

/// Whether the entry is an input of this name.
fn is_input_named(entry: &Entry, name: &Name) -> bool
    ensures { IsTrue result ↔ IsInputNamed entry.now name.now }
{
    !entry.output && entry.name == *name
}

/// Whether an input of the table has this name.
fn has_input(table: &[Entry], name: &Name) -> bool
    ensures { IsTrue result ↔ ListsInput table.now name.now }
{
    for entry in table {
        if is_input_named(entry, name) {
            return true;
        }
    }
    false
}

/// What is wrong with an entry, if it is an input.
fn fit_entry(arrays: &Arrays, entry: &Entry) -> Result<(), FitFault>
    ensures { MatchResult result (λ _. FitsEntry arrays.now entry.now) (λ fault. Refuses arrays.now entry.now fault) }
{
    if entry.output {
        return Ok(());
    }
    let name = entry.name;
    match arrays.get(&name) {
        Some(array) => {
            if array.elem != entry.elem {
                return Err(FitFault::TypeWrong { name });
            }
            if array.shape != entry.shape {
                return Err(FitFault::ShapeWrong { name });
            }
            Ok(())
        }
        None => Err(FitFault::Missing { name }),
    }
}

/// The first array that is no input, behind a table whose inputs fit.
fn fit_names(arrays: &Arrays, table: &[Entry]) -> Result<(), FitFault>
    requires { FitsUpTo arrays.now table.now (length table.now) }
    ensures { MatchResult result (λ _. Fits arrays.now table.now) (λ fault. IsUnfit arrays.now table.now fault) }
{
    for k in 0..arrays.len() {
        let name = arrays.name(k);
        if !has_input(table, name) {
            return Err(FitFault::Extra { name: *name });
        }
    }
    Ok(())
}

/// Whether each input of the table is there, with its type and its shape, and no other array (docs/FORMATS.md,
/// "Fitting"). The inputs are looked at in the table's order, each for `Missing`, `TypeWrong` and `ShapeWrong`; then
/// `Extra` is the first array that is no input of the table. Takes no memory.
pub fn fit(arrays: &Arrays, table: &[Entry]) -> Result<(), FitFault>
    ensures { MatchResult result (λ _. Fits arrays.now table.now) (λ fault. IsUnfit arrays.now table.now fault) }
{
    for entry in table {
        match fit_entry(arrays, entry) {
            Ok(()) => {}
            Err(fault) => return Err(fault),
        }
    }
    fit_names(arrays, table)
}
