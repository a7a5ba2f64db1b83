//! The split of a checked program (docs/COMPILER.md).
ghost use Rattle.std.specs.Prelude.{◌≡◌, ◌++◌, [], ◌∷◌, ◌+◌, ◌*◌, ◌<◌, ◌≤◌, ◌^◌, IfOk, OnOk, map, length, All, get_or};
ghost use Rattle.ven_base.specs.Limits.{memory_limit};
ghost use Rattle.shape_check.specs.Checked.{statement_of, program_of, IsWhole, IsChecked};
ghost use Rattle.pass_plan.specs.Tree.{nodes_of};
ghost use Rattle.pass_plan.specs.Sound.{IsSound, no_place};
ghost use Rattle.pass_plan.specs.Shown.{pass_of, passes_of, split_of};
ghost use Rattle.expr_split.specs.Places.{input_type as type_of_input, input_types as types_of_inputs, draft_type as type_of_draft, round_up as next_multiple, bytes_of, places_from, end_from, array_under as array_number, entry_of, table_from, IsPassOf, ArePassesOf, IsSplitOf};
ghost use Rattle.expr_split.specs.Cuts.{no_tree};
ghost use Rattle.expr_split.specs.Terms.{term_of, plain_draft};
ghost use Rattle.expr_split.specs.Placing.{IsSmallDraft, has_input};

use crate::drafts::Draft;
use crate::numbers::numbered;
use crate::plan::plan_program;
use crate::term::Term;
use indexmap::IndexSet;
use pass_plan::{ArrayPlace, Pass, PassKind, Split};
use shape_check::{ArrayType, Checked, CheckedStmt, StmtKind};
use std::alloc::{AllocError, Global};
use ven_base::{Entry, Shape};

/// Arrays at their places in memory, and the end of the last one, in bytes from 0.
#[derive(Drop)]
pub struct Placed {
    pub arrays: Vec<ArrayPlace>,
    pub end: u32,
}

/// Whether a statement is an input.
fn is_input(stmt: &CheckedStmt) -> bool
    ensures { result ≡ has_input (statement_of stmt.now) }
{
    match stmt.kind {
        StmtKind::Input => true,
        StmtKind::Let => stmt.value.is_none(),
        StmtKind::Output => stmt.value.is_none(),
    }
}

/// The type and shape of an input goes last.
fn push_input_type(stmt: &CheckedStmt, types: &mut Vec<ArrayType>) -> Result<(), AllocError>
    ensures { OnOk result (types.new.items ≡ types.old.items ++ type_of_input (statement_of stmt.now)) }
{
    match stmt.kind {
        StmtKind::Input => {
            types.push(ArrayType {
                elem: stmt.elem,
                shape: stmt.shape,
            })?;
            Ok(())
        }
        StmtKind::Let => match &stmt.value {
            Some(_) => Ok(()),
            None => {
                types.push(ArrayType {
                    elem: stmt.elem,
                    shape: stmt.shape,
                })?;
                Ok(())
            }
        },
        StmtKind::Output => match &stmt.value {
            Some(_) => Ok(()),
            None => {
                types.push(ArrayType {
                    elem: stmt.elem,
                    shape: stmt.shape,
                })?;
                Ok(())
            }
        },
    }
}

/// The types and shapes of the inputs, in the order of their statements.
fn input_types(alloc: Global, stmts: &[CheckedStmt]) -> Result<Vec<ArrayType>, AllocError>
    ensures { IfOk result (λ v. v.items ≡ types_of_inputs (program_of stmts.now)) }
{
    let mut types = Vec::new(alloc);
    for stmt in stmts {
        push_input_type(stmt, &mut types)?;
    }
    Ok(types)
}

/// The type and shape of what a pass makes.
fn draft_type(draft: &Draft) -> ArrayType
    ensures { result ≡ type_of_draft (plain_draft draft.now) }
{
    let shape = match draft.kind {
        PassKind::Map => draft.domain,
        PassKind::Reduce(_) => Shape {
            rows: draft.domain.rows,
            cols: 1,
        },
    };
    ArrayType {
        elem: draft.elem,
        shape,
    }
}

/// The types and shapes of what passes make go last.
fn push_draft_types(drafts: &[Draft], types: &mut Vec<ArrayType>) -> Result<(), AllocError>
    ensures { OnOk result (types.new.items ≡ types.old.items ++ map type_of_draft (map plain_draft drafts.now)) }
{
    for draft in drafts {
        let made = draft_type(draft);
        types.push(made)?;
    }
    Ok(())
}

/// The pass with its leaves by number.
fn number_pass(alloc: Global, draft: &Draft, dest: u32) -> Result<Pass, AllocError>
    requires { IsSmallDraft (plain_draft draft.now) }
    ensures { IfOk result (λ p. IsPassOf dest (plain_draft draft.now) (pass_of p)) }
{
    let mut leaves = IndexSet::new(alloc);
    let tree = numbered(alloc, &draft.tree, &mut leaves)?;
    let leaves = leaves.into_iter().collect(alloc)?;
    Ok(Pass {
        kind: draft.kind,
        domain: draft.domain,
        leaves,
        tree,
        dest,
        elem: draft.elem,
    })
}

/// The passes with their leaves by number. The first makes this array.
fn number_passes(alloc: Global, drafts: &[Draft], first: u32) -> Result<Vec<Pass>, AllocError>
    requires small { All IsSmallDraft (map plain_draft drafts.now) }
    requires few { first + length drafts.now < 2 ^ 32 }
    ensures { IfOk result (λ v. ArePassesOf first (map plain_draft drafts.now) (passes_of v.items)) }
{
    let mut passes = Vec::new(alloc);
    let mut dest = first;
    for draft in drafts {
        let pass = number_pass(alloc, draft, dest)?;
        passes.push(pass)?;
        dest += 1;
    }
    Ok(passes)
}

/// The next multiple of 4.
fn round_up(end: u32) -> u32
    requires { end ≤ memory_limit }
    ensures { result ≡ next_multiple end }
{
    end.div_ceil(4) * 4
}

/// One array more, at the next multiple of 4.
fn place(type_: &ArrayType, placed: &mut Placed) -> Result<(), AllocError>
    requires { end_from placed.old.end (type_.now ∷ []) ≤ memory_limit }
    ensures arrays { OnOk result (placed.new.arrays.items
        ≡ placed.old.arrays.items ++ places_from placed.old.end (type_.now ∷ [])) }
    ensures end { OnOk result (placed.new.end ≡ end_from placed.old.end (type_.now ∷ [])) }
{
    let place = round_up(placed.end);
    placed.arrays.push(ArrayPlace {
        elem: type_.elem,
        shape: type_.shape,
        place,
    })?;
    placed.end = place + type_.shape.elements() * type_.elem.size();
    Ok(())
}

/// The arrays one after another.
fn place_all(alloc: Global, types: &[ArrayType]) -> Result<Placed, AllocError>
    requires { end_from 0 types.now ≤ memory_limit }
    ensures arrays { IfOk result (λ p. p.arrays.items ≡ places_from 0 types.now) }
    ensures end { IfOk result (λ p. p.end ≡ end_from 0 types.now) }
{
    let mut placed = Placed {
        arrays: Vec::new(alloc),
        end: 0,
    };
    for type_ in types {
        place(type_, &mut placed)?;
    }
    Ok(placed)
}

/// The number of the array that a leaf is of.
fn array_under(term: &Term) -> u32
    ensures { result ≡ array_number (term_of term.now) }
{
    match term {
        Term::Leaf(leaf) => leaf.array,
        _ => 0,
    }
}

/// The place of an array.
fn place_of(arrays: &[ArrayPlace], k: u32) -> u32
    ensures { result ≡ (get_or arrays.now k no_place).place }
{
    match arrays.get(k as usize) {
        Some(array) => array.place,
        None => 0,
    }
}

/// The entry of an input or an output goes last.
fn push_entry(
    stmt: &CheckedStmt,
    term: &Term,
    arrays: &[ArrayPlace],
    table: &mut Vec<Entry>,
) -> Result<(), AllocError>
    requires { IsWhole stmt.now }
    ensures { OnOk result (table.new.items
        ≡ table.old.items ++ entry_of arrays.now (statement_of stmt.now) (term_of term.now)) }
{
    let place = place_of(arrays, array_under(term));
    let entry = Entry {
        name: stmt.name,
        output: !is_input(stmt),
        elem: stmt.elem,
        shape: stmt.shape,
        place,
    };
    match stmt.kind {
        StmtKind::Let => Ok(()),
        StmtKind::Input => {
            table.push(entry)?;
            Ok(())
        }
        StmtKind::Output => {
            table.push(entry)?;
            Ok(())
        }
    }
}

/// The same by the tree with this number, where there is one.
fn push_entry_at(
    stmt: &CheckedStmt,
    names: &[Term],
    k: usize,
    arrays: &[ArrayPlace],
    table: &mut Vec<Entry>,
) -> Result<(), AllocError>
    requires { IsWhole stmt.now }
    ensures there { OnOk result (k < length names.now → table.new.items
        ≡ table.old.items ++ entry_of arrays.now (statement_of stmt.now) (get_or (map term_of names.now) k no_tree)) }
    ensures none { OnOk result (length names.now ≤ k → table.new.items ≡ table.old.items) }
{
    match names.get(k) {
        Some(term) => push_entry(stmt, term, arrays, table),
        None => Ok(()),
    }
}

/// The table of the inputs and the outputs, by their names' trees.
fn table_of(
    alloc: Global,
    stmts: &[CheckedStmt],
    names: &[Term],
    arrays: &[ArrayPlace],
) -> Result<Vec<Entry>, AllocError>
    requires { All IsWhole stmts.now }
    ensures { IfOk result (λ v. v.items ≡ table_from arrays.now (program_of stmts.now) (map term_of names.now)) }
{
    let mut table = Vec::new(alloc);
    let mut k = 0;
    for stmt in stmts {
        push_entry_at(stmt, names, k, arrays, &mut table)?;
        k += 1;
    }
    Ok(table)
}

/// The split of a checked program into passes, with the places of all arrays and the table of inputs and outputs.
pub fn split(alloc: Global, program: &Checked) -> Result<Split, AllocError>
    ensures is_split { IfOk result (λ s. IsSplitOf (program_of program.now) (split_of s)) }
    ensures sound { IfOk result (λ s. IsSound (split_of s)) }
{
    split_checked(alloc, &program.stmts)
}

/// The same of its statements.
fn split_checked(alloc: Global, stmts: &[CheckedStmt]) -> Result<Split, AllocError>
    requires { IsChecked stmts.now }
    ensures is_split { IfOk result (λ s. IsSplitOf (program_of stmts.now) (split_of s)) }
    ensures sound { IfOk result (λ s. IsSound (split_of s)) }
{
    split_stmts(alloc, stmts)
}

/// The parts of the split, one after another.
fn split_stmts(alloc: Global, stmts: &[CheckedStmt]) -> Result<Split, AllocError>
    requires { IsChecked stmts.now }
    ensures { IfOk result (λ s. IsSplitOf (program_of stmts.now) (split_of s)) }
{
    let mut types = input_types(alloc, stmts)?;
    let inputs = types.len() as u32;
    let planned = plan_program(alloc, stmts, inputs)?;
    let passes = number_passes(alloc, &planned.plan.drafts, inputs)?;
    push_draft_types(&planned.plan.drafts, &mut types)?;
    let placed = place_all(alloc, &types)?;
    let table = table_of(alloc, stmts, &planned.names, &placed.arrays)?;
    Ok(Split {
        passes,
        arrays: placed.arrays,
        table,
        memory: placed.end,
    })
}
