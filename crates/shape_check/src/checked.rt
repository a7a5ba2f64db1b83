//! Checked programs (docs/LANGUAGE.md, "Checking").
use crate::{ArrayType, Typed};
use std::marker::Model;
use ven_base::{Elem, Name, Shape};

/// What a statement is.
#[derive(Clone, Copy, PartialEq, Eq)]
pub enum StmtKind {
    Input,
    Let,
    Output,
}

/// A statement of a checked program: what it is, the name that it declares, and the type and shape of the name's array.
/// `value` is `None` exactly for an input.
#[derive(Drop)]
pub struct CheckedStmt {
    pub kind: StmtKind,
    pub name: Name,
    pub elem: Elem,
    pub shape: Shape,
    pub value: Option<Typed>,
}

/// A checked program: one that keeps the language's limits and all rules of checking. Contracts see it as the list of
/// its statements, and `program_of` gives their plain values.
#[derive(Drop)]
pub struct Checked {
    pub stmts: Vec<CheckedStmt>,
}

impl Model for Checked {
    ghost use Rattle.std.specs.Prelude.{List};
    ghost use Rattle.std.specs.Coded.{codes};
    ghost use Rattle.shape_check.specs.declared.checked.CheckedStmt.{CheckedStmt};
    ghost use Rattle.shape_check.specs.contracts.typed.TypedKind as typed;
    ghost use Rattle.shape_check.specs.Checked.{IsChecked};

    ghost Value = { List CheckedStmt };

    ghost coded = { Prim.hlevel (codes, typed.the_row.coded) };

    ghost view = { λ c. c.stmts.items };

    ghost invariant = { λ c. IsChecked c.stmts.items };
}

impl CheckedStmt {
    ghost use Rattle.std.specs.Prelude.{◌≡◌};
    ghost use Rattle.shape_check.specs.Rules.{declared_type};
    ghost use Rattle.shape_check.specs.Checked.{statement_of, IsWhole};

    /// The type and the shape of the name's array.
    #[tactic(auto, using(crate::proofs::Plain::elem_with, crate::proofs::Plain::shape_with))]
    pub fn array_type(&self) -> ArrayType
        requires { IsWhole self.now }
        ensures { result ≡ declared_type (statement_of self.now) }
    {
        ArrayType {
            elem: self.elem,
            shape: self.shape,
        }
    }
}
