//! Programs and their expressions.

use sqlite_items::{Boxed, Items};
use ven_base::{Elem, Fold, Name, Op1, Op2};

/// What a text denotes: its statements in order (docs/LANGUAGE.md, "Grammar").
#[derive(Drop)]
pub struct Program {
    pub stmts: Items<Stmt>,
}

/// A statement. `at` is the place of its name, in bytes from 0.
#[derive(Drop)]
pub enum Stmt {
    /// `input NAME TYPE [ rows , cols ] ;` with any numbers from 0 to 4,294,967,295. `shape_at` is the place of
    /// the `[`.
    Input {
        name: Name,
        at: u32,
        elem: Elem,
        rows: i64,
        cols: i64,
        shape_at: u32,
    },
    /// `let NAME = value ;`
    Let {
        name: Name,
        at: u32,
        value: Expr,
    },
    /// `output NAME = value ;`
    Output {
        name: Name,
        at: u32,
        value: Expr,
    },
}

/// An expression. `at` is the place of its name, number, sign, type or function, in bytes from 0; a literal's sign is
/// part of its number.
#[derive(Drop)]
#[cycle(expr)]
pub struct Expr {
    pub at: u32,
    pub kind: ExprKind,
}

/// What an expression does with its operands (docs/LANGUAGE.md, "Operations" and "Index maps"). Numbers are as they are
/// written: 0 to 4,294,967,295, and with a sign in a literal, a shift and a rotation.
#[derive(Drop)]
#[cycle(expr)]
pub enum ExprKind {
    /// The array that a statement names.
    Name(Name),
    /// A number, of the type of what stands beside it.
    Literal(i64),
    /// `-a`, `~a` and `abs(a)`.
    One(Op1, Boxed<Expr>),
    /// A binary sign between two operands, or `min`, `max`, `sadd` and `ssub` of them.
    Two(Op2, Boxed<Expr>, Boxed<Expr>),
    /// A cast: a type as a function.
    Cast(Elem, Boxed<Expr>),
    /// `select(condition, then, else)`.
    Select(Boxed<Expr>, Boxed<Expr>, Boxed<Expr>),
    /// `shift(of, dr, dc, fill)`. `fill_at` is the place of the fill, or of its sign.
    Shift {
        of: Boxed<Expr>,
        dr: i64,
        dc: i64,
        fill: i64,
        fill_at: u32,
    },
    /// `rotate(of, dr, dc)`.
    Rotate {
        of: Boxed<Expr>,
        dr: i64,
        dc: i64,
    },
    /// `section(of, r0, nr, sr, c0, nc, sc)`.
    Section {
        of: Boxed<Expr>,
        r0: i64,
        nr: i64,
        sr: i64,
        c0: i64,
        nc: i64,
        sc: i64,
    },
    /// `stretch(of, kr, kc)`.
    Stretch {
        of: Boxed<Expr>,
        kr: i64,
        kc: i64,
    },
    /// `transpose(of)`.
    Transpose(Boxed<Expr>),
    /// `rowsum`, `rowmin` and `rowmax`: of each row.
    RowFold(Fold, Boxed<Expr>),
    /// `sum`, `minval` and `maxval`: of the whole array.
    Fold(Fold, Boxed<Expr>),
}
