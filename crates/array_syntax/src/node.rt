//! An expression and its height.

ghost use Rattle.std.specs.Prelude.{◌≡◌, ◌↔◌, ◌<◌, IsTrue, IfOk, pos};
ghost use Rattle.array_syntax.specs.Grammar.{expr};
ghost use Rattle.array_syntax.specs.Limits.{height, most_height};
ghost use Rattle.array_syntax.specs.Tree.{tree_of};

use crate::limits::HEIGHT_LIMIT;
use crate::program::{Expr, ExprKind};
use sqlite_items::Boxed;
use std::alloc::{AllocError, Global};
use std::marker::Model;
use ven_base::{Elem, Fold, Name, Op1, Op2};

/// The indices that a section takes of one side: the first, how many, and the step.
#[derive(Clone, Copy)]
pub struct Steps {
    pub first: i64,
    pub count: i64,
    pub step: i64,
}

/// An expression with its height, which contracts see as the expression.
pub struct Node {
    expr: Expr,
    height: u8,
}

impl Model for Node {
    ghost use Rattle.std.specs.Prelude.{◌≡◌, min};
    ghost use Rattle.array_syntax.specs.Limits.{height as height_of};
    ghost use Rattle.array_syntax.specs.Tree.{tree_of};
    ghost use Rattle.array_syntax.specs.declared.program.Expr.{Expr};
    ghost use Rattle.array_syntax.specs.contracts.program.Expr as row;

    ghost Value = { Expr };

    ghost coded = { row.the_row.coded };

    ghost view = { λ n. n.expr };

    ghost invariant = { λ n. n.height ≡ min (height_of (tree_of n.expr)) 255 };
}

impl Drop for Node {
    fn drop(self) {
        let Node {
            expr: _expr,
            height: _,
        } = self;
    }
}

impl Node {
    /// A name, at this place in bytes from 0.
    #[tactic(auto, using(crate::proofs::Trees::tree_name))]
    pub fn name(at: u32, name: Name) -> Node
        ensures { result ≡ expr at (ExprKind.Name name) }
    {
        Node {
            expr: Expr {
                at,
                kind: ExprKind::Name(name),
            },
            height: 1,
        }
    }

    /// A number with its sign, at this place in bytes from 0.
    #[tactic(auto, using(crate::proofs::Trees::tree_literal))]
    pub fn literal(at: u32, value: i64) -> Node
        ensures { result ≡ expr at (ExprKind.Literal value) }
    {
        Node {
            expr: Expr {
                at,
                kind: ExprKind::Literal(value),
            },
            height: 1,
        }
    }

    /// An operation on one array; the place is that of its sign or function, in bytes from 0. Err is want of memory,
    /// as in each that follows.
    #[tactic(auto, using(crate::proofs::Trees::tree_one))]
    pub fn one(alloc: Global, at: u32, op: Op1, a: Node) -> Result<Node, AllocError>
        ensures { IfOk result (λ n. n ≡ expr at (ExprKind.One op a)) }
    {
        let Node { expr, height } = a;
        Ok(Node {
            expr: Expr {
                at,
                kind: ExprKind::One(op, Boxed::new(alloc, expr)?),
            },
            height: height.saturating_add(1),
        })
    }

    /// A cast; the place is that of its type.
    #[tactic(auto, using(crate::proofs::Trees::tree_cast))]
    pub fn cast(alloc: Global, at: u32, elem: Elem, a: Node) -> Result<Node, AllocError>
        ensures { IfOk result (λ n. n ≡ expr at (ExprKind.Cast elem a)) }
    {
        let Node { expr, height } = a;
        Ok(Node {
            expr: Expr {
                at,
                kind: ExprKind::Cast(elem, Boxed::new(alloc, expr)?),
            },
            height: height.saturating_add(1),
        })
    }

    /// A transposition; the place is that of its function, as in each that follows.
    #[tactic(auto, using(crate::proofs::Trees::tree_transpose))]
    pub fn transpose(alloc: Global, at: u32, a: Node) -> Result<Node, AllocError>
        ensures { IfOk result (λ n. n ≡ expr at (ExprKind.Transpose a)) }
    {
        let Node { expr, height } = a;
        Ok(Node {
            expr: Expr {
                at,
                kind: ExprKind::Transpose(Boxed::new(alloc, expr)?),
            },
            height: height.saturating_add(1),
        })
    }

    /// A reduction of each row.
    #[tactic(auto, using(crate::proofs::Trees::tree_row_fold))]
    pub fn row_fold(alloc: Global, at: u32, fold: Fold, a: Node) -> Result<Node, AllocError>
        ensures { IfOk result (λ n. n ≡ expr at (ExprKind.RowFold fold a)) }
    {
        let Node { expr, height } = a;
        Ok(Node {
            expr: Expr {
                at,
                kind: ExprKind::RowFold(fold, Boxed::new(alloc, expr)?),
            },
            height: height.saturating_add(1),
        })
    }

    /// A reduction of the whole array.
    #[tactic(auto, using(crate::proofs::Trees::tree_fold))]
    pub fn fold(alloc: Global, at: u32, fold: Fold, a: Node) -> Result<Node, AllocError>
        ensures { IfOk result (λ n. n ≡ expr at (ExprKind.Fold fold a)) }
    {
        let Node { expr, height } = a;
        Ok(Node {
            expr: Expr {
                at,
                kind: ExprKind::Fold(fold, Boxed::new(alloc, expr)?),
            },
            height: height.saturating_add(1),
        })
    }

    /// An operation on two arrays; the place is that of its sign or function.
    #[tactic(auto, using(crate::proofs::Trees::tree_two))]
    pub fn two(alloc: Global, at: u32, op: Op2, a: Node, b: Node) -> Result<Node, AllocError>
        ensures { IfOk result (λ n. n ≡ expr at (ExprKind.Two op a b)) }
    {
        let highest = a.height.max(b.height);
        let a = Boxed::new(alloc, a.into_expr())?;
        let b = Boxed::new(alloc, b.into_expr())?;
        Ok(Node {
            expr: Expr {
                at,
                kind: ExprKind::Two(op, a, b),
            },
            height: highest.saturating_add(1),
        })
    }

    /// A choice: `a` where `c` isn't 0, else `b`.
    #[tactic(auto, using(crate::proofs::Trees::tree_select))]
    pub fn select(alloc: Global, at: u32, c: Node, a: Node, b: Node) -> Result<Node, AllocError>
        ensures { IfOk result (λ n. n ≡ expr at (ExprKind.Select c a b)) }
    {
        let highest = c.height.max(a.height.max(b.height));
        let c = Boxed::new(alloc, c.into_expr())?;
        let a = Boxed::new(alloc, a.into_expr())?;
        let b = Boxed::new(alloc, b.into_expr())?;
        Ok(Node {
            expr: Expr {
                at,
                kind: ExprKind::Select(c, a, b),
            },
            height: highest.saturating_add(1),
        })
    }

    /// A shift by `dr` rows and `dc` columns; `fill` stands where that leaves the shape, and its place is `fill_at`, in
    /// bytes from 0.
    #[tactic(auto, using(crate::proofs::Trees::tree_shift))]
    pub fn shift(
        alloc: Global,
        at: u32,
        a: Node,
        dr: i64,
        dc: i64,
        fill: i64,
        fill_at: u32,
    ) -> Result<Node, AllocError>
        ensures { IfOk result (λ n. n ≡ expr at (ExprKind.Shift a dr dc fill fill_at)) }
    {
        let Node { expr, height } = a;
        let of = Boxed::new(alloc, expr)?;
        Ok(Node {
            expr: Expr {
                at,
                kind: ExprKind::Shift {
                    of,
                    dr,
                    dc,
                    fill,
                    fill_at,
                },
            },
            height: height.saturating_add(1),
        })
    }

    /// A rotation by `dr` rows and `dc` columns.
    #[tactic(auto, using(crate::proofs::Trees::tree_rotate))]
    pub fn rotate(alloc: Global, at: u32, a: Node, dr: i64, dc: i64) -> Result<Node, AllocError>
        ensures { IfOk result (λ n. n ≡ expr at (ExprKind.Rotate a dr dc)) }
    {
        let Node { expr, height } = a;
        let of = Boxed::new(alloc, expr)?;
        Ok(Node {
            expr: Expr {
                at,
                kind: ExprKind::Rotate { of, dr, dc },
            },
            height: height.saturating_add(1),
        })
    }

    /// A stretch: each row `kr` times, each column `kc` times.
    #[tactic(auto, using(crate::proofs::Trees::tree_stretch))]
    pub fn stretch(alloc: Global, at: u32, a: Node, kr: i64, kc: i64) -> Result<Node, AllocError>
        ensures { IfOk result (λ n. n ≡ expr at (ExprKind.Stretch a kr kc)) }
    {
        let Node { expr, height } = a;
        let of = Boxed::new(alloc, expr)?;
        Ok(Node {
            expr: Expr {
                at,
                kind: ExprKind::Stretch { of, kr, kc },
            },
            height: height.saturating_add(1),
        })
    }

    /// `rows` and `cols` are the first index, the count and the step.
    #[tactic(auto, using(crate::proofs::Trees::tree_section))]
    pub fn section(
        alloc: Global,
        at: u32,
        a: Node,
        rows: Steps,
        cols: Steps,
    ) -> Result<Node, AllocError>
        ensures { IfOk result (λ n. n ≡ expr at
            (ExprKind.Section a rows.first rows.count rows.step cols.first cols.count cols.step)) }
    {
        let Node { expr, height } = a;
        let of = Boxed::new(alloc, expr)?;
        Ok(Node {
            expr: Expr {
                at,
                kind: ExprKind::Section {
                    of,
                    r0: rows.first,
                    nr: rows.count,
                    sr: rows.step,
                    c0: cols.first,
                    nc: cols.count,
                    sc: cols.step,
                },
            },
            height: height.saturating_add(1),
        })
    }

    /// The expression alone.
    pub fn into_expr(self) -> Expr
        ensures { result ≡ self }
    {
        let Node { expr, height: _ } = self;
        expr
    }

    /// Whether the expression is higher than is allowed.
    pub fn is_too_high(&self) -> bool
        ensures { IsTrue result ↔ most_height < height (tree_of self.now) }
    {
        self.height as u32 > HEIGHT_LIMIT
    }
}
