//! The stack of open items.

ghost use Rattle.std.specs.Prelude.{◌≡◌, [], ◌∷◌, ◌<◌, ◌^◌, length, ◌↔◌, IsTrue, OnOk, MatchOption};
ghost use Rattle.array_syntax.specs.Reading.{room, depth_of};
ghost use Rattle.array_syntax.specs.Steps.{Ends, opens};

use crate::call::Earlier;
use crate::node::Node;
use crate::operators::{LOOSEST, level, right_level};
use crate::program::Stmt;
use crate::word::{Binding, Callee, Operator};
use sqlite_items::Items;
use std::alloc::{AllocError, Global};
use std::marker::Model;
use ven_base::Name;

/// A prefix sign.
#[derive(Clone, Copy)]
pub enum Sign {
    Negate,
    Flip,
}

/// An open item: what stands before an expression that isn't whole.
#[derive(Drop)]
pub enum Frame {
    /// The statements before, and the statement up to its `=`.
    Body(Items<Stmt>, Binding, Name, u32),
    Prefix(u32, Sign),
    /// A binary sign and its left operand.
    Binary(u32, Operator, Node),
    Bracket,
    /// A function, its bracket and the operands before.
    Call(u32, Callee, Earlier),
}

/// The open items, the innermost last, and how many of them are brackets and prefix signs.
#[derive(Drop)]
pub struct Frames {
    items: Vec<Frame>,
    depth: usize,
}

impl Model for Frames {
    ghost use Rattle.std.specs.Prelude.{◌≡◌, List, reverse};
    ghost use Rattle.std.specs.Coded.{codes};
    ghost use Rattle.array_syntax.specs.Reading.{depth_of};
    ghost use Rattle.array_syntax.specs.declared.frames.Frame.{Frame};
    ghost use Rattle.array_syntax.specs.contracts.program.Expr as expr;

    ghost Value = { List Frame };

    ghost coded = { Prim.hlevel (codes, expr.the_row.coded) };

    ghost view = { λ s. reverse s.items.items };

    ghost invariant = { λ s. s.depth ≡ depth_of (reverse s.items.items) };
}

/// Whether the item is a bracket or a prefix sign.
fn opens(frame: &Frame) -> bool
    ensures { result ≡ opens frame.now }
{
    match frame {
        Frame::Body(_, _, _, _) | Frame::Binary(_, _, _) => false,
        _ => true,
    }
}

impl Frames {
    /// No items. It takes no memory.
    pub fn new(alloc: Global) -> Frames
        ensures { result ≡ [] }
    {
        Frames {
            items: Vec::new(alloc),
            depth: 0,
        }
    }

    /// How many brackets and prefix signs are open.
    pub fn depth(&self) -> usize
        ensures { result ≡ depth_of self.now }
    {
        self.depth
    }

    /// The items of a new statement: its body alone.
    pub fn begin(
        &mut self,
        done: Items<Stmt>,
        binding: Binding,
        name: Name,
        at: u32,
    ) -> Result<(), AllocError>
        ensures { OnOk result (self.new ≡ Frame.Body done binding name at ∷ []) }
    {
        self.items.clear();
        self.depth = 0;
        self.items.push(Frame::Body(done, binding, name, at))?;
        Ok(())
    }

    /// Opens an item, which is then the innermost. Err is want of memory.
    pub fn push(&mut self, frame: Frame) -> Result<(), AllocError>
        requires { depth_of self.old < 2 ^ 32 }
        ensures { OnOk result (self.new ≡ frame ∷ self.old) }
    {
        let rises = opens(&frame);
        self.items.push(frame)?;
        if rises {
            self.depth += 1;
        }
        Ok(())
    }

    /// Takes the innermost item away; `None` where nothing is open.
    pub fn pop(&mut self) -> Option<Frame>
        ensures { MatchOption result ((self.old ≡ []) × (self.new ≡ [])) (λ frame. self.old ≡ frame ∷ self.new) }
    {
        match self.items.pop() {
            Some(frame) => {
                if opens(&frame) {
                    self.depth -= 1;
                }
                Some(frame)
            }
            None => None,
        }
    }

    /// Whether the innermost item ends before a sign of the level.
    pub fn ends(&self, loosest: u8) -> bool
        ensures { IsTrue result ↔ Ends loosest self.now }
    {
        match self.items.last() {
            Some(Frame::Prefix(_, _)) => true,
            Some(Frame::Binary(_, op, _)) => level(*op) <= loosest,
            _ => false,
        }
    }

    /// The loosest level of an expression that may stand here.
    pub fn room(&self) -> u8
        ensures { result ≡ room self.now }
    {
        match self.items.last() {
            Some(Frame::Prefix(_, _)) => 0,
            Some(Frame::Binary(_, op, _)) => right_level(*op),
            _ => LOOSEST,
        }
    }
}
