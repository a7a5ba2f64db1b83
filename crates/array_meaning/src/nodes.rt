//! The nodes that have a value at each place of their operands.

use crate::fill::Source;
use crate::operand::View;
use ven_base::{Elem, Op1, Op2, apply1, apply2, wrap};

/// An operation on one array.
#[derive(Drop)]
pub(crate) struct One<'a> {
    pub op: Op1,
    pub elem: Elem,
    pub a: View<'a>,
}

impl<'a> Source for One<'a> {
    ghost use Rattle.array_meaning.specs.Sources.{one_at, HasOperand};

    ghost value_at = { one_at };

    ghost HasValue = { HasOperand };

    #[inline(always)]
    fn value(&self, place: usize) -> i64 {
        apply1(self.op, self.elem, self.a.value(place))
    }
}

/// An operation on two arrays.
#[derive(Drop)]
pub(crate) struct Two<'a> {
    pub op: Op2,
    pub elem: Elem,
    pub a: View<'a>,
    pub b: View<'a>,
}

impl<'a> Source for Two<'a> {
    ghost use Rattle.array_meaning.specs.Sources.{two_at, HasOperands};

    ghost value_at = { two_at };

    ghost HasValue = { HasOperands };

    #[inline(always)]
    fn value(&self, place: usize) -> i64 {
        apply2(self.op, self.elem, self.a.value(place), self.b.value(place))
    }
}

/// A cast.
#[derive(Drop)]
pub(crate) struct Cast<'a> {
    pub elem: Elem,
    pub a: View<'a>,
}

impl<'a> Source for Cast<'a> {
    ghost use Rattle.array_meaning.specs.Sources.{cast_at, HasNumber};

    ghost value_at = { cast_at };

    ghost HasValue = { HasNumber };

    #[inline(always)]
    fn value(&self, place: usize) -> i64 {
        wrap(self.elem, i128::from(self.a.value(place)))
    }
}

/// A choice.
#[derive(Drop)]
pub(crate) struct Select<'a> {
    pub condition: View<'a>,
    pub x: View<'a>,
    pub y: View<'a>,
}

impl<'a> Source for Select<'a> {
    ghost use Rattle.array_meaning.specs.Sources.{select_at, HasChoice};

    ghost value_at = { select_at };

    ghost HasValue = { HasChoice };

    #[inline(always)]
    fn value(&self, place: usize) -> i64 {
        if self.condition.value(place) != 0 {
            self.x.value(place)
        } else {
            self.y.value(place)
        }
    }
}
