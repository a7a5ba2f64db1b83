//! How far the queue's first work has come.
ghost use Rattle.std.specs.Prelude.{◌≡◌, ◌+◌, ◌*◌, ◌<◌, ◌≤◌, ◌^◌, IsTrue, IsFalse, pos};
ghost use Rattle.ven_base.specs.Wrap.{wrapped};
ghost use Rattle.venice_isa.specs.Footprint.{HasFootprint, source_a, source_b};
ghost use Rattle.venice_isa.specs.Whole.{HasCounts};
ghost use Rattle.venice_isa.specs.Beat.{beats_of_row};
ghost use Rattle.lane_machine.specs.Operand.{IsOperand};
ghost use Rattle.lane_machine.specs.Current.{has_number_for_b};

use crate::operand::Operand;
use ven_base::wrap;
use venice_isa::{VecWork, Walk};

/// A work under way. What stays the same for the whole work is worked out when it comes to the
/// front: how many elements a whole beat takes, and the numbers of scalars. The rest goes on by
/// sums: the operands and the destination, the row and the elements of it that are behind, the
/// beats done and, with accumulate, the row's sum so far.
#[derive(Clone, Copy)]
pub(crate) struct Current {
    pub(crate) group_items: u32,
    pub(crate) a: Operand,
    pub(crate) b: Operand,
    pub(crate) dst: Walk,
    pub(crate) row: u32,
    pub(crate) first: u32,
    pub(crate) done: u64,
    pub(crate) sum: i128,
}

impl Current {
    ghost use Rattle.lane_machine.specs.Current.{IsAt, IsUnderWay, IsBounded, IsNext, CanGo, CanGoToNextRow, progress_of, next_count, gone_on, turned};
    ghost use Rattle.ven_base.specs.Store.{cells_alone};
    ghost use Rattle.venice_isa.specs.declared.issue.Issue.TheVariants.{Vector};
    ghost use Rattle.lane_machine.specs.Elements.{wider};
    ghost use Rattle.venice_isa.specs.Beat.{not_begun};

    /// A work that has not begun.
    pub(crate) fn begin(work: &VecWork, lanes: u32) -> Current
        requires counts { HasCounts work.now }
        requires some_lanes { 0 < lanes }
        requires few_lanes { lanes ≤ 4 }
        ensures at { IsUnderWay lanes work.now result }
        ensures begins { progress_of result ≡ not_begun }
    {
        let group_items = work.kind.group_items(lanes);
        Current {
            group_items,
            a: operand_a(work, group_items),
            b: operand_b(work, group_items),
            dst: Walk::begin(work.destination(), group_items),
            row: 0,
            first: 0,
            done: 0,
            sum: 0,
        }
    }

    /// How many elements the next beat takes: a group, or the row's rest.
    pub(crate) fn count(&self, work: &VecWork) -> u32
        requires { IsAt work.now self.now }
        ensures value { result ≡ next_count work.now self.now }
        ensures in_row { self.now.first + result ≤ work.now.vl }
        ensures some { 0 < result }
        ensures few { result * wider work.now.kind.elem work.now.kind.from ≤ 16 }
    {
        self.group_items.min(work.vl - self.first)
    }

    /// Goes on past a beat that took `count` elements. `sum` is the row's sum with these elements,
    /// which ends with the row. False where that was the work's last beat.
    pub(crate) fn advance(&mut self, work: &VecWork, count: u32, sum: i128) -> bool
        requires counts { HasCounts work.now }
        requires at { IsAt work.now self.old }
        requires inside { HasFootprint (cells_alone (2 ^ 32)) (Vector work.now) }
        requires count { count ≡ next_count work.now self.old }
        requires bounded { IsBounded (self.old.first + count) sum }
        ensures goes_on { IsTrue result → IsNext work.now self.old sum self.new }
        ensures ends { IsFalse result → self.old.done + 1
            ≡ work.now.rows * beats_of_row work.now.vl self.old.group_items }
    {
        let VecWork { vl, rows, .. } = *work;
        if count < vl - self.first {
            self.go_on(sum);
            true
        } else if 1 < rows - self.row {
            self.next_row();
            true
        } else {
            false
        }
    }

    /// Goes on by a whole group of the row.
    fn go_on(&mut self, sum: i128)
        requires { CanGo self.old }
        ensures { self.new ≡ gone_on self.old sum }
    {
        self.a.go_on();
        self.b.go_on();
        self.dst.go_on();
        self.first += self.group_items;
        self.done += 1;
        self.sum = sum;
    }

    /// Goes on to the next row.
    fn next_row(&mut self)
        requires { CanGoToNextRow self.old }
        ensures { self.new ≡ turned self.old }
    {
        self.a.next_row();
        self.b.next_row();
        self.dst.next_row();
        self.row += 1;
        self.first = 0;
        self.done += 1;
        self.sum = 0;
    }
}

/// A, from its first element on.
fn operand_a(work: &VecWork, group_items: u32) -> Operand
    requires { group_items ≤ 16 }
    ensures { IsOperand (wrapped work.now.kind.from (pos work.now.a)) work.now.kind.a_scalar
        (source_a work.now) group_items 0 0 result }
{
    if work.kind.a_scalar {
        Operand::Number(wrap(work.kind.from, i128::from(work.a)))
    } else {
        Operand::Elements(Walk::begin(work.source_a(), group_items))
    }
}

/// B, from its first element on. Where it isn't used, any number serves.
fn operand_b(work: &VecWork, group_items: u32) -> Operand
    requires { group_items ≤ 16 }
    ensures { IsOperand (wrapped work.now.kind.elem (pos work.now.b)) (has_number_for_b work.now)
        (source_b work.now) group_items 0 0 result }
{
    if !work.kind.op.uses_b() || work.kind.b_scalar {
        Operand::Number(wrap(work.kind.elem, i128::from(work.b)))
    } else {
        Operand::Elements(Walk::begin(work.source_b(), group_items))
    }
}
