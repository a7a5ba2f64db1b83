//! The turn in which a node's operands are worked out (docs/COMPILER.md, "Orders of evaluation").
ghost use Rattle.std.specs.Prelude.{◌≡◌, ◌+◌, ◌<◌, ◌≤◌, ◌^◌, IfOk, OnOk, map, max, length};
ghost use Rattle.pass_plan.specs.Label.{needed};
ghost use Rattle.pass_plan.specs.Numbers.{insert_turn};
ghost use Rattle.pass_plan.specs.NumberSize.{turns_by, turns_above, total_inner};

use smallvec::SmallVec;
use std::alloc::{AllocError, Global};

/// A computed operand: its place among the operands, from 0, its number among the tree's nodes, and its label.
#[derive(Clone, Copy, Default)]
pub struct Turn {
    pub place: usize,
    pub number: u32,
    pub label: u32,
}

/// A tree's label, and how many inner nodes it has: both 0 for a leaf or a literal.
#[derive(Clone, Copy, Default)]
pub struct TreeSize {
    pub label: u32,
    pub inner: u32,
}

/// The computed operands among those from `place` on, in falling order of label, the left one first where labels are equal.
/// Their nodes are numbered from `number` on.
pub fn in_turn(
    alloc: Global,
    sizes: &[TreeSize],
    place: usize,
    number: u32,
) -> Result<SmallVec<Turn, 3>, AllocError>
    requires places { place + length sizes.now < 2 ^ 32 }
    requires numbers { number + total_inner sizes.now < 2 ^ 32 }
    ensures turns { IfOk result (λ turns. turns.items ≡ turns_by sizes.now place number) }
    ensures count { IfOk result (λ turns. length turns.items ≤ length sizes.now) }
{
    let Some((size, later)) = sizes.split_first() else {
        return Ok(SmallVec::new(alloc));
    };
    let mut turns = in_turn(alloc, later, place + 1, number + size.inner)?;
    if size.inner > 0 {
        let label = size.label;
        add(
            &mut turns,
            Turn {
                place,
                number,
                label,
            },
        )?;
    }
    Ok(turns)
}

/// Before the first operand whose label isn't greater.
fn add(turns: &mut SmallVec<Turn, 3>, turn: Turn) -> Result<(), AllocError>
    requires { length turns.old.items < 2 ^ 32 }
    ensures turns { OnOk result (turns.new.items ≡ insert_turn turn turns.old.items) }
    ensures count { OnOk result (length turns.new.items ≡ length turns.old.items + 1) }
{
    let at = place_of(turns.as_slice(), turn.label);
    turns.insert(at, turn)?;
    Ok(())
}

/// How many of the first operands have a greater label.
fn place_of(turns: &[Turn], label: u32) -> usize
    requires { length turns.now < 2 ^ 32 }
    ensures place { result ≡ turns_above label turns.now }
    ensures within { result ≤ length turns.now }
{
    match turns.split_first() {
        Some((first, later)) if label < first.label => 1 + place_of(later, label),
        _ => 0,
    }
}

/// How many results operands in this turn hold at once: the greatest of the first label, the second and 1, and so on.
fn held_in_turn(turns: &[Turn]) -> u32
    requires { needed (map (λ turn. turn.label) turns.now) < 2 ^ 32 }
    ensures { result ≡ needed (map (λ turn. turn.label) turns.now) }
{
    match turns.split_first() {
        None => 0,
        Some((first, later)) => first.label.max(held_in_turn(later) + 1),
    }
}

/// The label of a node that itself holds `least`, and whose operands come in this turn.
pub fn label_with(least: u32, turns: &[Turn]) -> u32
    requires { needed (map (λ turn. turn.label) turns.now) < 2 ^ 32 }
    ensures { result ≡ max least (needed (map (λ turn. turn.label) turns.now)) }
{
    least.max(held_in_turn(turns))
}
