//! Programs whose passes are worked out by hand.
use crate::tests::{checked_program, split_of_program};
use pass_plan::{Leaf, Pass, PassKind, Split, Tree};
use std::alloc::{AllocError, Global};
use std::test::Fail;
use ven_base::{Mapping, Op1, Op2};

// ---- passes as texts

/// A leaf is its array's number behind an `a`, behind an `m` where it is under a map.
fn push_leaf(text: &mut String, alloc: Global, leaf: Option<&Leaf>) -> Result<(), AllocError> {
    let Some(leaf) = leaf else {
        return text.push('?');
    };
    text.push(match leaf.map {
        Mapping::Identity => 'a',
        _ => 'm',
    })?;
    push_number(text, alloc, i64::from(leaf.array))
}

fn push_number(text: &mut String, alloc: Global, n: i64) -> Result<(), AllocError> {
    let digits = format!(in alloc; "{n}")?;
    text.push_str(digits.as_str())
}

fn one_word(op: Op1) -> &'static str {
    match op {
        Op1::Neg => "neg ",
        Op1::Not => "not ",
        Op1::Abs => "abs ",
    }
}

fn two_word(op: Op2) -> &'static str {
    match op {
        Op2::Add => "add ",
        Op2::Mul => "mul ",
        Op2::Lt => "lt ",
        Op2::Ne => "ne ",
        _ => "other ",
    }
}

/// A tree, each node before its operands.
fn push_tree(
    text: &mut String,
    alloc: Global,
    tree: &Tree,
    leaves: &[Leaf],
) -> Result<(), AllocError> {
    match tree {
        Tree::Leaf(k) => push_leaf(text, alloc, leaves.get(*k as usize))?,
        Tree::Literal(n) => push_number(text, alloc, *n)?,
        Tree::One { op, a, .. } => {
            text.push_str(one_word(*op))?;
            return push_tree(text, alloc, a, leaves);
        }
        Tree::Cast { elem, a, .. } => {
            push_number(text, alloc, i64::from(elem.size()))?;
            text.push_str("-byte ")?;
            return push_tree(text, alloc, a, leaves);
        }
        Tree::Move { a, .. } => {
            text.push_str("move ")?;
            return push_tree(text, alloc, a, leaves);
        }
        Tree::Two { op, a, b, .. } => {
            text.push_str(two_word(*op))?;
            push_tree(text, alloc, a, leaves)?;
            return push_tree(text, alloc, b, leaves);
        }
        Tree::Select { c, x, y, .. } => {
            text.push_str("select ")?;
            push_tree(text, alloc, c, leaves)?;
            push_tree(text, alloc, x, leaves)?;
            return push_tree(text, alloc, y, leaves);
        }
    }
    text.push(' ')
}

/// A pass: its kind, its domain and its tree.
fn push_pass(text: &mut String, alloc: Global, pass: &Pass) -> Result<(), AllocError> {
    text.push_str(match pass.kind {
        PassKind::Map => "map ",
        PassKind::Reduce(_) => "reduce ",
    })?;
    push_number(text, alloc, i64::from(pass.domain.rows))?;
    text.push(',')?;
    push_number(text, alloc, i64::from(pass.domain.cols))?;
    text.push(' ')?;
    push_tree(text, alloc, &pass.tree, &pass.leaves)?;
    text.push_str("; ")
}

/// The split of a program's text.
fn split_text(alloc: Global, text: &str) -> Result<Split, Fail> {
    let program = checked_program(alloc, text).ok_or("the text is a program")?;
    Ok(split_of_program(alloc, &program)?)
}

/// The passes of a program's text, one after another.
fn passes_text(alloc: Global, program: &str) -> Result<String, Fail> {
    let split = split_text(alloc, program)?;
    let mut text = String::new(alloc);
    for pass in &split.passes {
        push_pass(&mut text, alloc, pass)?;
    }
    Ok(text)
}

// ---- the tests

/// Small programs and their passes.
const SPLITS: [(&str, &str); 12] = [
    // a name that occurs twice is cut, one that occurs once isn't, one that doesn't occur has no pass
    (
        "input a u8[2,3]; let b = a + 1; output c = b * b;",
        "map 2,3 add a0 1 ; map 2,3 mul a1 a1 ; ",
    ),
    (
        "input a u8[2,3]; let b = a + 1; output c = b * a;",
        "map 2,3 mul add a0 1 a0 ; ",
    ),
    (
        "input a u8[2,3]; let b = a + 1; output c = -a;",
        "map 2,3 neg a0 ; ",
    ),
    // and so is one under a map
    (
        "input a u8[2,3]; let b = a + 1; output c = rotate(b,0,1);",
        "map 2,3 add a0 1 ; map 2,3 move m1 ; ",
    ),
    // a condition that is a comparison stays, any other is compared with 0
    (
        "input a u8[2,3]; let b = a < 3; output c = select(b, a, 2);",
        "map 2,3 move select lt a0 3 a0 move 2 ; ",
    ),
    (
        "input a u8[2,3]; let b = a < 3; output c = select(b, b, 2);",
        "map 2,3 lt a0 3 ; map 2,3 move select ne a1 0 a1 move 2 ; ",
    ),
    (
        "input a u8[2,3]; let b = i16(a + 1); output c = -b;",
        "map 2,3 neg 2-byte add a0 1 ; ",
    ),
    // a whole reduction takes two passes, the second over a column seen as a row
    (
        "input a u8[1,3]; let b = sum(a); output c = -a;",
        "reduce 1,3 move a0 ; reduce 1,1 move a1 ; map 1,3 neg a0 ; ",
    ),
    (
        "input a u8[3,1]; let b = sum(a); output c = -a;",
        "reduce 3,1 move a0 ; reduce 1,3 move a1 ; map 3,1 neg a0 ; ",
    ),
    (
        "input a u8[1,1]; let b = sum(a); output c = -a;",
        "reduce 1,1 move a0 ; reduce 1,1 move a1 ; map 1,1 neg a0 ; ",
    ),
    // leaves are one where array and map are, as they are written
    (
        "input a u8[2,3]; output c = rotate(a,0,0) + a;",
        "map 2,3 add m0 a0 ; ",
    ),
    (
        "input a u8[2,3]; output c = rotate(a,0,0) + rotate(a,0,0);",
        "map 2,3 add m0 m0 ; ",
    ),
];

#[test]
fn passes_of_small_programs(rt: HostRuntime) -> Result<(), Fail> {
    for (program, passes) in SPLITS {
        let text = passes_text(rt.alloc(), program)?;
        assert!(rt; text.as_str() == passes, "{program}");
    }
    Ok(())
}

/// How many leaves the first pass of a program has.
fn first_leaves(alloc: Global, program: &str) -> Result<Option<usize>, Fail> {
    let split = split_text(alloc, program)?;
    Ok(split.passes.first().map(|pass| pass.leaves.len()))
}

#[test]
fn leaves_are_one_as_they_are_written(rt: HostRuntime) -> Result<(), Fail> {
    let alloc = rt.alloc();
    let twice = "input a u8[2,3]; output c = a + a;";
    assert!(rt; first_leaves(alloc, twice)? == Some(1));
    let still = "input a u8[2,3]; output c = rotate(a,0,0) + a;";
    assert!(rt; first_leaves(alloc, still)? == Some(2));
    let mapped = "input a u8[2,3]; output c = rotate(a,0,0) + rotate(a,0,0);";
    assert!(rt; first_leaves(alloc, mapped)? == Some(1));
    Ok(())
}

#[test]
fn arrays_have_places(rt: HostRuntime) -> Result<(), Fail> {
    let split = split_text(rt.alloc(), "input a u8[2,3]; output y = -a;")?;
    assert!(rt; split.passes.len() == 1 && split.table.len() == 2 && split.memory == 14);
    let mut places = split.arrays.iter().map(|array| array.place);
    assert!(rt; places.next() == Some(0));
    assert!(rt; places.next() == Some(8));
    assert!(rt; places.next().is_none());
    Ok(())
}

/// A program whose second `let` has a tree of this height and 33.
fn high(alloc: Global, signs: u32) -> Result<String, AllocError> {
    let mut text = String::from_str(alloc, "input a u8[2,3]; let b = ")?;
    for _ in 0..32 {
        text.push('-')?;
    }
    text.push_str("a; let c = ")?;
    for _ in 0..signs {
        text.push('-')?;
    }
    text.push_str("b; output d = abs(c);")?;
    Ok(text)
}

#[test]
fn high_trees_are_cut(rt: HostRuntime) -> Result<(), Fail> {
    let alloc = rt.alloc();
    let low = passes_text(alloc, &high(alloc, 31)?)?;
    assert!(rt; low.as_str().starts_with("map 2,3 abs neg "));
    let high = passes_text(alloc, &high(alloc, 32)?)?;
    assert!(rt; high.as_str().ends_with("; map 2,3 abs a1 ; "));
    Ok(())
}

/// So many selects, of which none has a comparison as its condition, or a select in its third place.
fn push_selects(text: &mut String, times: u32) -> Result<(), AllocError> {
    if times == 0 {
        return text.push('a');
    }
    let half = (times - 1) / 2;
    text.push_str("select(")?;
    push_selects(text, half)?;
    text.push(',')?;
    push_selects(text, times - 1 - half)?;
    text.push_str(",a)")
}

fn times_in(text: &str, word: &str) -> usize {
    text.split(word).count().saturating_sub(1)
}

#[test]
fn most_selects_make_the_greatest_tree(rt: HostRuntime) -> Result<(), Fail> {
    let alloc = rt.alloc();
    let mut program = String::from_str(alloc, "input a u8[2,3]; output c = ")?;
    push_selects(&mut program, 1365)?;
    program.push(';')?;
    let text = passes_text(alloc, &program)?;
    assert!(rt; times_in(&text, "select ") == 1365);
    assert!(rt; times_in(&text, "ne ") == 1365);
    assert!(rt; times_in(&text, "move ") == 1366);
    assert!(rt; times_in(&text, "a0 ") == 2731);
    Ok(())
}
