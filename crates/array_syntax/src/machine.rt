//! The parser's state: what is open and what is wanted, from token to token.

ghost use Rattle.std.specs.Prelude.{◌≡◌, ◌++◌, ◌∷◌, [], ◌<◌, ◌^◌, IfOk, List, pos};
ghost use Rattle.array_syntax.specs.Grammar.{bound};
ghost use Rattle.array_syntax.specs.Reading.{Have, reduce, reach_of, state_of, depth_of, prefix_operation as prefix_operation_of, with_value as with_value_of, made, mapped, argued, close, want, after_minus, called, want_number, signed_number, have_number, begin, input, after_word, after_name};
ghost use Rattle.array_syntax.specs.Steps.{depth_in, ended as ended_of, SignBehind, Stepped};

use crate::call::{Earlier, MapCall, Number};
use crate::calls::{call_of, map_of, numbers, operands, takes_sign};
use crate::frames::{Frame, Frames, Sign};
use crate::node::Node;
use crate::operators::{level, operation, operator_of, reach};
use crate::program::Stmt;
use crate::word::{Binding, Callee, Operator, Token, Word};
use sqlite_items::Items;
use std::alloc::{AllocError, Global};
use ven_base::{Elem, Name, Op1};

/// An input's name, the name's place in bytes from 0, and the element type.
#[derive(Clone, Copy)]
pub struct Heading {
    pub name: Name,
    pub at: u32,
    pub elem: Elem,
}

/// How far an input has been read. The place is that of its `[`; the numbers are its rows and columns.
#[derive(Clone, Copy)]
pub enum Part {
    AfterWord,
    AfterName(Name, u32),
    AfterType(Heading),
    AfterOpen(Heading, u32),
    AfterRows(Heading, u32, u32),
    AfterComma(Heading, u32, u32),
    AfterCols(Heading, u32, u32, u32),
    AfterClose(Heading, u32, u32, u32),
}

/// What has just been read.
#[derive(Drop)]
pub enum Phase {
    Begin(Items<Stmt>),
    Input(Items<Stmt>, Part),
    AfterWord(Items<Stmt>, Binding),
    AfterName(Items<Stmt>, Binding, Name, u32),
    Want,
    Minus(u32),
    Called(u32, Callee),
    Have(Node),
    WantNumber(MapCall),
    SignedNumber(u32, MapCall),
    HaveNumber(MapCall),
    Stuck,
}

/// Why a token isn't taken.
#[derive(Clone, Copy)]
pub enum Refusal {
    /// A node of height 65 ends before it.
    TooHigh,
    /// No program goes on with it.
    Unexpected,
    /// It is the 65th open bracket or prefix sign.
    TooManyOpen,
    /// It begins the 257th statement.
    TooManyStatements,
    /// It is that of the 4,097th node.
    TooManyNodes,
    /// Out of memory.
    Memory,
}

fn prefix_operation(sign: Sign) -> Op1
    ensures { result ≡ prefix_operation_of sign }
{
    match sign {
        Sign::Negate => Op1::Neg,
        Sign::Flip => Op1::Not,
    }
}

/// The node of an item that ends.
fn ended(alloc: Global, frame: Frame, e: Node) -> Result<Node, AllocError>
    ensures { IfOk result (λ x. x ≡ ended_of frame e) }
{
    match frame {
        Frame::Prefix(at, sign) => Node::one(alloc, at, prefix_operation(sign), e),
        Frame::Binary(at, op, left) => Node::two(alloc, at, operation(op), left, e),
        Frame::Body(_done, _binding, _name, _at) => Ok(e),
        Frame::Bracket => Ok(e),
        Frame::Call(_at, _callee, _before) => Ok(e),
    }
}

/// Makes the nodes up to the level that have ended.
pub fn reduce(alloc: Global, level: u8, e: Node, stack: &mut Frames) -> Result<Node, AllocError>
    ensures { IfOk result (λ x. Have x stack.new ≡ reduce level e stack.old) }
{
    let mut node = e;
    while stack.ends(level) {
        if let Some(frame) = stack.pop() {
            node = ended(alloc, frame, node)?;
        }
    }
    Ok(node)
}

/// A word where an operand is wanted.
fn want(stack: &mut Frames, at: u32, word: Word) -> Result<Phase, AllocError>
    requires { depth_of stack.old < 2 ^ 32 }
    ensures { IfOk result (λ next. state_of next stack.new ≡ want word at stack.old) }
{
    let phase = match &word {
        Word::Name(name) => Phase::Have(Node::name(at, *name)),
        Word::Number(n) => Phase::Have(Node::literal(at, *n as i64)),
        Word::Operator(Operator::Minus) => Phase::Minus(at),
        Word::Tilde => {
            stack.push(Frame::Prefix(at, Sign::Flip))?;
            Phase::Want
        }
        Word::Open => {
            stack.push(Frame::Bracket)?;
            Phase::Want
        }
        Word::Call(callee) => Phase::Called(at, *callee),
        _ => Phase::Stuck,
    };
    Ok(phase)
}

/// A word behind a `-` where an operand is wanted.
fn after_minus(stack: &mut Frames, minus: u32, token: Token) -> Result<Phase, AllocError>
    requires { depth_of stack.old < 2 ^ 31 }
    ensures { IfOk result (λ next. state_of next stack.new ≡ after_minus token.word token.at minus stack.old) }
{
    if let Word::Number(n) = token.word {
        return Ok(Phase::Have(Node::literal(minus, -(n as i64))));
    }
    stack.push(Frame::Prefix(minus, Sign::Negate))?;
    want(stack, token.at, token.word)
}

/// A word behind a function.
fn called(stack: &mut Frames, at: u32, callee: Callee, word: Word) -> Result<Phase, AllocError>
    requires { depth_of stack.old < 2 ^ 32 }
    ensures { IfOk result (λ next. state_of next stack.new ≡ called word at callee stack.old) }
{
    match word {
        Word::Open => {
            stack.push(Frame::Call(at, callee, Earlier::Nothing))?;
            Ok(Phase::Want)
        }
        _ => Ok(Phase::Stuck),
    }
}

fn with_value(call: MapCall, value: Number) -> Result<Phase, AllocError>
    ensures { IfOk result (λ next. next ≡ Phase.HaveNumber (with_value_of call value)) }
{
    let MapCall {
        at,
        callee,
        of,
        mut values,
    } = call;
    values.push(value)?;
    Ok(Phase::HaveNumber(MapCall {
        at,
        callee,
        of,
        values,
    }))
}

/// A token where a call's number is wanted.
fn want_number(stack: &Frames, call: MapCall, token: Token) -> Result<Phase, AllocError>
    ensures { IfOk result (λ next. state_of next stack.now ≡ want_number token.word token.at call stack.now) }
{
    match token.word {
        Word::Number(n) => with_value(
            call,
            Number {
                at: token.at,
                value: n as i64,
            },
        ),
        Word::Operator(Operator::Minus) => {
            if takes_sign(call.callee) {
                Ok(Phase::SignedNumber(token.at, call))
            } else {
                Ok(Phase::Stuck)
            }
        }
        _ => Ok(Phase::Stuck),
    }
}

/// A word behind the `-` of a call's number.
fn signed_number(stack: &Frames, at: u32, call: MapCall, word: Word) -> Result<Phase, AllocError>
    ensures { IfOk result (λ next. state_of next stack.now ≡ signed_number word at call stack.now) }
{
    match word {
        Word::Number(n) => with_value(
            call,
            Number {
                at,
                value: -(n as i64),
            },
        ),
        _ => Ok(Phase::Stuck),
    }
}

fn made(node: Option<Node>) -> Phase
    ensures { (stack : List Frame) → state_of result stack ≡ made node stack }
{
    match node {
        Some(e) => Phase::Have(e),
        None => Phase::Stuck,
    }
}

/// A word behind a call's number.
fn have_number(
    alloc: Global,
    stack: &Frames,
    call: MapCall,
    word: Word,
) -> Result<Phase, AllocError>
    ensures { IfOk result (λ next. state_of next stack.now ≡ have_number word call stack.now) }
{
    match word {
        Word::Comma => {
            if call.values.len() < numbers(call.callee) {
                Ok(Phase::WantNumber(call))
            } else {
                Ok(Phase::Stuck)
            }
        }
        Word::Close => {
            let MapCall {
                at,
                callee,
                of,
                values,
            } = call;
            Ok(made(map_of(alloc, at, callee, of, values.as_slice())?))
        }
        _ => Ok(Phase::Stuck),
    }
}

/// A comma behind an operand of a call.
fn argued(
    stack: &mut Frames,
    alloc: Global,
    at: u32,
    callee: Callee,
    before: Earlier,
    e: Node,
) -> Result<Phase, AllocError>
    requires { depth_of stack.old < 2 ^ 32 }
    ensures { IfOk result (λ next. state_of next stack.new ≡ argued at callee before e stack.old) }
{
    if before.count() + 1 < operands(callee) {
        stack.push(Frame::Call(at, callee, before.followed_by(e)))?;
        return Ok(Phase::Want);
    }
    Ok(mapped(stack, alloc, at, callee, before, e))
}

/// A comma behind the last operand of a call that takes numbers.
fn mapped(stack: &Frames, alloc: Global, at: u32, callee: Callee, before: Earlier, e: Node) -> Phase
    ensures { state_of result stack.now ≡ mapped at callee before e stack.now }
{
    match before {
        Earlier::Nothing => {
            if numbers(callee) > 0 {
                Phase::WantNumber(MapCall {
                    at,
                    callee,
                    of: e,
                    values: Items::new(alloc),
                })
            } else {
                Phase::Stuck
            }
        }
        Earlier::One(_a) => Phase::Stuck,
        Earlier::Two(_a, _b) => Phase::Stuck,
    }
}

fn close_bracket(alloc: Global, e: Node, stack: &mut Frames) -> Result<Phase, AllocError>
    ensures { IfOk result (λ next. state_of next stack.new ≡ close Word.Close e stack.old) }
{
    match stack.pop() {
        Some(Frame::Bracket) => Ok(Phase::Have(e)),
        Some(Frame::Call(at, callee, before)) => Ok(made(call_of(alloc, at, callee, before, e)?)),
        Some(Frame::Body(_done, _binding, _name, _at)) => Ok(Phase::Stuck),
        Some(Frame::Prefix(_at, _sign)) => Ok(Phase::Stuck),
        Some(Frame::Binary(_at, _op, _a)) => Ok(Phase::Stuck),
        None => Ok(Phase::Stuck),
    }
}

fn next_argument(alloc: Global, e: Node, stack: &mut Frames) -> Result<Phase, AllocError>
    requires { depth_of stack.old < 2 ^ 32 }
    ensures { IfOk result (λ next. state_of next stack.new ≡ close Word.Comma e stack.old) }
{
    match stack.pop() {
        Some(Frame::Call(at, callee, before)) => argued(stack, alloc, at, callee, before, e),
        Some(Frame::Body(_done, _binding, _name, _at)) => Ok(Phase::Stuck),
        Some(Frame::Bracket) => Ok(Phase::Stuck),
        Some(Frame::Prefix(_at, _sign)) => Ok(Phase::Stuck),
        Some(Frame::Binary(_at, _op, _a)) => Ok(Phase::Stuck),
        None => Ok(Phase::Stuck),
    }
}

fn bound(binding: Binding, name: Name, at: u32, value: Node) -> Stmt
    ensures { result ≡ bound binding name at value }
{
    let value = value.into_expr();
    match binding {
        Binding::Let => Stmt::Let { name, at, value },
        Binding::Output => Stmt::Output { name, at, value },
    }
}

fn ended_statement(mut done: Items<Stmt>, stmt: Stmt) -> Result<Phase, AllocError>
    ensures { IfOk result (λ next. next ≡ Phase.Begin (done ++ stmt ∷ [])) }
{
    done.push(stmt)?;
    Ok(Phase::Begin(done))
}

/// A semicolon behind an expression in the innermost item.
fn end_item(frame: Frame, e: Node) -> Result<Phase, AllocError>
    ensures { (stack : List Frame) →
        IfOk result (λ next. state_of next stack ≡ close Word.Semicolon e (frame ∷ stack)) }
{
    match frame {
        Frame::Body(done, binding, name, at) => ended_statement(done, bound(binding, name, at, e)),
        Frame::Bracket => Ok(Phase::Stuck),
        Frame::Call(_at, _callee, _before) => Ok(Phase::Stuck),
        Frame::Prefix(_at, _sign) => Ok(Phase::Stuck),
        Frame::Binary(_at, _op, _a) => Ok(Phase::Stuck),
    }
}

fn end_statement(e: Node, stack: &mut Frames) -> Result<Phase, AllocError>
    ensures { IfOk result (λ next. state_of next stack.new ≡ close Word.Semicolon e stack.old) }
{
    match stack.pop() {
        Some(frame) => end_item(frame, e),
        None => Ok(Phase::Stuck),
    }
}

fn close(alloc: Global, e: Node, stack: &mut Frames, word: Word) -> Result<Phase, AllocError>
    requires { depth_of stack.old < 2 ^ 32 }
    ensures { IfOk result (λ next. state_of next stack.new ≡ close word e stack.old) }
{
    match word {
        Word::Close => close_bracket(alloc, e, stack),
        Word::Comma => next_argument(alloc, e, stack),
        Word::Semicolon => end_statement(e, stack),
        _ => Ok(Phase::Stuck),
    }
}

/// A binary sign behind an expression of at most its left operand's level; none where the node that ends is too high.
fn sign_behind(
    alloc: Global,
    node: Node,
    stack: &mut Frames,
    at: u32,
    op: Operator,
) -> Result<Option<Phase>, AllocError>
    requires { depth_of stack.old < 2 ^ 32 }
    ensures { IfOk result (λ next. SignBehind node stack.old at op next (λ phase. state_of phase stack.new)) }
{
    if level(op) <= stack.room() {
        stack.push(Frame::Binary(at, op, node))?;
        return Ok(Some(Phase::Want));
    }
    let node = reduce(alloc, level(op), node, stack)?;
    if node.is_too_high() {
        return Ok(None);
    }
    Ok(Some(Phase::Stuck))
}

/// A token behind an expression; none where a node that ends before it is too high.
fn behind(
    alloc: Global,
    e: Node,
    stack: &mut Frames,
    token: Token,
) -> Result<Option<Phase>, AllocError>
    requires { depth_of stack.old < 2 ^ 32 }
    ensures { IfOk result (λ next. Stepped (Have e stack.old) token next (λ phase. state_of phase stack.new)) }
{
    let op = operator_of(token.word);
    let node = reduce(alloc, reach(op), e, stack)?;
    if node.is_too_high() {
        return Ok(None);
    }
    match op {
        Some(op) => {
            let next = sign_behind(alloc, node, stack, token.at, op)?;
            Ok(next)
        }
        None => Ok(Some(close(alloc, node, stack, token.word)?)),
    }
}

/// A token that may begin a statement.
fn begin(stack: &Frames, done: Items<Stmt>, word: Word) -> Phase
    ensures { state_of result stack.now ≡ begin word done }
{
    match word {
        Word::Input => Phase::Input(done, Part::AfterWord),
        Word::Bind(binding) => Phase::AfterWord(done, binding),
        _ => Phase::Stuck,
    }
}

fn input_statement(heading: &Heading, shape_at: u32, rows: u32, cols: u32) -> Stmt
    ensures { result ≡ Stmt.Input heading.now.name heading.now.at heading.now.elem (pos rows) (pos cols) shape_at }
{
    Stmt::Input {
        name: heading.name,
        at: heading.at,
        elem: heading.elem,
        rows: rows as i64,
        cols: cols as i64,
        shape_at,
    }
}

/// The next part of an input.
fn input(stack: &Frames, done: Items<Stmt>, part: Part, token: Token) -> Result<Phase, AllocError>
    ensures { IfOk result (λ next. state_of next stack.now ≡ input part token.word token.at done) }
{
    let next = match (&part, &token.word) {
        (Part::AfterWord, Word::Name(name)) => Part::AfterName(*name, token.at),
        (Part::AfterName(name, at), Word::Call(Callee::Cast(elem))) => Part::AfterType(Heading {
            name: *name,
            at: *at,
            elem: *elem,
        }),
        (Part::AfterType(heading), Word::OpenSquare) => Part::AfterOpen(*heading, token.at),
        (Part::AfterOpen(heading, shape_at), Word::Number(rows)) => Part::AfterRows(
            *heading, *shape_at, *rows,
        ),
        (Part::AfterRows(heading, shape_at, rows), Word::Comma) => Part::AfterComma(
            *heading, *shape_at, *rows,
        ),
        (Part::AfterComma(heading, shape_at, rows), Word::Number(cols)) => {
            Part::AfterCols(*heading, *shape_at, *rows, *cols)
        }
        (Part::AfterCols(heading, shape_at, rows, cols), Word::CloseSquare) => {
            Part::AfterClose(*heading, *shape_at, *rows, *cols)
        }
        (Part::AfterClose(heading, shape_at, rows, cols), Word::Semicolon) => {
            return ended_statement(done, input_statement(heading, *shape_at, *rows, *cols));
        }
        _ => return Ok(Phase::Stuck),
    };
    Ok(Phase::Input(done, next))
}

/// The name behind `let` or `output`.
fn after_word(stack: &Frames, done: Items<Stmt>, binding: Binding, token: Token) -> Phase
    ensures { state_of result stack.now ≡ after_word token.word token.at done binding }
{
    match &token.word {
        Word::Name(name) => Phase::AfterName(done, binding, *name, token.at),
        _ => Phase::Stuck,
    }
}

/// The `=` behind that name.
fn after_name(
    stack: &mut Frames,
    done: Items<Stmt>,
    binding: Binding,
    name: Name,
    at: u32,
    word: Word,
) -> Result<Phase, AllocError>
    ensures { IfOk result (λ next. state_of next stack.new ≡ after_name word done binding name at) }
{
    match word {
        Word::Assign => {
            stack.begin(done, binding, name, at)?;
            Ok(Phase::Want)
        }
        _ => Ok(Phase::Stuck),
    }
}

/// One token more; none where a node that ends before it is too high.
pub fn step(
    alloc: Global,
    phase: Phase,
    stack: &mut Frames,
    token: Token,
) -> Result<Option<Phase>, AllocError>
    requires { depth_in (state_of phase stack.old) < 2 ^ 31 }
    ensures { IfOk result (λ next. Stepped (state_of phase stack.old) token next (λ after. state_of after stack.new)) }
{
    let next = match phase {
        Phase::Begin(done) => begin(stack, done, token.word),
        Phase::Input(done, part) => input(stack, done, part, token)?,
        Phase::AfterWord(done, binding) => after_word(stack, done, binding, token),
        Phase::AfterName(done, binding, name, at) => after_name(
            stack, done, binding, name, at, token.word,
        )?,
        Phase::Want => want(stack, token.at, token.word)?,
        Phase::Minus(at) => after_minus(stack, at, token)?,
        Phase::Called(at, callee) => called(stack, at, callee, token.word)?,
        Phase::Have(e) => return behind(alloc, e, stack, token),
        Phase::WantNumber(call) => want_number(stack, call, token)?,
        Phase::SignedNumber(at, call) => signed_number(stack, at, call, token.word)?,
        Phase::HaveNumber(call) => have_number(alloc, stack, call, token.word)?,
        Phase::Stuck => Phase::Stuck,
    };
    Ok(Some(next))
}
