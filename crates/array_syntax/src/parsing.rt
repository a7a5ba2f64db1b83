//! The parser: one token after another, to the program or the first fault.

ghost use Rattle.std.specs.Prelude.{◌≡◌, ◌≢◌, ◌↔◌, ◌<◌, ◌^◌, length, IsTrue, IfOk, MatchResult};
ghost use Rattle.array_syntax.specs.Faults.{IsAccepted, IsAnswered, IsNumberNext};
ghost use Rattle.array_syntax.specs.Limits.{KeepsLimits};
ghost use Rattle.array_syntax.specs.Parsing.{IsReady, IsParsing, Takes, Signed, Turned, fault_at as fault_of, unread_at, Stopped, Blocked, Ended};
ghost use Rattle.array_syntax.specs.Reading.{state_of, nodes_read};
ghost use Rattle.array_syntax.specs.Steps.{depth_in, IsStuck, IsDeep, IsCrowded, IsFull, IsCounted, Judged, Admitted, Advanced, Finished, Settled, sign_place, begins_node, is_operand, is_prefixed};

use crate::fault::ParseFault;
use crate::frames::Frames;
use crate::limits::{HEIGHT_LIMIT, NODE_LIMIT, STATEMENT_LIMIT};
use crate::machine::{Part, Phase, Refusal, reduce, step};
use crate::operators::LOOSEST;
use crate::program::{Program, Stmt};
use crate::tokens::next_kept;
use crate::word::{Operator, Token, Word};
use crate::words::word_of;
use sqlite_items::Items;
use std::alloc::Global;
use ven_io::{Token as TextToken, TokenFault, TokenKind};

/// What has been read: up to the place `from`, in bytes from 0, with so many nodes.
#[derive(Drop)]
pub struct Parsing {
    pub phase: Phase,
    pub stack: Frames,
    pub nodes: u32,
    pub from: u32,
}

/// What a turn gives.
#[derive(Drop)]
pub enum Turn {
    More(Parsing),
    Done(Program),
}

fn fault_at(refusal: Refusal, at: u32) -> ParseFault
    ensures { result ≡ fault_of refusal at }
{
    match refusal {
        Refusal::TooHigh | Refusal::TooManyOpen => ParseFault::TooDeep { at },
        Refusal::Unexpected => ParseFault::Unexpected { at },
        Refusal::TooManyStatements => ParseFault::TooManyStatements { at },
        Refusal::TooManyNodes => ParseFault::TooManyNodes { at },
        Refusal::Memory => ParseFault::Memory,
    }
}

fn is_stuck(phase: &Phase, stack: &Frames) -> bool
    ensures { IsTrue result ↔ IsStuck (state_of phase.now stack.now) }
{
    matches!(phase, Phase::Stuck)
}

/// Whether one item more is open than may be.
fn is_deep(phase: &Phase, stack: &Frames) -> bool
    ensures { IsTrue result ↔ IsDeep (state_of phase.now stack.now) }
{
    match phase {
        Phase::Want => stack.depth() > HEIGHT_LIMIT as usize,
        _ => false,
    }
}

/// Whether one statement more begins than may be.
fn is_crowded(phase: &Phase, stack: &Frames) -> bool
    ensures { IsTrue result ↔ IsCrowded (state_of phase.now stack.now) }
{
    match phase {
        Phase::Input(done, Part::AfterWord) => done.len() >= STATEMENT_LIMIT,
        Phase::AfterWord(done, _) => done.len() >= STATEMENT_LIMIT,
        _ => false,
    }
}

/// Whether there is one node more than may be; at a `-` that waits for the next token.
fn is_full(phase: &Phase, stack: &Frames, nodes: u32) -> bool
    requires { nodes ≡ nodes_read (state_of phase.now stack.now) }
    ensures { IsTrue result ↔ IsFull (state_of phase.now stack.now) }
{
    match phase {
        Phase::Minus(_) => false,
        _ => nodes > NODE_LIMIT,
    }
}

/// Where a `-` stands whose node and open item are judged when the next token is known.
fn sign_place(phase: &Phase, stack: &Frames) -> u32
    ensures { result ≡ sign_place (state_of phase.now stack.now) }
{
    match phase {
        Phase::Minus(at) => *at,
        _ => 0,
    }
}

fn is_number(next: &Result<TextToken, TokenFault>) -> bool
    ensures { IsTrue result ↔ IsNumberNext next.now }
{
    match next {
        Ok(token) => token.kind == TokenKind::Number,
        Err(_) => false,
    }
}

/// Judges a `-` at the end of what has been read, now that what stands next is known.
fn settle(
    phase: &Phase,
    stack: &Frames,
    nodes: u32,
    next: &Result<TextToken, TokenFault>,
) -> Option<Refusal>
    requires { nodes ≡ nodes_read (state_of phase.now stack.now) }
    ensures { Settled (state_of phase.now stack.now) next.now result }
{
    match phase {
        Phase::Minus(_) => {
            if !is_number(next) && stack.depth() >= HEIGHT_LIMIT as usize {
                return Some(Refusal::TooManyOpen);
            }
            if nodes > NODE_LIMIT {
                return Some(Refusal::TooManyNodes);
            }
            None
        }
        _ => None,
    }
}

/// Whether the word is a node's token.
fn begins_node(phase: &Phase, word: &Word) -> bool
    ensures { result ≡ begins_node phase.now word.now }
{
    match phase {
        Phase::Want => is_operand(word),
        Phase::Minus(_) => is_prefixed(word),
        Phase::Have(_) => matches!(word, Word::Operator(_)),
        _ => false,
    }
}

fn is_operand(word: &Word) -> bool
    ensures { result ≡ is_operand word.now }
{
    match word {
        Word::Name(_) | Word::Number(_) | Word::Tilde | Word::Call(_) => true,
        Word::Operator(Operator::Minus) => true,
        _ => false,
    }
}

fn is_prefixed(word: &Word) -> bool
    ensures { result ≡ is_prefixed word.now }
{
    match word {
        Word::Number(_) => false,
        _ => is_operand(word),
    }
}

/// Why a state that a token led to may not be.
fn refusal_of(phase: &Phase, stack: &Frames, nodes: u32) -> Option<Refusal>
    requires { ¬ IsStuck (state_of phase.now stack.now) → nodes ≡ nodes_read (state_of phase.now stack.now) }
    ensures { Judged (state_of phase.now stack.now) result }
{
    if is_stuck(phase, stack) {
        return Some(Refusal::Unexpected);
    }
    if is_deep(phase, stack) {
        return Some(Refusal::TooManyOpen);
    }
    if is_crowded(phase, stack) {
        return Some(Refusal::TooManyStatements);
    }
    if is_full(phase, stack, nodes) {
        return Some(Refusal::TooManyNodes);
    }
    None
}

/// A state that a token led to, where it may be.
fn admit(phase: Phase, stack: &Frames, nodes: u32) -> Result<Phase, Refusal>
    requires { ¬ IsStuck (state_of phase stack.now) → nodes ≡ nodes_read (state_of phase stack.now) }
    ensures { Admitted (state_of phase stack.now) (λ next. state_of next stack.now) result }
{
    match refusal_of(&phase, stack, nodes) {
        Some(refusal) => Err(refusal),
        None => Ok(phase),
    }
}

/// The program, where the text may end here.
fn finish(alloc: Global, phase: Phase, stack: &mut Frames) -> Result<Items<Stmt>, Refusal>
    ensures { Finished (state_of phase stack.old) result }
{
    match phase {
        Phase::Begin(done) => Ok(done),
        Phase::Have(e) => match reduce(alloc, LOOSEST, e, stack) {
            Ok(node) => {
                if node.is_too_high() {
                    return Err(Refusal::TooHigh);
                }
                Err(Refusal::Unexpected)
            }
            Err(_refused) => Err(Refusal::Memory),
        },
        Phase::Input(_done, _part) => Err(Refusal::Unexpected),
        Phase::AfterWord(_done, _binding) => Err(Refusal::Unexpected),
        Phase::AfterName(_done, _binding, _name, _at) => Err(Refusal::Unexpected),
        Phase::Want => Err(Refusal::Unexpected),
        Phase::Minus(_at) => Err(Refusal::Unexpected),
        Phase::Called(_at, _callee) => Err(Refusal::Unexpected),
        Phase::WantNumber(_call) => Err(Refusal::Unexpected),
        Phase::SignedNumber(_at, _call) => Err(Refusal::Unexpected),
        Phase::HaveNumber(_call) => Err(Refusal::Unexpected),
        Phase::Stuck => Err(Refusal::Unexpected),
    }
}

/// A token more, which leads to a state with so many nodes.
fn advance(
    alloc: Global,
    phase: Phase,
    stack: &mut Frames,
    nodes: u32,
    token: Token,
) -> Result<Phase, Refusal>
    requires low { depth_in (state_of phase stack.old) < 2 ^ 31 }
    requires counted { IsCounted (state_of phase stack.old) token nodes }
    ensures { Advanced (state_of phase stack.old) token (λ next. state_of next stack.new) result }
{
    match step(alloc, phase, stack, token) {
        Ok(Some(next)) => admit(next, stack, nodes),
        Ok(None) => Err(Refusal::TooHigh),
        Err(_refused) => Err(Refusal::Memory),
    }
}

/// What is answered at a byte that begins no token.
fn stop(alloc: Global, parsing: Parsing, at: u32) -> ParseFault
    ensures { Stopped (state_of parsing.phase parsing.stack) at result }
{
    let Parsing {
        phase,
        mut stack,
        ..
    } = parsing;
    match finish(alloc, phase, &mut stack) {
        Ok(_program) => ParseFault::Unexpected { at },
        Err(refusal) => fault_at(refusal, at),
    }
}

/// What is answered at a place where no token stands.
fn block(alloc: Global, parsing: Parsing, fault: TokenFault) -> ParseFault
    ensures { Blocked (state_of parsing.phase parsing.stack) fault result }
{
    match fault {
        TokenFault::NotAscii { at } => ParseFault::NotAscii { at },
        TokenFault::Unexpected { at } => stop(alloc, parsing, at),
    }
}

/// What is answered at the text's end.
fn end_text(alloc: Global, parsing: Parsing, at: u32) -> Result<Turn, ParseFault>
    ensures { Ended (state_of parsing.phase parsing.stack) at result }
{
    let Parsing {
        phase,
        mut stack,
        ..
    } = parsing;
    match finish(alloc, phase, &mut stack) {
        Ok(stmts) => Ok(Turn::Done(Program { stmts })),
        Err(refusal) => Err(fault_at(refusal, at)),
    }
}

/// What is answered at a token that has no word: a name that is too long, or a number that is too large.
fn unread(kind: TokenKind, at: u32) -> ParseFault
    ensures { result ≡ unread_at kind at }
{
    match kind {
        TokenKind::Name => ParseFault::NameTooLong { at },
        _ => ParseFault::NumberTooLarge { at },
    }
}

/// Takes a token that says the word.
fn take_word(
    alloc: Global,
    parsing: Parsing,
    raw: TextToken,
    word: Word,
) -> Result<Parsing, ParseFault>
    requires few { parsing.nodes < 2 ^ 31 }
    requires low { depth_in (state_of parsing.phase parsing.stack) < 2 ^ 31 }
    requires counted { parsing.nodes ≡ nodes_read (state_of parsing.phase parsing.stack) }
    ensures { Takes parsing raw word result }
{
    let Parsing {
        phase,
        mut stack,
        nodes,
        ..
    } = parsing;
    let token = Token {
        at: raw.start,
        word,
    };
    let nodes = if begins_node(&phase, &token.word) {
        nodes + 1
    } else {
        nodes
    };
    match advance(alloc, phase, &mut stack, nodes, token) {
        Ok(phase) => Ok(Parsing {
            phase,
            stack,
            nodes,
            from: raw.end,
        }),
        Err(refusal) => Err(fault_at(refusal, raw.start)),
    }
}

/// Takes a token.
fn take(alloc: Global, text: &[u8], parsing: Parsing, raw: TextToken) -> Result<Parsing, ParseFault>
    requires ready { IsReady text.now parsing.from (state_of parsing.phase parsing.stack) parsing.nodes (Ok raw) }
    requires some { raw.kind ≢ TokenKind.End }
    requires short { length text.now < 2 ^ 31 }
    ensures { MatchResult result (λ next. Turned text.now parsing.from (Turn.More next))
        (λ fault. IsAnswered text.now fault) }
{
    match word_of(raw.kind, &text[raw.start as usize..raw.end as usize]) {
        Some(word) => take_word(alloc, parsing, raw, word),
        None => Err(unread(raw.kind, raw.start)),
    }
}

/// What is answered where a `-` at the end of what has been read is refused.
fn sign_fault(parsing: &Parsing, next: &Result<TextToken, TokenFault>) -> Option<ParseFault>
    requires { parsing.now.nodes ≡ nodes_read (state_of parsing.now.phase parsing.now.stack) }
    ensures { Signed (state_of parsing.now.phase parsing.now.stack) next.now result }
{
    match settle(&parsing.phase, &parsing.stack, parsing.nodes, next) {
        Some(refusal) => Some(fault_at(refusal, sign_place(&parsing.phase, &parsing.stack))),
        None => None,
    }
}

/// Takes what stands next, or ends the parse there.
fn take_next(
    alloc: Global,
    text: &[u8],
    parsing: Parsing,
    next: Result<TextToken, TokenFault>,
) -> Result<Turn, ParseFault>
    requires ready { IsReady text.now parsing.from (state_of parsing.phase parsing.stack) parsing.nodes next }
    requires short { length text.now < 2 ^ 31 }
    ensures { MatchResult result (λ turn. Turned text.now parsing.from turn) (λ fault. IsAnswered text.now fault) }
{
    match next {
        Err(fault) => Err(block(alloc, parsing, fault)),
        Ok(raw) => match raw.kind {
            TokenKind::End => end_text(alloc, parsing, raw.start),
            _ => Ok(Turn::More(take(alloc, text, parsing, raw)?)),
        },
    }
}

/// A turn: what stands next is taken, or ends the parse.
fn go_on(alloc: Global, text: &[u8], parsing: Parsing) -> Result<Turn, ParseFault>
    requires parsing { IsParsing text.now parsing }
    requires short { length text.now < 2 ^ 31 }
    ensures { MatchResult result (λ turn. Turned text.now parsing.from turn) (λ fault. IsAnswered text.now fault) }
{
    let next = next_kept(text, parsing.from);
    match sign_fault(&parsing, &next) {
        Some(fault) => Err(fault),
        None => take_next(alloc, text, parsing, next),
    }
}

/// The program that the text denotes, where it has no fault, or else its first fault (docs/LANGUAGE.md, "Faults").
/// Condition: the length is below 2^31 bytes.
pub fn parse(alloc: Global, text: &[u8]) -> Result<Program, ParseFault>
    requires { length text.now < 2 ^ 31 }
    ensures read { MatchResult result (λ program. IsAccepted text.now program) (λ fault. IsAnswered text.now fault) }
    ensures limits { IfOk result (λ program. KeepsLimits program) }
{
    let mut parsing = Parsing {
        phase: Phase::Begin(Items::new(alloc)),
        stack: Frames::new(alloc),
        nodes: 0,
        from: 0,
    };
    loop {
        match go_on(alloc, text, parsing) {
            Ok(Turn::More(next)) => parsing = next,
            Ok(Turn::Done(program)) => return Ok(program),
            Err(fault) => return Err(fault),
        }
    }
}
