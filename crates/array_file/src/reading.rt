//! The reader of array files: one word after another, to the arrays or the first fault.

ghost use Rattle.std.specs.Prelude.{◌≡◌, ◌↔◌, ◌⊎◌, [], ◌∷◌, ◌++◌, ◌-◌, ◌<◌, ◌≤◌, ◌^◌, ℕ, pos, neg_ℤ, List, length, All, Contains, IsTrue, IsSome, IfSome, MatchResult, OnOk, Err};
ghost use Rattle.ven_base.specs.Elem.{IsElement};
ghost use Rattle.ven_base.specs.Extent.{IsExtent};
ghost use Rattle.ven_base.specs.Pairs.{ArePairs, names_of};
ghost use Rattle.ven_io.specs.Tokens.{place_of};
ghost use Rattle.array_file.specs.Faults.{DenotesArrays, IsAnswered};
ghost use Rattle.array_file.specs.Words.{too_large};
ghost use Rattle.array_file.specs.Steps.{grid_of, state_in, IsReady, IsSmall, IsTaking, IsRefusalIn, IsWrongEnd, IsOther, Advances, IsPushed, IsWrongValue, IsEnding, IsEndRefusal, IsReading, IsToken, Turned};

use crate::fault::ArrayFault;
use crate::phase::{Heading, Opening, Phase};
use crate::tokens::next_kept;
use crate::word::Word;
use crate::words::word_of;
use std::alloc::Global;
use std::mem;
use ven_base::{Array, Arrays, ELEMENT_LIMIT, Name, Shape};
use ven_io::{Token, TokenFault, TokenKind};

/// What has been read, up to the place `from`, in bytes from 0: whole arrays, a phase of the next one, and its values
/// so far.
#[derive(Drop)]
pub struct Reading {
    pub arrays: Arrays,
    pub phase: Phase,
    pub values: Vec<i64>,
    pub from: u32,
}

/// The shape of this many rows and columns, if there is one.
fn shape_of(rows: u64, cols: u64) -> Option<Shape>
    ensures found { IsSome result ↔ IsExtent (record { rows = rows; cols = cols }) }
    ensures value { IfSome result (λ shape. shape ≡ record { rows = rows; cols = cols }) }
{
    let limit = u64::from(ELEMENT_LIMIT);
    if rows > limit || cols > limit {
        return None;
    }
    Shape::new(rows as u32, cols as u32)
}

/// Appends the array of this heading and these values.
fn end_array(arrays: &mut Arrays, heading: &Heading, values: Vec<i64>) -> Result<(), ArrayFault>
    requires few { length arrays.old < 2 ^ 32 - 1 }
    requires some { length values.items < 2 ^ 32 }
    requires typed { All (IsElement heading.now.elem) values.items }
    requires new { ¬ Contains (names_of arrays.old) heading.now.name }
    ensures end { MatchResult result
        (λ _. arrays.new ≡ arrays.old ++ (heading.now.name, grid_of heading.now values.items) ∷ [])
        (λ fault. IsWrongEnd heading.now values.items fault) }
    ensures whole { OnOk result (ArePairs arrays.new) }
{
    let need = heading.shape.elements();
    let have = values.len() as u32;
    if need != have {
        let name = heading.name;
        return Err(ArrayFault::CountWrong { name, need, have });
    }
    let array = Array {
        elem: heading.elem,
        shape: heading.shape,
        values,
    };
    match arrays.add(heading.name, array) {
        Ok(_added) => {
            // What is known of all arrays shows in their number.
            let _known = arrays.len();
            Ok(())
        }
        Err(_refused) => Err(ArrayFault::Memory),
    }
}

/// Whether the name is that of this heading or of one of the arrays.
fn comes_again(arrays: &Arrays, heading: &Heading, name: &Name) -> bool
    ensures { IsTrue result ↔ ((heading.now.name ≡ name.now) ⊎ Contains (names_of arrays.now) name.now) }
{
    heading.name == *name || arrays.get(name).is_some()
}

fn plain(n: u64) -> i64
    requires { n ≤ too_large }
    ensures { result ≡ pos n }
{
    n as i64
}

fn negative(n: u64) -> i64
    requires { n ≤ too_large }
    ensures { result ≡ neg_ℤ (pos n) }
{
    -plain(n)
}

/// The phase behind a word of a heading, or behind a `-`; none where the word can't stand there.
fn advance(phase: &Phase, word: &Word, at: u32) -> Option<Phase>
    requires { IsOther phase.now word.now }
    ensures { Advances phase.now word.now at result }
{
    match (phase, word) {
        (Phase::AfterName(name), Word::Elem(elem)) => Some(Phase::AfterType(*name, *elem)),
        (Phase::AfterType(name, elem), Word::Open) => Some(Phase::AfterOpen(Opening {
            name: *name,
            elem: *elem,
            at,
        })),
        (Phase::AfterOpen(opening), Word::Number(rows)) => Some(Phase::AfterRows(*opening, *rows)),
        (Phase::AfterRows(opening, rows), Word::Comma) => Some(Phase::AfterComma(*opening, *rows)),
        (Phase::AfterComma(opening, rows), Word::Number(cols)) => {
            Some(Phase::AfterCols(*opening, *rows, *cols))
        }
        (Phase::Values(heading), Word::Minus) => Some(Phase::AfterMinus(*heading, at)),
        _ => None,
    }
}

impl Reading {
    fn new(alloc: Global) -> Reading
        ensures { (text : List ℕ) → IsReading text result }
    {
        Reading {
            arrays: Arrays::new(alloc),
            phase: Phase::Begin,
            values: Vec::new(alloc),
            from: 0,
        }
    }

    /// A name, where an array may begin.
    fn take_name(&mut self, alloc: Global, name: Name, at: u32) -> Result<(), ArrayFault>
        requires { IsReady self.old }
        ensures { MatchResult result (λ _. IsTaking self.old (Word.Name name) at self.new)
            (λ fault. IsRefusalIn self.old (Word.Name name) at fault) }
    {
        match self.phase {
            Phase::Begin => {
                self.phase = Phase::AfterName(name);
                Ok(())
            }
            Phase::Values(heading) => self.next_array(alloc, &heading, name, at),
            _ => Err(ArrayFault::Unexpected { at }),
        }
    }

    /// A name behind the values of the array of this heading.
    fn next_array(
        &mut self,
        alloc: Global,
        heading: &Heading,
        name: Name,
        at: u32,
    ) -> Result<(), ArrayFault>
        requires ready { IsReady self.old }
        requires values { self.old.phase ≡ Phase.Values heading.now }
        ensures { MatchResult result (λ _. IsTaking self.old (Word.Name name) at self.new)
            (λ fault. IsRefusalIn self.old (Word.Name name) at fault) }
    {
        if comes_again(&self.arrays, heading, &name) {
            return Err(ArrayFault::Twice { name });
        }
        let values = mem::replace(&mut self.values, Vec::new(alloc));
        match end_array(&mut self.arrays, heading, values) {
            Ok(()) => {
                self.phase = Phase::AfterName(name);
                Ok(())
            }
            Err(fault) => Err(fault),
        }
    }

    /// One value more of the array of this heading.
    fn push_value(&mut self, heading: &Heading, value: i64, at: u32) -> Result<(), ArrayFault>
        ensures { MatchResult result (λ _. IsPushed heading.now value self.old self.new)
            (λ fault. IsWrongValue heading.now value at fault) }
    {
        if !heading.elem.contains(value) {
            return Err(ArrayFault::OutOfType { at });
        }
        if self.values.push(value).is_err() {
            return Err(ArrayFault::Memory);
        }
        self.phase = Phase::Values(*heading);
        Ok(())
    }

    /// A `]`, where a shape may end.
    fn take_close(&mut self, at: u32) -> Result<(), ArrayFault>
        requires { IsReady self.old }
        ensures { MatchResult result (λ _. IsTaking self.old Word.Close at self.new)
            (λ fault. IsRefusalIn self.old Word.Close at fault) }
    {
        match self.phase {
            Phase::AfterCols(opening, rows, cols) => match shape_of(rows, cols) {
                None => Err(ArrayFault::Unexpected { at: opening.at }),
                Some(shape) => {
                    self.phase = Phase::Values(Heading {
                        name: opening.name,
                        elem: opening.elem,
                        shape,
                    });
                    Ok(())
                }
            },
            _ => Err(ArrayFault::Unexpected { at }),
        }
    }

    /// A number: of a shape, or a value, which begins with its number or at the `-` before it.
    fn take_number(&mut self, n: u64, at: u32) -> Result<(), ArrayFault>
        requires ready { IsReady self.old }
        requires small { IsSmall (Word.Number n) }
        ensures { MatchResult result (λ _. IsTaking self.old (Word.Number n) at self.new)
            (λ fault. IsRefusalIn self.old (Word.Number n) at fault) }
    {
        match self.phase {
            Phase::Values(heading) => self.push_value(&heading, plain(n), at),
            Phase::AfterMinus(heading, minus_at) => self.push_value(
                &heading,
                negative(n),
                minus_at,
            ),
            _ => self.take_other(&Word::Number(n), at),
        }
    }

    /// A word that leads from one phase to the next.
    fn take_other(&mut self, word: &Word, at: u32) -> Result<(), ArrayFault>
        requires ready { IsReady self.old }
        requires other { IsOther self.old.phase word.now }
        ensures { MatchResult result (λ _. IsTaking self.old word.now at self.new)
            (λ fault. IsRefusalIn self.old word.now at fault) }
    {
        match advance(&self.phase, word, at) {
            Some(phase) => {
                self.phase = phase;
                Ok(())
            }
            None => Err(ArrayFault::Unexpected { at }),
        }
    }

    /// Takes a word that stands at this place.
    fn take(&mut self, alloc: Global, word: &Word, at: u32) -> Result<(), ArrayFault>
        requires ready { IsReady self.old }
        requires small { IsSmall word.now }
        ensures { MatchResult result (λ _. IsTaking self.old word.now at self.new)
            (λ fault. IsRefusalIn self.old word.now at fault) }
    {
        match word {
            Word::Name(name) => self.take_name(alloc, *name, at),
            Word::Number(n) => self.take_number(*n, at),
            Word::Close => self.take_close(at),
            _ => self.take_other(word, at),
        }
    }

    /// Ends the last array, where the text may end.
    fn finish(&mut self, alloc: Global, at: u32) -> Result<(), ArrayFault>
        requires { IsReady self.old }
        ensures { MatchResult result (λ _. IsEnding self.old self.new)
            (λ fault. IsEndRefusal (state_in self.old) at fault) }
    {
        match self.phase {
            Phase::Begin => Ok(()),
            Phase::Values(heading) => {
                let values = mem::replace(&mut self.values, Vec::new(alloc));
                match end_array(&mut self.arrays, &heading, values) {
                    Ok(()) => Ok(()),
                    Err(fault) => Err(fault),
                }
            }
            _ => Err(ArrayFault::Unexpected { at }),
        }
    }

    /// Takes a token.
    fn take_token(&mut self, alloc: Global, text: &[u8], token: Token) -> Result<bool, ArrayFault>
        requires reading { IsReading text.now self.old }
        requires token { IsToken text.now self.old.from token }
        requires short { length text.now < 2 ^ 31 }
        ensures { MatchResult result (λ more. Turned text.now self.old self.new more)
            (λ fault. IsAnswered text.now fault) }
    {
        let word = match word_of(token.kind, &text[token.start as usize..token.end as usize]) {
            Some(word) => word,
            None => return Err(ArrayFault::Unexpected { at: token.start }),
        };
        match self.take(alloc, &word, token.start) {
            Ok(()) => {
                self.from = token.end;
                Ok(true)
            }
            Err(fault) => Err(fault),
        }
    }

    /// Takes what stands next; whether the text goes on behind it.
    fn turn(&mut self, alloc: Global, text: &[u8]) -> Result<bool, ArrayFault>
        requires reading { IsReading text.now self.old }
        requires short { length text.now < 2 ^ 31 }
        ensures { MatchResult result (λ more. Turned text.now self.old self.new more)
            (λ fault. IsAnswered text.now fault) }
    {
        match next_kept(text, self.from) {
            Ok(token) => {
                if token.kind == TokenKind::End {
                    match self.finish(alloc, token.start) {
                        Ok(()) => Ok(false),
                        Err(fault) => Err(fault),
                    }
                } else {
                    self.take_token(alloc, text, token)
                }
            }
            Err(fault) => Err(unread(&fault)),
        }
    }
}

fn unread(fault: &TokenFault) -> ArrayFault
    ensures { result ≡ ArrayFault.Unexpected (place_of (Err fault.now)) }
{
    match fault {
        TokenFault::NotAscii { at } => ArrayFault::Unexpected { at: *at },
        TokenFault::Unexpected { at } => ArrayFault::Unexpected { at: *at },
    }
}

/// The arrays that the text denotes, where it has no fault, or else its first fault (docs/FORMATS.md, "The array
/// file"). Each array has as many values as its shape has elements, all in its type's range. Condition: the length is
/// below 2^31 bytes.
pub fn read_arrays(alloc: Global, text: &[u8]) -> Result<Arrays, ArrayFault>
    requires { length text.now < 2 ^ 31 }
    ensures read { MatchResult result (λ arrays. DenotesArrays text.now arrays) (λ fault. IsAnswered text.now fault) }
{
    let mut reading = Reading::new(alloc);
    loop {
        if !reading.turn(alloc, text)? {
            break;
        }
    }
    let Reading { arrays, .. } = reading;
    Ok(arrays)
}
