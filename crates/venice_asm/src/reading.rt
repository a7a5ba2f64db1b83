//! The reader of assembler texts: one word after another, to the lines' meaning or the first fault in the text.

ghost use Rattle.std.specs.Prelude.{◌≡◌, ◌↔◌, ◌<◌, ◌≤◌, ◌^◌, List, ℕ, drop, length, true, IsTrue, nat_le, Some, None, Err, IfSome, MatchResult};
ghost use Rattle.std.specs.List.{list_all};
ghost use Rattle.venice_isa.specs.Limits.{instruction_limit};
ghost use Rattle.ven_io.specs.Tokens.{place_of};
ghost use Rattle.ven_io.specs.Token.{IsSpelling, bytes_of};
ghost use Rattle.venice_asm.specs.Faults.{IsAnswered};
ghost use Rattle.venice_asm.specs.Reading.{kinds_left, instr_named, heads_at, HasBegun};
ghost use Rattle.venice_asm.specs.Lines.{head_kinds, is_instr, is_optional};
ghost use Rattle.venice_asm.specs.Fitting.{IsSmall};
ghost use Rattle.venice_asm.specs.declared.head.Head.TheVariants as heads;
ghost use Rattle.venice_asm.specs.Parts.{IsWholeInstr};
ghost use Rattle.venice_asm.specs.Spelling.{head_word, keyword_among};
ghost use Rattle.venice_asm.specs.Moves.{IsHeadOf, IsNoInstr, IsEntered, IsNamed, RefusesName, TakesOperand, RefusesOperand, TakesFirst, RefusesFirst, TakesLabel, RefusesLabel, TakesBehindLabel, RefusesBehindLabel, TakesBehind, RefusesBehind, IsGrown, IsEnded, AddsOne, AddsArray, AddsInstr, HasRoom, TakesInstr, RefusesInstr, TakesBehindName, RefusesBehindName, IsArrayLabel, TakesColon, RefusesColon, IsReady, TakesIn, RefusesIn, RefusesAll, TakesToken, RefusesToken, TakesEnd, RefusesEnd, may_end};
ghost use Rattle.venice_asm.specs.Memory.{IsMemory};
ghost use Rattle.venice_asm.specs.Meaning.{number_among};
ghost use Rattle.venice_asm.specs.Steps.{IsReading, Turned};

use crate::fault::AsmFault;
use crate::fitting::{Misfit, read_operand};
use crate::head::{Head, INSTRUCTIONS, Kind, operation_kinds};
use crate::label::Label;
use crate::labels::{add_label, number_among};
use crate::operand::Operand;
use crate::phase::{ArrayLine, Opening, Phase, Reference, Section};
use crate::spelling::{Keyword, keyword_among};
use crate::statement::{array_of, instr_of, number, operation, target_of};
use crate::word::Word;
use crate::words::word_of;
use image_loader::ARRAY_LIMIT;
use indexmap::IndexMap;
use std::alloc::Global;
use ven_io::{Token, TokenFault, TokenKind, next};
use venice_isa::{INSTRUCTION_LIMIT, Instr, Version};

/// What has been read, up to the place `from`: what the whole lines say, and a part of the next one. Of the arrays the
/// first 256 are kept; `array_count` counts them all. `from` counts bytes of the text from 0; `spad` and `memory` are
/// in bytes; a label has the number of the instruction behind it.
#[derive(Drop)]
pub struct Reading {
    pub version: Version,
    pub section: Section,
    pub spad: u32,
    pub memory: u32,
    pub arrays: Vec<ArrayLine>,
    pub array_count: u32,
    pub labels: IndexMap<Label, u32>,
    pub instrs: Vec<Instr>,
    pub references: Vec<Reference>,
    pub phase: Phase,
    pub operands: Vec<Operand>,
    pub from: u32,
}

/// The kinds of what may follow, behind a line's first word and these operands.
fn kinds_left(head: Head, operands: &[Operand]) -> &'static [Kind]
    requires { HasBegun head operands.now }
    ensures { result.now ≡ kinds_left (head_kinds head) operands.now }
{
    match head {
        Head::Vec => vector_left(operands),
        _ => behind(head.kinds(), operands.len()),
    }
}

/// The kinds of what may follow, behind the word of vector instructions and these operands.
fn vector_left(operands: &[Operand]) -> &'static [Kind]
    requires { HasBegun heads.Vec operands.now }
    ensures { result.now ≡ kinds_left (head_kinds heads.Vec) operands.now }
{
    if operands.is_empty() {
        &[Kind::Operation]
    } else {
        behind(operation_kinds(operation(operands, 0)), operands.len() - 1)
    }
}

/// The kinds behind the first so many.
fn behind(kinds: &'static [Kind], count: usize) -> &'static [Kind]
    ensures { result.now ≡ drop count kinds.now }
{
    if count > kinds.len() {
        &[]
    } else {
        &kinds[count..]
    }
}

/// Whether a line may end before these.
fn may_end(kinds: &[Kind]) -> bool
    ensures { result ≡ list_all is_optional kinds.now }
{
    kinds.iter().all(|kind| kind.is_optional())
}

fn unread_at(fault: &TokenFault) -> u32
    ensures { result ≡ place_of (Err fault.now) }
{
    match fault {
        TokenFault::NotAscii { at } | TokenFault::Unexpected { at } => *at,
    }
}

impl Reading {
    /// Nothing of a text: version one, no lines, and none begun. It takes no memory.
    pub fn new(alloc: Global) -> Reading
        ensures { (text : List ℕ) → IsReading text result }
    {
        Reading {
            version: Version::One,
            section: Section::Version,
            spad: 0,
            memory: 0,
            arrays: Vec::new(alloc),
            array_count: 0,
            labels: IndexMap::new(alloc),
            instrs: Vec::new(alloc),
            references: Vec::new(alloc),
            phase: Phase::Start,
            operands: Vec::new(alloc),
            from: 0,
        }
    }

    /// Whether there are as many instructions as there may be.
    fn is_full(&self) -> bool
        ensures { result ≡ nat_le instruction_limit (length self.now.instrs.items) }
    {
        self.instrs.len() >= INSTRUCTION_LIMIT as usize
    }

    /// The word of an instruction of the text's version.
    fn instr_named(&self, name: &Label) -> Option<Head>
        ensures { result ≡ instr_named self.now.version name.now }
    {
        match keyword_among(&INSTRUCTIONS, name.bytes()) {
            Some(head) if head.is_in(self.version) => Some(head),
            _ => None,
        }
    }

    /// The instruction's word that the name is; at fault where there are enough instructions, or it is none.
    fn instr_head(&self, name: &Label, at: u32, next_at: u32) -> Result<Head, AsmFault>
        ensures { MatchResult result (IsHeadOf self.now name.now) (IsNoInstr self.now name.now at next_at) }
    {
        match self.instr_named(name) {
            None => Err(AsmFault::Unexpected { at: next_at }),
            Some(_) if self.is_full() => Err(AsmFault::FieldRange { at }),
            Some(head) => Ok(head),
        }
    }

    /// The fault where nothing that is a word stands next, at this place: that of an instruction too many comes before.
    fn refused_at(&self, at: u32) -> AsmFault
        ensures { RefusesAll self.now.phase at self.now result }
    {
        match self.phase {
            Phase::AfterName(opening) => match self.instr_head(&opening.name, opening.at, at) {
                Err(fault) => fault,
                Ok(_) => AsmFault::Unexpected { at },
            },
            _ => AsmFault::Unexpected { at },
        }
    }

    /// The line that begins with this word.
    fn enter(&mut self, head: Head, at: u32)
        ensures { IsEntered head at self.old self.new }
    {
        self.operands.clear();
        self.phase = Phase::Behind(head, at);
    }

    /// The word that begins a line before code, where the name is it.
    fn head_named(&self, name: &Label) -> Option<Head>
        ensures { result ≡ keyword_among head_word (heads_at (Some self.now.section)) name.now }
    {
        let heads: &'static [Head] = match self.section {
            Section::Version => &[Head::Version, Head::Spad],
            Section::Spad => &[Head::Spad],
            Section::Memory => &[Head::Memory],
            Section::Arrays => &[Head::Array],
            Section::Code => &[],
        };
        keyword_among(heads, name.bytes())
    }

    /// A word at the start of a line.
    fn take_first(&mut self, word: &Word, at: u32) -> Result<(), AsmFault>
        ensures { MatchResult result (λ _. TakesFirst self.old word.now at self.new)
            (RefusesFirst self.old word.now at) }
    {
        let name = match word {
            Word::Line => return Ok(()),
            Word::Name(name) => *name,
            _ => return Err(AsmFault::Unexpected { at }),
        };
        match self.head_named(&name) {
            Some(head) => {
                self.enter(head, at);
                Ok(())
            }
            None => self.open(name, at),
        }
    }

    /// A name at the start of a line of code.
    fn open(&mut self, name: Label, at: u32) -> Result<(), AsmFault>
        ensures { MatchResult result (λ _. IsNamed name at self.old self.new) (RefusesName self.old at) }
    {
        match self.section {
            Section::Arrays | Section::Code => {
                self.phase = Phase::AfterName(Opening { name, at });
                Ok(())
            }
            _ => Err(AsmFault::Unexpected { at }),
        }
    }

    /// A `:` behind a name: a label, which stands for the next instruction.
    fn take_label(&mut self, opening: &Opening) -> Result<(), AsmFault>
        requires { length self.old.instrs.items ≤ instruction_limit }
        ensures { MatchResult result (λ _. TakesLabel opening.now.name self.old self.new)
            (RefusesLabel self.old opening.now) }
    {
        match number_among(&self.labels, &opening.name) {
            Some(_) => Err(AsmFault::LabelTwice { at: opening.at }),
            None => self.add(opening.name),
        }
    }

    /// A new label, which stands for the next instruction.
    fn add(&mut self, name: Label) -> Result<(), AsmFault>
        requires few { length self.old.instrs.items ≤ instruction_limit }
        requires fresh { number_among self.old.labels.entries name ≡ None }
        ensures { MatchResult result (λ _. TakesLabel name self.old self.new) IsMemory }
    {
        let number = self.instrs.len() as u32;
        match add_label(&mut self.labels, name, number) {
            Ok(()) => {
                self.section = Section::Code;
                self.phase = Phase::AfterLabel;
                Ok(())
            }
            Err(fault) => Err(fault),
        }
    }

    /// A word behind a label: the line's end, or an instruction's word.
    fn take_behind_label(&mut self, word: &Word, at: u32) -> Result<(), AsmFault>
        ensures { MatchResult result (λ _. TakesBehindLabel self.old word.now at self.new)
            (RefusesBehindLabel self.old word.now at) }
    {
        match word {
            Word::Line => {
                self.phase = Phase::Start;
                Ok(())
            }
            Word::Name(name) => match self.instr_head(name, at, at) {
                Ok(head) => {
                    self.enter(head, at);
                    Ok(())
                }
                Err(fault) => Err(fault),
            },
            _ => Err(AsmFault::Unexpected { at }),
        }
    }

    /// A word behind a line's first word and some operands.
    fn take_behind(
        &mut self,
        head: Head,
        last_at: u32,
        word: &Word,
        at: u32,
    ) -> Result<(), AsmFault>
        requires small { IsSmall word.now }
        requires room { HasRoom self.old }
        requires begun { HasBegun head self.old.operands.items }
        requires whole { IsTrue (is_instr head) → may_end head self.old ≡ true
            → IsWholeInstr head self.old.operands.items }
        ensures { MatchResult result (λ _. TakesBehind head last_at word.now at self.old self.new)
            (RefusesBehind head word.now at self.old) }
    {
        let kinds = kinds_left(head, &self.operands);
        if matches!(word, Word::Line) && may_end(kinds) {
            return self.end_line(head, last_at);
        }
        match kinds {
            [] => Err(AsmFault::Unexpected { at }),
            [kind, ..] => self.take_operand(head, *kind, word, at),
        }
    }

    /// An operand of this kind.
    fn take_operand(&mut self, head: Head, kind: Kind, word: &Word, at: u32) -> Result<(), AsmFault>
        requires { IsSmall word.now }
        ensures { MatchResult result (λ _. TakesOperand head kind word.now at self.old self.new)
            (RefusesOperand kind word.now at self.old) }
    {
        match read_operand(self.version, kind, word) {
            Ok(operand) => {
                if self.operands.push(operand).is_err() {
                    return Err(AsmFault::Memory);
                }
                self.phase = Phase::Behind(head, at);
                Ok(())
            }
            Err(Misfit::Unexpected) => Err(AsmFault::Unexpected { at }),
            Err(Misfit::Range) => Err(AsmFault::FieldRange { at }),
        }
    }

    /// The end of a line with a first word; its last operand stands at this place.
    fn end_line(&mut self, head: Head, last_at: u32) -> Result<(), AsmFault>
        requires room { HasRoom self.old }
        requires whole { IsTrue (is_instr head) → IsWholeInstr head self.old.operands.items }
        ensures { MatchResult result (λ _. IsEnded head last_at self.old self.new) IsMemory }
    {
        self.phase = Phase::Start;
        match head {
            Head::Version => {
                self.version = Version::Two;
                self.section = Section::Spad;
                Ok(())
            }
            Head::Spad => {
                self.spad = number(&self.operands, 0);
                self.section = Section::Memory;
                Ok(())
            }
            Head::Memory => {
                self.memory = number(&self.operands, 0);
                self.section = Section::Arrays;
                Ok(())
            }
            Head::Array => self.end_array(),
            _ => self.end_instr(head, last_at),
        }
    }

    fn end_array(&mut self) -> Result<(), AsmFault>
        requires { HasRoom self.old }
        ensures { MatchResult result (λ _. AddsArray self.old self.new) IsMemory }
    {
        match array_of(&self.operands) {
            Some(array) => self.add_array(array),
            None => Ok(()),
        }
    }

    fn add_array(&mut self, array: ArrayLine) -> Result<(), AsmFault>
        requires { HasRoom self.old }
        ensures { MatchResult result (λ _. AddsOne array self.old self.new) IsMemory }
    {
        if self.array_count >= ARRAY_LIMIT {
            self.array_count = ARRAY_LIMIT + 1;
            return Ok(());
        }
        if self.arrays.push(array).is_err() {
            return Err(AsmFault::Memory);
        }
        self.array_count += 1;
        Ok(())
    }

    fn end_instr(&mut self, head: Head, last_at: u32) -> Result<(), AsmFault>
        requires room { HasRoom self.old }
        requires whole { IsWholeInstr head self.old.operands.items }
        ensures { MatchResult result (λ _. AddsInstr head last_at self.old self.new) IsMemory }
    {
        self.section = Section::Code;
        let instr = instr_of(head, &self.operands);
        if let Some(target) = target_of(head, &self.operands) {
            let reference = Reference {
                at: last_at,
                instr: self.instrs.len() as u32,
                target,
            };
            if self.references.push(reference).is_err() {
                return Err(AsmFault::Memory);
            }
        }
        if self.instrs.push(instr).is_err() {
            return Err(AsmFault::Memory);
        }
        Ok(())
    }

    /// A word behind a name: a `:`, or what stands behind an instruction's word.
    fn take_behind_name(&mut self, opening: &Opening, word: &Word, at: u32) -> Result<(), AsmFault>
        requires small { IsSmall word.now }
        requires room { HasRoom self.old }
        ensures { MatchResult result (λ _. TakesBehindName opening.now word.now at self.old self.new)
            (RefusesBehindName opening.now word.now at self.old) }
    {
        match word {
            Word::Colon => self.take_label(opening),
            _ => self.take_instr(opening, word, at),
        }
    }

    /// What stands behind an instruction's word.
    fn take_instr(&mut self, opening: &Opening, word: &Word, at: u32) -> Result<(), AsmFault>
        requires small { IsSmall word.now }
        requires room { HasRoom self.old }
        ensures { MatchResult result (λ _. TakesInstr opening.now word.now at self.old self.new)
            (RefusesInstr opening.now word.now at self.old) }
    {
        match self.instr_head(&opening.name, opening.at, at) {
            Ok(head) => {
                self.enter(head, opening.at);
                self.take_behind(head, opening.at, word, at)
            }
            Err(fault) => Err(fault),
        }
    }

    /// Whether a `:` makes the line's first word a label: that of arrays alone, with nothing behind it.
    fn is_array_label(&self, head: Head) -> bool
        ensures { IsTrue result ↔ IsArrayLabel head self.now }
    {
        matches!(head, Head::Array) && self.operands.is_empty()
    }

    /// A `:` behind a line's first word and some operands: the word of arrays is a label there, which begins the code.
    fn take_colon(&mut self, head: Head, last_at: u32, at: u32) -> Result<(), AsmFault>
        requires { length self.old.instrs.items ≤ instruction_limit }
        ensures { MatchResult result (λ _. TakesColon head self.old self.new)
            (RefusesColon head last_at at self.old) }
    {
        if !self.is_array_label(head) {
            return Err(AsmFault::Unexpected { at });
        }
        match Label::from_bytes(b"array") {
            Some(name) => self.take_label(&Opening { name, at: last_at }),
            None => unreachable!(),
        }
    }

    /// Takes a word that stands at this place.
    fn take(&mut self, word: &Word, at: u32) -> Result<(), AsmFault>
        requires small { IsSmall word.now }
        requires ready { IsReady self.old }
        ensures { MatchResult result (λ _. TakesIn self.old.phase word.now at self.old self.new)
            (RefusesIn self.old.phase word.now at self.old) }
    {
        match self.phase {
            Phase::Start => self.take_first(word, at),
            Phase::AfterName(opening) => self.take_behind_name(&opening, word, at),
            Phase::AfterLabel => self.take_behind_label(word, at),
            Phase::Behind(head, last_at) => match word {
                Word::Colon => self.take_colon(head, last_at, at),
                _ => self.take_behind(head, last_at, word, at),
            },
        }
    }

    /// Takes the text's end, which ends its last line.
    fn take_end(&mut self, at: u32) -> Result<(), AsmFault>
        requires { IsReady self.old }
        ensures { MatchResult result (λ _. TakesEnd at self.old self.new true) (RefusesEnd at self.old self.new) }
    {
        match self.take(&Word::Line, at) {
            Ok(()) => match self.section {
                Section::Arrays | Section::Code => Ok(()),
                _ => Err(AsmFault::Unexpected { at }),
            },
            Err(fault) => Err(fault),
        }
    }

    /// Takes a token.
    fn take_token(&mut self, text: &[u8], token: Token) -> Result<(), AsmFault>
        requires ready { IsReady self.old }
        requires short { length text.now < 2 ^ 31 }
        requires order { token.start ≤ token.end }
        requires within { token.end ≤ length text.now }
        requires spelled { IsSpelling token.kind (bytes_of text.now token) }
        ensures { MatchResult result (λ _. TakesToken text.now token self.old self.new)
            (RefusesToken text.now token self.old) }
    {
        match word_of(token.kind, &text[token.start as usize..token.end as usize]) {
            Some(word) => match self.take(&word, token.start) {
                Ok(()) => {
                    self.from = token.end;
                    Ok(())
                }
                Err(fault) => Err(fault),
            },
            None => Err(self.refused_at(token.start)),
        }
    }

    /// Takes what stands next; whether the text goes on behind it.
    pub fn turn(&mut self, text: &[u8]) -> Result<bool, AsmFault>
        requires reading { IsReading text.now self.old }
        requires short { length text.now < 2 ^ 31 }
        ensures { MatchResult result (λ more. Turned text.now self.old self.new more)
            (λ fault. IsAnswered text.now fault) }
    {
        match next(text, self.from) {
            Ok(token) => {
                if token.kind == TokenKind::End {
                    match self.take_end(token.start) {
                        Ok(()) => Ok(false),
                        Err(fault) => Err(fault),
                    }
                } else {
                    match self.take_token(text, token) {
                        Ok(()) => Ok(true),
                        Err(fault) => Err(fault),
                    }
                }
            }
            Err(fault) => Err(self.refused_at(unread_at(&fault))),
        }
    }
}
