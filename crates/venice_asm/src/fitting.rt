//! Which operand a word is, in a place of a line.

ghost use Rattle.std.specs.Prelude.{◌≡◌, ◌≤◌, ◌∷◌, MatchResult, length};
ghost use Rattle.std.specs.List.{list_all};
ghost use Rattle.ven_base.specs.Name.{is_digit as is_decimal_digit};
ghost use Rattle.venice_asm.specs.Words.{too_large};
ghost use Rattle.venice_asm.specs.Lines.{is_reserved, in_range};
ghost use Rattle.venice_asm.specs.declared.head.Kind.TheVariants as kinds;
ghost use Rattle.venice_asm.specs.Fitting.{parameter_named, one_named, scalar_named, is_plain_decimal, IsRegisterOf, IsNoRegister, operation_named, one_letter, two_letters, HasKeywords, name_operand, number_operand, IsRanged, IsOperandOf, IsMisfit, IsSmall};

use crate::head::Kind;
use crate::label::Label;
use crate::operand::{Operand, PARAMETERS, direction_word, letter, parameter_word, transfer_word};
use crate::spelling::{OPERATIONS, TYPES, keyword_among};
use crate::word::Word;
use crate::words::capped_number;
use ven_base::{is_digit, is_reserved};
use venice_isa::{PARAMETER_COUNT, REGISTER_COUNT, VecOp, Version};

/// Why a word is no operand: none such can stand there, or it is out of its range.
#[derive(Clone, Copy)]
pub enum Misfit {
    /// None such can stand there.
    Unexpected,
    /// It is out of its range.
    Range,
}

/// The number of the parameter with this word.
fn parameter_named(bytes: &[u8]) -> Option<u8>
    ensures { result ≡ parameter_named bytes.now }
{
    for k in 0..PARAMETER_COUNT {
        if bytes == parameter_word(k) {
            return Some(k);
        }
    }
    None
}

/// Which of two words these bytes are.
fn one_named(bytes: &[u8], first: &[u8], second: &[u8]) -> Option<bool>
    ensures { result ≡ one_named bytes.now first.now second.now }
{
    if bytes == first {
        Some(false)
    } else if bytes == second {
        Some(true)
    } else {
        None
    }
}

/// Whether the letter is that of a scalar, or of a vector.
fn scalar_named(byte: u8) -> Option<bool>
    ensures { result ≡ scalar_named byte }
{
    if byte == letter(false) {
        Some(false)
    } else if byte == letter(true) {
        Some(true)
    } else {
        None
    }
}

/// Whether the bytes are decimal digits, without a zero before others.
fn is_plain_decimal(bytes: &[u8]) -> bool
    ensures { result ≡ is_plain_decimal bytes.now }
{
    match bytes {
        [] => false,
        [first, rest @ ..] => are_digits(bytes) && (*first != b'0' || rest.is_empty()),
    }
}

fn are_digits(bytes: &[u8]) -> bool
    ensures { result ≡ list_all is_decimal_digit bytes.now }
{
    bytes.iter().all(|byte| is_digit(*byte))
}

/// The register whose word has these bytes behind its `r`.
fn register_behind(digits: &[u8]) -> Result<u8, Misfit>
    requires { length digits.now ≤ 30 }
    ensures { MatchResult result (IsRegisterOf (114 ∷ digits.now)) (IsNoRegister (114 ∷ digits.now)) }
{
    if !is_plain_decimal(digits) {
        return Err(Misfit::Unexpected);
    }
    let number = capped_number(digits);
    if number < u64::from(REGISTER_COUNT) {
        Ok(number as u8)
    } else {
        Err(Misfit::Range)
    }
}

/// The register with this word.
fn register_named(bytes: &[u8]) -> Result<u8, Misfit>
    requires { length bytes.now ≤ 31 }
    ensures { MatchResult result (IsRegisterOf bytes.now) (IsNoRegister bytes.now) }
{
    match bytes {
        [b'r', digits @ ..] => register_behind(digits),
        _ => Err(Misfit::Unexpected),
    }
}

/// The operation with this word, in the version.
fn operation_named(version: Version, bytes: &[u8]) -> Option<VecOp>
    ensures { result ≡ operation_named version bytes.now }
{
    match keyword_among(&OPERATIONS, bytes) {
        Some(op) if op.is_in(version) => Some(op),
        _ => None,
    }
}

/// The mode of one letter.
fn one_letter(bytes: &[u8]) -> Option<Operand>
    ensures { result ≡ one_letter bytes.now }
{
    match bytes {
        [a] => scalar_named(*a).map(Operand::ModeA),
        _ => None,
    }
}

/// The mode of two letters.
fn two_letters(bytes: &[u8]) -> Option<Operand>
    ensures { result ≡ two_letters bytes.now }
{
    let [a, b] = bytes else {
        return None;
    };
    match (scalar_named(*a), scalar_named(*b)) {
        (Some(a_scalar), Some(b_scalar)) => Some(Operand::ModeAB(a_scalar, b_scalar)),
        _ => None,
    }
}

/// The operand of this kind whose word the name is, if the kind has words of its own.
fn keyword_operand(version: Version, kind: Kind, bytes: &[u8]) -> Option<Operand>
    requires { HasKeywords kind }
    ensures { result ≡ name_operand version kind bytes.now }
{
    match kind {
        Kind::Direction => one_named(bytes, direction_word(false), direction_word(true)).map(
            Operand::Output,
        ),
        Kind::Transfer => one_named(bytes, transfer_word(false), transfer_word(true)).map(
            Operand::Write,
        ),
        Kind::Parameter => parameter_named(bytes).map(Operand::Parameter),
        Kind::Operation => operation_named(version, bytes).map(Operand::Operation),
        Kind::Elem => keyword_among(&TYPES, bytes).map(Operand::Elem),
        Kind::ModeA => one_letter(bytes),
        Kind::ModeAB | Kind::ModeFlags => two_letters(bytes),
        Kind::Sum | Kind::NoSum if bytes == b"acc".as_slice() => Some(Operand::Sum),
        _ => None,
    }
}

/// Whether the operand is in its range, where its kind has no range of its own.
fn is_in_own_range(operand: &Operand) -> bool
    ensures { result ≡ in_range kinds.Number operand.now }
{
    match operand {
        Operand::Register(number) => *number < REGISTER_COUNT,
        Operand::Number(n) | Operand::Rows(n) | Operand::Columns(n) => {
            // What is known of a number shows once it is read.
            let _known = *n;
            true
        }
        _ => true,
    }
}

fn is_version(operand: &Operand) -> bool
    ensures { result ≡ in_range kinds.Version operand.now }
{
    match operand {
        Operand::Number(n) => *n == 2,
        _ => is_in_own_range(operand),
    }
}

fn is_mode_with_flags(operand: &Operand) -> bool
    ensures { result ≡ in_range kinds.ModeFlags operand.now }
{
    match operand {
        Operand::ModeAB(_, b_scalar) => !*b_scalar,
        _ => is_in_own_range(operand),
    }
}

/// Whether an operand of this kind is in its range.
fn is_in_range(kind: Kind, operand: &Operand) -> bool
    ensures { result ≡ in_range kind operand.now }
{
    match kind {
        Kind::Version => is_version(operand),
        Kind::ModeFlags => is_mode_with_flags(operand),
        Kind::NoSum => false,
        _ => is_in_own_range(operand),
    }
}

/// The operand, where there is one and it is in its range.
fn check_range(kind: Kind, operand: Option<Operand>) -> Result<Operand, Misfit>
    ensures { IsRanged kind operand result }
{
    match operand {
        Some(operand) if is_in_range(kind, &operand) => Ok(operand),
        Some(_) => Err(Misfit::Range),
        None => Err(Misfit::Unexpected),
    }
}

/// Whether the array language keeps the word for itself.
fn is_reserved_word(bytes: &[u8]) -> bool
    ensures { result ≡ is_reserved bytes.now }
{
    is_reserved(bytes)
}

/// The operand of this kind that a name is.
fn read_name(version: Version, kind: Kind, label: &Label) -> Result<Operand, Misfit>
    ensures { MatchResult result (IsOperandOf version kind (Word.Name label.now))
        (IsMisfit version kind (Word.Name label.now)) }
{
    match kind {
        Kind::Array if is_reserved_word(label.bytes()) => Err(Misfit::Unexpected),
        Kind::Array | Kind::Target => Ok(Operand::Name(*label)),
        Kind::Register => match register_named(label.bytes()) {
            Ok(number) => Ok(Operand::Register(number)),
            Err(misfit) => Err(misfit),
        },
        _ => check_range(kind, keyword_operand(version, kind, label.bytes())),
    }
}

/// The operand of this kind with this number.
fn number_operand(kind: Kind, n: u32) -> Option<Operand>
    ensures { result ≡ number_operand kind n }
{
    match kind {
        Kind::Version | Kind::Number | Kind::Target => Some(Operand::Number(n)),
        Kind::Rows => Some(Operand::Rows(n)),
        Kind::Columns => Some(Operand::Columns(n)),
        _ => None,
    }
}

/// The operand of this kind that a number is.
fn read_number(kind: Kind, n: u64) -> Result<Operand, Misfit>
    requires { n ≤ too_large }
    ensures { (version : Version) → MatchResult result (IsOperandOf version kind (Word.Number n))
        (IsMisfit version kind (Word.Number n)) }
{
    match u32::try_from(n) {
        Ok(n) => check_range(kind, number_operand(kind, n)),
        Err(_) => match number_operand(kind, u32::MAX) {
            Some(_) => Err(Misfit::Range),
            None => Err(Misfit::Unexpected),
        },
    }
}

/// The operand of this kind that a word is, in a text of the version; else why it is none.
pub fn read_operand(version: Version, kind: Kind, word: &Word) -> Result<Operand, Misfit>
    requires { IsSmall word.now }
    ensures { MatchResult result (IsOperandOf version kind word.now) (IsMisfit version kind word.now) }
{
    match (kind, word) {
        (_, Word::Name(label)) => read_name(version, kind, label),
        (_, Word::Number(n)) => read_number(kind, *n),
        (Kind::Open, Word::Open) => Ok(Operand::Open),
        (Kind::Comma, Word::Comma) => Ok(Operand::Comma),
        (Kind::Close, Word::Close) => Ok(Operand::Close),
        _ => Err(Misfit::Unexpected),
    }
}
