//! The forms of instructions: what each of their eight bytes holds.
ghost use Rattle.std.specs.Prelude.{◌≡◌, ◌≤◌, ◌==◌, slice_get, if◌then◌else◌};
ghost use Rattle.venice_isa.specs.Form.{row, row_at, has_code, has_row, part_of, operations, element_types, allows, allows_mode_byte, allows_types_byte};
ghost use Rattle.venice_isa.specs.Encoding.{is_cast};
ghost use Rattle.std.specs.Option.{is_some};
ghost use Rattle.venice_isa.specs.declared.form.Part.TheVariants.{Operation};

use crate::instr::{PARAMETER_COUNT, REGISTER_COUNT, Version};
use crate::op::VecOp;
use ven_base::Elem;

/// What a byte of an instruction holds, behind its code.
#[derive(Clone, Copy)]
pub(crate) enum Part {
    Unused,
    Register,
    Parameter,
    Operation,
    Mode,
    Types,
    Direction,
    Number,
}

/// A row of the instruction table: the version that the instruction came with, and what its bytes hold.
#[derive(Clone, Copy)]
pub(crate) struct Form {
    pub since: Version,
    pub byte1: Part,
    pub byte2: Part,
    pub byte3: Part,
    pub number: Part,
}

impl Form {
    /// The row of a code; a row without fields where there is none.
    pub fn of(code: u8) -> Form
        ensures { result ≡ row_at code }
    {
        use Part::{Direction, Mode, Number, Operation, Parameter, Register, Types, Unused};
        use Version::{One, Two};
        match code {
            0 | 15 => Form::new(One, Unused, Unused, Unused, Unused),
            1 => Form::new(One, Register, Unused, Unused, Number),
            2 => Form::new(One, Register, Register, Unused, Number),
            3..=6 => Form::new(One, Register, Register, Register, Unused),
            7 => Form::new(One, Unused, Register, Unused, Number),
            8 => Form::new(One, Unused, Register, Register, Number),
            9 => Form::new(One, Unused, Unused, Unused, Number),
            10 => Form::new(One, Parameter, Register, Unused, Unused),
            11 => Form::new(One, Operation, Mode, Types, Unused),
            12 => Form::new(One, Direction, Unused, Unused, Unused),
            13 | 14 => Form::new(One, Unused, Register, Unused, Unused),
            16 | 17 => Form::new(Two, Unused, Register, Unused, Unused),
            _ => Form::new(Two, Unused, Unused, Unused, Unused),
        }
    }

    fn new(since: Version, byte1: Part, byte2: Part, byte3: Part, number: Part) -> Form
        ensures { result ≡ row since byte1 byte2 byte3 number }
    {
        Form {
            since,
            byte1,
            byte2,
            byte3,
            number,
        }
    }

    /// Whether the version has the row.
    pub fn is_in(self, version: Version) -> bool
        ensures { result ≡ has_row version self }
    {
        version == Version::Two || self.since == Version::One
    }

    /// What byte `k` holds, from 1 to 7.
    pub fn part(self, k: u8) -> Part
        requires { 1 ≤ k }
        ensures { result ≡ part_of self k }
    {
        match k {
            1 => self.byte1,
            2 => self.byte2,
            3 => self.byte3,
            _ => self.number,
        }
    }
}

/// Whether the version has an instruction with this code.
pub(crate) fn has_code(version: Version, code: u8) -> bool
    ensures { result ≡ has_code version code }
{
    code < 18 && Form::of(code).is_in(version)
}

/// Whether a byte may stand where it does, in an instruction whose byte 1 is `operation`.
pub(crate) fn allows(version: Version, part: Part, operation: u8, byte: u8) -> bool
    ensures { result ≡ allows version part operation byte }
{
    match part {
        Part::Unused => byte == 0,
        Part::Register => byte < REGISTER_COUNT,
        Part::Parameter => byte < PARAMETER_COUNT,
        Part::Direction => byte < 2,
        Part::Operation => has_operation(version, byte),
        Part::Mode => allows_mode(operation_of(operation), byte),
        Part::Types => allows_types(operation_of(operation), byte),
        Part::Number => true,
    }
}

fn has_operation(version: Version, number: u8) -> bool
    ensures { result ≡ allows version Operation number number }
{
    match operation_of(number) {
        Some(op) => op.is_in(version),
        None => false,
    }
}

fn allows_mode(op: Option<VecOp>, byte: u8) -> bool
    ensures { result ≡ allows_mode_byte op byte }
{
    match op {
        Some(op) => byte < 8 && op.allows_mode(byte / 2 % 2 == 1, byte / 4 == 1),
        None => false,
    }
}

fn allows_types(op: Option<VecOp>, byte: u8) -> bool
    ensures { result ≡ allows_types_byte op byte }
{
    match op {
        Some(op) => type_of(byte % 16).is_some() && allows_high_type(op, byte / 16),
        None => false,
    }
}

fn allows_high_type(op: VecOp, number: u8) -> bool
    ensures { result ≡ (if is_cast op then is_some (slice_get element_types number) else number == 0) }
{
    if is_cast(op) {
        type_of(number).is_some()
    } else {
        number == 0
    }
}

/// Whether the operation's operand has a type of its own.
pub(crate) fn is_cast(op: VecOp) -> bool
    ensures { result ≡ is_cast op }
{
    matches!(op, VecOp::Cast)
}

/// The operation with this number.
pub(crate) fn operation_of(number: u8) -> Option<VecOp>
    ensures { result ≡ slice_get operations number }
{
    match number {
        0 => Some(VecOp::Mov),
        1 => Some(VecOp::Cast),
        2 => Some(VecOp::Add),
        3 => Some(VecOp::Sub),
        4 => Some(VecOp::Mul),
        5 => Some(VecOp::And),
        6 => Some(VecOp::Or),
        7 => Some(VecOp::Xor),
        8 => Some(VecOp::Shl),
        9 => Some(VecOp::Shr),
        10 => Some(VecOp::Min),
        11 => Some(VecOp::Max),
        12 => Some(VecOp::Abs),
        13 => Some(VecOp::Eq),
        14 => Some(VecOp::Ne),
        15 => Some(VecOp::Lt),
        16 => Some(VecOp::Le),
        17 => Some(VecOp::Cmov),
        18 => Some(VecOp::Sadd),
        19 => Some(VecOp::Ssub),
        _ => None,
    }
}

/// The element type with this number.
pub(crate) fn type_of(number: u8) -> Option<Elem>
    ensures { result ≡ slice_get element_types number }
{
    match number {
        0 => Some(Elem::U8),
        1 => Some(Elem::I8),
        2 => Some(Elem::U16),
        3 => Some(Elem::I16),
        4 => Some(Elem::U32),
        5 => Some(Elem::I32),
        _ => None,
    }
}
