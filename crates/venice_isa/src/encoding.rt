//! Instructions as bytes (docs/MACHINE.md, "Instructions").
ghost use Rattle.std.specs.Prelude.{◌≡◌, IsTrue, slice_get, slice_index, MatchOption};
ghost use Rattle.std.specs.Option.{IsSomeAnd};
ghost use Rattle.venice_isa.specs.Instr.{HasRanges};
ghost use Rattle.venice_isa.specs.Form.{has_code, operations, allows_mode_byte, allows_types_byte, IsAllowed, BreaksFirst};
ghost use Rattle.venice_isa.specs.Decoding.{IsDecoding};
ghost use Rattle.venice_isa.specs.Encoding.{encoded, bit, fields, fields_of, bytes_of_fields, operation_number, type_number, high_type, HasBytes};
ghost use Rattle.venice_isa.specs.declared.instr.Version.{Version};
ghost use Rattle.venice_isa.specs.declared.instr.Version.TheVariants.{One};
ghost use Rattle.venice_isa.specs.declared.instr.Instr.TheVariants.{Vec};

use crate::form::{Form, allows, has_code, is_cast, operation_of, type_of};
use crate::instr::{Instr, Version};
use crate::kind::VecKind;
use crate::op::VecOp;
use ven_base::Elem;

/// Why eight bytes are no instruction.
#[derive(Clone, Copy)]
pub enum InstrFault {
    /// No instruction of the version has this code.
    BadOpcode,
    /// This byte, from 1 to 7, is the first that may not stand where it does.
    BadField { byte: u8 },
}

/// The fields of an instruction: its code, its bytes 1 to 3, and the number in bytes 4 to 7.
#[derive(Clone, Copy)]
pub(crate) struct Fields {
    pub code: u8,
    pub byte1: u8,
    pub byte2: u8,
    pub byte3: u8,
    pub number: u32,
}

/// The instruction's one spelling.
#[tactic(auto, unfolding(crate::specs::Encoding::encoded))]
pub fn encode(instr: &Instr) -> [u8; 8]
    ensures { result ≡ encoded instr.now }
{
    Fields::of(*instr).bytes()
}

/// The instruction of version one that these bytes spell, or the first byte that is none of an instruction's. As `decode_in`
/// with `Version::One`.
pub fn decode(bytes: [u8; 8]) -> Result<Instr, InstrFault>
    ensures { IsDecoding One bytes result }
{
    decode_in(Version::One, bytes)
}

/// The instruction of the version that these bytes spell: `Ok` exactly with the one whose spelling they are. `BadOpcode` exactly
/// where the version has no instruction with the first byte as its code, and `BadField` exactly at the first later byte that the
/// instruction table doesn't allow there (docs/MACHINE.md, "Instructions").
pub fn decode_in(version: Version, bytes: [u8; 8]) -> Result<Instr, InstrFault>
    ensures { IsDecoding version bytes result }
{
    if !has_code(version, bytes[0]) {
        return Err(InstrFault::BadOpcode);
    }
    match first_break(version, &bytes) {
        Some(byte) => Err(InstrFault::BadField { byte }),
        None => Ok(Fields::from_bytes(&bytes).instr()),
    }
}

/// The first byte, from 1 on, that the table doesn't allow.
fn first_break(version: Version, bytes: &[u8; 8]) -> Option<u8>
    requires { IsTrue (has_code version (slice_index bytes.now 0)) }
    ensures { MatchOption result (IsAllowed version bytes.now) (λ k. BreaksFirst version bytes.now k) }
{
    let form = Form::of(bytes[0]);
    for k in 1..8 {
        if !allows(version, form.part(k), bytes[1], bytes[k as usize]) {
            return Some(k);
        }
    }
    None
}

impl Fields {
    /// The fields of an instruction.
    fn of(instr: Instr) -> Fields
        ensures { result ≡ fields_of instr }
    {
        match instr {
            Instr::Halt => Fields::new(0, 0, 0, 0, 0),
            Instr::Li { d, n } => Fields::new(1, d, 0, 0, n),
            Instr::Addi { d, a, n } => Fields::new(2, d, a, 0, n),
            Instr::Add { d, a, b } => Fields::new(3, d, a, b, 0),
            Instr::Sub { d, a, b } => Fields::new(4, d, a, b, 0),
            Instr::Mul { d, a, b } => Fields::new(5, d, a, b, 0),
            Instr::Div { d, a, b } => Fields::new(6, d, a, b, 0),
            Instr::Bnz { a, to } => Fields::new(7, 0, a, 0, to),
            Instr::Blt { a, b, to } => Fields::new(8, 0, a, b, to),
            Instr::Jmp { to } => Fields::new(9, 0, 0, 0, to),
            Instr::Set { field, a } => Fields::new(10, field, a, 0, 0),
            Instr::Vec(kind) => Fields::of_vector(kind),
            Instr::Dma { write } => Fields::new(12, bit(write), 0, 0, 0),
            Instr::Rwait { a } => Fields::new(13, 0, a, 0, 0),
            Instr::Wwait { a } => Fields::new(14, 0, a, 0, 0),
            Instr::Vwait => Fields::new(15, 0, 0, 0, 0),
            Instr::Tag { a } => Fields::new(16, 0, a, 0, 0),
            Instr::Twait { a } => Fields::new(17, 0, a, 0, 0),
        }
    }

    fn of_vector(kind: VecKind) -> Fields
        ensures { result ≡ fields_of (Vec kind) }
    {
        let mode = bit(kind.a_scalar) + 2 * bit(kind.b_scalar) + 4 * bit(kind.acc);
        let high = high_type(kind.op, kind.from);
        Fields::new(
            11,
            operation_number(kind.op),
            mode,
            type_number(kind.elem) + 16 * high,
            0,
        )
    }

    fn new(code: u8, byte1: u8, byte2: u8, byte3: u8, number: u32) -> Fields
        ensures { result ≡ fields code byte1 byte2 byte3 number }
    {
        Fields {
            code,
            byte1,
            byte2,
            byte3,
            number,
        }
    }

    /// The eight bytes.
    fn bytes(self) -> [u8; 8]
        ensures { result ≡ bytes_of_fields self }
    {
        let [n0, n1, n2, n3] = self.number.to_le_bytes();
        [
            self.code, self.byte1, self.byte2, self.byte3, n0, n1, n2, n3,
        ]
    }

    /// The fields in eight bytes.
    fn from_bytes(bytes: &[u8; 8]) -> Fields
        ensures { bytes_of_fields result ≡ bytes.now }
    {
        let number = u32::from_le_bytes([bytes[4], bytes[5], bytes[6], bytes[7]]);
        Fields::new(bytes[0], bytes[1], bytes[2], bytes[3], number)
    }

    /// The instruction of fields that the table allows.
    fn instr(self) -> Instr
        requires { (version : Version) × IsAllowed version (bytes_of_fields self) }
        ensures ranges { HasRanges result }
        ensures value { fields_of result ≡ self }
    {
        let (d, a, b, n) = (self.byte1, self.byte2, self.byte3, self.number);
        match self.code {
            1 => Instr::Li { d, n },
            2 => Instr::Addi { d, a, n },
            3 => Instr::Add { d, a, b },
            4 => Instr::Sub { d, a, b },
            5 => Instr::Mul { d, a, b },
            6 => Instr::Div { d, a, b },
            7 => Instr::Bnz { a, to: n },
            8 => Instr::Blt { a, b, to: n },
            9 => Instr::Jmp { to: n },
            10 => Instr::Set { field: d, a },
            11 => Instr::Vec(vector_kind(d, a, b)),
            12 => Instr::Dma { write: d == 1 },
            13 => Instr::Rwait { a },
            14 => Instr::Wwait { a },
            15 => Instr::Vwait,
            16 => Instr::Tag { a },
            17 => Instr::Twait { a },
            _ => Instr::Halt,
        }
    }
}

/// The number of the type of a cast's operand.
fn high_type(op: VecOp, from: Elem) -> u8
    ensures { result ≡ high_type op from }
{
    if is_cast(op) { type_number(from) } else { 0 }
}

/// The number of a bit.
fn bit(is_set: bool) -> u8
    ensures { result ≡ bit is_set }
{
    u8::from(is_set)
}

/// The kind of a vector instruction with these bytes 1 to 3, which the table allows.
fn vector_kind(operation: u8, mode: u8, types: u8) -> VecKind
    requires mode { IsTrue (allows_mode_byte (slice_get operations operation) mode) }
    requires types { IsTrue (allows_types_byte (slice_get operations operation) types) }
    ensures { HasBytes operation mode types result }
{
    match kind_of(operation, mode, types) {
        Some(kind) => kind,
        None => unreachable!(),
    }
}

fn kind_of(operation: u8, mode: u8, types: u8) -> Option<VecKind>
    requires mode { IsTrue (allows_mode_byte (slice_get operations operation) mode) }
    requires types { IsTrue (allows_types_byte (slice_get operations operation) types) }
    ensures { IsSomeAnd result (HasBytes operation mode types) }
{
    let op = operation_of(operation)?;
    let elem = type_of(types % 16)?;
    let from = if is_cast(op) {
        type_of(types / 16)?
    } else {
        elem
    };
    VecKind::new(
        op,
        elem,
        from,
        mode % 2 == 1,
        mode / 2 % 2 == 1,
        mode / 4 == 1,
    )
}

fn operation_number(op: VecOp) -> u8
    ensures { result ≡ operation_number op }
{
    op as u8
}

fn type_number(elem: Elem) -> u8
    ensures { result ≡ type_number elem }
{
    elem as u8
}
