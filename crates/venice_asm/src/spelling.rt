//! Names that stand for something, and what they stand for. Each is spelled in one place, for reading and for writing.

ghost use Rattle.std.specs.Prelude.{◌≡◌, List, ℕ};
ghost use Rattle.venice_asm.specs.Spelling.{keyword_among, type_word, operation_word};

use ven_base::Elem;
use venice_isa::VecOp;

/// What a name can stand for.
pub trait Keyword: Copy {
    ghost spelling: { Self → List ℕ };

    /// The name.
    fn word(self) -> &'static [u8]
        ensures { result.now ≡ spelling self };
}

/// The first of the items that the name stands for.
pub fn keyword_among<T: Keyword>(mut items: &[T], bytes: &[u8]) -> Option<T>
    ensures { result ≡ keyword_among T.spelling items.entry.now bytes.now }
{
    while let [item, rest @ ..] = items {
        if bytes == item.word() {
            return Some(*item);
        }
        items = rest;
    }
    None
}

/// The element types in the order of their numbers.
pub const TYPES: [Elem; 6] = [
    Elem::U8,
    Elem::I8,
    Elem::U16,
    Elem::I16,
    Elem::U32,
    Elem::I32,
];

/// The operations in the order of their numbers.
pub const OPERATIONS: [VecOp; 20] = [
    VecOp::Mov,
    VecOp::Cast,
    VecOp::Add,
    VecOp::Sub,
    VecOp::Mul,
    VecOp::And,
    VecOp::Or,
    VecOp::Xor,
    VecOp::Shl,
    VecOp::Shr,
    VecOp::Min,
    VecOp::Max,
    VecOp::Abs,
    VecOp::Eq,
    VecOp::Ne,
    VecOp::Lt,
    VecOp::Le,
    VecOp::Cmov,
    VecOp::Sadd,
    VecOp::Ssub,
];

impl Keyword for Elem {
    ghost spelling = { type_word };

    fn word(self) -> &'static [u8] {
        match self {
            Elem::U8 => b"u8",
            Elem::I8 => b"i8",
            Elem::U16 => b"u16",
            Elem::I16 => b"i16",
            Elem::U32 => b"u32",
            Elem::I32 => b"i32",
        }
    }
}

impl Keyword for VecOp {
    ghost spelling = { operation_word };

    fn word(self) -> &'static [u8] {
        match self {
            VecOp::Mov => b"mov",
            VecOp::Cast => b"cast",
            VecOp::Add => b"add",
            VecOp::Sub => b"sub",
            VecOp::Mul => b"mul",
            VecOp::And => b"and",
            VecOp::Or => b"or",
            VecOp::Xor => b"xor",
            VecOp::Shl => b"shl",
            VecOp::Shr => b"shr",
            VecOp::Min => b"min",
            VecOp::Max => b"max",
            VecOp::Abs => b"abs",
            VecOp::Eq => b"eq",
            VecOp::Ne => b"ne",
            VecOp::Lt => b"lt",
            VecOp::Le => b"le",
            VecOp::Cmov => b"cmov",
            VecOp::Sadd => b"sadd",
            VecOp::Ssub => b"ssub",
        }
    }
}
