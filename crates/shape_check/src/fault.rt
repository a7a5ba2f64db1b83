//! Why a program isn't right.

ghost use Rattle.std.specs.Prelude.{◌≡◌};
ghost use Rattle.shape_check.specs.declared.fault.CheckFault.TheVariants.{Memory};

use std::alloc::AllocError;

/// Why a program isn't right (docs/LANGUAGE.md, "Checking"). `at` is the place in the text, in bytes from 0, of the
/// name, node, number or `[` at fault.
#[derive(Clone, Copy)]
pub enum CheckFault {
    /// An earlier statement declares the name.
    Twice { at: u32 },
    /// No earlier statement declares the name.
    Unknown { at: u32 },
    /// Operands of the node have two types.
    TypeMismatch { at: u32 },
    /// Operands of the node have two shapes.
    ShapeMismatch { at: u32 },
    /// Nothing gives the literal a type and a shape.
    LiteralAlone { at: u32 },
    /// The literal isn't a number of the type of what stands beside it.
    LiteralRange { at: u32 },
    /// The input has no rows, no columns, or more than 1,048,576 elements.
    BadShape { at: u32 },
    /// The section has a count or a step of 0, or leaves its operand.
    BadSection { at: u32 },
    /// The stretch has a 0, or more than 1,048,576 elements.
    BadStretch { at: u32 },
    /// No statement is an output.
    NoOutput,
    /// The work is above the limit: `need` elements.
    TooMuchWork { need: u64 },
    /// Out of memory.
    Memory,
}

impl From<AllocError> for CheckFault {
    ghost from_gives = { λ _ fault. fault ≡ Memory };

    fn from(_: AllocError) -> CheckFault {
        CheckFault::Memory
    }
}
