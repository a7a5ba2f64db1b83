//! Why a text denotes no image.

use thiserror::Error;

/// Why a text denotes no image (docs/FORMATS.md, "Assembler texts"). Places are in bytes of the text, from 0, at which
/// the token or the byte at fault begins, or the text's end; that of `Table` is in the bytes that the image would have.
#[derive(Clone, Copy, Debug, PartialEq, Eq, Error)]
pub enum AsmFault {
    /// No text goes on there with this byte or token, or none ends there.
    #[error("unexpected at {at}")]
    Unexpected { at: u32 },
    /// The register, number, mode or `acc` there is out of its range, or an instruction too many begins there.
    #[error("range at {at}")]
    FieldRange { at: u32 },
    /// The label there comes again.
    #[error("label twice at {at}")]
    LabelTwice { at: u32 },
    /// The label or number there names no instruction.
    #[error("label unknown at {at}")]
    UnknownLabel { at: u32 },
    /// The field of the table that would stand there, in the image's bytes, breaks a rule.
    #[error("table at {at}")]
    Table { at: u32 },
    /// There is no instruction, or the last isn't `halt`.
    #[error("no halt")]
    NoHalt,
    /// Out of memory.
    #[error("out of memory")]
    Memory,
}
