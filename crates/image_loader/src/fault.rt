//! Why bytes are no image.

/// Why bytes are no image: the first thing that is wrong, from left to right (docs/FORMATS.md, "Images"). `at` counts
/// bytes from 0.
#[derive(Clone, Copy, Debug, PartialEq, Eq)]
pub enum ImageFault {
    /// The bytes end before the image does: `at` is their number.
    Truncated { at: u32 },
    /// A byte of the magic is none of `VNC1` or `VNC2`.
    BadMagic,
    /// The field of the table that stands here breaks a rule.
    BadTable { at: u32 },
    /// The eight bytes that stand here are no instruction of the image's version.
    BadInstr { at: u32 },
    /// The instruction that stands here goes to a place outside the code.
    BadTarget { at: u32 },
    /// There is no instruction, or the last isn't `halt`.
    NoHalt,
    /// More bytes stand from here on.
    Trailing { at: u32 },
    /// Memory ran out.
    Memory,
}
