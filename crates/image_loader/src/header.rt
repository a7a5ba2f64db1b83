//! The header of an image.

/// The numbers of the header: the bytes of scratchpad and memory, and how many arrays and instructions there are.
#[derive(Clone, Copy)]
pub(crate) struct HeaderFields {
    pub spad: u32,
    pub memory: u32,
    pub array_count: u32,
    pub instr_count: u32,
}
