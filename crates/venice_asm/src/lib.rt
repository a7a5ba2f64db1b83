//! Assembler texts: an image as lines that people write and read (docs/FORMATS.md, "Assembler texts").
//!
//! ```text
//! let image = assemble(alloc, text)?;         // the image that the text denotes, or its first fault
//! let text = disassemble(alloc, &image)?;     // the image's canonical text
//! ```
//!
//! - `assemble`: `DenotesImage` of the text and the image, or the answer of the text's first fault (`IsAnswered`).
//! - `disassemble`: the text is the image's canonical one (`canonical`), and denotes it.
//! - `canonical_texts`, `one_answer`, `one_image`: what the definitions settle. An image's canonical text denotes it; a
//!   text has one fault first, and denotes one image at most, none where it has a fault.
#![tactic(auto)]

mod assembling;
mod fault;
mod fitting;
mod head;
mod label;
mod labels;
mod laws;
mod operand;
mod output;
mod phase;
mod reading;
mod spelling;
mod statement;
mod word;
mod words;

pub use assembling::assemble;
pub use fault::AsmFault;
pub use laws::{canonical_texts, one_answer, one_image};
pub use output::disassemble;
