//! Array files, read and written (docs/FORMATS.md, "The array file").
//!
//! ```text
//! let arrays = read_arrays(alloc, text)?;     // the arrays that the text denotes, or its first fault
//! fit(&arrays, &table)?;                      // nothing, or the first misfit
//! let text = write_arrays(alloc, &arrays)?;   // the arrays' text
//! ```
//!
//! - `read_arrays`: `DenotesArrays` of the text and the arrays, or the answer of the text's first fault (`IsAnswered`).
//! - `fit`: each input of the table is there with its type and shape, and no other array (`Fits`), or the answer of the
//!   first misfit (`IsUnfit`).
//! - `write_arrays`: the text is that of the arrays (`arrays_text`).
#![tactic(auto)]

mod fault;
mod fitting;
mod laws;
mod output;
mod phase;
mod reading;
mod tokens;
mod word;
mod words;

pub use fault::ArrayFault;
pub use fitting::{FitFault, fit};
pub use laws::{large_numbers, one_reading};
pub use output::write_arrays;
pub use reading::read_arrays;
