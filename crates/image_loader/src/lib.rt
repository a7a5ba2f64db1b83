//! Images: a program for the machine, as a value and as bytes.
//!
//! `Image` has how many bytes of scratchpad and memory a program wants, the arrays in memory, and the code.
//! `write_image` gives its one spelling, and `read_image` reads that back; bytes that are no image have one first
//! fault, from left to right. `check_entry` has the rules of an array's entry, for those who make images of something
//! else.
//!
//! The definitions in `specs/` say what an image is: `Table` has the fields of its table with their places and rules,
//! `Image` the spelling, `Reading` what stands at the places of bytes, `Faults` what may be wrong with them and which
//! fault is the first, and `Loading` what `read_image` promises.
//!
//! A caller reads an image, and runs its code or writes it again:
//!
//! ```text
//! let image = read_image(alloc, bytes)?;
//! let list = issues(alloc, &image.code, budget)?;
//! let again = write_image(alloc, &image)?;
//! ```
#![tactic(auto)]

mod fault;
mod header;
mod image;
mod reading;
mod table;
mod writing;

pub use fault::ImageFault;
pub use image::Image;
pub use reading::read_image;
pub use table::{ARRAY_LIMIT, EntryFields, EntryPart, FILE_LIMIT, check_entry};
pub use writing::write_image;
