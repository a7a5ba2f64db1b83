//! The types and definitions that all of Ritxundel speaks of.
//!
//! Element types and `wrap`, which brings a whole number into a type's range; the operations, `apply1` and `apply2`,
//! each the operation on whole numbers and then `wrap`; shapes, index maps and their sources, one index at a time;
//! names, arrays and lists of named arrays; the words of the element types, and these types as types of the compiler
//! (`KnownElem`); limits that several crates share. `specs/` has the definitions, and `laws` what holds of them for
//! every number, list and index. The rules of the language stand in docs/LANGUAGE.md, those of the operations and index
//! maps among them.
#![tactic(auto)]

mod apply;
mod array;
mod arrays;
mod elem;
mod entry;
mod known_elem;
mod laws;
mod limits;
mod mapping;
mod name;
mod ops;
mod shape;
mod wrapping;

pub use apply::{apply1, apply2};
pub use array::Array;
pub use arrays::Arrays;
pub use elem::Elem;
pub use entry::Entry;
pub use known_elem::{KnownElem, TypeI8, TypeI16, TypeI32, TypeU8, TypeU16, TypeU32};
pub use laws::{
    array_laws, mapping_laws, operation_laws, place_laws, reduction_laws, wrapping_laws,
};
pub use limits::{CELL_LIMIT, MEMORY_LIMIT};
pub use mapping::Mapping;
pub use name::{
    NAME_LIMIT, Name, is_digit, is_name_byte, is_name_start, is_name_token, is_reserved,
};
pub use ops::{Fold, Op1, Op2};
pub use shape::{ELEMENT_LIMIT, Shape};
pub use wrapping::{bits_of, number_of, wrap};
