//! The pipelined list of a program: while a tile is computed, the next one is read.
//!
//! `pipeline` answers a list of issues for each pass of a split, one after another. Each tile of a pass has three
//! blocks: the reads of its leaves' pieces, its vector instructions and its write. `specs/Blocks` says how a pass's
//! blocks make its list, `specs/PipeList` of what lists the blocks are composed, and `specs/Pipelined` what a list must
//! be to be called pipelined. `specs/Laws` says what holds of it: no pair of its works races, also where each channel
//! may overtake its commands, and done one issue after another it leaves every array. docs/COMPILER.md, "The pipelined
//! list", says it in words.
//!
//! A caller makes the list of a split, in a scratchpad that holds its need:
//!
//! ```text
//! if need(&split.passes) <= u64::from(spad) {
//!     let list = pipeline(alloc, &split, spad)?;
//! }
//! ```
#![tactic(auto)]

mod laws;
mod layout;
mod pipelining;
mod tile_blocks;

pub use laws::list_laws;
pub use pipelining::pipeline;
