//! The top call: everything that the program `venice` does, from the words of the command line to its status.
//!
//! ```text
//! let mut files = MemFiles::new(alloc, Vec::new(alloc));
//! let mut out = MemSink::new(alloc, Vec::new(alloc));
//! let status = venice(alloc, &words, &mut files, &mut out);
//! ```
//!
//! `venice` has one clause, `promise`, which is the record `Promise` (specs/Promise.antt):
//!
//! - `outcome` is what the call means to say: an answer, why there is none, or that its save failed.
//! - `comes`: the outcome is what the words come to by the files' content (`answer_to` in specs/Commands.antt): the
//!   answer of the command that they spell, or the first refusal in the command's order of stages. The one save comes
//!   after all stages and before anything is put; else no file has changed. That memory ran out may stand in place of
//!   each.
//! - `loads`: exactly one load has failed where `error: file` is meant, else none. `saves`: exactly one save has failed
//!   where `error: save` is meant, else none.
//! - `says`: the sink took the answer's lines, or the line of the refusal or fault, each line as one piece, and the
//!   status is its own; or a put failed, a prefix of the lines was taken up to somewhere in one line, nothing was put
//!   after it, and the status is 9; or memory ran out between two lines, with status 10. Where there is no memory for a
//!   line, the line of memory that ran out is put in its place.
//!
//! The commands are `run`, `build`, `eval`, `check`, `explain`, `exec`, `asm` and `disasm`. Each has its stages, in the
//! order of its refusals, as a definition in the file of its name in `specs`; `Programs`, `Plan`, `Inputs`, `Compiled`,
//! `Images` and `Grants` there have the stages that commands share. `run`, `build` and `asm` save.
//!
//! What `run` and `build` save is the image of the program: it is `Good` for it (good_images, specs/Good.antt), and the
//! one that the program and SPAD have. `run` reads the saved bytes back and runs what it has read; its text is what the
//! program means, and the steps and cycles of that image's run on the inputs, lanes, scratchpad and grants.
//!
//! Commands only read (`OnlyLoads`) and answer an `Answer`: a save, a text, and the refusal that the text ends in,
//! where it ends in one. docs/ARCHITECTURE.md says how a command is added.
//!
//! Laws, each a function: `one_answer` (where the files show one thing a name, words have one answer or refusal, apart
//! from faults), `lines_are_the_text` (the lines that are put are the text), `promise_is_complete` (`complete`: where
//! nothing may fail, no fault is counted, and the words are answered or refused in full, or memory ran out; `never`:
//! status 15 is not the top call's).
//!
//! Beside it: `read_words` gives the command that the words spell, and none exactly where they spell none.
//! `Ending::status`, `Ending::line` and `Refusal::status` have each status and line. `compile` is the image of a checked
//! program, good for it, or says that the scratchpad holds less than its need.
#![tactic(auto)]

mod answer;
mod asm;
mod build;
mod check;
mod command;
mod compiling;
mod disasm;
mod ending;
mod eval;
mod exec;
mod explain;
mod grants;
mod images;
mod inputs;
mod laws;
mod line;
mod lines;
mod output;
mod plan;
mod programs;
mod reading;
mod refusal;
mod request;
mod run;
mod top;

pub use command::{Command, read_words};
pub use compiling::{CompileFault, compile};
pub use ending::{Ending, Fault};
pub use laws::{lines_are_the_text, one_answer, promise_is_complete};
pub use refusal::{Kind, Refusal, Shortage};
pub use top::venice;
