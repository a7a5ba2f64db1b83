//! What Ritxundel reads and writes: the files and the sink that it is handed, and the tokens and the numbers of a text.
//!
//! **Files and sinks.** A program is generic over `F: Files` and `S: Sink`, and is right for all of them:
//!
//! ```text
//! let text = files.load(alloc, "add.ven", 65_536)?;   // the first 65,537 bytes, or all where there are fewer
//! files.save("add.image", &bytes)?;                   // the name has these bytes now
//! out.put(b"a line\n")?;                              // one piece
//! ```
//!
//! - `Files` has a ghost type `Content` of what the files hold, which only a save changes. `behaviour` says of a
//!   content what a load of each name may show, and where a load or a save may fail; `state` has the content of a
//!   moment, and how many loads and saves have failed. `load`: `loaded` (the bytes, or why there are none), `only`
//!   (nothing has changed but the count of failed loads, by one where the load failed). `save`: `saved` (that name has
//!   the bytes, every other name behaves as before), `memory` (after out of memory nothing has changed), `only`.
//! - `Sink` has a ghost `state`: which lists of pieces it may have taken, whether a put may fail, and how many have
//!   failed. `put`: `put` (the piece was taken, or a prefix where the put failed, or nothing where memory ran out, and
//!   no put makes a sink one that may fail), `counted` (one more where the put failed).
//! - Code that is generic over them can't make up bytes or a fault: what a load shows, and that a call failed, it
//!   learns from a call with that very name alone.
//! - `MemFiles` and `MemSink` hold everything in memory and fail by a list of numbers; where that is empty nothing
//!   fails. `load`: `missing`, `fails`, `call`; `save`: `set`, `emptied`, `fails`, `passes`, `call`; `put`: `whole`,
//!   `half`, `memory`, `fails`, `passes`, `call`. `add`, `get` and `taken` set and show what they hold.
//! - `HostFiles` and `HostSink` are the real files and the standard output. Any load may show any bytes there, and any
//!   call may fail. `load`: `short` (no more bytes than asked for), `found` (never `Missing`); `save`: `memory`, `put`:
//!   `no_memory` (never out of memory).
//!
//! **Texts.** `next` gives the first token at or after a place, past blanks and comments, or why there is none
//! (`next`); `after`, `in_text`, `some` and `end` say where it lies and that a reader gets on. `number` gives the value
//! of a number's bytes, or the fault. Both take the text as bytes, and allocate nothing. Laws: `one_next`, `one_number`
//! (one value or one fault; a number token is at fault for its size alone).
#![tactic(auto)]

mod files;
mod host_files;
mod host_sink;
mod laws;
mod lexing;
mod mem_files;
mod mem_sink;
mod numbers;
mod pieces;
mod runs;
mod signs;
mod sink;
mod token;

pub use files::{Files, LoadFault};
pub use host_files::HostFiles;
pub use host_sink::HostSink;
pub use laws::{one_next, one_number};
pub use lexing::next;
pub use mem_files::MemFiles;
pub use mem_sink::MemSink;
pub use numbers::{NumberFault, number};
pub use sink::{OutFault, Sink};
pub use token::{Token, TokenFault, TokenKind};
