//! The work of the vector machine: vector instructions, transfers and the issues of a list, and
//! what each of them does to the scratchpad's cells and to memory.
//!
//! The definitions in `specs/` are the machine's manual. `Region` says where elements stand,
//! `Element` how bytes spell numbers, `Answer` what an operation answers, `Footprint` which bytes a
//! work reads and writes, `Whole` what a vector instruction does as one simultaneous map, `Copy`
//! what a transfer does, `Beat` how both go beat by beat, and `Does` what a list of issues does, one
//! after another. `Units` says whose work an issue is, `Tests` what is asked of it before it starts,
//! and `Flight` which works of a list may be in flight together. The functions of `laws` say what is
//! proved of them, and `conflict` decides whether two works conflict.
#![tactic(auto)]

mod answer;
mod code;
mod encoding;
mod form;
mod host;
mod instr;
mod issue;
mod issue_list;
mod kind;
mod laws;
mod limits;
mod meeting;
mod op;
mod region;
mod walk;
mod work;

pub use answer::{answer_of, result_of, sets_flag};
pub use code::Code;
pub use encoding::{InstrFault, decode, decode_in, encode};
pub use host::{Deed, HostState};
pub use instr::{Instr, PARAMETER_COUNT, REGISTER_COUNT, Version};
pub use issue::Issue;
pub use issue_list::{IssueFault, issues};
pub use kind::VecKind;
pub use laws::{
    beats_are_the_copy, beats_are_the_whole, bytes_spell_their_number,
    next_beat_keeps_to_footprint, numbers_have_one_spelling, read_copies_its_rows,
    rows_apart_keep_elements_apart, tests_decide, whole_is_determined, whole_reads_its_footprint,
    whole_writes_its_footprint, write_copies_its_rows,
};
pub use limits::{INSTRUCTION_LIMIT, TRANSFER_PLACES, VECTOR_PLACES};
pub use meeting::conflict;
pub use op::VecOp;
pub use region::Region;
pub use walk::Walk;
pub use work::{DmaWork, VecWork};
