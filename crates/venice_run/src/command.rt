//! The commands.

ghost use Rattle.std.specs.Prelude.{MatchOption};
ghost use Rattle.venice_run.specs.Words.{texts_of, SpellsCommand};

use crate::request::request_of;

/// What the words of the command line ask for ("The command line" in docs/FORMATS.md). File names are the words at
/// their places.
#[derive(Clone, Copy)]
pub enum Command {
    /// `run PROGRAM INPUTS IMAGE LANES SPAD [GRANTS]`: 1 to 4 lanes, a scratchpad of 1 to 1,048,576 bytes; `grants` says
    /// whether GRANTS is there.
    Run {
        lanes: u32,
        spad: u32,
        grants: bool,
    },
    /// `build PROGRAM IMAGE SPAD`: a scratchpad of 1 to 1,048,576 bytes.
    Build {
        spad: u32,
    },
    /// `eval PROGRAM INPUTS`.
    Eval,
    /// `check PROGRAM SPAD`: a scratchpad of 1 to 1,048,576 bytes.
    Check {
        spad: u32,
    },
    /// `explain PROGRAM`.
    Explain,
    /// `exec IMAGE INPUTS LANES SPAD BUDGET [GRANTS]`: a budget of 1 to 1,099,511,627,776 steps; `grants` says whether
    /// GRANTS is there.
    Exec {
        lanes: u32,
        spad: u32,
        budget: u64,
        grants: bool,
    },
    /// `asm TEXT IMAGE`.
    Asm,
    /// `disasm IMAGE`.
    Disasm,
}

/// The command that the words spell, or `None` exactly where they spell none. It takes no memory.
/// Numbers are plain decimals: digits, no sign, no leading zero but in `0` itself.
pub fn read_words(words: &[String]) -> Option<Command>
    ensures { MatchOption result ((command : Command) → ¬ SpellsCommand (texts_of words.now) command)
        (SpellsCommand (texts_of words.now)) }
{
    match request_of(words) {
        Some(request) => Some(request.command()),
        None => None,
    }
}
