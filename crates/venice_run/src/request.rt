//! What the words of the command line ask for, with the names in them.

ghost use Rattle.std.specs.Prelude.{◌≡◌, ◌↔◌, ℕ, decimal, IsTrue, MatchOption};
ghost use Rattle.venice_run.specs.Words.{texts_of, Spells, IsUpTo, command_of};
ghost use Rattle.venice_run.specs.Requests.{IsFreeRun, IsGrantedRun, IsBuild, IsEval, IsCheck, IsExplain, IsFreeExec, IsGrantedExec, IsAsm, IsDisasm, SpellResources};

use crate::command::Command;
use itoa::Buffer;
use ven_base::CELL_LIMIT;

/// The greatest number of lanes of a machine.
const MOST_LANES: u32 = 4;

/// The most steps that a run may be allowed.
const MOST_STEPS: u64 = 1_099_511_627_776;

/// The lanes and the bytes of scratchpad that a run has.
#[derive(Clone, Copy)]
pub(crate) struct Room {
    pub lanes: u32,
    pub spad: u32,
}

/// What a run may use: lanes, bytes of scratchpad, and steps.
#[derive(Clone, Copy)]
pub(crate) struct Resources {
    pub lanes: u32,
    pub spad: u32,
    pub budget: u64,
}

/// A command with its names and numbers: what the words of the command line ask for. Names of files stand as the words
/// have them; `lanes`, `spad` and `budget` are in the range of the command line.
#[derive(Clone, Copy)]
pub(crate) enum Request<'a> {
    /// `run PROGRAM INPUTS IMAGE LANES SPAD [GRANTS]`.
    Run {
        program: &'a str,
        inputs: &'a str,
        image: &'a str,
        lanes: u32,
        spad: u32,
        grants: Option<&'a str>,
    },
    /// `build PROGRAM IMAGE SPAD`.
    Build {
        program: &'a str,
        image: &'a str,
        spad: u32,
    },
    /// `eval PROGRAM INPUTS`.
    Eval {
        program: &'a str,
        inputs: &'a str,
    },
    /// `check PROGRAM SPAD`.
    Check {
        program: &'a str,
        spad: u32,
    },
    /// `explain PROGRAM`.
    Explain {
        program: &'a str,
    },
    /// `exec IMAGE INPUTS LANES SPAD BUDGET [GRANTS]`.
    Exec {
        image: &'a str,
        inputs: &'a str,
        resources: Resources,
        grants: Option<&'a str>,
    },
    /// `asm TEXT IMAGE`.
    Asm {
        text: &'a str,
        image: &'a str,
    },
    /// `disasm IMAGE`.
    Disasm {
        image: &'a str,
    },
}

impl Request<'_> {
    /// The command with its numbers, without its names.
    pub fn command(self) -> Command
        ensures { result ≡ command_of self.entry }
    {
        match self {
            Request::Run {
                lanes,
                spad,
                grants,
                ..
            } => Command::Run {
                lanes,
                spad,
                grants: grants.is_some(),
            },
            Request::Build { spad, .. } => Command::Build { spad },
            Request::Eval { .. } => Command::Eval,
            Request::Check { spad, .. } => Command::Check { spad },
            Request::Explain { .. } => Command::Explain,
            Request::Exec {
                resources,
                grants,
                ..
            } => Command::Exec {
                lanes: resources.lanes,
                spad: resources.spad,
                budget: resources.budget,
                grants: grants.is_some(),
            },
            Request::Asm { .. } => Command::Asm,
            Request::Disasm { .. } => Command::Disasm,
        }
    }
}

/// The request that the words spell, or `None` exactly where they spell none.
pub(crate) fn request_of(words: &[String]) -> Option<Request<'_>>
    ensures { MatchOption result ((request : Request) → ¬ Spells (texts_of words.now) request)
        (Spells (texts_of words.now)) }
{
    if let Some(request) = free_run_request(words) {
        return Some(request);
    }
    if let Some(request) = granted_run_request(words) {
        return Some(request);
    }
    if let Some(request) = build_request(words) {
        return Some(request);
    }
    if let Some(request) = eval_request(words) {
        return Some(request);
    }
    if let Some(request) = check_request(words) {
        return Some(request);
    }
    if let Some(request) = explain_request(words) {
        return Some(request);
    }
    if let Some(request) = free_exec_request(words) {
        return Some(request);
    }
    if let Some(request) = granted_exec_request(words) {
        return Some(request);
    }
    if let Some(request) = asm_request(words) {
        return Some(request);
    }
    disasm_request(words)
}

/// `run` without GRANTS.
fn free_run_request(words: &[String]) -> Option<Request<'_>>
    ensures { MatchOption result ((request : Request) → IsFreeRun request → ¬ Spells (texts_of words.now) request)
        (Spells (texts_of words.now)) }
{
    let [word, program, inputs, image, lanes, spad] = words else {
        return None;
    };
    if word.as_str() != "run" {
        return None;
    }
    let lanes = number_up_to(MOST_LANES, lanes)?;
    let spad = number_up_to(CELL_LIMIT, spad)?;
    Some(Request::Run {
        program,
        inputs,
        image,
        lanes,
        spad,
        grants: None,
    })
}

/// `run` with GRANTS.
fn granted_run_request(words: &[String]) -> Option<Request<'_>>
    ensures { MatchOption result ((request : Request) → IsGrantedRun request → ¬ Spells (texts_of words.now) request)
        (Spells (texts_of words.now)) }
{
    let [word, program, inputs, image, lanes, spad, grants] = words else {
        return None;
    };
    if word.as_str() != "run" {
        return None;
    }
    let lanes = number_up_to(MOST_LANES, lanes)?;
    let spad = number_up_to(CELL_LIMIT, spad)?;
    Some(Request::Run {
        program,
        inputs,
        image,
        lanes,
        spad,
        grants: Some(grants),
    })
}

fn build_request(words: &[String]) -> Option<Request<'_>>
    ensures { MatchOption result ((request : Request) → IsBuild request → ¬ Spells (texts_of words.now) request)
        (Spells (texts_of words.now)) }
{
    let [word, program, image, spad] = words else {
        return None;
    };
    if word.as_str() != "build" {
        return None;
    }
    let spad = number_up_to(CELL_LIMIT, spad)?;
    Some(Request::Build {
        program,
        image,
        spad,
    })
}

fn eval_request(words: &[String]) -> Option<Request<'_>>
    ensures { MatchOption result ((request : Request) → IsEval request → ¬ Spells (texts_of words.now) request)
        (Spells (texts_of words.now)) }
{
    let [word, program, inputs] = words else {
        return None;
    };
    if word.as_str() != "eval" {
        return None;
    }
    Some(Request::Eval { program, inputs })
}

fn check_request(words: &[String]) -> Option<Request<'_>>
    ensures { MatchOption result ((request : Request) → IsCheck request → ¬ Spells (texts_of words.now) request)
        (Spells (texts_of words.now)) }
{
    let [word, program, spad] = words else {
        return None;
    };
    if word.as_str() != "check" {
        return None;
    }
    let spad = number_up_to(CELL_LIMIT, spad)?;
    Some(Request::Check { program, spad })
}

fn explain_request(words: &[String]) -> Option<Request<'_>>
    ensures { MatchOption result ((request : Request) → IsExplain request → ¬ Spells (texts_of words.now) request)
        (Spells (texts_of words.now)) }
{
    let [word, program] = words else {
        return None;
    };
    if word.as_str() != "explain" {
        return None;
    }
    Some(Request::Explain { program })
}

/// `exec` without GRANTS.
fn free_exec_request(words: &[String]) -> Option<Request<'_>>
    ensures { MatchOption result ((request : Request) → IsFreeExec request → ¬ Spells (texts_of words.now) request)
        (Spells (texts_of words.now)) }
{
    let [word, image, inputs, lanes, spad, budget] = words else {
        return None;
    };
    if word.as_str() != "exec" {
        return None;
    }
    let resources = read_resources(lanes, spad, budget)?;
    Some(Request::Exec {
        image,
        inputs,
        resources,
        grants: None,
    })
}

/// `exec` with GRANTS.
fn granted_exec_request(words: &[String]) -> Option<Request<'_>>
    ensures { MatchOption result ((request : Request) → IsGrantedExec request → ¬ Spells (texts_of words.now) request)
        (Spells (texts_of words.now)) }
{
    let [word, image, inputs, lanes, spad, budget, grants] = words else {
        return None;
    };
    if word.as_str() != "exec" {
        return None;
    }
    let resources = read_resources(lanes, spad, budget)?;
    Some(Request::Exec {
        image,
        inputs,
        resources,
        grants: Some(grants),
    })
}

fn asm_request(words: &[String]) -> Option<Request<'_>>
    ensures { MatchOption result ((request : Request) → IsAsm request → ¬ Spells (texts_of words.now) request)
        (Spells (texts_of words.now)) }
{
    let [word, text, image] = words else {
        return None;
    };
    if word.as_str() != "asm" {
        return None;
    }
    Some(Request::Asm { text, image })
}

fn disasm_request(words: &[String]) -> Option<Request<'_>>
    ensures { MatchOption result ((request : Request) → IsDisasm request → ¬ Spells (texts_of words.now) request)
        (Spells (texts_of words.now)) }
{
    let [word, image] = words else {
        return None;
    };
    if word.as_str() != "disasm" {
        return None;
    }
    Some(Request::Disasm { image })
}

/// What a run may use, as these words spell it.
fn read_resources(lanes: &str, spad: &str, budget: &str) -> Option<Resources>
    ensures { MatchOption result ((resources : Resources) → ¬ SpellResources lanes.now spad.now budget.now resources)
        (SpellResources lanes.now spad.now budget.now) }
{
    let lanes = number_up_to(MOST_LANES, lanes)?;
    let spad = number_up_to(CELL_LIMIT, spad)?;
    let budget = long_number_up_to(MOST_STEPS, budget)?;
    Some(Resources {
        lanes,
        spad,
        budget,
    })
}

/// The number from 1 to `most` that the text is the plain decimal of.
fn number_up_to(most: u32, text: &str) -> Option<u32>
    ensures { MatchOption result ((n : ℕ) → IsUpTo most n → text.now ≡ decimal n → ⊥)
        (λ n. IsUpTo most n × (text.now ≡ decimal n)) }
{
    match long_number_up_to(u64::from(most), text) {
        Some(number) => Some(number as u32),
        None => None,
    }
}

/// The same for numbers of 64 bits.
fn long_number_up_to(most: u64, text: &str) -> Option<u64>
    ensures { MatchOption result ((n : ℕ) → IsUpTo most n → text.now ≡ decimal n → ⊥)
        (λ n. IsUpTo most n × (text.now ≡ decimal n)) }
{
    match text.parse::<u64>() {
        Ok(number) if number != 0 && number <= most && is_plain(number, text) => Some(number),
        _ => None,
    }
}

/// Whether the text is what the number prints.
fn is_plain(number: u64, text: &str) -> bool
    ensures { IsTrue result ↔ (text.now ≡ decimal number) }
{
    Buffer::new().format(number) == text
}
