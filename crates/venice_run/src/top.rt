//! The top call.

ghost use Rattle.std.specs.Prelude.{◌≡◌, ◌↔◌, IsErrOf};
ghost use Rattle.ven_io.specs.Files.{OnlyLoads, OnlySaves};
ghost use Rattle.venice_run.specs.Answer.{answer_of};
ghost use Rattle.venice_run.specs.Commands.{answer_to as answer_to_lem, stages_of};
ghost use Rattle.venice_run.specs.Outcomes.{outcome_of, SaveEnds};
ghost use Rattle.venice_run.specs.Promise.{Promise, moment, Comes, SaysOutcome, SaysEnding, Stopped, NotSaved};
ghost use Rattle.venice_run.specs.Stage.{as_stage};
ghost use Rattle.venice_run.specs.Words.{texts_of, IsInRange};

use crate::answer::{Answer, Save};
use crate::asm::asm;
use crate::build::build;
use crate::check::check;
use crate::disasm::disasm;
use crate::ending::{Ending, Fault, MEMORY_STATUS};
use crate::eval::eval;
use crate::exec::exec;
use crate::explain::explain;
use crate::lines::{put_line, put_text};
use crate::refusal::Refusal;
use crate::request::{Request, Room, request_of};
use crate::run::run;
use std::alloc::Global;
use ven_io::{Files, OutFault, Sink};

/// The status where a save failed.
const SAVE_STATUS: u8 = 14;

/// The line where a save failed.
const SAVE_LINE: &[u8] = b"error: save\n";

/// The line where memory ran out, which takes none.
const MEMORY_LINE: &[u8] = b"error: memory\n";

/// What a call means to say: an answer, why there is none, or that its save failed.
#[derive(Drop)]
enum Outcome<'a> {
    Done(Answer<'a>),
    Stopped(Ending),
    NotSaved,
}

/// Does what the words of the command line ask, and answers the status that the program ends with.
///
/// The answer's file is saved and its text goes to the sink, or the one line of the first refusal does. Status 8 with
/// `error: file` comes only where a load failed, status 14 only where a save did, status 9 only where a put did, and
/// status 10 where memory ran out. docs/FORMATS.md has the words, the output and the order of the refusals.
pub fn venice<F: Files, S: Sink>(alloc: Global, words: &[String], files: &mut F, out: &mut S) -> u8
    ensures promise { Promise F.behaviour (moment (F.state files.old) (S.state out.old))
        (moment (F.state files.new) (S.state out.new)) (texts_of words.now) result }
{
    let answer = answer_to(alloc, words, files);
    let outcome = save_answer(files, answer);
    say(alloc, outcome, out)
}

/// What the words come to, from the files alone.
fn answer_to<'a, F: Files>(
    alloc: Global,
    words: &'a [String],
    files: &mut F,
) -> Result<Answer<'a>, Ending>
    ensures answer { answer_to_lem (F.behaviour (F.state files.old).content) (texts_of words.now)
        (as_stage answer_of result) }
    ensures only { OnlyLoads (F.state files.old) (F.state files.new) (IsErrOf result (Ending.Failed Fault.File)) }
{
    match request_of(words) {
        Some(request) => comes_to(alloc, files, request),
        None => Err(Ending::Refused(Refusal::Usage)),
    }
}

/// What the request comes to. Files are only read.
fn comes_to<'a, F: Files>(
    alloc: Global,
    files: &mut F,
    request: Request<'a>,
) -> Result<Answer<'a>, Ending>
    requires { IsInRange request }
    ensures answer { stages_of (F.behaviour (F.state files.old).content) request.entry (as_stage answer_of result) }
    ensures only { OnlyLoads (F.state files.old) (F.state files.new) (IsErrOf result (Ending.Failed Fault.File)) }
{
    match request {
        Request::Run {
            program,
            inputs,
            image,
            lanes,
            spad,
            grants,
        } => {
            let room = Room { lanes, spad };
            run(alloc, files, program, inputs, image, room, grants)
        }
        Request::Build {
            program,
            image,
            spad,
        } => build(alloc, files, program, image, spad),
        Request::Eval { program, inputs } => eval(alloc, files, program, inputs),
        Request::Check { program, spad } => check(alloc, files, program, spad),
        Request::Explain { program } => explain(alloc, files, program),
        Request::Exec {
            image,
            inputs,
            resources,
            grants,
        } => exec(alloc, files, image, inputs, resources, grants),
        Request::Asm { text, image } => asm(alloc, files, text, image),
        Request::Disasm { image } => disasm(alloc, files, image),
    }
}

/// Saves what the answer asks for.
fn save_answer<'a, F: Files>(files: &mut F, answer: Result<Answer<'a>, Ending>) -> Outcome<'a>
    ensures comes { Comes F.behaviour (F.state files.old).content (F.state files.new).content
        (λ r. r ≡ as_stage answer_of answer.entry) (outcome_of result) }
    ensures only { OnlySaves (F.state files.old) (F.state files.new) (outcome_of result ≡ NotSaved) }
    ensures file { IsErrOf answer.entry (Ending.Failed Fault.File)
        ↔ (outcome_of result ≡ Stopped (Ending.Failed Fault.File)) }
{
    match answer {
        Ok(answer) => match make_save(files, &answer.save) {
            Ok(()) => Outcome::Done(answer),
            Err(OutFault::Failed) => Outcome::NotSaved,
            Err(OutFault::Memory) => Outcome::Stopped(Ending::Failed(Fault::Memory)),
        },
        Err(ending) => Outcome::Stopped(ending),
    }
}

/// Makes the save that is asked for, if one is.
fn make_save<F: Files>(files: &mut F, save: &Option<Save<'_>>) -> Result<(), OutFault>
    ensures saved { SaveEnds F.behaviour (F.state files.old).content (F.state files.new).content save.now result }
    ensures only { OnlySaves (F.state files.old) (F.state files.new) (IsErrOf result OutFault.Failed) }
{
    match save {
        Some(save) => files.save(save.name, &save.bytes),
        None => Ok(()),
    }
}

/// Puts the answer's lines, or the line of why there is none.
fn say<S: Sink>(alloc: Global, outcome: Outcome<'_>, out: &mut S) -> u8
    ensures { SaysOutcome (S.state out.old) (S.state out.new) (outcome_of outcome.entry) result }
{
    match outcome {
        Outcome::Done(answer) => put_text(answer.status(), &answer.text, out),
        Outcome::Stopped(ending) => say_ending(alloc, ending, out),
        Outcome::NotSaved => put_line(SAVE_STATUS, SAVE_LINE, out),
    }
}

fn say_ending<S: Sink>(alloc: Global, ending: Ending, out: &mut S) -> u8
    ensures { SaysEnding (S.state out.old) (S.state out.new) ending result }
{
    let status = ending.status();
    match ending.line(alloc) {
        Ok(line) => put_line(status, &line, out),
        Err(_) => put_line(MEMORY_STATUS, MEMORY_LINE, out),
    }
}
