//! What the definitions of the top call settle, whatever the code does.

ghost use Rattle.venice_run.specs.Laws.{HasOneAnswer, LinesAreTheText, CompletesQuietly, NeverEndsWith15};
ghost use Rattle.venice_run.specs.Promise.{moment};
ghost use Rattle.venice_run.specs.Words.{texts_of};

use expr_split::split_laws;
use shape_check::check_laws;
use ven_io::{Files, Sink};

/// Where files show one thing a name, words have at most one answer or refusal, failed loads and want of memory apart.
pub fn one_answer<F: Files>()
    ensures { HasOneAnswer F.behaviour }
{
    array_syntax::one_reading();
    check_laws();
    array_file::one_reading();
    split_laws();
    venice_asm::one_image();
    venice_asm::one_answer();
}

/// The lines that a text is put in are the text.
pub fn lines_are_the_text()
    ensures { LinesAreTheText }
{}

/// What the promise of a call says between two moments, `files` and `out` before it, and `files_now` and `out_now`
/// after it: where nothing may fail, no fault is counted, and the words are answered or refused in full, or memory ran
/// out; and status 15 is never the top call's.
pub fn promise_is_complete<F: Files, S: Sink>(
    words: &[String],
    files: &F,
    out: &S,
    files_now: &F,
    out_now: &S,
    status: u8,
)
    ensures complete { CompletesQuietly F.behaviour (moment (F.state files.now) (S.state out.now))
        (moment (F.state files_now.now) (S.state out_now.now)) (texts_of words.now) status }
    ensures never { NeverEndsWith15 F.behaviour (moment (F.state files.now) (S.state out.now))
        (moment (F.state files_now.now) (S.state out_now.now)) (texts_of words.now) status }
{}
