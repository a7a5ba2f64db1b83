//! The program `venice`: the words behind its name go to the top call, with the real files and the standard output,
//! and it ends with the status that comes back.
#![tactic(auto)]

ghost use Rattle.std.specs.Prelude.{◌≡◌, ◌⊎◌, drop, IfOk, OnErr};
ghost use Rattle.std.specs.Process.{exit_status};
ghost use Rattle.std.specs.Vec.Iter.{into_iter_items};
ghost use Rattle.venice_run.specs.Promise.{Promise, moment};
ghost use Rattle.venice_run.specs.Words.{texts_of};

use std::alloc::{AllocError, Global};
use std::env::Args;
use std::process::ExitCode;
use std::{env, io};
use ven_io::{Files, HostFiles, HostSink, Sink};
use venice_run::venice;

/// The status where the words can't be had, which the top call never answers.
const NO_WORDS: u8 = 15;

fn main(rt: HostRuntime) -> ExitCode {
    let mut files = HostFiles::new(&rt);
    let mut out = HostSink::new(&rt);
    status_of(rt.alloc(), env::args(&rt), &mut files, &mut out)
}

/// The status that the program ends with: the top call's for the words behind the program's name.
fn status_of<F: Files, S: Sink>(
    alloc: Global,
    args: io::Result<Args>,
    files: &mut F,
    out: &mut S,
) -> ExitCode
    // Where the system can't give the words, the status is 15, and nothing is done.
    ensures nothing { OnErr args ((exit_status result ≡ 15) × (files.new ≡ files.old) × (out.new ≡ out.old)) }

    // Else the top call's promise holds for all words but the first; or memory ran out while they were gathered, and
    // nothing was done.
    ensures promise { IfOk args (λ given.
        ((exit_status result ≡ 15) × (files.new ≡ files.old) × (out.new ≡ out.old))
        ⊎ Promise F.behaviour (moment (F.state files.old) (S.state out.old))
        (moment (F.state files.new) (S.state out.new)) (texts_of (drop 1 (into_iter_items given)))
        (exit_status result)) }
{
    let Ok(args) = args else {
        return ExitCode::from(NO_WORDS);
    };
    match behind_the_first(alloc, args) {
        Ok(words) => ExitCode::from(venice(alloc, &words, files, out)),
        Err(_) => ExitCode::from(NO_WORDS),
    }
}

/// All words but the first, which is the program's name.
fn behind_the_first(alloc: Global, args: Args) -> Result<Vec<String>, AllocError>
    ensures { IfOk result (λ words. words.items ≡ drop 1 (into_iter_items args)) }
{
    args.skip(1).collect(alloc)
}
