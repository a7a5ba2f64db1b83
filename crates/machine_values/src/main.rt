//! Answers of the machine's crates to lines of words, for values that come from outside.
//!
//! Each line of the input is one call: a word that says which, and its arguments. The output has a line for each with
//! the call's answer, and `?` where the line is none that is known. In a text `\n` is a line end and `\xHH` the byte of
//! these two digits. `stdin` has the calls, and `stdout` the answers, which were worked out by hand from docs/MACHINE.md
//! and docs/FORMATS.md, and those of faulty assembler texts by a program that reads by the grammar's words alone.
#![tactic(auto)]

mod bytes;
mod images;
mod texts;
mod words;
mod works;

use std::alloc::Global;
use std::io;

fn main(rt: HostRuntime) -> io::Result<()> {
    for line in rt.lines(rt.alloc()) {
        match answer(rt.alloc(), line?.as_str()) {
            Some(text) => println!(rt; "{text}")?,
            None => println!(rt; "?")?,
        }
    }
    Ok(())
}

/// The answer to a line.
fn answer(alloc: Global, line: &str) -> Option<String> {
    let (call, rest) = line.split_once(' ').unwrap_or((line, ""));
    match call {
        "kind" => works::kind(alloc, rest),
        "answer" => works::answer(alloc, rest),
        "beats" => works::beats(alloc, rest),
        "range" => works::range(alloc, rest),
        "meet" => works::meet(alloc, rest),
        "conflict" => works::conflicts(alloc, rest),
        "decode" => bytes::decoded(alloc, rest),
        "image" => images::image(alloc, rest),
        "byte" => images::changed(alloc, rest),
        "entry" => images::entry(alloc, rest),
        "entries" => images::entries(alloc, rest),
        "text" => texts::text(alloc, rest),
        "line" => texts::line(alloc, rest),
        "many" => texts::many(alloc, rest),
        _ => None,
    }
}
