//! Answers of the language's crates to lines of words, for values that come from outside.
//!
//! Each line of the input is one call: a word that says which, and its arguments. The output has a line for each with
//! the call's answer, and `?` where the line is none that is known. In a text `\n` is a line end and `\xHH` the byte of
//! these two digits. `stdin` has the calls, and `stdout` the answers: Python's whole numbers and short programs gave
//! those of numbers and index maps, and the others were worked out by hand from docs/LANGUAGE.md and docs/FORMATS.md.
#![tactic(auto)]

mod arrays;
mod maps;
mod numbers;
mod texts;
mod words;

use std::alloc::Global;
use std::io;

fn main(rt: HostRuntime) -> io::Result<()> {
    for line in rt.lines(rt.alloc()) {
        match answer(rt.alloc(), line?.as_str()) {
            Some(text) => println!(rt; "{text}")?,
            None => println!(rt; "?")?,
        }
    }
    Ok(())
}

/// The answer to a line.
fn answer(alloc: Global, line: &str) -> Option<String> {
    let (call, rest) = line.split_once(' ').unwrap_or((line, ""));
    match call {
        "wrap" => numbers::wrapped(alloc, rest),
        "bits" => numbers::bits(alloc, rest),
        "one" => numbers::one(alloc, rest),
        "two" => numbers::two(alloc, rest),
        "shift" => numbers::shift(alloc, rest),
        "shape" => maps::shape(alloc, rest),
        "map" => maps::map(alloc, rest),
        "name" => texts::name(alloc, rest),
        "number" => texts::number(alloc, rest),
        "token" => texts::token(alloc, rest),
        "program" => texts::program(alloc, rest),
        "times" => texts::times(alloc, rest),
        "print" => texts::printed(alloc, rest),
        "check" => texts::checked(alloc, rest),
        "arrays" => arrays::written(alloc, rest),
        "count" => arrays::count(alloc, rest),
        "fit" => arrays::fitted(alloc, rest),
        _ => None,
    }
}
