//! Runs the top call over files and a sink in memory, a line of standard input a run, and prints what came of it.
//!
//! A line is the number of the call on the files that fails, the number of the put that fails, and the words of a
//! command; 0 fails nothing. The files are those of `FILES`, and `M`, to which commands save here. What is printed stands
//! in the file `stdout`, which was written by hand, but for the numbers of steps, cycles and instructions of `P`.
#![tactic(auto)]

use std::alloc::{AllocError, Global};
use std::io;
use std::io::Write;
use ven_io::{MemFiles, MemSink};
use venice_run::venice;

/// An addition, its inputs, an assembler text, its image, a grant list, and a file that isn't any of these.
static FILES: [(&str, &[u8]); 6] = [
    (
        "P",
        b"input a u8[1,4];\ninput b u8[1,4];\noutput y = a + b;\n",
    ),
    ("I", b"a u8[1,4]\n1 2 3 250\nb u8[1,4]\n4 5 6 10\n"),
    ("T", b"spad 16\nmemory 0\nhalt\n"),
    (
        "H",
        b"VNC1\x10\0\0\0\0\0\0\0\0\0\0\0\x01\0\0\0\0\0\0\0\0\0\0\0",
    ),
    ("G", b"01 04\n"),
    ("E", b""),
];

/// The file to which commands save.
const SAVED: &str = "M";

/// So many bytes of it are printed: an image's magic and header.
const HEAD: usize = 20;

fn main(rt: HostRuntime) -> io::Result<()> {
    for line in rt.lines(rt.alloc()) {
        print_line(&rt, line?.as_str())?;
    }
    Ok(())
}

fn print_line<R: AllocGlobal + Print>(rt: &R, line: &str) -> io::Result<()> {
    println!(rt; "> {line}")?;
    let words = words_of(rt.alloc(), line)?;
    match words.as_slice() {
        [call, put, words @ ..] => print_run(rt, number(call), number(put), words),
        _ => Ok(()),
    }
}

/// The words of a line, which stand one blank apart.
fn words_of(alloc: Global, line: &str) -> Result<Vec<String>, AllocError> {
    let mut words = Vec::new(alloc);
    for word in line.split(' ') {
        words.push(String::from_str(alloc, word)?)?;
    }
    Ok(words)
}

fn number(word: &str) -> u64 {
    word.parse().unwrap_or(0)
}

/// The status, what the sink has taken between brackets, and what the files hold then.
fn print_run<R: AllocGlobal + Print>(
    rt: &R,
    call: u64,
    put: u64,
    words: &[String],
) -> io::Result<()> {
    let mut files = files_in_memory(rt.alloc(), call)?;
    let mut out = MemSink::new(rt.alloc(), vec![in rt.alloc(); put]?);
    let status = venice(rt.alloc(), words, &mut files, &mut out);
    print_reply(rt, status, out.taken())?;
    print_files(rt, &files)
}

/// The files of `FILES`, where this call fails.
fn files_in_memory(alloc: Global, call: u64) -> Result<MemFiles, AllocError> {
    let mut files = MemFiles::new(alloc, vec![in alloc; call]?);
    for (name, bytes) in &FILES {
        files.add(name, bytes.to_vec(alloc)?)?;
    }
    Ok(files)
}

fn print_reply<R: Print>(rt: &R, status: u8, taken: &[u8]) -> io::Result<()> {
    print!(rt; "{status} <")?;
    io::writer(rt).write_all(taken)?;
    println!(rt; ">")
}

/// The length and the first bytes of the saved file, if there is one, and whether the other files hold what they held.
fn print_files<R: Print>(rt: &R, files: &MemFiles) -> io::Result<()> {
    if let Some(bytes) = files.get(SAVED) {
        let head = &bytes[..bytes.len().min(HEAD)];
        println!(rt; "{SAVED} holds {} bytes from {head:?}", bytes.len())?;
    }
    for (name, bytes) in &FILES {
        if files.get(name) != Some(*bytes) {
            println!(rt; "{name} has changed")?;
        }
    }
    Ok(())
}
