//! The top call, and what stands beside it.

use std::alloc::Global;
use std::test::Fail;
use ven_io::{MemFiles, MemSink, OutFault, Sink};
use venice_run::{
    Command, Ending, Fault, lines_are_the_text, one_answer, promise_is_complete, read_words, venice,
};

fn owned(alloc: Global, words: &[&str]) -> Result<Vec<String>, Fail> {
    let mut all = Vec::new(alloc);
    for word in words {
        all.push(String::from_str(alloc, word)?)?;
    }
    Ok(all)
}

#[test]
fn words_spell_their_command(rt: HostRuntime) -> Result<(), Fail> {
    let words = ["exec", "M", "I", "4", "1048576", "1099511627776", "G"];
    let words = owned(rt.alloc(), &words)?;
    let Some(
        Command::Exec {
            lanes,
            spad,
            budget,
            grants,
        },
    ) = read_words(&words)
    else {
        return Err("no command".into());
    };
    assert_eq!(rt;
        (lanes, spad, budget, grants),
        (4, 1_048_576, 1_099_511_627_776, true)
    );
    assert!(rt; read_words(&words[..4]).is_none());
    Ok(())
}

#[test]
fn memory_that_ran_out_has_its_status_and_line(rt: HostRuntime) -> Result<(), Fail> {
    let ending = Ending::Failed(Fault::Memory);
    assert_eq!(rt; ending.status(), 10);
    assert_eq!(rt;
        ending.line(rt.alloc())?.as_slice(),
        b"error: memory\n".as_slice()
    );
    Ok(())
}

/// A sink with memory for one piece, of which no more is told than of the standard output.
#[derive(Drop)]
struct OnePiece {
    bytes: Vec<u8>,
    is_full: bool,
}

impl Sink for OnePiece {
    ghost use Rattle.ven_io.specs.Host.{sink_state};

    ghost state = { λ s. sink_state 0 };

    fn put(&mut self, bytes: &[u8]) -> Result<(), OutFault> {
        if self.is_full {
            return Err(OutFault::Memory);
        }
        self.bytes
            .extend_from_slice(bytes)
            .map_err(|_| OutFault::Memory)?;
        self.is_full = true;
        Ok(())
    }
}

const PROGRAM: &[u8] = b"input a u8[1,1]; input b u8[1,1]; output y = a + b;";

const INPUTS: &[u8] = b"a u8[1,1] 7 b u8[1,1] 8";

fn files_in_memory(alloc: Global) -> Result<MemFiles, Fail> {
    let mut files = MemFiles::new(alloc, Vec::new(alloc));
    files.add("P", PROGRAM.to_vec(alloc)?)?;
    files.add("I", INPUTS.to_vec(alloc)?)?;
    Ok(files)
}

#[test]
fn lines_stand_where_a_put_lacks_memory(rt: HostRuntime) -> Result<(), Fail> {
    let alloc = rt.alloc();
    let mut files = files_in_memory(alloc)?;
    let mut out = OnePiece {
        bytes: Vec::new(alloc),
        is_full: false,
    };
    let words = owned(alloc, &["run", "P", "I", "M", "1", "7"])?;
    assert_eq!(rt; venice(alloc, &words, &mut files, &mut out), 10);
    assert_eq!(rt; out.bytes.as_slice(), b"y u8[1,1]\n".as_slice());
    Ok(())
}

#[test]
fn laws_are_called(rt: HostRuntime) {
    let alloc = rt.alloc();
    let files = MemFiles::new(alloc, Vec::new(alloc));
    let out = MemSink::new(alloc, Vec::new(alloc));
    one_answer::<MemFiles>();
    lines_are_the_text();
    promise_is_complete(&[], &files, &out, &files, &out, 2);
}
