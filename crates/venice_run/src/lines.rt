//! Putting a text line by line.

ghost use Rattle.std.specs.Prelude.{◌≡◌, ◌<◌, ◌≤◌, [], ◌∷◌, take, drop, length};
ghost use Rattle.venice_run.specs.Lines.{text_lines};
ghost use Rattle.venice_run.specs.Promise.{Says};

use crate::ending::MEMORY_STATUS;
use memchr::memchr;
use ven_io::{OutFault, Sink};

/// The status where a put failed, which has no line of its own.
const PUT_STATUS: u8 = 9;

/// Puts the text's lines, each as one piece, up to the first put that isn't done. It answers the status then.
pub(crate) fn put_text<S: Sink>(status: u8, text: &[u8], out: &mut S) -> u8
    ensures { Says (S.state out.old) (S.state out.new) status (text_lines text.now) result }
{
    let mut rest = text;
    while !rest.is_empty() {
        let (line, after) = rest.split_at(line_length(rest));
        match out.put(line) {
            Ok(()) => rest = after,
            Err(OutFault::Failed) => return PUT_STATUS,
            Err(OutFault::Memory) => return MEMORY_STATUS,
        }
    }
    status
}

/// Puts one line.
pub(crate) fn put_line<S: Sink>(status: u8, line: &[u8], out: &mut S) -> u8
    ensures { Says (S.state out.old) (S.state out.new) status (line.now ∷ []) result }
{
    match out.put(line) {
        Ok(()) => status,
        Err(OutFault::Failed) => PUT_STATUS,
        Err(OutFault::Memory) => MEMORY_STATUS,
    }
}

/// The length of the first line, its line end in it.
fn line_length(text: &[u8]) -> usize
    requires { 0 < length text.now }
    ensures some { 0 < result }
    ensures within { result ≤ length text.now }
    ensures cut { text_lines text.now ≡ take result text.now ∷ text_lines (drop result text.now) }
{
    match memchr(b'\n', text) {
        Some(at) => at + 1,
        None => text.len(),
    }
}
