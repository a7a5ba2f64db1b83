//! Whole texts through any reader and any writer, read by read and write by write.

ghost use Rattle.std.specs.Prelude.{◌≡◌, ◌≤◌, ◌<◌, ◌+◌, ◌++◌, IfOk, IfSome, OnOk, OnErr, IsErrOf, IsOkUnless, take, vec_len, length};
ghost use Rattle.std.specs.Io.KnownBytes.{Appends, Consumes, IsAtEnd};
ghost use Rattle.ven_io.specs.Pieces.{AppendsPart};

use crate::{LoadFault, OutFault};
use std::alloc::Global;
use std::io::{Read, Write};

/// How many bytes are read at once, at most.
const PIECE: usize = 65_536;

/// One read into the buffer, which goes behind the bytes that are there. It says how many came: none only at the end.
fn read_piece<R: Read>(
    reader: &mut R,
    buffer: &mut [u8],
    bytes: &mut Vec<u8>,
) -> Result<usize, LoadFault>
    ensures within { IfOk result (λ count. count ≤ length buffer.new) }
    ensures piece { IfOk result (λ count. bytes.new.items ≡ bytes.old.items ++ take count buffer.new) }
    ensures read { IfOk result (λ count. Consumes (R.remaining reader.old) (R.remaining reader.new)
        (take count buffer.new)) }
    ensures end { IfOk result (λ count. count ≡ 0 → 0 < length buffer.new → IsAtEnd (R.remaining reader.new)) }
    ensures found { IsErrOf result LoadFault.Missing → ⊥ }
{
    let count = reader.read(buffer).map_err(|_| LoadFault::Failed)?;
    bytes
        .extend_from_slice(&buffer[..count])
        .map_err(|_| LoadFault::Memory)?;
    Ok(count)
}

/// The reader's first `limit` bytes, or all where there are fewer. Failed at the first read that fails.
pub(crate) fn read_first<R: Read>(
    reader: &mut R,
    alloc: Global,
    limit: usize,
) -> Result<Vec<u8>, LoadFault>
    ensures first { IfOk result (λ bytes. IfSome (R.remaining reader.old) (λ all. bytes.items ≡ take limit all)) }
    ensures short { IfOk result (λ bytes. vec_len bytes ≤ limit) }
    ensures found { IsErrOf result LoadFault.Missing → ⊥ }
{
    let mut buffer = Vec::new(alloc);
    buffer.resize(PIECE, 0).map_err(|_| LoadFault::Memory)?;
    let mut bytes = Vec::new(alloc);
    while bytes.len() < limit {
        let room = PIECE.min(limit - bytes.len());
        if read_piece(reader, &mut buffer[..room], &mut bytes)? == 0 {
            return Ok(bytes);
        }
    }
    Ok(bytes)
}

/// Writes all the bytes, and flushes. Failed at the first write that fails or takes nothing of what is left,
/// and at a flush that fails; then a prefix of the bytes was written.
pub(crate) fn write_whole<W: Write>(writer: &mut W, bytes: &[u8]) -> Result<(), OutFault>
    ensures whole { OnOk result (Appends (W.contents writer.old) (W.contents writer.new) bytes.now) }
    ensures part { OnErr result (AppendsPart (W.contents writer.old) (W.contents writer.new) bytes.now) }
    ensures fault { IsOkUnless result OutFault.Failed }
{
    let mut at = 0;
    while at < bytes.len() {
        match writer.write(&bytes[at..]) {
            Ok(count) if count > 0 => at += count,
            _ => return Err(OutFault::Failed),
        }
    }
    writer.flush().map_err(|_| OutFault::Failed)
}
