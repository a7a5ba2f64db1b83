//! The heading of a printed array.

ghost use Rattle.std.specs.Prelude.{◌≡◌, ◌++◌, OnOk};
ghost use Rattle.array_file.specs.Output.{heading_text};

use itoa::Buffer;
use std::alloc::AllocError;
use ven_base::{Elem, Name, Shape};

/// `NAME TYPE[R,C]` and a line end.
pub(crate) fn push_heading(
    text: &mut Vec<u8>,
    name: &Name,
    elem: Elem,
    shape: Shape,
) -> Result<(), AllocError>
    ensures { OnOk result (text.new.items ≡ text.old.items ++ heading_text name.now elem shape) }
{
    text.extend_from_slice(name.bytes())?;
    text.push(b' ')?;
    text.extend_from_slice(elem.word())?;
    text.push(b'[')?;
    text.extend_from_slice(Buffer::new().format(shape.rows).as_bytes())?;
    text.push(b',')?;
    text.extend_from_slice(Buffer::new().format(shape.cols).as_bytes())?;
    text.extend_from_slice(b"]\n")?;
    Ok(())
}
