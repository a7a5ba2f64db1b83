//! The text of arrays (docs/FORMATS.md, "The printed output").

ghost use Rattle.std.specs.Prelude.{◌≡◌, ◌*◌, ◌++◌, length, IfOk, OnOk};
ghost use Rattle.array_file.specs.Faults.{DenotesArrays};
ghost use Rattle.array_file.specs.Output.{shape_text, heading_text, row_text, rows_text, array_text, arrays_text};

use itoa::Buffer;
use std::alloc::{AllocError, Global};
use ven_base::{Array, Arrays, Elem, Name, Shape};

/// `[R,C]` and a line end.
fn push_shape(text: &mut Vec<u8>, rows: u32, cols: u32) -> Result<(), AllocError>
    ensures { OnOk result (text.new.items ≡ text.old.items ++ shape_text (record { rows = rows; cols = cols })) }
{
    text.push(b'[')?;
    text.extend_from_slice(Buffer::new().format(rows).as_bytes())?;
    text.push(b',')?;
    text.extend_from_slice(Buffer::new().format(cols).as_bytes())?;
    text.extend_from_slice(b"]\n")?;
    Ok(())
}

/// `NAME TYPE[R,C]` and a line end.
fn push_heading(text: &mut Vec<u8>, name: &Name, elem: Elem, shape: Shape) -> Result<(), AllocError>
    ensures { OnOk result (text.new.items ≡ text.old.items ++ heading_text name.now elem shape) }
{
    text.extend_from_slice(name.bytes())?;
    text.push(b' ')?;
    text.extend_from_slice(elem.word())?;
    push_shape(text, shape.rows, shape.cols)?;
    Ok(())
}

/// The values with one space between, and a line end.
fn push_row(text: &mut Vec<u8>, row: &[i64]) -> Result<(), AllocError>
    ensures { OnOk result (text.new.items ≡ text.old.items ++ row_text row.now) }
{
    for (j, value) in row.iter().enumerate() {
        if j > 0 {
            text.push(b' ')?;
        }
        text.extend_from_slice(Buffer::new().format(*value).as_bytes())?;
    }
    text.push(b'\n')?;
    Ok(())
}

/// So many rows of so many columns, a line for each.
fn push_rows(text: &mut Vec<u8>, rows: u32, cols: u32, values: &[i64]) -> Result<(), AllocError>
    requires { length values.now ≡ rows * cols }
    ensures { OnOk result (text.new.items ≡ text.old.items ++ rows_text rows cols values.now) }
{
    let mut left = rows;
    let mut rest = values;
    while left > 0 {
        let (row, behind) = rest.split_at(cols as usize);
        push_row(text, row)?;
        rest = behind;
        left -= 1;
    }
    Ok(())
}

fn push_array(text: &mut Vec<u8>, name: &Name, array: &Array) -> Result<(), AllocError>
    ensures { OnOk result (text.new.items ≡ text.old.items ++ array_text name.now array.now) }
{
    push_heading(text, name, array.elem, array.shape)?;
    push_rows(text, array.shape.rows, array.shape.cols, &array.values)
}

/// The text of the arrays, in their order: for each a line `NAME TYPE[R,C]`, and a line for each row with its values in
/// decimal and one space between. Each line ends with byte 10.
pub fn write_arrays(alloc: Global, arrays: &Arrays) -> Result<Vec<u8>, AllocError>
    ensures text { IfOk result (λ text. text.items ≡ arrays_text arrays.now) }
    ensures denotes { IfOk result (λ text. DenotesArrays text.items arrays.now) }
{
    let mut text = Vec::new(alloc);
    for k in 0..arrays.len() {
        push_array(&mut text, arrays.name(k), arrays.array(k))?;
    }
    Ok(text)
}
