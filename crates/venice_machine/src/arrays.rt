//! Arrays in the machine's memory.
ghost use Rattle.std.specs.Prelude.{◌≡◌, ◌≢◌, ◌+◌, ◌<◌, ◌≤◌, [], ◌∷◌, length, map, All, AllPairs, Some, IfOk};
ghost use Rattle.ven_base.specs.Elem.{size_of};
ghost use Rattle.ven_base.specs.Extent.{IsExtent};
ghost use Rattle.venice_isa.specs.Cell.{overwritten, part};
ghost use Rattle.venice_isa.specs.Element.{low_bytes, little_endian, number_of};
ghost use Rattle.array_file.specs.Fitting.{Fits};
ghost use Rattle.image_loader.specs.Table.{array_limit};
ghost use Rattle.venice_machine.specs.Start.{array_bytes, with_inputs, array_in, outputs_in};
ghost use Rattle.venice_machine.specs.Inside.{AllStandIn};

use spad_store::MainMem;
use std::alloc::{AllocError, Global};
use ven_base::{Array, Arrays, Elem, Entry, bits_of, number_of};

/// Puts each input of the table at its place.
pub(crate) fn put_inputs(memory: &mut MainMem, table: &[Entry], inputs: &Arrays)
    requires inside { AllStandIn (length memory.old) table.now }
    requires fits { Fits inputs.now table.now }
    ensures memory { memory.new ≡ with_inputs table.now inputs.now memory.old }
    ensures same_length { length memory.new ≡ length memory.old }
{
    // What is known of every array shows in their number.
    let _ = inputs.len();
    for entry in table {
        if !entry.output {
            if let Some(array) = inputs.get(&entry.name) {
                put_array(memory, entry.place, array);
            }
        }
    }
}

fn put_array(memory: &mut MainMem, place: u32, array: &Array)
    requires inside { place + length (array_bytes array.now) ≤ length memory.old }
    ensures memory { memory.new ≡ overwritten memory.old place (array_bytes array.now) }
    ensures same_length { length memory.new ≡ length memory.old }
{
    // A place in memory is a number of 32 bits.
    let _ = memory.len();
    let size = array.elem.size();
    let mut next_place = place;
    for value in array.values.iter() {
        put_low(memory, next_place, size, bits_of(array.elem, *value));
        next_place += size;
    }
}

/// Puts so many bytes of a number at a place, the lowest first.
fn put_low(memory: &mut MainMem, place: u32, count: u32, number: u32)
    requires { place + count ≤ length memory.old }
    ensures { memory.new ≡ overwritten memory.old place (low_bytes count number) }
{
    // A place in memory is a number of 32 bits.
    let _ = memory.len();
    let mut rest = number;
    for k in 0..count {
        memory.put(place + k, (rest % 256) as u8);
        rest /= 256;
    }
}

/// The arrays of the table's outputs as memory holds them, in the order of the table.
pub(crate) fn outputs(
    alloc: Global,
    memory: &MainMem,
    table: &[Entry],
) -> Result<Arrays, AllocError>
    requires inside { AllStandIn (length memory.now) table.now }
    requires distinct { AllPairs (λ x y. x ≢ y) (map (λ entry. entry.name) table.now) }
    requires shapes { All (λ entry. IsExtent entry.shape) table.now }
    requires few { length table.now ≤ array_limit }
    ensures { IfOk result (λ arrays. arrays ≡ outputs_in memory.now table.now) }
{
    let mut arrays = Arrays::new(alloc);
    for entry in table {
        if entry.output {
            if let Some(array) = array_in(alloc, memory, entry)? {
                arrays.add(entry.name, array)?;
            }
        }
    }
    Ok(arrays)
}

/// The array at an entry's place.
fn array_in(alloc: Global, memory: &MainMem, entry: &Entry) -> Result<Option<Array>, AllocError>
    requires inside { AllStandIn (length memory.now) (entry.now ∷ []) }
    requires shape { IsExtent entry.now.shape }
    ensures { IfOk result (λ array. array ≡ Some (array_in memory.now entry.now)) }
{
    // A place in memory is a number of 32 bits.
    let _ = memory.len();
    let size = entry.elem.size();
    let count = entry.shape.elements();
    let mut values = Vec::with_capacity(alloc, count as usize)?;
    for k in 0..count {
        values.push(element_at(memory, entry.elem, entry.place + k * size))?;
    }
    Ok(Array::new(entry.elem, entry.shape, values))
}

/// The number that stands at a place.
fn element_at(memory: &MainMem, elem: Elem, place: u32) -> i64
    requires { place + size_of elem ≤ length memory.now }
    ensures { result ≡ number_of elem (part memory.now place (size_of elem)) }
{
    number_of(elem, bits_at(memory, elem, place))
}

/// The bits that stand at a place, the lowest byte first.
fn bits_at(memory: &MainMem, elem: Elem, place: u32) -> u32
    requires { place + size_of elem ≤ length memory.now }
    ensures { result ≡ little_endian (part memory.now place (size_of elem)) }
{
    // A place in memory is a number of 32 bits.
    let _ = memory.len();
    match elem {
        Elem::U8 | Elem::I8 => u32::from(memory.byte(place)),
        Elem::U16 | Elem::I16 => two_bytes(memory, place),
        Elem::U32 | Elem::I32 => two_bytes(memory, place) + 65_536 * two_bytes(memory, place + 2),
    }
}

fn two_bytes(memory: &MainMem, place: u32) -> u32
    requires { place + 2 ≤ length memory.now }
    ensures value { result ≡ little_endian (part memory.now place 2) }
    ensures few { result < 65536 }
{
    // A place in memory is a number of 32 bits.
    let _ = memory.len();
    u32::from(memory.byte(place)) + 256 * u32::from(memory.byte(place + 1))
}
