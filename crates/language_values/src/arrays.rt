//! Array files, and tables that their arrays fit.
use crate::texts::MOST;
use crate::words;
use array_file::{ArrayFault, FitFault, fit, read_arrays, write_arrays};
use std::alloc::Global;
use std::str::SplitWhitespace;
use ven_base::{Arrays, Entry, Name, Shape};

fn text_of(name: &Name) -> &str {
    std::str::from_utf8(name.bytes()).unwrap_or("?")
}

fn fault_line(alloc: Global, fault: &ArrayFault) -> Option<String> {
    match fault {
        ArrayFault::Unexpected { at } => format!(in alloc; "unexpected {at}").ok(),
        ArrayFault::OutOfType { at } => format!(in alloc; "out of type {at}").ok(),
        ArrayFault::CountWrong { name, need, have } => {
            let name = text_of(name);
            format!(in alloc; "count {name} need {need} have {have}").ok()
        }
        ArrayFault::Twice { name } => format!(in alloc; "twice {}", text_of(name)).ok(),
        ArrayFault::Memory => None,
    }
}

/// `arrays TEXT`: the lines of its arrays, or its fault.
pub fn written(alloc: Global, rest: &str) -> Option<String> {
    let bytes = words::bytes(alloc, rest)?;
    if bytes.len() > MOST {
        return None;
    }
    match read_arrays(alloc, &bytes) {
        Ok(arrays) => String::from_utf8(write_arrays(alloc, &arrays).ok()?).ok(),
        Err(fault) => fault_line(alloc, &fault),
    }
}

fn values_in(arrays: &Arrays) -> u32 {
    let mut count = 0u32;
    for k in 0..arrays.len() {
        count = count.saturating_add(arrays.array(k).shape.elements());
    }
    count
}

/// `count TEXT`: how many values its arrays have, or its fault.
pub fn count(alloc: Global, rest: &str) -> Option<String> {
    let bytes = words::bytes(alloc, rest)?;
    if bytes.len() > MOST {
        return None;
    }
    match read_arrays(alloc, &bytes) {
        Ok(arrays) => format!(in alloc; "{} values", values_in(&arrays)).ok(),
        Err(fault) => fault_line(alloc, &fault),
    }
}

/// An entry: its name, `in` or `out`, its type, rows and columns.
fn entry(name: &str, words: &mut SplitWhitespace<'_>) -> Option<Entry> {
    let name = Name::from_bytes(name.as_bytes())?;
    let output = words.next()? == "out";
    let elem = words::elem(words)?;
    let rows = words::count(words)?;
    let cols = words::count(words)?;
    Some(Entry {
        name,
        output,
        elem,
        shape: Shape::new(rows, cols)?,
        place: 0,
    })
}

fn table(alloc: Global, text: &str) -> Option<Vec<Entry>> {
    let mut entries = Vec::new(alloc);
    let mut words = text.split_whitespace();
    for _ in 0..9 {
        let Some(name) = words.next() else {
            return Some(entries);
        };
        entries.push(entry(name, &mut words)?).ok()?;
    }
    Some(entries)
}

fn misfit_line(alloc: Global, fault: &FitFault) -> Option<String> {
    match fault {
        FitFault::Missing { name } => format!(in alloc; "missing {}", text_of(name)).ok(),
        FitFault::TypeWrong { name } => format!(in alloc; "type {}", text_of(name)).ok(),
        FitFault::ShapeWrong { name } => format!(in alloc; "shape {}", text_of(name)).ok(),
        FitFault::Extra { name } => format!(in alloc; "extra {}", text_of(name)).ok(),
    }
}

fn misfit(alloc: Global, arrays: &Arrays, entries: &[Entry]) -> Option<String> {
    match fit(arrays, entries) {
        Ok(()) => String::from_str(alloc, "fit").ok(),
        Err(fault) => misfit_line(alloc, &fault),
    }
}

/// `fit TEXT@ENTRY ..`: `fit`, or the first misfit of these arrays and a table of these entries.
pub fn fitted(alloc: Global, rest: &str) -> Option<String> {
    let (text, table_text) = rest.split_once('@')?;
    let bytes = words::bytes(alloc, text)?;
    if bytes.len() > MOST {
        return None;
    }
    match read_arrays(alloc, &bytes) {
        Ok(arrays) => misfit(alloc, &arrays, &table(alloc, table_text)?),
        Err(fault) => fault_line(alloc, &fault),
    }
}
