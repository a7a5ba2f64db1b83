//! Shapes and index maps.
use crate::words::{count, number};
use std::alloc::Global;
use std::str::SplitWhitespace;
use ven_base::{Mapping, Shape};

/// `shape ROWS COLUMNS`: the shape, or `none`.
pub fn shape(alloc: Global, rest: &str) -> Option<String> {
    let mut words = rest.split_whitespace();
    let rows = count(&mut words)?;
    let cols = count(&mut words)?;
    match Shape::new(rows, cols) {
        Some(shape) => format!(in alloc; "{},{}", shape.rows, shape.cols).ok(),
        None => String::from_str(alloc, "none").ok(),
    }
}

/// A section's words.
fn section(words: &mut SplitWhitespace<'_>) -> Option<Mapping> {
    Some(Mapping::Section {
        r0: count(words)?,
        nr: count(words)?,
        sr: count(words)?,
        c0: count(words)?,
        nc: count(words)?,
        sc: count(words)?,
    })
}

/// The mapping that the words name.
fn mapping(words: &mut SplitWhitespace<'_>) -> Option<Mapping> {
    match words.next()? {
        "identity" => Some(Mapping::Identity),
        "shift" => Some(Mapping::Shift {
            dr: number(words)?,
            dc: number(words)?,
            fill: 7,
        }),
        "rotate" => Some(Mapping::Rotate {
            dr: number(words)?,
            dc: number(words)?,
        }),
        "section" => section(words),
        "stretch" => Some(Mapping::Stretch {
            kr: count(words)?,
            kc: count(words)?,
        }),
        "transpose" => Some(Mapping::Transpose),
        _ => None,
    }
}

/// The result's shape, and the source of each of its indices, row by row.
fn sources(alloc: Global, mapping: &Mapping, of: Shape) -> Option<String> {
    if !mapping.fits(of) {
        return String::from_str(alloc, "no fit").ok();
    }
    let onto = mapping.result(of);
    let mut text = format!(in alloc; "{},{}:", onto.rows, onto.cols).ok()?;
    for i in 0..onto.rows {
        for j in 0..onto.cols {
            text = match mapping.source(of, i, j) {
                Some((row, col)) => format!(in alloc; "{text} {row},{col}").ok()?,
                None => format!(in alloc; "{text} out").ok()?,
            };
        }
    }
    Some(text)
}

/// `map ROWS COLUMNS MAPPING ..`: the shape and the sources of the result of an array of this shape, or `no fit`.
pub fn map(alloc: Global, rest: &str) -> Option<String> {
    let mut words = rest.split_whitespace();
    let rows = count(&mut words)?;
    let cols = count(&mut words)?;
    let mapping = mapping(&mut words)?;
    sources(alloc, &mapping, Shape::new(rows, cols)?)
}
