//! Named arrays, with values worked out by hand.
use std::alloc::{AllocError, Global};
use std::test::Fail;
use ven_base::Elem::{self, I8, U8};
use ven_base::{Array, Arrays, Name, Shape};

/// An array of one row with these values.
fn row(alloc: Global, elem: Elem, values: &[i64]) -> Result<Option<Array>, AllocError> {
    let values = Vec::from_slice(alloc, values)?;
    match Shape::new(1, values.len().min(99) as u32) {
        Some(shape) => Ok(Array::new(elem, shape, values)),
        None => Ok(None),
    }
}

/// Adds an array of one row, and says whether it was added.
fn add(alloc: Global, arrays: &mut Arrays, name: Name, elem: Elem, values: &[i64]) -> Option<bool> {
    let array = row(alloc, elem, values).ok()??;
    if arrays.len() > 9 {
        return None;
    }
    arrays.add(name, array).ok()
}

/// Whether there is an array of this name, of one row with these values.
fn has(arrays: &Arrays, name: &Name, values: &[i64]) -> bool {
    match arrays.get(name) {
        Some(array) => array.shape.rows == 1 && array.values.as_slice() == values,
        None => false,
    }
}

/// Two arrays, `second` before `first`.
fn two_arrays(alloc: Global, first: Name, second: Name) -> Option<Arrays> {
    let mut arrays = Arrays::new(alloc);
    if !arrays.is_empty() {
        return None;
    }
    if add(alloc, &mut arrays, second, U8, &[1, 2, 255])?
        && add(alloc, &mut arrays, first, I8, &[-128])?
    {
        return Some(arrays);
    }
    None
}

#[test]
fn keeps_arrays_in_order(rt: HostRuntime) {
    let first = Name::from_bytes(b"first").expect(&rt, "a name");
    let second = Name::from_bytes(b"second").expect(&rt, "a name");
    let arrays = two_arrays(rt.alloc(), first, second).expect(&rt, "two arrays");
    assert!(rt; arrays.len() == 2);
    assert!(rt; arrays.name(0) == &second && arrays.name(1) == &first);
    assert!(rt; arrays.array(1).values.as_slice() == [-128].as_slice());
}

#[test]
fn finds_arrays_by_name(rt: HostRuntime) {
    let first = Name::from_bytes(b"first").expect(&rt, "a name");
    let second = Name::from_bytes(b"second").expect(&rt, "a name");
    let mut arrays = two_arrays(rt.alloc(), first, second).expect(&rt, "two arrays");
    assert!(rt; add(rt.alloc(), &mut arrays, second, U8, &[9]) == Some(false));
    assert!(rt; arrays.len() == 2);
    assert!(rt; has(&arrays, &second, &[1, 2, 255]) && has(&arrays, &first, &[-128]));
    let third = Name::from_bytes(b"third").expect(&rt, "a name");
    assert!(rt; arrays.get(&third).is_none());
}

#[test]
fn an_array_has_numbers_of_its_type(rt: HostRuntime) -> Result<(), Fail> {
    assert!(rt; row(rt.alloc(), U8, &[256])?.is_none());
    let array = row(rt.alloc(), U8, &[1, 2, 255])?.expect(&rt, "an array");
    assert!(rt; array.shape.rows == 1 && array.shape.cols == 3);
    assert!(rt; array.value(0, 2) == 255);
    Ok(())
}
