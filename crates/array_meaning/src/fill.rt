//! Arrays made place by place.

ghost use Rattle.std.specs.Prelude.{◌≡◌, ◌<◌, ℕ, ℤ, IfOk, map};
ghost use Rattle.std.specs.List.{range_with_len};

use std::alloc::{AllocError, Global};

/// Something with a value at each place of an array, counted row by row from 0.
pub(crate) trait Source {
    ghost value_at: { Self → ℕ → ℤ };

    ghost HasValue: { Self → ℕ → Type 0 };

    /// The value at a place.
    fn value(&self, place: usize) -> i64
        requires { HasValue self.now place }
        ensures { result ≡ value_at self.now place };
}

/// The values at so many places. It is part of its caller, so that its loop is compiled for the source.
#[inline(always)]
pub(crate) fn filled<S: Source>(
    alloc: Global,
    count: usize,
    source: &S,
) -> Result<Vec<i64>, AllocError>
    requires { (place : ℕ) → place < count → S.HasValue source.now place }
    ensures { IfOk result (λ v. v.items ≡ map (S.value_at source.now) (range_with_len 0 count)) }
{
    let mut values = Vec::with_capacity(alloc, count)?;
    for place in 0..count {
        values.push(source.value(place))?;
    }
    Ok(values)
}
