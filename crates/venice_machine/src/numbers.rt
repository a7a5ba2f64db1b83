//! The issue numbers of a queue.
ghost use Rattle.std.specs.Prelude.{◌≡◌, ◌⊎◌, ◌<◌, ◌≤◌, length};
ghost use Rattle.venice_machine.specs.Kept.{numbers_left};

use arrayvec::ArrayVec;

/// The issue numbers of a queue's works, at most eight, the current work's first.
pub(crate) type Numbers = ArrayVec<u64, 8>;

/// Takes the number at a place out, where so many works are left and these are fewer.
pub(crate) fn settle(numbers: &mut Numbers, k: u32, left: u32)
    requires { length numbers.old.items ≤ left ⊎ k < length numbers.old.items }
    ensures { numbers.new.items ≡ numbers_left k left numbers.old.items }
{
    if (left as usize) < numbers.len() {
        numbers.remove(k as usize);
    }
}
