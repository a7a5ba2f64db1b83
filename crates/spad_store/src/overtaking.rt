//! What a unit keeps to that may go on with its second work.

ghost use Rattle.std.specs.Prelude.{◌≡◌, ℕ, ◌<◌, ◌↔◌, length, All, IsTrue, IsFalse};
ghost use Rattle.ven_base.specs.Store.{store_of, store_size, IsInRange};
ghost use Rattle.ven_base.specs.Job.{jobs_beaten, store_beaten};
ghost use Rattle.spad_store.specs.Tagged.{tagged_among};

use crate::{MainMem, Spad, Unit};

/// A unit that may also do a beat of its queue's second work, so that this one overtakes the first (docs/MACHINE.md,
/// "Units"), and whose works have tags. A beat of the first work and a beat of the second are one law at two places of
/// the queue: the laws of `Unit` hold of a beat of whichever job.
pub trait Overtaking: Unit {
    /// The tag of a work.
    ghost tag_of: { Self.Work → ℕ };

    /// Does the next beat of the queue's second work, and takes the work out of the queue with its last beat; every
    /// other job stays as it is, the first too. False, with nothing changed, exactly where the queue has fewer than
    /// two works. Condition: the footprints of all works of the queue lie in `cells` and `memory`.
    fn beat_second(&mut self, cells: &mut Spad, memory: &mut MainMem) -> bool
        requires { All (λ job. IsInRange (Self.reads job.work) (Self.writes job.work)
            (store_size (store_of cells.old memory.old))) (Self.jobs self.old) }

        ensures beaten { IsTrue result ↔ (1 < length (Self.jobs self.old)) }
        ensures unchanged { IsFalse result → self.new ≡ self.old }

        ensures store { store_of cells.new memory.new
            ≡ store_beaten (Self.course (Self.setting self.old)) 1 (Self.jobs self.old)
            (store_of cells.old memory.old) }
        ensures jobs { Self.jobs self.new
            ≡ jobs_beaten (Self.course (Self.setting self.old)) 1 (Self.jobs self.old)
            (store_of cells.old memory.old) }
        ensures same_setting { Self.setting self.new ≡ Self.setting self.old };

    /// How many works of the queue have this tag, the current one among them.
    fn tagged(&self, tag: u32) -> u32
        ensures { result ≡ tagged_among tag_of tag (Self.jobs self.now) };
}
