//! What every unit of the machine keeps to.

ghost use Rattle.std.specs.Prelude.{◌≡◌, ℕ, ◌<◌, ◌↔◌, List, [], ◌∷◌, ◌++◌, length, slice_get, All, Some, IsTrue, IsFalse, IsErr, OnOk, OnErr, IfErr};
ghost use Rattle.ven_base.specs.Store.{Place, Store, Size, store_of, store_size, IsInRange, AgreeOn};
ghost use Rattle.ven_base.specs.Job.{Job, Course, IsReady, KeepsToFootprint, new_job, works_of, jobs_beaten, store_beaten};
ghost use Rattle.ven_base.specs.Beats.{HasMore, jobs_after_beats, store_after_beats};
ghost use Rattle.spad_store.specs.Queue.{IsQueue};

use crate::{MainMem, Spad};

/// A unit of the machine: a queue of works, of which the first is done beat by beat (docs/MACHINE.md, "Units").
///
/// The queue is a list of jobs, each an unfinished work with its own progress. What a work is, which places it reads
/// and writes and what its beats are is for each unit to say. The law holds of every unit: a beat, of whichever job,
/// keeps to its work's footprint. It changes only what the work writes, what it does depends only on what the work
/// reads, and it brings the work one beat nearer to its end.
pub trait Unit {
    /// What the unit does.
    type Work;

    /// How far a work has come.
    ghost Progress: { Type 0 };

    /// What a unit is made with, which stays as it is.
    ghost Setting: { Type 0 };

    /// What a unit can be made with.
    ghost can_have: { Setting → Type 0 };

    /// No count of the work is 0.
    ghost has_counts: { Self.Work → Type 0 };

    /// The places that a work reads and writes over all its beats.
    ghost reads: { Self.Work → Place → Type 0 };

    ghost writes: { Self.Work → Place → Type 0 };

    /// How works go: how many beats each takes, how many are done, and what the next one leaves.
    ghost course: { Setting → Course Self.Work Progress };

    /// How many places the queue has.
    ghost places: { ℕ };

    /// The unfinished works with their progress, the current one first.
    ghost jobs: { Self → List (Job Self.Work Progress) };

    /// What the unit was made with.
    ghost setting: { Self → Setting };

    /// Puts a work last into the queue, with no beat done. Condition: no count of the work is 0. Err gives the work
    /// back, with nothing changed, exactly where the queue is full.
    fn offer(&mut self, work: Self::Work) -> Result<(), Self::Work>
        requires { has_counts work }

        ensures full { IsErr result ↔ (length (jobs self.old) ≡ places) }
        ensures given_back { IfErr result (λ back. back ≡ work) }
        ensures unchanged { OnErr result (self.new ≡ self.old) }

        ensures jobs { OnOk result (jobs self.new ≡ jobs self.old ++ new_job (course (setting self.old)) work ∷ []) }
        ensures same_setting { setting self.new ≡ setting self.old };

    /// The number of works in the queue, the current one among them.
    fn unfinished(&self) -> u32
        ensures count { result ≡ length (jobs self.now) }
        ensures in_order { IsQueue (course (setting self.now)) has_counts places (jobs self.now) }
        ensures setting { can_have (setting self.now) };

    /// A work of the queue, counted from 0 at its front. Condition: `k` is below `unfinished`.
    fn work(&self, k: u32) -> &Self::Work
        requires { k < length (jobs self.now) }
        ensures { slice_get (works_of (jobs self.now)) k ≡ Some result.now };

    /// Does the next beat of the queue's first work, and takes the work out of the queue with its last beat; every
    /// other job stays as it is. False, with nothing changed, exactly where the queue is empty. Condition: the
    /// footprints of all works of the queue lie in `cells` and `memory`.
    fn beat(&mut self, cells: &mut Spad, memory: &mut MainMem) -> bool
        requires { All (λ job.
            IsInRange (reads job.work) (writes job.work) (store_size (store_of cells.old memory.old))) (jobs self.old) }

        ensures beaten { IsTrue result ↔ (0 < length (jobs self.old)) }
        ensures unchanged { IsFalse result → self.new ≡ self.old }

        ensures store { store_of cells.new memory.new
            ≡ store_beaten (course (setting self.old)) 0 (jobs self.old) (store_of cells.old memory.old) }
        ensures jobs { jobs self.new
            ≡ jobs_beaten (course (setting self.old)) 0 (jobs self.old) (store_of cells.old memory.old) }
        ensures same_setting { setting self.new ≡ setting self.old };

    /// How many beats of the queue's first work may be made at once: all that it has left but the last. Of an empty
    /// queue any number.
    fn spare(&self) -> u64
        ensures { HasMore (course (setting self.now)) result (jobs self.now) };

    /// Does so many beats of the queue's first work at once, none of them its last: what as many calls of `beat` do. Of
    /// an empty queue nothing. Conditions: the work has more beats left, and the footprints of all works of the queue lie
    /// in `cells` and `memory`.
    fn beats(&mut self, count: u64, cells: &mut Spad, memory: &mut MainMem)
        requires more { HasMore (course (setting self.old)) count (jobs self.old) }
        requires inside { All (λ job.
            IsInRange (reads job.work) (writes job.work) (store_size (store_of cells.old memory.old))) (jobs self.old) }

        ensures store { store_of cells.new memory.new
            ≡ store_after_beats (course (setting self.old)) count (jobs self.old) (store_of cells.old memory.old) }
        ensures jobs { jobs self.new
            ≡ jobs_after_beats (course (setting self.old)) count (jobs self.old) (store_of cells.old memory.old) }
        ensures same_setting { setting self.new ≡ setting self.old };

    /// A work that has counts begins with no beat done, and takes one at least.
    ghost begins: { (made : Setting) (work : Self.Work) → can_have made → has_counts work →
        ((course made).done (course made).not_begun ≡ 0) × (0 < (course made).beats work) };

    /// A work's footprint lies in stores of some size.
    ghost has_an_end: { (work : Self.Work) → (size : Size) × IsInRange (reads work) (writes work) size };

    /// The next beat of a job keeps to its work's footprint, in any two stores that have it.
    ghost keeps_to_footprint: { (made : Setting) (job : Job Self.Work Progress) (first second : Store) →
        can_have made → IsReady (course made) reads writes job (store_size first) →
        IsReady (course made) reads writes job (store_size second) → AgreeOn (reads job.work) first second →
        KeepsToFootprint (course made) writes job first second };
}
