//! Several beats of a work, one after another.
ghost use Rattle.std.specs.Prelude.{ℕ, ◌+◌, ◌<◌, ◌^◌, List, length};
ghost use Rattle.ven_base.specs.Store.{store_of, cells_alone};
ghost use Rattle.venice_isa.specs.declared.issue.Issue.TheVariants.{Vector};
ghost use Rattle.venice_isa.specs.Footprint.{HasFootprint};
ghost use Rattle.venice_isa.specs.Whole.{HasCounts};
ghost use Rattle.venice_isa.specs.Beat.{vector_beats};
ghost use Rattle.lane_machine.specs.Current.{IsUnderWay};
ghost use Rattle.lane_machine.specs.ToGo.{HasComeOn};

use crate::current::Current;
use crate::group::beat;
use spad_store::Spad;
use venice_isa::VecWork;

/// Does so many beats of a work on so many lanes, none of them its last.
pub(crate) fn beats(lanes: u32, work: &VecWork, current: &mut Current, count: u64, cells: &mut Spad)
    requires some_lanes { 0 < lanes }
    requires counts { HasCounts work.now }
    requires under_way { IsUnderWay lanes work.now current.old }
    requires inside { HasFootprint (cells_alone (length cells.old)) (Vector work.now) }
    requires small { length cells.old < 2 ^ 32 }
    requires more { current.old.done + count < vector_beats work.now lanes }
    ensures { (memory : List ℕ) →
        HasComeOn lanes work.now count current.old (store_of cells.old memory) current.new (store_of cells.new memory) }
{
    // The work goes on by as many elements on these lanes as it keeps itself.
    let _ = lanes;
    for _k in 0..count {
        let items = current.count(work);
        let sum = beat(cells, work, current, items);
        current.advance(work, items, sum);
    }
}
