//! The laws of overlap (docs/PROOFS.md, "Overlap"), each as a function without arguments whose contract is the law.
//! They hold of every run of every image: all inputs, numbers of lanes, scratchpads, grant lists and budgets.

ghost use Rattle.overlap_law.specs.Laws.{Finishing, LeavesTheSame, StartHasSizes, NoHazard, DisciplinedRunsHalt, InFlightUntilEnded, SomeUnitSteps, RunsEnd, AtHalt, SameSteps, FewCycles};

/// At every moment of a run, those between the turns of a cycle among them, finishing the unfinished works in the order
/// of their issue gives what the issues so far give, one after another. So any two runs of one image with the same
/// inputs, lanes and scratchpad that come to HALT leave the same cells and memory. The sizes of both at the start are the
/// setting's.
pub fn finishing()
    ensures moments { Finishing }
    ensures same { LeavesTheSame }
    ensures sizes { StartHasSizes }
{}

/// A run of code whose list of issues is disciplined meets no hazard; and it comes to HALT, where each of its works has
/// counts and lies in range, and the budget has room for the steps of the host and the beats of the list. Which works
/// may be in flight is what docs/MACHINE.md says ("Lists that meet no hazard").
pub fn no_hazard()
    ensures none { NoHazard }
    ensures halts { DisciplinedRunsHalt }
    ensures in_flight { InFlightUntilEnded }
{}

/// While a run goes on, the host or a unit can step, where a host that meets a stop counts as one that steps. So every
/// run ends.
pub fn some_unit_steps()
    ensures steps { SomeUnitSteps }
    ensures ends { RunsEnd }
{}

/// A run that comes to HALT leaves what its code's list leaves, one issue after another. It has as many steps as the
/// host's, HALT's among them, and the beats of the list together, so that two runs of one code on as many lanes have
/// the same number; and at most as many cycles as steps and grants of its list.
pub fn same_steps()
    ensures same { SameSteps }
    ensures halt { AtHalt }
    ensures cycles { FewCycles }
{}
