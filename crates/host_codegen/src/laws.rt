//! What holds of the program of a split, as functions without arguments whose contracts are the laws.
ghost use Rattle.host_codegen.specs.CodeLaws.{ProgramsIssueTheirLists, ProgramsAreClosed, ProgramsTakeFew};
ghost use Rattle.host_codegen.specs.CostLaws.{CodeFitsItsRoom, RoomIsBounded, LeavesAreFew, RoomIsEnough, RoomsAreSmall, StepsAreBounded};
ghost use Rattle.host_codegen.specs.Examples.{WorkedRows};
ghost use Rattle.host_codegen.specs.SplitFits.{ProgramsFit};

/// The program of a sound split, in a scratchpad that holds its need, issues the split's pipelined list. It reads
/// registers in use alone, and takes no more than there are.
pub fn program_laws()
    ensures lists { ProgramsIssueTheirLists }
    ensures closed { ProgramsAreClosed }
    ensures few { ProgramsTakeFew }
{}

/// The program of a sound split, in a scratchpad that holds its need, has the same list by the host's 32-bit numbers as
/// by exact values.
pub fn fit_laws()
    ensures { ProgramsFit }
{}

/// The code of a split fits its room, which is bounded by numbers of passes, nodes and leaves; its steps and all beats
/// of its list are within the bound of the passes.
pub fn cost_laws()
    ensures room { CodeFitsItsRoom }
    ensures bounded { RoomIsBounded }
    ensures steps { StepsAreBounded }
{}

/// The room of a sound split by numbers of nodes and of leaves under maps: within an image's, and within 32 bits.
pub fn room_laws()
    ensures leaves { LeavesAreFew }
    ensures enough { RoomIsEnough }
    ensures small { RoomsAreSmall }
{}

/// What the programs of small splits issue.
pub fn worked_rows()
    ensures { WorkedRows }
{}
