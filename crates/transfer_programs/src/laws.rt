//! What holds of the programs of transfers, as functions without arguments whose contracts are the laws.
ghost use Rattle.transfer_programs.specs.FitLaws.{ReadsFit, WritesFit, FillsFit};
ghost use Rattle.transfer_programs.specs.ReadLaws.{LeavesIssueTheirReads, PiecesIssueTheirWrite, ReadsAreClosed, WritesAreClosed, ReadsTakeFew, WritesTakeFew};
ghost use Rattle.transfer_programs.specs.FillLaws.{FillsAreIssued, FillsAreClosed, FillsTakeFew};
ghost use Rattle.transfer_programs.specs.CostLaws.{CodeHasSize, CodeTakesSteps, LeavesTakeTheirRoom, WritesTakeTheirRoom, FillsTakeTheirRoom, LeavesTakeFewSteps, WritesTakeFewSteps, FillsTakeFewSteps};
ghost use Rattle.transfer_programs.specs.Examples.{WorkedRows};

/// The program that brings a leaf's piece issues the piece's commands, with its tag; and that which takes a piece to
/// its array issues its command. Both read registers in use alone, and take few.
pub fn transfer_laws()
    ensures reads { LeavesIssueTheirReads }
    ensures write { PiecesIssueTheirWrite }
    ensures closed_reads { ReadsAreClosed }
    ensures closed_write { WritesAreClosed }
    ensures few_reads { ReadsTakeFew }
    ensures few_write { WritesTakeFew }
{}

/// The program that fills what has no source in a leaf's piece issues the moves of the piece's fills. It reads
/// registers in use alone, and takes few.
pub fn fill_laws()
    ensures fills { FillsAreIssued }
    ensures closed { FillsAreClosed }
    ensures few { FillsTakeFew }
{}

/// What is issued for a few small pieces.
pub fn worked_rows()
    ensures { WorkedRows }
{}

/// A program's code has its size and takes no more than its steps by exact values, where it fits; and the programs of
/// pieces have few instructions, and take few steps for each element, by the kind of map.
pub fn cost_laws()
    ensures size { CodeHasSize }
    ensures steps { CodeTakesSteps }
    ensures room_reads { LeavesTakeTheirRoom }
    ensures room_write { WritesTakeTheirRoom }
    ensures room_fills { FillsTakeTheirRoom }
    ensures steps_reads { LeavesTakeFewSteps }
    ensures steps_write { WritesTakeFewSteps }
    ensures steps_fills { FillsTakeFewSteps }
{}

/// Where a piece can be read, written or filled, its program's list by the host's 32-bit numbers is that by exact
/// values.
pub fn fit_laws()
    ensures reads { ReadsFit }
    ensures write { WritesFit }
    ensures fills { FillsFit }
{}
