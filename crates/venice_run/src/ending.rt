//! How a command ends without its output.

ghost use Rattle.std.specs.Prelude.{◌≡◌, IfOk};
ghost use Rattle.venice_run.specs.Line.{status_of, line_of};

use crate::line::{Part, line_with, refusal_line};
use crate::refusal::{Refusal, Shortage};
use array_file::ArrayFault;
use array_syntax::ParseFault;
use image_loader::ImageFault;
use shape_check::CheckFault;
use std::alloc::{AllocError, AllocFailed, Global};
use venice_asm::AsmFault;
use venice_machine::{GrantFault, Stop};

/// A fault of the outside.
#[derive(Clone, Copy)]
pub enum Fault {
    /// A load failed.
    File,
    /// Memory ran out.
    Memory,
}

/// A command ends without its output: by a refusal, or by a fault of the outside.
#[derive(Clone, Copy)]
pub enum Ending {
    /// The command's first refusal.
    Refused(Refusal),
    /// A load failed, or memory ran out.
    Failed(Fault),
}

/// The status where memory ran out.
pub(crate) const MEMORY_STATUS: u8 = 10;

impl Ending {
    /// The status that the program ends with.
    pub fn status(&self) -> u8
        ensures { result ≡ status_of self.now }
    {
        match self {
            Ending::Refused(refusal) => refusal.status(),
            Ending::Failed(Fault::File) => 8,
            Ending::Failed(Fault::Memory) => MEMORY_STATUS,
        }
    }

    /// The line that is printed, with its line end. `AllocError` where there is no memory for the line.
    pub fn line(self, alloc: Global) -> Result<Vec<u8>, AllocError>
        ensures { IfOk result (λ line. line.items ≡ line_of self) }
    {
        match self {
            Ending::Refused(refusal) => refusal_line(alloc, refusal),
            Ending::Failed(Fault::File) => line_with(alloc, &[Part::Words(b"file")]),
            Ending::Failed(Fault::Memory) => line_with(alloc, &[Part::Words(b"memory")]),
        }
    }
}

impl From<AllocError> for Ending {
    ghost use Rattle.venice_run.specs.declared.ending.Ending.TheVariants.{Failed};
    ghost use Rattle.venice_run.specs.declared.ending.Fault.TheVariants.{Memory};

    ghost from_gives = { λ _ ending. ending ≡ Failed Memory };

    fn from(_: AllocError) -> Ending {
        Ending::Failed(Fault::Memory)
    }
}

impl<T: Drop> From<AllocFailed<T>> for Ending {
    ghost use Rattle.venice_run.specs.declared.ending.Ending.TheVariants.{Failed};
    ghost use Rattle.venice_run.specs.declared.ending.Fault.TheVariants.{Memory};

    ghost from_gives = { λ _ ending. ending ≡ Failed Memory };

    fn from(_: AllocFailed<T>) -> Ending {
        Ending::Failed(Fault::Memory)
    }
}

impl From<Shortage> for Ending {
    ghost use Rattle.venice_run.specs.declared.ending.Ending.TheVariants.{Refused};
    ghost use Rattle.venice_run.specs.declared.refusal.Refusal.TheVariants.{Scratchpad};

    ghost from_gives = { λ shortage ending. ending ≡ Refused (Scratchpad shortage) };

    fn from(shortage: Shortage) -> Ending {
        Ending::Refused(Refusal::Scratchpad(shortage))
    }
}

impl From<ParseFault> for Ending {
    ghost use Rattle.venice_run.specs.Endings.{parse_ending};

    ghost from_gives = { λ fault ending. ending ≡ parse_ending fault };

    fn from(fault: ParseFault) -> Ending {
        match fault {
            ParseFault::Memory => Ending::Failed(Fault::Memory),
            fault => Ending::Refused(Refusal::Parse(fault)),
        }
    }
}

impl From<CheckFault> for Ending {
    ghost use Rattle.venice_run.specs.Endings.{check_ending};

    ghost from_gives = { λ fault ending. ending ≡ check_ending fault };

    fn from(fault: CheckFault) -> Ending {
        match fault {
            CheckFault::Memory => Ending::Failed(Fault::Memory),
            fault => Ending::Refused(Refusal::Check(fault)),
        }
    }
}

impl From<ArrayFault> for Ending {
    ghost use Rattle.venice_run.specs.Endings.{array_ending};

    ghost from_gives = { λ fault ending. ending ≡ array_ending fault };

    fn from(fault: ArrayFault) -> Ending {
        match fault {
            ArrayFault::Memory => Ending::Failed(Fault::Memory),
            fault => Ending::Refused(Refusal::Arrays(fault)),
        }
    }
}

impl From<GrantFault> for Ending {
    ghost use Rattle.venice_run.specs.Endings.{grant_ending};

    ghost from_gives = { λ fault ending. ending ≡ grant_ending fault };

    fn from(fault: GrantFault) -> Ending {
        match fault {
            GrantFault::Memory => Ending::Failed(Fault::Memory),
            fault => Ending::Refused(Refusal::Grants(fault)),
        }
    }
}

impl From<ImageFault> for Ending {
    ghost use Rattle.venice_run.specs.Endings.{image_ending};

    ghost from_gives = { λ fault ending. ending ≡ image_ending fault };

    fn from(fault: ImageFault) -> Ending {
        match fault {
            ImageFault::Memory => Ending::Failed(Fault::Memory),
            fault => Ending::Refused(Refusal::Image(fault)),
        }
    }
}

impl From<AsmFault> for Ending {
    ghost use Rattle.venice_run.specs.Endings.{assembler_ending};

    ghost from_gives = { λ fault ending. ending ≡ assembler_ending fault };

    fn from(fault: AsmFault) -> Ending {
        match fault {
            AsmFault::Memory => Ending::Failed(Fault::Memory),
            fault => Ending::Refused(Refusal::Text(fault)),
        }
    }
}

impl From<Stop> for Ending {
    ghost use Rattle.venice_run.specs.Endings.{machine_ending};

    ghost from_gives = { λ stop ending. ending ≡ machine_ending stop };

    fn from(stop: Stop) -> Ending {
        Ending::Refused(Refusal::Machine(stop))
    }
}
