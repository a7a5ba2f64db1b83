//! The refusals, and the kinds of texts that they are of.

ghost use Rattle.std.specs.Prelude.{◌≡◌};
ghost use Rattle.venice_run.specs.Line.{kind_word, kind_status, refusal_status};

use array_file::{ArrayFault, FitFault};
use array_syntax::ParseFault;
use image_loader::ImageFault;
use shape_check::CheckFault;
use venice_asm::AsmFault;
use venice_machine::{GrantFault, Stop};

/// The kinds of texts and files that commands read. Each has a limit on its length, a word and a status.
#[derive(Clone, Copy)]
pub enum Kind {
    /// A program of the array language.
    Program,
    /// An array file.
    Inputs,
    /// A list of grants.
    Grants,
    /// An image.
    Image,
    /// An assembler text.
    Text,
}

/// A scratchpad that is too small; both numbers in bytes.
#[derive(Clone, Copy)]
pub struct Shortage {
    /// What the program or the image needs.
    pub need: u64,
    /// What the words of the command line offer.
    pub have: u32,
}

/// Why a command is refused: one variant a stage. Each prints one line, `error: ` and its words
/// ("Statuses and lines" in docs/FORMATS.md).
#[derive(Clone, Copy)]
pub enum Refusal {
    /// The words of the command line are of no command's form.
    Usage,
    /// The files tell that they hold no file of that name.
    FileMissing,
    /// A text is longer than its kind may be.
    TooLong(Kind),
    /// The program's text has this fault.
    Parse(ParseFault),
    /// The program breaks this rule.
    Check(CheckFault),
    /// The scratchpad has fewer bytes than the program or the image needs.
    Scratchpad(Shortage),
    /// The array file has this fault.
    Arrays(ArrayFault),
    /// The arrays don't fit the inputs of the program or the image.
    Fit(FitFault),
    /// The grant list's text has this fault.
    Grants(GrantFault),
    /// The image's bytes have this fault.
    Image(ImageFault),
    /// The assembler text has this fault.
    Text(AsmFault),
    /// The machine stopped before `halt`.
    Machine(Stop),
}

impl Kind {
    /// The word that stands for the kind in a refusal's line.
    pub(crate) fn word(self) -> &'static [u8]
        ensures { result.now ≡ kind_word self }
    {
        match self {
            Kind::Program => b"program",
            Kind::Inputs => b"inputs",
            Kind::Grants => b"grants",
            Kind::Image => b"image",
            Kind::Text => b"text",
        }
    }

    /// The status where such a text is too long.
    fn status(self) -> u8
        ensures { result ≡ kind_status self }
    {
        match self {
            Kind::Program => 3,
            Kind::Inputs | Kind::Grants => 4,
            Kind::Image | Kind::Text => 6,
        }
    }
}

impl Refusal {
    /// The status that the program ends with.
    pub fn status(self) -> u8
        ensures { result ≡ refusal_status self }
    {
        match self {
            Refusal::Usage => 2,
            Refusal::FileMissing => 8,
            Refusal::TooLong(kind) => kind.status(),
            Refusal::Parse(_) | Refusal::Check(_) => 3,
            Refusal::Scratchpad(_) => 5,
            Refusal::Arrays(_) | Refusal::Fit(_) | Refusal::Grants(_) => 4,
            Refusal::Image(_) | Refusal::Text(_) => 6,
            Refusal::Machine(_) => 7,
        }
    }
}
