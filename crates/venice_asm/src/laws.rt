//! What the definitions of assembler texts settle, whatever the code does.

ghost use Rattle.venice_asm.specs.Laws.{DenotesItsImage, DenotesNothingAtFaults, HasOneAnswer, HasOneImage};

/// An image's canonical text denotes the image.
pub fn canonical_texts()
    ensures { DenotesItsImage }
{}

/// A text has one answer at most.
pub fn one_answer()
    ensures { HasOneAnswer }
{}

/// A text denotes one image at most, and none where it has a fault.
pub fn one_image()
    ensures one { HasOneImage }
    ensures at_faults { DenotesNothingAtFaults }
{}
