//! Images of a program for the machine.

use std::marker::Model;
use ven_base::Entry;
use venice_isa::Code;

/// A program for the machine (docs/FORMATS.md, "Images"): how many bytes of scratchpad and of memory it wants, the
/// arrays that stand in memory, and its code. The numbers keep the limits of an image; the arrays have different names,
/// lie in memory and share no byte.
#[derive(Drop)]
pub struct Image {
    pub spad: u32,
    pub memory: u32,
    pub arrays: Vec<Entry>,
    pub code: Code,
}

impl Model for Image {
    ghost use Rattle.image_loader.specs.Image.{ImageContents, IsImage};

    ghost Value = { ImageContents };

    ghost view = { λ i. record { spad = i.spad; memory = i.memory; arrays = i.arrays.items; code = i.code } };

    ghost invariant = { λ i. IsImage (record {
      spad = i.spad;
      memory = i.memory;
      arrays = i.arrays.items;
      code = i.code;
    }) };
}
