//! A pass whose code is made.
use crate::geometry::Layout;
use pass_plan::{ArrayPlace, Pass};

/// A pass, the arrays that it reads and makes, and its layout for a tile.
#[derive(Clone, Copy)]
pub struct TiledPass<'a> {
    pub arrays: &'a [ArrayPlace],
    pub pass: &'a Pass,
    pub layout: Layout,
}
