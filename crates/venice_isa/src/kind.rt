//! What a vector instruction does with its elements.

ghost use Rattle.std.specs.Prelude.{◌≡◌, ◌≢◌, IsTrue};
ghost use Rattle.venice_isa.specs.Mode.{allows_mode};
ghost use Rattle.venice_isa.specs.declared.op.VecOp.TheVariants.{Cast};

use crate::op::VecOp;
use ven_base::Elem;

/// What a vector instruction does with its elements: the operation, the type `elem` of its results
/// and of B, the type `from` of A, whether A or B is a scalar parameter, and whether the results of
/// a row are added into one element. The mode is one that the operation allows, and `from` is `elem` unless
/// the operation is `Cast` (docs/MACHINE.md, "Operations").
#[derive(Clone, Copy, Debug, PartialEq, Eq)]
pub struct VecKind {
    pub op: VecOp,
    pub elem: Elem,
    pub from: Elem,
    pub a_scalar: bool,
    pub b_scalar: bool,
    pub acc: bool,
    pub ghost mode_allowed: { IsTrue (allows_mode op b_scalar acc) },
    pub ghost one_type: { op ≢ Cast → from ≡ elem },
}

impl VecKind {
    ghost use Rattle.std.specs.Prelude.{◌<◌, ◌≤◌, ◌↔◌, IsSome, IfSome, max};
    ghost use Rattle.venice_isa.specs.Mode.{IsMode};
    ghost use Rattle.venice_isa.specs.Parts.{HasParts};
    ghost use Rattle.venice_isa.specs.Beat.{lane_group_items};

    /// The kind with these parts. None exactly where the operation doesn't allow the mode, or where
    /// it is no cast and `from` isn't `elem`.
    pub fn new(
        op: VecOp,
        elem: Elem,
        from: Elem,
        a_scalar: bool,
        b_scalar: bool,
        acc: bool,
    ) -> Option<VecKind>
        ensures allowed { IsSome result ↔ IsMode op elem from b_scalar acc }
        ensures parts { IfSome result (λ kind. HasParts kind op elem from a_scalar b_scalar acc) }
    {
        if !op.allows_mode(b_scalar, acc) || (op != VecOp::Cast && from != elem) {
            return None;
        }
        Some(VecKind {
            op,
            elem,
            from,
            a_scalar,
            b_scalar,
            acc,
        })
    }

    /// How many elements a beat of so many lanes, 1 to 4, takes at the most (docs/MACHINE.md, "Beats"): 4 bytes a lane,
    /// by the greater of the two sizes of a cast.
    pub fn group_items(self, lanes: u32) -> u32
        requires some_lanes { 0 < lanes }
        requires few_lanes { lanes ≤ 4 }
        ensures value { result ≡ lane_group_items self lanes }
        ensures some { 0 < result }
    {
        4 * lanes / self.elem.size().max(self.from.size())
    }
}
