//! The code of a split.
ghost use Rattle.std.specs.Prelude.{◌≡◌, ◌≤◌, IfOk};
ghost use Rattle.pass_plan.specs.Need.{need_of};
ghost use Rattle.pass_plan.specs.Sizes.{nodes_in};
ghost use Rattle.pass_plan.specs.Sound.{IsSound};
ghost use Rattle.pass_plan.specs.Shown.{split_of};
ghost use Rattle.host_codegen.specs.CodeRoom.{split_nodes_limit};
ghost use Rattle.host_codegen.specs.CodeOf.{code_for, IsCodeOf};

use crate::laws::{cost_laws, fit_laws, program_laws, room_laws};
use crate::passes::split_program;
use host_programs::{code_laws, code_of};
use pass_plan::Split;
use std::alloc::{AllocError, Global};
use venice_isa::Code;

/// The code of a split in version 2, in a scratchpad of `spad` bytes, at least the split's need.
///
/// Its issue list is the pipelined list (docs/COMPILER.md, "Host code"). It has at most `code_room` instructions,
/// whatever the number of tiles. The passes' trees have together at most 1,000,000 nodes, so that the instructions have
/// places of 32 bits. The code's steps, the halt's and all beats of the list are within the bound of the passes, for any
/// number of lanes. The only error is that memory runs out.
pub fn code(alloc: Global, split: &Split, spad: u32) -> Result<Code, AllocError>
    requires sound { IsSound (split_of split.now) }
    requires holds { need_of (split_of split.now).passes ≤ spad }
    requires few { nodes_in (split_of split.now) ≤ split_nodes_limit }
    ensures value { IfOk result (λ code. code ≡ code_for (split_of split.now) spad) }
    ensures of_split { IfOk result (λ code. IsCodeOf (split_of split.now) spad code) }
{
    program_laws();
    fit_laws();
    cost_laws();
    room_laws();
    code_laws();
    let program = split_program(alloc, split, spad)?;
    code_of(alloc, &program)
}
