//! The code of a whole program.
ghost use Rattle.std.specs.Prelude.{◌≡◌, IfOk};
ghost use Rattle.host_programs.specs.Coded.{IsCodable, listing_of, IssuesItsList};
ghost use Rattle.host_programs.specs.Shown.{program_of};

use crate::emit::emit_program;
use crate::program::Program;
use std::alloc::{AllocError, Global};
use venice_isa::{Code, Instr, Version};

/// The code of a program, with a halt behind it, in version two. Where the program's exact values fit, its list is the
/// code's issue list. It reads no register that it hasn't named, and has at most 32 registers and 4,294,967,294
/// instructions.
pub fn code_of(alloc: Global, p: &Program) -> Result<Code, AllocError>
    requires codable { IsCodable (program_of p.now) }
    ensures listing { IfOk result (λ code. code ≡ listing_of (program_of p.now)) }
    ensures issues { IfOk result (λ code. IssuesItsList (program_of p.now) code) }
{
    let mut instrs = Vec::new(alloc);
    emit_program(&mut instrs, 0, p, 0)?;
    instrs.push(Instr::Halt)?;
    Ok(Code::new(Version::Two, instrs).unwrap())
}
