//! The list of issues that code has the host pass.
ghost use Rattle.std.specs.Prelude.{◌≡◌, ◌++◌, IfOk, OnOk, IfErr, Err, Some, None};
ghost use Rattle.venice_isa.specs.Host.{issue_list, passed_by};
ghost use Rattle.venice_isa.specs.declared.issue_list.IssueFault.TheVariants.{Budget, Memory};

use crate::code::Code;
use crate::host::{Deed, HostState};
use crate::issue::Issue;
use std::alloc::Global;

/// Why there is no issue list.
#[derive(Clone, Copy)]
pub enum IssueFault {
    /// So many host steps didn't make `Halt`.
    Budget,
    /// Memory ran out.
    Memory,
}

/// The issues and waits that the host passes up to `Halt`, where nothing holds it up: what the code alone gives
/// (docs/MACHINE.md, "The issue list"). `budget` counts host steps, one an instruction, waits and `Halt` among them. `Budget`
/// exactly where so many don't make `Halt`.
pub fn issues(alloc: Global, code: &Code, budget: u64) -> Result<Vec<Issue>, IssueFault>
    ensures list { IfOk result (λ list. issue_list code.now.instrs budget ≡ Some list.items) }
    ensures budget { result ≡ Err Budget → issue_list code.now.instrs budget ≡ None }
{
    let count = code.len();
    prove!(0 < count);
    let mut host = HostState::new();
    let mut list = Vec::new(alloc);
    for _ in 0..budget {
        let instr = code.instr(host.place);
        let deed = host.deed_of(instr);
        if deed.is_halt() {
            return Ok(list);
        }
        push_passed(&mut list, deed)?;
        host.advance_by(instr);
    }
    Err(IssueFault::Budget)
}

/// Appends the issue or wait that is passed on, if any.
fn push_passed(list: &mut Vec<Issue>, deed: Deed) -> Result<(), IssueFault>
    ensures passed { OnOk result (list.new.items ≡ list.old.items ++ passed_by deed) }
    ensures memory { IfErr result (λ fault. fault ≡ Memory) }
{
    match deed {
        Deed::Passes(issue) => match list.push(issue) {
            Ok(()) => Ok(()),
            Err(_) => Err(IssueFault::Memory),
        },
        _ => Ok(()),
    }
}
