//! Images of programs, as `compile` gives them.
ghost use Rattle.std.specs.Prelude.{◌≤◌};
ghost use Rattle.ven_base.specs.Limits.{cell_limit};

use array_syntax::parse;
use shape_check::{Checked, check};
use std::alloc::Global;
use std::test::Fail;
use venice_run::{CompileFault, compile};

const PROGRAM: &[u8] = b"input a u8[3,4]; output y = rowsum(a * a);";

fn checked_program(alloc: Global, text: &[u8]) -> Option<Checked> {
    if text.len() > 65_536 {
        return None;
    }
    let program = parse(alloc, text).ok()?;
    check(alloc, program).ok()
}

/// The bytes of scratchpad that the program's image wants, and the need that its refusal tells.
fn compiled(alloc: Global, program: &Checked, spad: u32) -> (Option<u32>, Option<u64>)
    requires some { 1 ≤ spad }
    requires few { spad ≤ cell_limit }
{
    match compile(alloc, program, spad) {
        Ok(image) => (Some(image.spad), None),
        Err(CompileFault::Scratchpad(shortage)) => (None, Some(shortage.need)),
        Err(CompileFault::Memory) => (None, None),
    }
}

#[test]
fn a_program_has_an_image_from_its_need_on(rt: HostRuntime) -> Result<(), Fail> {
    let alloc = rt.alloc();
    let program = checked_program(alloc, PROGRAM).ok_or("no program")?;
    assert_eq!(rt; compiled(alloc, &program, 1), (None, Some(6)));
    assert_eq!(rt; compiled(alloc, &program, 5), (None, Some(6)));
    assert_eq!(rt; compiled(alloc, &program, 6), (Some(6), None));
    assert_eq!(rt;
        compiled(alloc, &program, 1_048_576),
        (Some(1_048_576), None)
    );
    Ok(())
}
