//! Cells and memory, small ones: `spad_store`.
ghost use Rattle.std.specs.Prelude.{◌≤◌, length};

use spad_store::{MainMem, Spad};
use std::test::Fail;

#[test]
fn a_put_changes_one_cell(rt: HostRuntime) -> Result<(), Fail> {
    let mut spad = Spad::new(rt.alloc(), 4)?;
    spad.put(2, 255, true);
    assert_eq!(rt; spad.len(), 4);
    let cells = [
        (spad.byte(0), spad.flag(0)),
        (spad.byte(1), spad.flag(1)),
        (spad.byte(2), spad.flag(2)),
        (spad.byte(3), spad.flag(3)),
    ];
    assert_eq!(rt; cells, [(0, false), (0, false), (255, true), (0, false)]);
    spad.put(2, 7, false);
    assert_eq!(rt; (spad.byte(2), spad.flag(2)), (7, false));
    Ok(())
}

/// The flags of 128 cells as bits, the lowest that of cell 0.
fn flags_of(spad: &Spad) -> (u64, u64)
    requires { 128 ≤ length spad.now }
{
    (spad.get_flags(0, 64), spad.get_flags(64, 64))
}

#[test]
fn flags_are_set_and_bytes_put_across_words(rt: HostRuntime) -> Result<(), Fail> {
    let mut spad = Spad::new(rt.alloc(), 128)?;
    spad.set_flags(62, 4, true);
    assert_eq!(rt; flags_of(&spad), (3 << 62, 3));
    spad.put_bytes(63, &[9, 9]);
    assert_eq!(rt; flags_of(&spad), (1 << 62, 2));
    let bytes = [spad.byte(62), spad.byte(63), spad.byte(64), spad.byte(65)];
    assert_eq!(rt; bytes, [0, 9, 9, 0]);
    spad.set_flags(128, 0, true);
    assert_eq!(rt; flags_of(&spad), (1 << 62, 2));
    spad.set_flags(0, 128, true);
    spad.put_flags(60, 8, 0x5a);
    assert_eq!(rt;
        flags_of(&spad),
        (0xafff_ffff_ffff_ffff, 0xffff_ffff_ffff_fff5)
    );
    assert_eq!(rt; (spad.get_flags(60, 8), spad.get_flags(128, 0)), (0x5a, 0));
    Ok(())
}

#[test]
fn a_scratchpad_of_an_odd_size_has_all_its_cells(rt: HostRuntime) -> Result<(), Fail> {
    let mut spad = Spad::new(rt.alloc(), 67)?;
    spad.put_bytes(61, &[1, 2, 3, 4, 5, 6]);
    spad.set_flags(64, 3, true);
    let mut end = [0; 7];
    spad.get_bytes(60, &mut end);
    assert_eq!(rt;
        (spad.len(), end, spad.get_flags(60, 7)),
        (67, [0, 1, 2, 3, 4, 5, 6], 0x70)
    );
    Ok(())
}

#[test]
fn memory_takes_and_gives_bytes(rt: HostRuntime) -> Result<(), Fail> {
    let mut memory = MainMem::new(rt.alloc(), 5)?;
    memory.put_bytes(2, &[7, 8, 9]);
    let mut end = [1; 4];
    memory.get_bytes(1, &mut end);
    assert_eq!(rt; (memory.byte(0), end), (0, [0, 7, 8, 9]));
    Ok(())
}

#[test]
fn a_put_changes_one_byte_of_memory(rt: HostRuntime) -> Result<(), Fail> {
    let mut memory = MainMem::new(rt.alloc(), 3)?;
    memory.put(1, 9);
    assert_eq!(rt; memory.len(), 3);
    assert_eq!(rt; [memory.byte(0), memory.byte(1), memory.byte(2)], [0, 9, 0]);
    let none = MainMem::new(rt.alloc(), 0)?;
    assert_eq!(rt; none.len(), 0);
    Ok(())
}
