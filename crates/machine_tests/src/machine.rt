//! The clocked machine, `venice_machine`: what it shows cycle by cycle, and images that make none. Whole runs, their
//! counts and their stops are transcripts.
ghost use Rattle.std.specs.Prelude.{◌≡◌, ◌+◌, ◌<◌, ◌≤◌, ◌^◌, IfSome, IfOk};

use image_loader::Image;
use std::alloc::Global;
use ven_base::{Array, Arrays, CELL_LIMIT, Elem, Name, Shape};
use venice_asm::assemble;
use venice_machine::{Cycle, Grants, Machine, MakeFault, Stop, read_grants};

/// A read of 16 bytes, another of 1 byte, an addition to the first ones, and a write of two of the sums, with waits
/// between them.
const READS_AND_ADDITION: &[u8] = b"version 2
spad 17
memory 32
array x in u8[1,16] 0
array y out u8[1,2] 16
li r1 16
li r2 1
set mbytes r1
set mrows r2
set vl r1
set rows r2
set b r2
dma read
set mbytes r2
set spad r1
dma read
rwait r0
vec add u8 vs
vwait
set spad r0
set mem r1
li r3 2
set mbytes r3
dma write
halt
";

const HALT: &[u8] = b"spad 16
memory 0
halt
";

fn image(alloc: Global, text: &[u8]) -> Option<Image> {
    if text.len() > 1_000 {
        return None;
    }
    assemble(alloc, text).ok()
}

/// An array of one row.
fn row_of(alloc: Global, values: &[i64]) -> Option<Array> {
    if values.len() > 100 {
        return None;
    }
    let shape = Shape::new(1, values.len() as u32)?;
    Array::new(Elem::U8, shape, Vec::from_slice(alloc, values).ok()?)
}

/// The array `x` with these values, or no array where there are none.
fn inputs(alloc: Global, values: &[i64]) -> Option<Arrays> {
    let mut arrays = Arrays::new(alloc);
    if values.is_empty() {
        return Some(arrays);
    }
    let array = row_of(alloc, values)?;
    let name = Name::from_bytes(b"x")?;
    match arrays.add(name, array) {
        Ok(_) => Some(arrays),
        Err(_) => None,
    }
}

fn make(alloc: Global, image: Image, spad: u32, inputs: &Arrays) -> Result<Machine, MakeFault>
    ensures { IfOk result (λ machine. machine.cycles ≡ 0) }
{
    if spad == 0 || spad > CELL_LIMIT {
        return Err(MakeFault::Memory);
    }
    Machine::new(alloc, image, 4, spad, inputs)
}

/// The machine of these works, with 250 in each byte of `x`.
fn machine(alloc: Global) -> Option<Machine>
    ensures { IfSome result (λ machine. machine.cycles ≡ 0) }
{
    let image = image(alloc, READS_AND_ADDITION)?;
    let inputs = inputs(alloc, &[250; 16])?;
    make(alloc, image, 20, &inputs).ok()
}

/// What shows of a machine.
#[derive(Clone, Copy, PartialEq)]
struct Shown {
    pc: u32,
    issued: u64,
    fronts: [Option<u64>; 3],
    seconds: [Option<u64>; 2],
}

fn what_shows(machine: &Machine) -> Shown {
    Shown {
        pc: machine.pc(),
        issued: machine.issued(),
        fronts: [machine.front(1), machine.front(2), machine.front(3)],
        seconds: [machine.second(2), machine.second(3)],
    }
}

#[test]
fn a_new_machine(rt: HostRuntime) {
    let Some(machine) = machine(rt.alloc()) else {
        panic!(rt; "no machine");
    };
    let counts = machine.counts();
    assert_eq!(rt;
        (machine.register(31), counts.steps, counts.cycles),
        (0, 0, 0)
    );
    let shown = Shown {
        pc: 0,
        issued: 0,
        fronts: [None; 3],
        seconds: [None; 2],
    };
    assert!(rt; what_shows(&machine) == shown);
}

/// Makes so many cycles in which the host alone may step.
fn host_cycles(machine: &mut Machine, count: u32)
    requires few { machine.old.cycles < 2 ^ 32 }
    ensures { machine.new.cycles ≤ machine.old.cycles + count }
{
    for _k in 0..count {
        let _ = machine.cycle(0x01, 100);
    }
}

/// What a cycle is in which these may step: the bits of those that do.
fn units(machine: &mut Machine, grant: u8) -> Option<u8>
    requires few { machine.old.cycles < 2 ^ 32 }
    ensures { machine.new.cycles ≤ machine.old.cycles + 1 }
{
    match machine.cycle(grant, 100) {
        Cycle::Went { units } => Some(units),
        _ => None,
    }
}

#[test]
fn cycles_and_who_steps_in_them(rt: HostRuntime) {
    let Some(mut machine) = machine(rt.alloc()) else {
        panic!(rt; "no machine");
    };
    assert_eq!(rt; units(&mut machine, 0x0e), Some(0));
    assert_eq!(rt; units(&mut machine, 0x01), Some(1));
    host_cycles(&mut machine, 10);
    let shown = Shown {
        pc: 11,
        issued: 2,
        fronts: [None, Some(1), None],
        seconds: [Some(2), None],
    };
    assert!(rt; what_shows(&machine) == shown);
    // The host waits, and the channel goes on with its second work, and then with its first.
    assert_eq!(rt; units(&mut machine, 0x17), Some(0x14));
    assert_eq!(rt; units(&mut machine, 0x17), Some(0x04));
    assert_eq!(rt; what_shows(&machine).seconds, [None; 2]);
}

/// Runs the machine to its end, with no grants before; its steps and cycles, and whether one cycle more says that it has
/// ended at `halt`.
fn run(alloc: Global, machine: &mut Machine) -> Option<(u64, u64, bool)>
    requires { machine.old.cycles ≡ 0 }
{
    let grants = Grants::new(alloc);
    let Ok(counts) = machine.run(&grants, 100) else {
        return None;
    };
    let halted = matches!(machine.cycle(0x0f, 100), Cycle::Halted);
    Some((counts.steps, counts.cycles, halted))
}

#[test]
fn a_run_and_what_it_leaves(rt: HostRuntime) {
    let Some(mut machine) = machine(rt.alloc()) else {
        panic!(rt; "no machine");
    };
    // 20 steps of the host, one a cycle, and a beat of each of the four works.
    assert_eq!(rt; run(rt.alloc(), &mut machine), Some((24, 20, true)));
    assert_eq!(rt; machine.issued(), 4);
}

/// Whether the first output has these values.
fn first_output(alloc: Global, machine: &Machine, values: &[i64]) -> bool {
    match machine.outputs(alloc) {
        Ok(arrays) => !arrays.is_empty() && *arrays.array(0).values == *values,
        Err(_) => false,
    }
}

#[test]
fn outputs_behind_a_run(rt: HostRuntime) {
    let Some(mut machine) = machine(rt.alloc()) else {
        panic!(rt; "no machine");
    };
    assert!(rt; run(rt.alloc(), &mut machine).is_some());
    assert!(rt; first_output(rt.alloc(), &machine, &[251, 251]));
}

#[test]
fn no_step_may_be_made(rt: HostRuntime) {
    let Some(mut machine) = machine(rt.alloc()) else {
        panic!(rt; "no machine");
    };
    let ended = machine.run(&Grants::new(rt.alloc()), 0);
    assert!(rt; matches!(ended, Err(Stop::Budget { steps: 0 })));
}

/// Why a program that is `halt` alone has no machine in so many cells with these values in `x`.
fn fault(alloc: Global, spad: u32, x: &[i64]) -> Option<MakeFault> {
    let image = image(alloc, HALT)?;
    let inputs = inputs(alloc, x)?;
    make(alloc, image, spad, &inputs).err()
}

#[test]
fn images_that_make_no_machine(rt: HostRuntime) {
    let small = fault(rt.alloc(), 15, &[1]);
    assert!(rt; matches!(small, Some(MakeFault::SpadTooSmall { need: 16, have: 15 })));
    let extra = fault(rt.alloc(), 16, &[1]);
    assert!(rt; matches!(extra, Some(MakeFault::Fit(_))));
    assert!(rt; fault(rt.alloc(), 16, &[]).is_none());
}

/// A text of a few grants.
fn grants(alloc: Global, text: &[u8]) -> Option<Grants> {
    if text.len() > 1_000 {
        return None;
    }
    read_grants(alloc, text).ok()
}

#[test]
fn a_text_and_its_grants(rt: HostRuntime) {
    let Some(grants) = grants(rt.alloc(), b"0fF0\n 3f\r\n\tAb") else {
        panic!(rt; "no grants");
    };
    assert!(rt; grants.len() == 4 && !grants.is_empty());
    if grants.len() == 4 {
        let bytes = [grants.at(0), grants.at(1), grants.at(2), grants.at(3)];
        assert_eq!(rt; bytes, [0x0f, 0xf0, 0x3f, 0xab]);
    }
}
