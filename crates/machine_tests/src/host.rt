//! The host's steps: `host_core`.
ghost use Rattle.std.specs.Prelude.{◌<◌, length};

use host_core::{Host, Step, Waiting};
use std::test::Fail;
use ven_base::Elem;
use venice_isa::{Code, DmaWork, Instr, Issue, VecKind, VecOp, VecWork, Version};

const IDLE: Waiting = Waiting {
    vector: 0,
    read: 0,
    write: 0,
    tagged: 0,
};

const BUSY: Waiting = Waiting {
    vector: 9,
    read: 9,
    write: 9,
    tagged: 9,
};

fn code(rt: &HostRuntime, instrs: &[Instr]) -> Result<Code, Fail> {
    let code = Code::new(Version::Two, Vec::from_slice(rt.alloc(), instrs)?);
    Ok(code.ok_or("the instructions are code")?)
}

/// A step, whatever it issues.
#[derive(Drop)]
enum Made {
    Issue,
    Move,
    Wait,
    Halt,
}

fn made_of(step: Step) -> Made {
    match step {
        Step::Issued(_) => Made::Issue,
        Step::Moved => Made::Move,
        Step::Waits => Made::Wait,
        Step::Halted => Made::Halt,
    }
}

fn issue_of(step: Step) -> Option<Issue> {
    match step {
        Step::Issued(issue) => Some(issue),
        Step::Moved | Step::Waits | Step::Halted => None,
    }
}

/// The step that is made, where the place is in the code.
fn step(host: &mut Host, code: &Code, waiting: Waiting) -> Option<Made> {
    if host.pc() < code.len() {
        Some(made_of(host.step(code, waiting)))
    } else {
        None
    }
}

fn moves(host: &mut Host, code: &Code, waiting: Waiting) -> bool {
    matches!(step(host, code, waiting), Some(Made::Move))
}

fn waits(host: &mut Host, code: &Code, waiting: Waiting) -> bool {
    matches!(step(host, code, waiting), Some(Made::Wait))
}

/// A host so many steps on, with nothing unfinished.
fn host_on(code: &Code, steps: u32) -> Host {
    let mut host = Host::new();
    for _ in 0..steps {
        let _ = step(&mut host, code, IDLE);
    }
    host
}

/// An instruction behind r1 = 7 and r2 = 4,294,967,295, with what r3 and the place are after it.
const INSTRUCTIONS: [(Instr, u32, u32); 15] = [
    (Instr::Li { d: 3, n: 9 }, 9, 3),
    (
        Instr::Addi {
            d: 3,
            a: 1,
            n: u32::MAX,
        },
        6,
        3,
    ),
    (Instr::Add { d: 3, a: 1, b: 2 }, 6, 3),
    (Instr::Sub { d: 3, a: 4, b: 1 }, 4_294_967_289, 3),
    (Instr::Mul { d: 3, a: 2, b: 2 }, 1, 3),
    (Instr::Div { d: 3, a: 2, b: 1 }, 613_566_756, 3),
    (Instr::Div { d: 3, a: 1, b: 4 }, u32::MAX, 3),
    (Instr::Bnz { a: 1, to: 0 }, 0, 0),
    (Instr::Bnz { a: 4, to: 0 }, 0, 3),
    (Instr::Blt { a: 1, b: 2, to: 1 }, 0, 1),
    (Instr::Blt { a: 2, b: 1, to: 1 }, 0, 3),
    (Instr::Blt { a: 1, b: 1, to: 1 }, 0, 3),
    (Instr::Jmp { to: 4 }, 0, 4),
    (Instr::Set { field: 13, a: 1 }, 0, 3),
    (Instr::Tag { a: 1 }, 0, 3),
];

/// Whether the instruction moves on whatever is unfinished, and leaves this in r3 and as the place.
fn leaves(rt: &HostRuntime, instr: Instr, r3: u32, place: u32) -> Result<bool, Fail> {
    let code = code(
        rt,
        &[
            Instr::Li { d: 1, n: 7 },
            Instr::Li { d: 2, n: u32::MAX },
            instr,
            Instr::Vwait,
            Instr::Halt,
        ],
    )?;
    let mut host = host_on(&code, 2);
    Ok(moves(&mut host, &code, BUSY) && host.register(3) == r3 && host.pc() == place)
}

#[test]
fn instructions_and_what_they_leave(rt: HostRuntime) -> Result<(), Fail> {
    for (instr, r3, place) in INSTRUCTIONS {
        let left = leaves(&rt, instr, r3, place)?;
        assert!(rt; left, "{r3} {place}");
    }
    Ok(())
}

/// Whether the instruction, behind r1 = 6, waits while so much is unfinished, and passes where it is so little.
fn turns(rt: &HostRuntime, instr: Instr, held: Waiting, free: Waiting) -> Result<bool, Fail> {
    let code = code(rt, &[Instr::Li { d: 1, n: 6 }, instr, Instr::Halt])?;
    let mut host = host_on(&code, 1);
    let waited = waits(&mut host, &code, held) && host.pc() == 1;
    let passed = step(&mut host, &code, free);
    Ok(waited && matches!(passed, Some(Made::Move | Made::Issue)) && host.pc() == 2)
}

#[test]
fn issues_wait_for_a_place(rt: HostRuntime) -> Result<(), Fail> {
    let kind = VecKind::new(VecOp::Mov, Elem::U8, Elem::U8, false, false, false);
    let vector = Instr::Vec(kind.ok_or("a mode of the operation")?);
    let read = Instr::Dma { write: false };
    let write = Instr::Dma { write: true };
    let vectors = turns(
        &rt,
        vector,
        Waiting { vector: 4, ..IDLE },
        Waiting { vector: 3, ..BUSY },
    )?;
    let reads = turns(
        &rt,
        read,
        Waiting { read: 8, ..IDLE },
        Waiting { read: 7, ..BUSY },
    )?;
    let writes = turns(
        &rt,
        write,
        Waiting { write: 8, ..IDLE },
        Waiting { write: 7, ..BUSY },
    )?;
    assert!(rt; vectors && reads && writes);
    Ok(())
}

#[test]
fn waits_pass_where_few_enough_are_unfinished(rt: HostRuntime) -> Result<(), Fail> {
    let rwait = Instr::Rwait { a: 1 };
    let wwait = Instr::Wwait { a: 1 };
    let twait = Instr::Twait { a: 1 };
    let reads = turns(
        &rt,
        rwait,
        Waiting { read: 7, ..IDLE },
        Waiting { read: 6, ..BUSY },
    )?;
    let writes = turns(
        &rt,
        wwait,
        Waiting { write: 7, ..IDLE },
        Waiting { write: 6, ..BUSY },
    )?;
    let vectors = turns(
        &rt,
        Instr::Vwait,
        Waiting { vector: 1, ..IDLE },
        Waiting { vector: 0, ..BUSY },
    )?;
    let tags = turns(
        &rt,
        twait,
        Waiting { tagged: 1, ..IDLE },
        Waiting { tagged: 0, ..BUSY },
    )?;
    assert!(rt; reads && writes && vectors && tags);
    Ok(())
}

#[test]
fn halt_waits_until_nothing_is_unfinished(rt: HostRuntime) -> Result<(), Fail> {
    let code = code(&rt, &[Instr::Halt])?;
    let mut host = Host::new();
    assert!(rt; waits(&mut host, &code, Waiting { vector: 1, ..IDLE }));
    assert!(rt; waits(&mut host, &code, Waiting { read: 1, ..IDLE }));
    assert!(rt; waits(&mut host, &code, Waiting { write: 1, ..IDLE }));
    let halted = step(&mut host, &code, Waiting { tagged: 9, ..IDLE });
    assert!(rt; matches!(halted, Some(Made::Halt)) && host.pc() == 0);
    Ok(())
}

/// A host whose parameters, from field 0 on, are 1 to 14, and whose tag is 15; it stands at the first of the issues
/// and a wait for its tag.
fn loaded(rt: &HostRuntime, kind: VecKind) -> Result<(Code, Host), Fail> {
    let mut instrs = Vec::new(rt.alloc());
    for field in 0..14 {
        let n = u32::from(field) + 1;
        instrs.push(Instr::Li { d: 1, n })?;
        instrs.push(Instr::Set { field, a: 1 })?;
    }
    instrs.push(Instr::Li { d: 1, n: 15 })?;
    instrs.push(Instr::Tag { a: 1 })?;
    for instr in [
        Instr::Vec(kind),
        Instr::Dma { write: false },
        Instr::Dma { write: true },
        Instr::Twait { a: 1 },
        Instr::Halt,
    ] {
        instrs.push(instr)?;
    }
    let code = code(rt, &instrs)?;
    let host = host_on(&code, 30);
    Ok((code, host))
}

/// Whether the step issues this work, and waits for no tag.
fn issues(host: &mut Host, code: &Code, issue: Issue) -> bool {
    if host.pc() >= code.len() || host.wanted(code).is_some() {
        return false;
    }
    let seen = host.peek(code, IDLE);
    let made = host.step(code, IDLE);
    issue_of(seen) == Some(issue) && issue_of(made) == Some(issue)
}

/// The tag that is waited for.
fn wanted(host: &Host, code: &Code) -> Option<u32> {
    if host.pc() < code.len() {
        host.wanted(code)
    } else {
        None
    }
}

#[test]
fn an_issue_takes_the_parameters(rt: HostRuntime) -> Result<(), Fail> {
    let kind = VecKind::new(VecOp::Add, Elem::U16, Elem::U16, true, false, true);
    let kind = kind.ok_or("a mode of the operation")?;
    let (code, mut host) = loaded(&rt, kind)?;
    let vector = VecWork {
        kind,
        vl: 1,
        rows: 2,
        dst: 3,
        a: 4,
        b: 5,
        dst_step: 6,
        a_step: 7,
        b_step: 8,
    };
    let transfer = DmaWork {
        mem: 9,
        spad: 10,
        rows: 11,
        bytes: 12,
        mem_step: 13,
        spad_step: 14,
        tag: 15,
    };
    assert!(rt; issues(&mut host, &code, Issue::Vector(vector)));
    assert!(rt; issues(&mut host, &code, Issue::Read(transfer)));
    assert!(rt; issues(&mut host, &code, Issue::Write(transfer)));
    assert_eq!(rt; wanted(&host, &code), Some(15));
    assert!(rt; moves(&mut host, &code, IDLE) && host.pc() == 34);
    assert!(rt; matches!(step(&mut host, &code, IDLE), Some(Made::Halt)));
    Ok(())
}
