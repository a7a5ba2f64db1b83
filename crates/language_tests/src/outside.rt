//! Files and sinks, each call on its happy path and at its faults.
use std::alloc::Global;
use std::test::Fail;
use ven_io::{Files, HostFiles, HostSink, LoadFault, MemFiles, MemSink, OutFault, Sink};

/// What a load gives: the bytes, or the fault.
fn loads<F: Files>(files: &mut F, alloc: Global, name: &str, most: u64, wanted: &[u8]) -> bool {
    match files.load(alloc, name, most) {
        Ok(bytes) => bytes.as_slice() == wanted,
        Err(_) => false,
    }
}

fn is_missing<F: Files>(files: &mut F, alloc: Global, name: &str) -> bool {
    matches!(files.load(alloc, name, 9), Err(LoadFault::Missing))
}

fn fails_to_load<F: Files>(files: &mut F, alloc: Global, name: &str) -> bool {
    matches!(files.load(alloc, name, 9), Err(LoadFault::Failed))
}

fn saves<F: Files>(files: &mut F, name: &str, bytes: &[u8]) -> bool {
    files.save(name, bytes).is_ok()
}

fn fails_to_save<F: Files>(files: &mut F, name: &str) -> bool {
    matches!(files.save(name, b"new"), Err(OutFault::Failed))
}

fn puts<S: Sink>(sink: &mut S, bytes: &[u8]) -> bool {
    sink.put(bytes).is_ok()
}

#[test]
fn loads_from_memory_fail_by_number(rt: HostRuntime) -> Result<(), Fail> {
    let alloc = rt.alloc();
    let mut files = MemFiles::new(alloc, vec![in alloc; 2, 3]?);
    files.add("a", b"abcdef".to_vec(alloc)?)?;
    assert!(rt; loads(&mut files, alloc, "a", 9, b"abcdef"));
    assert!(rt; is_missing(&mut files, alloc, "b"));
    assert!(rt; fails_to_load(&mut files, alloc, "a"));
    assert!(rt; loads(&mut files, alloc, "a", 1, b"ab"));
    assert!(rt; loads(&mut files, alloc, "a", u64::MAX, b"abcdef"));
    Ok(())
}

#[test]
fn saves_to_memory_fail_by_number(rt: HostRuntime) -> Result<(), Fail> {
    let alloc = rt.alloc();
    let mut files = MemFiles::new(alloc, vec![in alloc; 3]?);
    files.add("a", b"abcdef".to_vec(alloc)?)?;
    assert!(rt; loads(&mut files, alloc, "a", 9, b"abcdef"));
    assert!(rt; saves(&mut files, "b", b"xyz"));
    assert!(rt; fails_to_save(&mut files, "a"));
    assert!(rt; files.get("a").is_some_and(|bytes| bytes.is_empty()));
    assert!(rt;
        files
            .get("b")
            .is_some_and(|bytes| bytes == b"xyz".as_slice())
    );
    assert!(rt; files.get("c").is_none());
    Ok(())
}

#[test]
fn a_sink_in_memory_fails_by_number(rt: HostRuntime) -> Result<(), Fail> {
    let alloc = rt.alloc();
    let mut sink = MemSink::new(alloc, vec![in alloc; 2]?);
    assert!(rt; puts(&mut sink, b"abc"));
    assert!(rt; matches!(sink.put(b"defgh"), Err(OutFault::Failed)));
    assert!(rt; puts(&mut sink, b"!"));
    assert!(rt; sink.taken() == b"abcde!".as_slice());
    Ok(())
}

#[test]
fn real_files_give_back_what_was_saved(rt: HostRuntime) {
    let alloc = rt.alloc();
    let mut files = HostFiles::new(&rt);
    assert!(rt; saves(&mut files, "short", b"abcdef"));
    assert!(rt; loads(&mut files, alloc, "short", 6, b"abcdef"));
    assert!(rt; loads(&mut files, alloc, "short", 2, b"abc"));
    assert!(rt; saves(&mut files, "short", b"x"));
    assert!(rt; loads(&mut files, alloc, "short", u64::MAX, b"x"));
}

#[test]
fn real_files_may_be_longer_than_a_piece(rt: HostRuntime) -> Result<(), Fail> {
    let alloc = rt.alloc();
    let mut long = Vec::new(alloc);
    long.resize(200_000, 7)?;
    let mut files = HostFiles::new(&rt);
    assert!(rt; saves(&mut files, "long", &long));
    assert!(rt; loads(&mut files, alloc, "long", 200_000, &long));
    assert!(rt; files.load(alloc, "long", 99_999)?.len() == 100_000);
    Ok(())
}

#[test]
fn real_files_fail(rt: HostRuntime) {
    let alloc = rt.alloc();
    let mut files = HostFiles::new(&rt);
    assert!(rt; fails_to_load(&mut files, alloc, "none"));
    assert!(rt; fails_to_save(&mut files, "none/file"));
    assert!(rt; fails_to_save(&mut files, "/dev/full"));
}

#[test]
fn the_standard_output_takes_a_line(rt: HostRuntime) {
    let mut sink = HostSink::new(&rt);
    assert!(rt; puts(&mut sink, b"") && puts(&mut sink, b"a line\n"));
}
