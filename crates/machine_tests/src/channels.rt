//! The channels on small stores, `dma_engine`: what is copied has the bytes 1, 2, 3 and so on from place 0 on, and what is
//! written over the byte 200 everywhere, in cells with the flag set.
ghost use Rattle.std.specs.Prelude.{◌≡◌, ◌<◌, IfOk, IsTrue, All, length};
ghost use Rattle.ven_base.specs.Store.{store_of, store_size, IsInRange};
ghost use Rattle.venice_isa.specs.Footprint.{HasFootprint};
ghost use Rattle.dma_engine.specs.declared.direction.Direction.TheVariants.{IntoCells};
ghost use Rattle.dma_engine.specs.Direction.{HasBytes, issue_of};

use dma_engine::{Channel, Directed, ReadChannel, Reads, WriteChannel, Writes};
use spad_store::{MainMem, Overtaking, Spad, Unit};
use std::alloc::{AllocError, Global};
use std::test::Fail;
use venice_isa::DmaWork;

const PLACES: u32 = 64;

/// 64 bytes: 1, 2, 3 and so on.
fn numbered() -> [u8; 64] {
    let mut bytes = [0; 64];
    for k in 0..64 {
        bytes[k] = k as u8 + 1;
    }
    bytes
}

/// 64 cells with these bytes, whose flags are set.
fn cells_with(alloc: Global, bytes: &[u8; 64]) -> Result<Spad, AllocError>
    ensures { IfOk result (λ cells. length cells ≡ 64) }
{
    let mut cells = Spad::new(alloc, PLACES)?;
    cells.put_bytes(0, bytes);
    cells.set_flags(0, PLACES, true);
    Ok(cells)
}

fn memory_with(alloc: Global, bytes: &[u8; 64]) -> Result<MainMem, AllocError>
    ensures { IfOk result (λ memory. length memory ≡ 64) }
{
    let mut memory = MainMem::new(alloc, PLACES)?;
    memory.put_bytes(0, bytes);
    Ok(memory)
}

/// Makes a beat of any unit's first or second work.
fn beat_of<U: Overtaking>(
    unit: &mut U,
    second: bool,
    cells: &mut Spad,
    memory: &mut MainMem,
) -> bool
    requires inside { All (λ job. IsInRange (U.reads job.work) (U.writes job.work)
        (store_size (store_of cells.old memory.old))) (U.jobs unit.old) }
    ensures inside { All (λ job. IsInRange (U.reads job.work) (U.writes job.work)
        (store_size (store_of cells.new memory.new))) (U.jobs unit.new) }
    ensures size { store_size (store_of cells.new memory.new) ≡ store_size (store_of cells.old memory.old) }
{
    // Each work of the queue has beats left.
    let _count = unit.unfinished();
    if second {
        unit.beat_second(cells, memory)
    } else {
        unit.beat(cells, memory)
    }
}

/// Makes up to ten beats of a unit's first work, or of its second, and counts them.
fn beats_of<U: Overtaking>(
    unit: &mut U,
    second: bool,
    cells: &mut Spad,
    memory: &mut MainMem,
) -> u32
    requires inside { All (λ job. IsInRange (U.reads job.work) (U.writes job.work)
        (store_size (store_of cells.old memory.old))) (U.jobs unit.old) }
    ensures inside { All (λ job. IsInRange (U.reads job.work) (U.writes job.work)
        (store_size (store_of cells.new memory.new))) (U.jobs unit.new) }
    ensures size { store_size (store_of cells.new memory.new) ≡ store_size (store_of cells.old memory.old) }
{
    for made in 0..10 {
        if !beat_of(unit, second, cells, memory) {
            return made;
        }
    }
    10
}

/// Whether a transfer has bytes, all of which lie in the stores.
fn fits<D: Directed>(work: DmaWork, cells: &Spad, memory: &MainMem) -> bool
    ensures bytes { IsTrue result → HasBytes work }
    ensures inside { IsTrue result →
        HasFootprint (store_size (store_of cells.now memory.now)) (issue_of D.DIRECTION work) }
{
    0 < work.rows && 0 < work.bytes && work.is_in_range(cells.len(), memory.len())
}

/// Offers a transfer that fits to a channel, all whose transfers do, and says whether it was taken.
fn offer<D: Directed>(
    channel: &mut Channel<D>,
    work: DmaWork,
    cells: &Spad,
    memory: &MainMem,
) -> bool
    requires inside { All (λ job.
        HasFootprint (store_size (store_of cells.now memory.now)) (issue_of D.DIRECTION job.work)) channel.old }
    ensures inside { All (λ job.
        HasFootprint (store_size (store_of cells.now memory.now)) (issue_of D.DIRECTION job.work)) channel.new }
{
    if !fits::<D>(work, cells, memory) {
        return false;
    }
    channel.offer(work).is_ok()
}

/// The same of several transfers; counts those that were taken.
fn offer_all<D: Directed>(
    channel: &mut Channel<D>,
    works: &[DmaWork],
    cells: &Spad,
    memory: &MainMem,
) -> u32
    requires few { length works.now < 100 }
    requires inside { All (λ job.
        HasFootprint (store_size (store_of cells.now memory.now)) (issue_of D.DIRECTION job.work)) channel.old }
    ensures inside { All (λ job.
        HasFootprint (store_size (store_of cells.now memory.now)) (issue_of D.DIRECTION job.work)) channel.new }
{
    let mut taken = 0;
    for work in works {
        if offer(channel, *work, cells, memory) {
            taken += 1;
        }
    }
    taken
}

/// A transfer alone, by all of its beats, and their number.
fn run<D: Directed>(
    alloc: Global,
    work: DmaWork,
    cells: &mut Spad,
    memory: &mut MainMem,
) -> Result<u32, AllocError>
    ensures size { store_size (store_of cells.new memory.new) ≡ store_size (store_of cells.old memory.old) }
{
    let mut channel: Channel<D> = Channel::new(alloc)?;
    offer(&mut channel, work, cells, memory);
    Ok(beats_of(&mut channel, false, cells, memory))
}

/// Rows of bytes: where they begin and how far apart they are, here and there; the number of beats, and some places of
/// the target with their bytes.
struct Copy {
    from: (u32, u32),
    to: (u32, u32),
    rows: u32,
    bytes: u32,
    beats: u32,
    probes: [(u32, u8); 4],
}

const COPIES: [Copy; 8] = [
    Copy {
        from: (5, 0),
        to: (9, 0),
        rows: 1,
        bytes: 1,
        beats: 1,
        probes: [(8, 200), (9, 6), (10, 200), (0, 200)],
    },
    Copy {
        from: (0, u32::MAX),
        to: (3, u32::MAX),
        rows: 1,
        bytes: 15,
        beats: 1,
        probes: [(2, 200), (3, 1), (17, 15), (18, 200)],
    },
    Copy {
        from: (0, 0),
        to: (16, 0),
        rows: 1,
        bytes: 16,
        beats: 1,
        probes: [(15, 200), (16, 1), (31, 16), (32, 200)],
    },
    Copy {
        from: (0, 32),
        to: (30, 17),
        rows: 2,
        bytes: 17,
        beats: 4,
        probes: [(30, 1), (46, 17), (47, 33), (63, 49)],
    },
    Copy {
        from: (31, 0),
        to: (0, 33),
        rows: 1,
        bytes: 33,
        beats: 3,
        probes: [(0, 32), (16, 48), (32, 64), (33, 200)],
    },
    Copy {
        from: (0, 0),
        to: (0, 20),
        rows: 3,
        bytes: 3,
        beats: 3,
        probes: [(2, 3), (3, 200), (22, 3), (40, 1)],
    },
    Copy {
        from: (0, 1),
        to: (3, 0),
        rows: 2,
        bytes: 1,
        beats: 2,
        probes: [(2, 200), (3, 2), (4, 200), (0, 200)],
    },
    Copy {
        from: (0, 20),
        to: (10, 4),
        rows: 3,
        bytes: 18,
        beats: 6,
        probes: [(10, 1), (14, 21), (18, 41), (35, 58)],
    },
];

/// Whether cells have these bytes, and the flag beside those alone that are still 200.
fn cells_have(cells: &Spad, probes: &[(u32, u8); 4]) -> bool {
    probes.iter().all(|(place, byte)| {
        *place < cells.len() && cells.byte(*place) == *byte && cells.flag(*place) == (*byte == 200)
    })
}

fn memory_has(memory: &MainMem, probes: &[(u32, u8); 4]) -> bool {
    probes.iter().all(|(place, byte)| *place < memory.len() && memory.byte(*place) == *byte)
}

/// Whether a read copies the rows.
fn is_read(alloc: Global, copy: &Copy) -> Result<bool, AllocError> {
    let read = DmaWork {
        mem: copy.from.0,
        mem_step: copy.from.1,
        spad: copy.to.0,
        spad_step: copy.to.1,
        rows: copy.rows,
        bytes: copy.bytes,
        tag: 0,
    };
    let mut cells = cells_with(alloc, &[200; 64])?;
    let mut memory = memory_with(alloc, &numbered())?;
    let beats = run::<Reads>(alloc, read, &mut cells, &mut memory)?;
    Ok(beats == copy.beats && cells_have(&cells, &copy.probes))
}

/// Whether a write does.
fn is_written(alloc: Global, copy: &Copy) -> Result<bool, AllocError> {
    let write = DmaWork {
        mem: copy.to.0,
        mem_step: copy.to.1,
        spad: copy.from.0,
        spad_step: copy.from.1,
        rows: copy.rows,
        bytes: copy.bytes,
        tag: 0,
    };
    let mut cells = cells_with(alloc, &numbered())?;
    let mut memory = memory_with(alloc, &[200; 64])?;
    let beats = run::<Writes>(alloc, write, &mut cells, &mut memory)?;
    Ok(beats == copy.beats && memory_has(&memory, &copy.probes))
}

#[test]
fn rows_are_copied_by_beats(rt: HostRuntime) -> Result<(), Fail> {
    for copy in &COPIES {
        assert!(rt; is_read(rt.alloc(), copy)?, "read to {}", copy.to.0);
        assert!(rt; is_written(rt.alloc(), copy)?, "write to {}", copy.to.0);
    }
    Ok(())
}

/// So many bytes from place `from` of memory on to the cells from `to` on.
fn piece(from: u32, to: u32, bytes: u32, tag: u32) -> DmaWork {
    DmaWork {
        mem: from,
        spad: to,
        rows: 1,
        bytes,
        mem_step: 0,
        spad_step: 0,
        tag,
    }
}

/// The bytes of four cells, or 0 where there are no such cells.
fn bytes_at(cells: &Spad, places: [u32; 4]) -> [u8; 4] {
    places.map(|place| if place < cells.len() {
        cells.byte(place)
    } else {
        0
    })
}

/// How many works the channel has left, how many of them with these tags, and the bytes of four cells.
type Stage = (u32, [u32; 2], [u8; 4]);

fn stage(channel: &ReadChannel, cells: &Spad) -> Stage {
    (
        channel.unfinished(),
        [channel.tagged(7), channel.tagged(8)],
        bytes_at(cells, [15, 16, 48, 49]),
    )
}

/// A beat of the first of three reads, two of the second, which is then over, and the stages behind them; none where a
/// beat isn't made.
fn first_and_second(
    channel: &mut ReadChannel,
    cells: &mut Spad,
    memory: &mut MainMem,
) -> [Option<Stage>; 3]
    requires inside { All (λ job. HasFootprint (store_size (store_of cells.old memory.old))
        (issue_of IntoCells job.work)) channel.old }
    ensures inside { All (λ job. HasFootprint (store_size (store_of cells.new memory.new))
        (issue_of IntoCells job.work)) channel.new }
{
    let first = stage_behind(channel, false, cells, memory);
    let second = stage_behind(channel, true, cells, memory);
    let third = stage_behind(channel, true, cells, memory);
    [first, second, third]
}

/// The stage behind a beat, where one is made.
fn stage_behind(
    channel: &mut ReadChannel,
    second: bool,
    cells: &mut Spad,
    memory: &mut MainMem,
) -> Option<Stage>
    requires inside { All (λ job. HasFootprint (store_size (store_of cells.old memory.old))
        (issue_of IntoCells job.work)) channel.old }
    ensures inside { All (λ job. HasFootprint (store_size (store_of cells.new memory.new))
        (issue_of IntoCells job.work)) channel.new }
{
    if beat_of(channel, second, cells, memory) {
        Some(stage(channel, cells))
    } else {
        None
    }
}

/// The first two works of a channel, where it has so many.
fn first_two(channel: &ReadChannel) -> Option<(DmaWork, DmaWork)> {
    if channel.unfinished() < 2 {
        return None;
    }
    Some((*channel.work(0), *channel.work(1)))
}

#[test]
fn the_second_transfer_may_end_first(rt: HostRuntime) -> Result<(), Fail> {
    let mut cells = cells_with(rt.alloc(), &[200; 64])?;
    let mut memory = memory_with(rt.alloc(), &numbered())?;
    let mut channel = ReadChannel::new(rt.alloc())?;
    let works = [
        piece(0, 0, 33, 7),
        piece(10, 33, 17, 8),
        piece(20, 50, 2, 7),
    ];
    assert_eq!(rt; offer_all(&mut channel, &works, &cells, &memory), 3);
    let stages = first_and_second(&mut channel, &mut cells, &mut memory);
    assert_eq!(rt;
        stages,
        [
            Some((3, [2, 1], [16, 200, 200, 200])),
            Some((3, [2, 1], [16, 200, 26, 200])),
            Some((2, [2, 0], [16, 200, 26, 27])),
        ]
    );
    assert!(rt; first_two(&channel) == Some((works[0], works[2])));
    assert_eq!(rt; beats_of(&mut channel, true, &mut cells, &mut memory), 1);
    assert_eq!(rt; bytes_at(&cells, [16, 32, 50, 51]), [200, 200, 21, 22]);
    assert_eq!(rt; beats_of(&mut channel, false, &mut cells, &mut memory), 2);
    assert_eq!(rt;
        (channel.unfinished(), bytes_at(&cells, [15, 16, 32, 51])),
        (0, [16, 17, 33, 22])
    );
    Ok(())
}

#[test]
fn a_ninth_transfer_is_given_back(rt: HostRuntime) -> Result<(), Fail> {
    let mut cells = cells_with(rt.alloc(), &numbered())?;
    let mut memory = memory_with(rt.alloc(), &[200; 64])?;
    let mut channel = WriteChannel::new(rt.alloc())?;
    let works = [
        piece(0, 0, 1, 0),
        piece(1, 1, 1, 1),
        piece(2, 2, 1, 2),
        piece(3, 3, 1, 3),
        piece(4, 4, 1, 4),
        piece(5, 5, 1, 5),
        piece(6, 6, 1, 6),
        piece(7, 7, 1, 7),
        piece(8, 8, 1, 8),
    ];
    assert_eq!(rt; offer_all(&mut channel, &works, &cells, &memory), 8);
    assert_eq!(rt; channel.unfinished(), 8);
    assert_eq!(rt; (channel.tagged(7), channel.tagged(8)), (1, 0));
    assert_eq!(rt; beats_of(&mut channel, true, &mut cells, &mut memory), 7);
    assert_eq!(rt;
        (
            memory.byte(0),
            memory.byte(1),
            memory.byte(7),
            memory.byte(8)
        ),
        (200, 2, 8, 200)
    );
    assert_eq!(rt; beats_of(&mut channel, false, &mut cells, &mut memory), 1);
    assert_eq!(rt; (memory.byte(0), channel.unfinished()), (1, 0));
    Ok(())
}
