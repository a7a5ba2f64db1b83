//! Programs from their text to the bytes of their outputs.
ghost use Rattle.std.specs.Prelude.{◌≡◌, ◌<◌, ◌≤◌, IsTrue, IfOk, All, length};
ghost use Rattle.ven_base.specs.Limits.{cell_limit};
ghost use Rattle.ven_base.specs.Store.{cells_alone, store_of, store_size, IsInRange};
ghost use Rattle.shape_check.specs.Checked.{program_of, statement_of};
ghost use Rattle.shape_check.specs.Meaning.{FitInputs, FitsStatement};
ghost use Rattle.pass_plan.specs.Need.{AreSmall, need_of};
ghost use Rattle.pass_plan.specs.Shown.{passes_of, split_of};
ghost use Rattle.pass_plan.specs.Sizes.{nodes_in};
ghost use Rattle.pass_plan.specs.Sound.{IsSound};
ghost use Rattle.venice_isa.specs.Whole.{HasCounts};
ghost use Rattle.venice_isa.specs.Footprint.{HasFootprint};
ghost use Rattle.venice_isa.specs.declared.issue.Issue.TheVariants.{Vector};
ghost use Rattle.dma_engine.specs.Direction.{HasBytes, issue_of};
ghost use Rattle.host_codegen.specs.CodeRoom.{split_nodes_limit};

use array_meaning::eval;
use array_syntax::parse;
use dma_engine::{Channel, Directed, Reads, Writes};
use dma_schedule::pipeline;
use expr_split::{size_laws, split};
use host_codegen::code;
use lane_machine::Lanes;
use overlap_law::disciplined;
use pass_plan::{Split, need};
use shape_check::{Checked, CheckedStmt, StmtKind, check};
use spad_store::{MainMem, Spad, Unit};
use std::alloc::{AllocError, Global};
use std::test::Fail;
use ven_base::{Array, Arrays, Elem, Entry, Shape, wrap};
use venice_isa::{DmaWork, Issue, VecWork, Version, issues};

/// The checked program of a text.
pub(crate) fn checked_program(alloc: Global, text: &str) -> Option<Checked> {
    if text.len() > 65_536 {
        return None;
    }
    let program = match parse(alloc, text.as_bytes()) {
        Ok(program) => program,
        Err(_) => {
            return None;
        }
    };
    match check(alloc, program) {
        Ok(checked) => Some(checked),
        Err(_) => None,
    }
}

/// An array whose values come from a counter.
fn counted(alloc: Global, elem: Elem, shape: Shape) -> Option<Array> {
    let mut values = Vec::new(alloc);
    for k in 0..shape.rows.checked_mul(shape.cols)? {
        let value = wrap(elem, i128::from(k) * 3_735_928_559 / 5 + 9);
        values.push(value).ok()?;
    }
    Array::new(elem, shape, values)
}

/// An array for each input.
fn inputs_of(alloc: Global, program: &Checked) -> Option<Arrays> {
    let mut inputs = Arrays::new(alloc);
    for stmt in program.stmts.as_slice() {
        if stmt.kind == StmtKind::Input {
            let array = counted(alloc, stmt.elem, stmt.shape)?;
            if inputs.len() > 99 || !inputs.add(stmt.name, array).ok()? {
                return None;
            }
        }
    }
    Some(inputs)
}

/// A byte of a number of two's complement.
fn byte_of(n: i64, k: u32) -> u8 {
    if k > 7 {
        0
    } else {
        n.to_le_bytes()[k as usize]
    }
}

/// Puts an array's bytes at its place, where they fit in.
fn put_array(memory: &mut MainMem, entry: &Entry, array: &Array) {
    let size = entry.elem.size();
    let mut at = entry.place;
    for n in array.values.as_slice() {
        for k in 0..size {
            if at < memory.len() {
                memory.put(at, byte_of(*n, k));
            }
            at = at.wrapping_add(1);
        }
    }
}

/// Whether an array's bytes stand at its place.
fn has_array(memory: &MainMem, entry: &Entry, array: &Array) -> bool {
    let size = entry.elem.size();
    let mut at = entry.place;
    for n in array.values.as_slice() {
        for k in 0..size {
            if at >= memory.len() || memory.byte(at) != byte_of(*n, k) {
                return false;
            }
            at = at.wrapping_add(1);
        }
    }
    true
}

/// Whether every cell that the instruction reads or writes lies below the end.
fn lies_below(work: &VecWork, end: u32) -> bool
    ensures { IsTrue result → HasFootprint (cells_alone end) (Vector work.now) }
{
    work.is_in_range(end)
}

/// Does a vector instruction on so many lanes.
fn finish_vector(
    alloc: Global,
    lanes: u32,
    work: VecWork,
    cells: &mut Spad,
) -> Result<(), AllocError>
    requires some_lanes { 0 < lanes }
    requires few_lanes { lanes ≤ 4 }
    requires counts { HasCounts work }
    requires inside { HasFootprint (cells_alone (length cells.old)) (Vector work) }
{
    let mut memory = MainMem::new(alloc, 0)?;
    let mut unit = Lanes::new(alloc, lanes)?;
    let _ = unit.offer(work);
    let _beats = unit.finish(cells, &mut memory);
    Ok(())
}

/// The same of any instruction; false where it has no elements or doesn't fit.
fn do_vector(alloc: Global, lanes: u32, work: VecWork, cells: &mut Spad) -> Result<bool, AllocError>
    requires some_lanes { 0 < lanes }
    requires few_lanes { lanes ≤ 4 }
{
    if work.vl == 0 {
        return Ok(false);
    }
    if work.rows == 0 {
        return Ok(false);
    }
    if !lies_below(&work, cells.len()) {
        return Ok(false);
    }
    finish_vector(alloc, lanes, work, cells)?;
    Ok(true)
}

/// Whether a transfer has bytes, all of which lie in the stores.
fn fits<D: Directed>(work: DmaWork, cells: &Spad, memory: &MainMem) -> bool
    ensures bytes { IsTrue result → HasBytes work }
    ensures inside { IsTrue result →
        HasFootprint (store_size (store_of cells.now memory.now)) (issue_of D.DIRECTION work) }
{
    0 < work.rows && 0 < work.bytes && work.is_in_range(cells.len(), memory.len())
}

/// Offers a transfer that fits to a channel, all whose transfers do, and says whether it was taken.
fn offer<D: Directed>(
    channel: &mut Channel<D>,
    work: DmaWork,
    cells: &Spad,
    memory: &MainMem,
) -> bool
    requires inside { All (λ job.
        HasFootprint (store_size (store_of cells.now memory.now)) (issue_of D.DIRECTION job.work)) channel.old }
    ensures inside { All (λ job.
        HasFootprint (store_size (store_of cells.now memory.now)) (issue_of D.DIRECTION job.work)) channel.new }
{
    if !fits::<D>(work, cells, memory) {
        return false;
    }
    channel.offer(work).is_ok()
}

/// Makes a beat of any unit's first work.
fn beat_of<U: Unit>(unit: &mut U, cells: &mut Spad, memory: &mut MainMem) -> bool
    requires inside { All (λ job. IsInRange (U.reads job.work) (U.writes job.work)
        (store_size (store_of cells.old memory.old))) (U.jobs unit.old) }
    ensures inside { All (λ job. IsInRange (U.reads job.work) (U.writes job.work)
        (store_size (store_of cells.new memory.new))) (U.jobs unit.new) }
{
    // Each work of the queue has beats left.
    let _count = unit.unfinished();
    unit.beat(cells, memory)
}

/// Makes a unit's beats until its queue is empty, a thousand at most.
fn make_beats<U: Unit>(unit: &mut U, cells: &mut Spad, memory: &mut MainMem) -> bool
    requires inside { All (λ job. IsInRange (U.reads job.work) (U.writes job.work)
        (store_size (store_of cells.old memory.old))) (U.jobs unit.old) }
{
    for _turn in 0..1000 {
        if !beat_of(unit, cells, memory) {
            return true;
        }
    }
    false
}

/// Does a transfer by its beats; false where it has no bytes or doesn't fit.
fn do_transfer<D: Directed>(
    alloc: Global,
    work: DmaWork,
    cells: &mut Spad,
    memory: &mut MainMem,
) -> Result<bool, AllocError> {
    let mut channel: Channel<D> = Channel::new(alloc)?;
    if !offer(&mut channel, work, cells, memory) {
        return Ok(false);
    }
    Ok(make_beats(&mut channel, cells, memory))
}

/// Does an issue; a wait has nothing to wait for.
fn do_issue(
    alloc: Global,
    lanes: u32,
    issue: &Issue,
    cells: &mut Spad,
    memory: &mut MainMem,
) -> Result<bool, AllocError>
    requires some_lanes { 0 < lanes }
    requires few_lanes { lanes ≤ 4 }
{
    match issue {
        Issue::Vector(work) => do_vector(alloc, lanes, *work, cells),
        Issue::Read(work) => do_transfer::<Reads>(alloc, *work, cells, memory),
        Issue::Write(work) => do_transfer::<Writes>(alloc, *work, cells, memory),
        _ => Ok(true),
    }
}

/// Memory with the inputs at their places, after the list.
fn run(
    alloc: Global,
    split: &Split,
    list: &[Issue],
    inputs: &Arrays,
    lanes: u32,
    spad: u32,
) -> Result<MainMem, Fail>
    requires some_lanes { 0 < lanes }
    requires few_lanes { lanes ≤ 4 }
    requires some_cells { 0 < spad }
    requires few_cells { spad ≤ cell_limit }
{
    if split.memory > 1_000_000 {
        return Err(Fail::from("a small program has a small memory"));
    }
    let mut memory = MainMem::new(alloc, split.memory)?;
    for entry in &split.table {
        if let Some(array) = inputs.get(&entry.name) {
            put_array(&mut memory, entry, array);
        }
    }
    let mut cells = Spad::new(alloc, spad)?;
    for issue in list {
        if !do_issue(alloc, lanes, issue, &mut cells, &mut memory)? {
            return Err(Fail::from("a work without elements or out of range"));
        }
    }
    Ok(memory)
}

/// Whether each output stands at its place in memory.
fn has_outputs(memory: &MainMem, table: &[Entry], outputs: &Arrays) -> bool {
    for entry in table {
        if entry.output {
            match outputs.get(&entry.name) {
                Some(array) => {
                    if !has_array(memory, entry, array) {
                        return false;
                    }
                }
                None => {
                    return false;
                }
            }
        }
    }
    true
}

/// Whether the inputs hold the array that a statement asks for.
fn has_input(stmt: &CheckedStmt, inputs: &Arrays) -> bool
    ensures { IsTrue result → FitsStatement inputs.now (statement_of stmt.now) }
{
    if stmt.kind != StmtKind::Input {
        return stmt.value.is_some();
    }
    match inputs.get(&stmt.name) {
        Some(array) => array.elem == stmt.elem && array.shape == stmt.shape,
        None => false,
    }
}

/// Whether the inputs hold the arrays that the statements ask for.
fn has_inputs(stmts: &[CheckedStmt], inputs: &Arrays) -> bool
    ensures { IsTrue result → FitInputs (program_of stmts.now) inputs.now }
{
    for stmt in stmts {
        if !has_input(stmt, inputs) {
            return false;
        }
    }
    true
}

/// The program's outputs.
fn outputs_of(alloc: Global, program: &Checked, inputs: &Arrays) -> Result<Arrays, Fail> {
    if !has_inputs(program.stmts.as_slice(), inputs) {
        return Err(Fail::from("each input has its array"));
    }
    Ok(eval(alloc, program, inputs)?)
}

/// The split of a checked program.
pub(crate) fn split_of_program(alloc: Global, program: &Checked) -> Result<Split, AllocError>
    ensures small { IfOk result (λ split. AreSmall (passes_of split.passes.items)) }
    ensures sound { IfOk result (λ split. IsSound (split_of split)) }
    ensures few { IfOk result (λ split. nodes_in (split_of split) ≤ split_nodes_limit) }
{
    size_laws();
    // What is known of every checked program shows in its statements.
    let _known = program.stmts.as_slice();
    Ok(split(alloc, program)?)
}

/// More steps than any of the codes here takes.
const MOST_STEPS: u64 = 2_000_000_000;

/// Whether the code of a split passes on this list.
fn is_coded(alloc: Global, split: &Split, spad: u32, list: &[Issue]) -> Result<bool, AllocError>
    requires sound { IsSound (split_of split.now) }
    requires holds { need_of (split_of split.now).passes ≤ spad }
    requires few { nodes_in (split_of split.now) ≤ split_nodes_limit }
{
    let code = code(alloc, split, spad)?;
    match issues(alloc, &code, MOST_STEPS) {
        Ok(passed) => Ok(passed.as_slice() == list),
        Err(_) => Ok(false),
    }
}

/// Whether a split's list is disciplined, is that of its code, and leaves the outputs on 1 to 4 lanes.
fn leaves(
    alloc: Global,
    split: &Split,
    spad: u32,
    inputs: &Arrays,
    outputs: &Arrays,
) -> Result<bool, Fail>
    requires sound { IsSound (split_of split.now) }
    requires holds { need_of (split_of split.now).passes ≤ spad }
    requires few { nodes_in (split_of split.now) ≤ split_nodes_limit }
    requires some_cells { 0 < spad }
    requires few_cells { spad ≤ cell_limit }
{
    let list = pipeline(alloc, split, spad)?;
    if list.len() > 1_000_000 || disciplined(Version::Two, &list).is_err() {
        return Ok(false);
    }
    if !is_coded(alloc, split, spad, &list)? {
        return Ok(false);
    }
    for lanes in 1..5 {
        let memory = run(alloc, split, &list, inputs, lanes, spad)?;
        if !has_outputs(&memory, &split.table, outputs) {
            return Ok(false);
        }
    }
    Ok(true)
}

/// The same in a scratchpad of so many bytes, and of twice, seven and sixty times as many.
fn leaves_in_each(
    alloc: Global,
    split: &Split,
    least: u32,
    inputs: &Arrays,
    outputs: &Arrays,
) -> Result<bool, Fail>
    requires sound { IsSound (split_of split.now) }
    requires holds { need_of (split_of split.now).passes ≤ least }
    requires few { nodes_in (split_of split.now) ≤ split_nodes_limit }
    requires some_cells { 0 < least }
    requires few_cells { least ≤ 1000 }
{
    Ok(
        leaves(alloc, split, least, inputs, outputs)?
            && leaves(alloc, split, 2 * least, inputs, outputs)?
            && leaves(alloc, split, 7 * least, inputs, outputs)?
            && leaves(alloc, split, 60 * least, inputs, outputs)?,
    )
}

/// Whether the program's list is disciplined, is that of its code, and leaves its outputs on 1 to 4 lanes, in a
/// scratchpad of its need and in larger ones.
fn is_right(alloc: Global, text: &str) -> Result<bool, Fail> {
    let program = checked_program(alloc, text).ok_or("the text is a program")?;
    let inputs = inputs_of(alloc, &program).ok_or("the inputs are arrays")?;
    let outputs = outputs_of(alloc, &program, &inputs)?;
    let split = split_of_program(alloc, &program)?;
    let least = need(&split.passes);
    if least == 0 || least > 1000 {
        return Ok(false);
    }
    leaves_in_each(alloc, &split, least as u32, &inputs, &outputs)
}

const PROGRAMS: [&str; 41] = [
    "input a u8[1,4]; input b u8[1,4]; output y = a + b;",
    "input a u8[1,3]; output y = select(a < 10, a, 0);",
    "input a i8[1,1]; output y = select(a < 10, a, 0);",
    "input a u8[3,5]; output y = u8((shift(u16(a),-1,-1,0) + shift(u16(a),0,1,3)*2 + u16(a)*4) >> 4);",
    "input a u16[2,9]; output y = rowsum(a);",
    "input a i16[3,7]; output y = rowmin(a); output z = rowmax(a * 3);",
    "input a u32[2,9]; output x = sum(a); output y = minval(a); output z = maxval(a);",
    "input a u8[5,3]; output x = rowsum(a); output y = rowmin(a); output z = rowmax(a);",
    "input a i32[1,1]; output x = sum(a); output y = minval(-a); output z = ~a;",
    "input a u8[2,3]; output x = shift(a,0,1,7); output y = shift(a,0,-1,7); output z = shift(a,0,5,7);",
    "input a i16[2,3]; output x = shift(a,1,0,-7); output y = shift(a,-1,2,9);",
    "input a u8[2,3]; output x = rotate(a,0,-1); output y = rotate(a,1,3); output z = rotate(a,1,2);",
    "input a u8[2,4]; output x = section(a,0,2,1,1,2,2); output y = section(a,1,1,1,0,4,1);",
    "input a u16[1,2]; output x = stretch(a,2,3); output y = stretch(a,3,1);",
    "input a i16[2,3]; output x = transpose(a); output y = transpose(rotate(a,1,1));",
    "input a i16[4,5]; output p = shift(a,1,-2,-1); output q = shift(a,-3,4,7); output r = shift(a,0,9,7); \
        output s = shift(a,-4294967295,4294967295,7); output t = shift(a,4294967295,-4294967295,7);",
    "input a i16[4,5]; output p = rotate(a,1,-2); output q = rotate(a,-11,6); \
        output r = rotate(a,-4294967295,4294967295);",
    "input a i16[4,5]; output p = section(a,1,3,1,2,3,1); output q = section(a,1,2,2,0,2,3); output r = transpose(a);",
    "input a i16[4,5]; output p = stretch(a,3,1); output q = stretch(a,1,4); output r = stretch(a,3,2);",
    "input a u8[2,3]; output y = select(shift(a,0,1,1), a, 3);",
    "input a u8[2,3]; output y = select(a > 90, shift(a,0,1,1), a);",
    "input a u8[2,3]; output y = select(a >= 90, a, shift(a,0,1,1));",
    "input a u8[2,3]; output y = select(shift(a,1,0,2) > 4, shift(a,0,1,1), shift(a,0,-1,200));",
    "input a i8[2,3]; input b i8[2,3]; output p = -a; output q = ~a; output r = abs(a); output s = a - b; \
        output t = a * b; output u = a & b; output v = a | b; output w = a ^ b;",
    "input a i8[2,3]; input b i8[2,3]; output p = a << b; output q = a >> b; output r = min(a, b); \
        output s = max(a, b); output t = a == b; output u = a != b; output v = a < b; output w = a <= b; \
        output x = a > b; output z = a >= b; output y = a + b;",
    "input a u8[2,3]; input b u8[2,3]; output p = -a; output q = ~a; output r = abs(a); output s = a - b; \
        output t = a * b; output u = a & b; output v = a | b; output w = a ^ b;",
    "input a u8[2,3]; input b u8[2,3]; output p = a << b; output q = a >> b; output r = min(a, b); \
        output s = max(a, b); output t = a == b; output u = a != b; output v = a < b; output w = a <= b; \
        output x = a > b; output z = a >= b; output y = a + b;",
    "input a i16[2,3]; input b i16[2,3]; output p = -a; output q = ~a; output r = abs(a); output s = a - b; \
        output t = a * b; output u = a & b; output v = a | b; output w = a ^ b;",
    "input a i16[2,3]; input b i16[2,3]; output p = a << b; output q = a >> b; output r = min(a, b); \
        output s = max(a, b); output t = a == b; output u = a != b; output v = a < b; output w = a <= b; \
        output x = a > b; output z = a >= b; output y = a + b;",
    "input a u16[2,3]; input b u16[2,3]; output p = -a; output q = ~a; output r = abs(a); output s = a - b; \
        output t = a * b; output u = a & b; output v = a | b; output w = a ^ b;",
    "input a u16[2,3]; input b u16[2,3]; output p = a << b; output q = a >> b; output r = min(a, b); \
        output s = max(a, b); output t = a == b; output u = a != b; output v = a < b; output w = a <= b; \
        output x = a > b; output z = a >= b; output y = a + b;",
    "input a i32[2,3]; input b i32[2,3]; output p = -a; output q = ~a; output r = abs(a); output s = a - b; \
        output t = a * b; output u = a & b; output v = a | b; output w = a ^ b;",
    "input a i32[2,3]; input b i32[2,3]; output p = a << b; output q = a >> b; output r = min(a, b); \
        output s = max(a, b); output t = a == b; output u = a != b; output v = a < b; output w = a <= b; \
        output x = a > b; output z = a >= b; output y = a + b;",
    "input a u32[2,3]; input b u32[2,3]; output p = -a; output q = ~a; output r = abs(a); output s = a - b; \
        output t = a * b; output u = a & b; output v = a | b; output w = a ^ b;",
    "input a u32[2,3]; input b u32[2,3]; output p = a << b; output q = a >> b; output r = min(a, b); \
        output s = max(a, b); output t = a == b; output u = a != b; output v = a < b; output w = a <= b; \
        output x = a > b; output z = a >= b; output y = a + b;",
    "input a i8[2,3]; output p = u8(a + 1); output q = u16(a + 1); output r = i16(a); output s = u32(a - 2); \
        output t = i32(a);",
    "input a u32[2,3]; output p = u8(a + 1); output q = i8(a); output r = i16(a + 3); output s = u16(a); \
        output t = i32(a);",
    "input a u8[2,3]; output p = i8(a + 1); output q = u16(a); output r = i16(a * 2); output s = u32(a); \
        output t = i32(a);",
    "input a u16[2,3]; output p = u8(a + 1); output q = i8(a); output r = i16(a * 2); output s = u32(a); \
        output t = i32(a);",
    "input a i16[2,3]; output p = u8(a + 1); output q = i8(a); output r = u16(a * 2); output s = u32(a); \
        output t = i32(a);",
    "input a i32[2,3]; output p = u8(a + 1); output q = i8(a); output r = u16(a * 2); output s = i16(a); \
        output t = u32(a);",
];

#[test]
fn lists_leave_the_outputs(rt: HostRuntime) -> Result<(), Fail> {
    for text in PROGRAMS {
        assert!(rt; is_right(rt.alloc(), text)?, "{text}");
    }
    Ok(())
}

#[test]
fn an_empty_list_leaves_no_outputs(rt: HostRuntime) -> Result<(), Fail> {
    let alloc = rt.alloc();
    let program = checked_program(alloc, PROGRAMS[0]).ok_or("the text is a program")?;
    let inputs = inputs_of(alloc, &program).ok_or("the inputs are arrays")?;
    let outputs = outputs_of(alloc, &program, &inputs)?;
    let split = split_of_program(alloc, &program)?;
    let memory = run(alloc, &split, &[], &inputs, 1, 7)?;
    assert!(rt; !has_outputs(&memory, &split.table, &outputs));
    Ok(())
}

// ---- the code of larger splits

/// A picture made smooth, and the sum, the least and the greatest of its pixels.
const SMOOTH: &str = "let w = u16(a); \
    let y = u8((shift(w,-1,-1,0) + shift(w,-1,0,0)*2 + shift(w,-1,1,0) + shift(w,0,-1,0)*2 + w*4 + shift(w,0,1,0)*2 \
        + shift(w,1,-1,0) + shift(w,1,0,0)*2 + shift(w,1,1,0)) >> 4); \
    output total = sum(u32(y)); output low = minval(y); output high = maxval(y);";

/// The text of that for a picture of the size that its input has.
fn smooth(alloc: Global, input: &str) -> Result<String, AllocError> {
    let mut text = String::from_str(alloc, input)?;
    text.push_str(SMOOTH)?;
    Ok(text)
}

/// The split of a text, where it has a need of at most so many bytes.
fn split_within(alloc: Global, text: &str, spad: u32) -> Result<Split, Fail>
    ensures sound { IfOk result (λ split. IsSound (split_of split)) }
    ensures few { IfOk result (λ split. nodes_in (split_of split) ≤ split_nodes_limit) }
    ensures holds { IfOk result (λ split. need_of (split_of split).passes ≤ spad) }
{
    let program = checked_program(alloc, text).ok_or("the text is a program")?;
    let split = split_of_program(alloc, &program)?;
    if need(&split.passes) > u64::from(spad) {
        return Err(Fail::from("the need is within the scratchpad"));
    }
    Ok(split)
}

/// Whether the code of a text passes on its pipelined list.
fn passes_on_its_list(alloc: Global, text: &str, spad: u32) -> Result<bool, Fail> {
    let split = split_within(alloc, text, spad)?;
    let list = pipeline(alloc, &split, spad)?;
    Ok(is_coded(alloc, &split, spad, &list)?)
}

#[test]
fn codes_pass_on_their_lists(rt: HostRuntime) -> Result<(), Fail> {
    let alloc = rt.alloc();
    assert!(rt; passes_on_its_list(alloc, PROGRAMS[0], 65_536)?);
    assert!(rt; passes_on_its_list(alloc, "input a u16[2,9]; output y = rowsum(a);", 48)?);
    for (input, spad) in [
        ("input a u8[1,2]; ", 65_536),
        ("input a u8[240,320]; ", 16_384),
        ("input a u8[60,80]; ", 44),
    ] {
        let text = smooth(alloc, input)?;
        assert!(rt; passes_on_its_list(alloc, &text, spad)?, "{input}");
    }
    Ok(())
}

/// How many instructions the code of a text has.
fn code_length(alloc: Global, text: &str, spad: u32) -> Result<u32, Fail> {
    let split = split_within(alloc, text, spad)?;
    Ok(code(alloc, &split, spad)?.len())
}

#[test]
fn code_is_as_long_for_a_tile_as_for_ten_thousand(rt: HostRuntime) -> Result<(), Fail> {
    let alloc = rt.alloc();
    let one = "input a u8[1,4]; output y = shift(a,0,1,7) + a;";
    let many = "input a u8[10000,4]; output y = shift(a,0,1,7) + a;";
    assert_eq!(rt; code_length(alloc, one, 28)?, code_length(alloc, many, 28)?);
    let small = smooth(alloc, "input a u8[60,80]; ")?;
    let large = smooth(alloc, "input a u8[240,320]; ")?;
    assert_eq!(rt;
        code_length(alloc, &small, 44)?,
        code_length(alloc, &large, 44)?
    );
    Ok(())
}
