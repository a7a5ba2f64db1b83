//! The machine.
ghost use Rattle.std.specs.Prelude.{is_none, is_some, replicate, ◌+◌, ◌⊎◌, ◌≡◌, ◌<◌, ◌≤◌, ◌^◌, ◌==◌, ◌&&◌, not, length, slice_get, Some, None, IfOk, IfErr, IsTrue, false};
ghost use Rattle.ven_base.specs.Job.{store_beaten};
ghost use Rattle.venice_isa.specs.declared.issue.Issue.TheVariants.{Read, Write};
ghost use Rattle.venice_isa.specs.Tests.{has_counts, is_in_range};
ghost use Rattle.ven_base.specs.Store.{store_of, store_size};
ghost use Rattle.venice_isa.specs.Host.{deed};
ghost use Rattle.venice_isa.specs.HostState.{host_of};
ghost use Rattle.host_core.specs.Step.{moves, wanted_by};
ghost use Rattle.venice_isa.specs.Units.{is_work, overtakes, Lanes, ReadChannel, WriteChannel};
ghost use Rattle.ven_base.specs.Limits.{cell_limit};
ghost use Rattle.array_file.specs.Fitting.{Fits};
ghost use Rattle.venice_machine.specs.State.{State, number_at, unit_numbered};
ghost use Rattle.venice_machine.specs.Start.{setup_of, start_state, outputs_in};
ghost use Rattle.venice_machine.specs.Run.{step_limit, is_set, all_units, in_order, after_turn, after_turns, after_cycle, after_cycles, run};
ghost use Rattle.venice_machine.specs.Step.{TheHost, TheUnit, stop_before, with_step};
ghost use Rattle.venice_machine.specs.Units.{turn_bits, bits_of_turns, units_of, cycle_answer};
ghost use Rattle.venice_machine.specs.Machine.{Shows};
ghost use Rattle.venice_machine.specs.Grants.{grant_limit};
ghost use Rattle.venice_machine.specs.Answers.{counts_of, RunEnds, IsNoMachine};
ghost use Rattle.venice_machine.specs.AtOnce.{busy_units, MayMakeMany};
ghost use Rattle.venice_machine.specs.Kept.{AllNumbered, unit_course, works_after_beat, place_chosen, beat_of, waiting_in, hazard_of, stop_of, counted, HasRoom, IsHostAlone, after_chance, unit_bits};

use crate::arrays;
use crate::beat::Beat;
use crate::grants::Grants;
use crate::stop::{Counts, Cycle, End, MakeFault, Stop};
use crate::works::{Works, overtakes};
use array_file::fit;
use host_core::{Host, Step, Waiting};
use image_loader::Image;
use spad_store::{MainMem, Spad};
use std::alloc::{AllocError, Global};
use std::marker::Model;
use ven_base::{Arrays, Entry};
use venice_isa::{Code, Issue, Version};

/// The grant that lets all units step, each channel with its first work.
const ALL_UNITS: u8 = 0x0f;

/// The bits of those that step, and of a channel that goes on with its second work.
const HOST: u8 = 0x01;

const LANES: u8 = 0x02;

const READS: u8 = 0x04;

const WRITES: u8 = 0x08;

const SECOND_READ: u8 = 0x10;

const SECOND_WRITE: u8 = 0x20;

/// How many cycles at once are worth it.
const LEAST_AT_ONCE: u64 = 4;

/// The clocked machine with its code, its works, and its cells and memory (docs/MACHINE.md, "The machine"). Contracts
/// see what it keeps, and say of each state that it shows what state it then shows.
#[derive(Drop)]
pub struct Machine {
    code: Code,
    table: Vec<Entry>,
    host: Host,
    works: Works,
    cells: Spad,
    memory: MainMem,
    issues: u64,
    steps: u64,
    cycles: u64,
    end: Option<End>,
}

impl Model for Machine {
    ghost use Rattle.venice_machine.specs.Machine.{MachineContents};
    ghost use Rattle.venice_machine.specs.Inside.{contents_of, IsMachine};

    ghost Value = { MachineContents };

    ghost view = { contents_of };

    ghost invariant = { λ machine. IsMachine (contents_of machine) };
}

impl Machine {
    /// The machine before its first cycle, with so many lanes and a scratchpad of so many bytes: memory holds the
    /// inputs at their places, and 0 elsewhere. `SpadTooSmall` exactly where the image wants more bytes; else `Fit` as
    /// `fit` answers. Conditions: 1 to 4 lanes, and 1 to 1,048,576 bytes. Nothing later takes memory, but `outputs`.
    pub fn new(
        alloc: Global,
        image: Image,
        lanes: u32,
        spad: u32,
        inputs: &Arrays,
    ) -> Result<Machine, MakeFault>
        requires some_lanes { 0 < lanes }
        requires few_lanes { lanes ≤ 4 }
        requires some_cells { 0 < spad }
        requires few_cells { spad ≤ cell_limit }
        ensures setup { IfOk result (λ machine. machine.setup ≡ setup_of image lanes) }
        ensures start { IfOk result (λ machine. Shows machine (start_state image inputs.now spad)) }
        ensures large { IfOk result (λ machine. image.spad ≤ spad) }
        ensures fits { IfOk result (λ machine. Fits inputs.now image.arrays) }
        ensures fault { IfErr result (IsNoMachine image spad inputs.now) }
    {
        if spad < image.spad {
            return Err(MakeFault::SpadTooSmall {
                need: image.spad,
                have: spad,
            });
        }
        match fit(inputs, &image.arrays) {
            Ok(()) => {}
            Err(fault) => return Err(MakeFault::Fit(fault)),
        }
        match Self::make(alloc, image, lanes, spad, inputs) {
            Ok(machine) => Ok(machine),
            Err(_) => Err(MakeFault::Memory),
        }
    }

    fn make(
        alloc: Global,
        image: Image,
        lanes: u32,
        spad: u32,
        inputs: &Arrays,
    ) -> Result<Machine, AllocError>
        requires some_lanes { 0 < lanes }
        requires few_lanes { lanes ≤ 4 }
        requires some_cells { 0 < spad }
        requires few_cells { spad ≤ cell_limit }
        requires fits { Fits inputs.now image.arrays }
        ensures setup { IfOk result (λ machine. machine.setup ≡ setup_of image lanes) }
        ensures start { IfOk result (λ machine. Shows machine (start_state image inputs.now spad)) }
    {
        let works = Works::new(alloc, lanes)?;
        let cells = Spad::new(alloc, spad)?;
        let mut memory = MainMem::new(alloc, image.memory)?;
        arrays::put_inputs(&mut memory, &image.arrays, inputs);
        let Image { arrays, code, .. } = image;
        Ok(Machine {
            code,
            table: arrays,
            host: Host::new(),
            works,
            cells,
            memory,
            issues: 0,
            steps: 0,
            cycles: 0,
            end: None,
        })
    }

    // ---- cycles

    /// One cycle, in which at most so many steps may have been made in all (docs/MACHINE.md, "Cycles"). A run that has
    /// ended stays as it is, and the answer is the same again, with no units. `Budget` exactly where the steps reach
    /// `most` and `halt` isn't among them. Conditions: `most` is at most 1,099,511,627,776, and fewer than
    /// 4,611,686,018,427,387,904 cycles were counted before. Takes no memory.
    #[inline(always)]
    pub fn cycle(&mut self, grant: u8, most: u64) -> Cycle
        requires steps { most ≤ step_limit }
        requires cycles { self.old.cycles < 2 ^ 62 }
        ensures setup { self.new.setup ≡ self.old.setup }
        ensures cycles { self.new.cycles ≤ self.old.cycles + 1 }
        ensures spent { most ≤ self.old.steps → self.new.cycles ≡ self.old.cycles }
        ensures room { HasRoom most self.new }
        ensures state { (state : State) → Shows self.old state →
            Shows self.new (after_cycle self.old.setup most grant state) }
        ensures answer { (state : State) → Shows self.old state → result
            ≡ cycle_answer (after_cycle self.old.setup most grant state).end
            (units_of self.old.setup most grant state) }
    {
        if self.end.is_some() {
            return self.answer(0);
        }
        if most <= self.steps {
            self.end = Some(End::Stopped(Stop::Budget { steps: self.steps }));
            return self.answer(0);
        }
        self.cycles += 1;
        let units = self.turns(grant, most);
        self.answer(units)
    }

    /// Cycles until `halt` or a stop: those of the grant list, and then such in which all units may step, each channel
    /// with its first work. The answer is `Ok` at `halt`, and else the stop. At most as many cycles as the list has
    /// grants and the budget steps. Conditions: `budget` is at most 1,099,511,627,776 steps, and fewer than
    /// 2,305,843,009,213,693,952 cycles were counted before. Takes no memory.
    pub fn run(&mut self, grants: &Grants, budget: u64) -> Result<Counts, Stop>
        requires steps { budget ≤ step_limit }
        requires cycles { self.old.cycles < 2 ^ 61 }
        ensures setup { self.new.setup ≡ self.old.setup }
        ensures few { self.new.cycles ≤ self.old.cycles + (length grants.now + budget) }
        ensures state { (state : State) → Shows self.old state →
            Shows self.new (run self.old.setup budget grants.now state) }
        ensures answer { (state : State) → Shows self.old state →
            RunEnds (run self.old.setup budget grants.now state) result }
    {
        self.granted_cycles(grants, budget);
        self.full_cycles(budget);
        self.ends()
    }

    /// The cycles of the grant list.
    fn granted_cycles(&mut self, grants: &Grants, budget: u64)
        requires steps { budget ≤ step_limit }
        requires cycles { self.old.cycles < 2 ^ 61 }
        ensures setup { self.new.setup ≡ self.old.setup }
        ensures cycles { self.new.cycles ≤ self.old.cycles + length grants.now }
        ensures few { length grants.now ≤ grant_limit }
        ensures state { (state : State) → Shows self.old state →
            Shows self.new (after_cycles self.old.setup budget grants.now state) }
    {
        for k in 0..grants.len() {
            self.cycle(grants.at(k), budget);
        }
    }

    /// Cycles in which all may step, until the run has ended.
    fn full_cycles(&mut self, budget: u64)
        requires steps { budget ≤ step_limit }
        requires cycles { self.old.cycles < 2 ^ 61 + 2 ^ 60 }
        ensures setup { self.new.setup ≡ self.old.setup }
        ensures few { self.new.cycles ≤ self.old.cycles + budget }
        ensures ended { IsTrue (is_some self.new.end) }
        ensures state { (state : State) → Shows self.old state →
            Shows self.new (after_cycles self.old.setup budget (replicate (budget + 1) all_units) state) }
    {
        let mut made = 0;
        while made <= budget {
            if self.end.is_some() {
                return;
            }
            made += self.some_cycles(budget);
        }
    }

    /// Some cycles in which all may step, and their number: many at once, where nothing but the first works of the units
    /// goes on in them, and else one, which makes a step or ends the run.
    #[inline(always)]
    fn some_cycles(&mut self, budget: u64) -> u64
        requires steps { budget ≤ step_limit }
        requires cycles { self.old.cycles < 2 ^ 62 }
        requires going { self.old.end ≡ None }
        ensures setup { self.new.setup ≡ self.old.setup }
        ensures some { 0 < result }
        ensures one { (result ≡ 1) ⊎ (self.new.end ≡ None) }
        ensures cycles { self.new.cycles ≤ self.old.cycles + result }
        ensures spent { budget ≤ self.old.steps → self.new.cycles ≡ self.old.cycles }
        ensures room { HasRoom budget self.new }
        ensures advances { self.new.end ≡ None → self.old.steps + result ≤ self.new.steps }
        ensures state { (state : State) → Shows self.old state →
            Shows self.new (after_cycles self.old.setup budget (replicate result all_units) state) }
    {
        if !self.is_host_alone(budget) {
            let count = self.spare_cycles(budget);
            if count > 0 {
                self.many_cycles(count, budget);
                return count;
            }
        }
        self.full_cycle(budget);
        1
    }

    /// How many cycles may be made at once, or 0: in each the host waits and each unit goes on with its first work, none
    /// of these works ends, no two of them conflict, and no step is the last.
    #[inline(always)]
    fn spare_cycles(&self, most: u64) -> u64
        requires going { self.now.end ≡ None }
        ensures some_lanes { 0 < result → 0 < self.now.setup.lane_count }
        ensures busy { 0 < result → 0 < busy_units self.now.queues }
        ensures may { 0 < result → MayMakeMany most result self.now }
    {
        let busy = self.works.busy();
        if busy == 0 || most <= self.steps || !self.host.waits(&self.code, self.waiting()) {
            return 0;
        }
        let room = (most - self.steps - 1) / busy;
        let spare = self.works.spare();
        let count = spare.min(room);
        if count < LEAST_AT_ONCE || !self.works.all_agree() {
            return 0;
        }
        count
    }

    /// Makes so many cycles at once.
    #[inline(always)]
    fn many_cycles(&mut self, count: u64, most: u64)
        requires some_lanes { 0 < self.old.setup.lane_count }
        requires busy { 0 < busy_units self.old.queues }
        requires limit { most ≤ step_limit }
        requires cycles { self.old.cycles < 2 ^ 62 }
        requires may { MayMakeMany most count self.old }
        ensures setup { self.new.setup ≡ self.old.setup }
        ensures going { self.new.end ≡ None }
        ensures cycles { self.new.cycles ≡ self.old.cycles + count }
        ensures room { self.new.steps < most }
        ensures advances { self.old.steps + count ≤ self.new.steps }
        ensures state { (state : State) → Shows self.old state →
            Shows self.new (after_cycles self.old.setup most (replicate count all_units) state) }
    {
        let busy = self.works.busy();
        self.works
            .beat_all(count, &mut self.cells, &mut self.memory);
        self.steps += count * busy;
        self.cycles += count;
    }

    /// A cycle in which all may step: it makes a step, or ends the run.
    #[inline(always)]
    fn full_cycle(&mut self, budget: u64)
        requires steps { budget ≤ step_limit }
        requires cycles { self.old.cycles < 2 ^ 62 }
        requires going { self.old.end ≡ None }
        ensures setup { self.new.setup ≡ self.old.setup }
        ensures cycles { self.new.cycles ≤ self.old.cycles + 1 }
        ensures spent { budget ≤ self.old.steps → self.new.cycles ≡ self.old.cycles }
        ensures room { HasRoom budget self.new }
        ensures advances { self.new.end ≡ None → self.old.steps < self.new.steps }
        ensures state { (state : State) → Shows self.old state →
            Shows self.new (after_cycle self.old.setup budget all_units state) }
    {
        if self.is_host_alone(budget) {
            self.host_cycle(budget);
            return;
        }
        self.cycle(ALL_UNITS, budget);
    }

    /// Whether in such a cycle the host steps alone, since nothing is unfinished and its instruction concerns no unit.
    #[inline(always)]
    fn is_host_alone(&self, most: u64) -> bool
        ensures { IsTrue result → IsHostAlone most self.now }
    {
        self.steps < most && self.works.is_idle() && self.host.moves(&self.code)
    }

    /// Does that cycle.
    #[inline(always)]
    fn host_cycle(&mut self, most: u64)
        requires alone { IsHostAlone most self.old }
        requires limit { most ≤ step_limit }
        requires going { self.old.end ≡ None }
        requires cycles { self.old.cycles < 2 ^ 62 }
        ensures setup { self.new.setup ≡ self.old.setup }
        ensures cycles { self.new.cycles ≡ self.old.cycles + 1 }
        ensures room { HasRoom most self.new }
        ensures state { (state : State) → Shows self.old state →
            Shows self.new (after_cycle self.old.setup most all_units state) }
    {
        self.cycles += 1;
        self.host.move_on(&self.code);
        self.count(most);
    }

    /// How the run has ended.
    fn ends(&self) -> Result<Counts, Stop>
        requires { IsTrue (is_some self.now.end) }
        ensures { (state : State) → Shows self.now state → RunEnds state result }
    {
        match self.end {
            Some(End::Stopped(stop)) => Err(stop),
            _ => Ok(self.counts()),
        }
    }

    /// What a cycle answers in which these units stepped.
    #[inline(always)]
    fn answer(&self, units: u8) -> Cycle
        ensures { result ≡ cycle_answer self.now.end units }
    {
        match self.end {
            None => Cycle::Went { units },
            Some(End::Halted) => Cycle::Halted,
            Some(End::Stopped(stop)) => Cycle::Stopped { stop, units },
        }
    }

    // ---- turns

    /// The turns of a cycle in their order; the bits of those that step.
    #[inline(always)]
    fn turns(&mut self, grant: u8, most: u64) -> u8
        requires room { HasRoom most self.old }
        requires limit { most ≤ step_limit }
        ensures cycles { self.new.cycles ≡ self.old.cycles }
        ensures room { HasRoom most self.new }
        ensures setup { self.new.setup ≡ self.old.setup }
        ensures state { (state : State) → Shows self.old state →
            Shows self.new (after_turns self.old.setup most grant in_order state) }
        ensures units { (state : State) → Shows self.old state →
            result ≡ bits_of_turns self.old.setup most grant in_order state }
    {
        let host = self.host_granted(grant, most);
        let lanes = self.lanes_granted(grant, most);
        let reads = self.reads_granted(grant, most);
        let writes = self.writes_granted(grant, most);
        host + (lanes + (reads + writes))
    }

    /// Whether one may step whose bit this is: the grant lets it, and the run goes on.
    #[inline(always)]
    fn may_turn(&self, grant: u8, bit: u8) -> bool
        requires { bit < 8 }
        ensures { result ≡ (is_set grant bit && is_none self.now.end) }
    {
        is_set(grant, bit) && self.end.is_none()
    }

    #[inline(always)]
    fn host_granted(&mut self, grant: u8, most: u64) -> u8
        requires room { HasRoom most self.old }
        requires limit { most ≤ step_limit }
        ensures cycles { self.new.cycles ≡ self.old.cycles }
        ensures setup { self.new.setup ≡ self.old.setup }
        ensures room { HasRoom most self.new }
        ensures few { result ≤ 1 }
        ensures state { (state : State) → Shows self.old state →
            Shows self.new (after_turn self.old.setup most grant TheHost state) }
        ensures units { (state : State) → Shows self.old state →
            result ≡ turn_bits self.old.setup most grant TheHost state }
    {
        if !self.may_turn(grant, 0) {
            return 0;
        }
        if self.host_chance(most) { HOST } else { 0 }
    }

    #[inline(always)]
    fn lanes_granted(&mut self, grant: u8, most: u64) -> u8
        requires room { HasRoom most self.old }
        requires limit { most ≤ step_limit }
        ensures cycles { self.new.cycles ≡ self.old.cycles }
        ensures setup { self.new.setup ≡ self.old.setup }
        ensures room { HasRoom most self.new }
        ensures few { result ≤ 2 }
        ensures state { (state : State) → Shows self.old state →
            Shows self.new (after_turn self.old.setup most grant (TheUnit Lanes) state) }
        ensures units { (state : State) → Shows self.old state →
            result ≡ turn_bits self.old.setup most grant (TheUnit Lanes) state }
    {
        if !self.may_turn(grant, 1) {
            return 0;
        }
        if self.lane_turn(most) { LANES } else { 0 }
    }

    #[inline(always)]
    fn reads_granted(&mut self, grant: u8, most: u64) -> u8
        requires room { HasRoom most self.old }
        requires limit { most ≤ step_limit }
        ensures cycles { self.new.cycles ≡ self.old.cycles }
        ensures setup { self.new.setup ≡ self.old.setup }
        ensures room { HasRoom most self.new }
        ensures few { result ≤ 20 }
        ensures state { (state : State) → Shows self.old state →
            Shows self.new (after_turn self.old.setup most grant (TheUnit ReadChannel) state) }
        ensures units { (state : State) → Shows self.old state →
            result ≡ turn_bits self.old.setup most grant (TheUnit ReadChannel) state }
    {
        if !self.may_turn(grant, 2) {
            return 0;
        }
        self.read_turn(is_set(grant, 4), most)
    }

    #[inline(always)]
    fn writes_granted(&mut self, grant: u8, most: u64) -> u8
        requires room { HasRoom most self.old }
        requires limit { most ≤ step_limit }
        ensures cycles { self.new.cycles ≡ self.old.cycles }
        ensures setup { self.new.setup ≡ self.old.setup }
        ensures room { HasRoom most self.new }
        ensures few { result ≤ 40 }
        ensures state { (state : State) → Shows self.old state →
            Shows self.new (after_turn self.old.setup most grant (TheUnit WriteChannel) state) }
        ensures units { (state : State) → Shows self.old state →
            result ≡ turn_bits self.old.setup most grant (TheUnit WriteChannel) state }
    {
        if !self.may_turn(grant, 3) {
            return 0;
        }
        self.write_turn(is_set(grant, 5), most)
    }

    /// Counts a step, the last that may be made where these are `most`.
    #[inline(always)]
    fn count(&mut self, most: u64)
        requires going { self.old.end ≡ None }
        requires steps { self.old.steps < most }
        requires limit { most ≤ step_limit }
        ensures counted { self.new ≡ counted most self.old }
        ensures room { HasRoom most self.new }
    {
        self.steps += 1;
        if most <= self.steps {
            self.end = Some(End::Stopped(Stop::Budget { steps: self.steps }));
        }
    }

    /// The host's turn: an instruction that concerns it alone waits for nothing.
    #[inline(always)]
    fn host_chance(&mut self, most: u64) -> bool
        requires going { self.old.end ≡ None }
        requires steps { self.old.steps < most }
        requires limit { most ≤ step_limit }
        ensures room { HasRoom most self.new }
        ensures cycles { self.new.cycles ≡ self.old.cycles }
        ensures setup { self.new.setup ≡ self.old.setup }
        ensures state { (state : State) → Shows self.old state →
            Shows self.new (after_chance self.old.setup most false TheHost state) }
        ensures answer { result ≡ not (self.new.steps == self.old.steps) }
    {
        if self.host.moves(&self.code) {
            self.host_move(most);
            return true;
        }
        self.host_turn(most)
    }

    /// Does such an instruction.
    #[inline(always)]
    fn host_move(&mut self, most: u64)
        requires moves { IsTrue (moves (deed self.old.setup.code.instrs (host_of self.old.host))) }
        requires going { self.old.end ≡ None }
        requires steps { self.old.steps < most }
        requires limit { most ≤ step_limit }
        ensures room { HasRoom most self.new }
        ensures cycles { self.new.cycles ≡ self.old.cycles }
        ensures setup { self.new.setup ≡ self.old.setup }
        ensures steps { self.new.steps ≡ self.old.steps + 1 }
        ensures state { (state : State) → Shows self.old state →
            Shows self.new (after_chance self.old.setup most false TheHost state) }
    {
        self.host.move_on(&self.code);
        self.count(most);
    }

    /// The turn of any instruction.
    #[inline(always)]
    fn host_turn(&mut self, most: u64) -> bool
        requires going { self.old.end ≡ None }
        requires steps { self.old.steps < most }
        requires limit { most ≤ step_limit }
        ensures room { HasRoom most self.new }
        ensures cycles { self.new.cycles ≡ self.old.cycles }
        ensures setup { self.new.setup ≡ self.old.setup }
        ensures state { (state : State) → Shows self.old state →
            Shows self.new (after_chance self.old.setup most false TheHost state) }
        ensures answer { result ≡ not (self.new.steps == self.old.steps) }
    {
        let waiting = self.waiting();
        if self.host.waits(&self.code, waiting) {
            return false;
        }
        match self.host.peek(&self.code, waiting) {
            Step::Waits => false,
            Step::Halted => {
                self.steps += 1;
                self.end = Some(End::Halted);
                true
            }
            Step::Moved => {
                self.host.step(&self.code, waiting);
                self.count(most);
                true
            }
            Step::Issued(issue) => match self.stop_before(&issue) {
                Some(stop) => {
                    self.end = Some(End::Stopped(stop));
                    false
                }
                None => {
                    self.host.step(&self.code, waiting);
                    self.count(most);
                    self.issues += 1;
                    self.works.issue(issue, self.issues);
                    true
                }
            },
        }
    }

    /// What the host waits for: of tags, that which it wants.
    #[inline(always)]
    fn waiting(&self) -> Waiting
        ensures { result
            ≡ waiting_in (wanted_by (deed self.now.setup.code.instrs (host_of self.now.host))) self.now.queues }
    {
        let wanted = match self.code.version {
            Version::One => None,
            Version::Two => self.host.wanted(&self.code),
        };
        self.works.waiting(wanted)
    }

    /// What stops the machine before it issues a work, if anything.
    fn stop_before(&self, issue: &Issue) -> Option<Stop>
        requires work { IsTrue (is_work issue.now) }
        ensures { result ≡ stop_of self.now.host.place self.now.cycles (has_counts issue.now)
            (is_in_range (store_size (store_of self.now.cells self.now.memory)) issue.now)
            (hazard_of self.now.setup.code.version issue.now self.now.queues) }
    {
        let pc = self.host.pc();
        if !has_counts(issue) {
            Some(Stop::BadCount { pc })
        } else if !self.is_in_range(issue) {
            Some(Stop::OutOfRange { pc })
        } else if self.is_hazard(issue) {
            Some(Stop::Hazard {
                pc,
                cycle: self.cycles,
            })
        } else {
            None
        }
    }

    fn version(&self) -> Version
        ensures { result ≡ self.now.setup.code.version }
    {
        self.code.version
    }

    fn is_hazard(&self, issue: &Issue) -> bool
        requires { IsTrue (is_work issue.now) }
        ensures { result ≡ hazard_of self.now.setup.code.version issue.now self.now.queues }
    {
        self.works.is_hazard(self.version(), issue)
    }

    /// Whether a channel goes on with its second work, where that is chosen.
    #[inline(always)]
    fn overtakes(&self, second: bool) -> bool
        ensures { result ≡ (overtakes self.now.setup.code.version ReadChannel && second) }
    {
        overtakes(self.version()) && second
    }

    /// Whether cells and memory have all that the work reads and writes.
    fn is_in_range(&self, issue: &Issue) -> bool
        ensures { result ≡ is_in_range (store_size (store_of self.now.cells self.now.memory)) issue.now }
    {
        issue.is_in_range(self.cells.len(), self.memory.len())
    }

    #[inline(always)]
    fn lane_turn(&mut self, most: u64) -> bool
        requires going { self.old.end ≡ None }
        requires steps { self.old.steps < most }
        requires limit { most ≤ step_limit }
        ensures room { HasRoom most self.new }
        ensures cycles { self.new.cycles ≡ self.old.cycles }
        ensures setup { self.new.setup ≡ self.old.setup }
        ensures state { (state : State) → Shows self.old state →
            Shows self.new (after_chance self.old.setup most false (TheUnit Lanes) state) }
        ensures answer { result ≡ not (self.new.steps == self.old.steps) }
    {
        let beaten = self.works.beat_lanes(&mut self.cells, &mut self.memory);
        if beaten {
            self.count(most);
        }
        beaten
    }

    #[inline(always)]
    fn read_beat(&mut self, second: bool) -> Beat
        ensures numbered { AllNumbered self.old.queues }
        ensures beaten { result ≡ beat_of second (length self.old.queues.reads.jobs) }
        ensures works { self.new ≡ record self.old {
          queues = record self.old.queues {
            reads = works_after_beat (unit_course Read self.old.setup.lane_count)
                (place_chosen second (length self.old.queues.reads.jobs)) self.old.queues.reads
                (store_of self.old.cells self.old.memory);
          };
          cells = self.new.cells;
          memory = self.new.memory;
        } }
        ensures store { store_of self.new.cells self.new.memory
            ≡ store_beaten (unit_course Read self.old.setup.lane_count)
            (place_chosen second (length self.old.queues.reads.jobs)) self.old.queues.reads.jobs
            (store_of self.old.cells self.old.memory) }
    {
        self.works
            .beat_reads(second, &mut self.cells, &mut self.memory)
    }

    #[inline(always)]
    fn read_turn(&mut self, second: bool, most: u64) -> u8
        requires going { self.old.end ≡ None }
        requires steps { self.old.steps < most }
        requires limit { most ≤ step_limit }
        ensures room { HasRoom most self.new }
        ensures few { result ≤ 20 }
        ensures cycles { self.new.cycles ≡ self.old.cycles }
        ensures setup { self.new.setup ≡ self.old.setup }
        ensures state { (state : State) → Shows self.old state →
            Shows self.new (after_chance self.old.setup most second (TheUnit ReadChannel) state) }
        ensures answer { (state : State) → Shows self.old state →
            result ≡ unit_bits self.old.setup second ReadChannel state }
    {
        let second = self.overtakes(second);
        match self.read_beat(second) {
            Beat::Nothing => 0,
            Beat::First => {
                self.count(most);
                READS
            }
            Beat::Second => {
                self.count(most);
                READS | SECOND_READ
            }
        }
    }

    #[inline(always)]
    fn write_beat(&mut self, second: bool) -> Beat
        ensures numbered { AllNumbered self.old.queues }
        ensures beaten { result ≡ beat_of second (length self.old.queues.writes.jobs) }
        ensures works { self.new ≡ record self.old {
          queues = record self.old.queues {
            writes = works_after_beat (unit_course Write self.old.setup.lane_count)
                (place_chosen second (length self.old.queues.writes.jobs)) self.old.queues.writes
                (store_of self.old.cells self.old.memory);
          };
          cells = self.new.cells;
          memory = self.new.memory;
        } }
        ensures store { store_of self.new.cells self.new.memory
            ≡ store_beaten (unit_course Write self.old.setup.lane_count)
            (place_chosen second (length self.old.queues.writes.jobs)) self.old.queues.writes.jobs
            (store_of self.old.cells self.old.memory) }
    {
        self.works
            .beat_writes(second, &mut self.cells, &mut self.memory)
    }

    #[inline(always)]
    fn write_turn(&mut self, second: bool, most: u64) -> u8
        requires going { self.old.end ≡ None }
        requires steps { self.old.steps < most }
        requires limit { most ≤ step_limit }
        ensures room { HasRoom most self.new }
        ensures few { result ≤ 40 }
        ensures cycles { self.new.cycles ≡ self.old.cycles }
        ensures setup { self.new.setup ≡ self.old.setup }
        ensures state { (state : State) → Shows self.old state →
            Shows self.new (after_chance self.old.setup most second (TheUnit WriteChannel) state) }
        ensures answer { (state : State) → Shows self.old state →
            result ≡ unit_bits self.old.setup second WriteChannel state }
    {
        let second = self.overtakes(second);
        match self.write_beat(second) {
            Beat::Nothing => 0,
            Beat::First => {
                self.count(most);
                WRITES
            }
            Beat::Second => {
                self.count(most);
                WRITES | SECOND_WRITE
            }
        }
    }

    // ---- what it shows

    /// How many steps and cycles were made since the machine was.
    pub fn counts(&self) -> Counts
        ensures { (state : State) → Shows self.now state → result ≡ counts_of state }
    {
        Counts {
            steps: self.steps,
            cycles: self.cycles,
        }
    }

    /// The host's place in the code: the number of its next instruction, from 0.
    pub fn pc(&self) -> u32
        ensures { (state : State) → Shows self.now state → result ≡ state.host.place }
    {
        self.host.pc()
    }

    /// A register of the host. Condition: its number is below 32.
    pub fn register(&self, k: u8) -> u32
        requires { k < 32 }
        ensures { (state : State) → Shows self.now state → result ≡ state.host.register k }
    {
        self.host.register(k)
    }

    /// The byte and the flag of a cell. Condition: its place is below the scratchpad's number of bytes.
    pub fn cell(&self, at: u32) -> (u8, bool)
        requires { at < length self.now.cells }
        ensures { (state : State) → Shows self.now state → slice_get state.store.cells at ≡ Some result }
    {
        (self.cells.byte(at), self.cells.flag(at))
    }

    /// The issue number of a unit's current work, which counts all works from 1; None exactly where its queue is empty.
    /// Unit 1 is the lanes, 2 the read channel and 3 the write channel. Condition: it is one of them.
    pub fn front(&self, unit: u8) -> Option<u64>
        requires some { 0 < unit }
        requires few { unit ≤ 3 }
        ensures { (state : State) → Shows self.now state → result ≡ number_at (unit_numbered unit) 0 state.jobs }
    {
        self.works.number(unit, 0)
    }

    /// The issue number of the second work of a channel's queue; None exactly where it has fewer than two. Unit 2 is the
    /// read channel and 3 the write channel. Condition: it is one of them.
    pub fn second(&self, unit: u8) -> Option<u64>
        requires some { 1 < unit }
        requires few { unit ≤ 3 }
        ensures { (state : State) → Shows self.now state → result ≡ number_at (unit_numbered unit) 1 state.jobs }
    {
        self.works.number(unit, 1)
    }

    /// How many works were issued since the machine was made, so that this is the issue number of the last one.
    pub fn issued(&self) -> u64
        ensures { (state : State) → Shows self.now state → result ≡ state.issues }
    {
        self.issues
    }

    /// The arrays of the image's outputs as memory holds them, in the order of its table.
    pub fn outputs(&self, alloc: Global) -> Result<Arrays, AllocError>
        ensures { (state : State) → Shows self.now state →
            IfOk result (λ arrays. arrays ≡ outputs_in state.store.memory self.now.setup.table) }
    {
        arrays::outputs(alloc, &self.memory, &self.table)
    }
}

/// Whether a bit of the grant is set, counted from 0.
#[inline(always)]
fn is_set(grant: u8, bit: u8) -> bool
    requires { bit < 8 }
    ensures { result ≡ is_set grant bit }
{
    (grant >> bit) % 2 == 1
}

/// Whether no count of a work is 0.
fn has_counts(issue: &Issue) -> bool
    ensures { result ≡ has_counts issue.now }
{
    match issue {
        Issue::Vector(work) => work.vl != 0 && work.rows != 0,
        Issue::Read(work) | Issue::Write(work) => work.rows != 0 && work.bytes != 0,
        _ => true,
    }
}
