// A machine with its clock, and the five parts of a tick.
ghost use Rattle.std.specs.Prelude.{◌≡◌, ◌<◌, ◌+◌, ◌^◌, ℕ, [], IfOk, IfSome, IsSome, length, map};
ghost use Rattle.dae_base.specs.declared.Side.TheVariants.{A, E};
ghost use Rattle.dae_core.specs.Held.{CanHold};
ghost use Rattle.dae_machine.specs.Answers.{answer, processor};
ghost use Rattle.dae_machine.specs.Machine.{code, step};
ghost use Rattle.dae_machine.specs.Opened.{opened, setup_of};
ghost use Rattle.dae_machine.specs.Rests.{Rests};
ghost use Rattle.dae_timing.specs.Clocks.{first_clock, issues_after, waits_for, waits_of};
ghost use Rattle.dae_timing.specs.Costs.{cost_of, price_at, price_of_word};
ghost use Rattle.dae_timing.specs.Runs.{with_print};
ghost use Rattle.dae_timing.specs.Ticks.{after_drain, after_fill, after_side, after_side_by, after_wait, drain_of, fill_of, move_of, step_of};

use crate::prices::{Price, cost_of, price_at, prices_of};
use crate::ripe::first_ripe;
use crate::waits::Waits;
use dae_base::{Depths, Piece, Queue, Side};
use dae_cli_options::Costs;
use dae_core::CoreAnswer;
use dae_image::Image;
use dae_machine::{Machine, Pick, Rest};
use dae_queues::{Fifo, RingFifo};
use std::alloc::{AllocError, Global};
use std::marker::Model;

/// A machine, the price of each word of its codes, and its clock: the number of ticks, the tick of issue of each slot of ld
/// and of al, from which tick on each processor may step, and in how many ticks each waited.
#[derive(Drop)]
pub struct Clockwork {
    machine: Machine,
    costs: Costs,
    prices_a: Vec<Price>,
    prices_e: Vec<Price>,
    ticks: u64,
    ld: RingFifo<u64>,
    al: RingFifo<u64>,
    free_a: u64,
    free_e: u64,
    waits_a: Waits,
    waits_e: Waits,
}

impl Model for Clockwork {
    ghost use Rattle.dae_timing.specs.Held.{HeldClock, IsSound, seen};

    ghost Value = { HeldClock };

    ghost view = { λ w. seen w.machine w.costs w.ticks w.ld w.al w.free_a w.free_e
        w.waits_a w.waits_e };

    ghost invariant = { λ w. IsSound w.machine w.prices_a.items w.prices_e.items
        w.ticks w.ld w.al };
}

impl Clockwork {
    /// The clock of a machine that was opened from this image, before its first tick.
    pub fn start(
        alloc: Global,
        image: &Image,
        depths: Depths,
        machine: Machine,
        costs: Costs,
    ) -> Result<Clockwork, AllocError>
        requires holds { CanHold depths }
        requires setup { machine.setup ≡ setup_of image.now depths }
        requires state { machine.state ≡ opened image.now }
        ensures setup { IfOk result (λ w. w.setup ≡ machine.setup) }
        ensures costs { IfOk result (λ w. w.costs ≡ costs) }
        ensures clock { IfOk result (λ w. w.clock ≡ first_clock machine.state) }
    {
        let (prices_a, prices_e, ld, al) = before_first_tick(alloc, image, depths)?;
        Ok(Clockwork {
            machine,
            costs,
            prices_a,
            prices_e,
            ticks: 0,
            ld,
            al,
            free_a: 0,
            free_e: 0,
            waits_a: Waits::none(),
            waits_e: Waits::none(),
        })
    }

    /// The machine.
    pub fn machine(&self) -> &Machine
        ensures setup { result.now.setup ≡ self.now.setup }
        ensures state { result.now.state ≡ self.now.clock.state }
    {
        &self.machine
    }

    /// How many ticks there were.
    pub fn ticks(&self) -> u64
        ensures { result ≡ self.now.clock.ticks }
    {
        self.ticks
    }

    /// In how many ticks a processor waited for a queue.
    pub fn waits(&self, side: Side, queue: Queue) -> u64
        ensures { result ≡ waits_for queue (waits_of side self.now.clock) }
    {
        match side {
            Side::A => self.waits_a.waits_for(queue),
            Side::E => self.waits_e.waits_for(queue),
        }
    }

    /// How the machine rests where no pick is enabled, or None where some pick is.
    pub fn rest(&self) -> Option<Rest>
        ensures { Rests result self.now.setup self.now.clock.state }
    {
        self.machine.rest()
    }

    /// The drain, where it is enabled.
    pub fn drain(&mut self) -> Option<Pick>
        requires few { self.old.clock.state.steps < 1000000000000 }
        ensures setup { self.new.setup ≡ self.old.setup }
        ensures costs { self.new.costs ≡ self.old.costs }
        ensures pick { result ≡ drain_of self.old.setup self.old.clock }
        ensures clock { self.new.clock ≡ after_drain self.old.setup self.old.clock }
    {
        if self.machine.enabled(Pick::Drain) {
            let _ = self.machine.step(Pick::Drain);
            Some(Pick::Drain)
        } else {
            None
        }
    }

    /// The fill of the lowest slot of a side's queue that may be filled and is old enough, where there is one.
    pub fn fill(&mut self, side: Side) -> Option<Pick>
        requires few { self.old.clock.state.steps < 1000000000000 }
        ensures setup { self.new.setup ≡ self.old.setup }
        ensures costs { self.new.costs ≡ self.old.costs }
        ensures pick { result ≡ fill_of self.old.setup self.old.costs side self.old.clock }
        ensures clock { self.new.clock
            ≡ after_fill self.old.setup self.old.costs side self.old.clock }
    {
        let pick = self.fill_of(side)?;
        let _ = self.machine.step(pick);
        Some(pick)
    }

    /// That fill.
    fn fill_of(&self, side: Side) -> Option<Pick>
        ensures pick { result ≡ fill_of self.now.setup self.now.costs side self.now.clock }
        ensures enabled { IfSome result
            (λ pick. IsSome (step self.now.setup self.now.clock.state pick)) }
    {
        match side {
            Side::A => first_ripe(&self.machine, &self.al, side, self.costs.load, self.ticks),
            Side::E => first_ripe(&self.machine, &self.ld, side, self.costs.load, self.ticks),
        }
    }

    /// The step of E and what it prints, where E isn't held back and has one. Where it waits instead, that is counted.
    pub fn go_e(&mut self) -> (Option<Pick>, Piece)
        requires few { self.old.clock.state.steps < 1000000000000 }
        requires early { self.old.clock.ticks < 100000000000 }
        requires room { (queue : Queue) → waits_for queue (waits_of E self.old.clock) < 2 ^ 63 }
        ensures setup { self.new.setup ≡ self.old.setup }
        ensures costs { self.new.costs ≡ self.old.costs }
        ensures pick { result.0 ≡ step_of self.old.setup E self.old.clock }
        ensures clock { after_side self.old.setup self.old.costs E self.old.clock
            ≡ with_print result.1 self.new.clock }
    {
        if self.ticks < self.free_e {
            return (None, Piece::empty());
        }
        if self.machine.enabled(Pick::E) {
            let piece = self.make_move(Side::E, Pick::E);
            return (Some(Pick::E), piece);
        }
        self.count_wait(Side::E);
        (None, Piece::empty())
    }

    /// The step of A, where it isn't held back and has one. Where it waits instead, that is counted.
    pub fn go_a(&mut self) -> Option<Pick>
        requires few { self.old.clock.state.steps < 1000000000000 }
        requires early { self.old.clock.ticks < 100000000000 }
        requires room { (queue : Queue) → waits_for queue (waits_of A self.old.clock) < 2 ^ 63 }
        ensures setup { self.new.setup ≡ self.old.setup }
        ensures costs { self.new.costs ≡ self.old.costs }
        ensures pick { result ≡ step_of self.old.setup A self.old.clock }
        ensures clock { self.new.clock ≡ after_side self.old.setup self.old.costs A self.old.clock }
    {
        if self.ticks < self.free_a {
            return None;
        }
        if self.machine.enabled(Pick::A) {
            let _ = self.make_move(Side::A, Pick::A);
            return Some(Pick::A);
        }
        self.count_wait(Side::A);
        None
    }

    /// Counts the queue for which a processor without a step waits.
    fn count_wait(&mut self, side: Side)
        requires { (queue : Queue) → waits_for queue (waits_of side self.old.clock) < 2 ^ 63 }
        ensures setup { self.new.setup ≡ self.old.setup }
        ensures costs { self.new.costs ≡ self.old.costs }
        ensures clock { self.new.clock
            ≡ after_wait (answer self.old.setup self.old.clock.state side) side self.old.clock }
    {
        if let CoreAnswer::Waits(queue) = self.machine.answer(side) {
            match side {
                Side::A => self.waits_a.count(queue),
                Side::E => self.waits_e.count(queue),
            }
        }
    }

    /// The step of a processor that has one, and what it prints. Its cost holds it back from this tick on.
    fn make_move(&mut self, side: Side, pick: Pick) -> Piece
        requires few { self.old.clock.state.steps < 1000000000000 }
        requires early { self.old.clock.ticks < 100000000000 }
        requires moves { pick ≡ move_of side }
        requires enabled { IsSome (step self.old.setup self.old.clock.state pick) }
        ensures setup { self.new.setup ≡ self.old.setup }
        ensures costs { self.new.costs ≡ self.old.costs }
        ensures clock { after_side_by (step self.old.setup self.old.clock.state pick)
            self.old.setup self.old.costs side self.old.clock
            ≡ with_print result self.new.clock }
    {
        let cost = u64::from(self.cost_of_next(side));
        let (ld, al) = (self.machine.len(Queue::Ld), self.machine.len(Queue::Al));
        let piece = self.machine.step(pick);
        follow_queue(&mut self.ld, self.ticks, ld, self.machine.len(Queue::Ld));
        follow_queue(&mut self.al, self.ticks, al, self.machine.len(Queue::Al));
        match side {
            Side::A => self.free_a = self.ticks + cost,
            Side::E => self.free_e = self.ticks + cost,
        }
        piece
    }

    /// What the next instruction of a processor costs, in ticks.
    fn cost_of_next(&self, side: Side) -> u16
        ensures cost { result ≡ cost_of self.now.costs
            (price_at (code self.now.setup side) (processor side self.now.clock.state)) }
        ensures small { result < 65536 }
    {
        let word = (self.machine.counter(side) / 4) as usize;
        let price = match side {
            Side::A => price_at(self.prices_a.as_slice(), word),
            Side::E => price_at(self.prices_e.as_slice(), word),
        };
        cost_of(self.costs, price)
    }

    /// Counts the tick.
    pub fn end_tick(&mut self)
        requires { self.old.clock.ticks < 100000000000 }
        ensures setup { self.new.setup ≡ self.old.setup }
        ensures costs { self.new.costs ≡ self.old.costs }
        ensures clock { self.new.clock
            ≡ record self.old.clock { ticks = self.old.clock.ticks + 1 } }
    {
        self.ticks += 1;
    }
}

/// What stands beside a machine before its first tick: the price of each word of its codes, of A and of E, and no ticks of
/// issue, of ld and of al.
fn before_first_tick(
    alloc: Global,
    image: &Image,
    depths: Depths,
) -> Result<(Vec<Price>, Vec<Price>, RingFifo<u64>, RingFifo<u64>), AllocError>
    requires { CanHold depths }
    ensures prices_a { IfOk result (λ all. all.0.items ≡ map price_of_word image.now.code_a) }
    ensures prices_e { IfOk result (λ all. all.1.items ≡ map price_of_word image.now.code_e) }
    ensures ld { IfOk result (λ all. all.2 ≡ record { held = []; depth = depths.ld }) }
    ensures al { IfOk result (λ all. all.3 ≡ record { held = []; depth = depths.al }) }
{
    let prices_a = prices_of(alloc, image.code_a.as_slice())?;
    let prices_e = prices_of(alloc, image.code_e.as_slice())?;
    let ld = RingFifo::with_depth(alloc, depths.ld)?;
    let al = RingFifo::with_depth(alloc, depths.al)?;
    Ok((prices_a, prices_e, ld, al))
}

/// Follows a load queue that went from so many slots to so many: notes the tick of issue of the slot that came, or drops that
/// of the front one where it was taken.
fn follow_queue(issues: &mut RingFifo<u64>, now: u64, before: u16, after: u16)
    requires { before < after → length issues.old.held < issues.old.depth }
    ensures held { issues.new.held ≡ issues_after now before after issues.old.held }
    ensures depth { issues.new.depth ≡ issues.old.depth }
{
    if before < after {
        let _ = issues.push(now);
    } else if after < before {
        let _ = issues.take();
    }
}
