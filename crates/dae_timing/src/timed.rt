// Ticks of a machine.
ghost use Rattle.std.specs.Prelude.{◌≡◌, ◌<◌, [], IfOk, IfErr};
ghost use Rattle.dae_base.specs.Budgets.{Reaches};
ghost use Rattle.dae_core.specs.Held.{CanHold};
ghost use Rattle.dae_machine.specs.Answers.{Refuses};
ghost use Rattle.dae_machine.specs.Opened.{opened, setup_of};
ghost use Rattle.dae_timing.specs.Clocks.{first_clock, waits_for, waits_of};
ghost use Rattle.dae_timing.specs.Runs.{TicksTo, no_picks, picks_in};

use crate::clockwork::Clockwork;
use dae_base::{Depths, Piece, Queue, Side};
use dae_cli_options::Costs;
use dae_image::Image;
use dae_machine::{End, Machine, OpenError, Pick, Rest};
use std::alloc::Global;
use std::marker::Model;

/// What a tick came to: it was made; or no pick is enabled, since the machine ended or is stuck, and nothing changed.
#[derive(Clone, Copy, PartialEq, Eq, Debug)]
pub enum TickState {
    Going,
    Final(End),
    Stuck,
}

/// The picks of a tick, in their order, what it printed, and what it came to.
#[derive(Drop)]
pub struct Tick {
    pub drain: Option<Pick>,
    pub fill_a: Option<Pick>,
    pub fill_e: Option<Pick>,
    pub e: Option<Pick>,
    pub a: Option<Pick>,
    pub piece: Piece,
    pub state: TickState,
}

impl Tick {
    /// Where no tick was made.
    fn without_picks(state: TickState) -> Tick
        ensures picks { picks_in result ≡ no_picks }
        ensures quiet { result.piece ≡ [] }
        ensures state { result.state ≡ state }
    {
        Tick {
            drain: None,
            fill_a: None,
            fill_e: None,
            e: None,
            a: None,
            piece: Piece::empty(),
            state,
        }
    }
}

/// A machine that is run tick by tick.
#[derive(Drop)]
pub struct Timed {
    work: Clockwork,
}

impl Model for Timed {
    ghost use Rattle.dae_timing.specs.Held.{HeldClock, IsTimed};

    ghost Value = { HeldClock };

    ghost view = { λ t. t.work };

    ghost invariant = { λ t. IsTimed t.work.clock };
}

impl Timed {
    /// A machine before its first tick.
    pub fn open(
        alloc: Global,
        image: &Image,
        depths: Depths,
        costs: Costs,
    ) -> Result<Timed, OpenError>
        requires { CanHold depths }
        ensures setup { IfOk result (λ timed. timed.setup ≡ setup_of image.now depths) }
        ensures costs { IfOk result (λ timed. timed.costs ≡ costs) }
        ensures clock { IfOk result (λ timed. timed.clock ≡ first_clock (opened image.now)) }
        ensures reaches { IfOk result (λ timed. Reaches depths image.now.budget) }
        ensures err { IfErr result (λ e. Refuses e image.now.budget depths) }
    {
        let machine = Machine::open(alloc, image, depths)?;
        match Clockwork::start(alloc, image, depths, machine, costs) {
            Ok(work) => Ok(Timed { work }),
            Err(_) => Err(OpenError::Memory),
        }
    }

    /// One tick.
    pub fn tick(&mut self) -> Tick
        requires { self.old.clock.ticks < 100000000000 }
        ensures setup { self.new.setup ≡ self.old.setup }
        ensures costs { self.new.costs ≡ self.old.costs }
        ensures ticks { TicksTo result.state result self.old self.new }
    {
        match self.work.rest() {
            Some(Rest::Final(end)) => return Tick::without_picks(TickState::Final(end)),
            Some(Rest::Stuck) => return Tick::without_picks(TickState::Stuck),
            None => (),
        }
        let drain = self.work.drain();
        let fill_a = self.work.fill(Side::A);
        let fill_e = self.work.fill(Side::E);
        let (e, piece) = self.work.go_e();
        let a = self.work.go_a();
        self.work.end_tick();
        Tick {
            drain,
            fill_a,
            fill_e,
            e,
            a,
            piece,
            state: TickState::Going,
        }
    }

    /// How many ticks there were.
    pub fn ticks(&self) -> u64
        ensures { result ≡ self.now.clock.ticks }
    {
        self.work.ticks()
    }

    /// In how many ticks a processor waited for a queue.
    pub fn waits(&self, side: Side, queue: Queue) -> u64
        ensures { result ≡ waits_for queue (waits_of side self.now.clock) }
    {
        self.work.waits(side, queue)
    }

    /// The machine.
    pub fn machine(&self) -> &Machine
        ensures setup { result.now.setup ≡ self.now.setup }
        ensures state { result.now.state ≡ self.now.clock.state }
    {
        self.work.machine()
    }
}
