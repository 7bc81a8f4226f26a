// The machine: opened from an image and depths, and moved by one pick at a time.

ghost use Rattle.std.specs.Prelude.{◌≡◌, ◌<◌, [], true, false, Some, IsSome, is_some, IfOk, IfErr, IfSome, None};
ghost use Rattle.dae_base.specs.Budgets.{Reaches};
ghost use Rattle.dae_core.specs.Held.{CanHold};
ghost use Rattle.dae_machine.specs.Answers.{Refuses, is_done};
ghost use Rattle.dae_machine.specs.Held.{DataFit};
ghost use Rattle.dae_machine.specs.Machine.{step};
ghost use Rattle.dae_machine.specs.Memory.{filling};
ghost use Rattle.dae_machine.specs.Opened.{opened, setup_of};
ghost use Rattle.dae_machine.specs.Tries.{Stepped};

use crate::open::{common_memory, core_a, core_e, reaches};
use crate::{OpenError, Pick};
use dae_base::{Depths, Piece, Side};
use dae_core::{Core, CoreAnswer, Queues, store};
use dae_image::Image;
use std::alloc::{AllocError, Global};
use std::marker::Model;

mod shown;
mod turns;

/// A machine. Clauses see its state without printed bytes, and what no step changes.
#[derive(Drop)]
pub struct Machine {
    a: Core,
    e: Core,
    queues: Queues,
    memory: Vec<u8>,
    taken: u64,
}

impl Model for Machine {
    ghost use Rattle.dae_machine.specs.Held.{HeldMachine, IsSound, seen};

    ghost Value = { HeldMachine };

    ghost view = { λ m. seen m.a m.e m.queues m.memory.items m.taken };

    ghost invariant = { λ m. IsSound m.a m.e m.queues m.memory.items m.taken };
}

impl Machine {
    /// A machine before its first step, with the image's code and data and with queues of these depths, each at least 1.
    /// A depth below the image's budget is refused, the first such queue by name, before any memory is taken.
    #[tactic(auto, using(crate::proofs::Opening::data_fit))]
    pub fn open(alloc: Global, image: &Image, depths: Depths) -> Result<Machine, OpenError>
        requires { CanHold depths }
        ensures setup { IfOk result (λ machine. machine.setup ≡ setup_of image.now depths) }
        ensures state { IfOk result (λ machine. machine.state ≡ opened image.now) }
        ensures reaches { IfOk result (λ machine. Reaches depths image.now.budget) }
        ensures err { IfErr result (λ e. Refuses e image.now.budget depths) }
    {
        reaches(&depths, &image.budget)?;
        Machine::make(alloc, image, depths).map_err(|_| OpenError::Memory)
    }

    #[tactic(auto, using(crate::proofs::Opening::none_counted))]
    fn make(alloc: Global, image: &Image, depths: Depths) -> Result<Machine, AllocError>
        requires depths { CanHold depths }
        requires fit { DataFit image.now }
        ensures setup { IfOk result (λ machine. machine.setup ≡ setup_of image.now depths) }
        ensures state { IfOk result (λ machine. machine.state ≡ opened image.now) }
    {
        let copies = image.budget.cq != 0;
        Ok(Machine {
            a: core_a(alloc, image, copies)?,
            e: core_e(alloc, image, copies)?,
            queues: Queues::with_depths(alloc, depths)?,
            memory: common_memory(alloc, image)?,
            taken: 0,
        })
    }

    /// The number of steps that were taken.
    pub fn taken(&self) -> u64
        ensures { result ≡ self.now.state.steps }
    {
        self.taken
    }

    /// The common memory.
    pub fn memory(&self) -> &[u8]
        ensures { result.now ≡ self.now.state.memory }
    {
        self.memory.as_slice()
    }

    /// Whether this pick has a step now.
    #[tactic(auto, using(crate::proofs::Moves::a_goes, crate::proofs::Moves::e_goes))]
    pub fn enabled(&self, pick: Pick) -> bool
        ensures { result ≡ is_some (step self.now.setup self.now.state pick) }
    {
        match pick {
            Pick::A => is_done(&self.answer(Side::A)),
            Pick::E => is_done(&self.answer(Side::E)),
            Pick::Fill(side, number) => self.filling(side, number).is_some(),
            Pick::Drain => self.queues.draining().is_some(),
        }
    }

    /// The step of an enabled pick, and what it prints.
    #[inline(always)]
    pub fn step(&mut self, pick: Pick) -> Piece
        requires enabled { IsSome (step self.old.setup self.old.state pick) }
        requires few { self.old.state.steps < 1000000000000 }
        ensures setup { self.new.setup ≡ self.old.setup }
        ensures state { step self.old.setup self.old.state pick
            ≡ Some (record self.new.state { printed = result }) }
    {
        match pick {
            Pick::A => {
                let _ = self.try_a();
                Piece::empty()
            }
            Pick::E => match self.try_e() {
                Some(piece) => piece,
                None => unreachable!(),
            },
            Pick::Fill(side, number) => {
                self.fill(side, number);
                Piece::empty()
            }
            Pick::Drain => {
                let _ = self.try_drain();
                Piece::empty()
            }
        }
    }

    /// The word that a fill of the slot of this number for a side would put, or None where that fill isn't enabled.
    pub fn filling(&self, side: Side, number: u64) -> Option<u32>
        ensures { result ≡ filling side number self.now.state.queues self.now.state.memory }
    {
        self.queues.filling(side, number, self.memory.as_slice())
    }

    /// One instruction of A, where it has a step now, or false, and then nothing changes.
    #[inline(never)]
    fn try_a(&mut self) -> bool
        requires few { self.old.state.steps < 1000000000000 }
        ensures done { result ≡ true → Stepped Pick.A [] self.old self.new }
        ensures none { result ≡ false
            → (step self.old.setup self.old.state Pick.A ≡ None) × (self.new ≡ self.old) }
    {
        let memory = self.memory.len() as u32;
        let piece = self.a.try_step(memory, &mut self.queues);
        let done = piece.is_some();
        if done {
            self.taken += 1;
        }
        done
    }

    /// One instruction of E and what it prints, where it has a step now, or None, and then nothing changes.
    #[inline(never)]
    fn try_e(&mut self) -> Option<Piece>
        requires few { self.old.state.steps < 1000000000000 }
        ensures done { IfSome result (λ piece. Stepped Pick.E piece self.old self.new) }
        ensures none { result ≡ None
            → (step self.old.setup self.old.state Pick.E ≡ None) × (self.new ≡ self.old) }
    {
        let memory = self.memory.len() as u32;
        match self.e.try_step(memory, &mut self.queues) {
            Some(piece) => {
                self.taken += 1;
                Some(piece)
            }
            None => None,
        }
    }

    #[tactic(auto, using(crate::proofs::Steps::fill_enabled))]
    #[inline(always)]
    fn fill(&mut self, side: Side, number: u64)
        requires enabled { IsSome (step self.old.setup self.old.state (Pick.Fill side number)) }
        requires few { self.old.state.steps < 1000000000000 }
        ensures setup { self.new.setup ≡ self.old.setup }
        ensures state { step self.old.setup self.old.state (Pick.Fill side number)
            ≡ Some (record self.new.state { printed = [] }) }
    {
        if let Some(word) = self.queues.fill_word(side, number, self.memory.as_slice()) {
            self.queues.fill(side, number, word);
            self.taken += 1;
        }
    }

    /// The drain of the next store, where that is enabled, or false, and then nothing changes.
    #[inline(never)]
    fn try_drain(&mut self) -> bool
        requires few { self.old.state.steps < 1000000000000 }
        ensures done { result ≡ true → Stepped Pick.Drain [] self.old self.new }
        ensures none { result ≡ false
            → (step self.old.setup self.old.state Pick.Drain ≡ None) × (self.new ≡ self.old) }
    {
        let Some((at, word)) = self.queues.draining() else {
            return false;
        };
        self.queues.drain();
        store(&mut self.memory, at.width, at.addr, word);
        self.taken += 1;
        true
    }
}

fn is_done(answer: &CoreAnswer) -> bool
    ensures { result ≡ is_done answer.now }
{
    matches!(answer, CoreAnswer::Did(_))
}
