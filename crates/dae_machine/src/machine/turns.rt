// Turns of a schedule: which pick is next, and what a turn does.

ghost use Rattle.std.specs.Prelude.{◌≡◌, ◌<◌, ◌%◌, ◌++◌, Some, None, is_some, if◌then◌else◌, length, slice_get, Option, IfSome, IsSome, IsTrue, ◌↔◌, []};
ghost use Rattle.dae_base.specs.declared.Side.TheVariants.{A, E};
ghost use Rattle.dae_machine.specs.Machine.{step, IsQuiet};
ghost use Rattle.dae_machine.specs.Rests.{Rests, TurnedTo};
ghost use Rattle.dae_machine.specs.Tries.{Tried};
ghost use Rattle.dae_machine.specs.Turns.{chosen, fills_of, kind_at, pick_of};

use super::Machine;
use crate::{End, Pick, Rest, Turn};
use dae_base::{Piece, Queue, Side};
use dae_core::Halt;

impl Machine {
    /// The pick that a word selects: of the first kind with an enabled pick in the order A, E, fill, drain from place
    /// `word % 4` on. Of the enabled fills, listed by slot number, A's before E's, it is number `word / 4` modulo their
    /// count. None where no pick is enabled.
    pub fn pick(&self, word: u32) -> Option<Pick>
        ensures pick { result ≡ pick_of self.now.setup self.now.state word }
        ensures enabled { IfSome result (λ pick. IsSome (step self.now.setup self.now.state pick)) }
    {
        let _ = &self.queues;
        self.select(word)
    }

    #[tactic(auto, using(crate::proofs::Turns::pick_by))]
    fn select(&self, word: u32) -> Option<Pick>
        ensures { result ≡ pick_of self.now.setup self.now.state word }
    {
        let (choice, place) = (word / 4, word % 4);
        if let Some(pick) = self.pick_of_kind(choice, place) {
            return Some(pick);
        }
        if let Some(pick) = self.pick_of_kind(choice, place + 1) {
            return Some(pick);
        }
        if let Some(pick) = self.pick_of_kind(choice, place + 2) {
            return Some(pick);
        }
        self.pick_of_kind(choice, place + 3)
    }

    #[tactic(auto, using(crate::proofs::Turns::chosen_alone))]
    fn pick_of_kind(&self, choice: u32, place: u32) -> Option<Pick>
        ensures { result ≡ chosen choice (kind_at self.now.setup self.now.state place) }
    {
        match place % 4 {
            0 => self.alone(Pick::A),
            1 => self.alone(Pick::E),
            2 => self.pick_of_fills(choice),
            _ => self.alone(Pick::Drain),
        }
    }

    fn alone(&self, pick: Pick) -> Option<Pick>
        ensures { result
            ≡ (if is_some (step self.now.setup self.now.state pick) then Some pick else None) }
    {
        if self.enabled(pick) { Some(pick) } else { None }
    }

    /// The enabled fill that a choice selects. The first one is found without a count of all.
    #[tactic(auto, using(crate::proofs::Turns::chosen_first))]
    #[inline(always)]
    fn pick_of_fills(&self, choice: u32) -> Option<Pick>
        ensures { result ≡ chosen choice (fills_of A self.now.state ++ fills_of E self.now.state) }
    {
        if choice == 0 {
            self.first_fill()
        } else {
            self.counted_fill(choice)
        }
    }

    #[tactic(auto, using(crate::proofs::Turns::first_left, crate::proofs::Turns::first_right))]
    #[inline(always)]
    fn first_fill(&self) -> Option<Pick>
        ensures { result ≡ slice_get (fills_of A self.now.state ++ fills_of E self.now.state) 0 }
    {
        match self.nth_fill(Side::A, 0) {
            Some(pick) => Some(pick),
            None => self.nth_fill(Side::E, 0),
        }
    }

    #[tactic(auto, using(crate::proofs::Turns::chosen_neither, crate::proofs::Turns::chosen_left, crate::proofs::Turns::chosen_right))]
    fn counted_fill(&self, choice: u32) -> Option<Pick>
        ensures { result ≡ chosen choice (fills_of A self.now.state ++ fills_of E self.now.state) }
    {
        let of_a = u32::from(self.fills(Side::A));
        let all = of_a + u32::from(self.fills(Side::E));
        if all == 0 {
            return None;
        }
        let at = choice % all;
        if at < of_a {
            self.nth_fill(Side::A, at as u16)
        } else {
            self.nth_fill(Side::E, (at - of_a) as u16)
        }
    }

    /// How many fills of a side are enabled.
    fn fills(&self, side: Side) -> u16
        ensures { result ≡ length (fills_of side self.now.state) }
    {
        self.queues.fillable(side)
    }

    /// The fill of a side at this place, counted from 0, of those that are enabled.
    #[inline(always)]
    fn nth_fill(&self, side: Side, n: u16) -> Option<Pick>
        ensures { result ≡ slice_get (fills_of side self.now.state) n }
    {
        let slot = self.queues.nth_fillable(side, n)?;
        Some(Pick::Fill(side, slot.number))
    }

    /// How the machine rests where no pick is enabled, or None where some pick is.
    pub fn rest(&self) -> Option<Rest>
        ensures { Rests result self.now.setup self.now.state }
    {
        match self.pick(0) {
            Some(_) => None,
            None => Some(self.ending()),
        }
    }

    fn ending(&self) -> Rest
        requires { IsQuiet self.now.setup self.now.state }
        ensures { Rests (Some result) self.now.setup self.now.state }
    {
        let drained = self.is_drained();
        match (self.a.halted(), self.e.halted()) {
            (Some(_), Some(Halt::Status(status))) if drained => Rest::Final(End::Ended(status)),
            (Some(_), Some(Halt::Trap(code))) if drained => Rest::Final(End::Trapped(code)),
            _ => Rest::Stuck,
        }
    }

    fn is_drained(&self) -> bool
        ensures { IsTrue result
            ↔ ((self.now.state.queues.stores.sa ≡ []) × (self.now.state.queues.stores.sd ≡ [])) }
    {
        self.queues.len(Queue::Sa) == 0 && self.queues.len(Queue::Sd) == 0
    }

    /// One turn: the step of the pick that this word selects, or no step where no pick is enabled.
    #[tactic(auto, using(crate::proofs::Turns::quiet_where_none))]
    #[inline(always)]
    pub fn turn(&mut self, word: u32) -> Turn
        requires few { self.old.state.steps < 1000000000000 }
        ensures setup { self.new.setup ≡ self.old.setup }
        ensures turn { TurnedTo result word self.old.setup self.old.state self.new.state }
    {
        if let Some((pick, piece)) = self.try_pick(word) {
            return Turn::Stepped(pick, piece);
        }
        match self.ending() {
            Rest::Final(end) => Turn::Final(end),
            Rest::Stuck => Turn::Stuck,
        }
    }

    /// The step of the pick that a word selects and what it prints, where some pick is enabled. Else nothing changes.
    #[inline(always)]
    fn try_pick(&mut self, word: u32) -> Option<(Pick, Piece)>
        requires few { self.old.state.steps < 1000000000000 }
        ensures { Tried result (pick_of self.old.setup self.old.state word) self.old self.new }
    {
        match word % 4 {
            0 => self.try_from(word, 0),
            1 => self.try_from(word, 1),
            2 => self.try_from(word, 2),
            _ => self.try_from(word, 3),
        }
    }

    /// The same from this place of the cycle on. Each call has a place of its own, so that the order of the four kinds
    /// stands in the code.
    #[inline(always)]
    fn try_from(&mut self, word: u32, place: u32) -> Option<(Pick, Piece)>
        requires few { self.old.state.steps < 1000000000000 }
        requires place { word % 4 ≡ place }
        ensures { Tried result (pick_of self.old.setup self.old.state word) self.old self.new }
    {
        let choice = word / 4;
        if let Some(done) = self.try_kind(choice, place) {
            return Some(done);
        }
        if let Some(done) = self.try_kind(choice, place + 1) {
            return Some(done);
        }
        if let Some(done) = self.try_kind(choice, place + 2) {
            return Some(done);
        }
        self.try_kind(choice, place + 3)
    }

    /// The step of the pick that is chosen of a kind, and what it prints, where one is enabled. Else nothing changes.
    #[tactic(auto, using(crate::proofs::Turns::chosen_alone))]
    #[inline(always)]
    fn try_kind(&mut self, choice: u32, place: u32) -> Option<(Pick, Piece)>
        requires few { self.old.state.steps < 1000000000000 }
        ensures { Tried result
            (chosen choice (kind_at self.old.setup self.old.state place)) self.old self.new }
    {
        match place % 4 {
            0 => self.try_alone_a(),
            1 => self.try_alone_e(),
            2 => self.try_fills(choice),
            _ => self.try_alone_drain(),
        }
    }

    #[inline(always)]
    fn try_alone_a(&mut self) -> Option<(Pick, Piece)>
        requires few { self.old.state.steps < 1000000000000 }
        ensures { Tried result
            (if is_some (step self.old.setup self.old.state Pick.A) then Some Pick.A
            else None) self.old self.new }
    {
        if self.try_a() {
            Some((Pick::A, Piece::empty()))
        } else {
            None
        }
    }

    #[inline(always)]
    fn try_alone_e(&mut self) -> Option<(Pick, Piece)>
        requires few { self.old.state.steps < 1000000000000 }
        ensures { Tried result
            (if is_some (step self.old.setup self.old.state Pick.E) then Some Pick.E
            else None) self.old self.new }
    {
        let piece = self.try_e()?;
        Some((Pick::E, piece))
    }

    /// The step of the enabled fill that a choice selects. Where no load waits no fill is looked for.
    #[inline(always)]
    fn try_fills(&mut self, choice: u32) -> Option<(Pick, Piece)>
        requires few { self.old.state.steps < 1000000000000 }
        ensures { Tried result
            (chosen choice
            (fills_of A self.old.state ++ fills_of E self.old.state)) self.old self.new }
    {
        if self.queues.has_waiting() {
            self.try_enabled_fill(choice)
        } else {
            None
        }
    }

    #[inline(never)]
    fn try_enabled_fill(&mut self, choice: u32) -> Option<(Pick, Piece)>
        requires few { self.old.state.steps < 1000000000000 }
        ensures { Tried result
            (chosen choice
            (fills_of A self.old.state ++ fills_of E self.old.state)) self.old self.new }
    {
        let pick = self.enabled_fill(choice)?;
        let piece = self.step(pick);
        Some((pick, piece))
    }

    #[inline(always)]
    fn enabled_fill(&self, choice: u32) -> Option<Pick>
        ensures pick { result
            ≡ chosen choice (fills_of A self.now.state ++ fills_of E self.now.state) }
        ensures enabled { IfSome result (λ pick. IsSome (step self.now.setup self.now.state pick)) }
    {
        let _ = &self.queues;
        self.pick_of_fills(choice)
    }

    #[inline(always)]
    fn try_alone_drain(&mut self) -> Option<(Pick, Piece)>
        requires few { self.old.state.steps < 1000000000000 }
        ensures { Tried result
            (if is_some (step self.old.setup self.old.state Pick.Drain) then Some Pick.Drain
            else None) self.old self.new }
    {
        if self.try_drain() {
            Some((Pick::Drain, Piece::empty()))
        } else {
            None
        }
    }
}
