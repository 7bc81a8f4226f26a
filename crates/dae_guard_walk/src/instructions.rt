// What an instruction of a side comes to, where it is sure: legal, its queue ready, its address good, its target and its
// call single, whatever the words of the ranges are.
ghost use Rattle.std.specs.Prelude.{◌≡◌, true, IfSome, option_map, nat_eq, not, ◌==◌, if◌then◌else◌, slice_get, ◌%◌, ◌/◌, None, option_and_then};
ghost use Rattle.dae_base.specs.Budgets.{depth};
ghost use Rattle.dae_base.specs.Words.{size};
ghost use Rattle.dae_encode.specs.Spelling.{decode};
ghost use Rattle.dae_encode.specs.Processor.{is_shared, is_within};
ghost use Rattle.dae_machine.specs.Machine.{code};
ghost use Rattle.dae_ranges.specs.Ranges.{each};
ghost use Rattle.dae_guard.specs.Moves.{moved, private};
ghost use Rattle.dae_guard.specs.Walk.{terms_of};
ghost use Rattle.dae_guard.specs.Kept.{AreProper, HasRoom, IsProper, QueuesHold, waiting_of};
ghost use Rattle.dae_guard.specs.Waiting.{given};
ghost use Rattle.dae_guard_walk.specs.Spots.{side_of};
ghost use Rattle.dae_guard_walk.specs.Steps.{AreFine, listed, called_of};
ghost use Rattle.dae_guard_walk.specs.Picks.{ComesOf, afters};

use crate::sides::{ComputeFields, Outcomes, SideOutcome, SideSpot, compute, one};
use dae_base::{Depths, Side, Width};
use dae_encode::{Inst, InstructionForm, QueueUse, decode, form_of, is_shared, queue_use};
use dae_guard::RangeQueues;
use dae_image::Image;
use dae_ranges::{Range, all_fit};

/// What no step changes.
#[derive(Clone, Copy)]
pub struct Terms<'a> {
    pub image: &'a Image,
    pub depths: Depths,
}

/// A sure instruction of a side: its access, and what comes of it.
#[derive(Clone, Copy)]
pub struct Sure {
    pub side: Side,
    pub access: QueueUse,
    pub outcomes: Outcomes,
}

/// An instruction of a side: where it stands, its access, and what the access gives.
#[derive(Clone, Copy)]
pub struct AccessStep {
    pub side: Side,
    pub counter: u32,
    pub access: QueueUse,
    pub given: Range,
}

impl Terms<'_> {
    /// The next instruction of a side, where it is sure.
    pub fn next_sure(&self, queues: &RangeQueues, from: &SideSpot, side: Side) -> Option<Sure>
        requires queues { QueuesHold queues.now }
        requires ranges { AreProper from.now.ranges }
        ensures is { option_map (afters (waiting_of queues.now)) result
            ≡ moved (terms_of self.now.image.now self.now.depths) side (side_of from.now)
            (waiting_of queues.now) }
        ensures side { IfSome result (λ s. s.side ≡ side) }
        ensures room { IfSome result (λ s. HasRoom s.access queues.now) }
        ensures fine { IfSome result (λ s. AreFine s.outcomes) }
    {
        let counter = from.counter?;
        let inst = self.fetch(side, counter)?;
        let access = queue_use(side, &inst, self.image.budget.cq != 0)?;
        if !queues.allows(&self.depths, access) {
            return None;
        }
        let step = AccessStep {
            side,
            counter,
            access,
            given: given_by(queues, access),
        };
        let outcomes = self.outcomes_by_form(step, from, &inst)?;
        Some(Sure {
            side,
            access,
            outcomes,
        })
    }

    /// The instruction at a counter, where it is one and lies in the code.
    fn fetch(&self, side: Side, counter: u32) -> Option<Inst>
        ensures { result ≡ option_and_then decode (if counter % 4 == 0
            then slice_get (code (terms_of self.now.image.now self.now.depths).setup side)
            (counter / 4) else None) }
    {
        if counter % 4 != 0 {
            return None;
        }
        let code = match side {
            Side::A => self.image.code_a.as_slice(),
            Side::E => self.image.code_e.as_slice(),
        };
        decode(*code.get((counter / 4) as usize)?)
    }

    /// The size of the private memory of a side.
    fn private(&self, side: Side) -> u32
        ensures { result ≡ private (terms_of self.now.image.now self.now.depths) side }
    {
        match side {
            Side::A => self.image.private_a,
            Side::E => self.image.private_e,
        }
    }

    /// What comes of an instruction whose access is allowed.
    fn outcomes_by_form(&self, step: AccessStep, from: &SideSpot, inst: &Inst) -> Option<Outcomes>
        requires ranges { AreProper from.now.ranges }
        requires given { IsProper step.given }
        ensures is { ComesOf (terms_of self.now.image.now self.now.depths) step from.now.ranges
            inst.now result }
        ensures fine { IfSome result AreFine }
    {
        match form_of(inst) {
            InstructionForm::Computes(target, first, second) => {
                let fields = ComputeFields {
                    target,
                    first,
                    second,
                };
                compute(from, step.counter, step.given, inst, fields)
            }
            InstructionForm::Loads(kind, target, base, offset) => {
                let addr = from.source(step.given, base).shift(offset)?;
                self.is_good(step, kind.width(), addr).then_some(())?;
                let after = step.counter.wrapping_add(4);
                Some(one(if is_shared(step.access) {
                    from.go_on(after, 0, addr)
                } else {
                    from.go_on(after, target, Range::of_load(kind))
                }))
            }
            InstructionForm::Stores(width, base, _, offset) => {
                let addr = from.source(step.given, base).shift(offset)?;
                self.is_good(step, width, addr).then_some(())?;
                Some(one(from.go_on(step.counter.wrapping_add(4), 0, addr)))
            }
            InstructionForm::Calls => call(step, from),
        }
    }

    /// Whether each address is good, in common memory or in that of the side.
    fn is_good(&self, step: AccessStep, width: Width, addr: Range) -> bool
        ensures { result ≡ (if is_shared step.access
            then each (is_within 16 self.now.image.now.memory width) addr
            else each (is_within 0
            (private (terms_of self.now.image.now self.now.depths) step.side) width) addr) }
    {
        if is_shared(step.access) {
            all_fit(16, self.image.memory, width, addr)
        } else {
            all_fit(0, self.private(step.side), width, addr)
        }
    }
}

/// What an access that is allowed gives.
fn given_by(queues: &RangeQueues, access: QueueUse) -> Range
    requires { QueuesHold queues.now }
    ensures is { result ≡ given access (waiting_of queues.now) }
    ensures proper { IsProper result }
{
    match access {
        QueueUse::Take(queue) => queues.front(queue).unwrap_or(Range::single(0)),
        _ => Range::single(0),
    }
}

/// The environment call: A halts; E needs a single register 17, halts at 0 and 5, and goes on at 1 to 4.
fn call(step: AccessStep, from: &SideSpot) -> Option<Outcomes>
    requires { AreProper from.now.ranges }
    ensures is { option_map listed result ≡ called_of step.side step.counter from.now.ranges }
    ensures fine { IfSome result AreFine }
{
    let what = from.ranges[17];
    let counter = match step.side {
        Side::A => None,
        Side::E => {
            if !what.is_single() || what.lo > 5 {
                return None;
            }
            if what.lo == 0 || what.lo == 5 {
                None
            } else {
                Some(step.counter.wrapping_add(4))
            }
        }
    };
    Some(one(SideOutcome {
        side: SideSpot {
            counter,
            ranges: from.ranges,
        },
        pushed: Range::single(0),
    }))
}
