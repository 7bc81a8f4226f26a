// Which queue an instruction uses on a side, and which addresses and calls are good.

ghost use Rattle.std.specs.Prelude.{◌≡◌, true, IfSome};
ghost use Rattle.dae_base.specs.Words.{size};
ghost use Rattle.dae_encode.specs.Instructions.{form};
ghost use Rattle.dae_encode.specs.Uses.{LoadTarget, Source, Stored, Target, belongs, field_use, use_of_both, queue_use};
ghost use Rattle.dae_encode.specs.Processor.{is_shared, is_within, bad_call};

use crate::{Fault, Inst, InstructionForm, QueueUse, form_of};
use dae_base::{LoadKind, Queue, Side, Width};

#[tactic(auto, using(crate::proofs::Legal::source_is))]
fn source_use(copies: bool, side: Side, register: u8) -> Option<QueueUse>
    ensures { result ≡ field_use copies side (Source register) }
{
    if register < 28 {
        return Some(QueueUse::Nothing);
    }
    match (side, register) {
        (Side::A, 29) => Some(QueueUse::Take(Queue::Eb)),
        (Side::A, 31) => Some(QueueUse::Take(Queue::Al)),
        (Side::E, 28) if copies => Some(QueueUse::Take(Queue::Cq)),
        (Side::E, 29) => Some(QueueUse::Take(Queue::Ab)),
        (Side::E, 30) => Some(QueueUse::Take(Queue::Ld)),
        _ => None,
    }
}

#[tactic(auto, using(crate::proofs::Legal::target_is))]
fn target_use(copies: bool, side: Side, register: u8) -> Option<QueueUse>
    ensures { result ≡ field_use copies side (Target register) }
{
    if register < 28 {
        return Some(QueueUse::Nothing);
    }
    match (side, register) {
        (Side::A, 28) if copies => Some(QueueUse::Push(Queue::Cq)),
        (Side::A, 29) => Some(QueueUse::Push(Queue::Ab)),
        (Side::E, 29) => Some(QueueUse::Push(Queue::Eb)),
        (Side::E, 30) => Some(QueueUse::Push(Queue::Sd)),
        _ => None,
    }
}

#[tactic(auto, using(crate::proofs::Legal::loaded_is))]
fn loaded_use(copies: bool, side: Side, kind: LoadKind, register: u8) -> Option<QueueUse>
    ensures { result ≡ field_use copies side (LoadTarget kind register) }
{
    match (side, register) {
        (Side::A, 30) => Some(QueueUse::Load(Queue::Ld, kind)),
        (Side::A, 31) => Some(QueueUse::Load(Queue::Al, kind)),
        _ => target_use(copies, side, register),
    }
}

#[tactic(auto, using(crate::proofs::Legal::stored_is))]
fn stored_use(copies: bool, side: Side, width: Width, register: u8) -> Option<QueueUse>
    ensures { result ≡ field_use copies side (Stored width register) }
{
    match (side, register) {
        (Side::A, 30) => Some(QueueUse::StoreAddress(width)),
        _ => source_use(copies, side, register),
    }
}

fn join(x: Option<QueueUse>, y: Option<QueueUse>) -> Option<QueueUse>
    ensures { result ≡ use_of_both x y }
{
    match (x, y) {
        (Some(QueueUse::Nothing), y) => y,
        (x, Some(QueueUse::Nothing)) => x,
        _ => None,
    }
}

/// The one queue access of an instruction on this side, or None where it is illegal there: where two of its fields make
/// an access, or a field has a register that may not stand there. Where copies are not allowed, x28 may stand nowhere.
/// The access is one of this side's.
#[tactic(auto, using(crate::proofs::Legal::own_use))]
pub fn queue_use(side: Side, inst: &Inst, copies: bool) -> Option<QueueUse>
    ensures told { result ≡ queue_use copies side (form inst.now) }
    ensures own { IfSome result (λ access. belongs side access ≡ true) }
{
    use_of(side, form_of(inst), copies)
}

#[tactic(auto, using(crate::proofs::Legal::use_computes, crate::proofs::Legal::use_loads, crate::proofs::Legal::use_stores, crate::proofs::Legal::use_calls))]
fn use_of(side: Side, form: InstructionForm, copies: bool) -> Option<QueueUse>
    ensures { result ≡ queue_use copies side form }
{
    match form {
        InstructionForm::Computes(rd, first, second) => join(
            target_use(copies, side, rd),
            join(
                source_use(copies, side, first),
                source_use(copies, side, second),
            ),
        ),
        InstructionForm::Loads(kind, rd, base, _) => join(
            loaded_use(copies, side, kind, rd),
            source_use(copies, side, base),
        ),
        InstructionForm::Stores(width, base, source, _) => join(
            source_use(copies, side, base),
            stored_use(copies, side, width, source),
        ),
        InstructionForm::Calls => Some(QueueUse::Nothing),
    }
}

/// Whether an access goes to common memory.
pub fn is_shared(queue_use: QueueUse) -> bool
    ensures { result ≡ is_shared queue_use }
{
    matches!(queue_use, QueueUse::Load(_, _) | QueueUse::StoreAddress(_))
}

/// Whether an address is a multiple of its width, with its bytes from low to just below high.
pub fn is_within(low: u32, high: u32, width: Width, addr: u32) -> bool
    ensures { result ≡ is_within low high width addr }
{
    let size = u32::from(width.bytes());
    addr % size == 0 && low <= addr && size <= high && addr <= high - size
}

/// The fault of an environment call whose selector, register 17, is this word: on E one above 5.
pub fn bad_call(side: Side, selector: u32) -> Option<Fault>
    ensures { result ≡ bad_call side selector }
{
    match side {
        Side::E if selector > 5 => Some(Fault::Call),
        _ => None,
    }
}
