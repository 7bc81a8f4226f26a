// What a processor sees of the queues: may it take, may it push, and what is in front.

ghost use Rattle.std.specs.Prelude.{◌≡◌, ℕ, Bool, true, is_some, IfSome, Option};
ghost use Rattle.dae_base.specs.declared.Queue.{Queue};
ghost use Rattle.dae_encode.specs.declared.QueueUse.{QueueUse};
ghost use Rattle.dae_encode.specs.declared.QueueUse.TheVariants.{Nothing, Take};
ghost use Rattle.dae_core.specs.Moves.{offered_by, waits};

use crate::CoreAnswer;
use dae_base::{Piece, Queue};
use dae_encode::QueueUse;

/// The queues as a processor sees them.
pub trait Ports {
    /// Whether this access can be made now.
    ghost is_ready: { Self → QueueUse → Bool };

    /// The word that a take would give.
    ghost front: { Self → Queue → Option ℕ };

    /// The queues after an access, with the word that goes in.
    ghost after: { Self → QueueUse → ℕ → Self };

    /// The queues can count one more item.
    ghost can_count: { Self → Type 0 };

    /// A take doesn't use the word that goes in.
    ghost take_uses_no_word: { (q : Self) (queue : Queue) (v w : ℕ) → after q (Take queue) v
        ≡ after q (Take queue) w };

    /// No access is always ready.
    ghost nothing_is_ready: { (q : Self) → is_ready q Nothing ≡ true };

    /// No access leaves the queues as they are.
    ghost nothing_changes: { (q : Self) (w : ℕ) → after q Nothing w ≡ q };

    /// The word that this access would give now, 0 where it takes none, or None exactly where it can't be made now. An
    /// instruction that makes none is never held up.
    fn offer(&self, access: QueueUse) -> Option<u32>
        ensures ready { is_some result ≡ is_ready self.now access }
        ensures word { IfSome result (λ word. word ≡ offered_by front self.now access) }
        ensures free { access ≡ Nothing → is_some result ≡ true };

    /// Makes an access that is ready. The word goes in: the address of a load or a store address, the datum of a push.
    fn commit(&mut self, access: QueueUse, word: u32)
        requires ready { is_ready self.old access ≡ true }
        requires count { can_count self.old }
        ensures { self.new ≡ after self.old access word };
}

/// The answer of an access that its queue doesn't allow now.
pub fn waits(access: QueueUse) -> CoreAnswer
    ensures { result ≡ waits access }
{
    match access {
        QueueUse::Nothing => CoreAnswer::Did(Piece::empty()),
        QueueUse::Take(queue) | QueueUse::Push(queue) | QueueUse::Load(queue, _) => {
            CoreAnswer::Waits(queue)
        }
        QueueUse::StoreAddress(_) => CoreAnswer::Waits(Queue::Sa),
    }
}
