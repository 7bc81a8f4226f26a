//! Where two changes of the queues are both possible, each stays possible after the other, with the same words, and
//! both orders give one state. Each function here states this of two kinds of change, and does nothing.
ghost use Rattle.std.specs.Prelude.{◌≡◌, ◌≢◌, ℕ, true, List, [], ◌∷◌, ◌++◌, length, nat_lt, is_some, Some};
ghost use Rattle.dae_base.specs.declared.Width.{Width};
ghost use Rattle.dae_base.specs.declared.LoadKind.{LoadKind};
ghost use Rattle.dae_base.specs.Words.{stored};
ghost use Rattle.dae_queues.specs.declared.Slot.{Slot};
ghost use Rattle.dae_queues.specs.declared.StoreAt.{StoreAt};
ghost use Rattle.dae_queues.specs.Lists.{Slots, Stores, first, first_value, rest, without_front, with_slot, with_address, with_datum, with_value, filling_of, draining_of, without_store};
ghost use Rattle.dae_queues.specs.Numbers.{SlotsCount, StoresCount};

use crate::Fifo;

/// A push at the back of a queue of words, and a take at its front.
pub fn push_and_take()
    ensures word { (w : ℕ) (ws : List ℕ) → is_some (first ws) ≡ true
        → first (ws ++ w ∷ []) ≡ first ws }
    ensures room { (depth : ℕ) (ws : List ℕ) → nat_lt (length ws) depth ≡ true
        → nat_lt (length (rest ws)) depth ≡ true }
    ensures one_state { (w : ℕ) (ws : List ℕ) → is_some (first ws) ≡ true
        → rest (ws ++ w ∷ []) ≡ rest ws ++ w ∷ [] }
{}

/// A push at the back of any queue of items, and a take at its front.
pub fn item_push_and_take<T: Copy, F: Fifo<T>>()
    ensures item { (x : T) (q : F) → is_some (first (F.held q)) ≡ true
        → first (F.held (F.pushed x q)) ≡ first (F.held q) }
    ensures room { (q : F) → nat_lt (length (F.held q)) (F.depth q) ≡ true
        → nat_lt (length (F.held (F.taken q))) (F.depth (F.taken q)) ≡ true }
    ensures one_state { (x : T) (q : F) → nat_lt (length (F.held q)) (F.depth q) ≡ true
        → is_some (first (F.held q)) ≡ true → F.taken (F.pushed x q) ≡ F.pushed x (F.taken q) }
{}

/// A reservation at the back of a load queue, and a take at its front.
pub fn reservation_and_take()
    ensures word { (kind : LoadKind) (addr stamp : ℕ) (s : Slots)
        → is_some (first_value s.slots) ≡ true
        → first_value (with_slot kind addr stamp s).slots ≡ first_value s.slots }
    ensures room { (depth : ℕ) (s : Slots) → nat_lt (length s.slots) depth ≡ true
        → nat_lt (length (without_front s).slots) depth ≡ true }
    ensures one_state { (kind : LoadKind) (addr stamp : ℕ) (s : Slots)
        → is_some (first_value s.slots) ≡ true
        → without_front (with_slot kind addr stamp s)
        ≡ with_slot kind addr stamp (without_front s) }
{}

/// A fill, and a take at the front of the same queue.
pub fn fill_and_take()
    ensures word { (n w : ℕ) (ss : List Slot) → is_some (first_value ss) ≡ true
        → first_value (with_value n w ss) ≡ first_value ss }
    ensures filling { (sa : List StoreAt) (n w : ℕ) (s : Slots) (memory : List ℕ)
        → is_some (first_value s.slots) ≡ true → filling_of sa n s.slots memory ≡ Some w
        → filling_of sa n (without_front s).slots memory ≡ Some w }
    ensures one_state { (n w : ℕ) (ss : List Slot)
        → with_value n w (rest ss) ≡ rest (with_value n w ss) }
{}

/// A fill, and a reservation at the back of the same queue.
pub fn fill_and_reservation()
    ensures room { (n w : ℕ) (ss : List Slot) → length (with_value n w ss) ≡ length ss }
    ensures filling { (sa : List StoreAt) (n w addr stamp : ℕ) (kind : LoadKind) (s : Slots)
        (memory : List ℕ) → filling_of sa n s.slots memory ≡ Some w
        → filling_of sa n (with_slot kind addr stamp s).slots memory ≡ Some w }
    ensures one_state { (sa : List StoreAt) (n w v addr stamp issued : ℕ) (kind : LoadKind)
        (s : Slots) (memory : List ℕ) → SlotsCount issued s
        → filling_of sa n s.slots memory ≡ Some w
        → with_value n v (with_slot kind addr stamp s).slots
        ≡ (with_slot kind addr stamp (record s { slots = with_value n v s.slots })).slots }
{}

/// A fill, and a push of a store address: a new address bars no slot that was reserved before it.
pub fn fill_and_address()
    ensures filling { (n w addr : ℕ) (width : Width) (stores : Stores) (s : Slots) (memory : List ℕ)
        → SlotsCount stores.issued s → filling_of stores.sa n s.slots memory ≡ Some w
        → filling_of (with_address width addr stores).sa n s.slots memory ≡ Some w }
{}

/// Two fills of one queue.
pub fn two_fills()
    ensures filling { (sa : List StoreAt) (n k v w : ℕ) (ss : List Slot) (memory : List ℕ) → n ≢ k
        → filling_of sa n ss memory ≡ Some w → filling_of sa n (with_value k v ss) memory ≡ Some w }
    ensures one_state { (n k v w : ℕ) (ss : List Slot) → n ≢ k
        → with_value n v (with_value k w ss) ≡ with_value k w (with_value n v ss) }
{}

/// A fill and a drain: they share no byte, so the fill finds the same word in memory before and after the drain.
pub fn fill_and_drain()
    ensures filling_ld { (stores : Stores) (n w : ℕ) (ld al : List Slot) (memory : List ℕ)
        (d : StoreAt × ℕ) → filling_of stores.sa n ld memory ≡ Some w
        → draining_of stores ld al ≡ Some d
        → filling_of (without_store stores).sa n ld (stored d.0.width d.0.addr d.1 memory)
        ≡ Some w }
    ensures filling_al { (stores : Stores) (n w : ℕ) (ld al : List Slot) (memory : List ℕ)
        (d : StoreAt × ℕ) → filling_of stores.sa n al memory ≡ Some w
        → draining_of stores ld al ≡ Some d
        → filling_of (without_store stores).sa n al (stored d.0.width d.0.addr d.1 memory)
        ≡ Some w }
    ensures draining_ld { (stores : Stores) (n w : ℕ) (ld al : List Slot) (d : StoreAt × ℕ)
        → draining_of stores ld al ≡ Some d → draining_of stores (with_value n w ld) al ≡ Some d }
    ensures draining_al { (stores : Stores) (n w : ℕ) (ld al : List Slot) (d : StoreAt × ℕ)
        → draining_of stores ld al ≡ Some d → draining_of stores ld (with_value n w al) ≡ Some d }
{}

/// A drain, and a take at the front of either load queue.
pub fn drain_and_take()
    ensures draining_ld { (stores : Stores) (ld al : List Slot) (d : StoreAt × ℕ)
        → draining_of stores ld al ≡ Some d → draining_of stores (rest ld) al ≡ Some d }
    ensures draining_al { (stores : Stores) (ld al : List Slot) (d : StoreAt × ℕ)
        → draining_of stores ld al ≡ Some d → draining_of stores ld (rest al) ≡ Some d }
{}

/// A drain, and a reservation at the back of either load queue: a new slot holds no store that was pushed before it.
pub fn drain_and_reservation()
    ensures draining_ld { (stores : Stores) (addr : ℕ) (kind : LoadKind) (ld : Slots)
        (al : List Slot) (d : StoreAt × ℕ) → StoresCount stores
        → draining_of stores ld.slots al ≡ Some d
        → draining_of stores (with_slot kind addr stores.issued ld).slots al ≡ Some d }
    ensures draining_al { (stores : Stores) (addr : ℕ) (kind : LoadKind) (ld : List Slot)
        (al : Slots) (d : StoreAt × ℕ) → StoresCount stores
        → draining_of stores ld al.slots ≡ Some d
        → draining_of stores ld (with_slot kind addr stores.issued al).slots ≡ Some d }
{}

/// A drain, and a push of a store address.
pub fn drain_and_address()
    ensures room { (depth : ℕ) (stores : Stores) → nat_lt (length stores.sa) depth ≡ true
        → nat_lt (length (without_store stores).sa) depth ≡ true }
    ensures draining { (stores : Stores) (addr : ℕ) (width : Width) (ld al : List Slot)
        (d : StoreAt × ℕ) → draining_of stores ld al ≡ Some d
        → draining_of (with_address width addr stores) ld al ≡ Some d }
    ensures one_state { (stores : Stores) (addr : ℕ) (width : Width) (ld al : List Slot)
        (d : StoreAt × ℕ) → draining_of stores ld al ≡ Some d
        → without_store (with_address width addr stores)
        ≡ with_address width addr (without_store stores) }
{}

/// A drain, and a push of a datum.
pub fn drain_and_datum()
    ensures room { (depth : ℕ) (stores : Stores) → nat_lt (length stores.sd) depth ≡ true
        → nat_lt (length (without_store stores).sd) depth ≡ true }
    ensures draining { (stores : Stores) (w : ℕ) (ld al : List Slot) (d : StoreAt × ℕ)
        → draining_of stores ld al ≡ Some d → draining_of (with_datum w stores) ld al ≡ Some d }
    ensures one_state { (stores : Stores) (w : ℕ) (ld al : List Slot) (d : StoreAt × ℕ)
        → draining_of stores ld al ≡ Some d
        → without_store (with_datum w stores) ≡ with_datum w (without_store stores) }
{}

/// Each change keeps the numbers of the slots and of the stores in order, and no stamp above the number of store
/// addresses that were pushed.
pub fn numbers_stay()
    ensures reservation { (addr issued : ℕ) (kind : LoadKind) (s : Slots) → SlotsCount issued s
        → SlotsCount issued (with_slot kind addr issued s) }
    ensures take { (issued : ℕ) (s : Slots) → is_some (first_value s.slots) ≡ true
        → SlotsCount issued s → SlotsCount issued (without_front s) }
    ensures fill { (issued n w : ℕ) (s : Slots) → SlotsCount issued s
        → SlotsCount issued (record s { slots = with_value n w s.slots }) }
    ensures address_slots { (addr : ℕ) (width : Width) (stores : Stores) (s : Slots)
        → SlotsCount stores.issued s → SlotsCount (with_address width addr stores).issued s }
    ensures address_stores { (addr : ℕ) (width : Width) (stores : Stores) → StoresCount stores
        → StoresCount (with_address width addr stores) }
    ensures drain { (stores : Stores) (ld al : List Slot) (d : StoreAt × ℕ)
        → draining_of stores ld al ≡ Some d → StoresCount stores
        → StoresCount (without_store stores) }
{}
