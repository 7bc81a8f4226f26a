// What of a machine can be looked at from outside.

ghost use Rattle.std.specs.Prelude.{◌≡◌, ◌<◌, slice_get};
ghost use Rattle.dae_encode.specs.Processor.{held};
ghost use Rattle.dae_core.specs.Queues.{count, loads_of};
ghost use Rattle.dae_queues.specs.Lists.{first_unfilled};
ghost use Rattle.dae_machine.specs.Answers.{answer, processor};
ghost use Rattle.dae_machine.specs.Entries.{entries, slot_entry, store_entry, word_entry};

use super::Machine;
use crate::Entry;
use dae_base::{Queue, Side, Width};
use dae_core::{Core, CoreAnswer};
use dae_queues::{Slot, StoreAt};

impl Machine {
    fn core(&self, side: Side) -> &Core
        ensures { result.now.processor ≡ processor side self.now.state }
    {
        match side {
            Side::A => &self.a,
            Side::E => &self.e,
        }
    }

    /// What a register of a processor holds. Register 0 is 0.
    pub fn register(&self, side: Side, number: u8) -> u32
        requires { number < 32 }
        ensures { result ≡ held (processor side self.now.state) number }
    {
        self.core(side).register(number)
    }

    /// The byte address of a processor's next instruction.
    pub fn counter(&self, side: Side) -> u32
        ensures { result ≡ (processor side self.now.state).counter }
    {
        self.core(side).counter()
    }

    /// What keeps a processor from a step, or `Did` with an empty piece where it has one.
    pub fn answer(&self, side: Side) -> CoreAnswer
        ensures { result ≡ answer self.now.setup self.now.state side }
    {
        match side {
            Side::A => self.look_a(),
            Side::E => self.look_e(),
        }
    }

    fn look_a(&self) -> CoreAnswer
        ensures { result ≡ answer self.now.setup self.now.state Side.A }
    {
        let memory = self.memory.len() as u32;
        self.a.look(memory, &self.queues)
    }

    fn look_e(&self) -> CoreAnswer
        ensures { result ≡ answer self.now.setup self.now.state Side.E }
    {
        let memory = self.memory.len() as u32;
        self.e.look(memory, &self.queues)
    }

    /// How many items a queue holds.
    pub fn len(&self, queue: Queue) -> u16
        ensures { result ≡ count queue self.now.state.queues }
    {
        self.queues.len(queue)
    }

    /// The place of the first slot of a side's load queue that waits for its value, counted from the front, or their
    /// number where none waits: no fill of a slot before it is enabled.
    pub fn first_unfilled(&self, side: Side) -> u16
        ensures { result ≡ first_unfilled (loads_of side self.now.state.queues).slots }
    {
        self.queues.first_unfilled(side)
    }

    /// The item at a place from the front of a queue, counted from 0, or None past the last.
    pub fn entry(&self, queue: Queue, at: u16) -> Option<Entry>
        ensures { result ≡ slice_get (entries queue self.now.state.queues) at }
    {
        match queue {
            Queue::Ld => self.queues.slot_at(Side::E, at).map(entry_of_slot),
            Queue::Al => self.queues.slot_at(Side::A, at).map(entry_of_slot),
            Queue::Sa => self.queues.address_at(at).map(entry_of_store),
            Queue::Sd | Queue::Ab | Queue::Eb | Queue::Cq => {
                self.queues.word_at(queue, at).map(entry_of_word)
            }
        }
    }
}

fn entry_of_slot(slot: Slot) -> Entry
    ensures { result ≡ slot_entry slot }
{
    Entry {
        number: slot.number,
        addr: slot.addr,
        width: slot.kind.width(),
        value: slot.value,
    }
}

fn entry_of_store(at: StoreAt) -> Entry
    ensures { result ≡ store_entry at }
{
    Entry {
        number: at.number,
        addr: at.addr,
        width: at.width,
        value: None,
    }
}

fn entry_of_word(word: u32) -> Entry
    ensures { result ≡ word_entry word }
{
    Entry {
        number: 0,
        addr: 0,
        width: Width::B4,
        value: Some(word),
    }
}
