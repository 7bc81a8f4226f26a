// The queues against lists, call by call, and what bars a fill or holds a drain.

use dae_base::{LoadKind, Width};
use dae_queues::laws::item_push_and_take;
use dae_queues::{Fifo, PlainFifo, RingFifo, Slot, SlotQueue, StoreAt, StoreQueue, overlap};
use dae_rows::{number, part, word_in};
use std::alloc::{AllocError, Global};
use std::process::Abort;

const DEPTH: usize = 5;

// A linear congruential generator: each call of a test is chosen by the high half of its next number.
fn next(seed: u32) -> u32 {
    seed.wrapping_mul(1_664_525).wrapping_add(1_013_904_223)
}

fn call_fifo<F: Fifo<u32>>(fifo: &mut F, word: u32) -> Option<u32> {
    match word % 5 {
        0 | 1 => fifo.push(word),
        2 => fifo.take(),
        3 => fifo.front(),
        _ => fifo.at((word % 8) as u16),
    }
}

fn call_list(list: &mut Vec<u32>, word: u32) -> Result<Option<u32>, AllocError> {
    match word % 5 {
        0 | 1 if list.len() >= DEPTH => return Ok(Some(word)),
        0 | 1 => list.push(word)?,
        2 if !list.is_empty() => return Ok(Some(list.remove(0))),
        3 => return Ok(list.first().copied()),
        4 => return Ok(list.get((word % 8) as usize).copied()),
        _ => {}
    }
    Ok(None)
}

/// Both queues of words, and a list that does what they are to do.
#[derive(Drop)]
struct Fifos {
    plain: PlainFifo<u32>,
    ring: RingFifo<u32>,
    list: Vec<u32>,
}

fn make_fifos(alloc: Global) -> Result<Box<Fifos>, AllocError> {
    let plain = PlainFifo::with_depth(alloc, DEPTH as u16)?;
    let ring = RingFifo::with_depth(alloc, DEPTH as u16)?;
    let list = Vec::new(alloc);
    Ok(Box::new(alloc, Fifos { plain, ring, list })?)
}

/// A call of each queue answers as the list does.
fn check_fifos(rt: &impl Abort, of: &mut Fifos, word: u32, turn: u32) -> Result<(), AllocError> {
    let want = call_list(&mut of.list, word)?;
    let has_room = of.list.len() < DEPTH;
    let from_plain = call_fifo(&mut of.plain, word);
    assert_eq!(rt;
        (from_plain, of.plain.has_room()),
        (want, has_room),
        "plain, call {turn}"
    );
    let from_ring = call_fifo(&mut of.ring, word);
    assert_eq!(rt;
        (from_ring, of.ring.has_room()),
        (want, has_room),
        "ring, call {turn}"
    );
    Ok(())
}

fn check_calls_of_fifos(rt: &impl Abort, of: &mut Fifos) -> Result<(), AllocError> {
    let mut seed = 1;
    for turn in 0..1000 {
        seed = next(seed);
        check_fifos(rt, of, seed / 65_536, turn)?;
    }
    assert_eq!(rt;
        (usize::from(of.plain.len()), usize::from(of.ring.len())),
        (of.list.len(), of.list.len())
    );
    Ok(())
}

#[test]
fn fifos_are_lists(rt: HostRuntime) -> Result<(), AllocError> {
    item_push_and_take::<u32, PlainFifo<u32>>();
    item_push_and_take::<u32, RingFifo<u32>>();
    let mut of = make_fifos(rt.alloc())?;
    check_calls_of_fifos(&rt, &mut of)
}

fn call_slots(queue: &mut SlotQueue, word: u32) -> Option<u64> {
    let number = queue.taken().saturating_add(u64::from(word % 5));
    match word % 7 {
        0 | 1 if queue.reserved() < 1 << 40 => queue.reserve(word, LoadKind::I32, number),
        2 => queue.take().map(u64::from),
        3 => queue.waiting(number).map(|slot| slot.stamp),
        4 => queue.at((word % 7) as u16).map(|slot| slot.number),
        _ => queue.fill(number, word).then_some(number),
    }
}

#[derive(Drop)]
struct Listed {
    slots: Vec<Slot>,
    taken: u64,
    reserved: u64,
}

impl Listed {
    fn reserve(&mut self, addr: u32, stamp: u64) -> Result<Option<u64>, AllocError> {
        let number = self.reserved;
        if self.slots.len() >= DEPTH {
            return Ok(None);
        }
        self.slots.push(Slot {
            number,
            addr,
            kind: LoadKind::I32,
            stamp,
            value: None,
        })?;
        self.reserved = number.wrapping_add(1);
        Ok(Some(number))
    }

    fn take(&mut self) -> Option<u64> {
        let value = self.slots.first()?.value?;
        let _ = self.slots.remove(0);
        self.taken = self.taken.wrapping_add(1);
        Some(u64::from(value))
    }

    fn fill(&mut self, number: u64, value: u32) -> Option<u64> {
        for slot in self.slots.iter_mut() {
            if slot.number == number && slot.value.is_none() {
                slot.value = Some(value);
                return Some(number);
            }
        }
        None
    }

    fn call(&mut self, word: u32) -> Result<Option<u64>, AllocError> {
        let number = self.taken.saturating_add(u64::from(word % 5));
        match word % 7 {
            0 | 1 => self.reserve(word, number),
            2 => Ok(self.take()),
            3 => {
                let waiting = self.slots.iter().find(|slot| slot.number == number);
                Ok(
                    waiting
                        .filter(|slot| slot.value.is_none())
                        .map(|slot| slot.stamp),
                )
            }
            4 => Ok(self.slots.get((word % 7) as usize).map(|slot| slot.number)),
            _ => Ok(self.fill(number, word)),
        }
    }
}

/// A call of the queue answers as the list does.
fn check_slots(
    rt: &impl Abort,
    queue: &mut SlotQueue,
    list: &mut Listed,
    word: u32,
    turn: u32,
) -> Result<(), AllocError> {
    let want = list.call(word)?;
    let front = list.slots.first().and_then(|slot| slot.value);
    assert_eq!(rt;
        (call_slots(queue, word), queue.front()),
        (want, front),
        "call {turn}"
    );
    Ok(())
}

fn check_calls_of_slots(
    rt: &impl Abort,
    queue: &mut SlotQueue,
    list: &mut Listed,
) -> Result<(), AllocError> {
    let mut seed = 1;
    for turn in 0..1000 {
        seed = next(seed);
        check_slots(rt, queue, list, seed / 65_536, turn)?;
    }
    assert_eq!(rt;
        (queue.taken(), queue.reserved()),
        (list.taken, list.reserved)
    );
    assert_eq!(rt; usize::from(queue.len()), list.slots.len());
    Ok(())
}

#[test]
fn load_queues_are_lists(rt: HostRuntime) -> Result<(), AllocError> {
    let mut queue = SlotQueue::with_depth(rt.alloc(), DEPTH as u16)?;
    let mut list = Listed {
        slots: Vec::new(rt.alloc()),
        taken: 0,
        reserved: 0,
    };
    check_calls_of_slots(&rt, &mut queue, &mut list)
}

fn call_stores(queue: &mut StoreQueue, word: u32) -> Option<(StoreAt, u32)> {
    match word % 7 {
        0 | 1 if queue.issued() < 1 << 40 && queue.push_address(word, Width::B2) => None,
        2 | 3 if queue.push_datum(word) => None,
        4 => queue.drain(),
        _ => {
            let at = (word % 8) as u16;
            queue.address_at(at).zip(queue.datum_at(at))
        }
    }
}

#[derive(Drop)]
struct ListedStores {
    addresses: Vec<StoreAt>,
    data: Vec<u32>,
    issued: u64,
}

impl ListedStores {
    fn push_address(&mut self, addr: u32) -> Result<(), AllocError> {
        let number = self.issued;
        self.addresses.push(StoreAt {
            number,
            addr,
            width: Width::B2,
        })?;
        self.issued = number.wrapping_add(1);
        Ok(())
    }

    fn drain(&mut self) -> Option<(StoreAt, u32)> {
        if self.addresses.is_empty() || self.data.is_empty() {
            return None;
        }
        Some((self.addresses.remove(0), self.data.remove(0)))
    }

    fn call(&mut self, word: u32) -> Result<Option<(StoreAt, u32)>, AllocError> {
        match word % 7 {
            0 | 1 if self.addresses.len() < DEPTH => self.push_address(word)?,
            2 | 3 if self.data.len() < DEPTH => self.data.push(word)?,
            4 => return Ok(self.drain()),
            _ => {
                let at = (word % 8) as usize;
                return Ok(
                    self.addresses
                        .get(at)
                        .copied()
                        .zip(self.data.get(at).copied()),
                );
            }
        }
        Ok(None)
    }
}

/// A call of the queue answers as the lists do.
fn check_stores(
    rt: &impl Abort,
    queue: &mut StoreQueue,
    list: &mut ListedStores,
    word: u32,
    turn: u32,
) -> Result<(), AllocError> {
    let want = list.call(word)?;
    let front = list
        .addresses
        .first()
        .copied()
        .zip(list.data.first().copied());
    assert_eq!(rt;
        (call_stores(queue, word), queue.front()),
        (want, front),
        "call {turn}"
    );
    Ok(())
}

fn check_calls_of_stores(
    rt: &impl Abort,
    queue: &mut StoreQueue,
    list: &mut ListedStores,
) -> Result<(), AllocError> {
    let mut seed = 1;
    for turn in 0..1000 {
        seed = next(seed);
        check_stores(rt, queue, list, seed / 65_536, turn)?;
    }
    assert_eq!(rt;
        (
            usize::from(queue.addresses()),
            usize::from(queue.data()),
            queue.issued()
        ),
        (list.addresses.len(), list.data.len(), list.issued)
    );
    Ok(())
}

#[test]
fn store_queues_are_lists(rt: HostRuntime) -> Result<(), AllocError> {
    let mut queue = StoreQueue::with_depths(rt.alloc(), DEPTH as u16, DEPTH as u16)?;
    let mut list = ListedStores {
        addresses: Vec::new(rt.alloc()),
        data: Vec::new(rt.alloc()),
        issued: 0,
    };
    check_calls_of_stores(&rt, &mut queue, &mut list)
}

fn width_in(text: &str, at: usize) -> Width {
    match word_in(text, at) {
        "1" => Width::B1,
        "2" => Width::B2,
        _ => Width::B4,
    }
}

/// Whether the two places of a row share a byte, asked both ways.
pub fn sharing_told(alloc: Global, row: &str) -> Result<String, AllocError> {
    let question = part(row, 2);
    let (x, y) = (number(word_in(question, 0)), number(word_in(question, 2)));
    let (wx, wy) = (width_in(question, 1), width_in(question, 3));
    let (shared, turned) = (overlap(x, wx, y, wy), overlap(y, wy, x, wx));
    format!(in alloc; "{shared} {turned}")
}

// A store to the bytes 16 to 19 waits. It is older than the first load, which reads one of them, and than the second,
// which reads another byte.
fn check_bars(rt: &impl Abort, stores: &StoreQueue, loads: &SlotQueue) {
    match (loads.at(0), loads.nth_fillable(stores, 0)) {
        (Some(first), Some(other)) => {
            assert_eq!(rt; (stores.blocks(&first), loads.fillable(stores)), (true, 1));
            assert_eq!(rt; (other.number, other.addr), (1, 20));
        }
        _ => panic!(rt; "no slot"),
    }
    assert_eq!(rt;
        (loads.depth(), loads.has_room(), stores.has_room()),
        (2, false, false)
    );
}

#[test]
fn older_stores_bar_fills(rt: HostRuntime) -> Result<(), AllocError> {
    let mut stores = StoreQueue::with_depths(rt.alloc(), 1, 1)?;
    let mut loads = SlotQueue::with_depth(rt.alloc(), 2)?;
    assert!(rt; stores.push_address(16, Width::B4));
    let _ = loads.reserve(18, LoadKind::U8, stores.issued());
    let _ = loads.reserve(20, LoadKind::U8, stores.issued());
    check_bars(&rt, &stores, &loads);
    Ok(())
}

// A load of byte 18 waits and is older than a store to the bytes 16 to 19.
fn check_holds(rt: &impl Abort, stores: &mut StoreQueue, loads: &mut SlotQueue) {
    let Some(store) = stores.address_at(0) else {
        panic!(rt; "no store");
    };
    assert!(rt; loads.holds(&store) && !stores.has_datum_room());
    assert!(rt; loads.fill(0, 7) && !loads.holds(&store));
    assert_eq!(rt; (stores.drain(), stores.drained()), (Some((store, 9)), 1));
}

#[test]
fn older_loads_hold_drains(rt: HostRuntime) -> Result<(), AllocError> {
    let mut stores = StoreQueue::with_depths(rt.alloc(), 1, 1)?;
    let mut loads = SlotQueue::with_depth(rt.alloc(), 2)?;
    let _ = loads.reserve(18, LoadKind::U8, stores.issued());
    assert!(rt; stores.push_address(16, Width::B4) && stores.push_datum(9));
    check_holds(&rt, &mut stores, &mut loads);
    Ok(())
}
