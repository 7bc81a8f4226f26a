// The faults of a shelf: how many there were, and, for contracts alone, what the last one was.
ghost use Rattle.std.specs.Prelude.{◌≡◌, ◌+◌, ◌-◌, ◌^◌, ◌≤◌, min, Option, None};
ghost use base.Fml.{ftrue};
ghost use Rattle.dae_io.specs.Faults.{ShelfFault, fault_code};

use std::marker::Model;

/// A call that failed, with the name that it was given.
#[derive(Clone, Copy, Drop)]
pub enum FailedCall<'n> {
    Fetch(&'n str),
    Keep(&'n str),
}

/// The last fault of a shelf, if there was one. It stands for contracts alone: it takes no memory, and its functions do
/// nothing when they run.
#[derive(Drop)]
pub struct LastFault {
    pub ghost fault: { Option ShelfFault } by { fault_code },
}

impl Model for LastFault {
    ghost also_owns = { λ _. ftrue };
}

impl LastFault {
    ghost use Rattle.dae_io.specs.FailedCalls.{fault_of};

    fn none() -> LastFault
        ensures { result.fault ≡ None }
    {
        LastFault {}
    }

    fn of(_call: &FailedCall<'_>) -> LastFault
        ensures { result.fault ≡ fault_of _call.now }
    {
        LastFault {}
    }
}

/// How many faults a shelf had, up to 2^64 - 1, and the last one.
#[derive(Drop)]
pub struct Faults {
    pub count: u64,
    pub last: LastFault,
}

impl Faults {
    ghost use Rattle.dae_io.specs.Faults.{fetch_of, keep_of};

    /// No fault.
    pub fn none() -> Faults
        ensures count { result.count ≡ 0 }
        ensures last { result.last.fault ≡ None }
    {
        Faults {
            count: 0,
            last: LastFault::none(),
        }
    }

    /// Counts a failed fetch of a name.
    pub fn fetch_failed(&mut self, name: &str)
        ensures count { self.new.count ≡ min (self.old.count + 1) (2 ^ 64 - 1) }
        ensures counted { self.old.count ≤ self.new.count }
        ensures last { self.new.last.fault ≡ fetch_of name.now }
    {
        self.count = self.count.saturating_add(1);
        self.last = LastFault::of(&FailedCall::Fetch(name));
    }

    /// Counts a failed keep under a name.
    pub fn keep_failed(&mut self, name: &str)
        ensures count { self.new.count ≡ min (self.old.count + 1) (2 ^ 64 - 1) }
        ensures counted { self.old.count ≤ self.new.count }
        ensures last { self.new.last.fault ≡ keep_of name.now }
    {
        self.count = self.count.saturating_add(1);
        self.last = LastFault::of(&FailedCall::Keep(name));
    }
}
