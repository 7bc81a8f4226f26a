// In how many ticks a processor waited.
ghost use Rattle.std.specs.Prelude.{◌≡◌, ◌<◌, ◌^◌};
ghost use Rattle.dae_timing.specs.Clocks.{no_waits, one_more, waits_for};

use dae_base::Queue;

/// In how many ticks a processor waited for each queue.
#[derive(Drop)]
pub struct Waits {
    pub ld: u64,
    pub al: u64,
    pub sa: u64,
    pub sd: u64,
    pub ab: u64,
    pub eb: u64,
    pub cq: u64,
}

impl Waits {
    /// Before the first tick.
    pub fn none() -> Waits
        ensures { result ≡ no_waits }
    {
        Waits {
            ld: 0,
            al: 0,
            sa: 0,
            sd: 0,
            ab: 0,
            eb: 0,
            cq: 0,
        }
    }

    /// The ticks of waiting for this queue.
    pub fn waits_for(&self, queue: Queue) -> u64
        ensures { result ≡ waits_for queue self.now }
    {
        match queue {
            Queue::Ld => self.ld,
            Queue::Al => self.al,
            Queue::Sa => self.sa,
            Queue::Sd => self.sd,
            Queue::Ab => self.ab,
            Queue::Eb => self.eb,
            Queue::Cq => self.cq,
        }
    }

    /// Counts one more tick of waiting for this queue.
    pub fn count(&mut self, queue: Queue)
        requires { waits_for queue self.old < 2 ^ 63 }
        ensures { self.new ≡ one_more queue self.old }
    {
        match queue {
            Queue::Ld => self.ld += 1,
            Queue::Al => self.al += 1,
            Queue::Sa => self.sa += 1,
            Queue::Sd => self.sd += 1,
            Queue::Ab => self.ab += 1,
            Queue::Eb => self.eb += 1,
            Queue::Cq => self.cq += 1,
        }
    }
}
