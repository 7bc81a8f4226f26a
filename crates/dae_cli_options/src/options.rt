// The options of jobs and their ranges.
ghost use Rattle.std.specs.Prelude.{◌≡◌, ◌≤◌, drop, length, take};
ghost use Rattle.dae_cli_options.specs.Options.{AreCosts, AreDepths, AreInRange, OptionsInRange};
ghost use Rattle.dae_cli_options.specs.Ranges.{IsFromTo};

use dae_base::Depths;
use dae_machine::Schedule;
use std::marker::Model;

/// What an image may use: the bytes of common memory, how many calls may stand inside one another, and how many
/// loads for E a group of statements holds at most, and how many copies. The ghost field has their ranges.
#[derive(Clone, Copy)]
pub struct Options {
    pub memory: u32,
    pub calls: u16,
    pub cap: u8,
    pub ghost ranges: { AreInRange memory calls cap },
}

/// What a load costs before it may be filled, and what products and quotients cost, in ticks: each 1 to 1,000. The ghost
/// field has these ranges.
#[derive(Clone, Copy)]
pub struct Costs {
    pub load: u16,
    pub mul: u16,
    pub div: u16,
    pub ghost ranges: { AreCosts load mul div },
}

/// How deep the queues of a machine are. That each depth is 1 to 4,096 is the invariant (`AreDepths`).
#[derive(Drop)]
pub struct DepthOptions {
    depths: Depths,
}

impl Model for DepthOptions {
    ghost use Rattle.dae_base.specs.declared.Depths.{Depths};
    ghost use Rattle.dae_cli_options.specs.Options.{AreDepths};

    ghost Value = { Depths };

    ghost view = { λ o. o.depths };

    ghost invariant = { λ o. AreDepths o.depths };
}

impl DepthOptions {
    /// Queues of these depths.
    pub fn new(depths: Depths) -> DepthOptions
        requires { AreDepths depths }
        ensures { result ≡ depths }
    {
        DepthOptions { depths }
    }

    /// The depths.
    pub fn depths(&self) -> Depths
        ensures value { result ≡ self.now }
        ensures in_range { AreDepths result }
    {
        self.depths
    }
}

/// The bytes of the common memory that a run shows at its end: the address of the first and their count, which is 1 to
/// 64.
#[derive(Clone, Copy, PartialEq, Eq, Debug)]
pub struct Shown {
    address: u32,
    count: u8,
}

impl Model for Shown {
    ghost use Rattle.dae_cli_options.specs.Ranges.{IsFromTo, ShownBytes};

    ghost Value = { ShownBytes };

    ghost view = { λ s. record { address = s.address; count = s.count } };

    ghost invariant = { λ s. IsFromTo 1 64 s.count };

    ghost inverse = { λ v. record { address = v.address; count = v.count } };
}

impl Shown {
    /// So many bytes from this address on.
    pub fn new(address: u32, count: u8) -> Shown
        requires { IsFromTo 1 64 count }
        ensures { result ≡ record { address = address; count = count } }
    {
        Shown { address, count }
    }

    /// The address of the first byte.
    pub fn address(&self) -> u32
        ensures { result ≡ self.now.address }
    {
        self.address
    }

    /// The bytes of a memory that are shown. Those past its end are left out.
    pub fn bytes<'m>(&self, memory: &'m [u8]) -> &'m [u8]
        ensures bytes { result.now ≡ take self.now.count (drop self.now.address memory.entry.now) }
        ensures few { length result.now ≤ 64 }
    {
        let start = memory.len().min(self.address as usize);
        let rest = &memory[start..];
        &rest[..rest.len().min(self.count as usize)]
    }
}

/// What is set of a run: the depths of the queues; who is preferred in each turn; at most how many steps are taken; and
/// what is shown at the end.
#[derive(Clone, Copy, PartialEq, Eq)]
pub struct OptionValues {
    pub depths: Depths,
    pub schedule: Schedule,
    pub steps: u64,
    pub show: Option<Shown>,
}

/// How a machine is run. That each depth is 1 to 4,096 and the steps are 1 to 1,000,000,000,000 is the invariant
/// (`OptionsInRange`).
#[derive(Drop)]
pub struct RunOptions {
    values: OptionValues,
}

impl Model for RunOptions {
    ghost use Rattle.dae_cli_options.specs.declared.options.OptionValues.{OptionValues};

    ghost Value = { OptionValues };

    ghost use Rattle.dae_cli_options.specs.Options.{OptionsInRange};

    ghost view = { λ o. o.values };

    ghost invariant = { λ o. OptionsInRange o.values };
}

impl RunOptions {
    /// The options with these values.
    pub fn new(values: OptionValues) -> RunOptions
        requires { OptionsInRange values }
        ensures { result ≡ values }
    {
        RunOptions { values }
    }

    /// The values.
    pub fn values(&self) -> &OptionValues
        ensures value { result.now ≡ self.now }
        ensures in_range { OptionsInRange result.now }
    {
        &self.values
    }
}
