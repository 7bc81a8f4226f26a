// What is settled before the code of a side is made.

ghost use Rattle.std.specs.Prelude.{◌≡◌, ◌&&◌, not};
ghost use Rattle.dae_select_walks.specs.Agrees.{counted_depth};
ghost use Rattle.dae_select_blocks.specs.Blocks.{is_register};
ghost use Rattle.dae_select_calls.specs.Layouts.{plan_of, variables_of, has_home, AreSmall};
ghost use Rattle.dae_select_values.specs.Tables.{AreNear, home_by};

use dae_base::{Items, Side};
use dae_select_values::{CallForm, HomeTable, home_of};
use dae_select_walks::Home;

/// What is settled of a function: the homes of its variables, how many variables there are, the bytes of its frame in
/// common memory, whether it is a leaf, which makes no call, whether it is frameless, a leaf that needs no word of a private frame, the
/// word at which it is entered, and the word at which its actions begin.
#[derive(Drop)]
pub struct FunctionLayout {
    pub homes: Items<Home>,
    pub variables: u32,
    pub frame: u64,
    pub leaf: bool,
    pub frameless: bool,
    pub entry: u32,
    pub start: u32,
}

/// What is settled of a side: its functions, the form of the ways into them, the word that main returns to, the most words
/// of a private frame, the words of private memory, the call limit, the bytes of common memory, and the numbers that stay
/// in registers.
#[derive(Drop)]
pub struct Layouts {
    pub side: Side,
    pub functions: Items<FunctionLayout>,
    pub calls: CallForm,
    pub finish: u32,
    pub largest: u32,
    pub private: u32,
    pub limit: u16,
    pub memory: u32,
    pub residents: Items<u32>,
}

/// Whether a home is this register.
pub fn is_register(register: u8, home: Home) -> bool
    ensures { result ≡ is_register register home }
{
    match home {
        Home::Register(other) => register == other,
        Home::Slot(_) => false,
    }
}

/// Whether one of these homes is this register.
fn has_home(homes: &[Home], register: u8) -> bool
    ensures { result ≡ has_home register homes.now }
{
    for home in homes {
        if is_register(register, *home) {
            return true;
        }
    }
    false
}

/// Whether a function leaves a register as it is: a leaf with no variable there.
fn spares(layout: &FunctionLayout, register: u8) -> bool
    ensures { result ≡ (layout.now.leaf && not (has_home register layout.now.homes)) }
{
    layout.leaf && !has_home(layout.homes.as_slice(), register)
}

impl Layouts {
    /// The homes of a function's variables, and the numbers that stay in registers.
    pub fn homes(&self, function: u32) -> HomeTable<'_>
        ensures homes { home_by result ≡ (plan_of self.now).home function }
        ensures near { AreSmall self.now → AreNear result }
    {
        let residents = self.residents.as_slice();
        match self.functions.as_slice().get(function as usize) {
            Some(layout) => HomeTable {
                homes: layout.homes.as_slice(),
                residents,
            },
            None => HomeTable {
                homes: &[],
                residents,
            },
        }
    }

    /// The home of a variable of a function.
    pub fn home(&self, function: u32, variable: u32) -> Home
        ensures { result ≡ (plan_of self.now).home function variable }
    {
        home_of(self.homes(function), variable)
    }

    /// The word at which a function is entered.
    pub fn entry(&self, function: u32) -> u32
        ensures { result ≡ (plan_of self.now).entry function }
    {
        match self.functions.as_slice().get(function as usize) {
            Some(layout) => layout.entry,
            None => 0,
        }
    }

    /// The number of variables of a function.
    pub fn variables(&self, function: u32) -> u32
        ensures { result ≡ variables_of self.now function }
    {
        match self.functions.as_slice().get(function as usize) {
            Some(layout) => layout.variables,
            None => 0,
        }
    }

    /// Whether a function is a leaf.
    pub fn leaf(&self, function: u32) -> bool
        ensures { result ≡ (plan_of self.now).leaf function }
    {
        match self.functions.as_slice().get(function as usize) {
            Some(layout) => layout.leaf,
            None => false,
        }
    }

    /// Whether a function is frameless.
    pub fn frameless(&self, function: u32) -> bool
        ensures { result ≡ (plan_of self.now).frameless function }
    {
        match self.functions.as_slice().get(function as usize) {
            Some(layout) => layout.frameless,
            None => false,
        }
    }

    /// Whether a function leaves a register as it is.
    pub fn spares(&self, function: u32, register: u8) -> bool
        ensures { result ≡ (plan_of self.now).spares function register }
    {
        match self.functions.as_slice().get(function as usize) {
            Some(layout) => spares(layout, register),
            None => false,
        }
    }

    /// The call limit as it is counted in a function.
    pub fn counted_limit(&self, function: u32) -> u16
        ensures { result ≡ counted_depth (plan_of self.now) function self.now.limit }
    {
        if self.leaf(function) {
            self.limit.saturating_sub(1)
        } else {
            self.limit
        }
    }

    /// The bytes of a function's frame in common memory.
    pub fn frame(&self, function: u32) -> u64
        ensures { result ≡ (plan_of self.now).frame function }
    {
        match self.functions.as_slice().get(function as usize) {
            Some(layout) => layout.frame,
            None => 0,
        }
    }
}
