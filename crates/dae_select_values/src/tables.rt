// The homes of variables, and the registers of numbers that stay in them.

ghost use Rattle.std.specs.Prelude.{◌≡◌, ◌&&◌, nat_lt, if◌then◌else◌, Some, None};
ghost use Rattle.dae_select_walks.specs.Homes.{home_in, number_key, resident_home, resident_register};
ghost use Rattle.dae_select_values.specs.Tables.{IsNear, AreNear, home_by};

use dae_select_walks::Home;

/// The homes of a function's variables, in their order, and the numbers that stay in registers all the time: the first in x27,
/// the next two in x26 and x25.
#[derive(Clone, Copy)]
pub struct HomeTable<'h> {
    pub homes: &'h [Home],
    pub residents: &'h [u32],
}

/// The home of the variable at this place. What has none is nowhere live, and any register is right.
fn home_at(homes: &[Home], variable: u32) -> Home
    ensures { result ≡ home_in homes.now variable }
{
    match homes.get(variable as usize) {
        Some(home) => *home,
        None => Home::Register(8),
    }
}

/// The home of a variable.
pub fn home_of(homes: HomeTable, variable: u32) -> Home
    ensures home { result ≡ home_by homes.entry variable }
    ensures near { AreNear homes.entry → IsNear result }
{
    home_at(homes.homes, variable)
}

/// This register, where it is one of those in which numbers stay.
fn for_resident(register: u8) -> Option<u8>
    ensures { result ≡ (if nat_lt 24 register && nat_lt register 28 then Some register else None) }
{
    if 24 < register && register < 28 {
        Some(register)
    } else {
        None
    }
}

/// The register in which a number stays, of numbers of which the first stays in x27.
fn resident_among(residents: &[u32], number: u32) -> Option<u8>
    ensures { result ≡ resident_register (resident_home 27 residents.now number) }
{
    let mut register: u8 = 27;
    for other in residents {
        if number == *other {
            return for_resident(register);
        }
        register = register.saturating_sub(1);
    }
    None
}

/// The register in which a number stays, where it does.
pub fn resident(homes: HomeTable, number: u32) -> Option<u8>
    ensures { result ≡ resident_register (home_by homes.entry (number_key number)) }
{
    resident_among(homes.residents, number)
}
