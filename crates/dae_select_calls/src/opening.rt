// The code that a side begins with, and what main returns to.

ghost use Rattle.std.specs.Prelude.{◌≡◌, ◌-◌, ◌++◌, [], if◌then◌else◌, IfOk, OnOk};
ghost use Rattle.dae_select_blocks.specs.Blocks.{number_code, residents_code};
ghost use Rattle.dae_select_blocks.specs.Code.{start_code, finish_code};
ghost use Rattle.dae_select_values.specs.Sides.{is_a};
ghost use Rattle.dae_select_calls.specs.Layouts.{plan_of, AreSmall};

use crate::layouts::Layouts;
use dae_base::Side;
use dae_encode::Inst;
use dae_select_values::{enter_code, number_code};
use std::alloc::{AllocError, Global};

/// Numbers come to stay in registers: the first in x27, the next ones in those below.
pub fn residents_code(code: &mut Vec<Inst>, residents: &[u32]) -> Result<(), AllocError>
    ensures { OnOk result (code.new.items ≡ code.old.items ++ residents_code 27 residents.now) }
{
    let mut register: u8 = 27;
    for number in residents {
        number_code(code, register, *number)?;
        register = register.saturating_sub(1);
    }
    Ok(())
}

/// How many addresses common memory has, on A.
fn addresses_code(code: &mut Vec<Inst>, side: Side, memory: u32) -> Result<(), AllocError>
    ensures { OnOk result (code.new.items ≡ code.old.items
        ++ (if is_a side then number_code 4 (memory - 16) else [])) }
{
    match side {
        Side::A => number_code(code, 4, memory.saturating_sub(16)),
        Side::E => Ok(()),
    }
}

/// The code that begins: frames begin at this address of common memory, numbers come to stay, and main is called.
pub fn start_code(
    alloc: Global,
    layouts: &Layouts,
    main: u32,
    frames: u32,
) -> Result<Vec<Inst>, AllocError>
    requires { AreSmall layouts.now }
    ensures { IfOk result (λ code. code.items ≡ start_code (plan_of layouts.now) main frames) }
{
    let mut code = Vec::new(alloc);
    number_code(&mut code, 3, frames)?;
    residents_code(&mut code, layouts.residents.as_slice())?;
    addresses_code(&mut code, layouts.side, layouts.memory)?;
    enter_code(&mut code, layouts.calls, layouts.entry(main))?;
    Ok(code)
}

/// What main returns to: the processor halts, E with main's result.
pub fn finish_code(code: &mut Vec<Inst>, side: Side) -> Result<(), AllocError>
    ensures { OnOk result (code.new.items ≡ code.old.items ++ finish_code (is_a side)) }
{
    match side {
        Side::A => code.extend_from_slice(&[Inst::Ecall]),
        Side::E => {
            code.extend_from_slice(&[Inst::Addi(10, 6, 0), Inst::Addi(17, 0, 0), Inst::Ecall])
        }
    }
}
