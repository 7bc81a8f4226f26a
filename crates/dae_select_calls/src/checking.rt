// The blocks of checks.

ghost use Rattle.std.specs.Prelude.{◌≡◌, ◌+◌, ◌-◌, ◌++◌, ◌<◌, OnOk};
ghost use Rattle.dae_select_blocks.specs.Blocks.{fail_code, over, align_code, bounds_code, offset_bounds_code, room_code, place_code, in_bounds_code, zero_code, depth_code, frames_room_code, call_room_code, frame_room_code, check_code};
ghost use Rattle.dae_base.specs.Words.{minus};
ghost use Rattle.dae_select_blocks.specs.Code.{placed_code};
ghost use Rattle.dae_select_values.specs.Sides.{is_a};
ghost use Rattle.dae_select_calls.specs.Makings.{plan_by, IsSound};
ghost use Rattle.dae_select_values.specs.Tables.{AreNear, home_by};

use crate::making::Making;
use dae_base::{Side, Width};
use dae_encode::Inst;
use dae_ir::{Action, Check, Operand};
use dae_select_values::{HomeTable, fetch, lower, number_code, source};
use std::alloc::AllocError;

/// The code of a trap is pushed, and the processor halts.
fn fail_code(code: &mut Vec<Inst>, side: Side, trap: u8) -> Result<(), AllocError>
    ensures { OnOk result (code.new.items ≡ code.old.items ++ fail_code (is_a side) trap) }
{
    let trap = i32::from(trap);
    match side {
        Side::A => code.extend_from_slice(&[Inst::Addi(29, 0, trap), Inst::Ecall]),
        Side::E => code.extend_from_slice(&[
            Inst::Addi(29, 0, trap),
            Inst::Addi(10, 0, trap),
            Inst::Addi(17, 0, 5),
            Inst::Ecall,
        ]),
    }
}

fn align_code(code: &mut Vec<Inst>, width: Width, register: u8) -> Result<(), AllocError>
    ensures { OnOk result (code.new.items ≡ code.old.items ++ align_code width register) }
{
    let bits = match width {
        Width::B1 => return Ok(()),
        Width::B2 => 1,
        Width::B4 => 3,
    };
    code.extend_from_slice(&[Inst::Andi(6, register, bits), Inst::Beq(6, 0, 12)])?;
    fail_code(code, Side::A, 3)
}

fn room_code(code: &mut Vec<Inst>, most: u32) -> Result<(), AllocError>
    ensures { OnOk result (code.new.items ≡ code.old.items ++ room_code most) }
{
    number_code(code, 6, most)?;
    code.push(Inst::Bgeu(6, 3, 12))?;
    fail_code(code, Side::A, 4)
}

/// An address must be between the first byte of common memory and its end, for an access of a width. From the last byte of the
/// access 16 are taken away, and what is left is compared with the addresses that common memory has.
fn bounds_code(code: &mut Vec<Inst>, width: Width, register: u8) -> Result<(), AllocError>
    ensures { OnOk result (code.new.items ≡ code.old.items ++ bounds_code width register) }
{
    code.extend_from_slice(&[
        Inst::Addi(6, register, i32::from(width.bytes()) - 17),
        Inst::Bltu(6, 4, 12),
    ])?;
    fail_code(code, Side::A, 2)
}

/// The address that an operand is must be good for an access of a width.
fn place_code(
    code: &mut Vec<Inst>,
    homes: HomeTable,
    width: Width,
    operand: Operand,
) -> Result<(), AllocError>
    requires { AreNear homes }
    ensures { OnOk result (code.new.items ≡ code.old.items
        ++ place_code (home_by homes.entry) width operand) }
{
    fetch(code, homes, 5, operand)?;
    let register = source(homes, 5, operand);
    align_code(code, width, register)?;
    bounds_code(code, width, register)
}

/// The same where that address is a multiple of four.
pub fn placed_code(
    code: &mut Vec<Inst>,
    homes: HomeTable,
    action: &Action,
) -> Result<(), AllocError>
    requires { AreNear homes }
    ensures { OnOk result (code.new.items ≡ code.old.items
        ++ placed_code (home_by homes.entry) action.now) }
{
    match action {
        Action::Probe(Check::Place(width, operand)) => {
            fetch(code, homes, 5, *operand)?;
            bounds_code(code, *width, source(homes, 5, *operand))
        }
        _ => Ok(()),
    }
}

/// An offset from which the 16 addresses are taken away that aren't of common memory, as a word.
fn less_sixteen(offset: u32) -> u32
    ensures { result ≡ minus offset 16 }
{
    offset.wrapping_sub(16)
}

/// The byte so many bytes behind an address must be there too. The 16 are taken away from the offset, and where nothing is left of
/// it the address itself is compared.
fn offset_bounds_code(code: &mut Vec<Inst>, register: u8, offset: u32) -> Result<(), AllocError>
    ensures { OnOk result (code.new.items ≡ code.old.items ++ offset_bounds_code register offset) }
{
    if offset == 16 {
        code.push(Inst::Bltu(register, 4, 12))?;
        fail_code(code, Side::A, 2)
    } else {
        let less = lower(less_sixteen(offset));
        code.extend_from_slice(&[Inst::Addi(6, register, less), Inst::Bltu(6, 4, 12)])?;
        fail_code(code, Side::A, 2)
    }
}

/// The byte so many bytes behind the address that an operand is must be in common memory.
fn in_bounds_code(
    code: &mut Vec<Inst>,
    homes: HomeTable,
    operand: Operand,
    offset: u32,
) -> Result<(), AllocError>
    requires { AreNear homes }
    ensures { OnOk result (code.new.items ≡ code.old.items
        ++ in_bounds_code (home_by homes.entry) operand offset) }
{
    fetch(code, homes, 5, operand)?;
    offset_bounds_code(code, source(homes, 5, operand), offset)
}

fn zero_code(
    code: &mut Vec<Inst>,
    side: Side,
    homes: HomeTable,
    operand: Operand,
) -> Result<(), AllocError>
    requires { AreNear homes }
    ensures { OnOk result (code.new.items ≡ code.old.items
        ++ zero_code (is_a side) (home_by homes.entry) operand) }
{
    fetch(code, homes, 5, operand)?;
    let over = match side {
        Side::A => 12,
        Side::E => 20,
    };
    code.push(Inst::Bne(source(homes, 5, operand), 0, over))?;
    fail_code(code, side, 1)
}

fn depth_code(code: &mut Vec<Inst>, limit: u16) -> Result<(), AllocError>
    ensures { OnOk result (code.new.items ≡ code.old.items ++ depth_code limit) }
{
    number_code(code, 6, u32::from(limit))?;
    code.push(Inst::Bltu(10, 6, 12))?;
    fail_code(code, Side::A, 4)
}

/// Room for frames of so many bytes, which fit into the memory at all. None need no room.
fn frames_room_code(code: &mut Vec<Inst>, memory: u32, frames: u32) -> Result<(), AllocError>
    ensures { OnOk result (code.new.items ≡ code.old.items ++ frames_room_code memory frames) }
{
    if frames == 0 {
        Ok(())
    } else {
        room_code(code, memory.saturating_sub(frames))
    }
}

/// Whether a call of a function whose frame has `next` bytes is within the limits.
fn call_room_code(
    code: &mut Vec<Inst>,
    memory: u32,
    limit: u16,
    own: u64,
    next: u64,
) -> Result<(), AllocError>
    ensures { OnOk result (code.new.items ≡ code.old.items
        ++ call_room_code memory limit own next) }
{
    let frames = own.saturating_add(next);
    if u64::from(memory) < frames {
        return fail_code(code, Side::A, 4);
    }
    frames_room_code(code, memory, frames as u32)?;
    depth_code(code, limit)
}

fn frame_room_code(code: &mut Vec<Inst>, memory: u32, own: u64) -> Result<(), AllocError>
    ensures { OnOk result (code.new.items ≡ code.old.items ++ frame_room_code memory own) }
{
    if u64::from(memory) < own {
        fail_code(code, Side::A, 4)
    } else {
        room_code(code, memory - own as u32)
    }
}

/// The block of a check.
pub fn check_code(code: &mut Vec<Inst>, making: &Making, check: Check) -> Result<(), AllocError>
    requires { IsSound making.now }
    ensures { OnOk result (code.new.items ≡ code.old.items
        ++ check_code (plan_by making.now) making.now.function check) }
{
    let layouts = making.layouts;
    let own = layouts.frame(making.function);
    match check {
        Check::Place(width, operand) => place_code(code, making.homes, width, operand),
        Check::InBounds(operand, offset) => { in_bounds_code(code, making.homes, operand, offset) }
        Check::Zero(operand) => zero_code(code, layouts.side, making.homes, operand),
        Check::Room(callee) => {
            let next = layouts.frame(callee);
            let limit = layouts.counted_limit(making.function);
            call_room_code(code, layouts.memory, limit, own, next)
        }
        Check::Frame => frame_room_code(code, layouts.memory, own),
        Check::Abort => fail_code(code, Side::A, 5),
    }
}
