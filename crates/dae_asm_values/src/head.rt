//! The numbers at the head of a text.

ghost use Rattle.std.specs.Prelude.{◌≡◌, ℕ, pos, ◌<◌, ◌≤◌, IfSome, IfNone};
ghost use Rattle.dae_base.specs.declared.Depths.{Depths};
ghost use Rattle.dae_asm_lines.specs.Targets.{target_seen};
ghost use Rattle.dae_image.specs.Ranges.{depth_range, memory_range, calls_range, private_range};
ghost use Rattle.dae_asm_labels.specs.Labels.{looks};
ghost use Rattle.dae_asm_values.specs.Values.{IsFor, IsWithin, IsBudget, IsAddress, IsEntry};

use dae_asm_labels::{LabelDefinition, definition_of};
use dae_asm_lines::JumpTarget;
use dae_base::Depths;
use dae_image::FieldRange;
use indexmap::IndexMap;

/// A number of 32 bits that a range takes.
fn number_in(range: FieldRange, number: i64) -> Option<u32>
    requires { 0 < range.step }
    ensures some { IfSome result (λ n. IsWithin range number n) }
    ensures none { IfNone result ((n : ℕ) → IsWithin range number n → ⊥) }
{
    if number < 0 || number > 0xffff_ffff {
        return None;
    }
    let found = number as u32;
    if range.least <= found && found <= range.most && found % range.step == 0 {
        Some(found)
    } else {
        None
    }
}

fn depth_of(number: i64) -> Option<u16>
    ensures some { IfSome result (λ n. IsFor depth_range number n) }
    ensures none { IfNone result ((n : ℕ) → IsFor depth_range number n → ⊥) }
{
    let range = FieldRange {
        least: 0,
        most: 4_096,
        step: 1,
    };
    match number_in(range, number) {
        Some(depth) => Some(depth as u16),
        None => None,
    }
}

/// The budget of these numbers.
pub fn budget_of(numbers: [i64; 7]) -> Option<Depths>
    ensures some { IfSome result (λ d. IsBudget numbers d) }
    ensures none { IfNone result ((d : Depths) → IsBudget numbers d → ⊥) }
{
    let [ld, al, sa, sd, ab, eb, cq] = numbers;
    Some(Depths {
        ld: depth_of(ld)?,
        al: depth_of(al)?,
        sa: depth_of(sa)?,
        sd: depth_of(sd)?,
        ab: depth_of(ab)?,
        eb: depth_of(eb)?,
        cq: depth_of(cq)?,
    })
}

/// The bytes of common memory.
pub fn memory_of(number: i64) -> Option<u32>
    ensures some { IfSome result (λ n. IsFor memory_range number n) }
    ensures none { IfNone result ((n : ℕ) → IsFor memory_range number n → ⊥) }
{
    let range = FieldRange {
        least: 64,
        most: 67_108_864,
        step: 16,
    };
    number_in(range, number)
}

/// How deep calls may nest.
pub fn calls_of(number: i64) -> Option<u16>
    ensures some { IfSome result (λ n. IsFor calls_range number n) }
    ensures none { IfNone result ((n : ℕ) → IsFor calls_range number n → ⊥) }
{
    let range = FieldRange {
        least: 1,
        most: 4_096,
        step: 1,
    };
    match number_in(range, number) {
        Some(calls) => Some(calls as u16),
        None => None,
    }
}

/// The bytes of a private memory.
pub fn private_of(number: i64) -> Option<u32>
    ensures some { IfSome result (λ n. IsFor private_range number n) }
    ensures none { IfNone result ((n : ℕ) → IsFor private_range number n → ⊥) }
{
    let range = FieldRange {
        least: 0,
        most: 1_073_741_824,
        step: 4,
    };
    number_in(range, number)
}

/// The address that a number says.
fn number_address(number: i64) -> Option<u32>
    ensures some { IfSome result (λ n. number ≡ pos n) }
    ensures none { IfNone result ((n : ℕ) → n ≤ 1073741824 → number ≡ pos n → ⊥) }
{
    if 0 <= number && number <= 1_073_741_824 {
        Some(number as u32)
    } else {
        None
    }
}

fn address_of(table: &IndexMap<&[u8], LabelDefinition>, target: JumpTarget<'_>) -> Option<u32>
    ensures some { IfSome result (λ n. IsAddress (looks table.now) (target_seen target.entry) n) }
    ensures none { IfNone result ((n : ℕ) → n ≤ 1073741824
        → IsAddress (looks table.now) (target_seen target.entry) n → ⊥) }
{
    match target {
        JumpTarget::Number(number) => number_address(number),
        JumpTarget::Label(label) => match definition_of(table, label) {
            Some(definition) => Some(definition.address),
            None => None,
        },
    }
}

/// Where a code of so many words is entered; one without words has another fault.
pub fn entry_of(
    table: &IndexMap<&[u8], LabelDefinition>,
    count: u32,
    target: JumpTarget<'_>,
) -> Option<u32>
    requires { count ≤ 33554432 }
    ensures some { IfSome result
        (λ n. IsEntry (looks table.now) count (target_seen target.entry) n) }
    ensures none { IfNone result ((n : ℕ)
        → IsEntry (looks table.now) count (target_seen target.entry) n → ⊥) }
{
    let address = address_of(table, target)?;
    let is_inside = count == 0 || address < 4 * count;
    if address <= 134_217_724 && address % 4 == 0 && is_inside {
        Some(address)
    } else {
        None
    }
}
