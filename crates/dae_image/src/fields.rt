//! Numbers of an image.

ghost use Rattle.std.specs.Prelude.{◌≡◌, ◌≢◌, ◌-◌, ◌<◌, length, IfOk, IfErr};
ghost use Rattle.dae_image.specs.Ranges.{IsIn, is_in};
ghost use Rattle.dae_image.specs.Reading.{Gives, number_at, field_at};

use crate::fault::{Field, ImageError};

/// The numbers that a field may hold: the multiples of a step from the least to the most.
#[derive(Clone, Copy)]
pub struct FieldRange {
    pub least: u32,
    pub most: u32,
    pub step: u32,
}

impl FieldRange {
    fn contains(self, number: u32) -> bool
        requires { 0 < self.step }
        ensures { result ≡ is_in self number }
    {
        self.least <= number && number <= self.most && number % self.step == 0
    }
}

/// Where a rest of the bytes begins.
pub fn offset_of(whole: u32, rest: &[u8]) -> u32
    ensures { result ≡ whole - length rest.now }
{
    (whole as usize).saturating_sub(rest.len()) as u32
}

pub fn number(whole: u32, bytes: &[u8]) -> Result<(u32, &[u8]), ImageError>
    ensures gives { Gives (λ x. (x.0, x.1.now)) result (number_at whole bytes.now) }
    ensures memory { IfErr result (λ e. e ≢ ImageError.Memory) }
{
    if bytes.len() < 4 {
        return Err(ImageError::Short(whole));
    }
    let (front, rest) = bytes.split_at(4);
    let number = u32::from_le_bytes([front[0], front[1], front[2], front[3]]);
    Ok((number, rest))
}

#[tactic(auto, unfolding(crate::specs::Reading::field_at))]
pub fn field(
    whole: u32,
    field: Field,
    range: FieldRange,
    bytes: &[u8],
) -> Result<(u32, &[u8]), ImageError>
    requires { 0 < range.step }
    ensures gives { Gives (λ x. (x.0, x.1.now)) result (field_at whole field range bytes.now) }
    ensures in_range { IfOk result (λ x. IsIn range x.0) }
    ensures memory { IfErr result (λ e. e ≢ ImageError.Memory) }
{
    let (number, rest) = number(whole, bytes)?;
    if !range.contains(number) {
        return Err(ImageError::BadField(field, offset_of(whole, bytes)));
    }
    Ok((number, rest))
}
