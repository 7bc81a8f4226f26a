// The first multiple of a number that leaves a given rest, found as Euclid's algorithm finds a common divisor.
ghost use Rattle.std.specs.Prelude.{◌≡◌, ◌<◌, ◌≤◌, ◌^◌, ℕ, None, IfSome};
ghost use Rattle.dae_ranges.specs.Congruences.{IsFirstWith, NoneWith};

/// The first number whose product with the factor leaves the rest, or None where none does. The factor at least halves
/// with every other call of itself, so there are at most some 64.
#[tactic(auto, using(crate::proofs::Multiples::first_step, crate::proofs::Multiples::none_step, crate::proofs::Multiples::first_zero, crate::proofs::Multiples::none_zero))]
pub fn first_with_rest(factor: u64, rest: u64, modulus: u64) -> Option<u64>
    requires factor { factor < modulus }
    requires rest { rest < modulus }
    requires modulus { modulus ≤ 2 ^ 32 }
    ensures some { IfSome result (λ i. IsFirstWith factor rest modulus i) }
    ensures none { result ≡ None → NoneWith factor rest modulus }
{
    if rest == 0 {
        return Some(0);
    }
    if factor == 0 {
        return None;
    }
    let turns = first_with_rest(modulus % factor, (factor - rest % factor) % factor, factor)?;
    Some((turns * modulus + rest) / factor)
}
