// Tests of dae_ranges, dae_certificate and dae_guard_walk: ranges, certificates, and what the guard says of pairs of codes. Each row of the
// tables is answered by a text.
#![tactic(auto)]

#[cfg(test)]
mod answers;
#[cfg(test)]
mod certificate;
#[cfg(test)]
mod guards;
#[cfg(test)]
mod ranges;
#[cfg(test)]
mod rows;
