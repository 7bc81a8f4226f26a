// Tests of dae_types_sound, dae_types and dae_accept: a sound file and near misses, texts that break a rule of types and texts beside them,
// and files that join or don't. Each row of the tables is answered by a text.
#![tactic(auto)]

#[cfg(test)]
mod answers;
#[cfg(test)]
mod joining;
#[cfg(test)]
mod rows;
#[cfg(test)]
mod sound;
#[cfg(test)]
mod types;
