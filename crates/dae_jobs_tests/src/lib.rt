// Tests of what the jobs over images and assembly texts stand on: dae_trace, dae_debug, dae_debug_commands, dae_timing, dae_listing,
// dae_asm_lines, dae_asm_order and dae_asm. Each row of the tables is answered by a text.
#![tactic(auto)]

#[cfg(test)]
mod answers;
#[cfg(test)]
mod images;
#[cfg(test)]
mod lines;
#[cfg(test)]
mod listings;
#[cfg(test)]
mod rows;
#[cfg(test)]
mod runs;
#[cfg(test)]
mod scripts;
#[cfg(test)]
mod texts;
