// Tests of dae_base, dae_io, dae_encode, dae_image, dae_queues, dae_core and dae_machine: printed pieces, named texts and
// sinks, words from an assembler, images, queues, one processor, and runs of small images. They stand here, so that the
// crates that they try are proved once. Each row of the tables is answered by a text.
#![tactic(auto)]

#[cfg(test)]
mod answers;
#[cfg(test)]
mod images;
#[cfg(test)]
mod io;
#[cfg(test)]
mod pieces;
#[cfg(test)]
mod processor;
#[cfg(test)]
mod queues;
#[cfg(test)]
mod rows;
#[cfg(test)]
mod runs;
#[cfg(test)]
mod words;
