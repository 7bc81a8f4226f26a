// The worked rows of the program: words, texts of files and images, with the status, the output and the lines that are due; calls of
// which a put, a fetch or a keep fails; and calls over images and traces that are damaged. They stand here, so that what they try is
// proved once, and in one crate, since each crate of tests that reaches the program is linked with all of it.
#![tactic(auto)]

#[cfg(test)]
mod calls;
#[cfg(test)]
mod changed;
#[cfg(test)]
mod compilations;
#[cfg(test)]
mod damaged;
#[cfg(test)]
mod exec_tests;
#[cfg(test)]
mod failing;
#[cfg(test)]
mod held;
#[cfg(test)]
mod images;
#[cfg(test)]
mod others;
#[cfg(test)]
mod parts;
#[cfg(test)]
mod programs;
#[cfg(test)]
mod rows;
#[cfg(test)]
mod runs;
#[cfg(test)]
mod texts;
#[cfg(test)]
mod traces;
