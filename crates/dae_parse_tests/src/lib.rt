// The worked rows of the reader: texts and their tokens, and trees at the greatest depth. Each row of the tables is answered by a text.
#![tactic(auto)]

#[cfg(test)]
mod answers;
#[cfg(test)]
mod lex;
#[cfg(test)]
mod nodes;
#[cfg(test)]
mod rows;
