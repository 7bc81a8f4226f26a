// Rows of words with the job that each spells. They stand here, so that what they try is proved once.
#![tactic(auto)]

#[cfg(test)]
mod jobs;
#[cfg(test)]
mod rows;
#[cfg(test)]
mod texts;
