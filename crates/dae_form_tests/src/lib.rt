// Tests of the passes over forms, and of the code that is made of them: dae_lower_expressions, dae_alias, dae_report, dae_webs,
// dae_commons, dae_hoist, dae_threads, dae_slice, dae_split, dae_split_pair, dae_regalloc and dae_link. Forms are texts, and each row of the tables is answered by a text. In
// proofs/ the definitions of the reuse are tried on such forms, by evaluation.
#![tactic(auto)]

#[cfg(test)]
mod answers;
#[cfg(test)]
mod decided;
#[cfg(test)]
mod forms;
#[cfg(test)]
mod images;
#[cfg(test)]
mod pairs;
#[cfg(test)]
mod passes;
#[cfg(test)]
mod rows;
#[cfg(test)]
mod splits;
#[cfg(test)]
mod writing;
