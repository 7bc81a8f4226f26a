// What programs mean, at 117 programs: each comes out, by evaluation of the definitions, as an independent implementation has
// it. Its proofs are these programs with their outcomes; it has no functions.
#![tactic(auto)]
