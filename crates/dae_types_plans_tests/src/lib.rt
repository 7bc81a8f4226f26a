// Small files as trees: which break no rule, which break one, and where; and what is written for small functions. Each comes
// out by evaluation of the plans, as C90 has it. Its proofs are these files; it has no functions.
#![tactic(auto)]
