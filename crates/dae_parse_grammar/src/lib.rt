// The laws of the grammar. A machine with a stack reads the tokens of a file one by one. It comes to a tree exactly where
// the grammar has one, and to no other tree. It takes: trees and the grammar. It promises: the laws below, for every list
// of tokens. Nothing here runs; the code of the machine stands above.
#![tactic(auto)]

ghost use Rattle.std.specs.Prelude.{◌≡◌, ℕ, suc, ◌+◌, ◌*◌, ◌<◌, ◌≤◌, ◌++◌, List, [], ◌∷◌, Some, None, length};
ghost use Rattle.dae_tree.specs.Depth.{first_deeper, nodes_file};
ghost use Rattle.dae_tree.specs.Marks.{TokenMark};
ghost use Rattle.dae_tree.specs.Names.{Names, after_parameters};
ghost use Rattle.dae_tree.specs.Statements.{IsTreeOf, spell_external};
ghost use Rattle.dae_tree.specs.Trees.{External, Parameters};
ghost use Rattle.dae_parse_grammar.specs.FirstPlaces.{firsts_file};
ghost use Rattle.dae_parse_grammar.specs.Frames.{ParserState};
ghost use Rattle.dae_parse_grammar.specs.Machine.{begun, ended, onto, step};
ghost use Rattle.dae_parse_grammar.specs.Measure.{measure};
ghost use Rattle.dae_parse_grammar.specs.Runs.{run};
ghost use Rattle.dae_parse_grammar.specs.Standing.{Holds};
ghost use Rattle.dae_parse_grammar.specs.Stuck.{stuck};
ghost use Rattle.dae_parse_grammar.specs.Taken.{tokens_of};

/// Each tree of the grammar is read from the tokens that it spells.
pub fn trees_are_read()
    ensures { (tokens : List TokenMark) (file : List External) → IsTreeOf tokens file
        → (turns : ℕ) × (names : Names) × (run turns (begun tokens) ≡ ended (onto file []) names) }
{}

/// What is read to the end is a tree of the grammar that spells the tokens.
pub fn what_is_read_is_a_tree()
    ensures { (tokens : List TokenMark) (turns : ℕ) (before : List External) (names : Names)
        → run turns (begun tokens) ≡ ended before names → IsTreeOf tokens (onto before []) }
{}

/// Tokens have at most one tree.
pub fn trees_are_unique()
    ensures { (tokens : List TokenMark) (a b : List External) → IsTreeOf tokens a
        → IsTreeOf tokens b
        → a ≡ b }
{}

/// Where the machine stops on tokens that have a tree, it has read that tree to the end.
pub fn stops_behind_a_tree()
    ensures { (tokens : List TokenMark) (turns : ℕ) (s : ParserState) → run turns (begun tokens) ≡ s
        → step s ≡ None → (file : List External) → IsTreeOf tokens file
        → (names : Names) × (s ≡ ended (onto file []) names) }
{}

/// Each step lowers a number, so that the machine stops within twelve steps a token and nine.
pub fn runs_are_short()
    ensures falls { (s t : ParserState) → step s ≡ Some t → measure t < measure s }
    ensures stops { (tokens : List TokenMark) (turns : ℕ) → 12 * length tokens + 9 ≤ turns
        → step (run turns (begun tokens)) ≡ None }
{}

/// The first node deeper than a limit is the first at the depth behind it. The depth of what stands at file scope is 1.
pub fn too_deep_is_one_past_the_limit()
    ensures { (file : List External) (limit : ℕ)
        → first_deeper limit (nodes_file file) ≡ firsts_file file limit }
{}

/// A declaration or definition spells as many tokens before others as alone.
pub fn lengths_add()
    ensures { (x : External) (rest : List TokenMark)
        → length (spell_external x rest) ≡ length (spell_external x []) + length rest }
{}

/// What is read of tokens is of the grammar, with the names in scope where it stands.
pub fn what_is_read_stands()
    ensures { (tokens : List TokenMark) (turns : ℕ) → Holds (run turns (begun tokens)) }
{}

/// The tokens that were taken and those that are left are the tokens of the file.
pub fn tokens_are_kept()
    ensures { (tokens : List TokenMark) (turns : ℕ)
        → tokens_of (run turns (begun tokens)) ≡ tokens }
{}

/// Parameters add names that do not depend on the names before.
pub fn parameters_add_names()
    ensures { (parameters : Parameters) (names : Names)
        → after_parameters parameters names ≡ after_parameters parameters [] ++ names }
{}

/// Where the machine can step behind a run, the run one longer comes to where that step does.
pub fn runs_go_on()
    ensures { (tokens : List TokenMark) (turns : ℕ) (t : ParserState)
        → step (run turns (begun tokens)) ≡ Some t → run (suc turns) (begun tokens) ≡ t }
{}

/// Where the machine is stuck at a token, no file begins with the tokens up to it.
pub fn nothing_goes_on()
    ensures { (before : List TokenMark) (t : TokenMark) (rest : List TokenMark) (turns : ℕ)
        → step (run turns (begun (before ++ t ∷ rest))) ≡ None
        → stuck (run turns (begun (before ++ t ∷ rest))) ≡ t ∷ rest
        → (more : List TokenMark) (file : List External) → ¬ IsTreeOf (before ++ t ∷ more) file }
{}
