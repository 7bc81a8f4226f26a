// What is read of texts is determined; accepted and refused exclude each other; and files that are read are small.

ghost use Rattle.dae_accept.specs.Accepted.{AreOneCause, IsNeverBeside};
ghost use Rattle.dae_accept.specs.Origins.{ReadAreWithin};
ghost use Rattle.dae_accept.specs.Once.{AreCutFirst, AreCutOnce, AreParsedOnce, AreReadAlike, IsNoLexErrorOfRead, IsNoParseErrorOfRead};
ghost use Rattle.dae_accept.specs.declared.error.CompileError.{CompileError};
ghost use Rattle.dae_accept.specs.declared.error.CompileError.TheVariants.{Join, Lex, Rule, Tree};
ghost use Rattle.dae_types_kinds.specs.declared.rules.Breach.{Breach};
ghost use Rattle.dae_parse.specs.declared.error.ParseError.{ParseError};
ghost use Rattle.dae_tree.specs.declared.faults.LexError.{LexError};
ghost use Rattle.dae_unit.specs.declared.errors.JoinError.{JoinError};

use dae_parse::one_answer_is_due;
use dae_unit::outlines_tell_causes;

/// Texts are read to files that are alike, or they are refused for their tokens, or for a tree: never two of these, and for one
/// cause alone.
pub fn texts_are_read_once()
    ensures alike { AreReadAlike }
    ensures cut { (e : LexError) → IsNoLexErrorOfRead e }
    ensures parsed { (e : ParseError) → IsNoParseErrorOfRead e }
    ensures cut_once { AreCutOnce }
    ensures parsed_once { AreParsedOnce }
    ensures cut_first { AreCutFirst }
{
    one_answer_is_due();
}

/// Texts that are accepted are not refused for their tokens, nor for a tree, nor for a rule of types, nor since they don't join.
pub fn accepted_have_no_fault()
    ensures tokens { (e : LexError) → IsNeverBeside (Lex e) }
    ensures trees { (e : ParseError) → IsNeverBeside (Tree e) }
    ensures rules { (b : Breach) → IsNeverBeside (Rule b) }
    ensures joining { (e : JoinError) → IsNeverBeside (Join e) }
{
    texts_are_read_once();
    outlines_tell_causes();
}

/// Of texts without tokens, or of which one has no tree within the limits, one cause is told. Of those that have trees it is open
/// which of several broken rules is told.
pub fn one_cause_is_told()
    ensures { (d e : CompileError) → AreOneCause d e }
{
    texts_are_read_once();
}

/// Files that are read have at most 65,536 tokens and 65,536 bytes of literals.
pub fn read_are_within()
    ensures { ReadAreWithin }
{}
