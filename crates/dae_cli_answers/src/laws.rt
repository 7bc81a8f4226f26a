// Laws of what is due for words.
ghost use Rattle.std.specs.Prelude.{◌≢◌, ℕ, List};
ghost use Rattle.dae_cli_drive.specs.Puts.{Answer};
ghost use Rattle.dae_cli_command.specs.Answers.{IsDue};
ghost use Rattle.dae_cli_drive.specs.Shelves.{ShelfSeen};
ghost use Rattle.dae_cli_answers.specs.One.{AreOne, IsSeenWhole};
ghost use Rattle.dae_cli_answers.specs.Promises.{IsNeverStuck, RunsKeepMeaning, RunsOfFilesKeepMeaning, RunsOfNumbersKeepMeaning};
ghost use Rattle.dae_cli_answers.specs.TimedPromises.{TimedRunsKeepMeaning};

use dae_accept::{accepted_have_no_fault, one_cause_is_told};

/// What is due for an image that keeps the meaning of a program is the answer of a run of that program. It is never that
/// the machine is stuck. It tells of a depth below the budget exactly where one is, but for want of memory. A run ends only
/// where the program ends or traps. Where it does, a run that ended tells so, with the program's output and memory, and no
/// run stops before where the steps that it may take are enough for the program's work. Where the program goes on, no run
/// ends. A run that stops before an end has put out some first bytes of the program's output.
pub fn runs_keep_meaning()
    ensures { RunsKeepMeaning }
{}

/// What is due for words that ask to run source files, or the source of a number, is the answer of a run of the program that
/// the texts are accepted as, with an image of theirs; but for files that aren't got, texts that are refused, and want of
/// memory.
pub fn words_keep_meaning()
    ensures files { RunsOfFilesKeepMeaning }
    ensures numbers { RunsOfNumbersKeepMeaning }
{}

/// What is due for a timed run of an image that keeps the meaning of a program is the answer of a timed run of that program.
/// It is never that the machine is stuck. It ends only where the program ends or traps, with the program's output and memory,
/// whatever loads, products and quotients cost; and no timed run stops before where the ticks that it may make are enough for
/// the program's work at the largest cost. One that stops before has put out some first bytes of the program's output.
pub fn timed_runs_keep_meaning()
    ensures { TimedRunsKeepMeaning }
{}

/// For one list of words, and one shelf that tells all its texts, whose count of faults did not rise, at most one answer is
/// due, but for want of memory, and but for what texts of source files come to that have tokens and trees: of two answers for
/// those, both tell why the same texts are refused, or both are due for images of them.
pub fn one_answer_for_words()
    ensures { (words : List (List ℕ)) (s : ShelfSeen) (status : ℕ) (a b : Answer) → IsSeenWhole s
        → IsDue words s status a → IsDue words s status b → a.status ≢ 7 → b.status ≢ 7
        → AreOne words s status a b }
{
    accepted_have_no_fault();
    one_cause_is_told();
}

/// For words that ask to run source files, or the source of a number, it is never due that the machine is stuck.
pub fn never_stuck()
    ensures { IsNeverStuck }
{}
