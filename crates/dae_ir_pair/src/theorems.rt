// What is proved of a form's pair: the contracts of functions that do nothing.

ghost use Rattle.std.specs.Prelude.{ℕ, Bool};
ghost use Rattle.dae_ir.specs.Classes.{Classes, AreClosed};
ghost use Rattle.dae_ir.specs.Form.{Program};
ghost use Rattle.dae_ir_pair.specs.Budget.{BudgetCovers, BudgetIsWithinCap};
ghost use Rattle.dae_ir_pair.specs.Laws.{PairKeeps};
ghost use Rattle.dae_ir_pair.specs.Programs.{ProgramKept};
ghost use Rattle.dae_ir_pair.specs.SetFirst.{StreamsSetFirst};
ghost use Rattle.dae_ir_pair.specs.Sizes.{StreamsAreSmall, WordsAreBounded};

/// For the classes of a form, its pair in canonical order ends as the form does, for every bound on turns, cap and memory:
/// with the same output, memory, stores and executed items, with what each side needs of main's variables, and with no
/// more loads. Where the form goes astray, nothing is said of the pair.
pub fn program_kept()
    ensures { ProgramKept }
{}

/// The same of each function, for any classes that are closed, from every world: it goes on, halts, traps or runs out of
/// turns as the form does, with the same memory and output, as many stores, and as many loads as the form has into
/// variables that either processor needs. What a processor needs, it computes as the form does.
pub fn pair_keeps()
    ensures { (p : Program) (of : ℕ → Classes) → AreClosed p of → PairKeeps p of }
{}

/// The budget of a form's pair is enough for what each round of each function puts on the queues.
pub fn budget_covers()
    ensures { BudgetCovers }
{}

/// A budget has at most the cap of loads for E and of copies, and at most 1 of each other.
pub fn budget_is_within_cap()
    ensures { BudgetIsWithinCap }
{}

/// Each stream is at most twice as large as its form.
pub fn streams_are_small()
    ensures { StreamsAreSmall }
{}

/// The code of a stream has at most 14 words for each unit that the form weighs, where an item, a test and a loop weigh 2, and a
/// call 3 more and 2 for each argument.
pub fn words_are_bounded()
    ensures { WordsAreBounded }
{}

/// Where a form's function sets each variable before it reads it, so does each stream, from those of the variables set
/// before that its own side needs.
pub fn streams_set_first()
    ensures { StreamsSetFirst }
{}
