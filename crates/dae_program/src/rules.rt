// What lowering may rely on: the contracts of functions that do nothing.

ghost use Rattle.dae_program.specs.Promise.{LawfulKeepRules, NamedNeverStray, NeverStrays};

/// A program whose test holds keeps the rules: its variables are below their number, its numbers are words, nobody calls
/// main, which has no parameters, its objects by name lie in memory at multiples of their widths, and it begins with room.
pub fn lawful_keep_rules()
    ensures { LawfulKeepRules }
{}

/// Where the objects of a program by name lie in memory, no access that isn't checked goes astray, and no call either.
pub fn named_never_stray()
    ensures { NamedNeverStray }
{}

/// A program whose test holds goes astray under no bound.
pub fn never_strays()
    ensures { NeverStrays }
{}
