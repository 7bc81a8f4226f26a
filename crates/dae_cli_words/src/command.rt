// The commands, and the options that each takes.
ghost use Rattle.std.specs.Prelude.{◌≡◌, ◌≢◌, map, MatchOption};
ghost use Rattle.dae_cli_words.specs.declared.command.Command.{Command};
ghost use Rattle.dae_cli_words.specs.Words.{names_of, word_of};

/// What the first word asks for.
#[derive(Clone, Copy, PartialEq, Eq)]
pub enum Command {
    Run,
    Big,
    Compile,
    Report,
    Exec,
    Trace,
    Time,
    Check,
    Debug,
    Guard,
    Asm,
    Dis,
}

static RUN: [&str; 13] = [
    "ld", "al", "sa", "sd", "ab", "eb", "cq", "schedule", "steps", "show", "memory", "calls", "cap",
];

static EXEC: [&str; 10] = [
    "ld", "al", "sa", "sd", "ab", "eb", "cq", "schedule", "steps", "show",
];

static TRACE: [&str; 9] = [
    "ld", "al", "sa", "sd", "ab", "eb", "cq", "schedule", "steps",
];

static TIME: [&str; 12] = [
    "ld", "al", "sa", "sd", "ab", "eb", "cq", "show", "load", "mul", "div", "ticks",
];

static DEPTHS: [&str; 7] = ["ld", "al", "sa", "sd", "ab", "eb", "cq"];

static COMPILE: [&str; 4] = ["to", "memory", "calls", "cap"];

static REPORT: [&str; 3] = ["memory", "calls", "cap"];

static ASM: [&str; 1] = ["to"];

static NONE: [&str; 0] = [];

impl Command {
    /// The command of a word.
    pub fn named(word: &str) -> Option<Command>
        ensures { MatchOption result ((c : Command) → word.now ≢ word_of c)
            (λ c. word.now ≡ word_of c) }
    {
        match word {
            "run" => Some(Command::Run),
            "big" => Some(Command::Big),
            "compile" => Some(Command::Compile),
            "report" => Some(Command::Report),
            "exec" => Some(Command::Exec),
            "trace" => Some(Command::Trace),
            "time" => Some(Command::Time),
            "check" => Some(Command::Check),
            "debug" => Some(Command::Debug),
            "guard" => Some(Command::Guard),
            "asm" => Some(Command::Asm),
            "dis" => Some(Command::Dis),
            _ => None,
        }
    }

    /// The names of the options that it takes.
    pub fn names(self) -> &'static [&'static str]
        ensures { map (λ n. n.now) result.now ≡ names_of self }
    {
        match self {
            Command::Run | Command::Big => RUN.as_slice(),
            Command::Compile => COMPILE.as_slice(),
            Command::Report => REPORT.as_slice(),
            Command::Exec => EXEC.as_slice(),
            Command::Trace => TRACE.as_slice(),
            Command::Time => TIME.as_slice(),
            Command::Check | Command::Debug | Command::Guard => DEPTHS.as_slice(),
            Command::Asm => ASM.as_slice(),
            Command::Dis => NONE.as_slice(),
        }
    }
}
