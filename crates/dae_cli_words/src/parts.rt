// The parts of words: those in front that begin with a dash, and the names of files behind them.
ghost use Rattle.std.specs.Prelude.{◌≡◌, [], ◌∷◌, ◌++◌, ℕ, List, map, MatchBool, MatchOption, string_bytes};
ghost use Rattle.std.specs.List.{list_all, prefix_len};
ghost use Rattle.dae_cli_options.specs.Names.{AreFiles, begins_with_dash, is_file_name};
ghost use Rattle.dae_cli_words.specs.Parts.{AreDashed, IsPlain};

/// How many files a job may have.
const MOST_FILES: usize = 1024;

/// The words in front that begin with a dash, and the words behind them.
pub fn parted(words: &[String]) -> (&[String], &[String])
    ensures whole { map string_bytes words.now
        ≡ map string_bytes result.0.now ++ map string_bytes result.1.now }
    ensures dashed { AreDashed (map string_bytes result.0.now) }
    ensures plain { IsPlain (map string_bytes result.1.now) }
{
    words.split_at(dashed(words))
}

// How many words from the front on begin with a dash.
fn dashed(words: &[String]) -> usize
    ensures { result ≡ prefix_len begins_with_dash (map string_bytes words.now) }
{
    let mut count = 0;
    for word in words {
        if !begins_with_dash(word.as_str()) {
            return count;
        }
        count += 1;
    }
    count
}

/// Whether the words can name files.
pub fn are_files(words: &[String]) -> bool
    ensures { MatchBool result
        (AreFiles (map string_bytes words.now)) (¬ (AreFiles (map string_bytes words.now))) }
{
    !words.is_empty() && words.len() <= MOST_FILES && are_named(words)
}

fn are_named(words: &[String]) -> bool
    ensures { result ≡ list_all is_file_name (map string_bytes words.now) }
{
    for word in words {
        if !is_file_name(word.as_str()) {
            return false;
        }
    }
    true
}

/// Whether a word can name a file.
pub fn is_file_name(word: &str) -> bool
    ensures { result ≡ is_file_name word.now }
{
    !begins_with_dash(word) && !word.is_empty() && word.len() <= 4096
}

// Whether a word begins as options do.
fn begins_with_dash(word: &str) -> bool
    ensures { result ≡ begins_with_dash word.now }
{
    word.as_bytes().first() == Some(&b'-')
}

/// The file, where there is one alone.
pub fn only_file(files: &[String]) -> Option<&str>
    ensures { MatchOption result
        ((name : List ℕ) → ¬ (map string_bytes files.now ≡ name ∷ []))
        (λ name. map string_bytes files.now ≡ name.now ∷ []) }
{
    if files.len() == 1 {
        Some(files[0].as_str())
    } else {
        None
    }
}

/// The two files, where there are just two.
pub fn both_files(files: &[String]) -> Option<(&str, &str)>
    ensures { MatchOption result
        ((name other : List ℕ) → ¬ (map string_bytes files.now ≡ name ∷ other ∷ []))
        (λ both. map string_bytes files.now ≡ both.0.now ∷ both.1.now ∷ []) }
{
    if files.len() == 2 {
        Some((files[0].as_str(), files[1].as_str()))
    } else {
        None
    }
}
