// Whether words set options.
ghost use Rattle.std.specs.Prelude.{◌≡◌, List, map, MatchBool, option_map, string_bytes, true};
ghost use Rattle.std.specs.List.{list_all, list_any};
ghost use Rattle.dae_cli_settings.specs.Settings.{AreSettings, OptionSetting, is_among, is_name, is_new_setting, name_in, sets_name, text_of};

/// Whether each of the words sets an option of these names, as in `--ld=2`, and none sets one that another sets.
pub fn are_settings(names: &[&str], words: &[String]) -> bool
    requires { list_all is_name (map (λ n. n.now) names.now) ≡ true }
    ensures { MatchBool result
        ((ss : List OptionSetting) × (map string_bytes words.now ≡ map text_of ss)
        × AreSettings (map (λ n. n.now) names.entry.now) ss)
        ((ss : List OptionSetting) → map string_bytes words.now ≡ map text_of ss
        → ¬ (AreSettings (map (λ n. n.now) names.entry.now) ss)) }
{
    for i in 0..words.len() {
        let (_, rest) = words.split_at(i + 1);
        if !is_new_setting(names, words[i].as_str(), rest) {
            return false;
        }
    }
    true
}

// Whether the word sets an option of these names that none of the rest sets.
fn is_new_setting(names: &[&str], word: &str, rest: &[String]) -> bool
    ensures { result
        ≡ is_new_setting (map (λ n. n.now) names.now) word.now (map string_bytes rest.now) }
{
    match name_in(word) {
        Some(name) => is_among(names, name) && !any_sets(rest, name),
        None => false,
    }
}

// Whether the name is one of these.
fn is_among(names: &[&str], name: &str) -> bool
    ensures { result ≡ is_among (map (λ n. n.now) names.now) name.now }
{
    for known in names {
        if *known == name {
            return true;
        }
    }
    false
}

// Whether one of the words sets the option.
fn any_sets(words: &[String], name: &str) -> bool
    ensures { result ≡ list_any (λ w. sets_name w name.now) (map string_bytes words.now) }
{
    for word in words {
        if sets_name(word.as_str(), name) {
            return true;
        }
    }
    false
}

fn sets_name(word: &str, name: &str) -> bool
    ensures { result ≡ sets_name word.now name.now }
{
    match name_in(word) {
        Some(own) => own == name,
        None => false,
    }
}

// The name of the option that a word `--name=value` sets.
fn name_in(word: &str) -> Option<&str>
    ensures { option_map (λ n. n.now) result ≡ name_in word.now }
{
    let (name, _value) = word.strip_prefix("--")?.split_once('=')?;
    Some(name)
}
