// Whether a name is a type's, and whether specifiers begin here.

ghost use Rattle.std.specs.Prelude.{◌≡◌};
ghost use Rattle.dae_tree.specs.Names.{is_type};
ghost use Rattle.dae_tree.specs.Words as words;

use crate::rest::TokensLeft;
use dae_parse_parts::Scope;
use dae_tree::Seen;

/// Whether a name is the name of a type.
#[tactic(auto, using(crate::proofs::TypesFound::type_found))]
pub fn is_type(names: &Scope<bool>, name: u32) -> bool
    ensures { result ≡ is_type names.now.names name }
{
    names.find(name).unwrap_or(false)
}

/// Whether the next token begins specifiers, where these names are in scope.
#[tactic(auto, using(crate::proofs::ByKind::begins_by))]
pub fn begins_specifiers(names: &Scope<bool>, rest: &TokensLeft<'_>) -> bool
    ensures { result ≡ words.begins_specifiers names.now.names rest.now }
{
    if let Some(word) = rest.word() {
        Seen::nothing().admits(word)
    } else if let Some(name) = rest.name() {
        is_type(names, name.number)
    } else {
        false
    }
}
