// Definitions of functions (C90 6.7.1).

ghost use Rattle.std.specs.Prelude.{◌≡◌, Some};
ghost use Rattle.dae_tree.specs.Names.{function_part, has_typedef};
ghost use Rattle.dae_tree.specs.Views.{view_declarator, views_parameters, views_specifiers};
ghost use Rattle.dae_types_file_plans.specs.Files.{definition_at, is_direct, parameters_in, started};
ghost use Rattle.dae_types_rules.specs.Plan.{pure};
ghost use Rattle.dae_types_tables.specs.Seen.{tables, Follows, FollowsBy};
ghost use Rattle.dae_types_products.specs.Products.{GivesProducts, as_products};
ghost use Rattle.dae_types_externals.specs.Parts.{plan_added, plan_begun, plan_defining, plan_definition, plan_entry, plan_type_of_definition};

use crate::bodies::{Signature, function_body};
use crate::declarations::{base, storage_class};
use dae_base::Place;
use dae_tree::{Block, Declarator, Keyword, Parameter, Specifier};
use dae_types_file_plans::Role;
use dae_types_kinds::{CheckError, NamedType, Rule};
use dae_types_linkage::{Introduction, declare_function, define_function};
use dae_types_locals::has_typedef;
use dae_types_products::{Product, append, declares_function};
use dae_types_sites::{Adjustment, TagScope};
use dae_types_tables::{Checker, Kept, broken, is_function, set_kept};
use dae_types_walk::{declarator, declared_place, place_of_specifiers};

/// Begins a definition: nothing local is there, and no scope is kept.
fn start(checker: &mut Checker)
    ensures { tables checker.new ≡ started (tables checker.old) }
{
    checker.cut_locals(0);
    let storages = Vec::new(checker.alloc);
    checker.set_storages(storages);
    let names = Vec::new(checker.alloc);
    let tags = Vec::new(checker.alloc);
    set_kept(checker, Kept { names, tags });
}

/// Whether a declarator itself has parameters, and not a type that it stands behind.
fn is_direct(part: &Declarator) -> bool
    ensures { result ≡ is_direct (view_declarator part.now) }
{
    part.function_part().is_some()
}

/// The parameters of a part of a declarator.
#[tactic(auto, using(dae_tree::proofs::Laws::view_function))]
fn parameters_of(part: &Declarator) -> &[Parameter]
    ensures { views_parameters result.now ≡ parameters_in (Some (view_declarator part.now)) }
{
    match part {
        Declarator::Function(_, _, list) => list.as_slice(),
        Declarator::Absent => &[],
        Declarator::Named(_) => &[],
        Declarator::Pointer(_, _, _) => &[],
        Declarator::Grouped(_, _) => &[],
        Declarator::Unsized(_, _) => &[],
        Declarator::Sized(_, _, _) => &[],
        Declarator::Empty(_, _) => &[],
        Declarator::Void(_, _, _) => &[],
    }
}

/// The parameters of a definition.
fn parameters_in(part: &Declarator) -> &[Parameter]
    ensures { views_parameters result.now
        ≡ parameters_in (function_part (view_declarator part.now)) }
{
    match part.function_part() {
        Some(function) => parameters_of(function),
        None => &[],
    }
}

/// The type of a definition by what its declarator declares. The place is that of its name.
#[tactic(auto, unfolding(dae_types_rules::specs::Plan::ask_all))]
fn definition_type(
    checker: &Checker,
    place: Place,
    list: &[Specifier],
    part: &Declarator,
    declared: NamedType,
) -> Result<usize, CheckError>
    ensures { Follows checker.now result
        (definition_at place (has_typedef (views_specifiers list.now))
        (is_direct (view_declarator part.now)) (pure declared)) checker.now }
{
    let is_of_function = is_function(checker.shape_of(declared.type_id));
    if has_typedef(list) || (is_of_function && !is_direct(part)) {
        return Err(broken(Rule::TypedefMisuse, place));
    }
    if !is_of_function {
        return Err(broken(Rule::BadFunctionType, place));
    }
    Ok(declared.type_id)
}

/// The type of a definition. The place is that of its name.
#[tactic(auto, using(crate::proofs::Steps::definition_gives, crate::proofs::Steps::definition_fails))]
fn type_of_definition(
    checker: &mut Checker,
    place: Place,
    list: &[Specifier],
    base: usize,
    part: &Declarator,
) -> Result<usize, CheckError>
    ensures { FollowsBy (λ t. Some t) checker.new result
        (plan_type_of_definition place (views_specifiers list.now) base
        (view_declarator part.now)) checker.old }
{
    let declared = declarator(checker, place, Adjustment::Kept, base, part)?;
    definition_type(checker, place, list, part, declared)
}

/// Declares the function that a definition defines, and gives its number.
fn enter_definition(
    checker: &mut Checker,
    word: Option<Keyword>,
    signature: Signature,
) -> Result<Option<usize>, CheckError>
    ensures { Follows checker.new result
        (plan_entry signature.place word signature.name signature.type_id) checker.old }
{
    let introduction = Introduction {
        place: signature.place,
        name: signature.name,
        given: false,
    };
    let function = declare_function(checker, word, introduction, signature.type_id)?;
    define_function(checker, signature.place, function)
}

/// What a definition comes to, by what its declarator declares.
fn definition(
    checker: &mut Checker,
    word: Option<Keyword>,
    signature: Signature,
    parameters: &[Parameter],
    body: &Block,
) -> Result<Vec<Product>, CheckError>
    ensures { GivesProducts checker.new result
        (plan_definition signature.place word signature.name (views_parameters parameters.now)
        body.now signature.type_id) checker.old }
{
    let place = signature.place;
    let function = enter_definition(checker, word, signature)?;
    let declared = declares_function(checker.alloc, place, Role::Definition, function)?;
    let body = function_body(checker, signature, parameters, body, function)?;
    append(declared, body)
}

/// What a definition comes to, by its declarator and its type.
fn definition_by(
    checker: &mut Checker,
    place: Place,
    word: Option<Keyword>,
    part: &Declarator,
    body: &Block,
    type_id: usize,
) -> Result<Vec<Product>, CheckError>
    ensures { GivesProducts checker.new result
        (plan_defining place word (view_declarator part.now) body.now type_id) checker.old }
{
    let parameters = parameters_in(part);
    let name = part.name();
    let signature = Signature {
        place,
        name,
        type_id,
    };
    definition(checker, word, signature, parameters, body)
}

/// What a definition comes to.
fn whole_definition(
    checker: &mut Checker,
    list: &[Specifier],
    part: &Declarator,
    body: &Block,
) -> Result<Vec<Product>, CheckError>
    ensures { GivesProducts checker.new result
        (plan_begun (views_specifiers list.now) (view_declarator part.now) body.now) checker.old }
{
    let place = declared_place(part, place_of_specifiers(list, body.place));
    start(checker);
    let base = base(checker, TagScope::Any, list)?;
    let type_id = type_of_definition(checker, place, list, base, part)?;
    definition_by(checker, place, storage_class(list), part, body, type_id)
}

/// Adds what a definition comes to.
pub fn add_definition(
    checker: &mut Checker,
    done: Vec<Product>,
    list: &[Specifier],
    part: &Declarator,
    body: &Block,
) -> Result<Vec<Product>, CheckError>
    ensures { GivesProducts checker.new result
        (plan_added (as_products done) (views_specifiers list.now) (view_declarator part.now)
        body.now) checker.old }
{
    let more = whole_definition(checker, list, part, body)?;
    append(done, more)
}
