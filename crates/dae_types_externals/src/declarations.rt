// Declarations at file scope: names of types, objects with what they hold, and functions (C90 6.5 and 6.7.2).

ghost use Rattle.std.specs.Prelude.{◌≡◌, Some, not, true};
ghost use Rattle.dae_tree.specs.Names.{has_typedef};
ghost use Rattle.dae_tree.specs.FileViews.{view_declaration, view_initialiser, view_item, view_items, view_value};
ghost use Rattle.dae_tree.specs.Views.{view_declarator, views_specifiers};
ghost use Rattle.dae_types_file_plans.specs.Files.{plan_data, plan_declared, plan_function, plan_item_at, plan_items, plan_object, plan_typed, role_of, storage_of};
ghost use Rattle.dae_types_sites.specs.Scopes.{is_innermost};
ghost use Rattle.dae_types_rules.specs.Table.{is_extern};
ghost use Rattle.dae_types_tables.specs.Seen.{Follows, FollowsBy};
ghost use Rattle.dae_types_products.specs.Products.{GivesProducts, as_products};
ghost use Rattle.dae_types_externals.specs.Parts.{plan_file_base, plan_object_data, plan_type_of};

use dae_base::Place;
use dae_tree::{Declaration, Declarator, InitDeclarator, Initialiser, Keyword, Seen, Specifier};
use dae_types_file_plans::Role;
use dae_types_kinds::{CheckError, Context};
use dae_types_linkage::{
    Introduction, declare_function, declare_object, declare_type, is_extern, set_object_type,
    type_of_object,
};
use dae_types_locals::{content, has_typedef, look_through, tag_scope};
use dae_types_products::{Product, append, declares_function, declares_object};
use dae_types_sites::{Adjustment, TagScope, base_type};
use dae_types_tables::{Checker, is_function};
use dae_types_walk::{declarator, declared_place, place_of_specifiers, specifiers};

/// The type that specifiers name at file scope. A tag without members is looked for in this scope.
pub fn base(checker: &mut Checker, scope: TagScope, list: &[Specifier]) -> Result<usize, CheckError>
    ensures { Follows checker.new result
        (plan_file_base (is_innermost scope) (views_specifiers list.now)) checker.old }
{
    let whole = specifiers(checker, Context::File, scope, list)?;
    Ok(base_type(Seen::of_specifiers(list), whole))
}

/// The storage class among specifiers.
pub fn storage_class(list: &[Specifier]) -> Option<Keyword>
    ensures { result ≡ storage_of (views_specifiers list.now) }
{
    Seen::of_specifiers(list).storage
}

/// What a declaration is for an object: it has an initialiser, it gives room, or neither (C90 6.7.2).
fn role_of(word: Option<Keyword>, introduction: Introduction) -> Role
    ensures { result ≡ role_of introduction.given (not (is_extern word)) }
{
    if introduction.given {
        Role::Definition
    } else if is_extern(word) {
        Role::Reference
    } else {
        Role::Tentative
    }
}

/// What an object of the file holds, by its number, with its type; the place is that of its name.
fn object_data(
    checker: &mut Checker,
    place: Place,
    initialiser: &Initialiser,
    object: usize,
) -> Result<Vec<Product>, CheckError>
    ensures { GivesProducts checker.new result
        (plan_object_data place (view_initialiser initialiser.now) object) checker.old }
{
    let type_id = type_of_object(checker, object);
    let content = content(checker, place, 0, type_id, initialiser)?;
    set_object_type(checker, object, content.type_id);
    let mut products = Vec::new(checker.alloc);
    products.push(Product::Data(object, content.items))?;
    Ok(products)
}

/// What an object of the file holds, if it is initialised; the initialiser of what is no object is looked through.
pub fn data(
    checker: &mut Checker,
    place: Place,
    given: &Option<(Place, Initialiser)>,
    object: Option<usize>,
) -> Result<Vec<Product>, CheckError>
    ensures { GivesProducts checker.new result
        (plan_data place (view_value given.now) object) checker.old }
{
    match given {
        Some((_, initialiser)) => match object {
            Some(object) => object_data(checker, place, initialiser, object),
            None => {
                look_through(checker, initialiser)?;
                Ok(Vec::new(checker.alloc))
            }
        },
        None => Ok(Vec::new(checker.alloc)),
    }
}

/// A declaration of a function, which has no initialiser.
fn function_item(
    checker: &mut Checker,
    place: Place,
    word: Option<Keyword>,
    item: &InitDeclarator,
    type_id: usize,
) -> Result<Vec<Product>, CheckError>
    ensures { GivesProducts checker.new result
        (plan_function place word (view_item item.now) type_id) checker.old }
{
    let introduction = Introduction {
        place,
        name: item.declarator.name(),
        given: item.initialiser.is_some(),
    };
    let function = declare_function(checker, word, introduction, type_id)?;
    declares_function(checker.alloc, place, Role::Reference, function)
}

/// A declaration of an object, perhaps with what it holds.
fn object_item(
    checker: &mut Checker,
    place: Place,
    word: Option<Keyword>,
    item: &InitDeclarator,
    type_id: usize,
) -> Result<Vec<Product>, CheckError>
    ensures { GivesProducts checker.new result
        (plan_object place word (view_item item.now) type_id) checker.old }
{
    let introduction = Introduction {
        place,
        name: item.declarator.name(),
        given: item.initialiser.is_some(),
    };
    let object = declare_object(checker, word, introduction, type_id)?;
    let role = role_of(word, introduction);
    let declared = declares_object(checker.alloc, place, role, object)?;
    let data = data(checker, place, &item.initialiser, object)?;
    append(declared, data)
}

/// A declaration of a function or an object, by its type.
fn typed_item(
    checker: &mut Checker,
    place: Place,
    word: Option<Keyword>,
    item: &InitDeclarator,
    type_id: usize,
) -> Result<Vec<Product>, CheckError>
    ensures { GivesProducts checker.new result
        (plan_typed place word (view_item item.now) (Some type_id)) checker.old }
{
    if is_function(checker.shape_of(type_id)) {
        function_item(checker, place, word, item, type_id)
    } else {
        object_item(checker, place, word, item, type_id)
    }
}

/// The type that a declarator gives to its name.
#[tactic(auto, using(crate::proofs::Steps::settled_gives, crate::proofs::Steps::settled_fails))]
fn declared_type(
    checker: &mut Checker,
    place: Place,
    base: usize,
    part: &Declarator,
) -> Result<usize, CheckError>
    ensures { FollowsBy (λ t. Some t) checker.new result
        (plan_type_of place base (view_declarator part.now)) checker.old }
{
    let declared = declarator(checker, place, Adjustment::Kept, base, part)?;
    Ok(declared.type_id)
}

/// Gives a type a name.
fn name_type(
    checker: &mut Checker,
    place: Place,
    word: Option<Keyword>,
    base: usize,
    item: &InitDeclarator,
) -> Result<Vec<Product>, CheckError>
    ensures { GivesProducts checker.new result
        (plan_item_at true place word base (view_item item.now)) checker.old }
{
    let declared = declarator(checker, place, Adjustment::Kept, base, &item.declarator)?;
    let introduction = Introduction {
        place,
        name: item.declarator.name(),
        given: item.initialiser.is_some(),
    };
    declare_type(checker, Context::File, introduction, declared)?;
    Ok(Vec::new(checker.alloc))
}

/// Declares an item as these specifiers say. Its name stands at this place.
fn item(
    checker: &mut Checker,
    list: &[Specifier],
    place: Place,
    base: usize,
    item: &InitDeclarator,
) -> Result<Vec<Product>, CheckError>
    ensures { GivesProducts checker.new result
        (plan_item_at (has_typedef (views_specifiers list.now)) place
        (storage_of (views_specifiers list.now)) base (view_item item.now)) checker.old }
{
    let word = storage_class(list);
    if has_typedef(list) {
        return name_type(checker, place, word, base, item);
    }
    let type_id = declared_type(checker, place, base, &item.declarator)?;
    typed_item(checker, place, word, item, type_id)
}

/// Adds what the items of a declaration come to, as its specifiers say. The place is that of its first token.
fn add_items(
    checker: &mut Checker,
    list: &[Specifier],
    place: Place,
    base: usize,
    mut done: Vec<Product>,
    items: &[InitDeclarator],
) -> Result<Vec<Product>, CheckError>
    ensures { GivesProducts checker.new result
        (plan_items (has_typedef (views_specifiers list.now)) place
        (storage_of (views_specifiers list.now)) base (as_products done) (view_items items.now))
        checker.old }
{
    for one in items {
        let at = declared_place(&one.declarator, place);
        let more = item(checker, list, at, base, one)?;
        done = append(done, more)?;
    }
    Ok(done)
}

/// Adds what a declaration comes to.
pub fn add_declaration(
    checker: &mut Checker,
    done: Vec<Product>,
    declaration: &Declaration,
) -> Result<Vec<Product>, CheckError>
    ensures { GivesProducts checker.new result
        (plan_declared (as_products done) (view_declaration declaration.now)) checker.old }
{
    let list = declaration.specifiers.as_slice();
    let items = declaration.items.as_slice();
    let base = base(checker, tag_scope(items), list)?;
    let place = place_of_specifiers(list, declaration.end);
    add_items(checker, list, place, base, done, items)
}
