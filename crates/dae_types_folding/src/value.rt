// Values: typed expressions in memory.

ghost use Rattle.std.specs.Prelude.{◌≡◌};
ghost use Rattle.dae_program.specs.Views.{view};
ghost use Rattle.dae_types_kinds.specs.Values.{number, plain, valued_by};
ghost use Rattle.dae_types_folding.specs.Views.{MakesTree, MakesValue, view_value};

use dae_program::Expression;
use dae_types_kinds::{Category, CheckError, Known};
use std::alloc::Global;

/// A typed expression: its tree, its type by its number, whether the tree gives a value or where an object is, and what is
/// known of its value before the program runs.
#[derive(Drop)]
pub struct TypedValue {
    pub tree: Box<Expression>,
    pub type_id: usize,
    pub category: Category,
    pub known: Known,
}

/// A tree in a box.
pub fn boxed(alloc: Global, tree: Expression) -> Result<Box<Expression>, CheckError>
    ensures { MakesTree result (view tree) }
{
    Ok(Box::new(alloc, tree)?)
}

/// A box that held another tree, with this one.
pub fn refilled(mut old: Box<Expression>, tree: Expression) -> Box<Expression>
    ensures { result.value ≡ tree }
{
    *old = tree;
    old
}

impl TypedValue {
    /// A value of which nothing is known.
    pub fn plain(tree: Box<Expression>, type_id: usize) -> TypedValue
        ensures { view_value result ≡ plain (view tree.value) type_id }
    {
        TypedValue {
            tree,
            type_id,
            category: Category::Plain,
            known: Known::Nothing,
        }
    }

    /// An integer constant expression with this value.
    pub fn number(alloc: Global, word: u32, type_id: usize) -> Result<TypedValue, CheckError>
        ensures { MakesValue result (number word type_id) }
    {
        Ok(TypedValue {
            tree: boxed(alloc, Expression::Number(word))?,
            type_id,
            category: Category::Plain,
            known: Known::Number(word),
        })
    }

    /// A value of which this is known. An integer constant expression is one number.
    pub fn of_known(tree: Box<Expression>, type_id: usize, known: Known) -> TypedValue
        ensures { view_value result ≡ valued_by (view tree.value) type_id known }
    {
        match known {
            Known::Number(word) => TypedValue {
                tree: refilled(tree, Expression::Number(word)),
                type_id,
                category: Category::Plain,
                known: Known::Number(word),
            },
            _ => TypedValue {
                tree,
                type_id,
                category: Category::Plain,
                known,
            },
        }
    }
}
