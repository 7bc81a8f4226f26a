// What of an object is filled so far, and where the next item of an initialiser lands (C90 6.5.7).

ghost use Rattle.std.specs.Prelude.{◌≡◌};
ghost use Rattle.dae_types_file_plans.specs.Initialisers.{has_literal, landing_at};
ghost use Rattle.dae_types_tables.specs.Seen.{tables, FollowsBy};
ghost use Rattle.dae_types_folding.specs.Views.{view_value};
ghost use Rattle.dae_types_fills.specs.Fillings.{view_filling, view_landing};

use crate::slots::{ItemKind, Unfilled, descend, next_slot};
use dae_base::Place;
use dae_program::Setting;
use dae_types_folding::TypedValue;
use dae_types_kinds::{CheckError, Rule};
use dae_types_tables::{Checker, broken, is_structure};

/// What is filled so far: what is left, the next part at the end; the items; how many elements an array got that has its size
/// from them; and whether no more is said of what is too many.
#[derive(Drop)]
pub struct Filling {
    pub rest: Vec<Unfilled>,
    pub items: Vec<Setting>,
    pub count: u32,
    pub over: bool,
}

/// The object that an item is for: its offset in bytes, and its type.
#[derive(Clone, Copy)]
pub struct Destination {
    pub offset: u32,
    pub type_id: usize,
}

/// Where an item lands, unless it is too many, and what is filled behind it.
#[derive(Drop)]
pub struct Landing {
    pub filling: Filling,
    pub destination: Option<Destination>,
}

/// Whether an item is a literal.
pub fn has_literal(literal: Option<u32>) -> bool
    ensures { result ≡ has_literal literal }
{
    match literal {
        Some(_) => true,
        None => false,
    }
}

/// Where an item with this value lands; it may be a literal, by its number.
#[tactic(auto, unfolding(dae_types_rules::specs::Plan::ask_all))]
pub fn land(
    checker: &Checker,
    place: Place,
    literal: Option<u32>,
    filling: Filling,
    x: &TypedValue,
) -> Result<Landing, CheckError>
    ensures { FollowsBy view_landing checker.now result
        (landing_at place literal (view_filling filling) (view_value x.now)) checker.now }
{
    let Some(slot) = next_slot(checker, filling.rest)? else {
        if !filling.over {
            return Err(broken(Rule::TooManyInitialisers, place));
        }
        return Ok(Landing {
            filling: Filling {
                rest: Vec::new(checker.alloc),
                items: filling.items,
                count: filling.count,
                over: true,
            },
            destination: None,
        });
    };
    let item = ItemKind {
        literal: has_literal(literal),
        structure: is_structure(checker.shape_of(x.type_id)),
    };
    let slot = descend(checker, item, checker.count_shapes(), slot)?;
    let destination = Destination {
        offset: slot.offset,
        type_id: slot.type_id,
    };
    Ok(Landing {
        filling: Filling {
            rest: slot.rest,
            items: filling.items,
            count: filling.count,
            over: filling.over,
        },
        destination: Some(destination),
    })
}
