// How deep the parts of a text stand, and the first that stands too deep.

ghost use Rattle.std.specs.Prelude.{◌≡◌, ◌<◌, ◌++◌, [], ◌∷◌, take, drop, length, IfOk, nat_le, slice_get, Some};
ghost use Rattle.std.specs.Option.{unwrap_or};

use dae_base::Place;
use std::alloc::{AllocError, Global};

/// How many nodes may stand one in the other.
pub const GREATEST_DEPTH: usize = 200;

/// The place of the first node at each depth of a tree, from the top, down to one past the greatest depth.
#[derive(Drop)]
pub struct TreeDepths {
    places: Vec<Place>,
}

impl TreeDepths {
    /// No nodes.
    pub fn none(alloc: Global) -> TreeDepths
        ensures { result.places.items ≡ [] }
    {
        TreeDepths {
            places: Vec::new(alloc),
        }
    }

    /// The nodes of these parts, and of others behind them.
    fn beside(self, other: &TreeDepths) -> Result<TreeDepths, AllocError>
        ensures { IfOk result
            (λ d. d.places.items
            ≡ self.places.items ++ drop (length self.places.items) other.now.places.items) }
    {
        let TreeDepths { mut places } = self;
        let others = other.places.as_slice();
        let known = places.len();
        if known < others.len() {
            places.extend_from_slice(&others[known..])?;
        }
        Ok(TreeDepths { places })
    }

    /// The nodes of these parts, and of others behind them. Where these have none, the others' memory is theirs.
    pub fn combine(self, others: TreeDepths) -> Result<TreeDepths, AllocError>
        ensures { IfOk result
            (λ d. d.places.items
            ≡ self.places.items ++ drop (length self.places.items) others.places.items) }
    {
        if self.places.is_empty() {
            Ok(others)
        } else {
            self.beside(&others)
        }
    }

    /// A node at this place that holds these.
    pub fn under(self, place: Place) -> Result<TreeDepths, AllocError>
        ensures { IfOk result (λ d. d.places.items ≡ place ∷ take 200 self.places.items) }
    {
        let TreeDepths { mut places } = self;
        places.truncate(GREATEST_DEPTH);
        places.insert(0, place)?;
        Ok(TreeDepths { places })
    }

    /// Whether no node is too deep.
    pub fn fits(&self) -> bool
        ensures { result ≡ nat_le (length self.now.places.items) 200 }
    {
        self.places.len() <= GREATEST_DEPTH
    }

    /// The place of the first node that is too deep, where the top has depth 1.
    pub fn first_too_deep(&self) -> Place
        requires { 200 < length self.now.places.items }
        ensures { slice_get self.now.places.items 200 ≡ Some result }
    {
        self.places[GREATEST_DEPTH]
    }

    /// The place of the top node.
    pub fn first(&self) -> Option<Place>
        ensures { result ≡ slice_get self.now.places.items 0 }
    {
        self.places.as_slice().first().copied()
    }

    /// The place of the top node, or this one where there is none.
    pub fn first_or(&self, place: Place) -> Place
        ensures { result ≡ unwrap_or (slice_get self.now.places.items 0) place }
    {
        match self.places.as_slice().first() {
            Some(first) => *first,
            None => place,
        }
    }
}
