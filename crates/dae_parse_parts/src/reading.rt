// A part that was read, a node over it, parts side by side, and lists that grow by a part.
ghost use Rattle.std.specs.Prelude.{◌≡◌, ◌++◌, [], ◌∷◌, length, slice_get, Some, None, IfOk, IfErr, OnOk};
ghost use Rattle.dae_parse_grammar.specs.FirstPlaces.{Places, nowhere, both, over};
ghost use Rattle.dae_parse_parts.specs.Shown.{Holds, IsKept, IsFrom, IsPair, IsLonger, IsMade, box_value};

use crate::TreeDepths;
use dae_base::Place;
use std::alloc::{AllocError, Global};

/// A part that was read: its tree, where no node in it is too deep, and the places of its first nodes.
#[derive(Drop)]
pub struct Read<T> {
    pub tree: Option<T>,
    pub depths: TreeDepths,
}

/// A tree without nodes.
pub fn flat<T: Drop>(alloc: Global, tree: T) -> Read<T>
    ensures tree { result.tree ≡ Some tree }
    ensures places { Holds result nowhere }
{
    Read {
        tree: Some(tree),
        depths: TreeDepths::none(alloc),
    }
}

/// A node at this place over a part.
pub fn over<T: Drop>(place: Place, part: Read<T>) -> Result<Read<T>, AllocError>
    ensures { (f : Places) → Holds part f
        → IfOk result (λ r. Holds r (over place f) × IsFrom part.tree r.tree) }
{
    let Read { tree, depths } = part;
    let depths = depths.under(place)?;
    if depths.fits() {
        Ok(Read { tree, depths })
    } else {
        Ok(Read { tree: None, depths })
    }
}

/// Two parts, one behind the other.
pub fn beside<T: Drop, U: Drop>(left: Read<T>, right: Read<U>) -> Result<Read<(T, U)>, AllocError>
    ensures { (f g : Places) → Holds left f → Holds right g
        → IfOk result (λ r. Holds r (both f g) × IsPair left.tree right.tree r.tree) }
{
    let Read { tree, depths } = left;
    let Read {
        tree: other,
        depths: others,
    } = right;
    let depths = depths.combine(others)?;
    match (tree, other) {
        (Some(tree), Some(other)) => Ok(Read {
            tree: Some((tree, other)),
            depths,
        }),
        _ => Ok(Read { tree: None, depths }),
    }
}

/// A node at this place over a part, made of the part's tree, in a box.
pub fn node<T: Drop, N: Drop, F: FnOnce(T) -> N + Drop>(
    alloc: Global,
    place: Place,
    part: Read<T>,
    make: F,
) -> Result<Read<Box<N>>, AllocError>
    requires { F.IsAlwaysCallable make }
    ensures { (f : Places) → Holds part f
        → IfOk result
        (λ r. Holds r (over place f) × IsMade (F.post make) part.tree (box_value r.tree)) }
{
    let Read { tree, depths } = over(place, part)?;
    let tree = match tree {
        Some(part) => Some(Box::new(alloc, make(part))?),
        None => None,
    };
    Ok(Read { tree, depths })
}

/// A part whose tree is out of its box.
pub fn unbox<T: Drop>(part: Read<Box<T>>) -> Read<T>
    ensures tree { result.tree ≡ box_value part.tree }
    ensures depths { result.depths ≡ part.depths }
{
    let Read { tree, depths } = part;
    let tree = match tree {
        Some(tree) => Some(Box::into_inner(tree)),
        None => None,
    };
    Read { tree, depths }
}

/// Makes room for one item in a list that has none.
fn reserve_first<T>(list: &mut Vec<T>) -> Result<(), AllocError>
    ensures { list.new.items ≡ list.old.items }
{
    if list.is_empty() {
        list.reserve_exact(1)
    } else {
        Ok(())
    }
}

/// A list with an item behind the others. The first gets room for itself alone, since most lists have one item.
fn list_with<T: Drop>(list: Vec<T>, item: T) -> Result<Vec<T>, AllocError>
    ensures { IfOk result (λ v. v.items ≡ list.items ++ item ∷ []) }
{
    let mut list = list;
    reserve_first(&mut list)?;
    list.push(item)?;
    Ok(list)
}

/// A list with a tree more.
pub fn longer<T: Drop>(before: Read<Vec<T>>, item: Read<T>) -> Result<Read<Vec<T>>, AllocError>
    ensures { (f g : Places) → Holds before f → Holds item g
        → IfOk result (λ r. Holds r (both f g) × IsLonger before.tree item.tree r.tree) }
{
    let Read { tree, depths } = beside(before, item)?;
    match tree {
        Some((list, item)) => {
            let grown = list_with(list, item)?;
            Ok(Read {
                tree: Some(grown),
                depths,
            })
        }
        None => Ok(Read { tree: None, depths }),
    }
}

/// The tree of a part, or the place of its first node that is too deep.
pub fn tree_or_depth<T: Drop>(read: Read<T>) -> Result<T, Place>
    requires { IsKept read.tree (length read.depths.places.items) }
    ensures tree { IfOk result (λ t. read.tree ≡ Some t) }
    ensures shallow { OnOk result (slice_get read.depths.places.items 200 ≡ None) }
    ensures deep { IfErr result (λ p. slice_get read.depths.places.items 200 ≡ Some p) }
{
    let Read { tree, depths } = read;
    match tree {
        Some(tree) => Ok(tree),
        None => Err(depths.first_too_deep()),
    }
}
