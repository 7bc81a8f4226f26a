// The kinds of actions that queues are for.

ghost use Rattle.std.specs.Prelude.{◌≡◌};
ghost use Rattle.dae_split_pair.specs.Kinds.{is_counted, is_wanted, is_wanted_branch};

use dae_ir::{Action, Branch};

/// What is counted in groups.
#[derive(Clone, Copy)]
pub enum Counted {
    Loads,
    Copies,
}

/// What stands or doesn't: a load of A's own, a store's address, a store's datum, or a message.
#[derive(Clone, Copy)]
pub enum Wanted {
    OwnLoad,
    StoreAddress,
    StoreDatum,
    Message,
}

/// Whether an action is of the kind.
pub fn is_counted(kind: Counted, action: &Action) -> bool
    ensures { result ≡ is_counted kind action.now }
{
    match kind {
        Counted::Loads => matches!(action, Action::Issue(_, _)),
        Counted::Copies => matches!(action, Action::Offer(_)),
    }
}

/// Whether an action is of the kind.
pub fn is_wanted(kind: Wanted, action: &Action) -> bool
    ensures { result ≡ is_wanted kind action.now }
{
    match kind {
        Wanted::OwnLoad => matches!(action, Action::Own(_, _, _)),
        Wanted::StoreAddress => matches!(action, Action::Address(_, _)),
        Wanted::StoreDatum => matches!(action, Action::Datum(_)),
        Wanted::Message => matches!(action, Action::Probe(_) | Action::Tell(_)),
    }
}

/// Whether a branch is of the kind.
pub fn is_wanted_branch(kind: Wanted, branch: Branch) -> bool
    ensures { result ≡ is_wanted_branch kind branch }
{
    match kind {
        Wanted::Message => matches!(branch, Branch::Tells(_)),
        _ => false,
    }
}
