// The laws of what is live.

ghost use Rattle.dae_select_walks.specs.Laws.{LiveHasPath, LiveIsSet, PathIsLive, TurnsAgain};

/// A variable is live exactly where some path reads it before it sets it. Round a loop one pass finds all. Where a stream
/// sets each variable before it reads it, only what was set before is live.
pub fn live_is_read()
    ensures path { LiveHasPath }
    ensures live { PathIsLive }
    ensures again { TurnsAgain }
    ensures set { LiveIsSet }
{}
