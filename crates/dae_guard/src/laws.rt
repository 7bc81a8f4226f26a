// The laws of the walk: one step of it, and what a walk that ends well shows.
ghost use Rattle.std.specs.Prelude.{◌≡◌, List, Some};
ghost use Rattle.dae_base.specs.declared.Depths.{Depths};
ghost use Rattle.dae_image.specs.declared.Image.{Image};
ghost use Rattle.dae_machine.specs.Machine.{State};
ghost use Rattle.dae_guard.specs.Moves.{Terms, next_nodes};
ghost use Rattle.dae_guard.specs.Never.{NeverStuck};
ghost use Rattle.dae_certificate.specs.declared.CertificateNode.{CertificateNode};
ghost use Rattle.dae_guard.specs.Sets.{Node};
ghost use Rattle.dae_guard.specs.StandsFor.{Advances, CodesFit, StandsFor};
ghost use Rattle.dae_guard.specs.Walk.{guarded, Yes};

/// A node that gives nodes has a pick that is enabled in each state that it stands for, and one of the nodes stands for
/// the state after it.
pub fn one_step_is_sound()
    ensures { (t : Terms) (n : Node) (s : State) (ns : List Node) → CodesFit t
        → next_nodes t n ≡ Some ns → StandsFor t n s → Advances t s ns }
{}

/// Where the walks from the opened node and from each node of a certificate end well, no run is stuck, whatever common
/// memory holds.
pub fn walks_guard()
    ensures { (image : Image) (depths : Depths) (certificate : List CertificateNode)
        → guarded image depths certificate ≡ Yes → NeverStuck image depths }
{}
