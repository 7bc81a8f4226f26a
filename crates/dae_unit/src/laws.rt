// What the joining of files depends on.

ghost use Rattle.dae_unit.specs.Outlines.{OutlinesTellCauses};

/// Why files don't join depends neither on what their objects hold nor on bodies.
pub fn outlines_tell_causes()
    ensures { OutlinesTellCauses }
{}
