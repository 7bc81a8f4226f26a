// What takes bytes: the trait of sinks, and what each tells and counts.
ghost use Rattle.std.specs.Prelude.{OnOk, OnErr};
ghost use Rattle.dae_io.specs.Sinks.{SinkState, IsPut, IsPutFailed};

/// A piece was not taken whole: the sink failed, and counted that.
#[derive(Clone, Copy, PartialEq, Eq, Debug)]
pub struct SinkFailed;

/// Takes bytes, piece by piece. A sink may tell what it has taken; it counts its faults, up to 2^64 - 1.
pub trait Sink {
    ghost seen: { Self → SinkState };

    /// Takes a piece whole, or fails and has taken some first bytes of it, or none.
    fn put(&mut self, bytes: &[u8]) -> Result<(), SinkFailed>
        ensures whole { OnOk result (IsPut bytes.now (seen self.old) (seen self.new)) }
        ensures part { OnErr result (IsPutFailed bytes.now (seen self.old) (seen self.new)) };
}
