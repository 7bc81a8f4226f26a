// The lists by which the objects in memory know which of their calls are to fail.
ghost use Rattle.std.specs.Prelude.{◌≡◌};
ghost use Rattle.dae_io.specs.Failing.{failing_at};

/// A call that is to fail: its number, counted from 1 over all calls of its object, and how many bytes it takes at most.
#[derive(Clone, Copy, PartialEq, Eq, Debug)]
pub struct FailingCall {
    pub call: u64,
    pub taken: usize,
}

/// How many bytes the call with this number takes at most, where it is listed as failing.
pub(crate) fn failing_at(failing: &[FailingCall], call: u64) -> Option<usize>
    ensures { result ≡ failing_at failing.now call }
{
    failing.iter().find(|f| f.call == call).map(|f| f.taken)
}
