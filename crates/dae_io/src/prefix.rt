// First bytes.
ghost use Rattle.std.specs.Prelude.{◌≡◌, ◌≤◌, length, take};

/// The first `most` bytes, or all where there are fewer.
pub(crate) fn first_bytes(bytes: &[u8], most: usize) -> &[u8]
    ensures same { result.now ≡ take most bytes.now }
    ensures short { length result.now ≤ most }
{
    if most < bytes.len() {
        &bytes[..most]
    } else {
        bytes
    }
}
