// Ranges of addresses: whether their bytes lie where they may, and whether two of them have a byte in common.
ghost use Rattle.std.specs.Prelude.{◌≡◌};
ghost use Rattle.dae_base.specs.Words.{size};
ghost use Rattle.dae_ranges.specs.Ranges.{each, fits_at, meet};

use crate::Range;
use dae_base::Width;

/// Whether two ranges of addresses, each with a width, may share a byte.
pub fn meet(x: Range, wx: Width, y: Range, wy: Width) -> bool
    ensures { result ≡ meet x wx y wy }
{
    u128::from(x.lo) < u128::from(y.highest()) + u128::from(wy.bytes())
        && u128::from(y.lo) < u128::from(x.highest()) + u128::from(wx.bytes())
}

/// Whether each address is a multiple of its width, with its bytes from low to just below high.
#[tactic(auto, using(crate::proofs::Closed::all_fit))]
pub fn all_fit(low: u32, high: u32, width: Width, addresses: Range) -> bool
    ensures { result ≡ each (fits_at low high (size width)) addresses }
{
    let size = u32::from(width.bytes());
    addresses.lo % size == 0
        && (addresses.count == 0 || addresses.step % size == 0)
        && low <= addresses.lo
        && u128::from(addresses.highest()) + u128::from(size) <= u128::from(high)
}
