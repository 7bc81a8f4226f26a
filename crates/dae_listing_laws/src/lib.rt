// Laws of listings: the listing of an image is an assembly text that says this image, and it is at
// most five times as long.
#![tactic(auto)]

ghost use Rattle.std.specs.Prelude.{◌≤◌, ◌*◌, ℕ, List, length};
ghost use Rattle.dae_image.specs.declared.Image.{Image};
ghost use Rattle.dae_image.specs.Images.{contents};
ghost use Rattle.dae_image.specs.Spelling.{Spells};
ghost use Rattle.dae_asm.specs.Assembly.{Asm};
ghost use Rattle.dae_listing.specs.Canon.{canon};

/// The listing of each image is an assembly text that says this image.
pub fn listings_are_read()
    ensures { (image : Image) → Asm (canon (contents image)) image }
{}

/// A listing has at most five times as many bytes as any spelling of its image.
pub fn listings_are_short()
    ensures { (image : Image) (bytes : List ℕ) → Spells bytes (contents image)
        → length (canon (contents image)) ≤ 5 * length bytes }
{}
