// Laws of what is due.
ghost use Rattle.std.specs.Prelude.{◌≡◌, ◌≢◌};
ghost use Rattle.dae_image.specs.declared.Image.{Image};
ghost use Rattle.dae_cli_options.specs.declared.options.RunOptions.{RunOptions};
ghost use Rattle.dae_cli_drive.specs.Puts.{Answer};
ghost use Rattle.dae_cli_drive.specs.Images.{DueOfImage};

/// For an image and its options at most one answer is due, but for want of memory.
pub fn one_answer()
    ensures { (image : Image) (o : RunOptions) (a b : Answer)
        → DueOfImage image o a → DueOfImage image o b → a.status ≢ 7 → b.status ≢ 7 → a ≡ b }
{}
