// Laws of assembly texts: a text says one image or has one fault.
#![tactic(auto)]

ghost use Rattle.std.specs.Prelude.{◌≡◌, ◌≢◌, List, ℕ};
ghost use Rattle.dae_image.specs.declared.Image.{Image};
ghost use Rattle.dae_asm.specs.Assembly.{Asm, IsCauseOf};
ghost use Rattle.dae_asm.specs.declared.errors.AsmError.{AsmError};
ghost use Rattle.dae_asm.specs.declared.errors.AsmError.TheVariants as errors;

/// A text says at most one image.
pub fn one_image()
    ensures { (text : List ℕ) (i j : Image) → Asm text i → Asm text j → i ≡ j }
{}

/// A text says no image for at most one reason, but for want of memory.
pub fn one_cause()
    ensures { (text : List ℕ) (e f : AsmError) → IsCauseOf text e → IsCauseOf text f
        → e ≢ errors.Memory → f ≢ errors.Memory → e ≡ f }
{}

/// A text that says an image has no fault.
pub fn no_cause()
    ensures { (text : List ℕ) (i : Image) (e : AsmError) → Asm text i → IsCauseOf text e
        → e ≡ errors.Memory }
{}
