// At most one answer is due.

ghost use Rattle.std.specs.Prelude.{◌≡◌, List};
ghost use Rattle.dae_tree.specs.Files.{FileContents};
ghost use Rattle.dae_tree.specs.FileViews.{view_externals};
ghost use Rattle.dae_tree.specs.Reading.{Reading};
ghost use Rattle.dae_tree.specs.Trees.{External};
ghost use Rattle.dae_parse.specs.Parsed.{IsFileOf, IsWithinLimits, IsRefused, AreAlike, IsCause};
ghost use Rattle.dae_parse.specs.declared.error.ParseError.{ParseError};

/// At most one answer but want of memory is due of what is read of a text: one tree, or a refusal of one kind and one place.
pub fn one_answer_is_due()
    ensures tree { (r : Reading) (f g : FileContents) → IsFileOf r f → IsFileOf r g
        → view_externals f.externals ≡ view_externals g.externals }
    ensures refused { (r : Reading) (file : List External) (e : ParseError)
        → IsWithinLimits r.tokens file → IsCause e → ¬ IsRefused r e }
    ensures once { (r : Reading) (d e : ParseError) → IsRefused r d → IsRefused r e → AreAlike d e }
{}
