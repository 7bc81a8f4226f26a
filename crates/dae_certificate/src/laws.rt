// The law of certificates: a text has one answer.
ghost use Rattle.std.specs.Prelude.{◌≡◌, ℕ, List};
ghost use Rattle.dae_certificate.specs.Certificates.{Certifies, IsBadLine};
ghost use Rattle.dae_certificate.specs.declared.CertificateNode.{CertificateNode};

/// A text certifies one list of nodes, or one of its lines is the first that may not stand there.
pub fn a_text_has_one_answer()
    ensures nodes { (text : List ℕ) (ns ms : List CertificateNode)
        → Certifies text ns → Certifies text ms → ns ≡ ms }
    ensures line { (text : List ℕ) (k j : ℕ) → IsBadLine text k → IsBadLine text j → k ≡ j }
    ensures either { (text : List ℕ) (ns : List CertificateNode) (k : ℕ)
        → Certifies text ns → IsBadLine text k → ⊥ }
{}
