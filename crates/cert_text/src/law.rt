//! Laws of the text. These functions do nothing; their contracts are the laws.
ghost use Rattle.std.specs.Prelude.{◌≡◌, ◌++◌, ℕ, List, []};
ghost use Rattle.cert_text.specs.Certificate.{Certificate, SpellsCert};
ghost use Rattle.cert_text.specs.Faults.{FirstCertFault};
ghost use Rattle.cert_text.specs.declared.fault.CertKind.{CertKind};

/// No bytes spell two certificates, have two first faults, or spell a certificate and have a fault. Nothing stands behind a certificate: so no part
/// of one from its front is one, but the whole.
pub fn one_reading()
    ensures certificate { (bytes : List ℕ) (c other : Certificate) → SpellsCert bytes c → SpellsCert bytes other → c ≡ other }
    ensures line { (bytes : List ℕ) (number other : ℕ) (kind what : CertKind) →
        FirstCertFault bytes number kind → FirstCertFault bytes other what → number ≡ other }
    ensures kind { (bytes : List ℕ) (number other : ℕ) (kind what : CertKind) →
        FirstCertFault bytes number kind → FirstCertFault bytes other what → kind ≡ what }
    ensures never_both { (bytes : List ℕ) (c : Certificate) (number : ℕ) (kind : CertKind) →
        SpellsCert bytes c → FirstCertFault bytes number kind → ⊥ }
    ensures whole { (bytes rest : List ℕ) (c other : Certificate) → SpellsCert bytes c → SpellsCert (bytes ++ rest) other → rest ≡ [] }
{}
