//! Laws of the text. These functions do nothing; their contracts are the laws.
ghost use Rattle.std.specs.Prelude.{◌≡◌, ℕ, List};
ghost use Rattle.points.specs.declared.Points.{Points};
ghost use Rattle.particle_text.specs.declared.TextKind.{TextKind};
ghost use Rattle.particle_text.specs.Faults.{FirstFault};
ghost use Rattle.points.specs.Limits.{WithinLimits};
ghost use Rattle.particle_text.specs.Text.{Spells, text_of};

/// No text spells two lists, each with its version and mode, has two first faults, or spells a list and has a fault.
pub fn one_reading()
    ensures points { (bytes : List ℕ) (points other : Points) → Spells bytes points → Spells bytes other → points ≡ other }
    ensures line { (bytes : List ℕ) (line other : ℕ) (kind what : TextKind) →
        FirstFault bytes line kind → FirstFault bytes other what → line ≡ other }
    ensures kind { (bytes : List ℕ) (line other : ℕ) (kind what : TextKind) →
        FirstFault bytes line kind → FirstFault bytes other what → kind ≡ what }
    ensures never_both { (bytes : List ℕ) (points : Points) (line : ℕ) (kind : TextKind) →
        Spells bytes points → FirstFault bytes line kind → ⊥ }
{}

/// A list within the limits has one text: `text_of` gives it.
pub fn one_text()
    ensures text { (points : Points) → WithinLimits points → Spells (text_of points) points }
    ensures only { (bytes : List ℕ) (points : Points) → Spells bytes points → bytes ≡ text_of points }
{}
