//! The truncation bound of the expansions, in whole numbers: what the cut terms of order `P` leave of the terms of the direct sum, for one
//! source and for all sources of an entry. Nothing here runs: each law is the contract of a function with an empty body.
//!
//! A doubled offset is twice the offset of a place from a centre. Bounds count units of 2^-40. The weight of a pole `a` is `|a|`, that of
//! a dipole `b` is `2 P |b|`, with `|re| + |im|` for the size of a complex number. `TV(P)` begins at 2^41 and becomes `ceil(17 t/31)`,
//! `TW(P)` begins at 2^40 and becomes `ceil(17 t/36)`, `P` times. The bounds are this project's own; they go from the finite identity of
//! the truncated kernel and from the finite geometric sum, without limits.
#![tactic(auto)]

ghost use Rattle.std.specs.Int.{div_ceil};
ghost use Rattle.std.specs.Prelude.{ℕ, ◌≤◌};
ghost use Rattle.truncation.specs.Entries.{PairEntries, MultipoleEntries, LocalEntries};
ghost use Rattle.truncation.specs.Truncation.{PairTruncation, SingleTruncation, MakesUp};

/// Two cells of one side `s`, their centres `e` sides apart with a part of `e` at least 2 in size: the term of one source minus its cut
/// term of order `P >= 1` is, in each part, at most weight times `TV(P)/s` in size. It holds at all doubled offsets whose parts are at
/// most `s`, whatever their parity.
///
/// Where 17/31 comes from: an offset is at most `s/sqrt 2` and the centres are at least `2 s` apart, so both ratios of the expansion are
/// at most `sqrt 2/4 < 17/48`, and `17/48` over `1 - 17/48` is `17/31`. The remainder of the truncated kernel is at most `2 (17/31)^P`.
pub fn pair_truncation()
    ensures bound { PairTruncation }
{}

/// A cell of side `s` and a place whose doubled offset from its centre has a part of at least `3 s`: the same with `TW(P)`, at every
/// order from 2 on, for a far target (multipole) and for a far source (local).
///
/// Where 17/36 comes from: the far place is at least `3 s/2` from the centre and an offset at most `s/sqrt 2`, so the ratio of the
/// geometric sum is at most `sqrt 2/3 < 17/36`.
pub fn single_truncation()
    ensures bound { SingleTruncation }
{}

/// All sources of an entry together, seen from one target: each part of the exact sum minus the sum of the cut terms is at most the total
/// weight times the tail over the side in size, for two cells of one side, for a far target and for far sources.
pub fn entry_truncation()
    ensures pairs { PairEntries }
    ensures multipoles { MultipoleEntries }
    ensures locals { LocalEntries }
{}

/// A bound of `loss/s` units of 2^-40, rounded up to a whole unit, makes up for what is cut off.
pub fn radius_widens()
    ensures { (loss s : ℕ) → 1 ≤ s → MakesUp loss s (div_ceil loss s) }
{}
