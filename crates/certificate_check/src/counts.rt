//! The counts of line 1.
ghost use Rattle.std.specs.Prelude.{◌≡◌, ◌<◌, ◌^◌};
ghost use Rattle.certificate_check.specs.Failures.{IsSmall};

use cert_text::Cert;

/// How many points, targets, cells and entries line 1 counts.
#[derive(Clone, Copy)]
pub(crate) struct LineCounts {
    pub(crate) points: u64,
    pub(crate) targets: u64,
    pub(crate) cells: u64,
    pub(crate) entries: u64,
}

/// The counts of line 1, which are all far below what a number holds.
pub(crate) fn line_counts(cert: &Cert) -> LineCounts
    ensures points { result.points ≡ cert.now.head.points }
    ensures targets { result.targets ≡ cert.now.head.targets }
    ensures cells { result.cells ≡ cert.now.head.cells }
    ensures entries { result.entries ≡ cert.now.head.entries }
    ensures small { IsSmall cert.now.head }
{
    let _certificate = cert.version();
    LineCounts {
        points: cert.points(),
        targets: cert.targets(),
        cells: cert.cells(),
        entries: cert.entries(),
    }
}
