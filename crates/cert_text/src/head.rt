//! Reading line 1.
ghost use Rattle.std.specs.Prelude.{◌≡◌, ◌≢◌, ℕ, suc, ℤ, pos, [], ◌∷◌, IfSome, IfNone, IfOk, IfErr};
ghost use Rattle.limits.specs.Limits.{IsGrid, IsVersion, grid_of};
ghost use Rattle.points.specs.Limits.{IsOrderOf};
ghost use Rattle.cert_text.specs.Faults.{BeginWith, HeadFault};
ghost use Rattle.cert_text.specs.Lines.{cert_head_line};
ghost use Rattle.cert_text.specs.Inside.{head_of};
ghost use Rattle.cert_text.specs.Private.{counts_read, lines_due};
ghost use Rattle.cert_text.specs.Sections.{AreCounts, IsNumberBelow, IsHead};

use crate::form::{MOST_NUMBERS, read_word};
use crate::stored::Header;
use crate::{CertKind, Section};
use limits::{grid_of, most_cells, most_entries, most_order, most_points};

/// The version that the number is.
fn version_of(number: i128) -> Option<u8>
    ensures some { IfSome result (λ version. IsVersion version × (number ≡ pos version)) }
    ensures none { IfNone result ((version : ℕ) → IsVersion version → number ≢ pos version) }
{
    match number {
        1 => Some(1),
        2 => Some(2),
        _ => None,
    }
}

/// The order of a certificate of the grid's version that the number is.
fn order_of(grid: u8, number: i128) -> Option<u32>
    requires { IsGrid grid }
    ensures some { IfSome result (λ order. IsOrderOf grid order × (number ≡ pos order)) }
    ensures none { IfNone result ((order : ℕ) → IsOrderOf grid order → number ≢ pos order) }
{
    match number {
        4 => Some(4),
        8 => Some(8),
        16 => Some(16),
        24 => Some(24),
        32 if most_order(grid) == 32 => Some(32),
        _ => None,
    }
}

/// The count that the number is, at most `most`.
fn count_of(most: u64, number: i128) -> Option<u64>
    ensures some { IfSome result (λ count. IsNumberBelow (suc most) number × (number ≡ pos count)) }
    ensures none { IfNone result (IsNumberBelow (suc most) number → ⊥) }
{
    if 0 <= number && number <= i128::from(most) {
        Some(number as u64)
    } else {
        None
    }
}

/// The counts of points, targets, cells and entries that the numbers are.
fn counts_of(
    grid: u8,
    points: i128,
    targets: i128,
    cells: i128,
    entries: i128,
) -> Option<(u64, u64, u64, u64)>
    ensures range { IfSome result (λ counts. AreCounts grid (counts_read counts)) }
    ensures some { IfSome result (λ counts. (points ∷ targets ∷ cells ∷ entries ∷ []) ≡ counts_read counts) }
    ensures none { IfNone result (AreCounts grid (points ∷ targets ∷ cells ∷ entries ∷ []) → ⊥) }
{
    let most = most_points(grid);
    let points = count_of(most, points)?;
    let targets = count_of(most, targets)?;
    let cells = count_of(most_cells(grid), cells)?;
    let entries = count_of(most_entries(grid), entries)?;
    Some((points, targets, cells, entries))
}

/// Line 1, and what stands behind it; or what is wrong with it.
pub(crate) fn read_head(bytes: &[u8]) -> Result<(Header, &[u8]), CertKind>
    ensures head { IfOk result (λ found. IsHead (head_of found.0)) }
    ensures begin { IfOk result (λ found. BeginWith bytes.now (cert_head_line (head_of found.0)) found.1.now) }
    ensures fault { IfErr result (HeadFault bytes.now) }
{
    let mut numbers = [0; MOST_NUMBERS];
    let Some(found) = read_word(b"fmmcert", 6, bytes, &mut numbers) else {
        return Err(CertKind::Syntax);
    };
    let Some(version) = version_of(numbers[0]) else {
        return Err(CertKind::Syntax);
    };
    let grid = grid_of(version);
    let Some(order) = order_of(grid, numbers[1]) else {
        return Err(CertKind::Syntax);
    };
    let Some((points, targets, cells, entries)) = counts_of(
        grid, numbers[2], numbers[3], numbers[4], numbers[5],
    ) else {
        return Err(CertKind::Range);
    };
    let head = Header {
        version,
        order,
        points,
        targets,
        cells,
        entries,
    };
    Ok((head, found.rest))
}

impl Header {
    /// How many lines are kept of the section: the last line says nothing.
    pub(crate) fn lines(&self, section: Section) -> u64
        ensures { result ≡ lines_due (head_of self.now) section }
    {
        match section {
            Section::Node | Section::Multipole | Section::Local => self.cells,
            Section::At => self.points,
            Section::Entry => self.entries,
            Section::Target => self.targets,
            Section::End => 0,
        }
    }
}
