//! Whether a row lies in another.
ghost use Rattle.std.specs.Prelude.{◌≡◌, IsTrue, ◌↔◌, length};
ghost use Rattle.row_recursions.specs.Rows.{row_of};
ghost use Rattle.soundness.specs.Rules.{RowInside};

use complex_box::CBox;

/// True exactly where each box of a row lies in that of another of its length.
pub(crate) fn row_inside(inner: &[CBox], outer: &[CBox]) -> bool
    requires len { length outer.now ≡ length inner.now }
    ensures { IsTrue result ↔ RowInside (length inner.now) (row_of inner.now) (row_of outer.now) }
{
    for k in 0..inner.len() {
        if !inner[k].inside(outer[k]) {
            return false;
        }
    }
    true
}
