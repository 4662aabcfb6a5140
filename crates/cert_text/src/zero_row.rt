//! The zero row, which is kept once for all rows that are given by `-`.
ghost use Rattle.std.specs.Prelude.{◌≡◌, ◌≤◌, ℕ, length};
ghost use Rattle.cert_text.specs.Rows.{AreZeros, HasRowLength};
ghost use Rattle.row_recursions.specs.Rows.{row_of};

use complex_box::CBox;

/// The longest row.
const MOST_ORDER: usize = 32;

/// The zero row of the greatest order.
#[derive(Drop)]
pub(crate) struct ZeroRow {
    boxes: [CBox; MOST_ORDER],
    ghost zeros: { AreZeros boxes },
}

impl ZeroRow {
    /// The zero row. It takes no memory.
    pub(crate) fn new() -> ZeroRow {
        ZeroRow {
            boxes: [CBox::zero(); MOST_ORDER],
        }
    }

    /// The row, or the zero row of this order where it has no boxes. Condition: the order is at most 32, and it is the length of a row that has some.
    pub(crate) fn unless<'a>(&'a self, row: &'a [CBox], order: u32) -> &'a [CBox]
        requires order { order ≤ 32 }
        requires len { HasRowLength order row.now }
        ensures len { length result.now ≡ order }
        ensures row { (k : ℕ) → row_of result.now k ≡ row_of row.now k }
    {
        if row.is_empty() {
            &self.boxes[..order as usize]
        } else {
            row
        }
    }
}
