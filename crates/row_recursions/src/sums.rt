//! Sums of rows.
ghost use Rattle.std.specs.Prelude.{◌≡◌, ◌^◌, length};
ghost use Rattle.exact_math.specs.Ends.{add_box};
ghost use Rattle.row_recursions.specs.Rows.{row_of, RowsAdd, HasPart};
ghost use Rattle.row_recursions.specs.Sizes.{RowWithin};

use complex_box::CBox;

/// Adds a row to another of its length, box by box. Condition: all ends of the sums are at most 2^126 in size.
pub fn add_row(into: &mut [CBox], part: &[CBox])
    requires len { length part.now ≡ length into.old }
    requires fits { RowWithin (length into.old) (2 ^ 126) (λ k. add_box (row_of into.old k) (row_of part.now k)) }
    ensures len { length into.new ≡ length into.old }
    ensures adds { RowsAdd (length into.old) (row_of into.old) (row_of part.now) (row_of into.new) }
{
    for k in 0..into.len() {
        into[k] = into[k].add(part[k]);
    }
}

/// Takes a row away from a sum of its length, box by box. Condition: the sum has it as a part. It undoes `add_row`.
pub fn take_row(into: &mut [CBox], part: &[CBox])
    requires len { length part.now ≡ length into.old }
    requires part { HasPart (length into.old) (row_of into.old) (row_of part.now) }
    ensures len { length into.new ≡ length into.old }
    ensures adds { RowsAdd (length into.old) (row_of into.new) (row_of part.now) (row_of into.old) }
{
    for k in 0..into.len() {
        into[k] = into[k].take(part[k]);
    }
}
