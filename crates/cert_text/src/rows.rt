//! Rows of boxes that stand end to end in one vector.
ghost use Rattle.std.specs.Prelude.{◌≡◌, ◌<◌, [], ◌∷◌, ◌++◌, List, length, OnOk, OnErr};
ghost use Rattle.complex_box.specs.declared.CBox.{CBox};
ghost use Rattle.cert_text.specs.Rows.{AreBoxEnds, numbers_of, row_at};

use complex_box::CBox;
use fixed_interval::Interval;
use std::alloc::{AllocError, Global};
use std::marker::Model;

/// Where a row stands.
#[derive(Clone, Copy)]
pub(crate) struct Range {
    pub(crate) from: usize,
    pub(crate) to: usize,
}

/// Rows of boxes that stand end to end in one vector, each seen as the numbers that it was made of.
#[derive(Drop)]
pub(crate) struct Rows {
    boxes: Vec<CBox>,
    ranges: Vec<Range>,
}

impl Model for Rows {
    ghost use Rattle.std.specs.Prelude.{ℤ, List};
    ghost use Rattle.cert_text.specs.Rows.{rows_in, AreRowRanges};

    ghost Value = { List (List ℤ) };

    ghost view = { λ r. rows_in r.boxes.items r.ranges.items };

    ghost invariant = { λ r. AreRowRanges r.boxes.items r.ranges.items };
}

/// Appends the boxes that these numbers make, four by four.
fn push_boxes(boxes: &mut Vec<CBox>, numbers: &[i128]) -> Result<(), AllocError>
    requires { AreBoxEnds numbers.now }
    ensures { (more : List CBox) × (boxes.new.items ≡ boxes.old.items ++ more) × OnOk result (numbers_of more ≡ numbers.now) }
{
    let mut rest = numbers;
    while let [left, right, low, high, more @ ..] = rest {
        boxes.push(CBox {
            re: Interval::new(*left, *right),
            im: Interval::new(*low, *high),
        })?;
        rest = more;
    }
    Ok(())
}

impl Rows {
    /// No rows. It takes no memory.
    pub(crate) fn new(alloc: Global) -> Rows
        ensures { result ≡ [] }
    {
        Rows {
            boxes: Vec::new(alloc),
            ranges: Vec::new(alloc),
        }
    }

    /// Takes the memory for so many rows with so many boxes together.
    pub(crate) fn make_room(&mut self, rows: usize, boxes: usize) -> Result<(), AllocError>
        ensures { self.new ≡ self.old }
    {
        self.ranges.reserve(rows)?;
        self.boxes.reserve(boxes)
    }

    /// Appends the row of boxes that these numbers make, four by four.
    pub(crate) fn push(&mut self, numbers: &[i128]) -> Result<(), AllocError>
        requires { AreBoxEnds numbers.now }
        ensures pushed { OnOk result (self.new ≡ self.old ++ numbers.now ∷ []) }
        ensures kept { OnErr result (self.new ≡ self.old) }
    {
        self.ranges.reserve(1)?;
        let from = self.boxes.len();
        push_boxes(&mut self.boxes, numbers)?;
        let to = self.boxes.len();
        self.ranges.push_reserved(Range { from, to });
        Ok(())
    }

    /// The row of a number.
    pub(crate) fn row(&self, n: usize) -> &[CBox]
        requires { n < length self.now }
        ensures { numbers_of result.now ≡ row_at self.now n }
    {
        let range = self.ranges[n];
        &self.boxes[range.from..range.to]
    }
}
