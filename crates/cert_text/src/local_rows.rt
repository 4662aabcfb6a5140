//! Local rows, each with its radius.
ghost use Rattle.std.specs.Prelude.{◌≡◌, ◌<◌, [], ◌∷◌, ◌++◌, length, drop, OnOk, OnErr};
ghost use Rattle.cert_text.specs.Certificate.{nth_number};
ghost use Rattle.cert_text.specs.Rows.{AreBoxEnds, AreLocalNumbers, local_numbers, numbers_of, row_at};

use crate::rows::Rows;
use complex_box::CBox;
use std::alloc::{AllocError, Global};
use std::marker::Model;

/// Local rows and their radii, each seen as the numbers of its line: none for a zero row that is given by `-`, and else its radius before its ends.
#[derive(Drop)]
pub(crate) struct LocalRows {
    radii: Vec<i128>,
    rows: Rows,
}

impl Model for LocalRows {
    ghost use Rattle.std.specs.Prelude.{◌≡◌, ℤ, List, length};
    ghost use Rattle.cert_text.specs.Rows.{local_rows};

    ghost Value = { List (List ℤ) };

    ghost view = { λ l. local_rows l.radii.items l.rows };

    ghost invariant = { λ l. length l.radii.items ≡ length l.rows };
}

impl LocalRows {
    /// No rows. It takes no memory.
    pub(crate) fn new(alloc: Global) -> LocalRows
        ensures { result ≡ [] }
    {
        LocalRows {
            radii: Vec::new(alloc),
            rows: Rows::new(alloc),
        }
    }

    /// Takes the memory for so many rows with so many boxes together.
    pub(crate) fn make_room(&mut self, rows: usize, boxes: usize) -> Result<(), AllocError>
        ensures { self.new ≡ self.old }
    {
        self.radii.reserve(rows)?;
        self.rows.make_room(rows, boxes)
    }

    /// Appends a row and its radius; a row of no boxes has none.
    fn push_row(&mut self, radius: i128, ends: &[i128]) -> Result<(), AllocError>
        requires { AreBoxEnds ends.now }
        ensures pushed { OnOk result (self.new ≡ self.old ++ local_numbers radius ends.now ∷ []) }
        ensures kept { OnErr result (self.new ≡ self.old) }
    {
        self.radii.reserve(1)?;
        self.rows.push(ends)?;
        self.radii.push_reserved(radius);
        Ok(())
    }

    /// Appends the row of these numbers.
    pub(crate) fn push(&mut self, numbers: &[i128]) -> Result<(), AllocError>
        requires { AreLocalNumbers numbers.now }
        ensures pushed { OnOk result (self.new ≡ self.old ++ numbers.now ∷ []) }
        ensures kept { OnErr result (self.new ≡ self.old) }
    {
        match numbers {
            [] => self.push_row(0, &[]),
            [radius, ends @ ..] => self.push_row(*radius, ends),
        }
    }

    /// The boxes of the row of a number.
    pub(crate) fn row(&self, n: usize) -> &[CBox]
        requires { n < length self.now }
        ensures { numbers_of result.now ≡ drop 1 (row_at self.now n) }
    {
        self.rows.row(n)
    }

    /// The radius of the row of a number.
    pub(crate) fn radius(&self, n: usize) -> i128
        requires { n < length self.now }
        ensures { result ≡ nth_number (row_at self.now n) 0 }
    {
        if self.rows.row(n).is_empty() {
            0
        } else {
            self.radii[n]
        }
    }
}
