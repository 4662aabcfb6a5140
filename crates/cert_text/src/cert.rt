//! Certificates as data.
ghost use Rattle.std.specs.Prelude.{◌≡◌, ℕ, suc, ◌<◌, ◌≤◌, pos, [], ◌∷◌, length, drop};
ghost use Rattle.complex_box.specs.Box.{BoxWithin, box_ends};
ghost use Rattle.limits.specs.Limits.{grid_of, most_given_local, most_given_multipole, most_given_target};
ghost use Rattle.points.specs.Limits.{IsOrderOf};
ghost use Rattle.row_recursions.specs.Rows.{row_of};
ghost use Rattle.row_recursions.specs.Sizes.{RowWithin};
ghost use Rattle.cert_text.specs.Certificate.{IsCertificate, nth_box, nth_line, nth_number};
ghost use Rattle.cert_text.specs.Lines.{letter_word};
ghost use Rattle.cert_text.specs.Sections.{AreOrderedEnds, IsNumberBelow, IsParentOf};

use crate::stored::Stored;
use crate::zero_row::ZeroRow;
use cell_name::Cell;
use complex_box::CBox;
use letters::Entry;
use limits::grid_of;
use std::marker::Model;

/// A certificate as data: its version and order, the nodes, the node of each point, the rows, the entries, and the boxes and counts of the targets.
///
/// Nodes, points, entries and targets go by their numbers, counted from 0. Ends and radii count units of 2^-40.
#[derive(Drop)]
pub struct Cert {
    stored: Stored,
    zeros: ZeroRow,
}

impl Model for Cert {
    ghost use Rattle.cert_text.specs.Certificate.{Certificate, IsCertificate};

    ghost Value = { Certificate };

    ghost view = { λ c. c.stored };

    ghost invariant = { λ c. IsCertificate c.stored };
}

impl Cert {
    /// The certificate of these lines.
    pub(crate) fn of(stored: Stored) -> Cert
        requires { IsCertificate stored }
        ensures { result ≡ stored }
    {
        Cert {
            stored,
            zeros: ZeroRow::new(),
        }
    }

    /// The version of the points.
    pub fn version(&self) -> u8
        ensures version { result ≡ self.now.head.version }
        ensures certificate { IsCertificate self.now }
    {
        let stored = &self.stored;
        stored.header.version
    }

    /// The order, with so many coefficients in each row.
    pub fn order(&self) -> u32
        ensures order { result ≡ self.now.head.order }
        ensures one_of { IsOrderOf (grid_of self.now.head.version) result }
    {
        let stored = &self.stored;
        stored.header.order
    }

    /// How many points there are.
    pub fn points(&self) -> u64
        ensures { result ≡ self.now.head.points }
    {
        let stored = &self.stored;
        stored.header.points
    }

    /// How many targets there are.
    pub fn targets(&self) -> u64
        ensures { result ≡ self.now.head.targets }
    {
        let stored = &self.stored;
        stored.header.targets
    }

    /// How many cells there are.
    pub fn cells(&self) -> u64
        ensures { result ≡ self.now.head.cells }
    {
        let stored = &self.stored;
        stored.header.cells
    }

    /// How many entries there are.
    pub fn entries(&self) -> u64
        ensures { result ≡ self.now.head.entries }
    {
        let stored = &self.stored;
        stored.header.entries
    }

    /// The parent and the cell of a node. Condition: the node is one of the cells.
    pub fn node(&self, n: usize) -> (usize, Cell)
        requires { n < self.now.head.cells }
        ensures numbers { (nth_line self.now.nodes n).numbers ≡ pos result.0 ∷ pos result.1.level ∷ pos result.1.i ∷ pos result.1.j ∷ [] }
        ensures parent { IsParentOf n (pos result.0) }
        ensures grid { result.1.grid ≡ grid_of self.now.head.version }
    {
        let stored = &self.stored;
        let node = stored.nodes[n];
        (
            node.parent,
            Cell {
                level: node.level,
                i: node.i,
                j: node.j,
                grid: grid_of(stored.header.version),
            },
        )
    }

    /// The node that a point is in. Condition: it is one of the points.
    pub fn at(&self, k: usize) -> usize
        requires { k < self.now.head.points }
        ensures number { (nth_line self.now.ats k).numbers ≡ pos result ∷ [] }
        ensures node { result < self.now.head.cells }
    {
        let stored = &self.stored;
        stored.ats[k] as usize
    }

    /// The multipole row of a node, one box for each coefficient. Condition: the node is one of the cells.
    pub fn multipole_row(&self, n: usize) -> &[CBox]
        requires { n < self.now.head.cells }
        ensures len { length result.now ≡ self.now.head.order }
        ensures row { (k : ℕ) → k < self.now.head.order → row_of result.now k ≡ nth_box (nth_line self.now.multipoles n).numbers k }
        ensures size { RowWithin self.now.head.order most_given_multipole (row_of result.now) }
    {
        let stored = &self.stored;
        self.zeros
            .unless(stored.multipoles.row(n), stored.header.order)
    }

    /// The local row of a node, one box for each coefficient. Condition: the node is one of the cells.
    pub fn local_row(&self, n: usize) -> &[CBox]
        requires { n < self.now.head.cells }
        ensures len { length result.now ≡ self.now.head.order }
        ensures row { (k : ℕ) → k < self.now.head.order → row_of result.now k ≡ nth_box (drop 1 (nth_line self.now.locals n).numbers) k }
        ensures size { RowWithin self.now.head.order most_given_local (row_of result.now) }
    {
        let stored = &self.stored;
        self.zeros.unless(stored.locals.row(n), stored.header.order)
    }

    /// Coefficient `k` of the multipole row of a node. Conditions: the node is one of the cells, and `k` is below the order.
    pub fn up(&self, n: usize, k: usize) -> CBox
        requires node { n < self.now.head.cells }
        requires coefficient { k < self.now.head.order }
        ensures ends { box_ends result ≡ nth_box (nth_line self.now.multipoles n).numbers k }
        ensures size { BoxWithin most_given_multipole result }
    {
        self.multipole_row(n)[k]
    }

    /// Coefficient `k` of the local row of a node. Conditions: the node is one of the cells, and `k` is below the order.
    pub fn local(&self, n: usize, k: usize) -> CBox
        requires node { n < self.now.head.cells }
        requires coefficient { k < self.now.head.order }
        ensures ends { box_ends result ≡ nth_box (drop 1 (nth_line self.now.locals n).numbers) k }
        ensures size { BoxWithin most_given_local result }
    {
        self.local_row(n)[k]
    }

    /// The radius of a node. Condition: the node is one of the cells.
    pub fn radius(&self, n: usize) -> i128
        requires { n < self.now.head.cells }
        ensures number { result ≡ nth_number (nth_line self.now.locals n).numbers 0 }
        ensures size { IsNumberBelow (suc most_given_local) result }
    {
        let stored = &self.stored;
        stored.locals.radius(n)
    }

    /// An entry of the lists. Condition: it is one of the entries.
    pub fn entry(&self, e: usize) -> Entry
        requires { e < self.now.head.entries }
        ensures letter { (nth_line self.now.entries e).word ≡ letter_word result.letter }
        ensures numbers { (nth_line self.now.entries e).numbers ≡ pos result.b ∷ pos result.c ∷ [] }
        ensures b { result.b < self.now.head.cells }
        ensures c { result.c < self.now.head.cells }
    {
        let stored = &self.stored;
        stored.entries[e]
    }

    /// The box of a target. Condition: it is one of the targets.
    pub fn target(&self, k: usize) -> CBox
        requires { k < self.now.head.targets }
        ensures ends { box_ends result ≡ nth_box (nth_line self.now.targets k).numbers 0 }
        ensures size { BoxWithin (most_given_target (grid_of self.now.head.version)) result }
    {
        let stored = &self.stored;
        stored.targets.row(k)[0]
    }

    /// The counts of a target: the lower and the upper end of both parts. Condition: it is one of the targets.
    pub fn counts(&self, k: usize) -> [i128; 4]
        requires { k < self.now.head.targets }
        ensures numbers { result ≡ drop 4 (nth_line self.now.targets k).numbers }
        ensures size { AreOrderedEnds (most_given_target (grid_of self.now.head.version)) result }
    {
        let stored = &self.stored;
        let counts = stored.targets.row(k)[1];
        [counts.re.lo, counts.re.hi, counts.im.lo, counts.im.hi]
    }
}
