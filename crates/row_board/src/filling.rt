//! Filling a board.
ghost use Rattle.std.specs.Prelude.{◌≡◌, ◌+◌, ◌^◌, ◌<◌, ◌≤◌, true, false, length, ◌∷◌, map, All, IfErr, IsOk, OnOk};
ghost use Rattle.field_basis.specs.Counts.{paired, pairs_of_target, shifts_into, translated, translations_into};
ghost use Rattle.quadtree.specs.TreeModel.{size};
ghost use Rattle.row_board.specs.Board.{IsBoard, OtherPlacesStay, worked};
ghost use Rattle.row_board.specs.Names.{IsName, is_filled, needs, AreFilled, IsFirstMissing, FindsMissing};

use crate::board::Board;
use crate::name::{Name, NotReady};
use crate::search::{first_unmarked, first_unmarked_quarter};
use complex_box::Work;
use target_values::target_value;

impl<const P: usize> Board<P> {
    /// The first of a local row and some multipole rows that is missing.
    fn first_missing(&self, cell: usize, far: &[u32]) -> Option<Name>
        requires cell { cell < size self.now.basis.tree }
        requires numbers { All (λ n. n < size self.now.basis.tree) far.now }
        ensures { FindsMissing self.now (Name.Local cell ∷ map Name.Up far.now) result }
    {
        if !self.has_local[cell] {
            return Some(Name::Local(cell));
        }
        match first_unmarked(&self.has_up, far) {
            Some(n) => Some(Name::Up(n)),
            None => None,
        }
    }

    /// The first multipole row of a quarter of cell `n` that is missing.
    fn missing_quarter(&self, n: usize) -> Option<Name>
        requires { n < size self.now.basis.tree }
        ensures { FindsMissing self.now (needs self.now (Name.Up n)) result }
    {
        let basis = &self.basis;
        match first_unmarked_quarter(&basis.tree, &self.has_up, n) {
            Some(m) => Some(Name::Up(m)),
            None => None,
        }
    }

    /// The first row that the local row of cell `n` needs and that is missing.
    fn missing_for_local(&self, n: usize) -> Option<Name>
        requires { n < size self.now.basis.tree }
        ensures { FindsMissing self.now (needs self.now (Name.Local n)) result }
    {
        if n == 0 {
            return None;
        }
        let basis = &self.basis;
        self.first_missing(basis.tree.parent(n), basis.lists.v_list(n))
    }

    /// The first row that the box of the k-th target needs and that is missing.
    fn missing_for_value(&self, k: usize) -> Option<Name>
        requires { k < length self.now.basis.targets }
        ensures { FindsMissing self.now (needs self.now (Name.Value k)) result }
    {
        let basis = &self.basis;
        let leaf = basis.tree.leaf_of(basis.targets[k] as usize);
        self.first_missing(leaf, basis.lists.w_list(leaf))
    }

    /// The first row that is needed and missing.
    fn missing(&self, name: Name) -> Option<Name>
        requires { IsName self.now name }
        ensures { FindsMissing self.now (needs self.now name) result }
    {
        match name {
            Name::Up(n) => self.missing_quarter(n),
            Name::Local(n) => self.missing_for_local(n),
            Name::Value(k) => self.missing_for_value(k),
        }
    }

    /// Fills a multipole row.
    fn fill_up(&mut self, n: usize, work: &mut Work)
        requires name { IsName self.old (Name.Up n) }
        requires ready { AreFilled self.old (needs self.old (Name.Up n)) }
        requires room { work.old.translations < 2 ^ 62 }
        ensures filled { is_filled self.new (Name.Up n) ≡ true }
        ensures board { IsBoard P self.new }
        ensures others { OtherPlacesStay (Name.Up n) self.old self.new }
        ensures work { work.new ≡ translated (shifts_into self.old.basis.points self.old.basis.tree n) work.old }
    {
        let basis = &self.basis;
        upward_rows::fill_place(&basis.tree, &basis.points, n, &mut self.up, work);
        self.has_up[n] = true;
    }

    /// Fills a local row and its radius.
    fn fill_local(&mut self, n: usize, work: &mut Work)
        requires name { IsName self.old (Name.Local n) }
        requires ready { AreFilled self.old (needs self.old (Name.Local n)) }
        requires room { work.old.translations < 2 ^ 62 }
        ensures filled { is_filled self.new (Name.Local n) ≡ true }
        ensures board { IsBoard P self.new }
        ensures others { OtherPlacesStay (Name.Local n) self.old self.new }
        ensures work { work.new ≡ translated (translations_into self.old.basis n) work.old }
    {
        downward_rows::fill_place(&self.basis, &self.up, n, &mut self.local, work);
        self.has_local[n] = true;
    }

    /// Fills the box of a target.
    fn fill_value(&mut self, k: usize, work: &mut Work)
        requires name { IsName self.old (Name.Value k) }
        requires ready { AreFilled self.old (needs self.old (Name.Value k)) }
        requires room { work.old.pairs < 2 ^ 62 }
        ensures filled { is_filled self.new (Name.Value k) ≡ true }
        ensures board { IsBoard P self.new }
        ensures others { OtherPlacesStay (Name.Value k) self.old self.new }
        ensures work { work.new ≡ paired (pairs_of_target self.old.basis k) work.old }
    {
        self.values[k] = target_value(&self.basis, &self.up, &self.local, k, work);
        self.has_value[k] = true;
    }

    /// Fills a place from those that it needs, and takes no memory. A place that is filled stays as it is, with no work done.
    ///
    /// A multipole row needs those of the cell's quarters that have a source; a local row its parent's, and then the multipole rows of its V
    /// list, and the root's nothing; the box of a target the local row of its leaf, and then the multipole rows of the leaf's W list. Rows of
    /// cells are needed in the order of the cells. Where one is missing, `NotReady` has the first, and board and work are as before.
    ///
    /// The counts of work are raised by what the place takes: the translations by at most 28, the pairs by at most one for each point.
    /// Conditions: the board has the place, and both counts of work are below 2^62.
    pub fn fill(&mut self, name: Name, work: &mut Work) -> Result<(), NotReady>
        requires name { IsName self.old name }
        requires translations { work.old.translations < 2 ^ 62 }
        requires pairs { work.old.pairs < 2 ^ 62 }
        ensures stays { is_filled self.old name ≡ true → IsOk result × (self.new ≡ self.old) × (work.new ≡ work.old) }
        ensures ready { OnOk result (is_filled self.old name ≡ false → AreFilled self.old (needs self.old name) × (work.new ≡ worked self.old name work.old)) }
        ensures missing { IfErr result (λ e. IsFirstMissing self.old (needs self.old name) e.missing × (self.new ≡ self.old) × (work.new ≡ work.old)) }
        ensures filled { OnOk result (is_filled self.new name ≡ true) }
        ensures others { OtherPlacesStay name self.old self.new }
        ensures board { IsBoard P self.new }
        ensures few { (work.new.translations ≤ work.old.translations + 28) × (work.new.pairs ≤ work.old.pairs + length self.old.basis.points) }
    {
        if self.filled(name) {
            return Ok(());
        }
        if let Some(missing) = self.missing(name) {
            return Err(NotReady { missing });
        }
        match name {
            Name::Up(n) => self.fill_up(n, work),
            Name::Local(n) => self.fill_local(n, work),
            Name::Value(k) => self.fill_value(k, work),
        }
        Ok(())
    }
}
