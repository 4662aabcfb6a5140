//! The radii of local rows.
ghost use Rattle.std.specs.Prelude.{◌≡◌, ◌+◌, ◌^◌, ◌≤◌, ◌<◌, pos, ◌≤ℤ◌, ◌+ℤ◌};
ghost use Rattle.quadtree.specs.TreeModel.{size};
ghost use Rattle.field_basis.specs.Place.{most_radius};
ghost use Rattle.downward_rows.specs.Radii.{v_losses_of, x_losses_of};

use error_ledger::Ledger;
use field_basis::Basis;

/// Adds what the entries of the V list of cell `n` can lose.
fn add_v_losses<const P: usize>(basis: &Basis<P>, n: usize, ledger: &mut Ledger)
    requires cell { n < size basis.now.tree }
    requires room { ledger.old ≤ 2 ^ 92 }
    ensures added { ledger.new ≡ ledger.old + v_losses_of P basis.now n }
    ensures size { ledger.new ≤ ledger.old + 2 ^ 91 }
{
    let side = basis.tree.cells()[n].side();
    for c in basis.lists.v_list(n) {
        ledger.add_pair(basis.weights[*c as usize], side, P as u32);
    }
}

/// Adds what the entries of the X list of cell `n` can lose.
fn add_x_losses<const P: usize>(basis: &Basis<P>, n: usize, ledger: &mut Ledger)
    requires cell { n < size basis.now.tree }
    requires room { ledger.old ≤ 2 ^ 92 }
    ensures added { ledger.new ≡ ledger.old + x_losses_of P basis.now n }
    ensures size { ledger.new ≤ ledger.old + 2 ^ 91 }
{
    let side = basis.tree.cells()[n].side();
    for c in basis.lists.x_list(n) {
        ledger.add_single(basis.weights[*c as usize], side, P as u32);
    }
}

/// The radius of the local row of cell `n`, that of its parent's with what the entries of its V and X lists can lose.
pub(crate) fn local_radius<const P: usize>(basis: &Basis<P>, n: usize, parent: i128) -> i128
    requires cell { n < size basis.now.tree }
    requires least { pos 0 ≤ℤ parent }
    requires most { parent ≤ℤ pos most_radius }
    ensures { result ≡ parent +ℤ pos (v_losses_of P basis.now n + x_losses_of P basis.now n) }
{
    let mut ledger = Ledger::new();
    add_v_losses(basis, n, &mut ledger);
    add_x_losses(basis, n, &mut ledger);
    parent + ledger.radius()
}
