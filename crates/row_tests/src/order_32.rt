//! Moments at order 32 by hand, and a far cell, whose value is known from elsewhere.
ghost use Rattle.std.specs.Prelude.{◌^◌};
ghost use Rattle.row_recursions.specs.Rows.{row_of};
ghost use Rattle.row_recursions.specs.Sizes.{RowWithin};

use crate::known::WIDE_SMALL;
use cell_name::Cell;
use complex_box::{CBox, Gauss, Row, Work};
use kernel_table::Kernel;
use local_expansion::{at_local, convert};
use multipole::add_source;
use points::{Kind, Point};
use std::alloc::Global;
use std::test::Fail;
use test_boxes::ends;

/// The moments of nine charges of 1 in the corner of the small cell, as one of 9.
fn moments_of_nine() -> [CBox; 32]
    ensures { RowWithin 32 (2 ^ 79) (row_of result) }
{
    let nine = Point {
        x: 0,
        y: 0,
        kind: Kind::Charge(9),
    };
    let mut row = [CBox::zero(); 32];
    add_source::<32>(&mut row, WIDE_SMALL, &nine);
    row
}

/// The last two moments: 9 times `((-1 - i)/2)^k` for `k` 30 and 31.
#[test]
fn last_moments(rt: HostRuntime) {
    let row = moments_of_nine();
    assert_eq!(rt;
        (row[30], row[31]),
        (
            CBox::point(0, -301_989_888),
            CBox::point(-150_994_944, 150_994_944)
        )
    );
}

fn kernel_of_order_32(alloc: Global) -> Result<Kernel<32>, Fail> {
    Ok(Kernel::<32>::new(alloc).ok().ok_or("no memory")?)
}

/// Two cells of side 1 to the east the field of the charges is 4.5, and the cut leaves next to nothing of it.
#[test]
fn far_cell(rt: HostRuntime) -> Result<(), Fail> {
    let kernel = kernel_of_order_32(rt.alloc())?;
    let moments = moments_of_nine();
    let mut row = [CBox::zero(); 32];
    let e = Gauss { re: 2, im: 0 };
    convert::<32>(&kernel, Row::new(&moments), e, &mut row, &mut Work::new());
    let cell = Cell {
        level: 20,
        i: 524_290,
        j: 524_288,
        grid: 20,
    };
    assert_eq!(rt;
        ends(at_local::<32>(Row::new(&row), cell, 2, 0)),
        ((4_947_802_325_082, 4_947_802_325_133), (44, 94))
    );
    Ok(())
}
