//! Rows that are known from elsewhere: far sources of each kind, and a far cell and its value.
use crate::compare::row_is;
use crate::known::{FAR_CHARGE, LARGE, SMALL, far_point, nine_charges};
use cell_name::Cell;
use complex_box::{CBox, Gauss, Row, Work};
use kernel_table::Kernel;
use local_expansion::{add_far_source, at_local, convert};
use points::{Kind, Point};
use std::alloc::Global;
use std::test::Fail;
use test_boxes::{Ends, ends};

/// What a vortex of 2 at (8, 0) adds to the local row of the large cell.
const FAR_VORTEX: [Ends; 4] = [
    (
        (-439_804_651_111, -439_804_651_110),
        (1_319_413_953_331, 1_319_413_953_332),
    ),
    (
        (-527_765_581_333, -527_765_581_332),
        (703_687_441_776, 703_687_441_778),
    ),
    (
        (-457_396_837_156, -457_396_837_154),
        (316_659_348_799, 316_659_348_801),
    ),
    (
        (-337_769_972_054, -337_769_972_052),
        (98_516_241_848, 98_516_241_850),
    ),
];

/// What a dipole of 3 and -2 there adds.
const FAR_DIPOLE: [Ends; 4] = [
    (
        (395_824_185_998, 395_824_186_000),
        (21_990_232_555, 21_990_232_556),
    ),
    (
        (466_192_930_174, 466_192_930_178),
        (184_717_953_464, 184_717_953_468),
    ),
    (
        (364_158_251_115, 364_158_251_121),
        (306_104_037_168, 306_104_037_177),
    ),
    (
        (209_698_857_644, 209_698_857_652),
        (341_992_096_696, 341_992_096_708),
    ),
];

#[test]
fn far_sources(rt: HostRuntime) {
    row_is(&rt, &far_point(Kind::Charge(1)), &FAR_CHARGE);
    row_is(&rt, &far_point(Kind::Vortex(2)), &FAR_VORTEX);
    row_is(&rt, &far_point(Kind::Dipole(3, -2)), &FAR_DIPOLE);
    row_is(&rt, &far_point(Kind::Target), &[((0, 0), (0, 0)); 4]);
}

/// A charge 1 and a vortex of circulation 2 are the poles 1 and -2i.
#[test]
fn far_poles(rt: HostRuntime) {
    row_is(&rt, &far_point(Kind::Pole(1, 0)), &FAR_CHARGE);
    row_is(&rt, &far_point(Kind::Pole(0, -2)), &FAR_VORTEX);
}

/// A cell of the same side and place on the grid of version 1.
#[test]
fn far_charge_on_the_smaller_grid(rt: HostRuntime) {
    let charge = Point {
        x: 8,
        y: 0,
        kind: Kind::Charge(1),
    };
    let mut row = [CBox::zero(); 4];
    add_far_source::<4>(&mut row, LARGE, &charge);
    row_is(&rt, &row, &FAR_CHARGE);
}

const MOMENTS: [Ends; 4] = [
    ((9_895_604_649_984, 9_895_604_649_984), (0, 0)),
    (
        (-4_947_802_324_992, -4_947_802_324_992),
        (-4_947_802_324_992, -4_947_802_324_992),
    ),
    ((0, 0), (4_947_802_324_992, 4_947_802_324_992)),
    (
        (2_473_901_162_496, 2_473_901_162_496),
        (-2_473_901_162_496, -2_473_901_162_496),
    ),
];

#[test]
fn moments_of_nine_charges(rt: HostRuntime) {
    row_is(&rt, &nine_charges(SMALL), &MOMENTS);
}

fn kernel_of_order_4(alloc: Global) -> Result<Kernel<4>, Fail> {
    Ok(Kernel::<4>::new(alloc).ok().ok_or("no memory")?)
}

/// The value at (2, 0) of the moments of nine charges two cells of side 1 to the west.
#[test]
fn far_cell(rt: HostRuntime) -> Result<(), Fail> {
    let kernel = kernel_of_order_4(rt.alloc())?;
    let moments = nine_charges(SMALL);
    let mut row = [CBox::zero(); 4];
    let mut work = Work::new();
    let e = Gauss { re: 2, im: 0 };
    convert::<4>(&kernel, Row::new(&moments), e, &mut row, &mut work);
    let cell = Cell {
        level: 16,
        i: 32770,
        j: 32768,
        grid: 16,
    };
    let value = ends(at_local::<4>(Row::new(&row), cell, 2, 0));
    assert_eq!(rt;
        (work.translations(), work.pairs(), value),
        (
            1,
            0,
            (
                (5_102_421_147_648, 5_102_421_147_648),
                (193_273_528_320, 193_273_528_320)
            )
        )
    );
    Ok(())
}
