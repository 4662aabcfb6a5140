//! Worked entries of the kernel, and each distance once.
ghost use Rattle.std.specs.Prelude.{◌^◌};
ghost use Rattle.complex_box.specs.Box.{number};
ghost use Rattle.kernel_table.specs.Kernel.{IsKernelDistance};

use complex_box::Gauss;
use kernel_table::{Kernel, binomial};
use std::alloc::Global;
use std::process::Abort;
use std::test::Fail;
use test_boxes::ends;

#[test]
fn binomials_of_the_border(rt: HostRuntime) {
    assert_eq!(rt;
        [
            binomial(0, 0),
            binomial(5, 2),
            binomial(62, 62),
            binomial(62, 31)
        ],
        [1, 10, 1, 465_428_353_255_261_088]
    );
}

/// The first entry at a distance is its reciprocal, in units of 2^-40.
fn is_reciprocal(rt: &impl Abort, kernel: &Kernel<4>, e: Gauss)
    requires { IsKernelDistance (number e) }
{
    let one = kernel.entry(e, 0, 0).gscale(e);
    assert!(rt;
        one.re.lo <= 1 << 40 && 1 << 40 <= one.re.hi,
        "at {} {}",
        e.re,
        e.im
    );
    assert!(rt; one.im.lo <= 0 && 0 <= one.im.hi, "at {} {}", e.re, e.im);
}

/// The kernel of order 4.
fn small_kernel(alloc: Global) -> Result<Kernel<4>, Fail> {
    Ok(Kernel::<4>::new(alloc).ok().ok_or("no memory")?)
}

#[test]
fn every_distance_has_its_entry(rt: HostRuntime) -> Result<(), Fail> {
    let kernel = small_kernel(rt.alloc())?;
    let mut count = 0u32;
    for n in 0..49u8 {
        let e = Gauss {
            re: i64::from(n / 7) - 3,
            im: i64::from(n % 7) - 3,
        };
        if e.re.abs().max(e.im.abs()) >= 2 {
            is_reciprocal(&rt, &kernel, e);
            count = count.saturating_add(1);
        }
    }
    assert_eq!(rt; count, 40);
    Ok(())
}

#[test]
fn entries_two_sides_apart(rt: HostRuntime) -> Result<(), Fail> {
    let kernel = small_kernel(rt.alloc())?;
    let e = Gauss { re: 2, im: 0 };
    let half = 1 << 38;
    assert_eq!(rt;
        [ends(kernel.entry(e, 0, 0)), ends(kernel.entry(e, 0, 1))],
        [((1 << 39, 1 << 39), (0, 0)), ((-half, -half), (0, 0))]
    );
    Ok(())
}

#[test]
fn columns_two_sides_apart(rt: HostRuntime) -> Result<(), Fail> {
    let kernel = small_kernel(rt.alloc())?;
    let half = 1 << 38;
    let second = kernel.column(Gauss { re: 2, im: 0 }, 1);
    assert!(rt; second.len() == 4);
    assert_eq!(rt; ends(second[0]), ((-half, -half), (0, 0)));
    Ok(())
}

#[test]
fn entries_three_sides_apart(rt: HostRuntime) -> Result<(), Fail> {
    let kernel = Kernel::<8>::new(rt.alloc()).ok().ok_or("no memory")?;
    let first = kernel.entry(Gauss { re: 3, im: 0 }, 0, 0);
    let turned = kernel.entry(Gauss { re: 0, im: 2 }, 0, 0);
    assert_eq!(rt;
        ((first.re.lo, first.re.hi), ends(turned)),
        (
            (366_503_875_925, 366_503_875_926),
            ((0, 0), (-(1 << 39), -(1 << 39)))
        )
    );
    Ok(())
}

/// `-C(62, 31)/2^63`, in units of 2^-40.
#[test]
fn last_entry_of_order_32(rt: HostRuntime) -> Result<(), Fail> {
    let kernel = Kernel::<32>::new(rt.alloc()).ok().ok_or("no memory")?;
    assert_eq!(rt;
        ends(kernel.entry(Gauss { re: 2, im: 0 }, 31, 31)),
        ((-55_483_383_329, -55_483_383_328), (0, 0))
    );
    Ok(())
}
