//! Samples that were worked out elsewhere.
use point_sample::sample_points;
use points::{Kind, Point};
use std::test::Fail;

#[test]
fn the_first_sample(rt: HostRuntime) -> Result<(), Fail> {
    let sample = sample_points(rt.alloc(), 0, 2)?;
    let first = Point {
        x: -32_527,
        y: -32_483,
        kind: Kind::Charge(748),
    };
    let second = Point {
        x: -30_222,
        y: -31_361,
        kind: Kind::Charge(261),
    };
    assert_eq!(rt; sample.version, 1);
    assert!(rt; sample.list.points() == [first, second].as_slice());
    Ok(())
}

#[test]
fn targets_of_a_sample(rt: HostRuntime) -> Result<(), Fail> {
    let sample = sample_points(rt.alloc(), 1, 500)?;
    let targets = sample
        .list
        .points()
        .iter()
        .filter(|p| p.kind == Kind::Target)
        .count();
    assert_eq!(rt; (sample.list.points().len(), targets), (500, 122));
    Ok(())
}
