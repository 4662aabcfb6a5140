//! A board of nine charges and a far target, whose box is known from elsewhere, and a board of version 2 beside a field.
ghost use Rattle.std.specs.Prelude.{◌≡◌};
ghost use Rattle.points.specs.Limits.{WithinLimits};

use crate::compare::{
    EACH_LETTER, FAR_TARGET, NINE_CHARGES, ends_are, points_of_version_2, solved,
};
use bumpalo::Bump;
use complex_box::Work;
use points::Points;
use row_board::{Board, Name};
use solve_phase::Field;
use std::alloc::Global;
use std::process::Abort;
use std::test::Fail;
use test_boxes::ends;
use test_points::points_of;

/// What was missing when a place was to be filled; nothing where it is filled now, or there is none.
fn missing(board: &mut Board<4>, name: Name) -> Option<Name> {
    if !board.has(name) {
        return None;
    }
    match board.fill(name, &mut Work::new()) {
        Ok(()) => None,
        Err(fault) => Some(fault.missing),
    }
}

/// The box of the target is filled, and is the known one.
fn target_is_known(rt: &impl Abort, board: &Board<4>) {
    assert!(rt; board.has(Name::Value(0)));
    match board.value(0) {
        Some(value) => ends_are(rt, value, FAR_TARGET),
        None => assert!(rt; false),
    }
}

/// The points of the board.
const POINTS: [(u32, &str); 2] = [NINE_CHARGES, (1, "target 8 0\n")];

/// The board of the points at order 4 and capacity 8.
fn board_of(alloc: Global, points: &Points) -> Result<Board<4>, Fail>
    requires list { WithinLimits points.now }
{
    Ok(Board::<4>::new(alloc, points, 8)?)
}

fn board_of_points(alloc: Global) -> Result<Board<4>, Fail> {
    let points = points_of(alloc, &POINTS)?;
    board_of(alloc, &points)
}

/// The place is filled now, or there is none.
fn fills(rt: &impl Abort, board: &mut Board<4>, name: Name) {
    assert!(rt; missing(board, name).is_none());
}

/// Fills each place of a board of so many cells and targets.
fn fill_all(rt: &impl Abort, board: &mut Board<4>, cells: usize, targets: usize) {
    for n in (0..cells).rev() {
        fills(rt, board, Name::Up(n));
    }
    for n in 0..cells {
        fills(rt, board, Name::Local(n));
    }
    for k in 0..targets {
        fills(rt, board, Name::Value(k));
    }
}

#[test]
fn rows_below_wait(rt: HostRuntime) -> Result<(), Fail> {
    let mut board = board_of_points(rt.alloc())?;
    assert!(rt; board.has(Name::Local(1)) && !board.has(Name::Local(18)));
    assert!(rt; missing(&mut board, Name::Local(1)) == Some(Name::Local(0)));
    fills(&rt, &mut board, Name::Local(0));
    fills(&rt, &mut board, Name::Local(1));
    Ok(())
}

#[test]
fn rows_as_they_become_ready(rt: HostRuntime) -> Result<(), Fail> {
    let mut board = board_of_points(rt.alloc())?;
    for _ in 0..20u32 {
        let _ = missing(&mut board, Name::Value(0));
        for n in 0..18usize {
            let _ = missing(&mut board, Name::Up(n));
            let _ = missing(&mut board, Name::Local(17 - n));
        }
    }
    target_is_known(&rt, &board);
    Ok(())
}

/// The board has the box of each target of the field.
fn boxes_agree(rt: &impl Abort, board: &Board<4>, field: &Field<4>) {
    for k in 0..field.targets() {
        assert!(rt; board.has(Name::Value(k)));
        match board.value(k) {
            Some(value) => ends_are(rt, value, ends(field.value(k))),
            None => assert!(rt; false),
        }
    }
}

/// A full board of the points has the boxes of the field.
fn a_board_agrees(
    rt: &impl Abort,
    alloc: Global,
    points: &Points,
    field: &Field<4>,
) -> Result<(), Fail>
    requires list { WithinLimits points.now }
{
    let mut board = board_of(alloc, points)?;
    fill_all(rt, &mut board, field.tree().cells().len(), field.targets());
    boxes_agree(rt, &board, field);
    Ok(())
}

/// A full board of the points has the boxes of their field.
fn a_solve_agrees(rt: &impl Abort, alloc: Global, points: &Points) -> Result<(), Fail>
    requires list { WithinLimits points.now }
    requires version { points.now.version ≡ 2 }
{
    let arena = Bump::new(alloc);
    let field = solved::<4>(alloc, points, &arena)?;
    a_board_agrees(rt, alloc, points, &field)
}

#[test]
fn a_full_board_of_version_2(rt: HostRuntime) -> Result<(), Fail> {
    let points = points_of_version_2(rt.alloc(), &EACH_LETTER)?;
    a_solve_agrees(&rt, rt.alloc(), &points)
}
