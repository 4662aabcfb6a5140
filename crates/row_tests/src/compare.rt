//! Rows as they are expected.
use complex_box::CBox;
use std::process::Abort;
use test_boxes::{Ends, ends};

pub fn row_is(rt: &impl Abort, got: &[CBox; 4], row: &[Ends; 4]) {
    assert_eq!(rt;
        [ends(got[0]), ends(got[1]), ends(got[2]), ends(got[3])],
        *row
    );
}
