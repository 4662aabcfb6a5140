//! Summaries of samples, through the top call.
use crate::ports::{SURE, expect, flush_fails, words_of};
use fmm_program::{Opening, Status, plan};
use std::alloc::Global;
use std::process::Abort;
use std::test::Fail;
use std::thread::Threads;

/// The sample that the words ask for has this summary.
fn has_summary(
    rt: &(impl Abort + Threads + Sync),
    alloc: Global,
    words: &[&str],
    summary: &str,
) -> Result<(), Fail> {
    let text = summary.as_bytes();
    expect(rt, alloc, words, b"", SURE, Status::Done, text)
}

const TWO_POINTS: [&str; 5] = ["sample", "0", "2", "8", "32"];

const TWO_POINTS_SUMMARY: &str = "sample 0 2 order 8 cap 32\n\
    points 2 sources 2 targets 0\n\
    tree cells 1 leaves 1\n\
    lists u 0 v 0 w 0 x 0\n\
    work translations 0 pairs 0\n\
    widest re 0 im 0\n\
    end\n";

#[test]
fn two_points(rt: HostRuntime) -> Result<(), Fail> {
    has_summary(&rt, rt.alloc(), &TWO_POINTS, TWO_POINTS_SUMMARY)
}

#[test]
fn a_sample_opens_nothing(rt: HostRuntime) -> Result<(), Fail> {
    let words = words_of(rt.alloc(), &TWO_POINTS)?;
    assert!(rt; matches!(plan(&words), Opening::Nothing));
    Ok(())
}

#[test]
fn flush_faults(rt: HostRuntime) -> Result<(), Fail> {
    let summary = TWO_POINTS_SUMMARY.as_bytes();
    flush_fails(&rt, rt.alloc(), &TWO_POINTS, b"", Status::Done, summary)
}

/// The seed, the number of points, the order and the capacity of a sample, and its summary. The numbers are those of
/// another program.
const SAMPLES: [([&str; 4], &str); 4] = [
    (
        ["1", "500", "4", "8"],
        "sample 1 500 order 4 cap 8\n\
        points 500 sources 378 targets 122\n\
        tree cells 178 leaves 133\n\
        lists u 563 v 1014 w 176 x 130\n\
        work translations 1306 pairs 2921\n\
        widest re 96731787224548 im 96731787224550\n\
        end\n",
    ),
    (
        ["2", "500", "8", "16"],
        "sample 2 500 order 8 cap 16\n\
        points 500 sources 364 targets 136\n\
        tree cells 81 leaves 61\n\
        lists u 361 v 550 w 48 x 49\n\
        work translations 701 pairs 5473\n\
        widest re 8816322974709 im 8816322974705\n\
        end\n",
    ),
    (
        ["3", "1000", "16", "32"],
        "sample 3 1000 order 16 cap 32\n\
        points 1000 sources 759 targets 241\n\
        tree cells 81 leaves 61\n\
        lists u 419 v 604 w 54 x 52\n\
        work translations 762 pairs 21441\n\
        widest re 278038449109 im 278038449100\n\
        end\n",
    ),
    (
        ["5", "3000", "24", "64"],
        "sample 5 3000 order 24 cap 64\n\
        points 3000 sources 2269 targets 731\n\
        tree cells 85 leaves 64\n\
        lists u 456 v 624 w 74 x 74\n\
        work translations 792 pairs 186724\n\
        widest re 10476716742 im 10476716759\n\
        end\n",
    ),
];

#[test]
fn samples(rt: HostRuntime) -> Result<(), Fail> {
    for &([seed, count, order, cap], summary) in &SAMPLES {
        let words = ["sample", seed, count, order, cap];
        has_summary(&rt, rt.alloc(), &words, summary)?;
    }
    Ok(())
}

/// The number of workers changes no byte.
#[test]
fn samples_by_workers(rt: HostRuntime) -> Result<(), Fail> {
    let ([seed, count, order, cap], summary) = SAMPLES[0];
    for workers in ["1", "2", "3", "8", "64"] {
        let words = ["sample", seed, count, order, cap, workers];
        has_summary(&rt, rt.alloc(), &words, summary)?;
    }
    Ok(())
}

#[test]
fn twenty_thousand_points(rt: HostRuntime) -> Result<(), Fail> {
    let summary = "sample 7 20000 order 16 cap 32\n\
        points 20000 sources 15018 targets 4982\n\
        tree cells 1321 leaves 991\n\
        lists u 8331 v 26922 w 443 x 462\n\
        work translations 29552 pairs 648750\n\
        widest re 12651982034900 im 12651982034954\n\
        end\n";
    for workers in ["1", "8"] {
        let words = ["sample", "7", "20000", "16", "32", workers];
        has_summary(&rt, rt.alloc(), &words, summary)?;
    }
    Ok(())
}
