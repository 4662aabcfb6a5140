//! A certificate read back, beside the report of the same solve.
use cert_text::{Cert, read_cert};
use std::alloc::Global;
use std::process::Abort;
use std::test::Fail;

/// The count of 10^-12 that a printed decimal is.
pub fn count_of(decimal: &str) -> i128 {
    let mut count: i128 = 0;
    for byte in decimal.bytes() {
        if byte.is_ascii_digit() {
            let digit = i128::from(byte.saturating_sub(b'0'));
            count = count.saturating_mul(10).saturating_add(digit);
        }
    }
    if decimal.starts_with('-') {
        return 0_i128.saturating_sub(count);
    }
    count
}

/// The counts of a target's line as those of the real and the imaginary part of its sum. A velocity report prints the
/// negative of the latter.
fn counts_of(line: &str) -> Option<[i128; 4]> {
    let mut words = line.split(' ').skip(3);
    let part = words.next()?;
    let re_lower = count_of(words.next()?);
    let re_upper = count_of(words.next()?);
    let mut words = words.skip(1);
    let lower = count_of(words.next()?);
    let upper = count_of(words.next()?);
    if part == "u" {
        let im_lower = 0_i128.saturating_sub(upper);
        let im_upper = 0_i128.saturating_sub(lower);
        return Some([re_lower, re_upper, im_lower, im_upper]);
    }
    Some([re_lower, re_upper, lower, upper])
}

/// The counts of the k-th target of a certificate, where it has so many.
fn kth_counts(cert: &Cert, k: usize) -> Option<[i128; 4]> {
    if k as u64 >= cert.targets() {
        return None;
    }
    Some(cert.counts(k))
}

/// The certificate has this order, and the targets of the report with their counts.
pub fn agrees(
    rt: &impl Abort,
    alloc: Global,
    order: &str,
    cert: &[u8],
    report: &[u8],
) -> Result<(), Fail> {
    let cert = read_cert(alloc, cert)?;
    let written = format!(in alloc; "{}", cert.order())?;
    assert_eq!(rt; written.as_str(), order);
    let mut targets: usize = 0;
    for line in str::from_utf8(report)?.lines() {
        if line.starts_with("target ") {
            let counts = kth_counts(&cert, targets);
            assert!(rt; counts.is_some());
            assert_eq!(rt; counts, counts_of(line));
            targets = targets.saturating_add(1);
        }
    }
    assert_eq!(rt; cert.targets(), targets as u64);
    Ok(())
}
