//! Decimals and lines of known fields.
ghost use Rattle.std.specs.Prelude.{pos, ◌^◌, ◌≤ℤ◌};
ghost use Rattle.exact_math.specs.Within.{Within};
ghost use Rattle.complex_box.specs.Box.{BoxWithin};

use complex_box::CBox;
use field_report::{Decimal, to_count, write_target};
use fixed_interval::Interval;
use io_ports::{MemSink, WriteFault};
use points::Mode;
use std::test::Fail;

/// The greatest end that is printed.
const MOST: i128 = 1 << 96;

#[test]
fn writes_decimals(rt: HostRuntime) {
    assert_eq!(rt; Decimal::of(0).bytes(), b"0.000000000000".as_slice());
    assert_eq!(rt; Decimal::of(1).bytes(), b"0.000000000001".as_slice());
    assert_eq!(rt;
        Decimal::of(-500_000_000_000).bytes(),
        b"-0.500000000000".as_slice()
    );
    assert_eq!(rt;
        Decimal::of(7_000_000_000_000).bytes(),
        b"7.000000000000".as_slice()
    );
    assert_eq!(rt;
        Decimal::of(-105_916_767_676_770).bytes(),
        b"-105.916767676770".as_slice()
    );
    assert_eq!(rt;
        Decimal::of(MOST).bytes(),
        b"79228162514264337.593543950336".as_slice()
    );
    assert_eq!(rt;
        Decimal::of(-MOST).bytes(),
        b"-79228162514264337.593543950336".as_slice()
    );
}

/// At both borders, where the product with 10^12 itself leaves 128 bits, and beside them.
#[test]
fn counts_of_the_borders(rt: HostRuntime) {
    assert_eq!(rt;
        [
            to_count(MOST, false),
            to_count(MOST, true),
            to_count(MOST - 1, false),
            to_count(MOST - 1, true)
        ],
        [
            72_057_594_037_927_936_000_000_000_000,
            72_057_594_037_927_936_000_000_000_000,
            72_057_594_037_927_935_999_999_999_999,
            72_057_594_037_927_936_000_000_000_000
        ]
    );
    assert_eq!(rt;
        [
            to_count(-MOST, false),
            to_count(-MOST, true),
            to_count(1 - MOST, false),
            to_count(1 - MOST, true)
        ],
        [
            -72_057_594_037_927_936_000_000_000_000,
            -72_057_594_037_927_936_000_000_000_000,
            -72_057_594_037_927_936_000_000_000_000,
            -72_057_594_037_927_935_999_999_999_999
        ]
    );
}

#[test]
fn writes_lines(rt: HostRuntime) -> Result<(), Fail> {
    let alloc = rt.alloc();
    let mut sink = MemSink::with_room(alloc, 130, 130, Vec::new(alloc))?;
    // A charge of 1 at distance (3, 4): 3/25 and -4/25 in units of 2^-40.
    let charge = CBox {
        re: Interval::new(131_941_395_333, 131_941_395_334),
        im: Interval::new(-175_921_860_445, -175_921_860_444),
    };
    assert_eq!(rt; write_target(Mode::Field, 3, 4, charge, &mut sink), Ok(()));
    let line = "target 3 4 re 0.119999999999 0.120000000001 im -0.160000000001 -0.159999999999\n";
    assert_eq!(rt; sink.held(), line.as_bytes());

    // A vortex of 1 at distance (1, 0): -i. The sink has room for a part of the line.
    let vortex = CBox::point(0, -(1 << 40));
    assert_eq!(rt;
        write_target(Mode::Velocity, -1, 0, vortex, &mut sink),
        Err(WriteFault)
    );
    let part = "target -1 0 u 0.000000000000 0.000000000000 v 1.000";
    assert_eq!(rt;
        &sink.held()[line.len().min(sink.held().len())..],
        part.as_bytes()
    );
    Ok(())
}

#[test]
fn writes_a_line_of_the_borders(rt: HostRuntime) -> Result<(), Fail> {
    let alloc = rt.alloc();
    let mut sink = MemSink::with_room(alloc, 256, 256, Vec::new(alloc))?;
    let widest = CBox {
        re: Interval::new(-MOST, MOST),
        im: Interval::new(-MOST, 1 - MOST),
    };
    assert_eq!(rt;
        write_target(Mode::Velocity, -524_288, 524_287, widest, &mut sink),
        Ok(())
    );
    let line =
        "target -524288 524287 u -72057594037927936.000000000000 72057594037927936.000000000000 v 72057594037927935.999999999999 72057594037927936.000000000000\n";
    assert_eq!(rt; sink.held(), line.as_bytes());
    Ok(())
}
