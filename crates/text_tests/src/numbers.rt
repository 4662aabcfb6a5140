//! Words that are numbers, and words that aren't.
use number_text::{
    cut_at, next_int, one_spelling, read_four, read_int, read_numbers, read_three, read_two,
    read_uint,
};

const MOST: i64 = 1_000_000_000_000_000_000;

const WORDS: [(&[u8], Option<i64>); 16] = [
    (b"", None),
    (b"0", Some(0)),
    (b"7", Some(7)),
    (b"-7", Some(-7)),
    (b"90210", Some(90_210)),
    (b"-32768", Some(-32_768)),
    (b"00", None),
    (b"01", None),
    (b"-0", None),
    (b"-01", None),
    (b"-", None),
    (b"--1", None),
    (b"+1", None),
    (b"1 ", None),
    (b"999999999999999999", Some(999_999_999_999_999_999)),
    (b"-1234567890123456789012345678901234567890", Some(-MOST)),
];

#[test]
fn words_are_read(rt: HostRuntime) {
    for &(word, number) in &WORDS {
        assert_eq!(rt; read_int(word), number);
    }
    one_spelling();
}

#[test]
fn counts_are_read(rt: HostRuntime) {
    assert_eq!(rt;
        [
            read_uint(b"18446744073709551616"),
            read_uint(b"4096"),
            read_uint(b"-1")
        ],
        [Some(1_000_000_000_000_000_000), Some(4096), None]
    );
}

#[test]
fn texts_are_cut(rt: HostRuntime) {
    assert_eq!(rt;
        [cut_at(b' ', b"charge 1 2"), cut_at(b'\n', b"charge 1 2")],
        [Some((b"charge".as_slice(), b"1 2".as_slice())), None]
    );
    assert_eq!(rt; next_int(b"12 -3"), Some((12, b"-3".as_slice())));
}

#[test]
fn so_many_numbers(rt: HostRuntime) {
    assert_eq!(rt;
        [read_two(b"12 -3"), read_two(b"12 -3 4")],
        [Some((12, -3)), None]
    );
    assert_eq!(rt;
        [read_three(b"12 -3 4"), read_three(b"12  -3 4")],
        [Some((12, -3, 4)), None]
    );
    assert_eq!(rt;
        [read_four(b"12 -3 4 0"), read_four(b"12 -3 4 ")],
        [Some((12, -3, 4, 0)), None]
    );
}

const MOST_WIDE: i128 = 1_267_650_600_228_229_401_496_703_205_376;

const ROWS: [(&[u8], [i128; 2], &[u8]); 4] = [
    (b" 0 -1\n", [0, -1], b""),
    (
        b" -90210 1000000000000000000\nend\n",
        [-90_210, 1_000_000_000_000_000_000],
        b"end\n",
    ),
    (
        b" 1267650600228229401496703205375 -1267650600228229401496703205377\n 3\n",
        [MOST_WIDE - 1, -MOST_WIDE],
        b" 3\n",
    ),
    (
        b" 98765432109876543210987654321098765432109876543210987654321098765432109876543210 -12345678901234567890\n",
        [MOST_WIDE, -12_345_678_901_234_567_890],
        b"",
    ),
];

const NO_ROWS: [&[u8]; 11] = [
    b"",
    b" 1\n",
    b" 1 2",
    b" 1 2 3\n",
    b"1 2\n",
    b" 01 2\n",
    b" 1 -0\n",
    b" 1  2\n",
    b" 1 +2\n",
    b" 1 2 \n",
    b" 1 2\r\n",
];

#[test]
fn rows_are_read(rt: HostRuntime) {
    for &(text, row, behind) in &ROWS {
        let mut numbers = [0; 2];
        assert_eq!(rt; read_numbers(text, &mut numbers), Some(behind));
        assert_eq!(rt; numbers, row);
    }
    for text in &NO_ROWS {
        let mut numbers = [0; 2];
        assert_eq!(rt; read_numbers(text, &mut numbers), None);
    }
}
