// Each kind of word, and a line that is full.
use fh_base::{Line, number_in};

#[test]
fn decimal_numbers(rt: HostRuntime) {
    let mut line = Line::new();
    line.text(b"n");
    line.spaced(0);
    line.spaced(9);
    line.spaced(10);
    line.spaced(65_535);
    line.spaced(100_000);
    line.spaced(u64::MAX);
    line.spaced_signed(i64::MIN);
    line.text(b" ");
    line.signed(7);
    line.text(b",");
    line.number(1_234);
    assert_eq!(rt;
        line.as_slice(),
        b"n 0 9 10 65535 100000 18446744073709551615 -9223372036854775808 7,1234".as_slice()
    );
    line.clear();
    line.small(-32_768);
    line.text(b",");
    line.small(99_999);
    line.text(b",");
    line.small(i32::MIN);
    line.text(b",");
    line.wide(i128::MIN);
    assert_eq!(rt;
        line.as_slice(),
        b"-32768,99999,-2147483648,-170141183460469231731687303715884105728".as_slice()
    );
}

#[test]
fn hexadecimal_digits(rt: HostRuntime) {
    let mut line = Line::new();
    line.hex4(0x0a9f);
    line.text(b" ");
    line.hex3(0xf0b1);
    line.text(b" ");
    line.hex2(0xc7);
    assert_eq!(rt; line.as_slice(), b"0a9f 0b1 c7".as_slice());
}

#[test]
fn a_line_of_exactly_512_bytes(rt: HostRuntime) {
    let mut line = Line::new();
    line.text(&[b'x'; 508]);
    line.hex4(0x1234);
    let bytes = line.as_slice();
    assert_eq!(rt; bytes.len(), 512);
    assert_eq!(rt; &bytes[506..], b"xx1234".as_slice());
}

/// Words of three digits at most, of a number from 1 to 400.
const NUMBERS: [(&[u8], Option<u64>); 12] = [
    (b"1", Some(1)),
    (b"400", Some(400)),
    (b"007", Some(7)),
    (b"0", None),
    (b"401", None),
    (b"0001", None),
    (b"", None),
    (b"+7", None),
    (b"7 ", None),
    (b"2a", None),
    (b"/", None),
    (b":", None),
];

#[test]
fn numbers_in_a_range(rt: HostRuntime) {
    for (word, n) in NUMBERS {
        assert_eq!(rt; number_in(word, 3, 1, 400), n);
    }
    assert_eq!(rt;
        number_in(b"999999999999999999", 18, 0, u64::MAX),
        Some(999_999_999_999_999_999)
    );
}
