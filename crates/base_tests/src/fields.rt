// Fields of bits and numbers of bytes, worked out by hand.
use bfp_codec::{field_at, number_at, put_number};

#[test]
fn fields_of_bits(rt: HostRuntime) {
    let bytes = [0xab, 0xcd, 0xef, 0x01, 0x23, 0x45, 0x67, 0x89];
    let wanted: [(usize, usize, u128); 7] = [
        (0, 4, 0xa),
        (4, 12, 0xbcd),
        (7, 1, 1),
        (13, 9, 0x17b),
        (59, 5, 9),
        (0, 64, 0xabcd_ef01_2345_6789),
        (30, 0, 0),
    ];
    for (place, count, number) in wanted {
        assert_eq!(rt; place + count <= 64 && count <= 64, true);
        assert_eq!(rt;
            field_at(&bytes, place, count),
            number,
            "{count} bits from {place}"
        );
    }
}

#[test]
fn numbers_of_bytes(rt: HostRuntime) {
    let bytes = [0x10, 0x02, 0x00, 0x14];
    assert_eq!(rt; number_at(&bytes, 2, 2), 20);
    assert_eq!(rt; number_at(&bytes, 0, 4), 0x1002_0014);
    assert_eq!(rt; number_at(&bytes, 4, 0), 0);
}

#[test]
fn a_number_put(rt: HostRuntime) {
    let mut bytes = [0xff; 5];
    put_number(&mut bytes, 1, 3, 0x01_0203);
    assert_eq!(rt; bytes.as_slice(), [0xff, 1, 2, 3, 0xff].as_slice());
    put_number(&mut bytes, 0, 0, 0);
    assert_eq!(rt; bytes.as_slice(), [0xff, 1, 2, 3, 0xff].as_slice());
}
