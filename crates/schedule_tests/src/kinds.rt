// Commands and endpoints of other kinds. The bytes and the times are worked out by hand.
use crate::samples::{ONE_PRB, SAMPLES, config_of, dynamic_endpoint, endpoint};
use crate::uplink_frames::{FIRST, START, is_sent, sent, size_of};
use eaxc_map::Widths;
use fh_base::Numerology;
use std::test::Fail;

/// An uplink command of section type 0: symbol 0 of frame 1, section 5, all elements of PRB 2.
const IDLE: [u8; 28] = [
    0x10, 0x02, 0x00, 0x18, 0x00, 0x00, 0x00, 0x80, 0x10, 0x01, 0x00, 0x00, 0x01, 0x00, 0x00, 0x00,
    0x00, 0x00, 0x00, 0x00, 0x00, 0x50, 0x02, 0x01, 0xff, 0xf1, 0x00, 0x00,
];

/// For idle PRBs nothing is sent.
#[test]
fn idle_sends_nothing(rt: HostRuntime) -> Result<(), Fail> {
    let n = Numerology::ordinary(1).expect(&rt, "30 kHz");
    let widths = Widths::new(4, 4, 4, 4)?;
    let config = config_of(endpoint(n, 106), widths, 1_000, 171_000, 1);
    let link = sent(rt.alloc(), &config, FIRST, &IDLE, START)?;
    assert_eq!(rt; link.frames().len(), 0);
    Ok(())
}

/// A dynamic endpoint says block floating point of 16 bits as width 0 and method 1; the exponent is 0.
#[test]
fn sixteen_bits_are_written_as_0(rt: HostRuntime) -> Result<(), Fail> {
    let n = Numerology::ordinary(1).expect(&rt, "30 kHz");
    let widths = Widths::new(4, 4, 4, 4)?;
    let config = config_of(dynamic_endpoint(n, 106), widths, 1_000, 171_000, 1);
    let link = sent(rt.alloc(), &config, FIRST, &ONE_PRB, START)?;
    let mut wanted = [0; 67];
    wanted[..19].copy_from_slice(&[
        0x10, 0x00, 0x00, 0x3f, 0x00, 0x00, 0x00, 0x80, 0x13, 0x01, 0x00, 0x00, 0x00, 0x50, 0x02,
        0x01, 0x01, 0x00, 0x00,
    ]);
    wanted[19..].copy_from_slice(&SAMPLES);
    assert_eq!(rt; link.frames().len(), 1);
    assert_eq!(rt; size_of(&link, 0), 67);
    assert!(rt; is_sent(&link, 0, 15_436_800_000, &wanted));
    Ok(())
}

/// Section 5 of symbol 0 of frame 1: eight elements of all PRBs, and then the other four.
const TWICE_ALL: [u8; 32] = [
    0x10, 0x02, 0x00, 0x1c, 0x00, 0x00, 0x00, 0x80, 0x10, 0x01, 0x00, 0x00, 0x02, 0x01, 0x00, 0x00,
    0x00, 0x50, 0x00, 0x00, 0xff, 0x01, 0x00, 0x00, 0x00, 0x50, 0x00, 0x00, 0x00, 0xf1, 0x00, 0x00,
];

/// Two sections of 13,108 bytes are more than the 16,384 of a message: each has one of nine frames, though two may share one.
#[test]
fn long_sections_stand_alone(rt: HostRuntime) -> Result<(), Fail> {
    let n = Numerology::ordinary(1).expect(&rt, "30 kHz");
    let widths = Widths::new(4, 4, 4, 4)?;
    let config = config_of(endpoint(n, 273), widths, 1_000, 171_000, 2);
    let link = sent(rt.alloc(), &config, FIRST, &TWICE_ALL, START)?;
    let first = [
        0x10, 0x00, 0x05, 0xd8, 0x00, 0x00, 0x00, 0x00, 0x10, 0x01, 0x00, 0x00, 0x00, 0x50, 0x00,
        0x00,
    ];
    let second = [
        0x10, 0x00, 0x05, 0xd8, 0x00, 0x00, 0x01, 0x00, 0x10, 0x01, 0x00, 0x00, 0x00, 0x50, 0x00,
        0x00,
    ];
    assert_eq!(rt; link.frames().len(), 18);
    assert!(rt; is_sent(&link, 0, 15_436_800_000, &first));
    assert!(rt;
        is_sent(
            &link,
            8,
            15_449_088_000,
            &[0x10, 0x00, 0x04, 0x9c, 0x00, 0x00, 0x00, 0x88]
        )
    );
    assert_eq!(rt; size_of(&link, 8), 1_184);
    assert!(rt; is_sent(&link, 9, 15_450_624_000, &second));
    assert!(rt;
        is_sent(
            &link,
            17,
            15_462_912_000,
            &[0x10, 0x00, 0x04, 0x9c, 0x00, 0x00, 0x01, 0x88]
        )
    );
    Ok(())
}
