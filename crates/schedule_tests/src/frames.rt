// The bytes of frames, each written out by hand from the layout tables. A symbol 0 of frame 1 starts at tick 15360000000; commands of
// downlink lines leave 470 us before their symbol, data 345 us before it.
use crate::steps::{
    all_given, checked, command, config, data, endpoint, in_frame, is_over, line, put,
};
use eaxc_map::Widths;
use fh_base::{List, Numerology};
use std::test::Fail;
use window_config::PlanKind;

/// Section 1, PRB 0 of symbol 0 of frame 1.
const COMMAND: [u8; 24] = [
    0x10, 0x02, 0x00, 0x14, 0x00, 0x00, 0x00, 0x80, 0x90, 0x01, 0x00, 0x00, 0x01, 0x01, 0x00, 0x00,
    0x00, 0x10, 0x00, 0x01, 0xff, 0xf1, 0x00, 0x00,
];

/// The data of that section: (1, -1) to (12, -12).
const DATA: [u8; 64] = [
    0x10, 0x00, 0x00, 0x3c, 0x00, 0x00, 0x00, 0x80, 0x90, 0x01, 0x00, 0x00, 0x00, 0x10, 0x00, 0x01,
    0x00, 0x01, 0xff, 0xff, 0x00, 0x02, 0xff, 0xfe, 0x00, 0x03, 0xff, 0xfd, 0x00, 0x04, 0xff, 0xfc,
    0x00, 0x05, 0xff, 0xfb, 0x00, 0x06, 0xff, 0xfa, 0x00, 0x07, 0xff, 0xf9, 0x00, 0x08, 0xff, 0xf8,
    0x00, 0x09, 0xff, 0xf7, 0x00, 0x0a, 0xff, 0xf6, 0x00, 0x0b, 0xff, 0xf5, 0x00, 0x0c, 0xff, 0xf4,
];

/// Each call with ample memory: one line, its command and its data; then nothing, however often it is asked for.
#[test]
fn one_line_has_two_frames(rt: HostRuntime) -> Result<(), Fail> {
    let n = Numerology::ordinary(1).expect(&rt, "30 kHz");
    let c = config(endpoint(n), Widths::new(4, 4, 4, 4)?, 1_000, 1_492, 1);
    let one = line(PlanKind::Down, 0, (0, 1), 1);
    let mut lines = List::new(rt.alloc());
    put(&mut lines, one)?;
    let mut plan = checked(rt.alloc(), &c, &lines)?;
    let wanted = [
        command(14_638_080_000, 0, &COMMAND),
        data(14_830_080_000, 0, 64, &DATA),
    ];
    assert!(rt; all_given(&mut plan, &wanted));
    assert!(rt; is_over(&mut plan));
    assert_eq!(rt; plan.line(0), Some(one));
    assert_eq!(rt; plan.line(1), None);
    assert!(rt; plan.touches(0, one.slot));
    assert!(rt; !plan.touches(1, one.slot));
    Ok(())
}

/// The last byte of frameId: 256 is 0, and 99,999 is 159.
#[test]
fn frames_are_counted_to_256(rt: HostRuntime) -> Result<(), Fail> {
    let n = Numerology::ordinary(1).expect(&rt, "30 kHz");
    let c = config(endpoint(n), Widths::new(4, 4, 4, 4)?, 1_000, 1_492, 1);
    let one = line(PlanKind::Down, 0, (0, 1), 1);
    let mut lines = List::new(rt.alloc());
    put(&mut lines, in_frame(one, 99_999))?;
    put(&mut lines, in_frame(one, 256))?;
    let mut plan = checked(rt.alloc(), &c, &lines)?;
    let wanted = [
        command(
            3_931_438_080_000,
            0,
            &[0x10, 0x02, 0x00, 0x14, 0x00, 0x00, 0x00, 0x80, 0x90, 0x00],
        ),
        data(
            3_931_630_080_000,
            0,
            64,
            &[0x10, 0x00, 0x00, 0x3c, 0x00, 0x00, 0x00, 0x80, 0x90, 0x00],
        ),
        command(
            1_535_983_918_080_000,
            0,
            &[0x10, 0x02, 0x00, 0x14, 0x00, 0x00, 0x01, 0x80, 0x90, 0x9f],
        ),
        data(
            1_535_984_110_080_000,
            0,
            64,
            &[0x10, 0x00, 0x00, 0x3c, 0x00, 0x00, 0x01, 0x80, 0x90, 0x9f],
        ),
    ];
    assert!(rt; all_given(&mut plan, &wanted));
    Ok(())
}
