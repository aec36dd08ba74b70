// The order of frames. At 30 kHz symbol 1 starts 1,112 Ts after symbol 0, which are 55,600,000 ticks; a gap of 60,000 ns has
// 92,160,000 ticks, one of 100,000 ns 153,600,000, and 111,000 ns, the width of T1a, 170,496,000.
use crate::steps::{
    all_given, at_id, checked, command, config, data, endpoint, in_subframe, is_over, line,
    long_command, of_two, put,
};
use du_scheduler::{PlanRefusal, PlanWhy};
use eaxc_map::Widths;
use fh_base::{List, Numerology};
use std::test::Fail;
use window_config::PlanKind;

/// Two fragments in symbol 0 and one in symbol 1, which leaves before the second of symbol 0. The lines are listed backwards.
#[test]
fn a_symbol_overtakes_another(rt: HostRuntime) -> Result<(), Fail> {
    let n = Numerology::ordinary(1).expect(&rt, "30 kHz");
    let c = config(endpoint(n), Widths::new(4, 4, 4, 4)?, 100_000, 128, 1);
    let later = line(PlanKind::Down, 1, (0, 1), 2);
    let sooner = line(PlanKind::Down, 0, (0, 3), 1);
    let mut lines = List::new(rt.alloc());
    put(&mut lines, later)?;
    put(&mut lines, sooner)?;
    let mut plan = checked(rt.alloc(), &c, &lines)?;
    let wanted = [
        command(
            14_638_080_000,
            0,
            &[
                0x10, 0x02, 0x00, 0x14, 0x00, 0x00, 0x00, 0x80, 0x90, 0x01, 0x00, 0x00,
            ],
        ),
        command(
            14_693_680_000,
            0,
            &[
                0x10, 0x02, 0x00, 0x14, 0x00, 0x00, 0x01, 0x80, 0x90, 0x01, 0x00, 0x01,
            ],
        ),
        // 128 bytes of 152: E is 0
        data(
            14_830_080_000,
            0,
            136,
            &[
                0x10, 0x00, 0x00, 0x84, 0x00, 0x00, 0x00, 0x00, 0x90, 0x01, 0x00, 0x00, 0x00, 0x10,
                0x00, 0x03, 0x00, 0x01, 0xff, 0xff,
            ],
        ),
        data(
            14_885_680_000,
            0,
            64,
            &[
                0x10, 0x00, 0x00, 0x3c, 0x00, 0x00, 0x01, 0x80, 0x90, 0x01, 0x00, 0x01, 0x00, 0x20,
                0x00, 0x01, 0x00, 0x01, 0xff, 0xff,
            ],
        ),
        // the other 24: elements 6 to 11 of the third PRB
        data(
            14_983_680_000,
            0,
            32,
            &[
                0x10, 0x00, 0x00, 0x1c, 0x00, 0x00, 0x00, 0x81, 0x00, 0x07, 0xff, 0xf9, 0x00, 0x08,
                0xff, 0xf8, 0x00, 0x09, 0xff, 0xf7, 0x00, 0x0a, 0xff, 0xf6, 0x00, 0x0b, 0xff, 0xf5,
                0x00, 0x0c, 0xff, 0xf4,
            ],
        ),
    ];
    assert!(rt; all_given(&mut plan, &wanted));
    assert_eq!(rt; plan.line(0), Some(later));
    assert_eq!(rt; plan.line(1), Some(sooner));
    assert_eq!(rt; plan.line(2), None);
    Ok(())
}

/// Two messages of two fragments in one symbol leave at 0, 60,000, 111,000 and 111,000 ns after the first.
#[test]
fn frames_leave_by_the_end_of_the_window(rt: HostRuntime) -> Result<(), Fail> {
    let n = Numerology::ordinary(1).expect(&rt, "30 kHz");
    let c = config(endpoint(n), Widths::new(4, 4, 4, 4)?, 60_000, 128, 1);
    let mut lines = List::new(rt.alloc());
    put(&mut lines, line(PlanKind::Down, 0, (0, 3), 1))?;
    put(&mut lines, line(PlanKind::Down, 0, (3, 3), 2))?;
    let mut plan = checked(rt.alloc(), &c, &lines)?;
    let wanted = [
        command(
            14_638_080_000,
            0,
            &[0x10, 0x02, 0x00, 0x14, 0x00, 0x00, 0x00, 0x80],
        ),
        command(
            14_730_240_000,
            0,
            &[0x10, 0x02, 0x00, 0x14, 0x00, 0x00, 0x01, 0x80],
        ),
        data(
            14_830_080_000,
            0,
            136,
            &[
                0x10, 0x00, 0x00, 0x84, 0x00, 0x00, 0x00, 0x00, 0x90, 0x01, 0x00, 0x00, 0x00, 0x10,
                0x00, 0x03,
            ],
        ),
        data(
            14_922_240_000,
            0,
            32,
            &[0x10, 0x00, 0x00, 0x1c, 0x00, 0x00, 0x00, 0x81, 0x00, 0x07],
        ),
        data(
            15_000_576_000,
            0,
            136,
            &[
                0x10, 0x00, 0x00, 0x84, 0x00, 0x00, 0x01, 0x00, 0x90, 0x01, 0x00, 0x00, 0x00, 0x20,
                0x03, 0x03,
            ],
        ),
        data(
            15_000_576_000,
            0,
            32,
            &[0x10, 0x00, 0x00, 0x1c, 0x00, 0x00, 0x01, 0x81, 0x00, 0x07],
        ),
    ];
    assert!(rt; all_given(&mut plan, &wanted));
    Ok(())
}

/// Two lines of one PRB in one symbol, of which a message may carry both: two commands, and one frame of data.
#[test]
fn a_message_carries_two_sections(rt: HostRuntime) -> Result<(), Fail> {
    let n = Numerology::ordinary(1).expect(&rt, "30 kHz");
    let c = config(endpoint(n), Widths::new(4, 4, 4, 4)?, 1_000, 1_492, 2);
    let mut lines = List::new(rt.alloc());
    put(&mut lines, line(PlanKind::Down, 0, (0, 1), 1))?;
    put(&mut lines, line(PlanKind::Down, 0, (1, 1), 2))?;
    let mut plan = checked(rt.alloc(), &c, &lines)?;
    let wanted = [
        command(
            14_638_080_000,
            0,
            &[
                0x10, 0x02, 0x00, 0x14, 0x00, 0x00, 0x00, 0x80, 0x90, 0x01, 0x00, 0x00, 0x01, 0x01,
                0x00, 0x00, 0x00, 0x10, 0x00, 0x01, 0xff, 0xf1, 0x00, 0x00,
            ],
        ),
        command(
            14_639_616_000,
            0,
            &[
                0x10, 0x02, 0x00, 0x14, 0x00, 0x00, 0x01, 0x80, 0x90, 0x01, 0x00, 0x00, 0x01, 0x01,
                0x00, 0x00, 0x00, 0x20, 0x01, 0x01, 0xff, 0xf1, 0x00, 0x00,
            ],
        ),
        data(
            14_830_080_000,
            0,
            116,
            &[
                0x10, 0x00, 0x00, 0x70, 0x00, 0x00, 0x00, 0x80, 0x90, 0x01, 0x00, 0x00, 0x00, 0x10,
                0x00, 0x01, 0x00, 0x01, 0xff, 0xff, 0x00, 0x02, 0xff, 0xfe, 0x00, 0x03, 0xff, 0xfd,
                0x00, 0x04, 0xff, 0xfc, 0x00, 0x05, 0xff, 0xfb, 0x00, 0x06, 0xff, 0xfa, 0x00, 0x07,
                0xff, 0xf9, 0x00, 0x08, 0xff, 0xf8, 0x00, 0x09, 0xff, 0xf7, 0x00, 0x0a, 0xff, 0xf6,
                0x00, 0x0b, 0xff, 0xf5, 0x00, 0x0c, 0xff, 0xf4, 0x00, 0x20, 0x01, 0x01, 0x00, 0x01,
                0xff, 0xff, 0x00, 0x02, 0xff, 0xfe, 0x00, 0x03, 0xff, 0xfd, 0x00, 0x04, 0xff, 0xfc,
                0x00, 0x05, 0xff, 0xfb, 0x00, 0x06, 0xff, 0xfa, 0x00, 0x07, 0xff, 0xf9, 0x00, 0x08,
                0xff, 0xf8, 0x00, 0x09, 0xff, 0xf7, 0x00, 0x0a, 0xff, 0xf6, 0x00, 0x0b, 0xff, 0xf5,
                0x00, 0x0c, 0xff, 0xf4,
            ],
        ),
    ];
    assert!(rt; all_given(&mut plan, &wanted));
    Ok(())
}

/// At one time endpoints are in the order of the document, and an endpoint's downlink command before its uplink one.
#[test]
fn what_leaves_together_is_in_order(rt: HostRuntime) -> Result<(), Fail> {
    let n = Numerology::ordinary(1).expect(&rt, "30 kHz");
    let c = of_two(endpoint(n), Widths::new(4, 4, 4, 4)?, 0);
    let mut lines = List::new(rt.alloc());
    put(&mut lines, line(PlanKind::Up, 0, (0, 1), 3))?;
    put(&mut lines, at_id(line(PlanKind::Down, 0, (0, 1), 2), 1))?;
    put(&mut lines, line(PlanKind::Down, 0, (0, 1), 1))?;
    let mut plan = checked(rt.alloc(), &c, &lines)?;
    let wanted = [
        command(
            14_638_080_000,
            0,
            &[
                0x10, 0x02, 0x00, 0x14, 0x00, 0x00, 0x00, 0x80, 0x90, 0x01, 0x00, 0x00, 0x01, 0x01,
                0x00, 0x00, 0x00, 0x10, 0x00, 0x01,
            ],
        ),
        command(
            14_638_080_000,
            0,
            &[
                0x10, 0x02, 0x00, 0x14, 0x00, 0x00, 0x00, 0x80, 0x10, 0x01, 0x00, 0x00, 0x01, 0x01,
                0x00, 0x00, 0x00, 0x30, 0x00, 0x01,
            ],
        ),
        command(
            14_638_080_000,
            1,
            &[
                0x10, 0x02, 0x00, 0x14, 0x00, 0x01, 0x00, 0x80, 0x90, 0x01, 0x00, 0x00, 0x01, 0x01,
                0x00, 0x00, 0x00, 0x20, 0x00, 0x01,
            ],
        ),
        data(
            14_830_080_000,
            0,
            64,
            &[
                0x10, 0x00, 0x00, 0x3c, 0x00, 0x00, 0x00, 0x80, 0x90, 0x01, 0x00, 0x00, 0x00, 0x10,
                0x00, 0x01,
            ],
        ),
        data(
            14_830_080_000,
            1,
            64,
            &[
                0x10, 0x00, 0x00, 0x3c, 0x00, 0x01, 0x00, 0x80, 0x90, 0x01, 0x00, 0x00, 0x00, 0x20,
                0x00, 0x01,
            ],
        ),
    ];
    assert!(rt; all_given(&mut plan, &wanted));
    Ok(())
}

/// An offset endpoint at 15 kHz: with cpLength 512 a symbol has 2,560 Ts, and symbol 12 starts a millisecond after symbol 0, with the
/// next slot's. Their frames leave together, those of the earlier slot first; no gap lies between them.
#[test]
fn slots_overlap(rt: HostRuntime) -> Result<(), Fail> {
    let n = Numerology::offset(0, 0, 512).expect(&rt, "15 kHz");
    let c = config(endpoint(n), Widths::new(4, 4, 4, 4)?, 1_000, 1_492, 1);
    let mut lines = List::new(rt.alloc());
    put(
        &mut lines,
        in_subframe(line(PlanKind::Down, 0, (0, 1), 2), 1),
    )?;
    put(&mut lines, line(PlanKind::Down, 12, (0, 1), 1))?;
    let mut plan = checked(rt.alloc(), &c, &lines)?;
    let wanted = [
        // section type 3: timeOffset 0, frameStructure 0, cpLength 512, freqOffset 0
        long_command(
            16_174_080_000,
            0,
            32,
            &[
                0x10, 0x02, 0x00, 0x1c, 0x00, 0x00, 0x00, 0x80, 0x90, 0x01, 0x00, 0x0c, 0x01, 0x03,
                0x00, 0x00, 0x00, 0x02, 0x00, 0x00, 0x00, 0x10, 0x00, 0x01, 0xff, 0xf1, 0x00, 0x00,
                0x00, 0x00, 0x00, 0x00,
            ],
        ),
        long_command(
            16_174_080_000,
            0,
            32,
            &[
                0x10, 0x02, 0x00, 0x1c, 0x00, 0x00, 0x01, 0x80, 0x90, 0x01, 0x10, 0x00, 0x01, 0x03,
                0x00, 0x00, 0x00, 0x02, 0x00, 0x00, 0x00, 0x20, 0x00, 0x01, 0xff, 0xf1, 0x00, 0x00,
                0x00, 0x00, 0x00, 0x00,
            ],
        ),
        data(
            16_366_080_000,
            0,
            64,
            &[
                0x10, 0x00, 0x00, 0x3c, 0x00, 0x00, 0x00, 0x80, 0x90, 0x01, 0x00, 0x0c, 0x00, 0x10,
                0x00, 0x01, 0x00, 0x01,
            ],
        ),
        data(
            16_366_080_000,
            0,
            64,
            &[
                0x10, 0x00, 0x00, 0x3c, 0x00, 0x00, 0x01, 0x80, 0x90, 0x01, 0x10, 0x00, 0x00, 0x20,
                0x00, 0x01, 0x00, 0x01,
            ],
        ),
    ];
    assert!(rt; all_given(&mut plan, &wanted));
    Ok(())
}

#[test]
fn no_lines_have_no_frames(rt: HostRuntime) -> Result<(), Fail> {
    let n = Numerology::ordinary(1).expect(&rt, "30 kHz");
    let c = config(endpoint(n), Widths::new(4, 4, 4, 4)?, 1_000, 1_492, 1);
    let mut plan = checked(rt.alloc(), &c, &List::new(rt.alloc()))?;
    assert!(rt; is_over(&mut plan));
    assert_eq!(rt; plan.line(0), None);
    Ok(())
}

/// The first line that is refused is named, with its first reason.
#[test]
fn plans_are_refused(rt: HostRuntime) -> Result<(), Fail> {
    let n = Numerology::ordinary(1).expect(&rt, "30 kHz");
    let c = config(endpoint(n), Widths::new(4, 4, 4, 4)?, 1_000, 1_492, 1);
    let one = line(PlanKind::Down, 0, (0, 1), 1);
    let mut lines = List::new(rt.alloc());
    put(&mut lines, one)?;
    put(&mut lines, line(PlanKind::Down, 1, (0, 1), 1))?;
    put(&mut lines, one)?;
    put(&mut lines, at_id(one, 7))?;
    let refused = PlanRefusal::At {
        index: 2,
        why: PlanWhy::Overlap,
    };
    assert_eq!(rt; checked(rt.alloc(), &c, &lines).err(), Some(refused));
    let mut lines = List::new(rt.alloc());
    put(&mut lines, at_id(one, 7))?;
    let refused = PlanRefusal::At {
        index: 0,
        why: PlanWhy::UnknownEndpoint,
    };
    assert_eq!(rt; checked(rt.alloc(), &c, &lines).err(), Some(refused));
    Ok(())
}
