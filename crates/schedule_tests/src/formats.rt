// Commands of the other section types, a dynamic format, and a message of many fragments, each written out by hand from the layout
// tables. Times are those of symbol 0 of frame 1: commands leave at tick 14638080000, data from 14830080000 on.
ghost use Rattle.std.specs.Prelude.{pos, ◌≤ℤ◌};

use crate::steps::{
    Wanted, all_given, checked, command, config, data, endpoint, line, long_command, of_format,
    of_prbs, put, with_beam,
};
use bfp_codec::Method;
use eaxc_map::Widths;
use fh_base::{List, Numerology};
use std::test::Fail;
use window_config::PlanKind;

/// Section type 0 of an `idle` line, which has no beamId; nothing else is sent for it.
#[test]
fn idle_lines_have_commands_alone(rt: HostRuntime) -> Result<(), Fail> {
    let n = Numerology::ordinary(1).expect(&rt, "30 kHz");
    let c = config(endpoint(n), Widths::new(4, 4, 4, 4)?, 1_000, 1_492, 1);
    let mut lines = List::new(rt.alloc());
    put(
        &mut lines,
        with_beam(line(PlanKind::Idle, 0, (5, 1), 7), 0x123),
    )?;
    let mut plan = checked(rt.alloc(), &c, &lines)?;
    // timeOffset 0, frameStructure 1 of 30 kHz, cpLength 0, and a reserved byte
    let wanted = [long_command(
        14_638_080_000,
        0,
        28,
        &[
            0x10, 0x02, 0x00, 0x18, 0x00, 0x00, 0x00, 0x80, 0x90, 0x01, 0x00, 0x00, 0x01, 0x00,
            0x00, 0x00, 0x01, 0x00, 0x00, 0x00, 0x00, 0x70, 0x05, 0x01, 0xff, 0xf1, 0x00, 0x00,
        ],
    )];
    assert!(rt; all_given(&mut plan, &wanted));
    Ok(())
}

/// Section types 0 and 3 of an offset endpoint, with its timeOffset and cpLength: at 15 kHz 258 Ts, and 144 Ts.
#[test]
fn offset_endpoints_have_their_times(rt: HostRuntime) -> Result<(), Fail> {
    let n = Numerology::offset(0, 0x0102, 144).expect(&rt, "15 kHz");
    let c = config(endpoint(n), Widths::new(4, 4, 4, 4)?, 0, 1_492, 1);
    let mut lines = List::new(rt.alloc());
    put(
        &mut lines,
        with_beam(line(PlanKind::Up, 0, (6, 1), 8), 0x123),
    )?;
    put(
        &mut lines,
        with_beam(line(PlanKind::Idle, 0, (5, 1), 7), 0x123),
    )?;
    let mut plan = checked(rt.alloc(), &c, &lines)?;
    // 258 Ts are 12,900,000 ticks
    let wanted = [
        long_command(
            14_650_980_000,
            0,
            28,
            &[
                0x10, 0x02, 0x00, 0x18, 0x00, 0x00, 0x00, 0x80, 0x90, 0x01, 0x00, 0x00, 0x01, 0x00,
                0x01, 0x02, 0x00, 0x00, 0x90, 0x00, 0x00, 0x70, 0x05, 0x01, 0xff, 0xf1, 0x00, 0x00,
            ],
        ),
        long_command(
            14_650_980_000,
            0,
            32,
            &[
                0x10, 0x02, 0x00, 0x1c, 0x00, 0x00, 0x00, 0x80, 0x10, 0x01, 0x00, 0x00, 0x01, 0x03,
                0x01, 0x02, 0x00, 0x00, 0x90, 0x00, 0x00, 0x80, 0x06, 0x01, 0xff, 0xf1, 0x01, 0x23,
                0x00, 0x00, 0x00, 0x00,
            ],
        ),
    ];
    assert!(rt; all_given(&mut plan, &wanted));
    Ok(())
}

/// A dynamic format of width 16, which udCompHdr has as 0: in the section of data and in the command of an `ul` line, and not in that
/// of a `dl` line.
#[test]
fn dynamic_formats_are_told(rt: HostRuntime) -> Result<(), Fail> {
    let n = Numerology::ordinary(1).expect(&rt, "30 kHz");
    let c = config(
        of_format(endpoint(n), true, Method::Bfp(16)),
        Widths::new(4, 4, 4, 4)?,
        1_000,
        1_492,
        1,
    );
    let mut lines = List::new(rt.alloc());
    put(&mut lines, line(PlanKind::Up, 0, (0, 1), 3))?;
    put(&mut lines, line(PlanKind::Down, 0, (0, 1), 1))?;
    let mut plan = checked(rt.alloc(), &c, &lines)?;
    let wanted = [
        command(
            14_638_080_000,
            0,
            &[
                0x10, 0x02, 0x00, 0x14, 0x00, 0x00, 0x00, 0x80, 0x90, 0x01, 0x00, 0x00, 0x01, 0x01,
                0x00, 0x00, 0x00, 0x10, 0x00, 0x01, 0xff, 0xf1, 0x00, 0x00,
            ],
        ),
        command(
            14_638_080_000,
            0,
            &[
                0x10, 0x02, 0x00, 0x14, 0x00, 0x00, 0x00, 0x80, 0x10, 0x01, 0x00, 0x00, 0x01, 0x01,
                0x01, 0x00, 0x00, 0x30, 0x00, 0x01, 0xff, 0xf1, 0x00, 0x00,
            ],
        ),
        // exponent 0, and the samples in 16 bits
        data(
            14_830_080_000,
            0,
            67,
            &[
                0x10, 0x00, 0x00, 0x3f, 0x00, 0x00, 0x00, 0x80, 0x90, 0x01, 0x00, 0x00, 0x00, 0x10,
                0x00, 0x01, 0x01, 0x00, 0x00, 0x00, 0x01, 0xff, 0xff, 0x00, 0x02, 0xff, 0xfe,
            ],
        ),
    ];
    assert!(rt; all_given(&mut plan, &wanted));
    Ok(())
}

/// A fragment of 1,492 bytes, from its E bit and subsequence id and its first element on.
fn fragment(k: i64, head: &[u8]) -> Wanted<'_>
    requires low { pos 0 ≤ℤ k }
    requires high { k ≤ℤ pos 8 }
{
    data(14_830_080_000 + 1_536_000 * k, 0, 1_500, head)
}

/// 273 PRBs without compression are 13,112 bytes: eight fragments of 1,492 and one of 1,176, 1,000 ns apart. A fragment has 373 samples
/// of 4 bytes, so that each begins one element further than the one before it.
#[test]
fn nine_fragments(rt: HostRuntime) -> Result<(), Fail> {
    let n = Numerology::ordinary(1).expect(&rt, "30 kHz");
    let c = config(
        of_prbs(endpoint(n), 273),
        Widths::new(4, 4, 4, 4)?,
        1_000,
        1_492,
        1,
    );
    let mut lines = List::new(rt.alloc());
    put(&mut lines, line(PlanKind::Down, 0, (0, 0), 1))?;
    let mut plan = checked(rt.alloc(), &c, &lines)?;
    let wanted = [
        command(
            14_638_080_000,
            0,
            &[
                0x10, 0x02, 0x00, 0x14, 0x00, 0x00, 0x00, 0x80, 0x90, 0x01, 0x00, 0x00, 0x01, 0x01,
                0x00, 0x00, 0x00, 0x10, 0x00, 0x00, 0xff, 0xf1, 0x00, 0x00,
            ],
        ),
        fragment(
            0,
            &[
                0x10, 0x00, 0x05, 0xd8, 0x00, 0x00, 0x00, 0x00, 0x90, 0x01, 0x00, 0x00, 0x00, 0x10,
                0x00, 0x00, 0x00, 0x01, 0xff, 0xff,
            ],
        ),
        fragment(
            1,
            &[
                0x10, 0x00, 0x05, 0xd8, 0x00, 0x00, 0x00, 0x01, 0x00, 0x0c, 0xff, 0xf4, 0x00, 0x01,
                0xff, 0xff,
            ],
        ),
        fragment(
            2,
            &[
                0x10, 0x00, 0x05, 0xd8, 0x00, 0x00, 0x00, 0x02, 0x00, 0x01, 0xff, 0xff,
            ],
        ),
        fragment(
            3,
            &[
                0x10, 0x00, 0x05, 0xd8, 0x00, 0x00, 0x00, 0x03, 0x00, 0x02, 0xff, 0xfe,
            ],
        ),
        fragment(
            4,
            &[
                0x10, 0x00, 0x05, 0xd8, 0x00, 0x00, 0x00, 0x04, 0x00, 0x03, 0xff, 0xfd,
            ],
        ),
        fragment(
            5,
            &[
                0x10, 0x00, 0x05, 0xd8, 0x00, 0x00, 0x00, 0x05, 0x00, 0x04, 0xff, 0xfc,
            ],
        ),
        fragment(
            6,
            &[
                0x10, 0x00, 0x05, 0xd8, 0x00, 0x00, 0x00, 0x06, 0x00, 0x05, 0xff, 0xfb,
            ],
        ),
        fragment(
            7,
            &[
                0x10, 0x00, 0x05, 0xd8, 0x00, 0x00, 0x00, 0x07, 0x00, 0x06, 0xff, 0xfa,
            ],
        ),
        data(
            14_842_368_000,
            0,
            1_184,
            &[
                0x10, 0x00, 0x04, 0x9c, 0x00, 0x00, 0x00, 0x88, 0x00, 0x07, 0xff, 0xf9,
            ],
        ),
    ];
    assert!(rt; all_given(&mut plan, &wanted));
    Ok(())
}
