// One endpoint of 106 PRBs at 30 kHz, whose frame 1 begins at 10 ms, which is tick 15360000000. A nanosecond has 1,536 ticks. The
// bytes and the times are worked out by hand.
ghost use Rattle.std.specs.Prelude.{◌≡◌, ◌<◌, pos, neg_ℤ};
ghost use Rattle.air_source.specs.Kept.{IsKept};
ghost use Rattle.window_config.specs.Configs.{IsConfig};

use crate::samples::{FOUR_ELEMENTS, ONE_PRB, SAMPLES, TWO_HALVES, TWO_PRBS, config};
use crate::uplink_steps::{commanded, send, sender};
use air_source::{MemoryLink, RePlace, Samples};
use bfp_codec::Wide;
use eaxc_map::Widths;
use fh_base::{NoMemory, Numerology, Ticks};
use std::alloc::Global;
use std::test::Fail;
use window_config::Config;

/// 9.6 ms, and the start of frame 1.
pub(crate) const FIRST: Ticks = Ticks(14_745_600_000);

pub(crate) const START: Ticks = Ticks(15_360_000_000);

/// What a unit that received a command at a time sends at a later one, where element k answers (k, -k); it sends no more at that time.
pub(crate) fn sent(
    alloc: Global,
    config: &Config,
    at: Ticks,
    command: &[u8],
    to: Ticks,
) -> Result<MemoryLink, NoMemory>
    requires { IsConfig config.now }
{
    let samples = Samples::keep(
        |place: RePlace| -> Wide
            requires { place.re < 12 }
            ensures i { result.i ≡ pos place.re }
            ensures q { result.q ≡ neg_ℤ (pos place.re) }
        {
            Wide {
                i: i32::from(place.re),
                q: -i32::from(place.re),
            }
        },
    );
    let mut unit = commanded(alloc, config, at, command, to)?;
    let mut uplink = sender(alloc, config, samples)?;
    let mut link = MemoryLink::new(alloc);
    send(config, &mut uplink, &mut unit, &mut link)?;
    let count = link.frames().len();
    send(config, &mut uplink, &mut unit, &mut link)?;
    if link.frames().len() != count {
        return Err(NoMemory);
    }
    Ok(link)
}

/// Whether a frame that was sent has this time, and begins with these bytes.
pub(crate) fn is_sent(link: &MemoryLink, place: usize, at: i64, bytes: &[u8]) -> bool {
    match link.frames().get(place) {
        Some(sent) => sent.at == Ticks(at)
            && sent.ep == 0
            && sent.frame.as_slice().starts_with(bytes),
        None => false,
    }
}

/// How long a frame is that was sent.
pub(crate) fn size_of(link: &MemoryLink, place: usize) -> usize {
    match link.frames().get(place) {
        Some(sent) => sent.frame.as_slice().len(),
        None => 0,
    }
}

/// All twelve samples are sent, whatever the command's mask.
#[test]
fn a_message_of_one_prb(rt: HostRuntime) -> Result<(), Fail> {
    let n = Numerology::ordinary(1).expect(&rt, "30 kHz");
    let config = config(n, Widths::new(4, 4, 4, 4)?, 1_000, 171_000, 1);
    let mut wanted = [
        0x10, 0x00, 0x00, 0x3c, 0x00, 0x00, 0x00, 0x80, 0x13, 0x01, 0x00, 0x00, 0x00, 0x50, 0x02,
        0x01, 0, 0, 0, 0, 0, 0, 0, 0, 0, 0, 0, 0, 0, 0, 0, 0, 0, 0, 0, 0, 0, 0, 0, 0, 0, 0, 0, 0,
        0, 0, 0, 0, 0, 0, 0, 0, 0, 0, 0, 0, 0, 0, 0, 0, 0, 0, 0, 0,
    ];
    wanted[16..].copy_from_slice(&SAMPLES);
    for command in [ONE_PRB, FOUR_ELEMENTS] {
        let link = sent(rt.alloc(), &config, FIRST, &command, START)?;
        assert_eq!(rt; link.frames().len(), 1);
        assert_eq!(rt; size_of(&link, 0), 64);
        assert!(rt; is_sent(&link, 0, 15_436_800_000, &wanted));
    }
    Ok(())
}

/// Messages go by PRB and are numbered so; two sections may share one.
#[test]
fn messages_go_by_prb(rt: HostRuntime) -> Result<(), Fail> {
    let n = Numerology::ordinary(1).expect(&rt, "30 kHz");
    let alone = config(n, Widths::new(4, 4, 4, 4)?, 1_000, 171_000, 1);
    let link = sent(rt.alloc(), &alone, FIRST, &TWO_PRBS, START)?;
    let first = [
        0x10, 0x00, 0x00, 0x3c, 0x00, 0x00, 0x00, 0x80, 0x10, 0x01, 0x00, 0x00, 0x00, 0x60, 0x00,
        0x01,
    ];
    let second = [
        0x10, 0x00, 0x00, 0x3c, 0x00, 0x00, 0x01, 0x80, 0x10, 0x01, 0x00, 0x00, 0x00, 0x50, 0x01,
        0x01,
    ];
    assert_eq!(rt; link.frames().len(), 2);
    assert!(rt; is_sent(&link, 0, 15_436_800_000, &first));
    assert!(rt; is_sent(&link, 1, 15_438_336_000, &second));
    let packed = config(n, Widths::new(4, 4, 4, 4)?, 1_000, 171_000, 2);
    let link = sent(rt.alloc(), &packed, FIRST, &TWO_PRBS, START)?;
    let both = [
        0x10, 0x00, 0x00, 0x70, 0x00, 0x00, 0x00, 0x80, 0x10, 0x01, 0x00, 0x00, 0x00, 0x60, 0x00,
        0x01,
    ];
    assert_eq!(rt; link.frames().len(), 1);
    assert_eq!(rt; size_of(&link, 0), 116);
    assert!(rt; is_sent(&link, 0, 15_436_800_000, &both));
    Ok(())
}

/// Two messages of two frames: 50, 110, 161 and 161 us after their symbol's start, the gap being 60 us and Ta3 up to 161 us.
#[test]
fn frames_of_a_symbol_keep_a_gap(rt: HostRuntime) -> Result<(), Fail> {
    let n = Numerology::ordinary(1).expect(&rt, "30 kHz");
    let config = config(n, Widths::new(4, 4, 4, 4)?, 60_000, 161_000, 1);
    let link = sent(rt.alloc(), &config, FIRST, &TWO_HALVES, START)?;
    assert_eq!(rt; link.frames().len(), 4);
    let long = [0x10, 0x00, 0x05, 0xd8, 0x00, 0x00];
    let short = [0x10, 0x00, 0x03, 0x98, 0x00, 0x00];
    for (place, at, begins, field) in [
        (0, 15_436_800_000, long, [0, 0x00]),
        (1, 15_528_960_000, short, [0, 0x81]),
        (2, 15_607_296_000, long, [1, 0x00]),
        (3, 15_607_296_000, short, [1, 0x81]),
    ] {
        let mut wanted = [0; 8];
        wanted[..6].copy_from_slice(&begins);
        wanted[6..].copy_from_slice(&field);
        assert!(rt; is_sent(&link, place, at, &wanted));
    }
    assert_eq!(rt; size_of(&link, 0), 1_500);
    assert_eq!(rt; size_of(&link, 1), 924);
    Ok(())
}

/// All frames leave at once where Ta3 is 50 us at least and at most.
#[test]
fn frames_without_a_spread(rt: HostRuntime) -> Result<(), Fail> {
    let n = Numerology::ordinary(1).expect(&rt, "30 kHz");
    let config = config(n, Widths::new(4, 4, 4, 4)?, 60_000, 50_000, 1);
    let link = sent(rt.alloc(), &config, FIRST, &TWO_HALVES, START)?;
    assert_eq!(rt; link.frames().len(), 4);
    for place in 0..4 {
        assert!(rt; is_sent(&link, place, 15_436_800_000, &[0x10]));
    }
    Ok(())
}

/// Two commands in one frame: section 5 of PRB 2 with filterIndex 1, then the sections 6 and 7 of the PRBs 0 and 1 with filterIndex 0.
const TWO_FILTERS: [u8; 56] = [
    0x11, 0x02, 0x00, 0x14, 0x00, 0x00, 0x00, 0x80, 0x11, 0x01, 0x00, 0x00, 0x01, 0x01, 0x00, 0x00,
    0x00, 0x50, 0x02, 0x01, 0xff, 0xf1, 0x00, 0x00, 0x10, 0x02, 0x00, 0x1c, 0x00, 0x00, 0x01, 0x80,
    0x10, 0x01, 0x00, 0x00, 0x02, 0x01, 0x00, 0x00, 0x00, 0x60, 0x00, 0x01, 0xff, 0xf1, 0x00, 0x00,
    0x00, 0x70, 0x01, 0x01, 0xff, 0xf1, 0x00, 0x00,
];

/// A message has one filterIndex: of three sections of a symbol the last is alone.
#[test]
fn a_message_has_one_filter(rt: HostRuntime) -> Result<(), Fail> {
    let n = Numerology::ordinary(1).expect(&rt, "30 kHz");
    let config = config(n, Widths::new(4, 4, 4, 4)?, 1_000, 171_000, 3);
    let link = sent(rt.alloc(), &config, FIRST, &TWO_FILTERS, START)?;
    let both = [
        0x10, 0x00, 0x00, 0x70, 0x00, 0x00, 0x00, 0x80, 0x10, 0x01, 0x00, 0x00, 0x00, 0x60, 0x00,
        0x01,
    ];
    let other = [
        0x10, 0x00, 0x00, 0x3c, 0x00, 0x00, 0x01, 0x80, 0x11, 0x01, 0x00, 0x00, 0x00, 0x50, 0x02,
        0x01,
    ];
    assert_eq!(rt; link.frames().len(), 2);
    assert_eq!(rt; size_of(&link, 0), 116);
    assert!(rt; is_sent(&link, 0, 15_436_800_000, &both));
    assert!(rt; is_sent(&link, 1, 15_438_336_000, &other));
    Ok(())
}

/// An uplink command: symbol 0 of subframe 5 of frame -1, section 5, all elements of PRB 0.
const BEFORE_0: [u8; 24] = [
    0x10, 0x02, 0x00, 0x14, 0x00, 0x00, 0x00, 0x80, 0x10, 0xff, 0x50, 0x00, 0x01, 0x01, 0x00, 0x00,
    0x00, 0x50, 0x00, 0x01, 0xff, 0xf1, 0x00, 0x00,
];

/// frameId is 255 in frame -1, whose subframe 5 begins 5 ms before 0; the command is received 400 us before that.
#[test]
fn a_frame_before_0(rt: HostRuntime) -> Result<(), Fail> {
    let n = Numerology::ordinary(1).expect(&rt, "30 kHz");
    let config = config(n, Widths::new(4, 4, 4, 4)?, 1_000, 171_000, 1);
    let link = sent(
        rt.alloc(),
        &config,
        Ticks(-8_294_400_000),
        &BEFORE_0,
        Ticks(-7_680_000_000),
    )?;
    let wanted = [
        0x10, 0x00, 0x00, 0x3c, 0x00, 0x00, 0x00, 0x80, 0x10, 0xff, 0x50, 0x00, 0x00, 0x50, 0x00,
        0x01,
    ];
    assert_eq!(rt; link.frames().len(), 1);
    assert!(rt; is_sent(&link, 0, -7_603_200_000, &wanted));
    Ok(())
}
