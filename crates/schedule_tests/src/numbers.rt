// 308 messages of one endpoint: 22 in each symbol of a slot. The bytes and the times are worked out by hand.
ghost use Rattle.std.specs.Prelude.{◌≡◌, ◌<◌, pos, neg_ℤ};
ghost use Rattle.uplink_path.specs.Steps.{IsSenderOf, IsUnitOf};
ghost use Rattle.window_config.specs.Configs.{IsConfig};

use crate::samples::config;
use crate::uplink_frames::{FIRST, START, is_sent};
use crate::uplink_steps::{commanded, send, sender, step};
use air_source::{AirFault, MemoryAir, MemoryLink, RePlace, Samples};
use bfp_codec::Wide;
use eaxc_map::Widths;
use fh_base::{List, NoMemory, Numerology};
use ru_buffers::Ru;
use std::alloc::Global;
use std::test::Fail;
use uplink_path::Uplink;
use window_config::Config;

/// An uplink command for the 14 symbols of frame 1's first slot: section k of PRB k, for k up to 21.
fn command() -> [u8; 192] {
    let mut frame = [0; 192];
    frame[0] = 0x10;
    frame[1] = 0x02;
    frame[3] = 0xbc;
    frame[7] = 0x80;
    frame[8] = 0x10;
    frame[9] = 0x01;
    frame[12] = 22;
    frame[13] = 0x01;
    for k in 0..22usize {
        let prb = k as u8;
        frame[16 + 8 * k] = prb / 16;
        frame[17 + 8 * k] = prb % 16 * 16;
        frame[18 + 8 * k] = prb;
        frame[19 + 8 * k] = 1;
        frame[20 + 8 * k] = 0xff;
        frame[21 + 8 * k] = 0xfe;
    }
    frame
}

/// Lets time pass to the next moment, if there is one.
fn pass_to_next(config: &Config, unit: &mut Ru, air: &mut MemoryAir) -> Result<(), AirFault>
    requires { IsUnitOf config.now unit.old }
    ensures { IsUnitOf config.now unit.new }
{
    let _same = config.fragment;
    match unit.due() {
        Some(moment) => step(config, unit, moment, air),
        None => Ok(()),
    }
}

/// Sends what is due at each of 14 moments: 22 frames at each.
fn send_in_turn<F: Fn(RePlace) -> Wide>(
    config: &Config,
    uplink: &mut Uplink<F>,
    unit: &mut Ru,
    air: &mut MemoryAir,
    link: &mut MemoryLink,
) -> Result<(), NoMemory>
    requires unit { IsUnitOf config.now unit.old }
    requires sender { IsSenderOf F.pre F.post config.now uplink.old }
{
    for turn in 0..14usize {
        send(config, uplink, unit, link)?;
        if link.frames().len() != 22 * (turn + 1) {
            return Err(NoMemory);
        }
        if pass_to_next(config, unit, air) != Ok(()) {
            return Err(NoMemory);
        }
    }
    Ok(())
}

fn sent_in_turn(alloc: Global, config: &Config) -> Result<MemoryLink, NoMemory>
    requires { IsConfig config.now }
{
    let samples = Samples::keep(
        |place: RePlace| -> Wide
            requires { place.re < 12 }
            ensures i { result.i ≡ pos place.re }
            ensures q { result.q ≡ neg_ℤ (pos place.re) }
        {
            Wide {
                i: i32::from(place.re),
                q: -i32::from(place.re),
            }
        },
    );
    let mut unit = commanded(alloc, config, FIRST, &command(), START)?;
    let mut uplink = sender(alloc, config, samples)?;
    let mut air = MemoryAir::new(alloc, List::new(alloc));
    let mut link = MemoryLink::new(alloc);
    send_in_turn(config, &mut uplink, &mut unit, &mut air, &mut link)?;
    Ok(link)
}

/// Sequence id 0 follows 255; each symbol begins its own gaps.
#[test]
fn sequence_ids_wrap(rt: HostRuntime) -> Result<(), Fail> {
    let n = Numerology::ordinary(1).expect(&rt, "30 kHz");
    let config = config(n, Widths::new(4, 4, 4, 4)?, 1_000, 171_000, 1);
    let link = sent_in_turn(rt.alloc(), &config)?;
    let next_symbol = [
        0x10, 0x00, 0x00, 0x3c, 0x00, 0x00, 0x16, 0x80, 0x10, 0x01, 0x00, 0x01, 0x00, 0x00, 0x00,
        0x01,
    ];
    let last_id = [
        0x10, 0x00, 0x00, 0x3c, 0x00, 0x00, 0xff, 0x80, 0x10, 0x01, 0x00, 0x0b, 0x00, 0xd0, 0x0d,
        0x01,
    ];
    let first_id = [
        0x10, 0x00, 0x00, 0x3c, 0x00, 0x00, 0x00, 0x80, 0x10, 0x01, 0x00, 0x0b, 0x00, 0xe0, 0x0e,
        0x01,
    ];
    assert_eq!(rt; link.frames().len(), 308);
    assert!(rt; is_sent(&link, 22, 15_492_400_000, &next_symbol));
    assert!(rt; is_sent(&link, 255, 16_060_368_000, &last_id));
    assert!(rt; is_sent(&link, 256, 16_061_904_000, &first_id));
    Ok(())
}
