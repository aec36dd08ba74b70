// A link that has room for so many frames.
ghost use Rattle.std.specs.Prelude.{◌≡◌, ◌<◌, pos, neg_ℤ};
ghost use Rattle.window_config.specs.Configs.{IsConfig};

use crate::samples::{TWO_HALVES, config};
use crate::uplink_steps::{commanded, send, sender};
use air_source::{Link, MemoryLink, RePlace, Samples};
use bfp_codec::Wide;
use eaxc_map::Widths;
use fh_base::{NoMemory, Numerology, Ticks};
use std::alloc::Global;
use std::test::Fail;
use window_config::Config;

/// It refuses a frame once it has so many.
#[derive(Drop)]
struct ShortLink {
    room: usize,
    link: MemoryLink,
}

impl Link for ShortLink {
    ghost sent = { λ l. ⟦<MemoryLink as Link>⟧.sent l.link };

    fn send(&mut self, at: Ticks, ep: usize, frame: &[u8]) -> Result<(), NoMemory> {
        if self.link.frames().len() >= self.room {
            return Err(NoMemory);
        }
        self.link.send(at, ep, frame)
    }
}

/// How many frames are sent over a link with so much room before two calls answer `NoMemory`.
fn sent_before(alloc: Global, config: &Config, room: usize) -> Result<usize, NoMemory>
    requires { IsConfig config.now }
{
    let samples = Samples::keep(
        |place: RePlace| -> Wide
            requires { place.re < 12 }
            ensures i { result.i ≡ pos place.re }
            ensures q { result.q ≡ neg_ℤ (pos place.re) }
        {
            Wide {
                i: i32::from(place.re),
                q: -i32::from(place.re),
            }
        },
    );
    let mut unit = commanded(
        alloc,
        config,
        Ticks(14_745_600_000),
        &TWO_HALVES,
        Ticks(15_360_000_000),
    )?;
    let mut uplink = sender(alloc, config, samples)?;
    let mut link = ShortLink {
        room,
        link: MemoryLink::new(alloc),
    };
    match send(config, &mut uplink, &mut unit, &mut link) {
        Ok(()) => Err(NoMemory),
        Err(NoMemory) => {
            link.room = 99;
            match uplink.emit(&mut unit, &mut link) {
                Ok(()) => Err(NoMemory),
                Err(NoMemory) => Ok(link.link.frames().len()),
            }
        }
    }
}

#[test]
fn a_link_without_room(rt: HostRuntime) -> Result<(), Fail> {
    let n = Numerology::ordinary(1).expect(&rt, "30 kHz");
    let config = config(n, Widths::new(4, 4, 4, 4)?, 60_000, 161_000, 1);
    for room in 0..4 {
        assert_eq!(rt; sent_before(rt.alloc(), &config, room), Ok(room));
    }
    Ok(())
}
