// A run of many slots.
ghost use Rattle.std.specs.Prelude.{◌≡◌, ◌<◌, true};
ghost use Rattle.air_source.specs.Answers.{Fits16};
ghost use Rattle.air_source.specs.Kept.{IsKept};
ghost use Rattle.uplink_path.specs.Steps.{IsSenderOf, IsUnitOf};
ghost use Rattle.air_source.specs.Tones.{tone_of};
ghost use Rattle.window_config.specs.Configs.{IsConfig};

use crate::uplink::commands::{comes, command, ends};
use crate::uplink::configs::config_of;
use crate::uplink::steps::{hand, made, pass, sender};
use crate::uplink::tally::{Tally, hand_on, tally_of};
use air_source::{MemoryAir, MemoryLink, RePlace, Samples, Tone, ToneSteps};
use bfp_codec::Wide;
use fh_base::List;
use ru_buffers::Ru;
use std::alloc::Global;
use uplink_path::Uplink;
use window_config::Config;

/// What the words of the program say.
#[derive(Clone, Copy)]
pub struct Load {
    pub slots: u16,
    /// The PRBs of each section, at most 106.
    pub prbs: u8,
    /// The bits of a mantissa; 0 where nothing is compressed.
    pub width: u16,
    pub fragment: u16,
    /// To how many other links the frames are handed.
    pub copies: u16,
}

/// Sends the uplink of so many slots. Whether all was sent.
fn send_slots<F: Fn(RePlace) -> Wide>(
    config: &Config,
    uplink: &mut Uplink<F>,
    unit: &mut Ru,
    air: &mut MemoryAir,
    link: &mut MemoryLink,
    load: &Load,
) -> bool
    requires unit { IsUnitOf config.now unit.old }
    requires sender { IsSenderOf F.pre F.post config.now uplink.old }
{
    for slot in 0..load.slots {
        if !pass(config, uplink, unit, air, link, comes(slot)) {
            return false;
        }
        let _read = hand(config, unit, &command(slot, load.prbs));
    }
    pass(config, uplink, unit, air, link, ends(load.slots))
}

/// What a unit with this antenna sends.
fn sent<F: Fn(RePlace) -> Wide>(
    alloc: Global,
    config: &Config,
    antenna: Samples<F>,
    load: &Load,
) -> Option<MemoryLink>
    requires config { IsConfig config.now }
    requires kept { IsKept F.pre F.post antenna }
{
    let mut unit = made(alloc, config)?;
    let mut uplink = sender(alloc, config, antenna)?;
    let mut air = MemoryAir::new(alloc, List::new(alloc));
    let mut link = MemoryLink::new(alloc);
    if send_slots(config, &mut uplink, &mut unit, &mut air, &mut link, load) {
        Some(link)
    } else {
        None
    }
}

/// Hands the frames to so many other links. Whether each has room.
fn hand_on_often(alloc: Global, link: &MemoryLink, copies: u16) -> bool {
    for _ in 0..copies {
        let mut other = MemoryLink::new(alloc);
        if hand_on(link, &mut other).is_err() {
            return false;
        }
    }
    true
}

/// What is sent of a load. None where there is no such load, or no memory.
pub fn run(alloc: Global, load: &Load) -> Option<Tally> {
    if load.prbs > 106 || load.slots > 1000 {
        return None;
    }
    let config = config_of(load.width, load.fragment)?;
    let steps = ToneSteps::of(Tone {
        seed: 1,
        amplitude: 1000,
    });
    let antenna = Samples::keep(
        |place: RePlace| -> Wide
            requires { place.re < 12 }
            ensures value { result ≡ tone_of steps place }
            ensures narrow { Fits16 result }
        { steps.at(place) },
    );
    let link = sent(alloc, &config, antenna, load)?;
    if hand_on_often(alloc, &link, load.copies) {
        Some(tally_of(&link))
    } else {
        None
    }
}
