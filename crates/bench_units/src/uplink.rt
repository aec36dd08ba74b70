// The uplink of a radio unit.
mod commands;
mod configs;
mod running;
mod steps;
mod tally;

use crate::words::Ending;
use running::Load;
use std::alloc::Global;
use std::io;

/// The numbers that the words write.
fn load_of(words: &[&str]) -> Option<Load> {
    let [slots, prbs, width, fragment, copies] = *words else {
        return None;
    };
    Some(Load {
        slots: slots.parse::<u16>().ok()?,
        prbs: prbs.parse::<u8>().ok()?,
        width: width.parse::<u16>().ok()?,
        fragment: fragment.parse::<u16>().ok()?,
        copies: copies.parse::<u16>().ok()?,
    })
}

/// `SLOTS PRBS WIDTH FRAGMENT COPIES`: has a radio unit of one endpoint of 106 PRBs at 30 kHz send the uplink of so many slots: one section of
/// so many PRBs in each of 14 symbols, with the samples of a tone as mantissas of WIDTH bits (0: not compressed), in frames of at most
/// FRAGMENT bytes of a message. Then it hands the frames to COPIES other links. It prints how many frames and bytes were sent, and a
/// checksum.
pub fn run(rt: &impl Print, alloc: Global, words: &[&str]) -> io::Result<Ending> {
    let Some(load) = load_of(words) else {
        return Ok(Ending::BadWords);
    };
    match running::run(alloc, &load) {
        Some(tally) => {
            println!(rt;
                "{} slots: {} frames, {} bytes, sum {}",
                load.slots, tally.frames, tally.bytes, tally.sum
            )?
        }
        None => println!(rt; "no run")?,
    }
    Ok(Ending::Done)
}
