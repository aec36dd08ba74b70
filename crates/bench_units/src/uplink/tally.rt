// What was sent.
use air_source::{Link, MemoryLink};
use fh_base::NoMemory;

/// How many frames and bytes, and the sum of the frames' last bytes.
#[derive(Clone, Copy)]
pub struct Tally {
    pub frames: u64,
    pub bytes: u64,
    pub sum: u64,
}

/// The tally of what a link took.
pub fn tally_of(link: &MemoryLink) -> Tally {
    let mut tally = Tally {
        frames: 0,
        bytes: 0,
        sum: 0,
    };
    let frames = link.frames();
    for k in 0..frames.len() {
        if let Some(sent) = frames.get(k) {
            let bytes = sent.frame.as_slice();
            tally.frames = tally.frames.wrapping_add(1);
            tally.bytes = tally.bytes.wrapping_add(bytes.len() as u64);
            if let Some(last) = bytes.last() {
                tally.sum = tally.sum.wrapping_add(u64::from(*last));
            }
        }
    }
    tally
}

/// Hands the frames to another link.
pub fn hand_on(link: &MemoryLink, other: &mut MemoryLink) -> Result<(), NoMemory> {
    let frames = link.frames();
    for k in 0..frames.len() {
        if let Some(sent) = frames.get(k) {
            other.send(sent.at, sent.ep, sent.frame.as_slice())?;
        }
    }
    Ok(())
}
