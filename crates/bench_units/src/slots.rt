// The frames of one slot, and their numbers in the next.
ghost use Rattle.std.specs.Prelude.{◌≤ℤ◌, ◌^◌, pos, IfSome};
ghost use Rattle.unit_model.specs.Proper.{IsTime};
ghost use Rattle.window_config.specs.Configs.{IsConfig};

use air_source::Side;
use fh_base::{INPUT_LIMIT, List, NoMemory, Source, Ticks, of_ns, read_all};
use fh_document::{Document, Injection, read};
use std::alloc::Global;

/// A slot of 30 kHz, in nanoseconds.
const SLOT: i64 = 500_000;

/// The slots of a subframe of 30 kHz.
const SLOTS: u16 = 2;

/// The messages of data that a slot has.
const MESSAGES: u8 = 14;

/// A frame of one message, and when it arrives, in nanoseconds.
#[derive(Drop)]
pub struct TimedFrame {
    pub at: i64,
    pub frame: Vec<u8>,
}

/// The document that a source has. `None` where it is none, or cannot be read.
pub fn document_of<S: Source>(alloc: Global, source: &mut S) -> Option<Document>
    ensures { IfSome result (λ d. IsConfig d.config) }
{
    let Ok(bytes) = read_all(alloc, source, INPUT_LIMIT) else {
        return None;
    };
    match read(alloc, bytes.as_slice()) {
        Ok(document) => Some(document),
        Err(_) => None,
    }
}

/// Copies of the frames that arrive at a unit.
pub fn frames_of(
    alloc: Global,
    injections: &List<Injection>,
    side: Side,
) -> Result<Vec<TimedFrame>, NoMemory> {
    let mut frames = Vec::new(alloc);
    for k in 0..injections.len() {
        match injections.get(k) {
            Some(injection) if injection.side == side => {
                let frame = Vec::from_slice(alloc, injection.frame.as_slice())?;
                frames.push(TimedFrame {
                    at: injection.at,
                    frame,
                })?;
            }
            _ => {}
        }
    }
    Ok(frames)
}

/// A time so many slots later, where it is none before time 0 and none after 1,000 seconds.
pub fn later(at: i64, slots: u16) -> Option<Ticks>
    ensures most { IfSome result (λ t. t.0 ≤ℤ pos (2 ^ 52)) }
    ensures time { IfSome result (λ t. IsTime t.0) }
{
    if 0 <= at && at <= 1_000_000_000_000 {
        Some(of_ns(at + slots as i64 * SLOT))
    } else {
        None
    }
}

/// The words of frameId, and of subframeId, slotId and symbolId, of the slot after theirs.
fn next_slot(frame_id: u8, word: u16) -> (u8, u16) {
    let symbol = word % 64;
    let slot = word / 64 % 64 + 1;
    let subframe = word / 4096;
    if slot < SLOTS {
        (frame_id, subframe * 4096 + slot * 64 + symbol)
    } else if subframe < 9 {
        (frame_id, (subframe + 1) * 4096 + symbol)
    } else {
        (frame_id.wrapping_add(1), symbol)
    }
}

/// Gives a message the sequence id that it has in the next slot, and the numbers of that slot where it is the first fragment.
fn to_next_slot(frame: &mut [u8]) {
    if frame.len() < 12 {
        return;
    }
    let messages = if frame[1] == 2 { 1 } else { MESSAGES };
    frame[6] = frame[6].wrapping_add(messages);
    if frame[7] % 128 == 0 {
        let word = u16::from_be_bytes([frame[10], frame[11]]);
        let (frame_id, word) = next_slot(frame[9], word);
        let bytes = word.to_be_bytes();
        frame[9] = frame_id;
        frame[10] = bytes[0];
        frame[11] = bytes[1];
    }
}

/// Gives all frames the numbers of the next slot.
pub fn all_to_next_slot(frames: &mut Vec<TimedFrame>) {
    for k in 0..frames.len() {
        to_next_slot(frames[k].frame.as_mut_slice());
    }
}
