// The command of each slot, and when it is received.
ghost use Rattle.std.specs.Prelude.{◌≤ℤ◌, ◌^◌, pos};
ghost use Rattle.fh_base.specs.declared.frames.TheConstants.{FRAME};

use fh_base::{FRAME, Ticks};

/// A slot of 30 kHz, in ticks.
const SLOT: i64 = 768_000_000;

/// A command is received so long before its slot, in ticks: 300 microseconds.
const AHEAD: i64 = 460_800_000;

/// When the slot with this number begins; slot 0 is the first of frame 1, which begins at 10 ms.
fn begins(slot: u16) -> i64
    ensures low { FRAME ≤ℤ result }
    ensures high { result ≤ℤ pos (2 ^ 52) }
{
    FRAME + i64::from(slot) * SLOT
}

/// When its command is received.
pub fn comes(slot: u16) -> Ticks {
    Ticks(begins(slot) - AHEAD)
}

/// A millisecond after the slot's end, when all of it was sent.
pub fn ends(slot: u16) -> Ticks {
    Ticks(begins(slot) + 3 * SLOT)
}

/// An uplink command for 14 symbols of a slot: section 1 of so many PRBs from the first on (O-RAN.WG4.CUS, section type 1).
pub fn command(slot: u16, prbs: u8) -> [u8; 24] {
    let subframe = slot / 2 % 10;
    let frame = 1 + slot / 20;
    [
        0x10,
        0x02,
        0x00,
        0x14,
        0x00,
        0x00,
        (slot % 256) as u8,
        0x80,
        0x10,
        (frame % 256) as u8,
        (subframe * 16) as u8,
        (slot % 2 * 64) as u8,
        0x01,
        0x01,
        0x00,
        0x00,
        0x00,
        0x10,
        0x00,
        prbs,
        0xff,
        0xfe,
        0x00,
        0x00,
    ]
}
