// Times of symbols, slots that follow each other, the frames that a frameId means, and the PRBs that a section names.
ghost use Rattle.std.specs.Prelude.{◌≤◌};

use crate::numerologies::numerology;
use crate::words::{byte, long, number, over};
use fh_base::{Numerology, Slot, Ticks, air, prb_span, resolve, shape, slot_after};
use std::str::SplitWhitespace;

/// A slot that an entry names.
#[derive(Clone, Copy)]
pub struct NamedSlot {
    numerology: Numerology,
    slot: Slot,
}

/// A symbol that an entry names.
#[derive(Clone, Copy)]
pub struct NamedSymbol {
    of: NamedSlot,
    symbol: u8,
}

/// The slot of `NUMEROLOGY FRAME SUBFRAME SLOT`, which other words may follow.
fn read_place(words: &mut SplitWhitespace<'_>) -> Option<NamedSlot> {
    let numerology = numerology(words.next()?)?;
    let frame = long(words)?;
    let subframe = byte(words)?;
    let slot = byte(words)?;
    Some(NamedSlot {
        numerology,
        slot: Slot {
            frame,
            subframe,
            slot,
        },
    })
}

/// The slot of `NUMEROLOGY FRAME SUBFRAME SLOT`.
pub fn read_slot(words: &mut SplitWhitespace<'_>) -> Option<NamedSlot> {
    let named = read_place(words)?;
    over(words)?;
    Some(named)
}

/// The symbol of `NUMEROLOGY FRAME SUBFRAME SLOT SYMBOL`.
pub fn read_symbol(words: &mut SplitWhitespace<'_>) -> Option<NamedSymbol> {
    let of = read_place(words)?;
    let symbol = byte(words)?;
    over(words)?;
    Some(NamedSymbol { of, symbol })
}

/// When a symbol starts. None where there is no such symbol, or its frame is more than a million frames from frame 0.
pub fn start(named: &NamedSymbol) -> Option<Ticks> {
    let shape = shape(&named.of.numerology);
    let slot = named.of.slot;
    if slot.frame < -1_000_000 || slot.frame > 1_000_000 || slot.subframe > 9 {
        return None;
    }
    if slot.slot >= shape.slots || named.symbol >= shape.symbols {
        return None;
    }
    Some(air(&named.of.numerology, slot, named.symbol))
}

/// The slot after one. None where there is no such slot, or its frame is more than a million frames from frame 0.
pub fn following(named: &NamedSlot) -> Option<Slot> {
    let slot = named.slot;
    if slot.frame < -1_000_000 || slot.frame > 1_000_000 || slot.subframe > 9 {
        return None;
    }
    if slot.slot >= shape(&named.numerology).slots {
        return None;
    }
    Some(slot_after(&named.numerology, slot))
}

/// The frame of `FRAMEID TICKS`: the one that a frameId means where it arrives at a time, which is at most 2^56 ticks
/// from the start of frame 0.
pub fn read_frame(words: &mut SplitWhitespace<'_>) -> Option<i64> {
    let frame_id = byte(words)?;
    let at = long(words)?;
    over(words)?;
    if at < -72_000_000_000_000_000 || at > 72_000_000_000_000_000 {
        return None;
    }
    Some(resolve(frame_id, Ticks(at)))
}

/// The PRBs of `STARTPRB NUMPRB PRBS`: the first and the number of those that a section names on a carrier of so many;
/// the inner None where they go past it.
pub fn read_prbs(words: &mut SplitWhitespace<'_>) -> Option<Option<(u16, u16)>> {
    let start = number(words)?;
    let count = byte(words)?;
    let prbs = number(words)?;
    over(words)?;
    Some(prb_span(start, count, prbs))
}
