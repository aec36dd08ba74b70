// Symbols by their numbers.
ghost use Rattle.std.specs.Prelude.{◌≡◌, ℕ, pos, ◌+◌, ◌^◌, ◌<◌, ◌≤◌, ◌≤ℤ◌, ◌↔◌, IsTrue};
ghost use Rattle.fh_base.specs.Numbering.{slots_of, symbols_of};
ghost use Rattle.idle_spans.specs.Symbols.{frame_symbols, number_in_frame, symbol_at};
ghost use Rattle.idle_spans.specs.Places.{IsSymbol};

use crate::places::Place;
use fh_base::{Numerology, Slot, shape};

/// How many symbols a frame has.
pub(crate) fn frame_symbols(n: &Numerology) -> usize
    ensures value { result ≡ frame_symbols n.now }
    ensures some { 0 < result }
    ensures most { result ≤ 2240 }
{
    let shape = shape(n);
    10 * shape.slots as usize * shape.symbols as usize
}

/// Whether an endpoint has this subframe, slot and symbol.
pub(crate) fn is_symbol(n: &Numerology, place: Place) -> bool
    ensures { IsTrue result ↔ IsSymbol n.now place }
{
    let shape = shape(n);
    place.slot.subframe < 10 && place.slot.slot < shape.slots && place.symbol < shape.symbols
}

/// The number of a symbol in its frame.
pub(crate) fn number_in_frame(n: &Numerology, place: Place) -> usize
    ensures value { result ≡ number_in_frame n.now place }
    ensures small { result < 100000 }
{
    let shape = shape(n);
    let slot = place.slot.subframe as usize * shape.slots as usize + place.slot.slot as usize;
    slot * shape.symbols as usize + place.symbol as usize
}

/// How many frames are before a place, from one on.
pub(crate) fn frames_between(first: u32, place: Place) -> usize
    requires order { pos first ≤ℤ place.slot.frame }
    requires few { place.slot.frame ≤ℤ pos (first + 9) }
    ensures value { place.slot.frame ≡ pos (first + result) }
    ensures few { result ≤ 9 }
{
    (place.slot.frame - i64::from(first)) as usize
}

/// The symbol with this number, 0 for the first symbol of a frame.
pub(crate) fn symbol_at(n: &Numerology, frame: u32, k: usize) -> Place
    requires k { k < 2 ^ 32 }
    ensures { result ≡ symbol_at n.now frame k }
{
    let shape = shape(n);
    let each = frame_symbols(n);
    let rest = k % each;
    let slots = rest / shape.symbols as usize;
    let frame = frame as usize + k / each;
    Place {
        slot: Slot {
            frame: frame as i64,
            subframe: (slots / shape.slots as usize) as u8,
            slot: (slots % shape.slots as usize) as u8,
        },
        symbol: (rest % shape.symbols as usize) as u8,
    }
}
