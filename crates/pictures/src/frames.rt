// When slots and symbols begin in a subframe, and how long a symbol lasts.
ghost use Rattle.std.specs.Prelude.{◌≡◌, ◌^◌, ◌<◌, ◌+◌};
ghost use Rattle.fh_base.specs.Numbering.{slots_of, symbols_of};
ghost use Rattle.pictures.specs.Frames.{start_of, slot_begin, duration_of};

use fh_base::{Numerology, Slot, air, offsets, shape};

/// The ticks of one Ts.
const TS: u64 = 50_000;

/// When a symbol begins, in ticks after its subframe.
fn start_of(n: &Numerology, slot: u8, symbol: u8) -> u64
    requires slot { slot < slots_of n.now }
    requires symbol { symbol < symbols_of n.now }
    ensures value { result ≡ start_of n.now slot symbol }
    ensures small { result < 2 ^ 37 }
{
    let slot = Slot {
        frame: 0,
        subframe: 0,
        slot,
    };
    air(n, slot, symbol).0 as u64
}

/// When a slot begins, in ticks after its subframe. An offset endpoint's symbols begin later.
pub(crate) fn slot_begin(n: &Numerology, slot: u8) -> u64
    requires { slot < slots_of n.now }
    ensures value { result ≡ slot_begin n.now slot }
    ensures small { result < 2 ^ 37 }
{
    let later = match offsets(n) {
        None => 0,
        Some((time_offset, _)) => u64::from(time_offset) * TS,
    };
    start_of(n, slot, 0).saturating_sub(later)
}

/// The time from a symbol to the next of its slot, or to the last from the one before it.
pub(crate) fn duration_of(n: &Numerology, slot: u8, symbol: u8) -> u64
    requires slot { slot < slots_of n.now }
    requires symbol { symbol < symbols_of n.now }
    ensures value { result ≡ duration_of n.now slot symbol }
    ensures small { result < 2 ^ 37 }
{
    let first = symbol.min(shape(n).symbols - 2);
    start_of(n, slot, first + 1).saturating_sub(start_of(n, slot, first))
}
