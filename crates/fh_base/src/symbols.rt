ghost use Rattle.std.specs.Prelude.{◌≡◌, ℕ, ℤ, pos, neg_ℤ, ◌+◌, ◌*◌, ◌/◌, ◌^◌, ◌<◌, ◌≤◌, ◌≤ℤ◌, ◌<ℤ◌, ◌+ℤ◌};
ghost use Rattle.fh_base.specs.Air.{air_of};
ghost use Rattle.fh_base.specs.declared.symbols.TheConstants.{SLOT_SYMBOLS};
ghost use Rattle.fh_base.specs.Frame.{frame_start};
ghost use Rattle.fh_base.specs.Kinds.{kind_slots, kind_symbols, kind_start};
ghost use Rattle.fh_base.specs.Numbering.{slots_of, symbols_of};
ghost use Rattle.fh_base.specs.Symbols.{longer_before, normal_start, prefixed, ticks_of_ts};
ghost use Rattle.fh_base.specs.declared.symbols.TheConstants.{SUBFRAME};

use crate::frames::FRAME;
use crate::kind::Kind;
use crate::numerology::Numerology;
use crate::spacing::Spacing;
use crate::values::{Slot, Ticks};

/// The symbols of a slot with the normal cyclic prefix, the most that a slot has (3GPP TS 38.211, 4.3.2).
pub const SLOT_SYMBOLS: usize = 14;

/// The ticks of one Ts.
const TS: u64 = 50_000;

/// The ticks of a subframe, which is 1 ms.
pub const SUBFRAME: u64 = 1_536_000_000;

/// The ticks of a symbol at 15 kHz, and what the first of each half of a subframe has more at every spacing.
pub(crate) const SYMBOL: u64 = 2_192 * 50_000;

pub(crate) const LONGER: u64 = 16 * 50_000;

/// The ticks of a symbol at 60 kHz with the extended cyclic prefix.
pub(crate) const EXTENDED: u64 = 640 * 50_000;

/// What one of the longer symbols adds to the time from one symbol of a subframe to another, in ticks.
fn longer_between(longer: u32, from: u32, to: u32) -> u64
    requires order { from ≤ to }
    ensures value { longer_before longer from + result ≡ longer_before longer to }
    ensures small { result ≤ 800000 }
{
    if from <= longer && longer < to {
        LONGER
    } else {
        0
    }
}

/// The time from one symbol of a subframe to another, in ticks, with the normal cyclic prefix.
fn time_between(u: u8, from: u32, to: u32) -> u64
    requires u { u ≤ 4 }
    requires order { from ≤ to }
    requires within { to ≤ SLOT_SYMBOLS * 2 ^ u }
    ensures value { normal_start u from + result ≡ normal_start u to }
    ensures small { result ≤ SUBFRAME }
{
    let each = SYMBOL >> u;
    (to - from) as u64 * each + longer_between(0, from, to) + longer_between(7 << u, from, to)
}

/// A symbol of an offset endpoint with its cyclic prefix, in ticks.
pub(crate) fn prefixed(spacing: Spacing, cp_length: u16) -> u64
    ensures value { result ≡ prefixed spacing cp_length }
    ensures small { result < 2 ^ 33 }
{
    spacing.useful() * TS + ((cp_length as u64 * TS) >> spacing.exponent())
}

/// The start of a symbol after its subframe's, in ticks.
fn start_in_subframe(kind: Kind, slot: u8, symbol: u8) -> u64
    requires slot { slot < kind_slots kind }
    requires symbol { symbol < kind_symbols kind }
    ensures value { result ≡ kind_start kind slot symbol }
    ensures small { result < 2 ^ 36 }
{
    match kind {
        Kind::Ordinary(spacing) => {
            let u = spacing.exponent();
            let begin = SLOT_SYMBOLS as u32 * slot as u32;
            time_between(u, 0, begin) + time_between(u, begin, begin + symbol as u32)
        }
        Kind::Offset {
            spacing,
            time_offset,
            cp_length,
        } => {
            let begin = time_between(spacing.exponent(), 0, SLOT_SYMBOLS as u32 * slot as u32);
            begin + time_offset as u64 * TS + symbol as u64 * prefixed(spacing, cp_length)
        }
        Kind::Extended => (12 * slot as u64 + symbol as u64) * EXTENDED,
    }
}

/// When a symbol is on the air: its start in ticks from the start of frame 0.
pub fn air(n: &Numerology, slot: Slot, symbol: u8) -> Ticks
    requires low { neg_ℤ (pos 1000000) ≤ℤ slot.frame }
    requires high { slot.frame ≤ℤ pos 1000000 }
    requires subframe { slot.subframe < 10 }
    requires slot { slot.slot < slots_of n.now }
    requires symbol { symbol < symbols_of n.now }
    ensures value { result.0 ≡ air_of n.now slot symbol }
    ensures not_before { frame_start slot.frame ≤ℤ result.0 }
    ensures soon { result.0 <ℤ (frame_start slot.frame +ℤ pos (2 ^ 37)) }
    ensures low { neg_ℤ (pos (2 ^ 56)) ≤ℤ result.0 }
    ensures high { result.0 ≤ℤ pos (2 ^ 56) }
{
    let within = slot.subframe as u64 * SUBFRAME + start_in_subframe(n.kind, slot.slot, symbol);
    Ticks(slot.frame * FRAME + within as i64)
}
