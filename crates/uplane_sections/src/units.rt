//! What a whole unit of a message tells.
ghost use Rattle.std.specs.Prelude.{◌≡◌, ℕ, ◌+◌, ◌<◌, ◌≤◌, ◌^◌, List, ◌++◌, length, false};
ghost use Rattle.fh_base.specs.declared.values.Shape.{Shape as SpecShape};
ghost use Rattle.bfp_codec.specs.declared.methods.Format.{Format as SpecFormat};
ghost use Rattle.bfp_codec.specs.Layout.{length_of};
ghost use Rattle.uplane_sections.specs.Messages.{after};
ghost use Rattle.uplane_sections.specs.Phases.{Stops, resumed, feed_told, prbs_left, prb_bound, method_in_phase, behind, is_cut, is_short};

use crate::phases::{Phase, inside, opened};
use crate::read_header::head_at;
use crate::read_section::{method_at, section_from, symbol_at};
use crate::steps::UFeed;
use crate::values::{URefusal, USection, UWhy};
use bfp_codec::{Format, Method, unpack};
use fh_base::Shape;

/// What a unit tells, and the phase after it.
#[derive(Clone, Copy)]
pub(crate) struct Told {
    pub(crate) what: UFeed,
    pub(crate) phase: Phase,
}

/// A test fails, but not for the end of the message.
#[inline(always)]
fn refused(place: usize, why: UWhy) -> Told
    requires { is_cut why ≡ false }
    ensures what { result.what ≡ UFeed.Refused (record { place = place; why = why }) }
    ensures phase { result.phase ≡ Phase.Faulty (record { place = place; why = why }) }
{
    let refusal = URefusal { place, why };
    Told {
        what: UFeed::Refused(refusal),
        phase: Phase::Faulty(refusal),
    }
}

/// The message's header.
#[inline(always)]
pub(crate) fn head(shape: Shape, at: usize, bytes: &[u8]) -> Told
    requires { length bytes.now ≡ 4 }
    ensures tells { (format : SpecFormat) (prbs : ℕ) (rest : List ℕ) → resumed format prbs shape Phase.Start at (bytes.now ++ rest)
        ≡ after (feed_told result.what) (resumed format prbs shape result.phase (at + 4) rest) }
    ensures left { 0 < prbs_left result.phase }
    ensures bound { prb_bound result.phase < 2 ^ 16 }
    ensures least { 4 ≤ length_of (method_in_phase result.phase) }
    ensures most { length_of (method_in_phase result.phase) ≤ 49 }
    ensures behind { behind result.phase ≤ at + 4 }
    ensures stops { Stops result.what result.phase }
    ensures long { is_short result.phase ≡ false }
{
    match head_at(bytes, shape) {
        Ok(head) => Told {
            what: UFeed::Head(head),
            phase: Phase::Between(head.symbol),
        },
        Err(why) => refused(at, why),
    }
}

/// The first four bytes of a section.
#[inline(always)]
pub(crate) fn section(
    format: Format,
    prbs: u16,
    shape: Shape,
    before: u8,
    at: usize,
    bytes: &[u8],
) -> Told
    requires four { length bytes.now ≡ 4 }
    requires least { 4 ≤ length_of format.method }
    requires most { length_of format.method ≤ 49 }
    ensures tells { (rest : List ℕ) → resumed format prbs shape (Phase.Between before) at (bytes.now ++ rest)
        ≡ after (feed_told result.what) (resumed format prbs shape result.phase (at + 4) rest) }
    ensures left { 0 < prbs_left result.phase }
    ensures bound { prb_bound result.phase < 2 ^ 16 }
    ensures least { 4 ≤ length_of (method_in_phase result.phase) }
    ensures most { length_of (method_in_phase result.phase) ≤ 49 }
    ensures behind { behind result.phase ≤ at + 4 }
    ensures stops { Stops result.what result.phase }
    ensures long { is_short result.phase ≡ false }
{
    let symbol = match symbol_at(prbs, shape, before, bytes) {
        Ok(symbol) => symbol,
        Err(why) => return refused(at, why),
    };
    let s = section_from(bytes, symbol, format.method);
    if format.dynamic {
        return Told {
            what: UFeed::More,
            phase: Phase::Compression(s),
        };
    }
    Told {
        what: UFeed::Section(s),
        phase: opened(prbs, s),
    }
}

/// The compression header of a section.
#[inline(always)]
pub(crate) fn compression(prbs: u16, s: USection, at: usize, bytes: &[u8]) -> Told
    requires two { length bytes.now ≡ 2 }
    requires behind { 4 ≤ at }
    requires start { s.start_prb < 2 ^ 10 }
    ensures tells { (format : SpecFormat) (shape : SpecShape) (rest : List ℕ) → resumed format prbs shape (Phase.Compression s) at (bytes.now ++ rest)
        ≡ after (feed_told result.what) (resumed format prbs shape result.phase (at + 2) rest) }
    ensures left { 0 < prbs_left result.phase }
    ensures bound { prb_bound result.phase < 2 ^ 16 }
    ensures least { 4 ≤ length_of (method_in_phase result.phase) }
    ensures most { length_of (method_in_phase result.phase) ≤ 49 }
    ensures behind { behind result.phase ≤ at + 2 }
    ensures closes { behind result.phase ≡ 0 }
    ensures stops { Stops result.what result.phase }
    ensures long { is_short result.phase ≡ false }
{
    let method = match method_at(bytes) {
        Some(method) => method,
        None => return refused(at - 4, UWhy::Method),
    };
    let whole = USection { method, ..s };
    Told {
        what: UFeed::Section(whole),
        phase: opened(prbs, whole),
    }
}

/// A PRB.
pub(crate) fn block(
    method: Method,
    symbol: u8,
    prb: u16,
    left: u16,
    at: usize,
    bytes: &[u8],
) -> Told
    requires len { length bytes.now ≡ length_of method }
    requires least { 4 ≤ length_of method }
    requires most { length_of method ≤ 49 }
    requires left { 0 < left }
    requires bound { prb + left < 2 ^ 16 }
    ensures tells { (format : SpecFormat) (prbs : ℕ) (shape : SpecShape) (rest : List ℕ) → resumed format prbs shape (Phase.Inside method symbol prb left) at (bytes.now ++ rest)
        ≡ after (feed_told result.what) (resumed format prbs shape result.phase (at + length_of method) rest) }
    ensures left { 0 < prbs_left result.phase }
    ensures bound { prb_bound result.phase < 2 ^ 16 }
    ensures least { 4 ≤ length_of (method_in_phase result.phase) }
    ensures most { length_of (method_in_phase result.phase) ≤ 49 }
    ensures behind { behind result.phase ≤ at }
    ensures stops { Stops result.what result.phase }
    ensures long { is_short result.phase ≡ false }
{
    Told {
        what: UFeed::Block {
            prb,
            samples: unpack(method, bytes),
        },
        phase: inside(method, symbol, prb + 1, left - 1),
    }
}
