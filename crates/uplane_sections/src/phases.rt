//! Where in a message a walker is.
ghost use Rattle.std.specs.Prelude.{◌≡◌, ℕ, ◌+◌, ◌<◌, ◌≤◌, ◌^◌, List, false};
ghost use Rattle.fh_base.specs.declared.values.Shape.{Shape as SpecShape};
ghost use Rattle.bfp_codec.specs.declared.methods.Format.{Format as SpecFormat};
ghost use Rattle.bfp_codec.specs.Layout.{length_of};
ghost use Rattle.fh_base.specs.Carrier.{first_of, count_of};
ghost use Rattle.uplane_sections.specs.Phases.{in_blocks, resumed, prbs_left, prb_bound, method_in_phase, behind, is_short};

use crate::values::{URefusal, USection};
use bfp_codec::Method;

/// The unit that is next.
#[derive(Clone, Copy)]
pub(crate) enum Phase {
    /// The message's header.
    Start,
    /// The first four bytes of a section, where this is the maintained symbol number; or the end.
    Between(u8),
    /// The compression header of a section, whose method is not known yet.
    Compression(USection),
    /// A PRB of a section.
    Inside {
        method: Method,
        symbol: u8,
        /// Its number on the carrier.
        prb: u16,
        /// How many PRBs are still to follow, this one included.
        left: u16,
    },
    /// Nothing: the message is refused.
    Faulty(URefusal),
}

/// The phase where so many PRBs of a section are still to follow.
pub(crate) fn inside(method: Method, symbol: u8, prb: u16, left: u16) -> Phase
    requires least { 4 ≤ length_of method }
    requires most { length_of method ≤ 49 }
    requires bound { prb + left < 2 ^ 16 }
    ensures leads { (format : SpecFormat) (prbs : ℕ) (shape : SpecShape) (at : ℕ) (rest : List ℕ)
        → in_blocks format prbs shape method symbol at prb left rest ≡ resumed format prbs shape result at rest }
    ensures left { 0 < prbs_left result }
    ensures bound { prb_bound result < 2 ^ 16 }
    ensures least { 4 ≤ length_of (method_in_phase result) }
    ensures most { length_of (method_in_phase result) ≤ 49 }
    ensures behind { behind result ≡ 0 }
    ensures long { is_short result ≡ false }
{
    if left == 0 {
        Phase::Between(symbol)
    } else {
        Phase::Inside {
            method,
            symbol,
            prb,
            left,
        }
    }
}

/// The phase after the headers of a section.
pub(crate) fn opened(prbs: u16, s: USection) -> Phase
    requires least { 4 ≤ length_of s.method }
    requires most { length_of s.method ≤ 49 }
    requires start { s.start_prb < 2 ^ 10 }
    ensures leads { (format : SpecFormat) (shape : SpecShape) (at : ℕ) (rest : List ℕ)
        → in_blocks format prbs shape s.method s.symbol at (first_of s.start_prb s.num_prb) (count_of prbs s.num_prb) rest
        ≡ resumed format prbs shape result at rest }
    ensures left { 0 < prbs_left result }
    ensures bound { prb_bound result < 2 ^ 16 }
    ensures least { 4 ≤ length_of (method_in_phase result) }
    ensures most { length_of (method_in_phase result) ≤ 49 }
    ensures behind { behind result ≡ 0 }
    ensures long { is_short result ≡ false }
{
    if s.num_prb == 0 {
        inside(s.method, s.symbol, 0, prbs)
    } else {
        inside(s.method, s.symbol, s.start_prb, s.num_prb as u16)
    }
}
