// What is told of a fragment that was received.
ghost use Rattle.std.specs.Prelude.{◌≡◌, ◌==◌};
ghost use Rattle.explain_records.specs.Turns.{named_by, same_first, told_of};
ghost use Rattle.unit_model.specs.Decoding.{has_way};
ghost use Rattle.unit_model.specs.Proper.{IsTime};

use air_source::Side;
use ecpri_fragments::Verdict;
use explain_heard::{FragmentHeard, symbol_named};
use fh_base::{Slot, Ticks};
use uplane_sections::{UHead, read_head};

/// How a fragment begins.
#[derive(Clone, Copy)]
pub(crate) struct FirstBytes {
    /// Its first eight bytes; a byte that it has not is 0.
    pub(crate) bytes: [u8; 8],
    /// How many of them it has.
    pub(crate) count: u8,
}

/// A fragment of data that was received at a unit.
#[derive(Clone, Copy)]
pub(crate) struct FragmentTold {
    /// The number of its arrival.
    pub(crate) number: u32,
    /// The endpoint's index in the configuration.
    pub(crate) ep: usize,
    /// Its sequence id.
    pub(crate) seq: u8,
    /// Its subsequence id.
    pub(crate) sub: u8,
    /// When it arrived.
    pub(crate) at: Ticks,
    /// What it was in its generation.
    pub(crate) verdict: Verdict,
    /// How it begins.
    pub(crate) start: FirstBytes,
    /// The slot and the symbol that it names, where it is of subsequence 0 and of the unit's direction.
    pub(crate) named: Option<(Slot, u8)>,
}

/// Whether two fragments begin alike.
pub(crate) fn same_first(a: &FirstBytes, b: &FirstBytes) -> bool
    ensures { result ≡ same_first a.now b.now }
{
    a.bytes == b.bytes && a.count == b.count
}

/// Whether a header has the direction of what is received at a unit.
fn has_way(side: Side, head: &UHead) -> bool
    ensures { result ≡ has_way side head.now }
{
    match side {
        Side::Ru => head.down,
        Side::Du => !head.down,
    }
}

/// The slot and the symbol that a fragment names, where it is of subsequence 0 and of the unit's direction.
fn named(side: Side, heard: &FragmentHeard) -> Option<(Slot, u8)>
    requires { IsTime heard.now.at.0 }
    ensures { result ≡ named_by side heard.now }
{
    if heard.seq.sub != 0 || heard.bytes < 4 {
        return None;
    }
    let start = [
        heard.start[0],
        heard.start[1],
        heard.start[2],
        heard.start[3],
    ];
    if has_way(side, &read_head(start)) {
        symbol_named(start, &heard.endpoint.numerology, heard.at)
    } else {
        None
    }
}

/// What is told of a fragment that was heard at a unit, in the arrival with a number.
pub(crate) fn told(side: Side, number: u32, heard: &FragmentHeard) -> FragmentTold
    requires { IsTime heard.now.at.0 }
    ensures { result ≡ told_of side number heard.now }
{
    FragmentTold {
        number,
        ep: heard.ep,
        seq: heard.seq.seq,
        sub: heard.seq.sub,
        at: heard.at,
        verdict: heard.verdict,
        start: FirstBytes {
            bytes: heard.start,
            count: heard.bytes.min(8) as u8,
        },
        named: named(side, heard),
    }
}
