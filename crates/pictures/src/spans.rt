// The subframes of a picture, and where times are in it.
ghost use Rattle.std.specs.Prelude.{◌≡◌, pos, neg_ℤ, ◌^◌, ◌<◌, ◌≤◌, ◌≤ℤ◌};
ghost use Rattle.pictures.specs.Spans.{IsSpan, begin_of, length_of, past, x_after, x_of, is_in};

use crate::scales::{or_zero, scaled};
use fh_base::SUBFRAME;

/// Subframes that follow one another: the frame and the subframe of the first, and how many they are.
#[derive(Clone, Copy, Debug, PartialEq, Eq)]
pub struct Span {
    pub frame: u32,
    pub subframe: u8,
    pub count: u8,
}

/// The start of the first subframe, in ticks.
pub(crate) fn begin_of(span: Span) -> u64
    requires { IsSpan span }
    ensures value { result ≡ begin_of span }
    ensures small { result < 2 ^ 51 }
{
    (10 * u64::from(span.frame) + u64::from(span.subframe)) * SUBFRAME
}

/// How long the subframes are together, in ticks.
pub(crate) fn length_of(span: Span) -> u64
    requires { IsSpan span }
    ensures value { result ≡ length_of span }
    ensures some { 0 < result }
    ensures small { result < 2 ^ 34 }
{
    u64::from(span.count) * SUBFRAME
}

/// How long after the start of the first subframe a time is, in ticks; 0 for a time before it.
pub(crate) fn past(span: Span, at: i64) -> u64
    requires span { IsSpan span }
    requires low { neg_ℤ (pos (2 ^ 62)) ≤ℤ at }
    requires high { at ≤ℤ pos (2 ^ 62) }
    ensures { result ≡ past span at }
{
    or_zero(at - begin_of(span) as i64)
}

/// Where a time is that is so long after the start of the first subframe; one after the last is at the end.
#[tactic(auto, unfolding(crate::specs::Spans::x_after))]
pub(crate) fn x_after(span: Span, ticks: u64) -> u32
    requires { IsSpan span }
    ensures value { result ≡ x_after span ticks }
    ensures low { 118 ≤ result }
    ensures high { result ≤ 1238 }
{
    118 + scaled(ticks, length_of(span), 1_120)
}

/// Where a time is.
pub(crate) fn x_of(span: Span, at: i64) -> u32
    requires span { IsSpan span }
    requires low { neg_ℤ (pos (2 ^ 62)) ≤ℤ at }
    requires high { at ≤ℤ pos (2 ^ 62) }
    ensures value { result ≡ x_of span at }
    ensures low { 118 ≤ result }
    ensures high { result ≤ 1238 }
{
    x_after(span, past(span, at))
}

/// Whether a time lies in the subframes. Their end does not.
pub(crate) fn is_in(span: Span, at: i64) -> bool
    requires { IsSpan span }
    ensures { result ≡ is_in span at }
{
    let begin = begin_of(span) as i64;
    begin <= at && at < begin + length_of(span) as i64
}
