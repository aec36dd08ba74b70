// Parts of a place's work, over plain values.
ghost use Rattle.std.specs.Prelude.{◌≡◌, ℕ, ◌+◌, ◌<◌, ◌≤◌, ◌++◌, length, take, drop, Some, None, if◌then◌else◌, ◌==◌, ◌^◌, pos, neg_ℤ, ◌≤ℤ◌, ◌+ℤ◌, int_le};
ghost use Rattle.ecpri_fragments.specs.Spans.{span_of, all_in, whole_in};
ghost use Rattle.ecpri_fragments.specs.Places.{IsBelow};

use crate::SeqField;
use crate::place::Span;
use fh_base::Ticks;

/// Whether a time falls in the generation that began then.
pub(crate) fn is_within(begun: Ticks, hold: Ticks, at: Ticks) -> bool
    requires begun_low { neg_ℤ (pos (2 ^ 56)) ≤ℤ begun.0 }
    requires begun_high { begun.0 ≤ℤ pos (2 ^ 56) }
    requires hold_low { pos 0 ≤ℤ hold.0 }
    requires hold_high { hold.0 ≤ℤ pos (2 ^ 56) }
    ensures { result ≡ int_le at.0 (begun.0 +ℤ hold.0) }
{
    at.0 <= begun.0 + hold.0
}

/// Writes the bytes over those from a place on.
pub(crate) fn write_at(into: &mut [u8], at: usize, bytes: &[u8])
    requires { at + length bytes.now ≤ length into.old }
    ensures { into.new ≡ take at into.old ++ bytes.now ++ drop (at + length bytes.now) into.old }
{
    into[at..at + bytes.len()].copy_from_slice(bytes);
}

/// Whether the first n pieces are there.
pub(crate) fn all_there(spans: &[Option<Span>], n: usize) -> bool
    requires { n ≤ length spans.now }
    ensures { result ≡ all_in spans.now n }
{
    for k in 0..n {
        if spans[k].is_none() {
            return false;
        }
    }
    true
}

/// Whether the pieces up to the one at the end are there.
pub(crate) fn is_whole(spans: &[Option<Span>], end: Option<u8>) -> bool
    requires { length spans.now ≡ 128 }
    ensures { IsBelow 128 end → result ≡ whole_in spans.now end }
{
    match end {
        None => false,
        Some(e) => e < 128 && all_there(spans, e as usize + 1),
    }
}

/// Forgets the first n pieces.
pub(crate) fn clear(spans: &mut [Option<Span>], n: usize)
    requires { n ≤ length spans.old }
    ensures gone { (k : ℕ) → k < n → span_of spans.new k ≡ None }
    ensures same { (k : ℕ) → n ≤ k → span_of spans.new k ≡ span_of spans.old k }
{
    for k in 0..n {
        spans[k] = None;
    }
}

/// When the first piece was received, where one is received now.
pub(crate) fn first_after(top: u8, first: Ticks, at: Ticks) -> Ticks
    ensures { result ≡ (if top == 0 then at else first) }
{
    if top == 0 { at } else { first }
}

/// The subsequence of the fragment with E = 1, where this one is stored now.
pub(crate) fn end_after(seq: SeqField, end: Option<u8>) -> Option<u8>
    ensures { result ≡ (if seq.last then Some seq.sub else end) }
{
    if seq.last { Some(seq.sub) } else { end }
}
