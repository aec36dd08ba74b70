//! The bytes of a message from one place to another.
ghost use Rattle.std.specs.Prelude.{◌≡◌, ℕ, ◌+◌, ◌-◌, ◌≤◌, List, ◌++◌, length, take, drop};
ghost use Rattle.frame_bytes.specs.Cuts.{cut};
ghost use Rattle.frame_bytes.specs.Written.{Stands};

use crate::pieces::Span;

/// Writes the bytes over those from a place on.
pub(crate) fn write_at(into: &mut [u8], at: usize, bytes: &[u8])
    requires { at + length bytes.now ≤ length into.old }
    ensures { into.new ≡ take at into.old ++ bytes.now ++ drop (at + length bytes.now) into.old }
{
    into[at..at + bytes.len()].copy_from_slice(bytes);
}

/// Writes what the span holds of bytes that are at a place of a message.
pub(crate) fn write_cut(span: Span, place: usize, bytes: &[u8], into: &mut [u8])
    requires order { span.from ≤ span.to }
    requires room { span.to - span.from ≤ length into.old }
    requires fits { place + length bytes.now ≤ usize.MAX }
    ensures stands { (before : List ℕ) → length before ≡ place → Stands span before into.old → Stands span (before ++ bytes.now) into.new }
    ensures len { length into.new ≡ length into.old }
{
    let end = (place + bytes.len()).min(span.to);
    let start = place.max(span.from);
    if start < end {
        write_at(into, start - span.from, &bytes[start - place..end - place]);
    }
}
