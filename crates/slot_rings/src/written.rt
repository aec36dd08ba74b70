// Which cells of a slot may have been written, so that its lists are wiped there alone.
ghost use Rattle.std.specs.Prelude.{◌≡◌, ℕ, ◌+◌, ◌^◌, ◌<◌, ◌≤◌, true, false, get_or, vec_capacity, vec_len};
ghost use Rattle.unit_model.specs.Claims.{is_from};
ghost use Rattle.slot_rings.specs.Places.{cell_number};
ghost use Rattle.slot_rings.specs.Written.{AreBlankElsewhere, is_in_span, is_written};
ghost use Rattle.fh_base.specs.declared.symbols.TheConstants.{SLOT_SYMBOLS};

use crate::lists::overwrite;
use crate::rows::Span;
use fh_base::{PrbSpan, SLOT_SYMBOLS};

/// Of each symbol the PRBs whose cells may have been written.
pub(crate) type Spans = [Span; SLOT_SYMBOLS];

/// Those of a slot of which nothing was written.
pub(crate) const UNWRITTEN: Spans = [Span { first: 0, end: 0 }; SLOT_SYMBOLS];

impl Span {
    /// Whether none of some PRBs is in it.
    fn misses(self, prbs: PrbSpan) -> bool
        requires { prbs.first + prbs.count < 2 ^ 16 }
        ensures { result ≡ true → (n : ℕ) → is_from prbs.first prbs.count n ≡ true → is_in_span self n ≡ false }
    {
        self.end <= prbs.first || prbs.first + prbs.count <= self.first
    }

    /// A span of its PRBs and some more.
    fn widened(self, prbs: PrbSpan) -> Span
        requires { prbs.first + prbs.count < 2 ^ 16 }
        ensures own { (n : ℕ) → is_in_span self n ≡ true → is_in_span result n ≡ true }
        ensures more { (n : ℕ) → is_from prbs.first prbs.count n ≡ true → is_in_span result n ≡ true }
    {
        let end = prbs.first + prbs.count;
        if self.end <= self.first {
            Span {
                first: prbs.first,
                end,
            }
        } else {
            Span {
                first: self.first.min(prbs.first),
                end: self.end.max(end),
            }
        }
    }
}

/// Whether no cell of some PRBs of a symbol was written.
pub(crate) fn is_unwritten(spans: &Spans, symbol: usize, prbs: PrbSpan) -> bool
    requires symbol { symbol < SLOT_SYMBOLS }
    requires fits { prbs.first + prbs.count < 2 ^ 16 }
    ensures { result ≡ true → (all n : ℕ) → n < all → is_from prbs.first prbs.count n ≡ true → is_written all spans.now (cell_number all symbol n) ≡ false }
{
    spans[symbol].misses(prbs)
}

/// Takes note that the cells of some PRBs of a symbol are written.
pub(crate) fn widen(spans: &mut Spans, symbol: usize, prbs: PrbSpan)
    requires symbol { symbol < SLOT_SYMBOLS }
    requires fits { prbs.first + prbs.count < 2 ^ 16 }
    ensures own { (all k : ℕ) → is_written all spans.old k ≡ true → is_written all spans.new k ≡ true }
    ensures more { (all n : ℕ) → n < all → is_from prbs.first prbs.count n ≡ true → is_written all spans.new (cell_number all symbol n) ≡ true }
{
    spans[symbol] = spans[symbol].widened(prbs);
}

/// Makes the cells of a slot blank, of which these may have been written.
pub(crate) fn wipe<T: Copy + Drop>(list: &mut Vec<T>, spans: &Spans, prbs: u16, blank: T)
    requires { AreBlankElsewhere blank prbs spans.now list.old.items }
    ensures blank { (k : ℕ) → get_or list.new.items k blank ≡ blank }
    ensures len { vec_len list.new ≡ vec_len list.old }
    ensures capacity { vec_capacity list.old ≤ vec_capacity list.new }
{
    for symbol in 0..SLOT_SYMBOLS {
        let span = spans[symbol];
        let from = symbol * prbs as usize + span.first as usize;
        let count = span.end.saturating_sub(span.first) as usize;
        overwrite(list, from, count, blank);
    }
}
