// The table of one endpoint.
ghost use Rattle.std.specs.Prelude.{◌≡◌, ℕ, pos, ◌+◌, ◌-◌, ◌^◌, ◌<◌, ◌≤◌, ◌≤ℤ◌, ◌<ℤ◌, ◌↔◌, true, false, not, IsTrue, [], ◌∷◌, length, IfOk, IfSome, IsNone, get_or};
ghost use Rattle.idle_spans.specs.Symbols.{IsAfter, ComesAfter, symbol_count};
ghost use Rattle.idle_spans.specs.Silence.{same_symbol, is_of_symbol};
ghost use Rattle.air_source.specs.Units.{is_down};
ghost use Rattle.idle_spans.specs.Places.{is_index};
ghost use Rattle.idle_spans.specs.Marked.{no_mark};
ghost use Rattle.idle_spans.specs.Runs.{count_from, IsLongRun};
ghost use Rattle.idle_spans.specs.Scans.{Begins, IsBegin, IsEnd, IsFirstRun, row_silent, row_missing, row_span, IsRowNext};

use crate::numbers::{frame_symbols, frames_between, is_symbol, number_in_frame, symbol_at};
use crate::places::{Mark, Place, Span};
use air_source::{AirCell, Side};
use fh_base::{NoMemory, Slot};
use std::alloc::Global;
use std::marker::Model;
use window_config::EndpointConfig;

/// The marks of an endpoint's symbols in some frames, in the order of slot and symbol.
#[derive(Drop)]
pub(crate) struct Row {
    endpoint: EndpointConfig,
    first: u32,
    last: u32,
    marks: Vec<Mark>,
}

impl Model for Row {
    ghost use Rattle.idle_spans.specs.Tables.{RowValue, IsRow};

    ghost Value = { RowValue };

    ghost view = { λ r. record { endpoint = r.endpoint; first = r.first; last = r.last; marks = r.marks.items } };

    ghost invariant = { λ r. IsRow (record { endpoint = r.endpoint; first = r.first; last = r.last; marks = r.marks.items }) };
}

/// So many marks, none of them set.
fn blank_marks(alloc: Global, count: usize) -> Result<Vec<Mark>, NoMemory>
    ensures size { IfOk result (λ v. length v.items ≡ count) }
    ensures blank { IfOk result (λ v. (k : ℕ) → get_or v.items k no_mark ≡ no_mark) }
{
    let blank = Mark {
        shown: false,
        missed: false,
    };
    Ok(vec![in alloc; blank; count]?)
}

/// Whether it is the radio unit.
fn is_radio(side: Side) -> bool
    ensures { result ≡ is_down side }
{
    match side {
        Side::Ru => true,
        Side::Du => false,
    }
}

impl Row {
    ghost use Rattle.idle_spans.specs.Tables.{RowValue, AreFrames, IsRow, MarksRow, mark_at, row_symbol};

    /// Takes all memory.
    pub(crate) fn make(
        alloc: Global,
        endpoint: EndpointConfig,
        first: u32,
        last: u32,
    ) -> Result<Row, NoMemory>
        requires { AreFrames first last }
        ensures endpoint { IfOk result (λ r. r.endpoint ≡ endpoint) }
        ensures first { IfOk result (λ r. r.first ≡ first) }
        ensures last { IfOk result (λ r. r.last ≡ last) }
        ensures size { IfOk result (λ r. length r.marks ≡ symbol_count endpoint.numerology first last) }
        ensures blank { IfOk result (λ r. (k : ℕ) → mark_at r k ≡ no_mark) }
    {
        let count = (last + 1 - first) as usize * frame_symbols(&endpoint.numerology);
        let marks = blank_marks(alloc, count)?;
        Ok(Row {
            endpoint,
            first,
            last,
            marks,
        })
    }

    /// The eAxC id of the endpoint.
    pub(crate) fn id(&self) -> u16
        ensures { result ≡ self.now.endpoint.id }
    {
        self.endpoint.id
    }

    /// How many symbols it has.
    pub(crate) fn symbols(&self) -> usize
        ensures count { result ≡ length self.now.marks }
        ensures few { result ≤ 22400 }
    {
        self.marks.len()
    }

    /// Whether a place lies before the frames.
    fn is_before(&self, place: Place) -> bool
        ensures { IsTrue result ↔ (place.slot.frame <ℤ pos self.now.first) }
    {
        place.slot.frame < i64::from(self.first)
    }

    /// Whether a place is after the frames.
    fn is_behind(&self, place: Place) -> bool
        ensures { IsTrue result ↔ (pos self.now.last <ℤ place.slot.frame) }
    {
        i64::from(self.last) < place.slot.frame
    }

    /// Whether the frame of a place is one of the table's.
    fn has_frame(&self, place: Place) -> bool
        ensures { IsTrue result ↔ ((pos self.now.first ≤ℤ place.slot.frame) × (place.slot.frame ≤ℤ pos self.now.last)) }
    {
        !self.is_before(place) && !self.is_behind(place)
    }

    /// The number of a symbol in the table. None exactly where the table has no such symbol.
    pub(crate) fn index(&self, place: Place) -> Option<usize>
        ensures within { IfSome result (λ i. i < length self.now.marks) }
        ensures place { (k : ℕ) → k < length self.now.marks → same_symbol place.slot place.symbol (row_symbol self.now k) ≡ is_index result k }
    {
        let numerology = &self.endpoint.numerology;
        if !self.has_frame(place) {
            return None;
        }
        if !is_symbol(numerology, place) {
            return None;
        }
        let frames = frames_between(self.first, place);
        Some(frames * frame_symbols(numerology) + number_in_frame(numerology, place))
    }

    /// The number of the symbol of a cell that the radio unit reports of this endpoint.
    fn cell_index(&self, c: &AirCell) -> Option<usize>
        ensures within { IfSome result (λ i. i < length self.now.marks) }
        ensures place { (k : ℕ) → k < length self.now.marks → is_of_symbol self.now.endpoint (row_symbol self.now k) c.now ≡ is_index result k }
    {
        if !is_radio(c.side) || c.id != self.endpoint.id {
            return None;
        }
        self.index(Place {
            slot: c.slot,
            symbol: c.symbol,
        })
    }

    /// Marks a cell of the radio unit in its symbol, and ignores all else.
    pub(crate) fn mark(&mut self, c: &AirCell)
        ensures { MarksRow self.old self.new (c.now ∷ []) }
    {
        if let Some(k) = self.cell_index(c) {
            let mark = &mut self.marks[k];
            if c.block.is_some() {
                mark.shown = true;
            } else {
                mark.missed = true;
            }
        }
    }

    /// Whether a symbol is silent.
    fn is_silent(&self, k: usize) -> bool
        requires { k < length self.now.marks }
        ensures { result ≡ row_silent self.now k }
    {
        !self.marks[k].shown
    }

    /// Whether a span begins at a symbol.
    fn begins(&self, k: usize) -> bool
        requires { k < length self.now.marks }
        ensures { IsTrue result ↔ Begins (row_silent self.now) k }
    {
        self.is_silent(k) && (k == 0 || !self.is_silent(k - 1))
    }

    /// The first symbol, from one on, at which a span begins.
    fn begin_from(&self, from: usize) -> Option<usize>
        ensures some { IfSome result (λ i. IsBegin (row_silent self.now) (length self.now.marks) from i) }
        ensures none { IsNone result → (k : ℕ) → from ≤ k → k < length self.now.marks → Begins (row_silent self.now) k → ⊥ }
    {
        for k in from..self.marks.len() {
            if self.begins(k) {
                return Some(k);
            }
        }
        None
    }

    /// The first symbol, from one on, that is not silent; the number of all symbols where there is none.
    fn end_from(&self, from: usize) -> usize
        requires { from ≤ length self.now.marks }
        ensures { IsEnd (row_silent self.now) (length self.now.marks) from result }
    {
        for k in from..self.marks.len() {
            if !self.is_silent(k) {
                return k;
            }
        }
        self.marks.len()
    }

    /// The first and the number of symbols of the first span of a least length, of those that begin at a symbol or after it.
    fn run_from(&self, start: usize, min: usize) -> Option<(usize, usize)>
        ensures some { IfSome result (λ r. IsFirstRun (row_silent self.now) (length self.now.marks) min start r.0 r.1) }
        ensures none { IsNone result → (k m : ℕ) → IsLongRun (row_silent self.now) (length self.now.marks) min k m → start ≤ k → ⊥ }
    {
        let mut from = start;
        while let Some(first) = self.begin_from(from) {
            let end = self.end_from(first);
            if min <= end - first {
                return Some((first, end - first));
            }
            from = end;
        }
        None
    }

    /// In how many of some symbols a cell is missing.
    fn missed_in(&self, first: usize, len: usize) -> u32
        requires { first + len ≤ length self.now.marks }
        ensures { result ≡ count_from (row_missing self.now) first len }
    {
        let mut missed = 0;
        for k in 0..len {
            missed += u32::from(self.marks[first + k].missed);
        }
        missed
    }

    /// The number of the first symbol that is after a place; the number of all symbols where none is.
    fn start_after(&self, place: Place) -> usize
        ensures { (k : ℕ) → k < length self.now.marks → ((result ≤ k) ↔ ComesAfter self.now.endpoint.numerology place (row_symbol self.now k)) }
    {
        if self.is_before(place) {
            return 0;
        }
        if self.is_behind(place) {
            return self.marks.len();
        }
        let each = frame_symbols(&self.endpoint.numerology);
        let number = number_in_frame(&self.endpoint.numerology, place) + 1;
        frames_between(self.first, place) * each + number.min(each)
    }

    /// The same, from the first symbol on where there is no place.
    fn start(&self, after: Option<Place>) -> usize
        ensures { (k : ℕ) → k < length self.now.marks → ((result ≤ k) ↔ IsAfter self.now.endpoint.numerology after (row_symbol self.now k)) }
    {
        match after {
            None => 0,
            Some(place) => self.start_after(place),
        }
    }

    /// The symbol with a number.
    pub(crate) fn symbol(&self, k: usize) -> Place
        requires { k < length self.now.marks }
        ensures value { result ≡ row_symbol self.now k }
        ensures few { length self.now.marks ≤ 22400 }
    {
        symbol_at(&self.endpoint.numerology, self.first, k)
    }

    /// The span of some symbols.
    fn span(&self, first: usize, len: usize) -> Span
        requires some { 1 ≤ len }
        requires within { first + len ≤ length self.now.marks }
        ensures { result ≡ row_span self.now first len }
    {
        Span {
            first: self.symbol(first),
            last: self.symbol(first + len - 1),
            symbols: len as u32,
            missed: self.missed_in(first, len),
        }
    }

    /// The first span of a least length that begins after a place.
    pub(crate) fn next(&self, after: Option<Place>, min: u32) -> Option<Span>
        ensures { IsRowNext self.now after min result }
    {
        let start = self.start(after);
        match self.run_from(start, min as usize) {
            None => None,
            Some((first, len)) => Some(self.span(first, len)),
        }
    }
}
