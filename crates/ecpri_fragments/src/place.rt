// The memory for the message of an id that is in the making.
ghost use Rattle.std.specs.Prelude.{◌≡◌, ℕ, ◌+◌, ◌<◌, ◌≤◌, pos, ◌≤ℤ◌, neg_ℤ, ◌^◌};
ghost use Rattle.std.specs.Option.{ForSome};
ghost use Rattle.ecpri_fragments.specs.Spans.{Inside, EmptyFrom};
ghost use Rattle.ecpri_fragments.specs.declared.place.TheConstants.{MESSAGE_BYTES};

use crate::parts::{clear, end_after, first_after, is_whole, is_within, write_at};
use crate::{SeqField, Verdict};
use fh_base::Ticks;

/// The most application bytes of a message.
pub const MESSAGE_BYTES: usize = 16_384;

/// How many subsequence ids there are.
pub(crate) const SUBSEQUENCES: usize = 128;

/// When a generation began.
#[derive(Clone, Copy)]
pub(crate) struct Begun {
    pub(crate) at: Ticks,
    ghost low: { neg_ℤ (pos (2 ^ 56)) ≤ℤ at.0 },
    ghost high: { at.0 ≤ℤ pos (2 ^ 56) },
}

/// Where a piece lies in the memory of its place.
#[derive(Clone, Copy)]
pub(crate) struct Span {
    from: u16,
    len: u16,
}

#[derive(Drop)]
pub(crate) struct Place {
    begun: Option<Ticks>,
    first: Ticks,
    last: Ticks,
    end: Option<u8>,
    top: u8,
    whole: bool,
    // how many bytes are stored
    used: u16,
    spans: [Option<Span>; SUBSEQUENCES],
    bytes: [u8; MESSAGE_BYTES],
    ghost filled: { used ≤ MESSAGE_BYTES },
    ghost inside: { Inside spans used },
    ghost beyond: { EmptyFrom spans top },
    ghost tops: { top ≤ 128 },
    ghost begun_low: { ForSome begun (λ t. neg_ℤ (pos (2 ^ 56)) ≤ℤ t.0) },
    ghost begun_high: { ForSome begun (λ t. t.0 ≤ℤ pos (2 ^ 56)) },
}

impl Place {
    ghost use Rattle.std.specs.Prelude.{Some, None, [], ◌∷◌, length, List, Option, ℤ, slice_index_or};
    ghost use Rattle.ecpri_fragments.specs.Generations.{Fragment, Generation, fragment, begins, start_in, held_in};
    ghost use Rattle.ecpri_fragments.specs.Verdicts.{refused, standing};
    ghost use Rattle.ecpri_fragments.specs.Spans.{span_of, bytes_of};
    ghost use Rattle.ecpri_fragments.specs.Places.{Holds, IsDone, Stands, StandsIn, Joins, Puts, table_of, refused_in};

    /// A place in which nothing is stored.
    pub(crate) fn new() -> Place
        ensures { StandsIn result [] }
    {
        Place {
            begun: None,
            first: Ticks(0),
            last: Ticks(0),
            end: None,
            top: 0,
            whole: false,
            used: 0,
            spans: [None; SUBSEQUENCES],
            bytes: [0; MESSAGE_BYTES],
        }
    }

    /// Forgets its generation, so that the next fragment begins one.
    pub(crate) fn leave(&mut self)
        ensures { StandsIn self.new [] }
    {
        self.begun = None;
    }

    /// When its generation began, where the message of that is whole.
    pub(crate) fn done(&self) -> Option<Begun>
        ensures { (gs : List Generation) → StandsIn self.now gs → ForSome result (λ b. IsDone b.at.0 gs) }
    {
        if !self.whole {
            return None;
        }
        match self.begun {
            Some(at) => Some(Begun { at }),
            None => None,
        }
    }

    /// Forgets what is stored.
    fn begin(&mut self, at: Ticks)
        requires low { neg_ℤ (pos (2 ^ 56)) ≤ℤ at.0 }
        requires high { at.0 ≤ℤ pos (2 ^ 56) }
        ensures { Stands self.new at.0 [] }
    {
        clear(&mut self.spans, self.top as usize);
        self.used = 0;
        self.begun = Some(at);
        self.first = Ticks(0);
        self.last = Ticks(0);
        self.end = None;
        self.top = 0;
        self.whole = false;
    }

    /// Whether what arrives now begins a generation.
    fn is_over(&self, hold: Ticks, at: Ticks) -> bool
        requires hold_low { pos 0 ≤ℤ hold.0 }
        requires hold_high { hold.0 ≤ℤ pos (2 ^ 56) }
        ensures { (gs : List Generation) → StandsIn self.now gs → result ≡ begins hold.0 at.0 gs }
    {
        match self.begun {
            Some(begun) => !is_within(begun, hold, at),
            None => true,
        }
    }

    /// Why a fragment of this length does not join those that are stored.
    fn refusal(&self, seq: SeqField, len: usize) -> Option<Verdict>
        requires sub { seq.sub < 128 }
        ensures room { result ≡ None → self.now.used + len ≤ MESSAGE_BYTES }
        ensures refused { result ≡ refused_in (table_of self.now) seq.sub seq.last len }
    {
        if self.whole || self.spans[seq.sub as usize].is_some() {
            return Some(Verdict::Repeat);
        }
        if let Some(end) = self.end
            && end < seq.sub
        {
            return Some(Verdict::Stray);
        }
        if seq.last && seq.sub + 1 < self.top {
            return Some(Verdict::Stray);
        }
        if len > MESSAGE_BYTES - self.used as usize {
            return Some(Verdict::TooLong);
        }
        None
    }

    /// Stores a fragment.
    fn store(&mut self, at: Ticks, seq: SeqField, bytes: &[u8])
        requires sub { seq.sub < 128 }
        requires fits { self.old.used + length bytes.now ≤ MESSAGE_BYTES }
        ensures holds { (ep : ℕ) (s : List Fragment) → Holds (table_of self.old) s → refused s (fragment ep at seq bytes.now) ≡ None → Holds (table_of self.new) (fragment ep at seq bytes.now ∷ s) }
        ensures same_begun { self.new.begun ≡ self.old.begun }
    {
        let span = Span {
            from: self.used,
            len: bytes.len() as u16,
        };
        write_at(&mut self.bytes, span.from as usize, bytes);
        self.used += span.len;
        self.spans[seq.sub as usize] = Some(span);
        self.first = first_after(self.top, self.first, at);
        self.last = at;
        self.top = self.top.max(seq.sub + 1);
        self.end = end_after(seq, self.end);
        self.whole = is_whole(&self.spans, self.end);
    }

    /// Begins a generation where none is there or the last one is over.
    fn enter(&mut self, hold: Ticks, at: Ticks)
        requires hold_low { pos 0 ≤ℤ hold.0 }
        requires hold_high { hold.0 ≤ℤ pos (2 ^ 56) }
        requires low { neg_ℤ (pos (2 ^ 56)) ≤ℤ at.0 }
        requires high { at.0 ≤ℤ pos (2 ^ 56) }
        ensures { (gs : List Generation) → StandsIn self.old gs → Stands self.new (start_in hold.0 at.0 gs) (standing (held_in hold.0 at.0 gs)) }
    {
        if self.is_over(hold, at) {
            self.begin(at);
        }
    }

    /// Takes a fragment into the current generation.
    fn join(&mut self, at: Ticks, seq: SeqField, bytes: &[u8]) -> Verdict
        requires sub { seq.sub < 128 }
        ensures { (ep : ℕ) (start : ℤ) (s : List Fragment) → Stands self.old start s → Joins start s (fragment ep at seq bytes.now) result self.new }
    {
        if let Some(why) = self.refusal(seq, bytes.len()) {
            return why;
        }
        self.store(at, seq, bytes);
        if self.whole {
            Verdict::Whole
        } else {
            Verdict::Stored
        }
    }

    /// Takes a fragment.
    pub(crate) fn put(&mut self, hold: Ticks, at: Ticks, seq: SeqField, bytes: &[u8]) -> Verdict
        requires sub { seq.sub < 128 }
        requires hold_low { pos 0 ≤ℤ hold.0 }
        requires hold_high { hold.0 ≤ℤ pos (2 ^ 56) }
        requires low { neg_ℤ (pos (2 ^ 56)) ≤ℤ at.0 }
        requires high { at.0 ≤ℤ pos (2 ^ 56) }
        ensures { (ep : ℕ) (gs : List Generation) → StandsIn self.old gs → Puts hold.0 gs (fragment ep at seq bytes.now) result self.new }
    {
        self.enter(hold, at);
        self.join(at, seq, bytes)
    }

    /// How many pieces a whole message has.
    pub(crate) fn count(&self) -> usize
        ensures at_most { result ≤ 128 }
        ensures value { (e : ℕ) → self.now.end ≡ Some e → e < 128 → result ≡ e + 1 }
    {
        match self.end {
            Some(e) => (e as usize + 1).min(SUBSEQUENCES),
            None => 0,
        }
    }

    pub(crate) fn piece(&self, k: usize) -> &[u8]
        requires { k < 128 }
        ensures { result.now ≡ bytes_of (span_of self.now.spans k) self.now.bytes }
    {
        match self.spans[k] {
            Some(span) => {
                let from = span.from as usize;
                &self.bytes[from..from + span.len as usize]
            }
            None => &[],
        }
    }

    pub(crate) fn first(&self) -> Ticks
        ensures { result ≡ self.now.first }
    {
        self.first
    }

    pub(crate) fn last(&self) -> Ticks
        ensures { result ≡ self.now.last }
    {
        self.last
    }
}
