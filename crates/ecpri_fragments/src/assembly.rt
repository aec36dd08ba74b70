// The memory of all endpoints, and leases on it.
ghost use Rattle.std.specs.Prelude.{◌≡◌, ℕ, ◌+◌, ◌*◌, ◌<◌, ◌≤◌, vec_len, pos, ◌≤ℤ◌, neg_ℤ, ◌^◌};
ghost use Rattle.std.specs.Option.{ForSome};

use crate::parts::is_within;
use crate::place::{Begun, Place};
use crate::pool::Pool;
use crate::{SeqField, Verdict};
use fh_base::{NoMemory, Ticks};
use std::alloc::Global;

/// How many sequence ids an endpoint has.
const IDS: usize = 256;

/// The fragments of all endpoints, in memory that is taken once: for each endpoint and each of its 256 sequence ids
/// a place of 16,384 bytes. An id has a place from the first fragment of a message until the next call after its last,
/// and is handed one that was given back where there is one: so memory that is never needed is never touched.
#[derive(Drop)]
pub struct Assembly {
    hold: Ticks,
    endpoints: usize,
    pool: Pool,
    // when the last generation of an id without a place began, whose message is whole
    done: Vec<Option<Begun>>,
    // whose fragment arrived last
    last: Option<usize>,
    ghost hold_low: { pos 0 ≤ℤ hold.0 },
    ghost hold_high: { hold.0 ≤ℤ pos (2 ^ 56) },
    ghost per_endpoint: { vec_len pool.numbers ≡ endpoints * 256 },
    ghost done_per_endpoint: { vec_len done ≡ endpoints * 256 },
    ghost last_below: { ForSome last (λ id. id < endpoints * 256) },
}

/// A complete message, lent from the memory in which its pieces are stored.
#[derive(Clone, Copy)]
pub struct Lease<'a> {
    place: &'a Place,
    count: usize,
    ghost within: { count ≤ 128 },
}

/// What became of a fragment.
#[derive(Clone, Copy)]
pub enum Taken<'a> {
    /// It is stored, and its message is not complete yet.
    Stored,
    /// It is stored, and its message is complete now.
    Whole(Lease<'a>),
    /// A duplicate: one with its subsequence is stored, or the message was complete before it was received.
    Repeat,
    /// It lies beyond the fragment with E = 1, or has E = 1 and one that is stored lies beyond it.
    Stray,
    /// With it more than 16,384 bytes would be stored.
    TooLong,
}

impl Assembly {
    ghost use Rattle.std.specs.Prelude.{Some, None, Option, false, List, [], ◌∷◌, IfOk, slice_get};
    ghost use Rattle.std.specs.Borrow.{sem};
    ghost use Rattle.ecpri_fragments.specs.Generations.{Fragment, fragment};
    ghost use Rattle.ecpri_fragments.specs.Verdicts.{verdict_on, standing_before};
    ghost use Rattle.ecpri_fragments.specs.Assemblies.{StandsFor, AnswersAfter, Answers, Took, endpoints_of, hold_of, repeats};
    ghost use Rattle.ecpri_fragments.specs.declared.place.Begun.{Begun};
    ghost use Rattle.ecpri_fragments.specs.declared.verdict.Verdict.TheVariants.{Whole};
    ghost use Rattle.ecpri_fragments.specs.After.{EndsWith};

    /// Takes all memory, for at most 16 endpoints: 256 places of 16,384 bytes each. A generation holds what arrives
    /// up to `hold` ticks after its first fragment, `hold` included.
    #[tactic(auto, unfolding(crate::specs::Assemblies::StandsFor))]
    pub fn make(alloc: Global, endpoints: usize, hold: Ticks) -> Result<Assembly, NoMemory>
        requires few { endpoints ≤ 16 }
        requires hold_low { pos 0 ≤ℤ hold.0 }
        requires hold_high { hold.0 ≤ℤ pos (2 ^ 56) }
        ensures endpoints { IfOk result (λ a. endpoints_of a ≡ endpoints) }
        ensures hold { IfOk result (λ a. hold_of a ≡ hold.0) }
        ensures stands { IfOk result (λ a. StandsFor a []) }
    {
        let ids = endpoints * IDS;
        let pool = Pool::make(alloc, ids)?;
        let done = vec![in alloc; None; ids]?;
        Ok(Assembly {
            hold,
            endpoints,
            pool,
            done,
            last: None,
        })
    }

    /// Gives back the place of an id, where its message is whole.
    fn finish(&mut self, id: usize)
        requires { id < vec_len self.old.pool.numbers }
        ensures same { (self.new.hold ≡ self.old.hold) × (self.new.endpoints ≡ self.old.endpoints) }
        ensures stands { (arrivals : List Fragment) → StandsFor self.old arrivals → StandsFor self.new arrivals }
    {
        let Some(number) = self.pool.numbers[id] else {
            return;
        };
        let Some(begun) = self.pool.places[number as usize].done() else {
            return;
        };
        self.pool.give_back(id, number);
        self.done[id] = Some(begun);
    }

    /// Gives back the place of the last fragment's id, where its message is whole: its lease is over.
    fn finish_last(&mut self)
        ensures same { (self.new.hold ≡ self.old.hold) × (self.new.endpoints ≡ self.old.endpoints) }
        ensures stands { (arrivals : List Fragment) → StandsFor self.old arrivals → StandsFor self.new arrivals }
    {
        if let Some(id) = self.last {
            self.finish(id);
        }
    }

    /// Whether what arrives now belongs to a message that is complete, of an id without a place.
    fn repeats(&self, id: usize, at: Ticks) -> bool
        requires { id < vec_len self.now.pool.numbers }
        ensures { (n : Option ℕ) (d : Option Begun) → slice_get self.now.pool.numbers.items id ≡ Some n → slice_get self.now.done.items id ≡ Some d → result ≡ repeats n d self.now.hold.0 at.0 }
    {
        if self.pool.numbers[id].is_some() {
            return false;
        }
        match self.done[id] {
            Some(begun) => is_within(begun.at, self.hold, at),
            None => false,
        }
    }

    /// Lets the fragment into a place of its id, and says which one that is.
    fn place(&mut self, ep: usize, at: Ticks, seq: SeqField, bytes: &[u8]) -> (usize, Verdict)
        requires endpoint { ep < endpoints_of self.old }
        requires sub { seq.sub < 128 }
        requires low { neg_ℤ (pos (2 ^ 56)) ≤ℤ at.0 }
        requires high { at.0 ≤ℤ pos (2 ^ 56) }
        requires making { (n : Option ℕ) (d : Option Begun) → slice_get self.old.pool.numbers.items (ep * 256 + seq.seq) ≡ Some n → slice_get self.old.done.items (ep * 256 + seq.seq) ≡ Some d → repeats n d self.old.hold.0 at.0 ≡ false }
        ensures took { Took self.old self.new (fragment ep at seq bytes.now) }
        ensures has { slice_get self.new.pool.numbers.items (ep * 256 + seq.seq) ≡ Some (Some result.0) }
        ensures verdict { (arrivals : List Fragment) → StandsFor self.old arrivals → result.1 ≡ verdict_on (hold_of self.old) (fragment ep at seq bytes.now) arrivals }
    {
        let id = ep * IDS + seq.seq as usize;
        let number = self.pool.place_of(id);
        let verdict = self.pool.places[number].put(self.hold, at, seq, bytes);
        self.last = Some(id);
        (number, verdict)
    }

    /// Lets the fragment into its generation. The place of its id, where its message is whole now.
    fn put(&mut self, ep: usize, at: Ticks, seq: SeqField, bytes: &[u8]) -> (usize, Verdict)
        requires endpoint { ep < endpoints_of self.old }
        requires sub { seq.sub < 128 }
        requires low { neg_ℤ (pos (2 ^ 56)) ≤ℤ at.0 }
        requires high { at.0 ≤ℤ pos (2 ^ 56) }
        ensures took { Took self.old self.new (fragment ep at seq bytes.now) }
        ensures has { result.1 ≡ Whole → slice_get self.new.pool.numbers.items (ep * 256 + seq.seq) ≡ Some (Some result.0) }
        ensures verdict { (arrivals : List Fragment) → StandsFor self.old arrivals → result.1 ≡ verdict_on (hold_of self.old) (fragment ep at seq bytes.now) arrivals }
    {
        self.finish_last();
        if self.repeats(ep * IDS + seq.seq as usize, at) {
            (0, Verdict::Repeat)
        } else {
            self.place(ep, at, seq, bytes)
        }
    }

    /// The answer to a fragment that had this verdict, in the place of this number where its message is whole now.
    fn taken(&self, number: usize, verdict: Verdict) -> Taken<'_>
        requires { verdict ≡ Whole → number < vec_len self.now.pool.places }
        ensures { (arrivals : List Fragment) (a : Fragment) → a.seq < 256 → a.ep < endpoints_of self.now → (verdict ≡ Whole → slice_get self.now.pool.numbers.items (a.ep * 256 + a.seq) ≡ Some (Some number))
            → StandsFor self.now (a ∷ arrivals) → verdict ≡ verdict_on (hold_of self.now) a arrivals → Answers (standing_before (hold_of self.now) a arrivals) a result }
    {
        match verdict {
            Verdict::Stored => Taken::Stored,
            Verdict::Whole => {
                let place = &self.pool.places[number];
                let count = place.count();
                Taken::Whole(Lease { place, count })
            }
            Verdict::Repeat => Taken::Repeat,
            Verdict::Stray => Taken::Stray,
            Verdict::TooLong => Taken::TooLong,
        }
    }

    /// Takes a fragment of endpoint `ep` that arrived at `at` ticks, and tells what became of it in its generation.
    /// No memory is taken. After Repeat and Stray the assembly is as it was. A fragment that is too long leaves an open
    /// generation as it was; where it is the first of a new one, that one opens at `at`, empty.
    pub fn take(&mut self, ep: usize, at: Ticks, seq: SeqField, bytes: &[u8]) -> Taken<'_>
        requires endpoint { ep < endpoints_of self.old }
        requires sub { seq.sub < 128 }
        requires low { neg_ℤ (pos (2 ^ 56)) ≤ℤ at.0 }
        requires high { at.0 ≤ℤ pos (2 ^ 56) }
        ensures answers { AnswersAfter self.old (fragment ep at seq bytes.now) result }
        ensures* after { sem 𝓛 (EndsWith self.entry (fragment ep at seq bytes.now)) }
    {
        let (number, verdict) = self.put(ep, at, seq, bytes);
        self.taken(number, verdict)
    }
}

impl Lease<'_> {
    ghost use Rattle.std.specs.Prelude.{length, slice_index_or, []};
    ghost use Rattle.ecpri_fragments.specs.Assemblies.{message_of};

    /// How many pieces the message has.
    pub fn count(&self) -> usize
        ensures { result ≡ length (message_of self.now).pieces }
    {
        self.count
    }

    /// The piece with subsequence `k`, where it is in memory.
    pub fn piece(&self, k: usize) -> &[u8]
        requires { k < length (message_of self.now).pieces }
        ensures { result.now ≡ slice_index_or (message_of self.now).pieces k [] }
    {
        self.place.piece(k)
    }

    /// When the first of the pieces arrived.
    pub fn first(&self) -> Ticks
        ensures { result.0 ≡ (message_of self.now).first }
    {
        self.place.first()
    }

    /// When the last of the pieces arrived, whichever it is.
    pub fn last(&self) -> Ticks
        ensures { result.0 ≡ (message_of self.now).last }
    {
        self.place.last()
    }
}
