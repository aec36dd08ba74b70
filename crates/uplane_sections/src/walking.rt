//! The walker over a message.
ghost use Rattle.std.specs.Prelude.{◌≡◌, ℕ, ◌+◌, ◌-◌, ◌*◌, ◌<◌, ◌≤◌, ◌^◌, ◌++◌, length, take, drop, true, false};
ghost use Rattle.bfp_codec.specs.Layout.{HasWidth, length_of};
ghost use Rattle.uplane_sections.specs.Phases.{unit_of, prbs_left, prb_bound, method_in_phase, behind, is_short, goes_on};

use crate::phases::{Phase, inside};
use crate::steps::{UFeed, URun, UStep};
use crate::units::{Told, block, compression, head, section};
use crate::values::{URefusal, UWhy};
use bfp_codec::{Format, Method, block_len};
use fh_base::Shape;

/// A reader of one message, which is received in pieces of any length. It keeps the unit, a header or a
/// PRB, that a piece cuts, and no more.
#[derive(Clone, Copy)]
pub struct UWalker {
    format: Format,
    prbs: u16,
    shape: Shape,
    phase: Phase,
    start: usize,
    held: [u8; 49],
    there: usize,
    ghost least: { 4 ≤ length_of format.method },
    ghost most: { length_of format.method ≤ 49 },
    ghost part: { there < unit_of phase },
    ghost left: { 0 < prbs_left phase },
    ghost bound: { prb_bound phase < 2 ^ 16 },
    ghost phase_least: { 4 ≤ length_of (method_in_phase phase) },
    ghost phase_most: { length_of (method_in_phase phase) ≤ 49 },
    ghost read: { behind phase ≤ start },
    ghost long: { is_short phase ≡ false },
    ghost fits: { start + there < 2 ^ 64 },
}

/// Writes the bytes over those from a place on.
fn write_at(into: &mut [u8], from: usize, bytes: &[u8])
    requires { from + length bytes.now ≤ length into.old }
    ensures { into.new ≡ take from into.old ++ bytes.now ++ drop (from + length bytes.now) into.old }
{
    into[from..from + bytes.len()].copy_from_slice(bytes);
}

impl UWalker {
    ghost use Rattle.std.specs.Prelude.{List, [], Some, IfErr};
    ghost use Rattle.fh_base.specs.declared.values.Shape.{Shape as SpecShape};
    ghost use Rattle.bfp_codec.specs.declared.methods.Format.{Format as SpecFormat};
    ghost use Rattle.uplane_sections.specs.Messages.{told, after, blocks};
    ghost use Rattle.uplane_sections.specs.Phases.{Stops, feed_told, resumed, is_cut};
    ghost use Rattle.uplane_sections.specs.States.{used_by, tells, held_by, refusal_of, run_of, Tells, Passes, IsOver, Answers, UsesAll, StandsBehind, BeginsOtherwise};

    /// A walker at the start of a message in this format, on a carrier of `prbs` PRBs, where `shape`
    /// says how many symbols a slot and how many slots a subframe has.
    pub fn new(format: Format, prbs: u16, shape: Shape) -> UWalker
        requires { HasWidth format.method }
        ensures start { (bytes : List ℕ) → tells result bytes ≡ told format prbs shape bytes }
        ensures used { used_by result ≡ 0 }
        ensures stands { StandsBehind format prbs shape result [] }
    {
        UWalker {
            format,
            prbs,
            shape,
            phase: Phase::Start,
            start: 0,
            held: [0; 49],
            there: 0,
        }
    }

    /// How many bytes the next unit has.
    fn unit(&self) -> usize
        ensures value { result ≡ unit_of self.now.phase }
        ensures most { result ≤ 49 }
    {
        match self.phase {
            Phase::Compression(_) => 2,
            Phase::Inside { method, .. } => block_len(method),
            _ => 4,
        }
    }

    /// What the next unit tells, which these bytes are.
    #[inline(always)]
    fn whole(&self, bytes: &[u8]) -> Told
        requires { length bytes.now ≡ unit_of self.now.phase }
        ensures tells { (rest : List ℕ) → resumed self.now.format self.now.prbs self.now.shape self.now.phase self.now.start (bytes.now ++ rest)
            ≡ after (feed_told result.what) (resumed self.now.format self.now.prbs self.now.shape result.phase (self.now.start + length bytes.now) rest) }
        ensures left { 0 < prbs_left result.phase }
        ensures bound { prb_bound result.phase < 2 ^ 16 }
        ensures least { 4 ≤ length_of (method_in_phase result.phase) }
        ensures most { length_of (method_in_phase result.phase) ≤ 49 }
        ensures behind { behind result.phase ≤ self.now.start + length bytes.now }
        ensures stops { Stops result.what result.phase }
        ensures long { is_short result.phase ≡ false }
        ensures closes { behind self.now.phase ≡ 4 → behind result.phase ≡ 0 }
    {
        let at = self.start;
        match self.phase {
            Phase::Start => head(self.shape, at, bytes),
            Phase::Between(before) => {
                section(self.format, self.prbs, self.shape, before, at, bytes)
            }
            Phase::Compression(s) => compression(self.prbs, s, at, bytes),
            Phase::Inside {
                method,
                symbol,
                prb,
                left,
            } => block(method, symbol, prb, left, at, bytes),
            Phase::Faulty(refusal) => Told {
                what: UFeed::Refused(refusal),
                phase: Phase::Faulty(refusal),
            },
        }
    }

    /// Keeps a piece that ends inside the next unit.
    fn hold(&mut self, piece: &[u8])
        requires some { 0 < length piece.now }
        requires part { self.old.there + length piece.now < unit_of self.old.phase }
        requires most { unit_of self.old.phase ≤ 49 }
        requires goes_on { goes_on self.old.phase ≡ true }
        requires fits { used_by self.old + length piece.now ≤ usize.MAX }
        ensures used { used_by self.new ≡ used_by self.old + length piece.now }
        ensures tells { Tells self.old self.new piece.now [] }
        ensures short { (tells self.new []).refusal ≡ Some (record { place = used_by self.new; why = UWhy.Truncated }) }
    {
        let there = self.there;
        write_at(&mut self.held, there, piece);
        self.there = there + piece.len();
    }

    /// Takes the next bytes of the message, one or more, and answers how many it used and what they
    /// tell. At least one is used unless the message is refused. The caller feeds the rest of the
    /// piece, and what follows, in further calls.
    #[inline(always)]
    pub fn feed(&mut self, piece: &[u8]) -> UStep
        requires some { 0 < length piece.now }
        requires fits { used_by self.old + length piece.now ≤ usize.MAX }
        ensures within { result.used ≤ length piece.now }
        ensures used { used_by self.new ≡ used_by self.old + result.used }
        ensures tells { Tells self.old self.new (take result.used piece.now) (feed_told result.what) }
        ensures answers { Answers self.new result.used result.what }
        ensures all { UsesAll piece.now result.used result.what }
        // If it was after the bytes used before, it is now after these and those that it used, and the answer is what
        // the latter add to what the message tells.
        ensures stands { (format : SpecFormat) (prbs : ℕ) (shape : SpecShape) (bytes : List ℕ) → StandsBehind format prbs shape self.old bytes
            → StandsBehind format prbs shape self.new (bytes ++ take result.used piece.now) }
        ensures told { (format : SpecFormat) (prbs : ℕ) (shape : SpecShape) (bytes : List ℕ) → StandsBehind format prbs shape self.old bytes
            → (told format prbs shape (bytes ++ take result.used piece.now)).items ≡ (told format prbs shape bytes).items ++ feed_told result.what }
    {
        self.advance(piece)
    }

    /// Steps until something is told or all is used: after the first four bytes of a section nothing
    /// is told before its compression header.
    #[inline(always)]
    fn advance(&mut self, piece: &[u8]) -> UStep
        requires some { 0 < length piece.now }
        requires fits { used_by self.old + length piece.now ≤ usize.MAX }
        ensures within { result.used ≤ length piece.now }
        ensures used { used_by self.new ≡ used_by self.old + result.used }
        ensures tells { Tells self.old self.new (take result.used piece.now) (feed_told result.what) }
        ensures answers { Answers self.new result.used result.what }
        ensures all { UsesAll piece.now result.used result.what }
    {
        let first = self.step(piece);
        if !matches!(first.what, UFeed::More) || first.used == piece.len() {
            return first;
        }
        let then = self.step(&piece[first.used..]);
        UStep {
            used: first.used + then.used,
            what: then.what,
        }
    }

    /// Takes what the next unit still wants, or all that is there.
    #[inline(always)]
    fn step(&mut self, piece: &[u8]) -> UStep
        requires some { 0 < length piece.now }
        requires fits { used_by self.old + length piece.now ≤ usize.MAX }
        ensures within { result.used ≤ length piece.now }
        ensures used { used_by self.new ≡ used_by self.old + result.used }
        ensures tells { Tells self.old self.new (take result.used piece.now) (feed_told result.what) }
        ensures answers { Answers self.new result.used result.what }
        ensures opens { result.what ≡ UFeed.More → result.used < length piece.now → behind self.new.phase ≡ 4 }
        ensures closes { behind self.old.phase ≡ 4 → UsesAll piece.now result.used result.what }
    {
        if let Phase::Faulty(refusal) = self.phase {
            return UStep {
                used: 0,
                what: UFeed::Refused(refusal),
            };
        }
        let unit = self.unit();
        let there = self.there;
        let want = unit - there;
        if piece.len() < want {
            self.hold(piece);
            return UStep {
                used: piece.len(),
                what: UFeed::More,
            };
        }
        let told = if there == 0 {
            self.whole(&piece[..unit])
        } else {
            write_at(&mut self.held, there, &piece[..want]);
            self.whole(&self.held[..unit])
        };
        self.phase = told.phase;
        self.start += unit;
        self.there = 0;
        UStep {
            used: want,
            what: told.what,
        }
    }

    /// Goes over the packed PRBs of a section that are next and lie completely in the piece, so that the
    /// caller unpacks them, or not, where they are. There are none where another unit is next,
    /// where a part of the next PRB was received before, and where the piece ends inside of it: then `feed`
    /// goes on.
    pub fn run(&mut self, piece: &[u8]) -> URun
        requires fits { used_by self.old + length piece.now ≤ usize.MAX }
        ensures count { result.count ≡ run_of self.old (length piece.now) }
        ensures bytes { result.used ≡ result.count * length_of result.method }
        ensures width { HasWidth result.method }
        ensures within { result.used ≤ length piece.now }
        ensures used { used_by self.new ≡ used_by self.old + result.used }
        ensures tells { Tells self.old self.new (take result.used piece.now) (blocks result.method result.prb result.count (take result.used piece.now)) }
    {
        let none = URun {
            method: Method::Plain,
            prb: 0,
            count: 0,
            used: 0,
        };
        if self.there != 0 {
            return none;
        }
        match self.phase {
            Phase::Inside {
                method,
                symbol,
                prb,
                left,
            } => {
                let len = block_len(method);
                let count = (piece.len() / len).min(left as usize) as u16;
                let used = count as usize * len;
                self.phase = inside(method, symbol, prb + count, left - count);
                self.start += used;
                URun {
                    method,
                    prb,
                    count,
                    used,
                }
            }
            _ => none,
        }
    }

    /// Takes what the next packed PRB of a section still wants, or all that is there. Where it is complete then, one is
    /// counted, and `joined` lends its bytes: it is not unpacked. None is used where another unit is next.
    pub fn join(&mut self, piece: &[u8]) -> URun
        requires some { 0 < length piece.now }
        requires fits { used_by self.old + length piece.now ≤ usize.MAX }
        ensures most { result.count ≤ 1 }
        ensures width { HasWidth result.method }
        ensures within { result.used ≤ length piece.now }
        ensures used { used_by self.new ≡ used_by self.old + result.used }
        ensures tells { Tells self.old self.new (take result.used piece.now) (blocks result.method result.prb result.count (held_by self.new)) }
        ensures other { result.used ≡ 0 → BeginsOtherwise self.old }
    {
        match self.phase {
            Phase::Inside {
                method,
                symbol,
                prb,
                left,
            } => self.join_block(method, symbol, prb, left, piece),
            _ => URun {
                method: Method::Plain,
                prb: 0,
                count: 0,
                used: 0,
            },
        }
    }

    /// The same where a PRB is next.
    fn join_block(&mut self, method: Method, symbol: u8, prb: u16, left: u16, piece: &[u8]) -> URun
        requires some { 0 < length piece.now }
        requires fits { used_by self.old + length piece.now ≤ usize.MAX }
        requires inside { self.old.phase ≡ Phase.Inside method symbol prb left }
        ensures most { result.count ≤ 1 }
        ensures method { result.method ≡ method }
        ensures some { 0 < result.used }
        ensures within { result.used ≤ length piece.now }
        ensures used { used_by self.new ≡ used_by self.old + result.used }
        ensures tells { Tells self.old self.new (take result.used piece.now) (blocks result.method result.prb result.count (held_by self.new)) }
    {
        let there = self.there;
        let unit = block_len(method);
        let want = unit - there;
        if piece.len() < want {
            self.hold(piece);
            return URun {
                method,
                prb,
                count: 0,
                used: piece.len(),
            };
        }
        write_at(&mut self.held, there, &piece[..want]);
        let next = prb + 1;
        self.phase = inside(method, symbol, next, left - 1);
        self.start += unit;
        self.there = 0;
        URun {
            method,
            prb,
            count: 1,
            used: want,
        }
    }

    /// The bytes of the packed PRB that `join` counted last, by its method, until more bytes are given.
    pub fn joined(&self, method: Method) -> &[u8]
        requires { HasWidth method }
        ensures bytes { result.now ≡ take (length_of method) (held_by self.now) }
        ensures len { length result.now ≡ length_of method }
    {
        &self.held[..block_len(method)]
    }

    /// Goes over the next bytes of the message as `feed` does, and tells nothing of them: no PRB is
    /// unpacked. All of the piece is used, unless the message is refused.
    pub fn pass(&mut self, piece: &[u8])
        requires fits { used_by self.old + length piece.now ≤ usize.MAX }
        ensures used { used_by self.new ≤ used_by self.old + length piece.now }
        ensures passes { Passes self.old self.new piece.now }
        ensures refusal { (rest : List ℕ) → (tells self.new rest).refusal ≡ (tells self.old (piece.now ++ rest)).refusal }
        ensures stands { (format : SpecFormat) (prbs : ℕ) (shape : SpecShape) (bytes : List ℕ) → StandsBehind format prbs shape self.old bytes
            → StandsBehind format prbs shape self.new (bytes ++ piece.now) }
    {
        self.pass_all(piece);
    }

    fn pass_all(&mut self, piece: &[u8])
        requires fits { used_by self.old + length piece.now ≤ usize.MAX }
        ensures used { used_by self.new ≤ used_by self.old + length piece.now }
        ensures passes { Passes self.old self.new piece.now }
    {
        let mut at = 0;
        while at < piece.len() {
            let used = self.pass_some(&piece[at..]);
            if used == 0 {
                return;
            }
            at += used;
        }
    }

    /// Goes over what the next PRB still wants, or over all that is there. It is not unpacked.
    fn pass_block(&mut self, method: Method, symbol: u8, prb: u16, left: u16, piece: &[u8]) -> usize
        requires some { 0 < length piece.now }
        requires fits { used_by self.old + length piece.now ≤ usize.MAX }
        requires inside { self.old.phase ≡ Phase.Inside method symbol prb left }
        ensures some { 0 < result }
        ensures within { result ≤ length piece.now }
        ensures used { used_by self.new ≡ used_by self.old + result }
        ensures passes { Passes self.old self.new (take result piece.now) }
    {
        let unit = block_len(method);
        let want = unit - self.there;
        if piece.len() < want {
            self.hold(piece);
            return piece.len();
        }
        self.phase = inside(method, symbol, prb + 1, left - 1);
        self.start += unit;
        self.there = 0;
        want
    }

    /// Goes over what the next unit still wants, or over all that is there; over none only where the
    /// message is refused. No PRB is unpacked.
    fn pass_unit(&mut self, piece: &[u8]) -> usize
        requires some { 0 < length piece.now }
        requires fits { used_by self.old + length piece.now ≤ usize.MAX }
        ensures within { result ≤ length piece.now }
        ensures used { used_by self.new ≡ used_by self.old + result }
        ensures passes { Passes self.old self.new (take result piece.now) }
        ensures ends { result ≡ 0 → IsOver self.new }
    {
        match self.phase {
            Phase::Inside {
                method,
                symbol,
                prb,
                left,
            } => self.pass_block(method, symbol, prb, left, piece),
            _ => self.step(piece).used,
        }
    }

    /// Goes over some bytes, PRBs that lie whole in the piece in one step; over none only where the
    /// message is refused.
    fn pass_some(&mut self, piece: &[u8]) -> usize
        requires some { 0 < length piece.now }
        requires fits { used_by self.old + length piece.now ≤ usize.MAX }
        ensures within { result ≤ length piece.now }
        ensures used { used_by self.new ≡ used_by self.old + result }
        ensures passes { Passes self.old self.new (take result piece.now) }
        ensures ends { result ≡ 0 → IsOver self.new }
    {
        let run = self.run(piece);
        if run.used > 0 {
            return run.used;
        }
        self.pass_unit(piece)
    }

    /// Whether the bytes used so far are a whole message; if not, the first test that fails for a
    /// message that ends with them.
    pub fn finish(&self) -> Result<(), URefusal>
        ensures tells { refusal_of result ≡ (tells self.now []).refusal }
        ensures told { (format : SpecFormat) (prbs : ℕ) (shape : SpecShape) (bytes : List ℕ) → StandsBehind format prbs shape self.now bytes
            → refusal_of result ≡ (told format prbs shape bytes).refusal }
        ensures place { IfErr result (λ r. is_cut r.why ≡ true → r.place ≡ used_by self.now) }
    {
        self.ending()
    }

    fn ending(&self) -> Result<(), URefusal>
        ensures tells { refusal_of result ≡ (tells self.now []).refusal }
        ensures place { IfErr result (λ r. is_cut r.why ≡ true → r.place ≡ used_by self.now) }
    {
        match self.phase {
            Phase::Faulty(refusal) => return Err(refusal),
            Phase::Between(_) => {
                if self.there == 0 {
                    return Ok(());
                }
            }
            _ => {}
        }
        Err(URefusal {
            place: self.start + self.there,
            why: UWhy::Truncated,
        })
    }
}
