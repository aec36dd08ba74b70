//! The walk over a message.
ghost use Rattle.std.specs.Prelude.{◌≡◌, ◌+◌, ◌*◌, ◌<◌, ◌^◌, length};
ghost use Rattle.bfp_codec.specs.Layout.{HasWidth, length_of};
ghost use Rattle.uplane_sections.specs.States.{used_by};
ghost use Rattle.uplane_sections.specs.Messages.{told};
ghost use Rattle.uplane_messages.specs.Joined.{pieces_of, piece_of, bytes_from};

use crate::run::{DataRun, JoinedPrb};
use bfp_codec::{Format, Method};
use ecpri_fragments::Lease;
use fh_base::Shape;
use uplane_sections::{UFeed, URefusal, UWalker};

/// What a complete U-plane message tells, in order, read where its pieces are
/// (O-RAN.WG4.CUS, clause 8.3.2).
///
/// Each item is [`UFeed::Head`], [`UFeed::Section`] or [`UFeed::Block`]. The walk ends after the
/// last of them, where the message ends or is refused; [`refusal`](DataWalk::refusal) says which.
#[derive(Clone, Copy)]
pub struct DataWalk<'a> {
    lease: &'a Lease<'a>,
    walker: UWalker,
    piece: usize,
    at: usize,
    ghost fits: { used_by walker + length (bytes_from (pieces_of lease.now) piece at) < 2 ^ 64 },
}

impl<'a> DataWalk<'a> {
    ghost use Rattle.uplane_messages.specs.Joined.{message_bytes};
    ghost use Rattle.std.specs.Prelude.{take, IfNone, IfSome};
    ghost use Rattle.uplane_messages.specs.Left.{lease_of, left_of, next_part, refusal_of, run_in, telling_of, kept_by, GivesItem, GivesJoined, GivesRun, IsAtEnd};
    ghost use Rattle.uplane_sections.specs.States.{BeginsWithout};

    /// A walk from the start of the message, in this format, on a carrier of `prbs` PRBs, where
    /// `shape` says how many symbols a slot and how many slots a subframe has.
    pub fn new(lease: &'a Lease<'a>, format: Format, prbs: u16, shape: Shape) -> DataWalk<'a>
        requires { HasWidth format.method }
        ensures lease { lease_of result ≡ lease.now }
        ensures left { left_of result ≡ (told format prbs shape (message_bytes lease.now)).items }
        ensures refusal { refusal_of result ≡ (told format prbs shape (message_bytes lease.now)).refusal }
    {
        DataWalk {
            lease,
            walker: UWalker::new(format, prbs, shape),
            piece: 0,
            at: 0,
        }
    }

    /// The refusal of the message, if it is refused, whichever of its items were given so far.
    ///
    /// It goes to the message's end by the lengths in the headers: no PRB is unpacked.
    pub fn refusal(&self) -> Option<URefusal>
        ensures { result ≡ refusal_of self.now }
    {
        let mut walk = *self;
        while walk.piece < walk.lease.count() {
            walk.pass_piece();
        }
        walk.walker.finish().err()
    }

    /// Goes over the rest of the piece at hand.
    fn pass_piece(&mut self)
        requires here { self.old.piece < length (pieces_of (lease_of self.old)) }
        requires next { self.old.piece < usize.MAX }
        ensures refusal { refusal_of self.new ≡ refusal_of self.old }
        ensures lease { lease_of self.new ≡ lease_of self.old }
        ensures next { self.new.piece ≡ self.old.piece + 1 }
    {
        let piece = self.lease.piece(self.piece);
        let from = self.at.min(piece.len());
        self.walker.pass(&piece[from..]);
        self.piece += 1;
        self.at = 0;
    }

    /// Goes to the next piece of which bytes are left, or after the last one.
    fn skip_used(&mut self)
        ensures telling { telling_of self.new ≡ telling_of self.old }
        ensures lease { lease_of self.new ≡ lease_of self.old }
        ensures walker { self.new.walker ≡ self.old.walker }
        ensures part { next_part self.new ≡ next_part self.old }
        ensures left { self.new.piece < length (pieces_of (lease_of self.new)) → self.new.at < length (piece_of (pieces_of (lease_of self.new)) self.new.piece) }
    {
        while self.piece < self.lease.count() && self.at >= self.lease.piece(self.piece).len() {
            self.piece += 1;
            self.at = 0;
        }
    }

    /// The packed PRBs of a section that are next and lie completely in one piece, where they are: they are given by this call, and
    /// none of them is unpacked. There are none where another item is next, and where the next PRB is cut by the pieces: then
    /// `next` goes on.
    pub fn run(&mut self) -> DataRun<'a>
        ensures gives { GivesRun self.old result self.new }
        ensures count { result.count ≡ run_in self.old }
        ensures width { HasWidth result.method }
        ensures len { length result.packed.now ≡ result.count * length_of result.method }
    {
        self.skip_used();
        if self.piece >= self.lease.count() {
            return DataRun {
                method: Method::Plain,
                prb: 0,
                count: 0,
                packed: &[],
            };
        }
        let piece = self.lease.piece(self.piece);
        let from = self.at;
        let run = self.walker.run(&piece[from..]);
        self.at = from + run.used;
        DataRun {
            method: run.method,
            prb: run.prb,
            count: run.count,
            packed: &piece[from..from + run.used],
        }
    }

    /// The next packed PRB of a section, wherever the pieces cut it: it is given by this call, and `joined` lends its
    /// bytes. None where another item is next, which `next` gives, and where the message ends inside of it.
    pub fn join(&mut self) -> Option<JoinedPrb>
        ensures gives { GivesJoined self.old result self.new }
        ensures width { IfSome result (λ joined. HasWidth joined.method) }
        ensures none { IfNone result (BeginsWithout (left_of self.old)) }
    {
        while self.piece < self.lease.count() {
            let piece = self.lease.piece(self.piece);
            if self.at < piece.len() {
                let step = self.walker.join(&piece[self.at..]);
                self.at += step.used;
                if step.count > 0 {
                    return Some(JoinedPrb {
                        method: step.method,
                        prb: step.prb,
                    });
                }
                if step.used == 0 {
                    return None;
                }
            } else {
                self.piece += 1;
                self.at = 0;
            }
        }
        None
    }

    /// The bytes of the PRB that `join` gave last, packed by its method, until the walk goes on.
    pub fn joined(&self, method: Method) -> &[u8]
        requires { HasWidth method }
        ensures bytes { result.now ≡ take (length_of method) (kept_by self.now) }
        ensures len { length result.now ≡ length_of method }
    {
        self.walker.joined(method)
    }

    /// The next item, from the piece at hand or a later one.
    #[inline(always)]
    fn advance(&mut self) -> Option<UFeed>
        ensures gives { GivesItem self.old result self.new }
        ensures end { IfNone result (IsAtEnd self.new) }
    {
        while self.piece < self.lease.count() {
            let piece = self.lease.piece(self.piece);
            if self.at < piece.len() {
                let step = self.walker.feed(&piece[self.at..]);
                self.at += step.used;
                match step.what {
                    UFeed::More => {}
                    UFeed::Refused(_) => return None,
                    what => return Some(what),
                }
            } else {
                self.piece += 1;
                self.at = 0;
            }
        }
        None
    }
}

impl<'a> Iterator for DataWalk<'a> {
    ghost use Rattle.std.specs.Iterator.{item_count};
    ghost use Rattle.uplane_messages.specs.Left.{left_of, GivesItem};

    type Item = UFeed;

    ghost next_gives = { GivesItem };

    ghost remaining = { item_count left_of };

    #[inline(always)]
    fn next(&mut self) -> Option<UFeed> {
        self.advance()
    }
}
