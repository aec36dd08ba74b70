// One direction of the fronthaul.
ghost use Rattle.std.specs.Prelude.{◌<◌, All, length, vec_len};
ghost use Rattle.frame_ways.specs.declared.landings.Landing.{Landing};

use crate::copies::{Departure, put_copies};
use crate::deliveries::FrameDeliveries;
use crate::in_flight::Network;
use crate::landed::Landed;
use crate::listing::{injections_to, times_to};
use crate::pool::FramePool;
use crate::queue::LandingQueue;
use crate::tally::Tally;
use crate::times::earlier_of;
use air_source::Side;
use fh_base::{Bytes, NoMemory, Ticks};
use fh_document::{Document, Injection, TrafficClass};
use std::alloc::Global;

/// One direction of the fronthaul: what is on its way to a unit.
///
/// Its contracts say of each list of sent frames that it stands for, which list it stands for after a call (`StandsFor` of
/// `specs/Ways.antt`): what lands of them, and of what the document injects, is `landings_on`.
#[derive(Drop)]
pub struct Way<'a> {
    deliveries: FrameDeliveries<'a>,
    /// The frames that the document injects to the unit, in its order.
    injections: Vec<&'a Injection>,
    /// Those of them that did not land yet.
    listed: LandingQueue,
    in_flight: Network,
    tally: Tally,
    /// How many frames were sent to the unit.
    place: u64,
    ghost within: { All (λ (l : Landing). l.index < vec_len injections) listed },
}

impl<'a> Way<'a> {
    ghost use Rattle.std.specs.Prelude.{◌≡◌, ◌≤ℤ◌, ◌^◌, ℤ, List, pos, IfOk, IfSome, OnOk, MatchOption};
    ghost use Rattle.fh_document.specs.Proper.{IsDocument};
    ghost use Rattle.unit_model.specs.Meetings.{Arrival};
    ghost use Rattle.unit_model.specs.Radiated.{first_clock};
    ghost use Rattle.unit_model.specs.Times.{end_of_time};
    ghost use Rattle.fh_base.specs.Least.{IsLeastOf};
    ghost use Rattle.frame_ways.specs.Ways.{HasLanded, IsCalmTo, Lands, LandsFrom, LandsNext, OnWay, StandsFor, document_of, frames_on_way, having_sent, landings_on, leaving_as, nothing_sent};

    /// The way to a unit: nothing was sent, and all frames that the document injects to the unit wait for their times.
    ///
    /// # Errors
    ///
    /// [`NoMemory`] where memory runs out.
    pub fn make(alloc: Global, doc: &'a Document, side: Side) -> Result<Way<'a>, NoMemory>
        requires { IsDocument doc.now }
        ensures { IfOk result (λ w. (now : ℤ) → now ≤ℤ pos 0 → StandsFor (nothing_sent doc.now side) now w) }
    {
        let deliveries = FrameDeliveries::make(alloc, doc, side)?;
        let times = times_to(alloc, doc, side)?;
        let listed = LandingQueue::make(alloc, times.as_slice())?;
        // before the list of frames is made: only inside of `times_to` both are held
        drop(times);
        let injections = injections_to(alloc, doc, side)?;
        Ok(Way {
            deliveries,
            injections,
            listed,
            in_flight: Network::make(alloc),
            tally: Tally {
                c_plane: 0,
                u_plane: 0,
                measurement: 0,
            },
            place: 0,
        })
    }

    /// Sends a frame at a time in ticks: its copies are in flight then, as the document's `deliver` and `transit` lines say of the next
    /// frame of its class. Their memory is from the pool.
    ///
    /// # Errors
    ///
    /// [`NoMemory`] where memory runs out, and where 2^64 - 1 frames were sent. What is in flight is not said then.
    pub fn send(
        &mut self,
        pool: &mut FramePool,
        at: Ticks,
        class: TrafficClass,
        frame: &[u8],
    ) -> Result<(), NoMemory>
        requires begun { first_clock ≤ℤ at.0 }
        requires ended { at.0 ≤ℤ end_of_time }
        requires short { length frame.now < 2 ^ 32 }
        requires document { IsDocument (document_of self.old) }
        ensures sent { (v : OnWay) (now : ℤ) → LandsFrom now at.0 class → StandsFor v now self.old
            → OnOk result (StandsFor (having_sent v (leaving_as at.0 class frame.now)) now self.new) }
        ensures document { document_of self.new ≡ document_of self.old }
    {
        let copy = pool.copy_of(frame)?;
        self.send_owned(pool, at, class, copy)
    }

    /// The same of a frame whose bytes are its own: the last copy has them.
    ///
    /// # Errors
    ///
    /// As those of [`Way::send`].
    pub fn send_owned(
        &mut self,
        pool: &mut FramePool,
        at: Ticks,
        class: TrafficClass,
        frame: Bytes,
    ) -> Result<(), NoMemory>
        requires begun { first_clock ≤ℤ at.0 }
        requires ended { at.0 ≤ℤ end_of_time }
        requires short { length frame < 2 ^ 32 }
        requires document { IsDocument (document_of self.old) }
        ensures sent { (v : OnWay) (now : ℤ) → LandsFrom now at.0 class → StandsFor v now self.old
            → OnOk result (StandsFor (having_sent v (leaving_as at.0 class frame)) now self.new) }
        ensures document { document_of self.new ≡ document_of self.old }
    {
        let Some(next) = self.place.checked_add(1) else {
            return Err(NoMemory);
        };
        let k = self.tally.count(class);
        let copies = self.deliveries.copies(class, k);
        let delays = copies.as_slice();
        let departure = Departure {
            side: self.deliveries.side(),
            at,
            place: self.place,
        };
        put_copies(pool, departure, frame, delays, &mut self.in_flight)?;
        self.place = next;
        Ok(())
    }

    /// The next time at which a frame lands, in ticks. None where none is on its way.
    pub fn next_time(&self) -> Option<Ticks>
        ensures { (v : OnWay) (now : ℤ) → StandsFor v now self.now → IsLeastOf (IsCalmTo (landings_on v) now) result }
    {
        earlier_of(self.listed.next_time(), self.in_flight.next_time())
    }

    /// The next frame that lands at a tick: first those that were sent, in the order in which they were sent and then by copy, then the
    /// document's, in its order. None where none is left.
    pub fn next_at(&mut self, tick: Ticks) -> Option<Landed<'a>>
        ensures next { (v : OnWay) (gone : List Arrival) → Lands v tick.0 gone self.old
            → MatchOption result (HasLanded v tick.0 gone self.new) (λ f. LandsNext v tick.0 gone f self.new) }
        ensures document { document_of self.new ≡ document_of self.old }
        ensures fewer { IfSome result (λ f. frames_on_way self.new < frames_on_way self.old) }
    {
        if let Some(arrival) = self.in_flight.next_until(tick) {
            return Some(Landed::Sent(arrival.frame));
        }
        match self.listed.take_at(tick) {
            Some(index) => Some(Landed::Listed(self.injections[index].frame.as_slice())),
            None => None,
        }
    }
}
