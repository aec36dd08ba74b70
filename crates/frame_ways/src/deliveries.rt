// The copies of frames, as a document says them.
ghost use Rattle.std.specs.Prelude.{◌≡◌, ℤ, IfOk};
ghost use Rattle.std.specs.Option.{option_copied};
ghost use Rattle.frame_ways.specs.Copies.{transit_of, once_after};
ghost use Rattle.fh_document.specs.declared.config_lines.TheConstants.{MOST_TRANSIT};

use crate::order::line_in_order;
use crate::rows::{Row, line_by, rows_of};
use air_source::Side;
use arrayvec::ArrayVec;
use fh_base::NoMemory;
use fh_document::{Delivery, Document, TrafficClass, Transits};
use std::alloc::Global;
use std::marker::Model;

/// How long frames take on their way where no line speaks of them, in nanoseconds. None where they are lost.
fn transit_of(transits: &Transits, side: Side, class: TrafficClass) -> Option<&i64>
    ensures { option_copied result ≡ transit_of transits.now side class }
{
    match class {
        TrafficClass::M => Some(&transits.m),
        TrafficClass::C | TrafficClass::U => match side {
            Side::Ru => transits.dl.as_ref(),
            Side::Du => transits.ul.as_ref(),
        },
    }
}

/// The one time of a frame of which no line speaks. None where it is lost.
fn once_after(time: Option<&i64>) -> ArrayVec<i64, 8>
    ensures { result.items ≡ once_after (option_copied time.entry) }
{
    match time {
        Some(ns) => {
            let mut times = ArrayVec::new();
            times.push(*ns);
            times
        }
        None => ArrayVec::new(),
    }
}

/// The deliveries of the frames that are sent to a unit. Contracts see them as the document and the unit.
#[derive(Drop)]
pub struct FrameDeliveries<'a> {
    document: &'a Document,
    side: Side,
    /// The lines that speak of frames to the unit. None where all lines are in the order of their frames.
    rows: Option<Vec<Row>>,
}

impl<'a> Model for FrameDeliveries<'a> {
    ghost use Rattle.std.specs.Prelude.{MatchOption};
    ghost use Rattle.std.specs.List.Sorted.{IsNonDecreasingBy};
    ghost use Rattle.fh_document.specs.Delivered.{frame_number};
    ghost use Rattle.frame_ways.specs.Copies.{DeliveriesTo, deliveries_to};
    ghost use Rattle.frame_ways.specs.Rows.{AreRowsOf};

    ghost Value = { DeliveriesTo };

    ghost view = { λ d. deliveries_to d.document.now d.side };

    ghost invariant = { λ d. MatchOption d.rows (IsNonDecreasingBy frame_number d.document.now.deliveries) (λ rows. AreRowsOf d.side d.document.now.deliveries rows.items) };
}

impl<'a> FrameDeliveries<'a> {
    ghost use Rattle.std.specs.Prelude.{All};
    ghost use Rattle.fh_document.specs.DeliverLines.{least_of};
    ghost use Rattle.fh_document.specs.Proper.{AreTransits, IsDelivery, IsFrom};
    ghost use Rattle.frame_ways.specs.Copies.{copies_of, deliveries_to, line_of};

    /// Sorts those of a document's deliver lines that speak of frames to a unit, unless all are in order. `NoMemory` where the memory
    /// for that cannot be had.
    pub fn make(
        alloc: Global,
        document: &'a Document,
        side: Side,
    ) -> Result<FrameDeliveries<'a>, NoMemory>
        ensures { IfOk result (λ d. d ≡ deliveries_to document.entry.now side) }
    {
        let rows = rows_of(alloc, &document.deliveries, side)?;
        Ok(FrameDeliveries {
            document,
            side,
            rows,
        })
    }

    /// The unit that the frames are sent to.
    pub fn side(&self) -> Side
        ensures { result ≡ self.now.side }
    {
        self.side
    }

    /// The times on the way, in nanoseconds, of the copies of the `k`-th frame, counted from 1, of a class that is sent to the unit:
    /// those of the first deliver line that speaks of it, in their order, and none where that line has none, since the frame is
    /// then lost. Where no line speaks of it, it is received once, after the time that the `transit` line of its way, or of delay
    /// measurement, says, and not at all where that line says `lost`.
    pub fn copies(&self, class: TrafficClass, k: u32) -> ArrayVec<i64, 8>
        ensures times { result.items ≡ copies_of self.now.document self.now.side class k }
        ensures within { AreTransits self.now.document.transits → All IsDelivery self.now.document.deliveries
            → All (IsFrom (least_of class) MOST_TRANSIT) result.items }
    {
        match self.line_of(class, k) {
            Some(line) => line.copies.times(),
            None => once_after(transit_of(&self.document.transits, self.side, class)),
        }
    }

    /// The first deliver line that speaks of a frame.
    fn line_of(&self, class: TrafficClass, k: u32) -> Option<&'a Delivery>
        ensures { option_copied result ≡ line_of self.now.document.deliveries self.now.side class k }
    {
        let deliveries = &self.document.deliveries;
        match &self.rows {
            None => line_in_order(deliveries, self.side, class, k),
            Some(rows) => line_by(rows, deliveries, self.side, class, k),
        }
    }
}
