// The deliver lines of a document by the numbers of their frames.
ghost use Rattle.std.specs.Prelude.{◌≡◌, ℕ, IfOk, OnOk, MatchOption};
ghost use Rattle.std.specs.List.Sorted.{IsNonDecreasingBy};
ghost use Rattle.std.specs.Option.{option_copied};
ghost use Rattle.fh_document.specs.Delivered.{frame_number};
ghost use Rattle.frame_ways.specs.Copies.{line_of};
ghost use Rattle.frame_ways.specs.Rows.{AreRising, AreRowsOf, is_of, numbered, first_place};

use crate::order::{are_in_order, number_of};
use air_source::Side;
use fh_base::{List, NoMemory};
use fh_document::{Delivery, TrafficClass, frame_number};
use std::alloc::Global;

/// A line: the number of the frame that it speaks of, and its place in the document's list, counted from 0.
#[derive(Clone, Copy)]
pub(crate) struct Row {
    pub(crate) number: u64,
    pub(crate) place: usize,
}

/// Whether a line speaks of a frame that is sent to a unit.
fn is_of(side: Side, delivery: &Delivery) -> bool
    ensures { result ≡ is_of side delivery.now }
{
    delivery.side == side
}

/// The lines that speak of frames to a unit, in the order of the document.
fn listed(alloc: Global, deliveries: &List<Delivery>, side: Side) -> Result<Vec<Row>, NoMemory>
    ensures { IfOk result (λ v. v.items ≡ numbered side deliveries.now) }
{
    let mut rows = Vec::with_capacity(alloc, deliveries.len())?;
    for place in 0..deliveries.len() {
        if let Some(delivery) = deliveries.get(place) {
            if is_of(side, delivery) {
                let number = number_of(delivery);
                rows.push(Row { number, place })?;
            }
        }
    }
    Ok(rows)
}

/// Sorts lines by the numbers of their frames; those of one frame keep their order.
fn sort_by_number(rows: &mut Vec<Row>) -> Result<(), NoMemory>
    ensures rising { OnOk result (AreRising rows.new.items) }
    ensures first { (n : ℕ) → first_place n rows.new.items ≡ first_place n rows.old.items }
{
    rows.sort_by_key(|row| row.number)?;
    Ok(())
}

/// The lines that speak of frames to a unit, in the order of the numbers of these. None, which takes no memory, where all lines are
/// in this order in the document.
pub(crate) fn rows_of(
    alloc: Global,
    deliveries: &List<Delivery>,
    side: Side,
) -> Result<Option<Vec<Row>>, NoMemory>
    ensures { IfOk result (λ rows. MatchOption rows (IsNonDecreasingBy frame_number deliveries.now) (λ v. AreRowsOf side deliveries.now v.items)) }
{
    if are_in_order(deliveries) {
        return Ok(None);
    }
    let mut rows = listed(alloc, deliveries, side)?;
    sort_by_number(&mut rows)?;
    Ok(Some(rows))
}

/// The place in the document's list of the first of these lines that speaks of a frame. None where no line does.
fn place_of(rows: &[Row], number: u64) -> Option<usize>
    requires { AreRising rows.now }
    ensures { result ≡ first_place number rows.now }
{
    let at = rows.partition_point(|row| row.number < number);
    if at < rows.len() && rows[at].number == number {
        Some(rows[at].place)
    } else {
        None
    }
}

/// The first line that speaks of a frame, by the rows of the lines that speak of frames to the unit.
pub(crate) fn line_by<'a>(
    rows: &[Row],
    deliveries: &'a List<Delivery>,
    side: Side,
    class: TrafficClass,
    k: u32,
) -> Option<&'a Delivery>
    requires { AreRowsOf side deliveries.now rows.now }
    ensures { option_copied result ≡ line_of deliveries.now side class k }
{
    let place = place_of(rows, frame_number(side, class, k))?;
    deliveries.get(place)
}
