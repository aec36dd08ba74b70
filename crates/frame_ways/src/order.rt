// Deliver lines that are in the order of the numbers of their frames.
ghost use Rattle.std.specs.Prelude.{◌≡◌, ◌<◌, ◌≤◌, true, length};
ghost use Rattle.std.specs.List.{slice_index_or};
ghost use Rattle.std.specs.List.Sorted.{IsNonDecreasingBy, IsPartitionPoint};
ghost use Rattle.std.specs.Option.{option_copied};
ghost use Rattle.fh_document.specs.declared.delivered.Delivery.{Delivery};
ghost use Rattle.fh_document.specs.Delivered.{frame_number};
ghost use Rattle.frame_ways.specs.Copies.{line_of};

use air_source::Side;
use fh_base::List;
use fh_document::{Delivery, TrafficClass, frame_number};

/// The number of the frame that a line speaks of.
pub(crate) fn number_of(line: &Delivery) -> u64
    ensures { result ≡ frame_number line.now }
{
    frame_number(line.side, line.class, line.k)
}

/// The number of the frame that the line at a place speaks of.
fn number_at(deliveries: &List<Delivery>, at: usize) -> u64
    requires { at < length deliveries.now }
    ensures { (d : Delivery) → result ≡ frame_number (slice_index_or deliveries.now at d) }
{
    match deliveries.get(at) {
        Some(line) => number_of(line),
        None => 0,
    }
}

/// Whether no line speaks of a frame with a lower number than one before it.
pub(crate) fn are_in_order(deliveries: &List<Delivery>) -> bool
    ensures { result ≡ true → IsNonDecreasingBy frame_number deliveries.now }
{
    let mut last: u64 = 0;
    for at in 0..deliveries.len() {
        let number = number_at(deliveries, at);
        if number < last {
            return false;
        }
        last = number;
    }
    true
}

/// How many of lines in order have lower numbers than this.
fn place_for(deliveries: &List<Delivery>, number: u64) -> usize
    requires { IsNonDecreasingBy frame_number deliveries.now }
    ensures { IsPartitionPoint (λ d. frame_number d < number) (λ d. number ≤ frame_number d) deliveries.now result }
{
    let mut low: usize = 0;
    let mut high = deliveries.len();
    'halving: while low < high {
        let middle = low + (high - low) / 2;
        if number_at(deliveries, middle) < number {
            low = middle + 1;
        } else {
            high = middle;
        }
    }
    low
}

/// The first of lines in order that speaks of a frame.
pub(crate) fn line_in_order(
    deliveries: &List<Delivery>,
    side: Side,
    class: TrafficClass,
    k: u32,
) -> Option<&Delivery>
    requires { IsNonDecreasingBy frame_number deliveries.now }
    ensures { option_copied result ≡ line_of deliveries.now side class k }
{
    let number = frame_number(side, class, k);
    let line = deliveries.get(place_for(deliveries, number))?;
    if number_of(line) == number {
        Some(line)
    } else {
        None
    }
}
