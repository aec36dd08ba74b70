// Downlink frames that are longer on their way.
ghost use Rattle.std.specs.Prelude.{◌≡◌, ◌<◌, ◌^◌, pos, All, IfOk, map};
ghost use Rattle.fh_document.specs.Proper.{IsDelivery, IsFrom};
ghost use Rattle.fh_document.specs.declared.config_lines.TheConstants.{MOST_TRANSIT};
ghost use Rattle.document_texts.specs.Units.{moved, moves, moved_delivery};

use air_source::Side;
use fh_base::{List, NoMemory};
use fh_document::{Copies, Delivery, MOST_TRANSIT, TrafficClass};
use std::alloc::Global;

/// A time on the way that is longer by `more` nanoseconds, three seconds at most.
pub(crate) fn moved(ns: i64, more: u64) -> i64
    requires ns { IsFrom 0 MOST_TRANSIT ns }
    requires more { more < 2 ^ 48 }
    ensures { result ≡ moved more ns }
{
    (ns + more as i64).min(MOST_TRANSIT as i64)
}

/// Whether the frames of a class on a way are longer on their way: those of the C-plane and the U-plane to the radio unit.
fn moves(side: Side, class: TrafficClass) -> bool
    ensures { result ≡ moves side class }
{
    side == Side::Ru && class != TrafficClass::M
}

/// The same as a number of 32 bits.
fn moved_time(ns: i64, more: u64) -> u32
    requires ns { IsFrom 0 MOST_TRANSIT ns }
    requires more { more < 2 ^ 48 }
    ensures { pos result ≡ moved more ns }
{
    moved(ns, more) as u32
}

/// The same copies, each longer on its way.
fn moved_copies(copies: &Copies, more: u64) -> Copies
    requires times { All (IsFrom 0 MOST_TRANSIT) copies.now }
    requires more { more < 2 ^ 48 }
    ensures { result ≡ map (moved more) copies.now }
{
    let copied = copies.times();
    let times = copied.as_slice();
    let mut longer = Copies::new();
    for k in 0..times.len() {
        let _ = longer.push(moved_time(times[k], more));
    }
    longer
}

/// What becomes of a frame at a unit.
fn moved_delivery(delivery: &Delivery, more: u64) -> Delivery
    requires delivery { IsDelivery delivery.now }
    requires more { more < 2 ^ 48 }
    ensures { result ≡ moved_delivery more delivery.now }
{
    let copies = if moves(delivery.side, delivery.class) {
        moved_copies(&delivery.copies, more)
    } else {
        delivery.copies.copied()
    };
    Delivery {
        side: delivery.side,
        class: delivery.class,
        k: delivery.k,
        copies,
    }
}

/// What becomes of frames at a unit.
pub(crate) fn moved_deliveries(
    alloc: Global,
    deliveries: &List<Delivery>,
    more: u64,
) -> Result<List<Delivery>, NoMemory>
    requires deliveries { All IsDelivery deliveries.now }
    requires more { more < 2 ^ 48 }
    ensures { IfOk result (λ list. list ≡ map (moved_delivery more) deliveries.now) }
{
    let mut list = List::new(alloc);
    for k in 0..deliveries.len() {
        if let Some(delivery) = deliveries.get(k) {
            list.push(moved_delivery(delivery, more))?;
        }
    }
    Ok(list)
}
