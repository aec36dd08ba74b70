// Measurements of a small document, worked out by hand.
ghost use Rattle.std.specs.Prelude.{IfOk, map};
ghost use Rattle.delay_model.specs.Doings.{nothing};
ghost use Rattle.fh_document.specs.Proper.{IsDocument};
ghost use Rattle.unit_meters.specs.Begins.{MetersStand, begin_of};
ghost use Rattle.unit_model.specs.Radiated.{first_clock};
ghost use Rattle.replay_tests.specs.Comps.{no_compensation};

use crate::ways::way_to;
use air_source::Side;
use delay_measure::{Compensation, Kind};
use fh_base::{FIRST_CLOCK, NoMemory, of_ns};
use fh_document::{Document, read};
use frame_ways::FramePool;
use std::alloc::Global;
use std::test::Fail;
use unit_meters::Meters;
use unit_moments::send_made;

/// The distributed unit's measurement begins first, though its line is the second.
const TEXT: &[u8] =
    b"fronthaul 1\ntransit m 30\nmeasure ru 9 one 2000000\nmeasure du 7 one 1000000\n";

/// Meters for which the measurements of a document wait, at units without compensation.
fn meters_of(alloc: Global, doc: &Document) -> Result<Meters<'_>, NoMemory>
    requires { IsDocument doc.now }
    ensures { IfOk result (λ m. MetersStand (map begin_of doc.now.measures) first_clock no_compensation no_compensation nothing nothing m) }
{
    let none = Compensation {
        sending: 0,
        receiving: 0,
    };
    Meters::make(alloc, &doc.measures, none, none)
}

#[test]
fn a_request_leaves(rt: HostRuntime) -> Result<(), Fail> {
    let alloc = rt.alloc();
    let doc = read(alloc, TEXT).expect(&rt, "read");
    let mut meters = meters_of(alloc, &doc)?;
    let mut pool = FramePool::new(alloc);
    let mut down = way_to(alloc, &doc, Side::Ru)?;
    let tick = of_ns(1_000_000);
    meters.begin(FIRST_CLOCK)?;
    assert_eq!(rt; meters.next_time(), Some(tick));
    meters.du.begin(tick, 7, Kind::One)?;
    send_made(tick, &mut meters.du, &mut pool, &mut down)?;
    assert_eq!(rt; down.next_time(), Some(of_ns(1_000_030)));
    assert_eq!(rt; meters.du.take_made(), None);
    Ok(())
}
