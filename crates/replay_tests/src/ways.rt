// Ways of a small document, worked out by hand.
ghost use Rattle.std.specs.Prelude.{◌≡◌, IfOk};
ghost use Rattle.fh_document.specs.Proper.{IsDocument};
ghost use Rattle.frame_ways.specs.Ways.{document_of};

use crate::built::{mark_of, marked};
use air_source::Side;
use fh_base::{NoMemory, Ticks, of_ns};
use fh_document::{Document, TrafficClass, read};
use frame_ways::{FramePool, Way, earlier_of};
use std::alloc::Global;
use std::test::Fail;

/// The second frame of the U-plane to the radio unit is received three times, the first command not at all, the first frame of delay
/// measurement twice, and the second frame of the U-plane to the distributed unit early. Of the injected frames four are received at the
/// times of others.
const TEXT: &[u8] = b"fronthaul 1\ntransit dl 40\ntransit ul 60\ntransit m 30\n\
    deliver dl u 2 7 5 7\ndeliver dl c 1\ndeliver ul u 2 9\ndeliver dl m 1 5 8\n\
    inject dl 49 a3\ninject ul 60 b1\ninject dl 40 a1\ninject dl 40 a2\n";

/// The way to a unit.
pub(crate) fn way_to<'a>(alloc: Global, doc: &'a Document, side: Side) -> Result<Way<'a>, NoMemory>
    requires { IsDocument doc.now }
    ensures { IfOk result (λ w. IsDocument (document_of w)) }
{
    Way::make(alloc, doc, side)
}

/// Sends a frame of one byte at time 0.
fn send(
    pool: &mut FramePool,
    way: &mut Way<'_>,
    class: TrafficClass,
    mark: u8,
) -> Result<(), NoMemory>
    requires { IsDocument (document_of way.old) }
    ensures { document_of way.new ≡ document_of way.old }
{
    way.send(pool, Ticks(0), class, &[mark])
}

/// The byte of the next frame that lands at a tick, or 0 where none does. The frame's memory goes back to the pool.
fn mark_at(pool: &mut FramePool, way: &mut Way<'_>, tick: Ticks) -> u8
    ensures { document_of way.new ≡ document_of way.old }
{
    let Some(frame) = way.next_at(tick) else {
        return 0;
    };
    let mark = mark_of(frame.as_slice());
    frame.give_back(pool);
    mark
}

#[test]
fn frames_land_in_order(rt: HostRuntime) -> Result<(), Fail> {
    let alloc = rt.alloc();
    let doc = read(alloc, TEXT).expect(&rt, "read");
    let mut pool = FramePool::new(alloc);
    let mut down = way_to(alloc, &doc, Side::Ru)?;
    send(&mut pool, &mut down, TrafficClass::U, 1)?;
    send(&mut pool, &mut down, TrafficClass::M, 8)?;
    send(&mut pool, &mut down, TrafficClass::C, 2)?;
    send(&mut pool, &mut down, TrafficClass::U, 3)?;
    send(&mut pool, &mut down, TrafficClass::M, 9)?;
    send(&mut pool, &mut down, TrafficClass::C, 4)?;
    for (ns, marks) in [
        (5, [8, 3, 0, 0, 0]),
        (7, [3, 3, 0, 0, 0]),
        (8, [8, 0, 0, 0, 0]),
        (30, [9, 0, 0, 0, 0]),
        (40, [1, 4, 0xa1, 0xa2, 0]),
        (49, [0xa3, 0, 0, 0, 0]),
    ] {
        let tick = of_ns(ns);
        assert_eq!(rt; down.next_time(), Some(tick));
        for mark in marks {
            assert_eq!(rt; mark_at(&mut pool, &mut down, tick), mark);
        }
    }
    assert_eq!(rt; down.next_time(), None);
    Ok(())
}

#[test]
fn each_unit_has_its_own(rt: HostRuntime) -> Result<(), Fail> {
    let alloc = rt.alloc();
    let doc = read(alloc, TEXT).expect(&rt, "read");
    let mut pool = FramePool::new(alloc);
    let mut up = way_to(alloc, &doc, Side::Du)?;
    send(&mut pool, &mut up, TrafficClass::U, 5)?;
    send(&mut pool, &mut up, TrafficClass::M, 7)?;
    up.send_owned(&mut pool, Ticks(0), TrafficClass::U, marked(alloc, 6)?)?;
    for (ns, marks) in [(9, [6, 0, 0]), (30, [7, 0, 0]), (60, [5, 0xb1, 0])] {
        let tick = of_ns(ns);
        assert_eq!(rt; up.next_time(), Some(tick));
        for mark in marks {
            assert_eq!(rt; mark_at(&mut pool, &mut up, tick), mark);
        }
    }
    assert_eq!(rt; up.next_time(), None);
    Ok(())
}

#[test]
fn frames_go_out_in_memory_that_came_back(rt: HostRuntime) -> Result<(), Fail> {
    let alloc = rt.alloc();
    let doc = read(alloc, TEXT).expect(&rt, "read");
    let mut pool = FramePool::new(alloc);
    let mut down = way_to(alloc, &doc, Side::Ru)?;
    send(&mut pool, &mut down, TrafficClass::M, 1)?;
    assert_eq!(rt; mark_at(&mut pool, &mut down, of_ns(5)), 1);
    send(&mut pool, &mut down, TrafficClass::M, 2)?;
    assert_eq!(rt; mark_at(&mut pool, &mut down, of_ns(8)), 1);
    send(&mut pool, &mut down, TrafficClass::M, 3)?;
    for mark in [2, 3, 0] {
        assert_eq!(rt; mark_at(&mut pool, &mut down, of_ns(30)), mark);
    }
    Ok(())
}

#[test]
fn the_earlier_comes_first(rt: HostRuntime) {
    assert_eq!(rt; earlier_of(Some(Ticks(2)), Some(Ticks(1))), Some(Ticks(1)));
    assert_eq!(rt; earlier_of(Some(Ticks(2)), None), Some(Ticks(2)));
    assert_eq!(rt; earlier_of(None, None), None);
}
