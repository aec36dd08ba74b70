// Arrivals put and taken, with the order worked out by hand.
use crate::built::{mark_of, marked};
use air_source::Side;
use fh_base::{NoMemory, Ticks};
use frame_ways::{Arrival, ArrivalKey, Network};
use std::alloc::Global;
use std::test::Fail;

fn key_of(injected: bool, place: u64, copy: u8) -> ArrivalKey {
    ArrivalKey {
        injected,
        place,
        copy,
    }
}

fn send(
    network: &mut Network,
    alloc: Global,
    side: Side,
    at: i64,
    key: ArrivalKey,
    mark: u8,
) -> Result<(), NoMemory> {
    let frame = marked(alloc, mark)?;
    network.put(Arrival {
        side,
        at: Ticks(at),
        key,
        frame,
    })
}

/// The one byte of the next frame, or 0 where no frame is received.
fn mark_until(network: &mut Network, to: i64) -> u8 {
    match network.next_until(Ticks(to)) {
        None => 0,
        Some(arrival) => mark_of(arrival.frame.as_slice()),
    }
}

#[test]
fn arrivals_come_at_their_times(rt: HostRuntime) -> Result<(), Fail> {
    let alloc = rt.alloc();
    let mut network = Network::make(alloc);
    assert_eq!(rt; network.next_time(), None);
    assert_eq!(rt; mark_until(&mut network, 100), 0);
    send(&mut network, alloc, Side::Ru, 30, key_of(false, 0, 0), 1)?;
    send(&mut network, alloc, Side::Ru, 10, key_of(false, 1, 0), 2)?;
    send(&mut network, alloc, Side::Ru, 20, key_of(false, 2, 0), 3)?;
    assert_eq!(rt; network.next_time(), Some(Ticks(10)));
    assert_eq!(rt; mark_until(&mut network, 9), 0);
    match network.next_until(Ticks(25)) {
        None => assert!(rt; false),
        Some(arrival) => {
            assert!(rt; arrival.side == Side::Ru && arrival.at == Ticks(10));
            assert!(rt; arrival.key == key_of(false, 1, 0));
            assert_eq!(rt; arrival.frame.as_slice(), [2].as_slice());
        }
    }
    assert_eq!(rt; mark_until(&mut network, 25), 3);
    assert_eq!(rt; mark_until(&mut network, 25), 0);
    assert_eq!(rt; network.next_time(), Some(Ticks(30)));
    assert_eq!(rt; mark_until(&mut network, 30), 1);
    assert_eq!(rt; mark_until(&mut network, 100), 0);
    Ok(())
}

#[test]
fn arrivals_of_one_time_come_in_order(rt: HostRuntime) -> Result<(), Fail> {
    let alloc = rt.alloc();
    let mut network = Network::make(alloc);
    send(&mut network, alloc, Side::Du, -5, key_of(false, 0, 0), 8)?;
    send(&mut network, alloc, Side::Ru, -5, key_of(true, 0, 0), 6)?;
    send(&mut network, alloc, Side::Ru, -5, key_of(false, 4, 1), 3)?;
    send(&mut network, alloc, Side::Ru, -5, key_of(false, 7, 0), 4)?;
    send(&mut network, alloc, Side::Ru, -5, key_of(false, 4, 0), 2)?;
    send(&mut network, alloc, Side::Ru, -5, key_of(false, 7, 0), 5)?;
    send(&mut network, alloc, Side::Ru, -5, key_of(true, 0, 1), 7)?;
    send(&mut network, alloc, Side::Du, -6, key_of(true, 9, 9), 1)?;
    assert_eq!(rt; mark_until(&mut network, -7), 0);
    for mark in 1..9_u8 {
        assert_eq!(rt; mark_until(&mut network, -5), mark);
    }
    assert_eq!(rt; mark_until(&mut network, -5), 0);
    Ok(())
}
