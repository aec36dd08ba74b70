// Events that an air in memory hears, frames that a link takes, and the faults that a caller meets.
use crate::built::{calls, level};
use crate::telling::tell_cells;
use air_source::{Air, AirCell, AirFault, Event, Link, MemoryAir, MemoryLink, Side};
use fault_counters::Counter;
use fh_base::{List, Ticks};
use std::test::Fail;

fn is_cell(event: Option<&Event>, wanted: &AirCell) -> bool {
    match event {
        Some(Event::Cell(cell)) => cell == wanted,
        _ => false,
    }
}

#[test]
fn all_kinds_of_event_are_heard_in_order(rt: HostRuntime) -> Result<(), Fail> {
    let alloc = rt.alloc();
    let mut air = MemoryAir::new(alloc, List::new(alloc));
    assert_eq!(rt; air.arrival(Side::Ru, Ticks(-7), &[1, 2, 3]), Ok(()));
    assert_eq!(rt; air.cell(&level(4)), Ok(()));
    assert_eq!(rt; air.delay(Ticks(-7), Side::Du, 7, 5), Ok(()));
    assert_eq!(rt; air.count(Side::Ru, Counter::Cells, 1), Ok(()));
    let heard = air.heard();
    assert_eq!(rt; heard.len(), 4);
    match heard.get(0) {
        Some(Event::Arrival { side, at, frame }) => {
            assert!(rt; *side == Side::Ru && *at == Ticks(-7));
            assert_eq!(rt; frame.as_slice(), [1, 2, 3].as_slice());
        }
        _ => assert!(rt; false),
    }
    assert!(rt; is_cell(heard.get(1), &level(4)));
    match heard.get(2) {
        Some(
            Event::Delay {
                at,
                side,
                id,
                value,
            },
        ) => {
            assert!(rt; *at == Ticks(-7) && *side == Side::Du && *id == 7 && *value == 5);
        }
        _ => assert!(rt; false),
    }
    match heard.get(3) {
        Some(
            Event::Count {
                side,
                counter,
                value,
            },
        ) => {
            assert!(rt; *side == Side::Ru && *counter == Counter::Cells && *value == 1);
        }
        _ => assert!(rt; false),
    }
    Ok(())
}

#[test]
fn a_listed_call_hears_nothing(rt: HostRuntime) -> Result<(), Fail> {
    let alloc = rt.alloc();
    let mut air = MemoryAir::new(alloc, calls(alloc, &[2, 4])?);
    let told = tell_cells(&[level(1), level(2), level(3)], &mut air);
    assert_eq!(rt; told, Err(AirFault::Failed));
    assert_eq!(rt; air.heard().len(), 1);
    assert!(rt; is_cell(air.heard().get(0), &level(1)));
    assert_eq!(rt; air.cell(&level(2)), Ok(()));
    assert_eq!(rt;
        air.count(Side::Du, Counter::Missing, 9),
        Err(AirFault::Failed)
    );
    assert_eq!(rt; air.cell(&level(5)), Ok(()));
    assert_eq!(rt; air.heard().len(), 3);
    assert!(rt; is_cell(air.heard().get(2), &level(5)));
    Ok(())
}

#[test]
fn sent_frames_are_kept_in_order(rt: HostRuntime) -> Result<(), Fail> {
    let mut link = MemoryLink::new(rt.alloc());
    link.send(Ticks(30), 2, b"ab")?;
    link.send(Ticks(20), 0, b"")?;
    let frames = link.frames();
    assert_eq!(rt; frames.len(), 2);
    for (k, at, ep, bytes) in [(0, 30, 2, b"ab".as_slice()), (1, 20, 0, b"".as_slice())] {
        match frames.get(k) {
            Some(sent) => {
                assert!(rt; sent.at == Ticks(at) && sent.ep == ep);
                assert_eq!(rt; sent.frame.as_slice(), bytes);
            }
            None => assert!(rt; false),
        }
    }
    Ok(())
}
