// Five frames of two endpoints, with the order in which they are sent worked out by hand.
use crate::built::mark_of;
use air_source::Link;
use fh_base::{NoMemory, Ticks};
use frame_ways::{Outbox, SendQueue};
use std::test::Fail;

/// Hands over a frame of one byte, which says when it is handed over.
fn hand(outbox: &mut Outbox, at: i64, ep: usize, turn: u8) -> Result<(), NoMemory> {
    outbox.send(Ticks(at), ep, &[turn])
}

/// The endpoint and the one byte of the next frame that leaves at a tick, or 0 and 0 where none does.
fn taken(queue: &mut SendQueue, at: i64) -> (usize, u8) {
    match queue.take_at(Ticks(at)) {
        None => (0, 0),
        Some(frame) => {
            if frame.at == Ticks(at) {
                (frame.ep, mark_of(frame.frame.as_slice()))
            } else {
                (0, 255)
            }
        }
    }
}

#[test]
fn five_frames_in_two_goes(rt: HostRuntime) -> Result<(), Fail> {
    let mut outbox = Outbox::new(rt.alloc());
    let mut queue = SendQueue::make(rt.alloc());
    hand(&mut outbox, 7, 1, 1)?;
    hand(&mut outbox, 7, 0, 2)?;
    hand(&mut outbox, 8, 1, 3)?;
    queue.fill(&mut outbox)?;
    hand(&mut outbox, 7, 1, 4)?;
    hand(&mut outbox, 8, 0, 5)?;
    queue.fill(&mut outbox)?;
    assert_eq!(rt; queue.next_time(), Some(Ticks(7)));
    assert_eq!(rt; taken(&mut queue, 6), (0, 0));
    assert_eq!(rt; taken(&mut queue, 8), (0, 0));
    for next in [(0, 2), (1, 1), (1, 4), (0, 0)] {
        assert_eq!(rt; taken(&mut queue, 7), next);
    }
    assert_eq!(rt; queue.next_time(), Some(Ticks(8)));
    for next in [(0, 5), (1, 3), (0, 0)] {
        assert_eq!(rt; taken(&mut queue, 8), next);
    }
    assert_eq!(rt; queue.next_time(), None);
    Ok(())
}

#[test]
fn nothing_waits(rt: HostRuntime) -> Result<(), Fail> {
    let mut outbox = Outbox::new(rt.alloc());
    let mut queue = SendQueue::make(rt.alloc());
    queue.fill(&mut outbox)?;
    assert_eq!(rt; queue.next_time(), None);
    assert_eq!(rt; taken(&mut queue, 0), (0, 0));
    Ok(())
}

#[test]
fn frames_take_memory_that_was_given_back(rt: HostRuntime) -> Result<(), Fail> {
    let mut outbox = Outbox::new(rt.alloc());
    let mut queue = SendQueue::make(rt.alloc());
    hand(&mut outbox, 5, 0, 1)?;
    let spare = outbox.pool_mut().copy_of(b"a frame that landed")?;
    outbox.pool_mut().give_back(spare);
    hand(&mut outbox, 5, 0, 2)?;
    hand(&mut outbox, 5, 0, 3)?;
    queue.fill(&mut outbox)?;
    for next in [(0, 1), (0, 2), (0, 3), (0, 0)] {
        assert_eq!(rt; taken(&mut queue, 5), next);
    }
    Ok(())
}
