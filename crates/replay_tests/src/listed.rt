// Frames in no order of their times, two of them of one time.
use fh_base::Ticks;
use frame_ways::LandingQueue;
use std::test::Fail;

#[test]
fn takes_by_time_then_place(rt: HostRuntime) -> Result<(), Fail> {
    let times = [Ticks(30), Ticks(10), Ticks(20), Ticks(10)];
    let mut queue = LandingQueue::make(rt.alloc(), &times)?;
    for (at, index) in [(10, 1), (10, 3), (20, 2), (30, 0)] {
        assert_eq!(rt; queue.next_time(), Some(Ticks(at)));
        assert_eq!(rt; queue.take_at(Ticks(at - 1)), None);
        assert_eq!(rt; queue.take_at(Ticks(at + 10)), None);
        assert_eq!(rt; queue.take_at(Ticks(at)), Some(index));
    }
    assert_eq!(rt; queue.next_time(), None);
    assert_eq!(rt; queue.take_at(Ticks(30)), None);
    Ok(())
}

#[test]
fn no_frames(rt: HostRuntime) -> Result<(), Fail> {
    let mut queue = LandingQueue::make(rt.alloc(), &[])?;
    assert_eq!(rt; queue.next_time(), None);
    assert_eq!(rt; queue.take_at(Ticks(0)), None);
    Ok(())
}
