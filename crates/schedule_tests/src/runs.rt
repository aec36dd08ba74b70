// The messages of a stream, and the frames of many messages in one order, worked out by hand.
ghost use Rattle.std.specs.Prelude.{◌≡◌, pos, ◌≤◌, ◌≤ℤ◌};
ghost use Rattle.du_scheduler.specs.Parts.{IsTimed};

use du_scheduler::{Limits, Queue, Run, TimedPart, Turn, queue_of, stream_messages};
use fh_base::{NoMemory, Ticks};
use plan_model::{Departures, Stream};

/// A frame that leaves at this time.
fn turn(at: Ticks, endpoint: u8, stream: Stream, number: u32, sub: u8) -> Turn
    ensures at { result.at ≡ at }
    ensures sub { result.sub ≡ sub }
{
    Turn {
        at,
        endpoint,
        stream,
        number,
        sub,
    }
}

/// A part of so many bytes in this symbol.
fn part(start: Ticks, symbol: u8, size: u16) -> TimedPart
    requires low { pos 0 ≤ℤ start.0 }
    requires high { start.0 ≤ℤ pos 10000 }
    requires size { size ≤ 13383 }
    ensures { IsTimed result }
{
    TimedPart {
        start,
        frame: 1,
        subframe: 0,
        slot: 0,
        symbol,
        start_prb: 0,
        num_prb: 0,
        section: 0,
        size,
        line: 0,
    }
}

/// A message of one stream, none of whose frames has left.
fn run(at: i64, last: i64, number: u32, left: u8) -> Run {
    Run {
        turn: turn(Ticks(at), 3, Stream::DownData, number, 0),
        last: Ticks(last),
        left,
    }
}

#[test]
fn parts_are_cut(rt: HostRuntime) -> Result<(), NoMemory> {
    // Fragments of 1,000 bytes, 60 ticks apart and at most 111 after the first, which leaves 300 before its symbol.
    let limits = Limits {
        endpoint: 3,
        stream: Stream::DownData,
        pack: 2,
        fragment: Some(1000),
        departures: Departures {
            from: Ticks(-300),
            gap: 60,
            spread: 111,
        },
    };
    // Three parts in symbol 0, of which two go in one message: 4 + 900 + 800 bytes; then one in symbol 1.
    let parts = [
        part(Ticks(1000), 0, 900),
        part(Ticks(1000), 0, 800),
        part(Ticks(1000), 0, 996),
        part(Ticks(2000), 1, 997),
    ];
    let messages = stream_messages(rt.alloc(), &limits, &parts)?;
    let wanted = [
        run(700, 811, 0, 2),
        run(811, 811, 1, 1),
        run(1700, 1811, 2, 2),
    ];
    assert_eq!(rt; messages.runs.len(), 3);
    for k in 0..3 {
        assert_eq!(rt; messages.runs.get(k), Some(&wanted[k]));
    }

    // They begin with parts 0, 2 and 3.
    assert_eq!(rt; messages.begins.len(), 3);
    assert_eq!(rt; messages.begins.get(0), Some(&0));
    assert_eq!(rt; messages.begins.get(1), Some(&2));
    assert_eq!(rt; messages.begins.get(2), Some(&3));

    // Commands: one part each, in one frame.
    let commands = Limits {
        pack: 1,
        fragment: None,
        ..limits
    };
    let messages = stream_messages(rt.alloc(), &commands, &parts)?;
    let wanted = [
        run(700, 811, 0, 1),
        run(760, 811, 1, 1),
        run(811, 811, 2, 1),
        run(1700, 1811, 3, 1),
    ];
    assert_eq!(rt; messages.runs.len(), 4);
    for k in 0..4 {
        assert_eq!(rt; messages.runs.get(k), Some(&wanted[k]));
    }
    assert_eq!(rt; stream_messages(rt.alloc(), &limits, &[])?.runs.len(), 0);
    Ok(())
}

#[test]
fn messages_take_turns(rt: HostRuntime) -> Result<(), NoMemory> {
    let mut queue = Queue::make(rt.alloc(), 60, 4)?;
    assert_eq!(rt; queue.next_time(), None);
    // Two frames of symbol 0, and one of symbol 1, which starts between them.
    queue.add(Run {
        turn: turn(Ticks(0), 0, Stream::DownData, 0, 0),
        last: Ticks(111),
        left: 2,
    });
    queue.add(Run {
        turn: turn(Ticks(35), 0, Stream::DownData, 1, 0),
        last: Ticks(146),
        left: 1,
    });
    // Three frames whose last ones are at the end of the window, and an uplink command there.
    queue.add(Run {
        turn: turn(Ticks(60), 1, Stream::DownData, 7, 0),
        last: Ticks(111),
        left: 3,
    });
    queue.add(Run {
        turn: turn(Ticks(111), 1, Stream::UpCommands, 3, 0),
        last: Ticks(111),
        left: 1,
    });
    let wanted = [
        turn(Ticks(0), 0, Stream::DownData, 0, 0),
        turn(Ticks(35), 0, Stream::DownData, 1, 0),
        turn(Ticks(60), 0, Stream::DownData, 0, 1),
        turn(Ticks(60), 1, Stream::DownData, 7, 0),
        turn(Ticks(111), 1, Stream::UpCommands, 3, 0),
        turn(Ticks(111), 1, Stream::DownData, 7, 1),
        turn(Ticks(111), 1, Stream::DownData, 7, 2),
    ];
    for turn in wanted {
        assert_eq!(rt; queue.next_time(), Some(turn.at));
        assert_eq!(rt; queue.next(), Some(turn));
    }
    assert_eq!(rt; queue.next(), None);
    assert_eq!(rt; queue.next_time(), None);
    Ok(())
}

#[test]
fn messages_are_queued(rt: HostRuntime) -> Result<(), NoMemory> {
    // Two frames of one symbol, the second at the end of its window, and one of another endpoint between them.
    let first = turn(Ticks(100), 1, Stream::DownData, 4, 0);
    let between = turn(Ticks(120), 0, Stream::DownCommands, 9, 0);
    let runs = [
        Run {
            turn: first,
            last: Ticks(150),
            left: 2,
        },
        Run {
            turn: between,
            last: Ticks(150),
            left: 1,
        },
    ];
    let mut queue = queue_of(rt.alloc(), 60, &runs)?;
    let second = turn(Ticks(150), 1, Stream::DownData, 4, 1);
    for turn in [first, between, second] {
        assert_eq!(rt; queue.next(), Some(turn));
    }
    assert_eq!(rt; queue.next(), None);
    Ok(())
}
