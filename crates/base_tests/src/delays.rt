ghost use Rattle.std.specs.Prelude.{◌≡◌, pos, ◌≤◌, ◌≤ℤ◌, length};
ghost use Rattle.delay_measure.specs.Kept.{IsKept, comp_of, answer_at};

use delay_measure::{
    Begun, DelayMessage, Edge, History, Kind, Meter, MeterStep, put_delay, read_delay,
};
use fh_base::{NoMemory, Ticks};

/// The compensations of a unit, in units of 2^-16 ns.
fn answer(edge: Edge, sending: i64, receiving: i64) -> i64
    ensures { result ≡ answer_at sending receiving edge }
{
    match edge {
        Edge::Sending => sending,
        Edge::Receiving => receiving,
    }
}

#[test]
fn the_last_two(rt: HostRuntime) -> Result<(), NoMemory> {
    let mut history = History::make(rt.alloc(), 2)?;
    assert_eq!(rt;
        (history.least(), history.greatest(), history.len()),
        (None, None, 0)
    );
    history.push(5);
    history.push(9);
    history.push(7);
    assert_eq!(rt;
        (history.least(), history.greatest(), history.len()),
        (Some(7), Some(9), 2)
    );
    Ok(())
}

#[test]
fn a_payload(rt: HostRuntime) {
    let m = DelayMessage {
        id: 7,
        action: 5,
        seconds: 0x0102_0304_0506,
        nanoseconds: 0x0708_090a,
        comp: -2,
    };
    let payload = [
        7, 5, 1, 2, 3, 4, 5, 6, 7, 8, 9, 10, 0xff, 0xff, 0xff, 0xff, 0xff, 0xff, 0xff, 0xfe,
    ];
    assert_eq!(rt; put_delay(&m).as_slice(), payload.as_slice());
    assert_eq!(rt; read_delay(&payload), Some(m));
    assert_eq!(rt; read_delay(&payload[..19]), None);
}

#[test]
fn one_by_two_units(rt: HostRuntime) {
    let mut du = Meter::keep(
        |edge: Edge| -> i64
            ensures { result ≡ answer_at (pos 6553600) (pos 0) edge }
        { answer(edge, 6_553_600, 0) },
    );
    let mut ru = Meter::keep(
        |edge: Edge| -> i64
            ensures { result ≡ answer_at (pos 0) (pos 2621440) edge }
        { answer(edge, 0, 2_621_440) },
    );
    let request = DelayMessage {
        id: 7,
        action: 0,
        seconds: 0,
        nanoseconds: 0x000f_41dc,
        comp: 0x64_0000,
    };
    let response = DelayMessage {
        id: 7,
        action: 2,
        seconds: 0,
        nanoseconds: 0x0010_05b8,
        comp: 0x28_0000,
    };
    assert_eq!(rt;
        du.begin(Ticks(1_536_000_000), 7, Kind::One),
        Begun::Send(request)
    );
    assert_eq!(rt;
        ru.on_message(Ticks(1_612_800_000), &request),
        MeterStep::Send(response)
    );
    assert_eq!(rt;
        du.on_message(Ticks(1_689_600_000), &response),
        MeterStep::Result(3_276_800_000)
    );
}

/// Compensations that are not whole nanoseconds: 1.5 and 2.25 ns of the DU, 3.75 and 0.5 ns of the RU, each with 2^-16
/// ns more. The frames take 77,800 ticks to the RU and 50,376 to the DU.
#[test]
fn remote_by_two_units(rt: HostRuntime) {
    let mut du = Meter::keep(
        |edge: Edge| -> i64
            ensures { result ≡ answer_at (pos 98305) (pos 147457) edge }
        { answer(edge, 98_305, 147_457) },
    );
    let mut ru = Meter::keep(
        |edge: Edge| -> i64
            ensures { result ≡ answer_at (pos 245761) (pos 32769) edge }
        { answer(edge, 245_761, 32_769) },
    );
    let asked = stamped(3, 3, 0, 0);
    let request = stamped(3, 0, 1046, 245_761);
    let response = stamped(3, 2, 1085, 147_457);
    assert_eq!(rt;
        du.begin(Ticks(1_536_001), 3, Kind::RemoteOne),
        Begun::Send(asked)
    );
    assert_eq!(rt;
        ru.on_message(Ticks(1_613_801), &asked),
        MeterStep::Send(request)
    );
    assert_eq!(rt;
        du.on_message(Ticks(1_664_177), &request),
        MeterStep::SendResult(response, 2_162_686)
    );
    assert_eq!(rt;
        ru.on_message(Ticks(1_740_977), &response),
        MeterStep::Result(2_162_686)
    );
    let request = stamped(4, 0, 998, 98_305);
    let response = stamped(4, 2, 1051, 32_769);
    assert_eq!(rt;
        du.begin(Ticks(1_536_001), 4, Kind::One),
        Begun::Send(request)
    );
    assert_eq!(rt;
        ru.on_message(Ticks(1_613_801), &request),
        MeterStep::Send(response)
    );
    assert_eq!(rt;
        du.on_message(Ticks(1_664_177), &response),
        MeterStep::Result(3_342_334)
    );
}

/// A message whose timestamp is under a second.
fn stamped(id: u8, action: u8, nanoseconds: u32, comp: i64) -> DelayMessage {
    DelayMessage {
        id,
        action,
        seconds: 0,
        nanoseconds,
        comp,
    }
}

/// The Response to a message that arrived at a time, where 2 ns are compensated.
fn response(id: u8, ns: u32) -> DelayMessage
    requires { ns ≤ 1000000 }
{
    stamped(id, 2, ns + 2, 131_072)
}

/// The place of the first of these messages, each at its time in nanoseconds, that has another answer than the one
/// beside it.
fn first_other<C: Fn(Edge) -> i64>(
    meter: &mut Meter<C>,
    steps: &[(u32, DelayMessage, MeterStep)],
) -> Option<usize>
    requires { IsKept C.pre C.post meter.old }
    ensures { comp_of meter.new ≡ comp_of meter.old }
{
    for (place, (ns, m, wanted)) in steps.iter().enumerate() {
        let step = meter.on_message(Ticks(*ns as i64 * 1536), m);
        if step != *wanted {
            return Some(place);
        }
    }
    None
}

/// Every message in every peer state, with 1 ns of compensation at sending and 2 ns at receiving.
#[test]
fn peer_states(rt: HostRuntime) {
    let mut meter = Meter::keep(
        |edge: Edge| -> i64
            ensures { result ≡ answer_at (pos 65536) (pos 131072) edge }
        { answer(edge, 65_536, 131_072) },
    );
    let request = stamped(1, 0, 50, 0);
    let other = stamped(1, 0, 51, 0);
    let announced = stamped(1, 1, 0, 0);
    let follow_up = stamped(1, 5, 50, 0);
    let steps = [
        (100, follow_up, MeterStep::Unknown),
        (110, stamped(1, 6, 0, 0), MeterStep::Unknown),
        (200, request, MeterStep::Send(response(1, 200))),
        (300, request, MeterStep::Again(response(1, 200))),
        (310, follow_up, MeterStep::Unknown),
        (400, other, MeterStep::Send(response(1, 400))),
        (500, request, MeterStep::Send(response(1, 500))),
        (600, announced, MeterStep::Noted),
        (700, announced, MeterStep::Repeat),
        (800, follow_up, MeterStep::Send(response(1, 600))),
        (810, follow_up, MeterStep::Again(response(1, 600))),
        (820, request, MeterStep::Send(response(1, 820))),
        (900, announced, MeterStep::Noted),
        (1000, request, MeterStep::Send(response(1, 1000))),
    ];
    assert_eq!(rt; first_other(&mut meter, &steps), None);
}

/// Every message in every own state, with 1 ns of compensation at sending and 2 ns at receiving.
#[test]
fn own_states(rt: HostRuntime) {
    let mut meter = Meter::keep(
        |edge: Edge| -> i64
            ensures { result ≡ answer_at (pos 65536) (pos 131072) edge }
        { answer(edge, 65_536, 131_072) },
    );
    let sent = stamped(2, 0, 99, 65_536);
    assert_eq!(rt;
        meter.begin(Ticks(153_600), 2, Kind::One),
        Begun::Send(sent)
    );
    assert_eq!(rt; meter.begin(Ticks(153_600), 2, Kind::Two), Begun::InUse);
    let asked = stamped(3, 3, 0, 0);
    assert_eq!(rt;
        meter.begin(Ticks(153_600), 3, Kind::RemoteOne),
        Begun::Send(asked)
    );
    let request = stamped(3, 0, 250, 65_536);
    let sent_here = stamped(4, 0, 399, 65_536);
    let steps = [
        (200, stamped(2, 3, 0, 0), MeterStep::Repeat),
        (210, stamped(2, 4, 0, 0), MeterStep::Repeat),
        (
            220,
            stamped(2, 2, 150, 131_072),
            MeterStep::Result(3_145_728),
        ),
        (230, stamped(2, 2, 150, 131_072), MeterStep::Repeat),
        (240, stamped(2, 3, 0, 0), MeterStep::Repeat),
        (250, stamped(2, 4, 0, 0), MeterStep::Repeat),
        (260, stamped(3, 2, 150, 0), MeterStep::Unknown),
        (270, stamped(3, 3, 0, 0), MeterStep::Repeat),
        (280, stamped(3, 4, 0, 0), MeterStep::Repeat),
        (
            300,
            request,
            MeterStep::SendResult(response(3, 300), 3_211_264),
        ),
        (310, request, MeterStep::Again(response(3, 300))),
        (320, stamped(3, 2, 150, 0), MeterStep::Repeat),
        (330, stamped(4, 2, 150, 0), MeterStep::Unknown),
        (400, stamped(4, 3, 0, 0), MeterStep::Send(sent_here)),
    ];
    assert_eq!(rt; first_other(&mut meter, &steps), None);
}

/// Both measurements of two messages, and an id that is forgotten.
#[test]
fn two_messages(rt: HostRuntime) {
    let mut meter = Meter::keep(
        |edge: Edge| -> i64
            ensures { result ≡ answer_at (pos 65536) (pos 131072) edge }
        { answer(edge, 65_536, 131_072) },
    );
    let announced = stamped(5, 1, 0, 0);
    let follow_up = stamped(5, 5, 99, 65_536);
    let asked = stamped(6, 4, 0, 0);
    assert_eq!(rt;
        meter.begin(Ticks(153_600), 5, Kind::Two),
        Begun::SendTwo(announced, follow_up)
    );
    assert_eq!(rt;
        meter.begin(Ticks(153_600), 6, Kind::RemoteTwo),
        Begun::Send(asked)
    );
    let steps = [
        (200, stamped(6, 1, 0, 0), MeterStep::Noted),
        (
            300,
            stamped(6, 5, 150, 0),
            MeterStep::SendResult(response(6, 200), 3_276_800),
        ),
    ];
    assert_eq!(rt; first_other(&mut meter, &steps), None);
    meter.forget(5);
    let steps = [(
        100,
        stamped(5, 4, 0, 0),
        MeterStep::SendTwo(announced, follow_up),
    )];
    assert_eq!(rt; first_other(&mut meter, &steps), None);
}
