// What the lines of a plan, of deliveries, of frames and of measurements say, in their order.
use air_source::Side;
use delay_measure::Kind;
use fh_base::Slot;
use fh_document::{Measure, TrafficClass, read};
use window_config::{PlanKind, PlanLine};

#[test]
fn plan_lines_say_what_they_plan(rt: HostRuntime) {
    let text =
        b"fronthaul 1\n# two lines\nplan idle 0A0b 99999 9 63 62 15 1023 255 aBc 4095 32767\n\nplan ul 0000 1 2 3 4 5 6 7 089 10 11\n";
    let d = read(rt.alloc(), text).expect(&rt, "read");
    let slot = Slot {
        frame: 99_999,
        subframe: 9,
        slot: 63,
    };
    let idle = PlanLine {
        kind: PlanKind::Idle,
        id: 0x0a0b,
        slot,
        symbol: 62,
        count: 15,
        start_prb: 1_023,
        num_prb: 255,
        mask: 0xabc,
        section: 4_095,
        beam: 32_767,
    };
    assert_eq!(rt; d.plan.get(0), Some(&idle));
    let slot = Slot {
        frame: 1,
        subframe: 2,
        slot: 3,
    };
    let up = PlanLine {
        kind: PlanKind::Up,
        id: 0,
        slot,
        symbol: 4,
        count: 5,
        start_prb: 6,
        num_prb: 7,
        mask: 0x089,
        section: 10,
        beam: 11,
    };
    assert_eq!(rt; d.plan.get(1), Some(&up));
    assert_eq!(rt; (d.plan.len(), d.plan_lines.len()), (2, 2));
    assert_eq!(rt; d.plan_lines.get(0), Some(&3));
    assert_eq!(rt; d.plan_lines.get(1), Some(&5));
}

#[test]
fn deliver_lines_say_what_becomes_of_a_frame(rt: HostRuntime) {
    let text = b"fronthaul 1\ndeliver ul m 9999999 1 2 3 4 5 6 7 3000000000\ndeliver dl u 5\n";
    let d = read(rt.alloc(), text).expect(&rt, "read");
    assert_eq!(rt; d.deliveries.len(), 2);
    let all = d.deliveries.get(0).expect(&rt, "first");
    assert_eq!(rt;
        (all.side, all.class, all.k),
        (Side::Du, TrafficClass::M, 9_999_999)
    );
    assert_eq!(rt;
        all.copies.times().as_slice(),
        [1, 2, 3, 4, 5, 6, 7, 3_000_000_000].as_slice()
    );
    let none = d.deliveries.get(1).expect(&rt, "second");
    assert_eq!(rt;
        (none.side, none.class, none.k),
        (Side::Ru, TrafficClass::U, 5)
    );
    assert_eq!(rt; none.copies.times().len(), 0);
}

#[test]
fn measure_lines_say_what_is_measured(rt: HostRuntime) {
    let text = b"fronthaul 1\nmeasure ru 3 remote-one 2000000\nmeasure du 255 two 1000000000000\n";
    let d = read(rt.alloc(), text).expect(&rt, "read");
    let first = Measure {
        side: Side::Ru,
        id: 3,
        kind: Kind::RemoteOne,
        at: 2_000_000,
    };
    let second = Measure {
        side: Side::Du,
        id: 255,
        kind: Kind::Two,
        at: 1_000_000_000_000,
    };
    assert_eq!(rt; d.measures.len(), 2);
    assert_eq!(rt; d.measures.get(0), Some(&first));
    assert_eq!(rt; d.measures.get(1), Some(&second));
}

#[test]
fn plans_and_deliveries_stand_in_their_order(rt: HostRuntime) {
    let text =
        b"fronthaul 1\n\nplan dl 0000 1 0 0 0 14 0 6 fff 1 0\n# idle\nplan idle 0001 1 0 0 0 14 0 6 fff 1 0\ndeliver ul u 7 5 6\n";
    let d = read(rt.alloc(), text).expect(&rt, "read");
    assert_eq!(rt; (d.plan.len(), d.plan_lines.len()), (2, 2));
    assert_eq!(rt; d.plan.get(0).expect(&rt, "first").kind, PlanKind::Down);
    assert_eq!(rt; d.plan.get(1).expect(&rt, "second").kind, PlanKind::Idle);
    assert_eq!(rt; d.plan_lines.get(0), Some(&3));
    assert_eq!(rt; d.plan_lines.get(1), Some(&5));
    assert_eq!(rt; d.deliveries.len(), 1);
    let copies = d.deliveries.get(0).expect(&rt, "copies");
    assert_eq!(rt;
        (copies.side, copies.class, copies.k),
        (Side::Du, TrafficClass::U, 7)
    );
    assert_eq!(rt; copies.copies.times().as_slice(), [5, 6].as_slice());
    assert_eq!(rt; d.measures.len(), 0);
}

#[test]
fn both_directions_are_read(rt: HostRuntime) {
    let text =
        b"fronthaul 1\nendpoint 0000 ordinary 30 106 static none\nplan ul 0000 1 0 0 3 2 4 5 fff 1 0\ndeliver ul u 1 50000\ninject ul 7 c7\ninject dl 1 1002001400000080100100000101000000100001fff10000\n";
    let d = read(rt.alloc(), text).expect(&rt, "read");
    let line = d.plan.get(0).expect(&rt, "line");
    assert_eq!(rt; (line.kind, line.symbol, line.count), (PlanKind::Up, 3, 2));
    assert_eq!(rt; d.plan_lines.get(0), Some(&3));
    let copies = d.deliveries.get(0).expect(&rt, "copies");
    assert_eq!(rt;
        (copies.side, copies.class, copies.k),
        (Side::Du, TrafficClass::U, 1)
    );
    let to_du = d.injections.get(0).expect(&rt, "first");
    assert_eq!(rt; (to_du.side, to_du.at), (Side::Du, 7));
    assert_eq!(rt; to_du.frame.as_slice(), b"\xc7".as_slice());
    let command = d.injections.get(1).expect(&rt, "second");
    assert_eq!(rt; (command.side, command.at), (Side::Ru, 1));
    assert_eq!(rt; command.frame.as_slice().len(), 24);
    assert_eq!(rt;
        (d.plan.len(), d.deliveries.len(), d.injections.len()),
        (1, 1, 2)
    );
}

#[test]
fn their_bytes_stand_as_they_are(rt: HostRuntime) {
    let text =
        b"fronthaul 1\ninject ul 7 10050014070300000000000200000bb80000000000018000\ninject dl 8 110600041122334410050000\nmeasure ru 7 two 1000000\n";
    let d = read(rt.alloc(), text).expect(&rt, "read");
    let request = d.injections.get(0).expect(&rt, "request");
    assert_eq!(rt; (request.side, request.at), (Side::Du, 7));
    assert_eq!(rt;
        request.frame.as_slice(),
        b"\x10\x05\0\x14\x07\x03\0\0\0\0\0\x02\0\0\x0b\xb8\0\0\0\0\0\x01\x80\0".as_slice()
    );
    let second = d.injections.get(1).expect(&rt, "second");
    assert_eq!(rt; (second.side, second.at), (Side::Ru, 8));
    assert_eq!(rt;
        second.frame.as_slice(),
        b"\x11\x06\0\x04\x11\x22\x33\x44\x10\x05\0\0".as_slice()
    );
    assert_eq!(rt; (d.injections.len(), d.measures.len()), (2, 1));
}
