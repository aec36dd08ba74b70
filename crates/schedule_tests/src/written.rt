// Frames of planned lines, written out by hand from the layout tables.
ghost use Rattle.std.specs.Prelude.{◌≡◌, ◌<◌, ◌≤ℤ◌, pos, neg_ℤ};
ghost use Rattle.bfp_codec.specs.Layout.{HasWidth};
ghost use Rattle.window_config.specs.Endpoints.{IsEndpoint};
ghost use Rattle.window_config.specs.Plans.{IsPlanLine};

use crate::steps::{at_id, endpoint, in_frame, in_slot, in_subframe, line, of_format, with_beam};
use air_source::{RePlace, Samples};
use bfp_codec::{Format, Method, Wide};
use fh_base::{Numerology, Slot};
use frame_bytes::DataSection;
use plan_model::PlannedLine;
use sent_frames::{Fragment, command_frame, data_frame, data_section};
use std::test::Fail;
use window_config::{EndpointConfig, PlanKind, PlanLine};

/// A line of one PRB and one symbol in frame 1, at an endpoint of id 0x1234.
fn planned(kind: PlanKind, numerology: Numerology, dynamic: bool, method: Method) -> PlannedLine
    requires { HasWidth method }
    ensures line { IsPlanLine result.line }
    ensures endpoint { IsEndpoint result.endpoint }
{
    let formatted = of_format(endpoint(numerology), dynamic, method);
    let here = in_slot(in_subframe(line(kind, 3, (5, 1), 7), 2), 1);
    PlannedLine {
        index: 0,
        ep: 0,
        endpoint: EndpointConfig {
            id: 0x1234,
            ..formatted
        },
        line: at_id(with_beam(here, 9), 0x1234),
    }
}

/// The line in this frame.
fn planned_in(p: PlannedLine, frame: i64) -> PlannedLine
    requires line { IsPlanLine p.line }
    requires endpoint { IsEndpoint p.endpoint }
    requires low { pos 1 ≤ℤ frame }
    requires high { frame ≤ℤ pos 99999 }
    ensures line { IsPlanLine result.line }
    ensures endpoint { IsEndpoint result.endpoint }
{
    PlannedLine {
        line: in_frame(p.line, frame),
        ..p
    }
}

#[test]
fn a_downlink_command(rt: HostRuntime) -> Result<(), Fail> {
    let n = Numerology::ordinary(1).expect(&rt, "30 kHz");
    let p = planned(PlanKind::Down, n, true, Method::Bfp(9));
    let mut room = [0xee; 40];
    let size = command_frame(&p, 0xff, &mut room);
    // Section type 1; a downlink command's udCompHdr is 0 in a dynamic format too.
    let wanted = [
        0x10, 0x02, 0x00, 0x14, 0x12, 0x34, 0xff, 0x80, 0x90, 0x01, 0x20, 0x43, 0x01, 0x01, 0x00,
        0x00, 0x00, 0x70, 0x05, 0x01, 0xff, 0xf1, 0x00, 0x09,
    ];
    assert_eq!(rt; room[..size.min(40)], wanted[..]);

    // Frame 256 has frameId 0, and frame 99,999 has 159.
    command_frame(&planned_in(p, 256), 0, &mut room);
    assert_eq!(rt; room[9], 0);
    command_frame(&planned_in(p, 99_999), 0, &mut room);
    assert_eq!(rt; room[9], 159);
    Ok(())
}

#[test]
fn uplink_commands(rt: HostRuntime) -> Result<(), Fail> {
    let n = Numerology::ordinary(1).expect(&rt, "30 kHz");
    let mut room = [0xee; 40];
    let p = planned(PlanKind::Up, n, true, Method::Bfp(9));
    let size = command_frame(&p, 0, &mut room);
    // dataDirection 0, and the endpoint's udCompHdr: width 9, method 1.
    let wanted = [
        0x10, 0x02, 0x00, 0x14, 0x12, 0x34, 0x00, 0x80, 0x10, 0x01, 0x20, 0x43, 0x01, 0x01, 0x91,
        0x00, 0x00, 0x70, 0x05, 0x01, 0xff, 0xf1, 0x00, 0x09,
    ];
    assert_eq!(rt; room[..size.min(40)], wanted[..]);

    // The width 16 is written as 0; no compression and a static format are 0.
    command_frame(
        &planned(PlanKind::Up, n, true, Method::Bfp(16)),
        0,
        &mut room,
    );
    assert_eq!(rt; room[14], 0x01);
    command_frame(&planned(PlanKind::Up, n, true, Method::Plain), 0, &mut room);
    assert_eq!(rt; room[14], 0);
    command_frame(
        &planned(PlanKind::Up, n, false, Method::Bfp(9)),
        0,
        &mut room,
    );
    assert_eq!(rt; room[14], 0);
    Ok(())
}

#[test]
fn idle_and_offset_commands(rt: HostRuntime) -> Result<(), Fail> {
    // 15 kHz, timeOffset 0x0102, cpLength 512.
    let n = Numerology::offset(0, 0x0102, 512).expect(&rt, "15 kHz");
    let mut room = [0xee; 40];
    let p = planned(PlanKind::Idle, n, false, Method::Plain);
    let size = command_frame(&p, 1, &mut room);
    // Section type 0: timeOffset, frameStructure, cpLength and a reserved byte; no beamId.
    let wanted = [
        0x10, 0x02, 0x00, 0x18, 0x12, 0x34, 0x01, 0x80, 0x90, 0x01, 0x20, 0x43, 0x01, 0x00, 0x01,
        0x02, 0x00, 0x02, 0x00, 0x00, 0x00, 0x70, 0x05, 0x01, 0xff, 0xf1, 0x00, 0x00,
    ];
    assert_eq!(rt; room[..size.min(40)], wanted[..]);

    let p = planned(PlanKind::Up, n, true, Method::Bfp(16));
    let size = command_frame(&p, 2, &mut room);
    // Section type 3: udCompHdr in the header, freqOffset 0 in the section.
    let wanted = [
        0x10, 0x02, 0x00, 0x1c, 0x12, 0x34, 0x02, 0x80, 0x10, 0x01, 0x20, 0x43, 0x01, 0x03, 0x01,
        0x02, 0x00, 0x02, 0x00, 0x01, 0x00, 0x70, 0x05, 0x01, 0xff, 0xf1, 0x00, 0x09, 0x00, 0x00,
        0x00, 0x00,
    ];
    assert_eq!(rt; room[..size.min(40)], wanted[..]);

    // An ordinary endpoint's idle line: 30 kHz is code 1, no timeOffset, no cpLength.
    let n = Numerology::ordinary(1).expect(&rt, "30 kHz");
    command_frame(
        &planned(PlanKind::Idle, n, false, Method::Plain),
        0,
        &mut room,
    );
    assert_eq!(rt; room[14..20], [0, 0, 1, 0, 0, 0][..]);
    Ok(())
}

#[test]
fn fragments_of_a_message(rt: HostRuntime) -> Result<(), Fail> {
    let n = Numerology::ordinary(1).expect(&rt, "30 kHz");
    let p = PlannedLine {
        index: 0,
        ep: 0,
        endpoint: EndpointConfig {
            id: 0x1234,
            numerology: n,
            prbs: 106,
            format: Format {
                dynamic: false,
                method: Method::Plain,
            },
        },
        line: PlanLine {
            kind: PlanKind::Down,
            id: 0x1234,
            slot: Slot {
                frame: 1,
                subframe: 2,
                slot: 1,
            },
            symbol: 3,
            count: 2,
            start_prb: 5,
            num_prb: 3,
            mask: 0xfff,
            section: 7,
            beam: 9,
        },
    };
    let sections = [DataSection {
        id: 7,
        start_prb: 5,
        num_prb: 3,
    }];
    assert_eq!(rt; data_section(&p), sections[0]);
    // The samples (k, -k) in each PRB.
    let samples = Samples::keep(
        |place: RePlace| -> Wide
            requires { place.re < 12 }
            ensures i { result.i ≡ pos place.re }
            ensures q { result.q ≡ neg_ℤ (pos place.re) }
        {
            Wide {
                i: i32::from(place.re),
                q: -i32::from(place.re),
            }
        },
    );
    let mut room = [0xee; 136];
    // 152 bytes: 128 in the first fragment, whose E is 0.
    let first = Fragment {
        seq: 0xfe,
        sub: 0,
        size: 128,
    };
    let size = data_frame(&p, 4, &sections, first, &samples, &mut room);
    let wanted = [
        0x10, 0x00, 0x00, 0x84, 0x12, 0x34, 0xfe, 0x00, 0x90, 0x01, 0x20, 0x44, 0x00, 0x70, 0x05,
        0x03, 0x00, 0x00, 0x00, 0x00, 0x00, 0x01, 0xff, 0xff, 0x00, 0x02, 0xff, 0xfe,
    ];
    assert_eq!(rt; size, 136);
    assert_eq!(rt; room[..size.min(28)], wanted[..]);
    // The other 24 in the last: elements 6 to 11 of the third PRB.
    let last = Fragment { sub: 1, ..first };
    let size = data_frame(&p, 4, &sections, last, &samples, &mut room);
    let wanted = [
        0x10, 0x00, 0x00, 0x1c, 0x12, 0x34, 0xfe, 0x81, 0x00, 0x06, 0xff, 0xfa, 0x00, 0x07, 0xff,
        0xf9, 0x00, 0x08, 0xff, 0xf8, 0x00, 0x09, 0xff, 0xf7, 0x00, 0x0a, 0xff, 0xf6, 0x00, 0x0b,
        0xff, 0xf5,
    ];
    assert_eq!(rt; room[..size.min(136)], wanted[..]);
    Ok(())
}
