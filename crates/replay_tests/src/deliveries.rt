// The copies of frames of documents, worked out by hand.
use air_source::Side;
use fh_document::{TrafficClass, read};
use frame_ways::FrameDeliveries;
use std::test::Fail;

const LINES: &[u8] = b"fronthaul 1\ntransit dl 51\ntransit ul 62\ntransit m 73\n\
    deliver dl u 7 9 4 4\ndeliver ul u 7 1\ndeliver dl u 6 0\ndeliver dl c 7\ndeliver ul c 7 2 3\n\
    deliver dl m 7 1 3000000000\ndeliver dl u 9999999 1 2 3 4 5 6 7 8\ndeliver dl u 2 20\n";

/// Whether the copies of a frame take these times.
fn take(deliveries: &FrameDeliveries, class: TrafficClass, k: u32, times: &[i64]) -> bool {
    deliveries.copies(class, k).as_slice() == times
}

#[test]
fn copies_to_the_radio_unit_are_those_of_the_line(rt: HostRuntime) -> Result<(), Fail> {
    let document = read(rt.alloc(), LINES).expect(&rt, "read");
    let down = FrameDeliveries::make(rt.alloc(), &document, Side::Ru)?;
    let cases: [(TrafficClass, u32, &[i64]); 11] = [
        (TrafficClass::U, 7, &[9, 4, 4]),
        (TrafficClass::U, 6, &[0]),
        (TrafficClass::U, 2, &[20]),
        (TrafficClass::U, 9_999_999, &[1, 2, 3, 4, 5, 6, 7, 8]),
        (TrafficClass::U, 8, &[51]),
        (TrafficClass::U, 1, &[51]),
        (TrafficClass::C, 7, &[]),
        (TrafficClass::C, 6, &[51]),
        (TrafficClass::M, 7, &[1, 3_000_000_000]),
        (TrafficClass::M, 1, &[73]),
        (TrafficClass::U, 4_294_967_295, &[51]),
    ];
    for (class, k, times) in cases {
        assert!(rt; take(&down, class, k, times));
    }
    Ok(())
}

#[test]
fn copies_to_the_distributed_unit_are_those_of_the_line(rt: HostRuntime) -> Result<(), Fail> {
    let document = read(rt.alloc(), LINES).expect(&rt, "read");
    let up = FrameDeliveries::make(rt.alloc(), &document, Side::Du)?;
    let cases: [(TrafficClass, u32, &[i64]); 5] = [
        (TrafficClass::U, 7, &[1]),
        (TrafficClass::U, 6, &[62]),
        (TrafficClass::C, 7, &[2, 3]),
        (TrafficClass::C, 1, &[62]),
        (TrafficClass::M, 7, &[73]),
    ];
    for (class, k, times) in cases {
        assert!(rt; take(&up, class, k, times));
    }
    Ok(())
}

#[test]
fn a_frame_comes_once_where_no_line_stands(rt: HostRuntime) -> Result<(), Fail> {
    let document = read(rt.alloc(), b"fronthaul 1\n".as_slice()).expect(&rt, "read");
    for side in [Side::Ru, Side::Du] {
        let deliveries = FrameDeliveries::make(rt.alloc(), &document, side)?;
        for class in [TrafficClass::C, TrafficClass::U, TrafficClass::M] {
            assert!(rt; take(&deliveries, class, 1, &[50_000]));
        }
    }
    Ok(())
}
