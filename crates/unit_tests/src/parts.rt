// The parts of which units are made, each called once.
use crate::memory_samples::endpoint;
use air_source::Side;
use bfp_codec::{Method, Wide};
use ecpri_fragments::Verdict;
use ecpri_frames::messages;
use fault_counters::Counter;
use fh_base::{Numerology, Slot, Ticks};
use std::test::Fail;
use unit_model::{
    Allocation, Block, CommandVerdict, DataVerdict, Met, SymbolStart, block_counter, comes_before,
    command_counter, data_counter, fragment_counter, is_uplink, meet, place_of, same_slot,
    samples_under, sends_in,
};
use window_config::EndpointConfig;

/// A measurement message, data with 3 bytes, and data to the id 7: sequence 5, the last piece, with one byte.
const FRAME: [u8; 25] = [
    0x11, 0x05, 0x00, 0x04, 0x00, 0x00, 0x00, 0x00, 0x11, 0x00, 0x00, 0x03, 0x00, 0x00, 0x00, 0x00,
    0x10, 0x00, 0x00, 0x05, 0x00, 0x07, 0x05, 0x80, 0x2a,
];

const SLOT: Slot = Slot {
    frame: 1,
    subframe: 0,
    slot: 1,
};

/// An endpoint of 106 PRBs with the id 7.
fn wide(numerology: Numerology) -> EndpointConfig {
    EndpointConfig {
        id: 7,
        prbs: 106,
        ..endpoint(numerology, Method::Plain)
    }
}

fn uplink(endpoint: EndpointConfig, start_prb: u16, section: u16) -> Allocation {
    Allocation {
        ep: 0,
        endpoint,
        down: false,
        idle: false,
        slot: SLOT,
        symbol: 3,
        num_symbol: 2,
        start_prb,
        num_prb: 1,
        mask: 0xfff,
        section,
        filter: 0,
    }
}

#[test]
fn meets_messages_by_their_tests(rt: HostRuntime) -> Result<(), Fail> {
    let n = Numerology::ordinary(1).expect(&rt, "30 kHz");
    let endpoints = [wide(n)];
    let mut ignored = [Counter::Frames; 3];
    let mut is_piece = [false; 3];
    for (k, message) in messages(&FRAME).enumerate() {
        match meet(Side::Ru, &endpoints, &message) {
            Met::Ignored(counter) => {
                if k < 3 {
                    ignored[k] = counter;
                }
            }
            Met::Command { .. } => is_piece = [true; 3],
            Met::Piece { ep, seq, bytes, .. } => {
                if k < 3 {
                    is_piece[k] = true;
                }
                assert_eq!(rt; ep, 0);
                assert_eq!(rt; seq.seq, 5);
                assert_eq!(rt; seq.last, true);
                assert_eq!(rt; bytes.len(), 1);
            }
        }
    }
    assert_eq!(rt; ignored, [Counter::Delay, Counter::Short, Counter::Frames]);
    assert_eq!(rt; is_piece, [false, false, true]);
    Ok(())
}

#[test]
fn counts_verdicts(rt: HostRuntime) -> Result<(), Fail> {
    assert_eq!(rt; command_counter(CommandVerdict::Overlap), Counter::COverlap);
    assert_eq!(rt; data_counter(DataVerdict::Early), Counter::UEarly);
    assert_eq!(rt; fragment_counter(Verdict::Stray), Counter::FStray);
    assert_eq!(rt; block_counter(None), Counter::Missing);
    Ok(())
}

#[test]
fn orders_uplink_sections(rt: HostRuntime) -> Result<(), Fail> {
    let n = Numerology::ordinary(1).expect(&rt, "30 kHz");
    let e = wide(n);
    let sorted = [uplink(e, 2, 1), uplink(e, 5, 1)];
    // one that ties was before those in the list, so it is before its like
    assert_eq!(rt; place_of(&uplink(e, 5, 1), &sorted), 1);
    assert_eq!(rt; place_of(&uplink(e, 2, 0), &sorted), 0);
    assert_eq!(rt; place_of(&uplink(e, 9, 0), &sorted), 2);
    assert_eq!(rt; is_uplink(&sorted[0]), true);
    assert_eq!(rt; sends_in(&sorted[0], 0, SLOT, 4), true);
    assert_eq!(rt; sends_in(&sorted[0], 0, SLOT, 5), false);
    assert_eq!(rt; same_slot(&SLOT, &Slot { slot: 0, ..SLOT }), false);
    Ok(())
}

#[test]
fn takes_samples_of_its_section(rt: HostRuntime) -> Result<(), Fail> {
    let samples = [Wide { i: 3, q: -4 }; 12];
    let block = Block { id: 1, samples };
    assert_eq!(rt; samples_under(1, Some(block)), Some(samples));
    assert_eq!(rt; samples_under(2, Some(block)), None);
    Ok(())
}

#[test]
fn orders_symbols(rt: HostRuntime) -> Result<(), Fail> {
    let n = Numerology::ordinary(1).expect(&rt, "30 kHz");
    let third = SymbolStart {
        ep: 1,
        endpoint: wide(n),
        start: Ticks(100),
        slot: SLOT,
        symbol: 3,
    };
    let fourth = SymbolStart { symbol: 4, ..third };
    let earlier = SymbolStart {
        start: Ticks(99),
        ep: 2,
        ..fourth
    };
    assert_eq!(rt; comes_before(&third, &fourth), true);
    assert_eq!(rt; comes_before(&fourth, &third), false);
    assert_eq!(rt; comes_before(&third, &third), false);
    assert_eq!(rt; comes_before(&earlier, &third), true);
    Ok(())
}
