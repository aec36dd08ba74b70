// Frames of each plane, with values worked out by hand.
ghost use Rattle.std.specs.Prelude.{◌≡◌, [], ◌∷◌, All, IfOk, IfSome};
ghost use Rattle.bfp_codec.specs.Layout.{HasWidth};
ghost use Rattle.window_config.specs.Configs.{IsConfig};
ghost use Rattle.window_config.specs.Endpoints.{IsEndpoint};
ghost use Rattle.unit_model.specs.Proper.{IsProperAllocation, IsTime};
ghost use Rattle.plain_units.specs.declared.report.TimedFrame.{TimedFrame as SpecFrame};

use air_source::{AirCell, Side};
use bfp_codec::{Format, Method, Wide};
use eaxc_map::Widths;
use fault_counters::{Counter, Counters};
use fh_base::{Bytes, NoMemory, Numerology, Slot, Ticks, of_ns, shape};
use plain_units::{TimedFrame, plain_du, plain_ru};
use std::alloc::Global;
use std::test::Fail;
use unit_model::{Allocation, CommandVerdict, DataVerdict, UplinkJob};
use window_config::{Config, Delays, EndpointConfig, EndpointList};

/// A downlink command: symbol 0 of frame 1, section 1, all elements of PRB 0.
const COMMAND: [u8; 24] = [
    0x10, 0x02, 0x00, 0x14, 0x00, 0x00, 0x00, 0x80, 0x90, 0x01, 0x00, 0x00, 0x01, 0x01, 0x00, 0x00,
    0x00, 0x10, 0x00, 0x01, 0xff, 0xf1, 0x00, 0x00,
];

/// Its data: the samples (0, 0), (1, -1) and so on.
const DATA: [u8; 64] = [
    0x10, 0x00, 0x00, 0x3c, 0x00, 0x00, 0x00, 0x80, 0x90, 0x01, 0x00, 0x00, 0x00, 0x10, 0x00, 0x01,
    0x00, 0x00, 0x00, 0x00, 0x00, 0x01, 0xff, 0xff, 0x00, 0x02, 0xff, 0xfe, 0x00, 0x03, 0xff, 0xfd,
    0x00, 0x04, 0xff, 0xfc, 0x00, 0x05, 0xff, 0xfb, 0x00, 0x06, 0xff, 0xfa, 0x00, 0x07, 0xff, 0xf9,
    0x00, 0x08, 0xff, 0xf8, 0x00, 0x09, 0xff, 0xf7, 0x00, 0x0a, 0xff, 0xf6, 0x00, 0x0b, 0xff, 0xf5,
];

/// Uplink data of symbol 0 of frame 1 for section 5, with the same samples in PRB 0.
const UPLINK_DATA: [u8; 64] = [
    0x10, 0x00, 0x00, 0x3c, 0x00, 0x00, 0x00, 0x80, 0x10, 0x01, 0x00, 0x00, 0x00, 0x50, 0x00, 0x01,
    0x00, 0x00, 0x00, 0x00, 0x00, 0x01, 0xff, 0xff, 0x00, 0x02, 0xff, 0xfe, 0x00, 0x03, 0xff, 0xfd,
    0x00, 0x04, 0xff, 0xfc, 0x00, 0x05, 0xff, 0xfb, 0x00, 0x06, 0xff, 0xfa, 0x00, 0x07, 0xff, 0xf9,
    0x00, 0x08, 0xff, 0xf8, 0x00, 0x09, 0xff, 0xf7, 0x00, 0x0a, 0xff, 0xf6, 0x00, 0x0b, 0xff, 0xf5,
];

/// The words of an uplink command of type 1 before its 65 sections.
const UPLINK_HEAD: [u8; 16] = [
    0x10, 0x02, 0x02, 0x14, 0x00, 0x00, 0x00, 0x80, 0x10, 0x01, 0x00, 0x00, 0x41, 0x01, 0x00, 0x00,
];

/// The words of an uplink command of type 0 before its 65 sections.
const IDLE_HEAD: [u8; 20] = [
    0x10, 0x02, 0x02, 0x18, 0x00, 0x00, 0x00, 0x80, 0x10, 0x01, 0x00, 0x00, 0x41, 0x00, 0x00, 0x00,
    0x01, 0x00, 0x00, 0x00,
];

/// The start of frame 1.
const START: Ticks = Ticks(15_360_000_000);

const SLOT: Slot = Slot {
    frame: 1,
    subframe: 0,
    slot: 0,
};

fn endpoint(numerology: Numerology) -> EndpointConfig
    ensures { IsEndpoint result }
{
    EndpointConfig {
        id: 0,
        numerology,
        prbs: 106,
        format: Format {
            dynamic: false,
            method: Method::Plain,
        },
    }
}

fn listed(e: EndpointConfig) -> EndpointList
    ensures { result ≡ e ∷ [] }
{
    let mut endpoints = EndpointList::new();
    let _room = endpoints.push(e);
    endpoints
}

fn config(numerology: Numerology, widths: Widths) -> Config
    ensures { IsConfig result }
{
    Config {
        widths,
        delays: Delays::usual(),
        gap: 1_000,
        fragment: 1_492,
        pack: 1,
        endpoints: listed(endpoint(numerology)),
    }
}

fn frame(alloc: Global, at: Ticks, bytes: &[u8]) -> Result<TimedFrame, NoMemory>
    ensures { IfOk result (λ f. f.at ≡ at) }
{
    let mut frame = Bytes::new(alloc);
    frame.push_all(bytes)?;
    Ok(TimedFrame { at, frame })
}

fn frames(alloc: Global) -> Result<Vec<TimedFrame>, NoMemory>
    ensures { IfOk result (λ all. All (λ (f : SpecFrame). IsTime f.at.0) all.items) }
{
    let command = frame(alloc, of_ns(9_600_000), &COMMAND)?;
    let data = frame(alloc, of_ns(9_700_000), &DATA)?;
    let mut frames = Vec::new(alloc);
    frames.push(command)?;
    frames.push(data)?;
    Ok(frames)
}

/// A command alone, which arrives in its window.
fn only(alloc: Global, bytes: &[u8]) -> Result<Vec<TimedFrame>, NoMemory>
    ensures { IfOk result (λ all. All (λ (f : SpecFrame). IsTime f.at.0) all.items) }
{
    let command = frame(alloc, of_ns(9_600_000), bytes)?;
    let mut frames = Vec::new(alloc);
    frames.push(command)?;
    Ok(frames)
}

/// A command and uplink data, which arrives in its window.
fn frames_to_the_du(alloc: Global) -> Result<Vec<TimedFrame>, NoMemory>
    ensures { IfOk result (λ all. All (λ (f : SpecFrame). IsTime f.at.0) all.items) }
{
    let command = frame(alloc, of_ns(9_600_000), &COMMAND)?;
    let data = frame(alloc, of_ns(10_100_000), &UPLINK_DATA)?;
    let mut frames = Vec::new(alloc);
    frames.push(command)?;
    frames.push(data)?;
    Ok(frames)
}

/// A command with the sections 1 to 65, each of symbol 0 and one PRB: 0 for section 1, 1 for section 2 and so on.
fn with_65_sections(alloc: Global, head: &[u8]) -> Result<Bytes, NoMemory> {
    let mut frame = Bytes::new(alloc);
    frame.push_all(head)?;
    for k in 0..65u32 {
        let first = ((k + 1) << 20) | (k << 8) | 1;
        frame.push_all(&first.to_be_bytes())?;
        frame.push_all(&[0xff, 0xf1, 0x00, 0x00])?;
    }
    Ok(frame)
}

/// Section 5 of a plan for the uplink: PRB 0 in symbol 0 of frame 1.
fn planned(config: &Config) -> Option<Allocation>
    ensures { IfSome result (λ a. IsProperAllocation config.now.endpoints a) }
{
    let endpoint = *config.endpoints.as_slice().first()?;
    let shape = shape(&endpoint.numerology);
    if shape.slots == 0 || shape.symbols == 0 || endpoint.prbs == 0 {
        return None;
    }
    Some(Allocation {
        ep: 0,
        endpoint,
        down: false,
        idle: false,
        slot: SLOT,
        symbol: 0,
        num_symbol: 1,
        start_prb: 0,
        num_prb: 1,
        mask: 0xfff,
        section: 5,
        filter: 0,
    })
}

/// The cell of PRB 0 in symbol 0 of frame 1 with the samples (0, 0), (1, -1) and so on.
fn cell(side: Side, section: u16) -> AirCell {
    let mut samples = [Wide { i: 0, q: 0 }; 12];
    for k in 0..12usize {
        samples[k] = Wide {
            i: k as i32,
            q: -(k as i32),
        };
    }
    AirCell {
        side,
        at: START,
        id: 0,
        slot: SLOT,
        symbol: 0,
        prb: 0,
        section,
        mask: 0xfff,
        block: Some(samples),
    }
}

/// Whether these counters alone are above 0, at these values.
fn has_counted(counters: &Counters, wanted: &[(Counter, u64)]) -> bool {
    for counter in Counter::all() {
        let mut value = 0;
        for (other, times) in wanted {
            if *other == counter {
                value = *times;
            }
        }
        if counters.get(counter) != value {
            return false;
        }
    }
    true
}

#[test]
fn a_commanded_cell_radiates(rt: HostRuntime) -> Result<(), Fail> {
    let alloc = rt.alloc();
    let n = Numerology::ordinary(1).expect(&rt, "30 kHz");
    let config = config(n, Widths::new(4, 4, 4, 4)?);
    let frames = frames(alloc)?;
    let report = plain_ru(alloc, &config, &frames, START)?;
    assert_eq!(rt; report.cells.len(), 1);
    assert_eq!(rt; report.cells.get(0).copied(), Some(cell(Side::Ru, 1)));
    assert_eq!(rt; report.jobs.len(), 0);
    assert_eq!(rt; report.command_verdicts.len(), 1);
    assert_eq!(rt;
        report.command_verdicts.get(0).copied(),
        Some(CommandVerdict::Accepted)
    );
    assert_eq!(rt; report.data_verdicts.len(), 1);
    assert_eq!(rt;
        report.data_verdicts.get(0).copied(),
        Some(DataVerdict::Taken)
    );
    let wanted = [
        (Counter::Frames, 2),
        (Counter::Messages, 2),
        (Counter::CAccepted, 1),
        (Counter::FWhole, 1),
        (Counter::UTaken, 1),
        (Counter::Cells, 1),
    ];
    assert!(rt; has_counted(&report.counters, &wanted));
    Ok(())
}

#[test]
fn downlink_frames_go_the_wrong_way_at_the_du(rt: HostRuntime) -> Result<(), Fail> {
    let alloc = rt.alloc();
    let n = Numerology::ordinary(1).expect(&rt, "30 kHz");
    let config = config(n, Widths::new(4, 4, 4, 4)?);
    let frames = frames(alloc)?;
    let report = plain_du(alloc, &config, &[], &frames, Ticks(15_776_256_000))?;
    assert_eq!(rt; report.cells.len(), 0);
    assert_eq!(rt; report.jobs.len(), 0);
    assert_eq!(rt; report.command_verdicts.len(), 0);
    assert_eq!(rt; report.data_verdicts.len(), 0);
    let wanted = [
        (Counter::Frames, 2),
        (Counter::Messages, 2),
        (Counter::WrongWay, 2),
        (Counter::FWhole, 1),
    ];
    assert!(rt; has_counted(&report.counters, &wanted));
    Ok(())
}

#[test]
fn a_slot_takes_64_uplink_sections(rt: HostRuntime) -> Result<(), Fail> {
    let alloc = rt.alloc();
    let n = Numerology::ordinary(1).expect(&rt, "30 kHz");
    let config = config(n, Widths::new(4, 4, 4, 4)?);
    let command = with_65_sections(alloc, &UPLINK_HEAD)?;
    let frames = only(alloc, command.as_slice())?;
    let report = plain_ru(alloc, &config, &frames, START)?;
    assert_eq!(rt; report.cells.len(), 0);
    assert_eq!(rt; report.command_verdicts.len(), 65);
    for k in 0..65 {
        let wanted = if k < 64 {
            CommandVerdict::Accepted
        } else {
            CommandVerdict::Full
        };
        assert_eq!(rt;
            report.command_verdicts.get(k).copied(),
            Some(wanted),
            "{k}"
        );
    }
    assert_eq!(rt; report.jobs.len(), 64);
    for k in 0..64u16 {
        let job = UplinkJob {
            ep: 0,
            s: START,
            slot: SLOT,
            symbol: 0,
            filter: 0,
            section: k + 1,
            start_prb: k,
            num_prb: 1,
        };
        assert_eq!(rt; report.jobs.get(usize::from(k)).copied(), Some(job), "{k}");
    }
    let wanted = [
        (Counter::Frames, 1),
        (Counter::Messages, 1),
        (Counter::CAccepted, 64),
        (Counter::CFull, 1),
    ];
    assert!(rt; has_counted(&report.counters, &wanted));
    Ok(())
}

#[test]
fn idle_sections_fill_no_slot(rt: HostRuntime) -> Result<(), Fail> {
    let alloc = rt.alloc();
    let n = Numerology::ordinary(1).expect(&rt, "30 kHz");
    let config = config(n, Widths::new(4, 4, 4, 4)?);
    let command = with_65_sections(alloc, &IDLE_HEAD)?;
    let frames = only(alloc, command.as_slice())?;
    let report = plain_ru(alloc, &config, &frames, START)?;
    assert_eq!(rt; report.cells.len(), 0);
    assert_eq!(rt; report.jobs.len(), 0);
    assert_eq!(rt; report.command_verdicts.len(), 65);
    for k in 0..65 {
        assert_eq!(rt;
            report.command_verdicts.get(k).copied(),
            Some(CommandVerdict::Accepted),
            "{k}"
        );
    }
    let wanted = [
        (Counter::Frames, 1),
        (Counter::Messages, 1),
        (Counter::CAccepted, 65),
    ];
    assert!(rt; has_counted(&report.counters, &wanted));
    Ok(())
}

#[test]
fn planned_uplink_data_is_taken_in(rt: HostRuntime) -> Result<(), Fail> {
    let alloc = rt.alloc();
    let n = Numerology::ordinary(1).expect(&rt, "30 kHz");
    let config = config(n, Widths::new(4, 4, 4, 4)?);
    let plan = [planned(&config).expect(&rt, "a plan")];
    let frames = frames_to_the_du(alloc)?;
    let report = plain_du(alloc, &config, &plan, &frames, Ticks(15_776_256_000))?;
    assert_eq!(rt; report.cells.len(), 1);
    assert_eq!(rt; report.cells.get(0).copied(), Some(cell(Side::Du, 5)));
    assert_eq!(rt; report.jobs.len(), 0);
    assert_eq!(rt; report.command_verdicts.len(), 0);
    assert_eq!(rt; report.data_verdicts.len(), 1);
    assert_eq!(rt;
        report.data_verdicts.get(0).copied(),
        Some(DataVerdict::Taken)
    );
    let wanted = [
        (Counter::Frames, 2),
        (Counter::Messages, 2),
        (Counter::WrongWay, 1),
        (Counter::FWhole, 1),
        (Counter::UTaken, 1),
        (Counter::Cells, 1),
    ];
    assert!(rt; has_counted(&report.counters, &wanted));
    Ok(())
}
