// One endpoint of 4 PRBs at 30 kHz, whose frame 1 begins at 10 ms. A downlink command is on time from 470 to 259 us before its
// symbol, and data from 345 to 134 us. The bytes and the counters are worked out by hand.
ghost use Rattle.std.specs.Prelude.{◌≡◌, ◌<◌, ◌≤ℤ◌, pos, List, [], ◌∷◌, IfOk};
ghost use Rattle.fh_base.specs.Numbering.{slots_of};
ghost use Rattle.air_source.specs.declared.events.Side.{Side as SpecSide};
ghost use Rattle.window_config.specs.Configs.{IsConfig};
ghost use Rattle.unit_model.specs.Meetings.{Arrival};
ghost use Rattle.unit_model.specs.Proper.{IsTime};
ghost use Rattle.unit_cells.specs.Cells.{endpoints_of};
ghost use Rattle.unit_memory.specs.Memory.{Holds};

use crate::memory_samples::{block_at, config, endpoint};
use air_source::Side;
use bfp_codec::{Method, Wide};
use eaxc_map::Widths;
use ecpri_frames::{PduRefusal, PduWhy};
use fault_counters::{Counter, Counters};
use fh_base::{NoMemory, Numerology, Ticks, shape};
use std::alloc::Global;
use std::test::Fail;
use unit_cells::UnitCells;
use unit_memory::UnitMemory;
use unit_model::Delivered;
use window_config::{Config, EndpointConfig};

/// A downlink command: symbol 0 of frame 1, section 1, all elements of PRB 0.
const COMMAND: [u8; 24] = [
    0x10, 0x02, 0x00, 0x14, 0x00, 0x00, 0x00, 0x80, 0x90, 0x01, 0x00, 0x00, 0x01, 0x01, 0x00, 0x00,
    0x00, 0x10, 0x00, 0x01, 0xff, 0xf1, 0x00, 0x00,
];

/// The same command twice.
const TWO_COMMANDS: [u8; 48] = [
    0x11, 0x02, 0x00, 0x14, 0x00, 0x00, 0x00, 0x80, 0x90, 0x01, 0x00, 0x00, 0x01, 0x01, 0x00, 0x00,
    0x00, 0x10, 0x00, 0x01, 0xff, 0xf1, 0x00, 0x00, 0x10, 0x02, 0x00, 0x14, 0x00, 0x00, 0x00, 0x80,
    0x90, 0x01, 0x00, 0x00, 0x01, 0x01, 0x00, 0x00, 0x00, 0x10, 0x00, 0x01, 0xff, 0xf1, 0x00, 0x00,
];

/// The first of two fragments of that command: E is 0.
const FRAGMENTED: [u8; 24] = [
    0x10, 0x02, 0x00, 0x14, 0x00, 0x00, 0x00, 0x00, 0x90, 0x01, 0x00, 0x00, 0x01, 0x01, 0x00, 0x00,
    0x00, 0x10, 0x00, 0x01, 0xff, 0xf1, 0x00, 0x00,
];

/// The command for the id 1, and then data whose payload has 3 bytes.
const UNKNOWN_AND_SHORT: [u8; 31] = [
    0x11, 0x02, 0x00, 0x14, 0x00, 0x01, 0x00, 0x80, 0x90, 0x01, 0x00, 0x00, 0x01, 0x01, 0x00, 0x00,
    0x00, 0x10, 0x00, 0x01, 0xff, 0xf1, 0x00, 0x00, 0x10, 0x00, 0x00, 0x03, 0x00, 0x00, 0x00,
];

/// The command's data: the samples (0, 0), (1, -1) and so on.
const DATA: [u8; 64] = [
    0x10, 0x00, 0x00, 0x3c, 0x00, 0x00, 0x00, 0x80, 0x90, 0x01, 0x00, 0x00, 0x00, 0x10, 0x00, 0x01,
    0x00, 0x00, 0x00, 0x00, 0x00, 0x01, 0xff, 0xff, 0x00, 0x02, 0xff, 0xfe, 0x00, 0x03, 0xff, 0xfd,
    0x00, 0x04, 0xff, 0xfc, 0x00, 0x05, 0xff, 0xfb, 0x00, 0x06, 0xff, 0xfa, 0x00, 0x07, 0xff, 0xf9,
    0x00, 0x08, 0xff, 0xf8, 0x00, 0x09, 0xff, 0xf7, 0x00, 0x0a, 0xff, 0xf6, 0x00, 0x0b, 0xff, 0xf5,
];

/// The same data in two fragments, of 12 bytes and of 44.
const FIRST_PIECE: [u8; 20] = [
    0x10, 0x00, 0x00, 0x10, 0x00, 0x00, 0x00, 0x00, 0x90, 0x01, 0x00, 0x00, 0x00, 0x10, 0x00, 0x01,
    0x00, 0x00, 0x00, 0x00,
];

const LAST_PIECE: [u8; 52] = [
    0x10, 0x00, 0x00, 0x30, 0x00, 0x00, 0x00, 0x81, 0x00, 0x01, 0xff, 0xff, 0x00, 0x02, 0xff, 0xfe,
    0x00, 0x03, 0xff, 0xfd, 0x00, 0x04, 0xff, 0xfc, 0x00, 0x05, 0xff, 0xfb, 0x00, 0x06, 0xff, 0xfa,
    0x00, 0x07, 0xff, 0xf9, 0x00, 0x08, 0xff, 0xf8, 0x00, 0x09, 0xff, 0xf7, 0x00, 0x0a, 0xff, 0xf6,
    0x00, 0x0b, 0xff, 0xf5,
];

/// Uplink data of symbol 0 of frame 1 for section 5, with the same samples in PRB 0.
const UPLINK_DATA: [u8; 64] = [
    0x10, 0x00, 0x00, 0x3c, 0x00, 0x00, 0x00, 0x80, 0x10, 0x01, 0x00, 0x00, 0x00, 0x50, 0x00, 0x01,
    0x00, 0x00, 0x00, 0x00, 0x00, 0x01, 0xff, 0xff, 0x00, 0x02, 0xff, 0xfe, 0x00, 0x03, 0xff, 0xfd,
    0x00, 0x04, 0xff, 0xfc, 0x00, 0x05, 0xff, 0xfb, 0x00, 0x06, 0xff, 0xfa, 0x00, 0x07, 0xff, 0xf9,
    0x00, 0x08, 0xff, 0xf8, 0x00, 0x09, 0xff, 0xf7, 0x00, 0x0a, 0xff, 0xf6, 0x00, 0x0b, 0xff, 0xf5,
];

/// 9.6 ms, 9.7 ms and 9.75 ms.
const FIRST: Ticks = Ticks(14_745_600_000);

const SECOND: Ticks = Ticks(14_899_200_000);

const THIRD: Ticks = Ticks(14_976_000_000);

/// 10.1 ms, which is 0.1 ms after the start of frame 1.
const BEHIND: Ticks = Ticks(15_513_600_000);

/// A unit that received nothing.
fn made(alloc: Global, side: Side, config: &Config) -> Result<UnitMemory, NoMemory>
    requires { IsConfig config.now }
    ensures { IfOk result (λ m. (at : SpecSide) × (arrivals : List Arrival) × Holds at config.now (pos 14745600000) m arrivals []) }
{
    UnitMemory::make(alloc, side, config)
}

/// What becomes of a frame that is received after all that was received by `before`.
fn deliver(
    memory: &mut UnitMemory,
    config: &Config,
    before: Ticks,
    at: Ticks,
    frame: &[u8],
) -> Delivered
    requires unit { (side : SpecSide) × (arrivals : List Arrival) × Holds side config.now before.0 memory.old arrivals [] }
    requires order { before.0 ≤ℤ at.0 }
    requires time { IsTime at.0 }
    ensures unit { (side : SpecSide) × (arrivals : List Arrival) × Holds side config.now at.0 memory.new arrivals [] }
    ensures listed { endpoints_of memory.new.cells ≡ config.now.endpoints }
{
    memory.arrive(at, frame).delivered
}

/// Whether these counters alone are above 0, at these values.
fn has_counted(counters: &Counters, wanted: &[(Counter, u64)]) -> bool {
    for counter in Counter::all() {
        let mut value = 0;
        for (other, times) in wanted {
            if *other == counter {
                value = *times;
            }
        }
        if counters.get(counter) != value {
            return false;
        }
    }
    true
}

/// The second sample of the block of PRB 0 in symbol 0, and its section.
fn second_sample(cells: &UnitCells, e: &EndpointConfig) -> Option<(u16, Wide)>
    requires listed { endpoints_of cells.now ≡ e.now ∷ [] }
    requires slots { 0 < slots_of e.now.numerology }
{
    block_at(cells, e, 0, 0).map(|b| (b.id, b.samples[1]))
}

/// All was read of a frame with so many messages.
fn read(messages: u32) -> Delivered {
    Delivered {
        messages,
        refusal: None,
    }
}

#[test]
fn a_command_and_its_data_fill_a_cell(rt: HostRuntime) -> Result<(), Fail> {
    let n = Numerology::ordinary(1).expect(&rt, "30 kHz");
    assert!(rt; shape(&n).slots == 2);
    let e = endpoint(n, Method::Plain);
    let config = config(e, Widths::new(4, 4, 4, 4)?);
    let mut memory = made(rt.alloc(), Side::Ru, &config)?;
    assert_eq!(rt;
        deliver(&mut memory, &config, FIRST, FIRST, &COMMAND),
        read(1)
    );
    assert_eq!(rt; second_sample(&memory.cells, &e), None);
    assert_eq!(rt;
        deliver(&mut memory, &config, FIRST, SECOND, &DATA),
        read(1)
    );
    assert_eq!(rt;
        second_sample(&memory.cells, &e),
        Some((1, Wide { i: 1, q: -1 }))
    );
    let wanted = [
        (Counter::Frames, 2),
        (Counter::Messages, 2),
        (Counter::CAccepted, 1),
        (Counter::FWhole, 1),
        (Counter::UTaken, 1),
    ];
    assert!(rt; has_counted(&memory.counters, &wanted));
    Ok(())
}

#[test]
fn data_come_in_two_fragments(rt: HostRuntime) -> Result<(), Fail> {
    let n = Numerology::ordinary(1).expect(&rt, "30 kHz");
    assert!(rt; shape(&n).slots == 2);
    let e = endpoint(n, Method::Plain);
    let config = config(e, Widths::new(4, 4, 4, 4)?);
    let mut memory = made(rt.alloc(), Side::Ru, &config)?;
    assert_eq!(rt;
        deliver(&mut memory, &config, FIRST, SECOND, &FIRST_PIECE),
        read(1)
    );
    assert_eq!(rt; second_sample(&memory.cells, &e), None);
    assert_eq!(rt;
        deliver(&mut memory, &config, SECOND, THIRD, &LAST_PIECE),
        read(1)
    );
    assert_eq!(rt;
        second_sample(&memory.cells, &e),
        Some((1, Wide { i: 1, q: -1 }))
    );
    let wanted = [
        (Counter::Frames, 2),
        (Counter::Messages, 2),
        (Counter::FStored, 1),
        (Counter::FWhole, 1),
        (Counter::UTaken, 1),
    ];
    assert!(rt; has_counted(&memory.counters, &wanted));
    Ok(())
}

#[test]
fn a_frame_has_two_commands(rt: HostRuntime) -> Result<(), Fail> {
    let n = Numerology::ordinary(1).expect(&rt, "30 kHz");
    let config = config(endpoint(n, Method::Plain), Widths::new(4, 4, 4, 4)?);
    let mut memory = made(rt.alloc(), Side::Ru, &config)?;
    assert_eq!(rt;
        deliver(&mut memory, &config, FIRST, FIRST, &TWO_COMMANDS),
        read(2)
    );
    let wanted = [
        (Counter::Frames, 1),
        (Counter::Messages, 2),
        (Counter::CAccepted, 1),
        (Counter::CRepeat, 1),
    ];
    assert!(rt; has_counted(&memory.counters, &wanted));
    Ok(())
}

#[test]
fn messages_are_refused(rt: HostRuntime) -> Result<(), Fail> {
    let n = Numerology::ordinary(1).expect(&rt, "30 kHz");
    let config = config(endpoint(n, Method::Plain), Widths::new(4, 4, 4, 4)?);
    let mut memory = made(rt.alloc(), Side::Ru, &config)?;
    assert_eq!(rt;
        deliver(&mut memory, &config, FIRST, FIRST, &FRAGMENTED),
        read(1)
    );
    assert_eq!(rt;
        deliver(&mut memory, &config, FIRST, SECOND, &UNKNOWN_AND_SHORT),
        read(2)
    );
    let wanted = [
        (Counter::Frames, 2),
        (Counter::Messages, 3),
        (Counter::CRefused, 1),
        (Counter::UnknownEndpoint, 1),
        (Counter::Short, 1),
    ];
    assert!(rt; has_counted(&memory.counters, &wanted));
    Ok(())
}

#[test]
fn a_frame_is_cut(rt: HostRuntime) -> Result<(), Fail> {
    let n = Numerology::ordinary(1).expect(&rt, "30 kHz");
    let config = config(endpoint(n, Method::Plain), Widths::new(4, 4, 4, 4)?);
    let mut memory = made(rt.alloc(), Side::Ru, &config)?;
    let refusal = PduRefusal {
        place: 47,
        why: PduWhy::Truncated,
    };
    assert_eq!(rt;
        deliver(&mut memory, &config, FIRST, FIRST, &TWO_COMMANDS[..47]),
        Delivered {
            messages: 1,
            refusal: Some(refusal),
        }
    );
    let wanted = [
        (Counter::Frames, 1),
        (Counter::FramesRefused, 1),
        (Counter::Messages, 1),
        (Counter::CAccepted, 1),
    ];
    assert!(rt; has_counted(&memory.counters, &wanted));
    Ok(())
}

#[test]
fn uplink_data_come_to_the_du(rt: HostRuntime) -> Result<(), Fail> {
    let n = Numerology::ordinary(1).expect(&rt, "30 kHz");
    assert!(rt; shape(&n).slots == 2);
    let e = endpoint(n, Method::Plain);
    let config = config(e, Widths::new(4, 4, 4, 4)?);
    let mut memory = made(rt.alloc(), Side::Du, &config)?;
    // a command is the radio unit's
    assert_eq!(rt;
        deliver(&mut memory, &config, FIRST, FIRST, &COMMAND),
        read(1)
    );
    // before its symbol nothing can have been received
    assert_eq!(rt;
        deliver(&mut memory, &config, FIRST, SECOND, &UPLINK_DATA),
        read(1)
    );
    assert_eq!(rt; second_sample(&memory.cells, &e), None);
    // the same in another message, 0.1 ms after the symbol's start
    let mut later = UPLINK_DATA;
    later[6] = 1;
    assert_eq!(rt;
        deliver(&mut memory, &config, SECOND, BEHIND, &later),
        read(1)
    );
    assert_eq!(rt;
        second_sample(&memory.cells, &e),
        Some((5, Wide { i: 1, q: -1 }))
    );
    let wanted = [
        (Counter::Frames, 3),
        (Counter::Messages, 3),
        (Counter::WrongWay, 1),
        (Counter::FWhole, 2),
        (Counter::UEarly, 1),
        (Counter::UTaken, 1),
    ];
    assert!(rt; has_counted(&memory.counters, &wanted));
    Ok(())
}
