// Messages written out by hand from the layout tables. One endpoint of 4 PRBs at 30 kHz, whose frame 1 begins at 10 ms: data are on time
// from 345 to 134 us before their symbol, and symbol 1 begins 36.2 us after symbol 0.
ghost use Rattle.std.specs.Prelude.{◌≡◌, ◌<◌, List, [], ◌∷◌};
ghost use Rattle.fh_base.specs.Numbering.{slots_of};
ghost use Rattle.unit_cells.specs.Cells.{endpoints_of};

use crate::memory_samples::{block_at, config, endpoint};
use crate::receiving::{counted, field, receive};
use air_source::Side;
use bfp_codec::Method;
use eaxc_map::Widths;
use ecpri_fragments::Assembly;
use fault_counters::Counters;
use fh_base::{Numerology, of_ns, shape};
use std::test::Fail;
use unit_cells::UnitCells;
use window_config::EndpointConfig;

/// Two sections, each of one PRB with the samples (k, -k): section 1 on PRB 0 of symbol 0, and
/// section 2 with symInc on PRB 0.
const TWO: [u8; 108] = [
    0x90, 0x01, 0x00, 0x00, 0x00, 0x10, 0x00, 0x01, 0x00, 0x00, 0x00, 0x00, 0x00, 0x01, 0xff, 0xff,
    0x00, 0x02, 0xff, 0xfe, 0x00, 0x03, 0xff, 0xfd, 0x00, 0x04, 0xff, 0xfc, 0x00, 0x05, 0xff, 0xfb,
    0x00, 0x06, 0xff, 0xfa, 0x00, 0x07, 0xff, 0xf9, 0x00, 0x08, 0xff, 0xf8, 0x00, 0x09, 0xff, 0xf7,
    0x00, 0x0a, 0xff, 0xf6, 0x00, 0x0b, 0xff, 0xf5, 0x00, 0x24, 0x00, 0x01, 0x00, 0x00, 0x00, 0x00,
    0x00, 0x01, 0xff, 0xff, 0x00, 0x02, 0xff, 0xfe, 0x00, 0x03, 0xff, 0xfd, 0x00, 0x04, 0xff, 0xfc,
    0x00, 0x05, 0xff, 0xfb, 0x00, 0x06, 0xff, 0xfa, 0x00, 0x07, 0xff, 0xf9, 0x00, 0x08, 0xff, 0xf8,
    0x00, 0x09, 0xff, 0xf7, 0x00, 0x0a, 0xff, 0xf6, 0x00, 0x0c, 0xff, 0xf4,
];

/// The section of a cell's block and the last of its samples, of a cell in the slot.
fn last_sample(cells: &UnitCells, e: &EndpointConfig, symbol: u8, prb: u16) -> Option<(u16, i32)>
    requires listed { endpoints_of cells.now ≡ e.now ∷ [] }
    requires slots { 0 < slots_of e.now.numerology }
{
    block_at(cells, e, symbol, prb).map(|b| (b.id, b.samples[11].i))
}

#[test]
fn sections_fill_their_cells(rt: HostRuntime) -> Result<(), Fail> {
    let n = Numerology::ordinary(1).expect(&rt, "30 kHz");
    assert!(rt; shape(&n).slots == 2);
    let e = endpoint(n, Method::Plain);
    let config = config(e, Widths::new(4, 4, 4, 4)?);
    let mut cells = UnitCells::make(rt.alloc(), Side::Ru, &config)?;
    let mut assembly = Assembly::make(rt.alloc(), 1, of_ns(211_000))?;
    let mut counters = Counters::new();

    // The cut is in the first PRB.
    let fragment = field(0, false, 0);
    receive(
        &mut assembly,
        &mut cells,
        &mut counters,
        &e,
        695_000,
        fragment,
        &TWO[..20],
    );
    assert_eq!(rt; counted(&counters), [0, 0, 0, 0, 0, 0]);
    let fragment = field(0, true, 1);
    receive(
        &mut assembly,
        &mut cells,
        &mut counters,
        &e,
        700_000,
        fragment,
        &TWO[20..],
    );
    assert_eq!(rt; counted(&counters), [2, 0, 0, 0, 0, 0]);
    assert_eq!(rt; last_sample(&cells, &e, 0, 0), Some((1, 11)));
    assert_eq!(rt; last_sample(&cells, &e, 1, 0), Some((2, 12)));
    assert_eq!(rt; last_sample(&cells, &e, 0, 1), None);

    // Section 3 on PRBs 1 and 2 of symbol 0; the last samples are 5 and 6.
    let mut message = [0; 104];
    message[..8].copy_from_slice(&[0x90, 0x01, 0, 0, 0x00, 0x30, 0x01, 0x02]);
    message[53] = 5;
    message[101] = 6;
    let fragment = field(1, true, 0);
    receive(
        &mut assembly,
        &mut cells,
        &mut counters,
        &e,
        710_000,
        fragment,
        &message,
    );
    assert_eq!(rt; counted(&counters), [3, 0, 0, 0, 0, 0]);
    assert_eq!(rt; last_sample(&cells, &e, 0, 0), Some((1, 11)));
    assert_eq!(rt; last_sample(&cells, &e, 0, 1), Some((3, 5)));
    assert_eq!(rt; last_sample(&cells, &e, 0, 2), Some((3, 6)));
    assert_eq!(rt; last_sample(&cells, &e, 0, 3), None);
    Ok(())
}

#[test]
fn verdicts_are_counted(rt: HostRuntime) -> Result<(), Fail> {
    let n = Numerology::ordinary(1).expect(&rt, "30 kHz");
    assert!(rt; shape(&n).slots == 2);
    let e = endpoint(n, Method::Plain);
    let config = config(e, Widths::new(4, 4, 4, 4)?);
    let mut cells = UnitCells::make(rt.alloc(), Side::Ru, &config)?;
    let mut assembly = Assembly::make(rt.alloc(), 1, of_ns(211_000))?;
    let mut counters = Counters::new();

    // One that is refused in its second section, one of the uplink, and one that is too early.
    let (ns, bytes) = (700_000, &TWO[..107]);
    let fragment = field(0, true, 0);
    receive(
        &mut assembly,
        &mut cells,
        &mut counters,
        &e,
        ns,
        fragment,
        bytes,
    );
    assert_eq!(rt; counted(&counters), [0, 0, 0, 0, 1, 0]);
    let mut uplink = TWO;
    uplink[0] = 0x10;
    let fragment = field(1, true, 0);
    receive(
        &mut assembly,
        &mut cells,
        &mut counters,
        &e,
        ns,
        fragment,
        &uplink,
    );
    assert_eq!(rt; counted(&counters), [0, 0, 0, 0, 1, 1]);
    let fragment = field(2, true, 0);
    receive(
        &mut assembly,
        &mut cells,
        &mut counters,
        &e,
        654_999,
        fragment,
        &TWO,
    );
    assert_eq!(rt; counted(&counters), [0, 0, 2, 0, 1, 1]);
    assert_eq!(rt; last_sample(&cells, &e, 0, 0), None);
    assert_eq!(rt; last_sample(&cells, &e, 1, 0), None);

    // The first section is taken, and the second one, of a later symbol, is early.
    let fragment = field(3, true, 0);
    receive(
        &mut assembly,
        &mut cells,
        &mut counters,
        &e,
        690_000,
        fragment,
        &TWO,
    );
    assert_eq!(rt; counted(&counters), [1, 0, 3, 0, 1, 1]);
    // Then a repeat, with other samples, and the second one; and at last one that is late, and a repeat.
    let mut other = TWO;
    other[53] = 44;
    let fragment = field(4, true, 0);
    receive(
        &mut assembly,
        &mut cells,
        &mut counters,
        &e,
        ns,
        fragment,
        &other,
    );
    assert_eq!(rt; counted(&counters), [2, 1, 3, 0, 1, 1]);
    assert_eq!(rt; last_sample(&cells, &e, 0, 0), Some((1, 11)));
    assert_eq!(rt; last_sample(&cells, &e, 1, 0), Some((2, 12)));
    let fragment = field(5, true, 0);
    receive(
        &mut assembly,
        &mut cells,
        &mut counters,
        &e,
        866_001,
        fragment,
        &TWO,
    );
    assert_eq!(rt; counted(&counters), [2, 2, 3, 1, 1, 1]);
    Ok(())
}

#[test]
fn runs_fill_their_cells(rt: HostRuntime) -> Result<(), Fail> {
    let n = Numerology::ordinary(1).expect(&rt, "30 kHz");
    assert!(rt; shape(&n).slots == 2);
    let e = endpoint(n, Method::Plain);
    let config = config(e, Widths::new(4, 4, 4, 4)?);
    let mut cells = UnitCells::make(rt.alloc(), Side::Ru, &config)?;
    let mut assembly = Assembly::make(rt.alloc(), 1, of_ns(211_000))?;
    let mut counters = Counters::new();

    // Section 3 on PRB 1 and on PRB 3 of symbol 0; the last samples are 31 and 33.
    let mut message = [0; 108];
    message[..8].copy_from_slice(&[0x90, 0x01, 0, 0, 0x00, 0x30, 0x01, 0x01]);
    message[53] = 31;
    message[56..60].copy_from_slice(&[0x00, 0x30, 0x03, 0x01]);
    message[105] = 33;
    let fragment = field(0, true, 0);
    receive(
        &mut assembly,
        &mut cells,
        &mut counters,
        &e,
        690_000,
        fragment,
        &message,
    );
    assert_eq!(rt; counted(&counters), [2, 0, 0, 0, 0, 0]);

    // Section 4 on all PRBs of it: the first fragment ends with PRB 0, the second one in the middle of PRB 2. Every second cell
    // keeps the block that it has.
    let mut message = [0; 200];
    message[..8].copy_from_slice(&[0x90, 0x01, 0, 0, 0x00, 0x40, 0x00, 0x04]);
    message[53] = 40;
    message[101] = 41;
    message[149] = 42;
    message[197] = 43;
    let fragment = field(1, false, 0);
    receive(
        &mut assembly,
        &mut cells,
        &mut counters,
        &e,
        700_000,
        fragment,
        &message[..56],
    );
    let fragment = field(1, false, 1);
    receive(
        &mut assembly,
        &mut cells,
        &mut counters,
        &e,
        701_000,
        fragment,
        &message[56..128],
    );
    let fragment = field(1, true, 2);
    receive(
        &mut assembly,
        &mut cells,
        &mut counters,
        &e,
        702_000,
        fragment,
        &message[128..],
    );
    assert_eq!(rt; counted(&counters), [3, 0, 0, 0, 0, 0]);
    assert_eq!(rt; last_sample(&cells, &e, 0, 0), Some((4, 40)));
    assert_eq!(rt; last_sample(&cells, &e, 0, 1), Some((3, 31)));
    assert_eq!(rt; last_sample(&cells, &e, 0, 2), Some((4, 42)));
    assert_eq!(rt; last_sample(&cells, &e, 0, 3), Some((3, 33)));
    Ok(())
}
