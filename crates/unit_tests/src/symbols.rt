// One endpoint of 4 PRBs at 30 kHz, whose frame 1 begins at 10 ms. A downlink command is on time from 470 to 259 us before its
// symbol. Commands name PRBs 0 and 1 in symbols 0 and 2 of frame 1; data are received for PRB 0 of symbol 0.
ghost use Rattle.std.specs.Prelude.{◌≡◌, ◌<◌, ◌≤ℤ◌, pos, List, [], ◌∷◌, true, IfSome};
ghost use Rattle.fh_base.specs.Numbering.{slots_of, symbols_of};
ghost use Rattle.air_source.specs.declared.events.Side.TheVariants.{Ru};
ghost use Rattle.unit_cells.specs.Cells.{endpoints_of};

use crate::samples::{config, endpoint};
use crate::steps::cell_heard;
use air_source::{AirCell, AirFault, MemoryAir, Side};
use bfp_codec::{Method, Wide};
use cplane_sections::{CBody, CHead, CSection};
use eaxc_map::Widths;
use fault_counters::{Counter, Counters};
use fh_base::{List, Numerology, Slot, Ticks, of_ns, shape};
use std::test::Fail;
use unit_cells::UnitCells;
use unit_model::{CommandVerdict, ControlSection, DataHeading, SymbolStart};
use unit_symbols::{first_left, report};
use uplane_sections::{UHead, USection};
use window_config::{Delays, EndpointConfig};

/// A downlink command for PRBs 0 and 1 in one symbol of frame 1, under section 5, that is received at 9.65 ms.
fn command(e: EndpointConfig, symbol: u8, mask: u16) -> ControlSection
    requires { symbol < 14 }
    ensures ep { result.ep ≡ 0 }
    ensures endpoint { result.endpoint ≡ e }
    ensures low { pos 0 ≤ℤ result.at.0 }
    ensures high { result.at.0 ≤ℤ pos 1536000000000 }
    ensures subframe { result.head.subframe ≡ 0 }
    ensures slot { result.head.slot ≡ 0 }
    ensures start_symbol { result.head.start_symbol ≡ symbol }
    ensures symbol { result.section.symbol ≡ symbol }
    ensures num_symbol { result.section.num_symbol ≡ 1 }
    ensures start_prb { result.section.start_prb ≡ 0 }
{
    ControlSection {
        ep: 0,
        endpoint: e,
        at: of_ns(9_650_000),
        head: CHead {
            down: true,
            filter: 0,
            frame_id: 1,
            subframe: 0,
            slot: 0,
            start_symbol: symbol,
            count: 1,
            body: CBody::Normal { comp: 0 },
        },
        section: CSection {
            id: 5,
            sym_inc: false,
            symbol,
            start_prb: 0,
            num_prb: 2,
            mask,
            num_symbol: 1,
            beam: 0,
            freq_offset: 0,
        },
    }
}

/// Claims PRBs 0 and 1 of a symbol.
fn claim(cells: &mut UnitCells, e: EndpointConfig, symbol: u8, mask: u16) -> CommandVerdict
    requires symbol { symbol < 14 }
    requires listed { endpoints_of cells.old ≡ e ∷ [] }
    requires slots { 0 < slots_of e.numerology }
    requires symbols { symbols_of e.numerology ≡ 14 }
    ensures listed { endpoints_of cells.new ≡ e ∷ [] }
    ensures side { cells.new.side ≡ cells.old.side }
{
    let command = command(e, symbol, mask);
    cells.command(&command)
}

/// Gives PRB 0 in symbol 0 its samples.
fn give(cells: &mut UnitCells, e: EndpointConfig)
    requires side { cells.old.side ≡ Ru }
    requires listed { endpoints_of cells.old ≡ e ∷ [] }
    requires slots { slots_of e.numerology ≡ 2 }
    requires symbols { symbols_of e.numerology ≡ 14 }
    requires prbs { e.prbs ≡ 4 }
{
    let heading = DataHeading {
        ep: 0,
        endpoint: e,
        first: of_ns(9_690_000),
        last: of_ns(9_700_000),
        head: UHead {
            down: true,
            filter: 0,
            frame_id: 1,
            subframe: 0,
            slot: 0,
            symbol: 0,
        },
        section: USection {
            id: 5,
            sym_inc: false,
            symbol: 0,
            start_prb: 0,
            num_prb: 1,
            method: Method::Plain,
        },
    };
    cells.fill(&heading, 0, &SAMPLES);
}

const FIRST: Slot = Slot {
    frame: 1,
    subframe: 0,
    slot: 0,
};

/// The start of frame 1, and that of its symbol 2: the first symbol has 1112 Ts and the next 1096, of 50,000 ticks each.
const START: Ticks = Ticks(15_360_000_000);

const LATER: Ticks = Ticks(15_470_400_000);

const SAMPLES: [Wide; 12] = [Wide { i: 5, q: -5 }; 12];

/// Reports the first symbol of which something is left.
fn report_first(
    cells: &mut UnitCells,
    counters: &mut Counters,
    air: &mut MemoryAir,
) -> Option<Result<(), AirFault>> {
    match first_left(cells, Ticks(0)) {
        None => None,
        Some(m) => Some(report(cells, counters, &m, air)),
    }
}

/// The report of a PRB in symbol 0, of which the first 8 elements are claimed.
fn told(prb: u16, block: Option<[Wide; 12]>) -> AirCell {
    AirCell {
        side: Side::Ru,
        at: START,
        id: 7,
        slot: FIRST,
        symbol: 0,
        prb,
        section: 5,
        mask: 0xff0,
        block,
    }
}

#[test]
fn a_symbol_is_found_and_reported(rt: HostRuntime) -> Result<(), Fail> {
    let n = Numerology::ordinary(1).expect(&rt, "30 kHz");
    assert!(rt; shape(&n).slots == 2);
    assert!(rt; shape(&n).symbols == 14);
    let e = endpoint(7, n, 4);
    let config = config(e, Widths::new(4, 4, 4, 4)?, Delays::usual());
    let mut cells = UnitCells::make(rt.alloc(), Side::Ru, &config)?;
    assert!(rt; first_left(&cells, Ticks(0)).is_none());
    assert_eq!(rt; claim(&mut cells, e, 2, 0xfff), CommandVerdict::Accepted);
    assert_eq!(rt; claim(&mut cells, e, 0, 0xff0), CommandVerdict::Accepted);
    give(&mut cells, e);
    let first = SymbolStart {
        ep: 0,
        endpoint: e,
        start: START,
        slot: FIRST,
        symbol: 0,
    };
    let second = SymbolStart {
        start: LATER,
        symbol: 2,
        ..first
    };
    assert_eq!(rt; first_left(&cells, Ticks(0)), Some(first));
    assert_eq!(rt; first_left(&cells, START), Some(second));
    assert_eq!(rt; first_left(&cells, LATER), None);
    let mut fails = List::new(rt.alloc());
    fails.push(2)?;
    let mut air = MemoryAir::new(rt.alloc(), fails);
    let mut counters = Counters::new();
    assert_eq!(rt;
        report_first(&mut cells, &mut counters, &mut air),
        Some(Err(AirFault::Failed))
    );
    assert_eq!(rt; air.heard().len(), 1);
    assert_eq!(rt; cell_heard(&air, 0), Some(told(0, Some(SAMPLES))));
    assert_eq!(rt; counters.get(Counter::Cells), 1);
    assert_eq!(rt; counters.get(Counter::Missing), 0);
    assert_eq!(rt; first_left(&cells, Ticks(0)), Some(first));
    assert_eq!(rt;
        report_first(&mut cells, &mut counters, &mut air),
        Some(Ok(()))
    );
    assert_eq!(rt; air.heard().len(), 2);
    assert_eq!(rt; cell_heard(&air, 1), Some(told(1, None)));
    assert_eq!(rt; counters.get(Counter::Cells), 1);
    assert_eq!(rt; counters.get(Counter::Missing), 1);
    assert_eq!(rt; first_left(&cells, Ticks(0)), Some(second));
    Ok(())
}
