// Spans of marked cells, by hand. At 30 kHz a frame has 10 subframes of 2 slots of 14 symbols, so 280 symbols; subframe b, slot s
// and symbol y of its first frame is symbol (2b + s) * 14 + y.
ghost use Rattle.std.specs.Prelude.{◌≡◌, ◌<◌, ◌≤◌, [], ◌∷◌, length, IfOk, OnOk};
ghost use Rattle.air_source.specs.declared.events.Event.TheVariants.{Cell};
ghost use Rattle.fh_base.specs.declared.numerology.Numerology.{Numerology as SpecNumerology};
ghost use Rattle.idle_spans.specs.Places.{IsSymbol};
ghost use Rattle.idle_spans.specs.Tables.{AreFrames, endpoints_of};

use crate::made::config;
use air_source::{Air, AirCell, AirFault, Side};
use bfp_codec::Wide;
use eaxc_map::Widths;
use fault_counters::Counter;
use fh_base::{NoMemory, Numerology, Slot, Ticks};
use idle_spans::{Place, Span, Spans};
use std::alloc::Global;
use std::process::Abort;
use std::test::Fail;
use window_config::Delays;

/// The spans of endpoints of these numerologies, with the ids 0, 1 and so on.
fn spans_of(
    rt: &impl Abort,
    alloc: Global,
    numerologies: &[Numerology],
    first: u32,
    last: u32,
) -> Result<Spans, NoMemory>
    requires few { length numerologies.now ≤ 16 }
    requires frames { AreFrames first last }
    ensures { IfOk result (λ s. length (endpoints_of s) ≡ length numerologies.now) }
{
    let widths = Widths::new(4, 4, 4, 4).expect(rt, "16 bits");
    let config = config(widths, Delays::usual(), 0, 273, numerologies);
    Spans::make(alloc, &config, first, last)
}

/// The spans of one endpoint at 30 kHz in frame 1.
fn usual_spans(rt: &impl Abort, alloc: Global) -> Result<Spans, NoMemory>
    ensures { IfOk result (λ s. length (endpoints_of s) ≡ 1) }
{
    let n = Numerology::ordinary(1).expect(rt, "30 kHz");
    spans_of(rt, alloc, &[n], 1, 1)
}

fn place(frame: i64, subframe: u8, slot: u8, symbol: u8) -> Place
    ensures subframe { result.slot.subframe ≡ subframe }
    ensures slot { result.slot.slot ≡ slot }
    ensures symbol { result.symbol ≡ symbol }
{
    Place {
        slot: Slot {
            frame,
            subframe,
            slot,
        },
        symbol,
    }
}

/// The first symbol of a subframe, which every endpoint has.
fn start_of(frame: i64, subframe: u8) -> Place
    requires { subframe < 10 }
    ensures { (n : SpecNumerology) → IsSymbol n result }
{
    place(frame, subframe, 0, 0)
}

/// The first span of endpoint 0 that begins after the first symbol of a subframe.
fn next_after(spans: &Spans, frame: i64, subframe: u8) -> Option<Span>
    requires ep { 0 < length (endpoints_of spans.now) }
    requires subframe { subframe < 10 }
{
    spans.next(0, Some(start_of(frame, subframe)), 1)
}

fn cell(id: u16, place: Place, block: Option<[Wide; 12]>) -> AirCell {
    AirCell {
        side: Side::Ru,
        at: Ticks(0),
        id,
        slot: place.slot,
        symbol: place.symbol,
        prb: 0,
        section: 1,
        mask: 0xfff,
        block,
    }
}

const BLOCK: [Wide; 12] = [Wide { i: 3, q: -3 }; 12];

fn shown(id: u16, place: Place) -> AirCell {
    cell(id, place, Some(BLOCK))
}

fn missing(id: u16, place: Place) -> AirCell {
    cell(id, place, None)
}

fn span(first: Place, last: Place, symbols: u32, missed: u32) -> Option<Span> {
    Some(Span {
        first,
        last,
        symbols,
        missed,
    })
}

/// Marks some cells.
fn mark_all(spans: &mut Spans, cells: &[AirCell])
    ensures { endpoints_of spans.old ≡ endpoints_of spans.new }
{
    for cell in cells {
        spans.mark(cell);
    }
}

/// Tells any air a cell.
fn tell<A: Air>(air: &mut A, c: &AirCell) -> Result<(), AirFault>
    ensures { OnOk result (A.grew air.old (Cell c.now ∷ []) air.new) }
{
    air.cell(c)
}

#[test]
fn without_a_mark_all_symbols_are_one_span(rt: HostRuntime) -> Result<(), Fail> {
    let one = usual_spans(&rt, rt.alloc())?;
    let whole = span(place(1, 0, 0, 0), place(1, 9, 1, 13), 280, 0);
    assert_eq!(rt; one.next(0, None, 1), whole);
    assert_eq!(rt; one.next(0, None, 280), whole);
    assert_eq!(rt; one.next(0, None, 281), None);
    assert_eq!(rt; next_after(&one, 1, 0), None);
    // places of frames before and after
    assert_eq!(rt; next_after(&one, 0, 9), whole);
    assert_eq!(rt; next_after(&one, 2, 0), None);
    let n = Numerology::ordinary(1).expect(&rt, "30 kHz");
    let two = spans_of(&rt, rt.alloc(), &[n], 1, 2)?;
    assert_eq!(rt;
        two.next(0, None, 1),
        span(place(1, 0, 0, 0), place(2, 9, 1, 13), 560, 0)
    );
    Ok(())
}

#[test]
fn marks_cut_spans(rt: HostRuntime) -> Result<(), Fail> {
    let mut spans = usual_spans(&rt, rt.alloc())?;
    let ends = [shown(0, place(1, 0, 0, 0)), shown(0, place(1, 9, 1, 13))];
    mark_all(&mut spans, &ends);
    assert_eq!(rt;
        spans.next(0, None, 1),
        span(place(1, 0, 0, 1), place(1, 9, 1, 12), 278, 0)
    );
    // symbol 139
    mark_all(&mut spans, &[shown(0, place(1, 4, 1, 13))]);
    let second = span(place(1, 5, 0, 0), place(1, 9, 1, 12), 139, 0);
    assert_eq!(rt;
        spans.next(0, None, 1),
        span(place(1, 0, 0, 1), place(1, 4, 1, 12), 138, 0)
    );
    assert_eq!(rt; spans.next(0, None, 139), second);
    // a place inside the first span, one before the second, and its first symbol
    assert_eq!(rt; next_after(&spans, 1, 2), second);
    assert_eq!(rt; next_after(&spans, 1, 4), second);
    assert_eq!(rt; next_after(&spans, 1, 5), None);
    Ok(())
}

#[test]
fn a_missing_cell_is_silent(rt: HostRuntime) -> Result<(), Fail> {
    let mut spans = usual_spans(&rt, rt.alloc())?;
    // symbol 17, twice
    let at = place(1, 0, 1, 3);
    let twice = [
        missing(0, at),
        AirCell {
            prb: 1,
            ..missing(0, at)
        },
    ];
    mark_all(&mut spans, &twice);
    assert_eq!(rt;
        spans.next(0, None, 1),
        span(place(1, 0, 0, 0), place(1, 9, 1, 13), 280, 1)
    );
    mark_all(&mut spans, &[shown(0, at)]);
    assert_eq!(rt;
        spans.next(0, None, 1),
        span(place(1, 0, 0, 0), place(1, 0, 1, 2), 17, 0)
    );
    Ok(())
}

#[test]
fn an_air_answers_ok(rt: HostRuntime) -> Result<(), Fail> {
    let mut spans = usual_spans(&rt, rt.alloc())?;
    assert_eq!(rt; spans.arrival(Side::Ru, Ticks(1), &[1, 2, 3]), Ok(()));
    assert_eq!(rt; spans.delay(Ticks(1), Side::Du, 7, 5), Ok(()));
    assert_eq!(rt; spans.count(Side::Ru, Counter::Cells, 1), Ok(()));
    let told = tell(&mut spans, &shown(0, place(1, 0, 0, 1)));
    assert_eq!(rt; told, Ok(()));
    assert_eq!(rt;
        spans.next(0, None, 2),
        span(place(1, 0, 0, 2), place(1, 9, 1, 13), 278, 0)
    );
    Ok(())
}

#[test]
fn other_cells_are_passed_over(rt: HostRuntime) -> Result<(), Fail> {
    let mut spans = usual_spans(&rt, rt.alloc())?;
    let uplink = AirCell {
        side: Side::Du,
        ..shown(0, place(1, 0, 0, 5))
    };
    let others = [
        uplink,
        shown(1, place(1, 0, 0, 5)),
        shown(0, place(0, 0, 0, 5)),
        shown(0, place(2, 0, 0, 5)),
        shown(0, place(1, 10, 0, 5)),
        shown(0, place(1, 0, 2, 5)),
        shown(0, place(1, 0, 0, 14)),
    ];
    mark_all(&mut spans, &others);
    assert_eq!(rt;
        spans.next(0, None, 1),
        span(place(1, 0, 0, 0), place(1, 9, 1, 13), 280, 0)
    );
    Ok(())
}

#[test]
fn endpoints_have_12_and_14_symbols(rt: HostRuntime) -> Result<(), Fail> {
    let n = Numerology::ordinary(2).expect(&rt, "60 kHz");
    let mut spans = spans_of(&rt, rt.alloc(), &[Numerology::extended(), n], 1, 1)?;
    assert_eq!(rt;
        spans.next(0, None, 1),
        span(place(1, 0, 0, 0), place(1, 9, 3, 11), 480, 0)
    );
    mark_all(&mut spans, &[shown(0, place(1, 0, 0, 11))]);
    assert_eq!(rt;
        spans.next(0, None, 1),
        span(place(1, 0, 0, 0), place(1, 0, 0, 10), 11, 0)
    );
    assert_eq!(rt;
        spans.next(0, None, 12),
        span(place(1, 0, 1, 0), place(1, 9, 3, 11), 468, 0)
    );
    assert_eq!(rt;
        spans.next(1, None, 1),
        span(place(1, 0, 0, 0), place(1, 9, 3, 13), 560, 0)
    );
    Ok(())
}

#[test]
fn the_greatest_table_has_22400_symbols_an_endpoint(rt: HostRuntime) -> Result<(), Fail> {
    let n = Numerology::ordinary(4).expect(&rt, "240 kHz");
    let mut spans = spans_of(&rt, rt.alloc(), &[n; 16], 99_990, 99_999)?;
    let last = place(99_999, 9, 15, 13);
    mark_all(&mut spans, &[shown(15, last)]);
    assert_eq!(rt;
        spans.next(15, None, 1),
        span(place(99_990, 0, 0, 0), place(99_999, 9, 15, 12), 22_399, 0)
    );
    assert_eq!(rt;
        spans.next(0, None, 1),
        span(place(99_990, 0, 0, 0), last, 22_400, 0)
    );
    Ok(())
}
