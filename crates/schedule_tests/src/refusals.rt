// Plans whose lines are refused, or just not, worked out by hand. Lines are named by their places, from 0.
ghost use Rattle.std.specs.Prelude.{◌<◌, ◌≤◌, ◌^◌, All, IfOk};
ghost use Rattle.window_config.specs.Configs.{IsConfig};
ghost use Rattle.window_config.specs.Endpoints.{IsEndpoint};
ghost use Rattle.window_config.specs.Limits.{IsTime, IsWithinLimits};
ghost use Rattle.window_config.specs.Plans.{IsPlanLine};

use crate::steps::{
    at_id, config, endpoint, in_slot, line, of_prbs, of_symbols, of_two, put, with_delays,
    with_mask,
};
use du_scheduler::{PlanRefusal, PlanWhy, tested};
use eaxc_map::Widths;
use fh_base::{List, NoMemory, Numerology};
use std::alloc::Global;
use std::test::Fail;
use window_config::{Config, Delays, EndpointConfig, PlanKind, PlanLine, Range};

/// The usual times but for `hold` of the downlink.
fn held(hold_dl: i64) -> Delays
    requires { IsTime hold_dl }
    ensures { IsWithinLimits result }
{
    Delays {
        hold_dl,
        ..Delays::usual()
    }
}

/// The same with no time in the network to the radio unit.
fn held_at_once(hold_dl: i64) -> Delays
    requires { IsTime hold_dl }
    ensures { IsWithinLimits result }
{
    Delays {
        t12: Range { min: 0, max: 0 },
        ..held(hold_dl)
    }
}

/// The usual values but for `hold` of the downlink, with a gap of 1,000 ns.
fn holding(e: EndpointConfig, widths: Widths, hold_dl: i64, pack: usize) -> Config
    requires endpoint { IsEndpoint e }
    requires hold { IsTime hold_dl }
    requires some { 1 ≤ pack }
    requires few { pack ≤ 64 }
    ensures { IsConfig result }
{
    with_delays(config(e, widths, 1_000, 1_492, pack), held(hold_dl))
}

/// The same with a gap of 2 ms and no time in the network: what is after a symbol's first frame leaves at the window's end.
fn slow(e: EndpointConfig, widths: Widths, hold_dl: i64) -> Config
    requires endpoint { IsEndpoint e }
    requires hold { IsTime hold_dl }
    ensures { IsConfig result }
{
    with_delays(
        config(e, widths, 2_000_000, 1_492, 1),
        held_at_once(hold_dl),
    )
}

/// A downlink line of one PRB in symbol 0.
fn one(mask: u16, section: u16) -> PlanLine
    requires mask { mask < 2 ^ 12 }
    requires section { section < 2 ^ 12 }
    ensures { IsPlanLine result }
{
    with_mask(line(PlanKind::Down, 0, (0, 1), section), mask)
}

/// Tests two lines.
fn both(
    alloc: Global,
    config: &Config,
    first: PlanLine,
    second: PlanLine,
) -> Result<(), PlanRefusal>
    requires config { IsConfig config.now }
    requires first { IsPlanLine first }
    requires second { IsPlanLine second }
{
    let mut lines = List::new(alloc);
    if lines.push(first).is_err() || lines.push(second).is_err() {
        return Err(PlanRefusal::NoMemory);
    }
    tested(alloc, config, &lines)
}

/// So many uplink lines of one PRB each in one slot.
fn uplinks(alloc: Global, count: u16) -> Result<List<PlanLine>, NoMemory>
    requires { count ≤ 100 }
    ensures { IfOk result (λ lines. All IsPlanLine lines) }
{
    let mut lines = List::new(alloc);
    for k in 0..count {
        put(&mut lines, line(PlanKind::Up, 0, (k, 1), k))?;
    }
    Ok(lines)
}

/// So many lines of one PRB each, all in these symbols of one slot.
fn lines_in(alloc: Global, symbols: (u8, u8), count: u16) -> Result<List<PlanLine>, NoMemory>
    requires symbol { symbols.0 < 2 ^ 6 }
    requires number { symbols.1 < 2 ^ 4 }
    requires few { count ≤ 300 }
    ensures { IfOk result (λ lines. All IsPlanLine lines) }
{
    let mut lines = List::new(alloc);
    for k in 0..count {
        let here = line(PlanKind::Down, symbols.0, (k, 1), k);
        put(&mut lines, of_symbols(here, symbols.1))?;
    }
    Ok(lines)
}

/// Appends nineteen lines of one PRB, each in these symbols of a slot, at the endpoint of this id.
fn put_nineteen(
    lines: &mut List<PlanLine>,
    id: u16,
    slot: u8,
    symbols: (u8, u8),
) -> Result<(), NoMemory>
    requires lines { All IsPlanLine lines.old }
    requires slot { slot < 2 ^ 6 }
    requires symbol { symbols.0 < 2 ^ 6 }
    requires count { symbols.1 < 2 ^ 4 }
    ensures { All IsPlanLine lines.new }
{
    for k in 0..19 {
        let first = line(PlanKind::Down, symbols.0, (k, 1), k + 1);
        let here = in_slot(of_symbols(first, symbols.1), slot);
        put(lines, at_id(here, id))?;
    }
    Ok(())
}

/// Nineteen lines of one PRB, each in all 14 symbols of one slot.
fn nineteen(alloc: Global) -> Result<List<PlanLine>, NoMemory>
    ensures { IfOk result (λ lines. All IsPlanLine lines) }
{
    let mut lines = List::new(alloc);
    put_nineteen(&mut lines, 0, 0, (0, 14))?;
    Ok(lines)
}

/// Nineteen lines in each symbol of a slot, of one PRB and symbol each, the last symbol's first.
fn backwards(alloc: Global) -> Result<List<PlanLine>, NoMemory>
    ensures { IfOk result (λ lines. All IsPlanLine lines) }
{
    let mut lines = List::new(alloc);
    for k in 0..14 {
        put_nineteen(&mut lines, 0, 0, (13 - k, 1))?;
    }
    Ok(lines)
}

/// One line in slot 0 and nineteen in slot 1 at the endpoint of id `later`, and nineteen in slot 0 at that of id `sooner`.
fn at_two(alloc: Global, later: u16, sooner: u16) -> Result<List<PlanLine>, NoMemory>
    ensures { IfOk result (λ lines. All IsPlanLine lines) }
{
    let mut lines = List::new(alloc);
    put(&mut lines, at_id(one(0xfff, 1), later))?;
    put_nineteen(&mut lines, later, 1, (0, 14))?;
    put_nineteen(&mut lines, sooner, 0, (0, 14))?;
    Ok(lines)
}

fn refused(index: usize, why: PlanWhy) -> Result<(), PlanRefusal> {
    Err(PlanRefusal::At { index, why })
}

#[test]
fn lines_are_tested_one_after_the_other(rt: HostRuntime) -> Result<(), Fail> {
    let widths = Widths::new(4, 4, 4, 4).expect(&rt, "16 bits");
    let n = Numerology::ordinary(1).expect(&rt, "30 kHz");
    let c = holding(endpoint(n), widths, 211_000, 1);
    let alloc = rt.alloc();
    // twice the same; two section ids in one cell, and one; numPrb 0 with PRB 1023 and the carrier's last PRB
    assert_eq!(rt;
        both(alloc, &c, one(0xfff, 1), one(0xfff, 1)),
        refused(1, PlanWhy::Overlap)
    );
    assert_eq!(rt;
        both(alloc, &c, one(0xf00, 1), one(0x00f, 2)),
        refused(1, PlanWhy::Overlap)
    );
    assert_eq!(rt; both(alloc, &c, one(0xf00, 1), one(0x00f, 1)), Ok(()));
    let all = line(PlanKind::Down, 0, (1023, 0), 1);
    let last = line(PlanKind::Down, 0, (105, 1), 1);
    assert_eq!(rt; both(alloc, &c, all, last), refused(1, PlanWhy::Overlap));
    // dl and idle in one cell, dl and ul in one
    let idle = line(PlanKind::Idle, 0, (0, 1), 1);
    let up = line(PlanKind::Up, 0, (0, 1), 1);
    assert_eq!(rt;
        both(alloc, &c, one(0xfff, 1), idle),
        refused(1, PlanWhy::Overlap)
    );
    assert_eq!(rt; both(alloc, &c, one(0xfff, 1), up), Ok(()));
    // 30 kHz has the slots 0 and 1; an unknown id is named before it, and after a line that overlaps
    let slot_2 = in_slot(one(0xfff, 1), 2);
    let unknown = at_id(slot_2, 1);
    assert_eq!(rt;
        both(alloc, &c, slot_2, unknown),
        refused(0, PlanWhy::Range)
    );
    assert_eq!(rt;
        both(alloc, &c, unknown, slot_2),
        refused(0, PlanWhy::UnknownEndpoint)
    );
    assert_eq!(rt;
        both(alloc, &c, one(0xfff, 1), unknown),
        refused(1, PlanWhy::UnknownEndpoint)
    );
    // a slot's last symbol, and one more
    let edge = in_slot(line(PlanKind::Down, 13, (0, 1), 1), 1);
    let past = of_symbols(edge, 2);
    assert_eq!(rt; both(alloc, &c, edge, past), refused(1, PlanWhy::Range));
    Ok(())
}

#[test]
fn a_slot_takes_64_uplink_lines(rt: HostRuntime) -> Result<(), Fail> {
    let widths = Widths::new(4, 4, 4, 4).expect(&rt, "16 bits");
    let n = Numerology::ordinary(1).expect(&rt, "30 kHz");
    let c = holding(endpoint(n), widths, 211_000, 1);
    let alloc = rt.alloc();
    assert_eq!(rt; tested(alloc, &c, &uplinks(alloc, 64)?), Ok(()));
    let full = refused(64, PlanWhy::TooManySections);
    assert_eq!(rt; tested(alloc, &c, &uplinks(alloc, 65)?), full);
    Ok(())
}

#[test]
fn messages_are_dense_at_an_edge(rt: HostRuntime) -> Result<(), Fail> {
    let widths = Widths::new(4, 4, 4, 4).expect(&rt, "16 bits");
    let alloc = rt.alloc();
    let lines = nineteen(alloc)?;
    // symbols of 68,750 ns: message 256, the tenth of symbol 13, leaves 902,750 ns after message 0
    let offset = Numerology::offset(0, 0, 64).expect(&rt, "15 kHz");
    let e = endpoint(offset);
    assert_eq!(rt;
        tested(alloc, &holding(e, widths, 802_749, 1), &lines),
        Ok(())
    );
    let dense = refused(9, PlanWhy::SequenceDense);
    assert_eq!(rt;
        tested(alloc, &holding(e, widths, 802_750, 1), &lines),
        dense
    );
    // two sections a message: 140 messages
    assert_eq!(rt;
        tested(alloc, &holding(e, widths, 802_750, 2), &lines),
        Ok(())
    );
    let n = Numerology::ordinary(1).expect(&rt, "30 kHz");
    let e = endpoint(n);
    assert_eq!(rt;
        tested(alloc, &holding(e, widths, 373_322, 1), &lines),
        Ok(())
    );
    assert_eq!(rt;
        tested(alloc, &holding(e, widths, 373_323, 1), &lines),
        dense
    );
    Ok(())
}

#[test]
fn density_is_tested_last(rt: HostRuntime) -> Result<(), Fail> {
    let widths = Widths::new(4, 4, 4, 4).expect(&rt, "16 bits");
    let n = Numerology::ordinary(1).expect(&rt, "30 kHz");
    let alloc = rt.alloc();
    let c = holding(endpoint(n), widths, 373_323, 1);
    let mut lines = nineteen(alloc)?;
    assert_eq!(rt;
        tested(alloc, &c, &lines),
        refused(9, PlanWhy::SequenceDense)
    );
    // one line more, on the last one's cell
    put(
        &mut lines,
        with_mask(line(PlanKind::Down, 13, (18, 1), 19), 0x001),
    )?;
    assert_eq!(rt; tested(alloc, &c, &lines), refused(19, PlanWhy::Overlap));
    // a 65th uplink line, which also overlaps
    let mut lines = uplinks(alloc, 64)?;
    put(&mut lines, line(PlanKind::Up, 0, (0, 1), 0))?;
    assert_eq!(rt; tested(alloc, &c, &lines), refused(64, PlanWhy::Overlap));
    Ok(())
}

#[test]
fn a_message_may_leave_before_an_earlier_one(rt: HostRuntime) -> Result<(), Fail> {
    let widths = Widths::new(4, 4, 4, 4).expect(&rt, "16 bits");
    let n = Numerology::ordinary(1).expect(&rt, "30 kHz");
    let alloc = rt.alloc();
    let mut lines = lines_in(alloc, (0, 1), 257)?;
    put(&mut lines, line(PlanKind::Down, 1, (0, 1), 1))?;
    // message 1 waits for the window's end, 111,000 ns; message 257 leaves a symbol of 36,198 ns later, and without a wait
    let e = of_prbs(endpoint(n), 273);
    assert_eq!(rt; tested(alloc, &slow(e, widths, 74_000), &lines), Ok(()));
    let near = slow(e, widths, 75_000);
    assert_eq!(rt;
        tested(alloc, &near, &lines),
        refused(257, PlanWhy::SequenceDense)
    );
    Ok(())
}

#[test]
fn messages_are_numbered_symbol_by_symbol(rt: HostRuntime) -> Result<(), Fail> {
    let widths = Widths::new(4, 4, 4, 4).expect(&rt, "16 bits");
    let n = Numerology::ordinary(1).expect(&rt, "30 kHz");
    let alloc = rt.alloc();
    let e = endpoint(n);
    let apart = holding(e, widths, 373_322, 1);
    let near = holding(e, widths, 373_323, 1);
    // message 256 is the tenth of symbol 13, whose lines are first
    let lines = backwards(alloc)?;
    assert_eq!(rt; tested(alloc, &apart, &lines), Ok(()));
    assert_eq!(rt;
        tested(alloc, &near, &lines),
        refused(9, PlanWhy::SequenceDense)
    );
    // two sections a message: nineteen messages in each symbol, the tenth of lines 18 and 19
    let lines = lines_in(alloc, (0, 14), 38)?;
    let packed = holding(e, widths, 373_322, 2);
    assert_eq!(rt; tested(alloc, &packed, &lines), Ok(()));
    let packed = holding(e, widths, 373_323, 2);
    assert_eq!(rt;
        tested(alloc, &packed, &lines),
        refused(18, PlanWhy::SequenceDense)
    );
    Ok(())
}

#[test]
fn the_least_number_is_named(rt: HostRuntime) -> Result<(), Fail> {
    let widths = Widths::new(4, 4, 4, 4).expect(&rt, "16 bits");
    let n = Numerology::ordinary(1).expect(&rt, "30 kHz");
    let alloc = rt.alloc();
    let c = with_delays(of_two(endpoint(n), widths, 1_000), held(373_323));
    // one endpoint is dense at 257, by line 10, the other at 256, by line 29
    let dense = refused(29, PlanWhy::SequenceDense);
    assert_eq!(rt; tested(alloc, &c, &at_two(alloc, 0, 1)?), dense);
    assert_eq!(rt; tested(alloc, &c, &at_two(alloc, 1, 0)?), dense);
    // at one number the first endpoint's is named
    let mut lines = List::new(alloc);
    put_nineteen(&mut lines, 1, 0, (0, 14))?;
    put_nineteen(&mut lines, 0, 0, (0, 14))?;
    assert_eq!(rt;
        tested(alloc, &c, &lines),
        refused(28, PlanWhy::SequenceDense)
    );
    Ok(())
}
