// A replay of a command and its data: the ordinary case by hand, and an air that fails at each call in turn, also where both units report.
ghost use Rattle.std.specs.Prelude.{◌≡◌, ◌<◌};
ghost use Rattle.air_source.specs.Answers.{Fits16};
ghost use Rattle.air_source.specs.Tones.{tone_of};

use air_source::{Event, MemoryAir, RePlace, Samples, Side, ToneSteps};
use bfp_codec::Wide;
use fault_counters::{Counter, Counters};
use fh_base::{List, Ticks};
use fh_document::read;
use fronthaul_replay::{ReplayFault, check_plan, intake_of, replay};
use ru_buffers::Ru;
use std::alloc::Global;
use std::test::Fail;

/// Symbol 0 of frame 1, PRB 0 of section 1, at 10 ms: its command at 9.6 ms, and its data at 9.7 ms.
const DOCUMENT: &str =
    "fronthaul 1\nendpoint 0000 ordinary 30 106 static none\ninject dl 9600000 1002001400000080900100000101000000100001fff10000\ninject dl 9700000 1000003c000000809001000000100001000000000001ffff0002fffe0003fffd0004fffc0005fffb0006fffa0007fff90008fff80009fff7000afff6000bfff5\n";

/// A plan of two lines: the data of symbol 0 goes out in two fragments, and that of symbol 1 between them. Five frames, four cells,
/// and seven counters that are not 0.
const PLANNED: &str =
    "fronthaul 1\ngap 100000\nfragment 128\nendpoint 0000 ordinary 30 106 static none\nplan dl 0000 1 0 0 0 1 0 3 fff 1 0\nplan dl 0000 1 0 0 1 1 0 1 fff 2 0\n";

/// One PRB of the uplink, whose command lands at 9.58 ms, and its data at 10.1 ms. Its cell is due 271,000 ns after the symbol. Two frames,
/// one cell, and eight counters that are not 0.
const UPLINK: &str =
    "fronthaul 1\nendpoint 0000 ordinary 30 106 static none\nplan ul 0000 1 0 0 0 1 0 1 fff 5 0\n";

/// The same PRB of the same symbol in both directions: three frames to the radio unit and one from it, a cell of each, and eleven
/// counters that are not 0.
const BOTH: &str =
    "fronthaul 1\nendpoint 0000 ordinary 30 106 static none\nplan dl 0000 1 0 0 0 1 0 1 fff 1 0\nplan ul 0000 1 0 0 0 1 0 1 fff 5 0\n";

/// A Remote Request of the radio unit, the Request that answers it, and its Response: three frames, a delay at each unit, and eight counters
/// that are not 0.
const MEASURED: &str = "fronthaul 1\nmeasure ru 3 remote-one 2000000\n";

/// A Request that is sent with the command of `UPLINK` and as long on its way.
const TOGETHER: &str =
    "fronthaul 1\nendpoint 0000 ordinary 30 106 static none\nplan ul 0000 1 0 0 0 1 0 1 fff 5 0\nmeasure du 7 one 9530000\n";

/// The same Request, sent 10,000 ns earlier and 10,000 ns longer on its way.
const OVERTAKEN: &str =
    "fronthaul 1\nendpoint 0000 ordinary 30 106 static none\nplan ul 0000 1 0 0 0 1 0 1 fff 5 0\ndeliver dl m 1 60000\nmeasure du 7 one 9520000\n";

const COMMAND_AT: Ticks = Ticks(14_745_600_000);

const DATA_AT: Ticks = Ticks(14_899_200_000);

const CELL_AT: Ticks = Ticks(15_360_000_000);

const TAKEN_IN_AT: Ticks = Ticks(15_776_256_000);

/// What resulted from a replay, and the state of both units then.
#[derive(Drop)]
struct Outcome {
    result: Result<(), ReplayFault>,
    ru: Step,
    du: Step,
    air: MemoryAir,
}

/// The state of a unit: its clock, its next moment, and how many frames, sections of data and cells it has counted.
#[derive(Clone, Copy, Debug, PartialEq, Eq)]
struct Step {
    clock: Ticks,
    due: Option<Ticks>,
    frames: u64,
    taken: u64,
    cells: u64,
}

fn step_of(clock: Ticks, due: Option<Ticks>, counters: &Counters) -> Step {
    Step {
        clock,
        due,
        frames: counters.get(Counter::Frames),
        taken: counters.get(Counter::UTaken),
        cells: counters.get(Counter::Cells),
    }
}

/// Replays a document to an air that fails at some calls. None where memory is refused.
fn played(alloc: Global, document: &str, fails: List<u64>) -> Option<Outcome> {
    let Ok(doc) = read(alloc, document.as_bytes()) else {
        return None;
    };
    let Ok(mut ru) = Ru::make(alloc, &doc.config) else {
        return None;
    };
    let Ok(plan) = check_plan(alloc, &doc) else {
        return None;
    };
    let Ok(mut intake) = intake_of(alloc, &doc) else {
        return None;
    };
    let steps = ToneSteps::of(doc.source);
    let du = Samples::keep(
        |place: RePlace| -> Wide
            requires { place.re < 12 }
            ensures value { result ≡ tone_of steps place }
            ensures narrow { Fits16 result }
        { steps.at(place) },
    );
    let taken_in = ToneSteps::of(doc.antenna);
    let antenna = Samples::keep(
        |place: RePlace| -> Wide
            requires { place.re < 12 }
            ensures value { result ≡ tone_of taken_in place }
            ensures narrow { Fits16 result }
        { taken_in.at(place) },
    );
    let mut air = MemoryAir::new(alloc, fails);
    let result = replay(
        alloc,
        &doc,
        plan,
        &mut ru,
        &mut intake,
        du,
        antenna,
        &mut air,
    );
    let ru = step_of(ru.clock(), ru.due(), ru.counters());
    let du = step_of(intake.clock(), intake.due(), intake.counters());
    Some(Outcome {
        result,
        ru,
        du,
        air,
    })
}

fn is_arrival(event: Option<&Event>, unit: Side, time: Ticks, bytes: usize) -> bool {
    match event {
        Some(Event::Arrival { side, at, frame }) => {
            *side == unit && *at == time && frame.as_slice().len() == bytes
        }
        _ => false,
    }
}

fn is_cell(event: Option<&Event>, time: Ticks) -> bool {
    match event {
        Some(Event::Cell(cell)) => cell.at == time && cell.mask == 0xfff && cell.block.is_some(),
        _ => false,
    }
}

fn is_count(event: Option<&Event>, of: Counter, times: u64) -> bool {
    match event {
        Some(
            Event::Count {
                side,
                counter,
                value,
            },
        ) => *counter == of && *value == times,
        _ => false,
    }
}

#[test]
fn hears_the_ordinary_case(rt: HostRuntime) {
    let Some(played) = played(rt.alloc(), DOCUMENT, List::new(rt.alloc())) else {
        panic!(rt; "no memory");
    };
    let heard = played.air.heard();
    assert_eq!(rt; played.result, Ok(()));
    assert_eq!(rt; heard.len(), 9);
    assert!(rt; is_arrival(heard.get(0), Side::Ru, COMMAND_AT, 24));
    assert!(rt; is_arrival(heard.get(1), Side::Ru, DATA_AT, 64));
    assert!(rt; is_cell(heard.get(2), CELL_AT));
    assert!(rt; is_count(heard.get(3), Counter::Frames, 2));
    assert!(rt; is_count(heard.get(4), Counter::Messages, 2));
    assert!(rt; is_count(heard.get(5), Counter::CAccepted, 1));
    assert!(rt; is_count(heard.get(6), Counter::FWhole, 1));
    assert!(rt; is_count(heard.get(7), Counter::UTaken, 1));
    assert!(rt; is_count(heard.get(8), Counter::Cells, 1));
}

/// A unit at a clock, with its next moment, that has counted so many frames, sections of data and cells.
fn standing(clock: Ticks, due: Option<Ticks>, frames: u64, taken: u64, cells: u64) -> Step {
    Step {
        clock,
        due,
        frames,
        taken,
        cells,
    }
}

/// Replays a document to an air that fails at the call after so many.
fn stopped_behind(alloc: Global, document: &str, earlier: u64) -> Result<Option<Outcome>, Fail> {
    let mut fails = List::new(alloc);
    fails.push(earlier.saturating_add(1))?;
    Ok(played(alloc, document, fails))
}

#[test]
fn is_in_step_where_the_air_fails(rt: HostRuntime) -> Result<(), Fail> {
    let told = standing(CELL_AT, None, 2, 1, 1);
    let steps = [
        standing(COMMAND_AT, None, 0, 0, 0),
        standing(DATA_AT, Some(CELL_AT), 1, 0, 0),
        standing(DATA_AT, Some(CELL_AT), 2, 1, 0),
        told,
        told,
        told,
        told,
        told,
        told,
    ];
    for (earlier, wanted) in steps.iter().enumerate() {
        let Some(played) = stopped_behind(rt.alloc(), DOCUMENT, earlier as u64)? else {
            panic!(rt; "no memory");
        };
        assert_eq!(rt; played.result, Err(ReplayFault::AirFailed));
        assert_eq!(rt; played.air.heard().len(), earlier);
        assert_eq!(rt; played.ru, *wanted);
    }
    Ok(())
}

fn is_arrival_at(event: Option<&Event>, at: Side) -> bool {
    match event {
        Some(Event::Arrival { side, .. }) => *side == at,
        _ => false,
    }
}

fn is_cell_of(event: Option<&Event>, of: Side) -> bool {
    match event {
        Some(Event::Cell(cell)) => cell.side == of,
        _ => false,
    }
}

/// How many frames an air heard arrive at a unit.
fn arrivals(air: &MemoryAir, at: Side) -> u64 {
    let mut count: u64 = 0;
    for k in 0..air.heard().len() {
        if is_arrival_at(air.heard().get(k), at) {
            count = count.saturating_add(1);
        }
    }
    count
}

/// How many cells an air heard of a unit.
fn cells(air: &MemoryAir, of: Side) -> u64 {
    let mut count: u64 = 0;
    for k in 0..air.heard().len() {
        if is_cell_of(air.heard().get(k), of) {
            count = count.saturating_add(1);
        }
    }
    count
}

/// Whether both units have counted what the air heard.
fn is_in_step(played: &Outcome) -> bool {
    let air = &played.air;
    let (ru, du) = (played.ru, played.du);
    let frames = ru.frames == arrivals(air, Side::Ru) && du.frames == arrivals(air, Side::Du);
    frames && ru.cells == cells(air, Side::Ru) && du.cells == cells(air, Side::Du)
}

/// Whether both units are in step with the air that fails in each of so many events, and nothing fails after them.
fn is_in_step_throughout(alloc: Global, document: &str, events: u64) -> Result<bool, Fail> {
    for earlier in 0..events {
        let Some(played) = stopped_behind(alloc, document, earlier)? else {
            return Ok(false);
        };
        let stopped = played.result == Err(ReplayFault::AirFailed);
        if !stopped || played.air.heard().len() as u64 != earlier || !is_in_step(&played) {
            return Ok(false);
        }
    }
    let Some(played) = stopped_behind(alloc, document, events)? else {
        return Ok(false);
    };
    let whole = played.result == Ok(()) && played.air.heard().len() as u64 == events;
    Ok(whole && is_in_step(&played))
}

#[test]
fn plans_are_in_step_where_the_air_fails(rt: HostRuntime) -> Result<(), Fail> {
    for (document, events) in [(PLANNED, 16), (UPLINK, 11), (BOTH, 17), (MEASURED, 13)] {
        assert!(rt;
            is_in_step_throughout(rt.alloc(), document, events)?,
            "{}",
            document
        );
    }
    Ok(())
}

/// The third event is the planned cell: its data arrived, and it is still the next to be reported.
#[test]
fn a_planned_cell_is_left_where_the_air_fails_in_it(rt: HostRuntime) -> Result<(), Fail> {
    let Some(played) = stopped_behind(rt.alloc(), UPLINK, 2)? else {
        panic!(rt; "no memory");
    };
    let heard = played.air.heard();
    assert_eq!(rt; played.result, Err(ReplayFault::AirFailed));
    assert_eq!(rt; heard.len(), 2);
    assert!(rt; is_arrival(heard.get(0), Side::Ru, Ticks(14_714_880_000), 24));
    assert!(rt; is_arrival(heard.get(1), Side::Du, Ticks(15_513_600_000), 64));
    assert_eq!(rt; (played.ru.frames, played.du.frames), (1, 1));
    assert_eq!(rt; (played.du.taken, played.du.cells), (1, 0));
    assert_eq!(rt; played.du.due, Some(TAKEN_IN_AT));
    Ok(())
}

/// The eCPRI message type of a frame that arrives at the radio unit at a time.
fn type_at(event: Option<&Event>, time: Ticks) -> Option<u8> {
    match event {
        Some(Event::Arrival { side, at, frame }) if *side == Side::Ru && *at == time => {
            frame.as_slice().get(1).copied()
        }
        _ => None,
    }
}

/// The frames of one time are received in the order in which they were sent, those of delay measurement after the others.
#[test]
fn requests_come_in_the_sent_order(rt: HostRuntime) {
    let at = Ticks(14_714_880_000);
    for (document, types) in [(TOGETHER, [2, 5]), (OVERTAKEN, [5, 2])] {
        let Some(played) = played(rt.alloc(), document, List::new(rt.alloc())) else {
            panic!(rt; "no memory");
        };
        let heard = played.air.heard();
        assert_eq!(rt; type_at(heard.get(0), at), Some(types[0]));
        assert_eq!(rt; type_at(heard.get(1), at), Some(types[1]));
    }
}

/// Where the air fails in a delay, the unit and its meter have taken the frame that gave it.
#[test]
fn a_delay_is_left_where_the_air_fails_in_it(rt: HostRuntime) -> Result<(), Fail> {
    let Some(played) = stopped_behind(rt.alloc(), MEASURED, 2)? else {
        panic!(rt; "no memory");
    };
    assert_eq!(rt; played.result, Err(ReplayFault::AirFailed));
    assert!(rt;
        is_arrival(
            played.air.heard().get(1),
            Side::Ru,
            Ticks(3_225_600_000),
            24
        )
    );
    assert_eq!(rt; (played.ru.frames, played.du.frames), (1, 1));
    Ok(())
}
