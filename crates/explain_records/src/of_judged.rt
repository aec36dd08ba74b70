// The records of what was judged.
ghost use Rattle.std.specs.Prelude.{◌≡◌, pos};
ghost use Rattle.std.specs.Int.{int_gap};
ghost use Rattle.explain_model.specs.Margins.{control_class, data_class_of};
ghost use Rattle.explain_model.specs.Records.{distance_by, distance_in};
ghost use Rattle.explain_records.specs.OfJudged.{command_of, data_of, header_of, why_of};

use air_source::Side;
use explain_heard::{CommandJudged, DataJudged, WholeJudged};
use explain_model::{CommandRecord, DataRecord, HeaderRecord, HeaderWhy, Timing, WholeAnswer};
use unit_model::{CommandVerdict, DataVerdict};
use window_config::Class;

/// How a section of data relates to its window.
fn data_class_of(verdict: DataVerdict) -> Class
    ensures { result ≡ data_class_of verdict }
{
    match verdict {
        DataVerdict::Late => Class::Late,
        DataVerdict::Early => Class::Early,
        DataVerdict::Repeat | DataVerdict::Taken => Class::OnTime,
    }
}

/// How long after its window's closing the last arrival was, in whole nanoseconds.
fn late_by(timing: Timing) -> u64
    ensures { result ≡ int_gap timing.until (pos 0) }
{
    if timing.until < 0 {
        timing.until.unsigned_abs()
    } else {
        0
    }
}

/// How long before its window's opening the first arrival was, in whole nanoseconds.
fn early_by(timing: Timing) -> u64
    ensures { result ≡ int_gap timing.since (pos 0) }
{
    if timing.since < 0 {
        timing.since.unsigned_abs()
    } else {
        0
    }
}

/// How far a section lies outside of its window, in whole nanoseconds.
fn distance_in(class: Class, timing: Timing) -> u64
    ensures { result ≡ distance_in class timing }
{
    match class {
        Class::Late => late_by(timing),
        Class::Early => early_by(timing),
        Class::OnTime => 0,
    }
}

/// How far a section of a command lies outside of its window; 0 where its verdict is neither late nor early.
fn command_distance(verdict: CommandVerdict, timing: Timing) -> u64
    ensures { result ≡ distance_by (control_class verdict) timing }
{
    match verdict {
        CommandVerdict::Late => distance_in(Class::Late, timing),
        CommandVerdict::Early => distance_in(Class::Early, timing),
        CommandVerdict::Mismatch
        | CommandVerdict::Range
        | CommandVerdict::Repeat
        | CommandVerdict::Overlap
        | CommandVerdict::Full
        | CommandVerdict::Accepted => 0,
    }
}

/// What is kept of a section of data that was received at a unit.
pub(crate) fn data_record(side: Side, number: u32, d: &DataJudged) -> DataRecord
    ensures { result ≡ data_of side number d.now }
{
    let class = data_class_of(d.verdict);
    DataRecord {
        side,
        ep: d.ep,
        slot: d.slot,
        symbol: d.symbol,
        first_prb: d.prbs.first,
        prbs: d.prbs.count,
        section: d.section,
        number,
        class,
        distance: distance_in(class, d.timing),
    }
}

/// What is kept of a section of a command. None where it names no element, or is of type 0.
pub(crate) fn command_record(number: u32, c: &CommandJudged) -> Option<CommandRecord>
    ensures { result ≡ command_of number c.now }
{
    let named = &c.allocation;
    if named.idle || named.mask == 0 {
        return None;
    }
    Some(CommandRecord {
        ep: named.ep,
        down: named.down,
        slot: named.slot,
        symbol: named.symbol,
        num_symbol: named.num_symbol,
        start_prb: named.start_prb,
        num_prb: named.num_prb,
        mask: named.mask,
        number,
        verdict: c.verdict,
        distance: command_distance(c.verdict, c.timing),
    })
}

/// Why a whole message of data was not decoded.
fn why_of(answer: &WholeAnswer) -> HeaderWhy
    ensures { result ≡ why_of answer.now }
{
    match answer {
        WholeAnswer::Refused(_) => HeaderWhy::Refused,
        WholeAnswer::WrongWay => HeaderWhy::WrongWay,
    }
}

/// What is kept of a complete message of data that was received at a unit and was not decoded. None where its header names no symbol.
pub(crate) fn header_record(side: Side, number: u32, w: &WholeJudged) -> Option<HeaderRecord>
    ensures { result ≡ header_of side number w.now }
{
    let (slot, symbol) = w.named?;
    Some(HeaderRecord {
        side,
        ep: w.ep,
        slot,
        symbol,
        number,
        why: why_of(&w.answer),
    })
}
