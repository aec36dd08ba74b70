// What lines, margins and reasons need, made once of what was heard.
ghost use Rattle.std.specs.Prelude.{◌≡◌, All, OnOk};
ghost use Rattle.explain_heard.specs.Judged.{all_judged, command_judged, data_judged, judged_of, whole_judged};
ghost use Rattle.explain_heard.specs.Sound.{IsSoundHeard};
ghost use Rattle.unit_model.specs.Headings.{IsSoundHeading};
ghost use Rattle.unit_model.specs.Proper.{IsTime};
ghost use Rattle.unit_model.specs.Sound.{IsSoundCommand};
ghost use Rattle.window_config.specs.Limits.{IsWithinLimits};

use crate::heard::{Heard, WholeHeard};
use crate::judged::{CommandJudged, DataJudged, Judged, WholeJudged};
use crate::naming::whole_symbol;
use crate::timings::{control_timing, data_timing, heading_slot};
use air_source::Side;
use fh_base::NoMemory;
use unit_model::{CommandVerdict, ControlSection, DataHeading, DataVerdict, allocation_of};
use window_config::Delays;

// A section of a command.
fn command_judged(
    delays: &Delays,
    section: &ControlSection,
    verdict: CommandVerdict,
) -> CommandJudged
    requires limits { IsWithinLimits delays.now }
    requires sound { IsSoundCommand section.now }
    ensures { result ≡ command_judged delays.now section.now verdict }
{
    let allocation = allocation_of(section);
    CommandJudged {
        allocation,
        verdict,
        timing: control_timing(delays, section, allocation.slot),
    }
}

// A whole message of data of which no section is read.
fn whole_judged(w: &WholeHeard) -> WholeJudged
    requires { IsTime w.now.last.0 }
    ensures { result ≡ whole_judged w.now }
{
    WholeJudged {
        ep: w.ep,
        id: w.endpoint.id,
        named: whole_symbol(w),
        pieces: w.pieces,
        bytes: w.bytes,
        answer: w.answer,
    }
}

// A section of data.
fn data_judged(
    side: Side,
    delays: &Delays,
    heading: &DataHeading,
    verdict: DataVerdict,
) -> DataJudged
    requires limits { IsWithinLimits delays.now }
    requires sound { IsSoundHeading heading.now }
    ensures { result ≡ data_judged side delays.now heading.now verdict }
{
    let slot = heading_slot(heading);
    DataJudged {
        ep: heading.ep,
        id: heading.endpoint.id,
        slot,
        symbol: heading.section.symbol,
        section: heading.section.id,
        prbs: heading.prbs(),
        verdict,
        timing: data_timing(side, delays, heading, slot),
    }
}

// One thing that was heard.
fn judged_of(side: Side, delays: &Delays, heard: &Heard) -> Judged
    requires limits { IsWithinLimits delays.now }
    requires sound { IsSoundHeard heard.now }
    ensures { result ≡ judged_of side delays.now heard.now }
{
    match heard {
        Heard::Message(m) => Judged::Message(*m),
        Heard::Command { section, verdict } => {
            Judged::Command(command_judged(delays, section, *verdict))
        }
        Heard::Fragment(f) => Judged::Fragment(*f),
        Heard::Whole(w) => Judged::Whole(whole_judged(w)),
        Heard::Data { heading, verdict } => {
            Judged::Data(data_judged(side, delays, heading, *verdict))
        }
    }
}

/// Puts what lines, margins and reasons need of what was heard at a unit in place of what was there.
///
/// # Errors
///
/// [`NoMemory`] where memory runs out: what is there then says nothing.
pub fn judge_all(
    side: Side,
    delays: &Delays,
    heard: &[Heard],
    judged: &mut Vec<Judged>,
) -> Result<(), NoMemory>
    requires limits { IsWithinLimits delays.now }
    requires sound { All IsSoundHeard heard.now }
    ensures { OnOk result (judged.new.items ≡ all_judged side delays.now heard.now) }
{
    judged.clear();
    for one in heard {
        judged.push(judged_of(side, delays, one))?;
    }
    Ok(())
}
