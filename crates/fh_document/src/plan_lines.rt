// Lines of a plan.
ghost use Rattle.std.specs.Prelude.{◌≡◌};
ghost use Rattle.fh_document.specs.Answered.{Reads};
ghost use Rattle.fh_document.specs.PlanLines.{plan_kind_of, slot_of, symbols_of, prbs_of, section_of, plan_of, planned, plan_line};

use crate::document::Reading;
use crate::hex::{hex3, hex4};
use crate::refusals::{DocWhy, LineFault};
use crate::words::{byte_in, number_in, short_in};
use fh_base::Slot;
use line_words::Words;
use window_config::{LAST_FRAME, PLAN_LINES, PlanKind, PlanLine};

fn plan_kind_of(word: &[u8]) -> Option<PlanKind>
    ensures { result ≡ plan_kind_of word.now }
{
    if word == b"dl".as_slice() {
        return Some(PlanKind::Down);
    }
    if word == b"ul".as_slice() {
        return Some(PlanKind::Up);
    }
    if word == b"idle".as_slice() {
        return Some(PlanKind::Idle);
    }
    None
}

/// FRAME, SUBFRAME and SLOT.
fn slot_of(words: &Words<'_>) -> Option<Slot>
    ensures { result ≡ slot_of words.now }
{
    let frame = number_in(words.word(3), 1, LAST_FRAME)?;
    let subframe = byte_in(words.word(4), 0, 9)?;
    let slot = byte_in(words.word(5), 0, 63)?;
    Some(Slot {
        frame: frame as i64,
        subframe,
        slot,
    })
}

/// SYMBOL and COUNT.
fn symbols_of(words: &Words<'_>) -> Option<(u8, u8)>
    ensures { result ≡ symbols_of words.now }
{
    let symbol = byte_in(words.word(6), 0, 63)?;
    let count = byte_in(words.word(7), 0, 15)?;
    Some((symbol, count))
}

/// PRB and NUM.
fn prbs_of(words: &Words<'_>) -> Option<(u16, u8)>
    ensures { result ≡ prbs_of words.now }
{
    let first = short_in(words.word(8), 0, 1_023)?;
    let many = byte_in(words.word(9), 0, 255)?;
    Some((first, many))
}

/// SECTION and BEAM.
fn section_of(words: &Words<'_>) -> Option<(u16, u16)>
    ensures { result ≡ section_of words.now }
{
    let section = short_in(words.word(11), 0, 4_095)?;
    let beam = short_in(words.word(12), 0, 32_767)?;
    Some((section, beam))
}

/// The line of a plan that the words describe. None where one of them has not its form or range.
fn plan_of(words: &Words<'_>) -> Option<PlanLine>
    ensures { result ≡ plan_of words.now }
{
    let kind = plan_kind_of(words.word(1))?;
    let id = hex4(words.word(2))?;
    let slot = slot_of(words)?;
    let (symbol, count) = symbols_of(words)?;
    let (start_prb, num_prb) = prbs_of(words)?;
    let mask = hex3(words.word(10))?;
    let (section, beam) = section_of(words)?;
    Some(PlanLine {
        kind,
        id,
        slot,
        symbol,
        count,
        start_prb,
        num_prb,
        mask,
        section,
        beam,
    })
}

fn add(reading: &mut Reading, n: usize, line: PlanLine) -> Result<(), LineFault>
    ensures { Reads (planned reading.old n line) result reading.new }
{
    if reading.plan.len() == PLAN_LINES {
        return Err(LineFault::Why(DocWhy::TooMany));
    }
    match (reading.plan.push(line), reading.plan_lines.push(n)) {
        (Ok(()), Ok(())) => Ok(()),
        _ => Err(LineFault::NoMemory),
    }
}

/// Reads a line of a plan, the line with the number `n` of the document.
pub(crate) fn plan_line(reading: &mut Reading, n: usize, words: &Words<'_>) -> Result<(), LineFault>
    ensures { Reads (plan_line reading.old n words.now) result reading.new }
{
    if words.len() != 13 {
        return Err(LineFault::Why(DocWhy::Words));
    }
    match plan_of(words) {
        None => Err(LineFault::Why(DocWhy::Number)),
        Some(line) => add(reading, n, line),
    }
}
