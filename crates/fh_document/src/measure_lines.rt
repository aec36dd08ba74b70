// Measure lines.
ghost use Rattle.std.specs.Prelude.{◌≡◌, ◌==◌, false, slice_get};
ghost use Rattle.std.specs.Option.{option_map_or};
ghost use Rattle.fh_document.specs.Answered.{Reads};
ghost use Rattle.fh_document.specs.MeasureLines.{unit_of, kind_of, measure_of, has_measure, measured, measure_line};

use crate::document::{Measure, Reading};
use crate::refusals::{DocWhy, LineFault};
use crate::words::{byte_in, number_in};
use air_source::Side;
use delay_measure::Kind;
use fh_base::{LAST_TIME, List};
use line_words::Words;

/// The first nanosecond at which a measurement may begin, so that no stamp is below 0.
pub const FIRST_MEASURE: u64 = 1_000_000;

/// The unit that begins the measurement.
fn unit_of(word: &[u8]) -> Option<Side>
    ensures { result ≡ unit_of word.now }
{
    if word == b"du".as_slice() {
        return Some(Side::Du);
    }
    if word == b"ru".as_slice() {
        return Some(Side::Ru);
    }
    None
}

fn kind_of(word: &[u8]) -> Option<Kind>
    ensures { result ≡ kind_of word.now }
{
    if word == b"one".as_slice() {
        return Some(Kind::One);
    }
    if word == b"two".as_slice() {
        return Some(Kind::Two);
    }
    if word == b"remote-one".as_slice() {
        return Some(Kind::RemoteOne);
    }
    if word == b"remote-two".as_slice() {
        return Some(Kind::RemoteTwo);
    }
    None
}

/// The measurement that the words describe. None where one of them has not its form or range.
fn measure_of(words: &Words<'_>) -> Option<Measure>
    ensures { result ≡ measure_of words.now }
{
    let side = unit_of(words.word(1))?;
    let id = byte_in(words.word(2), 0, 255)?;
    let kind = kind_of(words.word(3))?;
    let at = number_in(words.word(4), FIRST_MEASURE, LAST_TIME)?;
    Some(Measure {
        side,
        id,
        kind,
        at: at as i64,
    })
}

/// Whether the measurement with this index has this id.
fn has_id(id: u8, measures: &List<Measure>, k: usize) -> bool
    ensures { result ≡ option_map_or (λ m. m.id == id) (slice_get measures.now k) false }
{
    match measures.get(k) {
        Some(measure) => measure.id == id,
        None => false,
    }
}

/// Whether a measurement has this id, at whichever unit it begins.
fn has_measure(id: u8, measures: &List<Measure>) -> bool
    ensures { result ≡ has_measure id measures.now }
{
    for k in 0..measures.len() {
        if has_id(id, measures, k) {
            return true;
        }
    }
    false
}

fn add(reading: &mut Reading, measure: Measure) -> Result<(), LineFault>
    ensures { Reads (measured reading.old measure) result reading.new }
{
    if has_measure(measure.id, &reading.measures) {
        return Err(LineFault::Why(DocWhy::Twice));
    }
    match reading.measures.push(measure) {
        Ok(()) => Ok(()),
        Err(_) => Err(LineFault::NoMemory),
    }
}

/// Reads a measure line.
pub(crate) fn measure_line(reading: &mut Reading, words: &Words<'_>) -> Result<(), LineFault>
    ensures { Reads (measure_line reading.old words.now) result reading.new }
{
    if words.len() != 5 {
        return Err(LineFault::Why(DocWhy::Words));
    }
    match measure_of(words) {
        None => Err(LineFault::Why(DocWhy::Number)),
        Some(measure) => add(reading, measure),
    }
}
