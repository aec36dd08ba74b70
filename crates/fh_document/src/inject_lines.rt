// Inject lines.
ghost use Rattle.std.specs.Prelude.{◌≡◌};
ghost use Rattle.fh_document.specs.Answered.{Reads};
ghost use Rattle.fh_document.specs.InjectLines.{side_of, injected, inject_line};

use crate::config_lines::time_at;
use crate::document::{Injection, Reading};
use crate::hex::frame_of;
use crate::refusals::{DocWhy, LineFault};
use air_source::Side;
use line_words::Words;
use std::alloc::Global;

/// The last nanosecond at which a frame may arrive.
const LAST: u64 = 1_000_000_000_000;

/// The unit at which frames of a way arrive.
pub(crate) fn side_of(word: &[u8]) -> Option<Side>
    ensures { result ≡ side_of word.now }
{
    if word == b"dl".as_slice() {
        return Some(Side::Ru);
    }
    if word == b"ul".as_slice() {
        return Some(Side::Du);
    }
    None
}

fn add(reading: &mut Reading, injection: Injection) -> Result<(), LineFault>
    ensures { Reads (injected reading.old injection) result reading.new }
{
    match reading.injections.push(injection) {
        Ok(()) => Ok(()),
        Err(_) => Err(LineFault::NoMemory),
    }
}

/// Reads an inject line.
pub(crate) fn inject_line(
    alloc: Global,
    reading: &mut Reading,
    words: &Words<'_>,
) -> Result<(), LineFault>
    ensures { Reads (inject_line reading.old words.now) result reading.new }
{
    if words.len() != 4 {
        return Err(LineFault::Why(DocWhy::Words));
    }
    let Some(side) = side_of(words.word(1)) else {
        return Err(LineFault::Why(DocWhy::Number));
    };
    let Ok(at) = time_at(words, 2, 0, LAST) else {
        return Err(LineFault::Why(DocWhy::Number));
    };
    match frame_of(alloc, words.word(3)) {
        Ok(Some(frame)) => add(reading, Injection { side, at, frame }),
        Ok(None) => Err(LineFault::Why(DocWhy::Number)),
        Err(_) => Err(LineFault::NoMemory),
    }
}
