// A radio unit, to which the frames of one slot are delivered over and over.
ghost use Rattle.std.specs.Prelude.{IfSome};
ghost use Rattle.window_config.specs.Configs.{IsConfig};

mod running;
mod steps;

use crate::slots::document_of;
use crate::tally::{Tally, print};
use crate::words::Ending;
use fh_base::Source;
use fh_document::Document;
use std::alloc::Global;
use std::io;

/// `SLOTS`: delivers the frames to the radio unit of the document that `source` has, SLOTS times, each time with the numbers of the next
/// slot of 30 kHz, and prints how many cells the unit reported and how many of them had no samples. With 0 slots no unit is made.
pub fn run<S: Source>(
    rt: &impl Print,
    alloc: Global,
    words: &[&str],
    source: &mut S,
) -> io::Result<Ending> {
    let [slots] = *words else {
        return Ok(Ending::BadWords);
    };
    let Ok(slots) = slots.parse::<u16>() else {
        return Ok(Ending::BadWords);
    };
    let document = document_of(alloc, source);
    tell(rt, alloc, document.as_ref(), slots)?;
    Ok(Ending::Done)
}

/// The same of a document that was read, if one was.
pub fn tell(
    rt: &impl Print,
    alloc: Global,
    document: Option<&Document>,
    slots: u16,
) -> io::Result<()>
    requires { IfSome document (λ d. IsConfig d.now.config) }
{
    let heard = match document {
        Some(_) if slots == 0 => Some(Tally::new()),
        Some(document) => running::run(alloc, document, slots),
        None => None,
    };
    print(rt, slots, heard)
}
