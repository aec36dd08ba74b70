// A distributed unit's intake, to which the frames of one slot are delivered over and over.
ghost use Rattle.std.specs.Prelude.{IfSome};
ghost use Rattle.window_config.specs.Configs.{IsConfig};

mod plans;
mod running;

use crate::slots::document_of;
use crate::tally::print;
use crate::words::Ending;
use fh_base::Source;
use fh_document::Document;
use running::Amounts;
use std::alloc::Global;
use std::io;

/// A small call.
pub const SMALL: Amounts = Amounts {
    slots: 25,
    planned: 25,
    step: 1,
};

/// The numbers that the words write.
fn amounts_of(words: &[&str]) -> Option<Amounts> {
    let [slots, planned, step] = *words else {
        return None;
    };
    Some(Amounts {
        slots: slots.parse::<u16>().ok()?,
        planned: planned.parse::<u16>().ok()?,
        step: step.parse::<u16>().ok()?,
    })
}

/// `SLOTS PLANNED STEP`: delivers the frames to an intake of the document that `source` has, SLOTS times, each time with the numbers of the
/// next slot of 30 kHz, and closes its cells. The plan has a line of all cells for each endpoint in each STEP-th slot from frame 1 on,
/// PLANNED slots in all. It prints how many cells were reported and how many of them had no samples. With 0 slots the plan is tested,
/// and no intake is made.
pub fn run<S: Source>(
    rt: &impl Print,
    alloc: Global,
    words: &[&str],
    source: &mut S,
) -> io::Result<Ending> {
    let Some(amounts) = amounts_of(words) else {
        return Ok(Ending::BadWords);
    };
    let document = document_of(alloc, source);
    tell(rt, alloc, document.as_ref(), &amounts)?;
    Ok(Ending::Done)
}

/// The same of a document that was read, if one was.
pub fn tell(
    rt: &impl Print,
    alloc: Global,
    document: Option<&Document>,
    amounts: &Amounts,
) -> io::Result<()>
    requires { IfSome document (λ d. IsConfig d.now.config) }
{
    let heard = match document {
        Some(document) => running::run(alloc, document, amounts),
        None => None,
    };
    print(rt, amounts.slots, heard)
}
