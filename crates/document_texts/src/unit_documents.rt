// The document of a unit.
ghost use Rattle.std.specs.Prelude.{◌≡◌, ◌<◌, ◌^◌, IfOk, IfSome};
ghost use Rattle.std.specs.Option.{option_map};
ghost use Rattle.fh_document.specs.Proper.{AreTransits, IsDocument, IsFrom};
ghost use Rattle.fh_document.specs.declared.config_lines.TheConstants.{MOST_TRANSIT};
ghost use Rattle.document_texts.specs.Units.{moved, unit_of, unit_tone, unit_transits};

use crate::copying::{copy_config, copy_injections, copy_list};
use crate::moving::{moved, moved_deliveries};
use fh_base::NoMemory;
use fh_document::{Document, Tone, Transits};
use std::alloc::Global;

/// The antenna of a unit: its seed is one more for each unit before it, and 0 follows the greatest `u32`.
fn unit_tone(antenna: Tone, unit: u8) -> Tone
    ensures { result ≡ unit_tone unit antenna }
{
    Tone {
        seed: antenna.seed.wrapping_add(u32::from(unit)),
        amplitude: antenna.amplitude,
    }
}

/// How long frames of a way that is longer are on it, where they are not lost.
fn moved_way(time: Option<i64>, more: u64) -> Option<i64>
    requires time { IfSome time (IsFrom 0 MOST_TRANSIT) }
    requires more { more < 2 ^ 48 }
    ensures { result ≡ option_map (moved more) time }
{
    match time {
        Some(ns) => Some(moved(ns, more)),
        None => None,
    }
}

/// How long frames are on their way to a unit, and from it.
fn unit_transits(transits: Transits, more: u64) -> Transits
    requires transits { AreTransits transits }
    requires more { more < 2 ^ 48 }
    ensures { result ≡ unit_transits more transits }
{
    Transits {
        dl: moved_way(transits.dl, more),
        ul: transits.ul,
        m: transits.m,
    }
}

/// The document of unit `unit`, counted from 0, of a shared cell whose units are `step` nanoseconds apart.
///
/// Its downlink frames of the C-plane and the U-plane are `unit * step` nanoseconds longer on their way than those of `doc`, three
/// seconds at most; a frame that is lost there is lost here. The seed of its antenna is that of `doc` and `unit` more, modulo 2^32. All else is the
/// document's, frames of delay measurement too.
///
/// # Errors
///
/// `NoMemory` where memory cannot be had.
pub fn unit_document(
    alloc: Global,
    doc: &Document,
    unit: u8,
    step: u32,
) -> Result<Document, NoMemory>
    requires { IsDocument doc.now }
    ensures { IfOk result (λ d. d ≡ unit_of doc.now unit step) }
{
    let more = u64::from(unit) * u64::from(step);
    let plan = copy_list(alloc, &doc.plan)?;
    let plan_lines = copy_list(alloc, &doc.plan_lines)?;
    let deliveries = moved_deliveries(alloc, &doc.deliveries, more)?;
    let injections = copy_injections(alloc, &doc.injections)?;
    let measures = copy_list(alloc, &doc.measures)?;
    Ok(Document {
        config: copy_config(&doc.config),
        plan,
        plan_lines,
        source: doc.source,
        antenna: unit_tone(doc.antenna, unit),
        comps: doc.comps,
        transits: unit_transits(doc.transits, more),
        deliveries,
        injections,
        measures,
    })
}
