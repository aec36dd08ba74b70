// The text of all endpoints.
ghost use Rattle.std.specs.Prelude.{◌≡◌, ℕ, ◌*◌, ◌<◌, ◌≤◌, ◌++◌, List, false, length, get_or, OnOk, OnErr};
ghost use Rattle.std.specs.List.{flat_map};
ghost use Rattle.std.specs.Io.KnownBytes.{append_known};
ghost use Rattle.fh_base.specs.Causes.{Counts, HasSinkCause, has_failed};
ghost use Rattle.fh_base.specs.Told.{WritesFront, WritesPart};
ghost use Rattle.fh_base.specs.Numbering.{symbols_of};
ghost use Rattle.fh_base.specs.Owed.{Carried};
ghost use Rattle.window_config.specs.declared.config.Config.{Config};
ghost use Rattle.air_source.specs.declared.events.AirCell.{AirCell};
ghost use Rattle.idle_spans.specs.Tables.{Stands, endpoints_of, symbols_in};
ghost use Rattle.idle_text.specs.Tables.{IsTableOf, StandsAt};
ghost use Rattle.idle_text.specs.Text.{endpoint_text, idle_text};
ghost use Rattle.idle_text.specs.Standing.{StandsFor};

use crate::flags::{clear_touched, no_flags};
use crate::telling::{tell_free, tell_spans};
use fh_base::{List as LineList, OwedBytes, Sink, SinkFault, shape};
use fh_document::Document;
use idle_spans::Spans;
use std::alloc::Global;
use window_config::{EndpointConfig, PlanLine};

/// What the lines of each endpoint are made of.
#[derive(Clone, Copy)]
struct Listing<'a> {
    spans: &'a Spans,
    /// The plan.
    lines: &'a LineList<PlanLine>,
    /// The fewest symbols of a span that is listed.
    min: u32,
}

/// How many slots the frames have at an endpoint.
fn slots(spans: &Spans, ep: usize, e: &EndpointConfig) -> usize
    requires ep { ep < length (endpoints_of spans.now) }
    requires stands { StandsAt spans.now ep e.now }
    ensures size { result * symbols_of e.now.numerology ≡ symbols_in spans.now ep }
    ensures small { symbols_in spans.now ep ≤ 22400 }
{
    let symbols = shape(&e.numerology).symbols as usize;
    spans.symbols(ep) / symbols
}

/// Tells the lines of an endpoint, by flags for its slots of which none is set: those of its listed spans, and then those that are
/// proposed for its free slots.
fn tell_flagged<K: Sink>(
    listing: &Listing<'_>,
    ep: usize,
    e: &EndpointConfig,
    flags: &mut [bool],
    owed: &mut OwedBytes,
    out: &mut K,
) -> Result<(), SinkFault>
    requires ep { ep < length (endpoints_of listing.now.spans.now) }
    requires min { 1 ≤ listing.now.min }
    requires stands { StandsAt listing.now.spans.now ep e.now }
    requires size { length flags.old * symbols_of e.now.numerology ≡ symbols_in listing.now.spans.now ep }
    requires small { symbols_in listing.now.spans.now ep ≤ 22400 }
    requires blank { (k : ℕ) → get_or flags.old k false ≡ false }
    ensures carried { (first last : ℕ) (cells : List AirCell) → IsTableOf listing.now.spans.now ep e.now first last cells
        → OnOk result (Carried (K.written out.old) owed.old (endpoint_text first last cells listing.now.min listing.now.lines.now e.now) (K.written out.new) owed.new) }
    ensures front { (first last : ℕ) (cells : List AirCell) → IsTableOf listing.now.spans.now ep e.now first last cells
        → OnErr result (WritesFront (K.written out.old) (K.written out.new) (owed.old ++ endpoint_text first last cells listing.now.min listing.now.lines.now e.now)) }
    ensures cause { HasSinkCause (K.faults out.old) (K.faults out.new) (K.refusals out.old) (K.refusals out.new) result }
{
    let Listing { spans, lines, min } = *listing;
    tell_spans(spans, ep, e, min, flags, owed, out)?;
    clear_touched(flags, spans, ep, e, lines);
    tell_free(spans, ep, e, flags, owed, out)
}

/// Tells the lines of an endpoint.
fn tell_endpoint<K: Sink>(
    alloc: Global,
    listing: &Listing<'_>,
    ep: usize,
    e: &EndpointConfig,
    owed: &mut OwedBytes,
    out: &mut K,
) -> Result<(), SinkFault>
    requires ep { ep < length (endpoints_of listing.now.spans.now) }
    requires min { 1 ≤ listing.now.min }
    requires stands { StandsAt listing.now.spans.now ep e.now }
    ensures carried { (first last : ℕ) (cells : List AirCell) → IsTableOf listing.now.spans.now ep e.now first last cells
        → OnOk result (Carried (K.written out.old) owed.old (endpoint_text first last cells listing.now.min listing.now.lines.now e.now) (K.written out.new) owed.new) }
    ensures front { (first last : ℕ) (cells : List AirCell) → IsTableOf listing.now.spans.now ep e.now first last cells
        → OnErr result (WritesFront (K.written out.old) (K.written out.new) (owed.old ++ endpoint_text first last cells listing.now.min listing.now.lines.now e.now)) }
    ensures cause { Counts (has_failed result) (K.faults out.old) (K.faults out.new) }
{
    let mut flags = no_flags(alloc, slots(listing.spans, ep, e))?;
    tell_flagged(listing, ep, e, flags.as_mut_slice(), owed, out)
}

/// Tells the lines of all endpoints.
fn tell_endpoints<K: Sink>(
    alloc: Global,
    endpoints: &[EndpointConfig],
    listing: &Listing<'_>,
    owed: &mut OwedBytes,
    out: &mut K,
) -> Result<(), SinkFault>
    requires min { 1 ≤ listing.now.min }
    requires stands { StandsFor listing.now.spans.now endpoints.now }
    ensures carried { (config : Config) (first last : ℕ) (cells : List AirCell) → config.endpoints ≡ endpoints.now → Stands listing.now.spans.now config first last cells
        → OnOk result (Carried (K.written out.old) owed.old (flat_map (endpoint_text first last cells listing.now.min listing.now.lines.now) endpoints.now) (K.written out.new) owed.new) }
    ensures front { (config : Config) (first last : ℕ) (cells : List AirCell) → config.endpoints ≡ endpoints.now → Stands listing.now.spans.now config first last cells
        → OnErr result (WritesFront (K.written out.old) (K.written out.new) (owed.old ++ flat_map (endpoint_text first last cells listing.now.min listing.now.lines.now) endpoints.now)) }
    ensures cause { Counts (has_failed result) (K.faults out.old) (K.faults out.new) }
{
    for ep in 0..endpoints.len() {
        tell_endpoint(alloc, listing, ep, &endpoints[ep], owed, out)?;
    }
    Ok(())
}

/// Writes when the endpoints of a document are idle, in the frames that the spans stand for: for each endpoint in the order of the
/// document its listed spans, which have at least `min` symbols, as lines `idle ID F S L Y F S L Y SYMBOLS MISSED`, and then a plan line
/// of section type 0 for each slot that lies in a listed span and that no `dl` or `idle` line of the plan touches; at the end `end`.
///
/// # Errors
///
/// [`SinkFault::Failed`] exactly where the sink's count of faults rose. [`SinkFault::NoMemory`] where memory is refused, to the sink or
/// for a flag for each slot of an endpoint. A front part of the text was written and not all.
pub fn idle_text<K: Sink>(
    alloc: Global,
    document: &Document,
    spans: &Spans,
    min: u32,
    out: &mut K,
) -> Result<(), SinkFault>
    requires min { 1 ≤ min }
    requires stands { (first : ℕ) × (last : ℕ) × (cells : List AirCell) × Stands spans.now document.now.config first last cells }
    ensures done { (first last : ℕ) (cells : List AirCell) → Stands spans.now document.now.config first last cells
        → OnOk result (K.written out.new ≡ append_known (K.written out.old) (idle_text document.now.config.endpoints document.now.plan first last min cells)) }
    ensures front { (first last : ℕ) (cells : List AirCell) → Stands spans.now document.now.config first last cells
        → WritesFront (K.written out.old) (K.written out.new) (idle_text document.now.config.endpoints document.now.plan first last min cells) }
    ensures part { (first last : ℕ) (cells : List AirCell) → Stands spans.now document.now.config first last cells
        → OnErr result (WritesPart (K.written out.old) (K.written out.new) (idle_text document.now.config.endpoints document.now.plan first last min cells)) }
    ensures cause { Counts (has_failed result) (K.faults out.old) (K.faults out.new) }
{
    let mut owed = OwedBytes::new();
    let endpoints = document.config.endpoints.as_slice();
    let listing = Listing {
        spans,
        lines: &document.plan,
        min,
    };
    tell_endpoints(alloc, endpoints, &listing, &mut owed, out)?;
    owed.tell(b"end\n", out)?;
    owed.push_out(out)
}
