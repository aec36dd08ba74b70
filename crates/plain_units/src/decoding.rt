// A whole U-plane message, read.
ghost use Rattle.std.specs.Prelude.{◌≡◌, List as Items, All, IfOk, map};
ghost use Rattle.bfp_codec.specs.Layout.{HasWidth};
ghost use Rattle.fh_base.specs.Numbering.{shape_of};
ghost use Rattle.uplane_sections.specs.Messages.{told};
ghost use Rattle.unit_model.specs.Terms.{EndpointConfig as SpecEndpoint};
ghost use Rattle.unit_model.specs.Decoding.{nothing_told, gathered, data_with, decoded_with, decode as decoded, sections_of};
ghost use Rattle.plain_units.specs.DecodedWords.{decoded_of};
ghost use Rattle.unit_model.specs.Proper.{IsAt, IsTime, IsProperData};

use crate::gathering::{Gathered, Part};
use air_source::Side;
use fh_base::{NoMemory, Ticks, shape};
use std::alloc::Global;
use unit_model::UserSection;
use uplane_sections::{UFeed, UHead, URefusal, UWalker};
use window_config::EndpointConfig;

/// What a whole message to an endpoint says.
#[derive(Drop)]
pub(crate) enum DecodedMessage {
    /// The layout refuses it.
    Refused,
    /// It has the other unit's direction.
    Backwards,
    /// Its sections, the last one first.
    Sections(Vec<UserSection>),
}

/// All that a message tells, and its refusal, if it is refused.
fn tell(
    alloc: Global,
    endpoint: &EndpointConfig,
    bytes: &[u8],
) -> Result<(Gathered, Option<URefusal>), NoMemory>
    requires { HasWidth endpoint.now.format.method }
    ensures items { IfOk result (λ t. t.0 ≡ gathered nothing_told (told endpoint.now.format endpoint.now.prbs (shape_of endpoint.now.numerology) bytes.now).items) }
    ensures refusal { IfOk result (λ t. t.1 ≡ (told endpoint.now.format endpoint.now.prbs (shape_of endpoint.now.numerology) bytes.now).refusal) }
{
    let mut walker = UWalker::new(endpoint.format, endpoint.prbs, shape(&endpoint.numerology));
    let mut gathered = Gathered::new(alloc);
    let mut at = 0;
    while at < bytes.len() {
        let step = walker.feed(&bytes[at..]);
        if let UFeed::Refused(refusal) = step.what {
            return Ok((gathered, Some(refusal)));
        }
        gathered.put(alloc, step.what)?;
        at += step.used;
    }
    Ok((gathered, walker.finish().err()))
}

/// Whether a message with this header goes to this side.
fn has_way(side: Side, head: &UHead) -> bool
    ensures { result ≡ Rattle.unit_model.specs.Decoding.has_way side head.now }
{
    match side {
        Side::Ru => head.down,
        Side::Du => !head.down,
    }
}

/// The sections with all that is known of their message.
fn data(
    alloc: Global,
    ep: usize,
    endpoint: &EndpointConfig,
    first: Ticks,
    last: Ticks,
    head: UHead,
    parts: Vec<Part>,
) -> Result<Vec<UserSection>, NoMemory>
    ensures { IfOk result (λ ds. ds.items ≡ map (data_with ep endpoint.now first.0 last.0 head) parts.items) }
{
    let mut sections = Vec::new(alloc);
    for part in parts {
        sections.push(UserSection {
            ep,
            endpoint: *endpoint,
            first,
            last,
            head,
            section: part.section,
            blocks: part.blocks,
        })?;
    }
    Ok(sections)
}

/// What a message says that is not refused.
fn said(
    alloc: Global,
    side: Side,
    ep: usize,
    endpoint: &EndpointConfig,
    first: Ticks,
    last: Ticks,
    gathered: Gathered,
) -> Result<DecodedMessage, NoMemory>
    ensures { IfOk result (λ d. decoded_of d ≡ decoded_with side ep endpoint.now first.0 last.0 gathered.parts gathered.head) }
{
    let head = match gathered.head {
        Some(head) => head,
        None => return Ok(DecodedMessage::Refused),
    };
    if !has_way(side, &head) {
        return Ok(DecodedMessage::Backwards);
    }
    let sections = data(alloc, ep, endpoint, first, last, head, gathered.parts)?;
    Ok(DecodedMessage::Sections(sections))
}

/// What the bytes of a complete message to an endpoint say, whose first and last fragments were received then.
#[tactic(auto, unfolding(unit_model::specs::Decoding::decode))]
pub(crate) fn decode(
    alloc: Global,
    side: Side,
    ep: usize,
    endpoint: &EndpointConfig,
    first: Ticks,
    last: Ticks,
    bytes: &[u8],
) -> Result<DecodedMessage, NoMemory>
    requires { HasWidth endpoint.now.format.method }
    ensures value { IfOk result (λ d. decoded_of d ≡ decoded side ep endpoint.now first.0 last.0 bytes.now) }
    ensures proper { (es : Items SpecEndpoint) → IsAt es ep endpoint.now → IsTime first.0 → IsTime last.0
        → IfOk result (λ d. All (IsProperData es) (sections_of (decoded_of d))) }
{
    let (gathered, refusal) = tell(alloc, endpoint, bytes)?;
    if refusal.is_some() {
        return Ok(DecodedMessage::Refused);
    }
    said(alloc, side, ep, endpoint, first, last, gathered)
}
