//! The frames of downlink U-plane messages.
ghost use Rattle.std.specs.Prelude.{◌≡◌, ℕ, ◌+◌, ◌-◌, ◌*◌, ◌≤◌, ◌<◌, min, List, length, take};
ghost use Rattle.bfp_codec.specs.declared.samples.Iq.{Iq as SpecIq};
ghost use Rattle.bfp_codec.specs.declared.samples.Wide.{Wide as SpecWide};
ghost use Rattle.air_source.specs.Answers.{AnswersBy, block_of};
ghost use Rattle.air_source.specs.Kept.{IsKept, closure_of};
ghost use Rattle.air_source.specs.declared.places.RePlace.{RePlace as SpecPlace};
ghost use Rattle.uplane_sections.specs.Writes.{HeadFits};
ghost use Rattle.window_config.specs.Endpoints.{IsEndpoint};
ghost use Rattle.window_config.specs.Plans.{IsPlanLine};
ghost use Rattle.ecpri_fragments.specs.Pieces.{piece_count};
ghost use Rattle.plan_model.specs.Streams.{part_in};
ghost use Rattle.frame_bytes.specs.Messages.{MessageFits, message_size};
ghost use Rattle.sent_frames.specs.Messages.{data_head, data_section};
ghost use Rattle.sent_frames.specs.Sources.{AreAnswersIn, data_frame, field_of};
ghost use Rattle.fh_base.specs.declared.symbols.TheConstants.{SLOT_SYMBOLS};
ghost use Rattle.frame_bytes.specs.Headers.{carrier_of};
ghost use Rattle.fh_base.specs.declared.carrier.TheConstants.{CARRIER_PRBS};
ghost use Rattle.window_config.specs.declared.config.TheConstants.{MOST_FRAGMENT};
ghost use Rattle.window_config.specs.declared.config.TheConstants.{LEAST_FRAGMENT};
ghost use Rattle.ecpri_fragments.specs.declared.place.TheConstants.{MESSAGE_BYTES};

use crate::commands::frame_id_of;
use air_source::{RePlace, Samples};
use bfp_codec::{Iq, Wide};
use ecpri_fragments::SeqField;
use frame_bytes::{Carrier, DataMessage, DataSection, Span, message_size, piece};
use plan_model::{PlannedLine, frame_count};
use uplane_sections::UHead;
use window_config::EndpointConfig;

/// Which fragment of a message.
#[derive(Clone, Copy, Debug, PartialEq, Eq)]
pub struct Fragment {
    /// The message's sequence id.
    pub seq: u8,
    /// The place of the fragment in the message, from 0: its subsequence id.
    pub sub: u8,
    /// How many application bytes a fragment has; the last has the rest.
    pub size: usize,
}

/// What an endpoint's messages have in common.
fn carrier_of(endpoint: &EndpointConfig) -> Carrier
    ensures { result ≡ carrier_of endpoint.now }
{
    Carrier {
        format: endpoint.format,
        prbs: endpoint.prbs,
    }
}

/// The header of the message that begins with a line in a symbol.
fn data_head(p: &PlannedLine, symbol: u8) -> UHead
    ensures { result ≡ data_head (part_in symbol p.now) }
{
    UHead {
        down: true,
        filter: 0,
        frame_id: frame_id_of(p.line.slot.frame),
        subframe: p.line.slot.subframe,
        slot: p.line.slot.slot,
        symbol,
    }
}

/// The section of a line in a message.
pub fn data_section(p: &PlannedLine) -> DataSection
    ensures { (symbol : ℕ) → result ≡ data_section (part_in symbol p.now) }
{
    DataSection {
        id: p.line.section,
        start_prb: p.line.start_prb,
        num_prb: p.line.num_prb,
    }
}

/// The bytes of a message that a fragment has, where the message has so many.
fn span_of(fragment: Fragment, bytes: usize) -> Span
    requires low { LEAST_FRAGMENT ≤ fragment.size }
    requires high { fragment.size ≤ MOST_FRAGMENT }
    requires bytes { bytes ≤ MESSAGE_BYTES }
    requires sub { fragment.sub < piece_count fragment.size bytes }
    ensures from { result.from ≡ fragment.sub * fragment.size }
    ensures to { result.to ≡ min (fragment.sub * fragment.size + fragment.size) bytes }
    ensures order { result.from ≤ result.to }
    ensures short { result.to - result.from ≤ fragment.size }
    ensures sub { fragment.sub < 128 }
{
    let from = fragment.sub as usize * fragment.size;
    Span {
        from,
        to: (from + fragment.size).min(bytes),
    }
}

/// The sequence field of a fragment.
fn field_of(fragment: Fragment, bytes: usize) -> SeqField
    requires low { LEAST_FRAGMENT ≤ fragment.size }
    requires high { fragment.size ≤ MOST_FRAGMENT }
    requires bytes { bytes ≤ MESSAGE_BYTES }
    ensures { result ≡ field_of fragment bytes }
{
    SeqField {
        seq: fragment.seq,
        last: fragment.sub as usize + 1 == frame_count(fragment.size, bytes),
        sub: fragment.sub,
    }
}

/// Writes the frame of a fragment of a downlink U-plane message at the front, and answers how many bytes it has.
///
/// The message is that of a line in a symbol under 14, with these sections, each with the samples of the line's endpoint, slot and
/// this symbol. The samples are asked for only in the PRBs that the fragment touches.
pub fn data_frame<F: Fn(RePlace) -> Wide>(
    p: &PlannedLine,
    symbol: u8,
    sections: &[DataSection],
    fragment: Fragment,
    samples: &Samples<F>,
    into: &mut [u8],
) -> usize
    requires kept { IsKept F.pre F.post samples.now }
    requires symbol { symbol < SLOT_SYMBOLS }
    requires prbs { p.now.endpoint.prbs ≤ CARRIER_PRBS }
    requires fits { MessageFits (carrier_of p.now.endpoint) (data_head (part_in symbol p.now)) sections.now }
    requires few { length sections.now ≤ 64 }
    requires low { LEAST_FRAGMENT ≤ fragment.size }
    requires high { fragment.size ≤ MOST_FRAGMENT }
    requires sub { fragment.sub < piece_count fragment.size (message_size (carrier_of p.now.endpoint) sections.now) }
    requires room { 8 + fragment.size ≤ length into.old }
    ensures size { result ≤ 8 + fragment.size }
    ensures len { length into.new ≡ length into.old }
    ensures bytes { (answer : SpecPlace → SpecWide) → AnswersBy (F.post (closure_of samples.now)) answer
        → (blocks : ℕ → ℕ → List SpecIq) → AreAnswersIn p.now symbol (length sections.now) answer blocks
        → take result into.new ≡ data_frame p.now symbol sections.now fragment blocks }
{
    let message = DataMessage {
        carrier: carrier_of(&p.endpoint),
        head: data_head(p, symbol),
        sections,
    };
    let bytes = message_size(&message.carrier, sections);
    let source = |_: usize, prb: u16| -> [Iq; 12]
        requires kept { IsKept F.pre F.post samples.now }
        requires symbol { symbol < SLOT_SYMBOLS }
        requires prb { prb < CARRIER_PRBS }
        ensures { (answer : SpecPlace → SpecWide) → AnswersBy (F.post (closure_of samples.entry.now)) answer
            → result ≡ block_of answer p.entry.now.endpoint.id p.entry.now.line.slot symbol prb }
    { samples.block(p.endpoint.id, p.line.slot, symbol, prb) };
    piece(
        p.endpoint.id,
        field_of(fragment, bytes),
        &message,
        &source,
        span_of(fragment, bytes),
        into,
    )
}
