//! The bytes of a frame.
ghost use Rattle.std.specs.Prelude.{◌≡◌, ℕ, ◌+◌, ◌<◌, ◌≤◌, List, length, map, take};
ghost use Rattle.air_source.specs.Answers.{AnswersBy};
ghost use Rattle.air_source.specs.Kept.{IsKept, closure_of};
ghost use Rattle.air_source.specs.declared.places.RePlace.{RePlace as SpecPlace};
ghost use Rattle.bfp_codec.specs.declared.samples.Iq.{Iq as SpecIq};
ghost use Rattle.bfp_codec.specs.declared.samples.Wide.{Wide as SpecWide};
ghost use Rattle.frame_bytes.specs.Messages.{message_size};
ghost use Rattle.window_config.specs.declared.config.Config.{Config as SpecConfig};
ghost use Rattle.window_config.specs.declared.plan.PlanLine.{PlanLine as SpecLine};
ghost use Rattle.plan_model.specs.Sent.{SentFrame};
ghost use Rattle.plan_model.specs.Packs.{Message, parts_of};
ghost use Rattle.unit_model.specs.Terms.{piece_count};
ghost use Rattle.plan_model.specs.Streams.{Part};
ghost use Rattle.sent_frames.specs.Messages.{data_section};
ghost use Rattle.sent_frames.specs.Frames.{sent_bytes};
ghost use Rattle.sent_frames.specs.Sources.{AreAnswersIn, data_frame, source_of};
ghost use Rattle.du_scheduler.specs.Frames.{IsFrame, IsFrameOf};
ghost use Rattle.du_scheduler.specs.Written.{IsData, StandsAt, message_sections};
ghost use Rattle.frame_bytes.specs.Headers.{carrier_of};
ghost use Rattle.window_config.specs.declared.config.TheConstants.{MOST_FRAGMENT};
ghost use Rattle.window_config.specs.declared.config.TheConstants.{LEAST_FRAGMENT};

use crate::PlacedLine;
use crate::turns::Turn;
use air_source::{RePlace, Samples};
use bfp_codec::Wide;
use frame_bytes::DataSection;
use plan_model::PlannedLine;
use sent_frames::{Fragment, command_frame, data_frame, data_section};
use window_config::MESSAGE_SECTIONS;

/// Puts the sections of a message's parts into their places.
fn put_sections(lines: &[PlannedLine], parts: &[PlacedLine], into: &mut [DataSection])
    requires data { (xs : List Part) × StandsAt lines.now parts.now xs }
    requires room { length parts.now ≤ length into.old }
    ensures len { length into.new ≡ length into.old }
    ensures sections { (xs : List Part) → StandsAt lines.now parts.now xs → take (length parts.now) into.new ≡ map data_section xs }
{
    for (k, part) in parts.iter().enumerate() {
        into[k] = data_section(&lines[part.line as usize]);
    }
}

/// Writes the frame of a fragment of the message with these parts, and answers how many bytes it has.
pub(crate) fn write_data<F: Fn(RePlace) -> Wide>(
    lines: &[PlannedLine],
    parts: &[PlacedLine],
    fragment: Fragment,
    samples: &Samples<F>,
    into: &mut [u8],
) -> usize
    requires kept { IsKept F.pre F.post samples.now }
    requires data { (m : Message Part) × IsData lines.now parts.now m × (fragment.sub < piece_count fragment.size (message_size (carrier_of m.first.planned.endpoint) (message_sections m))) }
    requires low { LEAST_FRAGMENT ≤ fragment.size }
    requires high { fragment.size ≤ MOST_FRAGMENT }
    requires room { 8 + fragment.size ≤ length into.old }
    ensures size { result ≤ 8 + fragment.size }
    ensures len { length into.new ≡ length into.old }
    ensures bytes { (m : Message Part) → IsData lines.now parts.now m → (answer : SpecPlace → SpecWide) → AnswersBy (F.post (closure_of samples.now)) answer
        → (blocks : ℕ → ℕ → List SpecIq) → AreAnswersIn m.first.planned m.first.symbol (length (parts_of m)) answer blocks
        → take result into.new ≡ data_frame m.first.planned m.first.symbol (message_sections m) fragment blocks }
{
    let none = DataSection {
        id: 0,
        start_prb: 0,
        num_prb: 0,
    };
    let mut sections = [none; MESSAGE_SECTIONS];
    put_sections(lines, parts, &mut sections);
    let first = parts[0];
    data_frame(
        &lines[first.line as usize],
        first.symbol,
        &sections[..parts.len()],
        fragment,
        samples,
        into,
    )
}

/// Writes the frame of a turn, of the message with these parts, and answers how many bytes it has.
pub(crate) fn write_frame<F: Fn(RePlace) -> Wide>(
    lines: &[PlannedLine],
    parts: &[PlacedLine],
    turn: &Turn,
    fragment: usize,
    samples: &Samples<F>,
    into: &mut [u8],
) -> usize
    requires kept { IsKept F.pre F.post samples.now }
    requires frame { IsFrame lines.now parts.now turn.now fragment }
    requires room { 9008 ≤ length into.old }
    ensures size { result ≤ length into.new }
    ensures len { length into.new ≡ length into.old }
    ensures bytes { (c : SpecConfig) (plan : List SpecLine) (f : SentFrame) → IsFrameOf c plan f lines.now parts.now turn.now fragment
        → (answer : SpecPlace → SpecWide) → AnswersBy (F.post (closure_of samples.now)) answer
        → take result into.new ≡ sent_bytes c (source_of c.endpoints answer) f }
{
    let seq = (turn.number % 256) as u8;
    if turn.is_command() {
        command_frame(&lines[parts[0].line as usize], seq, into)
    } else {
        let fragment = Fragment {
            seq,
            sub: turn.sub,
            size: fragment,
        };
        write_data(lines, parts, fragment, samples, into)
    }
}
