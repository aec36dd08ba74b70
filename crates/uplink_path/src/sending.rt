// The frames of one message.
ghost use Rattle.std.specs.Prelude.{◌≡◌, ℕ, ◌+◌, ◌-◌, ◌<◌, ◌≤◌, ◌++◌, length, take, IfOk, OnOk, OnErr};
ghost use Rattle.air_source.specs.Answers.{AnswersBy, block_of};
ghost use Rattle.air_source.specs.Kept.{IsKept, closure_of};
ghost use Rattle.frame_bytes.specs.Cuts.{piece_frame};
ghost use Rattle.frame_bytes.specs.Messages.{MessageFits, message_of, message_size};
ghost use Rattle.plan_model.specs.Packs.{Message};
ghost use Rattle.unit_model.specs.declared.jobs.UplinkJob.{UplinkJob as SpecJob};
ghost use Rattle.uplink_model.specs.Frames.{Antenna, uplink_frames_from, head_of, samples_of};
ghost use Rattle.uplink_model.specs.Messages.{frame_count};
ghost use Rattle.uplink_path.specs.Packing.{sections_in};
ghost use Rattle.uplink_path.specs.Sending.{CanBeSent, IsBehind, SentSome, wait_behind};
ghost use Rattle.window_config.specs.declared.config.Config.{Config as SpecConfig};
ghost use Rattle.fh_base.specs.declared.symbols.TheConstants.{SLOT_SYMBOLS};
ghost use Rattle.window_config.specs.declared.config.TheConstants.{MESSAGE_SECTIONS};
ghost use Rattle.frame_bytes.specs.Headers.{carrier_of};
ghost use Rattle.fh_base.specs.declared.carrier.TheConstants.{CARRIER_PRBS};

use crate::pending::{Pending, head_of};
use crate::rules::Rules;
use air_source::{Link, RePlace, Samples};
use bfp_codec::{Iq, Wide};
use ecpri_fragments::SeqField;
use fh_base::NoMemory;
use frame_bytes::{Carrier, DataMessage, Span, piece};
use plan_model::frame_count;
use window_config::EndpointConfig;

/// Writes a piece of a message's bytes as a frame, and answers how long it is.
fn write_piece<F: Fn(RePlace) -> Wide>(
    endpoint: &EndpointConfig,
    antenna: &Samples<F>,
    message: &Pending,
    seq: SeqField,
    span: Span,
    into: &mut [u8],
) -> usize
    requires kept { IsKept F.pre F.post antenna.now }
    requires symbol { message.now.first.symbol < SLOT_SYMBOLS }
    requires prbs { endpoint.now.prbs ≤ CARRIER_PRBS }
    requires count { message.now.size.parts ≤ MESSAGE_SECTIONS }
    requires fits { MessageFits (carrier_of endpoint.now) (head_of message.now.first) (sections_in message.now) }
    requires sub { seq.sub < 128 }
    requires order { span.from ≤ span.to }
    requires within { span.to ≤ message_size (carrier_of endpoint.now) (sections_in message.now) }
    requires room { 8 + (span.to - span.from) ≤ length into.old }
    ensures size { result ≡ 8 + (span.to - span.from) }
    ensures len { length into.new ≡ length into.old }
    ensures bytes { (answer : Antenna) → AnswersBy (F.post (closure_of antenna.now)) answer
        → take result into.new ≡ piece_frame endpoint.now.id seq span.from span.to (message_of (carrier_of endpoint.now) (samples_of answer endpoint.now message.now.first) (head_of message.now.first) (sections_in message.now)) }
{
    let first = message.first;
    let id = endpoint.id;
    let data = DataMessage {
        carrier: Carrier {
            format: endpoint.format,
            prbs: endpoint.prbs,
        },
        head: head_of(&first),
        sections: &message.sections[..message.size.parts],
    };
    let (slot, symbol) = (first.slot, first.symbol);
    let source = |_place: usize, prb: u16| -> [Iq; 12]
        requires kept { IsKept F.pre F.post antenna.now }
        requires symbol { symbol < SLOT_SYMBOLS }
        requires prb { prb < CARRIER_PRBS }
        ensures { (answer : Antenna) → AnswersBy (F.post (closure_of antenna.entry.now)) answer → result ≡ block_of answer id slot symbol prb }
    { antenna.block(id, slot, symbol, prb) };
    piece(id, seq, &data, &source, span, into)
}

/// A message that is complete, with what its frames go by.
#[derive(Clone, Copy)]
pub(crate) struct NumberedMessage<'a> {
    pub message: &'a Pending,
    /// Its sequence id.
    pub number: u8,
    /// How long its first frame waits after the first frame of its symbol.
    pub wait: u64,
}

/// Hands over the frames of a message, and answers how long the next frame of its symbol waits then.
pub(crate) fn send_message<F: Fn(RePlace) -> Wide, L: Link>(
    rules: &Rules,
    endpoint: &EndpointConfig,
    antenna: &Samples<F>,
    numbered: &NumberedMessage<'_>,
    buffer: &mut [u8],
    link: &mut L,
) -> Result<u64, NoMemory>
    requires kept { IsKept F.pre F.post antenna.now }
    requires sendable { CanBeSent rules.now endpoint.now numbered.now.message.now }
    requires wait { numbered.now.wait ≤ rules.now.departures.spread }
    requires room { 8 + rules.now.fragment ≤ length buffer.old }
    ensures len { length buffer.new ≡ length buffer.old }
    ensures sent { (c : SpecConfig) (answer : Antenna) (m : Message SpecJob) (n before : ℕ) → AnswersBy (F.post (closure_of antenna.now)) answer
        → IsBehind c rules.now numbered.now.message.now numbered.now.number numbered.now.wait m n before
        → OnOk result (L.sent link.new ≡ L.sent link.old ++ uplink_frames_from c answer endpoint.now m n before 0 (frame_count c m)) }
    ensures wait { (c : SpecConfig) (m : Message SpecJob) (n before : ℕ) → IsBehind c rules.now numbered.now.message.now numbered.now.number numbered.now.wait m n before
        → IfOk result (λ w. w ≡ wait_behind c (before + frame_count c m)) }
    ensures err { (c : SpecConfig) (answer : Antenna) (m : Message SpecJob) (n before : ℕ) → AnswersBy (F.post (closure_of antenna.now)) answer
        → IsBehind c rules.now numbered.now.message.now numbered.now.number numbered.now.wait m n before
        → OnErr result (SentSome (uplink_frames_from c answer endpoint.now m n before 0 (frame_count c m)) (L.sent link.old) (L.sent link.new)) }
{
    let NumberedMessage {
        message,
        number,
        wait,
    } = *numbered;
    let count = frame_count(rules.fragment, message.size.bytes);
    let mut next = wait;
    for sub in 0..count {
        let from = sub * rules.fragment;
        let span = Span {
            from,
            to: (from + rules.fragment).min(message.size.bytes),
        };
        let seq = SeqField {
            seq: number,
            last: sub + 1 == count,
            sub: sub as u8,
        };
        let len = write_piece(endpoint, antenna, message, seq, span, buffer);
        let at = rules.departures.at(message.first.s, next);
        link.send(at, message.first.ep, &buffer[..len])?;
        next = rules.departures.later(next, 1);
    }
    Ok(next)
}
