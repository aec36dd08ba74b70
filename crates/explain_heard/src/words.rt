// What a whole message of a frame is to its unit.
ghost use Rattle.std.specs.Prelude.{◌≡◌, ◌≤◌, length};
ghost use Rattle.ecpri_fragments.specs.Sequence.{application, id_of, sequence_of};
ghost use Rattle.ecpri_frames.specs.Left.{message_of};
ghost use Rattle.explain_heard.specs.Heard.{message_word, word_to, word_with};
ghost use Rattle.explain_model.specs.Messages.{command_answer};
ghost use Rattle.unit_model.specs.Meetings.{find_endpoint};

use crate::heard::MessageWord;
use air_source::Side;
use cplane_sections::check;
use ecpri_fragments::{SeqField, read_seq};
use ecpri_frames::{IQ_DATA, ONE_WAY_DELAY, REAL_TIME_CONTROL, WholeMessage};
use explain_model::CommandAnswer;
use fh_base::shape;
use window_config::EndpointConfig;

/// The eAxC id of a payload.
#[tactic(auto, using(std::proofs::lemmas::Grind::common_steps, bfp_codec::proofs::Field::fields))]
fn id_at(payload: &[u8]) -> u16
    requires { 4 ≤ length payload.now }
    ensures { result ≡ id_of payload.now }
{
    u16::from_be_bytes([payload[0], payload[1]])
}

/// The sequence field of a payload.
fn sequence_at(payload: &[u8]) -> SeqField
    requires { 4 ≤ length payload.now }
    ensures { result ≡ sequence_of payload.now }
{
    read_seq([payload[2], payload[3]])
}

/// The endpoint with an id.
fn endpoint_with(endpoints: &[EndpointConfig], id: u16) -> Option<(usize, EndpointConfig)>
    ensures { result ≡ find_endpoint endpoints.now id }
{
    for (ep, endpoint) in endpoints.iter().enumerate() {
        if endpoint.id == id {
            return Some((ep, *endpoint));
        }
    }
    None
}

/// What a command to an endpoint is to a unit.
fn command_answer(side: Side, endpoint: &EndpointConfig, payload: &[u8]) -> CommandAnswer
    requires { 4 ≤ length payload.now }
    ensures { result ≡ command_answer side endpoint.now payload.now }
{
    match side {
        Side::Du => CommandAnswer::WrongWay,
        Side::Ru => {
            let seq = sequence_at(payload);
            if !(seq.last && seq.sub == 0) {
                return CommandAnswer::Fragmented;
            }
            match check(&payload[4..], shape(&endpoint.numerology)) {
                Ok(_) => CommandAnswer::Read,
                Err(refusal) => CommandAnswer::Refused(refusal),
            }
        }
    }
}

/// What a message of the types 0 and 2 to an endpoint is to a unit.
fn word_to(side: Side, kind: u8, endpoint: &EndpointConfig, payload: &[u8]) -> MessageWord
    requires { 4 ≤ length payload.now }
    ensures { result ≡ word_to side kind endpoint.now payload.now }
{
    if kind == REAL_TIME_CONTROL {
        MessageWord::Command {
            id: id_at(payload),
            seq: sequence_at(payload),
            answer: command_answer(side, endpoint, payload),
        }
    } else {
        MessageWord::Data
    }
}

/// What a message of the types 0 and 2 is to a unit.
fn word_with(side: Side, kind: u8, endpoints: &[EndpointConfig], payload: &[u8]) -> MessageWord
    requires { 4 ≤ length payload.now }
    ensures { result ≡ word_with side kind payload.now (find_endpoint endpoints.now (id_of payload.now)) }
{
    match endpoint_with(endpoints, id_at(payload)) {
        None => MessageWord::Unknown {
            id: id_at(payload),
            seq: sequence_at(payload),
        },
        Some((_, endpoint)) => word_to(side, kind, &endpoint, payload),
    }
}

/// What a whole message of a frame is to a unit.
#[tactic(auto, unfolding(crate::specs::Heard::message_word))]
pub(crate) fn message_word(
    side: Side,
    endpoints: &[EndpointConfig],
    message: &WholeMessage<'_>,
) -> MessageWord
    ensures { result ≡ message_word side endpoints.now (message_of message.now) }
{
    let kind = message.head.kind;
    if kind == ONE_WAY_DELAY {
        return MessageWord::Measure;
    }
    if !(kind == IQ_DATA || kind == REAL_TIME_CONTROL) {
        return MessageWord::Other;
    }
    if message.payload.len() < 4 {
        return MessageWord::Short;
    }
    word_with(side, kind, endpoints, message.payload)
}
