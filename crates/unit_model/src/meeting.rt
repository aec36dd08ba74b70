// What a unit makes of a whole message, by the tests that it meets.
ghost use Rattle.std.specs.Prelude.{◌≡◌, ℤ, ◌<◌, ◌≤◌, length, IfSome, List};
ghost use Rattle.ecpri_frames.specs.Left.{message_of};
ghost use Rattle.unit_model.specs.Meetings.{find_endpoint as endpoint_found, command_met, control_met, meet as met_by_definition};
ghost use Rattle.ecpri_fragments.specs.Sequence.{id_of, sequence_of};
ghost use Rattle.unit_model.specs.Met.{meeting_of, IsTested};
ghost use Rattle.unit_model.specs.Proper.{IsAt};
ghost use Rattle.window_config.specs.declared.endpoints.EndpointConfig.{EndpointConfig as SpecEndpoint};

use air_source::Side;
use cplane_sections::{CHead, check};
use ecpri_fragments::{SeqField, read_seq};
use ecpri_frames::{IQ_DATA, ONE_WAY_DELAY, REAL_TIME_CONTROL, WholeMessage};
use fault_counters::Counter;
use fh_base::shape;
use window_config::EndpointConfig;

/// What a whole message is to a unit.
#[derive(Clone, Copy)]
pub enum Met<'a> {
    /// It is counted and changes nothing.
    Ignored(Counter),
    /// A C-plane message that was read, to the endpoint with this index.
    Command {
        ep: usize,
        endpoint: EndpointConfig,
        head: CHead,
        bytes: &'a [u8],
    },
    /// A fragment of a U-plane message, to the endpoint with this index.
    Piece {
        ep: usize,
        endpoint: EndpointConfig,
        seq: SeqField,
        bytes: &'a [u8],
    },
}

/// The endpoint with an id, and its index.
fn find_endpoint(endpoints: &[EndpointConfig], id: u16) -> Option<(usize, EndpointConfig)>
    ensures value { result ≡ endpoint_found endpoints.now id }
    ensures at { IfSome result (λ found. IsAt endpoints.now found.0 found.1) }
{
    for (ep, endpoint) in endpoints.iter().enumerate() {
        if endpoint.id == id {
            return Some((ep, *endpoint));
        }
    }
    None
}

/// The eAxC id of a payload.
#[tactic(auto, using(std::proofs::lemmas::Grind::common_steps, bfp_codec::proofs::Field::fields))]
fn id_at(payload: &[u8]) -> u16
    requires { 4 ≤ length payload.now }
    ensures { result ≡ id_of payload.now }
{
    u16::from_be_bytes([payload[0], payload[1]])
}

/// The sequence field of a payload.
fn sequence_at(payload: &[u8]) -> SeqField
    requires { 4 ≤ length payload.now }
    ensures value { result ≡ sequence_of payload.now }
    ensures sub { result.sub < 128 }
{
    read_seq([payload[2], payload[3]])
}

/// A message of real-time control data to the radio unit.
fn command<'a>(ep: usize, endpoint: EndpointConfig, payload: &'a [u8]) -> Met<'a>
    requires { 4 ≤ length payload.now }
    ensures value { (at : ℤ) → meeting_of at result ≡ command_met ep endpoint at payload.now }
    ensures tested { (es : List SpecEndpoint) → IsAt es ep endpoint → IsTested es result }
{
    let seq = sequence_at(payload);
    if !(seq.last && seq.sub == 0) {
        return Met::Ignored(Counter::CRefused);
    }
    let bytes = &payload[4..];
    match check(bytes, shape(&endpoint.numerology)) {
        Ok(head) => Met::Command {
            ep,
            endpoint,
            head,
            bytes,
        },
        Err(_) => Met::Ignored(Counter::CRefused),
    }
}

/// A message of real-time control data.
fn control<'a>(side: Side, ep: usize, endpoint: EndpointConfig, payload: &'a [u8]) -> Met<'a>
    requires { 4 ≤ length payload.now }
    ensures value { (at : ℤ) → meeting_of at result ≡ control_met side ep endpoint at payload.now }
    ensures tested { (es : List SpecEndpoint) → IsAt es ep endpoint → IsTested es result }
{
    match side {
        Side::Ru => command(ep, endpoint, payload),
        Side::Du => Met::Ignored(Counter::WrongWay),
    }
}

/// What a message is to the unit at this side, by the tests that it meets: its type, its length, its id, its way and its layout
/// (eCPRI 2.0, section 3.2.4; O-RAN.WG4.CUS, the eCPRI transport header; the order of the tests is this project's profile).
#[tactic(auto, unfolding(crate::specs::Meetings::meet))]
pub fn meet<'a>(side: Side, endpoints: &[EndpointConfig], message: &WholeMessage<'a>) -> Met<'a>
    ensures value { (at : ℤ) → meeting_of at result ≡ met_by_definition side endpoints.now at (message_of message.now) }
    ensures tested { IsTested endpoints.now result }
{
    let kind = message.head.kind;
    let payload = message.payload;
    if kind == ONE_WAY_DELAY {
        return Met::Ignored(Counter::Delay);
    }
    if !(kind == IQ_DATA || kind == REAL_TIME_CONTROL) {
        return Met::Ignored(Counter::OtherType);
    }
    if payload.len() < 4 {
        return Met::Ignored(Counter::Short);
    }
    let (ep, endpoint) = match find_endpoint(endpoints, id_at(payload)) {
        Some(found) => found,
        None => return Met::Ignored(Counter::UnknownEndpoint),
    };
    if kind == REAL_TIME_CONTROL {
        return control(side, ep, endpoint, payload);
    }
    Met::Piece {
        ep,
        endpoint,
        seq: sequence_at(payload),
        bytes: &payload[4..],
    }
}
