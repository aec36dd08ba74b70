// The payload of a message.
ghost use Rattle.std.specs.Prelude.{◌≡◌, ◌<◌, ◌^◌, ◌*◌, nat_lt, if◌then◌else◌, length, Some, None};
ghost use Rattle.bfp_codec.specs.Field.{signed};
ghost use Rattle.delay_measure.specs.Payload.{message_of, value_of, WritesMessage};

use bfp_codec::{number_at, put_number};

/// The payload of an eCPRI message of type 5, one-way delay measurement (eCPRI 2.0, section 3.2.4.6).
#[derive(Clone, Copy, Debug, PartialEq, Eq)]
pub struct DelayMessage {
    /// The measurement id.
    pub id: u8,
    /// The action type: 0 Request, 1 Request with Follow_Up, 2 Response, 3 Remote Request, 4 Remote Request with
    /// Follow_Up, 5 Follow_Up.
    pub action: u8,
    /// The seconds of the timestamp, 48 bits.
    pub seconds: u64,
    /// The nanoseconds of the timestamp. From 10^9 on they are taken as they are.
    pub nanoseconds: u32,
    /// The compensation value, in units of 2^-16 ns.
    pub comp: i64,
}

/// Reads the payload of a message of type 5. None exactly under 20 bytes; bytes beyond them are dummy bytes.
#[tactic(auto, using(bfp_codec::proofs::Field::field_fits))]
pub fn read_delay(payload: &[u8]) -> Option<DelayMessage>
    ensures { result ≡ (if nat_lt (length payload.now) 20 then None else Some (message_of payload.now)) }
{
    if payload.len() < 20 {
        return None;
    }
    Some(DelayMessage {
        id: number_at(payload, 0, 1) as u8,
        action: number_at(payload, 1, 1) as u8,
        seconds: number_at(payload, 2, 6) as u64,
        nanoseconds: number_at(payload, 8, 4) as u32,
        comp: signed_of(number_at(payload, 12, 8) as u64),
    })
}

/// The payload of a message, whose seconds are under 2^48, without dummy bytes. `read_delay` reads it back.
pub fn put_delay(m: &DelayMessage) -> [u8; 20]
    requires { m.now.seconds < 2 ^ 48 }
    ensures { WritesMessage m.now result }
{
    let message = *m;
    let mut payload = [0; 20];
    payload[0] = message.id;
    payload[1] = message.action;
    put_number(&mut payload, 2, 6, message.seconds as u128);
    put_number(&mut payload, 8, 4, message.nanoseconds as u128);
    put_number(&mut payload, 12, 8, bits_of(message.comp) as u128);
    payload
}

// A signed number by its 64 bits, in two's complement.
fn signed_of(bits: u64) -> i64
    ensures { result ≡ signed 64 bits }
{
    bits.cast_signed()
}

// The 64 bits of a signed number, in two's complement.
fn bits_of(number: i64) -> u64
    ensures { signed 64 result ≡ number }
{
    number.cast_unsigned()
}

/// The value of a message's timestamp, in nanoseconds.
pub(crate) fn value(m: DelayMessage) -> u128
    ensures value { result ≡ value_of m }
    ensures small { result < 2 ^ 95 }
{
    m.seconds as u128 * 1_000_000_000 + m.nanoseconds as u128
}
