// How large data messages are.
ghost use Rattle.std.specs.Prelude.{◌≡◌, ◌≤◌, ◌<◌, ◌^◌};
ghost use Rattle.window_config.specs.Endpoints.{IsEndpoint};
ghost use Rattle.unit_model.specs.Terms.{piece_count};
ghost use Rattle.plan_model.specs.Streams.{section_size};

use bfp_codec::block_len;
use fh_base::PrbSpan;
use unit_model::MESSAGE_BYTES;
use window_config::EndpointConfig;

/// How large a message is, while parts are added to it.
#[derive(Clone, Copy, Debug, PartialEq, Eq)]
pub struct MessageSize {
    pub parts: usize,
    /// Its application bytes.
    pub bytes: usize,
}

impl MessageSize {
    ghost use Rattle.plan_model.specs.Sizes.{has_room, larger, of_one};

    /// A message of one part of so many bytes; the header has 4.
    pub fn of_one(part: usize) -> MessageSize
        requires { part < 2 ^ 32 }
        ensures { result ≡ of_one part }
    {
        MessageSize {
            parts: 1,
            bytes: 4 + part,
        }
    }

    /// Whether a part of so many bytes more has room: the message has fewer parts than so many, and no more bytes than a message may.
    pub fn has_room(&self, most: usize, part: usize) -> bool
        requires bytes { self.now.bytes < 2 ^ 32 }
        requires part { part < 2 ^ 32 }
        ensures { result ≡ has_room most self.now part }
    {
        self.parts < most && self.bytes + part <= MESSAGE_BYTES
    }

    /// The message with a part of so many bytes more.
    pub fn larger(&self, part: usize) -> MessageSize
        requires parts { self.now.parts < 2 ^ 63 }
        requires bytes { self.now.bytes < 2 ^ 32 }
        requires part { part < 2 ^ 32 }
        ensures { result ≡ larger self.now part }
    {
        MessageSize {
            parts: self.parts + 1,
            bytes: self.bytes + part,
        }
    }
}

/// The bytes of a U-plane section with its headers and its PRBs, where numPrbu is this (O-RAN.WG4.CUS, U-plane sections).
pub fn section_size(e: &EndpointConfig, num_prb: u8) -> usize
    requires { IsEndpoint e.now }
    ensures value { result ≡ section_size e.now num_prb }
    ensures small { result ≤ 13383 }
{
    let headers = if e.format.dynamic { 6 } else { 4 };
    // (where they start makes no difference)
    let prbs = PrbSpan::named(0, num_prb, e.prbs).count;
    headers + prbs as usize * block_len(e.format.method)
}

/// How many frames carry a message of so many application bytes, each of which has `fragment` of them but the last.
pub fn frame_count(fragment: usize, bytes: usize) -> usize
    requires some { 1 ≤ fragment }
    requires fragment { fragment < 2 ^ 32 }
    requires bytes { bytes < 2 ^ 32 }
    ensures value { result ≡ piece_count fragment bytes }
    ensures small { result ≤ bytes }
{
    (bytes + (fragment - 1)) / fragment
}
