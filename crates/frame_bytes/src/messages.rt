//! U-plane messages that are to be written.
ghost use Rattle.std.specs.Prelude.{◌≡◌, ◌≤◌, ◌<◌, ◌^◌, ◌*◌, length};
ghost use Rattle.bfp_codec.specs.Layout.{HasWidth};
ghost use Rattle.frame_bytes.specs.Messages.{section_size, message_size};

use bfp_codec::{Format, Method, block_len};
use fh_base::PrbSpan;
use uplane_sections::UHead;

/// A section of a U-plane message that is to be written (O-RAN.WG4.CUS, clause 8.3.2), as its
/// command carried it. Its symbol is the message's.
#[derive(Clone, Copy, Debug, PartialEq, Eq)]
pub struct DataSection {
    /// sectionId, 12 bits.
    pub id: u16,
    /// startPrbu, 10 bits.
    pub start_prb: u16,
    /// numPrbu; 0 means all PRBs of the carrier, from 0.
    pub num_prb: u8,
}

/// What an endpoint's messages have in common.
#[derive(Clone, Copy, Debug, PartialEq, Eq)]
pub struct Carrier {
    /// How its PRBs are packed.
    pub format: Format,
    /// How many PRBs it has.
    pub prbs: u16,
}

/// A U-plane message that is to be written.
#[derive(Clone, Copy, Debug)]
pub struct DataMessage<'a> {
    /// Its endpoint's carrier.
    pub carrier: Carrier,
    /// Its header.
    pub head: UHead,
    /// Its sections, in order.
    pub sections: &'a [DataSection],
}

/// How many bytes a section with this numPrbu has.
pub fn section_size(carrier: &Carrier, num_prb: u8) -> usize
    requires width { HasWidth carrier.now.format.method }
    ensures value { result ≡ section_size carrier.now num_prb }
    ensures short { result ≤ 2 ^ 22 }
{
    // (where they start makes no difference)
    let count = PrbSpan::named(0, num_prb, carrier.prbs).count;
    let header = if carrier.format.dynamic { 6 } else { 4 };
    header + count as usize * block_len(carrier.format.method)
}

/// How many application bytes a message with these sections has.
pub fn message_size(carrier: &Carrier, sections: &[DataSection]) -> usize
    requires width { HasWidth carrier.now.format.method }
    requires few { length sections.now ≤ 2 ^ 16 }
    ensures { result ≡ message_size carrier.now sections.now }
{
    let mut size = 4;
    for section in sections {
        size += section_size(carrier, section.num_prb);
    }
    size
}
