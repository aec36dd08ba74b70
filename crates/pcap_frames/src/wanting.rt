// Whose frame a packet has.
ghost use Rattle.std.specs.Prelude.{◌≡◌, drop};
ghost use Rattle.pcap_frames.specs.Wanted.{side_of, wanted_of};
ghost use Rattle.pcap_frames.specs.Packets.{wanted_or_none};
ghost use Rattle.pcap_frames.specs.Values.{held_as};

use crate::ethernet::{ecpri_in, stands_at};
use crate::pcapng_values::Content;
use crate::values::Whose;
use crate::wanted::Wanted;
use air_source::Side;

/// Where the destination of a packet is, and its source.
const DESTINATION: usize = 0;

const SOURCE: usize = 6;

// The unit that a packet goes to, where its frame is wanted.
fn side_of(packet: &[u8], whose: Whose) -> Option<Side>
    ensures { result ≡ side_of whose packet.now }
{
    match whose {
        Whose::All(side) => Some(side),
        Whose::Port(address) => {
            if stands_at(packet, DESTINATION, &address) {
                Some(Side::Ru)
            } else if stands_at(packet, SOURCE, &address) {
                Some(Side::Du)
            } else {
                None
            }
        },
    }
}

/// The eCPRI frame of what a record or a block holds, where it is wanted.
pub fn wanted<'a>(content: Content<'a>, whose: Whose) -> Option<Wanted<'a>>
    ensures { wanted_or_none result ≡ wanted_of whose (held_as content.entry) }
{
    let Content::Packet(packet) = content else {
        return None;
    };
    let Some(frame) = ecpri_in(packet.bytes) else {
        return None;
    };
    match side_of(packet.bytes, whose) {
        Some(side) => Some(Wanted {
            side,
            time: packet.time,
            frame,
        }),
        None => None,
    }
}
