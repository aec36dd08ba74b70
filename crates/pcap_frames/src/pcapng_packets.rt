// A packet's block.
ghost use Rattle.std.specs.Prelude.{◌≡◌, ◌≤◌, ◌<◌, ◌^◌, Some, length, slice_get};
ghost use Rattle.std.specs.Option.{option_copied};
ghost use Rattle.pcap_frames.specs.PcapngPackets.{packet_by, packet_of};
ghost use Rattle.pcap_frames.specs.Values.{seen_or_refused};

use crate::numbers::{padded, word};
use crate::packet::Packet;
use crate::pcapng_refusals::BlockWhy;
use crate::pcapng_values::Interface;
use crate::times::time;

/// How many bytes of a packet's body are before the packet.
const FIXED: usize = 20;
/// The link type of Ethernet.
const ETHERNET: u16 = 1;

// The interface with a number.
fn interface_at(interfaces: &[Interface], number: u32) -> Option<&Interface>
    ensures { option_copied result ≡ slice_get interfaces.now number }
{
    interfaces.get(number as usize)
}

// The packet of an interface that a body holds.
fn packet_of<'a>(
    body: &'a [u8],
    little: bool,
    interface: &Interface,
) -> Result<Packet<'a>, BlockWhy>
    requires { 20 ≤ length body.now }
    ensures { seen_or_refused result ≡ packet_by little (Some interface.now) body.now }
{
    let kept = word(&body[12..], little) as usize;
    if body.len() - FIXED < padded(kept) {
        return Err(BlockWhy::Cut);
    }
    if interface.link != ETHERNET {
        return Err(BlockWhy::LinkType);
    }
    let high = word(&body[4..], little) as u64;
    let low = word(&body[8..], little) as u64;
    Ok(Packet {
        time: time(high << 32 | low, interface),
        bytes: &body[FIXED..FIXED + kept],
    })
}

/// The packet that a body holds, of one of these interfaces.
pub(crate) fn packet<'a>(
    body: &'a [u8],
    little: bool,
    interfaces: &[Interface],
) -> Result<Packet<'a>, BlockWhy>
    requires { 20 ≤ length body.now }
    ensures { seen_or_refused result ≡ packet_of little interfaces.now body.now }
{
    match interface_at(interfaces, word(body, little)) {
        Some(interface) => packet_of(body, little, interface),
        None => Err(BlockWhy::NoInterface),
    }
}
