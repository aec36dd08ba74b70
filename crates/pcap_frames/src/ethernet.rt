// The eCPRI frame in an Ethernet frame.
ghost use Rattle.std.specs.Prelude.{◌≡◌, ◌≤◌, ◌-◌, List, ℕ, drop, length, IsTrue, Option, option_copied};
ghost use Rattle.std.specs.List.{starts_with};
ghost use Rattle.std.specs.Prelude.{nat_eq, map};
ghost use Rattle.pcap_frames.specs.Ethernet.{is_tag, type_place, ecpri_in};

/// How many bytes of addresses are first.
const ADDRESSES: usize = 12;
/// How many bytes a tag has.
const TAG: usize = 4;
/// The EtherType of eCPRI.
const ECPRI: [u8; 2] = [0xae, 0xfe];
/// The types of the tags of IEEE 802.1Q that are passed over.
const CUSTOMER_TAG: [u8; 2] = [0x81, 0x00];

const SERVICE_TAG: [u8; 2] = [0x88, 0xa8];

/// Whether some bytes are at a place.
pub fn stands_at(packet: &[u8], place: usize, some: &[u8]) -> bool
    ensures value { result ≡ starts_with nat_eq (drop place packet.now) some.now }
    ensures bound { IsTrue result → length some.now ≤ length packet.now - place }
{
    let place = place.min(packet.len());
    packet[place..].starts_with(some)
}

// Whether a tag begins at a place.
fn is_tag(packet: &[u8], place: usize) -> bool
    ensures { result ≡ is_tag packet.now place }
{
    stands_at(packet, place, &CUSTOMER_TAG) || stands_at(packet, place, &SERVICE_TAG)
}

// Where the EtherType is, after at most two tags.
fn type_place(packet: &[u8]) -> usize
    ensures { result ≡ type_place packet.now }
{
    if !is_tag(packet, ADDRESSES) {
        ADDRESSES
    } else if !is_tag(packet, ADDRESSES + TAG) {
        ADDRESSES + TAG
    } else {
        ADDRESSES + 2 * TAG
    }
}

/// The bytes after the EtherType of eCPRI, where the Ethernet frame has this EtherType.
pub fn ecpri_in(packet: &[u8]) -> Option<&[u8]>
    ensures { option_copied result ≡ ecpri_in packet.now }
{
    let place = type_place(packet);
    if stands_at(packet, place, &ECPRI) {
        Some(&packet[place + 2..])
    } else {
        None
    }
}
