// What the tests make: words, a file of one command, and the head of a file that is accepted.
ghost use Rattle.std.specs.Prelude.{◌≡◌, Ok};
ghost use Rattle.air_source.specs.declared.events.Side.TheVariants.{Ru};
ghost use Rattle.pcap_frames.specs.declared.values.Whose.TheVariants.{All};
ghost use Rattle.pcap_frames.specs.Checked.{checked};
ghost use Rattle.pcap_frames.specs.Heads.{IsHead};

use air_source::Side;
use fh_base::{Bytes, List, NoMemory};
use pcap_frames::{PcapHead, Whose, check};
use std::alloc::Global;
use std::process::Abort;

/// Lowest byte first, in microseconds: a command after its addresses, at 1.0005 s.
pub(crate) const LITTLE: [u8; 78] = [
    0xd4, 0xc3, 0xb2, 0xa1, 0x02, 0x00, 0x04, 0x00, 0x00, 0x00, 0x00, 0x00, 0x00, 0x00, 0x00, 0x00,
    0x00, 0x00, 0x04, 0x00, 0x01, 0x00, 0x00, 0x00, 0x01, 0x00, 0x00, 0x00, 0xf4, 0x01, 0x00, 0x00,
    0x26, 0x00, 0x00, 0x00, 0x26, 0x00, 0x00, 0x00, 0xff, 0xff, 0xff, 0xff, 0xff, 0xff, 0x02, 0x00,
    0x00, 0x00, 0x00, 0x01, 0xae, 0xfe, 0x10, 0x02, 0x00, 0x14, 0x00, 0x00, 0x00, 0x80, 0x90, 0x01,
    0x00, 0x00, 0x01, 0x01, 0x00, 0x00, 0x00, 0x10, 0x00, 0x01, 0xff, 0xf1, 0x00, 0x00,
];

/// The head of a file that is accepted with this start, and whose frames all go to the radio unit.
pub(crate) fn head_of(rt: &impl Abort, alloc: Global, file: &[u8], start: u64) -> PcapHead
    ensures passed { checked (All Ru) file.now start ≡ Ok tt }
    ensures head { IsHead (All Ru) file.now result }
{
    match check(alloc, file, Whose::All(Side::Ru), start) {
        Ok(head) => head,
        Err(fault) => panic!(rt; "{fault:?}"),
    }
}

pub(crate) fn words_of(alloc: Global, words: &[&[u8]]) -> Result<List<Bytes>, NoMemory> {
    let mut list = List::new(alloc);
    for word in words {
        let mut bytes = Bytes::new(alloc);
        bytes.push_all(word)?;
        list.push(bytes)?;
    }
    Ok(list)
}

/// The number of one call of a sink, which is to fail.
pub(crate) fn calls(alloc: Global, number: u64) -> Result<List<u64>, NoMemory> {
    let mut list = List::new(alloc);
    list.push(number)?;
    Ok(list)
}
