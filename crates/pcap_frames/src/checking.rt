// The tests of a file.
ghost use Rattle.std.specs.Prelude.{◌≡◌, ◌≤◌, length, Ok};
ghost use Rattle.pcap_frames.specs.Checked.{frame_fault};
ghost use Rattle.pcap_frames.specs.Heads.{Answers};
ghost use Rattle.pcap_frames.specs.Packets.{opened_as, wanted_as};
ghost use Rattle.pcap_frames.specs.Parts.{opened};
ghost use Rattle.pcap_frames.specs.Passes.{found_by};
ghost use Rattle.pcap_frames.specs.Wanted.{wanted_of};
ghost use Rattle.pcap_frames.specs.Values.{held_as};

use crate::heads::PcapHead;
use crate::opening::{Opening, opening_of};
use crate::parts::part;
use crate::pcapng_values::Content;
use crate::ranges::is_in_range;
use crate::refusals::{PcapFault, PcapRefusal, PcapWhy};
use crate::sections::Sections;
use crate::values::Whose;
use crate::wanted::Wanted;
use crate::wanting::wanted;
use fh_base::FRAME_LIMIT;
use std::alloc::Global;

// The fault of a frame that is wanted.
fn fault(first: u128, start: u64, wanted: Wanted<'_>) -> Option<PcapWhy>
    ensures { result ≡ frame_fault first start (wanted_as wanted.entry) }
{
    if wanted.frame.len() > FRAME_LIMIT {
        Some(PcapWhy::LongFrame)
    } else if is_in_range(first, start, wanted.time) {
        None
    } else {
        Some(PcapWhy::TimeRange)
    }
}

// The first time after what a record or a block holds, or its fault.
fn first_behind(
    content: Content<'_>,
    whose: Whose,
    start: u64,
    first: Option<u128>,
) -> Result<Option<u128>, PcapWhy>
    ensures { result ≡ found_by start first (wanted_of whose (held_as content.entry)) }
{
    let Some(wanted) = wanted(content, whose) else {
        return Ok(first);
    };
    let time = first.unwrap_or(wanted.time);
    match fault(time, start, wanted) {
        Some(why) => Err(why),
        None => Ok(Some(time)),
    }
}

// Tests the records or blocks of a file.
fn check_parts(
    alloc: Global,
    bytes: &[u8],
    opening: Opening,
    whose: Whose,
    start: u64,
) -> Result<PcapHead, PcapFault>
    requires opened { opened bytes.now ≡ Ok (opened_as opening) }
    requires within { opening.place ≤ length bytes.now }
    ensures { Answers whose bytes.now start result }
{
    let mut place = opening.place;
    let mut first = None;
    let mut sections = Sections {
        layout: opening.layout,
        begin: 0,
        interfaces: Vec::new(alloc),
    };
    while place < bytes.len() {
        let part = match part(&bytes[place..], sections.layout, sections.now()) {
            Ok(part) => part,
            Err(why) => return Err(PcapFault::Refused(PcapRefusal { place, why })),
        };
        match first_behind(part.content, whose, start, first) {
            Ok(found) => first = found,
            Err(why) => return Err(PcapFault::Refused(PcapRefusal { place, why })),
        }
        sections.take(part.content)?;
        place += part.size;
    }
    Ok(PcapHead {
        first: first.unwrap_or(0),
        interfaces: sections.interfaces,
    })
}

/// Tests a complete file, of which these frames are wanted, and whose first of them is to be at `start` ns.
///
/// # Errors
///
/// `NoMemory` for want of memory for the interfaces of a pcapng file. Else `Refused`. A classic file: `Magic` at 0 where the first
/// four bytes are none of the four magics, then `Cut` at 0 where there are fewer than 24 bytes, then `LinkType` at 20 where the link
/// type's low 16 bits are not 1. Else the first record or block that is malformed, at its place: `Cut` where it is not complete, of a
/// block what [`block`](crate::block) refuses, then, of a frame that is wanted, `LongFrame` where it has more than 9,216 bytes and
/// `TimeRange` where its time lies outside 0 to 1,000,000,000,000 ns.
pub fn check(alloc: Global, bytes: &[u8], whose: Whose, start: u64) -> Result<PcapHead, PcapFault>
    ensures { Answers whose bytes.now start result }
{
    match opening_of(bytes) {
        Ok(opening) => check_parts(alloc, bytes, opening, whose, start),
        Err(refusal) => Err(PcapFault::Refused(refusal)),
    }
}
