// One record or block.
ghost use Rattle.std.specs.Prelude.{◌≡◌, ◌≤◌, ◌<◌, length, IfOk};
ghost use Rattle.pcap_frames.specs.Files.{record_of};
ghost use Rattle.pcap_frames.specs.Parts.{part_of, recorded};
ghost use Rattle.pcap_frames.specs.Packets.{part_or_refused, reading_as};

use crate::blocks::block;
use crate::packet::Packet;
use crate::packets::{RECORD, record_in, time};
use crate::pcapng_values::{Block, Content, Interface};
use crate::refusals::{PcapWhy, why_of};
use crate::values::{Format, Layout};

// The record that the bytes begin with.
#[inline(always)]
fn record_part(bytes: &[u8], format: Format) -> Result<Block<'_>, PcapWhy>
    ensures value { part_or_refused result ≡ recorded format (record_of format.little bytes.now) }
    ensures some { IfOk result (λ part. 0 < part.size) }
    ensures within { IfOk result (λ part. part.size ≤ length bytes.now) }
{
    match record_in(bytes, format.little) {
        Some(record) => Ok(Block {
            size: RECORD + record.bytes.len(),
            content: Content::Packet(Packet {
                time: time(record, format.nanos) as u128,
                bytes: record.bytes,
            }),
        }),
        None => Err(PcapWhy::Cut),
    }
}

/// The record or the block that the bytes begin with, in a section that has these interfaces.
#[inline(always)]
pub fn part<'a>(
    bytes: &'a [u8],
    layout: Layout,
    interfaces: &[Interface],
) -> Result<Block<'a>, PcapWhy>
    ensures value { part_or_refused result ≡ part_of (reading_as layout interfaces.now) bytes.now }
    ensures some { IfOk result (λ part. 0 < part.size) }
    ensures within { IfOk result (λ part. part.size ≤ length bytes.now) }
{
    match layout {
        Layout::Records(format) => record_part(bytes, format),
        Layout::Blocks(little) => match block(bytes, little, interfaces) {
            Ok(block) => Ok(block),
            Err(why) => Err(why_of(why)),
        },
    }
}
