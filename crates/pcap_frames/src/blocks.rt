// One block.
ghost use Rattle.std.specs.Prelude.{◌≡◌, ◌≤◌, ◌+◌, length, drop, IfOk, IfSome};
ghost use Rattle.pcap_frames.specs.Blocks.{order_of, least_of, size_of, section_by, held_of, other_of, block_of};
ghost use Rattle.pcap_frames.specs.Values.{block_or_refused, held_or_refused};

use crate::interfaces::interface;
use crate::numbers::word;
use crate::pcapng_packets::packet;
use crate::pcapng_refusals::BlockWhy;
use crate::pcapng_values::{Block, Content, Interface};

/// The type of a block with which a section begins, the same in both orders of bytes.
pub const SECTION: [u8; 4] = [0x0a, 0x0d, 0x0d, 0x0a];

/// What is after its length where its numbers are highest byte first.
const BIG: [u8; 4] = [0x1a, 0x2b, 0x3c, 0x4d];
/// And lowest byte first.
const LITTLE: [u8; 4] = [0x4d, 0x3c, 0x2b, 0x1a];

/// How many bytes of a block are before its body, and after it.
const HEAD: usize = 8;

const TAIL: usize = 4;

/// The types that are looked at, but for that of a section.
const INTERFACE: u32 = 1;

const PACKET: u32 = 2;

const SIMPLE_PACKET: u32 = 3;

const ENHANCED_PACKET: u32 = 6;

// Whether the numbers of a section are lowest byte first; none where the bytes tell no order.
fn order(bytes: &[u8]) -> Option<bool>
    ensures { result ≡ order_of bytes.now }
{
    if bytes.starts_with(&BIG) {
        Some(false)
    } else if bytes.starts_with(&LITTLE) {
        Some(true)
    } else {
        None
    }
}

// How many bytes a block of a type has at least.
fn least(kind: u32) -> usize
    ensures { result ≡ least_of kind }
{
    match kind {
        INTERFACE => 20,
        ENHANCED_PACKET => 32,
        _ => 12,
    }
}

// How many bytes the block has that the bytes begin with, where that is at least this and it is complete.
fn size(bytes: &[u8], little: bool, least: usize) -> Option<usize>
    requires least { 12 ≤ least }
    requires head { 12 ≤ length bytes.now }
    ensures value { result ≡ size_of little least bytes.now }
    ensures more { IfSome result (λ size. least ≤ size) }
    ensures within { IfSome result (λ size. size ≤ length bytes.now) }
{
    let size = word(&bytes[4..], little) as usize;
    if size < least || size % 4 != 0 || size > bytes.len() {
        return None;
    }
    if word(&bytes[size - TAIL..], little) as usize == size {
        Some(size)
    } else {
        None
    }
}

// The block with which a section begins.
fn section(bytes: &[u8]) -> Result<Block<'_>, BlockWhy>
    requires { 12 ≤ length bytes.now }
    ensures value { block_or_refused result ≡ section_by (order_of (drop 8 bytes.now)) bytes.now }
    ensures some { IfOk result (λ block. 12 ≤ block.size) }
    ensures within { IfOk result (λ block. block.size ≤ length bytes.now) }
{
    let Some(little) = order(&bytes[HEAD..]) else {
        return Err(BlockWhy::Magic);
    };
    match size(bytes, little, 28) {
        Some(size) => Ok(Block {
            size,
            content: Content::Section(little),
        }),
        None => Err(BlockWhy::Cut),
    }
}

// What a block of a type holds in its body.
fn content<'a>(
    kind: u32,
    body: &'a [u8],
    little: bool,
    interfaces: &[Interface],
) -> Result<Content<'a>, BlockWhy>
    requires { least_of kind ≤ length body.now + 12 }
    ensures { held_or_refused result ≡ held_of little interfaces.now kind body.now }
{
    match kind {
        PACKET | SIMPLE_PACKET => Err(BlockWhy::OldPacket),
        INTERFACE => Ok(Content::Interface(interface(body, little)?)),
        ENHANCED_PACKET => Ok(Content::Packet(packet(body, little, interfaces)?)),
        _ => Ok(Content::Other),
    }
}

// A block with which no section begins.
fn other<'a>(bytes: &'a [u8], little: bool, interfaces: &[Interface]) -> Result<Block<'a>, BlockWhy>
    requires { 12 ≤ length bytes.now }
    ensures value { block_or_refused result ≡ other_of little interfaces.now bytes.now }
    ensures some { IfOk result (λ block. 12 ≤ block.size) }
    ensures within { IfOk result (λ block. block.size ≤ length bytes.now) }
{
    let kind = word(bytes, little);
    let Some(size) = size(bytes, little, least(kind)) else {
        return Err(BlockWhy::Cut);
    };
    let content = content(kind, &bytes[HEAD..size - TAIL], little, interfaces)?;
    Ok(Block { size, content })
}

/// The block that the bytes begin with, in a section whose numbers are lowest byte first where `little` is set, and that has these
/// interfaces so far. The block with which a section begins has an order of its own.
///
/// # Errors
///
/// `Cut` where there are fewer than 12 bytes. `Magic` where a section begins, and no order of bytes is told. `Cut` where the block's
/// length is under the least of its type, is no multiple of 4, or is more than the bytes have, or where the last four bytes are not
/// this length. `OldPacket` at types 2 and 3, and of an interface `Option`. Of a packet `NoInterface`, then `Cut` where its bytes with
/// their padding have no place, then `LinkType`.
pub fn block<'a>(
    bytes: &'a [u8],
    little: bool,
    interfaces: &[Interface],
) -> Result<Block<'a>, BlockWhy>
    ensures value { block_or_refused result ≡ block_of little interfaces.now bytes.now }
    ensures some { IfOk result (λ block. 12 ≤ block.size) }
    ensures within { IfOk result (λ block. block.size ≤ length bytes.now) }
{
    if bytes.len() < HEAD + TAIL {
        return Err(BlockWhy::Cut);
    }
    if bytes.starts_with(&SECTION) {
        return section(bytes);
    }
    other(bytes, little, interfaces)
}
