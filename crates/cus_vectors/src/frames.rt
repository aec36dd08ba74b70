// What an eCPRI frame tells in any pieces, and the messages of a frame that is held whole.
ghost use Rattle.std.specs.Prelude.{◌<◌};

use crate::hexadecimal::text_of;
use ecpri_frames::{Feed, Head, Pdu, PduRefusal, messages, pad_after, put_head, read_head};
use std::alloc::{AllocError, Global};

/// What a frame tells: the four bytes of each header, then its payload, and `ff` after a payload of at least one byte;
/// and its first fault, if it has one.
#[derive(Drop)]
struct Told {
    bytes: Vec<u8>,
    fault: Option<PduRefusal>,
}

/// What a frame tells that is given in two pieces cut at `cut`, each of them in pieces of at most `most` bytes.
fn tell(alloc: Global, frame: &[u8], cut: usize, most: usize) -> Result<Told, AllocError>
    requires { 0 < most }
{
    let mut pdu = Pdu::new();
    let mut bytes = Vec::new(alloc);
    let mut at = 0;
    while at < frame.len() {
        let stop = if at < cut && cut < frame.len() {
            cut
        } else {
            frame.len()
        };
        let len = most.min(stop - at);
        let step = pdu.feed(&frame[at..at + len]);
        match step.what {
            Feed::End => return Ok(Told { bytes, fault: None }),
            Feed::Refused(refusal) => {
                return Ok(Told {
                    bytes,
                    fault: Some(refusal),
                });
            }
            Feed::More => {}
            Feed::Message(head) => bytes.extend_from_slice(&put_head(head))?,
            Feed::Body { from, to, last } => {
                bytes.extend_from_slice(&frame[at + from..at + to])?;
                if last {
                    bytes.push(0xff)?;
                }
            }
        }
        at += step.used;
    }
    let fault = pdu.finish().err();
    Ok(Told { bytes, fault })
}

/// Whether two frames tell the same.
fn are_alike(one: &Told, other: &Told) -> bool {
    one.bytes.as_slice() == other.bytes.as_slice() && one.fault == other.fault
}

/// Whether a frame tells the same byte by byte, and cut into two pieces at any place.
fn is_alike_in_pieces(alloc: Global, frame: &[u8], whole: &Told) -> Result<bool, AllocError> {
    for cut in 0..frame.len() {
        if !are_alike(&tell(alloc, frame, cut, 65_536)?, whole) {
            return Ok(false);
        }
    }
    Ok(are_alike(&tell(alloc, frame, 0, 1)?, whole))
}

/// What a frame tells, its fault with the place, and whether it tells the same in any pieces.
pub fn frame_text(alloc: Global, frame: &[u8]) -> Result<String, AllocError> {
    let whole = tell(alloc, frame, 0, 65_536)?;
    let bytes = text_of(alloc, whole.bytes.as_slice())?;
    let pieces = if is_alike_in_pieces(alloc, frame, &whole)? {
        "alike in any pieces"
    } else {
        "other in some pieces"
    };
    match whole.fault {
        Some(refusal) => {
            format!(in alloc;
                "{bytes} {} {}, {pieces}",
                refusal.why.name(),
                refusal.place
            )
        }
        None => format!(in alloc; "{bytes} whole, {pieces}"),
    }
}

/// The flag, the type and the size of a header.
fn head_text(alloc: Global, head: Head) -> Result<String, AllocError> {
    format!(in alloc;
        "more {} type {} size {}",
        head.more as u8, head.kind, head.size
    )
}

/// The fields of a header, the padding that follows its payload where another message does, and the bytes to which it is
/// written. None where it has not four bytes.
pub fn header_text(alloc: Global, bytes: &[u8]) -> Result<Option<String>, AllocError> {
    let &[a, b, c, d] = bytes else {
        return Ok(None);
    };
    let head = read_head([a, b, c, d]);
    let fields = head_text(alloc, head)?;
    let written = text_of(alloc, &put_head(head))?;
    Ok(Some(format!(in alloc;
        "{fields} padding {} written {written}",
        pad_after(head.size)
    )?))
}

/// The messages of a frame, a line each: its place, its header and its payload; and the frame's fault.
pub fn messages_text(alloc: Global, frame: &[u8]) -> Result<String, AllocError> {
    let walk = messages(frame);
    let mut text = match walk.refusal() {
        Some(refusal) => format!(in alloc; "{} {}", refusal.why.name(), refusal.place)?,
        None => String::from_str(alloc, "whole")?,
    };
    for message in walk {
        let head = head_text(alloc, message.head)?;
        let payload = text_of(alloc, message.payload)?;
        text.push_str(format!(in alloc;
            "\n  at {} {head} payload {payload}",
            message.place
        )?.as_str())?;
    }
    Ok(text)
}
