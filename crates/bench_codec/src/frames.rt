// Messages of data, written as frames.
ghost use Rattle.std.specs.Prelude.{◌≡◌, ◌≤◌, ◌<◌, length};
ghost use Rattle.bfp_codec.specs.Layout.{HasWidth};
ghost use Rattle.frame_bytes.specs.Messages.{MessageFits, message_size};

use crate::blocks::{BLOCKS, blocks, method_of};
use crate::words::Ending;
use bfp_codec::{Format, Iq, Method};
use ecpri_fragments::SeqField;
use frame_bytes::{Carrier, DataMessage, DataSection, Span, message_size, piece};
use std::io;
use uplane_sections::UHead;

/// Writes the frames of a message, and adds up a byte of each.
fn write_all(
    message: &DataMessage<'_>,
    blocks: &[[Iq; 12]; BLOCKS],
    size: usize,
    fragment: u16,
    room: &mut [u8],
) -> u64
    requires fits { MessageFits message.now.carrier message.now.head message.now.sections.now }
    requires size { size ≡ message_size message.now.carrier message.now.sections.now }
    requires room { 17000 ≤ length room.old }
{
    let source = |_: usize, prb: u16| blocks[(prb % 64) as usize];
    let mut sum: u64 = 0;
    for sub in 0..128u8 {
        let from = (sub as usize * fragment as usize).min(size);
        let to = (from + fragment as usize).min(size);
        if from < to {
            let seq = SeqField {
                seq: 7,
                last: to == size,
                sub,
            };
            let end = piece(1, seq, message, &source, Span { from, to }, room);
            sum = sum.wrapping_add(room[end - 1] as u64);
        }
    }
    sum
}

/// The frames of this many messages.
fn messages(method: Method, fragment: u16, count: u64) -> u64
    requires { HasWidth method }
{
    let blocks = blocks();
    let sections = [DataSection {
        id: 1,
        start_prb: 0,
        num_prb: 106,
    }];
    let message = DataMessage {
        carrier: Carrier {
            format: Format {
                dynamic: false,
                method,
            },
            prbs: 106,
        },
        head: UHead {
            down: true,
            filter: 0,
            frame_id: 1,
            subframe: 0,
            slot: 0,
            symbol: 0,
        },
        sections: &sections,
    };
    let size = message_size(&message.carrier, &sections);
    let mut room = [0; 17000];
    let mut sum: u64 = 0;
    if size <= 16384 {
        for _ in 0..count {
            sum = sum.wrapping_add(write_all(&message, &blocks, size, fragment, &mut room));
        }
    }
    sum
}

/// How many messages are sent, with mantissas of so many bits (0: not compressed), cut at so many bytes.
#[derive(Clone, Copy)]
struct Load {
    width: u8,
    fragment: u16,
    count: u64,
    ghost few: { width ≤ 16 },
}

impl Load {
    fn of(words: &[&str]) -> Option<Load> {
        let [width, fragment, count] = *words else {
            return None;
        };
        let width = width.parse::<u8>().ok()?;
        if width > 16 {
            return None;
        }
        Some(Load {
            width,
            fragment: fragment.parse::<u16>().ok()?,
            count: count.parse::<u64>().ok()?,
        })
    }
}

/// `WIDTH FRAGMENT COUNT`: writes the frames of COUNT messages of 106 PRBs, and prints a checksum of their last bytes.
pub fn run(rt: &impl Print, words: &[&str]) -> io::Result<Ending> {
    let Some(load) = Load::of(words) else {
        return Ok(Ending::BadWords);
    };
    let sum = messages(method_of(load.width), load.fragment, load.count);
    println!(rt; "{} {} {} {sum}", load.width, load.fragment, load.count)?;
    Ok(Ending::Done)
}
