// What the callers say of a line.
ghost use Rattle.std.specs.Prelude.{◌≡◌, ◌^◌, ◌≤ℤ◌, IfOk, IfSome, IsErr, MatchOption, neg_ℤ, pos};
ghost use Rattle.hex.specs.Hex.{decode_of};

use crate::captures::last_seen;
use crate::commands::section_count;
use crate::data::samples_of;
use crate::delays::delay;
use crate::fragments::completed;
use crate::frames::message_count;
use crate::samples::received;
use crate::windows::data_class;
use air_source::Side;
use bfp_codec::{Format, Iq, Method, Wide};
use delay_measure::{Edge, Kind, Meter};
use ecpri_fragments::{Assembly, SeqField, Taken};
use fh_base::{Shape, Ticks};
use hex::FromHexError;
use pcap_frames::Whose;
use std::alloc::{AllocError, Global};
use std::str::SplitWhitespace;
use window_config::Delays;

type Answer = Result<String, AllocError>;

/// Slots of 14 symbols, two in a subframe.
const SHAPE: Shape = Shape {
    symbols: 14,
    slots: 2,
};

/// A nanosecond in ticks.
const NANOSECOND: i64 = 1_536;

/// The answer to `KEYWORD HEX..`; the line itself where it is none.
pub fn answer(alloc: Global, line: &str) -> Answer {
    let mut words = line.split_whitespace();
    let keyword = words.next().unwrap_or("");
    if keyword == "window" {
        return window_text(alloc, line, &mut words);
    }
    let Some(bytes) = bytes_of(alloc, words.next().unwrap_or(""))? else {
        return String::from_str(alloc, line);
    };
    let more = bytes_of(alloc, words.next().unwrap_or(""))?;
    let bytes = bytes.as_slice();
    match (keyword, more) {
        ("samples", _) => samples_text(alloc, bytes),
        ("frame", _) => frame_text(alloc, bytes),
        ("fragments", Some(second)) => fragments_text(alloc, bytes, second.as_slice()),
        ("command", _) => command_text(alloc, bytes),
        ("data", _) => data_text(alloc, bytes),
        ("delay", _) => delay_text(alloc, bytes),
        ("capture", _) => capture_text(alloc, bytes),
        _ => String::from_str(alloc, line),
    }
}

/// The bytes that a word spells, two hexadecimal digits each. None where it is no such word.
fn bytes_of(alloc: Global, word: &str) -> Result<Option<Vec<u8>>, AllocError>
    ensures { IfOk result (λ found. MatchOption found (IsErr (decode_of word.now)) (λ bytes. decode_of word.now ≡ Ok bytes.items)) }
{
    match hex::decode(alloc, word) {
        Ok(bytes) => Ok(Some(bytes)),
        Err(FromHexError::OutOfMemory) => Err(AllocError),
        Err(_) => Ok(None),
    }
}

/// A PRB as it is received at 9 bits; each number has two bytes.
fn samples_text(alloc: Global, bytes: &[u8]) -> Answer {
    let mut block = [Iq { i: 0, q: 0 }; 12];
    for (k, pair) in bytes.chunks(4).enumerate() {
        if k < 12 && pair.len() == 4 {
            block[k] = Iq {
                i: i16::from_be_bytes([pair[0], pair[1]]),
                q: i16::from_be_bytes([pair[2], pair[3]]),
            };
        }
    }
    block_text(alloc, &received(&block, 9))
}

fn block_text(alloc: Global, block: &[Wide; 12]) -> Answer {
    let mut text = String::from_str(alloc, "samples")?;
    for sample in block {
        text.push_str(format!(in alloc; " {} {}", sample.i, sample.q)?.as_str())?;
    }
    Ok(text)
}

fn frame_text(alloc: Global, bytes: &[u8]) -> Answer {
    match message_count(bytes) {
        Ok(count) => format!(in alloc; "frame {count}"),
        Err(refusal) => format!(in alloc; "frame {}", refusal),
    }
}

/// Two fragments of one endpoint, each begun by its sequence field.
fn fragments_text(alloc: Global, first: &[u8], second: &[u8]) -> Answer {
    let Ok(mut assembly) = Assembly::make(alloc, 1, Ticks(0)) else {
        return Err(AllocError);
    };
    let before = completed(&mut assembly, 0, Ticks(0), field_of(first), rest_of(first));
    let after = completed(
        &mut assembly,
        0,
        Ticks(0),
        field_of(second),
        rest_of(second),
    );
    format!(in alloc; "fragments {:?} {:?}", before, after)
}

fn field_of(bytes: &[u8]) -> [u8; 2] {
    match bytes {
        [a, b, ..] => [*a, *b],
        _ => [0, 0],
    }
}

fn rest_of(bytes: &[u8]) -> &[u8] {
    bytes.get(2..).unwrap_or(&[])
}

fn command_text(alloc: Global, bytes: &[u8]) -> Answer {
    match section_count(bytes, SHAPE) {
        Ok(count) => format!(in alloc; "command {count}"),
        Err(refusal) => format!(in alloc; "command {}", refusal),
    }
}

/// PRB 2 of a message of one fragment, with mantissas of 9 bits, on a carrier of 106 PRBs.
fn data_text(alloc: Global, bytes: &[u8]) -> Answer {
    let Ok(mut assembly) = Assembly::make(alloc, 1, Ticks(0)) else {
        return Err(AllocError);
    };
    let only = SeqField {
        seq: 0,
        last: true,
        sub: 0,
    };
    let format = Format {
        dynamic: false,
        method: Method::Bfp(9),
    };
    let Taken::Whole(lease) = assembly.take(0, Ticks(0), only, bytes) else {
        return String::from_str(alloc, "data too long");
    };
    match samples_of(&lease, format, 106, SHAPE, 2) {
        Ok(Some(block)) => block_text(alloc, &block),
        Ok(None) => String::from_str(alloc, "data none"),
        Err(refusal) => format!(in alloc; "data {}", refusal),
    }
}

/// The class of what was received from one time to another, for a symbol at a third, in nanoseconds.
fn window_text(alloc: Global, line: &str, words: &mut SplitWhitespace<'_>) -> Answer {
    match (time(words), time(words), time(words)) {
        (Some(first), Some(last), Some(symbol)) => {
            match data_class(&Delays::usual(), first, last, symbol) {
                Ok(class) => format!(in alloc; "window {:?}", class),
                Err(failing) => format!(in alloc; "window {}", failing),
            }
        }
        _ => String::from_str(alloc, line),
    }
}

/// A time in nanoseconds.
fn time(words: &mut SplitWhitespace<'_>) -> Option<Ticks>
    ensures low { IfSome result (λ time. neg_ℤ (pos (2 ^ 56)) ≤ℤ time.0) }
    ensures high { IfSome result (λ time. time.0 ≤ℤ pos (2 ^ 56)) }
{
    let ns = words.next()?.parse::<u32>().ok()?;
    Some(Ticks(ns as i64 * NANOSECOND))
}

/// The delay by a payload that is received after a Request of measurement 7 was sent at 1 ms, without compensation.
fn delay_text(alloc: Global, payload: &[u8]) -> Answer {
    let mut meter = Meter::keep(
        |_edge: Edge| -> i64
            ensures { result ≡ pos 0 }
        { 0 },
    );
    let _request = meter.begin(Ticks(1_000_000 * NANOSECOND), 7, Kind::One);
    let delay = delay(&mut meter, Ticks(2_000_000 * NANOSECOND), payload);
    format!(in alloc; "delay {:?}", delay)
}

fn capture_text(alloc: Global, file: &[u8]) -> Answer {
    match last_seen(alloc, file, Whose::All(Side::Ru), 5_000) {
        Ok(last) => format!(in alloc; "capture {:?}", last),
        Err(fault) => format!(in alloc; "capture {}", fault),
    }
}
