// The answer to a line.
use crate::blocks::{
    block_text, exponents_text, read_block, read_exponent, read_method, read_single, unpacked_text,
};
use crate::control::{message_text, read_shape};
use crate::fragments::{Fragments, read_fragment, read_hold, read_sequence, sequence_text};
use crate::frames::{frame_text, header_text, messages_text};
use crate::hexadecimal::bytes_of;
use crate::numerologies::{numerology_text, read_spelled, slots_text};
use crate::times::{following, read_frame, read_prbs, read_slot, read_symbol, start};
use std::alloc::{AllocError, Global};
use std::str::SplitWhitespace;

/// What the crates say of a line; a line without words and one that begins with `#` as it is. None where it is no entry.
pub fn answer(
    alloc: Global,
    fragments: &mut Fragments,
    line: &str,
) -> Result<Option<String>, AllocError> {
    let mut words = line.split_whitespace();
    let Some(keyword) = words.next() else {
        return Ok(Some(String::new(alloc)));
    };
    if line.starts_with('#') {
        return Ok(Some(String::from_str(alloc, line)?));
    }
    match keyword {
        "symbol" => symbol_answer(alloc, &mut words),
        "numerology" => numerology_answer(alloc, &mut words),
        "slots" => slots_answer(alloc, &mut words),
        "after" => after_answer(alloc, &mut words),
        "frame" => frame_answer(alloc, &mut words),
        "prbs" => prbs_answer(alloc, &mut words),
        "header" => header_answer(alloc, &mut words),
        "messages" => messages_answer(alloc, &mut words),
        "pdu" => pdu_answer(alloc, &mut words),
        "control" => control_answer(alloc, &mut words),
        "sequence" => sequence_answer(alloc, &mut words),
        "hold" => hold_answer(alloc, fragments, &mut words),
        "fragment" => fragment_answer(alloc, fragments, &mut words),
        "block" => block_answer(alloc, &mut words),
        "single" => single_answer(alloc, &mut words),
        "unpack" => unpack_answer(alloc, &mut words),
        "exponent" => exponent_answer(alloc, &mut words),
        _ => Ok(None),
    }
}

type Answer = Result<Option<String>, AllocError>;

fn symbol_answer(alloc: Global, words: &mut SplitWhitespace<'_>) -> Answer {
    let Some(named) = read_symbol(words) else {
        return Ok(None);
    };
    let text = match start(&named) {
        Some(at) => format!(in alloc; "symbol {}", at.0)?,
        None => String::from_str(alloc, "symbol none")?,
    };
    Ok(Some(text))
}

fn numerology_answer(alloc: Global, words: &mut SplitWhitespace<'_>) -> Answer {
    let Some(spelled) = read_spelled(words) else {
        return Ok(None);
    };
    let text = numerology_text(alloc, spelled)?;
    Ok(Some(format!(in alloc; "numerology {text}")?))
}

fn slots_answer(alloc: Global, words: &mut SplitWhitespace<'_>) -> Answer {
    let Some(spelled) = read_spelled(words) else {
        return Ok(None);
    };
    let text = slots_text(alloc, spelled)?;
    Ok(Some(format!(in alloc; "slots {text}")?))
}

fn after_answer(alloc: Global, words: &mut SplitWhitespace<'_>) -> Answer {
    let Some(named) = read_slot(words) else {
        return Ok(None);
    };
    let text = match following(&named) {
        Some(next) => { format!(in alloc; "after {} {} {}", next.frame, next.subframe, next.slot)? }
        None => String::from_str(alloc, "after none")?,
    };
    Ok(Some(text))
}

fn frame_answer(alloc: Global, words: &mut SplitWhitespace<'_>) -> Answer {
    match read_frame(words) {
        Some(number) => Ok(Some(format!(in alloc; "frame {number}")?)),
        None => Ok(None),
    }
}

fn prbs_answer(alloc: Global, words: &mut SplitWhitespace<'_>) -> Answer {
    let text = match read_prbs(words) {
        Some(Some((first, count))) => format!(in alloc; "prbs {first} {count}")?,
        Some(None) => String::from_str(alloc, "prbs none")?,
        None => return Ok(None),
    };
    Ok(Some(text))
}

/// The bytes that the last word spells.
fn last_bytes(
    alloc: Global,
    words: &mut SplitWhitespace<'_>,
) -> Result<Option<Vec<u8>>, AllocError> {
    let Some(word) = words.next() else {
        return Ok(None);
    };
    if words.next().is_some() {
        return Ok(None);
    }
    bytes_of(alloc, word)
}

fn header_answer(alloc: Global, words: &mut SplitWhitespace<'_>) -> Answer {
    let Some(bytes) = last_bytes(alloc, words)? else {
        return Ok(None);
    };
    match header_text(alloc, bytes.as_slice())? {
        Some(text) => Ok(Some(format!(in alloc; "header {text}")?)),
        None => Ok(None),
    }
}

fn messages_answer(alloc: Global, words: &mut SplitWhitespace<'_>) -> Answer {
    let Some(bytes) = last_bytes(alloc, words)? else {
        return Ok(None);
    };
    let text = messages_text(alloc, bytes.as_slice())?;
    Ok(Some(format!(in alloc; "messages {text}")?))
}

fn pdu_answer(alloc: Global, words: &mut SplitWhitespace<'_>) -> Answer {
    let Some(bytes) = last_bytes(alloc, words)? else {
        return Ok(None);
    };
    let text = frame_text(alloc, bytes.as_slice())?;
    Ok(Some(format!(in alloc; "pdu {text}")?))
}

fn control_answer(alloc: Global, words: &mut SplitWhitespace<'_>) -> Answer {
    let Some(shape) = read_shape(words) else {
        return Ok(None);
    };
    let Some(bytes) = last_bytes(alloc, words)? else {
        return Ok(None);
    };
    let text = message_text(alloc, shape, bytes.as_slice())?;
    Ok(Some(format!(in alloc; "control {text}")?))
}

fn sequence_answer(alloc: Global, words: &mut SplitWhitespace<'_>) -> Answer {
    let Some(field) = read_sequence(words) else {
        return Ok(None);
    };
    let text = sequence_text(alloc, field)?;
    Ok(Some(format!(in alloc; "sequence {text}")?))
}

fn hold_answer(
    alloc: Global,
    fragments: &mut Fragments,
    words: &mut SplitWhitespace<'_>,
) -> Answer {
    let Some(ticks) = read_hold(words) else {
        return Ok(None);
    };
    *fragments = Fragments::make(alloc, ticks)?;
    Ok(Some(format!(in alloc; "hold {}", ticks.0)?))
}

fn fragment_answer(
    alloc: Global,
    fragments: &mut Fragments,
    words: &mut SplitWhitespace<'_>,
) -> Answer {
    let Some(fragment) = read_fragment(words) else {
        return Ok(None);
    };
    let text = fragments.take(alloc, &fragment)?;
    Ok(Some(format!(in alloc; "fragment {text}")?))
}

fn block_answer(alloc: Global, words: &mut SplitWhitespace<'_>) -> Answer {
    let Some(block) = read_block(words) else {
        return Ok(None);
    };
    let text = block_text(alloc, &block)?;
    Ok(Some(format!(in alloc; "block {text}")?))
}

fn single_answer(alloc: Global, words: &mut SplitWhitespace<'_>) -> Answer {
    let Some(block) = read_single(words) else {
        return Ok(None);
    };
    let text = block_text(alloc, &block)?;
    Ok(Some(format!(in alloc; "single {text}")?))
}

fn unpack_answer(alloc: Global, words: &mut SplitWhitespace<'_>) -> Answer {
    let Some(method) = read_method(words) else {
        return Ok(None);
    };
    let Some(bytes) = last_bytes(alloc, words)? else {
        return Ok(None);
    };
    match unpacked_text(alloc, method, bytes.as_slice())? {
        Some(text) => Ok(Some(format!(in alloc; "unpack{text}")?)),
        None => Ok(None),
    }
}

fn exponent_answer(alloc: Global, words: &mut SplitWhitespace<'_>) -> Answer {
    let Some((width, number)) = read_exponent(words) else {
        return Ok(None);
    };
    let text = exponents_text(alloc, width, number)?;
    Ok(Some(format!(in alloc; "exponent{text}")?))
}
