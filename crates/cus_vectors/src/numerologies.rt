// Numerologies: their words, and what the crates say of them.
use crate::words::over;
use fh_base::{Numerology, code, least_slot, offsets, shape, span};
use std::alloc::{AllocError, Global};
use std::str::SplitWhitespace;

/// A numerology as an entry spells it, which there may not be.
#[derive(Clone, Copy)]
pub enum Spelled {
    /// `extended`: the extended cyclic prefix.
    Extended,
    /// A spacing code with the normal cyclic prefix.
    Ordinary(u8),
    /// `CODE:OFFSET:PREFIX`: an offset endpoint with its timeOffset and its cpLength.
    Offset(u8, u16, u16),
}

/// The numerology that a word spells.
fn of_word(word: &str) -> Option<Spelled> {
    if word == "extended" {
        return Some(Spelled::Extended);
    }
    let Some((code, rest)) = word.split_once(':') else {
        return Some(Spelled::Ordinary(word.parse::<u8>().ok()?));
    };
    let (offset, prefix) = rest.split_once(':')?;
    Some(Spelled::Offset(
        code.parse::<u8>().ok()?,
        offset.parse::<u16>().ok()?,
        prefix.parse::<u16>().ok()?,
    ))
}

fn made(spelled: Spelled) -> Option<Numerology> {
    match spelled {
        Spelled::Extended => Some(Numerology::extended()),
        Spelled::Ordinary(code) => Numerology::ordinary(code),
        Spelled::Offset(code, offset, prefix) => Numerology::offset(code, offset, prefix),
    }
}

/// The numerology that a word names. None where it spells none, or one that there is not.
pub fn numerology(word: &str) -> Option<Numerology> {
    made(of_word(word)?)
}

/// The word of an entry that has one.
pub fn read_spelled(words: &mut SplitWhitespace<'_>) -> Option<Spelled> {
    let spelled = of_word(words.next()?)?;
    over(words)?;
    Some(spelled)
}

/// A numerology's code, and its timeOffset and cpLength where it has them; `none` where there is no such numerology.
pub fn numerology_text(alloc: Global, spelled: Spelled) -> Result<String, AllocError> {
    let Some(n) = made(spelled) else {
        return String::from_str(alloc, "none");
    };
    let code = code(&n);
    match offsets(&n) {
        Some((offset, prefix)) => format!(in alloc; "code {code} offset {offset} prefix {prefix}"),
        None => format!(in alloc; "code {code}"),
    }
}

/// The symbols of a numerology's slots, the slots of its subframes, and in ticks the length of its shortest slot and a time
/// by which the last symbol of a slot has started; `none` where there is no such numerology.
pub fn slots_text(alloc: Global, spelled: Spelled) -> Result<String, AllocError> {
    let Some(n) = made(spelled) else {
        return String::from_str(alloc, "none");
    };
    let shape = shape(&n);
    let (symbols, slots) = (shape.symbols, shape.slots);
    let least = least_slot(&n).0;
    let span = span(&n).0;
    format!(in alloc; "symbols {symbols} slots {slots} shortest {least} span {span}")
}
