// Lines of frames, of sections of commands, and of sections of data.
ghost use Rattle.std.specs.Prelude.{◌≡◌, ◌+◌, ◌≤◌, ◌<◌, IfSome};
ghost use Rattle.pictures.specs.Arrivals.{IsMargin};
ghost use Rattle.pictures.specs.Forms.{way_in, has_section, is_verdict, is_data_verdict, is_uplink, verdict_place, has_command_numbers, margin_in, margins_at, command_in, data_in};

use crate::arrivals::Margins;
use crate::numbers::{after, digit, integer, is_id, is_mask, keyed, numeral};
use line_words::{KEPT, Words};

/// Which way frames go.
#[derive(Clone, Copy, Debug, PartialEq, Eq)]
pub enum Way {
    Down,
    Up,
}

/// A section of a command: whether it is of the uplink, and its margins, where it is counted.
#[derive(Clone, Copy, Debug, PartialEq, Eq)]
pub(crate) struct Command {
    pub uplink: bool,
    pub mismatch: bool,
    pub margins: Margins,
}

/// The way of a frame line: `frame NUM (dl|ul)` and any words.
pub(crate) fn way_in(words: &Words<'_>) -> Option<Way>
    ensures { result ≡ way_in words.now }
{
    numeral(words.word(1), 0, u64::MAX)?;
    if words.word(2) == b"dl".as_slice() {
        return Some(Way::Down);
    }
    if words.word(2) == b"ul".as_slice() {
        return Some(Way::Up);
    }
    None
}

/// Whether arrival, endpoint, frame, subframe, slot, symbol, section and PRBs have their forms, as both kinds of section have them.
fn has_section(words: &Words<'_>) -> bool
    ensures { result ≡ has_section words.now }
{
    numeral(words.word(1), 0, u64::MAX).is_some()
        && is_id(words.word(2))
        && integer(words.word(3)).is_some()
        && digit(words.word(4)).is_some()
        && numeral(words.word(5), 0, u64::MAX).is_some()
        && numeral(words.word(6), 0, u64::MAX).is_some()
        && keyed(b"section=", words.word(7), 0, u64::MAX).is_some()
        && keyed(b"prb=", words.word(8), 0, u64::MAX).is_some()
        && keyed(b"num=", words.word(9), 0, u64::MAX).is_some()
}

/// Whether a word says what became of a section of a command.
fn is_verdict(word: &[u8]) -> bool
    ensures { result ≡ is_verdict word.now }
{
    word == b"mismatch".as_slice()
        || word == b"late".as_slice()
        || word == b"early".as_slice()
        || word == b"range".as_slice()
        || word == b"repeat".as_slice()
        || word == b"overlap".as_slice()
        || word == b"full".as_slice()
        || word == b"accepted".as_slice()
}

/// Whether a word says what became of a section of data.
fn is_data_verdict(word: &[u8]) -> bool
    ensures { result ≡ is_data_verdict word.now }
{
    word == b"late".as_slice()
        || word == b"early".as_slice()
        || word == b"repeat".as_slice()
        || word == b"taken".as_slice()
}

/// The signed number after a key.
fn margin_in(key: &[u8], word: &[u8]) -> Option<i64>
    ensures value { result ≡ margin_in key.now word.now }
    ensures within { IfSome result (λ z. IsMargin z) }
{
    integer(after(key, word))
}

/// The margins in the words from an index on.
fn margins_at(words: &Words<'_>, at: usize) -> Option<Margins>
    requires { at + 1 < KEPT }
    ensures value { result ≡ margins_at words.now at }
    ensures since { IfSome result (λ m. IsMargin m.since) }
    ensures until { IfSome result (λ m. IsMargin m.until) }
{
    let since = margin_in(b"since=", words.word(at))?;
    let until = margin_in(b"until=", words.word(at + 1))?;
    Some(Margins { since, until })
}

/// Whether a section of a command is of the uplink.
fn is_uplink(words: &Words<'_>) -> bool
    ensures { result ≡ is_uplink words.now }
{
    words.word(12) == b"uplink".as_slice()
}

/// The index of the verdict of a section of a command: after `uplink` and `idle`, which may be missing.
fn verdict_place(words: &Words<'_>) -> usize
    ensures value { result ≡ verdict_place words.now }
    ensures within { result ≤ 14 }
{
    let at = if is_uplink(words) { 13 } else { 12 };
    if words.word(at) == b"idle".as_slice() {
        at + 1
    } else {
        at
    }
}

/// Whether the numbers of a section of a command have their forms.
fn has_command_numbers(words: &Words<'_>) -> bool
    ensures { result ≡ has_command_numbers words.now }
{
    has_section(words)
        && keyed(b"symbols=", words.word(10), 0, u64::MAX).is_some()
        && is_mask(words.word(11))
}

/// A section of a command.
pub(crate) fn command_in(words: &Words<'_>) -> Option<Command>
    ensures value { result ≡ command_in words.now }
    ensures since { IfSome result (λ c. IsMargin c.margins.since) }
    ensures until { IfSome result (λ c. IsMargin c.margins.until) }
{
    let at = verdict_place(words);
    if !has_command_numbers(words) || !is_verdict(words.word(at)) {
        return None;
    }
    let margins = margins_at(words, at + 1)?;
    Some(Command {
        uplink: is_uplink(words),
        mismatch: words.word(at) == b"mismatch".as_slice(),
        margins,
    })
}

/// The margins of a section of data.
pub(crate) fn data_in(words: &Words<'_>) -> Option<Margins>
    ensures value { result ≡ data_in words.now }
    ensures since { IfSome result (λ m. IsMargin m.since) }
    ensures until { IfSome result (λ m. IsMargin m.until) }
{
    if !has_section(words) || !is_data_verdict(words.word(10)) {
        return None;
    }
    margins_at(words, 11)
}
