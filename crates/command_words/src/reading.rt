// Words, read.
ghost use Rattle.std.specs.Prelude.{◌≡◌, ◌<◌, map, length, IfOk, IsSome, MatchOption};
ghost use Rattle.std.specs.Str.{IsUtf8};
ghost use Rattle.clap.specs.Words.{kind_of};
ghost use Rattle.command_words.specs.Answered.{AnswersWords};
ghost use Rattle.command_words.specs.Words.{IsProper, command_of};
ghost use Rattle.fh_base.specs.Numbers.{word_at};

use crate::commands::Command;
use crate::faults::WordsFault;
use crate::forms::{command_in, spelled};
use crate::parsing::matches_in;
use clap::Error;
use clap::error::ErrorKind;
use fh_base::{Bytes, List};
use std::alloc::Global;
use std::str;

/// The most words of a command.
const MOST_WORDS: usize = 5;

/// The command that the words are.
///
/// They are tested before they are parsed, by what takes no memory, and what the parse finds is tested again.
///
/// # Errors
///
/// [`WordsFault::BadWords`] exactly where the words are no command. [`WordsFault::NoMemory`] where memory runs out while words that
/// are one are parsed.
pub fn read_words(alloc: Global, words: &List<Bytes>) -> Result<Command, WordsFault>
    ensures answers { AnswersWords (command_of words.now) result }
    ensures proper { IfOk result IsProper }
{
    if words.len() > MOST_WORDS {
        return Err(WordsFault::BadWords);
    }
    let mut texts = [""; MOST_WORDS];
    for i in 0..words.len() {
        match text_at(words, i) {
            Some(text) => texts[i] = text,
            None => return Err(WordsFault::BadWords),
        }
    }
    let texts = &texts[..words.len()];
    if command_in(texts).is_none() {
        return Err(WordsFault::BadWords);
    }
    parsed(alloc, texts)
}

/// The word with this index, where it is text.
fn text_at(words: &List<Bytes>, i: usize) -> Option<&str>
    requires { i < length words.now }
    ensures { MatchOption result (¬ (IsUtf8 (word_at words.now i))) (λ text. text.now ≡ word_at words.now i) }
{
    let word = words.get(i)?;
    str::from_utf8(word.as_slice()).ok()
}

/// The command that these words are, by what `clap` finds among them.
fn parsed<'a>(alloc: Global, words: &'a [&'a str]) -> Result<Command, WordsFault>
    requires { IsSome (command_of (map (λ w. w.now) words.now)) }
    ensures answers { AnswersWords (command_of (map (λ w. w.now) words.entry.now)) result }
    ensures proper { IfOk result IsProper }
{
    let matches = match matches_in(alloc, words) {
        Ok(matches) => matches,
        Err(error) => return Err(fault_of(&error)),
    };
    spelled(
        matches.get_flag("json"),
        matches.get_flag("faults"),
        matches.get_str("word"),
        matches.get_str("first"),
        matches.get_str("second"),
        matches.get_str("third"),
        matches.get_str("fourth"),
    )
    .ok_or(WordsFault::BadWords)
}

/// What a parse that failed is answered.
fn fault_of(error: &Error) -> WordsFault
    ensures { kind_of error.now ≡ ErrorKind.OutOfMemory → result ≡ WordsFault.NoMemory }
{
    match error.kind() {
        ErrorKind::OutOfMemory => WordsFault::NoMemory,
        _ => WordsFault::BadWords,
    }
}
