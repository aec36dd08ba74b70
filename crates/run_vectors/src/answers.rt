// The answer to a line of the table.
ghost use Rattle.std.specs.Prelude.{◌≡◌, Ok, IfOk, IfSome};
ghost use Rattle.hex.specs.Hex.{decode_of};

use crate::cases::Case;
use crate::entries::{Call, Entry, Form, Kind, Piece, read_entry};
use crate::running::{export, run};
use crate::texts::{digest_text, ran_text};
use fh_base::{Bytes, List, NoMemory};
use hex::FromHexError;
use std::alloc::Global;

/// What a line is answered by.
#[derive(Drop)]
pub enum Answer {
    /// A text, of one line or more.
    Text(String),
    /// Nothing, as it is part of an input.
    Nothing,
    /// The line is no entry.
    NoEntry,
}

/// What results from a line of the table.
pub fn answer_to(alloc: Global, case: &mut Case, line: &str) -> Result<Answer, NoMemory> {
    match read_entry(line) {
        Some(Entry::Remark) => return Ok(Answer::Text(String::from_str(alloc, line)?)),
        Some(Entry::Piece(piece)) => return add_piece(alloc, case, piece),
        Some(Entry::Last) => case.add_last()?,
        Some(Entry::Empty) => case.clear(),
        Some(Entry::Call(call)) => return answer_call(alloc, case, line, call),
        None => return Ok(Answer::NoEntry),
    }
    Ok(Answer::Nothing)
}

/// The text of a run over the input, whose output is kept in the case.
fn answer_call(
    alloc: Global,
    case: &mut Case,
    line: &str,
    call: Call<'_>,
) -> Result<Answer, NoMemory> {
    let Some(words) = words_of(alloc, call.words)? else {
        return Ok(Answer::NoEntry);
    };
    let input = case.use_input(alloc)?;
    let ran = match call.kind {
        Kind::Export => export(alloc, &words, input),
        Kind::Run | Kind::Digest => run(alloc, &words, input),
    };
    case.keep(ran.out.bytes())?;
    let text = match call.kind {
        Kind::Digest => digest_text(alloc, line, &ran)?,
        Kind::Run | Kind::Export => ran_text(alloc, line, &ran)?,
    };
    Ok(Answer::Text(text))
}

/// The input goes on with a piece.
fn add_piece(alloc: Global, case: &mut Case, piece: Piece<'_>) -> Result<Answer, NoMemory> {
    let mut bytes = Bytes::new(alloc);
    match piece.form {
        Form::Line => {
            bytes.push_all(piece.text.as_bytes())?;
            bytes.push_all(b"\n")?;
        }
        Form::Text => bytes.push_all(piece.text.as_bytes())?,
        Form::Digits => {
            let Some(spelled) = bytes_of(alloc, piece.text)? else {
                return Ok(Answer::NoEntry);
            };
            bytes.push_all(spelled.as_slice())?;
        }
    }
    case.add(piece.times, bytes.as_slice())?;
    Ok(Answer::Nothing)
}

/// The bytes that digits spell, two each. None where they spell none.
fn bytes_of(alloc: Global, digits: &str) -> Result<Option<Vec<u8>>, NoMemory>
    ensures { IfOk result (λ found. IfSome found (λ bytes. decode_of digits.now ≡ Ok bytes.items)) }
{
    match hex::decode(alloc, digits) {
        Ok(bytes) => Ok(Some(bytes)),
        Err(FromHexError::OutOfMemory) => Err(NoMemory),
        Err(_) => Ok(None),
    }
}

/// The words of a run, which are between blanks: each as it is, or after a `=` as hexadecimal digits. None where one
/// is no such word.
fn words_of(alloc: Global, text: &str) -> Result<Option<List<Bytes>>, NoMemory> {
    let mut words = List::new(alloc);
    for word in text.split_whitespace() {
        let mut bytes = Bytes::new(alloc);
        match word.strip_prefix('=') {
            None => bytes.push_all(word.as_bytes())?,
            Some(digits) => {
                let Some(spelled) = bytes_of(alloc, digits)? else {
                    return Ok(None);
                };
                bytes.push_all(spelled.as_slice())?;
            }
        }
        words.push(bytes)?;
    }
    Ok(Some(words))
}
