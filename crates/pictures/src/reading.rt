// A text, line by line.
ghost use Rattle.std.specs.Prelude.{◌≡◌, ◌==◌, ◌||◌, true};
ghost use Rattle.line_words.specs.Words.{is_text, words_of};
ghost use Rattle.pictures.specs.Text.{start, has_id, endpoint_line, cell_line, used_line, later_line, words_line, is_used, line_of, grid_of, Refuses, Answers};

use crate::cells::{cell_of, is_cell_word, is_why_word, names_cells};
use crate::endpoints::endpoint_in;
use crate::faults::{TextRefusal, TextWhy};
use crate::lines::{head_line, is_end};
use crate::list::{Endpoints, MOST_ENDPOINTS, with_id};
use line_words::{Words, are_texts, cut, first_word, is_text_in, without_last_feed};

/// What the lines so far say.
#[derive(Drop)]
struct Reading {
    endpoints: Endpoints,
    /// Whether a line of cells was there.
    begun: bool,
    /// Whether the end was there.
    ended: bool,
}

fn start() -> Reading
    ensures { result ≡ start }
{
    Reading {
        endpoints: Endpoints::new(),
        begun: false,
        ended: false,
    }
}

fn has_id(endpoints: &Endpoints, id: &[u8]) -> bool
    ensures { result ≡ has_id endpoints.now id.now }
{
    with_id(endpoints.as_slice(), id).is_some()
}

fn endpoint_line(reading: &mut Reading, words: &Words<'_>) -> Result<(), TextWhy>
    ensures { Refuses (endpoint_line reading.old words.now) result reading.new }
{
    if reading.begun {
        return Err(TextWhy::Line);
    }
    match endpoint_in(words) {
        None => Err(TextWhy::Line),
        Some(e) => {
            if reading.endpoints.as_slice().len() >= MOST_ENDPOINTS
                || has_id(&reading.endpoints, words.word(1))
            {
                return Err(TextWhy::Line);
            }
            reading.endpoints.push(e);
            Ok(())
        }
    }
}

fn cell_line(reading: &mut Reading, words: &Words<'_>) -> Result<(), TextWhy>
    ensures { Refuses (cell_line reading.old words.now) result reading.new }
{
    if cell_of(reading.endpoints.as_slice(), words).is_none() {
        return Err(TextWhy::Line);
    }
    reading.begun = true;
    Ok(())
}

fn used_line(reading: &mut Reading, words: &Words<'_>) -> Result<(), TextWhy>
    ensures { Refuses (used_line reading.old words.now) result reading.new }
{
    if words.word(0) == b"endpoint".as_slice() {
        return endpoint_line(reading, words);
    }
    if is_cell_word(words) || is_why_word(words) {
        return cell_line(reading, words);
    }
    Ok(())
}

fn later_line(reading: &mut Reading, words: &Words<'_>) -> Result<(), TextWhy>
    ensures { Refuses (later_line reading.old words.now) result reading.new }
{
    if reading.ended {
        return Err(TextWhy::End);
    }
    if is_end(words) {
        reading.ended = true;
        return Ok(());
    }
    used_line(reading, words)
}

fn words_line(reading: &mut Reading, n: usize, words: &Words<'_>) -> Result<(), TextWhy>
    ensures { Refuses (words_line reading.old n words.now) result reading.new }
{
    if n == 1 {
        return head_line(words);
    }
    later_line(reading, words)
}

/// Whether a line that begins with a word is used, or may be the end. All others are passed over by their first word.
#[inline]
fn is_used(word: &[u8]) -> bool
    ensures { result ≡ is_used word.now }
{
    names_cells(word) || word == b"endpoint".as_slice() || word == b"end".as_slice()
}

/// A printable line, with its words.
fn split_line(reading: &mut Reading, n: usize, line: &[u8]) -> Result<(), TextWhy>
    ensures { Refuses (words_line reading.old n (words_of line.now)) result reading.new }
{
    words_line(reading, n, &Words::of(line))
}

/// A line of a text of which it may be known that all lines are printable.
#[tactic(auto, unfolding(crate::specs::Text::line_of))]
fn read_line(reading: &mut Reading, n: usize, line: &[u8], plain: bool) -> Result<(), TextWhy>
    requires { plain ≡ true → is_text line.now ≡ true }
    ensures { Refuses (line_of reading.old n line.now) result reading.new }
{
    if !is_text_in(plain, line) {
        return Err(TextWhy::NotText);
    }
    if n > 1 && !reading.ended && !is_used(first_word(line)) {
        return Ok(());
    }
    split_line(reading, n, line)
}

/// Tests the lines of a text that `explain` wrote, and answers its endpoints.
///
/// # Errors
///
/// The first line that is refused, with the first reason that holds there; where the end is missing, the line after the last.
pub fn read_grid(text: &[u8]) -> Result<Endpoints, TextRefusal>
    ensures { Answers (grid_of text.now) result }
{
    let mut reading = start();
    if text.is_empty() {
        return Err(TextRefusal {
            line: 1,
            why: TextWhy::Head,
        });
    }
    let mut n: usize = 1;
    let lines = without_last_feed(text);
    let plain = are_texts(lines);
    let mut rest = Some(lines);
    'lines: while let Some(piece) = rest {
        let (line, behind) = cut(b'\n', piece);
        match read_line(&mut reading, n, line, plain) {
            Ok(()) => {}
            Err(why) => return Err(TextRefusal { line: n, why }),
        }
        n += 1;
        rest = behind;
    }
    if !reading.ended {
        return Err(TextRefusal {
            line: n,
            why: TextWhy::End,
        });
    }
    Ok(reading.endpoints)
}
