// A text, line by line, with its arrivals counted.
ghost use Rattle.std.specs.Prelude.{◌≡◌, ◌<◌, ◌≤◌, ◌++◌, List, length, true, IfSome, MatchResult};
ghost use Rattle.std.specs.Option.{option_to_list};
ghost use Rattle.fh_base.specs.declared.source.TheConstants.{INPUT_LIMIT};
ghost use Rattle.line_words.specs.Words.{is_text, words_of};
ghost use Rattle.pictures.specs.Arrivals.{IsMargin};
ghost use Rattle.pictures.specs.Rows.{rows_of};
ghost use Rattle.pictures.specs.declared.arrivals.Arrival.{Arrival};
ghost use Rattle.pictures.specs.ArrivalText.{start, silent, frame_line, command_flow, is_down, command_arrival, command_line, data_flow, data_line, used_line, later_line, window_line, words_line, is_used, line_of, arrivals_of, Hears, Refuses, Gathers, HasPlace};

use crate::arrivals::{Arrival, Flow, arrival_of};
use crate::faults::{DrawFault, TextWhy};
use crate::forms::{Command, Way, command_in, data_in, way_in};
use crate::lines::{head_line, is_end};
use crate::rows::Rows;
use crate::windows::{Windows, window_in};
use fh_base::INPUT_LIMIT;
use line_words::{Words, are_texts, cut, first_word, is_text_in, without_last_feed};
use std::alloc::Global;

/// What the lines so far say.
#[derive(Clone, Copy)]
struct Reading {
    windows: Windows,
    /// The way of the last frame.
    way: Option<Way>,
    /// Whether the end was there.
    ended: bool,
}

/// What a text says: its windows, and its arrivals, counted.
#[derive(Drop)]
pub struct Gathered {
    pub windows: Windows,
    pub rows: Rows,
}

fn start() -> Reading
    ensures { result ≡ start }
{
    Reading {
        windows: Windows::new(),
        way: None,
        ended: false,
    }
}

fn frame_line(reading: &mut Reading, words: &Words<'_>) -> Result<(), TextWhy>
    ensures { Refuses (frame_line reading.old words.now) result reading.new }
{
    match way_in(words) {
        None => Err(TextWhy::Line),
        Some(way) => {
            reading.way = Some(way);
            Ok(())
        }
    }
}

fn command_flow(uplink: bool) -> Flow
    ensures { result ≡ command_flow uplink }
{
    if uplink {
        Flow::UplinkCommands
    } else {
        Flow::DownlinkCommands
    }
}

/// Whether a frame of the downlink is the last one.
fn is_down(way: Option<Way>) -> bool
    ensures { result ≡ is_down way }
{
    match way {
        None => false,
        Some(way) => match way {
            Way::Down => true,
            Way::Up => false,
        },
    }
}

/// What arrived with a section of a command. One whose type does not fit its endpoint is not counted.
fn command_arrival(reading: &Reading, command: Command) -> Option<Arrival>
    requires since { IsMargin command.margins.since }
    requires until { IsMargin command.margins.until }
    ensures value { result ≡ command_arrival reading.now command }
    ensures place { IfSome result (λ arrival. HasPlace arrival) }
{
    if command.mismatch {
        return None;
    }
    let flow = command_flow(command.uplink);
    Some(arrival_of(&reading.windows, flow, command.margins))
}

/// A section of a command, which is after a frame of the downlink.
fn command_line(reading: &Reading, words: &Words<'_>) -> Result<Option<Arrival>, TextWhy>
    ensures value { result ≡ command_line reading.now words.now }
    ensures place { MatchResult result (λ a. IfSome a (λ arrival. HasPlace arrival)) (λ _. Unit {0}) }
{
    if !is_down(reading.way) {
        return Err(TextWhy::Line);
    }
    match command_in(words) {
        None => Err(TextWhy::Line),
        Some(command) => Ok(command_arrival(reading, command)),
    }
}

fn data_flow(way: Way) -> Flow
    ensures { result ≡ data_flow way }
{
    match way {
        Way::Down => Flow::DownlinkData,
        Way::Up => Flow::UplinkData,
    }
}

/// A section of data, which is after a frame and goes its way.
fn data_line(reading: &Reading, words: &Words<'_>) -> Result<Option<Arrival>, TextWhy>
    ensures value { result ≡ data_line reading.now words.now }
    ensures place { MatchResult result (λ a. IfSome a (λ arrival. HasPlace arrival)) (λ _. Unit {0}) }
{
    match reading.way {
        None => Err(TextWhy::Line),
        Some(way) => match data_in(words) {
            None => Err(TextWhy::Line),
            Some(margins) => Ok(Some(arrival_of(&reading.windows, data_flow(way), margins))),
        },
    }
}

/// No arrival where a line does not fail.
fn silent(answer: Result<(), TextWhy>) -> Result<Option<Arrival>, TextWhy>
    ensures { result ≡ silent answer }
{
    answer?;
    Ok(None)
}

fn used_line(reading: &mut Reading, words: &Words<'_>) -> Result<Option<Arrival>, TextWhy>
    ensures value { Hears (used_line reading.old words.now) result reading.new }
    ensures place { MatchResult result (λ a. IfSome a (λ arrival. HasPlace arrival)) (λ _. Unit {0}) }
{
    if words.word(0) == b"window".as_slice() {
        return Err(TextWhy::Line);
    }
    if words.word(0) == b"frame".as_slice() {
        return silent(frame_line(reading, words));
    }
    if words.word(0) == b"c".as_slice() {
        return command_line(reading, words);
    }
    if words.word(0) == b"u".as_slice() {
        return data_line(reading, words);
    }
    Ok(None)
}

fn later_line(reading: &mut Reading, words: &Words<'_>) -> Result<Option<Arrival>, TextWhy>
    ensures value { Hears (later_line reading.old words.now) result reading.new }
    ensures place { MatchResult result (λ a. IfSome a (λ arrival. HasPlace arrival)) (λ _. Unit {0}) }
{
    if reading.ended {
        return Err(TextWhy::End);
    }
    if is_end(words) {
        reading.ended = true;
        return Ok(None);
    }
    used_line(reading, words)
}

fn window_line(reading: &mut Reading, n: usize, words: &Words<'_>) -> Result<(), TextWhy>
    ensures { Refuses (window_line reading.old n words.now) result reading.new }
{
    match window_in(n, words) {
        None => Err(TextWhy::Line),
        Some(window) => {
            reading.windows.put(n, window);
            Ok(())
        }
    }
}

fn words_line(
    reading: &mut Reading,
    n: usize,
    words: &Words<'_>,
) -> Result<Option<Arrival>, TextWhy>
    ensures value { Hears (words_line reading.old n words.now) result reading.new }
    ensures place { MatchResult result (λ a. IfSome a (λ arrival. HasPlace arrival)) (λ _. Unit {0}) }
{
    if n == 1 {
        return silent(head_line(words));
    }
    if n <= 9 {
        return silent(window_line(reading, n, words));
    }
    later_line(reading, words)
}

/// Whether a line after the windows that begins with a word is used, or may be the end. All others are passed over by their first word.
#[inline]
fn is_used(word: &[u8]) -> bool
    ensures { result ≡ is_used word.now }
{
    word == b"frame".as_slice()
        || word == b"c".as_slice()
        || word == b"u".as_slice()
        || word == b"window".as_slice()
        || word == b"end".as_slice()
}

/// A printable line, with its words.
fn split_line(reading: &mut Reading, n: usize, line: &[u8]) -> Result<Option<Arrival>, TextWhy>
    ensures value { Hears (words_line reading.old n (words_of line.now)) result reading.new }
    ensures place { MatchResult result (λ a. IfSome a (λ arrival. HasPlace arrival)) (λ _. Unit {0}) }
{
    words_line(reading, n, &Words::of(line))
}

/// A line of a text of which it may be known that all lines are printable.
#[tactic(auto, unfolding(crate::specs::ArrivalText::line_of))]
fn read_line(
    reading: &mut Reading,
    n: usize,
    line: &[u8],
    plain: bool,
) -> Result<Option<Arrival>, TextWhy>
    requires { plain ≡ true → is_text line.now ≡ true }
    ensures value { Hears (line_of reading.old n line.now) result reading.new }
    ensures place { MatchResult result (λ a. IfSome a (λ arrival. HasPlace arrival)) (λ _. Unit {0}) }
{
    if !is_text_in(plain, line) {
        return Err(TextWhy::NotText);
    }
    if n > 9 && !reading.ended && !is_used(first_word(line)) {
        return Ok(None);
    }
    split_line(reading, n, line)
}

/// Counts an arrival, where there is one.
fn count(rows: &mut Rows, arrival: Option<Arrival>)
    requires place { IfSome arrival (λ a. HasPlace a) }
    requires few { (came : List Arrival) × (rows.old ≡ rows_of came) × (length came < 500000000) }
    ensures { (came : List Arrival) → rows.old ≡ rows_of came → rows.new ≡ rows_of (came ++ option_to_list arrival) }
{
    if let Some(a) = arrival {
        rows.add(a);
    }
}

/// Tests the lines of a text that `explain` wrote, of at most [`INPUT_LIMIT`] bytes, and counts its arrivals in one pass.
///
/// # Errors
///
/// [`DrawFault::Refused`] for the first line that is refused, with the first reason that holds there; where the end is missing, it is
/// the line after the last. [`DrawFault::NoMemory`] where memory runs out.
pub fn read_arrivals(alloc: Global, text: &[u8]) -> Result<Gathered, DrawFault>
    requires { length text.now ≤ INPUT_LIMIT }
    ensures { Gathers (arrivals_of text.now) result }
{
    let mut rows = match Rows::new(alloc) {
        Ok(rows) => rows,
        Err(_) => return Err(DrawFault::NoMemory),
    };
    let mut reading = start();
    if text.is_empty() {
        return Err(DrawFault::Refused {
            line: 1,
            why: TextWhy::Head,
        });
    }
    let mut n: usize = 1;
    let lines = without_last_feed(text);
    let plain = are_texts(lines);
    let mut rest = Some(lines);
    'lines: while let Some(piece) = rest {
        let (line, behind) = cut(b'\n', piece);
        let arrival = match read_line(&mut reading, n, line, plain) {
            Ok(arrival) => arrival,
            Err(why) => return Err(DrawFault::Refused { line: n, why }),
        };
        count(&mut rows, arrival);
        n += 1;
        rest = behind;
    }
    if !reading.ended {
        return Err(DrawFault::Refused {
            line: n,
            why: TextWhy::End,
        });
    }
    Ok(Gathered {
        windows: reading.windows,
        rows,
    })
}
