// A document, line by line.
ghost use Rattle.std.specs.Prelude.{◌≡◌, true, IfOk};
ghost use Rattle.fh_document.specs.Answered.{Refuses, refused, Reads, Answers};
ghost use Rattle.fh_document.specs.Lines.{start, is_seen, setting_line, reached, comes_late, keyword_line, ordered_line, is_skipped, version_at, version_of, first_line, later_line, words_line, line_of};
ghost use Rattle.fh_document.specs.Document.{finished, document_of};
ghost use Rattle.fh_document.specs.Proper.{IsDocument};
ghost use Rattle.line_words.specs.Words.{is_text};

use crate::config_lines::{defaults, set};
use crate::deliver_lines::deliver_line;
use crate::delivered::Deliveries;
use crate::document::{Document, Reading, Version};
use crate::endpoint_lines::endpoint_line;
use crate::inject_lines::inject_line;
use crate::keywords::{Keyword, Setting, keyword_of};
use crate::measure_lines::measure_line;
use crate::plan_lines::plan_line;
use crate::refusals::{DocFault, DocWhy, LineFault};
use fh_base::List;
use line_words::{Words, are_texts, cut, is_text_in, without_last_feed};
use std::alloc::Global;
use window_config::{Config, EndpointList};

fn start(alloc: Global) -> Reading
    ensures { result ≡ start }
{
    Reading {
        version: Version::One,
        settings: defaults(),
        seen: [false; Setting::COUNT],
        endpoints: EndpointList::new(),
        plan: List::new(alloc),
        plan_lines: List::new(alloc),
        deliveries: Deliveries::new(alloc),
        injections: List::new(alloc),
        measures: List::new(alloc),
    }
}

fn is_seen(reading: &Reading, setting: Setting) -> bool
    ensures { result ≡ is_seen reading.now setting }
{
    reading.seen[setting.number()]
}

fn setting_line(reading: &mut Reading, setting: Setting, words: &Words<'_>) -> Result<(), DocWhy>
    ensures { Refuses (setting_line reading.old setting words.now) result reading.new }
{
    if is_seen(reading, setting) {
        return Err(DocWhy::Twice);
    }
    reading.settings = set(reading.version, reading.settings, setting, words)?;
    reading.seen[setting.number()] = true;
    Ok(())
}

/// The place of the latest kind of the lines so far.
fn reached(reading: &Reading) -> u8
    ensures { result ≡ reached reading.now }
{
    if reading.measures.len() > 0 {
        return Keyword::Measure.rank();
    }
    if reading.injections.len() > 0 {
        return Keyword::Inject.rank();
    }
    if reading.deliveries.len() > 0 {
        return Keyword::Deliver.rank();
    }
    if reading.plan.len() > 0 {
        return Keyword::Plan.rank();
    }
    if reading.endpoints.as_slice().len() > 0 {
        return Keyword::Endpoint.rank();
    }
    0
}

fn comes_late(reading: &Reading, keyword: Keyword) -> bool
    ensures { result ≡ comes_late reading.now keyword }
{
    keyword.rank() < reached(reading)
}

/// A reason that is a line's own.
fn refused(answer: Result<(), DocWhy>) -> Result<(), LineFault>
    ensures { result ≡ refused answer }
{
    match answer {
        Ok(()) => Ok(()),
        Err(why) => Err(LineFault::Why(why)),
    }
}

/// The line by its keyword.
fn keyword_line(
    alloc: Global,
    reading: &mut Reading,
    n: usize,
    keyword: Keyword,
    words: &Words<'_>,
) -> Result<(), LineFault>
    ensures { Reads (keyword_line reading.old n keyword words.now) result reading.new }
{
    match keyword {
        Keyword::Configure(setting) => refused(setting_line(reading, setting, words)),
        Keyword::Endpoint => refused(endpoint_line(reading, words)),
        Keyword::Plan => plan_line(reading, n, words),
        Keyword::Deliver => deliver_line(reading, words),
        Keyword::Inject => inject_line(alloc, reading, words),
        Keyword::Measure => measure_line(reading, words),
    }
}

fn ordered_line(
    alloc: Global,
    reading: &mut Reading,
    n: usize,
    keyword: Keyword,
    words: &Words<'_>,
) -> Result<(), LineFault>
    ensures { Reads (ordered_line reading.old n keyword words.now) result reading.new }
{
    if comes_late(reading, keyword) {
        return Err(LineFault::Why(DocWhy::Order));
    }
    keyword_line(alloc, reading, n, keyword, words)
}

fn is_skipped(words: &Words<'_>) -> bool
    ensures { result ≡ is_skipped words.now }
{
    words.len() == 0 || words.word(0).first() == Some(&b'#')
}

/// The version that a word names.
fn version_at(word: &[u8]) -> Option<Version>
    ensures { result ≡ version_at word.now }
{
    if word == b"1".as_slice() {
        return Some(Version::One);
    }
    if word == b"2".as_slice() {
        return Some(Version::Two);
    }
    if word == b"3".as_slice() {
        return Some(Version::Three);
    }
    None
}

fn version_of(words: &Words<'_>) -> Option<Version>
    ensures { result ≡ version_of words.now }
{
    if words.len() != 2 {
        return None;
    }
    if words.word(0) != b"fronthaul".as_slice() {
        return None;
    }
    version_at(words.word(1))
}

fn first_line(reading: &mut Reading, words: &Words<'_>) -> Result<(), LineFault>
    ensures { Reads (first_line reading.old words.now) result reading.new }
{
    match version_of(words) {
        None => Err(LineFault::Why(DocWhy::FirstLine)),
        Some(version) => {
            reading.version = version;
            Ok(())
        }
    }
}

fn later_line(
    alloc: Global,
    reading: &mut Reading,
    n: usize,
    words: &Words<'_>,
) -> Result<(), LineFault>
    ensures { Reads (later_line reading.old n words.now) result reading.new }
{
    if is_skipped(words) {
        return Ok(());
    }
    match keyword_of(reading.version, words) {
        None => Err(LineFault::Why(DocWhy::UnknownWord)),
        Some(keyword) => ordered_line(alloc, reading, n, keyword, words),
    }
}

fn words_line(
    alloc: Global,
    reading: &mut Reading,
    n: usize,
    words: &Words<'_>,
) -> Result<(), LineFault>
    ensures { Reads (words_line reading.old n words.now) result reading.new }
{
    if n == 1 {
        return first_line(reading, words);
    }
    later_line(alloc, reading, n, words)
}

/// A line of a text of which it may be known that all lines are printable.
#[tactic(auto, unfolding(crate::specs::Lines::line_of))]
fn read_line<'a>(
    alloc: Global,
    reading: &mut Reading,
    n: usize,
    line: &'a [u8],
    plain: bool,
    words: &mut Words<'a>,
) -> Result<(), LineFault>
    requires { plain ≡ true → is_text line.now ≡ true }
    ensures { Reads (line_of reading.old n line.now) result reading.new }
{
    if !is_text_in(plain, line) {
        return Err(LineFault::Why(DocWhy::NotText));
    }
    words.read(line);
    words_line(alloc, reading, n, words)
}

fn finished(reading: Reading) -> Document
    ensures { result ≡ finished reading }
{
    let settings = reading.settings;
    Document {
        config: Config {
            widths: settings.widths,
            delays: settings.delays,
            gap: settings.gap,
            fragment: settings.fragment,
            pack: settings.pack,
            endpoints: reading.endpoints,
        },
        plan: reading.plan,
        plan_lines: reading.plan_lines,
        source: settings.source,
        antenna: settings.antenna,
        comps: settings.comps,
        transits: settings.transits,
        deliveries: reading.deliveries.into_list(),
        injections: reading.injections,
        measures: reading.measures,
    }
}

/// Reads a document, in the grammar of `fronthaul 1`, `fronthaul 2` or `fronthaul 3`, as its first line says.
///
/// The answer is what the lines say, or the first line that is refused with its first reason, or want of memory. A document that
/// is read is within its limits: the configuration is, no id is listed twice, and each number is within its range.
pub fn read(alloc: Global, bytes: &[u8]) -> Result<Document, DocFault>
    ensures answers { Answers (document_of bytes.now) result }
    ensures proper { IfOk result (λ d. IsDocument d) }
{
    let mut reading = start(alloc);
    if bytes.is_empty() {
        return Err(DocFault::At {
            line: 1,
            why: DocWhy::FirstLine,
        });
    }
    let mut n: usize = 1;
    let mut words = Words::new();
    let lines = without_last_feed(bytes);
    let plain = are_texts(lines);
    let mut rest = Some(lines);
    'lines: while let Some(text) = rest {
        let (line, behind) = cut(b'\n', text);
        match read_line(alloc, &mut reading, n, line, plain, &mut words) {
            Ok(()) => {}
            Err(LineFault::Why(why)) => return Err(DocFault::At { line: n, why }),
            Err(LineFault::NoMemory) => return Err(DocFault::NoMemory),
        }
        n += 1;
        rest = behind;
    }
    Ok(finished(reading))
}
