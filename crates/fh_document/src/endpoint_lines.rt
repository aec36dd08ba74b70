// Endpoint lines.
ghost use Rattle.std.specs.Prelude.{◌≡◌};
ghost use Rattle.fh_document.specs.Answered.{Refuses};
ghost use Rattle.fh_document.specs.Words.{number_in};
ghost use Rattle.fh_document.specs.EndpointLines.{is_ordinary, is_offset, is_extended, has_endpoint_count, spacing_of, offset_spacing_of, dynamic_of, width_of, method_of, ordinary_numerology, offset_numerology, extended_numerology, numerology_of, endpoint_of, has_id, added, endpoint_line};

use crate::document::{Reading, Version};
use crate::hex::hex4;
use crate::keywords::is_after_one;
use crate::refusals::DocWhy;
use crate::words::{number_in, short_in};
use bfp_codec::{Format, Method};
use fh_base::{CARRIER_PRBS, Numerology};
use line_words::Words;
use window_config::EndpointConfig;

fn is_ordinary(words: &Words<'_>) -> bool
    ensures { result ≡ is_ordinary words.now }
{
    words.word(2) == b"ordinary".as_slice()
}

fn is_offset(words: &Words<'_>) -> bool
    ensures { result ≡ is_offset words.now }
{
    words.word(2) == b"offset".as_slice()
}

fn is_extended(version: Version, words: &Words<'_>) -> bool
    ensures { result ≡ is_extended version words.now }
{
    is_after_one(version) && words.word(2) == b"extended".as_slice()
}

fn has_endpoint_count(version: Version, words: &Words<'_>) -> bool
    ensures { result ≡ has_endpoint_count version words.now }
{
    if is_ordinary(words) {
        return words.len() == 7;
    }
    if is_offset(words) {
        return words.len() == 9;
    }
    if is_extended(version, words) {
        return words.len() == 7;
    }
    words.len() == 7 || words.len() == 9
}

/// The code of a spacing in kHz that ordinary and offset endpoints may have.
fn spacing_of(word: &[u8]) -> Option<u8>
    ensures { result ≡ spacing_of word.now }
{
    if word == b"15".as_slice() {
        return Some(0);
    }
    if word == b"30".as_slice() {
        return Some(1);
    }
    if word == b"60".as_slice() {
        return Some(2);
    }
    if word == b"120".as_slice() {
        return Some(3);
    }
    if word == b"240".as_slice() {
        return Some(4);
    }
    None
}

/// The code of a spacing in kHz that an offset endpoint may have.
fn offset_spacing_of(word: &[u8]) -> Option<u8>
    ensures { result ≡ offset_spacing_of word.now }
{
    if word == b"1.25".as_slice() {
        return Some(12);
    }
    if word == b"5".as_slice() {
        return Some(14);
    }
    spacing_of(word)
}

fn dynamic_of(word: &[u8]) -> Option<bool>
    ensures { result ≡ dynamic_of word.now }
{
    if word == b"static".as_slice() {
        return Some(false);
    }
    if word == b"dynamic".as_slice() {
        return Some(true);
    }
    None
}

/// The width of mantissas.
fn width_of(word: &[u8]) -> Option<u8>
    ensures { result ≡ width_of word.now }
{
    if word.first() == Some(&b'0') {
        return None;
    }
    let n = number_in(word, 1, 16)?;
    Some(n as u8)
}

fn method_of(word: &[u8]) -> Option<Method>
    ensures { result ≡ method_of word.now }
{
    if word == b"none".as_slice() {
        return Some(Method::Plain);
    }
    if word.len() < 3 || &word[..3] != b"bfp".as_slice() {
        return None;
    }
    let width = width_of(&word[3..])?;
    Some(Method::Bfp(width))
}

fn ordinary_numerology(words: &Words<'_>) -> Option<Numerology>
    ensures { result ≡ ordinary_numerology words.now }
{
    let code = spacing_of(words.word(3))?;
    Numerology::ordinary(code)
}

fn offset_numerology(words: &Words<'_>) -> Option<Numerology>
    ensures { result ≡ offset_numerology words.now }
{
    let code = offset_spacing_of(words.word(3))?;
    let time_offset = short_in(words.word(7), 0, 65_535)?;
    let cp_length = short_in(words.word(8), 0, 65_535)?;
    Numerology::offset(code, time_offset, cp_length)
}

fn extended_numerology(words: &Words<'_>) -> Option<Numerology>
    ensures { result ≡ extended_numerology words.now }
{
    if words.word(3) == b"60".as_slice() {
        return Some(Numerology::extended());
    }
    None
}

fn numerology_of(version: Version, words: &Words<'_>) -> Option<Numerology>
    ensures { result ≡ numerology_of version words.now }
{
    if is_ordinary(words) {
        return ordinary_numerology(words);
    }
    if is_offset(words) {
        return offset_numerology(words);
    }
    if is_extended(version, words) {
        return extended_numerology(words);
    }
    None
}

/// The endpoint that the words describe. None where one of them has not its form or range.
fn endpoint_of(version: Version, words: &Words<'_>) -> Option<EndpointConfig>
    ensures { result ≡ endpoint_of version words.now }
{
    let id = hex4(words.word(1))?;
    let numerology = numerology_of(version, words)?;
    let prbs = number_in(words.word(4), 1, u64::from(CARRIER_PRBS))?;
    let dynamic = dynamic_of(words.word(5))?;
    let method = method_of(words.word(6))?;
    Some(EndpointConfig {
        id,
        numerology,
        prbs: prbs as u16,
        format: Format { dynamic, method },
    })
}

fn has_id(id: u16, endpoints: &[EndpointConfig]) -> bool
    ensures { result ≡ has_id id endpoints.now }
{
    endpoints.iter().any(|e| e.id == id)
}

fn add(reading: &mut Reading, endpoint: EndpointConfig) -> Result<(), DocWhy>
    ensures { Refuses (added reading.old endpoint) result reading.new }
{
    if has_id(endpoint.id, reading.endpoints.as_slice()) {
        return Err(DocWhy::Twice);
    }
    match reading.endpoints.push(endpoint) {
        Ok(()) => Ok(()),
        Err(_) => Err(DocWhy::TooMany),
    }
}

/// Reads an endpoint line.
pub(crate) fn endpoint_line(reading: &mut Reading, words: &Words<'_>) -> Result<(), DocWhy>
    ensures { Refuses (endpoint_line reading.old words.now) result reading.new }
{
    if !has_endpoint_count(reading.version, words) {
        return Err(DocWhy::Words);
    }
    match endpoint_of(reading.version, words) {
        None => Err(DocWhy::Number),
        Some(endpoint) => add(reading, endpoint),
    }
}
