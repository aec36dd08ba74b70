// Endpoint lines.
ghost use Rattle.std.specs.Prelude.{◌≡◌};
ghost use Rattle.pictures.specs.Endpoints.{spacing_of, offset_spacing_of, is_mode, is_method, ordinary_numerology, offset_numerology, extended_numerology, numerology_in, id_of, endpoint_in};

use crate::numbers::{after, is_id, numeral};
use fh_base::{CARRIER_PRBS, Numerology, number_in};
use line_words::Words;

/// An endpoint, as its line says.
#[derive(Clone, Copy)]
pub struct Endpoint {
    /// Its id, in four hexadecimal digits.
    pub id: [u8; 4],
    pub numerology: Numerology,
    /// The PRBs of its carrier, 1 to 273.
    pub prbs: u16,
}

/// The code of a spacing in kHz that ordinary and offset endpoints may have.
fn spacing_of(word: &[u8]) -> Option<u8>
    ensures { result ≡ spacing_of word.now }
{
    if word == b"15".as_slice() {
        return Some(0);
    }
    if word == b"30".as_slice() {
        return Some(1);
    }
    if word == b"60".as_slice() {
        return Some(2);
    }
    if word == b"120".as_slice() {
        return Some(3);
    }
    if word == b"240".as_slice() {
        return Some(4);
    }
    None
}

/// The code of a spacing in kHz that an offset endpoint may have.
fn offset_spacing_of(word: &[u8]) -> Option<u8>
    ensures { result ≡ offset_spacing_of word.now }
{
    if word == b"1.25".as_slice() {
        return Some(12);
    }
    if word == b"5".as_slice() {
        return Some(14);
    }
    spacing_of(word)
}

fn is_mode(word: &[u8]) -> bool
    ensures { result ≡ is_mode word.now }
{
    word == b"static".as_slice() || word == b"dynamic".as_slice()
}

/// Whether a word is a method: `none`, or `bfp` and one or two digits.
fn is_method(word: &[u8]) -> bool
    ensures { result ≡ is_method word.now }
{
    word == b"none".as_slice() || number_in(after(b"bfp", word), 2, 0, 99).is_some()
}

fn ordinary_numerology(words: &Words<'_>) -> Option<Numerology>
    ensures { result ≡ ordinary_numerology words.now }
{
    if words.len() != 7 {
        return None;
    }
    let code = spacing_of(words.word(3))?;
    Numerology::ordinary(code)
}

fn offset_numerology(words: &Words<'_>) -> Option<Numerology>
    ensures { result ≡ offset_numerology words.now }
{
    if words.len() != 9 {
        return None;
    }
    let code = offset_spacing_of(words.word(3))?;
    let time_offset = numeral(words.word(7), 0, 65_535)?;
    let cp_length = numeral(words.word(8), 0, 65_535)?;
    Numerology::offset(code, time_offset as u16, cp_length as u16)
}

fn extended_numerology(words: &Words<'_>) -> Option<Numerology>
    ensures { result ≡ extended_numerology words.now }
{
    if words.len() != 7 || words.word(3) != b"60".as_slice() {
        return None;
    }
    Some(Numerology::extended())
}

/// The numerology of an endpoint line by its kind.
fn numerology_in(words: &Words<'_>) -> Option<Numerology>
    ensures { result ≡ numerology_in words.now }
{
    let kind = words.word(2);
    if kind == b"ordinary".as_slice() {
        return ordinary_numerology(words);
    }
    if kind == b"offset".as_slice() {
        return offset_numerology(words);
    }
    if kind == b"extended".as_slice() {
        return extended_numerology(words);
    }
    None
}

/// The id that a word is.
#[tactic(auto, using(crate::proofs::Ids::four_bytes))]
fn id_of(word: &[u8]) -> Option<[u8; 4]>
    ensures { result ≡ id_of word.now }
{
    if word.len() != 4 || !is_id(word) {
        return None;
    }
    Some([word[0], word[1], word[2], word[3]])
}

/// The endpoint that the words of a line say, if they have the form of an endpoint line and its numbers are in their ranges.
pub(crate) fn endpoint_in(words: &Words<'_>) -> Option<Endpoint>
    ensures { result ≡ endpoint_in words.now }
{
    if !is_mode(words.word(5)) || !is_method(words.word(6)) {
        return None;
    }
    let id = id_of(words.word(1))?;
    let numerology = numerology_in(words)?;
    let prbs = numeral(words.word(4), 1, u64::from(CARRIER_PRBS))?;
    Some(Endpoint {
        id,
        numerology,
        prbs: prbs as u16,
    })
}
