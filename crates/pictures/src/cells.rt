// Cells, and why a cell is missing or silent.
ghost use Rattle.std.specs.Prelude.{◌≡◌, ◌+◌, ◌≤◌, ◌<◌, Some, IfSome, OnSome, length, slice_get};
ghost use Rattle.fh_base.specs.Numbering.{slots_of, symbols_of};
ghost use Rattle.pictures.specs.Cells.{is_up_in, symbol_in, prbs_in, has_names, why_missing, why_silent, look_of_why, look_of_cell, endpoint_at, start_at, cell_in, cell_at, is_cell_word, is_why_word, names_cells, cell_of, IsWithin};

use crate::classes::{Class, missing_class, silent_class};
use crate::endpoints::Endpoint;
use crate::list::with_id;
use crate::numbers::{digit, integer, is_free, is_mask, keyed, numeral};
use fh_base::shape;
use line_words::Words;

/// What is drawn of cells.
#[derive(Clone, Copy, Debug, PartialEq, Eq)]
pub enum Look {
    /// They have samples.
    Shown,
    /// They have none; another line says why.
    Missing,
    /// Why they have none, and whether nothing was to radiate.
    Why { class: Class, silent: bool },
}

/// The cells of one symbol that a line is about.
#[derive(Clone, Copy)]
pub struct Cell {
    /// Whether it is of the uplink.
    pub up: bool,
    /// The start of the symbol as the line has it, in ticks.
    pub at: i64,
    /// The index of the endpoint.
    pub ep: usize,
    pub endpoint: Endpoint,
    /// The slot in its subframe.
    pub slot: u8,
    pub symbol: u8,
    /// The first PRB.
    pub prb: u16,
    /// How many PRBs there are, at least 1.
    pub num: u16,
    pub look: Look,
}

/// Whether the word at an index is `ul`. None where it is neither this nor `dl`.
fn is_up_in(words: &Words<'_>, at: usize) -> Option<bool>
    requires { at ≤ 1 }
    ensures { result ≡ is_up_in words.now at }
{
    if words.word(at) == b"dl".as_slice() {
        return Some(false);
    }
    if words.word(at) == b"ul".as_slice() {
        return Some(true);
    }
    None
}

/// Slot and symbol, which are those of the endpoint.
fn symbol_in(e: &Endpoint, words: &Words<'_>, at: usize) -> Option<(u8, u8)>
    requires { at ≤ 1 }
    ensures value { result ≡ symbol_in e.now words.now at }
    ensures slot { IfSome result (λ s. s.0 < slots_of e.now.numerology) }
    ensures symbol { IfSome result (λ s. s.1 < symbols_of e.now.numerology) }
{
    let shape = shape(&e.numerology);
    let slot = numeral(words.word(at + 5), 0, u64::from(shape.slots) - 1)?;
    let symbol = numeral(words.word(at + 6), 0, u64::from(shape.symbols) - 1)?;
    Some((slot as u8, symbol as u8))
}

/// The first PRB and the number of PRBs, which lie in the carrier.
fn prbs_in(e: &Endpoint, words: &Words<'_>, at: usize) -> Option<(u16, u16)>
    requires { at ≤ 1 }
    ensures value { result ≡ prbs_in e.now words.now at }
    ensures within { IfSome result (λ p. p.0 + p.1 ≤ e.now.prbs) }
    ensures some { IfSome result (λ p. 1 ≤ p.1) }
{
    let num = keyed(b"num=", words.word(at + 8), 1, u64::from(e.prbs))?;
    let prb = keyed(b"prb=", words.word(at + 7), 0, u64::from(e.prbs) - num)?;
    Some((prb as u16, num as u16))
}

/// Whether frame, subframe, section and mask have their forms.
fn has_names(words: &Words<'_>, at: usize) -> bool
    requires { at ≤ 1 }
    ensures { result ≡ has_names words.now at }
{
    integer(words.word(at + 3)).is_some()
        && digit(words.word(at + 4)).is_some()
        && keyed(b"section=", words.word(at + 9), 0, u64::MAX).is_some()
        && is_mask(words.word(at + 10))
}

/// Why cells are missing: `missing`, a reason, and at most three words more.
fn why_missing(words: &Words<'_>) -> Option<Look>
    ensures value { result ≡ why_missing words.now }
    ensures few { OnSome result (length words.now ≤ 18) }
{
    if words.word(12) != b"missing".as_slice() || words.len() > 17 {
        return None;
    }
    let class = missing_class(words.word(13))?;
    if is_free(words, 14) && is_free(words, 15) && is_free(words, 16) {
        return Some(Look::Why {
            class,
            silent: false,
        });
    }
    None
}

/// Why cells are silent: the line of the plan, `silent`, a reason, and at most three words more.
fn why_silent(words: &Words<'_>) -> Option<Look>
    ensures value { result ≡ why_silent words.now }
    ensures few { OnSome result (length words.now ≤ 18) }
{
    if words.word(13) != b"silent".as_slice() || words.len() > 18 {
        return None;
    }
    keyed(b"line=", words.word(12), 0, u64::MAX)?;
    let class = silent_class(words.word(14))?;
    if is_free(words, 15) && is_free(words, 16) && is_free(words, 17) {
        return Some(Look::Why {
            class,
            silent: true,
        });
    }
    None
}

/// Why cells are missing or silent.
fn look_of_why(words: &Words<'_>) -> Option<Look>
    ensures value { result ≡ look_of_why words.now }
    ensures few { OnSome result (length words.now ≤ 18) }
{
    match why_missing(words) {
        Some(look) => Some(look),
        None => why_silent(words),
    }
}

/// Whether cells are shown or missing.
fn look_of_cell(words: &Words<'_>) -> Option<Look>
    ensures value { result ≡ look_of_cell words.now }
    ensures few { OnSome result (length words.now ≤ 18) }
{
    if words.len() == 12 && words.word(11) == b"missing".as_slice() {
        return Some(Look::Missing);
    }
    if words.len() != 13 || words.word(11) != b"shown".as_slice() {
        return None;
    }
    keyed(b"from=", words.word(12), 0, u64::MAX)?;
    Some(Look::Shown)
}

/// The endpoint that the words name, with its index.
fn endpoint_at(endpoints: &[Endpoint], words: &Words<'_>, at: usize) -> Option<(usize, Endpoint)>
    requires { at ≤ 1 }
    ensures value { result ≡ endpoint_at endpoints.now words.now at }
    ensures ep { IfSome result (λ p. p.0 < length endpoints.now) }
    ensures is { IfSome result (λ p. slice_get endpoints.now p.0 ≡ Some p.1) }
{
    let ep = with_id(endpoints, words.word(at + 2))?;
    match endpoints.get(ep) {
        None => None,
        Some(e) => Some((ep, *e)),
    }
}

/// The cells of an endpoint that the words name.
fn cell_in(
    words: &Words<'_>,
    at: usize,
    up: bool,
    start: i64,
    ep: usize,
    endpoint: Endpoint,
    look: Look,
) -> Option<Cell>
    requires { at ≤ 1 }
    ensures value { result ≡ cell_in words.now at up start ep endpoint look }
    ensures same { IfSome result (λ c. (c.ep ≡ ep) × (c.endpoint ≡ endpoint)) }
    ensures slot { IfSome result (λ c. c.slot < slots_of endpoint.numerology) }
    ensures symbol { IfSome result (λ c. c.symbol < symbols_of endpoint.numerology) }
    ensures some { IfSome result (λ c. 1 ≤ c.num) }
    ensures prbs { IfSome result (λ c. c.prb + c.num ≤ endpoint.prbs) }
{
    let (slot, symbol) = symbol_in(&endpoint, words, at)?;
    let (prb, num) = prbs_in(&endpoint, words, at)?;
    Some(Cell {
        up,
        at: start,
        ep,
        endpoint,
        slot,
        symbol,
        prb,
        num,
        look,
    })
}

/// The way and the start of the symbol, where the words after them have their forms.
fn start_at(words: &Words<'_>, at: usize) -> Option<(bool, i64)>
    requires { at ≤ 1 }
    ensures { result ≡ start_at words.now at }
{
    if !has_names(words, at) {
        return None;
    }
    let up = is_up_in(words, at)?;
    let start = integer(words.word(at + 1))?;
    Some((up, start))
}

/// The cells that the words from an index on name.
fn cell_at(endpoints: &[Endpoint], words: &Words<'_>, at: usize, look: Look) -> Option<Cell>
    requires { at ≤ 1 }
    ensures value { result ≡ cell_at endpoints.now words.now at look }
    ensures within { IfSome result (λ c. IsWithin endpoints.now c) }
{
    let (up, start) = start_at(words, at)?;
    let (ep, endpoint) = endpoint_at(endpoints, words, at)?;
    cell_in(words, at, up, start, ep, endpoint, look)
}

/// Whether a line that begins with these words is one of cells, `dl` or `ul`.
pub(crate) fn is_cell_word(words: &Words<'_>) -> bool
    ensures { result ≡ is_cell_word words.now }
{
    words.word(0) == b"dl".as_slice() || words.word(0) == b"ul".as_slice()
}

/// Whether a line that begins with these words says why cells have no samples.
pub(crate) fn is_why_word(words: &Words<'_>) -> bool
    ensures { result ≡ is_why_word words.now }
{
    words.word(0) == b"why".as_slice()
}

/// Whether a line that begins with a word is about cells: `dl`, `ul` or `why`. [`cell_of`] answers none for any other line.
#[inline]
pub fn names_cells(word: &[u8]) -> bool
    ensures { result ≡ names_cells word.now }
{
    word == b"dl".as_slice() || word == b"ul".as_slice() || word == b"why".as_slice()
}

/// The cells that the words of a line are about, with one of the endpoints. None where it is no such line, or has not its form or its
/// place. What is answered lies in the endpoint's slots and carrier.
#[tactic(auto, unfolding(crate::specs::Cells::cell_of))]
pub fn cell_of(endpoints: &[Endpoint], words: &Words<'_>) -> Option<Cell>
    ensures value { result ≡ cell_of endpoints.now words.now }
    ensures within { IfSome result (λ c. IsWithin endpoints.now c) }
    ensures few { OnSome result (length words.now ≤ 18) }
{
    if is_cell_word(words) {
        let look = look_of_cell(words)?;
        return cell_at(endpoints, words, 0, look);
    }
    if is_why_word(words) {
        let look = look_of_why(words)?;
        return cell_at(endpoints, words, 1, look);
    }
    None
}
