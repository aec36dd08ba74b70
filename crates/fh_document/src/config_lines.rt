// Configuration lines.
ghost use Rattle.std.specs.Prelude.{◌≡◌, ◌≤◌, ◌<◌, ◌^◌, IfOk};
ghost use Rattle.fh_document.specs.ConfigLines.{number_at, time_at, ordered, both_ordered, widths_of, widths_line, windows_line, range_line, hold_line, time_line, fragment_line, tone_line, comp_line, is_lost, way_of, way_line, transit_line, pack_line, set_of, defaults};

use crate::document::{Comps, Settings, Transits, Version};
use crate::keywords::{Setting, is_three};
use crate::refusals::DocWhy;
use crate::words::number_in;
use air_source::Tone;
use delay_measure::MOST_COMPENSATION;
use eaxc_map::Widths;
use line_words::{KEPT, Words};
use window_config::{Delays, LEAST_FRAGMENT, MESSAGE_SECTIONS, MOST_DELAY, MOST_FRAGMENT, Range};

/// The greatest time on the way, in nanoseconds.
pub const MOST_TRANSIT: u64 = 3_000_000_000;

/// The number that a word spells, in a range.
fn number_at(words: &Words<'_>, i: usize, low: u64, high: u64) -> Result<u64, DocWhy>
    requires { i < KEPT }
    ensures value { result ≡ number_at low high words.now i }
    ensures within { IfOk result (λ n. (low ≤ n) × (n ≤ high) × (n < 10 ^ 13)) }
{
    number_in(words.word(i), low, high).ok_or(DocWhy::Number)
}

/// The time that a word spells, in a range.
pub(crate) fn time_at(words: &Words<'_>, i: usize, low: u64, high: u64) -> Result<i64, DocWhy>
    requires { i < KEPT }
    ensures { result ≡ time_at low high words.now i }
{
    let n = number_at(words, i, low, high)?;
    Ok(n as i64)
}

fn ordered(min: i64, max: i64) -> Result<Range, DocWhy>
    ensures { result ≡ ordered min max }
{
    if max < min {
        return Err(DocWhy::MinMax);
    }
    Ok(Range { min, max })
}

fn both_ordered(
    min_up: i64,
    max_up: i64,
    min_cp_ul: i64,
    max_cp_ul: i64,
) -> Result<(Range, Range), DocWhy>
    ensures { result ≡ both_ordered min_up max_up min_cp_ul max_cp_ul }
{
    let up = ordered(min_up, max_up)?;
    let cp_ul = ordered(min_cp_ul, max_cp_ul)?;
    Ok((up, cp_ul))
}

fn widths_of(du: u8, band: u8, carrier: u8, port: u8) -> Result<Widths, DocWhy>
    ensures { result ≡ widths_of du band carrier port }
{
    match Widths::new(du, band, carrier, port) {
        Ok(widths) => Ok(widths),
        Err(_) => Err(DocWhy::WidthSum),
    }
}

fn widths_line(words: &Words<'_>) -> Result<Widths, DocWhy>
    ensures { result ≡ widths_line words.now }
{
    if words.len() != 5 {
        return Err(DocWhy::Words);
    }
    let du = number_at(words, 1, 0, 16)?;
    let band = number_at(words, 2, 0, 16)?;
    let carrier = number_at(words, 3, 0, 16)?;
    let port = number_at(words, 4, 0, 16)?;
    widths_of(du as u8, band as u8, carrier as u8, port as u8)
}

/// The ranges of data and of uplink commands.
fn windows_line(words: &Words<'_>, low: u64) -> Result<(Range, Range), DocWhy>
    ensures { result ≡ windows_line low words.now }
{
    if words.len() != 5 {
        return Err(DocWhy::Words);
    }
    let min_up = time_at(words, 1, low, MOST_DELAY)?;
    let max_up = time_at(words, 2, low, MOST_DELAY)?;
    let min_cp_ul = time_at(words, 3, low, MOST_DELAY)?;
    let max_cp_ul = time_at(words, 4, low, MOST_DELAY)?;
    both_ordered(min_up, max_up, min_cp_ul, max_cp_ul)
}

fn range_line(words: &Words<'_>) -> Result<Range, DocWhy>
    ensures { result ≡ range_line words.now }
{
    if words.len() != 3 {
        return Err(DocWhy::Words);
    }
    let min = time_at(words, 1, 0, MOST_DELAY)?;
    let max = time_at(words, 2, 0, MOST_DELAY)?;
    ordered(min, max)
}

fn hold_line(words: &Words<'_>) -> Result<(i64, i64), DocWhy>
    ensures { result ≡ hold_line words.now }
{
    if words.len() != 3 {
        return Err(DocWhy::Words);
    }
    let dl = time_at(words, 1, 0, MOST_DELAY)?;
    let ul = time_at(words, 2, 0, MOST_DELAY)?;
    Ok((dl, ul))
}

fn time_line(words: &Words<'_>) -> Result<i64, DocWhy>
    ensures { result ≡ time_line words.now }
{
    if words.len() != 2 {
        return Err(DocWhy::Words);
    }
    time_at(words, 1, 0, MOST_DELAY)
}

fn fragment_line(words: &Words<'_>) -> Result<usize, DocWhy>
    ensures { result ≡ fragment_line words.now }
{
    if words.len() != 2 {
        return Err(DocWhy::Words);
    }
    let bytes = number_at(words, 1, LEAST_FRAGMENT as u64, MOST_FRAGMENT as u64)?;
    Ok(bytes as usize)
}

fn tone_line(words: &Words<'_>) -> Result<Tone, DocWhy>
    ensures { result ≡ tone_line words.now }
{
    if words.len() != 3 {
        return Err(DocWhy::Words);
    }
    let seed = number_at(words, 1, 0, 4_294_967_295)?;
    let amplitude = number_at(words, 2, 1, 32_768)?;
    Ok(Tone {
        seed: seed as u32,
        amplitude: amplitude as u32,
    })
}

fn comp_line(words: &Words<'_>) -> Result<Comps, DocWhy>
    ensures { result ≡ comp_line words.now }
{
    if words.len() != 5 {
        return Err(DocWhy::Words);
    }
    Ok(Comps {
        du_sending: time_at(words, 1, 0, MOST_COMPENSATION)?,
        du_receiving: time_at(words, 2, 0, MOST_COMPENSATION)?,
        ru_sending: time_at(words, 3, 0, MOST_COMPENSATION)?,
        ru_receiving: time_at(words, 4, 0, MOST_COMPENSATION)?,
    })
}

fn is_lost(version: Version, words: &Words<'_>) -> bool
    ensures { result ≡ is_lost version words.now }
{
    is_three(version) && words.word(2) == b"lost".as_slice()
}

/// The time on a way. None where its frames are lost.
fn way_of(version: Version, words: &Words<'_>) -> Result<Option<i64>, DocWhy>
    ensures { result ≡ way_of version words.now }
{
    if is_lost(version, words) {
        return Ok(None);
    }
    let ns = time_at(words, 2, 0, MOST_TRANSIT)?;
    Ok(Some(ns))
}

fn way_line(version: Version, words: &Words<'_>) -> Result<Option<i64>, DocWhy>
    ensures { result ≡ way_line version words.now }
{
    if words.len() != 3 {
        return Err(DocWhy::Words);
    }
    way_of(version, words)
}

fn transit_line(words: &Words<'_>) -> Result<i64, DocWhy>
    ensures { result ≡ transit_line words.now }
{
    if words.len() != 3 {
        return Err(DocWhy::Words);
    }
    time_at(words, 2, 1, MOST_TRANSIT)
}

fn pack_line(words: &Words<'_>) -> Result<usize, DocWhy>
    ensures { result ≡ pack_line words.now }
{
    if words.len() != 2 {
        return Err(DocWhy::Words);
    }
    let sections = number_at(words, 1, 1, MESSAGE_SECTIONS as u64)?;
    Ok(sections as usize)
}

/// What a configuration line makes of the settings.
pub(crate) fn set(
    version: Version,
    settings: Settings,
    setting: Setting,
    words: &Words<'_>,
) -> Result<Settings, DocWhy>
    ensures { result ≡ set_of version settings setting words.now }
{
    let mut next = settings;
    match setting {
        Setting::Widths => next.widths = widths_line(words)?,
        Setting::T1a => {
            let (up, cp_ul) = windows_line(words, 0)?;
            next.delays.t1a_up = up;
            next.delays.t1a_cp_ul = cp_ul;
        }
        Setting::T2a => {
            let (up, cp_ul) = windows_line(words, 1)?;
            next.delays.t2a_up = up;
            next.delays.t2a_cp_ul = cp_ul;
        }
        Setting::Advance => next.delays.advance = time_line(words)?,
        Setting::Ta3 => next.delays.ta3 = range_line(words)?,
        Setting::Ta4 => next.delays.ta4 = range_line(words)?,
        Setting::T12 => next.delays.t12 = range_line(words)?,
        Setting::T34 => next.delays.t34 = range_line(words)?,
        Setting::Hold => {
            let (dl, ul) = hold_line(words)?;
            next.delays.hold_dl = dl;
            next.delays.hold_ul = ul;
        }
        Setting::Gap => next.gap = time_line(words)?,
        Setting::Fragment => next.fragment = fragment_line(words)?,
        Setting::Source => next.source = tone_line(words)?,
        Setting::Antenna => next.antenna = tone_line(words)?,
        Setting::Comp => next.comps = comp_line(words)?,
        Setting::TransitDl => next.transits.dl = way_line(version, words)?,
        Setting::TransitUl => next.transits.ul = way_line(version, words)?,
        Setting::TransitM => next.transits.m = transit_line(words)?,
        Setting::Pack => next.pack = pack_line(words)?,
    }
    Ok(next)
}

fn default_widths() -> Widths
    ensures { result ≡ defaults.widths }
{
    Widths {
        du: 4,
        band: 4,
        carrier: 4,
        port: 4,
    }
}

/// What holds where no line configures it.
pub(crate) fn defaults() -> Settings
    ensures { result ≡ defaults }
{
    Settings {
        widths: default_widths(),
        delays: Delays::usual(),
        gap: 1_000,
        fragment: 1_492,
        pack: 1,
        source: Tone {
            seed: 1,
            amplitude: 1_000,
        },
        antenna: Tone {
            seed: 2,
            amplitude: 1_000,
        },
        comps: Comps {
            du_sending: 0,
            du_receiving: 0,
            ru_sending: 0,
            ru_receiving: 0,
        },
        transits: Transits {
            dl: Some(50_000),
            ul: Some(50_000),
            m: 50_000,
        },
    }
}
