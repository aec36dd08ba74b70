// The keywords of lines, and the order of their kinds.
ghost use Rattle.std.specs.Prelude.{◌≡◌, ◌<◌};
ghost use Rattle.fh_document.specs.Keywords.{is_after_one, is_three, window_setting_of, delay_setting_of, frame_setting_of, common_setting_of, setting_of, transit_of, keyword_of, rank_of, number_of};

use crate::document::Version;
use line_words::Words;

/// What a configuration line sets.
#[derive(Clone, Copy)]
pub(crate) enum Setting {
    Widths,
    T1a,
    T2a,
    Advance,
    Ta3,
    Ta4,
    T12,
    T34,
    Hold,
    Gap,
    Fragment,
    Source,
    Antenna,
    Comp,
    TransitDl,
    TransitUl,
    TransitM,
    Pack,
}

/// What a line is for.
#[derive(Clone, Copy)]
pub(crate) enum Keyword {
    Configure(Setting),
    Endpoint,
    Plan,
    Deliver,
    Inject,
    Measure,
}

/// Whether the grammar has `pack` and extended endpoints: that of `fronthaul 2` and every later one.
pub(crate) fn is_after_one(version: Version) -> bool
    ensures { result ≡ is_after_one version }
{
    match version {
        Version::One => false,
        Version::Two | Version::Three => true,
    }
}

/// Whether the grammar has `lost`: that of `fronthaul 3`.
pub(crate) fn is_three(version: Version) -> bool
    ensures { result ≡ is_three version }
{
    match version {
        Version::One | Version::Two => false,
        Version::Three => true,
    }
}

/// What a first word sets of the windows of the units.
fn window_setting_of(word: &[u8]) -> Option<Setting>
    ensures { result ≡ window_setting_of word.now }
{
    if word == b"t1a".as_slice() {
        return Some(Setting::T1a);
    }
    if word == b"t2a".as_slice() {
        return Some(Setting::T2a);
    }
    if word == b"ta3".as_slice() {
        return Some(Setting::Ta3);
    }
    if word == b"ta4".as_slice() {
        return Some(Setting::Ta4);
    }
    None
}

/// What a first word sets of the times that are no window of a unit.
fn delay_setting_of(word: &[u8]) -> Option<Setting>
    ensures { result ≡ delay_setting_of word.now }
{
    if word == b"advance".as_slice() {
        return Some(Setting::Advance);
    }
    if word == b"t12".as_slice() {
        return Some(Setting::T12);
    }
    if word == b"t34".as_slice() {
        return Some(Setting::T34);
    }
    if word == b"hold".as_slice() {
        return Some(Setting::Hold);
    }
    if word == b"gap".as_slice() {
        return Some(Setting::Gap);
    }
    if word == b"comp".as_slice() {
        return Some(Setting::Comp);
    }
    None
}

/// What a first word sets of the frames.
fn frame_setting_of(word: &[u8]) -> Option<Setting>
    ensures { result ≡ frame_setting_of word.now }
{
    if word == b"widths".as_slice() {
        return Some(Setting::Widths);
    }
    if word == b"fragment".as_slice() {
        return Some(Setting::Fragment);
    }
    if word == b"source".as_slice() {
        return Some(Setting::Source);
    }
    if word == b"antenna".as_slice() {
        return Some(Setting::Antenna);
    }
    None
}

/// What a first word sets in every version.
fn common_setting_of(word: &[u8]) -> Option<Setting>
    ensures { result ≡ common_setting_of word.now }
{
    window_setting_of(word)
        .or(delay_setting_of(word))
        .or(frame_setting_of(word))
}

/// What a first word sets.
fn setting_of(version: Version, word: &[u8]) -> Option<Setting>
    ensures { result ≡ setting_of version word.now }
{
    if word == b"pack".as_slice() {
        return if is_after_one(version) {
            Some(Setting::Pack)
        } else {
            None
        };
    }
    common_setting_of(word)
}

/// What a `transit` line sets, by its second word.
fn transit_of(word: &[u8]) -> Option<Setting>
    ensures { result ≡ transit_of word.now }
{
    if word == b"dl".as_slice() {
        return Some(Setting::TransitDl);
    }
    if word == b"ul".as_slice() {
        return Some(Setting::TransitUl);
    }
    if word == b"m".as_slice() {
        return Some(Setting::TransitM);
    }
    None
}

/// The keyword of a line.
pub(crate) fn keyword_of(version: Version, words: &Words<'_>) -> Option<Keyword>
    ensures { result ≡ keyword_of version words.now }
{
    let word = words.word(0);
    if word == b"endpoint".as_slice() {
        return Some(Keyword::Endpoint);
    }
    if word == b"plan".as_slice() {
        return Some(Keyword::Plan);
    }
    if word == b"deliver".as_slice() {
        return Some(Keyword::Deliver);
    }
    if word == b"inject".as_slice() {
        return Some(Keyword::Inject);
    }
    if word == b"measure".as_slice() {
        return Some(Keyword::Measure);
    }
    if word == b"transit".as_slice() {
        return transit_of(words.word(1)).map(Keyword::Configure);
    }
    setting_of(version, word).map(Keyword::Configure)
}

impl Keyword {
    /// The place of the kind in the order of lines.
    pub(crate) fn rank(self) -> u8
        ensures { result ≡ rank_of self }
    {
        match self {
            Keyword::Configure(_) => 0,
            Keyword::Endpoint => 1,
            Keyword::Plan => 2,
            Keyword::Deliver => 3,
            Keyword::Inject => 4,
            Keyword::Measure => 5,
        }
    }
}

impl Setting {
    /// How many configuration keywords there are.
    pub(crate) const COUNT: usize = 18;

    /// A number of its own.
    pub(crate) fn number(self) -> usize
        ensures value { result ≡ number_of self }
        ensures below { result < 18 }
    {
        self as usize
    }
}
