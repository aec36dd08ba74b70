// The commands by their words: of a list of words, and of what a parse found.
ghost use Rattle.std.specs.Prelude.{◌≡◌, ◌≤◌, None, Some, IfSome, map, option_map};
ghost use Rattle.command_words.specs.Words.{IsProper, address_in, bare_command, command_of, command_with_four, command_with_one, command_with_three, command_with_two, frame_in, least_in, seed_in, slots_in, start_in, way_in, whose_in};
ghost use Rattle.command_words.specs.Parsed.{spelled, spelled_plainly, spelled_with};
ghost use Rattle.fh_base.specs.declared.nanoseconds.TheConstants.{LAST_TIME};

use crate::commands::Command;
use crate::numbers::plain_in;
use air_source::Side;
use fh_base::{LAST_TIME, number_in};
use hex::decode_to_slice;
use pcap_frames::Whose;

/// The command that one word is.
fn bare_command(word: &str) -> Option<Command>
    ensures command { result ≡ bare_command word.now }
    ensures proper { IfSome result IsProper }
{
    if word == "replay" {
        return Some(Command::Replay);
    }
    if word == "summary" {
        return Some(Command::Summary);
    }
    if word == "capture" {
        return Some(Command::Capture);
    }
    if word == "show" {
        return Some(Command::Show { json: false });
    }
    if word == "explain" {
        return Some(Command::Explain { faults: false });
    }
    if word == "sent" {
        return Some(Command::Sent);
    }
    if word == "windows" {
        return Some(Command::Windows);
    }
    if word == "fit" {
        return Some(Command::Fit);
    }
    None
}

/// The command that two words are.
fn command_with_one(word: &str, second: &str) -> Option<Command>
    ensures command { result ≡ command_with_one word.now second.now }
    ensures proper { IfSome result IsProper }
{
    if word == "show" && second == "--json" {
        return Some(Command::Show { json: true });
    }
    if word == "explain" && second == "--faults" {
        return Some(Command::Explain { faults: true });
    }
    if word == "draw" && second == "windows" {
        return Some(Command::DrawWindows);
    }
    None
}

/// The seed that a word is.
fn seed_in(word: &str) -> Option<u32>
    ensures { result ≡ seed_in word.now }
{
    let seed = number_in(word.as_bytes(), 10, 0, 4_294_967_295)?;
    Some(seed as u32)
}

/// The number of slots that a word is.
fn slots_in(word: &str) -> Option<u32>
    ensures slots { result ≡ slots_in word.now }
    ensures within { IfSome result (λ slots. (1 ≤ slots) × (slots ≤ 400)) }
{
    let slots = number_in(word.as_bytes(), 3, 1, 400)?;
    Some(slots as u32)
}

/// The way of frames that a word is, by the unit that they go to.
fn way_in(way: &str) -> Option<Side>
    ensures { result ≡ way_in way.now }
{
    if way == "dl" {
        return Some(Side::Ru);
    }
    if way == "ul" {
        return Some(Side::Du);
    }
    None
}

/// The MAC address that a word is: twelve hexadecimal digits, of either case.
fn address_in(word: &str) -> Option<[u8; 6]>
    ensures { result ≡ address_in word.now }
{
    let mut address = [0; 6];
    match decode_to_slice(word.as_bytes(), &mut address) {
        Ok(()) => Some(address),
        Err(_) => None,
    }
}

/// Whose frames a word asks for: all, with their way, or those to and from an address.
fn whose_in(word: &str) -> Option<Whose>
    ensures { result ≡ whose_in word.now }
{
    match way_in(word) {
        Some(side) => Some(Whose::All(side)),
        None => address_in(word).map(Whose::Port),
    }
}

/// The start that a word is, in nanoseconds.
fn start_in(word: &str) -> Option<u64>
    ensures start { result ≡ start_in word.now }
    ensures within { IfSome result (λ start. start ≤ LAST_TIME) }
{
    number_in(word.as_bytes(), 13, 0, LAST_TIME)
}

/// The command that three words are.
fn command_with_two(word: &str, first: &str, second: &str) -> Option<Command>
    ensures command { result ≡ command_with_two word.now first.now second.now }
    ensures proper { IfSome result IsProper }
{
    if word == "generate" {
        let seed = seed_in(first)?;
        let slots = slots_in(second)?;
        return Some(Command::Generate { seed, slots });
    }
    if word == "trial" {
        let seed = seed_in(first)?;
        let slots = slots_in(second)?;
        return Some(Command::Trial { seed, slots });
    }
    if word == "shared" {
        let count = plain_in(first.as_bytes(), 2, 8)?;
        let step = plain_in(second.as_bytes(), 0, 1_000_000)?;
        return Some(Command::Shared {
            count: count as u8,
            step: step as u32,
        });
    }
    if word == "pcap" {
        let whose = whose_in(first)?;
        let start = start_in(second)?;
        return Some(Command::Pcap { whose, start });
    }
    if word == "pcap-capture" {
        let whose = whose_in(first)?;
        let start = start_in(second)?;
        return Some(Command::PcapCapture { whose, start });
    }
    None
}

/// The frame that a word is.
fn frame_in(word: &str) -> Option<u32>
    ensures frame { result ≡ frame_in word.now }
    ensures within { IfSome result (λ frame. (1 ≤ frame) × (frame ≤ 99999)) }
{
    let frame = plain_in(word.as_bytes(), 1, 99_999)?;
    Some(frame as u32)
}

/// The least number of symbols that a word is.
fn least_in(word: &str) -> Option<u32>
    ensures least { result ≡ least_in word.now }
    ensures within { IfSome result (λ min. (1 ≤ min) × (min ≤ 9999)) }
{
    let min = plain_in(word.as_bytes(), 1, 9_999)?;
    Some(min as u32)
}

/// The command that four words are.
fn command_with_three(word: &str, first: &str, second: &str, third: &str) -> Option<Command>
    ensures command { result ≡ command_with_three word.now first.now second.now third.now }
    ensures proper { IfSome result IsProper }
{
    if word == "idle" {
        let first = frame_in(first)?;
        let last = frame_in(second)?;
        let min = least_in(third)?;
        if first <= last && last <= first + 9 {
            return Some(Command::Idle { first, last, min });
        }
    }
    None
}

/// The command that five words are.
fn command_with_four(
    word: &str,
    first: &str,
    second: &str,
    third: &str,
    fourth: &str,
) -> Option<Command>
    ensures command { result ≡ command_with_four word.now first.now second.now third.now fourth.now }
    ensures proper { IfSome result IsProper }
{
    if word == "draw" && first == "grid" {
        let frame = plain_in(second.as_bytes(), 0, 99_999)?;
        let subframe = plain_in(third.as_bytes(), 0, 9)?;
        let count = plain_in(fourth.as_bytes(), 1, 10)?;
        return Some(Command::DrawGrid {
            frame: frame as u32,
            subframe: subframe as u8,
            count: count as u8,
        });
    }
    None
}

/// The command that the words are.
pub(crate) fn command_in(words: &[&str]) -> Option<Command>
    ensures { result ≡ command_of (map (λ w. w.now) words.now) }
{
    match words {
        [word] => bare_command(word),
        [word, second] => command_with_one(word, second),
        [word, first, second] => command_with_two(word, first, second),
        [word, first, second, third] => command_with_three(word, first, second, third),
        [word, first, second, third, fourth] => {
            command_with_four(word, first, second, third, fourth)
        }
        _ => None,
    }
}

/// The command that one or two words spell.
fn spelled_shortly(word: &str, first: Option<&str>) -> Option<Command>
    ensures command { result ≡ spelled_plainly (Some word.now) (option_map (λ w. w.now) first.entry) None None None }
    ensures proper { IfSome result IsProper }
{
    match first {
        None => bare_command(word),
        Some(first) => command_with_one(word, first),
    }
}

/// The command that three, four or five words spell.
fn spelled_at_length(
    word: &str,
    first: &str,
    second: &str,
    third: Option<&str>,
    fourth: Option<&str>,
) -> Option<Command>
    ensures command { result ≡ spelled_plainly (Some word.now) (Some first.now) (Some second.now) (option_map (λ w. w.now) third.entry) (option_map (λ w. w.now) fourth.entry) }
    ensures proper { IfSome result IsProper }
{
    match (third, fourth) {
        (None, None) => command_with_two(word, first, second),
        (Some(third), None) => command_with_three(word, first, second, third),
        (Some(third), Some(fourth)) => command_with_four(word, first, second, third, fourth),
        (None, Some(_)) => None,
    }
}

/// The command that words without a flag spell.
fn spelled_plainly(
    word: Option<&str>,
    first: Option<&str>,
    second: Option<&str>,
    third: Option<&str>,
    fourth: Option<&str>,
) -> Option<Command>
    ensures command { result ≡ spelled_plainly (option_map (λ w. w.now) word.entry) (option_map (λ w. w.now) first.entry) (option_map (λ w. w.now) second.entry) (option_map (λ w. w.now) third.entry) (option_map (λ w. w.now) fourth.entry) }
    ensures proper { IfSome result IsProper }
{
    match (word, first, second) {
        (Some(word), Some(first), Some(second)) => {
            spelled_at_length(word, first, second, third, fourth)
        }
        (Some(word), first, None) => match (third, fourth) {
            (None, None) => spelled_shortly(word, first),
            _ => None,
        },
        _ => None,
    }
}

/// The command that one word with a flag spells.
fn spelled_with(flag: &str, word: Option<&str>, first: Option<&str>) -> Option<Command>
    ensures command { result ≡ spelled_with flag.now (option_map (λ w. w.now) word.entry) (option_map (λ w. w.now) first.entry) }
    ensures proper { IfSome result IsProper }
{
    match (word, first) {
        (Some(word), None) => command_with_one(word, flag),
        _ => None,
    }
}

/// The command that a parse spells: the flags that it found, and up to five words.
pub(crate) fn spelled(
    json: bool,
    faults: bool,
    word: Option<&str>,
    first: Option<&str>,
    second: Option<&str>,
    third: Option<&str>,
    fourth: Option<&str>,
) -> Option<Command>
    ensures command { result ≡ spelled (record { json = json; faults = faults }) (record { word = option_map (λ w. w.now) word.entry; first = option_map (λ w. w.now) first.entry; second = option_map (λ w. w.now) second.entry; third = option_map (λ w. w.now) third.entry; fourth = option_map (λ w. w.now) fourth.entry }) }
    ensures proper { IfSome result IsProper }
{
    match (json, faults) {
        (false, false) => spelled_plainly(word, first, second, third, fourth),
        (true, false) => spelled_with("--json", word, first),
        (false, true) => spelled_with("--faults", word, first),
        (true, true) => None,
    }
}
