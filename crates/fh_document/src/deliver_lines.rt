// Deliver lines.
ghost use Rattle.std.specs.Prelude.{◌≡◌, ◌≤◌, length, drop};
ghost use Rattle.fh_document.specs.Answered.{Reads};
ghost use Rattle.fh_document.specs.DeliverLines.{class_of, least_of, times_of, has_deliver_count, delivery_of, delivered, deliver_line};

use crate::config_lines::MOST_TRANSIT;
use crate::delivered::{Copies, Delivery, TrafficClass};
use crate::document::Reading;
use crate::inject_lines::side_of;
use crate::refusals::{DocWhy, LineFault};
use crate::words::number_in;
use line_words::Words;

/// The greatest number of a frame of its class.
pub const MOST_NUMBER: u64 = 9_999_999;

fn class_of(word: &[u8]) -> Option<TrafficClass>
    ensures { result ≡ class_of word.now }
{
    if word == b"c".as_slice() {
        return Some(TrafficClass::C);
    }
    if word == b"u".as_slice() {
        return Some(TrafficClass::U);
    }
    if word == b"m".as_slice() {
        return Some(TrafficClass::M);
    }
    None
}

/// The least time on its way that a frame of a class may have.
fn least_of(class: TrafficClass) -> u64
    ensures { result ≡ least_of class }
{
    match class {
        TrafficClass::C | TrafficClass::U => 0,
        TrafficClass::M => 1,
    }
}

fn has_deliver_count(words: &Words<'_>) -> bool
    ensures { result ≡ has_deliver_count words.now }
{
    words.len() >= 4 && words.len() <= 12
}

/// The times that the words after the first four spell. None where one of them spells none from `low` on.
fn times_of(words: &Words<'_>, low: u64) -> Option<Copies>
    requires { length words.now ≤ 12 }
    ensures { result ≡ times_of low (drop 4 words.now) }
{
    let mut copies = Copies::new();
    for i in 4..words.len() {
        let ns = number_in(words.word(i), low, MOST_TRANSIT)?;
        let _ = copies.push(ns as u32);
    }
    Some(copies)
}

/// What the words say of a frame. None where one of them has not its form or range.
fn delivery_of(words: &Words<'_>) -> Option<Delivery>
    requires { length words.now ≤ 12 }
    ensures { result ≡ delivery_of words.now }
{
    let side = side_of(words.word(1))?;
    let class = class_of(words.word(2))?;
    let k = number_in(words.word(3), 1, MOST_NUMBER)?;
    let copies = times_of(words, least_of(class))?;
    Some(Delivery {
        side,
        class,
        k: k as u32,
        copies,
    })
}

fn add(reading: &mut Reading, delivery: Delivery) -> Result<(), LineFault>
    ensures { Reads (delivered reading.old delivery) result reading.new }
{
    match reading.deliveries.add(delivery) {
        Ok(true) => Ok(()),
        Ok(false) => Err(LineFault::Why(DocWhy::Twice)),
        Err(_) => Err(LineFault::NoMemory),
    }
}

/// Reads a deliver line.
pub(crate) fn deliver_line(reading: &mut Reading, words: &Words<'_>) -> Result<(), LineFault>
    ensures { Reads (deliver_line reading.old words.now) result reading.new }
{
    if !has_deliver_count(words) {
        return Err(LineFault::Why(DocWhy::Words));
    }
    match delivery_of(words) {
        None => Err(LineFault::Why(DocWhy::Number)),
        Some(delivery) => add(reading, delivery),
    }
}
