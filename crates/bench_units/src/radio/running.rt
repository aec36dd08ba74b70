// A run of many slots.
ghost use Rattle.std.specs.Prelude.{◌≡◌, true, IfSome};
ghost use Rattle.window_config.specs.Configs.{IsConfig};
ghost use Rattle.ru_buffers.specs.Calls.{HasGivenPast, StandsForSome};

use crate::radio::steps::{advance, deliver};
use crate::slots::{TimedFrame, all_to_next_slot, frames_of, later};
use crate::tally::Tally;
use air_source::Side;
use fh_base::{FRAME, Ticks};
use fh_document::Document;
use ru_buffers::Ru;
use std::alloc::Global;
use window_config::Config;

/// Delivers the frames of a slot, so many slots later. None where one of them cannot be.
fn deliver_slot(ru: &mut Ru, frames: &Vec<TimedFrame>, slots: u16, air: &mut Tally) -> bool
    requires unit { StandsForSome ru.old }
    requires given { HasGivenPast ru.old }
    ensures unit { result ≡ true → StandsForSome ru.new }
    ensures given { result ≡ true → HasGivenPast ru.new }
{
    for k in 0..frames.len() {
        let Some(at) = later(frames[k].at, slots) else {
            return false;
        };
        if !advance(ru, at, air) {
            return false;
        }
        deliver(ru, frames[k].frame.as_slice());
    }
    true
}

/// Delivers the frames so many times, and what an air heard of them.
fn deliver_slots(ru: &mut Ru, frames: &mut Vec<TimedFrame>, slots: u16) -> Option<Tally>
    requires unit { StandsForSome ru.old }
    requires given { HasGivenPast ru.old }
{
    let mut air = Tally::new();
    for k in 0..slots {
        if !deliver_slot(ru, frames, k, &mut air) {
            return None;
        }
        all_to_next_slot(frames);
    }
    finish(ru, frames, slots, &mut air)
}

/// Lets the time of 1 ms pass after the last slot.
fn finish(ru: &mut Ru, frames: &Vec<TimedFrame>, slots: u16, air: &mut Tally) -> Option<Tally>
    requires unit { StandsForSome ru.old }
    requires given { HasGivenPast ru.old }
{
    let last = frames.last()?;
    let end = later(last.at, slots)?;
    if advance(ru, Ticks(end.0 + FRAME), air) {
        Some(*air)
    } else {
        None
    }
}

/// What an air heard of so many slots with the frames of a document.
pub fn run(alloc: Global, document: &Document, slots: u16) -> Option<Tally>
    requires { IsConfig document.now.config }
{
    let Ok(mut frames) = frames_of(alloc, &document.injections, Side::Ru) else {
        return None;
    };
    let mut ru = made(alloc, &document.config)?;
    deliver_slots(&mut ru, &mut frames, slots)
}

/// A unit that may be called.
fn made(alloc: Global, config: &Config) -> Option<Ru>
    requires { IsConfig config.now }
    ensures unit { IfSome result (λ u. StandsForSome u) }
    ensures given { IfSome result (λ u. HasGivenPast u) }
{
    match Ru::make(alloc, config) {
        Ok(ru) => Some(ru),
        Err(_) => None,
    }
}
