// A run of many slots.
ghost use Rattle.window_config.specs.Configs.{IsConfig};
ghost use Rattle.du_intake.specs.Closing.{IntakeStandsForSome};

use crate::intake::plans::lines;
use crate::slots::{TimedFrame, all_to_next_slot, frames_of, later};
use crate::tally::Tally;
use air_source::Side;
use du_intake::Intake;
use du_scheduler::tested;
use fh_document::Document;
use intake_tests::{close_before, made, step};
use std::alloc::Global;

/// How many slots are delivered, how many are planned, and how far these lie apart.
#[derive(Clone, Copy)]
pub struct Amounts {
    pub slots: u16,
    pub planned: u16,
    pub step: u16,
}

/// Delivers the frames of a slot, so many slots later. Whether each of them could be.
fn deliver_slot(unit: &mut Intake, frames: &Vec<TimedFrame>, slots: u16, air: &mut Tally) -> bool
    requires { IntakeStandsForSome unit.old }
    ensures { IntakeStandsForSome unit.new }
{
    for k in 0..frames.len() {
        let Some(at) = later(frames[k].at, slots) else {
            return false;
        };
        if close_before(unit, at, air).is_err() {
            return false;
        }
        if step(unit, at, frames[k].frame.as_slice()).is_none() {
            return false;
        }
    }
    true
}

/// Delivers the frames so many times, and what an air heard of them by 1 ms after the last slot.
fn deliver_slots(unit: &mut Intake, frames: &mut Vec<TimedFrame>, slots: u16) -> Option<Tally>
    requires { IntakeStandsForSome unit.old }
{
    let mut air = Tally::new();
    for k in 0..slots {
        if !deliver_slot(unit, frames, k, &mut air) {
            return None;
        }
        all_to_next_slot(frames);
    }
    let last = frames.last()?;
    let end = later(last.at.saturating_add(4_000_000), slots)?;
    close_before(unit, end, &mut air).ok()?;
    Some(air)
}

/// What an air heard of so many slots with the frames of a document.
pub fn run(alloc: Global, document: &Document, amounts: &Amounts) -> Option<Tally>
    requires { IsConfig document.now.config }
{
    let Ok(mut frames) = frames_of(alloc, &document.injections, Side::Du) else {
        return None;
    };
    let config = &document.config;
    let Ok(plan) = lines(
        alloc,
        config.endpoints.as_slice(),
        amounts.planned,
        amounts.step,
    ) else {
        return None;
    };
    if amounts.slots == 0 {
        return match tested(alloc, config, &plan) {
            Ok(()) => Some(Tally::new()),
            Err(_) => None,
        };
    }
    match made(alloc, config, &plan) {
        Ok(mut unit) => deliver_slots(&mut unit, &mut frames, amounts.slots),
        Err(_) => None,
    }
}
