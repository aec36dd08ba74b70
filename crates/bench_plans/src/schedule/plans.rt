// Plans of many downlink lines.
ghost use Rattle.std.specs.Prelude.{◌≡◌, ◌<◌, ◌≤◌, ◌∷◌, [], All, IfOk, IfSome};
ghost use Rattle.window_config.specs.Configs.{IsConfig};
ghost use Rattle.window_config.specs.Endpoints.{AreEndpoints};
ghost use Rattle.window_config.specs.Plans.{IsPlanLine};

use crate::configs::{self, endpoint, listed, whole};
use fh_base::{List, NoMemory, Numerology, Slot};
use std::alloc::Global;
use window_config::{Config, EndpointConfig, EndpointList, PlanLine};

/// What the lines of a plan are.
#[derive(Clone, Copy, Debug, PartialEq, Eq)]
pub enum Kind {
    /// Of four endpoints at 30 kHz, in three of four slots.
    Usual,
    /// Of one endpoint at 240 kHz, in each slot.
    Whole,
    /// The same, the last slot first.
    Backwards,
}

impl Kind {
    /// The kind that a word names.
    pub fn of(word: &str) -> Option<Kind> {
        match word {
            "usual" => Some(Kind::Usual),
            "whole" => Some(Kind::Whole),
            "backwards" => Some(Kind::Backwards),
            _ => None,
        }
    }
}

/// How many PRBs endpoints have, and how many application bytes a frame.
#[derive(Clone, Copy, Debug, PartialEq, Eq)]
pub struct Sizes {
    pub prbs: u16,
    pub fragment: usize,
    ghost some: { 1 ≤ prbs },
    ghost few: { prbs ≤ 273 },
    ghost least: { 128 ≤ fragment },
    ghost most: { fragment ≤ 9000 },
}

fn four_listed(
    a: EndpointConfig,
    b: EndpointConfig,
    c: EndpointConfig,
    d: EndpointConfig,
) -> EndpointList
    ensures { result ≡ a ∷ b ∷ c ∷ d ∷ [] }
{
    let mut endpoints = listed(a);
    let _room = endpoints.push(b);
    let _room = endpoints.push(c);
    let _room = endpoints.push(d);
    endpoints
}

/// The endpoints of such plans; their ids count from 0.
fn endpoints(kind: Kind, numerology: Numerology, prbs: u16) -> EndpointList
    requires some { 1 ≤ prbs }
    requires few { prbs ≤ 273 }
    ensures { AreEndpoints result }
{
    let first = endpoint(0, numerology, prbs);
    match kind {
        Kind::Usual => four_listed(
            first,
            endpoint(1, numerology, prbs),
            endpoint(2, numerology, prbs),
            endpoint(3, numerology, prbs),
        ),
        Kind::Whole | Kind::Backwards => listed(first),
    }
}

/// The configuration of such plans, with the usual times.
pub fn config(kind: Kind, sizes: &Sizes) -> Option<Config>
    ensures { IfSome result (λ c. IsConfig c) }
{
    let code = match kind {
        Kind::Usual => 1,
        Kind::Whole | Kind::Backwards => 4,
    };
    let endpoints = endpoints(kind, Numerology::ordinary(code)?, sizes.prbs);
    configs::config(endpoints, sizes.fragment)
}

/// Appends a line.
fn put(plan: &mut List<PlanLine>, line: PlanLine) -> Result<(), NoMemory>
    requires plan { All IsPlanLine plan.old }
    requires line { IsPlanLine line }
    ensures { All IsPlanLine plan.new }
{
    plan.push(line)?;
    Ok(())
}

/// Appends the lines of a slot.
fn put_slot(plan: &mut List<PlanLine>, kind: Kind, n: u32) -> Result<(), NoMemory>
    requires n { n < 65536 }
    requires plan { All IsPlanLine plan.old }
    ensures { All IsPlanLine plan.new }
{
    let section = 1 + (n % 4_000) as u16;
    match kind {
        Kind::Usual => {
            if n % 4 == 3 {
                return Ok(());
            }
            let slot = Slot {
                frame: 1 + i64::from(n / 20),
                subframe: (n / 2 % 10) as u8,
                slot: (n % 2) as u8,
            };
            put(plan, whole(0, slot, section))?;
            put(plan, whole(1, slot, section))?;
            put(plan, whole(2, slot, section))?;
            put(plan, whole(3, slot, section))?;
        }
        Kind::Whole | Kind::Backwards => {
            let slot = Slot {
                frame: 1 + i64::from(n / 160),
                subframe: (n / 16 % 10) as u8,
                slot: (n % 16) as u8,
            };
            put(plan, whole(0, slot, section))?;
        }
    }
    Ok(())
}

/// The lines of so many slots.
pub fn lines(alloc: Global, kind: Kind, count: u32) -> Result<List<PlanLine>, NoMemory>
    requires { count ≤ 65536 }
    ensures { IfOk result (λ plan. All IsPlanLine plan) }
{
    let mut plan = List::new(alloc);
    for k in 0..count {
        let n = match kind {
            Kind::Usual | Kind::Whole => k,
            Kind::Backwards => count - 1 - k,
        };
        put_slot(&mut plan, kind, n)?;
    }
    Ok(plan)
}
