// Plans of many lines.
ghost use Rattle.std.specs.Prelude.{◌≤◌, All, IfOk, IfSome};
ghost use Rattle.window_config.specs.Configs.{IsConfig};
ghost use Rattle.window_config.specs.Plans.{IsPlanLine};

use crate::configs::{self, endpoint, listed, whole};
use fh_base::{List, NoMemory, Numerology, Slot};
use std::alloc::Global;
use window_config::{Config, PlanKind, PlanLine};

/// What the lines of a plan are.
#[derive(Clone, Copy, Debug, PartialEq, Eq)]
pub enum Kind {
    /// Each in a slot of its own, of all symbols and PRBs, at 240 kHz.
    Slots,
    /// The same of 106 PRBs at 30 kHz.
    Usual,
    /// One resource element each, in one slot.
    Elements,
}

impl Kind {
    /// The kind that a word names.
    pub fn of(word: &str) -> Option<Kind> {
        match word {
            "slots" => Some(Kind::Slots),
            "usual" => Some(Kind::Usual),
            "elements" => Some(Kind::Elements),
            _ => None,
        }
    }
}

/// The configuration of such plans: one endpoint, and the usual times.
pub fn config(kind: Kind) -> Option<Config>
    ensures { IfSome result (λ c. IsConfig c) }
{
    let code = match kind {
        Kind::Slots => 4,
        Kind::Usual | Kind::Elements => 1,
    };
    let prbs = match kind {
        Kind::Usual => 106,
        Kind::Slots | Kind::Elements => 273,
    };
    let endpoint = endpoint(0, Numerology::ordinary(code)?, prbs);
    configs::config(listed(endpoint), 1_492)
}

/// One resource element of the first slot, counted from the first one of symbol 0 on, where its cell has one section id.
fn element(k: u32) -> PlanLine
    ensures { IsPlanLine result }
{
    let prb = (k / 12 % 273) as u16;
    PlanLine {
        kind: PlanKind::Down,
        id: 0,
        slot: Slot {
            frame: 1,
            subframe: 0,
            slot: 0,
        },
        symbol: (k / 3276 % 14) as u8,
        count: 1,
        start_prb: prb,
        num_prb: 1,
        mask: (1_u16 << (k % 12)) & 0xfff,
        section: prb,
        beam: 0,
    }
}

/// Line k of a plan.
fn line(kind: Kind, k: u32) -> PlanLine
    requires { k ≤ 65536 }
    ensures { IsPlanLine result }
{
    match kind {
        Kind::Slots => {
            let slot = Slot {
                frame: 1 + i64::from(k / 160),
                subframe: (k / 16 % 10) as u8,
                slot: (k % 16) as u8,
            };
            whole(0, slot, 1)
        }
        Kind::Usual => {
            let slot = Slot {
                frame: 1 + i64::from(k / 20),
                subframe: (k / 2 % 10) as u8,
                slot: (k % 2) as u8,
            };
            whole(0, slot, 1)
        }
        Kind::Elements => element(k),
    }
}

/// A plan of so many lines.
pub fn lines(alloc: Global, kind: Kind, count: u32) -> Result<List<PlanLine>, NoMemory>
    requires { count ≤ 65536 }
    ensures { IfOk result (λ plan. All IsPlanLine plan) }
{
    let mut plan = List::new(alloc);
    for k in 0..count {
        plan.push(line(kind, k))?;
    }
    Ok(plan)
}
