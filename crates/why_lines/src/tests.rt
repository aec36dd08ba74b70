// A planned section of which no copy was received: its line in a worked explanation.
ghost use Rattle.std.specs.Prelude.{◌≡◌};
ghost use Rattle.fh_base.specs.Numbering.{ordinary_at};
ghost use Rattle.fh_base.specs.declared.spacing.Spacing.TheVariants.{Khz30};
ghost use Rattle.why_lines.specs.Silent.{IsSilentLine};

use crate::puts::tell_silent;
use air_source::{AirFault, Side};
use bfp_codec::{Format, Method};
use explain_heard::LineSink;
use explain_model::{CellRun, ExplainLine, PrbRun, Reason, SymbolPlace};
use explain_records::{KeptRecords, SymbolRecords};
use fh_base::{Numerology, Slot, Ticks};
use plan_model::PlannedLine;
use std::test::Fail;
use window_config::{EndpointConfig, PlanKind, PlanLine};

/// The last line that it took, and how many it took.
#[derive(Clone, Copy)]
struct Last {
    line: Option<ExplainLine>,
    count: u8,
}

impl LineSink for Last {
    ghost faults = { λ _. 0 };

    ghost grew = { λ _ _ _. Unit {0} };

    ghost stopped = { λ _ _ _ _. Unit {0} };

    ghost same = { λ _ _. Unit {0} };

    fn put(&mut self, line: &ExplainLine) -> Result<(), AirFault> {
        self.line = Some(*line);
        self.count = self.count.wrapping_add(1);
        Ok(())
    }

    ghost grew_none = { λ _. tt };

    ghost grew_more = { λ _ _ _ _ _ _ _. tt };

    ghost same_none = { λ _. tt };

    ghost same_more = { λ _ _ _ _ _. tt };
}

const SLOT: Slot = Slot {
    frame: 1,
    subframe: 0,
    slot: 0,
};

/// Cells without samples of a symbol of the slot.
fn cells(at: i64, symbol: u8, count: u16, section: u16, mask: u16) -> CellRun {
    CellRun {
        side: Side::Ru,
        at: Ticks(at),
        id: 0,
        ep: 0,
        slot: SLOT,
        symbol,
        prb: 0,
        count,
        section,
        mask,
        shown: false,
    }
}

/// `plan dl 0000 1 0 0 2 1 0 2 fff 3 0` at its endpoint of 4 PRBs.
fn planned(numerology: Numerology) -> PlannedLine
    requires { numerology ≡ ordinary_at Khz30 }
    ensures fits { IsSilentLine result }
    ensures first { result.index ≡ 0 }
{
    PlannedLine {
        index: 0,
        ep: 0,
        endpoint: EndpointConfig {
            id: 0,
            numerology,
            prbs: 4,
            format: Format {
                dynamic: false,
                method: Method::Plain,
            },
        },
        line: PlanLine {
            kind: PlanKind::Down,
            id: 0,
            slot: SLOT,
            symbol: 2,
            count: 1,
            start_prb: 0,
            num_prb: 2,
            mask: 0xFFF,
            section: 3,
            beam: 0,
        },
    }
}

#[test]
fn a_section_without_a_copy_is_silent(rt: HostRuntime) -> Result<(), Fail> {
    let numerology = Numerology::ordinary(1).expect(&rt, "30 kHz");
    let mut runs = SymbolRecords::new(rt.alloc());
    runs.push(cells(15_360_000_000, 0, 4, 1, 0xFFF))?;
    runs.push(cells(15_415_600_000, 1, 2, 2, 0xFF0))?;
    let runs = runs.order()?;
    let kept = KeptRecords::new(rt.alloc()).order()?;
    let mut told = Last {
        line: None,
        count: 0,
    };
    let lines = [planned(numerology)];
    let result = tell_silent(&kept, &runs, &lines, &[4], &mut told);
    assert!(rt; result.is_ok());
    assert_eq!(rt; told.count, 1);
    match told.line {
        Some(
            ExplainLine::WhySilent {
                run,
                mask,
                line,
                reason,
            },
        ) => {
            let place = SymbolPlace {
                id: 0,
                slot: SLOT,
                symbol: 2,
            };
            let wanted = PrbRun {
                side: Side::Ru,
                at: Ticks(15_470_400_000),
                place,
                prb: 0,
                num: 2,
                section: 3,
            };
            assert_eq!(rt; run, wanted);
            assert_eq!(rt; (mask, line), (0xFFF, 4));
            assert_eq!(rt; reason, Reason::NoCommand);
        }
        _ => assert!(rt; false),
    }
    Ok(())
}
