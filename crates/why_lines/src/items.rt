// PRBs of a plan with silent elements.
ghost use Rattle.std.specs.Prelude.{◌≡◌};
ghost use Rattle.why_lines.specs.Silent.{silent_item, silent_line_of, silent_related};

use air_source::Side;
use explain_heard::RunItem;
use explain_model::{CommandRecord, ExplainLine, PrbRun, Reason, SlotKey, SymbolPlace};
use explain_records::{Asked, command_reason, is_next, same_reason};
use fh_base::Ticks;
use plan_model::PlannedLine;

/// A symbol of a line of a plan.
#[derive(Clone, Copy)]
pub(crate) struct LineSymbol {
    pub(crate) planned: PlannedLine,
    /// The line's number in the document.
    pub(crate) number: u64,
    /// The symbol in the slot, from 0.
    pub(crate) symbol: u8,
    /// The start of the symbol on the air.
    pub(crate) at: Ticks,
}

/// A PRB of a symbol of a line, some elements of which are silent, and why.
#[derive(Clone, Copy)]
pub(crate) struct SilentItem {
    pub(crate) of: LineSymbol,
    pub(crate) prb: u16,
    /// The silent elements, element 0 in the most significant of 12 bits.
    pub(crate) mask: u16,
    pub(crate) reason: Reason,
}

impl RunItem for SilentItem {
    ghost use Rattle.why_lines.specs.SilentSteps.{next_silent};

    ghost related = { silent_related };

    ghost place = { λ a. a.prb };

    ghost run_line = { silent_line_of };

    ghost steps = { next_silent };

    fn leads_to(&self, next: &Self) -> bool {
        self.of.planned.index == next.of.planned.index
            && self.of.symbol == next.of.symbol
            && self.mask == next.mask
            && same_reason(&self.reason, &next.reason)
            && is_next(self.prb, next.prb)
    }

    fn line(&self, num: u16) -> ExplainLine {
        let planned = &self.of.planned;
        ExplainLine::WhySilent {
            run: PrbRun {
                side: Side::Ru,
                at: self.of.at,
                place: SymbolPlace {
                    id: planned.endpoint.id,
                    slot: planned.line.slot,
                    symbol: self.of.symbol,
                },
                prb: self.prb,
                num: u32::from(num),
                section: planned.line.section,
            },
            mask: self.mask,
            line: self.of.number,
            reason: self.reason,
        }
    }
}

/// These silent elements of a PRB of a symbol of a line, and why they are silent.
pub(crate) fn silent_item(
    of: &LineSymbol,
    commanded: &[CommandRecord],
    prb: u16,
    mask: u16,
) -> SilentItem
    ensures { result ≡ silent_item commanded.now of.now prb mask }
{
    let asked = Asked {
        key: SlotKey {
            ep: of.planned.ep,
            slot: of.planned.line.slot,
        },
        down: true,
        symbol: of.symbol,
        prb,
        mask,
    };
    SilentItem {
        of: *of,
        prb,
        mask,
        reason: command_reason(commanded, &asked),
    }
}
