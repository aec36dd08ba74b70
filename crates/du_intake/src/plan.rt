// The uplink of a plan: its lines slot by slot, and its symbols in the order in which they are told.
ghost use Rattle.std.specs.Prelude.{◌≡◌, ◌-◌, ◌≤◌, IfOk, Some, drop, length, slice_get, take};
ghost use Rattle.window_config.specs.Configs.{IsConfig};
ghost use Rattle.du_intake.specs.Planned.{IsPlanOf};
ghost use Rattle.fh_base.specs.declared.carrier.TheConstants.{CARRIER_PRBS};

use crate::claims::{PlannedClaim, claim_symbol};
use crate::lines::{UplinkLine, sort_by_home, uplink_lines};
use crate::symbols::{PlannedSymbol, planned_symbols};
use fh_base::NoMemory;
use plan_model::PlannedLine;
use std::alloc::Global;
use unit_model::SymbolStart;
use window_config::{Config, EndpointConfig};

/// What the uplink lines of a plan name.
#[derive(Drop)]
pub struct UplinkPlan {
    /// The lines, by endpoint and slot.
    pub(crate) lines: Vec<UplinkLine>,
    /// The symbols of which they name cells, each once: by their starts, and at one tick by endpoint, slot and symbol.
    pub(crate) symbols: Vec<PlannedSymbol>,
}

/// Which uplink cell is reported next.
#[derive(Clone, Copy, Debug, PartialEq, Eq)]
pub struct Place {
    /// The index of the first symbol of which a planned cell is left.
    pub symbol: usize,
    /// The PRBs of this symbol below this one are done.
    pub prb: u16,
}

impl UplinkPlan {
    ghost use Rattle.du_intake.specs.Rows.{IsRowOf};
    ghost use Rattle.du_intake.specs.Symbols.{IsListed, IsListedSome, lines_in, symbol_at};
    ghost use Rattle.du_intake.specs.declared.symbols.PlannedSymbol.{PlannedSymbol as SpecSymbol};
    ghost use Rattle.plan_model.specs.Lines.{uplink_allocations};

    /// Keeps what the uplink lines of a plan name.
    pub(crate) fn make(
        alloc: Global,
        config: &Config,
        planned: &[PlannedLine],
    ) -> Result<UplinkPlan, NoMemory>
        requires config { IsConfig config.now }
        requires plan { IsPlanOf config.now planned.now }
        ensures { IfOk result (λ p. IsListed config.now (uplink_allocations planned.now) p) }
    {
        let mut lines = uplink_lines(alloc, planned)?;
        sort_by_home(&mut lines)?;
        lines.shrink_to_fit();
        let symbols = planned_symbols(alloc, config.endpoints.as_slice(), &lines)?;
        Ok(UplinkPlan { lines, symbols })
    }

    /// The symbol at an index, if there is one.
    pub(crate) fn planned_symbol(&self, index: usize) -> Option<PlannedSymbol>
        ensures { result ≡ slice_get self.now.symbols.items index }
    {
        self.symbols.get(index).copied()
    }

    /// The lines from one index to another.
    fn lines_from(&self, first: usize, last: usize) -> &[UplinkLine]
        requires order { first ≤ last }
        requires within { last ≤ length self.now.lines.items }
        ensures { result.now ≡ take (last - first) (drop first self.now.lines.items) }
    {
        &self.lines[first..last]
    }

    /// Fills the row with what the lines claim of the symbol at an index, if there is one.
    pub(crate) fn claim(&self, index: usize, row: &mut [PlannedClaim])
        requires plan { IsListedSome self.now }
        requires room { CARRIER_PRBS ≤ length row.old }
        ensures len { length row.new ≡ length row.old }
        ensures claims { (s : SpecSymbol) → slice_get self.now.symbols.items index ≡ Some s → IsRowOf (lines_in self.now.lines.items s) s.symbol row.new }
    {
        match self.planned_symbol(index) {
            None => {}
            Some(symbol) => {
                let lines = self.lines_from(symbol.first, symbol.last);
                claim_symbol(row, lines, symbol.symbol);
            }
        }
    }

    /// The start of the symbol at an index, if there is one.
    pub(crate) fn symbol_at(
        &self,
        endpoints: &[EndpointConfig],
        index: usize,
    ) -> Option<SymbolStart>
        ensures { result ≡ symbol_at endpoints.now self.now index }
    {
        let symbol = self.planned_symbol(index)?;
        let line = self.lines.get(symbol.first)?;
        let endpoint = endpoints.get(line.ep)?;
        Some(SymbolStart {
            ep: line.ep,
            endpoint: *endpoint,
            start: symbol.start,
            slot: line.slot,
            symbol: symbol.symbol,
        })
    }
}
