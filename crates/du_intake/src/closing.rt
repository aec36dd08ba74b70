// The report of the unit's cells.
ghost use Rattle.std.specs.Prelude.{◌≡◌, ◌∷◌, [], ◌≤ℤ◌, ◌<ℤ◌, true, false, Some, OnErr, OnOk, IfErr, IfNone, IfSome, map, option_to_list};
ghost use Rattle.air_source.specs.Causes.{HasAirCause};
ghost use Rattle.air_source.specs.declared.events.Event.TheVariants.{Cell as Reported};
ghost use Rattle.air_source.specs.declared.events.Side.TheVariants.{Du as AtDu};
ghost use Rattle.window_config.specs.declared.config.Config.{Config as SpecConfig};
ghost use Rattle.unit_model.specs.Proper.{IsAt, IsSlot, IsTime};
ghost use Rattle.unit_model.specs.Radiated.{report_of};
ghost use Rattle.unit_model.specs.Standing.{History, at_clock, heard};
ghost use Rattle.unit_model.specs.declared.allocations.Allocation.{Allocation as SpecAllocation};
ghost use Rattle.unit_cells.specs.Cells.{cells_block, endpoints_of};
ghost use Rattle.unit_symbols.specs.DueSymbols.{CountsTold};
ghost use Rattle.du_intake.specs.Cursors.{uplink_cell_in};
ghost use Rattle.du_intake.specs.Rows.{claim_of_planned};
ghost use Rattle.du_intake.specs.Units.{intake_due_of};
ghost use Rattle.std.specs.Prelude.{◌+◌, ◌<◌, ◌^◌, ◌+ℤ◌, ℤ, List, length};

use crate::claims::{PlannedClaim, claim_of_prb};
use crate::plan::Place;
use crate::unit::{Intake, moment_of};
use air_source::{Air, AirCell, AirFault, Side};
use fault_counters::Counters;
use fh_base::Ticks;
use unit_cells::UnitCells;
use unit_model::{SymbolStart, block_counter, samples_under};

/// Whether a time is before another one.
fn is_before(a: Ticks, b: Ticks) -> bool
    ensures before { result ≡ true → a.0 <ℤ b.0 }
    ensures after { result ≡ false → b.0 ≤ℤ a.0 }
{
    a.0 < b.0
}

/// The report of a cell of a symbol, where an element of it is claimed.
fn planned_cell(
    cells: &UnitCells,
    claim: PlannedClaim,
    m: &SymbolStart,
    prb: u16,
) -> Option<AirCell>
    requires at { IsAt (endpoints_of cells.now) m.now.ep m.now.endpoint }
    requires slot { IsSlot m.now.endpoint.numerology m.now.slot }
    requires few { claim.mask < 2 ^ 12 }
    ensures { option_to_list result ≡ report_of AtDu m.now.endpoint (uplink_cell_in m.now prb) m.now.start.0 (claim_of_planned claim) (cells_block cells.now (uplink_cell_in m.now prb)) }
{
    if claim.mask == 0 {
        return None;
    }
    let block = cells.ring(m.ep).block(m.slot, m.symbol, prb).copied();
    Some(AirCell {
        side: Side::Du,
        at: m.start,
        id: m.endpoint.id,
        slot: m.slot,
        symbol: m.symbol,
        prb,
        section: claim.section,
        mask: claim.mask,
        block: samples_under(claim.section, block),
    })
}

/// Hands an air a cell, and counts it. After an error nothing is counted.
fn tell<A: Air>(counters: &mut Counters, cell: &AirCell, air: &mut A) -> Result<(), AirFault>
    ensures told { OnOk result (A.grew air.old (Reported cell.now ∷ []) air.new × CountsTold (cell.now ∷ []) counters.old counters.new) }
    ensures stop { IfErr result (λ f. A.stopped f air.old (Reported cell.now) air.new × (counters.new ≡ counters.old)) }
    ensures same { A.same air.old air.new }
    ensures cause { HasAirCause (A.faults air.old) (A.faults air.new) result }
{
    air.cell(cell)?;
    counters.add(block_counter(cell.block));
    Ok(())
}

impl Intake {
    ghost use Rattle.du_intake.specs.Calls.{IntakeStandsFor, next_in, intake_clock};
    ghost use Rattle.du_intake.specs.Closing.{Closes, ClosesSome, ComesLater, IntakeGoesOn, HasClaimed, IsClaimedFrom, IsNextDue, IntakeStandsForSome, StaysAt, IntakeStopsAtDue, IntakeToldAll, at_prb};

    /// Reports the cell of a symbol at a PRB, where an element of it is claimed. After an error it is the next to be reported.
    fn close_cell<A: Air>(&mut self, m: &SymbolStart, prb: u16, air: &mut A) -> Result<(), AirFault>
        requires unit { ClosesSome (at_prb self.old prb) }
        requires next { next_in self.old ≡ Some m.now }
        requires within { prb < m.now.endpoint.prbs }
        requires claims { HasClaimed self.old }
        ensures told { (c : SpecConfig) (planned : List SpecAllocation) (h : History) (to : ℤ) → Closes c planned (at_prb self.old prb) h
            → (m.now.start.0 +ℤ self.old.wait.0) ≤ℤ to → OnOk result (IntakeGoesOn A.grew c planned h to (at_prb self.new (prb + 1)) air.old air.new) }
        ensures stop { (c : SpecConfig) (planned : List SpecAllocation) (h : History) (to : ℤ) → Closes c planned (at_prb self.old prb) h
            → (m.now.start.0 +ℤ self.old.wait.0) ≤ℤ to → IfErr result (λ f. IntakeStopsAtDue A.grew (A.stopped f) c planned h to self.new air.old air.new) }
        ensures stays { StaysAt self.old self.new }
        ensures same { A.same air.old air.new }
        ensures cause { HasAirCause (A.faults air.old) (A.faults air.new) result }
    {
        let claim = claim_of_prb(&self.row, prb);
        match planned_cell(&self.memory.cells, claim, m, prb) {
            None => Ok(()),
            Some(cell) => {
                self.place.prb = prb;
                tell(&mut self.memory.counters, &cell, air)
            }
        }
    }

    /// Fills the row with what the lines claim of the symbol at the place.
    fn claim(&mut self)
        requires { ClosesSome self.old }
        ensures claims { HasClaimed self.new }
        ensures room { length self.new.row.items ≡ length self.old.row.items }
        ensures stays { IsClaimedFrom self.old self.new }
    {
        self.plan.claim(self.place.symbol, &mut self.row);
    }

    /// Reports the cells of the symbol at the place, from its PRB on, and goes on to the next symbol.
    fn close_symbol<A: Air>(&mut self, m: &SymbolStart, air: &mut A) -> Result<(), AirFault>
        requires unit { ClosesSome self.old }
        requires next { next_in self.old ≡ Some m.now }
        ensures told { (c : SpecConfig) (planned : List SpecAllocation) (h : History) (to : ℤ) → Closes c planned self.old h → (m.now.start.0 +ℤ self.old.wait.0) ≤ℤ to
            → OnOk result (IntakeGoesOn A.grew c planned h to self.new air.old air.new) }
        ensures stop { (c : SpecConfig) (planned : List SpecAllocation) (h : History) (to : ℤ) → Closes c planned self.old h → (m.now.start.0 +ℤ self.old.wait.0) ≤ℤ to
            → IfErr result (λ f. IntakeStopsAtDue A.grew (A.stopped f) c planned h to self.new air.old air.new) }
        ensures plan { self.new.plan ≡ self.old.plan }
        ensures place { OnOk result (self.new.place.symbol ≡ self.old.place.symbol + 1) }
        ensures clock { self.new.clock ≡ self.old.clock }
        ensures wait { self.new.wait ≡ self.old.wait }
        ensures same { A.same air.old air.new }
        ensures cause { HasAirCause (A.faults air.old) (A.faults air.new) result }
    {
        self.claim();
        for prb in self.place.prb..m.endpoint.prbs {
            self.close_cell(m, prb, air)?;
        }
        self.place = Place {
            symbol: self.place.symbol + 1,
            prb: 0,
        };
        Ok(())
    }

    /// The symbol of the next cell, where its moment is reached by a time.
    fn next_due(&self, to: Ticks) -> Option<SymbolStart>
        requires unit { ClosesSome self.now }
        ensures some { IfSome result (λ m. IsNextDue self.now to.0 m) }
        ensures none { IfNone result (ComesLater self.now to.0) }
    {
        let next = match self
            .plan
            .symbol_at(&self.memory.endpoints, self.place.symbol)
        {
            Some(next) => next,
            None => return None,
        };
        if is_before(to, moment_of(next.start, self.wait)) {
            return None;
        }
        Some(next)
    }

    /// Reports all cells whose moments are reached by a time.
    fn close_due<A: Air>(&mut self, to: Ticks, air: &mut A) -> Result<(), AirFault>
        requires { IntakeStandsForSome self.old }
        ensures told { (c : SpecConfig) (planned : List SpecAllocation) (h : History) → IntakeStandsFor c planned self.old h
            → OnOk result (IntakeToldAll A.grew c planned h to.0 self.new air.old air.new) }
        ensures stop { (c : SpecConfig) (planned : List SpecAllocation) (h : History) → IntakeStandsFor c planned self.old h
            → IfErr result (λ f. IntakeStopsAtDue A.grew (A.stopped f) c planned h to.0 self.new air.old air.new) }
        ensures clock { self.new.clock ≡ self.old.clock }
        ensures same { A.same air.old air.new }
        ensures cause { HasAirCause (A.faults air.old) (A.faults air.new) result }
    {
        while let Some(next) = self.next_due(to) {
            self.close_symbol(&next, air)?;
        }
        Ok(())
    }

    /// Hands the air every planned cell that was not reported whose moment, the start of its symbol and Ta4's maximum, is at most
    /// `to`: in the order of starts, endpoints, slots, symbols and PRBs, with the elements that lines name of it, and with the
    /// samples that were received under their section id. The clock is then `to`. After an error the clock stays, and the next cell
    /// to be reported is the one in which the air stopped. No memory is asked for beside the air's.
    ///
    /// # Errors
    ///
    /// The air's: the fault with which it stopped.
    pub fn close_until<A: Air>(&mut self, to: Ticks, air: &mut A) -> Result<(), AirFault>
        requires unit { IntakeStandsForSome self.old }
        requires order { (intake_clock self.old).0 ≤ℤ to.0 }
        requires time { IsTime to.0 }
        ensures heard { (c : SpecConfig) (planned : List SpecAllocation) (h : History) → IntakeStandsFor c planned self.old h
            → OnOk result (A.grew air.old (map Reported (intake_due_of c planned h to.0)) air.new) }
        ensures stands { (c : SpecConfig) (planned : List SpecAllocation) (h : History) → IntakeStandsFor c planned self.old h
            → OnOk result (IntakeStandsFor c planned self.new (at_clock (heard h (intake_due_of c planned h to.0)) to.0)) }
        ensures clock { OnOk result (intake_clock self.new ≡ to) }
        ensures stop { (c : SpecConfig) (planned : List SpecAllocation) (h : History) → IntakeStandsFor c planned self.old h
            → IfErr result (λ f. IntakeStopsAtDue A.grew (A.stopped f) c planned h to.0 self.new air.old air.new) }
        ensures stays { OnErr result (intake_clock self.new ≡ intake_clock self.old) }
        ensures same { A.same air.old air.new }
        ensures cause { HasAirCause (A.faults air.old) (A.faults air.new) result }
    {
        self.close_due(to, air)?;
        self.clock = to;
        Ok(())
    }
}
