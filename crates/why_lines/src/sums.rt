// The sums of both units.
ghost use Rattle.std.specs.Prelude.{◌≡◌, List, [], ◌∷◌, ◌++◌, map, false, true, IfErr, IfOk, OnErr, OnOk};
ghost use Rattle.std.specs.List.{flat_map, list_all};
ghost use Rattle.air_source.specs.Causes.{HasAirCause};
ghost use Rattle.explain_model.specs.declared.values.ExplainLine.{ExplainLine as SpecLine};
ghost use Rattle.explain_heard.specs.Stops.{StopsInLine};
ghost use Rattle.why_lines.specs.Counting.{added, has_room, lines_at, none_of};
ghost use Rattle.why_lines.specs.Sums.{AreSums, DoNotFit, sum_text};
ghost use Rattle.window_config.specs.declared.endpoints.EndpointConfig.{EndpointConfig as SpecEndpoint};

use crate::line_sums::{LineSum, sum_of_line};
use crate::unit_sums::UnitSums;
use air_source::{AirFault, Side};
use explain_heard::LineSink;
use explain_model::ExplainLine;
use fh_base::NoMemory;
use std::alloc::Global;
use window_config::EndpointConfig;

/// How many cells and PRBs lines told of, for each unit, endpoint and reason.
#[derive(Drop)]
pub struct ReasonSums {
    all: Vec<UnitSums>,
}

/// Appends the sums of no line for each endpoint of a unit.
fn push_unit(
    all: &mut Vec<UnitSums>,
    side: Side,
    endpoints: &[EndpointConfig],
) -> Result<(), NoMemory>
    ensures { OnOk result (all.new.items ≡ all.old.items ++ map (none_of side) endpoints.now) }
{
    for endpoint in endpoints {
        all.push(UnitSums::new(side, endpoint.id))?;
    }
    Ok(())
}

/// Tells the lines of a unit.
fn tell_all<W: LineSink>(all: &[UnitSums], side: Side, out: &mut W) -> Result<(), AirFault>
    ensures heard { OnOk result (W.grew out.old (flat_map (lines_at side) all.now) out.new) }
    ensures stop { IfErr result (λ f. StopsInLine W.grew (W.stopped f) (flat_map (lines_at side) all.now) out.old out.new) }
    ensures same { W.same out.old out.new }
    ensures cause { HasAirCause (W.faults out.old) (W.faults out.new) result }
{
    for sums in all {
        sums.tell_at(side, out)?;
    }
    Ok(())
}

impl ReasonSums {
    /// Those of no line.
    pub fn make(alloc: Global, endpoints: &[EndpointConfig]) -> Result<ReasonSums, NoMemory>
        ensures { IfOk result (λ s. AreSums endpoints.now [] s) }
    {
        let mut all = Vec::new(alloc);
        push_unit(&mut all, Side::Ru, endpoints)?;
        push_unit(&mut all, Side::Du, endpoints)?;
        Ok(ReasonSums { all })
    }

    /// Whether all numbers with what a line adds are numbers of 64 bits.
    fn has_room(&self, more: &LineSum) -> bool
        ensures { result ≡ list_all (has_room more.now) self.now.all.items }
    {
        self.all.iter().all(|sums| sums.has_room(more))
    }

    /// Adds what a line adds.
    fn count(&mut self, more: &LineSum)
        requires { list_all (has_room more.now) self.old.all.items ≡ true }
        ensures { self.new.all.items ≡ map (added more.now) self.old.all.items }
    {
        for k in 0..self.all.len() {
            self.all[k] = self.all[k].with(more);
        }
    }

    /// Adds what a line adds, if the numbers fit.
    fn add_sum(&mut self, more: &LineSum) -> Result<(), NoMemory>
        ensures ok { OnOk result (self.new.all.items ≡ map (added more.now) self.old.all.items) }
        ensures err { OnErr result (self.new ≡ self.old) }
        ensures full { IfErr result (λ fault. list_all (has_room more.now) self.old.all.items ≡ false) }
    {
        if self.has_room(more) {
            self.count(more);
            Ok(())
        } else {
            Err(NoMemory)
        }
    }

    /// Adds a line. `NoMemory` only where a number would not fit 64 bits; then nothing changes.
    pub fn add(&mut self, line: &ExplainLine) -> Result<(), NoMemory>
        ensures ok { OnOk result ((es : List SpecEndpoint) (ls : List SpecLine) → AreSums es ls self.old → AreSums es (ls ++ line.now ∷ []) self.new) }
        ensures err { OnErr result (self.new ≡ self.old) }
        ensures full { IfErr result (λ fault. (es : List SpecEndpoint) (ls : List SpecLine) → AreSums es ls self.old → DoNotFit es (ls ++ line.now ∷ [])) }
    {
        match sum_of_line(line) {
            Some(more) => self.add_sum(&more),
            None => Ok(()),
        }
    }

    /// Tells the sums of a unit: endpoint by endpoint the cells that are shown, those that are missing for each reason and the PRBs
    /// that are silent for each, where the number is not 0.
    pub fn tell<W: LineSink>(&self, side: Side, out: &mut W) -> Result<(), AirFault>
        ensures heard { OnOk result ((es : List SpecEndpoint) (ls : List SpecLine) → AreSums es ls self.now → W.grew out.old (sum_text es side ls) out.new) }
        ensures stop { IfErr result (λ f. (es : List SpecEndpoint) (ls : List SpecLine) → AreSums es ls self.now
            → StopsInLine W.grew (W.stopped f) (sum_text es side ls) out.old out.new) }
        ensures same { W.same out.old out.new }
        ensures cause { HasAirCause (W.faults out.old) (W.faults out.new) result }
    {
        tell_all(self.all.as_slice(), side, out)
    }
}
