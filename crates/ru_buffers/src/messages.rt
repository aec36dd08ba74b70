// The unit's uplink messages, and its next moment.
ghost use Rattle.std.specs.Prelude.{◌≡◌, [], IfNone, IfSome};
ghost use Rattle.window_config.specs.declared.config.Config.{Config};
ghost use Rattle.unit_model.specs.ProperJobs.{IsProperJob};
ghost use Rattle.unit_model.specs.Standing.{History};
ghost use Rattle.ru_buffers.specs.Calls.{radio_clock};
ghost use Rattle.fh_base.specs.Least.{earlier_time};

use crate::finding::find_message;
use crate::reporting::starts_by;
use crate::unit::Ru;
use fh_base::Ticks;
use unit_model::UplinkJob;

impl Ru {
    ghost use Rattle.ru_buffers.specs.Calls.{GivesJob, HasGivenPast, IsCellMoment, IsDue, IsMessageMoment, StandsFor};
    ghost use Rattle.unit_model.specs.Standing.{owed_until};

    /// The next uplink message whose symbol starts at the clock or before it and that was not given: in the order of starts,
    /// endpoints, slots, symbols, startPrbc, numPrbc, sectionId, filterIndex and acceptance. It is one of a symbol of an endpoint of
    /// the configuration, and its PRBs are the carrier's. None where there is none, and then nothing changes, and the clock may go on.
    pub fn next_uplink(&mut self) -> Option<UplinkJob>
        ensures given { (c : Config) (h : History) → StandsFor c self.old h → IfSome result (λ job. GivesJob c h job self.new) }
        ensures none { (c : Config) (h : History) → StandsFor c self.old h → IfNone result (owed_until c h h.clock ≡ []) }
        ensures proper { (c : Config) (h : History) → StandsFor c self.old h → IfSome result (λ job. IsProperJob c.endpoints h.clock job) }
        ensures ready { (c : Config) (h : History) → StandsFor c self.old h → IfNone result (HasGivenPast self.new) }
        ensures same { IfNone result (self.new ≡ self.old) }
        ensures clock { radio_clock self.new ≡ radio_clock self.old }
        ensures past { (c : Config) (h : History) → StandsFor c self.old h → HasGivenPast self.old → HasGivenPast self.new }
    {
        let next = match self.message {
            Some(next) => next,
            None => return None,
        };
        if !starts_by(&next.symbol, self.clock) {
            return None;
        }
        self.cursor = self.cursor.after(&next);
        self.message = find_message(&self.memory.cells, &self.cursor);
        Some(next.job)
    }

    /// The start of the first symbol of which a downlink cell is in use and was not reported.
    fn next_cell(&self) -> Option<Ticks>
        ensures { (c : Config) (h : History) → StandsFor c self.now h → IsCellMoment c h result }
    {
        match &self.symbol {
            Some(first) => Some(first.start),
            None => None,
        }
    }

    /// The start of the first symbol of which a message was not given.
    fn next_message(&self) -> Option<Ticks>
        ensures { (c : Config) (h : History) → StandsFor c self.now h → IsMessageMoment c h result }
    {
        match &self.message {
            Some(next) => Some(next.symbol.start),
            None => None,
        }
    }

    /// The least start of a symbol, in ticks, of which a downlink cell is in use and was not reported, or an uplink message was not
    /// given. None where there is neither.
    pub fn due(&self) -> Option<Ticks>
        ensures { (c : Config) (h : History) → StandsFor c self.now h → IsDue c h result }
    {
        earlier_of(self.next_cell(), self.next_message())
    }
}

/// The earlier of two times, where there are any.
fn earlier_of(a: Option<Ticks>, b: Option<Ticks>) -> Option<Ticks>
    ensures { result ≡ earlier_time a b }
{
    match (a, b) {
        (None, _) => b,
        (_, None) => a,
        (Some(x), Some(y)) => Some(if y.0 < x.0 { y } else { x }),
    }
}
