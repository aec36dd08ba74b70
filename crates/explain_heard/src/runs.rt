// The runs of items that are given one by one.
ghost use Rattle.std.specs.Prelude.{◌≡◌, ◌+◌, ◌-◌, ◌^◌, ◌<◌, true, ℕ, List, [], ◌∷◌, ◌++◌, Some, None, OnOk, IfErr};
ghost use Rattle.air_source.specs.Causes.{HasAirCause};
ghost use Rattle.explain_heard.specs.Runs.{AreRun, HasPut, StopsPutting, open_line, run_lines, takes, with_item};
ghost use Rattle.explain_heard.specs.Stops.{StopsInLine};

use crate::items::RunItem;
use crate::sinks::LineSink;
use air_source::AirFault;
use std::marker::Model;

/// A run of at least one item.
#[derive(Drop)]
struct Open<T: RunItem> {
    first: T,
    last: T,
    count: u16,
    ghost spans: { T.place first + count ≡ T.place last + 1 },
    ghost fits: { T.place last < 2 ^ 16 - 1 },
}

/// The run that is open while items are given. Contracts see it as its first and last item and their number, or None.
#[derive(Drop)]
pub struct LineRuns<T: RunItem> {
    open: Option<Open<T>>,
}

impl<T: RunItem> Model for LineRuns<T> {
    ghost use Rattle.std.specs.Prelude.{Option};
    ghost use Rattle.std.specs.Option.{option_map};
    ghost use Rattle.explain_heard.specs.Runs.{OpenRun};

    ghost Value = { Option (OpenRun T) };

    ghost view = { λ r. option_map (λ o. record { first = o.first; last = o.last; count = o.count }) r.open };
}

impl<T: RunItem> LineRuns<T> {
    /// No items, and no run.
    pub fn new() -> Self
        ensures { result ≡ None }
    {
        LineRuns { open: None }
    }

    /// Whether an item goes on with the open run, if there is one.
    fn takes(&self, item: &T) -> bool
        ensures { result ≡ takes T.related self.now item.now }
    {
        match &self.open {
            Some(run) => run.last.leads_to(item),
            None => true,
        }
    }

    /// Adds an item to the open run, or begins one with it.
    fn add(&mut self, item: T)
        requires takes { takes T.related self.old item ≡ true }
        requires fits { T.place item < 2 ^ 16 - 1 }
        ensures { self.new ≡ Some (with_item self.old item) }
    {
        let longer = match &self.open {
            Some(run) => Open {
                first: run.first,
                last: item,
                count: run.count + 1,
            },
            None => Open {
                first: item,
                last: item,
                count: 1,
            },
        };
        self.open = Some(longer);
    }

    /// Tells the line of the open run, if there is one, and holds none. After an error the run is still open.
    fn close<W: LineSink>(&mut self, out: &mut W) -> Result<(), AirFault>
        ensures ok { OnOk result (self.new ≡ None) }
        ensures heard { OnOk result (W.grew out.old (open_line T.run_line self.old) out.new) }
        ensures stop { IfErr result (λ f. StopsInLine W.grew (W.stopped f) (open_line T.run_line self.old) out.old out.new) }
        ensures same { W.same out.old out.new }
        ensures cause { HasAirCause (W.faults out.old) (W.faults out.new) result }
    {
        match &self.open {
            Some(run) => {
                let line = run.first.line(run.count);
                out.put(&line)?;
                self.open = None;
                Ok(())
            }
            None => Ok(()),
        }
    }

    /// Takes one item more. Where it does not go on with the open run, that run's line is told first.
    ///
    /// For all items before it: if they were taken so, they are so with this one more. After an error the sink took the first of the
    /// lines of all items, whichever follow, and stopped in the next one.
    pub fn put<W: LineSink>(&mut self, item: T, out: &mut W) -> Result<(), AirFault>
        requires { T.place item < 2 ^ 16 - 1 }
        ensures ok { OnOk result (HasPut T.related T.run_line W.grew (item ∷ []) self.old out.old self.new out.new) }
        ensures stop { IfErr result (λ f. StopsPutting T.related T.run_line W.grew (W.stopped f) (item ∷ []) self.old out.old out.new) }
        ensures same { W.same out.old out.new }
        ensures cause { HasAirCause (W.faults out.old) (W.faults out.new) result }
    {
        if self.takes(&item) {
            self.add(item);
            return Ok(());
        }
        self.close(out)?;
        self.add(item);
        Ok(())
    }

    /// Tells the line of the last run, if there is one: then the sink took the lines of all runs.
    pub fn finish<W: LineSink>(&mut self, out: &mut W) -> Result<(), AirFault>
        ensures ok { OnOk result ((base : W) (items : List T) → AreRun T.related T.run_line W.grew base items self.old out.old → W.grew base (run_lines T.related T.run_line items) out.new) }
        ensures stop { IfErr result (λ f. (base : W) (items : List T) → AreRun T.related T.run_line W.grew base items self.old out.old
            → StopsInLine W.grew (W.stopped f) (run_lines T.related T.run_line items) base out.new) }
        ensures same { W.same out.old out.new }
        ensures cause { HasAirCause (W.faults out.old) (W.faults out.new) result }
    {
        self.close(out)
    }
}
