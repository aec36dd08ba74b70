// What a summary remembers of the events.
ghost use Rattle.std.specs.Prelude.{◌≡◌, ◌+◌, ◌≤◌, ◌++◌, length, IfOk};
ghost use Rattle.report_airs.specs.States.{sum_start, ended_by, after_cell, after_delay, after_closing, closing_text};

use crate::delay_lines::append_delays;
use crate::run_lines::put_run;
use crate::runs::Run;
use air_source::{AirCell, Side};
use delay_measure::History;
use fh_base::{Line, NoMemory};
use std::alloc::Global;
use std::marker::Model;

/// How many results of each unit are kept.
const KEPT: usize = 16;

/// The run that may go on, and the last 16 results of each unit.
#[derive(Drop)]
pub struct Sums {
    run: Option<Run>,
    du: History,
    ru: History,
    // the lines of the delays were written
    told: bool,
}

impl Model for Sums {
    ghost use Rattle.std.specs.Prelude.{◌≡◌};
    ghost use Rattle.report_airs.specs.SumStates.{SumState};

    ghost Value = { SumState };

    ghost view = { λ s. record { run = s.run; du = s.du.items; ru = s.ru.items; told = s.told } };

    ghost invariant = { λ s. (s.du.capacity ≡ 16) × (s.ru.capacity ≡ 16) };
}

impl Sums {
    /// Nothing was heard yet. This takes all memory that a summary needs.
    pub fn make(alloc: Global) -> Result<Sums, NoMemory>
        ensures { IfOk result (λ s. s ≡ sum_start) }
    {
        let du = History::make(alloc, KEPT)?;
        let ru = History::make(alloc, KEPT)?;
        Ok(Sums {
            run: None,
            du,
            ru,
            told: false,
        })
    }

    /// Hears a cell, and gives the run that it ends, if it ends one.
    pub(crate) fn cell(&mut self, c: &AirCell) -> Option<Run>
        ensures ended { result ≡ ended_by self.old c.now }
        ensures after { self.new ≡ after_cell self.old c.now }
    {
        if let Some(run) = self.run {
            if run.goes_on_with(c) {
                self.run = Some(run.with(c));
                return None;
            }
        }
        let ended = self.run;
        self.run = Some(Run::new(c));
        ended
    }

    /// Hears a result.
    pub(crate) fn delay(&mut self, side: Side, value: i128)
        ensures { self.new ≡ after_delay self.old side value }
    {
        match side {
            Side::Du => self.du.push(value),
            Side::Ru => self.ru.push(value),
        }
    }

    /// Writes the lines that are before the counters in place of what was in the line: that of the run that is open, and
    /// those of the delays where they were not written.
    pub(crate) fn put_closing(&self, line: &mut Line)
        ensures text { line.new ≡ closing_text self.now }
        ensures short { length line.new ≤ 427 }
    {
        line.clear();
        if let Some(run) = self.run {
            put_run(&run, line);
        }
        if !self.told {
            append_delays(Side::Du, &self.du, line);
            append_delays(Side::Ru, &self.ru, line);
        }
    }

    /// These lines were written.
    pub(crate) fn close(&mut self)
        ensures { self.new ≡ after_closing self.old }
    {
        self.run = None;
        self.told = true;
    }
}
