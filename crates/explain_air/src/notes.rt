// What is noted of the lines that are told.
ghost use Rattle.std.specs.Prelude.{◌≡◌, [], ◌∷◌, ◌++◌, ◌⊎◌, IfErr, IfOk, OnOk};
ghost use Rattle.std.proofs.Common.{inl, inr};
ghost use Rattle.air_source.specs.Causes.{HasAirCause};
ghost use Rattle.explain_air.specs.NoteLaws.{noted_more, noted_none};
ghost use Rattle.explain_air.specs.Notes.{AreNotes, HasNoted, run_of_line};
ghost use Rattle.explain_model.specs.Seen.{ep_found};
ghost use Rattle.unit_model.specs.Meetings.{find_endpoint};

use crate::cells::CellRuns;
use air_source::AirFault;
use explain_heard::LineSink;
use explain_model::{CellRun, CellWord, ExplainLine, PrbRun};
use fh_base::NoMemory;
use std::alloc::Global;
use why_lines::ReasonSums;
use window_config::{Config, EndpointConfig};

/// What is noted of the lines that are told.
#[derive(Drop)]
pub(crate) struct Notes {
    /// The endpoints in the configuration's order.
    pub(crate) endpoints: Vec<EndpointConfig>,
    /// How many cells are shown, and how many missing or silent for which reason.
    pub(crate) sums: ReasonSums,
    /// The runs of cells, in the order in which they were told.
    pub(crate) cells: CellRuns,
}

/// The endpoint with an id.
fn endpoint_with(endpoints: &[EndpointConfig], id: u16) -> Option<(usize, EndpointConfig)>
    ensures { result ≡ find_endpoint endpoints.now id }
{
    for (ep, endpoint) in endpoints.iter().enumerate() {
        if endpoint.id == id {
            return Some((ep, *endpoint));
        }
    }
    None
}

/// The index of the endpoint with an id; 0 where there is none.
fn ep_of(endpoints: &[EndpointConfig], id: u16) -> usize
    ensures { result ≡ ep_found (find_endpoint endpoints.now id) }
{
    match endpoint_with(endpoints, id) {
        Some((ep, _)) => ep,
        None => 0,
    }
}

impl Notes {
    /// Nothing is noted.
    pub(crate) fn make(alloc: Global, config: &Config) -> Result<Notes, NoMemory>
        ensures { IfOk result (λ n. AreNotes config.now.endpoints [] n) }
    {
        let endpoints = Vec::from_slice(alloc, config.endpoints.as_slice())?;
        let sums = ReasonSums::make(alloc, config.endpoints.as_slice())?;
        Ok(Notes {
            endpoints,
            sums,
            cells: CellRuns::new(alloc),
        })
    }

    /// The endpoints once more.
    pub(crate) fn copy_endpoints(&self, alloc: Global) -> Result<Vec<EndpointConfig>, NoMemory>
        ensures { IfOk result (λ v. v.items ≡ self.now.endpoints.items) }
    {
        let endpoints = Vec::from_slice(alloc, self.endpoints.as_slice())?;
        Ok(endpoints)
    }

    // Keeps the cells of a line.
    fn keep_run(&mut self, run: &PrbRun, mask: u16, word: CellWord) -> Result<(), NoMemory>
        ensures endpoints { self.new.endpoints ≡ self.old.endpoints }
        ensures sums { self.new.sums ≡ self.old.sums }
        ensures cells { OnOk result (self.new.cells ≡ self.old.cells ++ run_of_line self.old.endpoints.items run.now mask word ∷ []) }
    {
        if u64::from(run.prb) + u64::from(run.num) > u64::from(u16::MAX) {
            return Err(NoMemory);
        }
        let shown = match word {
            CellWord::Shown { .. } => true,
            CellWord::Missing => false,
        };
        self.cells.push(CellRun {
            side: run.side,
            at: run.at,
            id: run.place.id,
            ep: ep_of(self.endpoints.as_slice(), run.place.id),
            slot: run.place.slot,
            symbol: run.place.symbol,
            prb: run.prb,
            count: run.num as u16,
            section: run.section,
            mask,
            shown,
        })
    }

    /// Notes a line. `NoMemory` where memory or a number runs out.
    pub(crate) fn note(&mut self, line: &ExplainLine) -> Result<(), NoMemory>
        ensures { OnOk result (HasNoted self.old (line.now ∷ []) self.new) }
    {
        self.sums.add(line)?;
        match line {
            ExplainLine::Cells { run, mask, word } => self.keep_run(run, *mask, *word),
            _ => Ok(()),
        }
    }
}

/// Notes a line, and passes it on.
pub(crate) fn note_and_put<W: LineSink>(
    line: &ExplainLine,
    notes: &mut Notes,
    out: &mut W,
) -> Result<(), AirFault>
    ensures noted { OnOk result (HasNoted notes.old (line.now ∷ []) notes.new) }
    ensures heard { OnOk result (W.grew out.old (line.now ∷ []) out.new) }
    ensures stop { IfErr result (λ f. W.stopped f out.old line.now out.new ⊎ W.grew out.old [] out.new) }
    ensures same { W.same out.old out.new }
    ensures cause { HasAirCause (W.faults out.old) (W.faults out.new) result }
{
    notes.note(line)?;
    out.put(line)
}

/// Notes lines, and passes them on.
#[derive(Drop)]
pub(crate) struct Noting<'a, W> {
    pub(crate) out: &'a mut W,
    pub(crate) notes: &'a mut Notes,
}

impl<'a, W: LineSink> LineSink for Noting<'a, W> {
    ghost use Rattle.explain_air.specs.Notings.{IsSameNoting, same_none, same_more};

    ghost faults = { λ n. W.faults n.out.now };

    ghost grew = { λ a lines b. W.grew a.out.now lines b.out.now × HasNoted a.notes.now lines b.notes.now };

    ghost stopped = { λ f a line b. W.stopped f a.out.now line b.out.now ⊎ W.grew a.out.now [] b.out.now };

    ghost same = { λ a b. IsSameNoting W.same a b };

    ghost grew_none = { λ a. (W.grew_none a.out.now, noted_none a.notes.now) };

    ghost grew_more = { λ a b c first second g h. (W.grew_more a.out.now b.out.now c.out.now first second g.0 h.0, noted_more a.notes.now b.notes.now c.notes.now first second g.1 h.1) };

    ghost same_none = { λ a. same_none W.same W.same_none a };

    ghost same_more = { λ a b c first second. same_more W.same W.same_more a b c first second };

    fn put(&mut self, line: &ExplainLine) -> Result<(), AirFault> {
        note_and_put(line, self.notes, self.out)
    }
}
