// What is counted of the arrivals of a flow.
ghost use Rattle.std.specs.Prelude.{◌≡◌, ℕ, ◌<◌, ◌≤◌, ◌++◌, [], ◌∷◌, List, length, IfSome, IfOk};
ghost use Rattle.std.specs.List.{slice_index_or};
ghost use Rattle.pictures.specs.Counts.{IsBelow, columns_of, counted, no_counts};
ghost use Rattle.pictures.specs.Tallies.{lesser, marked, marked_both, measured, tally_of};
ghost use Rattle.pictures.specs.declared.arrivals.Arrival.{Arrival};

use crate::arrivals::{Arrival, Kind};
use fh_base::NoMemory;
use std::alloc::Global;
use std::marker::Model;

/// How many columns a row has.
pub const COLUMNS: usize = 1_041;

/// How many are on time, late and early.
#[derive(Clone, Copy, Debug, PartialEq, Eq)]
pub struct Counts {
    pub on_time: u32,
    pub late: u32,
    pub early: u32,
}

impl Counts {
    fn new() -> Counts
        ensures { result ≡ no_counts }
    {
        Counts {
            on_time: 0,
            late: 0,
            early: 0,
        }
    }

    /// Counts one of a kind.
    fn count(self, kind: Kind) -> Counts
        requires { IsBelow 2000000000 self }
        ensures { result ≡ counted kind self }
    {
        match kind {
            Kind::OnTime => Counts {
                on_time: self.on_time + 1,
                ..self
            },
            Kind::Late => Counts {
                late: self.late + 1,
                ..self
            },
            Kind::Early => Counts {
                early: self.early + 1,
                ..self
            },
        }
    }
}

/// The lesser of a number and one that may be there.
fn lesser(least: Option<i64>, z: i64) -> Option<i64>
    ensures { result ≡ lesser least z }
{
    match least {
        None => Some(z),
        Some(y) => Some(y.min(z)),
    }
}

/// Columns in which nothing is counted.
fn blank_columns(alloc: Global, count: usize) -> Result<Vec<Counts>, NoMemory>
    ensures { IfOk result (λ v. v.items ≡ columns_of count []) }
{
    let mut columns = Vec::new(alloc);
    for c in 0..count {
        columns.push(Counts::new())?;
    }
    Ok(columns)
}

/// What is counted of the arrivals of a flow: the marks in each column, the sections, and the least margins of those on time.
/// Contracts see it as a tally.
#[derive(Drop)]
pub struct Row {
    columns: Vec<Counts>,
    sections: Counts,
    since: Option<i64>,
    until: Option<i64>,
}

impl Model for Row {
    ghost use Rattle.pictures.specs.Tallies.{Tally};

    ghost Value = { Tally };

    ghost view = { λ r. record { columns = r.columns.items; sections = r.sections; since = r.since; until = r.until } };
}

impl Row {
    /// Nothing is counted.
    ///
    /// # Errors
    ///
    /// [`NoMemory`] where memory runs out.
    #[tactic(auto, unfolding(crate::specs::Tallies::tally_of))]
    pub(crate) fn new(alloc: Global) -> Result<Row, NoMemory>
        ensures { IfOk result (λ r. r ≡ tally_of []) }
    {
        Ok(Row {
            columns: blank_columns(alloc, COLUMNS)?,
            sections: Counts::new(),
            since: None,
            until: None,
        })
    }

    /// The marks in each column.
    pub fn columns(&self) -> &[Counts]
        ensures { result.now ≡ self.now.columns }
    {
        self.columns.as_slice()
    }

    /// The sections.
    pub fn sections(&self) -> Counts
        ensures { result ≡ self.now.sections }
    {
        self.sections
    }

    /// The least time after the opening of the window, of the sections on time.
    pub fn since(&self) -> Option<i64>
        ensures { result ≡ self.now.since }
    {
        self.since
    }

    /// The least time before its closing.
    pub fn until(&self) -> Option<i64>
        ensures { result ≡ self.now.until }
    {
        self.until
    }

    /// Counts a mark.
    fn mark(&mut self, column: u32, kind: Kind)
        requires within { column < length self.old.columns }
        requires few { IsBelow 2000000000 (slice_index_or self.old.columns column no_counts) }
        ensures { self.new ≡ marked self.old column kind }
    {
        let counts = self.columns[column as usize];
        self.columns[column as usize] = counts.count(kind);
    }

    /// Counts the marks of an arrival.
    fn mark_both(&mut self, a: Arrival)
        requires first { a.first < length self.old.columns }
        requires last { IfSome a.last (λ column. column < length self.old.columns) }
        requires few { (column : ℕ) → IsBelow 1000000000 (slice_index_or self.old.columns column no_counts) }
        ensures { self.new ≡ marked_both self.old a }
    {
        self.mark(a.first, a.kind);
        if let Some(last) = a.last {
            self.mark(last, a.kind);
        }
    }

    /// Counts the margins of an arrival, where it is on time.
    fn measure(&mut self, a: Arrival)
        ensures { self.new ≡ measured self.old a }
    {
        if matches!(a.kind, Kind::OnTime) {
            self.since = lesser(self.since, a.margins.since);
            self.until = lesser(self.until, a.margins.until);
        }
    }

    /// Counts an arrival.
    pub(crate) fn add(&mut self, a: Arrival)
        requires first { a.first ≤ 1040 }
        requires last { IfSome a.last (λ column. column ≤ 1040) }
        requires few { (came : List Arrival) × (self.old ≡ tally_of came) × (length came < 500000000) }
        ensures { (came : List Arrival) → self.old ≡ tally_of came → self.new ≡ tally_of (came ++ a ∷ []) }
    {
        self.mark_both(a);
        self.sections = self.sections.count(a.kind);
        self.measure(a);
    }
}
