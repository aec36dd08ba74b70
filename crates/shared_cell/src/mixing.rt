// The mixer of cells.
ghost use Rattle.std.specs.Prelude.{◌≡◌, ◌<◌, ◌↔◌, ◌≤◌, [], ◌∷◌, ◌++◌, length, slice_get, OnOk, OnErr, IsNone, List, None, Some};
ghost use Rattle.air_source.specs.declared.events.AirCell.{AirCell};
ghost use Rattle.shared_cell.specs.Places.{place_of};
ghost use Rattle.shared_cell.specs.Joined.{joined_at, taken};
ghost use Rattle.shared_cell.specs.Combined.{combined, firsts, cells_with, Follows, Stands, MayAdd};

use crate::Mixed;
use crate::finding::Finder;
use crate::joining::{join, join_or_leave, opened};
use crate::places::{CellPlace, is_at, place_of};
use air_source::{AirCell, Side};
use fh_base::NoMemory;
use std::alloc::Global;
use std::marker::Model;

/// Adds up the cells of units that share a cell. Contracts see the list of its combined cells, and say by `Stands` which
/// cells it stands for, in the order in which they were added.
#[derive(Drop)]
pub struct Mixer {
    mixed: Vec<Mixed>,
    finder: Finder,
    // whose place is likely the next cell's: units report their cells in the same order, so it follows that of the last cell
    turn: usize,
}

impl Model for Mixer {
    ghost use Rattle.std.specs.Prelude.{List};
    ghost use Rattle.shared_cell.specs.declared.values.Mixed.{Mixed};

    ghost Value = { List Mixed };

    ghost use Rattle.shared_cell.specs.Held.{KeepsPlaces};

    ghost view = { λ m. m.mixed.items };

    ghost invariant = { KeepsPlaces };
}

impl Mixer {
    ghost use Rattle.shared_cell.specs.Finding.{index_of};

    /// A mixer that no cell was added to. This takes no memory; later growth takes it from `alloc`.
    pub fn make(alloc: Global) -> Mixer
        ensures { Stands result [] }
    {
        Mixer {
            mixed: Vec::new(alloc),
            finder: Finder::make(alloc),
            turn: 0,
        }
    }

    /// Adds a unit's cell: one of the distributed unit. At most 8 cells have the same place (endpoint, slot, symbol and
    /// PRB), and cells of one place have the same time, section and mask.
    ///
    /// After `NoMemory` all is as before. It occurs only at the first cell of a place.
    pub fn add(&mut self, c: &AirCell) -> Result<(), NoMemory>
        requires { MayAdd self.old c.now }
        ensures ok { OnOk result ((cells : List AirCell) → Stands self.old cells → Stands self.new (cells ++ c.now ∷ [])) }
        ensures err { OnErr result (self.new ≡ self.old) }
        ensures refused { (cells : List AirCell) → Stands self.old cells → OnErr result (cells_with c.now cells ≡ []) }
    {
        self.put(c)
    }

    /// Adds a cell where [`add`](Mixer::add) may be called, and changes nothing where it is the radio unit's, where 8 units have samples
    /// at its place, or where its time, section or mask is not that of its place.
    ///
    /// After `NoMemory` all is as before. It occurs only at the first cell of a place.
    pub fn try_add(&mut self, c: &AirCell) -> Result<(), NoMemory>
        ensures ok { OnOk result (self.new ≡ taken c.now self.old) }
        ensures follows { (cells : List AirCell) → Stands self.old cells → Follows cells c.now → OnOk result (Stands self.new (cells ++ c.now ∷ [])) }
        ensures err { OnErr result (self.new ≡ self.old) }
        ensures refused { (cells : List AirCell) → Stands self.old cells → OnErr result (cells_with c.now cells ≡ []) }
    {
        match c.side {
            Side::Ru => Ok(()),
            Side::Du => self.put(c),
        }
    }

    /// The combined cells, in the order in which their places were first added.
    pub fn as_slice(&self) -> &[Mixed]
        ensures { result.now ≡ self.now }
    {
        self.mixed.as_slice()
    }

    /// The `k`-th combined cell, counted from 0, in the order in which their places were first added. None exactly where
    /// there are no more than `k`.
    pub fn mixed(&self, k: usize) -> Option<Mixed>
        ensures value { (cells : List AirCell) → Stands self.now cells → result ≡ slice_get (combined cells) k }
        ensures none { (cells : List AirCell) → Stands self.now cells → (result ≡ None) ↔ (length (firsts cells) ≤ k) }
    {
        self.mixed.get(k).copied()
    }

    // Joins the cell to the combined cell of its place where it may be joined, or opens one.
    fn put(&mut self, c: &AirCell) -> Result<(), NoMemory>
        ensures ok { OnOk result (self.new ≡ joined_at c.now self.old) }
        ensures err { OnErr result (self.new ≡ self.old) }
        ensures refused { OnErr result (index_of (place_of c.now) self.old ≡ None) }
    {
        let place = place_of(c);
        let turn = self.turn;
        if turn < self.mixed.len() && is_at(&self.mixed[turn], &place) {
            self.join(turn, c);
            return Ok(());
        }
        match self.finder.find(&place, self.mixed.as_slice()) {
            Some(index) => {
                self.join(index, c);
                Ok(())
            }
            None => self.open(place, c),
        }
    }

    // Joins the cell to the combined cell of its place, which has this index, where it may be joined.
    fn join(&mut self, index: usize, c: &AirCell)
        requires { index_of (place_of c.now) self.old ≡ Some index }
        ensures { self.new ≡ joined_at c.now self.old }
    {
        let count = self.mixed.len();
        join_or_leave(&mut self.mixed[index], c);
        self.turn = if index + 1 < count { index + 1 } else { 0 };
    }

    // Opens a combined cell at the place of the cell, where there is none.
    fn open(&mut self, place: CellPlace, c: &AirCell) -> Result<(), NoMemory>
        requires place { place ≡ place_of c.now }
        requires first { index_of place self.old ≡ None }
        ensures ok { OnOk result (self.new ≡ joined_at c.now self.old) }
        ensures err { OnErr result (self.new ≡ self.old) }
    {
        let mut mixed = opened(c);
        join(&mut mixed, c);
        if self.mixed.push(mixed).is_err() {
            return Err(NoMemory);
        }
        self.finder.add(place);
        self.turn = 0;
        Ok(())
    }
}
