// How a mixer finds the combined cell of a place.
ghost use Rattle.std.specs.Prelude.{◌≡◌, ◌∷◌, ◌++◌, [], List, OnOk, None, length};
ghost use Rattle.std.specs.List.{position};
ghost use Rattle.shared_cell.specs.declared.values.Mixed.{Mixed};
ghost use Rattle.shared_cell.specs.Finding.{index_of, is_beyond, Finds};
ghost use Rattle.shared_cell.specs.Places.{is_mixed_at, place_in};

use crate::Mixed;
use crate::places::{CellPlace, is_at, place_in};
use fh_base::NoMemory;
use std::alloc::Global;
use std::collections::BTreeMap;

/// Finds combined cells by their places. As long as places are given in their order, each one is beyond the greatest so far, so it is new
/// and nothing is kept of it; a map is filled at the first place that is not.
#[derive(Drop)]
pub struct Finder {
    // the greatest place of all combined cells
    greatest: Option<CellPlace>,
    // where each of the first `mapped` combined cells is
    map: BTreeMap<CellPlace, usize>,
    mapped: usize,
}

impl Finder {
    /// A finder of no combined cells. This takes no memory; a map takes it from `alloc`.
    pub fn make(alloc: Global) -> Finder
        ensures { Finds result [] }
    {
        Finder {
            greatest: None,
            map: BTreeMap::new(alloc),
            mapped: 0,
        }
    }

    /// The index of the combined cell at a place. Where there is no memory for the map, they are searched one by one.
    pub fn find(&mut self, place: &CellPlace, mixed: &[Mixed]) -> Option<usize>
        requires { Finds self.old mixed.now }
        ensures value { result ≡ index_of place.now mixed.now }
        ensures finds { Finds self.new mixed.now }
    {
        if is_beyond(&self.greatest, place) {
            return None;
        }
        match self.map_all(mixed) {
            Ok(()) => self.map.get(place).copied(),
            Err(NoMemory) => search(mixed, place),
        }
    }

    /// Says that a combined cell of a new place is added at the end.
    pub fn add(&mut self, place: CellPlace)
        ensures { (ms : List Mixed) (m : Mixed) → Finds self.old ms → place_in m ≡ place → index_of place ms ≡ None → Finds self.new (ms ++ m ∷ []) }
    {
        if is_beyond(&self.greatest, &place) {
            self.greatest = Some(place);
        }
    }

    // Fills the map with the combined cells that it lacks.
    fn map_all(&mut self, mixed: &[Mixed]) -> Result<(), NoMemory>
        requires { Finds self.old mixed.now }
        ensures finds { Finds self.new mixed.now }
        ensures all { OnOk result (self.new.mapped ≡ length mixed.now) }
    {
        for k in self.mapped..mixed.len() {
            if self.map.insert(place_in(&mixed[k]), k).is_err() {
                return Err(NoMemory);
            }
            self.mapped = k + 1;
        }
        Ok(())
    }
}

// Whether a place is greater than the greatest so far.
fn is_beyond(greatest: &Option<CellPlace>, place: &CellPlace) -> bool
    ensures { result ≡ is_beyond greatest.now place.now }
{
    match greatest {
        None => true,
        Some(greatest) => place > greatest,
    }
}

// The index of the first combined cell at a place, by a look at one after the other.
fn search(mixed: &[Mixed], place: &CellPlace) -> Option<usize>
    ensures { result ≡ position (is_mixed_at place.now) mixed.now }
{
    mixed.iter().position(|m| is_at(m, place))
}
