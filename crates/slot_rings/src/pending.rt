// Which symbols of the places may have cells to report.
ghost use Rattle.std.specs.Prelude.{◌≡◌, ◌≢◌, ℕ, ◌+◌, ◌<◌, ◌≤◌, true, false, length, IfOk};
ghost use Rattle.unit_model.specs.Claims.{is_from};
ghost use Rattle.slot_rings.specs.Pending.{flag_at};
ghost use Rattle.fh_base.specs.declared.symbols.TheConstants.{SLOT_SYMBOLS};

use fh_base::{NoMemory, SLOT_SYMBOLS};
use std::alloc::Global;
use std::marker::Model;
use unit_model::Allocation;

/// A flag for each symbol of some places, and how many are set of each place and of all.
#[derive(Drop)]
pub(crate) struct Flags {
    symbols: Vec<[bool; SLOT_SYMBOLS]>,
    places: Vec<u8>,
    count: usize,
}

impl Model for Flags {
    ghost use Rattle.std.specs.Prelude.{Bool, List};
    ghost use Rattle.slot_rings.specs.Counts.{AreCounted};

    ghost Value = { List (List Bool) };

    ghost view = { λ f. f.symbols.items };

    ghost invariant = { λ f. AreCounted f.symbols.items f.places.items f.count };
}

impl Flags {
    /// The flags of so many places, none of them set.
    pub(crate) fn make(alloc: Global, places: usize) -> Result<Flags, NoMemory>
        requires { places < 1024 }
        ensures { IfOk result (λ f. length f ≡ places) }
    {
        let symbols = vec![in alloc; [false; SLOT_SYMBOLS]; places]?;
        let counts = vec![in alloc; 0; places]?;
        Ok(Flags {
            symbols,
            places: counts,
            count: 0,
        })
    }

    /// Whether a flag is set.
    pub(crate) fn has_any(&self) -> bool
        ensures { result ≡ false → (i s : ℕ) → i < length self.now → s < SLOT_SYMBOLS → flag_at self.now i s ≡ false }
    {
        self.count != 0
    }

    /// Whether a flag of a place is set.
    pub(crate) fn has_any_of(&self, index: usize) -> bool
        requires { index < length self.now }
        ensures { result ≡ false → (s : ℕ) → s < SLOT_SYMBOLS → flag_at self.now index s ≡ false }
    {
        self.places[index] != 0
    }

    /// Whether a symbol of a place is flagged; a symbol that no slot has is as one that is.
    pub(crate) fn has(&self, index: usize, symbol: u8) -> bool
        requires { index < length self.now }
        ensures { result ≡ flag_at self.now index symbol }
    {
        let symbol = symbol as usize;
        symbol >= SLOT_SYMBOLS || self.symbols[index][symbol]
    }

    /// The first symbol of a place that is flagged, or 14.
    pub(crate) fn first_of(&self, index: usize) -> u8
        requires { index < length self.now }
        ensures { (s : ℕ) → s < result → s < SLOT_SYMBOLS → flag_at self.now index s ≡ false }
    {
        let symbols = SLOT_SYMBOLS as u8;
        for symbol in 0..symbols {
            if self.has(index, symbol) {
                return symbol;
            }
        }
        symbols
    }

    /// Sets the flag of a symbol of a place.
    fn set(&mut self, index: usize, symbol: usize)
        requires index { index < length self.old }
        requires symbol { symbol < SLOT_SYMBOLS }
        ensures here { flag_at self.new index symbol ≡ true }
        ensures others { (i s : ℕ) → (i ≡ index → s ≢ symbol) → flag_at self.new i s ≡ flag_at self.old i s }
        ensures size { length self.new ≡ length self.old }
    {
        let flag = &mut self.symbols[index][symbol];
        if !*flag {
            *flag = true;
            self.places[index] += 1;
            self.count += 1;
        }
    }

    /// Sets the flags of some symbols of a place.
    fn set_symbols(&mut self, index: usize, first: u8, count: u8)
        requires index { index < length self.old }
        requires within { first + count ≤ SLOT_SYMBOLS }
        ensures set { (s : ℕ) → is_from first count s ≡ true → flag_at self.new index s ≡ true }
        ensures kept { (i s : ℕ) → flag_at self.new i s ≡ false → flag_at self.old i s ≡ false }
        ensures size { length self.new ≡ length self.old }
    {
        for symbol in first..first + count {
            self.set(index, symbol as usize);
        }
    }

    /// Sets the flags of the symbols of a place where an allocation claims downlink cells for use.
    pub(crate) fn flag(&mut self, index: usize, a: &Allocation)
        requires index { index < length self.old }
        requires within { a.now.symbol + a.now.num_symbol ≤ SLOT_SYMBOLS }
        ensures set { (s : ℕ) → a.now.down ≡ true → a.now.idle ≡ false → is_from a.now.symbol a.now.num_symbol s ≡ true → flag_at self.new index s ≡ true }
        ensures kept { (i s : ℕ) → flag_at self.new i s ≡ false → flag_at self.old i s ≡ false }
        ensures size { length self.new ≡ length self.old }
    {
        if a.down && !a.idle {
            self.set_symbols(index, a.symbol, a.num_symbol);
        }
    }

    /// Clears the flag of a symbol of a place.
    fn clear(&mut self, index: usize, symbol: usize)
        requires index { index < length self.old }
        requires symbol { symbol < SLOT_SYMBOLS }
        ensures others { (i s : ℕ) → (i ≡ index → s ≢ symbol) → flag_at self.new i s ≡ flag_at self.old i s }
        ensures size { length self.new ≡ length self.old }
    {
        let flag = &mut self.symbols[index][symbol];
        if *flag {
            *flag = false;
            self.places[index] -= 1;
            self.count -= 1;
        }
    }

    /// Clears the flag of a symbol of a place, if all of its cells were reported.
    pub(crate) fn clear_reported(&mut self, index: usize, symbol: u8, all: bool)
        requires { index < length self.old }
        ensures others { (i s : ℕ) → (all ≡ true → i ≡ index → s ≢ symbol) → flag_at self.new i s ≡ flag_at self.old i s }
        ensures size { length self.new ≡ length self.old }
    {
        let symbol = symbol as usize;
        if all && symbol < SLOT_SYMBOLS {
            self.clear(index, symbol);
        }
    }
}
