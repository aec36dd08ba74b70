// The tables of all endpoints.
ghost use Rattle.std.specs.Prelude.{◌≡◌, ℕ, ◌+◌, ◌<◌, ◌≤◌, [], ◌∷◌, ◌++◌, List, length, get_or, IfOk, IfSome, IsNone, IsTrue};
ghost use Rattle.window_config.specs.Configs.{IsConfig};
ghost use Rattle.window_config.specs.declared.config.Config.{Config};
ghost use Rattle.air_source.specs.declared.events.AirCell.{AirCell};
ghost use Rattle.idle_spans.specs.Runs.{IsNext};

use crate::places::{Place, Span};
use crate::row::Row;
use air_source::AirCell;
use fh_base::NoMemory;
use std::alloc::Global;
use std::marker::Model;
use window_config::{Config, EndpointConfig};

/// The symbols of all endpoints of a configuration in some frames, each silent or not.
#[derive(Drop)]
pub struct Spans {
    // in the order of the configuration
    rows: Vec<Row>,
    // the index of the endpoint of the last cell
    recent: usize,
}

impl Model for Spans {
    ghost use Rattle.idle_spans.specs.Tables.{SpansValue, AreApart};

    ghost Value = { SpansValue };

    ghost view = { λ s. record { rows = s.rows.items } };

    ghost invariant = { λ s. AreApart s.rows.items };
}

impl Spans {
    ghost use Rattle.idle_spans.specs.Scans.{IsRowNext};
    ghost use Rattle.idle_spans.specs.Places.{IsNoneOrSymbol, is_index};
    ghost use Rattle.idle_spans.specs.Silence.{same_symbol};
    ghost use Rattle.idle_spans.specs.Symbols.{symbol_at, symbol_count};
    ghost use Rattle.idle_spans.specs.Tables.{SpansValue, AreFrames, AreApart, Marks, Stands, endpoints_of, endpoint_at, endpoint_in, row_at, symbols_in};

    /// The symbols of a configuration's endpoints in the frames `first` to `last`, no cell of them marked. This takes all
    /// memory: two bytes for each symbol.
    pub fn make(alloc: Global, config: &Config, first: u32, last: u32) -> Result<Spans, NoMemory>
        requires config { IsConfig config.now }
        requires frames { AreFrames first last }
        ensures stands { IfOk result (λ s. Stands s config.now first last []) }
    {
        let endpoints = config.endpoints.as_slice();
        let mut rows = Vec::with_capacity(alloc, endpoints.len())?;
        for endpoint in endpoints {
            let row = Row::make(alloc, *endpoint, first, last)?;
            rows.push(row)?;
        }
        Ok(Spans { rows, recent: 0 })
    }

    /// Whether there is a table with this index, of the endpoint with this id.
    fn has_id(&self, ep: usize, id: u16) -> bool
        ensures { IsTrue result → (ep < length self.now.rows) × ((row_at self.now ep).endpoint.id ≡ id) }
    {
        ep < self.rows.len() && self.rows[ep].id() == id
    }

    /// The index of the endpoint with an id. Cells are reported in runs of one endpoint, or of one after the other.
    fn find(&self, id: u16) -> Option<usize>
        ensures some { IfSome result (λ ep. (ep < length self.now.rows) × ((row_at self.now ep).endpoint.id ≡ id)) }
        ensures none { IsNone result → (ep : ℕ) → ep < length self.now.rows → (row_at self.now ep).endpoint.id ≡ id → ⊥ }
    {
        for guess in [self.recent, self.recent.wrapping_add(1)] {
            if self.has_id(guess, id) {
                return Some(guess);
            }
        }
        for ep in 0..self.rows.len() {
            if self.rows[ep].id() == id {
                return Some(ep);
            }
        }
        None
    }

    /// The same, of which only the tables are spoken of.
    fn mark_row(&mut self, c: &AirCell)
        ensures { Marks self.old self.new (c.now ∷ []) }
    {
        if let Some(ep) = self.find(c.id) {
            self.recent = ep;
            self.rows[ep].mark(c);
        }
    }

    /// Marks a cell that the radio unit reports of a symbol in the frames, and ignores every other cell: one of the distributed
    /// unit, and one of an id, a frame, a subframe, a slot or a symbol that is not there. It takes no memory.
    pub fn mark(&mut self, c: &AirCell)
        ensures marks { Marks self.old self.new (c.now ∷ []) }
        ensures stands { (config : Config) (first last : ℕ) (cells : List AirCell) → Stands self.old config first last cells → Stands self.new config first last (cells ++ c.now ∷ []) }
    {
        self.mark_row(c);
    }

    /// How many symbols the frames have at an endpoint: at most 22,400.
    pub fn symbols(&self, ep: usize) -> usize
        requires { ep < length (endpoints_of self.now) }
        ensures count { result ≡ symbols_in self.now ep }
        ensures few { result ≤ 22400 }
        ensures stands { (config : Config) (first last : ℕ) (cells : List AirCell) → Stands self.now config first last cells → result ≡ symbol_count (endpoint_at config ep).numerology first last }
    {
        self.rows[ep].symbols()
    }

    /// The symbol with this number, in the order of slot and symbol, 0 for the first symbol of the first frame.
    pub fn symbol(&self, ep: usize, k: usize) -> Place
        requires ep { ep < length (endpoints_of self.now) }
        requires k { k < symbols_in self.now ep }
        ensures { (config : Config) (first last : ℕ) (cells : List AirCell) → Stands self.now config first last cells → result ≡ symbol_at (endpoint_at config ep).numerology first k }
    {
        self.rows[ep].symbol(k)
    }

    /// The number of a symbol. None exactly where the frames have no such symbol.
    pub fn number(&self, ep: usize, place: Place) -> Option<usize>
        requires { ep < length (endpoints_of self.now) }
        ensures within { IfSome result (λ k. k < symbols_in self.now ep) }
        ensures place { (config : Config) (first last : ℕ) (cells : List AirCell) → Stands self.now config first last cells → (k : ℕ) → k < symbols_in self.now ep → same_symbol place.slot place.symbol (symbol_at (endpoint_at config ep).numerology first k) ≡ is_index result k }
    {
        self.rows[ep].index(place)
    }

    /// The first span by an endpoint's table.
    fn row_next(&self, ep: usize, after: Option<Place>, min: u32) -> Option<Span>
        requires { ep < length self.now.rows }
        ensures { IsRowNext (row_at self.now ep) after min result }
    {
        self.rows[ep].next(after, min)
    }

    /// The first listed span of an endpoint that begins after a place, or of all where no place is given: a run of at least
    /// `min` silent symbols that no symbol before or after it extends within the frames. None exactly where there is none. The
    /// place is a symbol of the endpoint, of any frame.
    pub fn next(&self, ep: usize, after: Option<Place>, min: u32) -> Option<Span>
        requires ep { ep < length (endpoints_of self.now) }
        requires place { IsNoneOrSymbol (endpoint_in self.now ep).numerology after }
        requires min { 1 ≤ min }
        ensures { (config : Config) (first last : ℕ) (cells : List AirCell) → Stands self.now config first last cells → IsNext (endpoint_at config ep) first last cells after min result }
    {
        self.row_next(ep, after, min)
    }
}
