// The line of a report that is written in place of the last one.
ghost use Rattle.std.specs.Prelude.{◌≡◌, ◌≤◌, [], length};
ghost use Rattle.air_source.specs.CellLines.{cell_text};
ghost use Rattle.air_source.specs.UnitLines.{delay_text, count_text};
ghost use Rattle.air_source.specs.SymbolWords.{symbol_of, symbol_text};

use crate::cell_lines::{put_rest, put_symbol};
use crate::symbols::{CellSymbol, holds, symbol_of};
use crate::unit_lines::{put_count, put_delay};
use crate::{AirCell, Line, Side};
use fault_counters::Counter;
use fh_base::Ticks;
use std::marker::Model;

/// A line of a report, which each call writes in place of the last one. What the lines of all cells of a symbol begin with is
/// written once for those that follow in a row. Contracts see the list of its bytes.
#[derive(Drop)]
pub struct ReportLine {
    line: Line,
    // the symbol that the line begins with, if it begins with one, and how many bytes tell of it
    symbol: Option<CellSymbol>,
    kept: usize,
}

impl Model for ReportLine {
    ghost use Rattle.std.specs.Prelude.{◌≡◌, ◌≤◌, ℕ, List, length, take, Some};
    ghost use Rattle.air_source.specs.declared.symbols.CellSymbol.{CellSymbol};
    ghost use Rattle.air_source.specs.SymbolWords.{symbol_text};

    ghost Value = { List ℕ };

    ghost view = { λ l. l.line };

    ghost invariant = { λ l. (l.kept ≤ 112) × (l.kept ≤ length l.line) × ((s : CellSymbol) → l.symbol ≡ Some s → take l.kept l.line ≡ symbol_text s) };
}

impl ReportLine {
    /// The empty text.
    pub fn new() -> ReportLine
        ensures { result ≡ [] }
    {
        ReportLine {
            line: Line::new(),
            symbol: None,
            kept: 0,
        }
    }

    /// Its bytes.
    pub fn as_slice(&self) -> &[u8]
        ensures bytes { result.now ≡ self.now }
        ensures fits { length result.now ≤ 512 }
    {
        self.line.as_slice()
    }

    // Leaves what the line of a cell begins with.
    fn begin(&mut self, c: &AirCell)
        ensures text { self.new ≡ symbol_text (symbol_of c.now) }
        ensures short { length self.new ≤ 112 }
    {
        let symbol = symbol_of(c);
        if holds(&self.symbol, &symbol) {
            self.line.truncate(self.kept);
        } else {
            put_symbol(&symbol, &mut self.line);
            self.kept = self.line.len();
            self.symbol = Some(symbol);
        }
    }

    /// Writes the line of a cell, as [`put_cell`](crate::put_cell) does.
    #[tactic(auto, using(crate::proofs::CellParts::cell_split))]
    pub fn put_cell(&mut self, c: &AirCell)
        ensures { self.new ≡ cell_text c.now }
    {
        self.begin(c);
        put_rest(c, &mut self.line);
    }

    /// Writes the line of a measured one-way delay, as [`put_delay`](crate::put_delay) does.
    pub fn put_delay(&mut self, at: Ticks, side: Side, id: u8, value: i128)
        ensures { self.new ≡ delay_text at.0 side id value }
    {
        self.symbol = None;
        self.kept = 0;
        put_delay(at, side, id, value, &mut self.line);
    }

    /// Writes the line of a counter, as [`put_count`](crate::put_count) does.
    pub fn put_count(&mut self, side: Side, counter: Counter, value: u64)
        ensures { self.new ≡ count_text side counter value }
    {
        self.symbol = None;
        self.kept = 0;
        put_count(side, counter, value, &mut self.line);
    }

    /// Writes a text.
    pub fn put_text(&mut self, text: &[u8])
        requires { length text.now ≤ 512 }
        ensures { self.new ≡ text.now }
    {
        self.symbol = None;
        self.kept = 0;
        self.line.clear();
        self.line.text(text);
    }
}
