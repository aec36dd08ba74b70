// The memory of one slot.
ghost use Rattle.std.specs.Prelude.{◌≡◌, ◌≢◌, ℕ, ◌+◌, ◌*◌, ◌<◌, ◌≤◌, ◌||◌, true, false, List, length, get_or, reverse, if◌then◌else◌, IfOk, None, Some, vec_capacity, vec_len};
ghost use Rattle.fh_base.specs.Carrier.{is_outside};
ghost use Rattle.bfp_codec.specs.Layout.{HasWidth};
ghost use Rattle.unit_model.specs.Claims.{is_from, same_slot};
ghost use Rattle.unit_model.specs.Commands.{is_uplink};
ghost use Rattle.fh_base.specs.Lists.{or_else};
ghost use Rattle.unit_model.specs.declared.cells.Cell.{Cell};
ghost use Rattle.unit_model.specs.declared.verdicts.CommandVerdict.TheVariants.{Accepted};
ghost use Rattle.slot_rings.specs.Verdicts.{uplink_after};
ghost use Rattle.slot_rings.specs.Places.{claim_in, is_in_use, is_place_of, is_reported, no_claims, unreported};
ghost use Rattle.slot_rings.specs.Rows.{AreRows};
ghost use Rattle.slot_rings.specs.Written.{AreBlankElsewhere};
ghost use Rattle.slot_rings.specs.declared.rows.Row.{Row};
ghost use Rattle.slot_rings.specs.declared.rows.Span.{Span};
ghost use Rattle.slot_rings.specs.Runs.{packed_block, packed_samples};
ghost use Rattle.fh_base.specs.declared.carrier.TheConstants.{CARRIER_PRBS};
ghost use Rattle.fh_base.specs.declared.symbols.TheConstants.{SLOT_SYMBOLS};
ghost use Rattle.unit_model.specs.declared.uplink.TheConstants.{SLOT_SECTIONS};

use crate::blocks::{Blocks, LentBlocks};
use crate::claims::{CellClaims, NONE};
use crate::judging::{claim, is_uplink, verdict};
use crate::lists::reach;
use crate::packed::PackedRun;
use crate::rows::{EMPTY, Row, Span, row_at, span_of};
use crate::written::{Spans, UNWRITTEN, widen, wipe};
use fh_base::{NoMemory, PrbSpan, SLOT_SYMBOLS, Slot};
use std::alloc::Global;
use std::marker::Model;
use unit_model::{Allocation, Block, CommandVerdict, SLOT_SECTIONS};

/// What is kept of one slot of an endpoint. Its memory is taken when it is made, as room in lists that begin empty. It is wiped
/// where its lists were written, and nowhere else.
#[derive(Drop)]
pub(crate) struct Place {
    // whose slot it is
    slot: Option<Slot>,
    // of a symbol
    prbs: u16,
    down: Vec<CellClaims>,
    up: Vec<CellClaims>,
    // where these lists, and the blocks, may have been written
    down_spans: Spans,
    up_spans: Spans,
    block_spans: Spans,
    // what the claims of each symbol are
    down_rows: [Row; SLOT_SYMBOLS],
    up_rows: [Row; SLOT_SYMBOLS],
    blocks: Blocks,
    // the newest last
    uplink: Vec<Allocation>,
}

impl Model for Place {
    ghost use Rattle.std.specs.Prelude.{◌*◌, ◌≤◌, length, reverse, vec_capacity, None};
    ghost use Rattle.fh_base.specs.declared.symbols.TheConstants.{SLOT_SYMBOLS};
    ghost use Rattle.unit_model.specs.declared.uplink.TheConstants.{SLOT_SECTIONS};
    ghost use Rattle.slot_rings.specs.Places.{PlaceValue, no_claims};
    ghost use Rattle.slot_rings.specs.Rows.{AreRows};
    ghost use Rattle.slot_rings.specs.Written.{AreBlankElsewhere};

    ghost Value = { PlaceValue };

    ghost view = { λ p. record { slot = p.slot; prbs = p.prbs; down = p.down.items; up = p.up.items; blocks = p.blocks.items; uplink = reverse p.uplink.items } };

    ghost invariant = { λ p. (SLOT_SYMBOLS * p.prbs ≤ vec_capacity p.down) × (SLOT_SYMBOLS * p.prbs ≤ vec_capacity p.up) × (SLOT_SYMBOLS * p.prbs ≤ p.blocks.cells)
        × (SLOT_SECTIONS ≤ vec_capacity p.uplink) × (length p.uplink.items ≤ SLOT_SECTIONS)
        × AreRows p.prbs p.down.items p.down_rows × AreRows p.prbs p.up.items p.up_rows
        × AreBlankElsewhere no_claims p.prbs p.down_spans p.down.items × AreBlankElsewhere no_claims p.prbs p.up_spans p.up.items
        × AreBlankElsewhere None p.prbs p.block_spans p.blocks.items };
}

/// Whether two slots are the same one.
fn same_slot(a: Slot, b: Slot) -> bool
    ensures { result ≡ same_slot a b }
{
    a.frame == b.frame && a.subframe == b.subframe && a.slot == b.slot
}

/// Appends an accepted section, where it is one for which the radio unit sends data.
fn keep(uplink: &mut Vec<Allocation>, a: &Allocation)
    requires room { SLOT_SECTIONS ≤ vec_capacity uplink.old }
    requires few { is_uplink a.now ≡ true → length uplink.old.items < SLOT_SECTIONS }
    requires kept { length uplink.old.items ≤ SLOT_SECTIONS }
    ensures items { reverse uplink.new.items ≡ uplink_after Accepted a.now (reverse uplink.old.items) }
    ensures most { length uplink.new.items ≤ SLOT_SECTIONS }
    ensures capacity { vec_capacity uplink.old ≤ vec_capacity uplink.new }
{
    if is_uplink(a) {
        let pushed = uplink.push(*a).is_ok();
        prove!(pushed);
    }
}

/// Whether a cell is in use.
fn is_used(claims: &Vec<CellClaims>, k: usize) -> bool
    requires { k < vec_len claims.now }
    ensures { result ≡ is_in_use (claim_in (get_or claims.now.items k no_claims)) }
{
    claims[k].used() != 0
}

/// Sets one cell as reported, if it is in use.
fn set_reported(claims: &mut Vec<CellClaims>, k: usize, used: bool)
    requires { k < vec_len claims.old }
    ensures here { is_reported claims.new.items k ≡ (is_reported claims.old.items k || used) }
    ensures others { (i : ℕ) → i ≢ k → is_reported claims.new.items i ≡ is_reported claims.old.items i }
    ensures claims { (i : ℕ) → unreported (get_or claims.new.items i no_claims) ≡ unreported (get_or claims.old.items i no_claims) }
    ensures len { vec_len claims.new ≡ vec_len claims.old }
    ensures capacity { vec_capacity claims.old ≤ vec_capacity claims.new }
{
    if used {
        claims[k].reported = true;
    }
}

/// Sets as reported those of so many cells, from number `from` on, that are in use.
fn set_used_reported(claims: &mut Vec<CellClaims>, from: usize, count: usize)
    requires { from + count ≤ vec_capacity claims.old }
    ensures here { (k : ℕ) → k < count → is_reported claims.new.items (from + k)
        ≡ (is_reported claims.old.items (from + k) || is_in_use (claim_in (get_or claims.old.items (from + k) no_claims))) }
    ensures others { (i : ℕ) → is_from from count i ≡ false → is_reported claims.new.items i ≡ is_reported claims.old.items i }
    ensures claims { (i : ℕ) → unreported (get_or claims.new.items i no_claims) ≡ unreported (get_or claims.old.items i no_claims) }
    ensures rows { (prbs : ℕ) (rows : List Row) → AreRows prbs claims.old.items rows → AreRows prbs claims.new.items rows }
    ensures blank { (prbs : ℕ) (spans : List Span) → AreBlankElsewhere no_claims prbs spans claims.old.items → AreBlankElsewhere no_claims prbs spans claims.new.items }
    ensures capacity { vec_capacity claims.old ≤ vec_capacity claims.new }
{
    reach(claims, from + count, NONE);
    for k in 0..count {
        let used = is_used(claims, from + k);
        set_reported(claims, from + k, used);
    }
}

impl Place {
    ghost use Rattle.slot_rings.specs.Blocks.{block_lent};
    ghost use Rattle.slot_rings.specs.Places.{cell_number, claim_in, no_claims, IsOpened, IsWiped, empty_place, claims_seen, blocks_seen, place_claim, place_uplink};
    ghost use Rattle.slot_rings.specs.Verdicts.{overlaps_by, verdict_by, claim_after};

    /// Takes all memory, for so many PRBs.
    pub(crate) fn make(alloc: Global, prbs: u16) -> Result<Place, NoMemory>
        requires { prbs ≤ CARRIER_PRBS }
        ensures { IfOk result (λ p. p ≡ empty_place None prbs) }
    {
        let room = SLOT_SYMBOLS * prbs as usize;
        let down = Vec::with_capacity(alloc, room)?;
        let up = Vec::with_capacity(alloc, room)?;
        let blocks = Blocks::make(alloc, room as u16)?;
        let uplink = Vec::with_capacity(alloc, SLOT_SECTIONS)?;
        Ok(Place {
            slot: None,
            prbs,
            down,
            up,
            down_spans: UNWRITTEN,
            up_spans: UNWRITTEN,
            block_spans: UNWRITTEN,
            down_rows: [EMPTY; SLOT_SYMBOLS],
            up_rows: [EMPTY; SLOT_SYMBOLS],
            blocks,
            uplink,
        })
    }

    /// Whether it is this slot's.
    pub(crate) fn has(&self, slot: Slot) -> bool
        ensures { result ≡ is_place_of self.now.slot slot }
    {
        match self.slot {
            None => false,
            Some(s) => same_slot(s, slot),
        }
    }

    /// Whose slot it is.
    pub(crate) fn slot(&self) -> Option<Slot>
        ensures { result ≡ self.now.slot }
    {
        self.slot
    }

    /// Forgets all.
    fn wipe(&mut self)
        ensures wiped { IsWiped self.new }
        ensures slot { self.new.slot ≡ self.old.slot }
        ensures prbs { self.new.prbs ≡ self.old.prbs }
    {
        wipe(&mut self.down, &self.down_spans, self.prbs, NONE);
        wipe(&mut self.up, &self.up_spans, self.prbs, NONE);
        self.blocks.wipe(&self.block_spans, self.prbs);
        self.down_spans = UNWRITTEN;
        self.up_spans = UNWRITTEN;
        self.block_spans = UNWRITTEN;
        self.down_rows = [EMPTY; SLOT_SYMBOLS];
        self.up_rows = [EMPTY; SLOT_SYMBOLS];
        self.uplink.clear();
    }

    /// Gives it to a slot, and forgets what is of another one.
    pub(crate) fn open(&mut self, slot: Slot)
        ensures { IsOpened slot self.old self.new }
    {
        if !self.has(slot) {
            self.wipe();
            self.slot = Some(slot);
        }
    }

    /// The claims on the cells of a slot and direction.
    pub(crate) fn claims(&self, slot: Slot, down: bool) -> &[CellClaims]
        ensures { result.now ≡ claims_seen self.now slot down }
    {
        if self.has(slot) {
            if down {
                self.down.as_slice()
            } else {
                self.up.as_slice()
            }
        } else {
            &[]
        }
    }

    /// What the claims of each symbol are.
    fn rows(&self, slot: Slot, down: bool) -> &[Row]
        ensures { AreRows self.now.prbs (claims_seen self.now slot down) result.now }
    {
        if self.has(slot) {
            if down { &self.down_rows } else { &self.up_rows }
        } else {
            &[]
        }
    }

    /// The PRBs of a symbol of a slot that may have downlink claims.
    pub(crate) fn span(&self, slot: Slot, symbol: u8) -> Span
        ensures within { result.end ≤ self.now.prbs }
        ensures none { (n re : ℕ) → n < self.now.prbs → (result.first ≤ n → result.end ≤ n) → re < 12
            → claim_in (get_or (claims_seen self.now slot true) (cell_number self.now.prbs symbol n) no_claims) re ≡ None }
    {
        span_of(row_at(self.rows(slot, true), symbol as usize), self.prbs)
    }

    /// The accepted uplink sections of a slot, the newest last.
    pub(crate) fn uplink(&self, slot: Slot) -> &[Allocation]
        ensures value { reverse result.now ≡ place_uplink self.now slot }
        ensures few { length result.now ≤ SLOT_SECTIONS }
    {
        if self.has(slot) {
            self.uplink.as_slice()
        } else {
            &[]
        }
    }

    /// How many accepted uplink sections it holds.
    pub(crate) fn sections(&self) -> usize
        ensures value { result ≡ length self.now.uplink }
        ensures few { result ≤ SLOT_SECTIONS }
    {
        self.uplink.len()
    }

    /// The verdict on an allocation that is on time.
    pub(crate) fn judge(&self, a: &Allocation) -> CommandVerdict
        requires prbs { a.now.endpoint.prbs ≡ self.now.prbs }
        requires some { 0 < self.now.prbs }
        ensures { result ≡ verdict_by (place_claim a.now.endpoint.prbs self.now) (length (place_uplink self.now a.now.slot)) a.now }
    {
        let uplinks = self.uplink(a.slot).len();
        verdict(
            self.claims(a.slot, a.down),
            self.rows(a.slot, a.down),
            uplinks,
            a,
        )
    }

    /// Claims what an accepted allocation names.
    fn claim_elements(&mut self, a: &Allocation)
        requires slot { is_place_of self.old.slot a.now.slot ≡ true }
        requires within { a.now.symbol + a.now.num_symbol ≤ SLOT_SYMBOLS }
        requires inside { is_outside a.now.endpoint.prbs a.now.start_prb a.now.num_prb ≡ false }
        requires prbs { a.now.endpoint.prbs ≡ self.old.prbs }
        requires free { overlaps_by (place_claim a.now.endpoint.prbs self.old) a.now ≡ false }
        ensures claims { (cell : Cell) (re : ℕ) → cell.ep ≡ a.now.ep → cell.slot ≡ a.now.slot → cell.prb < a.now.endpoint.prbs → re < 12
            → place_claim a.now.endpoint.prbs self.new cell re ≡ claim_after Accepted a.now cell re (place_claim a.now.endpoint.prbs self.old cell re) }
        ensures reported { (k : ℕ) → is_reported self.new.down k ≡ is_reported self.old.down k }
        ensures kept { self.new ≡ record self.old { down = self.new.down; up = self.new.up } }
    {
        if a.down {
            claim(&mut self.down, &mut self.down_spans, &mut self.down_rows, a);
        } else {
            claim(&mut self.up, &mut self.up_spans, &mut self.up_rows, a);
        }
    }

    /// Keeps an accepted uplink section.
    fn keep(&mut self, a: &Allocation)
        requires { is_uplink a.now ≡ true → length self.old.uplink < SLOT_SECTIONS }
        ensures { self.new ≡ record self.old { uplink = uplink_after Accepted a.now self.old.uplink } }
    {
        keep(&mut self.uplink, a);
    }

    /// Claims what an accepted allocation names, and keeps it where it is an uplink section.
    pub(crate) fn claim(&mut self, a: &Allocation)
        requires slot { is_place_of self.old.slot a.now.slot ≡ true }
        requires within { a.now.symbol + a.now.num_symbol ≤ SLOT_SYMBOLS }
        requires prbs { a.now.endpoint.prbs ≡ self.old.prbs }
        requires accepted { verdict_by (place_claim a.now.endpoint.prbs self.old) (length (place_uplink self.old a.now.slot)) a.now ≡ Accepted }
        ensures claims { (cell : Cell) (re : ℕ) → cell.ep ≡ a.now.ep → cell.slot ≡ a.now.slot → cell.prb < a.now.endpoint.prbs → re < 12
            → place_claim a.now.endpoint.prbs self.new cell re ≡ claim_after Accepted a.now cell re (place_claim a.now.endpoint.prbs self.old cell re) }
        ensures uplink { self.new.uplink ≡ uplink_after Accepted a.now self.old.uplink }
        ensures reported { (k : ℕ) → is_reported self.new.down k ≡ is_reported self.old.down k }
        ensures kept { self.new ≡ record self.old { down = self.new.down; up = self.new.up; uplink = self.new.uplink } }
    {
        self.claim_elements(a);
        self.keep(a);
    }

    /// The blocks of a slot.
    pub(crate) fn blocks(&self, slot: Slot) -> LentBlocks<'_>
        ensures { (k : ℕ) → block_lent result k ≡ get_or (blocks_seen self.now slot) k None }
    {
        if self.has(slot) {
            self.blocks.lend()
        } else {
            LentBlocks::none()
        }
    }

    /// Gives a downlink cell a block, where it has none: that with number `k`, at a PRB of a symbol.
    pub(crate) fn fill(&mut self, symbol: u8, prb: u16, k: usize, block: &Block)
        requires symbol { symbol < SLOT_SYMBOLS }
        requires prb { prb < self.old.prbs }
        requires number { k ≡ cell_number self.old.prbs symbol prb }
        ensures here { get_or self.new.blocks k None ≡ or_else (get_or self.old.blocks k None) (Some block.now) }
        ensures others { (i : ℕ) → i ≢ k → get_or self.new.blocks i None ≡ get_or self.old.blocks i None }
        ensures kept { self.new ≡ record self.old { blocks = self.new.blocks } }
    {
        let prbs = PrbSpan {
            first: prb,
            count: 1,
        };
        widen(&mut self.block_spans, symbol as usize, prbs);
        self.blocks.fill(k, block);
    }

    /// Gives downlink cells from number `from` on, at the PRBs of a symbol from one on, the samples of packed PRBs, each where it has
    /// no block.
    pub(crate) fn fill_run(&mut self, symbol: u8, first: u16, from: usize, run: &PackedRun<'_>)
        requires width { HasWidth run.now.method }
        requires symbol { symbol < SLOT_SYMBOLS }
        requires room { first + run.now.count ≤ self.old.prbs }
        requires number { from ≡ cell_number self.old.prbs symbol first }
        ensures here { (k : ℕ) → k < run.now.count → get_or self.new.blocks (from + k) None
            ≡ or_else (get_or self.old.blocks (from + k) None) (Some (packed_block run.now.id (packed_samples run.now) k)) }
        ensures others { (i : ℕ) → is_from from run.now.count i ≡ false → get_or self.new.blocks i None ≡ get_or self.old.blocks i None }
        ensures kept { self.new ≡ record self.old { blocks = self.new.blocks } }
    {
        let prbs = PrbSpan {
            first,
            count: run.count,
        };
        widen(&mut self.block_spans, symbol as usize, prbs);
        self.blocks.fill_run(from, run);
    }

    /// Sets as reported those of the first so many downlink cells of a symbol that are in use, where it begins at number `from`.
    pub(crate) fn set_used_reported(&mut self, symbol: u8, from: usize, count: u16)
        requires symbol { symbol < SLOT_SYMBOLS }
        requires from { from ≡ cell_number self.old.prbs symbol 0 }
        requires count { count ≤ self.old.prbs }
        ensures here { (k : ℕ) → k < count → is_reported self.new.down (from + k)
            ≡ (is_reported self.old.down (from + k) || is_in_use (claim_in (get_or self.old.down (from + k) no_claims))) }
        ensures others { (i : ℕ) → is_from from count i ≡ false → is_reported self.new.down i ≡ is_reported self.old.down i }
        ensures claims { (i : ℕ) → unreported (get_or self.new.down i no_claims) ≡ unreported (get_or self.old.down i no_claims) }
        ensures kept { self.new ≡ record self.old { down = self.new.down } }
    {
        let row = row_at(&self.down_rows, symbol as usize);
        let span = span_of(row, self.prbs);
        let end = span.end.min(count);
        let first = span.first.min(end);
        self.set_cells_reported(from + first as usize, (end - first) as usize);
    }

    /// Sets as reported those of so many downlink cells, from number `from` on, that are in use.
    fn set_cells_reported(&mut self, from: usize, count: usize)
        requires { from + count ≤ SLOT_SYMBOLS * self.old.prbs }
        ensures here { (k : ℕ) → k < count → is_reported self.new.down (from + k)
            ≡ (is_reported self.old.down (from + k) || is_in_use (claim_in (get_or self.old.down (from + k) no_claims))) }
        ensures others { (i : ℕ) → is_from from count i ≡ false → is_reported self.new.down i ≡ is_reported self.old.down i }
        ensures claims { (i : ℕ) → unreported (get_or self.new.down i no_claims) ≡ unreported (get_or self.old.down i no_claims) }
        ensures kept { self.new ≡ record self.old { down = self.new.down } }
    {
        set_used_reported(&mut self.down, from, count);
    }
}
