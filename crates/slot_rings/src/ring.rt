// The ring of places.
ghost use Rattle.std.specs.Prelude.{◌≡◌, ◌≢◌, ℕ, ◌+◌, ◌*◌, ◌<◌, ◌≤◌, ◌||◌, ◌↔◌, true, false, [], length, get_or, replicate, reverse, is_some, IfOk, IfSome, None, Some, option_copied};
ghost use Rattle.bfp_codec.specs.Layout.{HasWidth};
ghost use Rattle.fh_base.specs.declared.values.Slot.{Slot};
ghost use Rattle.fh_base.specs.Numbering.{symbols_of};
ghost use Rattle.unit_model.specs.Claims.{cell_at, is_from};
ghost use Rattle.fh_base.specs.Lists.{every, some, or_else};
ghost use Rattle.unit_model.specs.Proper.{IsSlot};
ghost use Rattle.unit_model.specs.declared.cells.Cell.{Cell};
ghost use Rattle.unit_model.specs.declared.verdicts.CommandVerdict.TheVariants.{Accepted};
ghost use Rattle.slot_rings.specs.Places.{blank, claim_in, empty_place, no_claims, is_place_of, is_due, is_in_use, is_reported, unreported, IsOpened, place_claim, place_uplink, cell_number};
ghost use Rattle.slot_rings.specs.Runs.{packed_block, packed_samples};
ghost use Rattle.slot_rings.specs.Verdicts.{verdict_by, claim_after, uplink_after};
ghost use Rattle.fh_base.specs.declared.symbols.TheConstants.{SLOT_SYMBOLS};
ghost use Rattle.unit_model.specs.declared.uplink.TheConstants.{SLOT_SECTIONS};
ghost use Rattle.fh_base.specs.declared.carrier.TheConstants.{CARRIER_PRBS};

use crate::index::place_index;
use crate::lists::items_from;
use crate::packed::PackedRun;
use crate::pending::Flags;
use crate::place::Place;
use crate::scans::{all_there, any_due};
use crate::starts::{Starts, start_from};
use crate::symbol_cells::SymbolCells;
use fh_base::{NoMemory, Slot, Ticks};
use std::alloc::Global;
use std::marker::Model;
use unit_model::{Allocation, Block, CommandVerdict};
use window_config::EndpointConfig;

/// The memory of one endpoint of a radio unit: a ring of places, each that of one slot at a time. All memory is taken
/// when it is made; no other call asks for any. A slot's place goes by its number in the order of slots, modulo the number
/// of places.
#[derive(Drop)]
pub struct SlotRing {
    endpoint: EndpointConfig,
    places: Vec<Place>,
    // of each place, the symbols that may have downlink cells to report
    pending: Flags,
    // of each place, a tick before which none of these starts
    starts: Starts,
    // how many uplink sections all places hold
    sections: usize,
}

impl Model for SlotRing {
    ghost use Rattle.slot_rings.specs.Rings.{RingValue, IsRing};
    ghost use Rattle.slot_rings.specs.Counts.{HasSections};
    ghost use Rattle.slot_rings.specs.Pending.{IsFlagged};
    ghost use Rattle.slot_rings.specs.Starts.{HaveStarts};

    ghost Value = { RingValue };

    ghost view = { λ r. record { endpoint = r.endpoint; places = r.places.items } };

    ghost invariant = { λ r. IsRing (record { endpoint = r.endpoint; places = r.places.items })
        × IsFlagged (record { endpoint = r.endpoint; places = r.places.items }) r.pending
        × HasSections (record { endpoint = r.endpoint; places = r.places.items }) r.sections
        × HaveStarts (record { endpoint = r.endpoint; places = r.places.items }) r.starts };
}

/// Takes all memory of so many places, each for so many PRBs.
fn empty_places(alloc: Global, count: usize, prbs: u16) -> Result<Vec<Place>, NoMemory>
    requires { prbs ≤ CARRIER_PRBS }
    ensures { IfOk result (λ v. v.items ≡ replicate count (empty_place None prbs)) }
{
    let mut places = Vec::with_capacity(alloc, count)?;
    for _k in 0..count {
        let place = Place::make(alloc, prbs)?;
        places.push(place)?;
    }
    Ok(places)
}

impl SlotRing {
    ghost use Rattle.slot_rings.specs.Starts.{IsDueFrom, StartsFrom};
    ghost use Rattle.slot_rings.specs.Symbols.{AreCellsOf};
    ghost use Rattle.slot_rings.specs.Rings.{IsRing, place_index, place_of, ring_claim, ring_block, ring_reported, ring_uplink, has_slot, SharePlace, IsRingCell, TouchesOnly, with_place, IsEmpty, SameClaims, SameBlocks, SameSlotReported, SameUplink};

    /// Takes all memory, for so many slots of an endpoint.
    pub fn make(alloc: Global, endpoint: EndpointConfig, slots: usize) -> Result<SlotRing, NoMemory>
        requires some { 1 ≤ slots }
        requires few { slots < 1024 }
        requires prbs_some { 1 ≤ endpoint.prbs }
        requires prbs_few { endpoint.prbs ≤ CARRIER_PRBS }
        ensures endpoint { IfOk result (λ r. r.endpoint ≡ endpoint) }
        ensures size { IfOk result (λ r. length r.places ≡ slots) }
        ensures empty { IfOk result (λ r. IsEmpty r) }
    {
        let places = empty_places(alloc, slots, endpoint.prbs)?;
        let pending = Flags::make(alloc, slots)?;
        let starts = Starts::make(alloc, slots)?;
        Ok(SlotRing {
            endpoint,
            places,
            pending,
            starts,
            sections: 0,
        })
    }

    /// The endpoint.
    pub fn endpoint(&self) -> &EndpointConfig
        ensures { result.now ≡ self.now.endpoint }
    {
        &self.endpoint
    }

    /// The index of a slot's place.
    fn index(&self, slot: Slot) -> usize
        requires { IsSlot self.now.endpoint.numerology slot }
        ensures value { result ≡ place_index self.now slot }
        ensures within { result < length self.now.places }
    {
        place_index(&self.endpoint.numerology, self.places.len(), slot)
    }

    /// A slot's place.
    fn place(&self, slot: Slot) -> &Place
        requires { IsSlot self.now.endpoint.numerology slot }
        ensures value { result.now ≡ place_of self.now slot }
        ensures prbs { result.now.prbs ≡ self.now.endpoint.prbs }
        ensures some { 0 < self.now.endpoint.prbs }
    {
        let index = self.index(slot);
        &self.places[index]
    }

    /// The number of a cell in its slot.
    fn number(&self, symbol: u8, prb: u16) -> usize
        ensures value { result ≡ cell_number self.now.endpoint.prbs symbol prb }
        ensures small { result < 16777216 }
    {
        symbol as usize * self.endpoint.prbs as usize + prb as usize
    }

    /// Whether a slot has its place.
    pub fn has(&self, slot: Slot) -> bool
        requires { IsSlot self.now.endpoint.numerology slot }
        ensures { result ≡ has_slot self.now slot }
    {
        self.place(slot).has(slot)
    }

    /// The verdict on an allocation that is on time (this project's profile).
    pub fn judge(&self, a: &Allocation) -> CommandVerdict
        requires endpoint { a.now.endpoint ≡ self.now.endpoint }
        requires slot { IsSlot self.now.endpoint.numerology a.now.slot }
        ensures { result ≡ verdict_by (ring_claim self.now) (length (ring_uplink self.now a.now.slot)) a.now }
    {
        self.place(a.slot).judge(a)
    }

    /// The accepted uplink sections of a slot, the newest last: 64 at most.
    pub fn uplink(&self, slot: Slot) -> &[Allocation]
        requires { IsSlot self.now.endpoint.numerology slot }
        ensures value { reverse result.now ≡ ring_uplink self.now slot }
        ensures few { length result.now ≤ SLOT_SECTIONS }
    {
        self.place(slot).uplink(slot)
    }

    /// Whether each of `count` downlink cells of a symbol, from PRB `first` on, has a block.
    pub fn has_all(&self, slot: Slot, symbol: u8, first: u16, count: u16) -> bool
        requires { IsSlot self.now.endpoint.numerology slot }
        ensures { (ep : ℕ) → result ≡ every first count (λ prb. is_some (ring_block self.now (cell_at ep true slot symbol prb))) }
    {
        let base = self.number(symbol, 0);
        all_there(&self.place(slot).blocks(slot), base, first, count)
    }

    /// The block of a downlink cell.
    pub fn block(&self, slot: Slot, symbol: u8, prb: u16) -> Option<&Block>
        requires { IsSlot self.now.endpoint.numerology slot }
        ensures { (ep : ℕ) → option_copied result ≡ ring_block self.now (cell_at ep true slot symbol prb) }
    {
        let number = self.number(symbol, prb);
        self.place(slot).blocks(slot).block(number)
    }

    /// The downlink cells of a symbol: their place is found once for all of them.
    pub fn symbol_cells(&self, slot: Slot, symbol: u8) -> SymbolCells<'_>
        requires { IsSlot self.now.endpoint.numerology slot }
        ensures { AreCellsOf self.now slot symbol result }
    {
        let base = self.number(symbol, 0);
        let place = self.place(slot);
        SymbolCells {
            claims: items_from(place.claims(slot, true), base),
            blocks: place.blocks(slot).behind(base),
            span: place.span(slot, symbol),
        }
    }

    /// Whether a downlink cell of the symbol may be in use and not reported, of the slot that has the place with this index. It
    /// looks at no cell.
    pub fn is_pending(&self, index: usize, symbol: u8) -> bool
        requires { index < length self.now.places }
        ensures { result ≡ false → (slot : Slot) → place_index self.now slot ≡ index → has_slot self.now slot ≡ true → (ep : ℕ) → some 0 self.now.endpoint.prbs (λ prb.
            is_due (ring_claim self.now (cell_at ep true slot symbol prb)) (ring_reported self.now (cell_at ep true slot symbol prb))) ≡ false }
    {
        self.pending.has(index, symbol)
    }

    /// A tick before which no symbol starts of which a downlink cell is in use and was not reported, of the slot that has the place with
    /// this index. None only where there is no such cell. It looks at two numbers.
    pub fn earliest_at(&self, index: usize) -> Option<Ticks>
        requires { index < length self.now.places }
        ensures { IsDueFrom self.now (λ slot. place_index self.now slot ≡ index) result }
    {
        if self.pending.has_any_of(index) {
            Some(self.starts.at(index))
        } else {
            None
        }
    }

    /// A tick before which no symbol starts of which a downlink cell is in use and was not reported, of any slot. None only where there is
    /// no such cell. It looks at two numbers.
    pub fn earliest(&self) -> Option<Ticks>
        ensures { IsDueFrom self.now (λ slot. Unit {0}) result }
    {
        if self.pending.has_any() {
            Some(self.starts.earliest())
        } else {
            None
        }
    }

    /// Whether any accepted uplink section is held, of any slot. It looks at one number.
    pub fn has_uplink(&self) -> bool
        ensures { result ≡ false → (slot : Slot) → ring_uplink self.now slot ≡ [] }
    {
        self.sections != 0
    }

    /// Whether any accepted uplink section is held of the slot that has the place with this index.
    pub fn has_uplink_at(&self, index: usize) -> bool
        requires { index < length self.now.places }
        ensures { result ≡ false → (slot : Slot) → place_index self.now slot ≡ index → ring_uplink self.now slot ≡ [] }
    {
        self.places[index].sections() != 0
    }

    /// Whether a downlink cell of a symbol is in use and was not reported.
    pub fn is_used(&self, slot: Slot, symbol: u8) -> bool
        requires { IsSlot self.now.endpoint.numerology slot }
        ensures { (ep : ℕ) → result ≡ some 0 self.now.endpoint.prbs (λ prb.
            is_due (ring_claim self.now (cell_at ep true slot symbol prb)) (ring_reported self.now (cell_at ep true slot symbol prb))) }
    {
        let index = self.index(slot);
        if !self.is_pending(index, symbol) {
            return false;
        }
        self.has_due(slot, symbol)
    }

    /// The same, by a look at each of its cells.
    fn has_due(&self, slot: Slot, symbol: u8) -> bool
        requires { IsSlot self.now.endpoint.numerology slot }
        ensures { (ep : ℕ) → result ≡ some 0 self.now.endpoint.prbs (λ prb.
            is_due (ring_claim self.now (cell_at ep true slot symbol prb)) (ring_reported self.now (cell_at ep true slot symbol prb))) }
    {
        let base = self.number(symbol, 0);
        let place = self.place(slot);
        any_due(
            place.claims(slot, true),
            base,
            self.endpoint.prbs,
            place.span(slot, symbol),
        )
    }

    /// How many places it has.
    pub fn place_count(&self) -> usize
        ensures value { result ≡ length self.now.places }
        ensures within { (slot : Slot) → place_index self.now slot < result }
    {
        self.places.len()
    }

    /// The slot that has the place with this index.
    pub fn slot_at(&self, index: usize) -> Option<Slot>
        requires { index < length self.now.places }
        ensures has { IfSome result (λ slot. has_slot self.now slot ≡ true) }
        ensures slot { IfSome result (λ slot. IsSlot self.now.endpoint.numerology slot) }
        ensures index { IfSome result (λ slot. place_index self.now slot ≡ index) }
        ensures only { (slot : Slot) → place_index self.now slot ≡ index → has_slot self.now slot ≡ true → result ≡ Some slot }
    {
        self.places[index].slot()
    }

    /// Lets a slot have its place.
    fn open_place(&mut self, slot: Slot)
        requires { IsSlot self.old.endpoint.numerology slot }
        ensures only { self.new ≡ with_place self.old slot (place_of self.new slot) }
        ensures opened { IsOpened slot (place_of self.old slot) (place_of self.new slot) }
        ensures ring { IsRing self.old }
    {
        let index = self.index(slot);
        let place = &mut self.places[index];
        let before = place.sections();
        place.open(slot);
        let after = place.sections();
        self.sections = self.sections - before + after;
    }

    /// Claims in a slot's place.
    fn claim_place(&mut self, a: &Allocation)
        requires endpoint { a.now.endpoint ≡ self.old.endpoint }
        requires slot { IsSlot self.old.endpoint.numerology a.now.slot }
        requires within { a.now.symbol + a.now.num_symbol ≤ SLOT_SYMBOLS }
        requires has { is_place_of (place_of self.old a.now.slot).slot a.now.slot ≡ true }
        requires accepted { verdict_by (place_claim a.now.endpoint.prbs (place_of self.old a.now.slot)) (length (place_uplink (place_of self.old a.now.slot) a.now.slot)) a.now ≡ Accepted }
        ensures only { self.new ≡ with_place self.old a.now.slot (place_of self.new a.now.slot) }
        ensures claims { (cell : Cell) (re : ℕ) → cell.ep ≡ a.now.ep → cell.slot ≡ a.now.slot → cell.prb < a.now.endpoint.prbs → re < 12
            → place_claim a.now.endpoint.prbs (place_of self.new a.now.slot) cell re
            ≡ claim_after Accepted a.now cell re (place_claim a.now.endpoint.prbs (place_of self.old a.now.slot) cell re) }
        ensures uplink { (place_of self.new a.now.slot).uplink ≡ uplink_after Accepted a.now (place_of self.old a.now.slot).uplink }
        ensures slot { (place_of self.new a.now.slot).slot ≡ (place_of self.old a.now.slot).slot }
        ensures blocks { (place_of self.new a.now.slot).blocks ≡ (place_of self.old a.now.slot).blocks }
        ensures reported { (k : ℕ) → is_reported (place_of self.new a.now.slot).down k ≡ is_reported (place_of self.old a.now.slot).down k }
    {
        let index = self.index(a.slot);
        let place = &mut self.places[index];
        let before = place.sections();
        place.claim(a);
        let after = place.sections();
        self.sections = self.sections - before + after;
        self.pending.flag(index, a);
        self.starts.claim(index, &self.endpoint.numerology, a);
    }

    /// Gives a cell its block in a slot's place.
    fn fill_place(&mut self, slot: Slot, symbol: u8, prb: u16, block: &Block)
        requires slot { IsSlot self.old.endpoint.numerology slot }
        requires symbol { symbol < SLOT_SYMBOLS }
        requires prb { prb < self.old.endpoint.prbs }
        ensures only { self.new ≡ with_place self.old slot (place_of self.new slot) }
        ensures here { get_or (place_of self.new slot).blocks (cell_number self.old.endpoint.prbs symbol prb) None
            ≡ or_else (get_or (place_of self.old slot).blocks (cell_number self.old.endpoint.prbs symbol prb) None) (Some block.now) }
        ensures others { (i : ℕ) → i ≢ cell_number self.old.endpoint.prbs symbol prb → get_or (place_of self.new slot).blocks i None ≡ get_or (place_of self.old slot).blocks i None }
        ensures kept { place_of self.new slot ≡ record (place_of self.old slot) { blocks = (place_of self.new slot).blocks } }
    {
        let number = self.number(symbol, prb);
        let index = self.index(slot);
        self.places[index].fill(symbol, prb, number, block);
    }

    /// Gives cells of a slot's place, from one number on, the samples of packed PRBs.
    fn fill_run_place(&mut self, slot: Slot, symbol: u8, first: u16, run: &PackedRun<'_>)
        requires slot { IsSlot self.old.endpoint.numerology slot }
        requires symbol { symbol < SLOT_SYMBOLS }
        requires prbs { first + run.now.count ≤ self.old.endpoint.prbs }
        requires width { HasWidth run.now.method }
        ensures only { self.new ≡ with_place self.old slot (place_of self.new slot) }
        ensures here { (k : ℕ) → k < run.now.count → get_or (place_of self.new slot).blocks (cell_number self.old.endpoint.prbs symbol first + k) None
            ≡ or_else (get_or (place_of self.old slot).blocks (cell_number self.old.endpoint.prbs symbol first + k) None) (Some (packed_block run.now.id (packed_samples run.now) k)) }
        ensures others { (i : ℕ) → is_from (cell_number self.old.endpoint.prbs symbol first) run.now.count i ≡ false → get_or (place_of self.new slot).blocks i None ≡ get_or (place_of self.old slot).blocks i None }
        ensures kept { place_of self.new slot ≡ record (place_of self.old slot) { blocks = (place_of self.new slot).blocks } }
    {
        let number = self.number(symbol, first);
        let index = self.index(slot);
        self.places[index].fill_run(symbol, first, number, run);
    }

    /// Sets as reported those of the first so many cells of a symbol that are in use, in a slot's place. Where these are all of
    /// the symbol's, its flag goes.
    fn set_place_reported(&mut self, slot: Slot, symbol: u8, count: u16)
        requires slot { IsSlot self.old.endpoint.numerology slot }
        requires symbol { symbol < SLOT_SYMBOLS }
        requires count { count ≤ self.old.endpoint.prbs }
        ensures only { self.new ≡ with_place self.old slot (place_of self.new slot) }
        ensures here { (k : ℕ) → k < count → is_reported (place_of self.new slot).down (cell_number self.old.endpoint.prbs symbol 0 + k)
            ≡ (is_reported (place_of self.old slot).down (cell_number self.old.endpoint.prbs symbol 0 + k)
            || is_in_use (claim_in (get_or (place_of self.old slot).down (cell_number self.old.endpoint.prbs symbol 0 + k) no_claims))) }
        ensures others { (i : ℕ) → is_from (cell_number self.old.endpoint.prbs symbol 0) count i ≡ false
            → is_reported (place_of self.new slot).down i ≡ is_reported (place_of self.old slot).down i }
        ensures claims { (i : ℕ) → unreported (get_or (place_of self.new slot).down i no_claims) ≡ unreported (get_or (place_of self.old slot).down i no_claims) }
        ensures kept { place_of self.new slot ≡ record (place_of self.old slot) { down = (place_of self.new slot).down } }
    {
        let number = self.number(symbol, 0);
        let index = self.index(slot);
        let all = count == self.endpoint.prbs;
        self.places[index].set_used_reported(symbol, number, count);
        self.pending.clear_reported(index, symbol, all);
    }

    /// A tick before which no symbol starts that may have a downlink cell to report, of the slot that has the place with this index: the
    /// first one that is flagged starts then.
    fn first_start(&self, index: usize) -> Ticks
        requires { index < length self.now.places }
        ensures { StartsFrom self.now (get_or self.now.places index blank) result.0 }
    {
        let symbol = self.pending.first_of(index);
        start_from(&self.endpoint.numerology, self.places[index].slot(), symbol)
    }

    /// Finds anew from which tick on symbols of a slot's place may have downlink cells to report.
    fn renew_start(&mut self, slot: Slot)
        requires { IsSlot self.old.endpoint.numerology slot }
        ensures { self.new ≡ self.old }
    {
        let index = self.index(slot);
        let start = self.first_start(index);
        self.starts.put(index, start);
    }

    /// Sets as reported those of the first so many cells of a symbol that are in use, in a slot's place, and finds anew from which tick on
    /// its symbols may have cells to report.
    fn report_place(&mut self, slot: Slot, symbol: u8, count: u16)
        requires slot { IsSlot self.old.endpoint.numerology slot }
        requires symbol { symbol < SLOT_SYMBOLS }
        requires count { count ≤ self.old.endpoint.prbs }
        ensures only { self.new ≡ with_place self.old slot (place_of self.new slot) }
        ensures here { (k : ℕ) → k < count → is_reported (place_of self.new slot).down (cell_number self.old.endpoint.prbs symbol 0 + k)
            ≡ (is_reported (place_of self.old slot).down (cell_number self.old.endpoint.prbs symbol 0 + k)
            || is_in_use (claim_in (get_or (place_of self.old slot).down (cell_number self.old.endpoint.prbs symbol 0 + k) no_claims))) }
        ensures others { (i : ℕ) → is_from (cell_number self.old.endpoint.prbs symbol 0) count i ≡ false
            → is_reported (place_of self.new slot).down i ≡ is_reported (place_of self.old slot).down i }
        ensures claims { (i : ℕ) → unreported (get_or (place_of self.new slot).down i no_claims) ≡ unreported (get_or (place_of self.old slot).down i no_claims) }
        ensures kept { place_of self.new slot ≡ record (place_of self.old slot) { down = (place_of self.new slot).down } }
    {
        self.set_place_reported(slot, symbol, count);
        self.renew_start(slot);
    }

    /// Lets a slot have its place. What was kept of another slot in that place is forgotten; what was kept of this one stays.
    pub fn open(&mut self, slot: Slot)
        requires { IsSlot self.old.endpoint.numerology slot }
        ensures has { has_slot self.new slot ≡ true }
        ensures claims { SameClaims slot self.old self.new }
        ensures blocks { SameBlocks slot self.old self.new }
        ensures reported { SameSlotReported slot self.old self.new }
        ensures uplink { SameUplink slot self.old self.new }
        ensures touches { TouchesOnly slot self.old self.new }
        ensures parted { (other : Slot) → SharePlace self.old other slot → other ≢ slot → has_slot self.new other ≡ false }
    {
        self.open_place(slot);
    }

    /// Claims what an allocation names that was judged as accepted, in a slot that has its place.
    pub fn claim(&mut self, a: &Allocation)
        requires endpoint { a.now.endpoint ≡ self.old.endpoint }
        requires slot { IsSlot self.old.endpoint.numerology a.now.slot }
        requires within { a.now.symbol + a.now.num_symbol ≤ symbols_of self.old.endpoint.numerology }
        requires has { has_slot self.old a.now.slot ≡ true }
        requires accepted { verdict_by (ring_claim self.old) (length (ring_uplink self.old a.now.slot)) a.now ≡ Accepted }
        ensures claims { (cell : Cell) (re : ℕ) → IsRingCell self.old cell → cell.ep ≡ a.now.ep → cell.slot ≡ a.now.slot → re < 12
            → ring_claim self.new cell re ≡ claim_after Accepted a.now cell re (ring_claim self.old cell re) }
        ensures uplink { ring_uplink self.new a.now.slot ≡ uplink_after Accepted a.now (ring_uplink self.old a.now.slot) }
        ensures has { has_slot self.new a.now.slot ≡ true }
        ensures blocks { SameBlocks a.now.slot self.old self.new }
        ensures reported { SameSlotReported a.now.slot self.old self.new }
        ensures touches { TouchesOnly a.now.slot self.old self.new }
    {
        self.claim_place(a);
    }

    /// Gives a downlink cell its block where it has none, in a slot that has its place.
    pub fn fill(&mut self, slot: Slot, symbol: u8, prb: u16, block: Block)
        requires slot { IsSlot self.old.endpoint.numerology slot }
        requires symbol { symbol < symbols_of self.old.endpoint.numerology }
        requires prb { prb < self.old.endpoint.prbs }
        requires has { has_slot self.old slot ≡ true }
        ensures here { (ep : ℕ) → ring_block self.new (cell_at ep true slot symbol prb)
            ≡ or_else (ring_block self.old (cell_at ep true slot symbol prb)) (Some block) }
        ensures others { (cell : Cell) → IsRingCell self.old cell → cell.slot ≡ slot → (cell.symbol ≡ symbol → cell.prb ≢ prb)
            → ring_block self.new cell ≡ ring_block self.old cell }
        ensures has { has_slot self.new slot ≡ true }
        ensures claims { SameClaims slot self.old self.new }
        ensures reported { SameSlotReported slot self.old self.new }
        ensures uplink { SameUplink slot self.old self.new }
        ensures touches { TouchesOnly slot self.old self.new }
    {
        self.fill_place(slot, symbol, prb, &block);
    }

    /// Gives downlink cells of a symbol, from PRB `first` on, the samples of packed PRBs, each cell where it has no block, in a
    /// slot that has its place. What has a block already is not unpacked.
    pub fn fill_run(&mut self, slot: Slot, symbol: u8, first: u16, run: &PackedRun<'_>)
        requires slot { IsSlot self.old.endpoint.numerology slot }
        requires symbol { symbol < symbols_of self.old.endpoint.numerology }
        requires prbs { first + run.now.count ≤ self.old.endpoint.prbs }
        requires width { HasWidth run.now.method }
        requires has { has_slot self.old slot ≡ true }
        ensures here { (ep k : ℕ) → k < run.now.count → ring_block self.new (cell_at ep true slot symbol (first + k))
            ≡ or_else (ring_block self.old (cell_at ep true slot symbol (first + k))) (Some (packed_block run.now.id (packed_samples run.now) k)) }
        ensures others { (cell : Cell) → IsRingCell self.old cell → cell.slot ≡ slot → (cell.symbol ≡ symbol → is_from first run.now.count cell.prb ≡ false)
            → ring_block self.new cell ≡ ring_block self.old cell }
        ensures has { has_slot self.new slot ≡ true }
        ensures claims { SameClaims slot self.old self.new }
        ensures reported { SameSlotReported slot self.old self.new }
        ensures uplink { SameUplink slot self.old self.new }
        ensures touches { TouchesOnly slot self.old self.new }
    {
        self.fill_run_place(slot, symbol, first, run);
    }

    /// Sets as reported the downlink cells of a symbol that are in use at the first so many PRBs, in a slot that has its place.
    /// Where these are all PRBs, `is_pending` and `is_used` look at none of its cells until one is claimed.
    pub fn set_used_reported(&mut self, slot: Slot, symbol: u8, count: u16)
        requires slot { IsSlot self.old.endpoint.numerology slot }
        requires symbol { symbol < symbols_of self.old.endpoint.numerology }
        requires count { count ≤ self.old.endpoint.prbs }
        requires has { has_slot self.old slot ≡ true }
        ensures here { (ep prb : ℕ) → prb < count → ring_reported self.new (cell_at ep true slot symbol prb)
            ≡ (ring_reported self.old (cell_at ep true slot symbol prb) || is_in_use (ring_claim self.old (cell_at ep true slot symbol prb))) }
        ensures others { (cell : Cell) → IsRingCell self.old cell → cell.slot ≡ slot → (cell.symbol ≡ symbol → count ≤ cell.prb)
            → ring_reported self.new cell ≡ ring_reported self.old cell }
        ensures has { has_slot self.new slot ≡ true }
        ensures claims { SameClaims slot self.old self.new }
        ensures blocks { SameBlocks slot self.old self.new }
        ensures uplink { SameUplink slot self.old self.new }
        ensures touches { TouchesOnly slot self.old self.new }
    {
        self.report_place(slot, symbol, count);
    }
}
