// The rings of all endpoints.
ghost use Rattle.std.specs.Prelude.{◌≡◌, ◌≢◌, ℕ, ℤ, ◌+◌, ◌*◌, ◌<◌, ◌≤◌, ◌||◌, true, false, List, [], ◌∷◌, ◌++◌, All, length, is_some, IfOk, Some};
ghost use Rattle.fh_base.specs.Numbering.{symbols_of};
ghost use Rattle.fh_base.specs.declared.values.Slot.{Slot};
ghost use Rattle.unit_model.specs.Terms.{Side as SpecSide, Ru};
ghost use Rattle.bfp_codec.specs.Layout.{HasWidth, length_of};
ghost use Rattle.bfp_codec.specs.declared.samples.Wide.{Wide};
ghost use Rattle.window_config.specs.Configs.{IsConfig};
ghost use Rattle.window_config.specs.declared.config.Config.{Config};
ghost use Rattle.window_config.specs.declared.verdicts.Class.TheVariants.{OnTime};
ghost use Rattle.unit_model.specs.Blocks.{data_class, data_prb_count, data_slot, data_verdict, first_data_prb};
ghost use Rattle.unit_model.specs.Claims.{cell_at};
ghost use Rattle.unit_model.specs.Commands.{allocation_of, command_verdict, with_accepted};
ghost use Rattle.fh_base.specs.Lists.{every};
ghost use Rattle.unit_model.specs.Proper.{IsAt, IsProperCommand, IsSlot};
ghost use Rattle.unit_model.specs.declared.allocations.Allocation.{Allocation};
ghost use Rattle.unit_model.specs.declared.cells.Cell.{Cell};
ghost use Rattle.unit_model.specs.declared.decoded.UserSection.{UserSection};
ghost use Rattle.slot_rings.specs.Places.{is_in_use};
ghost use Rattle.slot_rings.specs.Rings.{RingValue, ring_block};
ghost use Rattle.slot_rings.specs.Runs.{packed_samples, unpacked_run};
ghost use Rattle.unit_model.specs.Headings.{IsProperHeading, data_under, with_heading};
ghost use Rattle.unit_cells.specs.Told.{IsTold};

use crate::rings::{fill, fill_run, make_ring, set_used_reported, take};
use crate::sections::{data_class, data_slot, prb_at};
use air_source::Side;
use bfp_codec::{Method, Wide};
use fh_base::{NoMemory, Slot};
use slot_rings::{PackedRun, SlotRing};
use std::alloc::Global;
use std::marker::Model;
use unit_model::{
    Allocation, Block, CommandVerdict, ControlSection, DataHeading, DataVerdict, allocation_of,
    command_class, is_for,
};
use window_config::{Class, Config, Delays};

/// The memory of all cells of a unit: the ring of each endpoint, which has a place for each slot that may be live at one
/// time. All memory is taken when it is made; no other call asks for any.
///
/// Endpoints go by their index in the configuration. Where an index is not one of these, there is nothing.
#[derive(Drop)]
pub struct UnitCells {
    side: Side,
    delays: Delays,
    rings: Vec<SlotRing>,
}

impl Model for UnitCells {
    ghost use Rattle.unit_cells.specs.Cells.{CellsValue, AreRings};

    ghost Value = { CellsValue };

    ghost view = { λ u. record { side = u.side; delays = u.delays; rings = u.rings.items } };

    ghost invariant = { λ u. AreRings (record { side = u.side; delays = u.delays; rings = u.rings.items }) };
}

impl UnitCells {
    ghost use Rattle.unit_cells.specs.Cells.{AreCellsIn, AreRings, CellsValue, IsOf, IsCellIn, cells_claim, cells_reported, cells_has, endpoints_of, ring_of};
    ghost use Rattle.unit_cells.specs.Keeping.{Keeps, LiveAreApart, SameKnown, SameReported};
    ghost use Rattle.unit_cells.specs.Steps.{Fills, InRing, SetsReported, Takes};

    /// Takes all memory for a configuration. Nothing is known of any slot.
    pub fn make(alloc: Global, side: Side, config: &Config) -> Result<UnitCells, NoMemory>
        requires { IsConfig config.now }
        ensures configured { IfOk result (λ v. IsOf side config.now v) }
        ensures keeps { IfOk result (λ v. (clock : ℤ) → Keeps side config.now clock v [] []) }
        ensures unreported { IfOk result (λ v. (cell : Cell) → cells_reported v cell ≡ false) }
    {
        let endpoints = config.endpoints.as_slice();
        let mut rings = Vec::with_capacity(alloc, endpoints.len())?;
        for endpoint in endpoints {
            let ring = make_ring(alloc, side, &config.delays, *endpoint)?;
            rings.push(ring)?;
        }
        Ok(UnitCells {
            side,
            delays: config.delays,
            rings,
        })
    }

    /// Judges an allocation that is on time, and claims what it names where it is accepted.
    fn take(&mut self, a: &Allocation) -> CommandVerdict
        requires at { IsAt (endpoints_of self.old) a.now.ep a.now.endpoint }
        requires slot { IsSlot a.now.endpoint.numerology a.now.slot }
        requires within { a.now.symbol + a.now.num_symbol ≤ symbols_of a.now.endpoint.numerology }
        ensures taken { InRing a.now.ep (Takes a.now result) self.old self.new }
        ensures held { AreRings self.old }
    {
        take(&mut self.rings[a.ep], a)
    }

    /// Gives a downlink cell its block, where it has none.
    fn fill_cell(&mut self, ep: usize, slot: Slot, symbol: u8, prb: u16, block: Block)
        requires { IsCellIn self.old (cell_at ep true slot symbol prb) }
        ensures filled { InRing ep (Fills slot symbol prb block.id (block.samples ∷ [])) self.old self.new }
        ensures held { AreRings self.old }
    {
        fill(&mut self.rings[ep], slot, symbol, prb, block);
    }

    /// Gives downlink cells of a symbol, from PRB `first` on, the samples of packed PRBs, each cell where it has no block.
    fn fill_cells(&mut self, ep: usize, slot: Slot, symbol: u8, first: u16, run: &PackedRun<'_>)
        requires cells { AreCellsIn self.old ep slot symbol first run.now.count }
        requires width { HasWidth run.now.method }
        ensures filled { InRing ep (Fills slot symbol first run.now.id (packed_samples run.now)) self.old self.new }
        ensures held { AreRings self.old }
    {
        fill_run(&mut self.rings[ep], slot, symbol, first, run);
    }

    /// Sets as reported the downlink cells of a symbol that are in use at the first so many PRBs.
    fn set_reported(&mut self, ep: usize, slot: Slot, symbol: u8, count: u16)
        requires cells { AreCellsIn self.old ep slot symbol 0 count }
        requires has { cells_has self.old ep slot ≡ true }
        ensures { InRing ep (SetsReported slot symbol count) self.old self.new }
    {
        set_used_reported(&mut self.rings[ep], slot, symbol, count);
    }

    /// Judges a section of a command that is received at the clock, and claims what it names where it is accepted (O-RAN.WG4.CUS for
    /// the fields and the windows; the verdicts are this project's profile).
    pub fn command(&mut self, command: &ControlSection) -> CommandVerdict
        requires { IsProperCommand (endpoints_of self.old) command.now }
        ensures verdict { (c : Config) (acc : List Allocation) (ds : List UserSection) → IsOf Ru c self.old → Keeps Ru c command.now.at.0 self.old acc ds
            → result ≡ command_verdict c.delays acc command.now }
        ensures keeps { (c : Config) (acc : List Allocation) (ds : List UserSection) → IsOf Ru c self.old → Keeps Ru c command.now.at.0 self.old acc ds
            → Keeps Ru c command.now.at.0 self.new (with_accepted result (allocation_of command.now) acc) ds }
        ensures reports { (c : Config) → IsOf Ru c self.old → SameReported Ru c command.now.at.0 self.old self.new }
        ensures side { self.new.side ≡ self.old.side }
        ensures delays { self.new.delays ≡ self.old.delays }
        ensures endpoints { endpoints_of self.new ≡ endpoints_of self.old }
    {
        if !is_for(&command.head.body, &command.endpoint.numerology) {
            return CommandVerdict::Mismatch;
        }
        match command_class(&self.delays, command) {
            Class::Late => CommandVerdict::Late,
            Class::Early => CommandVerdict::Early,
            Class::OnTime => self.take(&allocation_of(command)),
        }
    }

    /// The verdict on a section of data whose message becomes complete at the clock. Its PRBs follow, by `fill` and `fill_run`.
    pub fn begin(&self, heading: &DataHeading) -> DataVerdict
        requires { IsProperHeading self.now.side (endpoints_of self.now) heading.now }
        ensures verdict { (side : SpecSide) (c : Config) (acc : List Allocation) (ds : List UserSection) (blocks : List (List Wide)) → IsOf side c self.now
            → Keeps side c heading.now.last.0 self.now acc ds → All IsTold ds → result ≡ data_verdict side c.delays ds (data_under heading.now blocks) }
        ensures keeps { (side : SpecSide) (c : Config) (acc : List Allocation) (ds : List UserSection) → IsOf side c self.now → Keeps side c heading.now.last.0 self.now acc ds
            → Keeps side c heading.now.last.0 self.now acc (with_heading side c.delays heading.now [] ds) }
    {
        match data_class(self.side, &self.delays, heading) {
            Class::Late => DataVerdict::Late,
            Class::Early => DataVerdict::Early,
            Class::OnTime => {
                if self.is_whole(heading) {
                    DataVerdict::Repeat
                } else {
                    DataVerdict::Taken
                }
            }
        }
    }

    /// Whether each cell of a section of data has a block.
    fn is_whole(&self, heading: &DataHeading) -> bool
        requires { IsProperHeading self.now.side (endpoints_of self.now) heading.now }
        ensures { (r : RingValue) → ring_of self.now heading.now.ep ≡ Some r → result ≡ every (first_data_prb (data_under heading.now [])) (data_prb_count (data_under heading.now []))
            (λ prb. is_some (ring_block r (cell_at heading.now.ep true (data_slot (data_under heading.now [])) heading.now.section.symbol prb))) }
    {
        let slot = data_slot(heading);
        let prbs = heading.prbs();
        self.rings[heading.ep].has_all(slot, heading.section.symbol, prbs.first, prbs.count)
    }

    /// Gives a cell the samples of the PRB with number `k` of a section of data, 0 for its first one, where the section is on time
    /// and the cell has none. The PRBs of a section are given in their order, after `begin` and before anything else.
    pub fn fill(&mut self, heading: &DataHeading, k: u16, samples: &[Wide; 12])
        requires heading { IsProperHeading self.old.side (endpoints_of self.old) heading.now }
        requires within { k < data_prb_count (data_under heading.now []) }
        ensures keeps { (side : SpecSide) (c : Config) (acc : List Allocation) (ds : List UserSection) (blocks : List (List Wide)) → IsOf side c self.old → length blocks ≡ k
            → Keeps side c heading.now.last.0 self.old acc (with_heading side c.delays heading.now blocks ds)
            → Keeps side c heading.now.last.0 self.new acc (with_heading side c.delays heading.now (blocks ++ samples.now ∷ []) ds) }
        ensures same { data_class self.old.side self.old.delays (data_under heading.now []) ≢ OnTime → self.new ≡ self.old }
        ensures reports { (side : SpecSide) (c : Config) → IsOf side c self.old → SameReported side c heading.now.last.0 self.old self.new }
        ensures side { self.new.side ≡ self.old.side }
        ensures delays { self.new.delays ≡ self.old.delays }
        ensures endpoints { endpoints_of self.new ≡ endpoints_of self.old }
    {
        if let Class::OnTime = data_class(self.side, &self.delays, heading) {
            let block = Block {
                id: heading.section.id,
                samples: *samples,
            };
            let slot = data_slot(heading);
            let prb = prb_at(heading, k);
            self.fill_cell(heading.ep, slot, heading.section.symbol, prb, block);
        }
    }

    /// Gives cells the samples of the PRBs of a section of data from number `k` on, which are packed in these bytes, one after
    /// the other: each cell where the section is on time and the cell has no block. It amounts to so many calls of `fill`.
    pub fn fill_run(
        &mut self,
        heading: &DataHeading,
        k: u16,
        method: Method,
        count: u16,
        packed: &[u8],
    )
        requires heading { IsProperHeading self.old.side (endpoints_of self.old) heading.now }
        requires some { 0 < count }
        requires within { k + count ≤ data_prb_count (data_under heading.now []) }
        requires width { HasWidth method }
        requires len { length packed.now ≡ count * length_of method }
        ensures keeps { (side : SpecSide) (c : Config) (acc : List Allocation) (ds : List UserSection) (blocks : List (List Wide)) → IsOf side c self.old → length blocks ≡ k
            → Keeps side c heading.now.last.0 self.old acc (with_heading side c.delays heading.now blocks ds)
            → Keeps side c heading.now.last.0 self.new acc (with_heading side c.delays heading.now (blocks ++ unpacked_run method count packed.now) ds) }
        ensures same { data_class self.old.side self.old.delays (data_under heading.now []) ≢ OnTime → self.new ≡ self.old }
        ensures reports { (side : SpecSide) (c : Config) → IsOf side c self.old → SameReported side c heading.now.last.0 self.old self.new }
        ensures side { self.new.side ≡ self.old.side }
        ensures delays { self.new.delays ≡ self.old.delays }
        ensures endpoints { endpoints_of self.new ≡ endpoints_of self.old }
    {
        if let Class::OnTime = data_class(self.side, &self.delays, heading) {
            let run = PackedRun {
                id: heading.section.id,
                method,
                count,
                bytes: packed,
            };
            let slot = data_slot(heading);
            let first = prb_at(heading, k);
            self.fill_cells(heading.ep, slot, heading.section.symbol, first, &run);
        }
    }

    /// Sets as reported the downlink cells of a symbol that are in use at the first so many PRBs, in a slot that has its place.
    /// Where these are all PRBs, `is_pending` and `is_used` of the ring answer from now on without a look at any of its cells, until
    /// one is claimed. Nothing else changes.
    pub fn set_used_reported(&mut self, ep: usize, slot: Slot, symbol: u8, count: u16)
        requires cells { AreCellsIn self.old ep slot symbol 0 count }
        requires has { cells_has self.old ep slot ≡ true }
        ensures here { (prb : ℕ) → prb < count → cells_reported self.new (cell_at ep true slot symbol prb)
            ≡ (cells_reported self.old (cell_at ep true slot symbol prb) || is_in_use (cells_claim self.old (cell_at ep true slot symbol prb))) }
        ensures others { (cell : Cell) → IsCellIn self.old cell → (cell.ep ≡ ep → cell.slot ≡ slot → cell.symbol ≡ symbol → count ≤ cell.prb)
            → cells_reported self.new cell ≡ cells_reported self.old cell }
        ensures keeps { (side : SpecSide) (c : Config) (clock : ℤ) (acc : List Allocation) (ds : List UserSection) → Keeps side c clock self.old acc ds → Keeps side c clock self.new acc ds }
        ensures known { SameKnown self.old self.new }
        ensures side { self.new.side ≡ self.old.side }
        ensures delays { self.new.delays ≡ self.old.delays }
        ensures endpoints { endpoints_of self.new ≡ endpoints_of self.old }
    {
        self.set_reported(ep, slot, symbol, count);
    }

    /// The unit whose cells these are.
    pub fn side(&self) -> Side
        ensures { result ≡ self.now.side }
    {
        self.side
    }

    /// How many endpoints there are.
    pub fn endpoints(&self) -> usize
        ensures { result ≡ length (endpoints_of self.now) }
    {
        self.rings.len()
    }

    /// The ring of an endpoint. Two slots that are live have two places of it.
    pub fn ring(&self, ep: usize) -> &SlotRing
        requires { ep < length (endpoints_of self.now) }
        ensures ring { ring_of self.now ep ≡ Some result.now }
        ensures endpoint { IsAt (endpoints_of self.now) ep result.now.endpoint }
        ensures apart { LiveAreApart self.now }
    {
        &self.rings[ep]
    }
}
