// A whole message.
ghost use Rattle.std.specs.Prelude.{◌≡◌, ◌≢◌, ℕ, ◌+◌, [], ◌++◌, ◌≤ℤ◌, true, List, map, Some};
ghost use Rattle.fh_base.specs.Numbering.{shape_of};
ghost use Rattle.bfp_codec.specs.Layout.{HasWidth};
ghost use Rattle.air_source.specs.declared.events.Side.{Side as SpecSide};
ghost use Rattle.ecpri_fragments.specs.Assemblies.{message_of};
ghost use Rattle.fault_counters.specs.declared.kinds.Counter.{Counter as SpecCounter};
ghost use Rattle.fault_counters.specs.Counts.{times};
ghost use Rattle.window_config.specs.declared.config.Config.{Config};
ghost use Rattle.uplane_messages.specs.Joined.{message_bytes};
ghost use Rattle.uplane_messages.specs.Whole.{IsWhole};
ghost use Rattle.unit_model.specs.Counts.{decoded_counted};
ghost use Rattle.unit_model.specs.Decoding.{data_with, decode, gathered, has_way, nothing_told, sections_of};
ghost use Rattle.unit_model.specs.Proper.{IsAt, IsTime};
ghost use Rattle.air_source.specs.Units.{is_down};
ghost use Rattle.unit_model.specs.declared.allocations.Allocation.{Allocation};
ghost use Rattle.unit_model.specs.declared.decoded.UserSection.{UserSection};
ghost use Rattle.unit_cells.specs.Cells.{IsOf, endpoints_of};
ghost use Rattle.unit_cells.specs.Keeping.{SameReported};
ghost use Rattle.unit_memory.specs.Holding.{HoldsData};
ghost use Rattle.unit_model.specs.Judgements.{judged_data, judged_whole};
ghost use Rattle.unit_memory.specs.Sections.{items_of};

use crate::section::take_section;
use air_source::Side;
use ecpri_fragments::Lease;
use fault_counters::{Counter, Counters};
use fh_base::shape;
use unit_cells::UnitCells;
use unit_model::{DataHeading, Deaf, Listener};
use uplane_messages::{DataWalk, tested};
use uplane_sections::{UFeed, UHead};
use window_config::EndpointConfig;

/// Whether the unit receives a message of this direction.
fn has_way(side: Side, head: &UHead) -> bool
    ensures { result ≡ has_way side head.now }
{
    match side {
        Side::Ru => head.down,
        Side::Du => !head.down,
    }
}

/// Treats the sections of a message with this header, which no test refuses.
fn take_sections<L: Listener>(
    cells: &mut UnitCells,
    counters: &mut Counters,
    listener: &mut L,
    ep: usize,
    endpoint: &EndpointConfig,
    lease: &Lease<'_>,
    head: UHead,
)
    requires endpoint { IsAt (endpoints_of cells.old) ep endpoint.now }
    requires width { HasWidth endpoint.now.format.method }
    requires first { IsTime (message_of lease.now).first }
    requires last { IsTime (message_of lease.now).last }
    requires order { (message_of lease.now).first ≤ℤ (message_of lease.now).last }
    requires down { head.down ≡ is_down cells.old.side }
    requires whole { IsWhole endpoint.now.prbs (shape_of endpoint.now.numerology) head (items_of endpoint.now lease.now) }
    ensures holds { (side : SpecSide) (c : Config) (n : SpecCounter → ℕ) (acc : List Allocation) (ds : List UserSection)
        → HoldsData side c (message_of lease.now).last n acc ds cells.old counters.old
        → HoldsData side c (message_of lease.now).last n acc
        (map (data_with ep endpoint.now (message_of lease.now).first (message_of lease.now).last head) (gathered nothing_told (items_of endpoint.now lease.now)).parts ++ ds)
        cells.new counters.new }
    ensures told { (side : SpecSide) (c : Config) (n : SpecCounter → ℕ) (acc : List Allocation) (ds : List UserSection)
        → HoldsData side c (message_of lease.now).last n acc ds cells.old counters.old
        → L.heard listener.old (judged_data side c.delays ds
        (map (data_with ep endpoint.now (message_of lease.now).first (message_of lease.now).last head) (gathered nothing_told (items_of endpoint.now lease.now)).parts)) listener.new }
    ensures reports { (side : SpecSide) (c : Config) → IsOf side c cells.old → SameReported side c (message_of lease.now).last cells.old cells.new }
    ensures side { cells.new.side ≡ cells.old.side }
    ensures delays { cells.new.delays ≡ cells.old.delays }
    ensures endpoints { endpoints_of cells.new ≡ endpoints_of cells.old }
{
    let mut walk = DataWalk::new(
        lease,
        endpoint.format,
        endpoint.prbs,
        shape(&endpoint.numerology),
    );
    let first = lease.first();
    let last = lease.last();
    // the header, which is known
    walk.next();
    while let Some(what) = walk.next() {
        let section = match what {
            UFeed::Section(section) => section,
            _ => unreachable!(),
        };
        let heading = DataHeading {
            ep,
            endpoint: *endpoint,
            first,
            last,
            head,
            section,
        };
        take_section(cells, counters, listener, &heading, &mut walk);
    }
}

/// Treats a U-plane message to an endpoint, the one with index `ep`, that became whole at the clock (O-RAN.WG4.CUS, U-plane
/// messages; the verdicts are this project's profile). A message that the layout refuses counts `u_refused`, one of the other
/// way `wrong_way`, and neither changes anything else; each section of another one has one verdict. A listener hears all of it.
pub fn take_message_told<L: Listener>(
    cells: &mut UnitCells,
    counters: &mut Counters,
    listener: &mut L,
    ep: usize,
    endpoint: &EndpointConfig,
    lease: &Lease<'_>,
)
    requires endpoint { IsAt (endpoints_of cells.old) ep endpoint.now }
    requires width { HasWidth endpoint.now.format.method }
    requires first { IsTime (message_of lease.now).first }
    requires last { IsTime (message_of lease.now).last }
    requires order { (message_of lease.now).first ≤ℤ (message_of lease.now).last }
    ensures holds { (side : SpecSide) (c : Config) (n : SpecCounter → ℕ) (acc : List Allocation) (ds : List UserSection)
        → HoldsData side c (message_of lease.now).last n acc ds cells.old counters.old
        → let d = decode side ep endpoint.now (message_of lease.now).first (message_of lease.now).last (message_bytes lease.now) in
        HoldsData side c (message_of lease.now).last (λ k. n k + times (decoded_counted (Some d)) k) acc (sections_of d ++ ds) cells.new counters.new }
    ensures told { (side : SpecSide) (c : Config) (n : SpecCounter → ℕ) (acc : List Allocation) (ds : List UserSection)
        → HoldsData side c (message_of lease.now).last n acc ds cells.old counters.old
        → L.heard listener.old (judged_whole side c.delays ep endpoint.now (message_of lease.now) ds) listener.new }
    ensures rests { decoded_counted (Some (decode cells.old.side ep endpoint.now (message_of lease.now).first (message_of lease.now).last (message_bytes lease.now))) ≢ []
        → cells.new ≡ cells.old }
    ensures reports { (side : SpecSide) (c : Config) → IsOf side c cells.old → SameReported side c (message_of lease.now).last cells.old cells.new }
    ensures side { cells.new.side ≡ cells.old.side }
    ensures delays { cells.new.delays ≡ cells.old.delays }
    ensures endpoints { endpoints_of cells.new ≡ endpoints_of cells.old }
{
    match tested(
        lease,
        endpoint.format,
        endpoint.prbs,
        shape(&endpoint.numerology),
    ) {
        Err(why) => {
            listener.unread(ep, endpoint, lease, why);
            counters.add(Counter::URefused)
        }
        Ok(head) if !has_way(cells.side(), &head) => {
            listener.turned(ep, endpoint, lease);
            counters.add(Counter::WrongWay)
        }
        Ok(head) => take_sections(cells, counters, listener, ep, endpoint, lease, head),
    }
}

/// Treats a U-plane message to an endpoint, the one with index `ep`, that became whole at the clock (O-RAN.WG4.CUS, U-plane
/// messages; the verdicts are this project's profile). A message that the layout refuses counts `u_refused`, one of the other
/// way `wrong_way`, and neither changes anything else; each section of another one has one verdict.
pub fn take_message(
    cells: &mut UnitCells,
    counters: &mut Counters,
    ep: usize,
    endpoint: &EndpointConfig,
    lease: &Lease<'_>,
)
    requires endpoint { IsAt (endpoints_of cells.old) ep endpoint.now }
    requires width { HasWidth endpoint.now.format.method }
    requires first { IsTime (message_of lease.now).first }
    requires last { IsTime (message_of lease.now).last }
    requires order { (message_of lease.now).first ≤ℤ (message_of lease.now).last }
    ensures holds { (side : SpecSide) (c : Config) (n : SpecCounter → ℕ) (acc : List Allocation) (ds : List UserSection)
        → HoldsData side c (message_of lease.now).last n acc ds cells.old counters.old
        → let d = decode side ep endpoint.now (message_of lease.now).first (message_of lease.now).last (message_bytes lease.now) in
        HoldsData side c (message_of lease.now).last (λ k. n k + times (decoded_counted (Some d)) k) acc (sections_of d ++ ds) cells.new counters.new }
    ensures rests { decoded_counted (Some (decode cells.old.side ep endpoint.now (message_of lease.now).first (message_of lease.now).last (message_bytes lease.now))) ≢ []
        → cells.new ≡ cells.old }
    ensures reports { (side : SpecSide) (c : Config) → IsOf side c cells.old → SameReported side c (message_of lease.now).last cells.old cells.new }
    ensures side { cells.new.side ≡ cells.old.side }
    ensures delays { cells.new.delays ≡ cells.old.delays }
    ensures endpoints { endpoints_of cells.new ≡ endpoints_of cells.old }
{
    take_message_told(cells, counters, &mut Deaf {}, ep, endpoint, lease);
}
