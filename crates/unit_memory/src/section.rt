// One section of a message: its verdict, and its blocks, which the walk tells after its header.
ghost use Rattle.std.specs.Prelude.{◌≡◌, ℕ, ◌<◌, List, [], ◌∷◌};
ghost use Rattle.air_source.specs.declared.events.Side.{Side as SpecSide};
ghost use Rattle.window_config.specs.declared.config.Config.{Config};
ghost use Rattle.uplane_messages.specs.Left.{left_of};
ghost use Rattle.unit_model.specs.Blocks.{data_prb_count};
ghost use Rattle.unit_cells.specs.Cells.{IsOf, endpoints_of};
ghost use Rattle.unit_model.specs.Headings.{IsProperHeading, data_under};
ghost use Rattle.unit_cells.specs.Keeping.{SameReported};
ghost use Rattle.bfp_codec.specs.declared.samples.Wide.{Wide};
ghost use Rattle.fault_counters.specs.declared.kinds.Counter.{Counter as SpecCounter};
ghost use Rattle.unit_model.specs.Blocks.{data_verdict, timely};
ghost use Rattle.unit_model.specs.declared.allocations.Allocation.{Allocation};
ghost use Rattle.unit_model.specs.declared.decoded.UserSection.{UserSection};
ghost use Rattle.unit_memory.specs.Holding.{HoldsData};
ghost use Rattle.unit_model.specs.Judgements.{Given};
ghost use Rattle.unit_memory.specs.Sections.{AreBehind, Came, Filled, FillsSome, AreSectionsBehind};

use fault_counters::Counters;
use unit_cells::UnitCells;
use unit_model::{DataHeading, Listener, data_counter};
use uplane_messages::DataWalk;

/// Gives the cell of PRB number `k` of a section its block, which is next and which the pieces cut.
fn fill_one(cells: &mut UnitCells, heading: &DataHeading, k: u16, walk: &mut DataWalk<'_>)
    requires heading { IsProperHeading cells.old.side (endpoints_of cells.old) heading.now }
    requires within { k < data_prb_count (data_under heading.now []) }
    requires behind { AreSectionsBehind heading.now k (left_of walk.old) }
    ensures filled { FillsSome heading.now k 1 (left_of walk.old) (left_of walk.new) cells.old cells.new }
    ensures reports { (side : SpecSide) (c : Config) → IsOf side c cells.old → SameReported side c heading.now.last.0 cells.old cells.new }
    ensures side { cells.new.side ≡ cells.old.side }
    ensures delays { cells.new.delays ≡ cells.old.delays }
    ensures endpoints { endpoints_of cells.new ≡ endpoints_of cells.old }
{
    match walk.join() {
        Some(prb) => cells.fill_run(heading, k, prb.method, 1, walk.joined(prb.method)),
        None => unreachable!(),
    }
}

/// Gives the cells of a section, from its PRB number `k` on, the blocks that are next, and says how many they are: those of a run of
/// packed PRBs, or that of a PRB which the pieces cut.
fn fill_next(cells: &mut UnitCells, heading: &DataHeading, k: u16, walk: &mut DataWalk<'_>) -> u16
    requires heading { IsProperHeading cells.old.side (endpoints_of cells.old) heading.now }
    requires within { k < data_prb_count (data_under heading.now []) }
    requires behind { AreSectionsBehind heading.now k (left_of walk.old) }
    ensures filled { FillsSome heading.now k result (left_of walk.old) (left_of walk.new) cells.old cells.new }
    ensures reports { (side : SpecSide) (c : Config) → IsOf side c cells.old → SameReported side c heading.now.last.0 cells.old cells.new }
    ensures side { cells.new.side ≡ cells.old.side }
    ensures delays { cells.new.delays ≡ cells.old.delays }
    ensures endpoints { endpoints_of cells.new ≡ endpoints_of cells.old }
{
    let run = walk.run();
    if run.count == 0 {
        fill_one(cells, heading, k, walk);
        return 1;
    }
    cells.fill_run(heading, k, run.method, run.count, run.packed);
    run.count
}

/// Gives the cells of a section its blocks, which the walk tells next.
fn fill_section(cells: &mut UnitCells, heading: &DataHeading, walk: &mut DataWalk<'_>)
    requires heading { IsProperHeading cells.old.side (endpoints_of cells.old) heading.now }
    requires behind { AreBehind heading.now (left_of walk.old) }
    ensures filled { Filled heading.now (left_of walk.old) (left_of walk.new) cells.old cells.new }
    ensures reports { (side : SpecSide) (c : Config) → IsOf side c cells.old → SameReported side c heading.now.last.0 cells.old cells.new }
    ensures side { cells.new.side ≡ cells.old.side }
    ensures delays { cells.new.delays ≡ cells.old.delays }
    ensures endpoints { endpoints_of cells.new ≡ endpoints_of cells.old }
{
    let count = heading.prbs().count;
    let mut k = 0;
    while k < count {
        k += fill_next(cells, heading, k, walk);
    }
}

/// Treats a section: its verdict is told and counted, and its cells get its blocks, which the walk tells next.
pub(crate) fn take_section<L: Listener>(
    cells: &mut UnitCells,
    counters: &mut Counters,
    listener: &mut L,
    heading: &DataHeading,
    walk: &mut DataWalk<'_>,
)
    requires heading { IsProperHeading cells.old.side (endpoints_of cells.old) heading.now }
    requires behind { AreBehind heading.now (left_of walk.old) }
    ensures told { (side : SpecSide) (c : Config) (n : SpecCounter → ℕ) (acc : List Allocation) (ds : List UserSection) (blocks : List (List Wide))
        → HoldsData side c heading.now.last.0 n acc ds cells.old counters.old
        → L.heard listener.old (Given heading.now (data_verdict side c.delays (timely side c.delays ds) (data_under heading.now blocks)) ∷ []) listener.new }
    ensures taken { Came heading.now (left_of walk.old) (left_of walk.new) cells.old cells.new counters.old counters.new }
    ensures reports { (side : SpecSide) (c : Config) → IsOf side c cells.old → SameReported side c heading.now.last.0 cells.old cells.new }
    ensures side { cells.new.side ≡ cells.old.side }
    ensures delays { cells.new.delays ≡ cells.old.delays }
    ensures endpoints { endpoints_of cells.new ≡ endpoints_of cells.old }
{
    let verdict = cells.begin(heading);
    listener.section(heading, verdict);
    counters.add(data_counter(verdict));
    fill_section(cells, heading, walk);
}
