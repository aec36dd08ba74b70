// Code over any air and any samples, which shows that callers close.
ghost use Rattle.std.specs.Prelude.{◌≡◌, ◌<◌, OnOk, IfErr, map};
ghost use Rattle.std.specs.List.{All};
ghost use Rattle.air_source.specs.Causes.{HasAirCause};
ghost use Rattle.air_source.specs.Stops.{StopsIn};
ghost use Rattle.air_source.specs.Answers.{AnswersBy, widened};
ghost use Rattle.air_source.specs.Kept.{IsKept, closure_of};
ghost use Rattle.air_source.specs.Tellings.{cell_by};
ghost use Rattle.air_source.specs.declared.places.RePlace.{RePlace};
ghost use Rattle.bfp_codec.specs.declared.samples.Wide.{Wide};
ghost use Rattle.air_source.specs.declared.events.Event.TheVariants.{Cell};

use air_source::{Air, AirCell, AirFault, RePlace, Samples, Side};
use bfp_codec::{Iq, Wide};
use fh_base::{Slot, Ticks};

/// Tells the air each cell, in order.
pub(crate) fn tell_cells<A: Air>(cells: &[AirCell], air: &mut A) -> Result<(), AirFault>
    ensures heard { OnOk result (A.grew air.old (map Cell cells.now) air.new) }
    ensures stop { IfErr result (λ f. StopsIn A.grew (A.stopped f) (map Cell cells.now) air.old air.new) }
    ensures same { A.same air.old air.new }
    ensures cause { HasAirCause (A.faults air.old) (A.faults air.new) result }
{
    for cell in cells {
        air.cell(cell)?;
    }
    Ok(())
}

/// The block as wide samples.
fn wide_block(block: &[Iq; 12]) -> [Wide; 12]
    ensures { result ≡ map widened block.now }
{
    let mut wide = [Wide { i: 0, q: 0 }; 12];
    for re in 0..12 {
        wide[re] = Wide {
            i: block[re].i as i32,
            q: block[re].q as i32,
        };
    }
    wide
}

/// Tells the air a cell at each of these PRBs, with the samples of the source there.
pub(crate) fn tell_samples<A: Air, F: Fn(RePlace) -> Wide>(
    source: &Samples<F>,
    slot: Slot,
    prbs: &[u16],
    air: &mut A,
) -> Result<(), AirFault>
    requires kept { IsKept F.pre F.post source.now }
    requires prbs { All (λ prb. prb < 273) prbs.now }
    ensures heard { (answer : RePlace → Wide) → AnswersBy (F.post (closure_of source.now)) answer → OnOk result (A.grew air.old (map (cell_by answer slot) prbs.now) air.new) }
    ensures stop { (answer : RePlace → Wide) → AnswersBy (F.post (closure_of source.now)) answer → IfErr result (λ f. StopsIn A.grew (A.stopped f) (map (cell_by answer slot) prbs.now) air.old air.new) }
    ensures same { A.same air.old air.new }
    ensures cause { HasAirCause (A.faults air.old) (A.faults air.new) result }
{
    for prb in prbs {
        let block = source.block(0, slot, 0, *prb);
        air.cell(&AirCell {
            side: Side::Ru,
            at: Ticks(0),
            id: 0,
            slot,
            symbol: 0,
            prb: *prb,
            section: 1,
            mask: 0xfff,
            block: Some(wide_block(&block)),
        })?;
    }
    Ok(())
}
