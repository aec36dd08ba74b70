// A caller that tests the condition of `add`, which shows that callers close.
ghost use Rattle.std.specs.Prelude.{◌≡◌, IsTrue, IfSome, All, count_by};
ghost use Rattle.shared_cell.specs.Places.{place_of, is_at};
ghost use Rattle.shared_cell.specs.Combined.{AgreeIn, Follows, Stands};

use air_source::{AirCell, Side};
use shared_cell::Mixer;
use std::alloc::Global;

// The cells have the same place.
fn is_at(c: &AirCell, d: &AirCell) -> bool
    ensures { result ≡ is_at (place_of c.now) d.now }
{
    c.slot.frame == d.slot.frame
        && c.slot.subframe == d.slot.subframe
        && c.slot.slot == d.slot.slot
        && c.symbol == d.symbol
        && c.id == d.id
        && c.prb == d.prb
}

// The cells have the same time, section and mask, where they have the same place.
fn agree(c: &AirCell, d: &AirCell) -> bool
    ensures { IsTrue result → IsTrue (is_at (place_of c.now) d.now) → AgreeIn c.now d.now }
{
    !is_at(c, d) || (c.at == d.at && c.section == d.section && c.mask == d.mask)
}

// How many of the cells have the cell's place.
fn count_at(cells: &[AirCell], c: &AirCell) -> usize
    ensures { result ≡ count_by (is_at (place_of c.now)) cells.now }
{
    cells.iter().filter(|d| is_at(c, d)).count()
}

// Those of the cell's place agree with it.
fn all_agree(cells: &[AirCell], c: &AirCell) -> bool
    ensures { IsTrue result → All (λ d. IsTrue (is_at (place_of c.now) d) → AgreeIn c.now d) cells.now }
{
    for d in cells {
        if !agree(c, d) {
            return false;
        }
    }
    true
}

// The cell may be added after these.
fn follows(cells: &[AirCell], c: &AirCell) -> bool
    ensures { IsTrue result → Follows cells.now c.now }
{
    c.side == Side::Du && count_at(cells, c) < 8 && all_agree(cells, c)
}

/// A mixer of these cells. None where they break the condition, or memory was refused.
pub(crate) fn mix(alloc: Global, cells: &[AirCell]) -> Option<Mixer>
    ensures { IfSome result (λ m. Stands m cells.now) }
{
    let mut mixer = Mixer::make(alloc);
    for k in 0..cells.len() {
        if !follows(&cells[..k], &cells[k]) || mixer.add(&cells[k]).is_err() {
            return None;
        }
    }
    Some(mixer)
}
