// Cells of several units, added.
ghost use Rattle.std.specs.Prelude.{◌+◌, ◌<◌, OnOk};
ghost use Rattle.shared_cell.specs.Combined.{Stands};
ghost use Rattle.bench_units.specs.Cells.{units_of};

use crate::cells::numbered::cell;
use fh_base::NoMemory;
use shared_cell::Mixer;
use std::alloc::Global;

/// Adds the cells of one unit more.
fn add_unit(mixer: &mut Mixer, count: u32, unit: u8) -> Result<(), NoMemory>
    requires units { unit < 7 }
    requires stands { Stands mixer.old (units_of unit count) }
    ensures { OnOk result (Stands mixer.new (units_of (unit + 1) count)) }
{
    for k in 0..count {
        mixer.add(&cell(k))?;
    }
    Ok(())
}

/// Adds the cells of some units, one after the other.
fn add_units(mixer: &mut Mixer, count: u32, units: u8) -> Result<(), NoMemory>
    requires units { units < 8 }
    requires stands { Stands mixer.old (units_of 0 count) }
{
    for unit in 0..units {
        add_unit(mixer, count, unit)?;
    }
    Ok(())
}

/// The sum of all combined cells at element 0, by way of the last place; None where memory ran out or there are 8 units and more.
pub fn run(alloc: Global, count: u32, units: u8) -> Option<i64> {
    if units >= 8 {
        return None;
    }
    let mut mixer = Mixer::make(alloc);
    add_units(&mut mixer, count, units).ok()?;
    let last = mixer.mixed(count.saturating_sub(1) as usize)?;
    Some(last.sums[0].i)
}
