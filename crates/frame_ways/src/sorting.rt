// The frames of a list, by time.
ghost use Rattle.std.specs.Prelude.{◌≡◌, ℤ, IfOk, OnOk, IsPermutation};
ghost use Rattle.frame_ways.specs.Queues.{AreRising, at_time, enumerated};

use crate::landings::Landing;
use fh_base::{NoMemory, Ticks};
use std::alloc::Global;

/// The frames of a list, with their places in it.
pub(crate) fn listed(alloc: Global, times: &[Ticks]) -> Result<Vec<Landing>, NoMemory>
    ensures { IfOk result (λ v. v.items ≡ enumerated times.now) }
{
    let mut landings = Vec::with_capacity(alloc, times.len())?;
    for index in 0..times.len() {
        let at = times[index];
        landings.push(Landing { at, index })?;
    }
    Ok(landings)
}

/// Sorts landings by time; those of one time keep their order.
pub(crate) fn sort_by_time(landings: &mut Vec<Landing>) -> Result<(), NoMemory>
    ensures elements { IsPermutation landings.old.items landings.new.items }
    ensures rising { OnOk result (AreRising landings.new.items) }
    ensures at_time { (t : ℤ) → at_time t landings.new.items ≡ at_time t landings.old.items }
{
    landings.sort_by_key(|l| l.at.0)?;
    Ok(())
}
