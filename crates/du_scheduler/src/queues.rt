//! The queue of all messages.
ghost use Rattle.std.specs.Prelude.{◌≡◌, All, IfOk, List};
ghost use Rattle.du_scheduler.specs.Queues.{IsQueue, StandsFor, gap_of};
ghost use Rattle.du_scheduler.specs.Turns.{IsRun};
ghost use Rattle.du_scheduler.specs.declared.turns.Turn.{Turn as SpecTurn};
ghost use Rattle.du_scheduler.specs.Runs.{IsOrderOf, rests_of};

use crate::queue::Queue;
use crate::turns::Run;
use fh_base::NoMemory;
use std::alloc::Global;

/// A queue of these messages, whose frames leave `gap` ticks apart; it has room for all of them.
///
/// It stands for every list in order that has each frame as often as the messages have it.
pub fn queue_of(alloc: Global, gap: u32, runs: &[Run]) -> Result<Queue, NoMemory>
    requires runs { All IsRun runs.now }
    ensures queue { IfOk result (λ q. IsQueue q) }
    ensures gap { IfOk result (λ q. gap_of q ≡ gap) }
    ensures stands { IfOk result (λ q. (l : List SpecTurn) → IsOrderOf (rests_of gap runs.now) l → StandsFor q l) }
{
    let mut queue = Queue::make(alloc, gap, runs.len())?;
    for run in runs {
        queue.add(*run);
    }
    Ok(queue)
}
