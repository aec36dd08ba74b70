// When the first frames of data messages leave.
ghost use Rattle.std.specs.Prelude.{◌≡◌, All, IfOk, map};
ghost use Rattle.std.specs.List.{AllByRecursion};
ghost use Rattle.plan_model.specs.Dense.{IsSending};
ghost use Rattle.du_scheduler.specs.PlanWalks.{sending_from};
ghost use Rattle.du_scheduler.specs.Parts.{IsTimed};
ghost use Rattle.du_scheduler.specs.Ranges.{IsLimits, IsOpenMessage};
ghost use Rattle.du_scheduler.specs.Walks.{complete};

use crate::complete::CompleteMessages;
use crate::limits::Limits;
use crate::open_messages::OpenMessage;
use crate::parts::TimedPart;
use fh_base::NoMemory;
use plan_model::Sending;
use std::alloc::Global;

/// When a message's first frame leaves, and its line.
fn sending_from(limits: &Limits, m: &OpenMessage) -> Sending
    requires limits { IsLimits limits.now }
    requires message { IsOpenMessage limits.now m.now }
    ensures value { result ≡ sending_from limits.now m.now }
    ensures small { IsSending result }
{
    Sending {
        at: limits.departures.at(m.first.start, m.wait),
        line: m.first.line,
    }
}

/// When the first frames of the messages of some parts leave, with their lines.
pub(crate) fn sendings(
    alloc: Global,
    limits: &Limits,
    parts: &[TimedPart],
) -> Result<Vec<Sending>, NoMemory>
    requires limits { IsLimits limits.now }
    requires parts { AllByRecursion IsTimed parts.now }
    ensures value { IfOk result (λ v. v.items ≡ map (sending_from limits.now) (complete limits.now parts.now)) }
    ensures small { IfOk result (λ v. All IsSending v.items) }
{
    let mut sent = Vec::new(alloc);
    for message in CompleteMessages::of(limits, parts) {
        sent.push(sending_from(limits, &message))?;
    }
    Ok(sent)
}
