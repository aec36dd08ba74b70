// A caller of delay_measure.
ghost use Rattle.std.specs.Prelude.{◌≡◌, ◌^◌, ◌≤◌, ◌≤ℤ◌, IfSome, IsSome, length, pos};
ghost use Rattle.delay_measure.specs.declared.stamps.Stamp.{Stamp as SpecStamp};
ghost use Rattle.delay_measure.specs.declared.states.OwnState.TheVariants.{Waiting};
ghost use Rattle.delay_measure.specs.Kept.{IsKept, comp_of, exchange_of};
ghost use Rattle.delay_measure.specs.Payload.{action_type, compensation_value, measurement_id, message_of, value_of};
ghost use Rattle.delay_measure.specs.Stamps.{delay_between};

use delay_measure::{Edge, Meter, MeterStep, read_delay};
use fh_base::Ticks;

/// The action type of a Response.
const RESPONSE: u8 = 2;

/// The delay to the peer, in units of 2^-16 ns, where this payload is the Response to a Request that was sent, and only
/// there: that from the stamp of the Request to the stamp of the Response.
pub fn delay<C: Fn(Edge) -> i64>(meter: &mut Meter<C>, at: Ticks, payload: &[u8]) -> Option<i128>
    requires kept { IsKept C.pre C.post meter.old }
    requires low { pos 0 ≤ℤ at.0 }
    requires high { at.0 ≤ℤ pos (2 ^ 56) }
    ensures delay { IfSome result (λ delay. (sent : SpecStamp) × ((exchange_of meter.old (measurement_id payload.now)).own ≡ Waiting sent)
        × (delay ≡ delay_between sent.nanoseconds sent.comp (value_of (message_of payload.now)) (compensation_value payload.now))) }
    ensures some { (sent : SpecStamp) → 20 ≤ length payload.now → action_type payload.now ≡ 2
        → (exchange_of meter.old (measurement_id payload.now)).own ≡ Waiting sent → IsSome result }
    ensures same { comp_of meter.new ≡ comp_of meter.old }
{
    let message = read_delay(payload)?;
    if message.action != RESPONSE {
        return None;
    }
    match meter.on_message(at, &message) {
        MeterStep::Result(delay) => Some(delay),
        _ => None,
    }
}
