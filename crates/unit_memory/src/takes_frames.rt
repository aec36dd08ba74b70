// The units at which frames land.
ghost use Rattle.std.specs.Prelude.{◌≡◌, ◌-◌, ◌^◌, ℤ, List, ◌∷◌, All, length, min};
ghost use Rattle.air_source.specs.declared.events.Side.{Side};
ghost use Rattle.ecpri_frames.specs.Gathering.{whole_messages};
ghost use Rattle.ecpri_frames.specs.Messages.{pdu};
ghost use Rattle.window_config.specs.Configs.{IsConfig};
ghost use Rattle.window_config.specs.declared.config.Config.{Config};
ghost use Rattle.unit_model.specs.Judgements.{judgements};
ghost use Rattle.unit_model.specs.Proper.{IsTime};
ghost use Rattle.unit_model.specs.Standing.{AreInTime, History, arrived, at_clock};
ghost use Rattle.unit_memory.specs.Control.{has_control, has_delay};
ghost use Rattle.unit_memory.specs.Memory.{arrival_at};
ghost use Rattle.unit_model.specs.declared.allocations.Allocation.{Allocation};

use crate::memory::Arrived;
use fh_base::Ticks;
use unit_model::Listener;

/// A unit that takes frames, one after the other.
pub trait TakesFrames {
    /// Which unit it is.
    ghost side: { Side };

    /// The unit stands for a history of a configuration, where these uplink allocations are planned, and may take a frame at a time,
    /// in ticks.
    ghost may_take: { Self → Config → List Allocation → ℤ → History → Type 0 };

    /// Takes a frame that arrives at a time, in ticks. Tells whether one of its whole messages is of one-way delay measurement.
    fn take(&mut self, at: Ticks, frame: &[u8]) -> bool
        requires { (c : Config) × (planned : List Allocation) × (h : History) × may_take self.old c planned at.0 h }
        ensures took { (c : Config) (planned : List Allocation) (h : History) → may_take self.old c planned at.0 h → may_take self.new c planned at.0 (arrived (at_clock h at.0) frame.now) }
        ensures delay { result ≡ has_delay frame.now };

    /// Takes a frame as [`take`](TakesFrames::take) does. A listener hears what the unit judges of it.
    fn take_told<L: Listener>(&mut self, listener: &mut L, at: Ticks, frame: &[u8]) -> Arrived
        requires { (c : Config) × (planned : List Allocation) × (h : History) × may_take self.old c planned at.0 h }
        ensures took { (c : Config) (planned : List Allocation) (h : History) → may_take self.old c planned at.0 h → may_take self.new c planned at.0 (arrived (at_clock h at.0) frame.now) }
        ensures told { (c : Config) (planned : List Allocation) (h : History) → may_take self.old c planned at.0 h
            → L.heard listener.old (judgements side c h.arrivals (arrival_at at.0 frame.now)) listener.new }
        ensures times { (c : Config) (planned : List Allocation) (h : History) → may_take self.old c planned at.0 h
            → IsConfig c × AreInTime at.0 (arrival_at at.0 frame.now ∷ h.arrivals) × All (λ a. IsTime a.at) (arrival_at at.0 frame.now ∷ h.arrivals) }
        ensures messages { result.delivered.messages ≡ min (length (whole_messages frame.now)) (2 ^ 32 - 1) }
        ensures refusal { result.delivered.refusal ≡ (pdu frame.now).refusal }
        ensures control { result.control ≡ has_control frame.now }
        ensures delay { result.delay ≡ has_delay frame.now };
}
