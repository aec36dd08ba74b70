// What a unit keeps of the frames that were received.
ghost use Rattle.std.specs.Prelude.{◌≡◌, ℤ, ◌-◌, ◌^◌, ◌≤ℤ◌, pos, List, [], ◌∷◌, IfOk, length, min, false};
ghost use Rattle.std.specs.List.{list_any};
ghost use Rattle.air_source.specs.declared.events.Side.{Side as SpecSide};
ghost use Rattle.ecpri_frames.specs.Gathering.{whole_messages};
ghost use Rattle.ecpri_frames.specs.Left.{frame_of, left_of};
ghost use Rattle.ecpri_frames.specs.Messages.{is_delay, pdu};
ghost use Rattle.fault_counters.specs.declared.kinds.Counter.{Counter};
ghost use Rattle.unit_cells.specs.Cells.{IsOf, cells_reported};
ghost use Rattle.unit_cells.specs.Keeping.{SameReported};
ghost use Rattle.fh_base.specs.Lists.{onto};
ghost use Rattle.unit_model.specs.Meetings.{Arrival, Meeting, met_in};
ghost use Rattle.unit_model.specs.Proper.{IsTime};
ghost use Rattle.unit_model.specs.Reports.{hold_of};
ghost use Rattle.unit_model.specs.declared.cells.Cell.{Cell};
ghost use Rattle.window_config.specs.Configs.{IsConfig};
ghost use Rattle.window_config.specs.declared.config.Config.{Config as SpecConfig};

use air_source::Side;
use ecpri_fragments::Assembly;
use ecpri_frames::{Messages, ONE_WAY_DELAY, REAL_TIME_CONTROL, messages};
use fault_counters::Counters;
use fh_base::{NoMemory, Ticks, of_ns};
use std::alloc::Global;
use unit_cells::UnitCells;
use unit_model::{Deaf, Delivered, Listener};
use window_config::{Config, EndpointConfig};

/// What became of a frame that arrived.
#[derive(Clone, Copy, Debug, PartialEq, Eq)]
pub struct Arrived {
    /// Its messages and its refusal.
    pub delivered: Delivered,
    /// Whether one of its whole messages has real-time control data: without them no section of a command is accepted.
    pub control: bool,
    /// Whether one of its whole messages is of one-way delay measurement: without them a meter has nothing to hear.
    pub delay: bool,
}

/// How long a generation of fragments holds at this side.
fn hold(side: Side, config: &Config) -> Ticks
    requires { IsConfig config.now }
    ensures value { result.0 ≡ hold_of side config.now.delays }
    ensures low { pos 0 ≤ℤ result.0 }
    ensures high { result.0 ≤ℤ pos (2 ^ 56) }
{
    match side {
        Side::Ru => of_ns(config.delays.hold_dl),
        Side::Du => of_ns(config.delays.hold_ul),
    }
}

/// All memory of a unit: what it keeps of the frames that were received. It is taken when it is made; no other call asks for any.
#[derive(Drop)]
pub struct UnitMemory {
    /// The endpoints in the configuration's order.
    pub endpoints: Vec<EndpointConfig>,
    /// What is claimed of the cells, and the blocks that were received for them.
    pub cells: UnitCells,
    /// The fragments of U-plane messages.
    pub assembly: Assembly,
    /// What was counted.
    pub counters: Counters,
}

impl UnitMemory {
    ghost use Rattle.unit_memory.specs.Control.{has_control, has_delay, is_control};
    ghost use Rattle.unit_model.specs.Judgements.{judged_in, judgements};
    ghost use Rattle.unit_memory.specs.Memory.{Holds, HoldsSome, arrival_at};
    ghost use Rattle.unit_memory.specs.Parts.{LeavesReported, MemoryStands, MemoryStandsForSome};

    /// Takes all memory for a unit and a configuration. Nothing was received.
    pub fn make(alloc: Global, side: Side, config: &Config) -> Result<UnitMemory, NoMemory>
        requires { IsConfig config.now }
        ensures holds { IfOk result (λ m. (clock : ℤ) → Holds side config.now clock m [] []) }
        ensures unreported { IfOk result (λ m. (cell : Cell) → cells_reported m.cells cell ≡ false) }
    {
        let endpoints = Vec::from_slice(alloc, config.endpoints.as_slice())?;
        let cells = UnitCells::make(alloc, side, config)?;
        let assembly = Assembly::make(alloc, endpoints.len(), hold(side, config))?;
        Ok(UnitMemory {
            endpoints,
            cells,
            assembly,
            counters: Counters::new(),
        })
    }

    /// Treats the whole messages that are left of a frame, in their order. Tells how many they are, or the greatest `u32` where they
    /// are more, and whether one of them has real-time control data, and whether one is of delay measurement.
    fn take_messages<L: Listener>(
        &mut self,
        listener: &mut L,
        at: Ticks,
        left: &mut Messages<'_>,
    ) -> (u32, bool, bool)
        requires unit { MemoryStandsForSome at.0 self.old }
        requires time { IsTime at.0 }
        ensures holds { (side : SpecSide) (c : SpecConfig) (arrivals : List Arrival) (ms : List Meeting) (beside : List Counter)
            → MemoryStands side c at.0 self.old arrivals ms beside
            → MemoryStands side c at.0 self.new arrivals (onto ms (met_in side c.endpoints at.0 (left_of left.old))) beside }
        ensures told { (side : SpecSide) (c : SpecConfig) (arrivals : List Arrival) (ms : List Meeting) (beside : List Counter)
            → MemoryStands side c at.0 self.old arrivals ms beside
            → L.heard listener.old (judged_in side c at.0 ms (left_of left.old)) listener.new }
        ensures reports { LeavesReported at.0 self.old.cells self.new.cells }
        ensures count { result.0 ≡ min (length (left_of left.old)) (2 ^ 32 - 1) }
        ensures control { result.1 ≡ list_any is_control (left_of left.old) }
        ensures delay { result.2 ≡ list_any is_delay (left_of left.old) }
        ensures frame { frame_of left.new ≡ frame_of left.old }
    {
        let mut count = 0u32;
        let mut control = false;
        let mut delay = false;
        while let Some(message) = left.next() {
            self.message(listener, at, &message);
            count = count.saturating_add(1);
            control |= message.head.kind == REAL_TIME_CONTROL;
            delay |= message.head.kind == ONE_WAY_DELAY;
        }
        (count, control, delay)
    }

    /// Treats a frame that arrives at a time, in ticks (eCPRI 2.0; O-RAN.WG4.CUS for the messages; what a unit makes of them is this
    /// project's profile). The frame is gone over once: its complete messages are treated in their order; the frame and its refusal, if
    /// it has one, which is at the end of the walk, are counted after them. A listener hears what is judged.
    pub fn arrive_told<L: Listener>(&mut self, listener: &mut L, at: Ticks, frame: &[u8]) -> Arrived
        requires unit { HoldsSome at.0 self.old }
        requires time { IsTime at.0 }
        ensures holds { (side : SpecSide) (c : SpecConfig) (arrivals : List Arrival) (beside : List Counter) → Holds side c at.0 self.old arrivals beside
            → Holds side c at.0 self.new (arrival_at at.0 frame.now ∷ arrivals) beside }
        ensures reports { (side : SpecSide) (c : SpecConfig) → IsOf side c self.old.cells → SameReported side c at.0 self.old.cells self.new.cells }
        ensures told { (side : SpecSide) (c : SpecConfig) (arrivals : List Arrival) (beside : List Counter) → Holds side c at.0 self.old arrivals beside
            → L.heard listener.old (judgements side c arrivals (arrival_at at.0 frame.now)) listener.new }
        ensures messages { result.delivered.messages ≡ min (length (whole_messages frame.now)) (2 ^ 32 - 1) }
        ensures refusal { result.delivered.refusal ≡ (pdu frame.now).refusal }
        ensures control { result.control ≡ has_control frame.now }
        ensures delay { result.delay ≡ has_delay frame.now }
    {
        let mut left = messages(frame);
        let (messages, control, delay) = self.take_messages(listener, at, &mut left);
        let refusal = left.refusal();
        self.count_frame(refusal);
        Arrived {
            delivered: Delivered { messages, refusal },
            control,
            delay,
        }
    }

    /// Treats a frame that arrives at a time, in ticks (eCPRI 2.0; O-RAN.WG4.CUS for the messages; what a unit makes of them is this
    /// project's profile). The frame is gone over once: its complete messages are treated in their order; the frame and its refusal, if
    /// it has one, which is at the end of the walk, are counted after them.
    pub fn arrive(&mut self, at: Ticks, frame: &[u8]) -> Arrived
        requires unit { HoldsSome at.0 self.old }
        requires time { IsTime at.0 }
        ensures holds { (side : SpecSide) (c : SpecConfig) (arrivals : List Arrival) (beside : List Counter) → Holds side c at.0 self.old arrivals beside
            → Holds side c at.0 self.new (arrival_at at.0 frame.now ∷ arrivals) beside }
        ensures reports { (side : SpecSide) (c : SpecConfig) → IsOf side c self.old.cells → SameReported side c at.0 self.old.cells self.new.cells }
        ensures messages { result.delivered.messages ≡ min (length (whole_messages frame.now)) (2 ^ 32 - 1) }
        ensures refusal { result.delivered.refusal ≡ (pdu frame.now).refusal }
        ensures control { result.control ≡ has_control frame.now }
        ensures delay { result.delay ≡ has_delay frame.now }
    {
        self.arrive_told(&mut Deaf {}, at, frame)
    }
}
