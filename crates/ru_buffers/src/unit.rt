// The radio unit.
ghost use Rattle.std.specs.Prelude.{◌≡◌, ◌-◌, ◌^◌, List, IfOk, length, min, true, false};
ghost use Rattle.ecpri_frames.specs.Gathering.{whole_messages};
ghost use Rattle.ecpri_frames.specs.Messages.{pdu};
ghost use Rattle.window_config.specs.Configs.{IsConfig};
ghost use Rattle.window_config.specs.declared.config.Config.{Config as SpecConfig};
ghost use Rattle.unit_model.specs.Standing.{History, arrived, nothing_yet};

use crate::finding::{find_message, find_symbol};
use air_source::Side;
use fault_counters::Counters;
use fh_base::{FIRST_CLOCK, NoMemory, Ticks};
use std::alloc::Global;
use unit_memory::{Arrived, TakesFrames, UnitMemory};
use unit_model::{Deaf, Delivered, Listener, SymbolStart};
use unit_symbols::{JobCursor, NextJob};
use window_config::Config;

/// The radio unit of an open fronthaul, in memory that is taken when it is made.
///
/// Its contracts say of each history that it stands for, which one it stands for after a call. Of slots that are live at its clock it
/// answers as the definitions do over all that was ever received; what it keeps of other slots is never asked for again. The next
/// symbol and the next message are kept: they are looked for after a report, after a message was given, and after a frame with a command.
#[derive(Drop)]
pub struct Ru {
    pub(crate) memory: UnitMemory,
    pub(crate) clock: Ticks,
    pub(crate) cursor: JobCursor,
    /// The first symbol that starts after the clock and of which something is left to be reported.
    pub(crate) symbol: Option<SymbolStart>,
    /// The first message that was not given.
    pub(crate) message: Option<NextJob>,
}

impl Ru {
    ghost use Rattle.ru_buffers.specs.Calls.{HasGivenPast, IsNextMessage, IsNextSymbol, StandsFor, StandsForSome, radio_clock};
    ghost use Rattle.unit_memory.specs.Control.{has_control, has_delay};
    ghost use Rattle.unit_memory.specs.Memory.{arrival_at};
    ghost use Rattle.unit_model.specs.Judgements.{judgements};
    ghost use Rattle.unit_model.specs.Counts.{StandAt, cells_counted};
    ghost use Rattle.unit_model.specs.Reports.{arrivals_counted};
    ghost use Rattle.std.specs.Prelude.{All, ◌∷◌, ◌++◌};
    ghost use Rattle.unit_model.specs.Proper.{IsTime};
    ghost use Rattle.unit_model.specs.Standing.{AreInTime};
    ghost use Rattle.air_source.specs.declared.events.Side.TheVariants.{Ru as AtRu};

    /// Takes all memory of the unit. Its clock is one frame before 0.
    ///
    /// # Errors
    ///
    /// [`NoMemory`] where memory runs out.
    pub fn make(alloc: Global, config: &Config) -> Result<Ru, NoMemory>
        requires { IsConfig config.now }
        ensures stands { IfOk result (λ u. StandsFor config.now u nothing_yet) }
        ensures given { IfOk result (λ u. HasGivenPast u) }
    {
        let memory = UnitMemory::make(alloc, Side::Ru, config)?;
        let cursor = JobCursor::start(FIRST_CLOCK);
        let symbol = find_symbol(&memory.cells, FIRST_CLOCK);
        let message = find_message(&memory.cells, &cursor);
        Ok(Ru {
            memory,
            clock: FIRST_CLOCK,
            cursor,
            symbol,
            message,
        })
    }

    /// The unit's clock, in ticks.
    pub fn clock(&self) -> Ticks
        ensures { (c : SpecConfig) (h : History) → StandsFor c self.now h → result.0 ≡ h.clock }
    {
        self.clock
    }

    /// What the unit counted.
    pub fn counters(&self) -> &Counters
        ensures { (c : SpecConfig) (h : History) → StandsFor c self.now h → StandAt result.now (arrivals_counted AtRu c h.arrivals ++ cells_counted h.reported) }
    {
        &self.memory.counters
    }

    /// Treats a frame as arrived at the clock (eCPRI 2.0, and O-RAN.WG4.CUS for the messages; what the unit makes of them is this
    /// project's profile). No memory is asked for.
    pub fn deliver(&mut self, frame: &[u8]) -> Delivered
        requires unit { StandsForSome self.old }
        requires given { HasGivenPast self.old }
        ensures stands { (c : SpecConfig) (h : History) → StandsFor c self.old h → StandsFor c self.new (arrived h frame.now) }
        ensures given { HasGivenPast self.new }
        ensures clock { radio_clock self.new ≡ radio_clock self.old }
        ensures messages { result.messages ≡ min (length (whole_messages frame.now)) (2 ^ 32 - 1) }
        ensures refusal { result.refusal ≡ (pdu frame.now).refusal }
    {
        self.arrive(&mut Deaf {}, frame).delivered
    }

    /// The same, with what else the unit's memory answers of the frame. A listener hears what is judged.
    fn arrive<L: Listener>(&mut self, listener: &mut L, frame: &[u8]) -> Arrived
        requires unit { StandsForSome self.old }
        requires given { HasGivenPast self.old }
        ensures stands { (c : SpecConfig) (h : History) → StandsFor c self.old h → StandsFor c self.new (arrived h frame.now) }
        ensures told { (c : SpecConfig) (h : History) → StandsFor c self.old h
            → L.heard listener.old (judgements AtRu c h.arrivals (arrival_at (radio_clock self.old).0 frame.now)) listener.new }
        ensures times { (c : SpecConfig) (h : History) → StandsFor c self.old h
            → IsConfig c × AreInTime (radio_clock self.old).0 (arrival_at (radio_clock self.old).0 frame.now ∷ h.arrivals)
            × All (λ a. IsTime a.at) (arrival_at (radio_clock self.old).0 frame.now ∷ h.arrivals) }
        ensures given { HasGivenPast self.new }
        ensures clock { radio_clock self.new ≡ radio_clock self.old }
        ensures messages { result.delivered.messages ≡ min (length (whole_messages frame.now)) (2 ^ 32 - 1) }
        ensures refusal { result.delivered.refusal ≡ (pdu frame.now).refusal }
        ensures control { result.control ≡ has_control frame.now }
        ensures delay { result.delay ≡ has_delay frame.now }
    {
        self.cursor = self.cursor.settled(self.clock);
        let arrival = self.memory.arrive_told(listener, self.clock, frame);
        self.look(arrival.control);
        arrival
    }

    /// Looks anew for the next symbol and the next message, where a frame had a command; else those that are kept are the next.
    fn look(&mut self, anew: bool)
        ensures symbol { anew ≡ true → IsNextSymbol self.old.memory.cells self.old.clock.0 self.new.symbol }
        ensures message { anew ≡ true → IsNextMessage self.old.memory.cells self.old.cursor self.new.message }
        ensures same_symbol { anew ≡ false → self.new.symbol ≡ self.old.symbol }
        ensures same_message { anew ≡ false → self.new.message ≡ self.old.message }
        ensures memory { self.new.memory ≡ self.old.memory }
        ensures clock { self.new.clock ≡ self.old.clock }
        ensures cursor { self.new.cursor ≡ self.old.cursor }
    {
        if anew {
            self.symbol = find_symbol(&self.memory.cells, self.clock);
            self.message = find_message(&self.memory.cells, &self.cursor);
        }
    }
}

impl TakesFrames for Ru {
    ghost use Rattle.ru_buffers.specs.Calls.{RadioMayTake};
    ghost use Rattle.air_source.specs.declared.events.Side.TheVariants.{Ru as AtRu};

    ghost side = { AtRu };

    ghost may_take = { λ u c planned at h. RadioMayTake u c planned at h };

    fn take(&mut self, _at: Ticks, frame: &[u8]) -> bool {
        self.arrive(&mut Deaf {}, frame).delay
    }

    fn take_told<L: Listener>(&mut self, listener: &mut L, _at: Ticks, frame: &[u8]) -> Arrived {
        self.arrive(listener, frame)
    }
}
