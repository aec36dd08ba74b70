// One step of a unit at a clock: something that is counted, a section, a fragment, a message.
ghost use Rattle.std.specs.Prelude.{◌≡◌, ℕ, ℤ, ◌+◌, ◌<◌, ◌∷◌, [], ◌++◌, List};
ghost use Rattle.air_source.specs.declared.events.Side.{Side as SpecSide};
ghost use Rattle.air_source.specs.declared.events.Side.TheVariants.{Ru};
ghost use Rattle.cplane_sections.specs.Message.{sections_in};
ghost use Rattle.ecpri_fragments.specs.Generations.{Fragment};
ghost use Rattle.ecpri_frames.specs.Left.{message_of};
ghost use Rattle.fault_counters.specs.declared.kinds.Counter.{Counter as SpecCounter};
ghost use Rattle.fault_counters.specs.Counts.{once, times};
ghost use Rattle.window_config.specs.declared.config.Config.{Config};
ghost use Rattle.unit_model.specs.Counts.{piece_counted, refusal_counted};
ghost use Rattle.unit_model.specs.Decoding.{data_now, data_told};
ghost use Rattle.fh_base.specs.Lists.{onto};
ghost use Rattle.unit_model.specs.Meetings.{Arrival, Meeting, commands_with, fragment_with, meet as met_by_definition};
ghost use Rattle.unit_model.specs.Met.{IsRead};
ghost use Rattle.unit_model.specs.Proper.{IsAt, IsProperCommand, IsTime};
ghost use Rattle.unit_model.specs.Reports.{hold_of};
ghost use Rattle.unit_model.specs.declared.decoded.ControlSection.{ControlSection as SpecControlSection};
ghost use Rattle.unit_model.specs.declared.decoded.UserSection.{UserSection};
ghost use Rattle.unit_cells.specs.Cells.{endpoints_of};
ghost use Rattle.unit_model.specs.Commands.{accepted, command_verdict};
ghost use Rattle.unit_model.specs.Judgements.{Commanded, judged_commands, judged_message, judged_piece};

use crate::UnitMemory;
use crate::assembling::{ReceivedFragment, assemble};
use air_source::Side;
use cplane_sections::{CHead, sections};
use ecpri_frames::{PduRefusal, WholeMessage};
use fault_counters::Counter;
use fh_base::Ticks;
use unit_model::{ControlSection, Listener, Met, command_counter, fragment_counter, meet};
use window_config::EndpointConfig;

impl UnitMemory {
    ghost use Rattle.unit_memory.specs.Parts.{HoldsParts, HoldsSomeParts, LeavesReported, MemoryStands, MemoryStandsForSome};

    /// Counts what is no section.
    pub(crate) fn count(&mut self, counter: Counter)
        ensures holds { (side : SpecSide) (c : Config) (clock : ℤ) (n : SpecCounter → ℕ) (fs : List Fragment) (cs : List SpecControlSection) (ds : List UserSection)
            → HoldsParts side c clock self.old n fs cs ds → HoldsParts side c clock self.new (λ k. n k + once counter k) fs cs ds }
        ensures cells { self.new.cells ≡ self.old.cells }
    {
        self.counters.add(counter);
    }

    /// Counts a frame, and its refusal, if it has one.
    pub(crate) fn count_frame(&mut self, refusal: Option<PduRefusal>)
        ensures holds { (side : SpecSide) (c : Config) (clock : ℤ) (n : SpecCounter → ℕ) (fs : List Fragment) (cs : List SpecControlSection) (ds : List UserSection)
            → HoldsParts side c clock self.old n fs cs ds
            → HoldsParts side c clock self.new (λ k. n k + times (refusal_counted refusal ++ SpecCounter.Frames ∷ []) k) fs cs ds }
        ensures cells { self.new.cells ≡ self.old.cells }
    {
        self.count(Counter::Frames);
        if refusal.is_some() {
            self.count(Counter::FramesRefused);
        }
    }

    /// Treats a section of a command that is received at the clock.
    fn section<L: Listener>(&mut self, listener: &mut L, command: &ControlSection)
        requires side { self.old.cells.side ≡ Ru }
        requires proper { IsProperCommand (endpoints_of self.old.cells) command.now }
        ensures holds { (c : Config) (n : SpecCounter → ℕ) (fs : List Fragment) (cs : List SpecControlSection) (ds : List UserSection)
            → HoldsParts Ru c command.now.at.0 self.old n fs cs ds → HoldsParts Ru c command.now.at.0 self.new n fs (command.now ∷ cs) ds }
        ensures told { (c : Config) (n : SpecCounter → ℕ) (fs : List Fragment) (cs : List SpecControlSection) (ds : List UserSection)
            → HoldsParts Ru c command.now.at.0 self.old n fs cs ds
            → L.heard listener.old (Commanded command.now (command_verdict c.delays (accepted c.delays cs) command.now) ∷ []) listener.new }
        ensures reports { LeavesReported command.now.at.0 self.old.cells self.new.cells }
    {
        let verdict = self.cells.command(command);
        listener.command(command, verdict);
        self.counters.add(command_counter(verdict));
    }

    /// Treats the sections of a command message, in their order.
    fn command<L: Listener>(
        &mut self,
        listener: &mut L,
        at: Ticks,
        ep: usize,
        endpoint: &EndpointConfig,
        head: &CHead,
        bytes: &[u8],
    )
        requires side { self.old.cells.side ≡ Ru }
        requires read { IsRead endpoint.now head.now bytes.now }
        requires endpoint { IsAt (endpoints_of self.old.cells) ep endpoint.now }
        requires time { IsTime at.0 }
        ensures holds { (c : Config) (n : SpecCounter → ℕ) (fs : List Fragment) (cs : List SpecControlSection) (ds : List UserSection)
            → HoldsParts Ru c at.0 self.old n fs cs ds
            → HoldsParts Ru c at.0 self.new n fs (onto cs (commands_with ep endpoint.now at.0 head.now (sections_in head.now bytes.now))) ds }
        ensures told { (c : Config) (n : SpecCounter → ℕ) (fs : List Fragment) (cs : List SpecControlSection) (ds : List UserSection)
            → HoldsParts Ru c at.0 self.old n fs cs ds
            → L.heard listener.old (judged_commands c.delays cs (commands_with ep endpoint.now at.0 head.now (sections_in head.now bytes.now))) listener.new }
        ensures reports { LeavesReported at.0 self.old.cells self.new.cells }
    {
        for section in sections(bytes, head) {
            let command = ControlSection {
                ep,
                endpoint: *endpoint,
                at,
                head: *head,
                section,
            };
            self.section(listener, &command);
        }
    }

    /// Treats a fragment.
    fn piece<L: Listener>(&mut self, listener: &mut L, received: &ReceivedFragment<'_>)
        requires unit { HoldsSomeParts received.now.at.0 self.old }
        requires endpoint { IsAt (endpoints_of self.old.cells) received.now.ep received.now.endpoint.now }
        requires time { IsTime received.now.at.0 }
        requires sub { received.now.seq.sub < 128 }
        ensures holds { (side : SpecSide) (c : Config) (n : SpecCounter → ℕ) (fs : List Fragment) (cs : List SpecControlSection) (ds : List UserSection)
            → HoldsParts side c received.now.at.0 self.old n fs cs ds
            → let f = fragment_with received.now.ep received.now.at.0 received.now.seq received.now.bytes.now in
            let hold = hold_of side c.delays in
            let told = data_now side hold received.now.endpoint.now f fs in
            HoldsParts side c received.now.at.0 self.new (λ k. n k + times (piece_counted hold f fs told) k) (f ∷ fs) cs (data_told told ++ ds) }
        ensures told { (side : SpecSide) (c : Config) (n : SpecCounter → ℕ) (fs : List Fragment) (cs : List SpecControlSection) (ds : List UserSection)
            → HoldsParts side c received.now.at.0 self.old n fs cs ds
            → L.heard listener.old (judged_piece side c.delays (hold_of side c.delays) received.now.endpoint.now (fragment_with received.now.ep received.now.at.0 received.now.seq received.now.bytes.now) fs ds) listener.new }
        ensures reports { LeavesReported received.now.at.0 self.old.cells self.new.cells }
    {
        let verdict = assemble(
            &mut self.assembly,
            &mut self.cells,
            &mut self.counters,
            listener,
            received,
        );
        self.count(fragment_counter(verdict));
    }

    /// Treats a whole message.
    pub(crate) fn message<L: Listener>(
        &mut self,
        listener: &mut L,
        at: Ticks,
        message: &WholeMessage<'_>,
    )
        requires unit { MemoryStandsForSome at.0 self.old }
        requires time { IsTime at.0 }
        ensures holds { (side : SpecSide) (c : Config) (arrivals : List Arrival) (ms : List Meeting) (beside : List SpecCounter)
            → MemoryStands side c at.0 self.old arrivals ms beside
            → MemoryStands side c at.0 self.new arrivals (met_by_definition side c.endpoints at.0 (message_of message.now) ∷ ms) beside }
        ensures told { (side : SpecSide) (c : Config) (arrivals : List Arrival) (ms : List Meeting) (beside : List SpecCounter)
            → MemoryStands side c at.0 self.old arrivals ms beside
            → L.heard listener.old (judged_message side c at.0 ms (message_of message.now)) listener.new }
        ensures reports { LeavesReported at.0 self.old.cells self.new.cells }
    {
        listener.message(message);
        self.count(Counter::Messages);
        match meet(self.cells.side(), self.endpoints.as_slice(), message) {
            Met::Ignored(counter) => self.count(counter),
            Met::Command {
                ep,
                endpoint,
                head,
                bytes,
            } => self.command(listener, at, ep, &endpoint, &head, bytes),
            Met::Piece {
                ep,
                endpoint,
                seq,
                bytes,
            } => self.piece(
                listener,
                &ReceivedFragment {
                    at,
                    ep,
                    endpoint: &endpoint,
                    seq,
                    bytes,
                },
            ),
        }
    }
}
