// A unit that keeps whole lists.
ghost use Rattle.std.specs.Prelude.{◌≡◌, ℕ, ℤ, ◌+◌, ◌≤◌, ◌<◌, ◌≤ℤ◌, ◌^◌, pos, List as Items, [], ◌∷◌, ◌++◌, OnOk, IfOk, All};
ghost use Rattle.ecpri_fragments.specs.Generations.{Fragment};
ghost use Rattle.cplane_sections.specs.Message.{sections_in};
ghost use Rattle.ecpri_frames.specs.Left.{message_of};
ghost use Rattle.ecpri_frames.specs.Messages.{pdu};
ghost use Rattle.fault_counters.specs.declared.kinds.Counter.{Counter as SpecCounter};
ghost use Rattle.fault_counters.specs.Counts.{once, times};
ghost use Rattle.unit_model.specs.Terms.{IsConfig};
ghost use Rattle.unit_model.specs.declared.decoded.ControlSection.{ControlSection as SpecControlSection};
ghost use Rattle.unit_model.specs.declared.decoded.UserSection.{UserSection as SpecUserSection};
ghost use Rattle.unit_model.specs.Blocks.{with_timely};
ghost use Rattle.unit_model.specs.Commands.{with_accepted, allocation_of};
ghost use Rattle.fh_base.specs.Lists.{onto};
ghost use Rattle.unit_model.specs.Counts.{decoded_counted, refusal_counted, piece_counted};
ghost use Rattle.unit_model.specs.Decoding.{decode as decoded, data_now, data_told, sections_of};
ghost use Rattle.unit_model.specs.Meetings.{Arrival, Meeting, meetings, commands_with, fragment_with, meet as met_by_definition};
ghost use Rattle.unit_model.specs.Met.{IsRead};
ghost use Rattle.plain_units.specs.Plain.{PlainHolds, PlainHoldsSome, PlainStands, PlainStandsForSome};
ghost use Rattle.unit_model.specs.Proper.{IsAt, IsProperCommand, IsProperData, IsTime};
ghost use Rattle.unit_model.specs.Reports.{hold_of};
ghost use Rattle.unit_model.specs.Sound.{IsSoundCommand};

use crate::blocks::{data_class, data_verdict};
use crate::commands::command_verdict;
use crate::decoding::{DecodedMessage, decode};
use crate::reading::commands;
use crate::taking::{OwnedMessage, take};
use air_source::Side;
use cplane_sections::CHead;
use ecpri_fragments::{Assembly, SeqField};
use ecpri_frames::{WholeMessage, messages};
use fault_counters::{Counter, Counters};
use fh_base::{List, NoMemory, Ticks, of_ns};
use std::alloc::Global;
use unit_model::{
    Allocation, CommandVerdict, ControlSection, DataVerdict, Met, UserSection, allocation_of,
    command_counter, data_counter, fragment_counter, meet,
};
use window_config::{Class, Config, EndpointConfig};

/// How long a generation of fragments holds at this side.
fn hold(side: Side, config: &Config) -> Ticks
    requires { IsConfig config.now }
    ensures value { result.0 ≡ hold_of side config.now.delays }
    ensures low { pos 0 ≤ℤ result.0 }
    ensures high { result.0 ≤ℤ pos (2 ^ 56) }
{
    match side {
        Side::Ru => of_ns(config.delays.hold_dl),
        Side::Du => of_ns(config.delays.hold_ul),
    }
}

/// Claims what a command names, where it is accepted.
fn accept(
    accepted: &mut Vec<Allocation>,
    verdict: CommandVerdict,
    c: &ControlSection,
) -> Result<(), NoMemory>
    requires { IsSoundCommand c.now }
    ensures { OnOk result (accepted.new.items ≡ with_accepted verdict (allocation_of c.now) accepted.old.items) }
{
    if let CommandVerdict::Accepted = verdict {
        accepted.insert(0, allocation_of(c))?;
    }
    Ok(())
}

/// Keeps data that were received on time.
fn keep(timely: &mut Vec<UserSection>, class: Class, d: UserSection) -> Result<(), NoMemory>
    ensures { OnOk result (timely.new.items ≡ with_timely class d timely.old.items) }
{
    if let Class::OnTime = class {
        timely.insert(0, d)?;
    }
    Ok(())
}

/// What a unit keeps of all that was received. The newest is first in `accepted` and `timely`, and last in the lists of verdicts.
#[derive(Drop)]
pub(crate) struct Plain {
    pub(crate) assembly: Assembly,
    pub(crate) accepted: Vec<Allocation>,
    pub(crate) timely: Vec<UserSection>,
    pub(crate) command_verdicts: List<CommandVerdict>,
    pub(crate) data_verdicts: List<DataVerdict>,
    pub(crate) counters: Counters,
}

/// When something is received, and for which endpoint.
#[derive(Clone, Copy)]
struct Receipt {
    at: Ticks,
    /// The endpoint's index.
    ep: usize,
    endpoint: EndpointConfig,
}

impl Plain {
    /// A unit that received nothing.
    pub(crate) fn make(alloc: Global, side: Side, config: &Config) -> Result<Plain, NoMemory>
        requires { IsConfig config.now }
        ensures { IfOk result (λ u. PlainStands u side config.now [] []) }
    {
        let endpoints = config.endpoints.as_slice().len();
        let assembly = Assembly::make(alloc, endpoints, hold(side, config))?;
        Ok(Plain {
            assembly,
            accepted: Vec::new(alloc),
            timely: Vec::new(alloc),
            command_verdicts: List::new(alloc),
            data_verdicts: List::new(alloc),
            counters: Counters::new(),
        })
    }

    /// Counts what is no section.
    fn count(&mut self, counter: Counter)
        ensures { (side : Side) (c : Config) (n : SpecCounter → ℕ) (fs : Items Fragment) (cs : Items SpecControlSection) (ds : Items SpecUserSection)
            → PlainHolds self.old side c n fs cs ds → PlainHolds self.new side c (λ k. n k + once counter k) fs cs ds }
    {
        self.counters.add(counter);
    }

    /// Treats a section of a command.
    fn command_section(&mut self, config: &Config, c: &ControlSection) -> Result<(), NoMemory>
        requires config { IsConfig config.now }
        requires proper { IsProperCommand config.now.endpoints c.now }
        ensures { (side : Side) (n : SpecCounter → ℕ) (fs : Items Fragment) (cs : Items SpecControlSection) (ds : Items SpecUserSection)
            → PlainHolds self.old side config.now n fs cs ds → OnOk result (PlainHolds self.new side config.now n fs (c.now ∷ cs) ds) }
    {
        let verdict = command_verdict(&config.delays, &self.accepted, c);
        self.command_verdicts.push(verdict)?;
        self.counters.add(command_counter(verdict));
        accept(&mut self.accepted, verdict, c)
    }

    /// Treats a section of data.
    fn data_section(&mut self, side: Side, config: &Config, d: UserSection) -> Result<(), NoMemory>
        requires config { IsConfig config.now }
        requires unit { PlainHoldsSome self.old side config.now }
        requires proper { IsProperData config.now.endpoints d }
        ensures { (n : SpecCounter → ℕ) (fs : Items Fragment) (cs : Items SpecControlSection) (ds : Items SpecUserSection)
            → PlainHolds self.old side config.now n fs cs ds → OnOk result (PlainHolds self.new side config.now n fs cs (d ∷ ds)) }
    {
        let class = data_class(side, &config.delays, &d);
        let verdict = data_verdict(side, &config.delays, &self.timely, &d);
        self.data_verdicts.push(verdict)?;
        self.counters.add(data_counter(verdict));
        keep(&mut self.timely, class, d)
    }

    /// Treats the sections of a message, of which the last is first.
    fn data_sections(
        &mut self,
        side: Side,
        config: &Config,
        mut sections: Vec<UserSection>,
    ) -> Result<(), NoMemory>
        requires config { IsConfig config.now }
        requires unit { PlainHoldsSome self.old side config.now }
        requires proper { All (IsProperData config.now.endpoints) sections.items }
        ensures { (n : SpecCounter → ℕ) (fs : Items Fragment) (cs : Items SpecControlSection) (ds : Items SpecUserSection)
            → PlainHolds self.old side config.now n fs cs ds → OnOk result (PlainHolds self.new side config.now n fs cs (sections.items ++ ds)) }
    {
        while let Some(d) = sections.pop() {
            self.data_section(side, config, d)?;
        }
        Ok(())
    }

    /// Treats the sections of a command message.
    fn command_sections(
        &mut self,
        alloc: Global,
        config: &Config,
        receipt: Receipt,
        head: &CHead,
        bytes: &[u8],
    ) -> Result<(), NoMemory>
        requires config { IsConfig config.now }
        requires read { IsRead receipt.endpoint head.now bytes.now }
        requires endpoint { IsAt config.now.endpoints receipt.ep receipt.endpoint }
        requires time { IsTime receipt.at.0 }
        ensures { (side : Side) (n : SpecCounter → ℕ) (fs : Items Fragment) (cs : Items SpecControlSection) (ds : Items SpecUserSection)
            → PlainHolds self.old side config.now n fs cs ds
            → OnOk result (PlainHolds self.new side config.now n fs (onto cs (commands_with receipt.ep receipt.endpoint receipt.at.0 head.now (sections_in head.now bytes.now))) ds) }
    {
        let Receipt { at, ep, endpoint } = receipt;
        let commands = commands(alloc, at, ep, &endpoint, head, bytes)?;
        for c in &commands {
            self.command_section(config, c)?;
        }
        Ok(())
    }

    /// Treats a message of data that became whole.
    fn whole(
        &mut self,
        alloc: Global,
        side: Side,
        config: &Config,
        ep: usize,
        endpoint: &EndpointConfig,
        message: &OwnedMessage,
    ) -> Result<(), NoMemory>
        requires config { IsConfig config.now }
        requires unit { PlainHoldsSome self.old side config.now }
        requires endpoint { IsAt config.now.endpoints ep endpoint.now }
        requires first { IsTime message.now.first.0 }
        requires last { IsTime message.now.last.0 }
        ensures { (n : SpecCounter → ℕ) (fs : Items Fragment) (cs : Items SpecControlSection) (ds : Items SpecUserSection)
            → PlainHolds self.old side config.now n fs cs ds
            → let d = decoded side ep endpoint.now message.now.first.0 message.now.last.0 message.now.bytes in
            OnOk result (PlainHolds self.new side config.now (λ k. n k + times (decoded_counted (Some d)) k) fs cs (sections_of d ++ ds)) }
    {
        let bytes = message.bytes.as_slice();
        let decoded = decode(
            alloc,
            side,
            ep,
            endpoint,
            message.first,
            message.last,
            bytes,
        )?;
        match decoded {
            DecodedMessage::Refused => self.count(Counter::URefused),
            DecodedMessage::Backwards => self.count(Counter::WrongWay),
            DecodedMessage::Sections(sections) => self.data_sections(side, config, sections)?,
        }
        Ok(())
    }

    /// Treats a fragment.
    fn piece(
        &mut self,
        alloc: Global,
        side: Side,
        config: &Config,
        receipt: Receipt,
        seq: SeqField,
        bytes: &[u8],
    ) -> Result<(), NoMemory>
        requires config { IsConfig config.now }
        requires unit { PlainHoldsSome self.old side config.now }
        requires endpoint { IsAt config.now.endpoints receipt.ep receipt.endpoint }
        requires time { IsTime receipt.at.0 }
        requires sub { seq.sub < 128 }
        ensures { (n : SpecCounter → ℕ) (fs : Items Fragment) (cs : Items SpecControlSection) (ds : Items SpecUserSection)
            → PlainHolds self.old side config.now n fs cs ds
            → let f = fragment_with receipt.ep receipt.at.0 seq bytes.now in
            let hold = hold_of side config.now.delays in
            let told = data_now side hold receipt.endpoint f fs in
            OnOk result (PlainHolds self.new side config.now (λ k. n k + times (piece_counted hold f fs told) k) (f ∷ fs) cs (data_told told ++ ds)) }
    {
        let Receipt { at, ep, endpoint } = receipt;
        let (verdict, whole) = take(alloc, &mut self.assembly, ep, at, seq, bytes)?;
        self.count(fragment_counter(verdict));
        match whole {
            Some(message) => self.whole(alloc, side, config, ep, &endpoint, &message),
            None => Ok(()),
        }
    }

    /// Treats a whole message.
    fn message(
        &mut self,
        alloc: Global,
        side: Side,
        config: &Config,
        at: Ticks,
        message: &WholeMessage<'_>,
    ) -> Result<(), NoMemory>
        requires config { IsConfig config.now }
        requires unit { PlainStandsForSome self.old side config.now }
        requires time { IsTime at.0 }
        ensures { (arrivals : Items Arrival) (ms : Items Meeting)
            → PlainStands self.old side config.now arrivals ms
            → OnOk result (PlainStands self.new side config.now arrivals (met_by_definition side config.now.endpoints at.0 (message_of message.now) ∷ ms)) }
    {
        self.count(Counter::Messages);
        match meet(side, config.endpoints.as_slice(), message) {
            Met::Ignored(counter) => {
                self.count(counter);
                Ok(())
            }
            Met::Command {
                ep,
                endpoint,
                head,
                bytes,
            } => self.command_sections(alloc, config, Receipt { at, ep, endpoint }, &head, bytes),
            Met::Piece {
                ep,
                endpoint,
                seq,
                bytes,
            } => self.piece(
                alloc,
                side,
                config,
                Receipt { at, ep, endpoint },
                seq,
                bytes,
            ),
        }
    }

    /// Counts a frame, and whether it spells no PDU.
    fn count_frame(&mut self, frame: &[u8])
        ensures { (side : Side) (c : Config) (n : SpecCounter → ℕ) (fs : Items Fragment) (cs : Items SpecControlSection) (ds : Items SpecUserSection)
            → PlainHolds self.old side c n fs cs ds
            → PlainHolds self.new side c (λ k. n k + times (refusal_counted (pdu frame.now).refusal ++ SpecCounter.Frames ∷ []) k) fs cs ds }
    {
        self.count(Counter::Frames);
        if messages(frame).refusal().is_some() {
            self.count(Counter::FramesRefused);
        }
    }

    /// Treats a frame that arrives at a time.
    pub(crate) fn frame(
        &mut self,
        alloc: Global,
        side: Side,
        config: &Config,
        at: Ticks,
        frame: &[u8],
    ) -> Result<(), NoMemory>
        requires config { IsConfig config.now }
        requires unit { PlainStandsForSome self.old side config.now }
        requires time { IsTime at.0 }
        ensures { (arrivals : Items Arrival)
            → let a : Arrival = record { at = at.0; frame = frame.now } in
            PlainStands self.old side config.now arrivals (meetings side config.now.endpoints arrivals)
            → OnOk result (PlainStands self.new side config.now (a ∷ arrivals) (meetings side config.now.endpoints (a ∷ arrivals))) }
    {
        self.count_frame(frame);
        for message in messages(frame) {
            self.message(alloc, side, config, at, &message)?;
        }
        Ok(())
    }
}
