// The frames of a unit's messages.
ghost use Rattle.std.specs.Prelude.{◌≡◌, ◌<◌, ◌≤◌, ◌++◌, length, List, [], ◌∷◌, false, IfOk, IsErr, OnErr, OnOk, Option};
ghost use Rattle.air_source.specs.Answers.{AnswersBy};
ghost use Rattle.air_source.specs.Kept.{IsKept, closure_of};
ghost use Rattle.plan_model.specs.Packs.{Message};
ghost use Rattle.unit_model.specs.ProperJobs.{IsProperJob};
ghost use Rattle.unit_model.specs.Standing.{History};
ghost use Rattle.unit_model.specs.declared.jobs.UplinkJob.{UplinkJob as SpecJob};
ghost use Rattle.uplink_model.specs.Frames.{Antenna, frames_behind, uplink_message_frames};
ghost use Rattle.fh_base.specs.Lists.{onto};
ghost use Rattle.uplink_path.specs.Packing.{IsPacked};
ghost use Rattle.uplink_path.specs.Sending.{SentSome};
ghost use Rattle.window_config.specs.Configs.{IsConfig};
ghost use Rattle.window_config.specs.declared.config.Config.{Config as SpecConfig};
ghost use Rattle.ru_buffers.specs.Calls.{HasGivenPast, StandsFor};

use crate::pending::Pending;
use crate::rules::{Rules, Run, rules_of, wait_in};
use crate::sending::{NumberedMessage, send_message};
use air_source::{Link, RePlace, Samples};
use bfp_codec::Wide;
use fh_base::NoMemory;
use ru_buffers::Ru;
use std::alloc::Global;
use unit_model::UplinkJob;
use window_config::{Config, EndpointConfig};

/// What sends a radio unit's uplink frames (O-RAN.WG4.CUS, U-plane messages of the uplink and the window Ta3; how sections are packed
/// and messages numbered is this project's profile).
#[derive(Drop)]
pub struct Uplink<F: Fn(RePlace) -> Wide> {
    pub(crate) rules: Rules,
    pub(crate) endpoints: Vec<EndpointConfig>,
    pub(crate) antenna: Samples<F>,
    /// The sequence id of the next message of each endpoint.
    pub(crate) numbers: [u8; 16],
    pub(crate) run: Option<Run>,
    /// Room for one frame.
    pub(crate) buffer: Vec<u8>,
    pub(crate) failed: bool,
}

impl<F: Fn(RePlace) -> Wide> Uplink<F> {
    ghost use Rattle.uplink_path.specs.Emitting.{HasFailed, MaySend, AreNumbered, SentAll, SentFirst, HasNotFailed, kept_antenna};
    ghost use Rattle.uplink_path.specs.Opened.{CanPack, CanTake, IsOpen, IsProperMessage, StoppedAtJob, TookJob, messages_from};

    /// What sends the frames of a unit of this configuration, with the samples of this antenna.
    ///
    /// # Errors
    ///
    /// [`NoMemory`] where memory runs out.
    pub fn make(alloc: Global, config: &Config, antenna: Samples<F>) -> Result<Uplink<F>, NoMemory>
        requires config { IsConfig config.now }
        ensures numbered { IfOk result (λ u. AreNumbered config.now u []) }
        ensures antenna { IfOk result (λ u. kept_antenna u ≡ antenna) }
    {
        let endpoints = Vec::from_slice(alloc, config.endpoints.as_slice())?;
        let buffer = Vec::from_elem(alloc, 0u8, 8 + config.fragment)?;
        Ok(Uplink {
            rules: rules_of(config),
            endpoints,
            antenna,
            numbers: [0; 16],
            run: None,
            buffer,
            failed: false,
        })
    }

    /// Hands over the frames of one message.
    fn send<L: Link>(&mut self, message: &Pending, link: &mut L) -> Result<(), NoMemory>
        requires kept { IsKept F.pre F.post self.old.antenna }
        requires some { (c : SpecConfig) × (ms : List (Message SpecJob)) × (m : Message SpecJob) × AreNumbered c self.old ms × IsPacked c message.now m × IsProperMessage c m }
        ensures antenna { self.new.antenna ≡ self.old.antenna }
        ensures sent { (c : SpecConfig) (answer : Antenna) (ms : List (Message SpecJob)) (m : Message SpecJob) → AnswersBy (F.post (closure_of self.old.antenna)) answer
            → AreNumbered c self.old ms → IsPacked c message.now m → IsProperMessage c m → OnOk result (L.sent link.new ≡ L.sent link.old ++ uplink_message_frames c answer ms m) }
        ensures numbered { (c : SpecConfig) (ms : List (Message SpecJob)) (m : Message SpecJob)
            → AreNumbered c self.old ms → IsPacked c message.now m → IsProperMessage c m → OnOk result (AreNumbered c self.new (m ∷ ms)) }
        ensures err { (c : SpecConfig) (answer : Antenna) (ms : List (Message SpecJob)) (m : Message SpecJob) → AnswersBy (F.post (closure_of self.old.antenna)) answer
            → AreNumbered c self.old ms → IsPacked c message.now m → IsProperMessage c m → OnErr result (SentSome (uplink_message_frames c answer ms m) (L.sent link.old) (L.sent link.new)) }
    {
        let first = message.first;
        let endpoint = self.endpoints[first.ep];
        let number = self.numbers[first.ep];
        let wait = wait_in(self.run, &first).min(self.rules.departures.spread);
        let next = send_message(
            &self.rules,
            &endpoint,
            &self.antenna,
            &NumberedMessage {
                message,
                number,
                wait,
            },
            self.buffer.as_mut_slice(),
            link,
        )?;
        self.numbers[first.ep] = number.wrapping_add(1);
        self.run = Some(Run {
            ep: first.ep,
            slot: first.slot,
            symbol: first.symbol,
            wait: next,
        });
        Ok(())
    }

    /// Takes a job into the message that is open, or sends this one and opens the job's own. The one that is open then.
    fn pack<L: Link>(
        &mut self,
        opened: Option<Pending>,
        job: &UplinkJob,
        link: &mut L,
    ) -> Result<Pending, NoMemory>
        requires kept { IsKept F.pre F.post self.old.antenna }
        requires some { CanPack self.old opened job.now }
        ensures antenna { self.new.antenna ≡ self.old.antenna }
        ensures took { (c : SpecConfig) (ms : List (Message SpecJob)) (m : Option (Message SpecJob)) → AreNumbered c self.old ms → IsOpen c opened m → CanTake c job.now
            → IfOk result (λ p. TookJob (F.post (closure_of self.old.antenna)) c ms m job.now self.new p (L.sent link.old) (L.sent link.new)) }
        ensures err { (c : SpecConfig) (answer : Antenna) (ms : List (Message SpecJob)) (m : Option (Message SpecJob)) → AnswersBy (F.post (closure_of self.old.antenna)) answer
            → AreNumbered c self.old ms → IsOpen c opened m → CanTake c job.now → OnErr result (StoppedAtJob c ms answer m job.now (L.sent link.old) (L.sent link.new)) }
    {
        let endpoint = self.endpoints[job.ep];
        if let Some(mut message) = opened {
            if message.takes(&endpoint, self.rules.pack, job) {
                message.push(&endpoint, job);
                return Ok(message);
            }
            self.send(&message, link)?;
        }
        Ok(Pending::alone(&endpoint, job))
    }

    /// Sends the message that is open, if there is one.
    fn close<L: Link>(&mut self, opened: Option<Pending>, link: &mut L) -> Result<(), NoMemory>
        requires kept { IsKept F.pre F.post self.old.antenna }
        requires some { (c : SpecConfig) × (ms : List (Message SpecJob)) × (m : Option (Message SpecJob)) × AreNumbered c self.old ms × IsOpen c opened m }
        ensures antenna { self.new.antenna ≡ self.old.antenna }
        ensures sent { (c : SpecConfig) (answer : Antenna) (ms : List (Message SpecJob)) (m : Option (Message SpecJob)) → AnswersBy (F.post (closure_of self.old.antenna)) answer
            → AreNumbered c self.old ms → IsOpen c opened m → OnOk result (L.sent link.new ≡ L.sent link.old ++ frames_behind c answer ms (messages_from c m [])) }
        ensures numbered { (c : SpecConfig) (ms : List (Message SpecJob)) (m : Option (Message SpecJob))
            → AreNumbered c self.old ms → IsOpen c opened m → OnOk result (AreNumbered c self.new (onto ms (messages_from c m []))) }
        ensures err { (c : SpecConfig) (answer : Antenna) (ms : List (Message SpecJob)) (m : Option (Message SpecJob)) → AnswersBy (F.post (closure_of self.old.antenna)) answer
            → AreNumbered c self.old ms → IsOpen c opened m → OnErr result (SentSome (frames_behind c answer ms (messages_from c m [])) (L.sent link.old) (L.sent link.new)) }
    {
        match opened {
            Some(message) => self.send(&message, link),
            None => Ok(()),
        }
    }

    /// Takes every message that is due and hands over its frames.
    fn emit_all<L: Link>(&mut self, ru: &mut Ru, link: &mut L) -> Result<(), NoMemory>
        requires { MaySend F.pre F.post self.old ru.old }
        ensures antenna { self.new.antenna ≡ self.old.antenna }
        ensures sent { (c : SpecConfig) (h : History) (ms : List (Message SpecJob)) → AreNumbered c self.old ms → StandsFor c ru.old h
            → OnOk result (SentAll (F.post (closure_of self.old.antenna)) c h ms self.new ru.new (L.sent link.old) (L.sent link.new)) }
        ensures given { OnOk result (HasGivenPast ru.new) }
        ensures err { (c : SpecConfig) (h : History) (ms : List (Message SpecJob)) → AreNumbered c self.old ms → StandsFor c ru.old h
            → OnErr result (SentFirst (F.post (closure_of self.old.antenna)) c h ms ru.new (L.sent link.old) (L.sent link.new)) }
    {
        let mut opened = None;
        while let Some(job) = ru.next_uplink() {
            opened = Some(self.pack(opened, &job, link)?);
        }
        self.close(opened, link)
    }

    /// Takes every message of the unit that is due and hands its frames to the link, with the times at which they leave. After
    /// `NoMemory` the first of the frames were sent, and every later call answers `NoMemory` and does nothing.
    ///
    /// # Errors
    ///
    /// [`NoMemory`] where the link has no room for a frame.
    pub fn emit<L: Link>(&mut self, ru: &mut Ru, link: &mut L) -> Result<(), NoMemory>
        requires { HasNotFailed self.old → MaySend F.pre F.post self.old ru.old }
        ensures antenna { kept_antenna self.new ≡ kept_antenna self.old }
        ensures sent { (c : SpecConfig) (h : History) (ms : List (Message SpecJob)) → AreNumbered c self.old ms → StandsFor c ru.old h
            → OnOk result (SentAll (F.post (closure_of (kept_antenna self.old))) c h ms self.new ru.new (L.sent link.old) (L.sent link.new)) }
        ensures given { OnOk result (HasGivenPast ru.new) }
        ensures err { (c : SpecConfig) (h : History) (ms : List (Message SpecJob)) → AreNumbered c self.old ms → StandsFor c ru.old h
            → OnErr result (SentFirst (F.post (closure_of (kept_antenna self.old))) c h ms ru.new (L.sent link.old) (L.sent link.new)) }
        ensures failed { OnErr result (HasFailed self.new) }
        ensures stays { HasFailed self.old → IsErr result }
        ensures idle { HasFailed self.old → ru.new ≡ ru.old }
        ensures silent { HasFailed self.old → L.sent link.new ≡ L.sent link.old }
    {
        if self.failed {
            return Err(NoMemory);
        }
        match self.emit_all(ru, link) {
            Ok(()) => Ok(()),
            Err(NoMemory) => {
                self.failed = true;
                Err(NoMemory)
            }
        }
    }
}
