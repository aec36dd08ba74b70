// What hears what a unit judges.
ghost use Rattle.std.specs.Prelude.{List, [], ◌∷◌, ◌++◌};
ghost use Rattle.ecpri_frames.specs.Left.{message_of};
ghost use Rattle.ecpri_fragments.specs.Assemblies.{message_of as whole_of};
ghost use Rattle.ecpri_fragments.specs.Generations.{fragment};
ghost use Rattle.unit_model.specs.Judgements.{Judgement, Met, Commanded, Fragmented, Unread, Turned, Given};

use crate::decoded::ControlSection;
use crate::heading::DataHeading;
use crate::verdicts::{CommandVerdict, DataVerdict};
use ecpri_fragments::{Lease, SeqField, Verdict};
use ecpri_frames::WholeMessage;
use fh_base::Ticks;
use uplane_sections::URefusal;
use window_config::EndpointConfig;

/// What hears what a unit judges, one judgement at a call. It cannot fail. Code over any listener knows what it heard by these
/// ghost members and their laws alone.
pub trait Listener {
    /// From the first listener to the second, it heard these judgements, in order.
    ghost heard: { Self → List Judgement → Self → Type 0 };

    /// Hears a whole message of a frame, before what it holds.
    fn message(&mut self, message: &WholeMessage<'_>)
        ensures { heard self.old (Met (message_of message.now) ∷ []) self.new };

    /// Hears a section of a command, and its verdict.
    fn command(&mut self, command: &ControlSection, verdict: CommandVerdict)
        ensures { heard self.old (Commanded command.now verdict ∷ []) self.new };

    /// Hears a fragment of a message of data, and what became of it, before the message that it makes whole.
    fn fragment(
        &mut self,
        at: Ticks,
        ep: usize,
        endpoint: &EndpointConfig,
        seq: SeqField,
        bytes: &[u8],
        verdict: Verdict,
    )
        ensures { heard self.old (Fragmented endpoint.now (fragment ep at seq bytes.now) verdict ∷ []) self.new };

    /// Hears a whole message of data that its layout refuses.
    fn unread(&mut self, ep: usize, endpoint: &EndpointConfig, lease: &Lease<'_>, why: URefusal)
        ensures { heard self.old (Unread ep endpoint.now (whole_of lease.now) why ∷ []) self.new };

    /// Hears a whole message of data that has the other unit's direction.
    fn turned(&mut self, ep: usize, endpoint: &EndpointConfig, lease: &Lease<'_>)
        ensures { heard self.old (Turned ep endpoint.now (whole_of lease.now) ∷ []) self.new };

    /// Hears a section of data, and its verdict.
    fn section(&mut self, heading: &DataHeading, verdict: DataVerdict)
        ensures { heard self.old (Given heading.now verdict ∷ []) self.new };

    /// An unchanged listener heard nothing.
    ghost heard_none: { (a : Self) → heard a [] a };

    /// Hearing one list and then another is hearing both in turn.
    ghost heard_more: { (a b c : Self) (first second : List Judgement) → heard a first b → heard b second c → heard a (first ++ second) c };
}

/// A listener that hears nothing.
#[derive(Drop)]
pub struct Deaf {}

impl Listener for Deaf {
    ghost heard = { λ _ _ _. Unit {0} };

    ghost heard_none = { λ _. tt };

    ghost heard_more = { λ _ _ _ _ _ _ _. tt };

    fn message(&mut self, _message: &WholeMessage<'_>) {}

    fn command(&mut self, _command: &ControlSection, _verdict: CommandVerdict) {}

    fn fragment(
        &mut self,
        _at: Ticks,
        _ep: usize,
        _endpoint: &EndpointConfig,
        _seq: SeqField,
        _bytes: &[u8],
        _verdict: Verdict,
    ) {}

    fn unread(
        &mut self,
        _ep: usize,
        _endpoint: &EndpointConfig,
        _lease: &Lease<'_>,
        _why: URefusal,
    ) {}

    fn turned(&mut self, _ep: usize, _endpoint: &EndpointConfig, _lease: &Lease<'_>) {}

    fn section(&mut self, _heading: &DataHeading, _verdict: DataVerdict) {}
}
