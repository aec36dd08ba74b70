// The listener that keeps what a unit judges of a frame.
ghost use Rattle.std.specs.Prelude.{◌≡◌, [], ◌∷◌, IfOk, false};
ghost use Rattle.ecpri_fragments.specs.Assemblies.{message_of as whole_of};
ghost use Rattle.ecpri_fragments.specs.Generations.{fragment};
ghost use Rattle.ecpri_frames.specs.Left.{message_of};
ghost use Rattle.explain_heard.specs.Heard.{Keeps, HearsAll, fragment_heard, message_heard, whole_heard};
ghost use Rattle.explain_heard.specs.Laws.{hears_none, hears_more};

use crate::heard::{FragmentHeard, Heard, MessageHeard, WholeHeard};
use crate::pieces::{first_eight, first_four, total_of};
use crate::words::message_word;
use air_source::Side;
use ecpri_fragments::{Lease, SeqField, Verdict};
use ecpri_frames::WholeMessage;
use explain_model::WholeAnswer;
use fh_base::{NoMemory, Ticks};
use std::alloc::Global;
use unit_model::{CommandVerdict, ControlSection, DataHeading, DataVerdict, Listener};
use uplane_sections::URefusal;
use window_config::{Config, EndpointConfig};

/// What a unit judged of a frame, in order, and whether memory was refused.
#[derive(Drop)]
pub struct Hearing {
    /// The unit.
    pub side: Side,
    /// The endpoints in the configuration's order.
    pub endpoints: Vec<EndpointConfig>,
    /// What it judged, as far as memory was not refused.
    pub kept: Vec<Heard>,
    /// Whether memory was refused.
    pub wanting: bool,
}

impl Hearing {
    ghost use Rattle.std.specs.Prelude.{◌≡◌, [], ◌∷◌, IfOk, false};
    ghost use Rattle.explain_heard.specs.Heard.{Keeps};

    /// Nothing was judged.
    pub fn make(alloc: Global, side: Side, config: &Config) -> Result<Hearing, NoMemory>
        ensures side { IfOk result (λ h. h.side ≡ side) }
        ensures endpoints { IfOk result (λ h. h.endpoints.items ≡ config.now.endpoints) }
        ensures kept { IfOk result (λ h. h.kept.items ≡ []) }
        ensures wanting { IfOk result (λ h. h.wanting ≡ false) }
    {
        let endpoints = Vec::from_slice(alloc, config.endpoints.as_slice())?;
        Ok(Hearing {
            side,
            endpoints,
            kept: Vec::new(alloc),
            wanting: false,
        })
    }

    /// Forgets what was judged.
    pub fn clear(&mut self)
        ensures side { self.new.side ≡ self.old.side }
        ensures endpoints { self.new.endpoints.items ≡ self.old.endpoints.items }
        ensures kept { self.new.kept.items ≡ [] }
        ensures wanting { self.new.wanting ≡ self.old.wanting }
    {
        self.kept.clear();
    }

    // Keeps what was judged, unless memory was or is refused.
    fn keep(&mut self, heard: Heard)
        ensures side { self.new.side ≡ self.old.side }
        ensures endpoints { self.new.endpoints.items ≡ self.old.endpoints.items }
        ensures keeps { Keeps self.old.kept.items self.old.wanting (heard ∷ []) self.new.kept.items self.new.wanting }
    {
        if self.wanting {
            return;
        }
        match self.kept.push(heard) {
            Ok(()) => {}
            Err(_) => self.wanting = true,
        }
    }

    // Keeps a whole message of which no section is read.
    fn keep_whole(
        &mut self,
        ep: usize,
        endpoint: &EndpointConfig,
        lease: &Lease<'_>,
        answer: WholeAnswer,
    )
        ensures side { self.new.side ≡ self.old.side }
        ensures endpoints { self.new.endpoints.items ≡ self.old.endpoints.items }
        ensures keeps { Keeps self.old.kept.items self.old.wanting (whole_heard ep endpoint.now (whole_of lease.now) answer ∷ []) self.new.kept.items self.new.wanting }
    {
        match total_of(lease) {
            Some(bytes) => self.keep(Heard::Whole(WholeHeard {
                ep,
                endpoint: *endpoint,
                last: lease.last(),
                pieces: lease.count(),
                bytes,
                start: first_four(lease),
                answer,
            })),
            None => self.wanting = true,
        }
    }
}

// A fragment of data, as it is kept.
fn fragment_heard(
    at: Ticks,
    ep: usize,
    endpoint: &EndpointConfig,
    seq: SeqField,
    bytes: &[u8],
    verdict: Verdict,
) -> Heard
    ensures { result ≡ fragment_heard endpoint.now (fragment ep at seq bytes.now) verdict }
{
    Heard::Fragment(FragmentHeard {
        ep,
        endpoint: *endpoint,
        at,
        seq,
        bytes: bytes.len(),
        start: first_eight(bytes),
        verdict,
    })
}

// A whole message of a frame, as it is kept.
fn message_heard(side: Side, endpoints: &[EndpointConfig], message: &WholeMessage<'_>) -> Heard
    ensures { result ≡ message_heard side endpoints.now (message_of message.now) }
{
    Heard::Message(MessageHeard {
        place: message.place,
        kind: message.head.kind,
        size: message.payload.len(),
        word: message_word(side, endpoints, message),
    })
}

impl Listener for Hearing {
    ghost heard = { λ a judged b. HearsAll a.side a.endpoints.items a.kept.items a.wanting judged b.side b.endpoints.items b.kept.items b.wanting };

    ghost heard_none = { λ a. hears_none a.side a.endpoints.items a.kept.items a.wanting };

    ghost heard_more = { λ a b c first second. hears_more a.side b.side c.side a.endpoints.items b.endpoints.items c.endpoints.items a.kept.items b.kept.items c.kept.items a.wanting b.wanting c.wanting first second };

    fn message(&mut self, message: &WholeMessage<'_>) {
        let heard = message_heard(self.side, self.endpoints.as_slice(), message);
        self.keep(heard);
    }

    fn command(&mut self, command: &ControlSection, verdict: CommandVerdict) {
        self.keep(Heard::Command {
            section: *command,
            verdict,
        });
    }

    fn fragment(
        &mut self,
        at: Ticks,
        ep: usize,
        endpoint: &EndpointConfig,
        seq: SeqField,
        bytes: &[u8],
        verdict: Verdict,
    ) {
        let heard = fragment_heard(at, ep, endpoint, seq, bytes, verdict);
        self.keep(heard);
    }

    fn unread(&mut self, ep: usize, endpoint: &EndpointConfig, lease: &Lease<'_>, why: URefusal) {
        self.keep_whole(ep, endpoint, lease, WholeAnswer::Refused(why));
    }

    fn turned(&mut self, ep: usize, endpoint: &EndpointConfig, lease: &Lease<'_>) {
        self.keep_whole(ep, endpoint, lease, WholeAnswer::WrongWay);
    }

    fn section(&mut self, heading: &DataHeading, verdict: DataVerdict) {
        self.keep(Heard::Data {
            heading: *heading,
            verdict,
        });
    }
}
