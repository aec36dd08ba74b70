// The message that is being packed.
ghost use Rattle.std.specs.Prelude.{◌≡◌, ◌+◌, ◌<◌, ◌≤◌, ◌^◌, length};
ghost use Rattle.window_config.specs.Endpoints.{IsEndpoint};
ghost use Rattle.window_config.specs.declared.config.Config.{Config as SpecConfig};
ghost use Rattle.unit_model.specs.Proper.{IsAt};
ghost use Rattle.unit_model.specs.declared.jobs.UplinkJob.{UplinkJob as SpecJob};
ghost use Rattle.uplink_model.specs.Frames.{head_of, section_of};
ghost use Rattle.plan_model.specs.Streams.{section_size};
ghost use Rattle.ecpri_fragments.specs.declared.place.TheConstants.{MESSAGE_BYTES};

use frame_bytes::DataSection;
use plan_model::{MessageSize, section_size};
use unit_model::UplinkJob;
use uplane_sections::UHead;
use window_config::{EndpointConfig, MESSAGE_SECTIONS};

/// A message that may take more sections.
#[derive(Clone, Copy, Debug)]
pub(crate) struct Pending {
    pub(crate) first: UplinkJob,
    pub(crate) sections: [DataSection; MESSAGE_SECTIONS],
    pub(crate) size: MessageSize,
}

/// A job's section.
fn section_of(job: &UplinkJob) -> DataSection
    ensures { result ≡ section_of job.now }
{
    DataSection {
        id: job.section % 4096,
        start_prb: job.start_prb,
        num_prb: job.num_prb,
    }
}

/// The header of a job's message.
pub(crate) fn head_of(job: &UplinkJob) -> UHead
    ensures { result ≡ head_of job.now }
{
    UHead {
        down: false,
        filter: job.filter % 16,
        frame_id: job.slot.frame.rem_euclid(256) as u8,
        subframe: job.slot.subframe,
        slot: job.slot.slot,
        symbol: job.symbol,
    }
}

impl Pending {
    ghost use Rattle.plan_model.specs.Packs.{Message, alone, with_part};
    ghost use Rattle.uplink_model.specs.Messages.{takes_job};
    ghost use Rattle.uplink_path.specs.Packing.{IsPacked};

    /// The message of one job.
    pub(crate) fn alone(endpoint: &EndpointConfig, job: &UplinkJob) -> Pending
        requires { IsEndpoint endpoint.now }
        ensures packed { (c : SpecConfig) → IsAt c.endpoints job.now.ep endpoint.now → IsPacked c result (alone job.now) }
        ensures small { result.size.bytes ≤ MESSAGE_BYTES }
    {
        let mut sections = [DataSection {
            id: 0,
            start_prb: 0,
            num_prb: 0,
        }; MESSAGE_SECTIONS];
        sections[0] = section_of(job);
        Pending {
            first: *job,
            sections,
            size: MessageSize::of_one(section_size(endpoint, job.num_prb)),
        }
    }

    /// Whether it takes a job of this endpoint too.
    pub(crate) fn takes(&self, endpoint: &EndpointConfig, pack: usize, job: &UplinkJob) -> bool
        requires endpoint { IsEndpoint endpoint.now }
        requires short { self.now.size.bytes ≤ 2 ^ 20 }
        ensures value { (c : SpecConfig) (m : Message SpecJob) → IsPacked c self.now m → IsAt c.endpoints job.now.ep endpoint.now → pack ≡ c.pack
            → result ≡ takes_job c m job.now }
    {
        self.first.ep == job.ep
            && self.first.slot == job.slot
            && self.first.symbol == job.symbol
            && self.first.filter == job.filter
            && self
                .size
                .has_room(pack, section_size(endpoint, job.num_prb))
    }

    /// Takes a job.
    pub(crate) fn push(&mut self, endpoint: &EndpointConfig, job: &UplinkJob)
        requires endpoint { IsEndpoint endpoint.now }
        requires short { self.old.size.bytes ≤ 2 ^ 20 }
        requires room { self.old.size.parts < 64 }
        ensures { (c : SpecConfig) (m : Message SpecJob) → IsPacked c self.old m → IsAt c.endpoints job.now.ep endpoint.now → IsPacked c self.new (with_part m job.now) }
    {
        self.sections[self.size.parts] = section_of(job);
        self.size = self.size.larger(section_size(endpoint, job.num_prb));
    }
}
