// A section of data, as far as its header.
ghost use Rattle.std.specs.Prelude.{◌≡◌, []};
ghost use Rattle.unit_model.specs.Blocks.{first_data_prb, data_prb_count};
ghost use Rattle.unit_model.specs.Headings.{data_under};

use fh_base::{PrbSpan, Ticks};
use uplane_sections::{UHead, USection};
use window_config::EndpointConfig;

/// One section of a U-plane message that became complete, without the samples of its PRBs, which are given one by one.
#[derive(Clone, Copy, Debug, PartialEq, Eq)]
pub struct DataHeading {
    /// The endpoint's index in the configuration.
    pub ep: usize,
    pub endpoint: EndpointConfig,
    /// When the first of the message's fragments arrived.
    pub first: Ticks,
    /// When the last of them arrived.
    pub last: Ticks,
    pub head: UHead,
    pub section: USection,
}

impl DataHeading {
    /// The PRBs of its carrier that it has.
    pub fn prbs(&self) -> PrbSpan
        ensures first { result.first ≡ first_data_prb (data_under self.now []) }
        ensures count { result.count ≡ data_prb_count (data_under self.now []) }
    {
        PrbSpan::named(
            self.section.start_prb,
            self.section.num_prb,
            self.endpoint.prbs,
        )
    }
}
