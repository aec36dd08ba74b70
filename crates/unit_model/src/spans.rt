// The PRBs that a section names.
ghost use Rattle.std.specs.Prelude.{◌≡◌};
ghost use Rattle.unit_model.specs.Claims.{first_prb, prb_count};

use crate::allocations::Allocation;
use fh_base::PrbSpan;

impl Allocation {
    /// The PRBs of its carrier that it names.
    pub fn prbs(&self) -> PrbSpan
        ensures first { result.first ≡ first_prb self.now }
        ensures count { result.count ≡ prb_count self.now }
    {
        PrbSpan::named(self.start_prb, self.num_prb, self.endpoint.prbs)
    }
}
