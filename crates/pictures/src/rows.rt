// What is counted of all arrivals.
ghost use Rattle.std.specs.Prelude.{◌≡◌, ◌<◌, ◌≤◌, ◌++◌, [], ◌∷◌, List, length, IfSome, IfOk};
ghost use Rattle.pictures.specs.Rows.{rows_of};
ghost use Rattle.pictures.specs.declared.arrivals.Arrival.{Arrival};

use crate::arrivals::{Arrival, Flow};
use crate::tallies::Row;
use fh_base::NoMemory;
use std::alloc::Global;

/// What is counted of the arrivals of each flow.
#[derive(Drop)]
pub struct Rows {
    pub downlink_commands: Row,
    pub uplink_commands: Row,
    pub downlink_data: Row,
    pub uplink_data: Row,
}

impl Rows {
    /// Nothing is counted.
    ///
    /// # Errors
    ///
    /// [`NoMemory`] where memory runs out.
    #[tactic(auto, unfolding(crate::specs::Rows::rows_of))]
    pub(crate) fn new(alloc: Global) -> Result<Rows, NoMemory>
        ensures { IfOk result (λ r. r ≡ rows_of []) }
    {
        Ok(Rows {
            downlink_commands: Row::new(alloc)?,
            uplink_commands: Row::new(alloc)?,
            downlink_data: Row::new(alloc)?,
            uplink_data: Row::new(alloc)?,
        })
    }

    /// Counts an arrival.
    pub(crate) fn add(&mut self, a: Arrival)
        requires first { a.first ≤ 1040 }
        requires last { IfSome a.last (λ column. column ≤ 1040) }
        requires few { (came : List Arrival) × (self.old ≡ rows_of came) × (length came < 500000000) }
        ensures { (came : List Arrival) → self.old ≡ rows_of came → self.new ≡ rows_of (came ++ a ∷ []) }
    {
        match a.flow {
            Flow::DownlinkCommands => self.downlink_commands.add(a),
            Flow::UplinkCommands => self.uplink_commands.add(a),
            Flow::DownlinkData => self.downlink_data.add(a),
            Flow::UplinkData => self.uplink_data.add(a),
        }
    }
}
