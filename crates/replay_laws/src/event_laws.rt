// The events of a replay: what a report tells of the frames that land at the two units and of their results, in the order of time, by definition
ghost use Rattle.unit_laws.specs.Ends.{CellsEnd, JobsEnd};
ghost use Rattle.replay_laws.specs.Ending.{NoCellIsLeft, NoMessageIsLeft, PlannedCellsEnd};

/// Of what lands by 1,099 s all is told by the end of time, 1,100 s: no cell is due at either unit after it, and no message is left.
pub fn all_is_told_by_the_end()
    ensures cells { CellsEnd }
    ensures jobs { JobsEnd }
    ensures planned { PlannedCellsEnd }
    ensures due { NoCellIsLeft }
    ensures given { NoMessageIsLeft }
{}
